//! A source of a text, and what its calls mean.

ghost use Rattle.std.specs.Prelude.{None, ◌≡◌, ◌<◌, ◌≤◌, length, is_ok, OnErr, IfOk, IfSome};
ghost use Rattle.pd_kinds.specs.Objects.{SourceState, CountsFault};
ghost use Rattle.pd_image.specs.Source.{AttachesSource, KeepsSource, TakesBytes};

use crate::Failed;

/// A source of a text.
pub trait Source {
    /// What the source means.
    ghost state: { Self → SourceState };

    /// Opens the source at the path. It is called once, before all other calls.
    fn attach(&mut self, path: &str) -> Result<(), Failed>
        requires { (state self.old).access ≡ 0 }
        ensures attached { AttachesSource path.now (is_ok result) (state self.old) (state self.new) }
        ensures faults { CountsFault result (state self.old).faults (state self.new).faults };

    /// Moves bytes from the front of what is left to the front of `into`, and answers how many: 0 is the
    /// end of the input. After `Failed` the bytes in `into` are any, and nothing was taken.
    fn take(&mut self, into: &mut [u8]) -> Result<usize, Failed>
        requires attached { (state self.old).access ≡ 1 }
        requires room { 0 < length into.old }
        ensures taken { IfOk result (λ n. n ≤ length into.new) }
        ensures content { IfOk result (λ n. IfSome (state self.old).left (TakesBytes n into.new (state self.new).left)) }
        ensures failed { OnErr result ((state self.new).left ≡ (state self.old).left) }
        ensures kept { KeepsSource (state self.old) (state self.new) }
        ensures faults { CountsFault result (state self.old).faults (state self.new).faults };

    /// The path isn't told before `attach`.
    ghost unnamed: { (object : Self) → (state object).access ≡ 0 → (state object).path ≡ None };
}
