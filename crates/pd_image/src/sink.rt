//! A sink for bytes, and what its calls mean.

ghost use Rattle.std.specs.Prelude.{None, ◌≡◌, [], is_ok, OnOk, unwrap_or};
ghost use Rattle.std.specs.Option.{option_copied};
ghost use Rattle.pd_kinds.specs.Objects.{SinkState, CountsFault, Appends, AppendsFront};
ghost use Rattle.pd_image.specs.Sink.{AttachesSink, KeepsSink};

use crate::Failed;

/// A sink for bytes.
pub trait Sink {
    /// What the sink means.
    ghost state: { Self → SinkState };

    /// Opens the sink at the path, or as the standard stream that it was made for. It is called once,
    /// before all other calls.
    fn attach(&mut self, path: Option<&str>) -> Result<(), Failed>
        requires { (state self.old).access ≡ 0 }
        ensures attached { AttachesSink (unwrap_or (option_copied path.entry) []) (is_ok result) (state self.old) (state self.new) }
        ensures faults { CountsFault result (state self.old).faults (state self.new).faults };

    /// Appends all of the bytes. After `Failed` a front of them was appended.
    fn put(&mut self, bytes: &[u8]) -> Result<(), Failed>
        requires { (state self.old).access ≡ 1 }
        ensures whole { OnOk result (Appends bytes.now (state self.old).written (state self.new).written) }
        ensures front { AppendsFront bytes.now (state self.old).written (state self.new).written }
        ensures kept { KeepsSink (state self.old) (state self.new) }
        ensures faults { CountsFault result (state self.old).faults (state self.new).faults };

    /// The path isn't told before `attach`.
    ghost unnamed: { (object : Self) → (state object).access ≡ 0 → (state object).path ≡ None };
}
