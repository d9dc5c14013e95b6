//! What the lines so far of a pool's text tell of the leaves that devices share (`thin_restore`).

ghost use Rattle.std.specs.Prelude.{◌≡◌, ◌+◌, ◌-◌, ◌^◌, ◌<◌, ◌≤◌, List, [], ◌∷◌, OnOk, false};
ghost use Rattle.pd_grammar.specs.ThinText.{Line, LeafHead, leaf_line, use_line, map_line, leaf_number};
ghost use Rattle.pd_grammar.specs.ThinText.{has_device, runs_of_leaf, number_in, has_unused_leaf};
ghost use Rattle.pd_texts.specs.ThinLine.{run_of};

use crate::thin_text::Run2;
use std::alloc::{AllocError, Global};

/// What the map lines of a leaf tell of it, and whether it is used.
#[derive(Clone, Copy)]
pub(crate) struct ToldLeaf {
    /// Its least virtual block.
    least: u64,
    /// Its greatest one.
    greatest: u64,
    /// The number of its mappings.
    entries: u32,
    /// Whether a device uses it.
    is_used: bool,
}

impl ToldLeaf {
    ghost use Rattle.pd_texts.specs.ThinState.{nothing_told, end_told, with_run};

    /// A leaf without a map line.
    fn nothing() -> ToldLeaf
        ensures { result ≡ nothing_told }
    {
        ToldLeaf {
            least: 0,
            greatest: 0,
            entries: 0,
            is_used: false,
        }
    }

    /// Its least virtual block.
    pub(crate) fn least(&self) -> u64
        ensures { result ≡ self.now.least }
    {
        self.least
    }

    /// The end of its last run.
    pub(crate) fn end(&self) -> u128
        ensures { result ≡ end_told self.now }
    {
        if self.entries == 0 {
            0
        } else {
            self.greatest as u128 + 1
        }
    }

    /// The number of its mappings.
    pub(crate) fn entries(&self) -> u64
        ensures { result ≡ self.now.entries }
    {
        self.entries as u64
    }

    /// The leaf with one run more.
    fn with(self, run: &Run2) -> ToldLeaf
        ensures { result ≡ with_run self run.now }
    {
        let least = if self.entries == 0 {
            run.virt
        } else {
            self.least
        };
        ToldLeaf {
            least,
            greatest: run.virt.saturating_add(run.length.saturating_sub(1)),
            entries: self
                .entries
                .saturating_add(run.length.min(4294967295) as u32),
            is_used: self.is_used,
        }
    }
}

/// The leaves so far, by number.
#[derive(Drop)]
pub(crate) struct Leaves {
    told: Vec<ToldLeaf>,
    /// How many of them aren't used.
    unused: u64,
}

impl Leaves {
    ghost use Rattle.pd_texts.specs.ThinState.{AreLeaves, HasRoom, told_at};

    /// No leaf.
    pub(crate) fn new(alloc: Global) -> Leaves
        ensures { AreLeaves result [] }
    {
        Leaves {
            told: Vec::new(alloc),
            unused: 0,
        }
    }

    /// Takes the memory for one leaf more, where it isn't there. It keeps the leaves.
    pub(crate) fn take_memory(&mut self) -> Result<(), AllocError>
        ensures leaves { (before : List Line) → AreLeaves self.old before → AreLeaves self.new before }
        ensures room { OnOk result (HasRoom self.new) }
    {
        self.told.reserve(1)
    }

    /// Begins a leaf, in the memory that was taken for it.
    pub(crate) fn begin(&mut self)
        ensures { HasRoom self.old → (before : List Line) (leaf : LeafHead)
            → AreLeaves self.old before → AreLeaves self.new (leaf_line leaf ∷ before) }
    {
        if self.told.push(ToldLeaf::nothing()).is_ok() {
            self.unused = self.unused.saturating_add(1);
        }
    }

    /// Adds a run to the last leaf.
    fn add(&mut self, run: &Run2)
        ensures { (before : List Line) → AreLeaves self.old before → has_device before ≡ false
            → 1 ≤ run.now.length → run.now.virt + run.now.length ≤ 2 ^ 64
            → number_in (runs_of_leaf before (leaf_number before - 1)) + run.now.length < 2 ^ 32
            → AreLeaves self.new (map_line (run_of run.now) ∷ before) }
    {
        let leaves = self.told.len();
        if leaves != 0 {
            self.told[leaves - 1] = self.told[leaves - 1].with(run);
        }
    }

    /// Goes past a run, of the last leaf or of a device.
    pub(crate) fn pass_run(&mut self, run: &Run2, in_device: bool)
        ensures { (before : List Line) → AreLeaves self.old before → in_device ≡ has_device before
            → 1 ≤ run.now.length → run.now.virt + run.now.length ≤ 2 ^ 64
            → (has_device before ≡ false → number_in (runs_of_leaf before (leaf_number before - 1)) + run.now.length < 2 ^ 32)
            → AreLeaves self.new (map_line (run_of run.now) ∷ before) }
    {
        if !in_device {
            self.add(run);
        }
    }

    /// Marks a leaf as used.
    pub(crate) fn mark(&mut self, number: u64)
        ensures { (before : List Line) → AreLeaves self.old before
            → number < leaf_number before → AreLeaves self.new (use_line number ∷ before) }
    {
        let leaf = self.leaf(number);
        if number < self.told.len() as u64 && !leaf.is_used {
            self.told[number as usize] = ToldLeaf {
                least: leaf.least,
                greatest: leaf.greatest,
                entries: leaf.entries,
                is_used: true,
            };
            self.unused = self.unused.saturating_sub(1);
        }
    }

    /// What was told of a leaf.
    pub(crate) fn leaf(&self, number: u64) -> ToldLeaf
        ensures { result ≡ told_at self.now number }
    {
        if number < self.told.len() as u64 {
            self.told[number as usize]
        } else {
            ToldLeaf::nothing()
        }
    }

    /// How many leaves there are.
    pub(crate) fn number(&self) -> u64
        ensures { (before : List Line) → AreLeaves self.now before → result ≡ leaf_number before }
    {
        self.told.len() as u64
    }

    /// Whether a leaf isn't used.
    pub(crate) fn has_unused(&self) -> bool
        ensures { (before : List Line) → AreLeaves self.now before → result ≡ has_unused_leaf before }
    {
        self.unused != 0
    }
}
