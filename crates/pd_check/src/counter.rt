//! The references to data blocks, counted while a walk has the blocks at hand that make them.

ghost use Rattle.std.specs.Prelude.{◌≡◌, ℕ, ◌<◌, List, true, false, IfOk, OnErr, ◌+◌, ◌-◌, ◌^◌, [], ◌∷◌, ◌++◌, length, OnOk};
ghost use Rattle.std.specs.List.{AllByRecursion};
ghost use Rattle.pd_kinds.specs.Graph.{Graph, is_reached};
ghost use Rattle.pd_count.specs.Counted.{HasCounted};
ghost use Rattle.pd_graph.specs.Format.{no_pairs};
ghost use Rattle.pd_check.specs.Refs.{HasDataCounts, NamesDataIn};

use pd_count::Counts;
use pd_graph::{Format, Watch};
use pd_kinds::{Block, Rules};
use std::alloc::{AllocError, Global};

/// Counts the data blocks that blocks name in one role, as a walk shows it each of them: each block once, however many
/// nodes lead to it, and none that breaks a rule.
///
/// It takes the memory of the counts as they come. Where that isn't found it counts no further, and remembers it.
#[derive(Drop)]
pub struct RefCounter {
    role: u8,
    counts: Counts,
    lacks_memory: bool,
    ghost few: { role < 16 },
}

impl RefCounter {
    ghost use Rattle.pd_check.specs.Counter.{HasSeen, data_blocks_of, is_lacking};

    /// A counter for a format of so many data blocks, which blocks name in this role alone. It takes the memory of the
    /// list of counts.
    ///
    /// Fails with `AllocError` where that memory wasn't found.
    pub fn new(alloc: Global, role: u8, data_blocks: u64) -> Result<RefCounter, AllocError>
        requires { role < 16 }
        ensures memory { IfOk result (λ counter. is_lacking counter ≡ false) }
        ensures size { IfOk result (λ counter. data_blocks_of counter ≡ data_blocks) }
        ensures unseen { IfOk result (λ counter. (graph : Graph) (image : List (List ℕ)) → graph.data_blocks ≡ data_blocks
            → (0 < data_blocks → NamesDataIn graph role) → HasSeen counter graph image no_pairs) }
    {
        Ok(RefCounter {
            role,
            counts: Counts::new(alloc, data_blocks)?,
            lacks_memory: false,
        })
    }

    /// The counts, after a walk that showed it each reached block. There are as many as it was made for, whatever it was
    /// shown.
    ///
    /// Fails with `AllocError` where memory wasn't found on the way.
    pub fn counts(mut self) -> Result<Counts, AllocError>
        ensures counted { IfOk result (λ counts. (graph : Graph) (image : List (List ℕ)) → HasSeen self graph image (is_reached graph image)
            → HasDataCounts counts graph image) }
        ensures size { IfOk result (λ counts. counts.size ≡ data_blocks_of self) }
        ensures memory { OnErr result (is_lacking self ≡ true) }
    {
        if self.lacks_memory {
            return Err(AllocError);
        }
        self.counts.settle();
        Ok(self.counts)
    }
}

impl Watch for RefCounter {
    ghost use Rattle.pd_check.specs.Counter.{HasSeen, data_blocks_of, same_seen};

    ghost has_room = { λ counter graph. data_blocks_of counter ≡ graph.data_blocks };

    ghost has_seen = { HasSeen };

    ghost same = { same_seen };

    fn see<F: Format>(&mut self, format: &F, role: u8, _b: u64, block: &Block, broken: &Rules) {
        let is_sound = broken.is_empty();
        let is_its_own = role == self.role;
        let has_memory = !self.lacks_memory;
        if has_memory & is_its_own & is_sound {
            match add_refs(format, role, block, &mut self.counts) {
                Ok(()) => {}
                Err(_) => self.lacks_memory = true,
            }
        }
    }
}

// The data blocks that one block names.

/// Counts each data block that the block's bytes name in this role. A number past the counts is left out, and so is one
/// whose count is as great as it can be. Want of memory is the only error.
pub(crate) fn add_refs<F: Format>(
    format: &F,
    role: u8,
    block: &Block,
    counts: &mut Counts,
) -> Result<(), AllocError>
    requires { role < F.ROLES }
    ensures size { counts.new.size ≡ counts.old.size }
    ensures counted { OnOk result ((before : List ℕ) → HasCounted counts.old before
        → AllByRecursion (λ d. d < counts.old.size) ((F.contents format.now).data_refs role block.now.0)
        → length before + length ((F.contents format.now).data_refs role block.now.0) < 2 ^ 32 - 1
        → HasCounted counts.new (before ++ (F.contents format.now).data_refs role block.now.0)) }
{
    for i in 0..format.data_refs_of_any(role, block) {
        add_ref(counts, format.data_ref_of_any(role, block, i))?;
    }
    Ok(())
}

/// Counts a data block once more, where it is one of those that are counted, and its count can rise.
fn add_ref(counts: &mut Counts, d: u64) -> Result<(), AllocError>
    ensures size { counts.new.size ≡ counts.old.size }
    ensures counted { OnOk result ((before : List ℕ) → HasCounted counts.old before → d < counts.old.size → length before < 2 ^ 32 - 1
        → HasCounted counts.new (before ++ d ∷ [])) }
{
    if d < counts.size() {
        counts.note(d)?;
    }
    Ok(())
}
