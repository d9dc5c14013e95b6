//! What is known of a metadata block as a node of the trees of a pool's devices (`thin_dump --shared`).

ghost use Rattle.std.specs.Prelude.{◌≡◌, ℕ, List, true, false, ◌+◌, ◌*◌, ◌<◌, ◌≤◌, if◌then◌else◌};
ghost use Rattle.std.specs.Prelude.{length, min, replicate, IfErr, IfOk, IfSome, OnOk};
ghost use Rattle.pd_kinds.specs.declared.report.CheckFault.TheVariants.{Memory};
ghost use Rattle.pd_kinds.specs.declared.limits.TheConstants.{MAX_META_BLOCKS};
ghost use Rattle.pd_kinds.specs.CheckFault.{CountsCheckFault};
ghost use Rattle.pd_image.specs.Device.{IsAttached, OnlyReads};
ghost use Rattle.pd_tree.specs.Below.{nodes_below};
ghost use Rattle.pd_meaning_thin.specs.declared.marks.Mark.TheVariants.{Unseen};
ghost use Rattle.pd_meaning_thin.specs.Walk.{roots_below, AreProper};
ghost use Rattle.pd_meaning_thin.specs.Marks.{AreMarked};

use crate::walk::walk_devices;
use pd_image::Device;
use pd_kinds::{Block, CheckFault, MAX_META_BLOCKS, ThinSuper};
use pd_node::{entries, is_inner};
use pd_tree::Cursor;
use pd_value::{BlockTime, Root};
use std::alloc::Global;

/// The greatest number of mappings of a shared leaf: as many as the kernel gives a leaf, 3 * (4064 / 16 / 3).
const MAX_LEAF_MAPPINGS: usize = 252;

/// What is known of a metadata block as a node of the trees that were walked.
#[derive(Clone, Copy, Debug, PartialEq, Eq)]
pub(crate) enum Mark {
    /// No tree has it.
    Unseen,
    /// An inner node that the trees have once.
    Inner,
    /// An inner node that they have twice or more, and so all that is below it.
    SharedInner,
    /// A leaf with 1 to 252 mappings that the trees have once.
    Leaf,
    /// A leaf with 1 to 252 mappings that they have twice or more.
    SharedLeaf,
    /// A leaf with no mappings, or with more than 252. How often the trees have it doesn't matter.
    OtherLeaf,
}

impl Mark {
    ghost use Rattle.pd_meaning_thin.specs.Marks.{is_followed, is_shared, mark_of, mark_after};

    /// Whether a node is read when it is met once more, since what is below it isn't known to be shared.
    pub(crate) fn is_followed(self) -> bool
        ensures { result ≡ is_followed self }
    {
        matches!(self, Mark::Unseen | Mark::Inner)
    }

    /// Whether it is that of a shared leaf.
    pub(crate) fn is_shared(self) -> bool
        ensures { result ≡ is_shared self }
    {
        matches!(self, Mark::SharedLeaf)
    }

    /// The mark of a node that is met for the first time.
    #[tactic(auto, unfolding(crate::specs::Marks::mark_of))]
    fn first(block: &Block) -> Mark
        ensures { result ≡ mark_of block.now.0 1 }
    {
        if is_inner(block) {
            return Mark::Inner;
        }
        let mappings = entries::<BlockTime>(block);
        if (1 <= mappings) & (mappings <= MAX_LEAF_MAPPINGS) {
            Mark::Leaf
        } else {
            Mark::OtherLeaf
        }
    }

    /// The mark of a node that is followed, when it is met once more and was read.
    #[tactic(auto, unfolding(crate::specs::Marks::mark_of))]
    pub(crate) fn after_read(self, block: &Block) -> Mark
        requires { is_followed self ≡ true }
        ensures { result ≡ mark_after self block.now.0 }
    {
        match self {
            Mark::Unseen => Mark::first(block),
            _ => Mark::SharedInner,
        }
    }

    /// The mark of a node that isn't followed, when it is met once more.
    pub(crate) fn after_pass(self) -> Mark
        requires { is_followed self ≡ false }
        ensures { (block : List ℕ) → result ≡ mark_after self block }
    {
        match self {
            Mark::Leaf => Mark::SharedLeaf,
            other => other,
        }
    }
}

// The marks of a pool's metadata blocks (`thin_dump --shared`).

/// The marks of so many blocks that no tree has, a byte each. Want of memory is the only error.
fn no_marks(alloc: Global, blocks: u64) -> Result<Vec<Mark>, CheckFault>
    ensures unseen { IfOk result (λ marks. marks.items ≡ replicate blocks Unseen) }
    ensures memory { IfErr result (λ fault. fault ≡ Memory) }
{
    let mut marks = Vec::new(alloc);
    marks.resize(blocks as usize, Mark::Unseen)?;
    Ok(marks)
}

/// Walks over the trees of all devices of the pool with this superblock, where no block has a mark yet.
fn walk_pool<D: Device>(
    alloc: Global,
    dev: &mut D,
    s: &ThinSuper,
    marks: &mut [Mark],
) -> Result<(), CheckFault>
    requires attached { IsAttached (D.state dev.old) }
    requires within { length marks.old ≤ (D.state dev.old).blocks }
    requires unseen { marks.old ≡ replicate (length marks.old) Unseen }
    ensures marked { OnOk result (IfSome (D.state dev.old).held (λ image. AreProper image marks.new (roots_below image s.now.mapping_root)
        → AreMarked image (roots_below image s.now.mapping_root) marks.new)) }
    ensures same_number { length marks.new ≡ length marks.old }
    ensures reads { IfSome (D.state dev.old).held (λ image.
        (D.state dev.new).reads ≤ (D.state dev.old).reads + length (nodes_below 8 image 63 s.now.mapping_root) + 2 * length marks.old) }
    ensures kept { OnlyReads (D.state dev.old) (D.state dev.new) }
    ensures faults { CountsCheckFault result (D.state dev.old).faults (D.state dev.new).faults }
{
    let mut devices = Cursor::<Root>::start(alloc, s.mapping_root)?;
    walk_devices(alloc, marks, &mut devices, dev)
}

/// The marks of the metadata blocks of the pool with this superblock, after walks over the trees of all devices.
pub(crate) fn find_marks<D: Device>(
    alloc: Global,
    dev: &mut D,
    s: &ThinSuper,
) -> Result<Vec<Mark>, CheckFault>
    requires attached { IsAttached (D.state dev.old) }
    ensures marked { IfOk result (λ marks. IfSome (D.state dev.old).held
        (λ image. AreProper image marks.items (roots_below image s.now.mapping_root)
        → AreMarked image (roots_below image s.now.mapping_root) marks.items)) }
    ensures number { IfOk result (λ marks. IfSome (D.state dev.old).held
        (λ image. length marks.items ≡ min (min (length image) s.now.meta_map.blocks) MAX_META_BLOCKS)) }
    ensures few { IfOk result (λ marks. length marks.items ≤ MAX_META_BLOCKS) }
    ensures reads { IfSome (D.state dev.old).held (λ image. (D.state dev.new).reads ≤ (D.state dev.old).reads
        + length (nodes_below 8 image 63 s.now.mapping_root) + 2 * min (length image) s.now.meta_map.blocks) }
    ensures kept { OnlyReads (D.state dev.old) (D.state dev.new) }
    ensures faults { CountsCheckFault result (D.state dev.old).faults (D.state dev.new).faults }
{
    let blocks = dev.blocks().min(s.meta_map.blocks).min(MAX_META_BLOCKS);
    let mut marks = no_marks(alloc, blocks)?;
    walk_pool(alloc, dev, s, marks.as_mut_slice())?;
    Ok(marks)
}
