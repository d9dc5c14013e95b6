//! Which leaves a pool's devices share (`thin_dump --shared`).

ghost use Rattle.std.specs.Prelude.{◌≡◌, ◌<◌, ◌≤◌, length, IfOk};
ghost use Rattle.std.specs.List.{count_by, slice_index};
ghost use Rattle.pd_kinds.specs.declared.limits.TheConstants.{MAX_META_BLOCKS};
ghost use Rattle.pd_meaning_thin.specs.Marks.{AreRanks, marked_blocks, shared_before, is_shared};

use crate::laws::leaves_are_below_roots;
use crate::marks::{Mark, find_marks};
use pd_image::Device;
use pd_kinds::{CheckFault, MAX_META_BLOCKS, ThinSuper};
use std::alloc::{AllocError, Global};

/// The leaves that a pool's devices share, by ascending block: those that stand in the trees of the devices twice or more,
/// and have 1 to 252 mappings.
#[derive(Drop)]
pub struct SharedLeaves {
    /// By each block of metadata what it is in those trees.
    marks: Vec<Mark>,
    /// By each 64 blocks how many shared leaves stand before them.
    ranks: Vec<u32>,
    ghost ranked: { AreRanks ranks.items marks.items },
}

impl SharedLeaves {
    ghost use Rattle.std.specs.Prelude.{◌≡◌, ◌+◌, ◌*◌, ◌<◌, ◌≤◌, [], length, min, IfOk, IfSome, nat_eq};
    ghost use Rattle.std.specs.List.{position, slice_index};
    ghost use Rattle.pd_kinds.specs.declared.kind.Kind.TheVariants.{Thin};
    ghost use Rattle.pd_kinds.specs.declared.kind.Stage.TheVariants.{Whole};
    ghost use Rattle.pd_kinds.specs.CheckFault.{CountsCheckFault};
    ghost use Rattle.pd_kinds.specs.Graph.{block_at};
    ghost use Rattle.pd_kinds.specs.Stages.{faults};
    ghost use Rattle.pd_kinds.specs.ThinFormat.{thin_graph};
    ghost use Rattle.pd_kinds.specs.ThinFormat.{thin_fields};
    ghost use Rattle.pd_image.specs.Device.{IsAttached, OnlyReads};
    ghost use Rattle.pd_laid.specs.Shape.{shared_leaves};
    ghost use Rattle.pd_tree.specs.Below.{nodes_below};
    ghost use Rattle.pd_meaning_thin.specs.Walk.{shared_blocks};

    /// Finds the shared leaves of the pool with this superblock.
    ///
    /// It takes a byte a metadata block, 4 bytes for 64 of them, and 8 bytes a child that waits until it is looked at.
    /// Each node of the mapping tree is read once at the most, each other inner node twice, and each leaf once: no node is followed
    /// for each of the devices that share it.
    ///
    /// Fails with `Device` where a read failed, and with `Memory` where memory wasn't found.
    pub fn find<D: Device>(
        alloc: Global,
        dev: &mut D,
        s: &ThinSuper,
    ) -> Result<SharedLeaves, CheckFault>
        requires attached { IsAttached (D.state dev.old) }
        ensures shared { IfOk result (λ shared. IfSome (D.state dev.old).held
            (λ image. faults Thin Whole image ≡ [] → s.now ≡ thin_fields (block_at image 0)
            → shared_blocks shared ≡ shared_leaves (thin_graph (block_at image 0)) image)) }
        ensures reads { IfSome (D.state dev.old).held (λ image. (D.state dev.new).reads ≤ (D.state dev.old).reads
            + length (nodes_below 8 image 63 s.now.mapping_root) + 2 * min (length image) s.now.meta_map.blocks) }
        ensures kept { OnlyReads (D.state dev.old) (D.state dev.new) }
        ensures faults { CountsCheckFault result (D.state dev.old).faults (D.state dev.new).faults }
    {
        leaves_are_below_roots();
        let marks = find_marks(alloc, dev, s)?;
        let ranks = rank_groups(alloc, marks.as_slice())?;
        Ok(SharedLeaves { marks, ranks })
    }

    /// How many there are.
    pub fn len(&self) -> u64
        ensures { result ≡ length (shared_blocks self.now) }
    {
        rank(
            self.marks.as_slice(),
            self.ranks.as_slice(),
            self.marks.len(),
        )
    }

    /// The block of a leaf by its number.
    pub fn block(&self, number: u64) -> u64
        requires { number < length (shared_blocks self.now) }
        ensures { result ≡ slice_index (shared_blocks self.now) number }
    {
        place_of(self.marks.as_slice(), self.ranks.as_slice(), number) as u64
    }

    /// The number of the leaf in a block, if that is a shared one.
    pub fn number(&self, b: u64) -> Option<u64>
        ensures { result ≡ position (λ leaf. nat_eq leaf b) (shared_blocks self.now) }
    {
        let place = b as usize;
        match self.marks.get(place) {
            Some(mark) if mark.is_shared() => Some(rank(
                self.marks.as_slice(),
                self.ranks.as_slice(),
                place,
            )),
            _ => None,
        }
    }
}

// Ranks: how many shared leaves stand before a block (`thin_dump --shared`).

/// How many blocks there are to a rank. Their shared leaves are counted in a byte.
const GROUP: usize = 64;

/// How many of the marks of a group are those of shared leaves.
fn count_shared(marks: &[Mark]) -> u8
    requires few { length marks.now ≤ 64 }
    ensures { result ≡ count_by is_shared marks.now }
{
    let mut shared: u8 = 0;
    for mark in marks {
        shared += u8::from(mark.is_shared());
    }
    shared
}

/// The ranks of the groups of these marks, and that of their end.
pub(crate) fn rank_groups(alloc: Global, marks: &[Mark]) -> Result<Vec<u32>, AllocError>
    requires few { length marks.now ≤ MAX_META_BLOCKS }
    ensures { IfOk result (λ ranks. AreRanks ranks.items marks.now) }
{
    let groups = marks.len() / GROUP;
    let mut ranks = Vec::with_capacity(alloc, groups + 1)?;
    let mut shared: u32 = 0;
    ranks.push(shared)?;
    for group in 0..groups {
        shared += u32::from(count_shared(&marks[GROUP * group..GROUP * (group + 1)]));
        ranks.push(shared)?;
    }
    Ok(ranks)
}

/// How many shared leaves stand before a block.
pub(crate) fn rank(marks: &[Mark], ranks: &[u32], b: usize) -> u64
    requires ranked { AreRanks ranks.now marks.now }
    requires within { b ≤ length marks.now }
    ensures { result ≡ shared_before marks.now b }
{
    let group = b / GROUP;
    u64::from(ranks[group]) + u64::from(count_shared(&marks[GROUP * group..b]))
}

/// The block of a shared leaf by its number.
pub(crate) fn place_of(marks: &[Mark], ranks: &[u32], number: u64) -> usize
    requires ranked { AreRanks ranks.now marks.now }
    requires within { number < length (marked_blocks marks.now) }
    ensures { result ≡ slice_index (marked_blocks marks.now) number }
{
    let mut low = 0;
    let mut high = marks.len();
    while high - low > 1 {
        let middle = low + (high - low) / 2;
        if rank(marks, ranks, middle) <= number {
            low = middle;
        } else {
            high = middle;
        }
    }
    low
}
