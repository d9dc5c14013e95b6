//! How the plan of a shrink is made (`thin_shrink`).

ghost use Rattle.std.specs.Prelude.{◌≡◌, ◌≤◌, ◌<◌, ℕ, false, List, IfNone, IfOk, IfSome, MatchResult};
ghost use Rattle.pd_kinds.specs.declared.rule.Rule.{Rule as BrokenRule};
ghost use Rattle.pd_kinds.specs.Graph.{block_at};
ghost use Rattle.pd_kinds.specs.ThinFormat.{thin_fields, thin_super_bad};
ghost use Rattle.pd_answers.specs.Writebacks.{is_block_size_bad};
ghost use Rattle.pd_answers.specs.Shrinks.{data_need};
ghost use Rattle.pd_image.specs.Device.{IsAttached, OnlyReads};
ghost use Rattle.pd_shrink.specs.Failing.{CountsMeta, CountsPlanning};
ghost use Rattle.pd_shrink.specs.Kept.{kept_pool};
ghost use Rattle.pd_shrink.specs.Making.{FitsDevice, HasMoves, IsSoundPool, MissesMoves, LooksAtRoom, lack_of_moves};
ghost use Rattle.pd_shrink.specs.declared.making.ShrinkFault.TheVariants.{Memory};

use crate::free::{find_free, stored_free_blocks_are_free};
use crate::kept::Kept;
use crate::moves::{MovedBlock, pair_up};
use crate::sources::find_sources;
use pd_image::Device;
use pd_kinds::{Block, SmRoot, ThinSuper};
use pd_supers::{read_thin_super, thin_super_rules};
use std::alloc::{AllocError, AllocFailed, Global};

/// Block 0 of the metadata.
pub(crate) fn read_first<A: Device>(alloc: Global, meta: &mut A) -> Result<Box<Block>, ShrinkFault>
    requires attached { IsAttached (A.state meta.old) }
    requires some { 1 ≤ (A.state meta.old).blocks }
    ensures bytes { IfOk result (λ block. IfSome (A.state meta.old).held (λ image. block.value.0 ≡ block_at image 0)) }
    ensures kept { OnlyReads (A.state meta.old) (A.state meta.new) }
    ensures faults { CountsMeta result (A.state meta.old).faults (A.state meta.new).faults }
{
    let mut block = Box::new(alloc, Block::zeros())?;
    match meta.read(0, &mut block) {
        Ok(()) => Ok(block),
        Err(_) => Err(ShrinkFault::Meta),
    }
}

/// The superblock of a pool on a device of so many blocks, where it breaks no rule.
pub(crate) fn sound_super(first: &Block, blocks: u64) -> Option<ThinSuper>
    ensures fields { IfSome result (λ s. s ≡ thin_fields first.now.0) }
    ensures fits { IfSome result (FitsDevice blocks) }
    ensures broken { IfNone result (((rule : BrokenRule) → thin_super_bad blocks first.now.0 rule ≡ false) → ⊥) }
{
    let rules = thin_super_rules(first, blocks);
    if rules.is_empty() {
        Some(read_thin_super(first))
    } else {
        None
    }
}

/// Whether a block size in sectors of 512 bytes is no number of whole blocks of 4096 bytes.
pub(crate) fn is_block_size_bad(block_size: u32) -> bool
    ensures { result ≡ is_block_size_bad block_size }
{
    (block_size == 0) | (block_size % 8 != 0)
}

/// The moves of a pool to a new end, with a data device of so many blocks; `each` is how many of them a data block has.
pub(crate) fn find_moves<A: Device>(
    alloc: Global,
    meta: &mut A,
    map: &SmRoot,
    kept: &Kept,
    end: u64,
    each: u64,
    pool_blocks: u64,
) -> Result<Vec<MovedBlock>, ShrinkFault>
    requires attached { IsAttached (A.state meta.old) }
    requires index { map.now.bitmap_root < (A.state meta.old).blocks }
    requires overflow { map.now.overflow_root < (A.state meta.old).blocks }
    requires end { end ≤ (kept_pool kept.now).data_blocks }
    requires sound { IfSome (A.state meta.old).held (IsSoundPool map.now kept.now) }
    ensures found { MatchResult result (λ moves. (free : List ℕ)
        × HasMoves (A.state meta.old).held (kept_pool kept.now) end each pool_blocks free moves.items)
        (MissesMoves (A.state meta.old).held (kept_pool kept.now) end each pool_blocks) }
    ensures kept { OnlyReads (A.state meta.old) (A.state meta.new) }
    ensures faults { CountsPlanning result (A.state meta.old).faults (A.state meta.new).faults }
{
    stored_free_blocks_are_free();
    let sources = find_sources(alloc, kept, end)?;
    let free = find_free(alloc, meta, map, end, sources.len())?;
    let from = sources.as_slice();
    look_at_room(from, free.number, end, each, pool_blocks)?;
    let to = free.first.as_slice();
    Ok(pair_up(alloc, from, to)?)
}

// Why a shrink fails (`thin_shrink`).

/// Why a shrink fails.
#[derive(Clone, Copy, Debug, PartialEq, Eq)]
pub enum ShrinkFault {
    /// There wasn't enough memory.
    Memory,
    /// The metadata's device has failed.
    Meta,
    /// The device of the new metadata has failed.
    Output,
    /// The pool's data blocks aren't whole blocks of 4096 bytes.
    BlockSize,
    /// The smaller pool, the data device, or the new metadata's device is too small: so many blocks are needed, and there
    /// are so many. The first are data blocks, the others blocks of 4096 bytes.
    NoRoom { need: u128, blocks: u64 },
}

impl From<AllocError> for ShrinkFault {
    ghost from_gives = { λ _ fault. fault ≡ Memory };

    fn from(_error: AllocError) -> ShrinkFault {
        ShrinkFault::Memory
    }
}

impl<T: Drop> From<AllocFailed<T>> for ShrinkFault {
    ghost from_gives = { λ _ fault. fault ≡ Memory };

    fn from(_failed: AllocFailed<T>) -> ShrinkFault {
        ShrinkFault::Memory
    }
}

// Whether there is room for the moves of a shrink (`thin_shrink`).

/// Looks whether there is a block below the new end for each source, where so many are free there, and then whether the
/// data device, of so many blocks, has all sources; `each` is how many blocks of 4096 bytes a data block has.
pub(crate) fn look_at_room(
    sources: &[u64],
    free: u64,
    end: u64,
    each: u64,
    pool_blocks: u64,
) -> Result<(), ShrinkFault>
    requires { free ≤ end }
    ensures { LooksAtRoom (lack_of_moves each sources.now free end pool_blocks) result }
{
    let need = (end - free) as u128 + sources.len() as u128;
    if need > end as u128 {
        return Err(ShrinkFault::NoRoom { need, blocks: end });
    }
    let need = need_of_data(sources, each);
    if need > pool_blocks as u128 {
        return Err(ShrinkFault::NoRoom {
            need,
            blocks: pool_blocks,
        });
    }
    Ok(())
}

/// How many blocks the data device must have.
fn need_of_data(sources: &[u64], each: u64) -> u128
    ensures { result ≡ data_need each sources.now }
{
    let mut need: u128 = 0;
    for source in sources {
        need = need.max((*source as u128 + 1) * each as u128);
    }
    need
}
