//! A pool as it is held, without the leaves that its devices share or with them (`thin_shrink`).

ghost use Rattle.std.specs.Prelude.{◌≡◌, true, false, IfOk, IfSome};
ghost use Rattle.pd_answers.specs.Shrinks.{saved_whole};
ghost use Rattle.pd_image.specs.Device.{IsAttached, IsWritable, KeepsPlace, OnlyReads};
ghost use Rattle.pd_restoring.specs.Made.{CountsMade, IsMade, ending_of};
ghost use Rattle.pd_shrink.specs.Failing.{CountsMeta};
ghost use Rattle.pd_shrink.specs.Kept.{IsKept, IsSoundKept, head_in, kept_content, kept_making, kept_pool};
ghost use Rattle.pd_shrink.specs.Kept.{moved_in, own_runs_in, saved_in, shared_of};
ghost use Rattle.pd_shrink.specs.Making.{FitsDevice, IsSoundWith};
ghost use Rattle.pd_shrink.specs.Moves.{moves_in, AreMovesOf};

use crate::making::ShrinkFault;
use crate::moves::MovedBlock;
use crate::moving::move_pool;
use crate::moving_shapes::move_shape;
use pd_image::Device;
use pd_kinds::ThinSuper;
use pd_laid::sound_pool_is_saved;
use pd_laws_shapes::sound_pools_save_their_shape;
use pd_meaning_thin::PackedRuns;
use pd_restore::{MadeFault, need_of_saved, need_of_shape, restore_made, restore_shape};
use pd_salvage::{Salvage, SalvageFault, SavedHead, SavedShape, salvage};
use pd_salvage_shapes::salvage_shape;
use std::alloc::{AllocError, Global};

/// A pool as it is held in memory, without its shared leaves or with them.
#[derive(Drop)]
pub(crate) enum Kept {
    /// Each device's mappings stand apart.
    Pool(Salvage),
    /// A shared leaf stands once.
    Shape(SavedShape),
}

/// What the superblock says of it.
pub(crate) fn head_of(kept: &Kept) -> &SavedHead
    ensures head { result.now ≡ head_in kept.now }
    // What is held is a lawful pool, and its runs are as long as can be.
    ensures sound { IsSoundKept kept.now }
{
    match kept {
        Kept::Pool(saved) => saved.head(),
        Kept::Shape(saved) => saved.head(),
    }
}

/// The runs of its devices' own.
pub(crate) fn own_runs_of(kept: &Kept) -> &PackedRuns
    ensures { result.now ≡ own_runs_in kept.now }
{
    match kept {
        Kept::Pool(saved) => saved.runs(),
        Kept::Shape(saved) => saved.runs(),
    }
}

/// The pool with this superblock, with its shared leaves or without.
pub(crate) fn read_kept<A: Device>(
    alloc: Global,
    meta: &mut A,
    s: &ThinSuper,
    shared: bool,
) -> Result<Kept, ShrinkFault>
    requires attached { IsAttached (A.state meta.old) }
    requires fits { FitsDevice (A.state meta.old).blocks s.now }
    requires sound { IfSome (A.state meta.old).held (IsSoundWith s.now) }
    ensures shared { IfOk result (λ kept. shared_of kept ≡ shared) }
    ensures means { IfOk result (λ kept. IfSome (A.state meta.old).held (λ image. saved_in kept ≡ saved_whole (shared_of kept) image)) }
    ensures kept { OnlyReads (A.state meta.old) (A.state meta.new) }
    ensures faults { CountsMeta result (A.state meta.old).faults (A.state meta.new).faults }
{
    if shared {
        read_shape(alloc, meta, s)
    } else {
        read_pool(alloc, meta, s)
    }
}

/// The pool with this superblock.
fn read_pool<A: Device>(alloc: Global, meta: &mut A, s: &ThinSuper) -> Result<Kept, ShrinkFault>
    requires attached { IsAttached (A.state meta.old) }
    requires fits { FitsDevice (A.state meta.old).blocks s.now }
    requires sound { IfSome (A.state meta.old).held (IsSoundWith s.now) }
    ensures shared { IfOk result (λ kept. shared_of kept ≡ false) }
    ensures means { IfOk result (λ kept. IfSome (A.state meta.old).held (λ image. saved_in kept ≡ saved_whole (shared_of kept) image)) }
    ensures kept { OnlyReads (A.state meta.old) (A.state meta.new) }
    ensures faults { CountsMeta result (A.state meta.old).faults (A.state meta.new).faults }
{
    sound_pool_is_saved();
    match salvage(alloc, meta, s) {
        Ok(saved) => Ok(Kept::Pool(saved)),
        Err(SalvageFault::Memory) => Err(ShrinkFault::Memory),
        Err(SalvageFault::Device) => Err(ShrinkFault::Meta),
    }
}

/// The pool with this superblock, with its shared leaves.
fn read_shape<A: Device>(alloc: Global, meta: &mut A, s: &ThinSuper) -> Result<Kept, ShrinkFault>
    requires attached { IsAttached (A.state meta.old) }
    requires fits { FitsDevice (A.state meta.old).blocks s.now }
    requires sound { IfSome (A.state meta.old).held (IsSoundWith s.now) }
    ensures shared { IfOk result (λ kept. shared_of kept ≡ true) }
    ensures means { IfOk result (λ kept. IfSome (A.state meta.old).held (λ image. saved_in kept ≡ saved_whole (shared_of kept) image)) }
    ensures kept { OnlyReads (A.state meta.old) (A.state meta.new) }
    ensures faults { CountsMeta result (A.state meta.old).faults (A.state meta.new).faults }
{
    sound_pools_save_their_shape();
    match salvage_shape(alloc, meta, s) {
        Ok(saved) => Ok(Kept::Shape(saved)),
        Err(SalvageFault::Memory) => Err(ShrinkFault::Memory),
        Err(SalvageFault::Device) => Err(ShrinkFault::Meta),
    }
}

/// The pool with its data blocks moved: so many data blocks, and each mapping names its block's new place. What is shared
/// stays shared.
pub(crate) fn move_kept(
    alloc: Global,
    kept: &Kept,
    end: u64,
    moves: &[MovedBlock],
) -> Result<Kept, AllocError>
    requires moves { AreMovesOf (kept_pool kept.now) end (moves_in moves.now) }
    ensures { IfOk result (λ moved. IsKept (shared_of kept.now) (moved_in kept.now end (moves_in moves.now)) moved) }
{
    match kept {
        Kept::Pool(saved) => Ok(Kept::Pool(move_pool(alloc, saved, end, moves)?)),
        Kept::Shape(saved) => Ok(Kept::Shape(move_shape(alloc, saved, end, moves)?)),
    }
}

/// How many blocks its metadata needs, where there are so many. `None` where memory is wanting.
pub(crate) fn need_of_kept(alloc: Global, kept: &Kept, room: u64) -> Option<u64>
    ensures { IfSome result (λ need. need ≡ (kept_making kept.now).need room) }
{
    match kept {
        Kept::Pool(saved) => need_of_saved(alloc, saved, room),
        Kept::Shape(saved) => need_of_shape(alloc, saved, room),
    }
}

/// Writes its metadata to a device.
pub(crate) fn restore_kept<B: Device>(
    alloc: Global,
    kept: Kept,
    dev: &mut B,
) -> Result<(), MadeFault>
    requires { IsWritable (B.state dev.old) }
    ensures made { IsMade (kept_content kept) (ending_of result) (B.state dev.old) (B.state dev.new) }
    ensures place { KeepsPlace (B.state dev.old) (B.state dev.new) }
    ensures causes { CountsMade result (B.state dev.old).faults (B.state dev.new).faults }
{
    match kept {
        Kept::Pool(saved) => restore_made(alloc, saved, dev),
        Kept::Shape(saved) => restore_shape(alloc, saved, dev),
    }
}
