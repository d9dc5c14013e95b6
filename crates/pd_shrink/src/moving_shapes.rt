//! The pool in memory whose data blocks were moved, with the leaves that its devices share (`thin_shrink`).

ghost use Rattle.std.specs.Prelude.{◌≡◌, IfOk};
ghost use Rattle.pd_laid.specs.Shape.{pool_of};
ghost use Rattle.pd_answers.specs.Shrinks.{moved_shape};
ghost use Rattle.pd_salvage.specs.SavedShape.{held_shape};
ghost use Rattle.pd_shrink.specs.Moves.{moves_in, AreMovesOf};

use crate::moves::MovedBlock;
use crate::moving::{head_to, move_all};
use pd_laws_changed::{moved_shapes_are_lawful, moved_shapes_mean_moved_pools};
use pd_salvage::SavedShape;
use std::alloc::{AllocError, Global};

/// The pool with its data blocks moved: so many data blocks, and each leaf and each piece of a device's own names its
/// blocks' new places. Its runs are as long as can be within a leaf or a piece.
///
/// It takes 16 bytes a leaf, 4 a piece, 48 a device, and for a run some 4 and at most 35. A piece that would have 2^31 runs or
/// more counts as want of memory.
pub fn move_shape(
    alloc: Global,
    saved: &SavedShape,
    end: u64,
    moves: &[MovedBlock],
) -> Result<SavedShape, AllocError>
    requires moves { AreMovesOf (pool_of (held_shape saved.now)) end (moves_in moves.now) }
    ensures { IfOk result (λ moved. held_shape moved ≡ moved_shape (held_shape saved.now) end (moves_in moves.now)) }
{
    moved_shapes_mean_moved_pools();
    moved_shapes_are_lawful();
    let head = head_to(saved.head(), end);
    let leaves = move_all(alloc, saved.leaves(), saved.leaf_runs(), end, moves)?;
    let pieces = move_all(alloc, saved.pieces(), saved.runs(), end, moves)?;
    let devices = Vec::from_slice(alloc, saved.devices())?;
    Ok(SavedShape::of_parts(
        head,
        leaves.parts,
        leaves.runs,
        devices,
        pieces.parts,
        pieces.runs,
    ))
}
