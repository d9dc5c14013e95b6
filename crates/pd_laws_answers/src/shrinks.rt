//! What a shrink of a pool comes to: at its end, and where it is stopped.

ghost use Rattle.std.specs.Prelude.{ℕ, Bool, List, true};
ghost use Rattle.pd_kinds.specs.Crash.{IsSynced};
ghost use Rattle.pd_answers.specs.Terms.{Objects};
ghost use Rattle.pd_answers.specs.Outputs.{IsWorkDone};
ghost use Rattle.pd_laws_answers.specs.Shrink.{HoldsSharing, HoldsShrunk, IsShrinkAnswered, LeavesReads, LeavesSharing};

use crate::laws::laid_shapes_are_clean;
use pd_laws_changed::{
    free_blocks_are_read_by_none, moved_pool_is_lawful, moved_pool_reads_the_same,
    moved_shapes_are_lawful, moved_shapes_mean_moved_pools, moving_keeps_what_is_read,
};
use pd_laws_laid::laid_pool_is_clean;
use pd_laws_shapes::sound_pools_have_a_shape;
use pd_meaning_thin::sound_pools_are_lawful;

/// At status 0, with shared leaves kept or not, the output holds a smaller pool: it is clean, has as many data blocks as were asked for, or
/// as there were if those are fewer, and the same devices with the same details and virtual blocks. By it, on the data device as it is
/// then, each device reads at each virtual block what it read before by the old metadata, also where the data device is cut to the smaller
/// pool's data blocks. Nothing is unsynced. So it is under any status once `out` was touched: the line comes after the work.
pub fn shrunk_pool_is_clean_and_reads_the_same()
    ensures { (is_shared : Bool) (metadata output pool : List ℕ) (blocks : ℕ) (before after : Objects) (status : ℕ)
        → IsShrinkAnswered is_shared metadata output pool blocks before after status
        → IsWorkDone before after status → HoldsShrunk blocks before after }
{
    free_blocks_are_read_by_none();
    moving_keeps_what_is_read();
    moved_pool_reads_the_same();
    moved_pool_is_lawful();
    moved_shapes_mean_moved_pools();
    moved_shapes_are_lawful();
    sound_pools_are_lawful();
    sound_pools_have_a_shape();
    laid_pool_is_clean();
    laid_shapes_are_clean();
}

/// Under every status, with shared leaves kept or not, where nothing of the data device was unsynced before the call, a crash at any moment
/// of it leaves a data device on which each device reads the same by the old metadata, which isn't written. The output isn't written before
/// the moved blocks are in their places, with nothing unsynced: from then on a crash leaves of it, by no chance, what it was, no valid
/// superblock, or a smaller pool that reads the same there. So does a crash of both at the call's end, where nothing of the output was
/// unsynced before either.
pub fn stopped_shrink_keeps_what_is_read()
    ensures { (is_shared : Bool) (metadata output pool : List ℕ) (blocks : ℕ) (before after : Objects) (status : ℕ)
        → IsShrinkAnswered is_shared metadata output pool blocks before after status
        → IsSynced before.third → LeavesReads blocks before after }
{
    free_blocks_are_read_by_none();
    moving_keeps_what_is_read();
    moved_pool_reads_the_same();
    moved_pool_is_lawful();
    moved_shapes_mean_moved_pools();
    moved_shapes_are_lawful();
    sound_pools_are_lawful();
    sound_pools_have_a_shape();
    laid_pool_is_clean();
    laid_shapes_are_clean();
}

/// Of a shrink that keeps shared leaves the output holds at status 0, and under any status once `out` was touched, a pool whose devices
/// share the leaves that they shared before and no other ones: its shape is that of the input, whose mappings name the moved blocks, and it
/// counts the data blocks of such a leaf once. A crash at any moment of the call leaves, by no chance, the old image, no valid superblock,
/// or such a pool.
pub fn shrunk_pool_keeps_its_sharing()
    ensures made { (metadata output pool : List ℕ) (blocks : ℕ) (before after : Objects) (status : ℕ)
        → IsShrinkAnswered true metadata output pool blocks before after status
        → IsWorkDone before after status → HoldsSharing blocks before after }
    ensures left { (metadata output pool : List ℕ) (blocks : ℕ) (before after : Objects) (status : ℕ)
        → IsShrinkAnswered true metadata output pool blocks before after status
        → LeavesSharing blocks before after }
{
    free_blocks_are_read_by_none();
    moved_shapes_mean_moved_pools();
    moved_shapes_are_lawful();
    sound_pools_are_lawful();
    sound_pools_have_a_shape();
    laid_shapes_are_clean();
}
