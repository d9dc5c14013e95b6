//! A pool that is held in memory, written to a device (`thin_repair`, `thin_shrink`).

ghost use Rattle.std.specs.Prelude.{◌≡◌, ℕ};
ghost use Rattle.pd_grammar.specs.Lawful.{IsLawfulPool};
ghost use Rattle.pd_grammar.specs.Need.{thin_need};
ghost use Rattle.pd_laid.specs.Shape.{shape_of};
ghost use Rattle.pd_laid.specs.PoolText.{shape_need};
ghost use Rattle.pd_image.specs.Device.{IsWritable, KeepsPlace};
ghost use Rattle.pd_restore.specs.Pools.{GivesShape, CountsMade, IsMadeOf, ending_of, PoolStands};
ghost use Rattle.pd_salvage.specs.Saved.{pool_of};

use crate::known::{restore_fitting, restore_known};
use crate::saved_lines::SavedLines;
use crate::saved_need::{need_of_saved, surely_fits_saved};
use crate::thin::{Begun, Rest};
use pd_image::Device;
use pd_kinds::MAX_META_BLOCKS;
use pd_laid::{pool_text_has_one_verdict, pool_text_is_accepted_where_there_is_room};
use pd_restoring::MadeFault;
use pd_salvage::Salvage;
use std::alloc::Global;

/// Writes a pool that is held in memory to a device, as a restore of its text does.
///
/// The room is looked at before the device is written, of which at most 4161600 blocks are used. It takes the memory of
/// counts of the data blocks where there may be no room, and then that of a restore.
///
/// Fails with `NoRoom` where the pool needs more blocks than there are, with `Memory` where memory wasn't found, or the
/// need isn't below 2^64 - 1, and with `Device` where the device failed. After want of room the device is as it was, and
/// after want of memory it is as it was, or has no valid superblock.
pub fn restore_made<D: Device>(alloc: Global, saved: Salvage, dev: &mut D) -> Result<(), MadeFault>
    requires { IsWritable (D.state dev.old) }
    ensures made { IsMadeOf (pool_of saved) (ending_of result) (D.state dev.old) (D.state dev.new) }
    ensures place { KeepsPlace (D.state dev.old) (D.state dev.new) }
    ensures causes { CountsMade result (D.state dev.old).faults (D.state dev.new).faults }
{
    let room = dev.blocks().min(MAX_META_BLOCKS);
    if surely_fits_saved(alloc, &saved, room) {
        return restore_fitting(alloc, begun_of(saved), dev, room);
    }
    let Some(need) = need_of_saved(alloc, &saved, room) else {
        return Err(MadeFault::Memory);
    };
    restore_known(alloc, begun_of(saved), need, dev, room)
}

/// What is restored of a pool: its text, where there is room for the pool, is accepted as that of a pool that shares no leaf.
fn begun_of(saved: Salvage) -> Begun
    ensures stands { PoolStands result }
    ensures gives { GivesShape (shape_of (pool_of saved)) result }
    ensures lawful { IsLawfulPool (pool_of saved) }
    ensures need { (room : ℕ) → shape_need (shape_of (pool_of saved)) room ≡ thin_need (pool_of saved) room }
{
    pool_text_is_accepted_where_there_is_room();
    pool_text_has_one_verdict();
    // What was saved is a lawful pool.
    let pool = *saved.head();
    Begun {
        pool,
        rest: Rest::Saved(SavedLines::new(saved)),
    }
}
