//! A shape that is held in memory, written to a device (`thin_repair`, `thin_shrink`).

ghost use Rattle.pd_image.specs.Device.{IsWritable, KeepsPlace};
ghost use Rattle.pd_restore.specs.Pools.{GivesShape, CountsMade, IsShapeMadeOf, ending_of, PoolStands};
ghost use Rattle.pd_salvage.specs.SavedShape.{held_shape};

use crate::known::{restore_fitting, restore_known};
use crate::shape_lines::ShapeLines;
use crate::shape_need::{need_of_shape, surely_fits};
use crate::thin::{Begun, Rest};
use pd_image::Device;
use pd_kinds::MAX_META_BLOCKS;
use pd_laid::{pool_text_has_one_verdict, pool_text_is_accepted_where_there_is_room};
use pd_restoring::MadeFault;
use pd_salvage::SavedShape;
use std::alloc::Global;

/// Writes a shape that is held in memory to a device, as a restore of its text does: each shared leaf is written once.
///
/// The room is looked at before the device is written, of which at most 4161600 blocks are used. It takes the memory of
/// counts of the shared leaves, and of the data blocks where there may be no room, and then that of a restore.
///
/// Fails with `NoRoom` where the shape needs more blocks than there are, with `Memory` where memory wasn't found, or the
/// need isn't below 2^64 - 1, and with `Device` where the device failed. After want of room the device is as it was, and
/// after want of memory it is as it was, or has no valid superblock.
pub fn restore_shape<D: Device>(
    alloc: Global,
    saved: SavedShape,
    dev: &mut D,
) -> Result<(), MadeFault>
    requires { IsWritable (D.state dev.old) }
    ensures made { IsShapeMadeOf (held_shape saved) (ending_of result) (D.state dev.old) (D.state dev.new) }
    ensures place { KeepsPlace (D.state dev.old) (D.state dev.new) }
    ensures causes { CountsMade result (D.state dev.old).faults (D.state dev.new).faults }
{
    let room = dev.blocks().min(MAX_META_BLOCKS);
    if surely_fits(alloc, &saved, room) {
        return restore_fitting(alloc, begun_of_shape(saved), dev, room);
    }
    let Some(need) = need_of_shape(alloc, &saved, room) else {
        return Err(MadeFault::Memory);
    };
    restore_known(alloc, begun_of_shape(saved), need, dev, room)
}

/// What is restored of a shape: its text, where there is room for the shape, is accepted as that of the shape.
fn begun_of_shape(saved: SavedShape) -> Begun
    ensures stands { PoolStands result }
    ensures gives { GivesShape (held_shape saved) result }
{
    pool_text_is_accepted_where_there_is_room();
    pool_text_has_one_verdict();
    // What was saved is a lawful shape.
    let pool = *saved.head();
    Begun {
        pool,
        rest: Rest::Shape(ShapeLines::new(saved)),
    }
}
