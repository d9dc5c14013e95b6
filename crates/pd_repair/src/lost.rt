//! A repair of a pool whose superblock is lost: sharing is seen in what is written (`thin_repair`).

ghost use Rattle.std.specs.Prelude.{◌≤◌, ◌^◌};
ghost use Rattle.pd_image.specs.Device.{IsAttached, IsWritable, KeepsPlace, OnlyReads};
ghost use Rattle.pd_restore.specs.Pools.{pool_content, shape_content};
ghost use Rattle.pd_repair.specs.Repaired.{CountsRepair, HasSuper, IsRepairedFromAs};
ghost use Rattle.pd_repair.specs.Snaps.{seen_from, seen_shape_from};

use crate::repair::RepairFault;
use crate::seen::see_pool;
use crate::seen_shape::see_shape;
use pd_image::Device;
use pd_kinds::ThinSuper;
use pd_restore::{restore_made, restore_shape};
use pd_salvage::salvage;
use pd_salvage_shapes::salvage_shape;
use std::alloc::Global;

/// Writes what can be saved of the pool with this superblock to another device, with this as the pool's time, and with sharing
/// seen in it: each device is snapped after those of its mappings whose data blocks other mappings lead to. The superblock's
/// time is the one that devices get which have lost their details.
///
/// Fails as `repair_from`. It takes the memory of what is saved with that of counts of the data blocks and of a second list of
/// the devices, before the output is written.
pub fn repair_seen<A: Device, B: Device>(
    alloc: Global,
    input: &mut A,
    output: &mut B,
    s: &ThinSuper,
    time: u32,
) -> Result<(), RepairFault>
    requires attached { IsAttached (A.state input.old) }
    requires writable { IsWritable (B.state output.old) }
    requires there { s.now.meta_map.blocks ≤ (A.state input.old).blocks }
    requires few { s.now.meta_map.blocks ≤ 4161600 }
    requires data { s.now.data_map.blocks ≤ 2 ^ 40 }
    ensures repaired { IsRepairedFromAs pool_content (seen_from time) s.now result (A.state input.old) (B.state output.old)
        (B.state output.new) }
    ensures sound { HasSuper result }
    ensures input { OnlyReads (A.state input.old) (A.state input.new) }
    ensures place { KeepsPlace (B.state output.old) (B.state output.new) }
    ensures causes { CountsRepair result (A.state input.old).faults
        (A.state input.new).faults (B.state output.old).faults (B.state output.new).faults }
{
    let saved = salvage(alloc, input, s)?;
    let seen = see_pool(alloc, saved, time)?;
    restore_made(alloc, seen, output)?;
    Ok(())
}

/// The same, where a leaf that devices share, or that one uses twice, is written once.
///
/// Fails as `repair_shared_from`. It takes the memory of what is saved, in which a shared leaf stands once, with that of counts
/// of the data blocks, of a number for each shared leaf and of a second list of the devices, before the output is written.
pub fn repair_seen_shared<A: Device, B: Device>(
    alloc: Global,
    input: &mut A,
    output: &mut B,
    s: &ThinSuper,
    time: u32,
) -> Result<(), RepairFault>
    requires attached { IsAttached (A.state input.old) }
    requires writable { IsWritable (B.state output.old) }
    requires there { s.now.meta_map.blocks ≤ (A.state input.old).blocks }
    requires few { s.now.meta_map.blocks ≤ 4161600 }
    requires data { s.now.data_map.blocks ≤ 2 ^ 40 }
    ensures repaired { IsRepairedFromAs shape_content (seen_shape_from time) s.now result (A.state input.old) (B.state output.old)
        (B.state output.new) }
    ensures sound { HasSuper result }
    ensures input { OnlyReads (A.state input.old) (A.state input.new) }
    ensures place { KeepsPlace (B.state output.old) (B.state output.new) }
    ensures causes { CountsRepair result (A.state input.old).faults
        (A.state input.new).faults (B.state output.old).faults (B.state output.new).faults }
{
    let saved = salvage_shape(alloc, input, s)?;
    let seen = see_shape(alloc, saved, time)?;
    restore_shape(alloc, seen, output)?;
    Ok(())
}
