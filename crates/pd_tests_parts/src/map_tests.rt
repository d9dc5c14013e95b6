//! map_tests.

ghost use Rattle.std.specs.Prelude.{◌≡◌, ◌+◌, ◌≤◌, [], ◌∷◌, IfOk, OnOk};
ghost use Rattle.pd_image.specs.Device.{IsWritable, KeepsPlace};
ghost use Rattle.pd_image.specs.MemObjects.{mem_device_state};
ghost use Rattle.pd_draft.specs.Closed.{IsClosed};
ghost use Rattle.pd_count.specs.Counted.{HasCounted, count_of};
ghost use Rattle.pd_smwrite.specs.Map.{data_map_need};

use crate::build_tests::{close, is_closed};
use crate::objects::{NEVER, device_of, zeros_device};
use pd_build::{BuildFault, put_block};
use pd_count::Counts;
use pd_draft::Draft;
use pd_image::{Device, MemDevice};
use pd_kinds::{BLOCK_SIZE, Block, SmRoot};
use pd_smwrite::{write_data_map, write_meta_map};
use std::alloc::{AllocError, Global};
use std::process::Abort;
use std::test::Fail;

/// Writes the data map of these counts from block 1 on.
fn put_data_map<D: Device>(
    alloc: Global,
    dev: &mut D,
    counts: &Counts,
) -> Result<SmRoot, BuildFault>
    requires writable { IsWritable (D.state dev.old) }
    requires closed { IsClosed (D.state dev.old) }
    requires room { 1 + data_map_need (count_of counts.now) counts.now.size ≤ (D.state dev.old).blocks }
{
    let mut draft = Draft::on_closed(dev);
    write_data_map(alloc, &mut draft, counts)
}

/// Closes block 0, and writes the map of no data.
fn put_no_data(alloc: Global, dev: &mut MemDevice) -> Result<Result<SmRoot, BuildFault>, Fail>
    requires writable { IsWritable (mem_device_state dev.old) }
    requires room { 3 ≤ (mem_device_state dev.old).blocks }
{
    let no_data = Counts::new(alloc, 0)?;
    if close(dev).is_err() {
        return Ok(Err(BuildFault::Device));
    }
    Ok(put_data_map(alloc, dev, &no_data))
}

#[test]
fn the_map_of_no_data_has_two_empty_trees(rt: HostRuntime) -> Result<(), Fail> {
    let mut dev = zeros_device(rt.alloc(), 3)?;
    assert!(rt; dev.blocks() >= 3);
    let wanted = SmRoot {
        blocks: 0,
        allocated: 0,
        bitmap_root: 1,
        overflow_root: 2,
    };
    assert!(rt; put_no_data(rt.alloc(), &mut *dev)? == Ok(wanted));
    Ok(())
}

/// Counts of 16 blocks: block 0 once, and block 1 three times.
fn four_counted(alloc: Global) -> Result<Counts, AllocError>
    ensures size { IfOk result (λ counts. counts.size ≡ 16) }
    ensures counted { IfOk result (λ counts. HasCounted counts (0 ∷ 1 ∷ 1 ∷ 1 ∷ [])) }
{
    let mut counts = Counts::new(alloc, 16)?;
    counts.add(0)?;
    counts.add(1)?;
    counts.add(1)?;
    counts.add(1)?;
    Ok(counts)
}

/// Writes the metadata map of these counts from block 2 on.
fn put_meta_map<D: Device>(
    alloc: Global,
    dev: &mut D,
    counts: &mut Counts,
) -> Result<SmRoot, BuildFault>
    requires writable { IsWritable (D.state dev.old) }
    requires closed { IsClosed (D.state dev.old) }
    requires room { 16 ≤ (D.state dev.old).blocks }
    requires size { counts.old.size ≡ 16 }
    requires counted { HasCounted counts.old (0 ∷ 1 ∷ 1 ∷ 1 ∷ []) }
    ensures size { OnOk result (counts.new.size ≡ 16) }
    ensures kept { KeepsPlace (D.state dev.old) (D.state dev.new) }
{
    let mut draft = Draft::on_closed(dev);
    put_block(&mut draft, &Block::zeros())?;
    write_meta_map(alloc, &mut draft, counts)
}

/// Writes the map of those counts behind a block, and compares its root, the counts behind it and the device.
fn expect_meta_map(rt: &impl Abort, alloc: Global, dev: &mut MemDevice) -> Result<(), Fail>
    requires writable { IsWritable (mem_device_state dev.old) }
    requires closed { IsClosed (mem_device_state dev.old) }
    requires room { 16 ≤ (mem_device_state dev.old).blocks }
{
    let mut counts = four_counted(alloc)?;
    let root = put_meta_map(alloc, dev, &mut counts)?;
    let wanted = SmRoot {
        blocks: 16,
        allocated: 5,
        bitmap_root: 2,
        overflow_root: 4,
    };
    let found = [counts.get(2), counts.get(4), counts.get(5)];
    assert!(rt; (root == wanted) & (found == [1, 1, 0]));
    expect_counts(rt, dev);
    Ok(())
}

#[test]
fn the_map_of_metadata_counts_its_own_blocks(rt: HostRuntime) -> Result<(), Fail> {
    let mut dev = zeros_device(rt.alloc(), 16)?;
    assert!(rt; dev.blocks() >= 16);
    close(&mut *dev)?;
    expect_meta_map(&rt, rt.alloc(), &mut *dev)
}

/// The map of those counts, from block 2 on.
fn expect_counts(rt: &impl Abort, dev: &MemDevice)
    requires { 16 ≤ (mem_device_state dev.now).blocks }
{
    let (index, bitmap, leaf) = (dev.block(2).0, dev.block(3).0, dev.block(4).0);
    // The two bits of blocks 0 to 3 are 1, 3, 1 and 1, and those of block 4 are 1.
    assert!(rt; bitmap[16] == 2 + 4 * 3 + 16 * 2 + 64 * 2);
    assert!(rt; bitmap[17] == 2);
    // The leaf at block 4 has the entry 1: 3.
    assert!(rt; leaf[32] == 1);
    assert!(rt; leaf[32 + 8 * 336] == 3);
    // The index entry names block 3, of which 11 blocks are free.
    assert!(rt; index[16] == 3);
    assert!(rt; index[24] == 11);
}

/// Closes block 0, and writes the map of those counts.
fn put_four_counted(alloc: Global, dev: &mut MemDevice) -> Result<Result<SmRoot, BuildFault>, Fail>
    requires writable { IsWritable (mem_device_state dev.old) }
    requires room { 16 ≤ (mem_device_state dev.old).blocks }
{
    let mut counts = four_counted(alloc)?;
    if close(dev).is_err() {
        return Ok(Err(BuildFault::Device));
    }
    Ok(put_meta_map(alloc, dev, &mut counts))
}

/// A map on a device of 16 blocks: that of no data, or that of metadata behind a block.
#[derive(Clone, Copy)]
enum Map {
    Data,
    Meta,
}

/// Writes a map, and answers the root of its overflow tree.
fn put_map(alloc: Global, dev: &mut MemDevice, map: Map) -> Result<Result<u64, BuildFault>, Fail>
    requires writable { IsWritable (mem_device_state dev.old) }
    requires room { 16 ≤ (mem_device_state dev.old).blocks }
{
    let root = match map {
        Map::Data => put_no_data(alloc, dev)?,
        Map::Meta => put_four_counted(alloc, dev)?,
    };
    Ok(root.map(|root| root.overflow_root))
}

/// Writes a map over old blocks, of which this call fails, up to the last one that is made.
fn expect_no_superblock(
    rt: &impl Abort,
    alloc: Global,
    (map, last, root): (Map, u64, u64),
    call: u64,
) -> Result<(), Fail> {
    let mut dev = device_of(alloc, &[OLD; 16], true, call, NEVER)?;
    assert!(rt; dev.blocks() >= 16);
    let wanted = if call <= last {
        Err(BuildFault::Device)
    } else {
        Ok(root)
    };
    let is_told = put_map(alloc, &mut *dev, map)? == wanted;
    let is_safe = is_closed(alloc, &dev, &OLD, call)?;
    assert!(rt; is_told & is_safe, "{call}");
    Ok(())
}

// The calls are 0 for attaching, two for closing block 0, and one for each block that is put: two of the data map,
// four with the metadata map.
#[test]
fn a_failing_call_leaves_no_superblock(rt: HostRuntime) -> Result<(), Fail> {
    for call in 1..9 {
        expect_no_superblock(&rt, rt.alloc(), (Map::Data, 4, 2), call)?;
        expect_no_superblock(&rt, rt.alloc(), (Map::Meta, 6, 4), call)?;
    }
    Ok(())
}

/// What every block was before.
const OLD: Block = Block([9; BLOCK_SIZE]);
