//! The counts of data blocks: the entries of a tree name the bitmaps.

ghost use Rattle.std.specs.Prelude.{◌≡◌, ℕ, ◌+◌, ◌^◌, ◌<◌, ◌≤◌, length, IfOk, IfSome, OnOk, OnErr};
ghost use Rattle.pd_kinds.specs.declared.rule.Space.TheVariants.{DataBlock};
ghost use Rattle.pd_kinds.specs.Objects.{CountsFault};
ghost use Rattle.pd_kinds.specs.CheckFault.{CountsCheckFault};
ghost use Rattle.pd_kinds.specs.Bitmap.{bitmaps_for};
ghost use Rattle.pd_kinds.specs.Trees.{stored_data_in};
ghost use Rattle.pd_image.specs.Device.{IsAttached, OnlyReads};
ghost use Rattle.pd_count.specs.Counted.{count_of};
ghost use Rattle.pd_tree.specs.Below.{nodes_below};
ghost use Rattle.pd_tree.specs.Cursor.{cursor_items, cursor_nodes};
ghost use Rattle.pd_smap.specs.Overflow.{IsIndex, IsOverflow, index_from, index_of, overflow_of, place_in, comparison_state};
ghost use Rattle.pd_smap.specs.Steps.{faults_from, Adds, AddsFront, ComparesRange, Stopped, bits_by, with_nodes};

use crate::bitmaps::compare_at;
use crate::counting::DataReferences;
use crate::overflow::Overflow;
use pd_count::Counts;
use pd_image::{Device, Failed};
use pd_kinds::{CheckFault, Report, SmRoot, bitmaps_for};
use pd_tree::Cursor;
use pd_value::IndexEntry;
use std::alloc::Global;

/// Adds a fault for each data block whose stored count isn't the number of references that were counted, block after
/// block: Overflow where none is stored, Leak where it is above, Short where it is below.
///
/// It reads each node of the index tree and of the overflow tree, and each bitmap that so many blocks need, at most
/// once, and takes the memory of two cursors. What it adds is said over the bytes of any image whose overflow tree can
/// be searched, and whose index tree has an entry for each bitmap and no other one. Over any device it is safe and
/// returns; a bitmap outside of the device counts as zeros. After a failure the report has a front of the faults.
///
/// Fails with `CheckFault::Memory` where memory wasn't found, and with `CheckFault::Device` where a read failed.
pub fn compare_data<D: Device>(
    alloc: Global,
    dev: &mut D,
    root: &SmRoot,
    counts: &Counts,
    report: &mut Report,
) -> Result<(), CheckFault>
    requires attached { IsAttached (D.state dev.old) }
    requires number { root.now.blocks ≡ counts.now.size }
    requires room { report.old.total + root.now.blocks < 2 ^ 64 }
    ensures added { OnOk result (IfSome (D.state dev.old).held
        (λ image. IsOverflow image root.now.overflow_root → IsIndex image root.now.bitmap_root root.now.blocks
        → Adds (faults_from DataBlock (count_of counts.now) (stored_data_in image (index_of image root.now.bitmap_root)
        (overflow_of image root.now.overflow_root)) 0 root.now.blocks) report.old report.new)) }
    ensures front { OnErr result (IfSome (D.state dev.old).held
        (λ image. IsOverflow image root.now.overflow_root → IsIndex image root.now.bitmap_root root.now.blocks
        → AddsFront (faults_from DataBlock (count_of counts.now) (stored_data_in image (index_of image root.now.bitmap_root)
        (overflow_of image root.now.overflow_root)) 0 root.now.blocks) report.old report.new)) }
    ensures total { report.new.total ≤ report.old.total + root.now.blocks }
    ensures reads { IfSome (D.state dev.old).held (λ image. (D.state dev.new).reads ≤ (D.state dev.old).reads
        + (length (nodes_below 16 image 63 root.now.bitmap_root)
        + bitmaps_for root.now.blocks + length (nodes_below 4 image 63 root.now.overflow_root))) }
    ensures kept { OnlyReads (D.state dev.old) (D.state dev.new) }
    ensures faults { CountsCheckFault result (D.state dev.old).faults (D.state dev.new).faults }
{
    let mut index = match Cursor::start(alloc, root.bitmap_root) {
        Ok(cursor) => cursor,
        Err(_) => return Err(CheckFault::Memory),
    };
    let mut overflow = Overflow::start(alloc, dev, root.overflow_root)?;
    match compare_listed(dev, &mut index, root.blocks, counts, &mut overflow, report) {
        Ok(()) => Ok(()),
        Err(_) => Err(CheckFault::Device),
    }
}

/// Compares the counts of the bitmaps that the entries of the index tree name for so many blocks.
fn compare_listed<D: Device>(
    dev: &mut D,
    index: &mut Cursor<IndexEntry>,
    blocks: u64,
    counts: &Counts,
    overflow: &mut Overflow,
    report: &mut Report,
) -> Result<(), Failed>
    requires attached { IsAttached (D.state dev.old) }
    requires number { blocks ≡ counts.now.size }
    requires room { report.old.total + blocks < 2 ^ 64 }
    ensures went { OnOk result (ComparesRange (record {
      space = DataBlock;
      refs = count_of counts.now;
      bits = bits_by
          (λ image. place_in (cursor_items 16 index_from image index.old));
    }) 0 blocks
        (with_nodes (λ image. length (cursor_nodes 16 image index.old) + bitmaps_for blocks)
        (comparison_state (D.state dev.old) overflow.old report.old)) (comparison_state (D.state dev.new) overflow.new report.new)) }
    ensures stopped { OnErr result (Stopped (record {
      space = DataBlock;
      refs = count_of counts.now;
      bits = bits_by
          (λ image. place_in (cursor_items 16 index_from image index.old));
    }) 0 blocks
        (with_nodes (λ image. length (cursor_nodes 16 image index.old) + bitmaps_for blocks)
        (comparison_state (D.state dev.old) overflow.old report.old)) (comparison_state (D.state dev.new) overflow.new report.new)) }
{
    let bitmaps = bitmaps_for(blocks);
    let refs = DataReferences(counts);
    for i in 0..bitmaps {
        let place = next_place(dev, index)?;
        compare_at(dev, place, i, blocks, &refs, overflow, report)?;
    }
    Ok(())
}

/// The place of the next bitmap, which is outside of every device where no entry is left.
pub fn next_place<D: Device>(dev: &mut D, index: &mut Cursor<IndexEntry>) -> Result<u64, Failed>
    requires attached { IsAttached (D.state dev.old) }
    ensures first { IfOk result (λ place. IfSome (D.state dev.old).held
        (λ image. place_in (cursor_items 16 index_from image index.old) 0 ≡ place)) }
    ensures rest { OnOk result (IfSome (D.state dev.old).held (λ image. (i : ℕ)
        → place_in (cursor_items 16 index_from image index.old) (i + 1) ≡ place_in (cursor_items 16 index_from image index.new) i)) }
    ensures reads { OnOk result (IfSome (D.state dev.old).held (λ image.
        (D.state dev.new).reads + length (cursor_nodes 16 image index.new)
        ≤ (D.state dev.old).reads + length (cursor_nodes 16 image index.old))) }
    ensures reads_failed { IfSome (D.state dev.old).held
        (λ image. (D.state dev.new).reads ≤ (D.state dev.old).reads + length (cursor_nodes 16 image index.old)) }
    ensures kept { OnlyReads (D.state dev.old) (D.state dev.new) }
    ensures faults { CountsFault result (D.state dev.old).faults (D.state dev.new).faults }
{
    match index.next(dev)? {
        Some((_, entry)) => Ok(entry.block),
        None => Ok(u64::MAX),
    }
}
