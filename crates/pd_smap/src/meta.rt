//! The counts of metadata blocks: an index block names the bitmaps.

ghost use Rattle.std.specs.Prelude.{◌≡◌, ◌+◌, ◌^◌, ◌<◌, ◌≤◌, length, IfSome, OnOk, OnErr};
ghost use Rattle.pd_kinds.specs.declared.limits.TheConstants.{MAX_META_BLOCKS};
ghost use Rattle.pd_kinds.specs.declared.rule.Space.TheVariants.{Meta};
ghost use Rattle.pd_kinds.specs.CheckFault.{CountsCheckFault};
ghost use Rattle.pd_kinds.specs.Bitmap.{bitmaps_for, index_block_at};
ghost use Rattle.pd_kinds.specs.Trees.{stored_meta_in};
ghost use Rattle.pd_image.specs.Device.{IsAttached, OnlyReads};
ghost use Rattle.pd_graph.specs.Audit.{blocks_of, count_at};
ghost use Rattle.pd_tree.specs.Below.{nodes_below};
ghost use Rattle.pd_smap.specs.Overflow.{IsOverflow, meta_place, overflow_of, comparison_state};
ghost use Rattle.pd_smap.specs.Steps.{faults_from, Adds, AddsFront, ComparesRange, Stopped, bits_by, with_reads};

use crate::bitmaps::compare_at;
use crate::counting::MetaReferences;
use crate::overflow::Overflow;
use pd_bitmap::index_entry;
use pd_graph::Audit;
use pd_image::{Device, Failed};
use pd_kinds::{Block, CheckFault, Report, SmRoot, bitmaps_for};
use std::alloc::Global;

/// Adds a fault for each metadata block whose stored count isn't the number of references that the audit has of it,
/// block after block: Overflow where none is stored, Leak where it is above, Short where it is below.
///
/// It reads the index block, each bitmap that so many blocks need, and each node of the overflow tree at most once, and
/// takes the memory of a cursor. What it adds is said over the bytes of any image whose overflow tree can be searched.
/// Over any device it is safe and returns; a bitmap outside of the device counts as zeros. After a failure the report
/// has a front of the faults.
///
/// Fails with `CheckFault::Memory` where memory wasn't found, and with `CheckFault::Device` where a read failed.
pub fn compare_meta<D: Device>(
    alloc: Global,
    dev: &mut D,
    root: &SmRoot,
    audit: &Audit,
    report: &mut Report,
) -> Result<(), CheckFault>
    requires attached { IsAttached (D.state dev.old) }
    requires number { root.now.blocks ≡ blocks_of audit.now }
    requires few { root.now.blocks ≤ MAX_META_BLOCKS }
    requires room { report.old.total + root.now.blocks < 2 ^ 64 }
    requires index { root.now.bitmap_root < (D.state dev.old).blocks }
    ensures added { OnOk result (IfSome (D.state dev.old).held (λ image. IsOverflow image root.now.overflow_root
        → Adds (faults_from Meta (count_at audit.now)
        (stored_meta_in image root.now.bitmap_root (overflow_of image root.now.overflow_root)) 0 root.now.blocks) report.old report.new)) }
    ensures front { OnErr result (IfSome (D.state dev.old).held (λ image. IsOverflow image root.now.overflow_root
        → AddsFront (faults_from Meta (count_at audit.now)
        (stored_meta_in image root.now.bitmap_root (overflow_of image root.now.overflow_root)) 0 root.now.blocks) report.old report.new)) }
    ensures total { report.new.total ≤ report.old.total + root.now.blocks }
    ensures reads { IfSome (D.state dev.old).held (λ image.
        (D.state dev.new).reads ≤ (D.state dev.old).reads
        + (1 + bitmaps_for root.now.blocks + length (nodes_below 4 image 63 root.now.overflow_root))) }
    ensures kept { OnlyReads (D.state dev.old) (D.state dev.new) }
    ensures faults { CountsCheckFault result (D.state dev.old).faults (D.state dev.new).faults }
{
    let mut overflow = Overflow::start(alloc, dev, root.overflow_root)?;
    match compare_index(dev, root, audit, &mut overflow, report) {
        Ok(()) => Ok(()),
        Err(_) => Err(CheckFault::Device),
    }
}

/// Reads the index block, and compares the counts of its bitmaps.
fn compare_index<D: Device>(
    dev: &mut D,
    root: &SmRoot,
    audit: &Audit,
    overflow: &mut Overflow,
    report: &mut Report,
) -> Result<(), Failed>
    requires attached { IsAttached (D.state dev.old) }
    requires number { root.now.blocks ≡ blocks_of audit.now }
    requires few { root.now.blocks ≤ MAX_META_BLOCKS }
    requires room { report.old.total + root.now.blocks < 2 ^ 64 }
    requires index { root.now.bitmap_root < (D.state dev.old).blocks }
    ensures went { OnOk result (ComparesRange
        (record { space = Meta; refs = count_at audit.now; bits = bits_by (meta_place root.now.bitmap_root) }) 0 root.now.blocks
        (with_reads (1 + bitmaps_for root.now.blocks) (comparison_state (D.state dev.old) overflow.old report.old))
        (comparison_state (D.state dev.new) overflow.new report.new)) }
    ensures stopped { OnErr result
        (Stopped (record { space = Meta; refs = count_at audit.now; bits = bits_by (meta_place root.now.bitmap_root) }) 0 root.now.blocks
        (with_reads (1 + bitmaps_for root.now.blocks) (comparison_state (D.state dev.old) overflow.old report.old))
        (comparison_state (D.state dev.new) overflow.new report.new)) }
{
    let mut index = Block::zeros();
    dev.read(root.bitmap_root, &mut index)?;
    compare_indexed(dev, &index, root.blocks, audit, overflow, report)
}

/// Compares the counts of the bitmaps that the index block names for so many blocks.
fn compare_indexed<D: Device>(
    dev: &mut D,
    index: &Block,
    blocks: u64,
    audit: &Audit,
    overflow: &mut Overflow,
    report: &mut Report,
) -> Result<(), Failed>
    requires attached { IsAttached (D.state dev.old) }
    requires number { blocks ≡ blocks_of audit.now }
    requires few { blocks ≤ MAX_META_BLOCKS }
    requires room { report.old.total + blocks < 2 ^ 64 }
    ensures went { OnOk result
        (ComparesRange (record { space = Meta; refs = count_at audit.now; bits = bits_by (λ image. index_block_at index.now.0) }) 0 blocks
        (with_reads (bitmaps_for blocks) (comparison_state (D.state dev.old) overflow.old report.old))
        (comparison_state (D.state dev.new) overflow.new report.new)) }
    ensures stopped { OnErr result
        (Stopped (record { space = Meta; refs = count_at audit.now; bits = bits_by (λ image. index_block_at index.now.0) }) 0 blocks
        (with_reads (bitmaps_for blocks) (comparison_state (D.state dev.old) overflow.old report.old))
        (comparison_state (D.state dev.new) overflow.new report.new)) }
{
    let bitmaps = bitmaps_for(blocks) as usize;
    let refs = MetaReferences(audit);
    for i in 0..bitmaps {
        let place = index_entry(index, i).block;
        compare_at(dev, place, i as u64, blocks, &refs, overflow, report)?;
    }
    Ok(())
}
