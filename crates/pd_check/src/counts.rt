//! The stage of the counts, after the rules of the whole image (`thin_check`, `cache_check`, `era_check`).

ghost use Rattle.std.specs.Prelude.{◌≡◌, ◌+◌, ◌^◌, ◌<◌, ◌≤◌, ℕ, List, [], Some, IfOk, IfSome, OnOk, ◌↔◌, IsTrue, length};
ghost use Rattle.pd_kinds.specs.declared.limits.TheConstants.{MAX_META_BLOCKS};
ghost use Rattle.pd_kinds.specs.declared.kind.Stage.TheVariants.{Whole};
ghost use Rattle.pd_kinds.specs.CheckFault.{CountsCheckFault};
ghost use Rattle.pd_kinds.specs.Graph.{block_at, is_reached, nodes};
ghost use Rattle.pd_kinds.specs.Rule.{report_of};
ghost use Rattle.pd_kinds.specs.Stages.{checked_of, count_faults, faults};
ghost use Rattle.pd_kinds.specs.declared.kind.Kind.{Kind};
ghost use Rattle.pd_image.specs.Device.{IsAttached, OnlyReads};
ghost use Rattle.pd_graph.specs.Audit.{blocks_of};
ghost use Rattle.pd_graph.specs.Format.{no_pairs};
ghost use Rattle.pd_graph.specs.declared.audit.Audit.{Audit};
ghost use Rattle.pd_smap.specs.Steps.{Adds};
ghost use Rattle.pd_check.specs.Counter.{HasSeen, data_blocks_of};
ghost use Rattle.pd_check.specs.Check.{data_space_of, graph_of_super, meta_map_of, ClaimsFew, count_reads, data_faults};
ghost use Rattle.pd_check.specs.Check.{data_reads, meta_faults, meta_reads, space_reads, IsWhole};

use crate::counter::RefCounter;
use crate::laws::{
    bitmaps_are_named_once, nodes_of_reached_trees_are_reached_once,
    reached_blocks_are_no_more_than_nodes, trees_and_indices_name_blocks,
};
use crate::metadata::{DataSpace, Metadata};
use pd_graph::Audit;
use pd_image::Device;
use pd_kinds::{Block, CheckFault, Report, bitmaps_for, trees_are_in_order};
use pd_smap::{compare_data, compare_meta, index_trees_name_bitmaps, overflow_trees_hold_counts};
use pd_tree::{formats_have_trees, reached_trees_are_sound, superblocks_lead_to_reached_roots};
use std::alloc::{AllocError, Global};

/// A counter of the references to data blocks, where this is block 0; it counts none where this kind has none. It takes
/// 33 bytes for each metadata block at the most, whatever block 0 claims, and more as counts come. Want of memory is the
/// only error.
pub(crate) fn ref_counter<M: Metadata>(
    alloc: Global,
    first: &Block,
) -> Result<RefCounter, AllocError>
    requires few { ClaimsFew M.kind first.now.0 }
    ensures size { IfOk result (λ counter. data_blocks_of counter ≡ (graph_of_super M.kind first.now.0).data_blocks) }
    ensures unseen { IfOk result (λ counter. (image : List (List ℕ)) → HasSeen counter (graph_of_super M.kind first.now.0) image no_pairs) }
{
    match M::data_space(first) {
        Some(space) => RefCounter::new(alloc, space.role, space.root.blocks),
        None => RefCounter::new(alloc, 0, 0),
    }
}

/// Compares the stored counts with the references, metadata blocks first and then data blocks, where no block breaks a
/// rule up to those of the whole image, and reports each that differs. The walk showed the counter what it read.
///
/// Fails with `CheckFault::Memory` where memory wasn't found, and with `CheckFault::Device` where a read failed.
#[inline(never)]
pub(crate) fn count_report<M: Metadata, D: Device>(
    alloc: Global,
    dev: &mut D,
    first: &Block,
    audit: &Audit,
    counter: RefCounter,
) -> Result<Report, CheckFault>
    requires attached { IsAttached (D.state dev.old) }
    requires few { (graph_of_super M.kind first.now.0).nr ≤ MAX_META_BLOCKS }
    requires number { blocks_of audit.now ≡ (graph_of_super M.kind first.now.0).nr }
    requires within { (graph_of_super M.kind first.now.0).nr ≤ (D.state dev.old).blocks }
    requires size { data_blocks_of counter ≡ (graph_of_super M.kind first.now.0).data_blocks }
    requires data { IfSome (data_space_of M.kind first.now.0) (λ space. space.root.blocks ≤ 2 ^ 40) }
    ensures report { IfOk result (λ report. IfSome (D.state dev.old).held (λ image. IsWhole M.kind first.now.0 image audit.now
        → HasSeen counter (graph_of_super M.kind first.now.0) image (is_reached (graph_of_super M.kind first.now.0) image)
        → report ≡ report_of (count_faults (checked_of M.kind image) image))) }
    ensures reads { IfSome (D.state dev.old).held
        (λ image. (D.state dev.new).reads ≤ (D.state dev.old).reads + count_reads M.kind first.now.0 image) }
    ensures kept { OnlyReads (D.state dev.old) (D.state dev.new) }
    ensures faults { CountsCheckFault result (D.state dev.old).faults (D.state dev.new).faults }
{
    let mut report = Report::new();
    add_meta_faults::<M, D>(alloc, dev, first, audit, &mut report)?;
    add_space_faults::<M, D>(alloc, dev, first, counter, &mut report)?;
    Ok(report)
}

/// Adds the faults of the counts of metadata blocks.
fn add_meta_faults<M: Metadata, D: Device>(
    alloc: Global,
    dev: &mut D,
    first: &Block,
    audit: &Audit,
    report: &mut Report,
) -> Result<(), CheckFault>
    requires attached { IsAttached (D.state dev.old) }
    requires few { (graph_of_super M.kind first.now.0).nr ≤ MAX_META_BLOCKS }
    requires number { blocks_of audit.now ≡ (graph_of_super M.kind first.now.0).nr }
    requires within { (graph_of_super M.kind first.now.0).nr ≤ (D.state dev.old).blocks }
    requires room { report.old.total + (graph_of_super M.kind first.now.0).nr < 2 ^ 64 }
    ensures added { OnOk result (IfSome (D.state dev.old).held (λ image. IsWhole M.kind first.now.0 image audit.now
        → Adds (meta_faults (checked_of M.kind image) image) report.old report.new)) }
    ensures total { report.new.total ≤ report.old.total + (graph_of_super M.kind first.now.0).nr }
    ensures reads { IfSome (D.state dev.old).held
        (λ image. (D.state dev.new).reads ≤ (D.state dev.old).reads + meta_reads (meta_map_of M.kind first.now.0) image) }
    ensures kept { OnlyReads (D.state dev.old) (D.state dev.new) }
    ensures faults { CountsCheckFault result (D.state dev.old).faults (D.state dev.new).faults }
{
    formats_have_trees();
    reached_trees_are_sound();
    superblocks_lead_to_reached_roots();
    overflow_trees_hold_counts();
    let root = M::meta_map(first);
    let inside = (root.bitmap_root < dev.blocks()) & (root.overflow_root < dev.blocks());
    if inside {
        return compare_meta(alloc, dev, &root, audit, report);
    }
    Ok(())
}

/// Adds the faults of the counts of data blocks, where this kind counts any.
fn add_space_faults<M: Metadata, D: Device>(
    alloc: Global,
    dev: &mut D,
    first: &Block,
    counter: RefCounter,
    report: &mut Report,
) -> Result<(), CheckFault>
    requires attached { IsAttached (D.state dev.old) }
    requires within { (graph_of_super M.kind first.now.0).nr ≤ (D.state dev.old).blocks }
    requires size { data_blocks_of counter ≡ (graph_of_super M.kind first.now.0).data_blocks }
    requires room { IfSome (data_space_of M.kind first.now.0) (λ space. report.old.total + space.root.blocks < 2 ^ 64) }
    ensures added { OnOk result (IfSome (D.state dev.old).held (λ image. block_at image 0 ≡ first.now.0 → faults M.kind Whole image ≡ []
        → HasSeen counter (graph_of_super M.kind first.now.0) image (is_reached (graph_of_super M.kind first.now.0) image)
        → Adds (data_faults (checked_of M.kind image) image) report.old report.new)) }
    ensures reads { IfSome (D.state dev.old).held (λ image. (D.state dev.new).reads ≤ (D.state dev.old).reads
        + space_reads (data_space_of M.kind first.now.0) image) }
    ensures kept { OnlyReads (D.state dev.old) (D.state dev.new) }
    ensures faults { CountsCheckFault result (D.state dev.old).faults (D.state dev.new).faults }
{
    match M::data_space(first) {
        None => Ok(()),
        Some(space) => add_data_faults::<M, D>(alloc, dev, first, &space, counter, report),
    }
}

/// Adds the faults of the counts of data blocks in this space.
fn add_data_faults<M: Metadata, D: Device>(
    alloc: Global,
    dev: &mut D,
    first: &Block,
    space: &DataSpace,
    counter: RefCounter,
    report: &mut Report,
) -> Result<(), CheckFault>
    requires attached { IsAttached (D.state dev.old) }
    requires within { (graph_of_super M.kind first.now.0).nr ≤ (D.state dev.old).blocks }
    requires size { data_blocks_of counter ≡ (graph_of_super M.kind first.now.0).data_blocks }
    requires space { data_space_of M.kind first.now.0 ≡ Some space.now }
    requires room { report.old.total + space.now.root.blocks < 2 ^ 64 }
    ensures added { OnOk result (IfSome (D.state dev.old).held (λ image. block_at image 0 ≡ first.now.0 → faults M.kind Whole image ≡ []
        → HasSeen counter (graph_of_super M.kind first.now.0) image (is_reached (graph_of_super M.kind first.now.0) image)
        → Adds (data_faults (checked_of M.kind image) image) report.old report.new)) }
    ensures reads { IfSome (D.state dev.old).held
        (λ image. (D.state dev.new).reads ≤ (D.state dev.old).reads + data_reads space.now image) }
    ensures kept { OnlyReads (D.state dev.old) (D.state dev.new) }
    ensures faults { CountsCheckFault result (D.state dev.old).faults (D.state dev.new).faults }
{
    formats_have_trees();
    reached_trees_are_sound();
    superblocks_lead_to_reached_roots();
    overflow_trees_hold_counts();
    index_trees_name_bitmaps();
    let counts = counter.counts()?;
    compare_data(alloc, dev, &space.root, &counts, report)
}

// How many data blocks a superblock can claim.

/// Where no block breaks a rule up to those of the whole image, each bitmap of the data blocks stands in a block of its
/// own. So there are no more of them than metadata blocks.
pub(crate) fn bitmaps_are_no_more_than_blocks()
    ensures { (kind : Kind) (first : List ℕ) (image : List (List ℕ)) (audit : Audit)
        → IsWhole kind first image audit → ClaimsFew kind first }
{
    trees_are_in_order();
    formats_have_trees();
    superblocks_lead_to_reached_roots();
    nodes_of_reached_trees_are_reached_once();
    trees_and_indices_name_blocks();
    bitmaps_are_named_once();
}

/// Whether the data blocks that this block 0 claims need no more bitmaps than there are metadata blocks. Where they need
/// more, their counts can't all be stored.
pub(crate) fn claims_few<M: Metadata>(first: &Block) -> bool
    ensures { IsTrue result ↔ ClaimsFew M.kind first.now.0 }
{
    match M::data_space(first) {
        Some(space) => bitmaps_for(space.root.blocks) <= M::meta_map(first).blocks,
        None => true,
    }
}

// How much is read to compare counts with references.

/// Where no block breaks a rule up to those of the whole image, the blocks that are read to compare counts with references
/// are each reached in a role of their own: the nodes of the maps' trees, the index block, and the bitmaps, each of which
/// is named once. So they are no more than the reachable pairs, whatever is shared.
pub(crate) fn counts_read_no_more_than_nodes()
    ensures { (kind : Kind) (first : List ℕ) (image : List (List ℕ)) (audit : Audit) → IsWhole kind first image audit
        → count_reads kind first image ≤ length (nodes (graph_of_super kind first) image) }
{
    trees_are_in_order();
    formats_have_trees();
    superblocks_lead_to_reached_roots();
    nodes_of_reached_trees_are_reached_once();
    trees_and_indices_name_blocks();
    bitmaps_are_named_once();
    reached_blocks_are_no_more_than_nodes();
}
