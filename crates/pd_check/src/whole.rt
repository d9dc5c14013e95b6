//! The stages of the whole image and of the counts, after the order of the trees.
//! Serves `thin_check`, `cache_check`, `era_check`.

ghost use Rattle.std.specs.Prelude.{◌≡◌, ℕ, ◌+◌, ◌*◌, ◌<◌, ◌≤◌, List, false, length, IfOk, IfSome, OnOk};
ghost use Rattle.std.specs.List.{flat_map, range_with_len};
ghost use Rattle.pd_kinds.specs.Rule.{faults_at, report_of};
ghost use Rattle.pd_kinds.specs.declared.kind.Stage.TheVariants.{Counts, Whole};
ghost use Rattle.pd_kinds.specs.declared.rule.Rule.{Rule};
ghost use Rattle.pd_kinds.specs.CheckFault.{CountsCheckFault, StopsEarly};
ghost use Rattle.pd_kinds.specs.Objects.{CountsFault};
ghost use Rattle.pd_kinds.specs.Graph.{is_reached, nodes};
ghost use Rattle.pd_kinds.specs.Stages.{block_faults, checked_of, faults};
ghost use Rattle.pd_kinds.specs.Whole.{whole_bad};
ghost use Rattle.pd_image.specs.Device.{IsAttached, OnlyReads};
ghost use Rattle.pd_graph.specs.Audit.{blocks_of, has_rule_at};
ghost use Rattle.pd_graph.specs.Format.{no_pairs};
ghost use Rattle.pd_check.specs.Known.{IsKnown};
ghost use Rattle.pd_check.specs.Check.{graph_of_super, super_bad_of, IsFirstBlock, reads_of, IsOrdered, IsWhole};

use crate::counter::RefCounter;
use crate::counts::{
    bitmaps_are_no_more_than_blocks, claims_few, count_report, counts_read_no_more_than_nodes,
    ref_counter,
};
use crate::later_stages::{walk_and_settle, walk_report};
use crate::laws::settled_audits_are_known;
use crate::metadata::Metadata;
use pd_graph::{Audit, Format, NoWatch, Watch};
use pd_image::{Device, Failed};
use pd_kinds::{Block, CheckFault, Report, Rules, Stage};
use std::alloc::Global;

/// Looks at all that block 0, which breaks no rule, leads to, and where no block breaks a rule up to the order
/// of the trees, at the rules of the whole image.
///
/// It takes all its memory before it reads a block.
///
/// Fails with `CheckFault::Memory` where that memory wasn't found, and with `CheckFault::Device` where a
/// read failed.
#[inline(never)]
pub(crate) fn check_whole<M: Metadata, D: Device>(
    alloc: Global,
    dev: &mut D,
    first: &Block,
    blocks: u64,
) -> Result<Report, CheckFault>
    requires attached { IsAttached (D.state dev.old) }
    requires number { blocks ≡ (D.state dev.old).blocks }
    requires first { IfSome (D.state dev.old).held (IsFirstBlock blocks first.now.0) }
    requires sound { (rule : Rule) → super_bad_of M.kind blocks first.now.0 rule ≡ false }
    ensures report { IfOk result (λ report. IfSome (D.state dev.old).held (λ image. report ≡ report_of (faults M.kind Whole image))) }
    ensures early { StopsEarly result (D.state dev.old).reads (D.state dev.new).reads }
    ensures reads { IfSome (D.state dev.old).held (λ image.
        (D.state dev.new).reads ≤ (D.state dev.old).reads + reads_of Whole * length (nodes (graph_of_super M.kind first.now.0) image)) }
    ensures kept { OnlyReads (D.state dev.old) (D.state dev.new) }
    ensures faults { CountsCheckFault result (D.state dev.old).faults (D.state dev.new).faults }
{
    let (_audit, report, _watch) = check_whole_watched::<M, D, NoWatch>(
        alloc, dev, first, blocks, NoWatch,
    )?;
    Ok(report)
}

/// Does what `check_whole` does, and shows the walk to one more that watches: the audit of that, the report, and what
/// watched.
///
/// Fails as `check_whole` does.
#[inline(never)]
pub(crate) fn check_whole_watched<M: Metadata, D: Device, W: Watch + Drop>(
    alloc: Global,
    dev: &mut D,
    first: &Block,
    blocks: u64,
    watch: W,
) -> Result<(Audit, Report, W), CheckFault>
    requires attached { IsAttached (D.state dev.old) }
    requires number { blocks ≡ (D.state dev.old).blocks }
    requires first { IfSome (D.state dev.old).held (IsFirstBlock blocks first.now.0) }
    requires sound { (rule : Rule) → super_bad_of M.kind blocks first.now.0 rule ≡ false }
    requires room { W.has_room watch (graph_of_super M.kind first.now.0) }
    requires unseen { (image : List (List ℕ)) → W.has_seen watch (graph_of_super M.kind first.now.0) image no_pairs }
    ensures report { IfOk result (λ found. IfSome (D.state dev.old).held (λ image. found.1 ≡ report_of (faults M.kind Whole image))) }
    ensures number { IfOk result (λ found. blocks_of found.0 ≡ (graph_of_super M.kind first.now.0).nr) }

    ensures within { OnOk result ((graph_of_super M.kind first.now.0).nr ≤ (D.state dev.old).blocks) }

    // Where nothing was found, the audit knows the image.
    ensures whole { IfOk result (λ found. IfSome (D.state dev.old).held
        (λ image. found.1.total ≡ 0 → IsWhole M.kind first.now.0 image found.0)) }
    ensures seen { IfOk result (λ found. IfSome (D.state dev.old).held (λ image.
        W.has_seen found.2 (graph_of_super M.kind first.now.0) image (is_reached (graph_of_super M.kind first.now.0) image))) }
    ensures room { IfOk result (λ found. W.has_room found.2 (graph_of_super M.kind first.now.0)) }
    ensures early { StopsEarly result (D.state dev.old).reads (D.state dev.new).reads }
    ensures reads { IfSome (D.state dev.old).held (λ image.
        (D.state dev.new).reads ≤ (D.state dev.old).reads + reads_of Whole * length (nodes (graph_of_super M.kind first.now.0) image)) }
    ensures kept { OnlyReads (D.state dev.old) (D.state dev.new) }
    ensures faults { CountsCheckFault result (D.state dev.old).faults (D.state dev.new).faults }
{
    settled_audits_are_known();
    let room = M::whole_memory(alloc, first)?;
    let mut both = Both {
        first: room,
        second: watch,
    };
    let (mut audit, report) = walk_and_settle(
        alloc,
        dev,
        &M::format(first, blocks),
        Stage::Order,
        &mut both,
    )?;
    let Both {
        first: room,
        second: watch,
    } = both;
    if !report.is_empty() {
        return Ok((audit, report, watch));
    }
    let found = whole_report::<M, D>(room, first, &mut audit, dev)?;
    Ok((audit, found, watch))
}

/// Looks at all that block 0, which breaks no rule, leads to, and where no block breaks a rule up to those of the
/// whole image, compares the stored counts with the references.
///
/// Where the data blocks that block 0 claims need more bitmaps than there are metadata blocks, some block breaks such a
/// rule. Then it makes no counter of references, and the report is that of the rules up to there.
///
/// Fails with `CheckFault::Memory` where memory wasn't found, and with `CheckFault::Device` where a read failed.
#[inline(never)]
pub(crate) fn check_counts<M: Metadata, D: Device>(
    alloc: Global,
    dev: &mut D,
    first: &Block,
    blocks: u64,
) -> Result<Report, CheckFault>
    requires attached { IsAttached (D.state dev.old) }
    requires number { blocks ≡ (D.state dev.old).blocks }
    requires first { IfSome (D.state dev.old).held (IsFirstBlock blocks first.now.0) }
    requires sound { (rule : Rule) → super_bad_of M.kind blocks first.now.0 rule ≡ false }
    ensures report { IfOk result (λ report. IfSome (D.state dev.old).held (λ image. report ≡ report_of (faults M.kind Counts image))) }
    ensures reads { IfSome (D.state dev.old).held (λ image.
        (D.state dev.new).reads ≤ (D.state dev.old).reads + reads_of Counts * length (nodes (graph_of_super M.kind first.now.0) image)) }
    ensures kept { OnlyReads (D.state dev.old) (D.state dev.new) }
    ensures faults { CountsCheckFault result (D.state dev.old).faults (D.state dev.new).faults }
{
    counts_read_no_more_than_nodes();
    bitmaps_are_no_more_than_blocks();
    if !claims_few::<M>(first) {
        let (_audit, report, _watch) = check_whole_watched::<M, D, NoWatch>(
            alloc, dev, first, blocks, NoWatch,
        )?;
        return Ok(report);
    }
    let counter = ref_counter::<M>(alloc, first)?;
    let (audit, report, counter) = check_whole_watched::<M, D, RefCounter>(
        alloc, dev, first, blocks, counter,
    )?;
    if !report.is_empty() {
        return Ok(report);
    }
    count_report::<M, D>(alloc, dev, first, &audit, counter)
}

/// Marks the rules of the whole image, where no block has a rule yet, and reports them.
fn whole_report<M: Metadata, D: Device>(
    room: M::WholeMemory,
    first: &Block,
    audit: &mut Audit,
    dev: &mut D,
) -> Result<Report, Failed>
    requires room { M.WholeMemory.has_room room (graph_of_super M.kind first.now.0) }
    requires attached { IsAttached (D.state dev.old) }
    requires number { blocks_of audit.old ≡ (graph_of_super M.kind first.now.0).nr }
    requires within { (graph_of_super M.kind first.now.0).nr ≤ (D.state dev.old).blocks }
    requires none { (b : ℕ) (rule : Rule) → b < (graph_of_super M.kind first.now.0).nr → has_rule_at audit.old b rule ≡ false }
    ensures report { IfOk result (λ report. IfSome (D.state dev.old).held (λ image. IsOrdered M.kind first.now.0 image audit.old
        → M.WholeMemory.has_seen room (graph_of_super M.kind first.now.0) image (is_reached (graph_of_super M.kind first.now.0) image)
        → report ≡ report_of (block_faults (graph_of_super M.kind first.now.0).nr (whole_bad (checked_of M.kind image).whole)))) }
    ensures known { OnOk result (IfSome (D.state dev.old).held (λ image. IsOrdered M.kind first.now.0 image audit.old
        → M.WholeMemory.has_seen room (graph_of_super M.kind first.now.0) image (is_reached (graph_of_super M.kind first.now.0) image)
        → IsKnown (graph_of_super M.kind first.now.0) image audit.new)) }
    ensures number { blocks_of audit.new ≡ blocks_of audit.old }
    ensures told { IfOk result (λ report. report ≡ report_of (flat_map
        (λ b. faults_at b (has_rule_at audit.new b)) (range_with_len 0 (blocks_of audit.new)))) }
    ensures reads { IfSome (D.state dev.old).held (λ image. IsOrdered M.kind first.now.0 image audit.old
        → (D.state dev.new).reads ≤ (D.state dev.old).reads + 2 * length (nodes (graph_of_super M.kind first.now.0) image)) }
    ensures kept { OnlyReads (D.state dev.old) (D.state dev.new) }
    ensures faults { CountsFault result (D.state dev.old).faults (D.state dev.new).faults }
{
    M::mark_whole(room, first, audit, dev)?;
    Ok(walk_report(audit))
}

// Two watchers of one walk.

/// Two that watch one walk.
#[derive(Drop)]
pub(crate) struct Both<A, B> {
    pub(crate) first: A,
    pub(crate) second: B,
}

impl<A: Watch, B: Watch> Watch for Both<A, B> {
    ghost has_room = { λ both graph. A.has_room both.first graph × B.has_room both.second graph };

    ghost has_seen = { λ both graph image pairs. A.has_seen both.first graph image pairs × B.has_seen both.second graph image pairs };

    ghost same = { λ both graph image pairs others are seen.
        (A.same both.first graph image pairs others are seen.0, B.same both.second graph image pairs others are seen.1) };

    fn see<F: Format>(&mut self, format: &F, role: u8, b: u64, block: &Block, broken: &Rules) {
        self.first.see(format, role, b, block, broken);
        self.second.see(format, role, b, block, broken);
    }
}
