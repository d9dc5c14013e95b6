//! The stages of a check past the superblock's: the walk, and the order of the trees.
//! Serves `thin_check`, `cache_check`, `era_check`.

ghost use Rattle.std.specs.Prelude.{◌≡◌, ℕ, ◌+◌, ◌*◌, ◌<◌, ◌≤◌, List, true, false, length, IfOk, IfSome, ◌-◌, ◌^◌, ◌++◌};
ghost use Rattle.std.specs.List.{flat_map, range_with_len};
ghost use Rattle.pd_kinds.specs.declared.rule.Rule.{Rule};
ghost use Rattle.pd_kinds.specs.CheckFault.{CountsCheckFault, StopsEarly};
ghost use Rattle.pd_kinds.specs.Objects.{CountsFault};
ghost use Rattle.pd_kinds.specs.Rule.{report_of, faults_at, has_rule};
ghost use Rattle.pd_kinds.specs.Graph.{is_reached, nodes};
ghost use Rattle.pd_kinds.specs.Stages.{block_faults, order_bad};
ghost use Rattle.pd_kinds.specs.declared.rule.Fault.{Fault};
ghost use Rattle.pd_image.specs.Device.{IsAttached, OnlyReads};
ghost use Rattle.pd_graph.specs.Audit.{blocks_of, has_walked, has_rule_at};
ghost use Rattle.pd_graph.specs.Walk.{IsWalked, HasNotedLeaves};
ghost use Rattle.pd_graph.specs.Format.{no_pairs};
ghost use Rattle.pd_check.specs.Known.{IsWellSettled};
ghost use Rattle.pd_check.specs.Check.{goes_past_walk, past_faults, reads_of, reads_to_order};

use pd_graph::{Audit, Format, NoWatch, Watch, walk_watched};
use pd_image::{Device, Failed};
use pd_kinds::{CheckFault, Report, Rules, Stage};
use pd_settle::settle;
use std::alloc::Global;

/// Walks over all that block 0 leads to in this format, and where no block breaks a rule and the stage is
/// past the walk, looks at the order of the trees. The report is that of the first stage that finds a fault.
///
/// It takes all its memory before it reads a block: about 50 bytes a metadata block.
///
/// Fails with `CheckFault::Memory` where that memory wasn't found, and with `CheckFault::Device` where a
/// read failed.
#[inline(never)]
pub fn check_later_stages<F: Format, D: Device>(
    alloc: Global,
    dev: &mut D,
    format: &F,
    until: Stage,
) -> Result<Report, CheckFault>
    requires attached { IsAttached (D.state dev.old) }
    requires within { (F.graph format.now).nr ≤ (D.state dev.old).blocks }
    ensures report { IfOk result (λ report. IfSome (D.state dev.old).held
        (λ image. report ≡ report_of (past_faults until (F.graph format.now) image))) }
    ensures early { StopsEarly result (D.state dev.old).reads (D.state dev.new).reads }
    ensures reads { IfSome (D.state dev.old).held (λ image.
        (D.state dev.new).reads ≤ (D.state dev.old).reads + reads_of until * length (nodes (F.graph format.now) image)) }
    ensures kept { OnlyReads (D.state dev.old) (D.state dev.new) }
    ensures faults { CountsCheckFault result (D.state dev.old).faults (D.state dev.new).faults }
{
    let (_audit, report) = walk_and_settle(alloc, dev, format, until, &mut NoWatch)?;
    Ok(report)
}

/// Walks, where the watcher is shown all that it reads, and settles the trees where `check_later_stages` looks at their
/// order: the audit of that, and the report.
///
/// Fails as `check_later_stages` does.
#[inline(never)]
pub(crate) fn walk_and_settle<F: Format, D: Device, W: Watch>(
    alloc: Global,
    dev: &mut D,
    format: &F,
    until: Stage,
    watch: &mut W,
) -> Result<(Audit, Report), CheckFault>
    requires attached { IsAttached (D.state dev.old) }
    requires within { (F.graph format.now).nr ≤ (D.state dev.old).blocks }
    requires room { W.has_room watch.old (F.graph format.now) }
    requires unseen { (image : List (List ℕ)) → W.has_seen watch.old (F.graph format.now) image no_pairs }
    ensures report { IfOk result (λ found. IfSome (D.state dev.old).held
        (λ image. found.1 ≡ report_of (past_faults until (F.graph format.now) image))) }
    ensures number { IfOk result (λ found. blocks_of found.0 ≡ (F.graph format.now).nr) }
    ensures told { IfOk result (λ found. found.1 ≡ report_of (flat_map
        (λ b. faults_at b (has_rule_at found.0 b)) (range_with_len 0 (blocks_of found.0)))) }

    // Where the trees were settled and nothing was found, the audit has the marks of both.
    ensures settled { IfOk result (λ found. IfSome (D.state dev.old).held (λ image.
        goes_past_walk until ≡ true → found.1.total ≡ 0 → IsWellSettled (F.graph format.now) image found.0)) }
    ensures seen { IfOk result (λ found. IfSome (D.state dev.old).held (λ image.
        W.has_seen watch.new (F.graph format.now) image (is_reached (F.graph format.now) image))) }
    ensures room { W.has_room watch.new (F.graph format.now) }
    ensures early { StopsEarly result (D.state dev.old).reads (D.state dev.new).reads }
    ensures reads { IfSome (D.state dev.old).held (λ image.
        (D.state dev.new).reads ≤ (D.state dev.old).reads + reads_to_order until * length (nodes (F.graph format.now) image)) }
    ensures kept { OnlyReads (D.state dev.old) (D.state dev.new) }
    ensures faults { CountsCheckFault result (D.state dev.old).faults (D.state dev.new).faults }
{
    let mut audit = walk_all(alloc, dev, format, watch)?;
    let report = walk_report(&audit);
    let goes_on = is_past_walk(until);
    if goes_on & report.is_empty() {
        let found = order_report(dev, format, &mut audit)?;
        Ok((audit, found))
    } else {
        Ok((audit, report))
    }
}

/// Whether the stage comes after the walk.
fn is_past_walk(stage: Stage) -> bool
    ensures { result ≡ goes_past_walk stage }
{
    match stage {
        Stage::Super | Stage::Walk => false,
        Stage::Order | Stage::Whole | Stage::Counts => true,
    }
}

/// Settles the trees, where a walk found no rule broken, and reports what is out of order.
fn order_report<F: Format, D: Device>(
    dev: &mut D,
    format: &F,
    audit: &mut Audit,
) -> Result<Report, Failed>
    requires walked { has_walked audit.old ≡ true }
    requires number { blocks_of audit.old ≡ (F.graph format.now).nr }
    requires sound { (b : ℕ) (rule : Rule) → b < (F.graph format.now).nr → has_rule_at audit.old b rule ≡ false }
    requires leaves { IfSome (D.state dev.old).held (λ image. HasNotedLeaves (F.graph format.now) image audit.old) }
    requires attached { IsAttached (D.state dev.old) }
    requires within { (F.graph format.now).nr ≤ (D.state dev.old).blocks }
    ensures report { IfOk result (λ report. IfSome (D.state dev.old).held (λ image. IsWalked (F.graph format.now) image audit.old
        → report ≡ report_of (block_faults (F.graph format.now).nr (order_bad (F.graph format.now) image)))) }
    ensures number { blocks_of audit.new ≡ blocks_of audit.old }
    ensures told { IfOk result (λ report. report ≡ report_of (flat_map
        (λ b. faults_at b (has_rule_at audit.new b)) (range_with_len 0 (blocks_of audit.new)))) }
    ensures settled { IfOk result (λ report. IfSome (D.state dev.old).held (λ image. IsWalked (F.graph format.now) image audit.old
        → report.total ≡ 0 → IsWellSettled (F.graph format.now) image audit.new)) }
    ensures reads { IfSome (D.state dev.old).held (λ image. IsWalked (F.graph format.now) image audit.old
        → (D.state dev.new).reads ≤ (D.state dev.old).reads + 2 * length (nodes (F.graph format.now) image)) }
    ensures kept { OnlyReads (D.state dev.old) (D.state dev.new) }
    ensures faults { CountsFault result (D.state dev.old).faults (D.state dev.new).faults }
{
    settle(audit, format, dev)?;
    Ok(walk_report(audit))
}

// The walk of a check over all blocks that the superblock leads to, and the report of what an audit has.
// Serves `thin_check`, `cache_check`, `era_check`.

/// Walks over all that block 0 leads to in this format, and shows it to the watcher.
///
/// It takes all its memory before it reads a block: about 50 bytes a metadata block.
///
/// Fails with `CheckFault::Memory` where that memory wasn't found, and with `CheckFault::Device` where a
/// read failed.
pub(crate) fn walk_all<F: Format, D: Device, W: Watch>(
    alloc: Global,
    dev: &mut D,
    format: &F,
    watch: &mut W,
) -> Result<Audit, CheckFault>
    requires attached { IsAttached (D.state dev.old) }
    requires within { (F.graph format.now).nr ≤ (D.state dev.old).blocks }
    requires room { W.has_room watch.old (F.graph format.now) }
    requires unseen { (image : List (List ℕ)) → W.has_seen watch.old (F.graph format.now) image no_pairs }
    ensures walked { IfOk result (λ audit. has_walked audit ≡ true) }
    ensures number { IfOk result (λ audit. blocks_of audit ≡ (F.graph format.now).nr) }
    ensures marks { IfOk result (λ audit. IfSome (D.state dev.old).held (λ image. IsWalked (F.graph format.now) image audit)) }
    ensures leaves { IfOk result (λ audit. IfSome (D.state dev.old).held (λ image. HasNotedLeaves (F.graph format.now) image audit)) }
    ensures seen { IfOk result (λ audit. IfSome (D.state dev.old).held (λ image.
        W.has_seen watch.new (F.graph format.now) image (is_reached (F.graph format.now) image))) }
    ensures room { W.has_room watch.new (F.graph format.now) }
    ensures early { StopsEarly result (D.state dev.old).reads (D.state dev.new).reads }
    ensures reads { IfSome (D.state dev.old).held (λ image.
        (D.state dev.new).reads ≤ (D.state dev.old).reads + length (nodes (F.graph format.now) image)) }
    ensures kept { OnlyReads (D.state dev.old) (D.state dev.new) }
    ensures faults { CountsCheckFault result (D.state dev.old).faults (D.state dev.new).faults }
{
    let mut audit = Audit::new(alloc, format.nr())?;
    walk_watched(&mut audit, format, dev, watch)?;
    Ok(audit)
}

/// The rules that the audit has of each block, block after block.
pub fn walk_report(audit: &Audit) -> Report
    ensures { result ≡ report_of (flat_map (λ b. faults_at b (has_rule_at audit.now b)) (range_with_len 0 (blocks_of audit.now))) }
{
    let mut report = Report::new();
    for b in 0..audit.nr() {
        report_block(&mut report, b, &audit.rules(b));
    }
    report
}

/// Adds a fault for each rule that block b breaks. Most blocks break none.
fn report_block(report: &mut Report, b: u64, broken: &Rules)
    requires { report.old.total < 2 ^ 64 - 22 }
    ensures faults { (before : List Fault) → report.old ≡ report_of before
        → report.new ≡ report_of (before ++ faults_at b (has_rule broken.now)) }
    ensures total { report.new.total ≤ report.old.total + 22 }
{
    if broken.is_empty() {
        return;
    }
    report.add_rules(b, broken);
}
