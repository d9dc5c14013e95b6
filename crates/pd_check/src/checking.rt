//! The check of a device, stage by stage (`thin_check`, `cache_check`, `era_check`).

ghost use Rattle.std.specs.Prelude.{◌≡◌, ◌+◌, IfOk, IfSome};
ghost use Rattle.pd_kinds.specs.declared.kind.Stage.TheVariants.{Counts};
ghost use Rattle.pd_kinds.specs.CheckFault.{CountsCheckFault, StopsEarly};
ghost use Rattle.pd_kinds.specs.Stages.{faults};
ghost use Rattle.pd_kinds.specs.Rule.{report_of, has_rule, faults_at};
ghost use Rattle.pd_image.specs.Device.{IsAttached, OnlyReads};
ghost use Rattle.pd_check.specs.Check.{IsFirstBlock, MayWantMemory, ReadsFew};

use crate::later_stages::check_later_stages;
use crate::metadata::Metadata;
use crate::whole::{check_counts, check_whole};
use pd_image::Device;
use pd_kinds::{Block, CheckFault, Report, Rules, Stage};
use pd_supers::missing_super;
use std::alloc::Global;

/// The faults of the first stage up to this one that has any. Up to `Counts` there are none exactly where the image is
/// clean.
///
/// A check up to `Super` takes no memory, and one past it takes none before block 0 was found sound, and
/// all of it before it reads another block: about 50 bytes a metadata block, and up to `Whole` what the kind
/// needs besides. Up to `Counts` it takes at most 33 bytes more a metadata block, however many data blocks the
/// superblock claims. Memory for the counts of data blocks that are referred to, and for the cursors, comes later.
///
/// It reads block 0, and where that breaks no rule at most once for each role in which a block is reached, whatever is
/// shared; up to `Order` at most three times, up to `Whole` five times, and up to `Counts` six times.
///
/// Fails with `CheckFault::Memory` where that memory wasn't found, and with `CheckFault::Device` where a
/// read failed.
pub fn check<M: Metadata, D: Device>(
    alloc: Global,
    dev: &mut D,
    until: Stage,
) -> Result<Report, CheckFault>
    requires attached { IsAttached (D.state dev.old) }
    ensures report { IfOk result (λ report. IfSome (D.state dev.old).held (λ image. report ≡ report_of (faults M.kind until image))) }
    ensures memory { MayWantMemory M.kind until (D.state dev.old).held result }
    ensures early { (until ≡ Counts → ⊥) → StopsEarly result ((D.state dev.old).reads + 1) (D.state dev.new).reads }
    ensures reads { IfSome (D.state dev.old).held
        (λ image. ReadsFew M.kind until image ((D.state dev.old).reads + 1) (D.state dev.new).reads) }
    ensures kept { OnlyReads (D.state dev.old) (D.state dev.new) }
    ensures faults { CountsCheckFault result (D.state dev.old).faults (D.state dev.new).faults }
{
    let blocks = dev.blocks();
    if blocks == 0 {
        return Ok(super_report(&missing_super()));
    }
    let mut first = Block::zeros();
    dev.read(0, &mut first)?;
    check_from::<M, D>(alloc, dev, until, &first, blocks)
}

/// The rest of a check, where block 0 of so many blocks was read.
fn check_from<M: Metadata, D: Device>(
    alloc: Global,
    dev: &mut D,
    until: Stage,
    first: &Block,
    blocks: u64,
) -> Result<Report, CheckFault>
    requires attached { IsAttached (D.state dev.old) }
    requires number { blocks ≡ (D.state dev.old).blocks }
    requires first { IfSome (D.state dev.old).held (IsFirstBlock blocks first.now.0) }
    ensures report { IfOk result (λ report. IfSome (D.state dev.old).held (λ image. report ≡ report_of (faults M.kind until image))) }
    ensures memory { MayWantMemory M.kind until (D.state dev.old).held result }
    ensures early { (until ≡ Counts → ⊥) → StopsEarly result (D.state dev.old).reads (D.state dev.new).reads }
    ensures reads { IfSome (D.state dev.old).held (λ image. ReadsFew M.kind until image (D.state dev.old).reads (D.state dev.new).reads) }
    ensures kept { OnlyReads (D.state dev.old) (D.state dev.new) }
    ensures faults { CountsCheckFault result (D.state dev.old).faults (D.state dev.new).faults }
{
    let rules = M::super_rules(first, blocks);
    if !rules.is_empty() {
        return Ok(super_report(&rules));
    }
    match until {
        Stage::Super => Ok(Report::new()),
        Stage::Whole => check_whole::<M, D>(alloc, dev, first, blocks),
        Stage::Counts => check_counts::<M, D>(alloc, dev, first, blocks),
        _ => check_later_stages(alloc, dev, &M::format(first, blocks), until),
    }
}

/// The report of the rules that block 0 breaks.
#[inline(never)]
fn super_report(rules: &Rules) -> Report
    ensures { result ≡ report_of (faults_at 0 (has_rule rules.now)) }
{
    let mut report = Report::new();
    report.add_rules(0, rules);
    report
}
