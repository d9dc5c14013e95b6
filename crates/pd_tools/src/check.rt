//! A check, from the path of the image to the report and the status (`thin_check`, `cache_check`, `era_check`).

ghost use Rattle.std.specs.Prelude.{◌≡◌, ◌+◌, [], OnOk, IfOk, IfErr, IfSome, MatchResult, if◌then◌else◌};
ghost use Rattle.pd_kinds.specs.Objects.{CountsFault, Appends, AppendsFront, SinkState};
ghost use Rattle.pd_kinds.specs.Rule.{report_of};
ghost use Rattle.pd_kinds.specs.Stages.{faults};
ghost use Rattle.pd_kinds.specs.Crash.{IsUntouched};
ghost use Rattle.pd_grammar.specs.Lines.{reported_lines};
ghost use Rattle.pd_answers.specs.Terms.{Objects, IsUsed, reading};
ghost use Rattle.pd_answers.specs.Promises.{check};
ghost use Rattle.pd_image.specs.Device.{IsAttached};
ghost use Rattle.pd_check.specs.Check.{ReadsFew};
ghost use Rattle.pd_tools.specs.Query.{IsUnread, attached_for};
ghost use Rattle.pd_tools.specs.Task.{IsFinished, IsStopped, AnswersTerms};

use crate::ending::Stop;
use pd_cache::check_cache;
use pd_era::check_era;
use pd_image::{Device, Failed, Sink};
use pd_kinds::{CheckFault, Kind, Passing, Report, Stage};
use pd_lines::print_report;
use pd_thin::check_thin;
use std::alloc::Global;

/// Checks the metadata of this kind in the image at the path up to a stage, and puts the report. The status says whether it
/// passes.
#[inline(never)]
pub fn run_check<K: Sink, E: Sink, A: Device>(
    alloc: Global,
    kind: Kind,
    until: Stage,
    passing: Passing,
    image: &str,
    out: &mut K,
    notes: &mut E,
    input: &mut A,
) -> u8
    requires out { (K.state out.old).access ≡ 0 }
    requires notes { (E.state notes.old).access ≡ 1 }
    requires input { (A.state input.old).access ≡ 0 }
    ensures { (others : Objects) → AnswersTerms (check kind until passing image.now) (E.state notes.old)
        (record others { out = K.state out.old; input = A.state input.old })
        (record others { out = K.state out.new; notes = E.state notes.new; input = A.state input.new }) result }
{
    match check_image(alloc, kind, until, passing, image, out, input) {
        Ok(passed) => { if passed { 0 } else { 1 } }
        Err(stop) => stop.put(notes),
    }
}

/// Checks the image, and puts the report: whether it passes.
fn check_image<K: Sink, A: Device>(
    alloc: Global,
    kind: Kind,
    until: Stage,
    passing: Passing,
    image: &str,
    out: &mut K,
    input: &mut A,
) -> Result<bool, Stop>
    requires out { (K.state out.old).access ≡ 0 }
    requires input { (A.state input.old).access ≡ 0 }
    ensures { (others : Objects) (notes : SinkState) →
        let before = record others { out = K.state out.old; input = A.state input.old } in
        let after = record others { out = K.state out.new; notes = notes; input = A.state input.new } in
        MatchResult result (λ passed. IsFinished (check kind until passing image.now) before after (if passed then 0 else 1) [])
        (IsStopped (check kind until passing image.now) before after) }
{
    let report = read_report(alloc, kind, until, image, false, input)?;
    match put_report(&report, out) {
        Ok(()) => Ok(report.passes(passing)),
        Err(_) => Err(Stop::Stream),
    }
}

/// Attaches the device, for writing too where that is asked, and checks what it holds.
pub fn read_report<A: Device>(
    alloc: Global,
    kind: Kind,
    until: Stage,
    image: &str,
    write: bool,
    input: &mut A,
) -> Result<Report, Stop>
    requires input { (A.state input.old).access ≡ 0 }
    ensures report { IfOk result (λ report. IfSome (A.state input.old).held (λ image. report ≡ report_of (faults kind until image))) }
    ensures access { OnOk result ((A.state input.new).access ≡ (if write then 2 else 1)) }
    ensures used { IsUsed (attached_for write image.now) (A.state input.new).access (A.state input.new).path }
    ensures untouched { IsUntouched (A.state input.old) (A.state input.new) }
    ensures kept { OnOk result ((A.state input.new).faults ≡ (A.state input.old).faults) }
    ensures reads { IfSome (A.state input.old).held
        (λ image. ReadsFew kind until image ((A.state input.old).reads + 1) (A.state input.new).reads) }
    ensures stopped { IfErr result (IsUnread kind until (A.state input.old) (A.state input.new)) }
{
    input.attach(image, write).map_err(|_| Stop::Device)?;
    check_attached(alloc, kind, until, input)
}

/// Checks what a device that is attached holds.
pub(crate) fn check_attached<A: Device>(
    alloc: Global,
    kind: Kind,
    until: Stage,
    input: &mut A,
) -> Result<Report, Stop>
    requires attached { IsAttached (A.state input.old) }
    ensures report { IfOk result (λ report. IfSome (A.state input.old).held (λ image. report ≡ report_of (faults kind until image))) }
    ensures access { (A.state input.new).access ≡ (A.state input.old).access }
    ensures path { (A.state input.new).path ≡ (A.state input.old).path }
    ensures blocks { (A.state input.new).blocks ≡ (A.state input.old).blocks }
    ensures untouched { IsUntouched (A.state input.old) (A.state input.new) }
    ensures kept { OnOk result ((A.state input.new).faults ≡ (A.state input.old).faults) }
    ensures reads { IfSome (A.state input.old).held
        (λ image. ReadsFew kind until image ((A.state input.old).reads + 1) (A.state input.new).reads) }
    ensures stopped { IfErr result (IsUnread kind until (A.state input.old) (A.state input.new)) }
{
    let checked = match kind {
        Kind::Thin => check_thin(alloc, input, until),
        Kind::Cache => check_cache(alloc, input, until),
        Kind::Era => check_era(alloc, input, until),
    };
    match checked {
        Ok(report) => Ok(report),
        Err(fault) => match fault {
            CheckFault::Memory => Err(Stop::Memory),
            CheckFault::Device => Err(Stop::Device),
        },
    }
}

/// Attaches the standard output, and puts the report to it.
pub(crate) fn put_report<K: Sink>(report: &Report, out: &mut K) -> Result<(), Failed>
    requires { (K.state out.old).access ≡ 0 }
    ensures whole { OnOk result (Appends (reported_lines report.now) (K.state out.old).written (K.state out.new).written) }
    ensures front { AppendsFront (reported_lines report.now) (K.state out.old).written (K.state out.new).written }
    ensures access { OnOk result ((K.state out.new).access ≡ 1) }
    ensures used { IsUsed (reading []) (K.state out.new).access (K.state out.new).path }
    ensures faults { CountsFault result (K.state out.old).faults (K.state out.new).faults }
{
    out.attach(None)?;
    print_report(report, out)
}
