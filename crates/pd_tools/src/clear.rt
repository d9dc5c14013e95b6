//! The whole check of a pool or a cache, by which "needs check" is cleared where all that was found passes.
//! Serves `thin_check` and `cache_check` with `--clear-needs-check-flag`.

ghost use Rattle.std.specs.Prelude.{◌≡◌, ◌≢◌, false, ◌+◌, ◌≤◌, ℕ, [], IfOk, MatchResult, if◌then◌else◌};
ghost use Rattle.pd_kinds.specs.Rule.{passes};
ghost use Rattle.pd_kinds.specs.Objects.{CountsFault, SinkState};
ghost use Rattle.pd_kinds.specs.Stages.{faults};
ghost use Rattle.pd_kinds.specs.Crash.{IsSynced};
ghost use Rattle.pd_answers.specs.Terms.{Objects};
ghost use Rattle.pd_answers.specs.Flag.{LeavesCleared};
ghost use Rattle.pd_answers.specs.Promises.{check_and_clear};
ghost use Rattle.pd_image.specs.Device.{IsWritable, KeepsPlace};
ghost use Rattle.pd_tools.specs.Task.{IsFinished, IsStopped, AnswersTerms};

use crate::check::{put_report, read_report};
use crate::ending::Stop;
use pd_draft::clear_needs_check;
use pd_image::{Device, Failed, Sink};
use pd_kinds::{Flagged, Passing, Report, Stage};
use std::alloc::Global;

/// Checks the pool or the cache in the image at the path to the end, puts the report, and then clears the flag where it is
/// set and the report passes.
#[inline(never)]
pub fn run_clearing_check<K: Sink, E: Sink, A: Device>(
    alloc: Global,
    flagged: Flagged,
    passing: Passing,
    image: &str,
    out: &mut K,
    notes: &mut E,
    input: &mut A,
) -> u8
    requires out { (K.state out.old).access ≡ 0 }
    requires notes { (E.state notes.old).access ≡ 1 }
    requires input { (A.state input.old).access ≡ 0 }
    ensures { (others : Objects) → AnswersTerms (check_and_clear flagged passing image.now) (E.state notes.old)
        (record others { out = K.state out.old; input = A.state input.old })
        (record others { out = K.state out.new; notes = E.state notes.new; input = A.state input.new }) result }
{
    match check_and_clear(alloc, flagged, passing, image, out, input) {
        Ok(passed) => { if passed { 0 } else { 1 } }
        Err(stop) => stop.put(notes),
    }
}

/// Checks the image, puts the report, and clears the flag after that: whether the report passes.
fn check_and_clear<K: Sink, A: Device>(
    alloc: Global,
    flagged: Flagged,
    passing: Passing,
    image: &str,
    out: &mut K,
    input: &mut A,
) -> Result<bool, Stop>
    requires out { (K.state out.old).access ≡ 0 }
    requires input { (A.state input.old).access ≡ 0 }
    ensures { (others : Objects) (notes : SinkState) → (A.state input.old).faults ≡ 0 →
        let before = record others { out = K.state out.old; input = A.state input.old } in
        let after = record others { out = K.state out.new; notes = notes; input = A.state input.new } in
        MatchResult result (λ passed. IsFinished (check_and_clear flagged passing image.now) before after (if passed then 0 else 1) [])
        (IsStopped (check_and_clear flagged passing image.now) before after) }
{
    let report = read_report(alloc, flagged.kind(), Stage::Counts, image, true, input)?;
    match put_report(&report, out) {
        Ok(()) => match clear_if_passed(flagged, passing, &report, input) {
            Ok(passed) => Ok(passed),
            Err(_) => Err(Stop::Device),
        },
        Err(_) => Err(Stop::Stream),
    }
}

/// Clears the flag where the report passes: whether it does.
fn clear_if_passed<A: Device>(
    flagged: Flagged,
    passing: Passing,
    report: &Report,
    input: &mut A,
) -> Result<bool, Failed>
    requires { IsWritable (A.state input.old) }
    ensures passed { IfOk result (λ passed. passed ≡ passes passing report.now) }
    ensures left { MatchResult result (λ passed. IsSynced (A.state input.old)
        → LeavesCleared flagged passing report.now (if passed then 0 else 1) (A.state input.old) (A.state input.new))
        (λ _. IsSynced (A.state input.old) → (A.state input.old).faults ≡ 0 → (status : ℕ) → status ≢ 0
        → LeavesCleared flagged passing report.now status (A.state input.old) (A.state input.new)) }
    ensures reads { (A.state input.new).reads ≤ (A.state input.old).reads + 1 }
    ensures unread { passes passing report.now ≡ false → (A.state input.new).reads ≡ (A.state input.old).reads }
    ensures kept { KeepsPlace (A.state input.old) (A.state input.new) }
    ensures faults { CountsFault result (A.state input.old).faults (A.state input.new).faults }
{
    if !report.passes(passing) {
        return Ok(false);
    }
    clear_needs_check(flagged, input)?;
    Ok(true)
}
