//! A query of an image: the check of it, and then the text that answers the query.
//! Serves `thin_dump`, `thin_ls`, `thin_rmap`, `thin_trim`, `thin_repair --dry-run`, `cache_dump`, `cache_repair --dry-run`, `era_dump`,
//! `era_invalidate`.

ghost use Rattle.std.specs.Prelude.{◌≡◌, [], IfErr, OnOk, MatchResult, unwrap_or};
ghost use Rattle.std.specs.Option.{option_copied};
ghost use Rattle.pd_kinds.specs.Objects.{SinkState};
ghost use Rattle.pd_grammar.specs.Lines.{reported_lines};
ghost use Rattle.pd_answers.specs.Terms.{Objects, IsUsed, reading};
ghost use Rattle.pd_answers.specs.Promises.{query as terms_of_query};
ghost use Rattle.pd_answers.specs.QueryLines.{asked_kind, asked_stage, asked_text};
ghost use Rattle.pd_image.specs.Device.{OnlyReads};
ghost use Rattle.pd_query.specs.Query.{PutsAnswer};
ghost use Rattle.pd_tools.specs.Ending.{PutsLine};
ghost use Rattle.pd_tools.specs.Query.{IsUnput, query_line, query_status, stop_as};
ghost use Rattle.pd_tools.specs.Task.{IsFinished, IsStopped, AnswersTerms};

use crate::check::read_report;
use crate::ending::Stop;
use pd_answers::Asked;
use pd_dumps::{TextOfCache, TextOfEra, WrittenSince};
use pd_image::{Device, Sink};
use pd_kept::{KeptOfCache, KeptOfPool};
use pd_kinds::{Kind, Report};
use pd_lines::print_report;
use pd_pool_dumps::{TextOfPool, TextOfShape};
use pd_query::{Query, QueryFault};
use pd_uses::{DeviceList, ReverseMap, UnusedBlocks};
use std::alloc::Global;

/// Checks the image at the path up to the stage of what is asked, and puts the text that answers to the file, or to the
/// standard output. Where the image has faults, their report goes to `notes`, and `out` isn't attached.
pub fn run_query<K: Sink, E: Sink, A: Device>(
    alloc: Global,
    asked: Asked,
    file: Option<&str>,
    image: &str,
    out: &mut K,
    notes: &mut E,
    input: &mut A,
) -> u8
    requires out { (K.state out.old).access ≡ 0 }
    requires notes { (E.state notes.old).access ≡ 1 }
    requires input { (A.state input.old).access ≡ 0 }
    ensures { (others : Objects) → AnswersTerms (terms_of_query asked (option_copied file.entry) image.now) (E.state notes.old)
        (record others { out = K.state out.old; input = A.state input.old })
        (record others { out = K.state out.new; notes = E.state notes.new; input = A.state input.new }) result }
{
    match query_image(alloc, asked, file, image, out, input) {
        Ok(report) => {
            if report.is_empty() {
                0
            } else {
                put_faults(&report, notes)
            }
        }
        Err(stop) => stop.put(notes),
    }
}

/// Puts the report of an image with faults to `notes`, and answers the status 1, or 6 where `notes` fails.
pub fn put_faults<E: Sink>(report: &Report, notes: &mut E) -> u8
    requires { (E.state notes.old).access ≡ 1 }
    ensures { PutsLine (reported_lines report.now) 1 result (E.state notes.old) (E.state notes.new) }
{
    match print_report(report, notes) {
        Ok(()) => 1,
        Err(_) => 6,
    }
}

/// Checks the image, and puts the text where it has no faults: the report of the check.
fn query_image<K: Sink, A: Device>(
    alloc: Global,
    asked: Asked,
    file: Option<&str>,
    image: &str,
    out: &mut K,
    input: &mut A,
) -> Result<Report, Stop>
    requires out { (K.state out.old).access ≡ 0 }
    requires input { (A.state input.old).access ≡ 0 }
    ensures { (others : Objects) (notes : SinkState) →
        let before = record others { out = K.state out.old; input = A.state input.old } in
        let after = record others { out = K.state out.new; notes = notes; input = A.state input.new } in
        let terms = terms_of_query asked (option_copied file.entry) image.now in
        MatchResult result (λ report. IsFinished terms before after (query_status report) (query_line report))
        (IsStopped terms before after) }
{
    let report = read_report(alloc, asked.kind(), asked.stage(), image, false, input)?;
    if !report.is_empty() {
        return Ok(report);
    }
    put_text(alloc, asked, file, out, input)?;
    Ok(report)
}

/// Puts the text that answers what is asked.
fn put_text<K: Sink, A: Device>(
    alloc: Global,
    asked: Asked,
    file: Option<&str>,
    out: &mut K,
    input: &mut A,
) -> Result<(), Stop>
    requires out { (K.state out.old).access ≡ 0 }
    requires input { (A.state input.old).access ≡ 1 }
    ensures text { PutsAnswer (asked_kind asked) (asked_stage asked) (asked_text asked) result
        (A.state input.old).held (K.state out.old).written (K.state out.new).written }
    ensures kept { OnlyReads (A.state input.old) (A.state input.new) }
    ensures used { IsUsed (reading (unwrap_or (option_copied file.entry) [])) (K.state out.new).access (K.state out.new).path }
    ensures access { OnOk result ((K.state out.new).access ≡ 1) }
    ensures stopped { IfErr result
        (IsUnput (A.state input.old).faults (A.state input.new).faults (K.state out.old).faults (K.state out.new).faults) }
{
    match asked {
        Asked::Text(Kind::Thin) => put_answer(alloc, &TextOfPool, file, out, input),
        Asked::Text(Kind::Cache) => put_answer(alloc, &TextOfCache, file, out, input),
        Asked::Text(Kind::Era) => put_answer(alloc, &TextOfEra, file, out, input),
        Asked::SharedText => put_answer(alloc, &TextOfShape, file, out, input),
        Asked::ReverseMap { first, end } => {
            put_answer(alloc, &ReverseMap { first, end }, file, out, input)
        }
        Asked::DeviceList => put_answer(alloc, &DeviceList, file, out, input),
        Asked::Unused => put_answer(alloc, &UnusedBlocks, file, out, input),
        Asked::Since { era } => put_answer(alloc, &WrittenSince { era }, file, out, input),
        Asked::Kept => put_answer(alloc, &KeptOfPool, file, out, input),
        Asked::KeptCache(named) => put_answer(alloc, &KeptOfCache { named }, file, out, input),
    }
}

/// Puts the text that answers a query; `out` is attached once the query was started.
fn put_answer<Q: Query, K: Sink, A: Device>(
    alloc: Global,
    query: &Q,
    file: Option<&str>,
    out: &mut K,
    input: &mut A,
) -> Result<(), Stop>
    requires out { (K.state out.old).access ≡ 0 }
    requires input { (A.state input.old).access ≡ 1 }
    ensures text { PutsAnswer Q.kind Q.stage (Q.answer query.now) result
        (A.state input.old).held (K.state out.old).written (K.state out.new).written }
    ensures kept { OnlyReads (A.state input.old) (A.state input.new) }
    ensures used { IsUsed (reading (unwrap_or (option_copied file.entry) [])) (K.state out.new).access (K.state out.new).path }
    ensures access { OnOk result ((K.state out.new).access ≡ 1) }
    ensures stopped { IfErr result
        (IsUnput (A.state input.old).faults (A.state input.new).faults (K.state out.old).faults (K.state out.new).faults) }
{
    let started = match query.start(alloc, input) {
        Ok(started) => started,
        Err(fault) => return Err(stop_of(fault)),
    };
    if out.attach(file).is_err() {
        return Err(Stop::Stream);
    }
    match query.put(alloc, started, input, out) {
        Ok(()) => Ok(()),
        Err(fault) => Err(stop_of(fault)),
    }
}

/// What a query's fault stops.
fn stop_of(fault: QueryFault) -> Stop
    ensures { result ≡ stop_as fault }
{
    match fault {
        QueryFault::Memory => Stop::Memory,
        QueryFault::Device => Stop::Device,
        QueryFault::Sink => Stop::Stream,
    }
}
