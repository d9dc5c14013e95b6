//! The top call.

ghost use Rattle.std.specs.Prelude.{◌≡◌, Some, map, string_bytes};
ghost use Rattle.pd_answers.specs.Words.{asked};
ghost use Rattle.pd_answers.specs.Terms.{Objects, objects, AreFresh, IsAnswered};
ghost use Rattle.pd_answers.specs.Promises.{terms_of};
ghost use Rattle.pd_words.specs.Words.{AreNumbers, request_as};
ghost use Rattle.pd_tools.specs.Task.{AnswersTerms};

use crate::check::run_check;
use crate::clear::run_clearing_check;
use crate::ending::{USAGE_LINE, put_line};
use crate::named::{DrySearch, NamedRepair};
use crate::query::run_query;
use crate::rehearse::{Rehearsing, run_generate};
use crate::repair::{CacheRepair, Repair};
use crate::restore::{run_restore, texts_have_verdicts};
use crate::search::Search;
use crate::shrink::Shrinking;
use crate::task::run_task;
use crate::writeback::Writeback;
use pd_answers::Request;
use pd_image::{Device, Sink, Source};
use pd_kinds::{Passing, Stage};
use pd_words::read_words;
use std::alloc::Global;

/// Does what the words ask, and answers the status of the program.
///
/// `words` are the program's words without its own name. `notes` is attached to its standard stream
/// before all else, and every other object only where the request names it.
///
/// | Status | Meaning |
/// |---|---|
/// | 0 | done; after a check, the image is clean, or, where leaks pass, has no faults but leaks |
/// | 1 | the image has faults, a block size is no whole number of blocks, or no roots were found |
/// | 2 | the words spell no request |
/// | 3 | a line of the text is refused |
/// | 4 | more blocks are needed than the output has, or the smaller pool, or a device that data is copied from or to |
/// | 5 | a device failed in this call |
/// | 6 | the source, `out` or `notes` failed in this call |
/// | 7 | memory wasn't found; in a check only past the superblock, and only where that is sound |
///
/// With status 1 the report of the faults is on `out`, or, where a dump was asked, on `notes`; the block size is that of a
/// cache, or of a pool that is to be smaller.
pub fn run_tool<S: Source, K: Sink, E: Sink, A: Device, B: Device, C: Device>(
    alloc: Global,
    words: &[String],
    source: &mut S,
    out: &mut K,
    notes: &mut E,
    input: &mut A,
    output: &mut B,
    third: &mut C,
) -> u8
    requires { AreFresh (objects (S.state source.old) (K.state out.old) (E.state notes.old) (A.state input.old) (B.state output.old)
        (C.state third.old)) }
    ensures { let before = objects (S.state source.old)
        (K.state out.old) (E.state notes.old) (A.state input.old) (B.state output.old) (C.state third.old) in
        let after = objects (S.state source.new)
        (K.state out.new) (E.state notes.new) (A.state input.new) (B.state output.new) (C.state third.new) in
        IsAnswered (terms_of (asked (map string_bytes words.now))) before after result }
{
    texts_have_verdicts();
    match notes.attach(None) {
        Ok(()) => match read_words(words) {
            Some(request) => run_request(alloc, request, source, out, notes, input, output, third),
            None => put_line(notes, USAGE_LINE, 2),
        },
        Err(_) => 6,
    }
}

/// Does a request, with `notes` attached: its clause is that of the top call, whatever the other objects
/// are.
#[tactic(auto, using(crate::proofs::CacheRepairs::known_is))]
fn run_request<S: Source, K: Sink, E: Sink, A: Device, B: Device, C: Device>(
    alloc: Global,
    request: Request<&str>,
    source: &mut S,
    out: &mut K,
    notes: &mut E,
    input: &mut A,
    output: &mut B,
    third: &mut C,
) -> u8
    requires numbers { AreNumbers request }
    requires source { (S.state source.old).access ≡ 0 }
    requires out { (K.state out.old).access ≡ 0 }
    requires notes { (E.state notes.old).access ≡ 1 }
    requires input { (A.state input.old).access ≡ 0 }
    requires output { (B.state output.old).access ≡ 0 }
    requires third { (C.state third.old).access ≡ 0 }
    ensures { (others : Objects) → AnswersTerms (terms_of (Some (request_as request.entry))) (E.state notes.old)
        (record others {
          source = S.state source.old;
          out = K.state
              out.old;
          input = A.state input.old;
          output = B.state output.old;
          third = C.state third.old;
        })
        (record others {
          source = S.state source.new;
          out = K.state out.new;
          notes = E.state notes.new;
          input = A.state input.new;
          output = B.state output.new;
          third = C.state third.new;
        }) result }
{
    match request {
        Request::Check { kind, until, image } => run_check(
            alloc,
            kind,
            until,
            Passing::Nothing,
            image,
            out,
            notes,
            input,
        ),
        Request::PassingCheck { kind, image } => run_check(
            alloc,
            kind,
            Stage::Counts,
            Passing::Leaks,
            image,
            out,
            notes,
            input,
        ),
        Request::CheckAndClear {
            flagged,
            passing,
            image,
        } => run_clearing_check(alloc, flagged, passing, image, out, notes, input),
        Request::Query { asked, file, image } => {
            run_query(alloc, asked, file, image, out, notes, input)
        }
        Request::Restore {
            kind,
            version,
            text,
            image,
        } => run_restore(alloc, kind, version, text, image, source, notes, output),
        Request::Repair {
            shared,
            input: from,
            output: to,
        } => {
            let task = Repair { from, to, shared };
            run_task(alloc, &task, out, notes, input, output, third)
        }
        Request::Search {
            shared,
            input: from,
            output: to,
            given,
        } => {
            let task = Search {
                from,
                to,
                shared,
                given,
            };
            run_task(alloc, &task, out, notes, input, output, third)
        }
        Request::RepairNamed {
            shared,
            input: from,
            output: to,
            given,
            named,
        } => {
            let task = NamedRepair {
                from,
                to,
                shared,
                given,
                named,
            };
            run_task(alloc, &task, out, notes, input, output, third)
        }
        Request::DrySearch {
            input: path,
            given,
            named,
        } => {
            let task = DrySearch { path, given, named };
            run_task(alloc, &task, out, notes, input, output, third)
        }
        Request::RepairCache {
            version,
            named,
            input: from,
            output: to,
        } => {
            let task = CacheRepair {
                from,
                to,
                version,
                named,
            };
            run_task(alloc, &task, out, notes, input, output, third)
        }
        Request::Generate { number, file } => run_generate(number, file, out, notes),
        Request::Rehearse { number, image } => {
            let task = Rehearsing { number, image };
            run_task(alloc, &task, out, notes, input, output, third)
        }
        Request::Writeback {
            metadata,
            fast,
            origin,
        } => {
            let task = Writeback {
                metadata,
                fast,
                origin,
            };
            run_task(alloc, &task, out, notes, input, output, third)
        }
        Request::Shrink {
            shared,
            input: from,
            output: to,
            pool,
            blocks,
        } => {
            let task = Shrinking {
                shared,
                from,
                to,
                pool,
                blocks,
            };
            run_task(alloc, &task, out, notes, input, output, third)
        }
    }
}
