//! A restore, from the path of a text to an image (`thin_restore`, `cache_restore`, `era_restore`).

ghost use Rattle.std.specs.Prelude.{◌≡◌, ℕ, List, OnOk, IfErr, MatchResult};
ghost use Rattle.pd_kinds.specs.declared.kind.Kind.{Kind};
ghost use Rattle.pd_kinds.specs.Objects.{DeviceState, SinkState, SourceState};
ghost use Rattle.pd_kinds.specs.Crash.{IsSynced};
ghost use Rattle.pd_answers.specs.Terms.{Objects};
ghost use Rattle.pd_answers.specs.Restores.{restore};
ghost use Rattle.pd_image.specs.Device.{IsWritable, KeepsPlace};
ghost use Rattle.pd_image.specs.Source.{KeepsSource};
ghost use Rattle.pd_restoring.specs.Restored.{CountsRestore};
ghost use Rattle.pd_words.specs.Words.{IsVersion};
ghost use Rattle.pd_tools.specs.Ending.{ending_line, ending_status, restore_ended};
ghost use Rattle.pd_tools.specs.Restore.{AreAttached, AreUnattached, IsRestoredAs, TextsHaveVerdicts};
ghost use Rattle.pd_tools.specs.Task.{IsFinished, IsStopped, AnswersTerms};

use crate::ending::{Ending, Stop, no_room, put_ending};
use pd_grammar::{cache_text_has_one_verdict, era_text_has_one_verdict};
use pd_image::{Device, Sink, Source};
use pd_kinds::Kind;
use pd_laid::pool_text_has_one_verdict;
use pd_restore::restore_thin;
use pd_restore_kinds::{restore_cache, restore_era};
use pd_restoring::RestoreFault;
use std::alloc::Global;

/// Restores an image of this kind, and of a cache's version, from the text at a path.
#[inline(never)]
pub fn run_restore<S: Source, E: Sink, B: Device>(
    alloc: Global,
    kind: Kind,
    version: u32,
    text: &str,
    image: &str,
    source: &mut S,
    notes: &mut E,
    output: &mut B,
) -> u8
    requires version { IsVersion version }
    requires source { (S.state source.old).access ≡ 0 }
    requires notes { (E.state notes.old).access ≡ 1 }
    requires output { (B.state output.old).access ≡ 0 }
    ensures { (others : Objects) → AnswersTerms (restore kind version text.now image.now) (E.state notes.old)
        (record others { source = S.state source.old; output = B.state output.old })
        (record others { source = S.state source.new; notes = E.state notes.new; output = B.state output.new }) result }
{
    let ended = restore_image(alloc, kind, version, text, image, source, output);
    put_ending(ended, notes)
}

/// Attaches the text and the image, and restores the one from the other.
fn restore_image<S: Source, B: Device>(
    alloc: Global,
    kind: Kind,
    version: u32,
    text: &str,
    image: &str,
    source: &mut S,
    output: &mut B,
) -> Result<Ending, Stop>
    requires version { IsVersion version }
    requires source { (S.state source.old).access ≡ 0 }
    requires output { (B.state output.old).access ≡ 0 }
    ensures { (others : Objects) (notes : SinkState) → (B.state output.old).faults ≡ 0 →
        let terms = restore kind version text.now image.now in
        let before = record others { source = S.state source.old; output = B.state output.old } in
        let after = record others { source = S.state source.new; notes = notes; output = B.state output.new } in
        MatchResult result (λ ending. IsFinished terms before after (ending_status ending) (ending_line ending))
        (IsStopped terms before after) }
{
    texts_have_verdicts();
    attach_both(text, image, source, output)?;
    restore_attached(alloc, kind, version, source, output)
}

/// Each text has a verdict.
pub fn texts_have_verdicts()
    ensures { (kind : Kind) (version : ℕ) → TextsHaveVerdicts kind version }
{
    pool_text_has_one_verdict();
    cache_text_has_one_verdict();
    era_text_has_one_verdict();
}

/// Attaches the text, and then the image for writing.
fn attach_both<S: Source, B: Device>(
    text: &str,
    image: &str,
    source: &mut S,
    output: &mut B,
) -> Result<(), Stop>
    requires source { (S.state source.old).access ≡ 0 }
    requires output { (B.state output.old).access ≡ 0 }
    ensures attached { OnOk result (AreAttached text.now image.now (S.state source.old) (S.state source.new) (B.state output.old)
        (B.state output.new)) }
    ensures unattached { IfErr result (AreUnattached text.now image.now (S.state source.old) (S.state source.new) (B.state output.old)
        (B.state output.new)) }
{
    source.attach(text).map_err(|_| Stop::Stream)?;
    output.attach(image, true).map_err(|_| Stop::Device)
}

/// Restores an image from a text, which are both attached.
fn restore_attached<S: Source, B: Device>(
    alloc: Global,
    kind: Kind,
    version: u32,
    source: &mut S,
    output: &mut B,
) -> Result<Ending, Stop>
    requires version { IsVersion version }
    requires source { (S.state source.old).access ≡ 1 }
    requires output { IsWritable (B.state output.old) }
    ensures { (file path : List ℕ) (before_source : SourceState) (before_output : DeviceState) (others : Objects) (notes : SinkState) →
        IsSynced before_output → before_output.faults ≡ 0
        → AreAttached file path before_source (S.state source.old) before_output (B.state output.old) →
        let terms = restore kind version file path in
        let before = record others { source = before_source; output = before_output } in
        let after = record others { source = S.state source.new; notes = notes; output = B.state output.new } in
        MatchResult result (λ ending. IsFinished terms before after (ending_status ending) (ending_line ending))
        (IsStopped terms before after) }
{
    ended_of(restore_kind(alloc, kind, version, source, output))
}

/// How a restore ended.
fn ended_of(restored: Result<(), RestoreFault>) -> Result<Ending, Stop>
    ensures { result ≡ restore_ended restored }
{
    match restored {
        Ok(()) => Ok(Ending::Done),
        Err(fault) => match fault {
            RestoreFault::Memory => Err(Stop::Memory),
            RestoreFault::Source => Err(Stop::Stream),
            RestoreFault::Device => Err(Stop::Device),
            RestoreFault::Text(refused) => Ok(Ending::Refused(refused)),
            RestoreFault::NoRoom { need, blocks } => Ok(no_room(need, blocks)),
        },
    }
}

/// Restores an image of this kind.
fn restore_kind<S: Source, B: Device>(
    alloc: Global,
    kind: Kind,
    version: u32,
    source: &mut S,
    output: &mut B,
) -> Result<(), RestoreFault>
    requires version { IsVersion version }
    requires source { (S.state source.old).access ≡ 1 }
    requires output { IsWritable (B.state output.old) }
    ensures restored { IsRestoredAs kind version result (S.state source.old) (S.state source.new) (B.state output.old)
        (B.state output.new) }
    ensures place { KeepsPlace (B.state output.old) (B.state output.new) }
    ensures source { KeepsSource (S.state source.old) (S.state source.new) }
    ensures causes { CountsRestore result (S.state source.old).faults
        (S.state source.new).faults (B.state output.old).faults (B.state output.new).faults }
{
    match kind {
        Kind::Thin => restore_thin(alloc, source, output),
        Kind::Cache => restore_cache(alloc, source, output, version),
        Kind::Era => restore_era(alloc, source, output),
    }
}
