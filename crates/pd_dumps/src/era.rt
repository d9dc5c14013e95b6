//! The dump of an era target (`era_dump`).

ghost use Rattle.std.specs.Prelude.{◌≡◌, ◌<◌, ◌^◌, IfOk, IfSome};
ghost use Rattle.pd_grammar.specs.EraText as e;
ghost use Rattle.pd_image.specs.Device.{IsAttached, OnlyReads};
ghost use Rattle.pd_lines.specs.Printer.{printing};
ghost use Rattle.pd_texts_kinds.specs.EraLine.{line_of};
ghost use Rattle.pd_meaning_era.specs.Eras.{eras_below};
ghost use Rattle.pd_meaning_era.specs.Parts.{blocks_left, eras_left};
ghost use Rattle.pd_query.specs.Query.{StartFails, PrintsSome, QueryEnds};
ghost use Rattle.pd_dumps.specs.EraLines.{era_dump_text, run_text, super_head};

use crate::laws::given_era_lines_are_the_text;
use crate::runs::{RunKind, add_runs};
use crate::supers::read_era;
use pd_image::{Device, Sink};
use pd_kinds::{EraSuper, Kind};
use pd_lines::Printer;
use pd_meaning_era::Eras;
use pd_query::{Query, QueryFault, finish, print_line, print_text_line};
use pd_texts::{bytes_of_end, bytes_of_first};
use pd_texts_kinds::EraLine;
use std::alloc::Global;

/// The dump of an era target, with the memory that it takes.
#[derive(Drop)]
pub struct EraDump {
    s: EraSuper,
    eras: Eras,
    ghost few: { blocks_left eras < 2 ^ 32 },
}

ghost use Rattle.std.specs.Prelude.{◌<◌, ◌^◌};
ghost use Rattle.pd_meaning_era.specs.Parts.{blocks_left};

impl EraDump {
    ghost use Rattle.std.specs.Prelude.{◌≡◌, ◌≤◌, [], IfOk, IfSome, length};
    ghost use Rattle.pd_kinds.specs.declared.kind.Kind.TheVariants.{Era};
    ghost use Rattle.pd_kinds.specs.declared.kind.Stage.TheVariants.{Whole};
    ghost use Rattle.pd_kinds.specs.EraFormat.{era_fields};
    ghost use Rattle.pd_kinds.specs.Graph.{block_at};
    ghost use Rattle.pd_kinds.specs.Meaning.{era_meaning};
    ghost use Rattle.pd_kinds.specs.Stages.{faults};
    ghost use Rattle.pd_image.specs.Device.{IsAttached, OnlyReads};
    ghost use Rattle.pd_image.specs.Sink.{KeepsSink};
    ghost use Rattle.pd_grammar.specs.EraText.{text_of_era};
    ghost use Rattle.pd_query.specs.Query.{PutsText};
    ghost use Rattle.pd_query.specs.Query.{QueryEnds, StartFails};
    ghost use Rattle.pd_dumps.specs.EraDump.{text_left};
    ghost use Rattle.pd_meaning_era.specs.Eras.{eras_below};
    ghost use Rattle.pd_dumps.specs.EraLines.{era_dump_text};

    /// Reads the superblock of an era target, and takes the memory for its dump. The dump holds the eras of one part of
    /// the blocks at a time, in four bytes a block.
    ///
    /// Fails with `Device` where a read failed, and with `Memory` where memory wasn't found.
    pub fn start<D: Device>(alloc: Global, dev: &mut D) -> Result<EraDump, QueryFault>
        requires { IsAttached (D.state dev.old) }
        ensures text { IfOk result (λ dump. IfSome (D.state dev.old).held (λ image. 1 ≤ length image
            → text_left image dump ≡ era_dump_text (era_fields (block_at image 0)) (eras_below image (era_fields (block_at image 0))))) }
        ensures means { IfOk result (λ dump. IfSome (D.state dev.old).held
            (λ image. faults Era Whole image ≡ [] → text_left image dump ≡ text_of_era (era_meaning image))) }
        ensures kept { OnlyReads (D.state dev.old) (D.state dev.new) }
        ensures faults { StartFails result (D.state dev.old).faults (D.state dev.new).faults }
    {
        given_era_lines_are_the_text();
        let s = match read_era(dev) {
            Ok(s) => s,
            Err(_) => return Err(QueryFault::Device),
        };
        let eras = eras_of(alloc, dev, &s)?;
        Ok(EraDump { s, eras })
    }

    /// Puts the target's text, for which it reads the eras part by part.
    ///
    /// Fails with `Device` where a read failed, with `Memory` where memory wasn't found, and with `Sink` where `out` did;
    /// then a front of the text was put.
    pub fn put<D: Device, K: Sink>(self, dev: &mut D, out: &mut K) -> Result<(), QueryFault>
        requires dev { IsAttached (D.state dev.old) }
        requires out { (K.state out.old).access ≡ 1 }
        ensures text { PutsText (D.state dev.old).held
            (λ image. text_left image self) result (K.state out.old).written (K.state out.new).written }
        ensures kept { OnlyReads (D.state dev.old) (D.state dev.new) }
        ensures sink { KeepsSink (K.state out.old) (K.state out.new) }
        ensures faults { QueryEnds result (D.state dev.old).faults
            (D.state dev.new).faults (K.state out.old).faults (K.state out.new).faults }
    {
        let mut eras = self.eras;
        let mut printer = Printer::to_sink(out);
        add_target(&self.s, &mut eras, dev, &mut printer)?;
        finish(printer)
    }
}

/// The text of an era target, as it is asked for.
#[derive(Clone, Copy, Debug, PartialEq, Eq)]
pub struct TextOfEra;

impl Query for TextOfEra {
    ghost use Rattle.std.specs.Prelude.{◌≡◌};
    ghost use Rattle.pd_kinds.specs.declared.kind.Kind.TheVariants.{Era};
    ghost use Rattle.pd_kinds.specs.declared.kind.Stage.TheVariants.{Whole};
    ghost use Rattle.pd_kinds.specs.Meaning.{era_meaning};
    ghost use Rattle.pd_grammar.specs.EraText.{text_of_era};
    ghost use Rattle.pd_query.specs.Query.{IfSound};
    ghost use Rattle.pd_dumps.specs.EraDump.{text_left};

    type Started = EraDump;

    ghost kind = { Era };

    ghost stage = { Whole };

    ghost answer = { λ query image. text_of_era (era_meaning image) };

    ghost IsOver = { λ query dump held. IfSound Era held (λ image. text_left image dump ≡ text_of_era (era_meaning image)) };

    fn start<D: Device>(&self, alloc: Global, dev: &mut D) -> Result<EraDump, QueryFault> {
        EraDump::start(alloc, dev)
    }

    fn put<D: Device, K: Sink>(
        &self,
        alloc: Global,
        started: EraDump,
        dev: &mut D,
        out: &mut K,
    ) -> Result<(), QueryFault> {
        started.put(dev, out)
    }
}

// The eras of an era target, of which no part was taken (`era_dump`).

/// The number of blocks fits its field.
pub(crate) fn blocks_fit(s: EraSuper)
    ensures { s.blocks < 2 ^ 32 }
{}

/// The eras of the target with this superblock.
///
/// Fails with `Device` where a read failed, and with `Memory` where memory wasn't found.
fn eras_of<D: Device>(alloc: Global, dev: &mut D, s: &EraSuper) -> Result<Eras, QueryFault>
    requires { IsAttached (D.state dev.old) }
    ensures eras { IfOk result (λ eras. IfSome (D.state dev.old).held (λ image. eras_left image eras ≡ eras_below image s.now)) }
    ensures few { IfOk result (λ eras. blocks_left eras < 2 ^ 32) }
    ensures kept { OnlyReads (D.state dev.old) (D.state dev.new) }
    ensures faults { StartFails result (D.state dev.old).faults (D.state dev.new).faults }
{
    blocks_fit(*s);
    let eras = Eras::start(alloc, dev, s)?;
    Ok(eras)
}

// The lines of an era target, printed (`era_dump`).

/// The line of an era target.
fn era_line(s: &EraSuper) -> EraLine
    ensures { line_of result ≡ e.era_line (super_head s.now) }
{
    EraLine::Era {
        uuid: s.uuid,
        block_size: s.block_size,
        blocks: s.blocks,
        era: s.era,
    }
}

/// Runs of blocks of one era, each with a line.
#[derive(Drop)]
struct RunsOfOneEra;

impl RunKind for RunsOfOneEra {
    ghost counts = { λ _ era. era };

    ghost line = { λ _. run_text };

    fn value(&self, era: u32) -> u32 {
        era
    }

    fn print<K: Sink>(
        &self,
        first: u32,
        length: u32,
        value: u32,
        printer: &mut Printer<'_, K>,
    ) -> Result<(), QueryFault> {
        let line = EraLine::Run {
            first,
            length,
            era: value,
        };
        print_text_line(&line, printer)
    }
}

/// Prints the lines of an era target, from the first one to the last.
pub(crate) fn add_target<D: Device, K: Sink>(
    s: &EraSuper,
    eras: &mut Eras,
    dev: &mut D,
    printer: &mut Printer<'_, K>,
) -> Result<(), QueryFault>
    requires few { blocks_left eras.old < 2 ^ 32 }
    requires dev { IsAttached (D.state dev.old) }
    requires open { (K.state printer.old.out.now).access ≡ 1 }
    ensures same_reference { printer.new.out.ghost_name ≡ printer.old.out.ghost_name }
    ensures prints { PrintsSome (D.state dev.old).held
        (λ image. era_dump_text s.now (eras_left image eras.old)) result (printing K.state printer.old) (printing K.state printer.new) }
    ensures kept { OnlyReads (D.state dev.old) (D.state dev.new) }
    ensures faults { QueryEnds result (D.state dev.old).faults
        (D.state dev.new).faults (K.state printer.old.out.now).faults (K.state printer.new.out.now).faults }
{
    print_line(bytes_of_first(Kind::Era), printer)?;
    print_text_line(&era_line(s), printer)?;
    add_runs(&RunsOfOneEra, eras, dev, printer)?;
    print_line(bytes_of_end(), printer)
}
