//! What was written since an era (`era_invalidate`).

ghost use Rattle.std.specs.Prelude.{◌≡◌, ◌<◌, ◌^◌, IfOk, IfSome};
ghost use Rattle.pd_answers.specs.QueryLines.{since_lines};
ghost use Rattle.pd_image.specs.Device.{IsAttached, OnlyReads};
ghost use Rattle.pd_image.specs.Sink.{KeepsSink};
ghost use Rattle.pd_meaning_era.specs.Eras.{eras_below};
ghost use Rattle.pd_meaning_era.specs.Parts.{blocks_left, eras_left};
ghost use Rattle.pd_query.specs.Query.{PutsText, QueryEnds, StartFails};
ghost use Rattle.pd_dumps.specs.SinceLines.{PutsLines, since_text, line_bytes, side, since_line};

use crate::era::blocks_fit;
use crate::runs::{RunKind, add_runs};
use crate::supers::read_era;
use pd_image::{Device, Sink};
use pd_kinds::EraSuper;
use pd_lines::{LineBuffer, Printer};
use pd_meaning_era::{Eras, lists_are_the_eras};
use pd_query::{Query, QueryFault, finish, print_line};
use std::alloc::Global;

/// Puts a line for each longest run of blocks whose era is the given one or a later one, by ascending block, of the era
/// target with this superblock. It reads the writesets of that era and later ones alone. It reads the eras part by part, and
/// holds one part at a time, in four bytes a block.
///
/// Fails with `Device` where a read failed, with `Memory` where memory wasn't found, and with `Sink` where `out` failed;
/// then a front of the lines was put. Lines may be put before all eras were read.
pub fn written_since<D: Device, K: Sink>(
    alloc: Global,
    dev: &mut D,
    s: &EraSuper,
    era: u32,
    out: &mut K,
) -> Result<(), QueryFault>
    requires dev { IsAttached (D.state dev.old) }
    requires out { (K.state out.old).access ≡ 1 }
    ensures text { PutsText (D.state dev.old).held
        (λ image. since_text era (eras_below image s.now)) result (K.state out.old).written (K.state out.new).written }
    ensures lines { PutsLines (since_lines era) s.now result (D.state dev.old).held (K.state out.old).written (K.state out.new).written }
    ensures kept { OnlyReads (D.state dev.old) (D.state dev.new) }
    ensures sink { KeepsSink (K.state out.old) (K.state out.new) }
    ensures faults { QueryEnds result (D.state dev.old).faults (D.state dev.new).faults (K.state out.old).faults (K.state out.new).faults }
{
    lists_are_the_eras();
    let mut eras = eras_since(alloc, dev, s, era)?;
    put_since(era, &mut eras, dev, out)
}

/// The eras of the target with this superblock from this one on.
///
/// Fails with `Device` where a read failed, and with `Memory` where memory wasn't found.
fn eras_since<D: Device>(
    alloc: Global,
    dev: &mut D,
    s: &EraSuper,
    era: u32,
) -> Result<Eras, QueryFault>
    requires { IsAttached (D.state dev.old) }
    ensures text { IfOk result (λ eras. IfSome (D.state dev.old).held
        (λ image. since_text era (eras_left image eras) ≡ since_text era (eras_below image s.now))) }
    ensures few { IfOk result (λ eras. blocks_left eras < 2 ^ 32) }
    ensures kept { OnlyReads (D.state dev.old) (D.state dev.new) }
    ensures faults { StartFails result (D.state dev.old).faults (D.state dev.new).faults }
{
    blocks_fit(*s);
    let eras = Eras::since(alloc, dev, s, era)?;
    Ok(eras)
}

/// Which blocks of an era target were written in this era or later, as it is asked for.
#[derive(Clone, Copy, Debug, PartialEq, Eq)]
pub struct WrittenSince {
    pub era: u32,
}

impl Query for WrittenSince {
    ghost use Rattle.std.specs.Prelude.{◌≡◌};
    ghost use Rattle.pd_kinds.specs.declared.kind.Kind.TheVariants.{Era};
    ghost use Rattle.pd_kinds.specs.declared.kind.Stage.TheVariants.{Whole};
    ghost use Rattle.pd_kinds.specs.EraFormat.{era_fields};
    ghost use Rattle.pd_kinds.specs.Graph.{block_at};
    ghost use Rattle.pd_kinds.specs.Meaning.{era_meaning};
    ghost use Rattle.pd_answers.specs.QueryLines.{since_lines};
    ghost use Rattle.pd_query.specs.Query.{IfSound};

    type Started = EraSuper;

    ghost kind = { Era };

    ghost stage = { Whole };

    ghost answer = { λ query image. since_lines query.era (era_meaning image) };

    ghost IsOver = { λ query s held. IfSound Era held (λ image. s ≡ era_fields (block_at image 0)) };

    fn start<D: Device>(&self, alloc: Global, dev: &mut D) -> Result<EraSuper, QueryFault> {
        match read_era(dev) {
            Ok(s) => Ok(s),
            Err(_) => Err(QueryFault::Device),
        }
    }

    fn put<D: Device, K: Sink>(
        &self,
        alloc: Global,
        started: EraSuper,
        dev: &mut D,
        out: &mut K,
    ) -> Result<(), QueryFault> {
        written_since(alloc, dev, &started, self.era, out)
    }
}

// The lines of what was written since an era, printed (`era_invalidate`).

/// Runs of blocks that were written in an era or later, which have a line, and of the others, which have none.
#[derive(Drop)]
struct RunsSince {
    era: u32,
}

/// The line of a run.
fn run_text(first: u32, length: u32) -> LineBuffer
    ensures { result ≡ line_bytes first length }
{
    let mut line = LineBuffer::new();
    line.add(b"written ");
    line.add_number(first as u64);
    line.add(b" ");
    line.add_number(length as u64);
    line.add(b"\n");
    line
}

impl RunKind for RunsSince {
    ghost counts = { λ runs. side runs.era };

    ghost line = { λ _. since_line };

    fn value(&self, era: u32) -> u32 {
        if era >= self.era { 1 } else { 0 }
    }

    fn print<K: Sink>(
        &self,
        first: u32,
        length: u32,
        value: u32,
        printer: &mut Printer<'_, K>,
    ) -> Result<(), QueryFault> {
        if value == 0 {
            return Ok(());
        }
        print_line(run_text(first, length).as_bytes(), printer)
    }
}

/// Puts the lines of the runs of blocks that were written in an era or later, of the eras that are left.
pub(crate) fn put_since<D: Device, K: Sink>(
    since: u32,
    eras: &mut Eras,
    dev: &mut D,
    out: &mut K,
) -> Result<(), QueryFault>
    requires few { blocks_left eras.old < 2 ^ 32 }
    requires dev { IsAttached (D.state dev.old) }
    requires out { (K.state out.old).access ≡ 1 }
    ensures text { PutsText (D.state dev.old).held
        (λ image. since_text since (eras_left image eras.old)) result (K.state out.old).written (K.state out.new).written }
    ensures kept { OnlyReads (D.state dev.old) (D.state dev.new) }
    ensures sink { KeepsSink (K.state out.old) (K.state out.new) }
    ensures faults { QueryEnds result (D.state dev.old).faults (D.state dev.new).faults (K.state out.old).faults (K.state out.new).faults }
{
    let mut printer = Printer::to_sink(out);
    add_runs(&RunsSince { era: since }, eras, dev, &mut printer)?;
    finish(printer)
}
