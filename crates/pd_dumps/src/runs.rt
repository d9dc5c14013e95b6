//! Runs of neighbouring blocks whose eras count as the same, printed part by part (`era_dump`, `era_invalidate`).

ghost use Rattle.std.specs.Prelude.{◌≡◌, ◌<◌, ◌≤◌, ◌^◌, length, map, slice_index, take};
ghost use Rattle.pd_grammar.specs.EraText.{eras_from};
ghost use Rattle.pd_image.specs.Device.{IsAttached, OnlyReads};
ghost use Rattle.pd_lines.specs.Printer.{printing};
ghost use Rattle.pd_meaning_era.specs.Parts.{blocks_left, eras_left};
ghost use Rattle.pd_query.specs.Query.{PrintsSome, QueryEnds};
ghost use Rattle.pd_dumps.specs.EraLines.{runs_of};

use pd_image::{Device, Sink};
use pd_lines::Printer;
use pd_meaning_era::Eras;
use pd_query::QueryFault;

/// What the eras of blocks count as, and what is printed of a run of them.
pub(crate) trait RunKind {
    ghost use Rattle.std.specs.Prelude.{◌≡◌, ℕ, List};
    ghost use Rattle.pd_lines.specs.Printer.{printing};
    ghost use Rattle.pd_lines.specs.Printing.{Prints};
    ghost use Rattle.pd_query.specs.Query.{SinkFails};

    /// What an era counts as.
    ghost counts: { Self → ℕ → ℕ };

    /// What is printed of a run with this first block, of so many blocks, whose eras count as this.
    ghost line: { Self → ℕ → ℕ → ℕ → List ℕ };

    /// What an era counts as.
    fn value(&self, era: u32) -> u32
        ensures { result ≡ counts self.now era };

    /// Prints a run.
    fn print<K: Sink>(
        &self,
        first: u32,
        length: u32,
        value: u32,
        printer: &mut Printer<'_, K>,
    ) -> Result<(), QueryFault>
        requires { (K.state printer.old.out.now).access ≡ 1 }
        ensures same_reference { printer.new.out.ghost_name ≡ printer.old.out.ghost_name }
        ensures prints { Prints (line self.now first length value) result (printing K.state printer.old) (printing K.state printer.new) }
        ensures faults { SinkFails result (K.state printer.old.out.now).faults (K.state printer.new.out.now).faults };
}

/// The run that is open: blocks whose eras count as the same, to which later ones may still belong.
#[derive(Drop)]
pub(crate) struct OpenRun {
    /// Its first block; where no run is open, the block behind those that were taken.
    first: u32,
    /// How many blocks it has so far, 0 where no run is open.
    length: u32,
    /// What their eras count as.
    value: u32,
}

impl OpenRun {
    ghost use Rattle.std.specs.Prelude.{◌≡◌, ◌+◌, ◌<◌, ◌≤◌, ◌^◌, ◌++◌, ℕ, List, [], OnOk, length, map};
    ghost use Rattle.pd_lines.specs.Printer.{printing};
    ghost use Rattle.pd_lines.specs.Printing.{Prints};
    ghost use Rattle.pd_grammar.specs.EraText.{eras_from};
    ghost use Rattle.pd_query.specs.Query.{SinkFails};
    ghost use Rattle.pd_dumps.specs.EraLines.{end_of, text_from};
    ghost use Rattle.pd_dumps.specs.EraLines.{PrintsUpTo};

    /// No run, before block 0.
    fn none() -> OpenRun
        ensures { result ≡ record { first = 0; length = 0; value = 0 } }
    {
        OpenRun {
            first: 0,
            length: 0,
            value: 0,
        }
    }

    /// Prints the run, if one is open.
    fn end<R: RunKind, K: Sink>(
        &self,
        kind: &R,
        printer: &mut Printer<'_, K>,
    ) -> Result<(), QueryFault>
        requires { (K.state printer.old.out.now).access ≡ 1 }
        ensures same_reference { printer.new.out.ghost_name ≡ printer.old.out.ghost_name }
        ensures prints { Prints (text_from (R.line kind.now) self.now []) result (printing K.state printer.old)
            (printing K.state printer.new) }
        ensures faults { SinkFails result (K.state printer.old.out.now).faults (K.state printer.new.out.now).faults }
    {
        if self.length == 0 {
            return Ok(());
        }
        kind.print(self.first, self.length, self.value, printer)
    }

    /// Takes the next blocks, whose eras count as this: the run grows, or it is printed and they are the run.
    fn join<R: RunKind, K: Sink>(
        &mut self,
        kind: &R,
        value: u32,
        length: u32,
        printer: &mut Printer<'_, K>,
    ) -> Result<(), QueryFault>
        requires some { 1 ≤ length }
        requires few { end_of self.old + length < 2 ^ 32 }
        requires open { (K.state printer.old.out.now).access ≡ 1 }
        ensures same_reference { printer.new.out.ghost_name ≡ printer.old.out.ghost_name }
        ensures prints { (later : List ℕ) → PrintsUpTo (text_from (R.line kind.now) self.old (eras_from value length ++ later))
            (text_from (R.line kind.now) self.new later) result (printing K.state printer.old) (printing K.state printer.new) }
        ensures number { OnOk result (end_of self.new ≡ end_of self.old + length) }
        ensures faults { SinkFails result (K.state printer.old.out.now).faults (K.state printer.new.out.now).faults }
    {
        let grows = (self.length > 0) & (self.value == value);
        if grows {
            self.length += length;
            return Ok(());
        }
        self.end(kind, printer)?;
        *self = OpenRun {
            first: self.first + self.length,
            length,
            value,
        };
        Ok(())
    }

    /// Takes the next blocks, which have these eras, and prints the runs that end before the last of them.
    fn take<R: RunKind, K: Sink>(
        &mut self,
        kind: &R,
        eras: &[u32],
        printer: &mut Printer<'_, K>,
    ) -> Result<(), QueryFault>
        requires few { end_of self.old + length eras.now < 2 ^ 32 }
        requires open { (K.state printer.old.out.now).access ≡ 1 }
        ensures same_reference { printer.new.out.ghost_name ≡ printer.old.out.ghost_name }
        ensures prints { (later : List ℕ) → PrintsUpTo (text_from (R.line kind.now) self.old (map (R.counts kind.now) eras.now ++ later))
            (text_from (R.line kind.now) self.new later)
            result (printing K.state printer.old) (printing K.state printer.new) }
        ensures number { OnOk result (end_of self.new ≡ end_of self.old + length eras.now) }
        ensures faults { SinkFails result (K.state printer.old.out.now).faults (K.state printer.new.out.now).faults }
    {
        let mut at = 0;
        while at < eras.len() {
            let rest = &eras[at..];
            let value = kind.value(rest[0]);
            let length = same_length(kind, value, rest);
            self.join(kind, value, length as u32, printer)?;
            at += length;
        }
        Ok(())
    }
}

/// How many of the first eras count as this, which the first one does.
fn same_length<R: RunKind>(kind: &R, value: u32, eras: &[u32]) -> usize
    requires some { 1 ≤ length eras.now }
    requires first { value ≡ R.counts kind.now (slice_index eras.now 0) }
    ensures same { map (R.counts kind.now) (take result eras.now) ≡ eras_from value result }
    ensures some { 1 ≤ result }
    ensures within { result ≤ length eras.now }
{
    for i in 1..eras.len() {
        if kind.value(eras[i]) != value {
            return i;
        }
    }
    eras.len()
}

/// Prints the runs of the eras that are left, part by part.
pub(crate) fn add_runs<R: RunKind, D: Device, K: Sink>(
    kind: &R,
    eras: &mut Eras,
    dev: &mut D,
    printer: &mut Printer<'_, K>,
) -> Result<(), QueryFault>
    requires few { blocks_left eras.old < 2 ^ 32 }
    requires dev { IsAttached (D.state dev.old) }
    requires open { (K.state printer.old.out.now).access ≡ 1 }
    ensures same_reference { printer.new.out.ghost_name ≡ printer.old.out.ghost_name }
    ensures prints { PrintsSome (D.state dev.old).held (λ image. runs_of (R.line kind.now)
        (map (R.counts kind.now) (eras_left image eras.old))) result (printing K.state printer.old) (printing K.state printer.new) }
    ensures kept { OnlyReads (D.state dev.old) (D.state dev.new) }
    ensures faults { QueryEnds result (D.state dev.old).faults
        (D.state dev.new).faults (K.state printer.old.out.now).faults (K.state printer.new.out.now).faults }
{
    let mut run = OpenRun::none();
    while eras.next(dev)? {
        run.take(kind, eras.part(), printer)?;
    }
    run.end(kind, printer)
}
