//! The data blocks of a pool to which no mapping leads (`thin_trim`).

ghost use Rattle.std.specs.Prelude.{◌≡◌, ◌≤◌, IfSome, OnOk};
ghost use Rattle.pd_answers.specs.QueryLines.{unused_lines};
ghost use Rattle.pd_image.specs.Device.{IsAttached, OnlyReads};
ghost use Rattle.pd_image.specs.Sink.{KeepsSink};
ghost use Rattle.pd_lines.specs.Printer.{printing};
ghost use Rattle.pd_lines.specs.Printing.{Prints};
ghost use Rattle.pd_query.specs.Query.{PrintsSome, PutsText, QueryEnds, SinkFails};
ghost use Rattle.pd_uses.specs.Unused.{IsStarted, ended_line, ended_then, open_then, without_faults};

use crate::asking::{add_labeled, super_to_ask};
use crate::stored::{StoredCounts, Stretch, stored_counts_are_references};
use pd_image::{Device, Sink};
use pd_kinds::Block;
use pd_lines::{PieceBuffer, Printer, TextLine};
use pd_query::{Query, QueryFault, finish, print_text_line};
use std::alloc::Global;

/// A longest run of data blocks to which no mapping leads.
#[derive(Drop)]
struct UnusedRun {
    first: u64,
    length: u64,
}

impl TextLine for UnusedRun {
    ghost use Rattle.pd_uses.specs.Unused.{run_bytes};

    ghost bytes = { λ run. run_bytes run.first run.length };

    fn add_to(&self, text: &mut PieceBuffer) {
        add_labeled(text, b"unused ", self.first);
        add_labeled(text, b" ", self.length);
        text.add(b"\n");
    }
}

/// Prints the line of the run that is open, which ends before block `at`.
fn end_run<K: Sink>(
    run: Option<u64>,
    at: u64,
    printer: &mut Printer<'_, K>,
) -> Result<(), QueryFault>
    requires sink { (K.state printer.old.out.now).access ≡ 1 }
    requires before { IfSome run (λ first. first ≤ at) }
    ensures same_reference { printer.new.out.ghost_name ≡ printer.old.out.ghost_name }
    ensures prints { Prints (ended_line at run) result (printing K.state printer.old) (printing K.state printer.new) }
    ensures faults { SinkFails result (K.state printer.old.out.now).faults (K.state printer.new.out.now).faults }
{
    match run {
        Some(first) => {
            let length = at - first;
            print_text_line(&UnusedRun { first, length }, printer)
        }
        None => Ok(()),
    }
}

/// Takes the next blocks: the open run goes on with them, or they begin one, or it ends before them.
fn pass<K: Sink>(
    run: &mut Option<u64>,
    stretch: &Stretch,
    printer: &mut Printer<'_, K>,
) -> Result<(), QueryFault>
    requires sink { (K.state printer.old.out.now).access ≡ 1 }
    requires before { IfSome run.old (λ first. first ≤ stretch.now.first) }
    ensures run { OnOk result (run.new ≡ open_then stretch.now.unused stretch.now.first run.old) }
    ensures same_reference { printer.new.out.ghost_name ≡ printer.old.out.ghost_name }
    ensures prints { Prints (ended_then stretch.now.unused stretch.now.first run.old) result (printing K.state printer.old)
        (printing K.state printer.new) }
    ensures faults { SinkFails result (K.state printer.old.out.now).faults (K.state printer.new.out.now).faults }
{
    if stretch.unused {
        *run = Some(run.unwrap_or(stretch.first));
        return Ok(());
    }
    end_run(*run, stretch.first, printer)?;
    *run = None;
    Ok(())
}

/// Prints the lines of the runs, stretch after stretch.
fn add_runs<D: Device, K: Sink>(
    counts: &mut StoredCounts,
    dev: &mut D,
    printer: &mut Printer<'_, K>,
) -> Result<(), QueryFault>
    requires dev { IsAttached (D.state dev.old) }
    requires sink { (K.state printer.old.out.now).access ≡ 1 }
    requires started { IsStarted (D.state dev.old).held counts.old }
    ensures same_reference { printer.new.out.ghost_name ≡ printer.old.out.ghost_name }
    ensures prints { PrintsSome (without_faults (D.state dev.old).held) unused_lines result (printing K.state printer.old)
        (printing K.state printer.new) }
    ensures kept { OnlyReads (D.state dev.old) (D.state dev.new) }
    ensures faults { QueryEnds result (D.state dev.old).faults
        (D.state dev.new).faults (K.state printer.old.out.now).faults (K.state printer.new.out.now).faults }
{
    stored_counts_are_references();
    let mut bitmap = Block::zeros();
    let mut run: Option<u64> = None;
    loop {
        let next = match counts.next(dev, &mut bitmap) {
            Ok(next) => next,
            Err(_) => return Err(QueryFault::Device),
        };
        match next {
            Some(stretch) => pass(&mut run, &stretch, printer)?,
            None => return end_run(run, counts.end, printer),
        }
    }
}

/// Puts the lines of the runs.
fn put_runs<D: Device, K: Sink>(
    counts: &mut StoredCounts,
    dev: &mut D,
    out: &mut K,
) -> Result<(), QueryFault>
    requires dev { IsAttached (D.state dev.old) }
    requires out { (K.state out.old).access ≡ 1 }
    requires started { IsStarted (D.state dev.old).held counts.old }
    ensures text { PutsText (without_faults (D.state dev.old).held) unused_lines result
        (K.state out.old).written (K.state out.new).written }
    ensures kept { OnlyReads (D.state dev.old) (D.state dev.new) }
    ensures sink { KeepsSink (K.state out.old) (K.state out.new) }
    ensures faults { QueryEnds result (D.state dev.old).faults (D.state dev.new).faults (K.state out.old).faults (K.state out.new).faults }
{
    let mut printer = Printer::to_sink(out);
    add_runs(counts, dev, &mut printer)?;
    finish(printer)
}

/// The data blocks of a pool to which no mapping leads, of a device or of the held root, as they are asked for: a line for each
/// longest run of them, ascending. By then the check has found that the stored counts are right, so they alone are read: each
/// node of the index and of the overflow tree and each bitmap once, in the memory of two cursors and a block.
#[derive(Clone, Copy, Debug, PartialEq, Eq)]
pub struct UnusedBlocks;

impl Query for UnusedBlocks {
    ghost use Rattle.pd_kinds.specs.declared.kind.Kind.TheVariants.{Thin};
    ghost use Rattle.pd_kinds.specs.declared.kind.Stage.TheVariants.{Counts};
    ghost use Rattle.pd_answers.specs.QueryLines.{unused_lines};
    ghost use Rattle.pd_uses.specs.Unused.{IsStarted};

    type Started = StoredCounts;

    ghost kind = { Thin };

    ghost stage = { Counts };

    ghost answer = { λ query image. unused_lines image };

    ghost IsOver = { λ query counts held. IsStarted held counts };

    fn start<D: Device>(&self, alloc: Global, dev: &mut D) -> Result<StoredCounts, QueryFault> {
        stored_counts_are_references();
        let s = super_to_ask(dev)?;
        let counts = StoredCounts::start(alloc, dev, &s.data_map)?;
        Ok(counts)
    }

    fn put<D: Device, K: Sink>(
        &self,
        alloc: Global,
        started: StoredCounts,
        dev: &mut D,
        out: &mut K,
    ) -> Result<(), QueryFault> {
        let mut counts = started;
        put_runs(&mut counts, dev, out)
    }
}
