//! A query by what it asks, over any kind of metadata.
//! Serves `thin_dump`, `thin_ls`, `thin_rmap`, `thin_trim`, `thin_repair --dry-run`, `cache_dump`, `era_dump`, `era_invalidate`.

ghost use Rattle.std.specs.Prelude.{◌≡◌, ℕ, List, Option, IfOk, ◌≤◌, IfSome, length};
ghost use Rattle.pd_kinds.specs.declared.kind.Kind.{Kind};
ghost use Rattle.pd_kinds.specs.declared.kind.Stage.{Stage};
ghost use Rattle.pd_kinds.specs.Graph.{block_at};
ghost use Rattle.pd_kinds.specs.Objects.{CountsFault};
ghost use Rattle.pd_kinds.specs.ThinFormat.{thin_fields};
ghost use Rattle.pd_image.specs.Device.{IsAttached, OnlyReads};
ghost use Rattle.pd_image.specs.Sink.{KeepsSink};
ghost use Rattle.pd_lines.specs.Printer.{printing};
ghost use Rattle.pd_lines.specs.Printing.{Finishes, Prints};
ghost use Rattle.pd_query.specs.Query.{PutsAnswer, QueryEnds, StartFails, SinkFails};

use pd_image::{Device, Failed, Sink};
use pd_kinds::{Block, CheckFault, ThinSuper};
use pd_lines::{Printer, TextLine};
use pd_supers::read_thin_super;
use std::alloc::{AllocError, Global};

/// What is asked of an image that was found sound up to a stage, and answered by a text.
pub trait Query {
    /// The query as it was started over an image.
    type Started: Drop;

    /// Which kind of metadata is asked.
    ghost kind: { Kind };

    /// The stage up to which it is asked of images without faults.
    ghost stage: { Stage };

    /// The text that answers, of an image without faults up to the stage.
    ghost answer: { Self → List (List ℕ) → List ℕ };

    /// It was started over a device that holds this where it tells what it holds.
    ghost IsOver: { Self → Self.Started → Option (List (List ℕ)) → Type 0 };

    /// Reads what there is to read before `out` is attached, and takes the memory for that.
    ///
    /// Fails with `Device` where a read failed, and with `Memory` where memory wasn't found.
    fn start<D: Device>(&self, alloc: Global, dev: &mut D) -> Result<Self::Started, QueryFault>
        requires { IsAttached (D.state dev.old) }
        ensures over { IfOk result (λ started. IsOver self.now started (D.state dev.old).held) }
        ensures kept { OnlyReads (D.state dev.old) (D.state dev.new) }
        ensures faults { StartFails result (D.state dev.old).faults (D.state dev.new).faults };

    /// Puts the text that answers.
    ///
    /// Fails with `Device` where a read failed, with `Memory` where memory wasn't found, and with `Sink` where `out`
    /// failed; then a front of the text was put.
    fn put<D: Device, K: Sink>(
        &self,
        alloc: Global,
        started: Self::Started,
        dev: &mut D,
        out: &mut K,
    ) -> Result<(), QueryFault>
        requires dev { IsAttached (D.state dev.old) }
        requires out { (K.state out.old).access ≡ 1 }
        requires over { IsOver self.now started (D.state dev.old).held }
        ensures text { PutsAnswer kind stage (answer self.now) result
            (D.state dev.old).held (K.state out.old).written (K.state out.new).written }
        ensures kept { OnlyReads (D.state dev.old) (D.state dev.new) }
        ensures sink { KeepsSink (K.state out.old) (K.state out.new) }
        ensures faults { QueryEnds result (D.state dev.old).faults
            (D.state dev.new).faults (K.state out.old).faults (K.state out.new).faults };
}

// Why a query ended early.

/// Why a query ended before its last line.
#[derive(Clone, Copy, Debug, PartialEq, Eq)]
pub enum QueryFault {
    /// Memory wasn't found.
    Memory,
    /// The device failed.
    Device,
    /// The sink failed.
    Sink,
}

impl From<AllocError> for QueryFault {
    ghost use Rattle.std.specs.Prelude.{◌≡◌};
    ghost use Rattle.pd_query.specs.declared.query.QueryFault.TheVariants.{Memory};

    ghost from_gives = { λ _ fault. fault ≡ Memory };

    fn from(_fault: AllocError) -> QueryFault {
        QueryFault::Memory
    }
}

impl From<CheckFault> for QueryFault {
    ghost use Rattle.std.specs.Prelude.{◌≡◌};
    ghost use Rattle.pd_query.specs.Query.{fault_of_check};

    ghost from_gives = { λ fault given. given ≡ fault_of_check fault };

    fn from(fault: CheckFault) -> QueryFault {
        match fault {
            CheckFault::Memory => QueryFault::Memory,
            CheckFault::Device => QueryFault::Device,
        }
    }
}

// The superblock of a pool, for what is asked of it (`thin_ls`, `thin_rmap`, `thin_dump`).

/// The superblock of the pool on a device; of a device without blocks, some superblock.
pub fn read_super<D: Device>(dev: &mut D) -> Result<ThinSuper, Failed>
    requires { IsAttached (D.state dev.old) }
    ensures fields { IfOk result (λ s. IfSome (D.state dev.old).held (λ image. 1 ≤ length image → s ≡ thin_fields (block_at image 0))) }
    ensures kept { OnlyReads (D.state dev.old) (D.state dev.new) }
    ensures faults { CountsFault result (D.state dev.old).faults (D.state dev.new).faults }
{
    let mut block = Block::zeros();
    if dev.blocks() > 0 {
        dev.read(0, &mut block)?;
    }
    Ok(read_thin_super(&block))
}

// A line of a text, printed.

/// Prints the bytes of a line, or of a part of one, at most 16384. Fails with `Sink` where the sink failed.
pub fn print_line<K: Sink>(line: &[u8], printer: &mut Printer<'_, K>) -> Result<(), QueryFault>
    requires open { (K.state printer.old.out.now).access ≡ 1 }
    requires short { length line.now ≤ 16384 }
    ensures same_reference { printer.new.out.ghost_name ≡ printer.old.out.ghost_name }
    ensures prints { Prints line.now result (printing K.state printer.old) (printing K.state printer.new) }
    ensures faults { SinkFails result (K.state printer.old.out.now).faults (K.state printer.new.out.now).faults }
{
    match printer.print(line) {
        Ok(()) => Ok(()),
        Err(_) => Err(QueryFault::Sink),
    }
}

/// Prints a line of a text. Fails with `Sink` where the sink failed.
pub fn print_text_line<L: TextLine, K: Sink>(
    line: &L,
    printer: &mut Printer<'_, K>,
) -> Result<(), QueryFault>
    requires { (K.state printer.old.out.now).access ≡ 1 }
    ensures same_reference { printer.new.out.ghost_name ≡ printer.old.out.ghost_name }
    ensures prints { Prints (L.bytes line.now) result (printing K.state printer.old) (printing K.state printer.new) }
    ensures faults { SinkFails result (K.state printer.old.out.now).faults (K.state printer.new.out.now).faults }
{
    match printer.print_line(line) {
        Ok(()) => Ok(()),
        Err(_) => Err(QueryFault::Sink),
    }
}

/// Puts what is pending. Fails with `Sink` where the sink failed.
pub fn finish<K: Sink>(printer: Printer<'_, K>) -> Result<(), QueryFault>
    requires { (K.state printer.out.now).access ≡ 1 }
    ensures finishes { Finishes result (printing K.state printer.entry) (K.state printer.exit.0.now) }
    ensures faults { SinkFails result (K.state printer.entry.out.now).faults (K.state printer.exit.0.now).faults }
{
    match printer.finish() {
        Ok(()) => Ok(()),
        Err(_) => Err(QueryFault::Sink),
    }
}
