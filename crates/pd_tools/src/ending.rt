//! How the work of a tool ends.

ghost use Rattle.std.specs.Prelude.{◌≡◌, ◌≢◌, [], OnOk};
ghost use Rattle.pd_kinds.specs.Objects.{Appends, AppendsFront, CountsFault};
ghost use Rattle.pd_grammar.specs.Lines as lines;
ghost use Rattle.pd_answers.specs.Terms.{IsUsed, reading};
ghost use Rattle.pd_kept.specs.States.{looked_text};
ghost use Rattle.pd_tools.specs.Ending.{TellsEnd, PutsLine, no_roots_text};
ghost use Rattle.pd_tools.specs.declared.ending.Ending.TheVariants as ending;

use crate::query::put_faults;
use itoa::Buffer;
use pd_image::{Failed, Sink};
use pd_kept::{Looked, put_looked};
use pd_kinds::Report;
use pd_lines::LineBuffer;
use pd_salvage::SalvageFault;
use pd_texts::TextFault;

/// How work ended that wasn't stopped.
#[derive(Drop)]
pub enum Ending {
    /// All was done.
    Done,
    /// The metadata has faults.
    Faulty(Report),
    /// A line of the text is refused.
    Refused(TextFault),
    /// So many blocks are needed, and so many are there.
    NoRoom { need: u128, blocks: u64 },
    /// A block of the cache, or a data block of the pool, is no whole number of blocks.
    BlockSize,
    /// No two trees of the image fit each other. There may be damaged states.
    NoRoots { are_damaged: bool },
}

/// How the work of a task ended that wasn't stopped.
#[derive(Drop)]
pub(crate) enum Outcome {
    /// It was done, and this line is to be put.
    Line(LineBuffer),
    /// It was done, and this is to be told.
    Told(Looked),
    /// It has no line for `out`.
    Ended(Ending),
}

/// That so many blocks are needed, and so many are there.
pub(crate) fn no_room(need: u64, blocks: u64) -> Ending
    ensures { result ≡ ending.NoRoom need blocks }
{
    Ending::NoRoom {
        need: u128::from(need),
        blocks,
    }
}

/// Puts the line that says how work ended, where there is one, and answers the status.
pub fn put_ending<E: Sink>(ended: Result<Ending, Stop>, notes: &mut E) -> u8
    requires { (E.state notes.old).access ≡ 1 }
    ensures { TellsEnd ended result (E.state notes.old) (E.state notes.new) }
{
    match ended {
        Ok(ending) => match ending {
            Ending::Done => 0,
            Ending::Faulty(report) => put_faults(&report, notes),
            Ending::Refused(fault) => put_line(notes, refusal_line(&fault).as_bytes(), 3),
            Ending::NoRoom { need, blocks } => {
                put_line(notes, no_room_line(need, blocks).as_bytes(), 4)
            }
            Ending::BlockSize => put_line(notes, BLOCK_SIZE_LINE, 1),
            Ending::NoRoots { are_damaged } => put_line(notes, no_roots_line(are_damaged), 1),
        },
        Err(stop) => stop.put(notes),
    }
}

/// The line of a search that found no roots, and maybe damaged states.
fn no_roots_line(are_damaged: bool) -> &'static [u8]
    ensures { result.now ≡ no_roots_text are_damaged }
{
    if are_damaged {
        ONLY_DAMAGED_LINE
    } else {
        NO_ROOTS_LINE
    }
}

// What keeps a request from its answer.

/// What keeps a request from its answer.
#[derive(Clone, Copy, Debug, PartialEq, Eq)]
pub enum Stop {
    /// A device failed.
    Device,
    /// The source or `out` failed.
    Stream,
    /// Memory wasn't found.
    Memory,
}

impl Stop {
    ghost use Rattle.pd_tools.specs.Stop.{stop_line, stop_status};

    /// Puts the line that says what stopped a request, and answers its status.
    pub fn put<E: Sink>(self, notes: &mut E) -> u8
        requires { (E.state notes.old).access ≡ 1 }
        ensures { PutsLine (stop_line self) (stop_status self) result (E.state notes.old) (E.state notes.new) }
    {
        match self {
            Stop::Device => put_line(notes, DEVICE_LINE, 5),
            Stop::Stream => put_line(notes, SINK_LINE, 6),
            Stop::Memory => put_line(notes, MEMORY_LINE, 7),
        }
    }
}

impl From<SalvageFault> for Stop {
    ghost use Rattle.std.specs.Prelude.{◌≡◌};
    ghost use Rattle.pd_tools.specs.Stop.{salvage_stop};

    ghost from_gives = { λ fault given. given ≡ salvage_stop fault };

    fn from(fault: SalvageFault) -> Stop {
        match fault {
            SalvageFault::Memory => Stop::Memory,
            SalvageFault::Device => Stop::Device,
        }
    }
}

// The lines that say how a call ended.

/// The line of status 2.
pub const USAGE_LINE: &[u8] = b"pdata_tools: the words spell no request\n";

/// The line of a cache, or of a pool, whose blocks aren't whole blocks of 4096 bytes.
pub const BLOCK_SIZE_LINE: &[u8] = b"pdata_tools: block size\n";

/// The line of a search that found no roots.
pub const NO_ROOTS_LINE: &[u8] = b"pdata_tools: no roots\n";

/// That of one that found damaged states alone.
pub const ONLY_DAMAGED_LINE: &[u8] = b"pdata_tools: no roots, but damaged ones\n";

/// The line of status 5.
pub const DEVICE_LINE: &[u8] = b"pdata_tools: device fault\n";

/// The line of status 6.
pub const SINK_LINE: &[u8] = b"pdata_tools: source or sink fault\n";

/// The line of status 7.
pub const MEMORY_LINE: &[u8] = b"pdata_tools: out of memory\n";

/// Puts a line to `notes`, and answers the status that it goes with, or 6 where `notes` fails.
pub fn put_line<E: Sink>(notes: &mut E, line: &[u8], status: u8) -> u8
    requires { (E.state notes.old).access ≡ 1 }
    ensures { PutsLine line.now status result (E.state notes.old) (E.state notes.new) }
{
    match notes.put(line) {
        Ok(()) => status,
        Err(_) => 6,
    }
}

/// Attaches the standard output, and puts the line to it that comes after all work.
pub fn put_last_line<K: Sink>(out: &mut K, line: &[u8]) -> Result<(), Failed>
    requires { (K.state out.old).access ≡ 0 }
    ensures whole { OnOk result (Appends line.now (K.state out.old).written (K.state out.new).written) }
    ensures front { AppendsFront line.now (K.state out.old).written (K.state out.new).written }
    ensures access { OnOk result ((K.state out.new).access ≡ 1) }
    ensures touched { (K.state out.new).access ≢ 0 }
    ensures used { IsUsed (reading []) (K.state out.new).access (K.state out.new).path }
    ensures faults { CountsFault result (K.state out.old).faults (K.state out.new).faults }
{
    out.attach(None)?;
    out.put(line)
}

/// Attaches the standard output, and puts the text to it of what a repair without a superblock would keep.
pub fn put_last_text<K: Sink>(out: &mut K, looked: &Looked) -> Result<(), Failed>
    requires { (K.state out.old).access ≡ 0 }
    ensures whole { OnOk result (Appends (looked_text looked.now) (K.state out.old).written (K.state out.new).written) }
    ensures front { AppendsFront (looked_text looked.now) (K.state out.old).written (K.state out.new).written }
    ensures access { OnOk result ((K.state out.new).access ≡ 1) }
    ensures touched { (K.state out.new).access ≢ 0 }
    ensures used { IsUsed (reading []) (K.state out.new).access (K.state out.new).path }
    ensures faults { CountsFault result (K.state out.old).faults (K.state out.new).faults }
{
    out.attach(None)?;
    put_looked(looked, out)
}

// The lines that say why a text wasn't restored (`thin_restore`, `cache_restore`, `era_restore`).

/// The line of status 3: the refused line, and the cause.
pub fn refusal_line(fault: &TextFault) -> LineBuffer
    ensures { result ≡ lines.refusal_line (record { line = fault.now.line; cause = fault.now.cause }) }
{
    let mut line = LineBuffer::new();
    line.add(b"pdata_tools: line ");
    line.add_number(fault.line);
    line.add(b": ");
    line.add(fault.cause.name().as_bytes());
    line.add(b"\n");
    line
}

/// The line of status 4: the blocks that are needed, and those that there are.
pub fn no_room_line(need: u128, blocks: u64) -> LineBuffer
    ensures { result ≡ lines.no_room_line need blocks }
{
    let mut digits = Buffer::new();
    let mut line = LineBuffer::new();
    line.add(b"pdata_tools: no room: need ");
    line.add(digits.format(need).as_bytes());
    line.add(b", blocks ");
    line.add_number(blocks);
    line.add(b"\n");
    line
}
