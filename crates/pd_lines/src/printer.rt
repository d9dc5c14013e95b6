//! Lines that are put to a sink in large pieces.

ghost use Rattle.std.specs.Prelude.{◌≡◌, ◌≤◌, [], length, ℕ, ◌++◌, List, Option, OnOk, OnErr};
ghost use Rattle.pd_kinds.specs.Objects.{CountsFault, Appends, AppendsFront};
ghost use Rattle.pd_lines.specs.Printing.{Finishes, Prints};
ghost use Rattle.pd_lines.specs.Pieces.{Gathers};

use crate::line::{LINE_ROOM, PieceBuffer, TextLine};
use pd_image::{Failed, Sink};
use std::marker::Model;

/// Lines that are put to a sink in large pieces, so that it isn't called for each line. What is gathered and not yet
/// put is pending.
#[derive(Drop)]
pub struct Printer<'a, K: Sink> {
    out: &'a mut K,
    pieces: Pieces,
}

impl<'a, K: Sink> Printer<'a, K> {
    ghost use Rattle.pd_lines.specs.Printer.{printing};

    /// Nothing is printed yet.
    pub fn to_sink(out: &'a mut K) -> Printer<'a, K>
        ensures same_reference { result.out.ghost_name ≡ out.entry.ghost_name }
        ensures same { result.out.now ≡ out.old }
        ensures none { result.pieces ≡ [] }
    {
        Printer {
            out,
            pieces: Pieces::new(),
        }
    }

    /// Prints the bytes of a line, or of a part of one. After an error the sink may have a front of what was pending.
    pub fn print(&mut self, line: &[u8]) -> Result<(), Failed>
        requires open { (printing K.state self.old).sink.access ≡ 1 }
        requires short { length line.now ≤ 16384 }
        ensures same_reference { self.new.out.ghost_name ≡ self.old.out.ghost_name }
        ensures prints { Prints line.now result (printing K.state self.old) (printing K.state self.new) }
        ensures faults { CountsFault result (printing K.state self.old).sink.faults (printing K.state self.new).sink.faults }
    {
        self.pieces.add(line, self.out)
    }

    /// Prints a line of a text in the same way.
    pub fn print_line<L: TextLine>(&mut self, line: &L) -> Result<(), Failed>
        requires { (printing K.state self.old).sink.access ≡ 1 }
        ensures same_reference { self.new.out.ghost_name ≡ self.old.out.ghost_name }
        ensures prints { Prints (L.bytes line.now) result (printing K.state self.old) (printing K.state self.new) }
        ensures faults { CountsFault result (printing K.state self.old).sink.faults (printing K.state self.new).sink.faults }
    {
        self.pieces.add_line(line, self.out)
    }

    /// Puts what is pending. After an error the sink may have a front of it.
    pub fn finish(self) -> Result<(), Failed>
        requires { (K.state self.out.now).access ≡ 1 }
        ensures finishes { Finishes result (printing K.state self.entry) (K.state self.exit.0.now) }
        ensures faults { CountsFault result (K.state self.entry.out.now).faults (K.state self.exit.0.now).faults }
    {
        let Printer { out, mut pieces } = self;
        pieces.put(out)
    }
}

// Bytes that are gathered before they are put.

/// Bytes that are gathered into large pieces, so that a sink isn't called for each line.
#[derive(Drop)]
pub struct Pieces {
    text: PieceBuffer,
}

impl Model for Pieces {
    ghost Value = { List ℕ };

    ghost view = { λ pieces. pieces.text };
}

impl Pieces {
    /// Nothing is gathered.
    pub fn new() -> Pieces
        ensures none { result ≡ [] }
        ensures start { (start : Option (List ℕ)) → Gathers [] result start start }
    {
        Pieces {
            text: PieceBuffer::new(),
        }
    }

    /// Gathers the bytes of a line, after it has put what is gathered where there is no room for them.
    /// After an error what was gathered is as it was, without the line, and the sink may have a front of it.
    pub fn add<K: Sink>(&mut self, line: &[u8], out: &mut K) -> Result<(), Failed>
        requires attached { (K.state out.old).access ≡ 1 }
        requires short { length line.now ≤ 16384 }
        ensures gathered { (total : List ℕ) (start : Option (List ℕ)) → Gathers total self.old start (K.state out.old).written
            → OnOk result (Gathers (total ++ line.now) self.new start (K.state out.new).written) }
        ensures front { (total : List ℕ) (start : Option (List ℕ)) → Gathers total self.old start (K.state out.old).written
            → AppendsFront total start (K.state out.new).written }
        ensures access { (K.state out.new).access ≡ (K.state out.old).access }
        ensures path { (K.state out.new).path ≡ (K.state out.old).path }
        ensures faults { CountsFault result (K.state out.old).faults (K.state out.new).faults }
        ensures failed { OnErr result (self.new ≡ self.old) }
    {
        if self.text.free() < line.len() {
            self.put(out)?;
        }
        self.text.add(line);
        Ok(())
    }

    /// Gathers a line in the same way.
    pub fn add_line<L: TextLine, K: Sink>(&mut self, line: &L, out: &mut K) -> Result<(), Failed>
        requires { (K.state out.old).access ≡ 1 }
        ensures gathered { (total : List ℕ) (start : Option (List ℕ)) → Gathers total self.old start (K.state out.old).written
            → OnOk result (Gathers (total ++ L.bytes line.now) self.new start (K.state out.new).written) }
        ensures front { (total : List ℕ) (start : Option (List ℕ)) → Gathers total self.old start (K.state out.old).written
            → AppendsFront total start (K.state out.new).written }
        ensures access { (K.state out.new).access ≡ (K.state out.old).access }
        ensures path { (K.state out.new).path ≡ (K.state out.old).path }
        ensures faults { CountsFault result (K.state out.old).faults (K.state out.new).faults }
        ensures failed { OnErr result (self.new ≡ self.old) }
    {
        if self.text.free() < LINE_ROOM + 1 {
            self.put(out)?;
        }
        line.add_to(&mut self.text);
        Ok(())
    }

    /// Puts what is gathered. After an error it is as it was, and the sink may have a front of it.
    pub fn put<K: Sink>(&mut self, out: &mut K) -> Result<(), Failed>
        requires { (K.state out.old).access ≡ 1 }
        ensures empty { OnOk result (self.new ≡ []) }
        ensures whole { (total : List ℕ) (start : Option (List ℕ)) → Gathers total self.old start (K.state out.old).written
            → OnOk result (Appends total start (K.state out.new).written) }
        ensures front { (total : List ℕ) (start : Option (List ℕ)) → Gathers total self.old start (K.state out.old).written
            → AppendsFront total start (K.state out.new).written }
        ensures access { (K.state out.new).access ≡ (K.state out.old).access }
        ensures path { (K.state out.new).path ≡ (K.state out.old).path }
        ensures faults { CountsFault result (K.state out.old).faults (K.state out.new).faults }
        ensures failed { OnErr result (self.new ≡ self.old) }
    {
        out.put(self.text.as_bytes())?;
        self.text.clear();
        Ok(())
    }
}
