//! The lines of a text, from a source.

ghost use Rattle.std.specs.Prelude.{◌≡◌, ◌≢◌, ℕ, ◌<◌, ◌≤◌, ◌-◌, List, [], ◌++◌, length, take, Ok, Err, IfOk, IfErr, true, false, Some};
ghost use Rattle.std.specs.List.{list_all};
ghost use Rattle.pd_kinds.specs.Objects.{CountsFault, Rose};
ghost use Rattle.pd_grammar.specs.Texts.{is_printable};
ghost use Rattle.pd_image.specs.Source.{KeepsSource};
ghost use Rattle.pd_lines.specs.declared.buffer.Front.TheVariants.{Open};
ghost use Rattle.pd_lines.specs.Front.{IsFront, Moves, IsUnbroken, LineText};
ghost use Rattle.pd_lines.specs.Numbered.{IsNumbered};

use crate::buffer::{Buffer, Front, front_of};
use pd_image::{Failed, Source};
use std::alloc::{AllocError, Global};
use std::marker::Model;

/// A line of a text: at most 160 bytes from 0x20 to 0x7E, without its line feed.
#[derive(Drop)]
pub struct Line {
    number: u64,
    bytes: [u8; 160],
    len: usize,
}

impl Model for Line {
    ghost Value = { LineText };

    ghost view = { λ line. record { number = line.number; bytes = take line.len line.bytes } };

    ghost invariant = { λ line. (line.len ≤ 160) × (list_all is_printable (take line.len line.bytes) ≡ true) };
}

impl Line {
    fn new(number: u64, text: &[u8]) -> Line
        requires short { length text.now ≤ 160 }
        requires text { list_all is_printable text.now ≡ true }
        ensures number { result.number ≡ number }
        ensures bytes { result.bytes ≡ text.now }
    {
        let mut bytes = [0; 160];
        bytes[..text.len()].copy_from_slice(text);
        Line {
            number,
            bytes,
            len: text.len(),
        }
    }

    /// The number of the line, from 1, up to the end of its type.
    pub fn number(&self) -> u64
        ensures { result ≡ self.now.number }
    {
        self.number
    }

    /// The bytes of the line, without its line feed.
    pub fn text(&self) -> &[u8]
        ensures bytes { result.now ≡ self.now.bytes }
        ensures text { list_all is_printable result.now ≡ true }
        ensures short { length result.now ≤ 160 }
    {
        &self.bytes[..self.len]
    }
}

/// The lines of a text, from what a source gives in pieces.
#[derive(Drop)]
pub struct LineReader {
    buffer: Buffer,
    /// How many lines were read, up to the end of its type.
    lines: u64,
    /// How many bytes of the buffer the last line that was read still takes, with its line feed.
    used: usize,
    ghost within: { used ≤ length buffer },
    ghost short: { used ≤ 161 },
    ghost printable: { list_all is_printable (take (used - 1) buffer) ≡ true },
}

impl LineReader {
    ghost use Rattle.pd_lines.specs.Reader.{held_of, lines_of, line_of, next_number, Reads, answered};

    /// No line was read. It takes memory for 32 KiB, and `next` takes none.
    pub fn new(alloc: Global) -> Result<LineReader, AllocError>
        ensures held { IfOk result (λ reader. held_of reader ≡ []) }
        ensures lines { IfOk result (λ reader. lines_of reader ≡ 0) }
    {
        Ok(LineReader {
            buffer: Buffer::new(alloc)?,
            lines: 0,
            used: 0,
        })
    }

    /// How many lines were read, up to the end of its type.
    pub fn lines(&self) -> u64
        ensures { result ≡ lines_of self.now }
    {
        self.lines
    }

    /// The bytes of the last line that was read, without its line feed; after an error or the end none.
    pub fn text(&self) -> &[u8]
        ensures bytes { result.now ≡ line_of self.now }
        ensures text { list_all is_printable result.now ≡ true }
        ensures short { length result.now ≤ 160 }
    {
        &self.buffer.held()[..self.used.saturating_sub(1)]
    }

    /// Reads the next line, and answers whether there was one: none exactly where the input ends at a line's start.
    /// After an error or the end it says nothing of what a further call gives.
    pub fn advance<S: Source>(&mut self, source: &mut S) -> Result<bool, LineFault>
        requires { (S.state source.old).access ≡ 1 }
        ensures reads { (left : List ℕ) → (S.state source.old).left ≡ Some left
            → Reads (answered (lines_of self.new) (line_of self.new) result)
            (next_number self.old) (held_of self.old ++ left) (held_of self.new) (S.state source.new).left }
        ensures counted { (result ≢ Err LineFault.Source) → lines_of self.new ≡ next_number self.old }
        ensures onward { lines_of self.old ≤ lines_of self.new }
        ensures numbered { IfErr result (IsNumbered (next_number self.old)) }
        ensures source { result ≡ Err LineFault.Source → Rose (S.state source.old).faults (S.state source.new).faults }
        ensures faults { (S.state source.old).faults ≤ (S.state source.new).faults }
        ensures quiet { (result ≢ Err LineFault.Source) → (S.state source.new).faults ≡ (S.state source.old).faults }
        ensures kept { KeepsSource (S.state source.old) (S.state source.new) }
    {
        let number = self.lines.saturating_add(1);
        self.buffer.skip(self.used);
        self.used = 0;
        let front = match take_front(&mut self.buffer, source) {
            Ok(front) => front,
            Err(_) => return Err(LineFault::Source),
        };
        self.lines = number;
        match front {
            Front::Line(len) => {
                self.used = len + 1;
                Ok(true)
            }
            Front::NotText => Err(LineFault::NotText(number)),
            Front::Open => end_of(self.buffer.held(), number),
        }
    }

    /// The next line; none exactly where the input ends at a line's start. After an error or none it says nothing of
    /// what a further call gives.
    pub fn next<S: Source>(&mut self, source: &mut S) -> Result<Option<Line>, LineFault>
        requires { (S.state source.old).access ≡ 1 }
        ensures reads { (left : List ℕ) → (S.state source.old).left ≡ Some left
            → Reads result (next_number self.old) (held_of self.old ++ left) (held_of self.new) (S.state source.new).left }
        ensures counted { (result ≢ Err LineFault.Source) → lines_of self.new ≡ next_number self.old }
        ensures source { result ≡ Err LineFault.Source → Rose (S.state source.old).faults (S.state source.new).faults }
        ensures faults { (S.state source.old).faults ≤ (S.state source.new).faults }
        ensures quiet { (result ≢ Err LineFault.Source) → (S.state source.new).faults ≡ (S.state source.old).faults }
        ensures kept { KeepsSource (S.state source.old) (S.state source.new) }
    {
        if self.advance(source)? {
            Ok(Some(Line::new(self.lines, self.text())))
        } else {
            Ok(None)
        }
    }
}

/// Takes bytes until those that are held begin with a line, or 161 without a line feed are held, or no more come.
fn take_front<S: Source>(buffer: &mut Buffer, source: &mut S) -> Result<Front, Failed>
    requires { (S.state source.old).access ≡ 1 }
    ensures moved { Moves buffer.old buffer.new (S.state source.old).left (S.state source.new).left }
    ensures front { IfOk result (λ front. IsFront buffer.new front) }
    ensures end { IfOk result (λ front. front ≡ Open → length buffer.new ≤ 160
        → (left : List ℕ) → (S.state source.old).left ≡ Some left → (S.state source.new).left ≡ Some []) }
    ensures kept { KeepsSource (S.state source.old) (S.state source.new) }
    ensures faults { CountsFault result (S.state source.old).faults (S.state source.new).faults }
{
    'filling: loop {
        match front_of(buffer.held()) {
            Front::Open => {}
            found => return Ok(found),
        }
        if buffer.held().len() > 160 {
            return Ok(Front::Open);
        }
        if !buffer.fill(source)? {
            return Ok(Front::Open);
        }
    }
}

/// What is left at the input's end, or too much without a line feed.
fn end_of(held: &[u8], number: u64) -> Result<bool, LineFault>
    requires { IsUnbroken (take 161 held.now) }
    ensures long { 160 < length held.now → result ≡ Err (LineFault.TooLong number) }
    ensures unended { 1 ≤ length held.now → length held.now ≤ 160 → result ≡ Err (LineFault.Unended number) }
    ensures end { held.now ≡ [] → result ≡ Ok false }
    ensures numbered { IfErr result (IsNumbered number) }
{
    if held.len() > 160 {
        Err(LineFault::TooLong(number))
    } else if held.is_empty() {
        Ok(false)
    } else {
        Err(LineFault::Unended(number))
    }
}

// Why there is no next line.

/// Why there is no next line. A number is the line's, from 1; a line past the one with number 2^64 - 1 has that
/// number too.
#[derive(Clone, Copy, Debug, PartialEq, Eq)]
pub enum LineFault {
    /// The source has failed.
    Source,
    /// The line's first 161 bytes have no line feed.
    TooLong(u64),
    /// A byte of the line isn't from 0x20 to 0x7E.
    NotText(u64),
    /// The input ends after 1 to 160 bytes of the line.
    Unended(u64),
}
