//! The reader of a text of any kind (`thin_restore`, `cache_restore`, `era_restore`).

ghost use Rattle.std.specs.Prelude.{◌≡◌, ◌≤◌, ℕ, List, [], ◌∷◌, length, IfOk, OnOk, Some, None, MatchResult, IfErr};
ghost use Rattle.pd_image.specs.Source.{KeepsSource};
ghost use Rattle.pd_texts.specs.Reader.{CountsReads, IsPast, WantsMemory, fault_of, fault_after_end, text_fault};

use crate::state::{TextLines, TextState, read_line};
use pd_grammar::TextCause;
use pd_image::Source;
use pd_lines::{LineFault, LineReader};
use std::alloc::{AllocError, Global};

/// A text that is read line by line.
#[derive(Drop)]
pub struct TextReader<P: TextLines> {
    reader: LineReader,
    state: P,
}

impl<P: TextState> TextReader<P> {
    ghost use Rattle.pd_lines.specs.Reader.{lines_of};
    ghost use Rattle.pd_texts.specs.Reader.{HasRead, ReadsOn, LeavesOf, GivesLine, GivesOf, EndsOf, RefusesAfter, begun};

    /// No line was read. It takes memory for 32 KiB.
    pub fn new(alloc: Global) -> Result<TextReader<P>, AllocError>
        ensures lines { IfOk result (λ reader. ReadsOn P.format P.Stands [] reader) }
        ensures text { IfOk result (λ reader. (text : List ℕ) → LeavesOf P.format text [] reader (Some text)) }
    {
        Ok(TextReader {
            reader: LineReader::new(alloc)?,
            state: P::start(alloc),
        })
    }

    /// What the lines so far say of the next one.
    pub(crate) fn state(&self) -> &P
        ensures { result.now ≡ self.now.state }
    {
        &self.state
    }

    /// What the next line gives that isn't the first one; none exactly where the last line and then the end of the
    /// input were read. It takes memory, and answers the want of it, only where the state may want some. After an error
    /// or none it says nothing of what a further call gives.
    // What is called to give a line is inlined here, since each call would copy the line once more.
    #[inline(always)]
    pub fn next<S: Source>(&mut self, source: &mut S) -> Result<Option<P::Line>, ReadFault>
        requires { (S.state source.old).access ≡ 1 }
        ensures lines { (before : List P.Meant) → ReadsOn P.format P.Stands before self.old
            → GivesLine P.format P.Stands (P.first_line self.new.state) P.meant result before self.new }
        ensures text { (text : List ℕ) (before : List P.Meant) → ReadsOn P.format P.Stands before self.old
            → LeavesOf P.format text before self.old (S.state source.old).left
            → GivesOf P.format (P.first_line self.new.state) P.meant result text before self.new (S.state source.new).left }
        ensures past { IfErr result (IsPast (lines_of self.old.reader)) }
        ensures memory { IfErr result (WantsMemory (P.CanWantMemory self.new.state)) }
        ensures kept { KeepsSource (S.state source.old) (S.state source.new) }
        ensures faults { CountsReads result (S.state source.old).faults (S.state source.new).faults }
    {
        match self.begin(source) {
            Ok(()) => self.next_value(source),
            Err(fault) => Err(fault),
        }
    }

    /// Reads the first line, where none was read.
    #[inline(always)]
    fn begin<S: Source>(&mut self, source: &mut S) -> Result<(), ReadFault>
        requires { (S.state source.old).access ≡ 1 }
        ensures lines { (before : List P.Meant) → ReadsOn P.format P.Stands before self.old
            → OnOk result (ReadsOn P.format P.Stands (begun (P.first_line self.new.state) before) self.new) }
        ensures text { (text : List ℕ) (before : List P.Meant) → ReadsOn P.format P.Stands before self.old
            → LeavesOf P.format text before self.old (S.state source.old).left
            → MatchResult result (λ _. LeavesOf P.format text
            (begun (P.first_line self.new.state) before) self.new (S.state source.new).left) (RefusesAfter P.format text before) }
        ensures past { IfErr result (IsPast (lines_of self.old.reader)) }
        ensures memory { IfErr result (WantsMemory (P.CanWantMemory self.new.state)) }
        ensures onward { lines_of self.old.reader ≤ lines_of self.new.reader }
        ensures kept { KeepsSource (S.state source.old) (S.state source.new) }
        ensures faults { CountsReads result (S.state source.old).faults (S.state source.new).faults }
    {
        if self.state.is_first() {
            self.read_first(source)
        } else {
            Ok(())
        }
    }

    /// Reads the first line.
    fn read_first<S: Source>(&mut self, source: &mut S) -> Result<(), ReadFault>
        requires { (S.state source.old).access ≡ 1 }
        ensures lines { ReadsOn P.format P.Stands [] self.old
            → OnOk result (ReadsOn P.format P.Stands (P.first_line self.new.state ∷ []) self.new) }
        ensures text { (text : List ℕ) → ReadsOn P.format P.Stands [] self.old
            → LeavesOf P.format text [] self.old (S.state source.old).left
            → MatchResult result (λ _. LeavesOf P.format text (P.first_line self.new.state ∷ []) self.new (S.state source.new).left)
            (RefusesAfter P.format text []) }
        ensures past { IfErr result (IsPast (lines_of self.old.reader)) }
        ensures memory { IfErr result (WantsMemory (P.CanWantMemory self.new.state)) }
        ensures onward { lines_of self.old.reader ≤ lines_of self.new.reader }
        ensures kept { KeepsSource (S.state source.old) (S.state source.new) }
        ensures faults { CountsReads result (S.state source.old).faults (S.state source.new).faults }
    {
        match self.reader.advance(source) {
            Ok(true) => {
                if self.state.read_first(self.reader.text()) {
                    Ok(())
                } else {
                    Err(text_fault(self.reader.lines(), TextCause::Header))
                }
            }
            Ok(false) => Err(text_fault(self.reader.lines(), TextCause::NoEnd)),
            Err(fault) => Err(fault_of(fault, TextCause::Header)),
        }
    }

    /// What the next line gives after the first one, or the end.
    #[inline(always)]
    fn next_value<S: Source>(&mut self, source: &mut S) -> Result<Option<P::Line>, ReadFault>
        requires { (S.state source.old).access ≡ 1 }
        ensures lines { (before : List P.Meant) → 1 ≤ length before → ReadsOn P.format P.Stands before self.old
            → GivesLine P.format P.Stands (P.first_line self.new.state) P.meant result before self.new }
        ensures text { (text : List ℕ) (before : List P.Meant) → 1 ≤ length before → ReadsOn P.format P.Stands before self.old
            → LeavesOf P.format text before self.old (S.state source.old).left
            → GivesOf P.format (P.first_line self.new.state) P.meant result text before self.new (S.state source.new).left }
        ensures past { IfErr result (IsPast (lines_of self.old.reader)) }
        ensures memory { IfErr result (WantsMemory (P.CanWantMemory self.new.state)) }
        ensures first { P.first_line self.new.state ≡ P.first_line self.old.state }
        ensures kept { KeepsSource (S.state source.old) (S.state source.new) }
        ensures faults { CountsReads result (S.state source.old).faults (S.state source.new).faults }
    {
        match self.read_later(source) {
            Ok(Some(line)) => Ok(Some(line)),
            Ok(None) => self.read_end(source),
            Err(fault) => Err(fault),
        }
    }

    /// Reads a line after the first one, once there is memory for it.
    #[inline(always)]
    fn read_later<S: Source>(&mut self, source: &mut S) -> Result<Option<P::Line>, ReadFault>
        requires { (S.state source.old).access ≡ 1 }
        ensures lines { (before : List P.Meant) → 1 ≤ length before → ReadsOn P.format P.Stands before self.old
            → IfOk result (λ line. HasRead P.format P.Stands (P.meant line ∷ before) self.new) }
        ensures text { (text : List ℕ) (before : List P.Meant) → 1 ≤ length before → ReadsOn P.format P.Stands before self.old
            → LeavesOf P.format text before self.old (S.state source.old).left
            → MatchResult result (λ line. LeavesOf P.format text (P.meant line ∷ before) self.new (S.state source.new).left)
            (RefusesAfter P.format text before) }
        ensures past { IfErr result (IsPast (lines_of self.old.reader)) }
        ensures memory { IfErr result (WantsMemory (P.CanWantMemory self.new.state)) }
        ensures first { P.first_line self.new.state ≡ P.first_line self.old.state }
        ensures onward { lines_of self.old.reader ≤ lines_of self.new.reader }
        ensures kept { KeepsSource (S.state source.old) (S.state source.new) }
        ensures faults { CountsReads result (S.state source.old).faults (S.state source.new).faults }
    {
        match self.state.take_memory() {
            Ok(()) => {}
            Err(_) => return Err(ReadFault::Memory),
        }
        match self.reader.advance(source) {
            Ok(true) => match read_line(&mut self.state, self.reader.text()) {
                Ok(line) => Ok(line),
                Err(cause) => Err(text_fault(self.reader.lines(), cause)),
            },
            Ok(false) => Err(text_fault(self.reader.lines(), TextCause::NoEnd)),
            Err(fault) => Err(fault_of(fault, TextCause::Word)),
        }
    }

    /// Reads the end of the input after the last line.
    fn read_end<S: Source>(&mut self, source: &mut S) -> Result<Option<P::Line>, ReadFault>
        requires { (S.state source.old).access ≡ 1 }
        ensures none { IfOk result (λ line. line ≡ None) }
        ensures text { (text : List ℕ) (before : List P.Meant) → HasRead P.format P.Stands (P.meant None ∷ before) self.old
            → LeavesOf P.format text (P.meant None ∷ before) self.old (S.state source.old).left
            → EndsOf P.format result text (P.meant None ∷ before) (S.state source.new).left }
        ensures past { IfErr result (IsPast (lines_of self.old.reader)) }
        ensures memory { IfErr result (WantsMemory (P.CanWantMemory self.new.state)) }
        ensures first { P.first_line self.new.state ≡ P.first_line self.old.state }
        ensures kept { KeepsSource (S.state source.old) (S.state source.new) }
        ensures faults { CountsReads result (S.state source.old).faults (S.state source.new).faults }
    {
        match self.reader.advance(source) {
            Ok(true) => Err(text_fault(self.reader.lines(), TextCause::AfterEnd)),
            Ok(false) => Ok(None),
            Err(fault) => Err(fault_after_end(fault)),
        }
    }
}

// Where and why a text is refused (`thin_restore`, `cache_restore`, `era_restore`).

/// Where a text is refused, and why.
#[derive(Clone, Copy, Debug, PartialEq, Eq)]
pub struct TextFault {
    /// The number of the line, from 1; a line past the one with number 2^64 - 1 has that number too.
    pub line: u64,
    /// The first cause, in the order in which they are looked at.
    pub cause: TextCause,
}

/// Why a text couldn't be read.
#[derive(Clone, Copy, Debug, PartialEq, Eq)]
pub enum ReadFault {
    /// There wasn't enough memory.
    Memory,
    /// The source has failed.
    Source,
    /// The text is refused.
    Text(TextFault),
}

/// A refusal of the line with this number.
pub(crate) fn text_fault(line: u64, cause: TextCause) -> ReadFault
    ensures { result ≡ text_fault line cause }
{
    ReadFault::Text(TextFault { line, cause })
}

/// Why a line before the end isn't read, where a line with other bytes is refused for this cause.
pub(crate) fn fault_of(fault: LineFault, other: TextCause) -> ReadFault
    ensures { result ≡ fault_of other fault }
{
    match fault {
        LineFault::Source => ReadFault::Source,
        LineFault::TooLong(line) => text_fault(line, TextCause::TooLong),
        LineFault::NotText(line) => text_fault(line, other),
        LineFault::Unended(line) => text_fault(line, TextCause::NoEnd),
    }
}

/// Why the end of the input isn't read after the last line.
pub(crate) fn fault_after_end(fault: LineFault) -> ReadFault
    ensures { result ≡ fault_after_end fault }
{
    match fault {
        LineFault::Source => ReadFault::Source,
        LineFault::TooLong(line) | LineFault::NotText(line) | LineFault::Unended(line) => {
            text_fault(line, TextCause::AfterEnd)
        }
    }
}
