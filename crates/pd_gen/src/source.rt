//! The generator's text as a source (`thin_generate`, `thin_rehearse`).

ghost use Rattle.std.specs.Prelude.{true, false, ◌≡◌, ◌<◌, ◌≤◌, ◌++◌, [], length, take, min, OnOk, ℕ};
ghost use Rattle.pd_kinds.specs.Objects.{CountsFault, Appends, AppendsFront};
ghost use Rattle.pd_grammar.specs.ThinText.{first_line, thin, SpellsPool};
ghost use Rattle.pd_answers.specs.Rehearsals.{generated_text};
ghost use Rattle.pd_image.specs.Sink.{KeepsSink};
ghost use Rattle.pd_texts.specs.ThinLine.{text_of_line};
ghost use Rattle.pd_gen.specs.Lines.{generated_pool};

use crate::lines::Generated;
use pd_image::{Failed, Sink, Source};
use pd_kinds::Kind;
use pd_lines::{PIECE_ROOM, PieceBuffer, TextLine};
use pd_texts::{bytes_of_end, bytes_of_first};

/// A source whose text is that of the generator for a number. It opens every path and tells none, never fails, and takes
/// no memory: it holds one line at a time.
#[derive(Drop)]
pub struct GenSource {
    lines: Generated,
    /// The line that is given now.
    line: PieceBuffer,
    /// How many of its bytes were given.
    given: usize,
    /// Whether it is the last one.
    ended: bool,
    attached: bool,
    ghost within: { given ≤ length line },
}

impl GenSource {
    ghost use Rattle.pd_gen.specs.GenSource.{gen_source_state, text_left, unattached_generator};

    /// The text of the number, 1 to 10000 where it is a request's, which isn't attached yet.
    pub fn new(number: u32) -> GenSource
        ensures { gen_source_state result ≡ unattached_generator number }
    {
        GenSource {
            lines: Generated::new(number),
            line: first_text(),
            given: 0,
            ended: false,
            attached: false,
        }
    }

    /// Moves bytes to the front of `into`, until there is no room or no text: how many.
    pub(crate) fn fill(&mut self, into: &mut [u8]) -> usize
        requires { 0 < length into.old }
        ensures within { result ≤ length into.new }
        ensures moved { take result into.new ++ text_left self.new ≡ text_left self.old }
        ensures end { result ≡ 0 → text_left self.new ≡ [] }
        ensures kept { self.new.attached ≡ self.old.attached }
    {
        let mut filled = 0;
        while filled < into.len() {
            if !self.has_more() {
                return filled;
            }
            filled += self.move_bytes(&mut into[filled..]);
        }
        filled
    }

    /// Whether there is text left; then some of it is in the line.
    fn has_more(&mut self) -> bool
        ensures more { result ≡ true → self.new.given < length self.new.line }
        ensures end { result ≡ false → text_left self.new ≡ [] }
        ensures left { text_left self.new ≡ text_left self.old }
        ensures kept { self.new.attached ≡ self.old.attached }
    {
        if self.given < self.line.as_bytes().len() {
            return true;
        }
        if self.ended {
            return false;
        }
        self.given = 0;
        self.line.clear();
        match self.lines.next() {
            Some(line) => line.add_to(&mut self.line),
            None => {
                self.line.add(bytes_of_end());
                self.ended = true;
            }
        }
        true
    }

    /// Moves bytes of the line to the front of `into`: how many.
    fn move_bytes(&mut self, into: &mut [u8]) -> usize
        requires more { self.old.given < length self.old.line }
        requires room { 0 < length into.old }
        ensures some { 0 < result }
        ensures within { result ≤ length into.new }
        ensures moved { take result into.new ++ text_left self.new ≡ text_left self.old }
        ensures kept { self.new.attached ≡ self.old.attached }
    {
        let n = copy_front(&self.line.as_bytes()[self.given..], into);
        self.given += n;
        n
    }
}

impl Source for GenSource {
    ghost use Rattle.std.proofs.Common.{refl};
    ghost use Rattle.pd_gen.specs.GenSource.{gen_source_state};

    ghost state = { gen_source_state };

    ghost unnamed = { λ _ _. refl };

    fn attach(&mut self, _path: &str) -> Result<(), Failed> {
        self.attached = true;
        Ok(())
    }

    fn take(&mut self, into: &mut [u8]) -> Result<usize, Failed> {
        Ok(self.fill(into))
    }
}

/// The bytes of the first line.
fn first_text() -> PieceBuffer
    ensures { result ≡ text_of_line thin first_line }
{
    let mut line = PieceBuffer::new();
    line.add(bytes_of_first(Kind::Thin));
    line
}

/// Copies as many bytes as there are, and as there is room for: how many.
fn copy_front(from: &[u8], into: &mut [u8]) -> usize
    ensures number { result ≡ min (length into.old) (length from.now) }
    ensures front { take result into.new ≡ take result from.now }
{
    let n = from.len().min(into.len());
    into[..n].copy_from_slice(&from[..n]);
    n
}

// The generator's text, put to a sink (`thin_generate`).

/// Puts the text of a number, in pieces. It takes no memory.
///
/// Fails where the sink does; then a front of the text was put.
pub fn put_generated<K: Sink>(number: u32, out: &mut K) -> Result<(), Failed>
    requires { (K.state out.old).access ≡ 1 }
    ensures whole { OnOk result (Appends (generated_text number) (K.state out.old).written (K.state out.new).written) }
    ensures front { AppendsFront (generated_text number) (K.state out.old).written (K.state out.new).written }
    ensures kept { KeepsSink (K.state out.old) (K.state out.new) }
    ensures faults { CountsFault result (K.state out.old).faults (K.state out.new).faults }
{
    let mut source = GenSource::new(number);
    let mut piece = [0; PIECE_ROOM];
    loop {
        let n = source.fill(&mut piece);
        if n == 0 {
            return Ok(());
        }
        out.put(&piece[..n])?;
    }
}

// What the generator's text means (`thin_generate`, `thin_rehearse`).

/// The generator's text of a number up to 10000 spells a pool, so no line of it is refused for what it says.
pub fn generated_text_spells_a_pool()
    ensures { (number : ℕ) → number ≤ 10000 → SpellsPool (generated_text number) (generated_pool number) }
{}
