//! The lines of an era target's text (`era_dump`, `era_restore`).
//! The lines of an era target's text, printed (`era_dump`).
//! Eras of blocks, in runs as long as can be.
//! What the lines of an era target's text come to, read and printed (`era_dump`, `era_restore`).

ghost use Rattle.std.specs.Prelude.{◌≡◌, OnOk, ◌+◌, ◌≤◌, ◌++◌, length, ◌^◌, ◌<◌, ◌∷◌, drop, slice_index, [], ℕ, List, true};
ghost use Rattle.pd_kinds.specs.Objects.{CountsFault, Appends, AppendsFront};
ghost use Rattle.pd_kinds.specs.Meaning.{EraMeaning};
ghost use Rattle.pd_kinds.specs.declared.kind.Kind.TheVariants.{Era};
ghost use Rattle.pd_grammar.specs.EraText.{era, era_line, run_line, joined_eras, Line, Head, Run, first_line, end_line};
ghost use Rattle.pd_grammar.specs.EraText.{head_of, run_lines, text_of_era, AreApart, MeansEra, SpellsEra};
ghost use Rattle.pd_grammar.specs.Texts.{has_ended, reading, text_of_lines, whole};
ghost use Rattle.pd_image.specs.Sink.{KeepsSink};
ghost use Rattle.pd_texts.specs.ThinLine.{text_of_line, first_text, end_text};
ghost use Rattle.pd_texts.specs.Reader.{in_order, IsReadAfter, AreReadSoFar};
ghost use Rattle.pd_texts_kinds.specs.EraLine.{line_of, IsEraLine, IsRunLine, IsEndLine};

use pd_image::{Failed, Sink};
use pd_lines::{PieceBuffer, TextLine, put_line};
use pd_texts::{add_uuid, add_word};

/// A line of the text of an era target that isn't the first or the last one.
#[derive(Clone, Copy, Debug, PartialEq, Eq)]
pub enum EraLine {
    /// The target, which is line 2.
    Era {
        uuid: [u8; 16],
        /// The size of a block in sectors of 512 bytes.
        block_size: u32,
        /// The number of blocks.
        blocks: u32,
        /// The current era.
        era: u32,
    },
    /// Blocks that follow each other and were last written in one era.
    Run {
        /// The first block.
        first: u32,
        /// How many blocks, 1 at the least.
        length: u32,
        /// The era, 0 where they weren't written.
        era: u32,
    },
}

/// Prints a line. It takes no memory.
pub fn print_era<K: Sink>(line: &EraLine, out: &mut K) -> Result<(), Failed>
    requires { (K.state out.old).access ≡ 1 }
    ensures whole { OnOk result (Appends (text_of_line era (line_of line.now)) (K.state out.old).written (K.state out.new).written) }
    ensures front { AppendsFront (text_of_line era (line_of line.now)) (K.state out.old).written (K.state out.new).written }
    ensures kept { KeepsSink (K.state out.old) (K.state out.new) }
    ensures faults { CountsFault result (K.state out.old).faults (K.state out.new).faults }
{
    put_line(line, out)
}

impl TextLine for EraLine {
    ghost bytes = { λ line. text_of_line era (line_of line) };

    fn add_to(&self, text: &mut PieceBuffer) {
        match self {
            EraLine::Era {
                uuid,
                block_size,
                blocks,
                era,
            } => add_head(text, *uuid, *block_size, *blocks, *era),
            EraLine::Run { first, length, era } => add_run(text, *first, *length, *era),
        }
    }
}

/// Adds the bytes of an era line.
fn add_head(line: &mut PieceBuffer, uuid: [u8; 16], block_size: u32, blocks: u32, current: u32)
    requires { length line.old + 161 ≤ 16384 }
    ensures { line.new ≡ line.old ++ text_of_line era
        (era_line (record { uuid = uuid; block_size = block_size; blocks = blocks; era = current })) }
{
    line.add(b"era ");
    add_uuid(line, uuid);
    add_word(line, block_size as u64);
    add_word(line, blocks as u64);
    add_word(line, current as u64);
    line.add(b"\n");
}

/// Adds the bytes of a run line.
fn add_run(line: &mut PieceBuffer, first: u32, count: u32, last: u32)
    requires { length line.old + 161 ≤ 16384 }
    ensures { line.new ≡ line.old ++ text_of_line era (run_line (record { first = first; length = count; era = last })) }
{
    line.add(b"run");
    add_word(line, first as u64);
    add_word(line, count as u64);
    add_word(line, last as u64);
    line.add(b"\n");
}

/// The run lines of eras, block after block from block 0 on.
#[derive(Drop)]
pub struct EraRuns<'a> {
    /// The eras that no run was given of.
    rest: &'a [u32],
    /// The number of the first of them.
    first: u32,
    ghost fits: { first + length rest.now < 2 ^ 32 },
}

impl<'a> EraRuns<'a> {
    ghost use Rattle.std.specs.Prelude.{◌^◌, ◌<◌, length};
    ghost use Rattle.pd_grammar.specs.EraText.{joined_eras, run_lines};
    ghost use Rattle.pd_texts_kinds.specs.Runs.{runs_left};

    /// The runs of these eras, one a block.
    pub fn new(eras: &'a [u32]) -> EraRuns<'a>
        requires { length eras.now < 2 ^ 32 }
        ensures { runs_left result ≡ run_lines 0 (joined_eras eras.now) }
    {
        EraRuns {
            rest: eras,
            first: 0,
        }
    }
}

impl<'a> Iterator for EraRuns<'a> {
    ghost use Rattle.std.specs.Iterator.{YieldsFirstBy, item_count};
    ghost use Rattle.pd_texts_kinds.specs.EraLine.{line_of};
    ghost use Rattle.pd_texts_kinds.specs.Runs.{runs_left};

    type Item = EraLine;

    ghost next_gives = { YieldsFirstBy line_of runs_left };

    ghost remaining = { item_count runs_left };

    fn next(&mut self) -> Option<EraLine> {
        if self.rest.is_empty() {
            return None;
        }
        let era = self.rest[0];
        let length = run_length(self.rest);
        let first = self.first;
        self.rest = &self.rest[length..];
        self.first = first + length as u32;
        Some(EraLine::Run {
            first,
            length: length as u32,
            era,
        })
    }
}

/// How many of the first eras are the same.
fn run_length(eras: &[u32]) -> usize
    requires { 1 ≤ length eras.now }
    ensures run { joined_eras eras.now ≡ record { length = result; era = slice_index eras.now 0 } ∷ joined_eras (drop result eras.now) }
    ensures some { 1 ≤ result }
    ensures within { result ≤ length eras.now }
{
    let era = eras[0];
    for i in 1..eras.len() {
        if eras[i] != era {
            return i;
        }
    }
    eras.len()
}

/// A text of which no line is refused is the text of its lines; they mean an era target, which it spells.
pub fn whole_era_text_spells()
    ensures bytes { (text : List ℕ) (lines : List Line) → reading era text ≡ whole lines → text ≡ text_of_lines era lines }
    ensures spells { (text : List ℕ) (lines : List Line)
        → reading era text ≡ whole lines → (m : EraMeaning) × (MeansEra lines m × SpellsEra text m) }
{}

/// The bytes of the lines so far grow by those of the next line, and the first and the last line are printed as such.
pub fn era_lines_are_printed_in_order()
    ensures more { (before : List Line) (line : Line)
        → text_of_lines era (in_order (line ∷ before) []) ≡ text_of_lines era (in_order before []) ++ text_of_line era line }
    ensures first { text_of_lines era (in_order (first_line ∷ []) []) ≡ first_text Era }
    ensures last { text_of_line era end_line ≡ end_text }
{}

/// An era target's text is the first line, the era line, the lines of its runs, as long as can be, and the last line.
pub fn era_text_is_its_lines()
    ensures { (m : EraMeaning) → text_of_era m ≡ first_text Era
        ++ (text_of_line era (era_line (head_of m)) ++ (text_of_lines era (run_lines 0 (joined_eras m.eras)) ++ end_text)) }
{}

/// No two neighbouring runs of eras have one era.
pub fn runs_of_eras_are_apart()
    ensures { (eras : List ℕ) → AreApart (joined_eras eras) }
{}

/// Lines that were read up to the last one, from whatever source, mean an era target.
pub fn read_era_lines_mean_a_target()
    ensures { (lines : List Line) → AreReadSoFar era lines
        → has_ended era lines ≡ true → (m : EraMeaning) × MeansEra (in_order lines []) m }
{}

/// What is known of the numbers of each line that was read after others.
pub fn read_era_lines_are_in_range()
    ensures era { (before : List Line) (h : Head) → IsReadAfter era before (era_line h) → IsEraLine before h }
    ensures run { (before : List Line) (r : Run) → IsReadAfter era before (run_line r) → IsRunLine before r }
    ensures end { (before : List Line) → IsReadAfter era before end_line → IsEndLine before }
{}
