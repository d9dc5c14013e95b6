//! Runs of the tools, and what they must come to.

ghost use Rattle.std.specs.Prelude.{◌≡◌, true, IfOk, OnOk, length};

use crate::runs::{
    Failing, Held, NOTHING_FAILS, Ran, blocks_after_crash, blocks_of, run, run_over,
};
use pd_image::{MemDevice, Pick};
use pd_kinds::{BLOCK_SIZE, Block};
use std::alloc::{AllocError, Global};
use std::test::Fail;

/// The words of a restore of a pool.
pub const THIN: &[&str] = &["thin_restore", "-i", "text", "-o", "image"];

/// The text of the pool of one mapping.
pub const ONE_MAPPING: &str =
    "thin 1\npool 00000000-0000-0000-0000-000000000000 0 0 128 1\ndevice 1 1 0 0 0\nmap 0 0 1 0\nend\n";

/// The picks of the crashes that are looked at.
pub const PICKS: &[Pick] = &[Pick::Old, Pick::New, Pick::Other(0)];

/// What a run comes to.
#[derive(Clone, Copy)]
pub enum End {
    /// It is done, and has put this.
    Done(&'static str),
    /// It is stopped by what these notes say.
    Stopped(&'static str),
    /// This line is refused for this cause.
    Refused(u32, &'static str),
    /// So many blocks are needed, and there are just so many.
    NoRoom(u64, u64),
}

/// What fails in a run.
#[derive(Clone, Copy)]
pub enum Trouble {
    Source,
    Out,
    Notes,
    Input,
    Output,
    Third,
    InputStops,
    OutputStops,
    ThirdStops,
}

impl Trouble {
    /// This at a call, from 0.
    pub fn at(self, call: u64) -> Failing {
        let mut failing = NOTHING_FAILS;
        match self {
            Trouble::Source => failing.source = Some(call),
            Trouble::Out => failing.out = Some(call),
            Trouble::Notes => failing.notes = Some(call),
            Trouble::Input => failing.input = Some(call),
            Trouble::Output => failing.output = Some(call),
            Trouble::Third => failing.third = Some(call),
            Trouble::InputStops => failing.input_stops_after = call,
            Trouble::OutputStops => failing.output_stops_after = call,
            Trouble::ThirdStops => failing.third_stops_after = call,
        }
        failing
    }

    /// The status that it comes to.
    pub fn status(self) -> u8 {
        match self {
            Trouble::Source | Trouble::Out | Trouble::Notes => 6,
            _ => 5,
        }
    }
}

/// A block whose bytes are all 1.
pub const ONES: Block = Block([1; BLOCK_SIZE]);

/// What is left of the blocks of a device.
#[derive(Clone, Copy, PartialEq, Eq)]
pub enum Left {
    /// Those that it held.
    Old,
    /// Those that were to be written.
    New,
    /// Zeros in block 0.
    Closed,
    /// Others.
    Written,
}

/// What is left of these blocks.
pub fn left_of(found: &[Block], old: &[Block], new: &[Block]) -> Left {
    if found == old {
        Left::Old
    } else if found == new {
        Left::New
    } else if found.first() == Some(&Block::zeros()) {
        Left::Closed
    } else {
        Left::Written
    }
}

/// Restores a text over these blocks.
pub fn restore(
    alloc: Global,
    words: &[&str],
    text: &str,
    base: &[Block],
    failing: Failing,
) -> Result<Ran, AllocError> {
    let held = Held {
        text: text.as_bytes(),
        input: &[],
        output: base,
        third: &[],
    };
    run_over(alloc, words, held, failing)
}

/// The blocks that a text makes of so many blocks of ones.
pub fn made(alloc: Global, words: &[&str], text: &str, blocks: usize) -> Result<Vec<Block>, Fail>
    ensures { IfOk result (λ image. length image.items ≡ blocks) }
{
    made_over_all(alloc, words, text, ONES, blocks)
}

/// The blocks that the text of a pool makes of so many blocks of zeros.
pub fn pool_of(alloc: Global, text: &str, blocks: usize) -> Result<Vec<Block>, Fail>
    ensures { IfOk result (λ image. length image.items ≡ blocks) }
{
    made_over_all(alloc, THIN, text, Block::zeros(), blocks)
}

/// The blocks that a text makes of so many blocks that are all this one.
fn made_over_all(
    alloc: Global,
    words: &[&str],
    text: &str,
    block: Block,
    blocks: usize,
) -> Result<Vec<Block>, Fail>
    ensures { IfOk result (λ image. length image.items ≡ blocks) }
{
    let base = vec![in alloc; block; blocks]?;
    let image = made_over(alloc, words, text, base.as_slice())?;
    expect_so(image.len() == blocks, "blocks")?;
    Ok(image)
}

/// The blocks that a text makes of these blocks.
pub fn made_over(
    alloc: Global,
    words: &[&str],
    text: &str,
    base: &[Block],
) -> Result<Vec<Block>, Fail> {
    let restored = restore(alloc, words, text, base, NOTHING_FAILS)?;
    expect_said(&restored, 0, "", "")?;
    Ok(blocks_of(alloc, &restored.output)?)
}

/// A restore: its words, its text, the blocks of the output, what it comes to, and what is left of blocks of ones.
pub type Row = (&'static [&'static str], &'static str, usize, End, Left);

/// Restores a text onto blocks of ones, which comes to this.
pub fn expect_restored(alloc: Global, row: &Row) -> Result<(), Fail> {
    let (words, text, blocks, end, left) = *row;
    let base = vec![in alloc; ONES; blocks]?;
    let restored = restore(alloc, words, text, base.as_slice(), NOTHING_FAILS)?;
    expect_end(alloc, &restored, end)?;
    expect_left(alloc, &restored, base.as_slice(), left, text)
}

/// This is left of the output of a run, which held these blocks.
pub fn expect_left(
    alloc: Global,
    ran: &Ran,
    old: &[Block],
    left: Left,
    shows: &str,
) -> Result<(), Fail> {
    let found = left_by(alloc, ran, Pick::New, old, &[])?;
    expect_so(found == left, shows)
}

/// What a restore of a text onto blocks of ones leaves, with this call of the source failing, in which it fails.
pub fn left_by_source_fault(
    alloc: Global,
    words: &[&str],
    text: &str,
    call: u64,
) -> Result<Left, Fail> {
    let base = [ONES; 16];
    let restored = restore(alloc, words, text, &base, Trouble::Source.at(call))?;
    expect_said(&restored, 6, "", "pdata_tools: source or sink fault\n")?;
    Ok(left_by(alloc, &restored, Pick::New, &base, &[])?)
}

/// What a crash by this pick leaves of the output of a run.
pub fn left_by(
    alloc: Global,
    ran: &Ran,
    pick: Pick,
    old: &[Block],
    new: &[Block],
) -> Result<Left, AllocError> {
    let found = blocks_after_crash(alloc, &ran.output, pick)?;
    Ok(left_of(found.as_slice(), old, new))
}

/// A run in which the output failed leaves the old blocks, no valid superblock, or the new blocks, whichever writes a crash
/// keeps.
pub fn expect_output_fault(
    alloc: Global,
    ran: &Ran,
    old: &[Block],
    new: &[Block],
) -> Result<(), Fail> {
    expect_so(ran.status == 5, "status 5")?;
    for pick in PICKS {
        let left = left_by(alloc, ran, *pick, old, new)?;
        expect_so(left != Left::Written, "no other blocks")?;
    }
    Ok(())
}

/// The words of a restore, and its text.
type Restore = (&'static [&'static str], &'static str);

/// Makes one restore over sixteen blocks of ones, and another one over what it made with each of so many calls of the output
/// failing, in which it fails.
pub fn expect_output_faults(
    alloc: Global,
    (before, old_text): Restore,
    (after, text): Restore,
    calls: u64,
) -> Result<(), Fail> {
    let old = made(alloc, before, old_text, 16)?;
    let new = made_over(alloc, after, text, old.as_slice())?;
    for call in 0..calls {
        let ran = restore(alloc, after, text, old.as_slice(), Trouble::Output.at(call))?;
        expect_output_fault(alloc, &ran, old.as_slice(), new.as_slice())?;
    }
    Ok(())
}

/// This holds. The text says what it shows.
pub fn expect_so(holds: bool, shows: &str) -> Result<(), Fail>
    ensures { OnOk result (holds ≡ true) }
{
    if holds {
        Ok(())
    } else {
        Err(Fail::new(format_args!("expected: {shows}")))
    }
}

/// A run has this status and has put this.
pub fn expect_said(ran: &Ran, status: u8, out: &str, notes: &str) -> Result<(), Fail> {
    let is_put = ran.out.bytes() == out.as_bytes();
    let is_noted = ran.notes.bytes() == notes.as_bytes();
    if (ran.status == status) & is_put & is_noted {
        Ok(())
    } else {
        Err(Fail::new(format_args!("expected: {out}{notes}")))
    }
}

/// A run has come to this.
pub fn expect_end(alloc: Global, ran: &Ran, end: End) -> Result<(), Fail> {
    match end {
        End::Done(out) => expect_said(ran, 0, out, ""),
        End::Stopped(notes) => expect_said(ran, 1, "", notes),
        End::Refused(line, cause) => {
            let notes = format!(in alloc; "pdata_tools: line {line}: {cause}\n")?;
            expect_said(ran, 3, "", notes.as_str())
        }
        End::NoRoom(need, blocks) => {
            let notes = format!(in alloc; "pdata_tools: no room: need {need}, blocks {blocks}\n")?;
            expect_said(ran, 4, "", notes.as_str())
        }
    }
}

/// Whether a device holds just these blocks.
pub fn holds(alloc: Global, device: &MemDevice, blocks: &[Block]) -> Result<bool, AllocError> {
    let held = blocks_of(alloc, device)?;
    Ok(held.as_slice() == blocks)
}

/// A device holds just these blocks.
pub fn expect_held(
    alloc: Global,
    device: &MemDevice,
    blocks: &[Block],
    shows: &str,
) -> Result<(), Fail> {
    let is_held = holds(alloc, device, blocks)?;
    expect_so(is_held, shows)
}

/// Runs a tool over an image, where this must be the status and what is put, and the image stays.
pub fn expect(
    alloc: Global,
    words: &[&str],
    image: &[Block],
    status: u8,
    text: &str,
) -> Result<(), Fail> {
    let ran = run(alloc, words, image, NOTHING_FAILS)?;
    expect_said(&ran, status, text, "")?;
    expect_held(alloc, &ran.input, image, text)
}

/// Checks an image to the end by this tool, where this must be the report.
pub fn expect_report(alloc: Global, tool: &str, image: &[Block], report: &str) -> Result<(), Fail> {
    let status = if report == "clean\n" { 0 } else { 1 };
    expect(alloc, &[tool, "image"], image, status, report)
}

/// Checks an image to the end by this tool, which reports these faults: what follows `fault meta` in each line, and that it is
/// one, or, where they are of two lines, two.
pub fn expect_faults_of(
    alloc: Global,
    tool: &str,
    image: &[Block],
    faults: &str,
) -> Result<(), Fail> {
    let lines = faults.lines().count();
    let report = format!(in alloc; "fault meta {faults}\nfaults {lines}\n")?;
    expect(alloc, &[tool, "image"], image, 1, report.as_str())
}

/// An image is clean, and is dumped as this text.
pub fn expect_dumped(
    alloc: Global,
    (check, dump): (&str, &str),
    image: &[Block],
    text: &str,
) -> Result<(), Fail> {
    expect(alloc, &[check, "image"], image, 0, "clean\n")?;
    expect(alloc, &[dump, "image"], image, 0, text)
}

/// Runs a query over an image with a fault, which must be this report in the notes, with nothing put.
pub fn expect_fault_in_notes(
    alloc: Global,
    words: &[&str],
    image: &[Block],
    report: &str,
) -> Result<(), Fail> {
    let ran = run(alloc, words, image, NOTHING_FAILS)?;
    expect_said(&ran, 1, "", report)
}

/// The status of a run with this call of an object failing.
pub fn status_in(
    alloc: Global,
    words: &[&str],
    image: &[Block],
    trouble: Trouble,
    call: u64,
) -> Result<u8, AllocError> {
    Ok(run(alloc, words, image, trouble.at(call))?.status)
}

/// Whether a run has no such call of its device. Where it has, it fails in that call.
fn is_past_device(alloc: Global, words: &[&str], image: &[Block], call: u64) -> Result<bool, Fail> {
    let ran = run(alloc, words, image, Trouble::Input.at(call))?;
    let is_past = ran.status == 0;
    let is_told = ran.notes.bytes() == "pdata_tools: device fault\n".as_bytes();
    if !(is_past | ((ran.status == 5) & is_told)) {
        return Err(Fail::new(format_args!("expected: a device fault at call {call}")));
    }
    Ok(is_past)
}

/// Runs a tool with each call of its device failing in turn, until one run makes fewer calls. It makes fewer than `most`.
pub fn expect_device_faults(
    alloc: Global,
    words: &[&str],
    image: &[Block],
    most: u64,
) -> Result<(), Fail> {
    for call in 0..most {
        if is_past_device(alloc, words, image, call)? {
            return expect_so(call > 10, "more than 10 calls");
        }
    }
    expect_so(false, "an end")
}
