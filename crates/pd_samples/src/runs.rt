//! Runs of the tools over objects in memory.

ghost use Rattle.std.specs.Prelude.{◌≡◌, IfOk};
ghost use Rattle.pd_image.specs.Step.{block_bytes};
ghost use Rattle.pd_image.specs.MemObjects.{mem_device_state, unattached_device, mem_sink_state};
ghost use Rattle.pd_image.specs.MemObjects.{unattached_sink, mem_source_state, unattached_source};

use pd_crc::any_valid;
use pd_image::{Device, MemDevice, MemSink, MemSource, Pick};
use pd_kinds::{BLOCK_SIZE, Block};
use pd_tools::run_tool;
use std::alloc::{AllocError, Global};

/// A call that was made. It's boxed, since a value of these objects that goes out of scope is then one call of a proved
/// function: dropped in place, it is a path for each optional part of each object, at each `?` behind it.
pub type Ran = Box<Call>;

/// The status of a call, and its objects after it.
#[derive(Drop)]
pub struct Call {
    pub status: u8,
    pub source: MemSource,
    pub out: MemSink,
    pub notes: MemSink,
    pub input: MemDevice,
    pub output: MemDevice,
    pub third: MemDevice,
}

/// What the objects of a call hold before it.
#[derive(Clone, Copy)]
pub struct Held<'a> {
    pub text: &'a [u8],
    pub input: &'a [Block],
    pub output: &'a [Block],
    pub third: &'a [Block],
}

/// The number of the call that fails, of each of these objects, and how many calls of each device are done before it
/// stops.
#[derive(Clone, Copy)]
pub struct Failing {
    pub source: Option<u64>,
    pub out: Option<u64>,
    pub notes: Option<u64>,
    pub input: Option<u64>,
    pub output: Option<u64>,
    pub third: Option<u64>,
    pub input_stops_after: u64,
    pub output_stops_after: u64,
    pub third_stops_after: u64,
}

pub const NOTHING_FAILS: Failing = Failing {
    source: None,
    out: None,
    notes: None,
    input: None,
    output: None,
    third: None,
    input_stops_after: u64::MAX,
    output_stops_after: u64::MAX,
    third_stops_after: u64::MAX,
};

/// Runs a tool over an image.
pub fn run(
    alloc: Global,
    words: &[&str],
    image: &[Block],
    failing: Failing,
) -> Result<Ran, AllocError> {
    let held = Held {
        text: b"",
        input: image,
        output: &[],
        third: &[],
    };
    run_over(alloc, words, held, failing)
}

/// Restores a text onto a device that holds these blocks.
pub fn restore(
    alloc: Global,
    text: &[u8],
    base: &[Block],
    failing: Failing,
) -> Result<Ran, AllocError> {
    let held = Held {
        text,
        input: &[],
        output: base,
        third: &[],
    };
    let words = ["thin_restore", "-i", "text", "-o", "image"];
    run_over(alloc, &words, held, failing)
}

/// The blocks that a restore of a text makes of so many blocks of zeros.
pub fn restored(alloc: Global, text: &str, blocks: usize) -> Result<Vec<Block>, AllocError> {
    let base = vec![in alloc; Block::zeros(); blocks]?;
    let made = restore(alloc, text.as_bytes(), base.as_slice(), NOTHING_FAILS)?;
    blocks_of(alloc, &made.output)
}

/// Runs a tool over objects that hold this.
pub fn run_over(
    alloc: Global,
    words: &[&str],
    held: Held<'_>,
    failing: Failing,
) -> Result<Ran, AllocError> {
    let texts = texts_of(alloc, words)?;
    let mut source = source(alloc, held.text, failing.source)?;
    let mut out = sink(alloc, failing.out)?;
    let mut notes = sink(alloc, failing.notes)?;
    let mut input = device(alloc, held.input, failing.input)?;
    input.stop_after(failing.input_stops_after);
    let mut output = device(alloc, held.output, failing.output)?;
    output.stop_after(failing.output_stops_after);
    let mut third = device(alloc, held.third, failing.third)?;
    third.stop_after(failing.third_stops_after);
    let status = run_tool(
        alloc,
        texts.as_slice(),
        &mut source,
        &mut out,
        &mut notes,
        &mut input,
        &mut output,
        &mut third,
    );
    let call = Call {
        status,
        source,
        out,
        notes,
        input,
        output,
        third,
    };
    Ok(Box::new(alloc, call)?)
}

/// The words as texts of their own.
pub fn texts_of(alloc: Global, words: &[&str]) -> Result<Vec<String>, AllocError> {
    let mut texts = Vec::new(alloc);
    for word in words {
        texts.push(String::from_str(alloc, word)?)?;
    }
    Ok(texts)
}

/// A source of these bytes, seven in a piece, of which this call fails.
fn source(alloc: Global, text: &[u8], failing: Option<u64>) -> Result<MemSource, AllocError>
    ensures { IfOk result (λ source. mem_source_state source ≡ unattached_source text.now) }
{
    let mut source = MemSource::of(alloc, text, 7)?;
    if let Some(call) = failing {
        source.fail_at(call)?;
    }
    Ok(source)
}

/// A sink of which this call fails.
fn sink(alloc: Global, failing: Option<u64>) -> Result<MemSink, AllocError>
    ensures { IfOk result (λ sink. mem_sink_state sink ≡ unattached_sink) }
{
    let mut sink = MemSink::new(alloc);
    if let Some(call) = failing {
        sink.fail_at(call)?;
    }
    Ok(sink)
}

/// A device of these blocks, of which this call fails.
fn device(alloc: Global, image: &[Block], failing: Option<u64>) -> Result<MemDevice, AllocError>
    ensures { IfOk result (λ device. mem_device_state device ≡ unattached_device (block_bytes image.now)) }
{
    let mut device = MemDevice::of(alloc, image)?;
    if let Some(call) = failing {
        device.fail_at(call)?;
    }
    Ok(device)
}

/// The blocks that a device holds.
pub fn blocks_of(alloc: Global, device: &MemDevice) -> Result<Vec<Block>, AllocError> {
    blocks_after_crash(alloc, device, Pick::New)
}

/// The blocks that a crash leaves where each block that isn't synced has what the pick says.
pub fn blocks_after_crash(
    alloc: Global,
    device: &MemDevice,
    pick: Pick,
) -> Result<Vec<Block>, AllocError> {
    let mut left = device.after_crash(alloc, pick)?;
    let mut blocks = Vec::new(alloc);
    if left.attach("image", false).is_ok() {
        for b in 0..left.blocks() {
            blocks.push(left.block(b))?;
        }
    }
    Ok(blocks)
}

// The three devices of shrinks and of writebacks.

/// What the blocks of a device are filled with, one number a block.
pub type Fill = &'static [u8];

/// Blocks that are filled so.
pub fn filled(alloc: Global, fill: &[u8]) -> Result<Vec<Block>, AllocError> {
    let mut blocks = Vec::new(alloc);
    for byte in fill {
        blocks.push(Block([*byte; BLOCK_SIZE]))?;
    }
    Ok(blocks)
}

/// The blocks of the metadata, of the output and of the third device.
#[derive(Drop)]
pub struct Devices {
    pub meta: Vec<Block>,
    pub output: Vec<Block>,
    pub third: Vec<Block>,
}

impl Devices {
    /// Such devices. They are boxed, as runs are: dropped in place, they are three paths at each exit.
    pub fn of(
        alloc: Global,
        meta: Vec<Block>,
        output: Vec<Block>,
        third: &[u8],
    ) -> Result<Box<Devices>, AllocError> {
        let devices = Devices {
            meta,
            output,
            third: filled(alloc, third)?,
        };
        Ok(Box::new(alloc, devices)?)
    }

    /// Runs a tool over them.
    pub fn run(&self, alloc: Global, words: &[&str], failing: Failing) -> Result<Ran, AllocError> {
        let held = Held {
            text: b"",
            input: self.meta.as_slice(),
            output: self.output.as_slice(),
            third: self.third.as_slice(),
        };
        run_over(alloc, words, held, failing)
    }
}

/// Whether metadata is as it was, where it may also be the new one, or have no valid superblock.
pub fn may_be_old(found: &[Block], old: &[Block], new: &[Block]) -> Option<bool> {
    let is_closed = match found.first() {
        Some(first) => !any_valid(first),
        None => false,
    };
    let is_old = found == old;
    if is_old | (found == new) | is_closed {
        Some(is_old)
    } else {
        None
    }
}
