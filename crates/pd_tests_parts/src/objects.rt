//! Devices in memory that the tests share. They are boxed, since a device that is dropped in place is a path for each of its
//! optional parts, at each `?` behind it.

ghost use Rattle.std.specs.Prelude.{◌≡◌, IfOk, length, if◌then◌else◌, ◌≤◌};
ghost use Rattle.pd_image.specs.Device.{IsWritable};
ghost use Rattle.pd_image.specs.MemObjects.{mem_device_state, mem_sink_state, mem_source_state};

use pd_image::{Device, MemDevice, MemSink, MemSource, Pick, Sink, Source};
use pd_kinds::{BLOCK_SIZE, Block};
use std::alloc::Global;
use std::test::Fail;

/// No call, and no number of calls that a test makes.
pub(crate) const NEVER: u64 = u64::MAX;

/// A device of these blocks, attached, of which this call fails, and each from the second number on.
pub(crate) fn device_of(
    alloc: Global,
    image: &[Block],
    write: bool,
    call: u64,
    stop: u64,
) -> Result<Box<MemDevice>, Fail>
    ensures access { IfOk result (λ device. (mem_device_state device.value).access ≡ (if write then 2 else 1)) }
    ensures blocks { IfOk result (λ device. (mem_device_state device.value).blocks ≡ length image.now) }
{
    let mut device = Box::new(alloc, MemDevice::of(alloc, image)?)?;
    device.fail_at(call)?;
    device.stop_after(stop);
    device.attach("thin.img", write)?;
    Ok(device)
}

/// A device of so many blocks of zeros, attached.
pub(crate) fn zeros_device(alloc: Global, blocks: u64) -> Result<Box<MemDevice>, Fail>
    ensures { IfOk result (λ device. IsWritable (mem_device_state device.value)) }
{
    let mut device = Box::new(alloc, MemDevice::new(alloc, blocks)?)?;
    device.attach("thin.img", true)?;
    Ok(device)
}

/// The three blocks that a crash now leaves by the pick.
pub(crate) fn three_left(
    alloc: Global,
    device: &MemDevice,
    pick: Pick,
) -> Result<Option<[Block; 3]>, Fail> {
    let mut after = Box::new(alloc, device.after_crash(alloc, pick)?)?;
    after.attach("x", false)?;
    if after.blocks() != 3 {
        return Ok(None);
    }
    Ok(Some([after.block(0), after.block(1), after.block(2)]))
}

/// Whether a crash now leaves three blocks by the pick, each full of its byte.
pub(crate) fn leaves(
    alloc: Global,
    device: &MemDevice,
    pick: Pick,
    bytes: [u8; 3],
) -> Result<bool, Fail> {
    let [first, second, third] = bytes;
    match three_left(alloc, device, pick)? {
        None => Ok(false),
        Some(left) => Ok(
            is_full(&left[0], first) && is_full(&left[1], second) && is_full(&left[2], third),
        ),
    }
}

/// Whether the block is full of the byte.
fn is_full(block: &Block, byte: u8) -> bool {
    *block == Block([byte; BLOCK_SIZE])
}

// What the tests of texts read from and print to. They are boxed, since a value of them that is dropped in place is a path
// for each of its optional parts, at each `?` behind it.

/// A source of this text, of which so many bytes come at a time.
pub(crate) fn source_of(alloc: Global, text: &[u8], piece: usize) -> Result<Box<MemSource>, Fail>
    requires { 1 ≤ piece }
    ensures { IfOk result (λ source. (mem_source_state source.value).access ≡ 1) }
{
    let mut source = Box::new(alloc, MemSource::of(alloc, text, piece)?)?;
    source.attach("a.txt")?;
    Ok(source)
}

/// A sink that is attached.
pub(crate) fn sink_of(alloc: Global) -> Result<Box<MemSink>, Fail>
    ensures { IfOk result (λ sink. (mem_sink_state sink.value).access ≡ 1) }
{
    let mut sink = Box::new(alloc, MemSink::new(alloc))?;
    sink.attach(None)?;
    Ok(sink)
}
