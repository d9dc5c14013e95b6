//! draft_tests.

ghost use Rattle.std.specs.Prelude.{◌≤◌, OnOk};
ghost use Rattle.pd_image.specs.Device.{IsWritable, KeepsPlace};

use crate::objects::{NEVER, device_of, three_left};
use crate::small_restore;
use pd_draft::{Rewrite, rewrite_super};
use pd_image::{Device, Failed, MemDevice, Pick};
use pd_kinds::{BLOCK_SIZE, Block};
use std::alloc::Global;
use std::process::Abort;
use std::test::Fail;

const OLD: [Block; 3] = [
    Block([9; BLOCK_SIZE]),
    Block([8; BLOCK_SIZE]),
    Block([7; BLOCK_SIZE]),
];

const NEW: [Block; 3] = [
    Block([1; BLOCK_SIZE]),
    Block([2; BLOCK_SIZE]),
    Block([3; BLOCK_SIZE]),
];

/// Makes the new image: seven calls of the device.
fn restore<D: Device>(dev: &mut D) -> Result<(), Failed>
    requires writable { IsWritable (D.state dev.old) }
    requires room { 3 ≤ (D.state dev.old).blocks }
{
    let [super_block, first, second] = NEW;
    small_restore::restore(dev, &[first, second], &super_block)
}

/// What a device holds.
#[derive(Clone, Copy, Debug, PartialEq, Eq)]
enum Found {
    Old,
    Closed,
    New,
    Other,
}

/// What a crash now leaves by the pick.
fn crash(alloc: Global, dev: &MemDevice, pick: Pick) -> Result<Found, Fail> {
    match three_left(alloc, dev, pick)? {
        None => Ok(Found::Other),
        Some(blocks) => Ok(found_in(&blocks)),
    }
}

/// What these blocks are.
fn found_in(blocks: &[Block; 3]) -> Found {
    if *blocks == OLD {
        Found::Old
    } else if *blocks == NEW {
        Found::New
    } else if blocks[0] == Block::zeros() {
        Found::Closed
    } else {
        Found::Other
    }
}

/// Makes the new image over the old one, with this call failing, and each from the second number on: whether it is made, and
/// what a crash leaves then by each pick.
fn outcomes(alloc: Global, call: u64, stop: u64) -> Result<(bool, [Found; 3]), Fail> {
    let mut dev = device_of(alloc, &OLD, true, call, stop)?;
    let done = restore(&mut *dev).is_ok();
    let old = crash(alloc, &dev, Pick::Old)?;
    let new = crash(alloc, &dev, Pick::New)?;
    let other = crash(alloc, &dev, Pick::Other(0))?;
    Ok((done, [old, new, other]))
}

/// Makes the new image with this call failing.
fn expect_outcome(rt: &impl Abort, alloc: Global, call: u64) -> Result<(), Fail> {
    let (done, found) = outcomes(alloc, call, NEVER)?;
    let is_told = done == (call > 7);
    let is_outcome = !found.contains(&Found::Other);
    let is_new = call <= 7 || found == [Found::New; 3];
    assert!(rt; is_told & is_outcome & is_new, "{call}");
    Ok(())
}

#[test]
fn a_failing_call_leaves_an_outcome(rt: HostRuntime) -> Result<(), Fail> {
    for call in 1..10 {
        expect_outcome(&rt, rt.alloc(), call)?;
    }
    Ok(())
}

/// What a stop after so many calls leaves: one of these two.
fn left_by(calls: u64) -> (Found, Found) {
    match calls {
        1 => (Found::Old, Found::Old),
        2 => (Found::Old, Found::Closed),
        3..=6 => (Found::Closed, Found::Closed),
        7 => (Found::Closed, Found::New),
        _ => (Found::New, Found::New),
    }
}

/// Makes the new image with a stop after so many calls.
fn expect_stopped(rt: &impl Abort, alloc: Global, calls: u64) -> Result<(), Fail> {
    let (done, found) = outcomes(alloc, NEVER, calls)?;
    let (one, two) = left_by(calls);
    let is_told = done == (calls == 8);
    let is_outcome = found.iter().all(|f| *f == one || *f == two);
    assert!(rt; is_told & is_outcome, "{calls}");
    Ok(())
}

#[test]
fn a_stop_leaves_an_outcome(rt: HostRuntime) -> Result<(), Fail> {
    for calls in 1..9 {
        expect_stopped(&rt, rt.alloc(), calls)?;
    }
    Ok(())
}

/// Replaces block 2 by block 1, and the superblock.
fn replace<D: Device>(dev: &mut D) -> Result<(), Failed>
    requires writable { IsWritable (D.state dev.old) }
    requires room { 3 ≤ (D.state dev.old).blocks }
    ensures kept { OnOk result (KeepsPlace (D.state dev.old) (D.state dev.new)) }
{
    let mut rewrite = Rewrite::start(dev)?;
    let mut block = Block::zeros();
    rewrite.read(1, &mut block)?;
    rewrite.replace(2, &block)?;
    rewrite.commit(&NEW[0])
}

/// The same, and then the superblock again.
fn replace_twice<D: Device>(dev: &mut D) -> Result<(), Failed>
    requires writable { IsWritable (D.state dev.old) }
    requires room { 3 ≤ (D.state dev.old).blocks }
{
    replace(dev)?;
    rewrite_super(dev, &NEW[1])
}

#[test]
fn an_image_is_changed_where_it_stands(rt: HostRuntime) -> Result<(), Fail> {
    let mut dev = device_of(rt.alloc(), &OLD, true, NEVER, NEVER)?;
    let is_done = replace(&mut *dev).is_ok();
    let once = three_left(rt.alloc(), &dev, Pick::New)?;
    assert!(rt; is_done & (once == Some([NEW[0], OLD[1], OLD[1]])));
    let mut dev = device_of(rt.alloc(), &OLD, true, NEVER, NEVER)?;
    let is_done = replace_twice(&mut *dev).is_ok();
    let twice = three_left(rt.alloc(), &dev, Pick::New)?;
    assert!(rt; is_done & (twice == Some([NEW[1], OLD[1], OLD[1]])));
    Ok(())
}
