//! build_tests.

ghost use Rattle.std.specs.Prelude.{◌≤◌, ◌≡◌, ◌+◌, IfOk, OnOk, true};
ghost use Rattle.std.specs.List.{All};
ghost use Rattle.pd_kinds.specs.Node.{is_ascending};
ghost use Rattle.pd_grammar.specs.Need.{need_array};
ghost use Rattle.pd_node.specs.Items.{keys_of};
ghost use Rattle.pd_image.specs.Device.{IsWritable, IsAttached, KeepsPlace};
ghost use Rattle.pd_image.specs.MemObjects.{mem_device_state};
ghost use Rattle.pd_draft.specs.Closed.{IsClosed};
ghost use Rattle.pd_draft.specs.DraftState.{draft_state};

use crate::objects::{NEVER, device_of, zeros_device};
use pd_array::Word;
use pd_build::{ArrayBuilder, BuildFault, need_tree, need_upper, write_tree};
use pd_draft::{Draft, clear};
use pd_image::{Device, MemDevice, Pick};
use pd_kinds::{BLOCK_SIZE, Block};
use pd_node::entries;
use pd_tree::{ArrayCursor, Cursor};
use pd_value::{BlockTime, Root, Value};
use std::alloc::{AllocError, Global};
use std::process::Abort;
use std::test::Fail;

/// Numbers of items, and the place of the root: the tree stands from block 1 on, and its root comes last.
const TREES: &[(u64, u64)] = &[
    (0, 1),
    (1, 1),
    (252, 1),
    (253, 3),
    (504, 3),
    (505, 4),
    (63504, 253),
    (63505, 256),
];

/// Numbers of words, and the place of the root.
const ARRAYS: &[(u64, u64)] = &[(0, 1), (509, 2), (510, 3), (1018, 3)];

#[test]
fn needs_are_those_of_the_worked_numbers(rt: HostRuntime) -> Result<(), Fail> {
    assert!(rt; need_tree(0, 252) == 1);
    assert!(rt; need_tree(253, 252) == 3);
    assert!(rt; need_tree(63505, 252) == 256);
    assert!(rt; need_upper(1) == 0);
    assert!(rt; need_upper(253) == 3);
    Ok(())
}

/// Builds a tree of so many items, whose root is this block, and reads it back.
fn expect_tree(rt: &impl Abort, alloc: Global, count: u64, last: u64) -> Result<(), Fail> {
    let items = numbered(alloc, count)?;
    let mut dev = zeros_device(alloc, 257)?;
    assert!(rt; last < dev.blocks());
    let is_built = build_tree(alloc, &mut *dev, &items) == Ok(last);
    let is_read = has_numbers(alloc, &mut *dev, last, count)?;
    assert!(rt; is_built & is_read, "{count}");
    Ok(())
}

#[test]
fn trees_are_read_back(rt: HostRuntime) -> Result<(), Fail> {
    for tree in TREES {
        let (count, last) = *tree;
        expect_tree(&rt, rt.alloc(), count, last)?;
    }
    Ok(())
}

#[test]
fn leaves_of_253_items_have_127_and_126(rt: HostRuntime) -> Result<(), Fail> {
    let items = numbered(rt.alloc(), 253)?;
    let mut dev = zeros_device(rt.alloc(), 4)?;
    assert!(rt; dev.blocks() >= 3);
    let is_built = build_tree(rt.alloc(), &mut *dev, &items) == Ok(3);
    let first = entries::<BlockTime>(&dev.block(1));
    let second = entries::<BlockTime>(&dev.block(2));
    assert!(rt; is_built & (first == 127) & (second == 126));
    Ok(())
}

/// Builds an array of so many words, whose root is this block, and reads it back.
fn expect_array(rt: &impl Abort, alloc: Global, count: u64, last: u64) -> Result<(), Fail> {
    let mut dev = zeros_device(alloc, 4)?;
    assert!(rt; last < dev.blocks());
    let is_built = build_array(alloc, &mut *dev, count) == Ok(last);
    let is_read = has_words(alloc, &mut *dev, last, count)?;
    assert!(rt; is_built & is_read, "{count}");
    Ok(())
}

#[test]
fn arrays_are_read_back(rt: HostRuntime) -> Result<(), Fail> {
    for array in ARRAYS {
        let (count, last) = *array;
        expect_array(&rt, rt.alloc(), count, last)?;
    }
    Ok(())
}

const OLD: [Block; 4] = [
    Block([9; BLOCK_SIZE]),
    Block([8; BLOCK_SIZE]),
    Block([7; BLOCK_SIZE]),
    Block([6; BLOCK_SIZE]),
];

/// A part that is built in three blocks: a tree of 253 items, or an array of 510 words.
#[derive(Clone, Copy)]
enum Part {
    Tree,
    Array,
}

/// Builds a part from block 1 on.
fn build(alloc: Global, dev: &mut MemDevice, part: Part) -> Result<Result<u64, BuildFault>, Fail>
    requires writable { IsWritable (mem_device_state dev.old) }
    requires some { 1 ≤ (mem_device_state dev.old).blocks }
{
    match part {
        Part::Tree => {
            let items = numbered(alloc, 253)?;
            Ok(build_tree(alloc, dev, &items))
        }
        Part::Array => Ok(build_array(alloc, dev, 510)),
    }
}

/// Builds a part over the old image, of which this call fails. The calls are 0 for attaching, two for closing block 0, and one
/// for each of the part's three blocks.
fn expect_no_superblock(rt: &impl Abort, alloc: Global, part: Part, call: u64) -> Result<(), Fail> {
    let mut dev = device_of(alloc, &OLD, true, call, NEVER)?;
    assert!(rt; dev.blocks() >= 1);
    let wanted = if call <= 5 {
        Err(BuildFault::Device)
    } else {
        Ok(3)
    };
    let is_told = build(alloc, &mut *dev, part)? == wanted;
    let is_safe = is_closed(alloc, &dev, &OLD[0], call)?;
    assert!(rt; is_told & is_safe, "{call}");
    Ok(())
}

#[test]
fn a_failing_call_leaves_no_superblock(rt: HostRuntime) -> Result<(), Fail> {
    for call in 1..8 {
        expect_no_superblock(&rt, rt.alloc(), Part::Tree, call)?;
        expect_no_superblock(&rt, rt.alloc(), Part::Array, call)?;
    }
    Ok(())
}

// Trees and arrays of numbers, built from block 1 on, and read back.

/// So many items: each number as its key and its value.
pub(crate) fn numbered(alloc: Global, count: u64) -> Result<Vec<(u64, Root)>, AllocError>
    ensures ascend { IfOk result (λ items. is_ascending (keys_of items.items) ≡ true) }
    ensures fit { IfOk result (λ items. All (λ item. ⟦<Root as Value>⟧.fitting item.1 ≡ true) items.items) }
{
    let mut items = Vec::new(alloc);
    for i in 0..count {
        items.push((i, Root(i)))?;
    }
    Ok(items)
}

/// Zeroes block 0.
pub(crate) fn close<D: Device>(dev: &mut D) -> Result<(), BuildFault>
    requires writable { IsWritable (D.state dev.old) }
    requires some { 1 ≤ (D.state dev.old).blocks }
    ensures closed { OnOk result (IsClosed (D.state dev.new)) }
    ensures kept { KeepsPlace (D.state dev.old) (D.state dev.new) }
{
    match clear(dev) {
        Ok(()) => Ok(()),
        Err(_) => Err(BuildFault::Device),
    }
}

/// Builds the tree of the items from block 1 on. It answers Memory where the device has no room.
pub(crate) fn build_tree<D: Device>(
    alloc: Global,
    dev: &mut D,
    items: &[(u64, Root)],
) -> Result<u64, BuildFault>
    requires writable { IsWritable (D.state dev.old) }
    requires some { 1 ≤ (D.state dev.old).blocks }
    requires ascend { is_ascending (keys_of items.now) ≡ true }
    requires fit { All (λ item. ⟦<Root as Value>⟧.fitting item.1 ≡ true) items.now }
    ensures kept { KeepsPlace (D.state dev.old) (D.state dev.new) }
{
    close(dev)?;
    put_tree(alloc, dev, items)
}

fn put_tree<D: Device>(alloc: Global, dev: &mut D, items: &[(u64, Root)]) -> Result<u64, BuildFault>
    requires writable { IsWritable (D.state dev.old) }
    requires closed { IsClosed (D.state dev.old) }
    requires ascend { is_ascending (keys_of items.now) ≡ true }
    requires fit { All (λ item. ⟦<Root as Value>⟧.fitting item.1 ≡ true) items.now }
    ensures kept { KeepsPlace (D.state dev.old) (D.state dev.new) }
{
    let mut draft = Draft::on_closed(dev);
    if need_tree(items.len() as u64, 252) >= draft.blocks() {
        return Err(BuildFault::Memory);
    }
    write_tree(alloc, &mut draft, items)
}

/// Whether the tree has just these items.
pub(crate) fn has_numbers<D: Device>(
    alloc: Global,
    dev: &mut D,
    root: u64,
    count: u64,
) -> Result<bool, Fail>
    requires attached { IsAttached (D.state dev.old) }
{
    let mut cursor = Cursor::<Root>::start(alloc, root)?;
    for i in 0..count {
        if cursor.next(dev)? != Some((i, Root(i))) {
            return Ok(false);
        }
    }
    Ok(cursor.next(dev)?.is_none())
}

/// Builds the array of so many words of eight bytes, each its own number, from block 1 on. It answers Memory where
/// the device has no room.
pub(crate) fn build_array<D: Device>(
    alloc: Global,
    dev: &mut D,
    count: u64,
) -> Result<u64, BuildFault>
    requires writable { IsWritable (D.state dev.old) }
    requires some { 1 ≤ (D.state dev.old).blocks }
    ensures kept { KeepsPlace (D.state dev.old) (D.state dev.new) }
{
    close(dev)?;
    put_array(alloc, dev, count)
}

fn put_array<D: Device>(alloc: Global, dev: &mut D, count: u64) -> Result<u64, BuildFault>
    requires writable { IsWritable (D.state dev.old) }
    requires closed { IsClosed (D.state dev.old) }
    ensures kept { KeepsPlace (D.state dev.old) (D.state dev.new) }
{
    let mut draft = Draft::on_closed(dev);
    let blocks = count.div_ceil(509);
    let above = need_tree(blocks, 252);
    let room = draft.blocks();
    if above >= room {
        return Err(BuildFault::Memory);
    }
    if blocks >= room - above {
        return Err(BuildFault::Memory);
    }
    push_numbers(alloc, &mut draft, count)
}

fn push_numbers<D: Device>(
    alloc: Global,
    draft: &mut Draft<'_, D>,
    count: u64,
) -> Result<u64, BuildFault>
    requires writable { IsWritable (draft_state draft.old).device }
    requires room { draft.old.next + need_array 8 count ≤ (draft_state draft.old).device.blocks }
    requires closed { IsClosed (draft_state draft.old).device }
    ensures same_reference { draft.new.dev.ghost_name ≡ draft.old.dev.ghost_name }
    ensures kept { KeepsPlace (draft_state draft.old).device (draft_state draft.new).device }
{
    let mut builder = match ArrayBuilder::new(alloc, count, Word::Eight) {
        Ok(builder) => builder,
        Err(_) => return Err(BuildFault::Memory),
    };
    for i in 0..count {
        builder.push(draft, i)?;
    }
    builder.finish(draft)
}

/// Whether the array has just these words.
pub(crate) fn has_words<D: Device>(
    alloc: Global,
    dev: &mut D,
    root: u64,
    count: u64,
) -> Result<bool, Fail>
    requires attached { IsAttached (D.state dev.old) }
{
    let mut cursor = ArrayCursor::start(alloc, root, Word::Eight)?;
    for i in 0..count {
        if cursor.next(dev)? != Some(i) {
            return Ok(false);
        }
    }
    Ok(cursor.next(dev)?.is_none())
}

/// Whether block 0 is zeros as a crash now may leave it by the pick. Where one of the two calls that close it fails, it may
/// still be the old one.
fn is_closed_by(
    alloc: Global,
    dev: &MemDevice,
    old: &Block,
    call: u64,
    pick: Pick,
) -> Result<bool, Fail> {
    let mut after = Box::new(alloc, dev.after_crash(alloc, pick)?)?;
    after.attach("x", false)?;
    if after.blocks() == 0 {
        return Ok(false);
    }
    let first = after.block(0);
    Ok(first == Block::zeros() || (call <= 2 && first == *old))
}

/// The same by each pick.
pub(crate) fn is_closed(
    alloc: Global,
    dev: &MemDevice,
    old: &Block,
    call: u64,
) -> Result<bool, Fail> {
    let old_kept = is_closed_by(alloc, dev, old, call, Pick::Old)?;
    let new_kept = is_closed_by(alloc, dev, old, call, Pick::New)?;
    Ok(old_kept & new_kept)
}
