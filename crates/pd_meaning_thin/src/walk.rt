//! The walk over the trees of a pool's devices, which marks the nodes that they have, and those that they share.
//! Serves `thin_dump --shared`.

ghost use Rattle.std.specs.Prelude.{◌≡◌, ◌+◌, ◌<◌, ◌≤◌, [], ◌∷◌, ◌++◌, true, length, IfErr, IfSome, OnOk};
ghost use Rattle.pd_kinds.specs.declared.report.CheckFault.TheVariants.{Memory};
ghost use Rattle.pd_kinds.specs.CheckFault.{CountsCheckFault};
ghost use Rattle.pd_image.specs.Device.{IsAttached, OnlyReads};
ghost use Rattle.pd_tree.specs.Below.{kids_from};
ghost use Rattle.pd_tree.specs.Cursor.{cursor_items, cursor_nodes, root_of};
ghost use Rattle.pd_meaning_thin.specs.Walk.{roots_of, AreWalked, IsMet, walk_number};
ghost use Rattle.pd_meaning_thin.specs.Marks.{is_followed, mark_at, reads_left};

use crate::marks::Mark;
use pd_image::Device;
use pd_kinds::{Block, CheckFault};
use pd_node::{child, entries, is_inner};
use pd_tree::Cursor;
use pd_value::{BlockTime, Root};
use std::alloc::Global;

/// The children of an inner node wait; a leaf has none. Want of memory is the only error.
#[tactic(auto, unfolding(pd_tree::specs::Below::kids_from))]
fn add_children(waiting: &mut Vec<u64>, block: &Block) -> Result<(), CheckFault>
    ensures added { OnOk result (waiting.new.items ≡ waiting.old.items ++ kids_from 8 block.now.0 0) }
    ensures memory { IfErr result (λ fault. fault ≡ Memory) }
{
    if !is_inner(block) {
        return Ok(());
    }
    for i in 0..entries::<BlockTime>(block) {
        waiting.push(child::<BlockTime>(block, i))?;
    }
    Ok(())
}

/// Reads a node that is followed, and marks it; its children wait.
fn read_node<D: Device>(
    marks: &mut [Mark],
    waiting: &mut Vec<u64>,
    b: usize,
    dev: &mut D,
    block: &mut Block,
) -> Result<(), CheckFault>
    requires attached { IsAttached (D.state dev.old) }
    requires within { length marks.old ≤ (D.state dev.old).blocks }
    requires place { b < length marks.old }
    requires followed { is_followed (mark_at marks.old b) ≡ true }
    ensures met { OnOk result (IfSome (D.state dev.old).held
        (λ image. IsMet image b marks.old marks.new waiting.old.items waiting.new.items)) }
    ensures number { OnOk result (walk_number marks.new waiting.new.items ≤ walk_number marks.old waiting.old.items) }
    ensures same_number { length marks.new ≡ length marks.old }
    ensures reads { OnOk result ((D.state dev.new).reads + reads_left marks.new ≤ (D.state dev.old).reads + reads_left marks.old) }
    ensures reads_failed { (D.state dev.new).reads ≤ (D.state dev.old).reads + reads_left marks.old }
    ensures kept { OnlyReads (D.state dev.old) (D.state dev.new) }
    ensures faults { CountsCheckFault result (D.state dev.old).faults (D.state dev.new).faults }
{
    dev.read(b as u64, block)?;
    marks[b] = marks[b].after_read(block);
    add_children(waiting, block)
}

/// Meets a block once more, or for the first time: a node is read that wasn't met, and an inner one that the trees had
/// once. A block without a mark is passed over.
fn meet<D: Device>(
    marks: &mut [Mark],
    waiting: &mut Vec<u64>,
    b: u64,
    dev: &mut D,
    block: &mut Block,
) -> Result<(), CheckFault>
    requires attached { IsAttached (D.state dev.old) }
    requires within { length marks.old ≤ (D.state dev.old).blocks }
    ensures met { OnOk result (IfSome (D.state dev.old).held (λ image. b < length marks.old
        → IsMet image b marks.old marks.new waiting.old.items waiting.new.items)) }
    ensures number { OnOk result (walk_number marks.new waiting.new.items ≤ walk_number marks.old waiting.old.items) }
    ensures same_number { length marks.new ≡ length marks.old }
    ensures reads { OnOk result ((D.state dev.new).reads + reads_left marks.new ≤ (D.state dev.old).reads + reads_left marks.old) }
    ensures reads_failed { (D.state dev.new).reads ≤ (D.state dev.old).reads + reads_left marks.old }
    ensures kept { OnlyReads (D.state dev.old) (D.state dev.new) }
    ensures faults { CountsCheckFault result (D.state dev.old).faults (D.state dev.new).faults }
{
    if b >= marks.len() as u64 {
        return Ok(());
    }
    let place = b as usize;
    if marks[place].is_followed() {
        return read_node(marks, waiting, place, dev, block);
    }
    marks[place] = marks[place].after_pass();
    Ok(())
}

/// Walks over the tree with this root. What was shared before isn't looked into.
///
/// Each inner node is read twice at the most in all walks with the same marks, and each leaf once.
fn walk_tree<D: Device>(
    marks: &mut [Mark],
    waiting: &mut Vec<u64>,
    root: u64,
    dev: &mut D,
) -> Result<(), CheckFault>
    requires attached { IsAttached (D.state dev.old) }
    requires within { length marks.old ≤ (D.state dev.old).blocks }
    requires none { waiting.old.items ≡ [] }
    ensures none { OnOk result (waiting.new.items ≡ []) }
    ensures walked { OnOk result (IfSome (D.state dev.old).held (λ image. AreWalked image (root ∷ []) marks.old marks.new)) }
    ensures same_number { length marks.new ≡ length marks.old }
    ensures reads { OnOk result ((D.state dev.new).reads + reads_left marks.new ≤ (D.state dev.old).reads + reads_left marks.old) }
    ensures reads_failed { (D.state dev.new).reads ≤ (D.state dev.old).reads + reads_left marks.old }
    ensures kept { OnlyReads (D.state dev.old) (D.state dev.new) }
    ensures faults { CountsCheckFault result (D.state dev.old).faults (D.state dev.new).faults }
{
    waiting.push(root)?;
    let mut block = Block::zeros();
    while let Some(b) = waiting.pop() {
        meet(marks, waiting, b, dev, &mut block)?;
    }
    Ok(())
}

/// Walks over the trees of the devices that are left, one after another.
///
/// Each node of the mapping tree that is left is read once at the most, each inner node of a device's tree twice, and
/// each leaf once.
pub(crate) fn walk_devices<D: Device>(
    alloc: Global,
    marks: &mut [Mark],
    devices: &mut Cursor<Root>,
    dev: &mut D,
) -> Result<(), CheckFault>
    requires attached { IsAttached (D.state dev.old) }
    requires within { length marks.old ≤ (D.state dev.old).blocks }
    ensures walked { OnOk result (IfSome (D.state dev.old).held
        (λ image. AreWalked image (roots_of (cursor_items 8 root_of image devices.old)) marks.old marks.new)) }
    ensures same_number { length marks.new ≡ length marks.old }
    ensures reads { IfSome (D.state dev.old).held (λ image.
        (D.state dev.new).reads ≤ (D.state dev.old).reads + length (cursor_nodes 8 image devices.old) + reads_left marks.old) }
    ensures kept { OnlyReads (D.state dev.old) (D.state dev.new) }
    ensures faults { CountsCheckFault result (D.state dev.old).faults (D.state dev.new).faults }
{
    let mut waiting = Vec::new(alloc);
    while let Some((_, root)) = devices.next(dev)? {
        walk_tree(marks, &mut waiting, root.0, dev)?;
    }
    Ok(())
}
