//! The search for the next part of a tree of mappings (`thin_dump --shared`).

ghost use Rattle.std.specs.Prelude.{◌≡◌, ◌+◌, ◌-◌, ◌<◌, ◌≤◌, ◌++◌, length, IfOk, IfSome, OnOk};
ghost use Rattle.pd_kinds.specs.Objects.{CountsFault};
ghost use Rattle.pd_image.specs.Device.{IsAttached, OnlyReads};
ghost use Rattle.pd_tree.specs.Stack.{stack_number, child_weight};
ghost use Rattle.pd_meaning_thin.specs.Walk.{shared_blocks};
ghost use Rattle.pd_meaning_thin.specs.Pieces.{IsNextPart, met_leaf, parts_below, read_below, stack_parts, stack_reads};

use crate::find::SharedLeaves;
use crate::parts::Found;
use pd_image::{Device, Failed};
use pd_tree::{Stack, Step};
use pd_value::BlockTime;

/// Goes to a block: gives its number where it is a shared leaf, else reads it where it is on the device.
pub(crate) fn go_to<D: Device>(
    stack: &mut Stack,
    shared: &SharedLeaves,
    dev: &mut D,
    b: u64,
) -> Result<Option<u64>, Failed>
    requires attached { IsAttached (D.state dev.old) }
    requires room { stack.old.depth < 64 }
    ensures parts { IfOk result (λ number. IfSome (D.state dev.old).held (λ image.
        met_leaf number ++ stack_parts (shared_blocks shared.now) image stack.new
        ≡ parts_below (shared_blocks shared.now) image (63 - stack.old.depth) b
        ++ stack_parts (shared_blocks shared.now) image stack.old)) }
    ensures reads { IfSome (D.state dev.old).held (λ image. OnOk result (
        (D.state dev.new).reads + stack_reads (shared_blocks shared.now) image stack.new
        ≤ (D.state dev.old).reads + (length (read_below (shared_blocks shared.now) image (63 - stack.old.depth) b)
        + stack_reads (shared_blocks shared.now) image stack.old))) }
    ensures reads_failed { IfSome (D.state dev.old).held (λ image.
        (D.state dev.new).reads ≤ (D.state dev.old).reads + length (read_below (shared_blocks shared.now) image (63 - stack.old.depth) b)) }
    ensures number { OnOk result (stack_number 8 stack.new < stack_number 8 stack.old + child_weight (64 - stack.old.depth)) }
    ensures kept { OnlyReads (D.state dev.old) (D.state dev.new) }
    ensures faults { CountsFault result (D.state dev.old).faults (D.state dev.new).faults }
{
    match shared.number(b) {
        Some(number) => Ok(Some(number)),
        None => {
            if b < dev.blocks() {
                stack.push::<BlockTime, D>(dev, b)?;
            }
            Ok(None)
        }
    }
}

/// Goes on to the next part, and reads the nodes on the way to it.
pub(crate) fn next_part<D: Device>(
    stack: &mut Stack,
    shared: &SharedLeaves,
    dev: &mut D,
) -> Result<Option<Found>, Failed>
    requires attached { IsAttached (D.state dev.old) }
    ensures next { IfOk result (λ part. IfSome (D.state dev.old).held (λ image.
        IsNextPart part (stack_parts (shared_blocks shared.now) image stack.old)
        (stack_parts (shared_blocks shared.now) image stack.new))) }
    ensures reads { IfSome (D.state dev.old).held (λ image. OnOk result (
        (D.state dev.new).reads + stack_reads (shared_blocks shared.now) image stack.new
        ≤ (D.state dev.old).reads + stack_reads (shared_blocks shared.now) image stack.old)) }
    ensures reads_failed { IfSome (D.state dev.old).held (λ image.
        (D.state dev.new).reads ≤ (D.state dev.old).reads + stack_reads (shared_blocks shared.now) image stack.old) }
    ensures number { IfOk result (λ part. IfSome part (λ _. stack_number 8 stack.new < stack_number 8 stack.old)) }
    ensures number_kept { OnOk result (stack_number 8 stack.new ≤ stack_number 8 stack.old) }
    ensures kept { OnlyReads (D.state dev.old) (D.state dev.new) }
    ensures faults { CountsFault result (D.state dev.old).faults (D.state dev.new).faults }
{
    while !stack.is_empty() {
        match stack.step::<BlockTime>() {
            Step::Passed => {}
            Step::Child(b) => {
                if let Some(number) = go_to(stack, shared, dev, b)? {
                    return Ok(Some(Found::SharedLeaf(number)));
                }
            }
            Step::Entry(virt, mapping) => return Ok(Some(Found::Mapping(virt, mapping))),
        }
    }
    Ok(None)
}
