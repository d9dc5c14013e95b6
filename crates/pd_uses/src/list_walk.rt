//! A walk over the trees of a pool's devices, for how many data blocks each of them alone uses (`thin_ls`).
//!
//! Each node is read twice at the most. A data block of a leaf that was met twice is used twice already, so that what a
//! third meeting tells changes no tally.

ghost use Rattle.std.specs.Prelude.{ℕ, ◌+◌, ◌-◌, ◌<◌, [], ◌++◌, Some, map, IfSome, OnOk, ◌≡◌, ◌≤◌};
ghost use Rattle.std.specs.Prelude.{◌∷◌, false, length, nat_lt, IfOk, IsTrue};
ghost use Rattle.pd_image.specs.Device.{IsAttached, OnlyReads};
ghost use Rattle.pd_tree.specs.Below.{items_below, nodes_below};
ghost use Rattle.pd_tree.specs.Stack.{child_weight, stack_items, stack_nodes, stack_number};
ghost use Rattle.pd_meaning_thin.specs.Runs.{rows_left, block_time_of};
ghost use Rattle.pd_meaning_thin.specs.Marks.{occurs};
ghost use Rattle.pd_query.specs.Query.{StartFails};
ghost use Rattle.pd_uses.specs.declared.tallies.Tallies.{Tallies as AllTallies};
ghost use Rattle.pd_uses.specs.ListWalk.{Walks, WalksRows, told_of, times_met};
ghost use Rattle.pd_uses.specs.Uses.{row_uses};

use crate::hits::DataUse;
use crate::tallies::Tallies;
use pd_image::Device;
use pd_meaning_thin::{DeviceRow, ThinDevices};
use pd_query::QueryFault;
use pd_tree::{Stack, Step};
use pd_value::BlockTime;
use std::alloc::{AllocError, Global};

/// Goes to a node, and reads it if the device has it, unless it was met twice before.
fn go_to<D: Device>(
    stack: &mut Stack,
    meets: &mut Meets,
    dev: &mut D,
    b: u64,
) -> Result<(), QueryFault>
    requires attached { IsAttached (D.state dev.old) }
    requires room { stack.old.depth < 64 }
    ensures walks { OnOk result (IfSome (D.state dev.old).held (λ image. (id : ℕ) (tallies : AllTallies) → Walks image
        (nodes_below 8 image (63 - stack.old.depth) b ++ stack_nodes 8 image stack.old) (stack_nodes 8 image stack.new)
        (told_of id (items_below 8 block_time_of image (63 - stack.old.depth) b ++ stack_items 8 block_time_of image stack.old))
        (told_of id (stack_items 8 block_time_of image stack.new)) meets.old meets.new tallies tallies)) }
    ensures number { OnOk result (stack_number 8 stack.new < stack_number 8 stack.old + child_weight (64 - stack.old.depth)) }
    ensures kept { OnlyReads (D.state dev.old) (D.state dev.new) }
    ensures faults { StartFails result (D.state dev.old).faults (D.state dev.new).faults }
{
    if meets.meet(b) {
        if b < dev.blocks() {
            return match stack.push::<BlockTime, D>(dev, b) {
                Ok(()) => Ok(()),
                Err(_) => Err(QueryFault::Device),
            };
        }
    }
    Ok(())
}

/// Tallies the uses that are left on the way, which a device has.
fn tally_left<D: Device>(
    id: u64,
    stack: &mut Stack,
    meets: &mut Meets,
    tallies: &mut Tallies,
    dev: &mut D,
) -> Result<(), QueryFault>
    requires { IsAttached (D.state dev.old) }
    ensures walks { OnOk result (IfSome (D.state dev.old).held (λ image. Walks image (stack_nodes 8 image stack.old) []
        (told_of id (stack_items 8 block_time_of image stack.old)) [] meets.old meets.new tallies.old tallies.new)) }
    ensures kept { OnlyReads (D.state dev.old) (D.state dev.new) }
    ensures faults { StartFails result (D.state dev.old).faults (D.state dev.new).faults }
{
    while !stack.is_empty() {
        match stack.step::<BlockTime>() {
            Step::Passed => {}
            Step::Child(b) => go_to(stack, meets, dev, b)?,
            Step::Entry(virt, mapping) => tallies.take(DataUse {
                block: mapping.block,
                id,
                virt,
            })?,
        }
    }
    Ok(())
}

/// Tallies the uses by a device.
fn tally_row<D: Device>(
    row: &DeviceRow,
    stack: &mut Stack,
    meets: &mut Meets,
    tallies: &mut Tallies,
    dev: &mut D,
) -> Result<(), QueryFault>
    requires { IsAttached (D.state dev.old) }
    ensures walks { OnOk result (IfSome (D.state dev.old).held (λ image. Walks image (nodes_below 8 image 63 row.now.root) []
        (map Some (row_uses image row.now)) [] meets.old meets.new tallies.old tallies.new)) }
    ensures kept { OnlyReads (D.state dev.old) (D.state dev.new) }
    ensures faults { StartFails result (D.state dev.old).faults (D.state dev.new).faults }
{
    stack.clear();
    go_to(stack, meets, dev, row.root)?;
    tally_left(row.id, stack, meets, tallies, dev)
}

/// Tallies the devices that are left, and the uses by each of them.
pub(crate) fn tally_rows<D: Device>(
    devices: &mut ThinDevices,
    stack: &mut Stack,
    meets: &mut Meets,
    tallies: &mut Tallies,
    dev: &mut D,
) -> Result<(), QueryFault>
    requires { IsAttached (D.state dev.old) }
    ensures walks { OnOk result (IfSome (D.state dev.old).held
        (λ image. WalksRows image (rows_left image devices.old) [] meets.old meets.new tallies.old tallies.new)) }
    ensures kept { OnlyReads (D.state dev.old) (D.state dev.new) }
    ensures faults { StartFails result (D.state dev.old).faults (D.state dev.new).faults }
{
    loop {
        let row = match devices.next(dev) {
            Ok(row) => row,
            Err(_) => return Err(QueryFault::Device),
        };
        match row {
            Some(row) => {
                tallies.begin()?;
                tally_row(&row, stack, meets, tallies, dev)?;
            }
            None => return Ok(()),
        }
    }
}

// How often nodes were met (`thin_ls`).

/// How often a node is met at the most before it is passed over.
const OFTEN: u8 = 2;

/// How often each metadata block was met as a node of a pool's trees, up to twice: a byte a block. A block that it
/// doesn't have counts as one that was never met.
#[derive(Drop)]
pub(crate) struct Meets {
    counts: Vec<u8>,
}

impl Meets {
    /// No meets of so many blocks.
    pub(crate) fn new(alloc: Global, blocks: u64) -> Result<Meets, AllocError>
        ensures none { IfOk result (λ meets. (b : ℕ) → times_met meets b ≡ 0) }
        ensures blocks { IfOk result (λ meets. length meets.counts.items ≡ blocks) }
    {
        let mut counts = Vec::new(alloc);
        counts.resize(blocks as usize, 0)?;
        Ok(Meets { counts })
    }

    /// Meets a block once more, unless it was met twice before: then nothing changes, and it says false.
    pub(crate) fn meet(&mut self, b: u64) -> bool
        ensures first { result ≡ nat_lt (times_met self.old b) 2 }
        ensures passed { result ≡ false → self.new ≡ self.old }
        ensures met { IsTrue result → b < length self.old.counts.items → times_met self.new b ≡ times_met self.old b + 1 }
        ensures counts { (c : ℕ) → times_met self.new c ≤ times_met self.old c + occurs c (b ∷ []) }
    {
        let place = b as usize;
        if place >= self.counts.len() {
            return true;
        }
        let met = self.counts[place];
        if met >= OFTEN {
            return false;
        }
        self.counts[place] = met + 1;
        true
    }
}
