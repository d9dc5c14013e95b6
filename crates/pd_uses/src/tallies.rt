//! How many data blocks each device of a pool alone uses, tallied as the uses are gone through (`thin_ls`).

ghost use Rattle.std.specs.Prelude.{◌≡◌, ◌-◌, ◌^◌, ◌<◌, [], ◌∷◌, ◌++◌, None, Some, List, Option, length, IfOk, OnOk, IfSome};
ghost use Rattle.pd_kinds.specs.declared.kind.Kind.TheVariants.{Thin};
ghost use Rattle.pd_kinds.specs.declared.kind.Stage.TheVariants.{Whole};
ghost use Rattle.pd_kinds.specs.Graph.{block_at};
ghost use Rattle.pd_kinds.specs.Stages.{faults};
ghost use Rattle.pd_kinds.specs.ThinFormat.{thin_fields};
ghost use Rattle.pd_image.specs.Device.{IsAttached, OnlyReads};
ghost use Rattle.pd_count.specs.Counted.{PutsNumber};
ghost use Rattle.pd_meaning_thin.specs.Given.{super_rows};
ghost use Rattle.pd_query.specs.Query.{StartFails};
ghost use Rattle.pd_uses.specs.declared.hits.DataUse.{DataUse as OneUse};
ghost use Rattle.pd_uses.specs.ListWalk.{IsTallied, lowered_at, raised_at, TalliesRows, AreExclusive};

use crate::hits::DataUse;
use crate::list_walk::{Meets, tally_rows};
use pd_count::Counts;
use pd_image::Device;
use pd_kinds::{MAX_META_BLOCKS, ThinSuper};
use pd_meaning_thin::{ThinDevices, leaves_are_below_roots, pieces_are_those_of_the_shape};
use pd_query::QueryFault;
use pd_tree::Stack;
use std::alloc::{AllocError, Global};

/// What is noted of a data block that nobody uses.
const NOBODY: u32 = 0;

/// What is noted of a data block that is used twice or more. Of one that is used once the place of its device among the
/// devices is noted, and 1 more.
const SEVERAL: u32 = u32::MAX;

/// A number for each data block, which tells who uses it, and for each device that was begun how many blocks it alone
/// uses, and once: 8 bytes a device beside the table of users.
#[derive(Drop)]
pub(crate) struct Tallies {
    users: Counts,
    exclusive: Vec<u64>,
}

impl Tallies {
    ghost use Rattle.pd_uses.specs.declared.tallies.Tallies.{Tallies};
    ghost use Rattle.pd_uses.specs.ListWalk.{HasTallied};

    /// No uses of so many data blocks, and no devices.
    pub(crate) fn new(alloc: Global, blocks: u64) -> Result<Tallies, AllocError>
        ensures size { IfOk result (λ tallies. tallies.users.size ≡ blocks) }
        ensures devices { IfOk result (λ tallies. tallies.exclusive.items ≡ []) }
        ensures tallied { IfOk result (λ tallies. IsTallied [] tallies.users tallies.exclusive.items) }
    {
        Ok(Tallies {
            users: Counts::new(alloc, blocks)?,
            exclusive: Vec::new(alloc),
        })
    }

    /// The tallies of the devices, in their order.
    pub(crate) fn into_exclusive(self) -> Vec<u64>
        ensures { result.items ≡ self.exclusive.items }
    {
        self.exclusive
    }

    /// Notes the first use of a block, by the last device. More than 2^32 - 2 devices are taken for want of memory.
    fn first_use(&mut self, block: u64) -> Result<(), AllocError>
        requires { block < self.old.users.size }
        ensures few { OnOk result (length self.old.exclusive.items < 2 ^ 32 - 1) }
        ensures some { OnOk result (0 < length self.old.exclusive.items) }
        ensures user { OnOk result (PutsNumber block (length self.old.exclusive.items) self.old.users self.new.users) }
        ensures tally { OnOk result (self.new.exclusive.items ≡ raised_at (length self.old.exclusive.items - 1) self.old.exclusive.items) }
    {
        let devices = self.exclusive.len();
        if devices == 0 || devices >= SEVERAL as usize {
            return Err(AllocError);
        }
        self.users.set(block, devices as u32)?;
        let last = devices - 1;
        self.exclusive[last] = self.exclusive[last].saturating_add(1);
        Ok(())
    }

    /// Notes the second use of a block, which one device used before.
    fn second_use(&mut self, block: u64, user: u32) -> Result<(), AllocError>
        requires block { block < self.old.users.size }
        requires user { 0 < user }
        ensures user { OnOk result (PutsNumber block (2 ^ 32 - 1) self.old.users self.new.users) }
        ensures tally { OnOk result (self.new.exclusive.items ≡ lowered_at (user - 1) self.old.exclusive.items) }
    {
        self.users.set(block, SEVERAL)?;
        let place = (user - 1) as usize;
        if place < self.exclusive.len() {
            self.exclusive[place] = self.exclusive[place].saturating_sub(1);
        }
        Ok(())
    }

    /// Begins a device behind the others.
    pub(crate) fn begin(&mut self) -> Result<(), AllocError>
        ensures { OnOk result ((start : Tallies) (before : List (Option OneUse))
            → HasTallied start before self.old → HasTallied start (before ++ (None ∷ [])) self.new) }
    {
        self.exclusive.push(0)?;
        Ok(())
    }

    /// Tallies the use, by the last device, if the pool has the block.
    pub(crate) fn take(&mut self, one: DataUse) -> Result<(), AllocError>
        ensures { OnOk result ((start : Tallies) (before : List (Option OneUse))
            → HasTallied start before self.old → HasTallied start (before ++ (Some one ∷ [])) self.new) }
    {
        if one.block >= self.users.size() {
            return Ok(());
        }
        let user = self.users.get(one.block);
        if user == NOBODY {
            self.first_use(one.block)
        } else if user < SEVERAL {
            self.second_use(one.block, user)
        } else {
            Ok(())
        }
    }
}

// How many data blocks each device of a pool alone uses (`thin_ls`).

/// Tallies the devices of the pool with this superblock, in the memory of a way through a tree and of two cursors, and
/// of a byte for each metadata block.
fn tally_pool<D: Device>(
    alloc: Global,
    s: &ThinSuper,
    dev: &mut D,
    tallies: &mut Tallies,
) -> Result<(), QueryFault>
    requires { IsAttached (D.state dev.old) }
    ensures walks { OnOk result (IfSome (D.state dev.old).held
        (λ image. TalliesRows image (super_rows image s.now) tallies.old tallies.new)) }
    ensures kept { OnlyReads (D.state dev.old) (D.state dev.new) }
    ensures faults { StartFails result (D.state dev.old).faults (D.state dev.new).faults }
{
    let blocks = dev.blocks().min(s.meta_map.blocks).min(MAX_META_BLOCKS);
    let mut meets = Meets::new(alloc, blocks)?;
    let mut stack = Stack::new(alloc)?;
    let mut devices = ThinDevices::start(alloc, s)?;
    tally_rows(&mut devices, &mut stack, &mut meets, tallies, dev)
}

/// How many blocks each device of the pool with this superblock alone uses, by the order of the devices, if the image has
/// no faults. It reads no node of the devices' trees more often than twice.
pub(crate) fn exclusive_blocks<D: Device>(
    alloc: Global,
    dev: &mut D,
    s: &ThinSuper,
) -> Result<Vec<u64>, QueryFault>
    requires { IsAttached (D.state dev.old) }
    ensures exclusive { IfOk result (λ tallies. IfSome (D.state dev.old).held
        (λ image. faults Thin Whole image ≡ [] → s.now ≡ thin_fields (block_at image 0)
        → AreExclusive image s.now tallies.items)) }
    ensures kept { OnlyReads (D.state dev.old) (D.state dev.new) }
    ensures faults { StartFails result (D.state dev.old).faults (D.state dev.new).faults }
{
    leaves_are_below_roots();
    pieces_are_those_of_the_shape();
    let mut tallies = Tallies::new(alloc, s.data_map.blocks)?;
    tally_pool(alloc, s, dev, &mut tallies)?;
    Ok(tallies.into_exclusive())
}
