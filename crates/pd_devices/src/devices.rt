//! The devices of a pool (`thin_restore`, `thin_repair`, `thin_shrink`).

ghost use Rattle.std.specs.Prelude.{◌≡◌, ℕ, ◌+◌, ◌-◌, ◌<◌, ◌≤◌, ◌^◌, List, [], ◌∷◌, ◌++◌, min, IfOk, IfErr, OnOk};
ghost use Rattle.std.specs.List.{range_with_len};
ghost use Rattle.pd_grammar.specs.ThinText.{Head, Line, first_line, pool_line, device_line, map_line, end_line, unmapped, mappings_from};
ghost use Rattle.pd_grammar.specs.Need.{thin_need_so_far};
ghost use Rattle.pd_laid.specs.LaidThin.{mapping_items};
ghost use Rattle.pd_image.specs.Device.{IsWritable};
ghost use Rattle.pd_draft.specs.Closed.{IsClosed, StaysClosed, DraftState};
ghost use Rattle.pd_draft.specs.DraftState.{draft_state};
ghost use Rattle.pd_count.specs.Counted.{HasCounted};
ghost use Rattle.pd_build.specs.Building.{CountsBuildFault};
ghost use Rattle.pd_build.specs.Tree.{items_to_come, number_left};
ghost use Rattle.pd_devices.specs.Devices.{MayFollow, details_line, run_of, GrowsBy};
ghost use Rattle.pd_devices.specs.Gathered.{HasGathered, CanEnd, CanTake};

use crate::counts::BlockCounts;
use crate::need::{add_tree, need_of};
use pd_build::{BuildFault, Builder};
use pd_count::Counts;
use pd_draft::Draft;
use pd_image::Device;
use pd_value::{BlockTime, Details, Root};
use std::alloc::{AllocError, Global};

/// The device whose tree is being written.
#[derive(Drop)]
pub struct Growing {
    id: u64,
    builder: Builder<BlockTime>,
}

/// The devices of a pool, as the lines of its text come. Their trees are written one after another, each leaf as soon
/// as the lines that fill it came; what is kept are the counts of the data blocks, the root and the details of each
/// device, and one level of keys of the tree that is being written.
#[derive(Drop)]
pub struct Devices {
    alloc: Global,
    counts: BlockCounts,
    /// The nodes of all devices' trees, or 2^64 - 1 where there are more.
    trees: u64,
    /// The id and the root of each device whose tree is written.
    roots: Vec<(u64, Root)>,
    /// The id and the details of each device.
    details: Vec<(u64, Details)>,
    growing: Option<Growing>,
}

impl Devices {
    /// No device of a pool of so many data blocks.
    pub fn new(alloc: Global, blocks: u64) -> Result<Devices, AllocError>
        requires { blocks ≤ 2 ^ 40 }
        ensures { (p : Head) (start : DraftState) → p.data_blocks ≡ blocks → start.place ≡ 1 → IsClosed start.device
            → IfOk result (λ s. HasGathered (pool_line p ∷ first_line ∷ []) s start start) }
    {
        Ok(Devices {
            alloc,
            counts: BlockCounts::new(alloc, blocks)?,
            trees: 0,
            roots: Vec::new(alloc),
            details: Vec::new(alloc),
            growing: None,
        })
    }

    /// Takes a device: what is left of the tree of the one before is written.
    pub fn add_device<D: Device>(
        &mut self,
        draft: &mut Draft<'_, D>,
        id: u64,
        details: Details,
    ) -> Result<(), BuildFault>
        requires gathered { CanEnd self.old (draft_state draft.old) }
        requires writable { IsWritable (draft_state draft.old).device }
        requires closed { IsClosed (draft_state draft.old).device }
        ensures same_reference { draft.new.dev.ghost_name ≡ draft.old.dev.ghost_name }
        ensures gathered { (before : List Line) (start : DraftState)
            → HasGathered before self.old start (draft_state draft.old) → unmapped before ≡ 0
            → OnOk result (HasGathered (device_line (details_line id details) ∷ before) self.new start (draft_state draft.new)) }
        ensures closed { StaysClosed (draft_state draft.old).device (draft_state draft.new).device }
        ensures faults { CountsBuildFault result (draft_state draft.old).device.faults (draft_state draft.new).device.faults }
    {
        self.end(draft)?;
        self.begin(id, details)
    }

    /// Takes a run of the last device.
    pub fn add_run<D: Device>(
        &mut self,
        draft: &mut Draft<'_, D>,
        run: Run,
    ) -> Result<(), BuildFault>
        requires gathered { CanTake self.old (run_of run) (draft_state draft.old) }
        requires writable { IsWritable (draft_state draft.old).device }
        requires closed { IsClosed (draft_state draft.old).device }
        ensures same_reference { draft.new.dev.ghost_name ≡ draft.old.dev.ghost_name }
        ensures gathered { (before : List Line) (start : DraftState)
            → HasGathered before self.old start (draft_state draft.old) → MayFollow before (run_of run)
            → OnOk result (HasGathered (map_line (run_of run) ∷ before) self.new start (draft_state draft.new)) }
        ensures closed { StaysClosed (draft_state draft.old).device (draft_state draft.new).device }
        ensures faults { CountsBuildFault result (draft_state draft.old).device.faults (draft_state draft.new).device.faults }
    {
        count_run(&mut self.counts, run)?;
        match &mut self.growing {
            Some(growing) => put_run(&mut growing.builder, draft, run),
            None => Ok(()),
        }
    }

    /// Writes what is left of the tree of the last device.
    pub fn end<D: Device>(&mut self, draft: &mut Draft<'_, D>) -> Result<(), BuildFault>
        requires gathered { CanEnd self.old (draft_state draft.old) }
        requires writable { IsWritable (draft_state draft.old).device }
        requires closed { IsClosed (draft_state draft.old).device }
        ensures same_reference { draft.new.dev.ghost_name ≡ draft.old.dev.ghost_name }
        ensures gathered { (before : List Line) (start : DraftState)
            → HasGathered before self.old start (draft_state draft.old) → unmapped before ≡ 0
            → OnOk result (HasGathered (end_line ∷ before) self.new start (draft_state draft.new)) }
        ensures closed { StaysClosed (draft_state draft.old).device (draft_state draft.new).device }
        ensures faults { CountsBuildFault result (draft_state draft.old).device.faults (draft_state draft.new).device.faults }
    {
        match self.growing.take() {
            None => Ok(()),
            Some(Growing { id, builder }) => {
                let root = builder.finish(draft)?;
                append(&mut self.roots, id, Root(root))
            }
        }
    }

    /// Begins the tree of a device.
    fn begin(&mut self, id: u64, details: Details) -> Result<(), BuildFault>
        ensures begun { (before : List Line) (start now : DraftState)
            → IsClosed now.device → HasGathered (end_line ∷ before) self.old start now
            → OnOk result (HasGathered (device_line (details_line id details) ∷ before) self.new start now) }
        ensures fault { IfErr result (λ fault. fault ≡ BuildFault.Memory) }
    {
        let builder = Builder::new(self.alloc, details.mapped)?;
        append(&mut self.details, id, details)?;
        self.trees = add_tree(self.trees, details.mapped);
        self.growing = Some(Growing { id, builder });
        Ok(())
    }

    /// How many blocks the pool needs so far, where there are so many for metadata. It stays at 2^64 - 1 where it would
    /// pass that.
    pub fn need(&self, room: u64) -> u64
        ensures { (before : List Line) (start now : DraftState) → HasGathered before self.now start now
            → result ≡ min (thin_need_so_far room before) (2 ^ 64 - 1) }
    {
        let blocks = self.counts.counts().size();
        let devices = self.details.len() as u64;
        need_of(self.trees, devices, blocks, self.counts.over(), room)
    }

    /// The id and the root of each device.
    pub fn roots(&self) -> &[(u64, Root)]
        ensures { result.now ≡ self.now.roots.items }
    {
        &self.roots
    }

    /// The id and the details of each device.
    pub fn details(&self) -> &[(u64, Details)]
        ensures { result.now ≡ self.now.details.items }
    {
        &self.details
    }

    /// How often each data block is mapped.
    pub fn counts(&self) -> &Counts
        ensures { result.now ≡ self.now.counts.counts }
    {
        self.counts.counts()
    }
}

/// Counts the data blocks of a run once more.
fn count_run(counts: &mut BlockCounts, run: Run) -> Result<(), BuildFault>
    requires within { run.data_block + run.length ≤ counts.old.counts.size }
    requires few { counts.old.total + run.length < 2 ^ 32 }
    ensures size { OnOk result (counts.new.counts.size ≡ counts.old.counts.size) }
    ensures total { OnOk result (counts.new.total ≡ counts.old.total + run.length) }
    ensures listed { (before : List ℕ) → HasCounted counts.old.counts before
        → OnOk result (HasCounted counts.new.counts (range_with_len run.data_block run.length ++ before)) }
    ensures fault { IfErr result (λ fault. fault ≡ BuildFault.Memory) }
{
    Ok(counts.add_run(run.data_block, run.length)?)
}

/// Adds an item at the end.
fn append<T: Copy>(items: &mut Vec<(u64, T)>, key: u64, value: T) -> Result<(), BuildFault>
    ensures items { OnOk result (items.new.items ≡ items.old.items ++ (key, value) ∷ []) }
    ensures fault { IfErr result (λ fault. fault ≡ BuildFault.Memory) }
{
    Ok(items.push((key, value))?)
}

// The mappings of a run, in a device's tree (`thin_restore`, `thin_repair`, `thin_shrink`).

/// A run of mappings: virtual blocks in a row, to data blocks in a row.
#[derive(Clone, Copy, Debug, PartialEq, Eq)]
pub struct Run {
    /// The first virtual block.
    pub virtual_block: u64,
    /// The data block that it is mapped to.
    pub data_block: u64,
    /// How many blocks are mapped.
    pub length: u64,
    /// The pool's time when they were.
    pub time: u32,
}

/// Puts the mappings of a run into the tree of its device. Each leaf is written as soon as its items were put.
pub(crate) fn put_run<D: Device>(
    builder: &mut Builder<BlockTime>,
    draft: &mut Draft<'_, D>,
    run: Run,
) -> Result<(), BuildFault>
    requires above { builder.old.leaves.low ≤ run.virtual_block }
    requires ends { run.virtual_block + run.length ≤ 2 ^ 64 }
    requires within { run.data_block + run.length ≤ 2 ^ 40 }
    requires time { run.time < 2 ^ 24 }
    requires more { run.length ≤ items_to_come builder.old.leaves }
    requires writable { IsWritable (draft_state draft.old).device }
    requires room { draft.old.next + number_left builder.old ≤ (draft_state draft.old).device.blocks }
    requires closed { IsClosed (draft_state draft.old).device }
    ensures same_reference { draft.new.dev.ghost_name ≡ draft.old.dev.ghost_name }
    ensures grows { OnOk result (GrowsBy 8 (mapping_items (mappings_from run.virtual_block run.data_block run.time run.length))
        builder.old builder.new (draft_state draft.old) (draft_state draft.new)) }
    ensures raised { OnOk result (builder.new.leaves.low ≤ run.virtual_block + run.length) }
    ensures closed { StaysClosed (draft_state draft.old).device (draft_state draft.new).device }
    ensures faults { CountsBuildFault result (draft_state draft.old).device.faults (draft_state draft.new).device.faults }
{
    for i in 0..run.length {
        let mapping = BlockTime {
            block: run.data_block + i,
            time: run.time,
        };
        builder.put(draft, run.virtual_block + i, mapping)?;
    }
    Ok(())
}
