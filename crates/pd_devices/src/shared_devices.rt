//! The shared leaves and the devices of a pool, as the lines of its text come.
//! Serves `thin_restore`, `thin_repair`, `thin_shrink`.

ghost use Rattle.std.specs.Prelude.{◌≡◌, ℕ, ◌+◌, ◌-◌, ◌<◌, ◌≤◌, ◌^◌, ◌==◌, if◌then◌else◌, List, [], ◌∷◌};
ghost use Rattle.std.specs.Prelude.{◌++◌, min, count_by, length, IfOk, IfErr, OnOk};
ghost use Rattle.std.specs.List.{range_with_len};
ghost use Rattle.pd_grammar.specs.ThinText.{Head, LeafHead, Line, shared_first_line, pool_line, leaf_line};
ghost use Rattle.pd_grammar.specs.ThinText.{device_line, use_line, map_line, end_line, unmapped};
ghost use Rattle.pd_laid.specs.PoolText.{shape_need_so_far};
ghost use Rattle.pd_image.specs.Device.{IsWritable};
ghost use Rattle.pd_draft.specs.Closed.{IsClosed, StaysClosed, DraftState};
ghost use Rattle.pd_draft.specs.DraftState.{draft_state};
ghost use Rattle.pd_count.specs.Counted.{HasCounted, count_of};
ghost use Rattle.pd_texts.specs.ThinState.{IsLeafLine, IsDeviceLine, IsUseLine, IsRunLine, IsEndLine};
ghost use Rattle.pd_build.specs.Building.{CountsBuildFault};
ghost use Rattle.pd_devices.specs.Counts.{overflows_of};
ghost use Rattle.pd_devices.specs.Devices.{run_of};
ghost use Rattle.pd_devices.specs.SharedGrowth.{open_need};
ghost use Rattle.pd_devices.specs.SharedGathered.{HasGathered, CanEnd, CanUse, CanTake, CanLook, roots_of};
ghost use Rattle.pd_devices.specs.SharedGathered.{details_of, counts_of, leaves_of, uses_counted};
ghost use Rattle.pd_devices.specs.Told.{details_line};

use crate::counts::BlockCounts;
use crate::devices::Run;
use crate::ending::{end_tree, use_leaf, write_shared_leaf};
use crate::growing::{Growing, NeedCounts, need_of};
use crate::piece::Held;
use pd_build::BuildFault;
use pd_count::Counts;
use pd_draft::Draft;
use pd_image::Device;
use pd_value::{Details, Root};
use std::alloc::{AllocError, Global};

/// The shared leaves and the devices of a pool, as the lines of its text come.
///
/// Each leaf and each piece of a device's own is written when its lines are over. What is kept are the counts of the data
/// blocks and of the uses of leaves, the least key of each leaf, the root and the details of each device, the runs of the
/// one piece that isn't over, and one level of keys of the tree that is being written.
#[derive(Drop)]
pub struct SharedDevices {
    alloc: Global,
    /// How often each data block stands in a leaf or in an own piece, and each leaf is used.
    counts: BlockCounts,
    uses: BlockCounts,
    /// How many leaves there are, with the one that isn't over, and the least key of each one that is.
    leaves: u64,
    firsts: Vec<u64>,
    /// The blocks of the trees of the devices that are over, without the shared leaves, or 2^64 - 1 where there are more.
    trees: u64,
    /// The id and the root of each device that is over, and the id and the details of each device.
    roots: Vec<(u64, Root)>,
    details: Vec<(u64, Details)>,
    /// The runs of the leaf or of the own piece that isn't over.
    held: Held,
    growing: Option<Growing>,
}

impl SharedDevices {
    /// No leaf and no device of a pool of so many data blocks, where there are so many blocks for metadata.
    ///
    /// Fails with `AllocError` where memory wasn't found.
    pub fn new(alloc: Global, blocks: u64, room: u64) -> Result<SharedDevices, AllocError>
        requires blocks { blocks ≤ 2 ^ 40 }
        requires room { room ≤ 4161600 }
        ensures { (p : Head) (start : DraftState) → p.data_blocks ≡ blocks → start.place ≡ 1 → IsClosed start.device
            → IfOk result (λ s. HasGathered room (pool_line p ∷ shared_first_line ∷ []) s start start) }
    {
        Ok(SharedDevices {
            alloc,
            counts: BlockCounts::new(alloc, blocks)?,
            uses: BlockCounts::new(alloc, room)?,
            leaves: 0,
            firsts: Vec::new(alloc),
            trees: 0,
            roots: Vec::new(alloc),
            details: Vec::new(alloc),
            held: Held::new(alloc),
            growing: None,
        })
    }

    /// Takes a leaf: the one before it is written.
    pub fn add_leaf<D: Device>(&mut self, draft: &mut Draft<'_, D>) -> Result<(), BuildFault>
        requires gathered { CanEnd self.old (draft_state draft.old) }
        requires writable { IsWritable (draft_state draft.old).device }
        requires closed { IsClosed (draft_state draft.old).device }
        ensures same_reference { draft.new.dev.ghost_name ≡ draft.old.dev.ghost_name }
        ensures gathered { (room : ℕ) (before : List Line) (start : DraftState) (l : LeafHead)
            → HasGathered room before self.old start (draft_state draft.old) → IsLeafLine before l
            → OnOk result (HasGathered room (leaf_line l ∷ before) self.new start (draft_state draft.new)) }
        ensures closed { StaysClosed (draft_state draft.old).device (draft_state draft.new).device }
        ensures faults { CountsBuildFault result (draft_state draft.old).device.faults (draft_state draft.new).device.faults }
    {
        self.close(draft)?;
        self.leaves += 1;
        Ok(())
    }

    /// Takes a device: what is left of the leaf or of the device before it is written.
    pub fn add_device<D: Device>(
        &mut self,
        draft: &mut Draft<'_, D>,
        id: u64,
        details: Details,
    ) -> Result<(), BuildFault>
        requires gathered { CanEnd self.old (draft_state draft.old) }
        requires writable { IsWritable (draft_state draft.old).device }
        requires closed { IsClosed (draft_state draft.old).device }
        ensures same_reference { draft.new.dev.ghost_name ≡ draft.old.dev.ghost_name }
        ensures gathered { (room : ℕ) (before : List Line) (start : DraftState)
            → HasGathered room before self.old start (draft_state draft.old) → IsDeviceLine before (details_line id details)
            → OnOk result (HasGathered room (device_line (details_line id details) ∷ before) self.new start (draft_state draft.new)) }
        ensures closed { StaysClosed (draft_state draft.old).device (draft_state draft.new).device }
        ensures faults { CountsBuildFault result (draft_state draft.old).device.faults (draft_state draft.new).device.faults }
    {
        self.close(draft)?;
        self.begin(id, details)
    }

    /// Takes the use of a leaf by the last device: the piece before it is written.
    pub fn add_use<D: Device>(
        &mut self,
        draft: &mut Draft<'_, D>,
        number: u64,
    ) -> Result<(), BuildFault>
        requires gathered { CanUse self.old number (draft_state draft.old) }
        requires writable { IsWritable (draft_state draft.old).device }
        requires closed { IsClosed (draft_state draft.old).device }
        ensures same_reference { draft.new.dev.ghost_name ≡ draft.old.dev.ghost_name }
        ensures gathered { (room : ℕ) (before : List Line) (start : DraftState)
            → HasGathered room before self.old start (draft_state draft.old) → IsUseLine before number
            → OnOk result (HasGathered room (use_line number ∷ before) self.new start (draft_state draft.new)) }
        ensures closed { StaysClosed (draft_state draft.old).device (draft_state draft.new).device }
        ensures faults { CountsBuildFault result (draft_state draft.old).device.faults (draft_state draft.new).device.faults }
    {
        match &mut self.growing {
            Some(growing) => {
                let least = self.firsts[number as usize];
                use_leaf(self.alloc, draft, growing, &mut self.held, least, number)?;
            }
            None => return Ok(()),
        }
        count_use(&mut self.uses, number)
    }

    /// Takes a run of the last leaf or device, for which there is room. Nothing is written.
    pub fn add_run(&mut self, run: Run) -> Result<(), AllocError>
        requires gathered { CanTake self.old (run_of run) }
        ensures gathered { (room : ℕ) (before : List Line) (start now : DraftState)
            → HasGathered room before self.old start now → IsRunLine before (run_of run)
            → shape_need_so_far room (map_line (run_of run) ∷ before) ≤ room
            → OnOk result (HasGathered room (map_line (run_of run) ∷ before) self.new start now) }
    {
        self.counts.add_run(run.data_block, run.length)?;
        self.held.add(run)
    }

    /// Writes what is left of the last leaf or device.
    pub fn end<D: Device>(&mut self, draft: &mut Draft<'_, D>) -> Result<(), BuildFault>
        requires gathered { CanEnd self.old (draft_state draft.old) }
        requires writable { IsWritable (draft_state draft.old).device }
        requires closed { IsClosed (draft_state draft.old).device }
        ensures same_reference { draft.new.dev.ghost_name ≡ draft.old.dev.ghost_name }
        ensures gathered { (room : ℕ) (before : List Line) (start : DraftState)
            → HasGathered room before self.old start (draft_state draft.old) → IsEndLine before
            → OnOk result (HasGathered room (end_line ∷ before) self.new start (draft_state draft.new)) }
        ensures closed { StaysClosed (draft_state draft.old).device (draft_state draft.new).device }
        ensures faults { CountsBuildFault result (draft_state draft.old).device.faults (draft_state draft.new).device.faults }
    {
        self.close(draft)
    }

    /// Writes what is left of the last leaf or device.
    fn close<D: Device>(&mut self, draft: &mut Draft<'_, D>) -> Result<(), BuildFault>
        requires gathered { CanEnd self.old (draft_state draft.old) }
        requires writable { IsWritable (draft_state draft.old).device }
        requires closed { IsClosed (draft_state draft.old).device }
        ensures same_reference { draft.new.dev.ghost_name ≡ draft.old.dev.ghost_name }
        ensures gathered { (room : ℕ) (before : List Line) (start : DraftState)
            → HasGathered room before self.old start (draft_state draft.old) → unmapped before ≡ 0
            → OnOk result (HasGathered room (end_line ∷ before) self.new start (draft_state draft.new)) }
        ensures closed { StaysClosed (draft_state draft.old).device (draft_state draft.new).device }
        ensures faults { CountsBuildFault result (draft_state draft.old).device.faults (draft_state draft.new).device.faults }
        ensures leaves { OnOk result (self.new.leaves ≡ self.old.leaves) }
    {
        match self.growing.take() {
            Some(growing) => {
                let tree = end_tree(self.alloc, draft, growing, &mut self.held)?;
                self.trees = self.trees.saturating_add(tree.blocks);
                append(&mut self.roots, tree.id, Root(tree.root))
            }
            None => {
                if self.held.number == 0 {
                    return Ok(());
                }
                let least = write_shared_leaf(self.alloc, draft, &mut self.held)?;
                push(&mut self.firsts, least)
            }
        }
    }

    /// Begins the tree of a device.
    fn begin(&mut self, id: u64, details: Details) -> Result<(), BuildFault>
        ensures begun { (room : ℕ) (before : List Line) (start now : DraftState)
            → IsClosed now.device → HasGathered room (end_line ∷ before) self.old start now
            → OnOk result (HasGathered room (device_line (details_line id details) ∷ before) self.new start now) }
        ensures fault { IfErr result (λ fault. fault ≡ BuildFault.Memory) }
    {
        append(&mut self.details, id, details)?;
        self.growing = Some(Growing::new(self.alloc, id));
        Ok(())
    }

    /// How many blocks the pool needs so far, where there are so many for metadata. It stays at 2^64 - 1 where it would
    /// pass that.
    pub fn need(&self, room: u64) -> u64
        ensures { (before : List Line) (start now : DraftState) → HasGathered room before self.now start now
            → result ≡ min (shape_need_so_far room before) (2 ^ 64 - 1) }
    {
        need_of(self.parts(0, 0), room)
    }

    /// How many blocks it needs with a run more, which isn't taken yet: each of the run's data blocks is looked at.
    pub fn need_with(&self, run: &Run, room: u64) -> u64
        requires gathered { CanLook self.now (run_of run.now) }
        ensures { (before : List Line) (start now : DraftState)
            → HasGathered room before self.now start now → IsRunLine before (run_of run.now)
            → result ≡ min (shape_need_so_far room (map_line (run_of run.now) ∷ before)) (2 ^ 64 - 1) }
    {
        let thirds = thirds_in(self.counts.counts(), run.data_block, run.length);
        need_of(self.parts(run.length, thirds), room)
    }

    /// How many blocks the tree of the open device has so far, with so many mappings more.
    fn begun(&self, more: u64) -> u64
        ensures { result ≡ open_need self.now.growing (min (self.now.held.number + more) (2 ^ 64 - 1)) }
    {
        match &self.growing {
            Some(growing) => growing.need(self.held.number.saturating_add(more)),
            None => 0,
        }
    }

    /// What the need goes by, where so many mappings and so many data blocks that stand three times or more are one run more.
    fn parts(&self, more: u64, thirds: u64) -> NeedCounts
        ensures fits { self.now.held.number < 2 ^ 64 }
        ensures leaves { result.leaves ≡ self.now.leaves }
        ensures often { result.often ≡ overflows_of self.now.uses.counts self.now.uses.counts.size }
        ensures trees { result.trees ≡ self.now.trees }
        ensures begun { result.begun ≡ open_need self.now.growing (min (self.now.held.number + more) (2 ^ 64 - 1)) }
        ensures devices { result.devices ≡ length self.now.details.items }
        ensures blocks { result.blocks ≡ self.now.counts.counts.size }
        ensures over { result.over ≡ min (overflows_of self.now.counts.counts self.now.counts.counts.size + thirds) (2 ^ 64 - 1) }
    {
        let _number = self.held.number;
        NeedCounts {
            leaves: self.leaves,
            often: self.uses.over(),
            trees: self.trees,
            begun: self.begun(more),
            devices: self.details.len() as u64,
            blocks: self.counts.counts().size(),
            over: self.counts.over().saturating_add(thirds),
        }
    }

    /// The id and the root of each device.
    pub fn roots(&self) -> &[(u64, Root)]
        ensures { result.now ≡ roots_of self.now }
    {
        &self.roots
    }

    /// The id and the details of each device.
    pub fn details(&self) -> &[(u64, Details)]
        ensures { result.now ≡ details_of self.now }
    {
        &self.details
    }

    /// How often each data block stands in the leaves and in the pieces of devices' own.
    pub fn counts(&self) -> &Counts
        ensures { result.now ≡ counts_of self.now }
    {
        self.counts.counts()
    }

    /// How many leaves there are; they stand from block 1 on.
    pub fn leaves(&self) -> u64
        ensures { result ≡ leaves_of self.now }
    {
        self.leaves
    }

    /// How often each leaf is used, by its number.
    pub fn uses(&self) -> &Counts
        ensures { result.now ≡ uses_counted self.now }
    {
        self.uses.counts()
    }
}

/// Adds an item at the end.
fn append<T: Copy>(items: &mut Vec<(u64, T)>, key: u64, value: T) -> Result<(), BuildFault>
    ensures items { OnOk result (items.new.items ≡ items.old.items ++ (key, value) ∷ []) }
    ensures fault { IfErr result (λ fault. fault ≡ BuildFault.Memory) }
{
    Ok(items.push((key, value))?)
}

/// Adds a number at the end.
fn push(items: &mut Vec<u64>, item: u64) -> Result<(), BuildFault>
    ensures items { OnOk result (items.new.items ≡ items.old.items ++ item ∷ []) }
    ensures fault { IfErr result (λ fault. fault ≡ BuildFault.Memory) }
{
    Ok(items.push(item)?)
}

/// Counts the use of a leaf.
fn count_use(uses: &mut BlockCounts, number: u64) -> Result<(), BuildFault>
    requires within { number < uses.old.counts.size }
    requires few { uses.old.total + 1 < 2 ^ 32 }
    ensures size { OnOk result (uses.new.counts.size ≡ uses.old.counts.size) }
    ensures total { OnOk result (uses.new.total ≡ uses.old.total + 1) }
    ensures listed { (before : List ℕ) → HasCounted uses.old.counts before → OnOk result (HasCounted uses.new.counts (number ∷ before)) }
    ensures fault { IfErr result (λ fault. fault ≡ BuildFault.Memory) }
{
    Ok(uses.add_run(number, 1)?)
}

/// How many blocks of a row were counted twice.
fn thirds_in(counts: &Counts, first: u64, length: u64) -> u64
    requires within { first + length ≤ counts.now.size }
    ensures { result ≡ count_by (λ d. count_of counts.now d == 2) (range_with_len first length) }
{
    let _blocks = counts.size();
    let mut thirds = 0;
    for i in 0..length {
        thirds += is_third(counts, first + i);
    }
    thirds
}

/// One where a block was counted twice, and else none.
fn is_third(counts: &Counts, b: u64) -> u64
    requires { b < counts.now.size }
    ensures { result ≡ (if (count_of counts.now b == 2) then 1 else 0) }
{
    if counts.get(b) == 2 { 1 } else { 0 }
}
