//! A pool that is being saved (`thin_repair`, `thin_shrink`).

ghost use Rattle.std.specs.Prelude.{◌≡◌, ◌<◌, ◌++◌, ◌∷◌, [], not, OnOk, ◌^◌, ◌≤◌, IfOk, IfSome};
ghost use Rattle.std.specs.List.{All};
ghost use Rattle.pd_kinds.specs.Graph.{is_outside};
ghost use Rattle.pd_laid.specs.Salvage.{salvage_from};
ghost use Rattle.pd_image.specs.Device.{IsAttached, OnlyReads};
ghost use Rattle.pd_salvage.specs.Saving.{FitLost, FitsDevice, FitsHead, head_of, lost_details, saved_device};
ghost use Rattle.pd_salvage.specs.Saved.{CountsSalvage, pool_of};

use crate::cursor::SavedCursor;
use crate::details::SavedDetails;
use crate::joined::{gather, repeat_runs};
use crate::saved::{Salvage, SalvageFault, SavedDevice, SavedHead};
use pd_image::Device;
use pd_kinds::ThinSuper;
use pd_meaning_thin::{PackedRuns, RunPlace};
use pd_value::{BlockTime, Details, Root};
use std::alloc::{AllocError, Global};

/// The device that was saved last.
#[derive(Clone, Copy)]
pub(crate) struct LastDevice {
    root: u64,
    /// From where on its runs are read.
    place: RunPlace,
    /// How many mappings they have.
    mappings: u64,
}

/// The devices and runs that were saved, and the cursors over what is left.
#[derive(Drop)]
pub(crate) struct Saving {
    alloc: Global,
    s: ThinSuper,
    tops: SavedCursor<Root>,
    details: SavedDetails,
    mappings: SavedCursor<BlockTime>,
    last: Option<LastDevice>,
    devices: Vec<SavedDevice>,
    runs: PackedRuns,
}

impl Saving {
    ghost use Rattle.std.specs.Prelude.{◌≡◌, ◌^◌, ◌≤◌, IfOk, OnOk, IfSome};
    ghost use Rattle.pd_image.specs.Device.{IsAttached, OnlyReads};
    ghost use Rattle.pd_laid.specs.Salvage.{salvage_from};
    ghost use Rattle.pd_salvage.specs.Saved.{CountsSalvage};
    ghost use Rattle.pd_salvage.specs.Saved.{pool_of};
    ghost use Rattle.std.specs.List.{AllByRecursion};
    ghost use Rattle.pd_meaning_thin.specs.Packed.{FitsRun};
    ghost use Rattle.pd_salvage.specs.Gather.{IsGathered};
    ghost use Rattle.pd_salvage.specs.Saving.{HasReadyCursors, IsSaved, IsStarted, KnowsLast, SavesDevice, mappings_at, saved_pool};

    /// No device, and cursors before the first one.
    pub(crate) fn start(alloc: Global, s: &ThinSuper) -> Result<Saving, AllocError>
        ensures { IfOk result (IsStarted s.now) }
    {
        let nr = s.meta_map.blocks;
        let tops = SavedCursor::start(alloc, nr, s.mapping_root)?;
        let details = SavedDetails::start(alloc, nr, s.details_root)?;
        let mappings = SavedCursor::start(alloc, nr, s.mapping_root)?;
        Ok(Saving {
            alloc,
            s: *s,
            tops,
            details,
            mappings,
            last: None,
            devices: Vec::new(alloc),
            runs: PackedRuns::new(alloc),
        })
    }

    /// Saves the devices that are left.
    pub(crate) fn save_all<D: Device>(&mut self, dev: &mut D) -> Result<(), SalvageFault>
        requires attached { IsAttached (D.state dev.old) }
        requires within { self.old.s.meta_map.blocks ≤ (D.state dev.old).blocks }
        requires few { self.old.s.data_map.blocks ≤ 2 ^ 40 }
        requires started { IsStarted self.old.s self.old }
        ensures sound { OnOk result (IsSaved self.new.s.data_map.blocks self.new.devices.items self.new.runs) }
        ensures saved { OnOk result (IfSome (D.state dev.old).held
            (λ image. pool_of (saved_pool self.new) ≡ salvage_from self.old.s image)) }
        ensures same { self.new.s ≡ self.old.s }
        ensures kept { OnlyReads (D.state dev.old) (D.state dev.new) }
        ensures faults { CountsSalvage result (D.state dev.old).faults (D.state dev.new).faults }
    {
        while let Some((id, root)) = self.tops.next(dev)? {
            if is_inside(root.0, self.s.meta_map.blocks) {
                self.save_device(dev, id, root.0)?;
            }
        }
        Ok(())
    }

    /// Adds the runs of the device with this root, and answers how many mappings they have. Where the device that was
    /// saved last has the same root, its runs are put there once more, and no block is read.
    fn gather_device<D: Device>(&mut self, dev: &mut D, root: u64) -> Result<u64, SalvageFault>
        requires attached { IsAttached (D.state dev.old) }
        requires within { self.old.s.meta_map.blocks ≤ (D.state dev.old).blocks }
        requires few { self.old.s.data_map.blocks ≤ 2 ^ 40 }
        requires last { KnowsLast (D.state dev.old).held self.old }
        requires fits { AllByRecursion FitsRun self.old.runs }
        ensures gathered { IfOk result (λ mapped. IsGathered self.old.s.data_map.blocks 0 mapped (D.state dev.old).held
            (λ image. mappings_at self.old.s image root) self.old.runs self.new.runs) }
        ensures same { self.new ≡ record self.old { mappings = self.new.mappings; runs = self.new.runs } }
        ensures kept { OnlyReads (D.state dev.old) (D.state dev.new) }
        ensures faults { CountsSalvage result (D.state dev.old).faults (D.state dev.new).faults }
    {
        if let Some(last) = self.last {
            if last.root == root {
                repeat_runs(self.alloc, &mut self.runs, last.place)?;
                return Ok(last.mappings);
            }
        }
        self.mappings.restart(self.s.meta_map.blocks, root);
        gather(
            &mut self.mappings,
            dev,
            self.s.data_map.blocks,
            &mut self.runs,
        )
    }

    /// Saves the device with this id and root.
    fn save_device<D: Device>(
        &mut self,
        dev: &mut D,
        id: u64,
        root: u64,
    ) -> Result<(), SalvageFault>
        requires attached { IsAttached (D.state dev.old) }
        requires ready { HasReadyCursors self.old }
        requires within { self.old.s.meta_map.blocks ≤ (D.state dev.old).blocks }
        requires few { self.old.s.data_map.blocks ≤ 2 ^ 40 }
        requires last { KnowsLast (D.state dev.old).held self.old }
        ensures last { OnOk result (KnowsLast (D.state dev.old).held self.new) }
        ensures saves { OnOk result (SavesDevice (D.state dev.old).held id root self.old self.new) }
        ensures ready { HasReadyCursors self.new }
        ensures same { (self.new.s ≡ self.old.s) × (self.new.tops ≡ self.old.tops) }
        ensures kept { OnlyReads (D.state dev.old) (D.state dev.new) }
        ensures faults { CountsSalvage result (D.state dev.old).faults (D.state dev.new).faults }
    {
        let lost = lost_details(self.s.transaction, self.s.time);
        let details = self.details.find_or(dev, id, lost)?;
        let first = self.runs.len();
        let place = self.runs.end();
        let mapped = self.gather_device(dev, root)?;
        self.last = Some(LastDevice {
            root,
            place,
            mappings: mapped,
        });
        let runs = self.runs.len() - first;
        add_device(&mut self.devices, id, details, mapped, runs)?;
        Ok(())
    }

    /// What was saved.
    pub(crate) fn saved(self) -> Salvage
        requires few { self.s.data_map.blocks ≤ 2 ^ 40 }
        requires sound { IsSaved self.s.data_map.blocks self.devices.items self.runs }
        ensures { result ≡ saved_pool self }
    {
        let head = head_of(&self.s);
        let Saving {
            alloc: _,
            s: _,
            tops: _,
            details: _,
            mappings: _,
            last: _,
            devices,
            runs,
        } = self;
        Salvage {
            head,
            devices,
            runs,
        }
    }
}

/// What the superblock says of the pool.
pub fn head_of(s: &ThinSuper) -> SavedHead
    ensures head { result ≡ head_of s.now }
    ensures fits { FitsHead result }
{
    head(
        s.uuid,
        s.time,
        s.transaction,
        s.block_size,
        s.data_map.blocks,
    )
}

/// The details of a device whose own are lost, in a pool with this transaction id and time.
///
/// With the pool's time as snapped a kernel copies each block that a snapshot may share before it writes to it.
pub fn lost_details(transaction: u64, time: u32) -> Details
    ensures lost { result ≡ lost_details transaction time }
    ensures fits { FitLost transaction time }
{
    Details {
        mapped: 0,
        transaction,
        created: time,
        snapped: time,
    }
}

/// The head with these fields.
fn head(uuid: [u8; 16], time: u32, transaction: u64, block_size: u32, blocks: u64) -> SavedHead
    ensures head { result ≡ record { uuid = uuid; time = time; transaction = transaction; block_size = block_size; blocks = blocks } }
    ensures fits { FitsHead result }
{
    show_bytes(&uuid);
    SavedHead {
        uuid,
        time,
        transaction,
        block_size,
        blocks,
    }
}

/// Whether a root lies in the metadata, of so many blocks.
pub fn is_inside(root: u64, nr: u64) -> bool
    ensures { result ≡ not (is_outside nr root) }
{
    (root != 0) & (root < nr)
}

/// Each byte is below 256: reading it shows its range.
fn show_bytes(bytes: &[u8; 16])
    ensures { All (λ b. b < 256) bytes.now }
{
    for i in 0..16 {
        let _byte = bytes[i];
    }
}

/// Adds a device with these details, but for their mapped number.
fn add_device(
    devices: &mut Vec<SavedDevice>,
    id: u64,
    details: Details,
    mapped: u64,
    runs: usize,
) -> Result<(), AllocError>
    ensures added { OnOk result (devices.new.items ≡ devices.old.items ++ saved_device id details mapped runs ∷ []) }
    ensures fits { OnOk result (FitsDevice (saved_device id details mapped runs)) }
{
    let details = Details {
        mapped,
        transaction: details.transaction,
        created: details.created,
        snapped: details.snapped,
    };
    devices.push(SavedDevice { id, details, runs })?;
    Ok(())
}

// The salvage of a pool (`thin_repair`, `thin_shrink`).

/// All that can be saved of the pool with this superblock.
///
/// It takes the memory of three cursors over trees, 40 bytes a device, and for a run of mappings some 4 and at most 35.
/// A device with the root of the device before it gets that one's runs once more, and no block is read for it. While they
/// are put there, they take that memory twice.
///
/// Fails with `Device` where a read failed, and with `Memory` where that memory wasn't found.
pub fn salvage<D: Device>(
    alloc: Global,
    dev: &mut D,
    s: &ThinSuper,
) -> Result<Salvage, SalvageFault>
    requires attached { IsAttached (D.state dev.old) }
    requires within { s.now.meta_map.blocks ≤ (D.state dev.old).blocks }
    requires few { s.now.meta_map.blocks ≤ 4161600 }
    requires data { s.now.data_map.blocks ≤ 2 ^ 40 }
    ensures saved { IfOk result (λ saved. IfSome (D.state dev.old).held (λ image. pool_of saved ≡ salvage_from s.now image)) }
    ensures kept { OnlyReads (D.state dev.old) (D.state dev.new) }
    ensures faults { CountsSalvage result (D.state dev.old).faults (D.state dev.new).faults }
{
    let mut saving = Saving::start(alloc, s)?;
    saving.save_all(dev)?;
    Ok(saving.saved())
}
