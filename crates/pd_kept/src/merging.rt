//! The saved devices and the stored numbers, in one list (`thin_repair --dry-run`).

ghost use Rattle.std.specs.Prelude.{◌≡◌, ◌<◌, ℕ, List, ◌∷◌, drop, length, map, IfOk, IfSome, ◌≤◌, OnOk};
ghost use Rattle.std.specs.List.{flat_map};
ghost use Rattle.pd_image.specs.Device.{IsAttached, OnlyReads};
ghost use Rattle.pd_salvage.specs.Saved.{CountsSalvage};
ghost use Rattle.pd_kept.specs.declared.kept.KeptDevice.TheVariants.{Kept};
ghost use Rattle.pd_kept.specs.Kept.{line_of, IsAfterLost, IsStoredAt, Tells, lines_at_all, saved_pair};
ghost use Rattle.pd_kept.specs.Kept.{AreStored, pair_of, AddsStored, stored_numbers};

use crate::kept::KeptDevice;
use pd_image::Device;
use pd_kinds::ThinSuper;
use pd_salvage::{SalvageFault, SavedCursor, ShapedDevice};
use pd_value::Details;
use std::alloc::{AllocError, Global};

/// The end of all ids.
const IDS_END: u128 = 18446744073709551616;

/// The devices that are saved and those that are lost, by ascending id.
pub(crate) fn merge(
    alloc: Global,
    devices: &[ShapedDevice],
    stored: &[StoredNumber],
) -> Result<Vec<KeptDevice>, AllocError>
    requires saved { AreStored 0 (map saved_pair devices.now) }
    requires stored { AreStored 0 (map pair_of stored.now) }
    ensures { IfOk result (λ merged. flat_map line_of merged.items ≡ lines_at_all (map saved_pair devices.now) (map pair_of stored.now)) }
{
    let mut merged = Vec::new(alloc);
    let mut at = 0;
    for device in devices {
        at = add_device(&mut merged, device, stored, at)?;
    }
    add_lost(&mut merged, stored, at, IDS_END)?;
    Ok(merged)
}

/// Adds a device that is saved, and before it those that are lost, of the numbers from a place on. Answers the place behind
/// them.
fn add_device(
    merged: &mut Vec<KeptDevice>,
    device: &ShapedDevice,
    stored: &[StoredNumber],
    from: usize,
) -> Result<usize, AllocError>
    ensures { (all : List ℕ) (saved : List (ℕ × ℕ))
        → Tells all merged.old.items (saved_pair device.now ∷ saved) (map pair_of (drop from stored.now))
        → IfOk result (λ at. Tells all merged.new.items saved (map pair_of (drop at stored.now))) }
{
    let at = add_lost(merged, stored, from, device.id as u128)?;
    match stored_at(stored, at, device.id) {
        Some(mapped) => {
            merged.push(kept_device(device, Some(mapped)))?;
            Ok(at + 1)
        }
        None => {
            merged.push(kept_device(device, None))?;
            Ok(at)
        }
    }
}

/// A device that is saved, with the number in its details.
fn kept_device(device: &ShapedDevice, mapped: Option<u64>) -> KeptDevice
    ensures { result ≡ Kept device.now.id device.now.details.mapped mapped }
{
    KeptDevice::Kept {
        id: device.id,
        mappings: device.details.mapped,
        mapped,
    }
}

/// The number in a place, where it is this device's.
pub(crate) fn stored_at(stored: &[StoredNumber], at: usize, id: u64) -> Option<u64>
    ensures stored { IsStoredAt id result at stored.now }
    ensures within { IfSome result (λ _. at < length stored.now) }
{
    if at < stored.len() && stored[at].id == id {
        return Some(stored[at].mapped);
    }
    None
}

/// Adds the devices that are lost, of the numbers from a place on, up to an id. Answers the place behind them.
fn add_lost(
    merged: &mut Vec<KeptDevice>,
    stored: &[StoredNumber],
    from: usize,
    end: u128,
) -> Result<usize, AllocError>
    ensures { (all : List ℕ) (saved : List (ℕ × ℕ))
        → Tells all merged.old.items saved (map pair_of (drop from stored.now)) → AreStored end saved
        → IfOk result (λ at. IsAfterLost all end saved merged.new.items (map pair_of (drop at stored.now))) }
{
    let mut at = from;
    while at < stored.len() {
        let next = stored[at];
        if next.id as u128 >= end {
            return Ok(at);
        }
        merged.push(KeptDevice::Lost {
            id: next.id,
            mapped: next.mapped,
        })?;
        at += 1;
    }
    Ok(at)
}

// The numbers of mappings that the details of devices say (`thin_repair --dry-run`).

/// How many mappings the details of a device say that it has.
#[derive(Clone, Copy)]
pub(crate) struct StoredNumber {
    /// The number of the device.
    pub(crate) id: u64,
    /// How many mappings.
    pub(crate) mapped: u64,
}

/// Those of all details that are saved of the pool with this superblock, by ascending id.
pub(crate) fn read_stored<D: Device>(
    alloc: Global,
    dev: &mut D,
    s: &ThinSuper,
) -> Result<Vec<StoredNumber>, SalvageFault>
    requires attached { IsAttached (D.state dev.old) }
    requires within { s.now.meta_map.blocks ≤ (D.state dev.old).blocks }
    ensures ascend { IfOk result (λ stored. AreStored 0 (map pair_of stored.items)) }
    ensures told { IfOk result (λ stored. IfSome (D.state dev.old).held (λ image. map pair_of stored.items ≡ stored_numbers s.now image)) }
    ensures kept { OnlyReads (D.state dev.old) (D.state dev.new) }
    ensures faults { CountsSalvage result (D.state dev.old).faults (D.state dev.new).faults }
{
    let nr = s.meta_map.blocks;
    let mut entries: SavedCursor<Details> = SavedCursor::start(alloc, nr, s.details_root)?;
    let mut stored = Vec::new(alloc);
    while let Some((id, details)) = entries.next(dev)? {
        add_stored(&mut stored, id, details.mapped)?;
    }
    Ok(stored)
}

/// Adds the number of a device.
fn add_stored(stored: &mut Vec<StoredNumber>, id: u64, mapped: u64) -> Result<(), AllocError>
    ensures { OnOk result (AddsStored id mapped stored.old.items stored.new.items) }
{
    stored.push(StoredNumber { id, mapped })?;
    Ok(())
}
