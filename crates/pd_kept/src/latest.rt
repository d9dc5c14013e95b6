//! The times of a pool that is saved by a superblock without one (`thin_repair`).

ghost use Rattle.std.specs.Prelude.{◌≡◌, ◌++◌, ◌^◌, ◌≤◌, ℕ, List, max, map, fold, IfOk, IfSome, Bool, ◌<◌, drop};
ghost use Rattle.std.specs.List.{flat_map};
ghost use Rattle.pd_answers.specs.NamedRepairs.{pool_time, saved_time};
ghost use Rattle.pd_answers.specs.Searches.{raised_time};
ghost use Rattle.pd_image.specs.Device.{IsAttached, OnlyReads};
ghost use Rattle.pd_salvage.specs.Saved.{CountsSalvage};
ghost use Rattle.pd_kept.specs.Kept.{latest_of_shape, own_times, time_by, times_of_run, times_of_runs};
ghost use Rattle.pd_kept.specs.Kept.{AreStored, pair_of, IsBehind, IsLeft, lacks, saved_pair};

use crate::merging::{StoredNumber, read_stored, stored_at};
use pd_image::Device;
use pd_kinds::ThinSuper;
use pd_laws_shapes::saved_shapes_mean_what_is_saved;
use pd_meaning_thin::{PackedRuns, Run};
use pd_salvage::{SalvageFault, SavedShape, ShapedDevice};
use pd_salvage_shapes::salvage_shape;
use std::alloc::Global;

/// The greatest time that a mapping can have, which has 24 bits for it. A pool's time isn't raised past it.
const GREATEST_TIME: u32 = (1 << 24) - 1;

/// The times of a pool that is saved by a superblock without one.
#[derive(Clone, Copy, Debug, PartialEq, Eq)]
pub struct SavedTimes {
    /// The one at which devices were made and last shared that have lost their details.
    pub lost: u32,
    /// The pool's own.
    pub pool: u32,
}

/// The times of the pool that is saved with this superblock, where none is known: the latest time of its mappings, and at
/// which a device was made or last shared. Where a device has lost its details they are one more, as a mapping of the latest
/// time may be shared then: that of lost details up to 2^32 - 1, and the pool's up to the greatest time of a mapping.
///
/// It reads as a repair with shared leaves does, and the details once more, and takes the memory of what that saves and 16
/// bytes for each device that has details.
///
/// Fails with `Device` where a read failed, and with `Memory` where memory wasn't found.
pub fn time_of_saved<D: Device>(
    alloc: Global,
    dev: &mut D,
    s: &ThinSuper,
) -> Result<SavedTimes, SalvageFault>
    requires attached { IsAttached (D.state dev.old) }
    requires within { s.now.meta_map.blocks ≤ (D.state dev.old).blocks }
    requires few { s.now.meta_map.blocks ≤ 4161600 }
    requires data { s.now.data_map.blocks ≤ 2 ^ 40 }
    ensures lost { IfOk result (λ times. IfSome (D.state dev.old).held (λ image. times.lost ≡ saved_time s.now image)) }
    ensures pool { IfOk result (λ times. IfSome (D.state dev.old).held (λ image. times.pool ≡ pool_time s.now image)) }
    ensures kept { OnlyReads (D.state dev.old) (D.state dev.new) }
    ensures faults { CountsSalvage result (D.state dev.old).faults (D.state dev.new).faults }
{
    saved_shapes_mean_what_is_saved();
    let saved = salvage_shape(alloc, dev, s)?;
    let stored = read_stored(alloc, dev, s)?;
    Ok(times_of(&saved, stored.as_slice()))
}

/// The times of what is saved, where these are the devices that have details.
fn times_of(saved: &SavedShape, stored: &[StoredNumber]) -> SavedTimes
    requires { AreStored 0 (map pair_of stored.now) }
    ensures lost { result.lost ≡ time_by saved.now stored.now }
    ensures pool { result.pool ≡ raised_time (latest_of_shape saved.now) (time_by saved.now stored.now) }
{
    // For the proof alone, which learns here that the devices' ids ascend.
    let _ = saved.head();
    let latest = latest_time(saved);
    if lacks_details(saved.devices(), stored) {
        times_from(latest, latest.saturating_add(1))
    } else {
        times_from(latest, latest)
    }
}

/// The times where this is the latest one, and that which lost details get.
fn times_from(latest: u32, lost: u32) -> SavedTimes
    ensures lost { result.lost ≡ lost }
    ensures pool { result.pool ≡ raised_time latest lost }
{
    SavedTimes {
        lost,
        pool: latest.max(lost.min(GREATEST_TIME)),
    }
}

/// The latest time of what is saved.
fn latest_time(saved: &SavedShape) -> u32
    ensures { result ≡ latest_of_shape saved.now }
{
    // For the proof alone, which learns here that each run is of a leaf or a device, and that each leaf is used.
    let _ = saved.head();
    let devices = latest_of_devices(saved.devices());
    let leaves = latest_of_runs(saved.leaf_runs());
    let own = latest_of_runs(saved.runs());
    devices.max(leaves).max(own)
}

/// The latest time at which one of these devices was made or last shared.
fn latest_of_devices(devices: &[ShapedDevice]) -> u32
    ensures { result ≡ fold max 0 (flat_map own_times devices.now) }
{
    let mut latest = 0;
    for device in devices {
        latest = latest
            .max(device.details.created)
            .max(device.details.snapped);
    }
    latest
}

/// The latest time of the mappings of these runs.
fn latest_of_runs(runs: &PackedRuns) -> u32
    ensures { result ≡ fold max 0 (times_of_runs runs.now) }
{
    let mut latest = 0;
    let mut place = runs.first();
    while let Some(run) = runs.next(&mut place) {
        latest = later_of(latest, run);
    }
    latest
}

/// The later one of a time and that of a run, unless the run is empty.
fn later_of(latest: u32, run: Run) -> u32
    ensures { (times : List ℕ) → fold max latest (times_of_run run ++ times) ≡ fold max result times }
{
    if run.length == 0 {
        return latest;
    }
    latest.max(run.time)
}

// Whether a device that is saved has lost its details (`thin_repair --dry-run`).

/// Whether one of these devices isn't among those that have details. Both ascend by their ids.
pub(crate) fn lacks_details(devices: &[ShapedDevice], stored: &[StoredNumber]) -> bool
    requires saved { AreStored 0 (map saved_pair devices.now) }
    requires stored { AreStored 0 (map pair_of stored.now) }
    ensures { result ≡ lacks (map saved_pair devices.now) (map pair_of stored.now) }
{
    let mut at = 0;
    for device in devices {
        at = behind_lesser(stored, at, device.id);
        if stored_at(stored, at, device.id).is_none() {
            return true;
        }
    }
    false
}

/// The first place from one on that isn't of a lesser id.
fn behind_lesser(stored: &[StoredNumber], from: usize, id: u64) -> usize
    ensures { (lacking : Bool) (saved : List (ℕ × ℕ)) → IsLeft lacking saved (map pair_of (drop from stored.now)) → AreStored id saved
        → IsBehind lacking id saved (map pair_of (drop result stored.now)) }
{
    let mut at = from;
    while at < stored.len() && stored[at].id < id {
        at += 1;
    }
    at
}
