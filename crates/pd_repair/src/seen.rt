//! A saved pool in which sharing is seen: each device is snapped after those of its mappings whose data blocks other mappings
//! lead to (`thin_repair`).

ghost use Rattle.std.specs.Prelude.{◌≡◌, fold, map, max, IfOk, ◌+◌, ◌++◌, ◌≤◌, List, drop, take};
ghost use Rattle.std.specs.List.{AllByRecursion, list_any, range_with_len};
ghost use Rattle.pd_kinds.specs.Meaning.{Mapping};
ghost use Rattle.pd_grammar.specs.ThinText.{mappings_of};
ghost use Rattle.pd_answers.specs.Searches.{seen_pool, timed_pool, raised_time as time_raised};
ghost use Rattle.pd_meaning_thin.specs.Runs.{spelled};
ghost use Rattle.pd_meaning_thin.specs.Packed.{runs_from};
ghost use Rattle.pd_restore.specs.ShapeNeed.{IsRunIn};
ghost use Rattle.pd_salvage.specs.declared.saved.SavedDevice.{SavedDevice as Device};
ghost use Rattle.pd_salvage.specs.Saved.{pool_of};
ghost use Rattle.pd_salvage.specs.Gather.{mappings_of_runs};
ghost use Rattle.pd_repair.specs.Snaps.{is_twice, seen_devices as devices_seen, snap_after};

use pd_meaning_thin::{PackedRuns, Run, RunPlace};
use pd_restore::{RunSpan, Thrice, counted_of_saved};
use pd_salvage::{Salvage, SavedDevice};
use pd_value::Details;
use std::alloc::{AllocError, Global};

/// What was saved, with this as the pool's time, and with sharing seen in it.
///
/// It takes the memory of counts of the data blocks, and of a second list of the devices.
pub(crate) fn see_pool(alloc: Global, saved: Salvage, time: u32) -> Result<Salvage, AllocError>
    ensures { IfOk result (λ seen. pool_of seen ≡ seen_pool (timed_pool time (pool_of saved))) }
{
    // For the proof alone, which learns here that the pool is lawful.
    let _ = saved.head();
    let counted = counted_of_saved(alloc, &saved)?;
    let devices = seen_devices(alloc, saved.devices(), saved.runs(), &counted)?;
    let latest = latest_snap(devices.as_slice());
    Ok(saved.with_devices(raised_time(time, latest), devices))
}

/// The devices, to which all the runs belong, each snapped after those of its mappings whose data blocks were counted twice or
/// more.
fn seen_devices(
    alloc: Global,
    devices: &[SavedDevice],
    runs: &PackedRuns,
    counted: &Thrice,
) -> Result<Vec<SavedDevice>, AllocError>
    requires { AllByRecursion (IsRunIn counted.now.size) runs.now }
    ensures { IfOk result (λ seen. seen.items ≡ devices_seen (is_twice counted.now) devices.now runs.now) }
{
    let mut seen = Vec::with_capacity(alloc, devices.len())?;
    let mut place = runs.first();
    for device in devices {
        let snapped = snap_of_runs(
            counted,
            runs,
            &mut place,
            device.runs,
            device.details.snapped,
        );
        seen.push(SavedDevice {
            id: device.id,
            details: Details {
                snapped,
                ..device.details
            },
            runs: device.runs,
        })?;
    }
    Ok(seen)
}

/// When the device is snapped that is snapped last.
fn latest_snap(devices: &[SavedDevice]) -> u32
    ensures { result ≡ fold max 0 (map (λ (d : Device). d.details.snapped) devices.now) }
{
    let mut latest = 0;
    for device in devices {
        latest = latest.max(device.details.snapped);
    }
    latest
}

// When what has some runs is snapped, by how often each data block was counted (`thin_repair`).

/// The greatest time of a pool to which its own is raised: a mapping has 24 bits for its time.
const GREATEST_TIME: u32 = 16777215;

/// The later one of a pool's time and that of its devices, unless this would raise it past the greatest one.
pub(crate) fn raised_time(time: u32, least: u32) -> u32
    ensures { result ≡ time_raised time least }
{
    time.max(least.min(GREATEST_TIME))
}

/// The latest of a time and of one more than that of each of so many runs at the place with a data block that was counted
/// twice or more; the place goes on behind them.
pub(crate) fn snap_of_runs(
    counted: &Thrice,
    runs: &PackedRuns,
    place: &mut RunPlace,
    number: usize,
    snap: u32,
) -> u32
    requires { AllByRecursion (IsRunIn counted.now.size) (take number (runs_from runs.now place.old)) }
    ensures snap { result ≡ snap_after (is_twice counted.now) snap (mappings_of_runs (take number (runs_from runs.now place.old))) }
    ensures behind { runs_from runs.now place.new ≡ drop number (runs_from runs.now place.old) }
{
    let mut row = RunSpan {
        at: *place,
        left: number,
    };
    let mut latest = snap;
    while let Some(run) = row.next(runs) {
        latest = later_of(counted, run, latest);
    }
    *place = row.at;
    latest
}

/// The later one of a time and of one more than that of a run, if the run has a data block that was counted twice or more.
fn later_of(counted: &Thrice, run: Run, latest: u32) -> u32
    requires { IsRunIn counted.now.size run }
    ensures { (rest : List Mapping) → snap_after (is_twice counted.now) latest (mappings_of (spelled run) ++ rest)
        ≡ snap_after (is_twice counted.now) result rest }
{
    // No need to look at the blocks of a run that is too old to matter.
    if run.time < latest {
        return latest;
    }
    if has_shared(counted, run) {
        run.time + 1
    } else {
        latest
    }
}

/// Whether the run has a data block that was counted twice or more.
fn has_shared(counted: &Thrice, run: Run) -> bool
    requires { run.target + run.length ≤ counted.now.size }
    ensures { result ≡ list_any (is_twice counted.now) (range_with_len run.target run.length) }
{
    let _blocks = counted.size();
    for i in 0..run.length {
        if counted.times(run.target + i) > 1 {
            return true;
        }
    }
    false
}
