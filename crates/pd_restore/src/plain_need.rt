//! How many blocks the pool of a saved shape needs where each device has leaves of its own (`thin_repair --dry-run`).

ghost use Rattle.std.specs.Prelude.{◌≡◌, ◌+◌, ◌≤◌, ℕ, List, ◌++◌, drop, length, map, take, IfOk, IfSome, OnOk};
ghost use Rattle.std.specs.List.{AllByRecursion};
ghost use Rattle.pd_grammar.specs.Need.{mapped_data, overflows_in, thin_need};
ghost use Rattle.pd_laid.specs.Shape.{pool_of};
ghost use Rattle.pd_count.specs.Counted.{count_of};
ghost use Rattle.pd_meaning_thin.specs.declared.joined.Run.{Run as SavedRun};
ghost use Rattle.pd_meaning_thin.specs.Packed.{runs_from};
ghost use Rattle.pd_restore.specs.ShapeNeed.{HasCountedThrice, leaves_used, runs_used};
ghost use Rattle.pd_salvage.specs.SavedShape.{held_shape};
ghost use Rattle.pd_salvage.specs.declared.saved_shape.ShapedDevice.{ShapedDevice as Device};

use crate::saved_lines::RunSpan;
use crate::saved_need::Thrice;
use crate::shape_need::uses_of;
use pd_devices::need_thin;
use pd_meaning_thin::{PackedRuns, RunPlace};
use pd_salvage::{SavedLeaf, SavedShape, ShapedDevice};
use std::alloc::{AllocError, Global};

/// How many blocks the pool of the shape needs where each device has leaves of its own, and there are so many blocks for
/// metadata. `None` where memory is wanting: a number that doesn't fit its type is that of a pool for whose metadata there
/// is no memory.
pub fn plain_need_of_shape(alloc: Global, saved: &SavedShape, room: u64) -> Option<u64>
    ensures { IfSome result (λ need. need ≡ thin_need (pool_of (held_shape saved.now)) room) }
{
    let over = match over_of(alloc, saved) {
        Ok(over) => over,
        Err(_) => return None,
    };
    let mapped = match mapped_of(alloc, saved.devices()) {
        Ok(mapped) => mapped,
        Err(_) => return None,
    };
    let need = need_thin(&mapped, saved.head().blocks, over, room);
    if need < u64::MAX { Some(need) } else { None }
}

/// The mapped number of each device.
fn mapped_of(alloc: Global, devices: &[ShapedDevice]) -> Result<Vec<u64>, AllocError>
    ensures { IfOk result (λ mapped. mapped.items ≡ map (λ (d : Device). d.details.mapped) devices.now) }
{
    devices
        .iter()
        .map(|device| device.details.mapped)
        .collect(alloc)
}

/// How many data blocks stand three times or more in the mappings of all devices.
fn over_of(alloc: Global, saved: &SavedShape) -> Result<u64, AllocError>
    ensures { IfOk result (λ over. over ≡ overflows_in (mapped_data (pool_of (held_shape saved.now))) saved.now.head.blocks) }
{
    let counted = counted_of_shape(alloc, saved)?;
    Ok(counted.over())
}

/// How often each data block stands in the mappings of all devices, up to three times.
///
/// A shared leaf's data blocks are counted at most three times, however many devices use it.
pub fn counted_of_shape(alloc: Global, saved: &SavedShape) -> Result<Thrice, AllocError>
    ensures size { IfOk result (λ counted. counted.size ≡ saved.now.head.blocks) }
    ensures counted { IfOk result (λ counted. HasCountedThrice counted (mapped_data (pool_of (held_shape saved.now)))) }
{
    let blocks = saved.head().blocks;
    let leaves = saved.leaves();
    let uses = uses_of(alloc, leaves.len() as u64, saved.pieces())?;
    let mut counted = Thrice::new(alloc, blocks)?;
    add_leaves(&mut counted, leaves, saved.leaf_runs(), &uses)?;
    counted.add_runs(saved.runs())?;
    Ok(counted)
}

/// Counts the data blocks of these leaves, to which all the runs belong, as often as each leaf is used.
fn add_leaves(
    counted: &mut Thrice,
    leaves: &[SavedLeaf],
    runs: &PackedRuns,
    uses: &Thrice,
) -> Result<(), AllocError>
    requires within { AllByRecursion (λ (r : SavedRun). r.target + r.length ≤ counted.old.size) runs.now }
    requires each { length leaves.now ≤ uses.now.size }
    ensures size { OnOk result (counted.new.size ≡ counted.old.size) }
    ensures listed { (before : List ℕ) → HasCountedThrice counted.old before
        → OnOk result (HasCountedThrice counted.new (before ++ leaves_used (count_of uses.now) 0 leaves.now runs.now)) }
{
    let mut place = runs.first();
    for i in 0..leaves.len() {
        add_leaf(
            counted,
            leaves[i].runs,
            uses.times(i as u64),
            runs,
            &mut place,
        )?;
    }
    Ok(())
}

/// Counts the data blocks of so many runs at the place so many times more; the place goes on behind them.
fn add_leaf(
    counted: &mut Thrice,
    number: usize,
    times: u32,
    runs: &PackedRuns,
    place: &mut RunPlace,
) -> Result<(), AllocError>
    requires within { AllByRecursion (λ (r : SavedRun). r.target + r.length ≤ counted.old.size)
        (take number (runs_from runs.now place.old)) }
    ensures size { OnOk result (counted.new.size ≡ counted.old.size) }
    ensures listed { (before : List ℕ) → HasCountedThrice counted.old before
        → OnOk result (HasCountedThrice counted.new (before ++ runs_used times (take number (runs_from runs.now place.old)))) }
    ensures behind { OnOk result (runs_from runs.now place.new ≡ drop number (runs_from runs.now place.old)) }
{
    let mut row = RunSpan {
        at: *place,
        left: number,
    };
    while let Some(run) = row.next(runs) {
        counted.add_run_times(run.target, run.length, times)?;
    }
    *place = row.at;
    Ok(())
}
