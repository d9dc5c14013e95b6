//! A saved pool with its shared leaves, in which sharing is seen: each device is snapped after those of its mappings whose data
//! blocks other mappings lead to (`thin_repair`).

ghost use Rattle.std.specs.Prelude.{◌≡◌, List, drop, fold, length, map, max, slice_index, sum_by, take, IfOk};
ghost use Rattle.std.specs.List.{AllByRecursion};
ghost use Rattle.pd_kinds.specs.Meaning.{Mapping};
ghost use Rattle.pd_laid.specs.Shape.{piece_mappings};
ghost use Rattle.pd_laid.specs.PoolText.{piece_of_part, mappings_of_runs};
ghost use Rattle.pd_answers.specs.Searches.{seen_shape, timed_shape};
ghost use Rattle.pd_meaning_thin.specs.Packed.{runs_from};
ghost use Rattle.pd_restore.specs.ShapeNeed.{IsRunIn};
ghost use Rattle.pd_salvage.specs.declared.saved_shape.ShapedDevice.{ShapedDevice as Device};
ghost use Rattle.pd_salvage.specs.SavedShape.{held_shape, leaf_parts, piece_part, runs_of_piece, runs_of_pieces};
ghost use Rattle.pd_repair.specs.Snaps.{is_twice, mappings_of_pieces, seen_shaped, snap_after, snaps_of};

use crate::seen::{raised_time, snap_of_runs};
use pd_meaning_thin::{PackedRuns, RunPlace};
use pd_restore::{Thrice, counted_of_shape};
use pd_salvage::{PackedPiece, SavedLeaf, SavedPiece, SavedShape, ShapedDevice};
use pd_value::Details;
use std::alloc::{AllocError, Global};

/// What was saved, with this as the pool's time, and with sharing seen in it.
///
/// A shared leaf is looked at once, however many devices use it. It takes the memory of counts of the data blocks, of a number
/// for each shared leaf, and of a second list of the devices.
pub(crate) fn see_shape(
    alloc: Global,
    saved: SavedShape,
    time: u32,
) -> Result<SavedShape, AllocError>
    ensures { IfOk result (λ seen. held_shape seen ≡ seen_shape (timed_shape time (held_shape saved))) }
{
    // For the proof alone, which learns here that the pool is lawful.
    let _ = saved.head();
    let counted = counted_of_shape(alloc, &saved)?;
    let leaf_snaps = snaps_of_leaves(alloc, saved.leaves(), saved.leaf_runs(), &counted)?;
    let devices = seen_devices(
        alloc,
        saved.devices(),
        saved.pieces(),
        saved.runs(),
        &counted,
        leaf_snaps.as_slice(),
    )?;
    let latest = latest_snap(devices.as_slice());
    Ok(saved.with_devices(raised_time(time, latest), devices))
}

/// For each leaf one more than the latest time of its mappings whose data blocks were counted twice or more, or 0 where it has
/// none. All the runs belong to the leaves.
fn snaps_of_leaves(
    alloc: Global,
    leaves: &[SavedLeaf],
    runs: &PackedRuns,
    counted: &Thrice,
) -> Result<Vec<u32>, AllocError>
    requires { AllByRecursion (IsRunIn counted.now.size) runs.now }
    ensures { IfOk result (λ snaps. snaps.items ≡ snaps_of (is_twice counted.now) (map mappings_of_runs (leaf_parts leaves.now runs.now))) }
{
    let mut snaps = Vec::with_capacity(alloc, leaves.len())?;
    let mut place = runs.first();
    for leaf in leaves {
        snaps.push(snap_of_runs(counted, runs, &mut place, leaf.runs, 0))?;
    }
    Ok(snaps)
}

/// The devices, to which all the pieces and all the runs belong, each snapped after those of its mappings whose data blocks
/// were counted twice or more.
fn seen_devices(
    alloc: Global,
    devices: &[ShapedDevice],
    pieces: &[PackedPiece],
    runs: &PackedRuns,
    counted: &Thrice,
    leaf_snaps: &[u32],
) -> Result<Vec<ShapedDevice>, AllocError>
    requires within { AllByRecursion (IsRunIn counted.now.size) runs.now }
    requires number { sum_by (λ (d : Device). d.pieces) devices.now ≡ length pieces.now }
    ensures { (leaves : List (List Mapping)) → leaf_snaps.now ≡ snaps_of (is_twice counted.now) leaves
        → IfOk result (λ seen. seen.items ≡ seen_shaped (is_twice counted.now) leaves devices.now pieces.now runs.now) }
{
    let mut seen = Vec::with_capacity(alloc, devices.len())?;
    let mut place = runs.first();
    let mut left = pieces;
    for device in devices {
        let (mine, later) = left.split_at(device.pieces);
        let snapped = snap_of_pieces(
            mine,
            runs,
            &mut place,
            counted,
            leaf_snaps,
            device.details.snapped,
        );
        seen.push(ShapedDevice {
            id: device.id,
            details: Details {
                snapped,
                ..device.details
            },
            pieces: device.pieces,
        })?;
        left = later;
    }
    Ok(seen)
}

/// The latest of a time and of one more than that of each mapping of some pieces whose data block was counted twice or more. The
/// pieces' runs stand at the place, which goes on behind them.
fn snap_of_pieces(
    pieces: &[PackedPiece],
    runs: &PackedRuns,
    place: &mut RunPlace,
    counted: &Thrice,
    leaf_snaps: &[u32],
    snap: u32,
) -> u32
    requires { AllByRecursion (IsRunIn counted.now.size) (runs_from runs.now place.old) }
    ensures snap { (leaves : List (List Mapping)) → leaf_snaps.now ≡ snaps_of (is_twice counted.now) leaves
        → result ≡ snap_after (is_twice counted.now) snap (mappings_of_pieces leaves pieces.now (runs_from runs.now place.old)) }
    ensures behind { runs_from runs.now place.new ≡ drop (runs_of_pieces pieces.now) (runs_from runs.now place.old) }
{
    let mut latest = snap;
    for piece in pieces {
        latest = later_of_piece(piece, runs, place, counted, leaf_snaps, latest);
    }
    latest
}

/// The same of one piece.
fn later_of_piece(
    piece: &PackedPiece,
    runs: &PackedRuns,
    place: &mut RunPlace,
    counted: &Thrice,
    leaf_snaps: &[u32],
    latest: u32,
) -> u32
    requires { AllByRecursion (IsRunIn counted.now.size) (runs_from runs.now place.old) }
    ensures snap { (leaves : List (List Mapping)) → leaf_snaps.now ≡ snaps_of (is_twice counted.now) leaves
        → result ≡ snap_after (is_twice counted.now) latest
        (piece_mappings leaves (piece_of_part (piece_part piece.now (take (runs_of_piece piece.now) (runs_from runs.now place.old))))) }
    ensures behind { runs_from runs.now place.new ≡ drop (runs_of_piece piece.now) (runs_from runs.now place.old) }
{
    match piece.piece() {
        SavedPiece::Own(number) => snap_of_runs(counted, runs, place, number as usize, latest),
        SavedPiece::Shared(number) => latest.max(snap_of_leaf(leaf_snaps, number as usize)),
    }
}

/// The number of the leaf, or 0 where there is no such leaf.
fn snap_of_leaf(leaf_snaps: &[u32], leaf: usize) -> u32
    ensures { result ≡ slice_index leaf_snaps.now leaf }
{
    match leaf_snaps.get(leaf) {
        Some(snap) => *snap,
        None => 0,
    }
}

/// When the device is snapped that is snapped last.
fn latest_snap(devices: &[ShapedDevice]) -> u32
    ensures { result ≡ fold max 0 (map (λ (d : Device). d.details.snapped) devices.now) }
{
    let mut latest = 0;
    for device in devices {
        latest = latest.max(device.details.snapped);
    }
    latest
}
