//! How many blocks a saved shape needs (`thin_repair`, `thin_shrink`).

ghost use Rattle.std.specs.Prelude.{◌≡◌, ◌+◌, ◌≤◌, ℕ, List, ◌++◌, true, drop, length, map, take, IfOk, IfSome, OnOk};
ghost use Rattle.std.specs.List.{AllByRecursion, flat_map};
ghost use Rattle.pd_grammar.specs.Need.{overflows_in};
ghost use Rattle.pd_grammar.specs.ThinText.{number_in};
ghost use Rattle.pd_laid.specs.PoolText.{shape_need};
ghost use Rattle.pd_meaning_thin.specs.declared.joined.Run.{Run as SavedRun};
ghost use Rattle.pd_meaning_thin.specs.Runs.{spelled};
ghost use Rattle.pd_meaning_thin.specs.Packed.{runs_from};
ghost use Rattle.pd_restore.specs.ShapeNeed.{HasCountedThrice, data_of_runs, AddsDevice, AddsPiece, IsUseBelow};
ghost use Rattle.pd_restore.specs.ShapeNeed.{ArePartsOf, CountsPieces, trees_of_parts, uses_of_saved};
ghost use Rattle.pd_salvage.specs.SavedShape.{device_parts, held_shape};

use crate::saved_lines::RunSpan;
use crate::saved_need::Thrice;
use pd_devices::{NeedCounts, leaves_for, need_of, tree_ended};
use pd_meaning_thin::{PackedRuns, RunPlace};
use pd_salvage::{PackedPiece, SavedPiece, SavedShape, ShapedDevice};
use std::alloc::{AllocError, Global};

/// The most leaves that are counted of a device.
const MOST: u64 = 1 << 62;

/// How many blocks the shape needs, where there are so many for metadata. `None` where memory is wanting: a number that
/// doesn't fit its type is that of a shape for whose metadata there is no memory.
pub fn need_of_shape(alloc: Global, saved: &SavedShape, room: u64) -> Option<u64>
    ensures { IfSome result (λ need. need ≡ shape_need (held_shape saved.now) room) }
{
    let blocks = saved.head().blocks;
    let over = match over_of(alloc, blocks, saved.leaf_runs(), saved.runs()) {
        Ok(over) => over,
        Err(_) => return None,
    };
    let parts = parts_of(alloc, saved, over)?;
    let need = need_of(parts, room);
    if need < u64::MAX { Some(need) } else { None }
}

/// Whether there is room for the shape however its data blocks stand in it: no more of them can stand three times than a
/// third of its mappings. Where that isn't sure, or memory is wanting, it says no. No data block is counted.
pub(crate) fn surely_fits(alloc: Global, saved: &SavedShape, room: u64) -> bool
    requires { room ≤ 4161600 }
    ensures { result ≡ true → shape_need (held_shape saved.now) room ≤ room }
{
    let Some(over) = most_over(saved.leaf_runs(), saved.runs()) else {
        return false;
    };
    let Some(parts) = parts_of(alloc, saved, over) else {
        return false;
    };
    need_of(parts, room) <= room
}

/// What the need of the shape goes by, where so many of its data blocks stand three times or more. `None` where memory is
/// wanting, or a number doesn't fit its type.
fn parts_of(alloc: Global, saved: &SavedShape, over: u64) -> Option<NeedCounts>
    ensures { IfSome result (ArePartsOf saved.now over) }
{
    let blocks = saved.head().blocks;
    let leaves = saved.leaves().len() as u64;
    let often = match often_of(alloc, leaves, saved.pieces()) {
        Ok(often) => often,
        Err(_) => return None,
    };
    let trees = trees_of(saved.devices(), saved.pieces(), saved.runs())?;
    Some(NeedCounts {
        leaves,
        often,
        trees,
        begun: 0,
        devices: saved.devices().len() as u64,
        blocks,
        over,
    })
}

/// How many data blocks can stand three times or more in these runs and in those, at the most.
fn most_over(runs: &PackedRuns, others: &PackedRuns) -> Option<u64>
    ensures { IfSome result (λ over. (blocks : ℕ)
        → overflows_in (data_of_runs runs.now ++ data_of_runs others.now) blocks ≤ over) }
{
    let mappings = number_of(runs)?.checked_add(number_of(others)?)?;
    Some(mappings / 3)
}

/// How many mappings these runs are, where their number fits.
pub(crate) fn number_of(runs: &PackedRuns) -> Option<u64>
    ensures { IfSome result (λ number. number ≡ length (data_of_runs runs.now)) }
{
    let mut place = runs.first();
    let number = mappings_of(runs, &mut place, runs.len())?;
    Some(number)
}

/// How many of so many data blocks stand three times or more in these runs and in those.
fn over_of(
    alloc: Global,
    blocks: u64,
    runs: &PackedRuns,
    others: &PackedRuns,
) -> Result<u64, AllocError>
    requires runs { AllByRecursion (λ (r : SavedRun). r.target + r.length ≤ blocks) runs.now }
    requires others { AllByRecursion (λ (r : SavedRun). r.target + r.length ≤ blocks) others.now }
    ensures { IfOk result (λ over. over ≡ overflows_in (data_of_runs runs.now ++ data_of_runs others.now) blocks) }
{
    let mut counted = Thrice::new(alloc, blocks)?;
    counted.add_runs(runs)?;
    counted.add_runs(others)?;
    Ok(counted.over())
}

/// How many of so many leaves these pieces use three times or more.
fn often_of(alloc: Global, leaves: u64, pieces: &[PackedPiece]) -> Result<u64, AllocError>
    requires { AllByRecursion (IsUseBelow leaves) pieces.now }
    ensures { IfOk result (λ often. often ≡ overflows_in (flat_map uses_of_saved pieces.now) leaves) }
{
    let counted = uses_of(alloc, leaves, pieces)?;
    Ok(counted.over())
}

/// How often these pieces use each of so many leaves, up to three times.
pub(crate) fn uses_of(
    alloc: Global,
    leaves: u64,
    pieces: &[PackedPiece],
) -> Result<Thrice, AllocError>
    requires { AllByRecursion (IsUseBelow leaves) pieces.now }
    ensures size { IfOk result (λ counted. counted.size ≡ leaves) }
    ensures listed { IfOk result (λ counted. HasCountedThrice counted (flat_map uses_of_saved pieces.now)) }
{
    let mut counted = Thrice::new(alloc, leaves)?;
    for piece in pieces {
        count_use(&mut counted, piece)?;
    }
    Ok(counted)
}

/// Counts the leaf that a piece uses once more, where it uses one.
fn count_use(counted: &mut Thrice, piece: &PackedPiece) -> Result<(), AllocError>
    requires { IsUseBelow counted.old.size piece.now }
    ensures size { OnOk result (counted.new.size ≡ counted.old.size) }
    ensures listed { (before : List ℕ) → HasCountedThrice counted.old before
        → OnOk result (HasCountedThrice counted.new (before ++ uses_of_saved piece.now)) }
{
    match piece.piece() {
        SavedPiece::Own(_) => Ok(()),
        SavedPiece::Shared(number) => counted.add(number as u64),
    }
}

/// The trees of some devices: how many blocks they have besides the shared leaves, how many pieces they take, and the place
/// behind their runs.
#[derive(Clone, Copy)]
struct TreeCounts {
    trees: u64,
    pieces: usize,
    place: RunPlace,
}

/// How many blocks the trees of these devices have besides the shared leaves, where that fits.
fn trees_of(devices: &[ShapedDevice], pieces: &[PackedPiece], runs: &PackedRuns) -> Option<u64>
    ensures { IfSome result (λ trees. trees ≡ trees_of_parts (device_parts devices.now pieces.now runs.now)) }
{
    let mut counts = TreeCounts {
        trees: 0,
        pieces: 0,
        place: runs.first(),
    };
    for device in devices {
        match with_device(counts, device, pieces, runs) {
            Some(more) => counts = more,
            None => return None,
        }
    }
    Some(counts.trees)
}

/// The same with a device more, whose pieces and runs come next.
fn with_device(
    counts: TreeCounts,
    device: &ShapedDevice,
    pieces: &[PackedPiece],
    runs: &PackedRuns,
) -> Option<TreeCounts>
    ensures { IfSome result (AddsDevice counts device.now pieces.now runs.now) }
{
    let end = counts.pieces.checked_add(device.pieces)?;
    if end > pieces.len() {
        return None;
    }
    let leaves = leaves_of(&pieces[counts.pieces..end], runs, counts.place)?;
    if leaves.own > MOST || leaves.uses > MOST {
        return None;
    }
    Some(TreeCounts {
        trees: counts
            .trees
            .checked_add(tree_ended(leaves.own, leaves.uses))?,
        pieces: end,
        place: leaves.place,
    })
}

/// The leaves of some pieces: how many are a device's own, how many it uses, and the place behind the pieces' runs.
#[derive(Clone, Copy)]
struct LeafCounts {
    own: u64,
    uses: u64,
    place: RunPlace,
}

/// The leaves of these pieces, whose runs come at this place, where they fit.
fn leaves_of(pieces: &[PackedPiece], runs: &PackedRuns, place: RunPlace) -> Option<LeafCounts>
    ensures { IfSome result (CountsPieces pieces.now runs.now (runs_from runs.now place)) }
{
    let mut counts = LeafCounts {
        own: 0,
        uses: 0,
        place,
    };
    for piece in pieces {
        match with_piece(counts, piece, runs) {
            Some(more) => counts = more,
            None => return None,
        }
    }
    Some(counts)
}

/// The same with a piece more, whose runs come next.
fn with_piece(counts: LeafCounts, piece: &PackedPiece, runs: &PackedRuns) -> Option<LeafCounts>
    ensures { IfSome result (AddsPiece counts piece.now runs.now) }
{
    match piece.piece() {
        SavedPiece::Own(number) => {
            let mut place = counts.place;
            let mappings = mappings_of(runs, &mut place, number as usize)?;
            Some(LeafCounts {
                own: counts.own.checked_add(leaves_for(mappings))?,
                uses: counts.uses,
                place,
            })
        }
        SavedPiece::Shared(_) => Some(LeafCounts {
            own: counts.own,
            uses: counts.uses.checked_add(1)?,
            place: counts.place,
        }),
    }
}

/// How many mappings so many runs at the place are, where their number fits; the place goes on behind them.
fn mappings_of(runs: &PackedRuns, place: &mut RunPlace, number: usize) -> Option<u64>
    ensures mappings { IfSome result (λ mappings. mappings ≡ number_in (map spelled (take number (runs_from runs.now place.old)))) }
    ensures behind { IfSome result (λ _. runs_from runs.now place.new ≡ drop number (runs_from runs.now place.old)) }
{
    let mut row = RunSpan {
        at: *place,
        left: number,
    };
    let mut mappings: u64 = 0;
    while let Some(run) = row.next(runs) {
        match mappings.checked_add(run.length) {
            Some(more) => mappings = more,
            None => return None,
        }
    }
    *place = row.at;
    Some(mappings)
}
