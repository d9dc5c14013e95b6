//! The pool in memory whose data blocks were moved (`thin_shrink`).

ghost use Rattle.std.specs.Prelude.{◌≡◌, ◌-◌, ◌^◌, min, length, map, take, drop, sum_by, IfOk, OnOk};
ghost use Rattle.std.specs.List.{AllByRecursion};
ghost use Rattle.pd_grammar.specs.ThinText.{mappings_of};
ghost use Rattle.pd_answers.specs.Shrinks.{moved_mapping, moved_pool};
ghost use Rattle.pd_meaning_thin.specs.Runs.{spelled};
ghost use Rattle.pd_meaning_thin.specs.Packed.{runs_from};
ghost use Rattle.pd_salvage.specs.Gather.{mappings_of_runs, HasRuns, Takes};
ghost use Rattle.pd_salvage.specs.Saved.{pool_of};
ghost use Rattle.pd_shrink.specs.Moves.{moves_in, AddsPart, AreMoved, AreMovesFrom, AreMovesOf, FitsRun, head_to};

use crate::moves::{MovedBlock, place_of};
use crate::parts::Part;
use pd_laws_changed::moved_pool_is_lawful;
use pd_meaning_thin::{PackedRuns, Run, RunPlace};
use pd_salvage::{Joining, Salvage, SavedHead};
use std::alloc::{AllocError, Global};

/// Parts and the runs of all of them, whose data blocks were moved.
#[derive(Drop)]
pub(crate) struct Moved<T> {
    pub(crate) parts: Vec<T>,
    pub(crate) runs: PackedRuns,
}

/// The pool with its data blocks moved: so many data blocks, and each mapping names its block's new place. Its runs
/// are as long as can be.
///
/// It takes 40 bytes a device, and for a run some 4 and at most 35.
pub fn move_pool(
    alloc: Global,
    saved: &Salvage,
    end: u64,
    moves: &[MovedBlock],
) -> Result<Salvage, AllocError>
    requires moves { AreMovesOf (pool_of saved.now) end (moves_in moves.now) }
    ensures { IfOk result (λ moved. pool_of moved ≡ moved_pool (pool_of saved.now) end (moves_in moves.now)) }
{
    moved_pool_is_lawful();
    let head = head_to(saved.head(), end);
    let moved = move_all(alloc, saved.devices(), saved.runs(), end, moves)?;
    Ok(Salvage::of_parts(head, moved.parts, moved.runs))
}

/// What the superblock says, with so many data blocks.
pub(crate) fn head_to(old: &SavedHead, end: u64) -> SavedHead
    ensures { result ≡ head_to old.now end }
{
    SavedHead {
        uuid: old.uuid,
        time: old.time,
        transaction: old.transaction,
        block_size: old.block_size,
        blocks: end,
    }
}

/// The parts and their runs, whose data blocks are moved.
pub(crate) fn move_all<T: Part>(
    alloc: Global,
    parts: &[T],
    runs: &PackedRuns,
    end: u64,
    moves: &[MovedBlock],
) -> Result<Moved<T>, AllocError>
    requires ordered { AreMovesFrom (2 ^ 40) end (moves_in moves.now) }
    requires number { sum_by T.count parts.now ≡ length runs.now }
    requires fits { AllByRecursion FitsRun runs.now }
    ensures { IfOk result (λ moved. AreMoved T.count T.says (moves_in moves.now) parts.now runs.now moved.parts.items moved.runs) }
{
    let mut moved = Moved {
        parts: Vec::new(alloc),
        runs: PackedRuns::new(alloc),
    };
    let mut place = runs.first();
    for part in parts {
        move_part(part, runs, &mut place, end, moves, &mut moved)?;
    }
    Ok(moved)
}

/// Adds a part with its runs, whose data blocks are moved: those from the place on, which goes on behind them.
fn move_part<T: Part>(
    part: &T,
    all: &PackedRuns,
    place: &mut RunPlace,
    end: u64,
    moves: &[MovedBlock],
    moved: &mut Moved<T>,
) -> Result<(), AllocError>
    requires ordered { AreMovesFrom (2 ^ 40) end (moves_in moves.now) }
    requires fits { AllByRecursion FitsRun (runs_from all.now place.old) }
    ensures moved { OnOk result
        (AddsPart T.count T.says (moves_in moves.now) part.now (take (T.count part.now) (runs_from all.now place.old))
        moved.old.parts.items moved.old.runs moved.new.parts.items moved.new.runs) }
    ensures behind { OnOk result (runs_from all.now place.new ≡ drop (T.count part.now) (runs_from all.now place.old)) }
{
    let first = moved.runs.len();
    move_runs(all, place, part.runs(), end, moves, &mut moved.runs)?;
    let runs = moved.runs.len() - first;
    moved.parts.push(part.with_runs(runs).ok_or(AllocError)?)?;
    Ok(())
}

/// Adds so many runs from the place on, which goes on behind them. Their data blocks are moved, and they are as long as can
/// be among themselves.
fn move_runs(
    all: &PackedRuns,
    place: &mut RunPlace,
    number: usize,
    end: u64,
    moves: &[MovedBlock],
    runs: &mut PackedRuns,
) -> Result<(), AllocError>
    requires ordered { AreMovesFrom (2 ^ 40) end (moves_in moves.now) }
    requires fits { AllByRecursion FitsRun (runs_from all.now place.old) }
    ensures moved { OnOk result (HasRuns runs.old runs.new
        (map (moved_mapping (moves_in moves.now)) (mappings_of_runs (take number (runs_from all.now place.old))))) }
    ensures behind { OnOk result (runs_from all.now place.new ≡ drop number (runs_from all.now place.old)) }
{
    let mut joining = Joining { begun: None };
    for _ in 0..number {
        if let Some(run) = all.next(place) {
            move_run(&run, end, moves, &mut joining, runs)?;
        }
    }
    joining.end(runs)?;
    Ok(())
}

/// Takes a run: the part below `end` as it is, and the blocks from there on each at its new place.
fn move_run(
    run: &Run,
    end: u64,
    moves: &[MovedBlock],
    joining: &mut Joining,
    runs: &mut PackedRuns,
) -> Result<(), AllocError>
    requires ordered { AreMovesFrom (2 ^ 40) end (moves_in moves.now) }
    requires fits { FitsRun run.now }
    ensures { OnOk result
        (Takes (map (moved_mapping (moves_in moves.now)) (mappings_of (spelled run.now))) runs.old runs.new joining.old joining.new) }
{
    let stays = staying(run, end);
    if stays > 0 {
        let part = Run {
            virt: run.virt,
            target: run.target,
            length: stays,
            time: run.time,
        };
        joining.take(runs, part)?;
    }
    let mut next = 0;
    for i in stays..run.length {
        let one = Run {
            virt: run.virt + i,
            target: place_of(moves, &mut next, run.target + i),
            length: 1,
            time: run.time,
        };
        joining.take(runs, one)?;
    }
    Ok(())
}

/// How many of a run's first data blocks are below `end`.
fn staying(run: &Run, end: u64) -> u64
    ensures { result ≡ min (end - run.now.target) run.now.length }
{
    if end <= run.target {
        0
    } else if end - run.target < run.length {
        end - run.target
    } else {
        run.length
    }
}
