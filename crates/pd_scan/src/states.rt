//! The states of a pool without its superblock, to choose from (`thin_repair`).

ghost use Rattle.std.specs.Prelude.{◌≡◌, ℕ, ◌+◌, ◌-◌, ◌^◌, ◌<◌, ◌≤◌, min, List, [], ◌∷◌, insert, length, map, take, IfOk, IfSome, OnOk};
ghost use Rattle.std.specs.List.{AllByRecursion, range_with_len};
ghost use Rattle.pd_kinds.specs.declared.limits.TheConstants.{MAX_META_BLOCKS};
ghost use Rattle.pd_kinds.specs.CheckFault.{CountsCheckFault};
ghost use Rattle.pd_laid.specs.FoundRoots.{IsFound, lost_graph};
ghost use Rattle.pd_answers.specs.FoundStates.{states as the_states};
ghost use Rattle.pd_image.specs.Device.{IsAttached, OnlyReads};
ghost use Rattle.pd_graph.specs.Notes.{size_of};
ghost use Rattle.pd_scan.specs.declared.states.State.{State as TheState};
ghost use Rattle.pd_scan.specs.Lost.{IsPool, HavePlaces};
ghost use Rattle.pd_scan.specs.Pairs.{AreTreesOf, AreInside, AreFoundStates, AreStatesOf, HasDevices};
ghost use Rattle.pd_scan.specs.Pairs.{IsFitting, first_of, place_among, state_roots};
ghost use Rattle.pd_scan.specs.Partners.{AreBySum};

use crate::fitting::fitting_trees_match;
use crate::numbering::number_lists;
use crate::partners::{BySum, best_of_top, partners_by_sum};
use crate::roots::{Roots, lost_format};
use crate::trees::{LostTrees, measure_lost};
use pd_graph::Format;
use pd_image::Device;
use pd_kinds::{CheckFault, MAX_META_BLOCKS};
use pd_measures::ListCursors;
use std::alloc::{AllocError, Global};

/// How many states there are to choose from, at most.
pub const MAX_STATES: usize = 100;

/// A state of a pool whose superblock is lost: the best roots with one mapping tree, and how many devices stand below them.
#[derive(Clone, Copy, Debug, PartialEq, Eq)]
pub struct State {
    /// The roots, and what stands below them.
    pub roots: Roots,
    /// How many devices the pool has.
    pub devices: u64,
}

/// The states of a pool, of which the best ones are kept.
#[derive(Drop)]
pub struct FoundStates {
    /// The best ones, the best first, `MAX_STATES` at most.
    pub best: Vec<State>,
    /// How many there are in all.
    pub number: u64,
}

impl FoundStates {
    /// No states.
    pub fn none(alloc: Global) -> FoundStates
        ensures best { result.best.items ≡ [] }
        ensures number { result.number ≡ 0 }
    {
        FoundStates {
            best: Vec::new(alloc),
            number: 0,
        }
    }
}

/// The place of a state among others that are in order: before the first one that it is better than.
pub fn place_of(states: &[State], state: &State) -> usize
    ensures place { result ≡ place_among state.now states.now }
    ensures within { result ≤ length states.now }
{
    for i in 0..states.len() {
        if state.roots.is_better(&states[i].roots) {
            return i;
        }
    }
    states.len()
}

/// Counts a state, puts it into its place among the best ones, and leaves out what comes after the first `MAX_STATES`. Want of
/// memory is the only error.
fn put_state(found: &mut FoundStates, state: State) -> Result<(), AllocError>
    requires few { found.old.number < 2 ^ 64 - 1 }
    ensures best { OnOk result (found.new.best.items
        ≡ take 100 (insert found.old.best.items (place_among state found.old.best.items) state)) }
    ensures number { OnOk result (found.new.number ≡ found.old.number + 1) }
{
    let place = place_of(found.best.as_slice(), &state);
    found.best.insert(place, state)?;
    found.best.truncate(MAX_STATES);
    found.number += 1;
    Ok(())
}

/// Puts the state of a mapping tree, if there is one, among those of others. Want of memory is the only error.
fn put_best_of_top(
    found: &mut FoundStates,
    trees: &LostTrees,
    by_sum: &BySum,
    top: u64,
) -> Result<(), AllocError>
    requires by_sum { AreBySum trees.now.details trees.now.details_measures (size_of trees.now.details) by_sum.now }
    requires small { top < size_of trees.now.tops }
    requires few { found.old.number < 2 ^ 64 - 1 }
    ensures { OnOk result ((tops : List ℕ) → AreStatesOf trees.now tops found.old → AreStatesOf trees.now (top ∷ tops) found.new) }
{
    match best_of_top(trees, by_sum, top) {
        Some(roots) => {
            let devices = trees.tops.note(top).below;
            put_state(found, State { roots, devices })
        }
        None => Ok(()),
    }
}

/// The states of all trees that may fit each other, by the partners of each sum. Want of memory is the only error.
fn states_by_sum(
    alloc: Global,
    trees: &LostTrees,
    by_sum: &BySum,
) -> Result<FoundStates, AllocError>
    requires { AreBySum trees.now.details trees.now.details_measures (size_of trees.now.details) by_sum.now }
    ensures { IfOk result (λ found. AreStatesOf trees.now (range_with_len 0 (size_of trees.now.tops)) found) }
{
    let nr = trees.tops.nr();
    let mut found = FoundStates::none(alloc);
    for passed in 0..nr {
        put_best_of_top(&mut found, trees, by_sum, nr - (passed + 1))?;
    }
    Ok(found)
}

/// The states of all trees that may fit each other. It takes memory for each sum that a details tree has, and for the states;
/// want of it is the only error.
fn states_of_trees(alloc: Global, trees: &LostTrees) -> Result<FoundStates, AllocError>
    ensures { IfOk result (λ found. AreStatesOf trees.now (range_with_len 0 (size_of trees.now.tops)) found) }
{
    let by_sum = partners_by_sum(alloc, &trees.details, &trees.details_measures)?;
    states_by_sum(alloc, trees, &by_sum)
}

/// The states of all trees, by the numbers of their lists.
///
/// Fails with `CheckFault::Memory` where memory wasn't found, and with `CheckFault::Device` where a read failed.
fn states_by_numbers<D: Device>(
    alloc: Global,
    trees: &mut LostTrees,
    cursors: &mut ListCursors,
    dev: &mut D,
) -> Result<FoundStates, CheckFault>
    requires attached { IsAttached (D.state dev.old) }
    requires places { HavePlaces (size_of trees.old.tops) trees.old }
    ensures found { IfOk result (λ found. IfSome (D.state dev.old).held (λ image. (data_blocks : ℕ) → AreTreesOf image data_blocks trees.old
        → AreFoundStates (lost_graph image data_blocks) image found)) }
    ensures inside { IfOk result (λ found. AllByRecursion (λ (s : TheState). AreInside (size_of trees.old.tops) s.roots) found.best.items) }
    ensures kept { OnlyReads (D.state dev.old) (D.state dev.new) }
    ensures faults { CountsCheckFault result (D.state dev.old).faults (D.state dev.new).faults }
{
    fitting_trees_match();
    number_lists(alloc, trees, cursors, dev)?;
    Ok(states_of_trees(alloc, trees)?)
}

/// The states of all trees that were measured. It reserves about 530 KiB, which is used as far as trees are deep, and takes 16
/// bytes a device for each different list of a details tree.
///
/// Fails with `CheckFault::Memory` where memory wasn't found, and with `CheckFault::Device` where a read failed.
fn choose_states<D: Device>(
    alloc: Global,
    mut trees: LostTrees,
    dev: &mut D,
) -> Result<FoundStates, CheckFault>
    requires attached { IsAttached (D.state dev.old) }
    requires places { HavePlaces (size_of trees.tops) trees }
    ensures found { IfOk result (λ found. IfSome (D.state dev.old).held (λ image. (data_blocks : ℕ) → AreTreesOf image data_blocks trees
        → AreFoundStates (lost_graph image data_blocks) image found)) }
    ensures inside { IfOk result (λ found. AllByRecursion (λ (s : TheState). AreInside (size_of trees.tops) s.roots) found.best.items) }
    ensures kept { OnlyReads (D.state dev.old) (D.state dev.new) }
    ensures faults { CountsCheckFault result (D.state dev.old).faults (D.state dev.new).faults }
{
    let mut cursors = ListCursors::new(alloc)?;
    states_by_numbers(alloc, &mut trees, &mut cursors, dev)
}

/// Finds the states of a pool of this format.
///
/// Fails with `CheckFault::Memory` where memory wasn't found, and with `CheckFault::Device` where a read failed.
fn find_states_in<F: Format, D: Device>(
    alloc: Global,
    format: &F,
    dev: &mut D,
) -> Result<FoundStates, CheckFault>
    requires pool { IsPool F.ROLES (F.graph format.now) }
    requires attached { IsAttached (D.state dev.old) }
    requires within { (F.graph format.now).nr ≤ (D.state dev.old).blocks }
    ensures found { IfOk result (λ found. IfSome (D.state dev.old).held
        (λ image. (data_blocks : ℕ) → F.graph format.now ≡ lost_graph image data_blocks
        → AreFoundStates (lost_graph image data_blocks) image found)) }
    ensures inside { IfOk result (λ found. AllByRecursion (λ (s : TheState). AreInside (F.graph format.now).nr s.roots) found.best.items) }
    ensures kept { OnlyReads (D.state dev.old) (D.state dev.new) }
    ensures faults { CountsCheckFault result (D.state dev.old).faults (D.state dev.new).faults }
{
    let trees = measure_lost(alloc, format, dev)?;
    choose_states(alloc, trees, dev)
}

/// Finds the states to choose from of a pool with so many data blocks, whatever its block 0 holds: for each mapping tree that is
/// sound and has a details tree that fits it, the best such one. The best state comes first, by the order that `find_roots` has.
/// At most `MAX_STATES` are kept, the best ones, but all are counted. The first state has the roots that `find_roots` finds, and
/// there is none exactly where it finds none.
///
/// The device is only read. It takes 240 bytes and a set of roles for each of its blocks, of which it looks at no more than
/// `MAX_META_BLOCKS`. It reserves about 530 KiB, which is used as far as trees are deep, and takes 16 bytes a device for each
/// different list of devices that a details tree has, and memory for each sum of these and for the states.
///
/// Fails with `CheckFault::Memory` where memory wasn't found, and with `CheckFault::Device` where a read failed.
pub fn find_states<D: Device>(
    alloc: Global,
    dev: &mut D,
    data_blocks: u64,
) -> Result<FoundStates, CheckFault>
    requires attached { IsAttached (D.state dev.old) }
    ensures found { IfOk result (λ found. IfSome (D.state dev.old).held
        (λ image. map state_roots found.best.items ≡ take 100 (the_states (lost_graph image data_blocks) image))) }
    ensures number { IfOk result (λ found. IfSome (D.state dev.old).held
        (λ image. found.number ≡ length (the_states (lost_graph image data_blocks) image))) }
    ensures devices { IfOk result (λ found. IfSome (D.state dev.old).held
        (λ image. AllByRecursion (HasDevices (lost_graph image data_blocks) image) found.best.items)) }
    ensures inside { IfOk result (λ found. AllByRecursion
        (λ (s : TheState). AreInside (min (D.state dev.old).blocks MAX_META_BLOCKS) s.roots) found.best.items) }
    ensures kept { OnlyReads (D.state dev.old) (D.state dev.new) }
    ensures faults { CountsCheckFault result (D.state dev.old).faults (D.state dev.new).faults }
{
    let nr = dev.blocks().min(MAX_META_BLOCKS);
    if nr == 0 {
        return Ok(FoundStates::none(alloc));
    }
    find_states_in(alloc, &lost_format(nr, data_blocks), dev)
}

/// The first state is what a search finds, and there is none exactly where it finds none.
pub fn first_state_is_the_best()
    ensures { (image : List (List ℕ)) (data_blocks : ℕ)
        → IsFound (lost_graph image data_blocks) image (first_of (the_states (lost_graph image data_blocks) image)) }
{}

/// Each state is a pair of trees that fit each other, told by what stands below them.
pub fn states_fit()
    ensures { (image : List (List ℕ)) (data_blocks : ℕ)
        → AllByRecursion (IsFitting (lost_graph image data_blocks) image) (the_states (lost_graph image data_blocks) image) }
{}
