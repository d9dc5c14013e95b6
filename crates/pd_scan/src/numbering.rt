//! The numbers of lists of devices: for trees whose sums don't tell their lists apart (`thin_repair`).

ghost use Rattle.std.specs.Prelude.{◌≡◌, ℕ, ◌+◌, ◌<◌, IfOk, IfSome, OnOk};
ghost use Rattle.pd_kinds.specs.CheckFault.{CountsCheckFault};
ghost use Rattle.pd_laid.specs.FoundRoots.{are_fitting, lost_graph};
ghost use Rattle.pd_image.specs.Device.{IsAttached, OnlyReads};
ghost use Rattle.pd_graph.specs.Notes.{size_of};
ghost use Rattle.pd_scan.specs.Numbers.{AreDetailsNumbered, AreNumbered, AreTold, AreTopsChanged, AreTopsNumbered, IsNumber, with_number};
ghost use Rattle.pd_scan.specs.Pairs.{AreTreesOf, may_fit, pair_of_trees};
ghost use Rattle.pd_scan.specs.Lost.{HavePlaces};

use crate::tops::is_good;
use crate::trees::LostTrees;
use pd_image::Device;
use pd_kinds::CheckFault;
use pd_measures::{
    DeviceCounts, ListCursors, Measured, fitting_trees_have_one_list, list_of_details, list_of_top,
};
use std::alloc::{AllocError, Global};
use std::collections::BTreeMap;

/// The lists of details trees, each with its number: the lowest root that has it.
pub(crate) type Numbers = BTreeMap<DeviceCounts, u64>;

/// The number of a list: the one that it has in the table, or its own, which it gets there then. Want of memory is the only
/// error.
fn number_of(numbers: &mut Numbers, list: DeviceCounts, own: u64) -> Result<u64, AllocError>
    ensures { IfOk result (λ number. IsNumber numbers.old numbers.new list own number) }
{
    match numbers.get(&list).copied() {
        Some(known) => Ok(known),
        None => {
            numbers.insert(list, own)?;
            Ok(own)
        }
    }
}

/// The measure with a number in the place of its fingerprint.
fn numbered(measure: Measured, number: u64) -> Measured
    ensures { result ≡ with_number measure number }
{
    Measured {
        print: number,
        ..measure
    }
}

/// Numbers the list of the details tree with root b, if it is sound.
fn number_details_tree<D: Device>(
    alloc: Global,
    numbers: &mut Numbers,
    trees: &mut LostTrees,
    cursors: &mut ListCursors,
    dev: &mut D,
    b: u64,
) -> Result<(), CheckFault>
    requires attached { IsAttached (D.state dev.old) }
    requires places { HavePlaces (size_of trees.old.tops) trees.old }
    requires small { b < size_of trees.old.tops }
    ensures numbered { OnOk result (IfSome (D.state dev.old).held (λ image. (data_blocks : ℕ) → let graph = lost_graph image data_blocks in
        AreTold graph image trees.old → AreNumbered graph image trees.old.details_measures b numbers.old
        → AreNumbered graph image trees.new.details_measures (b + 1) numbers.new)) }
    ensures measures { OnOk result (AreDetailsNumbered trees.old trees.new) }
    ensures kept { OnlyReads (D.state dev.old) (D.state dev.new) }
    ensures faults { CountsCheckFault result (D.state dev.old).faults (D.state dev.new).faults }
{
    if !is_good(&trees.details, b) {
        return Ok(());
    }
    let list = list_of_details(alloc, cursors, &trees.devices, dev, b)?;
    let number = number_of(numbers, list, b)?;
    let measure = trees.details_measures.get(b);
    trees.details_measures.set(b, numbered(measure, number));
    Ok(())
}

/// Numbers the lists of all sound details trees. It takes memory for each different list.
fn number_details<D: Device>(
    alloc: Global,
    trees: &mut LostTrees,
    cursors: &mut ListCursors,
    dev: &mut D,
) -> Result<Numbers, CheckFault>
    requires attached { IsAttached (D.state dev.old) }
    requires places { HavePlaces (size_of trees.old.tops) trees.old }
    ensures numbered { IfOk result (λ numbers. IfSome (D.state dev.old).held
        (λ image. (data_blocks : ℕ) → let graph = lost_graph image data_blocks in
        AreTold graph image trees.old → AreNumbered graph image trees.new.details_measures (size_of trees.old.tops) numbers)) }
    ensures measures { OnOk result (AreDetailsNumbered trees.old trees.new) }
    ensures kept { OnlyReads (D.state dev.old) (D.state dev.new) }
    ensures faults { CountsCheckFault result (D.state dev.old).faults (D.state dev.new).faults }
{
    let mut numbers = BTreeMap::new(alloc);
    for b in 0..trees.tops.nr() {
        number_details_tree(alloc, &mut numbers, trees, cursors, dev, b)?;
    }
    Ok(numbers)
}

/// Gives the mapping tree with this root the number of its list, if it is sound.
fn number_top<D: Device>(
    alloc: Global,
    numbers: &Numbers,
    trees: &mut LostTrees,
    cursors: &mut ListCursors,
    dev: &mut D,
    top: u64,
) -> Result<(), CheckFault>
    requires attached { IsAttached (D.state dev.old) }
    requires places { HavePlaces (size_of trees.old.tops) trees.old }
    requires small { top < size_of trees.old.tops }
    ensures numbered { OnOk result (IfSome (D.state dev.old).held (λ image. (data_blocks : ℕ) → let graph = lost_graph image data_blocks in
        AreTold graph image trees.old → AreTopsNumbered graph image numbers.now (size_of trees.old.tops) top trees.old.top_measures
        → AreTopsNumbered graph image numbers.now (size_of trees.old.tops) (top + 1) trees.new.top_measures)) }
    ensures measures { OnOk result (AreTopsChanged trees.old trees.new) }
    ensures kept { OnlyReads (D.state dev.old) (D.state dev.new) }
    ensures faults { CountsCheckFault result (D.state dev.old).faults (D.state dev.new).faults }
{
    if !is_good(&trees.tops, top) {
        return Ok(());
    }
    let list = list_of_top(alloc, cursors, &trees.devices, dev, top)?;
    let number = numbers.get(&list).copied().unwrap_or(trees.tops.nr());
    let measure = trees.top_measures.get(top);
    trees.top_measures.set(top, numbered(measure, number));
    Ok(())
}

/// Gives each sound mapping tree the number of its list: the number of blocks where no details tree has that list.
fn number_tops<D: Device>(
    alloc: Global,
    numbers: &Numbers,
    trees: &mut LostTrees,
    cursors: &mut ListCursors,
    dev: &mut D,
) -> Result<(), CheckFault>
    requires attached { IsAttached (D.state dev.old) }
    requires places { HavePlaces (size_of trees.old.tops) trees.old }
    ensures numbered { OnOk result (IfSome (D.state dev.old).held (λ image. (data_blocks : ℕ) → let graph = lost_graph image data_blocks in
        AreTold graph image trees.old
        → AreTopsNumbered graph image numbers.now (size_of trees.old.tops) (size_of trees.old.tops) trees.new.top_measures)) }
    ensures measures { OnOk result (AreTopsChanged trees.old trees.new) }
    ensures kept { OnlyReads (D.state dev.old) (D.state dev.new) }
    ensures faults { CountsCheckFault result (D.state dev.old).faults (D.state dev.new).faults }
{
    for top in 0..trees.tops.nr() {
        number_top(alloc, numbers, trees, cursors, dev, top)?;
    }
    Ok(())
}

/// Gives the lists of devices of all sound trees numbers in the place of their fingerprints: then two trees may fit each
/// other by what is measured of them just where they do. It reads each list once, and takes 16 bytes a device for each
/// different list of a details tree.
///
/// Fails with `CheckFault::Memory` where memory wasn't found, and with `CheckFault::Device` where a read failed.
pub(crate) fn number_lists<D: Device>(
    alloc: Global,
    trees: &mut LostTrees,
    cursors: &mut ListCursors,
    dev: &mut D,
) -> Result<(), CheckFault>
    requires attached { IsAttached (D.state dev.old) }
    requires places { HavePlaces (size_of trees.old.tops) trees.old }
    ensures fits { OnOk result (IfSome (D.state dev.old).held (λ image. (data_blocks : ℕ) → AreTreesOf image data_blocks trees.old
        → (top details : ℕ) → may_fit trees.new top details ≡ are_fitting (lost_graph image data_blocks) image top details)) }
    ensures pairs { OnOk result ((top details : ℕ) → pair_of_trees trees.new top details ≡ pair_of_trees trees.old top details) }
    ensures places { OnOk result (HavePlaces (size_of trees.old.tops) trees.new) }
    ensures tops { OnOk result (trees.new.tops ≡ trees.old.tops) }
    ensures kept { OnlyReads (D.state dev.old) (D.state dev.new) }
    ensures faults { CountsCheckFault result (D.state dev.old).faults (D.state dev.new).faults }
{
    fitting_trees_have_one_list();
    let numbers = number_details(alloc, trees, cursors, dev)?;
    number_tops(alloc, &numbers, trees, cursors, dev)
}
