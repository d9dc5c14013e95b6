//! Which trees fit each other, of those of which it isn't known by what is measured of them (`thin_repair`).

ghost use Rattle.std.specs.Prelude.{◌≡◌, ℕ, ◌<◌, true, List, IfOk, IfSome};
ghost use Rattle.pd_kinds.specs.CheckFault.{CountsCheckFault};
ghost use Rattle.pd_kinds.specs.Objects.{CountsFault};
ghost use Rattle.pd_laid.specs.FoundRoots.{are_fitting, lost_graph, roots_at, IsFound};
ghost use Rattle.pd_image.specs.Device.{IsAttached, OnlyReads};
ghost use Rattle.pd_graph.specs.Notes.{size_of};
ghost use Rattle.pd_scan.specs.declared.trees.LostTrees.{LostTrees as TheTrees};
ghost use Rattle.pd_scan.specs.Pairs.{AreTreesOf, IsBest, IsBestOf, may_fit as may_match};
ghost use Rattle.pd_scan.specs.Pairs.{pair_of_trees, AreInside, found_of, roots_of, may_fit};
ghost use Rattle.pd_scan.specs.Lost.{HavePlaces, AreLostTrees};

use crate::numbering::number_lists;
use crate::partners::{best_of_tops, partners_by_sum};
use crate::roots::Roots;
use crate::trees::LostTrees;
use pd_image::{Device, Failed};
use pd_kinds::CheckFault;
use pd_measures::{ListCursors, do_trees_fit, fitting_trees_have_one_list};
use std::alloc::{AllocError, Global};

/// Trees that fit each other may do so by what is measured of them, and their roots are told by it.
pub(crate) fn fitting_trees_match()
    ensures fits { (image : List (List ℕ)) (data_blocks : ℕ) (trees : TheTrees) (top details : ℕ) → AreTreesOf image data_blocks trees
        → are_fitting (lost_graph image data_blocks) image top details ≡ true → may_match trees top details ≡ true }
    ensures roots { (image : List (List ℕ)) (data_blocks : ℕ) (trees : TheTrees) (top details : ℕ) → AreTreesOf image data_blocks trees
        → are_fitting (lost_graph image data_blocks) image top details ≡ true
        → roots_at (lost_graph image data_blocks) image top details ≡ pair_of_trees trees top details }
{
    fitting_trees_have_one_list();
}

/// Whether two trees fit each other that may do so: reads both, each node once at most.
fn fit<D: Device>(
    trees: &LostTrees,
    cursors: &mut ListCursors,
    dev: &mut D,
    top: u64,
    details: u64,
) -> Result<bool, Failed>
    requires attached { IsAttached (D.state dev.old) }
    requires places { HavePlaces (size_of trees.now.tops) trees.now }
    requires may { may_match trees.now top details ≡ true }
    ensures fits { IfOk result (λ fits. IfSome (D.state dev.old).held (λ image. (data_blocks : ℕ) → AreTreesOf image data_blocks trees.now
        → fits ≡ are_fitting (lost_graph image data_blocks) image top details)) }
    ensures kept { OnlyReads (D.state dev.old) (D.state dev.new) }
    ensures faults { CountsFault result (D.state dev.old).faults (D.state dev.new).faults }
{
    do_trees_fit(cursors, &trees.devices, dev, top, details)
}

/// The best roots of all trees, by the numbers of their lists.
///
/// Fails with `CheckFault::Memory` where memory wasn't found, and with `CheckFault::Device` where a read failed.
fn best_by_numbers<D: Device>(
    alloc: Global,
    trees: &mut LostTrees,
    cursors: &mut ListCursors,
    dev: &mut D,
) -> Result<Option<Roots>, CheckFault>
    requires attached { IsAttached (D.state dev.old) }
    requires places { HavePlaces (size_of trees.old.tops) trees.old }
    ensures best { IfOk result (λ found. IfSome (D.state dev.old).held (λ image. (data_blocks : ℕ) → AreTreesOf image data_blocks trees.old
        → IsBestOf (are_fitting (lost_graph image data_blocks) image) (pair_of_trees trees.old)
        (λ t d. t < size_of trees.old.tops) (found_of found))) }
    ensures inside { IfOk result (λ found. IfSome found (AreInside (size_of trees.old.tops))) }
    ensures kept { OnlyReads (D.state dev.old) (D.state dev.new) }
    ensures faults { CountsCheckFault result (D.state dev.old).faults (D.state dev.new).faults }
{
    number_lists(alloc, trees, cursors, dev)?;
    let by_number = partners_by_sum(alloc, &trees.details, &trees.details_measures)?;
    Ok(best_of_tops(trees, &by_number))
}

/// The best roots, where these are the best of all that may fit each other: these, if they fit. They do unless two
/// different lists of devices have as many mappings and the same fingerprint, which only an image has that was made for it.
/// Then all lists are numbered, and the best roots are those by the numbers.
///
/// Fails with `CheckFault::Memory` where memory wasn't found, and with `CheckFault::Device` where a read failed.
pub(crate) fn best_from<D: Device>(
    alloc: Global,
    roots: Roots,
    trees: &mut LostTrees,
    cursors: &mut ListCursors,
    dev: &mut D,
) -> Result<Option<Roots>, CheckFault>
    requires attached { IsAttached (D.state dev.old) }
    requires places { HavePlaces (size_of trees.old.tops) trees.old }
    requires best { IsBest (may_match trees.old) (pair_of_trees trees.old) (λ t d. t < size_of trees.old.tops) (roots_of roots) }
    ensures best { IfOk result (λ found. IfSome (D.state dev.old).held (λ image. (data_blocks : ℕ) → AreTreesOf image data_blocks trees.old
        → IsBestOf (are_fitting (lost_graph image data_blocks) image) (pair_of_trees trees.old)
        (λ t d. t < size_of trees.old.tops) (found_of found))) }
    ensures inside { IfOk result (λ found. IfSome found (AreInside (size_of trees.old.tops))) }
    ensures kept { OnlyReads (D.state dev.old) (D.state dev.new) }
    ensures faults { CountsCheckFault result (D.state dev.old).faults (D.state dev.new).faults }
{
    fitting_trees_match();
    if fit(trees, cursors, dev, roots.top, roots.details)? {
        return Ok(Some(roots));
    }
    best_by_numbers(alloc, trees, cursors, dev)
}

// The choice of the best roots among all trees that were measured (`thin_repair`).

/// The best roots of all trees that may fit each other. It takes memory for each sum that a details tree has; want of it is the
/// only error.
fn best_by_sums(alloc: Global, trees: &LostTrees) -> Result<Option<Roots>, AllocError>
    ensures { IfOk result (λ found. IsBestOf (may_fit trees.now) (pair_of_trees trees.now)
        (λ t d. t < size_of trees.now.tops) (found_of found)) }
{
    let by_sum = partners_by_sum(alloc, &trees.details, &trees.details_measures)?;
    Ok(best_of_tops(trees, &by_sum))
}

/// The best roots of all trees that fit each other, where these are the best of all that may fit.
///
/// Fails with `CheckFault::Memory` where memory wasn't found, and with `CheckFault::Device` where a read failed.
fn best_of_fitting<D: Device>(
    alloc: Global,
    roots: Roots,
    trees: &mut LostTrees,
    dev: &mut D,
) -> Result<Option<Roots>, CheckFault>
    requires attached { IsAttached (D.state dev.old) }
    requires places { HavePlaces (size_of trees.old.tops) trees.old }
    requires best { IsBest (may_fit trees.old) (pair_of_trees trees.old) (λ t d. t < size_of trees.old.tops) (roots_of roots) }
    ensures best { IfOk result (λ found. IfSome (D.state dev.old).held (λ image. (data_blocks : ℕ) → AreTreesOf image data_blocks trees.old
        → IsBestOf (are_fitting (lost_graph image data_blocks) image) (pair_of_trees trees.old)
        (λ t d. t < size_of trees.old.tops) (found_of found))) }
    ensures inside { IfOk result (λ found. IfSome found (AreInside (size_of trees.old.tops))) }
    ensures kept { OnlyReads (D.state dev.old) (D.state dev.new) }
    ensures faults { CountsCheckFault result (D.state dev.old).faults (D.state dev.new).faults }
{
    let mut cursors = ListCursors::new(alloc)?;
    best_from(alloc, roots, trees, &mut cursors, dev)
}

/// Chooses the best roots: those of a mapping tree and of a details tree that fit each other, with the latest time, of those
/// with the latest transaction, then with the greatest sum of the mappings' times, with the most mappings, and with the
/// highest blocks. There are none exactly where no two trees fit.
///
/// Trees meet by what is measured of them and not pair by pair: the best roots of all that may fit are found in one pass
/// over the details trees and one over the mapping trees. Then their lists are read to see whether they do. It takes
/// memory for each sum that a details tree has, and reserves about 530 KiB, which is used as far as trees are deep. Where
/// they don't fit it takes 16 bytes a device for each different list of a details tree.
///
/// Fails with `CheckFault::Memory` where memory wasn't found, and with `CheckFault::Device` where a read failed.
pub(crate) fn choose<D: Device>(
    alloc: Global,
    mut trees: LostTrees,
    dev: &mut D,
) -> Result<Option<Roots>, CheckFault>
    requires attached { IsAttached (D.state dev.old) }
    requires places { HavePlaces (size_of trees.tops) trees }
    ensures found { IfOk result (λ found. IfSome (D.state dev.old).held
        (λ image. (data_blocks : ℕ) → let graph = lost_graph image data_blocks in
        graph.nr ≡ size_of trees.tops → AreLostTrees graph image trees → IsFound graph image (found_of found))) }
    ensures inside { IfOk result (λ found. IfSome found (AreInside (size_of trees.tops))) }
    ensures kept { OnlyReads (D.state dev.old) (D.state dev.new) }
    ensures faults { CountsCheckFault result (D.state dev.old).faults (D.state dev.new).faults }
{
    fitting_trees_match();
    match best_by_sums(alloc, &trees) {
        Ok(Some(roots)) => best_of_fitting(alloc, roots, &mut trees, dev),
        Ok(None) => Ok(None),
        Err(_) => Err(CheckFault::Memory),
    }
}
