//! What a search for the roots of a pool finds and leaves: the laws of a repair without a superblock.

ghost use Rattle.std.specs.Prelude.{◌≡◌, ℕ, List, [], Bool, true, nat_lt};
ghost use Rattle.std.specs.List.{AllByRecursion, flat_map};
ghost use Rattle.pd_kinds.specs.declared.kind.Kind.TheVariants.{Thin};
ghost use Rattle.pd_kinds.specs.declared.kind.Stage.TheVariants.{Whole};
ghost use Rattle.pd_kinds.specs.Graph.{block_at};
ghost use Rattle.pd_kinds.specs.Image.{IsImage, HasBytes};
ghost use Rattle.pd_kinds.specs.Stages.{faults};
ghost use Rattle.pd_kinds.specs.ThinFormat.{thin_fields};
ghost use Rattle.pd_kinds.specs.Meaning.{ThinPool, thin_meaning};
ghost use Rattle.pd_grammar.specs.Lawful.{IsLawfulPool};
ghost use Rattle.pd_laid.specs.FoundRoots.{AreBest, FoundRoots, found_pool, lost_graph, are_fitting, roots_at};
ghost use Rattle.pd_laid.specs.PoolText.{IsLawfulShape};
ghost use Rattle.pd_answers.specs.Terms.{Objects};
ghost use Rattle.pd_answers.specs.Outputs.{IsWorkDone, is_too_small};
ghost use Rattle.pd_answers.specs.KeptLines.{told_from, told_lines};
ghost use Rattle.pd_answers.specs.NamedRepairs.{named_pool, named_shape, saved_from_named, named_fields};
ghost use Rattle.pd_answers.specs.declared.request.GivenSuper.{GivenSuper};
ghost use Rattle.pd_answers.specs.declared.request.NamedRoots.{NamedRoots};
ghost use Rattle.pd_answers.specs.Repairs.{saved_making, saved_of};
ghost use Rattle.pd_answers.specs.DamagedStates.{damaged_states};
ghost use Rattle.pd_answers.specs.FoundStates.{found_fields};
ghost use Rattle.pd_answers.specs.Searches.{found_shape, seen_pool, saved_from};
ghost use Rattle.pd_laws_answers.specs.Search.{DoNumbersFit, HasNoRoots, HoldsBestPool, HoldsFoundPool, HoldsNoEarlier, IsLostOf};
ghost use Rattle.pd_laws_answers.specs.Search.{IsLostPool, IsSearchAnswered, KeepsRoots, LeavesFoundPool, HoldsNamed};
ghost use Rattle.pd_laws_answers.specs.Search.{IsNamedRepairAnswered, KeepsListed, LeavesNamed, IsSharedSearchAnswered};
ghost use Rattle.pd_laws_answers.specs.Saved.{told_need, whole_line};
ghost use Rattle.pd_laws_answers.specs.Sharing.{IsTimely, SeesSharing, SharingIsSeen};

use crate::laws::laid_shapes_are_clean;
use crate::repairs::searched_pool_keeps_its_sharing;
use pd_laid::sound_pool_is_saved;
use pd_laws_changed::pools_in_order_are_known;
use pd_laws_laid::laid_pool_is_clean;
use pd_laws_shapes::{saved_shapes_are_shapes, saved_shapes_mean_what_is_saved};
use pd_meaning_thin::sound_pools_are_lawful;
use pd_scan::found_pools_are_saved_whole;

/// The pool of the best roots is lawful, whatever else is damaged, where the given numbers fit a superblock: a text spells it.
pub fn found_pools_are_lawful()
    ensures { (image : List (List ℕ)) (transaction block_size blocks : ℕ) (roots : FoundRoots) → IsImage image
        → DoNumbersFit transaction block_size blocks → AreBest (lost_graph image blocks) image roots
        → IsLawfulPool (found_pool (lost_graph image blocks) image transaction block_size roots) }
{
    found_pools_are_saved_whole();
}

/// At status 0 the output holds, with nothing unsynced, an image that is clean and means the pool of the input's best roots, made so
/// that sharing is seen in it, and these are the roots that were put to `out`. It holds such an image under any status once `out` was
/// touched: the line comes after the work. At status 1 no two trees of the input fit each other, and the output wasn't written.
pub fn searched_pool_is_clean()
    ensures found { (from to : List ℕ) (transaction block_size blocks : ℕ) (before after : Objects)
        → DoNumbersFit transaction block_size blocks
        → IsSearchAnswered from to transaction block_size blocks before after 0
        → HoldsFoundPool transaction block_size blocks before after }
    ensures made { (from to : List ℕ) (transaction block_size blocks : ℕ) (before after : Objects) (status : ℕ)
        → DoNumbersFit transaction block_size blocks
        → IsSearchAnswered from to transaction block_size blocks before after status
        → IsWorkDone before after status → HoldsBestPool transaction block_size blocks before after }
    ensures none { (from to : List ℕ) (transaction block_size blocks : ℕ) (before after : Objects)
        → IsSearchAnswered from to transaction block_size blocks before after 1 → HasNoRoots blocks before after }
{
    found_pools_are_lawful();
    laid_pool_is_clean();
}

/// Under every status a crash at any moment of the call leaves, by no chance, the old image, no valid superblock, or such an image.
pub fn crashed_search_leaves_no_other_pool()
    ensures { (from to : List ℕ) (transaction block_size blocks : ℕ) (before after : Objects) (status : ℕ)
        → DoNumbersFit transaction block_size blocks
        → IsSearchAnswered from to transaction block_size blocks before after status
        → LeavesFoundPool transaction block_size blocks before after }
{
    found_pools_are_lawful();
    laid_pool_is_clean();
}

/// Of a pool without faults up to the stage Whole nothing that its trees hold is lost with its block 0: the roots that it named
/// still fit each other, and a pool that is found by them has all its devices. So a search finds roots, and of no earlier state.
pub fn lost_pools_are_found()
    ensures { (image lost : List (List ℕ)) → IsImage image → faults Thin Whole image ≡ [] → IsLostOf image lost
        → KeepsRoots image lost (thin_fields (block_at image 0)) }
{
    pools_in_order_are_known();
    sound_pools_are_lawful();
}

/// With the pool's own number of data blocks a search in such an image finds roots, whatever else fails, and what it makes at status
/// 0 is no earlier state than the pool had: the latest time isn't earlier; of the same time the latest transaction isn't, then the
/// sum of the mappings' times isn't less, and then the number of mappings. That sharing is seen makes no state earlier.
pub fn lost_pool_is_repaired()
    ensures roots { (image lost : List (List ℕ)) (from to : List ℕ) (transaction block_size : ℕ) (before after : Objects)
        → IsLostPool image lost before
        → IsSearchAnswered from to transaction block_size (thin_fields (block_at image 0)).data_map.blocks before after 1 → ⊥ }
    ensures state { (image lost : List (List ℕ)) (from to : List ℕ) (transaction block_size : ℕ) (before after : Objects)
        → IsLostPool image lost before
        → DoNumbersFit transaction block_size (thin_fields (block_at image 0)).data_map.blocks
        → IsSearchAnswered from to transaction block_size (thin_fields (block_at image 0)).data_map.blocks before after 0
        → HoldsNoEarlier image before after }
{
    searched_pool_is_clean();
    lost_pools_are_found();
}

// What a repair from named roots is, and what a dry run without a superblock tells: beside a search, and of roots that fit.

/// What is saved from named roots is lawful, whatever is damaged below them, where the given numbers fit a superblock: a text
/// spells it.
pub fn named_pools_are_lawful()
    ensures pool { (image : List (List ℕ)) (given : GivenSuper) (named : NamedRoots) → IsImage image
        → DoNumbersFit given.transaction given.block_size given.blocks → IsLawfulPool (named_pool image given named) }
    ensures shape { (image : List (List ℕ)) (given : GivenSuper) (named : NamedRoots) → IsImage image
        → DoNumbersFit given.transaction given.block_size given.blocks → IsLawfulShape (named_shape image given named) }
{
    saved_shapes_are_shapes();
    saved_shapes_mean_what_is_saved();
}

/// At status 0 the output holds, with nothing unsynced, an image that is clean and means what is saved from the named roots, so that
/// sharing is seen in it; with shared leaves its devices share each leaf that two or more of them had whole. Under every status a crash
/// at any moment of the call leaves, by no chance, the old image, no valid superblock, or such an image.
pub fn named_repair_is_clean()
    ensures holds { (shared : Bool) (from to : List ℕ) (given : GivenSuper) (named : NamedRoots) (before after : Objects)
        → DoNumbersFit given.transaction given.block_size given.blocks → IsNamedRepairAnswered shared from to given named before after 0
        → HoldsNamed shared given named before after }
    ensures leaves { (shared : Bool) (from to : List ℕ) (given : GivenSuper) (named : NamedRoots) (before after : Objects) (status : ℕ)
        → DoNumbersFit given.transaction given.block_size given.blocks
        → IsNamedRepairAnswered shared from to given named before after status
        → LeavesNamed shared given named before after }
{
    named_pools_are_lawful();
    saved_shapes_are_shapes();
    saved_shapes_mean_what_is_saved();
    laid_pool_is_clean();
    laid_shapes_are_clean();
}

/// From roots that fit each other a named repair saves the pool that a search would make of them, with its time, and its shape.
pub fn fitting_roots_are_saved_whole()
    ensures pool { (image : List (List ℕ)) (given : GivenSuper) (named : NamedRoots) → HasBytes image
        → let graph = lost_graph image given.blocks in are_fitting graph image named.top named.details ≡ true
        → named_pool image given named ≡ found_pool graph image given.transaction given.block_size
        (roots_at graph image named.top named.details) }
    ensures shape { (image : List (List ℕ)) (given : GivenSuper) (named : NamedRoots) → HasBytes image
        → let graph = lost_graph image given.blocks in are_fitting graph image named.top named.details ≡ true
        → named_shape image given named ≡ found_shape graph image given.transaction given.block_size
        (roots_at graph image named.top named.details) }
{
    found_pools_are_saved_whole();
}

/// The line of a damaged state says what a repair keeps from its roots, once they are named: it saves these devices with as many
/// mappings, and a dry run from them tells the same numbers.
pub fn listed_states_are_kept()
    ensures { (image : List (List ℕ)) (given : GivenSuper)
        → AllByRecursion (KeepsListed image given) (damaged_states (lost_graph image given.blocks) image) }
{}

/// A repair from named roots has room on as many blocks as a dry run with them tells, and on more, but on no fewer: without the leaves
/// that devices share the first number is meant, and with them the second.
pub fn named_repairs_have_room_where_told()
    ensures { (shared : Bool) (image : List (List ℕ)) (given : GivenSuper) (named : NamedRoots) (room : ℕ)
        → is_too_small (saved_making shared (saved_from_named shared image given named)) room
        ≡ nat_lt room (told_need shared (told_from (named_fields image given named) image)) }
{}

// That sharing is seen in what a search and a repair from named roots write.

/// Sharing is seen in each pool that was made so, whatever it is made of: where a data block is mapped at two places, a kernel copies
/// it before it writes to one of them.
pub fn seen_pools_see_sharing()
    ensures { (m : ThinPool) → SharingIsSeen (seen_pool m) }
{}

/// A lawful pool in which sharing is seen stays as it is, where no device was snapped after the pool's time. So a search writes the pool
/// of the best roots as it is, and a repair what is saved from named ones, where sharing is seen in it.
pub fn seen_pools_stay()
    ensures stays { (m : ThinPool) → IsLawfulPool m → SharingIsSeen m → IsTimely m → seen_pool m ≡ m }
    ensures found { (image : List (List ℕ)) (transaction block_size blocks : ℕ) (roots : FoundRoots) → IsImage image
        → DoNumbersFit transaction block_size blocks → AreBest (lost_graph image blocks) image roots
        → let found = found_pool (lost_graph image blocks) image transaction block_size roots in
        SharingIsSeen found → seen_pool found ≡ found }
    ensures named { (image : List (List ℕ)) (given : GivenSuper) (named : NamedRoots) → IsImage image
        → DoNumbersFit given.transaction given.block_size given.blocks
        → let saved = named_pool image given named in SharingIsSeen saved → seen_pool saved ≡ saved }
{
    found_pools_are_lawful();
    named_pools_are_lawful();
}

/// Sharing is seen in the pool that a search leaves, with shared leaves or without, whatever its input is: at status 0, and under any
/// status once `out` was touched.
pub fn searched_pool_sees_sharing()
    ensures plain { (from to : List ℕ) (transaction block_size blocks : ℕ) (before after : Objects) (status : ℕ)
        → DoNumbersFit transaction block_size blocks
        → IsSearchAnswered from to transaction block_size blocks before after status
        → IsWorkDone before after status → SeesSharing before after }
    ensures shared { (from to : List ℕ) (transaction block_size blocks : ℕ) (before after : Objects) (status : ℕ)
        → DoNumbersFit transaction block_size blocks
        → IsSharedSearchAnswered from to transaction block_size blocks before after status
        → IsWorkDone before after status → SeesSharing before after }
{
    searched_pool_is_clean();
    searched_pool_keeps_its_sharing();
}

/// At status 0 sharing is seen in the pool that a repair from named roots leaves, with shared leaves or without, whatever its input is.
pub fn named_pool_sees_sharing()
    ensures { (shared : Bool) (from to : List ℕ) (given : GivenSuper) (named : NamedRoots) (before after : Objects)
        → DoNumbersFit given.transaction given.block_size given.blocks → IsNamedRepairAnswered shared from to given named before after 0
        → SeesSharing before after }
{
    named_repair_is_clean();
}

// What a dry run of a repair tells: beside what a repair does, and of a sound pool.

/// A repair of the same image has room on as many blocks as are told, and on more, but on no fewer: without the leaves that devices share
/// the first number is meant, and with them the second.
pub fn repairs_have_room_where_told()
    ensures { (shared : Bool) (image : List (List ℕ)) (room : ℕ) → is_too_small (saved_making shared (saved_of shared image)) room
        ≡ nat_lt room (told_need shared (told_from (thin_fields (block_at image 0)) image)) }
{}

/// A search has room on as many blocks as a dry run tells of the roots that it finds, and on more, but on no fewer: so it is of the best
/// ones, and of any that fit each other.
pub fn searches_have_room_where_told()
    ensures { (shared : Bool) (image : List (List ℕ)) (transaction block_size blocks : ℕ) (roots : FoundRoots) (room : ℕ) → HasBytes image
        → let graph = lost_graph image blocks in are_fitting graph image roots.top roots.details ≡ true
        → is_too_small (saved_making shared (saved_from shared graph image transaction block_size roots)) room
        ≡ nat_lt room (told_need shared (told_from (found_fields graph transaction block_size roots) image)) }
{
    found_pools_are_saved_whole();
}

/// Of a pool without faults up to the stage Whole each device is told whole, and none is lost.
pub fn sound_pools_are_told_whole()
    ensures { (image : List (List ℕ)) → IsImage image → faults Thin Whole image ≡ []
        → told_lines (thin_fields (block_at image 0)) image ≡ flat_map whole_line (thin_meaning image).devices }
{
    pools_in_order_are_known();
    sound_pools_are_lawful();
    sound_pool_is_saved();
}
