//! What a repaired pool is.

ghost use Rattle.std.specs.Prelude.{◌≡◌, ◌⊎◌, ◌≤◌, ℕ, List, [], IfSome, length};
ghost use Rattle.pd_kinds.specs.declared.kind.Kind.TheVariants.{Thin};
ghost use Rattle.pd_kinds.specs.declared.kind.Stage.TheVariants.{Super};
ghost use Rattle.pd_kinds.specs.Image.{room_of, IsImage};
ghost use Rattle.pd_kinds.specs.Meaning.{thin_meaning};
ghost use Rattle.pd_kinds.specs.Stages.{faults};
ghost use Rattle.pd_kinds.specs.Graph.{block_at, data_count};
ghost use Rattle.pd_kinds.specs.ThinFormat.{thin_graph, thin_fields};
ghost use Rattle.pd_grammar.specs.Lawful.{IsLawfulPool};
ghost use Rattle.pd_grammar.specs.Need.{thin_need};
ghost use Rattle.pd_laid.specs.Salvage.{salvage, saved_shape};
ghost use Rattle.pd_laid.specs.FoundRoots.{AreBest, FoundRoots, lost_graph};
ghost use Rattle.pd_laid.specs.Shape.{image_shape};
ghost use Rattle.pd_laid.specs.PoolText.{IsLawfulShape, shape_need};
ghost use Rattle.pd_answers.specs.Terms.{NoFaults, Objects};
ghost use Rattle.pd_answers.specs.Outputs.{IsWorkDone};
ghost use Rattle.pd_answers.specs.Searches.{found_shape};
ghost use Rattle.pd_laws_laid.specs.Clean.{IsCleanPool};
ghost use Rattle.pd_laws_shapes.specs.Counts.{FewInShared};
ghost use Rattle.pd_laws_answers.specs.Exact.{HoldsSalvage, IsRepairAnswered, IsSoundRepair, LeavesSalvage};
ghost use Rattle.pd_laws_answers.specs.Sharing.{HasTimesOfSharing, IsDamagedPool, IsKeptPool, SeesSharingWhere};
ghost use Rattle.pd_laws_answers.specs.Saved.{HoldsSavedShape, IsSharedRepairAnswered, LeavesSavedShape};
ghost use Rattle.pd_laws_answers.specs.Search.{DoNumbersFit, HasNoRoots, HoldsBestShape, HoldsFoundShape};
ghost use Rattle.pd_laws_answers.specs.Search.{IsSharedSearchAnswered, LeavesFoundShape};

use crate::laws::laid_shapes_are_clean;
use crate::searches::found_pools_are_lawful;
use pd_laid::sound_pool_is_saved;
use pd_laws_laid::laid_pool_is_clean;
use pd_laws_shapes::{
    saved_shapes_are_shapes, saved_shapes_mean_what_is_saved, sound_pools_count_each_leaf_once,
    sound_pools_have_a_shape, sound_pools_save_their_shape,
};
use pd_scan::found_pools_are_saved_whole;

/// What is saved of a pool whose superblock has no fault is lawful, whatever else is damaged: a text spells it.
pub fn saved_pools_are_lawful()
    ensures { (image : List (List ℕ)) → IsImage image → faults Thin Super image ≡ []
        → IsLawfulPool (salvage image) }
{}

/// At status 0 the output holds, with nothing unsynced, an image that is clean and means what is saved of the input.
pub fn repaired_pool_is_clean()
    ensures { (from to : List ℕ) (before after : Objects) → IsRepairAnswered from to before after 0 → HoldsSalvage before after }
{
    saved_pools_are_lawful();
    laid_pool_is_clean();
}

/// Under every status a crash at any moment of the call leaves, by no chance, the old image, no valid superblock,
/// or an image that is clean and means what is saved of the input.
pub fn crashed_repair_leaves_no_other_pool()
    ensures { (from to : List ℕ) (before after : Objects) (status : ℕ)
        → IsRepairAnswered from to before after status → LeavesSalvage before after }
{
    saved_pools_are_lawful();
    laid_pool_is_clean();
}

/// At status 0 sharing is seen in the pool that the output holds: a kernel copies each data block that another place leads to
/// before it writes to it. So it is where what is saved has the times that kernels keep, and so where the input was a pool that
/// kernels kept, and blocks behind its superblock were damaged, whichever details are lost by that.
pub fn repaired_pool_sees_sharing()
    ensures saved { (from to : List ℕ) (before after : Objects)
        → IsRepairAnswered from to before after 0 → SeesSharingWhere HasTimesOfSharing before after }
    ensures damaged { (whole : List (List ℕ)) (from to : List ℕ) (before after : Objects) → IsKeptPool whole
        → IsRepairAnswered from to before after 0 → SeesSharingWhere (IsDamagedPool whole) before after }
{
    saved_pools_are_lawful();
    laid_pool_is_clean();
    sound_pool_is_saved();
}

/// A pool without faults up to the stage Whole is repaired, where there is room for it, nothing fails and memory isn't
/// wanting; and what is repaired means the same pool.
pub fn repaired_sound_pool_means_the_same()
    ensures repaired { (image base : List (List ℕ)) (from to : List ℕ) (before after : Objects) (status : ℕ)
        → IsSoundRepair image base before
        → thin_need (thin_meaning image) (room_of (length base)) ≤ room_of (length base)
        → IsRepairAnswered from to before after status → NoFaults before after → (status ≡ 0) ⊎ (status ≡ 7) }
    ensures same { (image base : List (List ℕ)) (from to : List ℕ) (before after : Objects) → IsSoundRepair image base before
        → IsRepairAnswered from to before after 0 → IfSome after.output.held (λ repaired. thin_meaning repaired ≡ thin_meaning image) }
{
    repaired_pool_is_clean();
    sound_pool_is_saved();
}

// What a repaired pool is that keeps its shared leaves, and what a search leaves that keeps them.

/// The shape of what is saved of a pool whose superblock has no fault is lawful, whatever else is damaged: a text spells it.
pub fn saved_shapes_are_lawful()
    ensures { (image : List (List ℕ)) → IsImage image → faults Thin Super image ≡ [] → IsLawfulShape (saved_shape image) }
{
    saved_pools_are_lawful();
    saved_shapes_are_shapes();
    saved_shapes_mean_what_is_saved();
}

/// At status 0 the output holds, with nothing unsynced, an image that is clean and means what is saved of the input, whose devices
/// share each leaf that two or more of them had whole, and that counts the data blocks of such a leaf once.
pub fn repaired_pool_keeps_its_sharing()
    ensures { (from to : List ℕ) (before after : Objects) → IsSharedRepairAnswered from to before after 0 → HoldsSavedShape before after }
{
    saved_shapes_are_lawful();
    saved_shapes_are_shapes();
    saved_shapes_mean_what_is_saved();
    laid_shapes_are_clean();
}

/// Under every status a crash at any moment of the call leaves, by no chance, the old image, no valid superblock, or such an image.
pub fn crashed_shared_repair_leaves_no_other_pool()
    ensures { (from to : List ℕ) (before after : Objects) (status : ℕ)
        → IsSharedRepairAnswered from to before after status → LeavesSavedShape before after }
{
    saved_shapes_are_lawful();
    saved_shapes_are_shapes();
    saved_shapes_mean_what_is_saved();
    laid_shapes_are_clean();
}

/// At status 0 sharing is seen in the pool that the output holds, where what is saved has the times that kernels keep, and so where the
/// input was a pool that kernels kept, and blocks behind its superblock were damaged.
pub fn shared_repair_sees_sharing()
    ensures saved { (from to : List ℕ) (before after : Objects)
        → IsSharedRepairAnswered from to before after 0 → SeesSharingWhere HasTimesOfSharing before after }
    ensures damaged { (whole : List (List ℕ)) (from to : List ℕ) (before after : Objects) → IsKeptPool whole
        → IsSharedRepairAnswered from to before after 0 → SeesSharingWhere (IsDamagedPool whole) before after }
{
    saved_pools_are_lawful();
    saved_shapes_are_lawful();
    saved_shapes_are_shapes();
    saved_shapes_mean_what_is_saved();
    laid_shapes_are_clean();
    sound_pool_is_saved();
}

/// A pool without faults up to the stage Whole is repaired with its shared leaves, where there is room for them, nothing fails and memory
/// isn't wanting. What is repaired means the same pool, and its devices share the same leaves. Where the pool holds no copy and no leaf
/// that stands twice has more than 252 mappings, it counts each data block as often as the pool did.
pub fn repaired_sound_pool_keeps_its_sharing()
    ensures repaired { (image base : List (List ℕ)) (from to : List ℕ) (before after : Objects) (status : ℕ)
        → IsSoundRepair image base before
        → shape_need (image_shape image) (room_of (length base)) ≤ room_of (length base)
        → IsSharedRepairAnswered from to before after status → NoFaults before after → (status ≡ 0) ⊎ (status ≡ 7) }
    ensures same { (image base : List (List ℕ)) (from to : List ℕ) (before after : Objects) → IsSoundRepair image base before
        → IsSharedRepairAnswered from to before after 0
        → IfSome after.output.held (λ repaired. IsCleanPool repaired (thin_meaning image) × (image_shape repaired ≡ image_shape image)) }
    ensures counts { (image base : List (List ℕ)) (from to : List ℕ) (before after : Objects) → IsSoundRepair image base before
        → (thin_fields (block_at image 0)).held_root ≡ 0 → FewInShared image → IsSharedRepairAnswered from to before after 0
        → IfSome after.output.held (λ repaired. (d : ℕ)
        → data_count (thin_graph (block_at repaired 0)) repaired d ≡ data_count (thin_graph (block_at image 0)) image d) }
{
    repaired_pool_keeps_its_sharing();
    sound_pool_is_saved();
    sound_pools_save_their_shape();
    sound_pools_have_a_shape();
    sound_pools_count_each_leaf_once();
}

/// The shape of the pool of the best roots is lawful, whatever else is damaged, where the given numbers fit a superblock: a text
/// spells it.
pub fn found_shapes_are_lawful()
    ensures { (image : List (List ℕ)) (transaction block_size blocks : ℕ) (roots : FoundRoots) → IsImage image
        → DoNumbersFit transaction block_size blocks → AreBest (lost_graph image blocks) image roots
        → IsLawfulShape (found_shape (lost_graph image blocks) image transaction block_size roots) }
{
    found_pools_are_lawful();
    found_pools_are_saved_whole();
    saved_shapes_are_shapes();
    saved_shapes_mean_what_is_saved();
}

/// At status 0 the output holds, with nothing unsynced, an image that is clean and means the pool of the input's best roots, made so that
/// sharing is seen in it, whose devices share each leaf that two or more of them had whole, and these are the roots that were put to `out`.
/// It holds such an image under any status once `out` was touched: the line comes after the work. At status 1 no two trees of the input
/// fit each other, and the output wasn't written.
pub fn searched_pool_keeps_its_sharing()
    ensures found { (from to : List ℕ) (transaction block_size blocks : ℕ) (before after : Objects)
        → DoNumbersFit transaction block_size blocks
        → IsSharedSearchAnswered from to transaction block_size blocks before after 0
        → HoldsFoundShape transaction block_size blocks before after }
    ensures made { (from to : List ℕ) (transaction block_size blocks : ℕ) (before after : Objects) (status : ℕ)
        → DoNumbersFit transaction block_size blocks
        → IsSharedSearchAnswered from to transaction block_size blocks before after status
        → IsWorkDone before after status → HoldsBestShape transaction block_size blocks before after }
    ensures none { (from to : List ℕ) (transaction block_size blocks : ℕ) (before after : Objects)
        → IsSharedSearchAnswered from to transaction block_size blocks before after 1 → HasNoRoots blocks before after }
{
    found_shapes_are_lawful();
    found_pools_are_saved_whole();
    saved_shapes_are_shapes();
    saved_shapes_mean_what_is_saved();
    laid_shapes_are_clean();
}

/// Under every status a crash at any moment of the call leaves, by no chance, the old image, no valid superblock, or such an image.
pub fn crashed_shared_search_leaves_no_other_pool()
    ensures { (from to : List ℕ) (transaction block_size blocks : ℕ) (before after : Objects) (status : ℕ)
        → DoNumbersFit transaction block_size blocks
        → IsSharedSearchAnswered from to transaction block_size blocks before after status
        → LeavesFoundShape transaction block_size blocks before after }
{
    found_shapes_are_lawful();
    found_pools_are_saved_whole();
    saved_shapes_are_shapes();
    saved_shapes_mean_what_is_saved();
    laid_shapes_are_clean();
}
