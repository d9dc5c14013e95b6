//! What checks tell, and what restored, dumped and cleared pools are.

ghost use Rattle.std.specs.Prelude.{◌≡◌, ◌⊎◌, ℕ, false, List, [], IfSome, ◌≤◌, length};
ghost use Rattle.pd_kinds.specs.declared.kind.Kind.{Kind};
ghost use Rattle.pd_kinds.specs.declared.kind.Flagged.{Flagged};
ghost use Rattle.pd_kinds.specs.declared.kind.Kind.TheVariants.{Thin};
ghost use Rattle.pd_kinds.specs.declared.kind.Passing.{Passing};
ghost use Rattle.pd_kinds.specs.declared.kind.Passing.TheVariants.{Leaks};
ghost use Rattle.pd_kinds.specs.declared.kind.Stage.{Stage};
ghost use Rattle.pd_kinds.specs.Flagged.{kind_of};
ghost use Rattle.pd_kinds.specs.Image.{IsImage, room_of};
ghost use Rattle.pd_kinds.specs.Meaning.{thin_meaning};
ghost use Rattle.pd_kinds.specs.Stages.{faults};
ghost use Rattle.pd_kinds.specs.InOrder.{LooksAtOrder};
ghost use Rattle.pd_kinds.specs.Graph.{block_at, data_count};
ghost use Rattle.pd_kinds.specs.ThinFormat.{thin_graph, thin_fields};
ghost use Rattle.pd_laid.specs.Laid.{IsLaid};
ghost use Rattle.pd_laid.specs.LaidThin.{laid_shape};
ghost use Rattle.pd_laid.specs.Shape.{ThinShape, image_shape};
ghost use Rattle.pd_laid.specs.PoolText.{IsLawfulShape, shape_need};
ghost use Rattle.pd_answers.specs.Terms.{NoFaults, Objects};
ghost use Rattle.pd_answers.specs.Flag.{cleared, needs_check};
ghost use Rattle.pd_laws_laid.specs.Clean.{IsCleanPool};
ghost use Rattle.pd_laws_shapes.specs.Counts.{FewInShared};
ghost use Rattle.pd_laws_answers.specs.Exact.{HoldsCleared, HoldsPoolOfText, IsCheckAnswered, IsCleared, IsClearingAnswered, IsDumpOf};
ghost use Rattle.pd_laws_answers.specs.Exact.{IsPassed, IsPassingAnswered, IsRestoreAnswered, LeavesOldOrCleared, LeavesPoolOfText};
ghost use Rattle.pd_laws_answers.specs.Exact.{LeavesTornAtMost, LosesNothing, MeansTheSame, TellsClean, TellsPassed, IsCleanShape};
ghost use Rattle.pd_laws_answers.specs.Exact.{IsSharedDumpOf};

use pd_grammar::thin_text_spells;
use pd_kinds::{faults_are_none_where_clean, leaks_alone_lose_nothing, reports_tell_leaks};
use pd_laid::{
    either_version_spells_a_shape, pool_text_has_one_shape, pool_text_has_one_verdict,
    pool_text_is_accepted_where_there_is_room,
};
use pd_laws_changed::{
    alike_caches_have_the_same_faults, alike_caches_mean_the_same,
    alike_pools_have_the_same_faults, alike_pools_mean_the_same,
};
use pd_laws_laid::{laid_shape_is_clean, shape_takes_its_need};
use pd_laws_shapes::{
    laid_shapes_count_each_leaf_once, laid_shapes_keep_their_shape,
    sound_pools_count_each_leaf_once, sound_pools_have_a_shape,
};
use pd_meaning_thin::sound_pools_are_lawful;

/// At status 0 the text that was restored, of either version, spells the shape of a pool, and the output holds, with nothing
/// unsynced, an image that is clean and means that pool. Its devices share the leaves that the text tells, where each is used
/// twice or more, and each data block is counted as often as the text tells it: those of a shared leaf once.
pub fn restored_pool_is_clean()
    ensures { (file path : List ℕ) (before after : Objects)
        → IsRestoreAnswered Thin 1 file path before after 0 → HoldsPoolOfText before after }
{
    laid_shapes_are_clean();
    pool_text_has_one_verdict();
    pool_text_is_accepted_where_there_is_room();
}

/// Under every status a crash at any moment of the call leaves, by no chance, the old image, no valid superblock,
/// or an image that is clean and means the pool of the text, of either version, with its shared leaves.
pub fn crashed_restore_leaves_no_other_pool()
    ensures { (file path : List ℕ) (before after : Objects) (status : ℕ)
        → IsRestoreAnswered Thin 1 file path before after status → LeavesPoolOfText before after }
{
    laid_shapes_are_clean();
    pool_text_has_one_verdict();
    pool_text_is_accepted_where_there_is_room();
}

/// The plain dump of a pool without faults up to the stage Whole is restored, where there is room for it, nothing fails
/// and memory isn't wanting; and what is restored of it means the same pool.
pub fn restored_dump_means_the_same()
    ensures restored { (image base : List (List ℕ)) (file path : List ℕ) (before after : Objects) (status : ℕ)
        → IsDumpOf Thin 1 image base before
        → IsRestoreAnswered Thin 1 file path before after status → NoFaults before after → (status ≡ 0) ⊎ (status ≡ 7) }
    ensures same { (image base : List (List ℕ)) (file path : List ℕ) (before after : Objects) → IsDumpOf Thin 1 image base before
        → IsRestoreAnswered Thin 1 file path before after 0
        → IfSome after.output.held (λ restored. thin_meaning restored ≡ thin_meaning image) }
{
    restored_pool_is_clean();
    laid_shapes_are_clean();
    sound_pools_are_lawful();
    thin_text_spells();
    either_version_spells_a_shape();
    pool_text_has_one_shape();
    pool_text_has_one_verdict();
    pool_text_is_accepted_where_there_is_room();
}

/// A check to its end tells by its status whether the image that it read is clean: 0 says that it is, 1 that it isn't.
/// Where it is, and nothing fails and memory isn't wanting, the status is 0.
pub fn checks_tell_clean_images()
    ensures { (kind : Kind) (path : List ℕ) (before after : Objects) (status : ℕ) → IsCheckAnswered kind path before after status
        → IfSome before.input.held (TellsClean kind before after status) }
{
    faults_are_none_where_clean();
}

/// A check in which leaks pass tells by its status whether each fault of the image is a leak, also those past the first thousand:
/// 0 says that it is so, 1 that it isn't. At status 0 the image has no fault up to the stage Whole, and no stored count is below its
/// references.
pub fn passing_checks_tell_leaks()
    ensures tells { (kind : Kind) (path : List ℕ) (before after : Objects) (status : ℕ) → IsPassingAnswered kind path before after status
        → IfSome before.input.held (TellsPassed Leaks kind before after status) }
    ensures nothing_lost { (kind : Kind) (path : List ℕ) (before after : Objects) → IsPassingAnswered kind path before after 0
        → IfSome before.input.held (LosesNothing kind) }
{
    leaks_alone_lose_nothing();
    reports_tell_leaks();
}

/// So does a check of a pool or a cache that clears the flag "needs check": its status says whether the image passed that it read.
pub fn clearing_checks_tell_what_passes()
    ensures { (flagged : Flagged) (passing : Passing) (path : List ℕ) (before after : Objects) (status : ℕ)
        → IsClearingAnswered flagged passing path before after status
        → IfSome before.input.held (TellsPassed passing (kind_of flagged) before after status) }
{
    faults_are_none_where_clean();
    reports_tell_leaks();
}

/// A pool or a cache without faults up to some stage, so without any in its superblock, has the faults up to each stage that it had
/// once its flag "needs check" is cleared: where it has none up to a stage, it has none. Where that is the stage Order or a later one,
/// it means what it meant. The flag then isn't set.
pub fn cleared_images_stay_clean()
    ensures same { (flagged : Flagged) (some until : Stage) (image : List (List ℕ))
        → IsImage image → faults (kind_of flagged) some image ≡ []
        → faults (kind_of flagged) until (cleared flagged image) ≡ faults (kind_of flagged) until image }
    ensures clean { (flagged : Flagged) (until : Stage) (image : List (List ℕ)) → IsImage image → faults (kind_of flagged) until image ≡ []
        → faults (kind_of flagged) until (cleared flagged image) ≡ [] }
    ensures meaning { (flagged : Flagged) (until : Stage) (image : List (List ℕ))
        → IsImage image → LooksAtOrder until → faults (kind_of flagged) until image ≡ []
        → MeansTheSame flagged (cleared flagged image) image }
    ensures unset { (flagged : Flagged) (image : List (List ℕ)) → IsImage image → needs_check flagged (cleared flagged image) ≡ false }
{
    alike_pools_have_the_same_faults();
    alike_pools_mean_the_same();
    alike_caches_have_the_same_faults();
    alike_caches_mean_the_same();
}

/// So an image that passes does so once its flag is cleared, loses nothing, and has the same faults and the same meaning.
pub fn cleared_images_pass()
    ensures { (flagged : Flagged) (passing : Passing) (image : List (List ℕ)) → IsImage image → IsPassed passing (kind_of flagged) image
        → IsCleared flagged passing image (cleared flagged image) }
{
    cleared_images_stay_clean();
    faults_are_none_where_clean();
    leaks_alone_lose_nothing();
}

/// At status 0 of a check that clears the flag, the device holds, with nothing unsynced, an image that is clean, or, where leaks pass,
/// has leaks alone, has the faults that it had, means what it meant before, and whose flag isn't set.
pub fn cleared_image_is_clean()
    ensures { (flagged : Flagged) (passing : Passing) (path : List ℕ) (before after : Objects)
        → IsClearingAnswered flagged passing path before after 0
        → HoldsCleared flagged passing before after }
{
    clearing_checks_tell_what_passes();
    cleared_images_pass();
}

/// Under every status a crash at any moment of it leaves, by no chance, the old image, no valid superblock, or such an image.
/// Whatever chance does, block 0 has had no other content than the old one and, where the image passes, the cleared one, so at most it is
/// torn between the two; and all other blocks are the old ones.
pub fn crashed_clearing_leaves_no_other_image()
    ensures image { (flagged : Flagged) (passing : Passing) (path : List ℕ) (before after : Objects) (status : ℕ)
        → IsClearingAnswered flagged passing path before after status
        → LeavesOldOrCleared flagged passing before after }
    ensures superblock { (flagged : Flagged) (passing : Passing) (path : List ℕ) (before after : Objects) (status : ℕ)
        → IsClearingAnswered flagged passing path before after status
        → LeavesTornAtMost flagged passing before after }
{
    cleared_images_pass();
    faults_are_none_where_clean();
    reports_tell_leaks();
}

// What is laid of a pool's shape, and what a restored dump is that tells the leaves that a pool's devices share.

/// What is laid of a shape that a text can spell, over a device with room for its need, is clean and means its pool. Its devices
/// share the leaves that the shape says, where each of these is used twice or more, and each data block is counted as often as the
/// shape tells it.
pub fn laid_shapes_are_clean()
    ensures { (w : ThinShape) (base image : List (List ℕ)) → IsLawfulShape w → shape_need w (room_of (length base)) ≤ room_of (length base)
        → IsLaid (laid_shape w (room_of (length base))) base image → IsCleanShape image w }
{
    laid_shape_is_clean();
    laid_shapes_keep_their_shape();
    laid_shapes_count_each_leaf_once();
    shape_takes_its_need();
}

/// The text of a pool without faults up to the stage Whole that tells its shared leaves once is restored, where there is room for
/// it, nothing fails and memory isn't wanting. What is restored of it is clean, means the same pool, and its devices share the
/// same leaves. Where the pool holds no copy and no leaf that stands twice has more than 252 mappings, it counts each data block as
/// often as the pool did.
pub fn restored_shared_dump_keeps_the_shape()
    ensures restored { (image base : List (List ℕ)) (file path : List ℕ) (before after : Objects) (status : ℕ)
        → IsSharedDumpOf image base before
        → IsRestoreAnswered Thin 1 file path before after status → NoFaults before after → (status ≡ 0) ⊎ (status ≡ 7) }
    ensures same { (image base : List (List ℕ)) (file path : List ℕ) (before after : Objects) → IsSharedDumpOf image base before
        → IsRestoreAnswered Thin 1 file path before after 0
        → IfSome after.output.held (λ restored. IsCleanPool restored (thin_meaning image) × (image_shape restored ≡ image_shape image)) }
    ensures counts { (image base : List (List ℕ)) (file path : List ℕ) (before after : Objects) → IsSharedDumpOf image base before
        → (thin_fields (block_at image 0)).held_root ≡ 0 → FewInShared image → IsRestoreAnswered Thin 1 file path before after 0
        → IfSome after.output.held (λ restored. (d : ℕ)
        → data_count (thin_graph (block_at restored 0)) restored d ≡ data_count (thin_graph (block_at image 0)) image d) }
{
    restored_pool_is_clean();
    laid_shapes_are_clean();
    sound_pools_have_a_shape();
    sound_pools_count_each_leaf_once();
    either_version_spells_a_shape();
    pool_text_has_one_shape();
    pool_text_has_one_verdict();
    pool_text_is_accepted_where_there_is_room();
}
