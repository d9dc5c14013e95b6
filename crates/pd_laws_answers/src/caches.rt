//! What restored and dumped caches are.

ghost use Rattle.std.specs.Prelude.{◌≡◌, ◌⊎◌, ℕ, List, [], IfSome, ◌≤◌, Option, length};
ghost use Rattle.pd_kinds.specs.declared.kind.Kind.TheVariants.{Cache};
ghost use Rattle.pd_kinds.specs.declared.kind.Stage.TheVariants.{Whole, Super};
ghost use Rattle.pd_kinds.specs.CacheFormat.{cache_fields, CacheFields};
ghost use Rattle.pd_kinds.specs.Graph.{block_at};
ghost use Rattle.pd_kinds.specs.Meaning.{cache_meaning};
ghost use Rattle.pd_kinds.specs.Objects.{Appends};
ghost use Rattle.pd_kinds.specs.Stages.{faults};
ghost use Rattle.pd_kinds.specs.Image.{IsImage, room_of, HasBytes};
ghost use Rattle.pd_kinds.specs.Crash.{IsSynced};
ghost use Rattle.pd_grammar.specs.Lawful.{IsLawfulCache, AreEntries};
ghost use Rattle.pd_grammar.specs.CacheText.{cache_need};
ghost use Rattle.pd_laid.specs.CacheRoots.{unknown_words};
ghost use Rattle.pd_laid.specs.SavedCache.{saved_cache, saved_cache_from};
ghost use Rattle.pd_answers.specs.declared.request.CacheRoots.{CacheRoots};
ghost use Rattle.pd_answers.specs.KeptCache.{keeps_line};
ghost use Rattle.pd_answers.specs.Terms.{NoFaults, Objects};
ghost use Rattle.pd_answers.specs.Outputs.{IsWorkDone};
ghost use Rattle.pd_laws_answers.specs.Exact.{HoldsCacheOfText, IsDumpOf, IsRestoreAnswered, LeavesCacheOfText, IsCleanCacheIn};
ghost use Rattle.pd_laws_answers.specs.Saved.{HoldsSavedCache, IsCacheRepairAnswered, IsSoundCacheRepair};
ghost use Rattle.pd_laws_answers.specs.Saved.{IsVersionAsked, LeavesSavedCache, PutsKept, no_roots, saved_with, version_written};
ghost use Rattle.pd_laws_answers.specs.Writeback.{HoldsWrittenBack, IsWritebackAnswered, LeavesTheView};

use pd_grammar::{
    cache_text_has_one_meaning, cache_text_has_one_verdict,
    cache_text_is_accepted_where_there_is_room, cache_text_spells,
};
use pd_kinds::{faults_are_none_where_clean, trees_are_in_order};
use pd_laws_changed::{
    copied_origins_stand_alone, copying_keeps_the_view, settled_caches_have_the_same_faults,
    settled_caches_mean_the_same, settled_caches_show_the_same,
};
use pd_laws_laid::laid_cache_is_clean;
use pd_tree::superblocks_lead_to_reached_roots;

/// At status 0 the text that was restored spells a cache, and the output holds, with nothing unsynced, an image that
/// is clean, means that cache, and is of the version that was asked, 1 or 2.
pub fn restored_cache_is_clean()
    ensures { (version : ℕ) (file path : List ℕ) (before after : Objects) → (version ≡ 1) ⊎ (version ≡ 2)
        → IsRestoreAnswered Cache version file path before after 0 → HoldsCacheOfText version before after }
{
    laid_cache_is_clean();
    cache_text_has_one_verdict();
    cache_text_is_accepted_where_there_is_room();
}

/// Under every status a crash at any moment of the call leaves, by no chance, the old image, no valid superblock,
/// or an image that is clean, means the cache of the text, and is of the version that was asked, 1 or 2.
pub fn crashed_restore_leaves_no_other_cache()
    ensures { (version : ℕ) (file path : List ℕ) (before after : Objects) (status : ℕ) → (version ≡ 1) ⊎ (version ≡ 2)
        → IsRestoreAnswered Cache version file path before after status → LeavesCacheOfText version before after }
{
    laid_cache_is_clean();
    cache_text_has_one_verdict();
    cache_text_is_accepted_where_there_is_room();
}

/// The meaning of a cache without faults up to the stage Whole is lawful: a text spells it.
pub fn sound_caches_are_lawful()
    ensures { (image : List (List ℕ)) → IsImage image → faults Cache Whole image ≡ []
        → IsLawfulCache (cache_meaning image) }
{
    superblocks_lead_to_reached_roots();
}

/// The dump of a cache without faults up to the stage Whole, of either version, is restored in version 1 or 2, where
/// there is room for it, nothing fails and memory isn't wanting; and what is restored of it means the same cache, in
/// the version that was asked.
pub fn restored_cache_dump_means_the_same()
    ensures restored { (version : ℕ) (image base : List (List ℕ)) (file path : List ℕ) (before after : Objects) (status : ℕ)
        → (version ≡ 1) ⊎ (version ≡ 2)
        → IsDumpOf Cache version image base before → IsRestoreAnswered Cache version file path before after status → NoFaults before after
        → (status ≡ 0) ⊎ (status ≡ 7) }
    ensures same { (version : ℕ) (image base : List (List ℕ)) (file path : List ℕ) (before after : Objects) → (version ≡ 1) ⊎ (version ≡ 2)
        → IsDumpOf Cache version image base before → IsRestoreAnswered Cache version file path before after 0
        → IfSome after.output.held (λ restored. (cache_meaning restored ≡ cache_meaning image)
        × ((cache_fields (block_at restored 0)).version ≡ version)) }
{
    restored_cache_is_clean();
    sound_caches_are_lawful();
    laid_cache_is_clean();
    cache_text_spells();
    cache_text_has_one_meaning();
    cache_text_has_one_verdict();
    cache_text_is_accepted_where_there_is_room();
}

// What a repaired cache is.

/// What is saved of a cache whose superblock has no fault is lawful, from whatever roots, and whatever else is damaged: a text spells it.
pub fn saved_caches_are_lawful()
    ensures { (named : CacheRoots) (image : List (List ℕ)) → IsImage image → faults Cache Super image ≡ []
        → IsLawfulCache (saved_with named image) }
{
    saved_entries_are_lawful();
}

/// Once the work is done, and so at status 0, the output holds, with nothing unsynced, an image that is clean and means what is saved of
/// the input with the roots that were named, in the version that was asked, 1 or 2, or else in the input's own. At status 0 the line of
/// what is kept was put.
pub fn repaired_cache_is_clean()
    ensures made { (version : Option ℕ) (named : CacheRoots) (from to : List ℕ) (before after : Objects) (status : ℕ)
        → IsVersionAsked version → IsCacheRepairAnswered version named from to before after status
        → IsWorkDone before after status → HoldsSavedCache version named before after }
    ensures line { (version : Option ℕ) (named : CacheRoots) (from to : List ℕ) (before after : Objects)
        → IsCacheRepairAnswered version named from to before after 0 → PutsKept named before after }
{
    saved_caches_are_lawful();
    laid_cache_is_clean();
}

/// Under every status a crash at any moment of the call leaves, by no chance, the old image, no valid superblock, or such an image.
pub fn crashed_repair_leaves_no_other_cache()
    ensures { (version : Option ℕ) (named : CacheRoots) (from to : List ℕ) (before after : Objects) (status : ℕ)
        → IsVersionAsked version → IsCacheRepairAnswered version named from to before after status
        → LeavesSavedCache version named before after }
{
    saved_caches_are_lawful();
    laid_cache_is_clean();
}

/// A cache without faults up to the stage Whole is repaired, where no root is named, there is room for it, nothing fails and memory isn't
/// wanting; and what is repaired means the same cache, in the version that was asked, or else in its own. Nothing of it is unknown.
pub fn repaired_sound_cache_means_the_same()
    ensures repaired { (version : Option ℕ) (image base : List (List ℕ)) (from to : List ℕ) (before after : Objects) (status : ℕ)
        → IsSoundCacheRepair image base before
        → cache_need (version_written version image) (cache_meaning image) (room_of (length base)) ≤ room_of (length base)
        → IsCacheRepairAnswered version no_roots from to before after status → NoFaults before after → (status ≡ 0) ⊎ (status ≡ 7) }
    ensures same { (version : Option ℕ) (image base : List (List ℕ)) (from to : List ℕ) (before after : Objects)
        → IsVersionAsked version → IsSoundCacheRepair image base before
        → IsCacheRepairAnswered version no_roots from to before after 0
        → IfSome after.output.held (λ repaired. IsCleanCacheIn (version_written version image) repaired (cache_meaning image)) }
    ensures known { (version : Option ℕ) (image base : List (List ℕ)) (from to : List ℕ) (before after : Objects)
        → IsSoundCacheRepair image base before → IsCacheRepairAnswered version no_roots from to before after 0
        → Appends (keeps_line (cache_meaning image) 0) before.out.written after.out.written }
{
    repaired_cache_is_clean();
    sound_caches_are_saved();
}

// What a writeback of a cache comes to: at its end, and where it is stopped.

/// At status 0 nothing in the cache is dirty: its metadata has no faults up to the stage Whole, is clean where it was, and means what it
/// meant but for what was dirty. The cached device reads what it read, and so does the origin alone, where the blocks that weren't copied
/// are the same on both devices. Nothing is unsynced. So it is under any status once `out` was touched: the line comes after the work.
pub fn written_back_cache_is_clean()
    ensures { (metadata fast origin : List ℕ) (before after : Objects) (status : ℕ)
        → IsWritebackAnswered metadata fast origin before after status
        → IsWorkDone before after status → HoldsWrittenBack before after }
{
    faults_are_none_where_clean();
    copying_keeps_the_view();
    copied_origins_stand_alone();
    settled_caches_have_the_same_faults();
    settled_caches_mean_the_same();
    settled_caches_show_the_same();
}

/// Under every status, where nothing was unsynced before the call, a crash at any moment of it leaves an origin that reads the same under
/// the cache as it was. Of the metadata it leaves, by no chance, no valid superblock, or one under which all reads the same. It leaves
/// other metadata than before only where the origin reads alone what the cached device read. A crash of both at the call's end leaves, by
/// no chance, a cached device that reads the same, or no valid superblock and such an origin. Whatever else failed, an origin that didn't
/// fail, nor the fast device, was left alone, or reads alone what the cached device read; and metadata that didn't fail was left alone, or
/// all reads the same under it.
pub fn stopped_writeback_keeps_the_view()
    ensures { (metadata fast origin : List ℕ) (before after : Objects) (status : ℕ)
        → IsWritebackAnswered metadata fast origin before after status
        → IsSynced before.input → IsSynced before.output → LeavesTheView before after }
{
    copying_keeps_the_view();
    copied_origins_stand_alone();
    settled_caches_show_the_same();
}

// What can be saved of a damaged cache: of a sound cache it is the cache's meaning, and its entries are always lawful.

/// Of a cache without faults up to the stage Whole all is saved: what is saved is its meaning, and no mapping word is lost.
pub fn sound_caches_are_saved()
    ensures saved { (image : List (List ℕ)) → HasBytes image → faults Cache Whole image ≡ [] → saved_cache image ≡ cache_meaning image }
    ensures known { (image : List (List ℕ)) → HasBytes image → faults Cache Whole image ≡ []
        → unknown_words (cache_fields (block_at image 0)) image ≡ 0 }
{
    trees_are_in_order();
    superblocks_lead_to_reached_roots();
}

/// What is saved are entries that ascend and lie in the cache, each with an origin of its own, whatever is damaged.
pub fn saved_entries_are_lawful()
    ensures { (fields : CacheFields) (image : List (List ℕ)) → HasBytes image
        → AreEntries fields.blocks fields.hint_size 0 [] (saved_cache_from fields image).entries }
{}
