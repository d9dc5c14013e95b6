//! What status 0 says of each tool, over the words that were given and what the objects hold before and after the call.

ghost use Rattle.std.specs.Prelude.{◌≡◌, ◌^◌, ◌∷◌, [], Bool, List, ℕ, IfSome, Option, Some, codes, false, true};
ghost use Rattle.pd_kinds.specs.declared.kind.Flagged.{Flagged};
ghost use Rattle.pd_kinds.specs.declared.kind.Flagged.TheVariants.{Pool};
ghost use Rattle.pd_kinds.specs.declared.kind.Kind.{Kind};
ghost use Rattle.pd_kinds.specs.declared.kind.Kind.TheVariants.{Cache, Era, Thin};
ghost use Rattle.pd_kinds.specs.declared.kind.Passing.{Passing};
ghost use Rattle.pd_kinds.specs.declared.kind.Passing.TheVariants.{Nothing, Leaks};
ghost use Rattle.pd_kinds.specs.Flagged.{kind_of};
ghost use Rattle.pd_kinds.specs.Meaning.{cache_meaning, era_meaning, thin_meaning};
ghost use Rattle.pd_kinds.specs.Objects.{Appends};
ghost use Rattle.pd_grammar.specs.CacheText.{SpellsCache};
ghost use Rattle.pd_grammar.specs.EraText.{SpellsEra};
ghost use Rattle.pd_grammar.specs.ThinText.{SpellsPool};
ghost use Rattle.pd_answers.specs.KeptCache.{keeps_line};
ghost use Rattle.pd_answers.specs.Terms.{Objects};
ghost use Rattle.pd_answers.specs.declared.request.CacheRoots.{CacheRoots};
ghost use Rattle.pd_answers.specs.declared.request.GivenSuper.{GivenSuper};
ghost use Rattle.pd_answers.specs.declared.request.NamedRoots.{NamedRoots};
ghost use Rattle.pd_answers.specs.Outputs.{IsWorkDone};
ghost use Rattle.pd_answers.specs.QueryLines.{device_list_lines, rmap_lines, since_lines};
ghost use Rattle.pd_answers.specs.declared.request.Request.TheVariants.{Restore};
ghost use Rattle.pd_answers.specs.Words.{Region, asked, generated_number, is_value, number_below, region_of, version_of};
ghost use Rattle.pd_laws_answers.specs.CommandLines.{cache_repair_words, cache_restore_words, clearing_words, dry_named_words};
ghost use Rattle.pd_laws_answers.specs.CommandLines.{dry_cache_words};
ghost use Rattle.pd_laws_answers.specs.CommandLines.{dry_repair_words, dry_search_words, generate_words, image_words, named_repair_words};
ghost use Rattle.pd_laws_answers.specs.CommandLines.{passing_words, rehearse_words, repair_words, restore_words, rmap_words, search_words};
ghost use Rattle.pd_laws_answers.specs.CommandLines.{shared_dump_words, shrink_words, since_words, trim_words, writeback_words};
ghost use Rattle.pd_laws_answers.specs.Exact.{HoldsCacheOfText, HoldsCleared, HoldsPoolOfText, HoldsSalvage};
ghost use Rattle.pd_laws_answers.specs.Exact.{HoldsTargetOfText, LeavesOldOrCleared, LeavesTornAtMost};
ghost use Rattle.pd_laws_answers.specs.Search.{HasNoStates, HoldsNamed, RootWords, SayRoots, TellsNamed, TellsStates, HasNoRoots};
ghost use Rattle.pd_laws_answers.specs.Search.{HoldsBestPool, HoldsBestShape, HoldsFoundPool, HoldsFoundShape, NumberWords, SayNumbers};
ghost use Rattle.pd_laws_answers.specs.Saved.{HoldsSavedCache, HoldsSavedShape, IsSoundCacheRepair, PutsKept, TellsCacheOfInput};
ghost use Rattle.pd_laws_answers.specs.Sharing.{HasTimesOfSharing, IsDamagedPool, IsKeptPool, SeesSharing, SeesSharingWhere};
ghost use Rattle.pd_laws_answers.specs.Shrink.{HoldsSharing, HoldsShrunk};
ghost use Rattle.pd_laws_answers.specs.Unused.{ListsUnmappedOfInput};
ghost use Rattle.pd_laws_answers.specs.Words.{CacheRootWords, CallEnds, HoldsGenerated, InputLosesNothing, IsName, IsVersionSaid};
ghost use Rattle.pd_laws_answers.specs.Words.{SayCacheRoots, no_root_words};
ghost use Rattle.pd_laws_answers.specs.Words.{PutsGenerated, PutsOfInput, PutsShapeOfInput, PutsTextOfInput};
ghost use Rattle.pd_laws_answers.specs.Words.{TellsKeptOfInput, TellsWhetherClean, TellsWhetherPassed};
ghost use Rattle.pd_laws_answers.specs.Writeback.{HoldsWrittenBack};

use crate::caches::{
    repaired_cache_is_clean, repaired_sound_cache_means_the_same, restored_cache_is_clean,
    sound_caches_are_lawful, written_back_cache_is_clean,
};
use crate::laws::{
    checks_tell_clean_images, cleared_image_is_clean, clearing_checks_tell_what_passes,
    crashed_clearing_leaves_no_other_image, laid_shapes_are_clean, passing_checks_tell_leaks,
    restored_pool_is_clean,
};
use crate::repairs::{
    repaired_pool_is_clean, repaired_pool_keeps_its_sharing, repaired_pool_sees_sharing,
    searched_pool_keeps_its_sharing, shared_repair_sees_sharing,
};
use crate::searches::{
    named_pool_sees_sharing, named_repair_is_clean, searched_pool_is_clean,
    searched_pool_sees_sharing,
};
use crate::shrinks::{shrunk_pool_is_clean_and_reads_the_same, shrunk_pool_keeps_its_sharing};
use crate::targets::{restored_target_is_clean, sound_targets_are_lawful};
use pd_gen::generated_text_spells_a_pool;
use pd_grammar::{cache_text_spells, era_text_spells, thin_text_spells};
use pd_kinds::faults_are_none_where_clean;
use pd_laid::{
    either_version_spells_a_shape, pool_text_has_one_shape, pool_text_has_one_verdict,
    pool_text_is_accepted_where_there_is_room,
};
use pd_laws_changed::unused_blocks_are_mapped_by_none;
use pd_laws_shapes::sound_pools_have_a_shape;
use pd_meaning_thin::sound_pools_are_lawful;
use pd_scan::first_state_is_the_best;

/// `thin_check IMAGE`: status 0 says that the pool's image is clean, and 1 that it isn't.
pub fn thin_check_tells_clean()
    ensures { (image : List ℕ) (before after : Objects) (status : ℕ) → IsName image
        → CallEnds (codes "thin_check" ∷ image ∷ []) status before after → TellsWhetherClean Thin before after status }
{
    checks_tell_clean_images();
}

/// `cache_check IMAGE`: status 0 says that the cache's image is clean, and 1 that it isn't.
pub fn cache_check_tells_clean()
    ensures { (image : List ℕ) (before after : Objects) (status : ℕ) → IsName image
        → CallEnds (codes "cache_check" ∷ image ∷ []) status before after → TellsWhetherClean Cache before after status }
{
    checks_tell_clean_images();
}

/// `era_check IMAGE`: status 0 says that the era target's image is clean, and 1 that it isn't.
pub fn era_check_tells_clean()
    ensures { (image : List ℕ) (before after : Objects) (status : ℕ) → IsName image
        → CallEnds (codes "era_check" ∷ image ∷ []) status before after → TellsWhetherClean Era before after status }
{
    checks_tell_clean_images();
}

/// `thin_check --clear-needs-check-flag IMAGE`: status 0 says that the pool's image was clean, and 1 that it wasn't. At status 0
/// it is still clean, means what it meant, and its flag "needs check" isn't set, with nothing unsynced.
pub fn thin_check_tells_clean_and_clears()
    ensures tells { (image : List ℕ) (before after : Objects) (status : ℕ) → IsName image
        → CallEnds (clearing_words Thin Nothing image) status before after → TellsWhetherClean Thin before after status }
    ensures clears { (image : List ℕ) (before after : Objects) → IsName image
        → CallEnds (clearing_words Thin Nothing image) 0 before after → HoldsCleared Pool Nothing before after }
{
    clearing_checks_tell_what_passes();
    cleared_image_is_clean();
}

/// `thin_check --ignore-non-fatal-errors IMAGE`, and `cache_check` and `era_check` so: status 0 says that each fault of the image is a
/// leak, if it has any, and 1 that another one is none. At status 0 nothing is lost: the image has no fault up to the stage Whole, and no
/// block that is used has a stored count below its references.
pub fn checks_let_leaks_pass()
    ensures tells { (kind : Kind) (image : List ℕ) (before after : Objects) (status : ℕ) → IsName image
        → CallEnds (passing_words kind image) status before after → TellsWhetherPassed Leaks kind before after status }
    ensures nothing_lost { (kind : Kind) (image : List ℕ) (before after : Objects)
        → IsName image → CallEnds (passing_words kind image) 0 before after → InputLosesNothing kind before }
{
    passing_checks_tell_leaks();
}

/// `thin_check --ignore-non-fatal-errors --clear-needs-check-flag IMAGE`: status 0 says that each fault of the pool's image was a leak, if
/// it had any, and 1 that another one was none. At status 0 it still has leaks alone, means what it meant, and its flag "needs check"
/// isn't set, with nothing unsynced.
pub fn thin_check_lets_leaks_pass_and_clears()
    ensures tells { (image : List ℕ) (before after : Objects) (status : ℕ) → IsName image
        → CallEnds (clearing_words Thin Leaks image) status before after → TellsWhetherPassed Leaks Thin before after status }
    ensures clears { (image : List ℕ) (before after : Objects) → IsName image
        → CallEnds (clearing_words Thin Leaks image) 0 before after → HoldsCleared Pool Leaks before after }
{
    clearing_checks_tell_what_passes();
    cleared_image_is_clean();
}

/// `cache_check --clear-needs-check-flag IMAGE`, with `--ignore-non-fatal-errors` before it or not: status 0 says that the cache's image
/// was clean, or had leaks alone, and 1 that it wasn't so.
pub fn cache_check_tells_what_passes()
    ensures clean { (image : List ℕ) (before after : Objects) (status : ℕ) → IsName image
        → CallEnds (clearing_words Cache Nothing image) status before after → TellsWhetherClean Cache before after status }
    ensures leaks { (image : List ℕ) (before after : Objects) (status : ℕ) → IsName image
        → CallEnds (clearing_words Cache Leaks image) status before after → TellsWhetherPassed Leaks Cache before after status }
{
    clearing_checks_tell_what_passes();
}

/// `cache_check --clear-needs-check-flag IMAGE`, and `thin_check` so, with `--ignore-non-fatal-errors` before it or not: at status 0 the
/// image is still clean, or has leaks alone; it has the faults that it had, none up to the stage Whole and no count below its references;
/// it means what it meant; and its flag "needs check" isn't set, with nothing unsynced. Under every status a crash at any moment leaves,
/// by no chance, the old image, no valid superblock, or such an image. Whatever chance does, block 0 has had no other content than the old
/// one and, where the image passes, the cleared one, and all other blocks are the old ones.
pub fn checks_clear_the_flag_alone()
    ensures clears { (flagged : Flagged) (passing : Passing) (image : List ℕ) (before after : Objects) → IsName image
        → CallEnds (clearing_words (kind_of flagged) passing image) 0 before after → HoldsCleared flagged passing before after }
    ensures crashed { (flagged : Flagged) (passing : Passing) (image : List ℕ) (before after : Objects) (status : ℕ) → IsName image
        → CallEnds (clearing_words (kind_of flagged) passing image) status before after → LeavesOldOrCleared flagged passing before after }
    ensures torn { (flagged : Flagged) (passing : Passing) (image : List ℕ) (before after : Objects) (status : ℕ) → IsName image
        → CallEnds (clearing_words (kind_of flagged) passing image) status before after → LeavesTornAtMost flagged passing before after }
{
    cleared_image_is_clean();
    crashed_clearing_leaves_no_other_image();
}

/// `thin_dump IMAGE`, to a file or not: status 0 says that the image has no faults up to the stage Whole, and that a text of the
/// pool that it means was put.
pub fn thin_dump_puts_the_text()
    ensures { (file : Option (List ℕ)) (image : List ℕ) (before after : Objects) → IfSome file IsName → IsName image
        → CallEnds (image_words (codes "thin_dump") file image) 0 before after → PutsTextOfInput Thin SpellsPool thin_meaning before after }
{
    sound_pools_are_lawful();
    thin_text_spells();
}

/// `thin_dump --shared IMAGE`, to a file or not: status 0 says that the image has no faults up to the stage Whole, and that a text was
/// put that spells the pool's shape: each leaf that its devices share is told once.
pub fn thin_shared_dump_puts_the_shape()
    ensures { (file : Option (List ℕ)) (image : List ℕ) (before after : Objects) → IfSome file IsName
        → IsName image → CallEnds (shared_dump_words file image) 0 before after → PutsShapeOfInput before after }
{
    sound_pools_have_a_shape();
    either_version_spells_a_shape();
}

/// `cache_dump IMAGE`, to a file or not: status 0 says that the image has no faults up to the stage Whole, and that a text of the
/// cache that it means was put.
pub fn cache_dump_puts_the_text()
    ensures { (file : Option (List ℕ)) (image : List ℕ) (before after : Objects) → IfSome file IsName
        → IsName image → CallEnds (image_words (codes "cache_dump") file image) 0 before after
        → PutsTextOfInput Cache SpellsCache cache_meaning before after }
{
    sound_caches_are_lawful();
    cache_text_spells();
}

/// `era_dump IMAGE`, to a file or not: status 0 says that the image has no faults up to the stage Whole, and that a text of the
/// era target that it means was put.
pub fn era_dump_puts_the_text()
    ensures { (file : Option (List ℕ)) (image : List ℕ) (before after : Objects) → IfSome file IsName → IsName image
        → CallEnds (image_words (codes "era_dump") file image) 0 before after → PutsTextOfInput Era SpellsEra era_meaning before after }
{
    sound_targets_are_lawful();
    era_text_spells();
}

/// `thin_restore -i FILE -o IMAGE`: status 0 says that the text, of either version, spells the shape of a pool, and that the image is
/// clean and means the pool, its devices share the leaves that the text tells, where each is used twice or more, and each data block
/// is counted as often as the text tells it, with nothing unsynced.
pub fn thin_restore_makes_the_pool()
    ensures { (file path : List ℕ) (before after : Objects) → IsName file → IsName path
        → CallEnds (restore_words (codes "thin_restore") file path) 0 before after → HoldsPoolOfText before after }
{
    restored_pool_is_clean();
}

/// `cache_restore -i FILE -o IMAGE`, in version 1 or, where `--metadata-version` says so, 2: status 0 says that the text spells
/// a cache, and that the image is clean and means it in that version, with nothing unsynced.
pub fn cache_restore_makes_the_cache()
    ensures { (word : Option (List ℕ)) (version : ℕ) (file path : List ℕ) (before after : Objects)
        → IfSome word IsName → version_of word ≡ Some version → IsName file → IsName path
        → CallEnds (cache_restore_words word file path) 0 before after → HoldsCacheOfText version before after }
{
    restored_cache_is_clean();
}

/// `era_restore -i FILE -o IMAGE`: status 0 says that the text spells an era target, and that the image is clean and means it,
/// with nothing unsynced.
pub fn era_restore_makes_the_target()
    ensures { (file path : List ℕ) (before after : Objects) → IsName file → IsName path
        → CallEnds (restore_words (codes "era_restore") file path) 0 before after → HoldsTargetOfText before after }
{
    restored_target_is_clean();
}

/// `thin_repair -i IMAGE -o IMAGE`: status 0 says that the output is clean and means what can be saved of the input, with
/// nothing unsynced; of an input without faults up to the stage Whole that is all of it.
pub fn thin_repair_makes_what_is_saved()
    ensures { (from to : List ℕ) (before after : Objects) → IsName from
        → IsName to → CallEnds (repair_words false from to) 0 before after → HoldsSalvage before after }
{
    repaired_pool_is_clean();
}

/// `thin_repair -i IMAGE -o IMAGE`: status 0 says that sharing is seen in the pool that the output holds, where what is saved has the
/// times that kernels keep, and so where the input was a pool that kernels kept, with blocks behind its superblock damaged.
pub fn thin_repair_sees_sharing()
    ensures saved { (from to : List ℕ) (before after : Objects) → IsName from → IsName to
        → CallEnds (repair_words false from to) 0 before after → SeesSharingWhere HasTimesOfSharing before after }
    ensures damaged { (whole : List (List ℕ)) (from to : List ℕ) (before after : Objects) → IsKeptPool whole → IsName from
        → IsName to → CallEnds (repair_words false from to) 0 before after → SeesSharingWhere (IsDamagedPool whole) before after }
{
    repaired_pool_sees_sharing();
}

/// `thin_repair -i IMAGE -o IMAGE --transaction-id TRANSACTION --data-block-size SIZE --nr-data-blocks BLOCKS`: status 0 says that
/// the output is clean and means the pool of the input's best roots, whatever its block 0 holds, that sharing is seen in it, with nothing
/// unsynced, and that these roots were put; status 1 says that no two trees of the input fit each other. The output is so under any
/// status once `out` was touched, whether or not the line of the roots was put whole.
pub fn thin_repair_finds_the_roots()
    ensures found { (from to : List ℕ) (words : NumberWords) (given : GivenSuper) (before after : Objects)
        → IsName from → IsName to → SayNumbers words given → CallEnds (search_words false from to words) 0 before after
        → HoldsFoundPool given.transaction given.block_size given.blocks before after }
    ensures made { (from to : List ℕ) (words : NumberWords) (given : GivenSuper) (before after : Objects) (status : ℕ)
        → IsName from → IsName to → SayNumbers words given → CallEnds (search_words false from to words) status before after
        → IsWorkDone before after status → HoldsBestPool given.transaction given.block_size given.blocks before after }
    ensures seen { (from to : List ℕ) (words : NumberWords) (given : GivenSuper) (before after : Objects) (status : ℕ)
        → IsName from → IsName to → SayNumbers words given → CallEnds (search_words false from to words) status before after
        → IsWorkDone before after status → SeesSharing before after }
    ensures none { (from to : List ℕ) (words : NumberWords) (given : GivenSuper) (before after : Objects) → IsName from → IsName to
        → SayNumbers words given → CallEnds (search_words false from to words) 1 before after → HasNoRoots given.blocks before after }
{
    searched_pool_is_clean();
    searched_pool_sees_sharing();
}

/// `thin_repair --shared -i IMAGE -o IMAGE`: status 0 says that the output is clean and means what can be saved of the input, that its
/// devices share each leaf that two or more of them had whole, and that the data blocks of such a leaf are counted once, with nothing
/// unsynced; of an input without faults up to the stage Whole that is all of it, shared as it was. And sharing is seen in it, where what is
/// saved has the times that kernels keep, and so where the input was a pool that kernels kept, with blocks behind its superblock damaged.
pub fn thin_repair_keeps_the_sharing()
    ensures made { (from to : List ℕ) (before after : Objects) → IsName from
        → IsName to → CallEnds (repair_words true from to) 0 before after → HoldsSavedShape before after }
    ensures saved { (from to : List ℕ) (before after : Objects) → IsName from → IsName to
        → CallEnds (repair_words true from to) 0 before after → SeesSharingWhere HasTimesOfSharing before after }
    ensures damaged { (whole : List (List ℕ)) (from to : List ℕ) (before after : Objects) → IsKeptPool whole → IsName from
        → IsName to → CallEnds (repair_words true from to) 0 before after → SeesSharingWhere (IsDamagedPool whole) before after }
{
    repaired_pool_keeps_its_sharing();
    shared_repair_sees_sharing();
}

/// `thin_repair --shared -i IMAGE -o IMAGE --transaction-id TRANSACTION --data-block-size SIZE --nr-data-blocks BLOCKS`: status 0 says that
/// the output is clean and means the pool of the input's best roots, whatever its block 0 holds, that sharing is seen in it and its devices
/// share each leaf that two or more of them had whole, with nothing unsynced, and that these roots were put; status 1 says that no two
/// trees of the input fit each other. The output is so under any status once `out` was touched.
pub fn thin_repair_finds_the_sharing()
    ensures found { (from to : List ℕ) (words : NumberWords) (given : GivenSuper) (before after : Objects)
        → IsName from → IsName to → SayNumbers words given → CallEnds (search_words true from to words) 0 before after
        → HoldsFoundShape given.transaction given.block_size given.blocks before after }
    ensures made { (from to : List ℕ) (words : NumberWords) (given : GivenSuper) (before after : Objects) (status : ℕ)
        → IsName from → IsName to → SayNumbers words given → CallEnds (search_words true from to words) status before after
        → IsWorkDone before after status → HoldsBestShape given.transaction given.block_size given.blocks before after }
    ensures seen { (from to : List ℕ) (words : NumberWords) (given : GivenSuper) (before after : Objects) (status : ℕ)
        → IsName from → IsName to → SayNumbers words given → CallEnds (search_words true from to words) status before after
        → IsWorkDone before after status → SeesSharing before after }
    ensures none { (from to : List ℕ) (words : NumberWords) (given : GivenSuper) (before after : Objects) → IsName from → IsName to
        → SayNumbers words given → CallEnds (search_words true from to words) 1 before after → HasNoRoots given.blocks before after }
{
    searched_pool_keeps_its_sharing();
    searched_pool_sees_sharing();
}

/// `thin_repair --dry-run -i IMAGE`, with `--shared` before `-i` or not: status 0 says that the superblock of the image has no faults, and
/// that it was put what a repair would keep: the devices that are saved and how many mappings of each, which is what a repair writes; the
/// devices that are lost; and the least numbers of blocks on which a repair has room, without shared leaves and with them.
pub fn thin_repair_tells_what_it_would_keep()
    ensures { (shared : Bool) (image : List ℕ) (before after : Objects) → IsName image
        → CallEnds (dry_repair_words shared image) 0 before after → TellsKeptOfInput before after }
{}

/// `thin_repair -i IMAGE -o IMAGE --mapping-root TOP --details-root DETAILS --transaction-id TRANSACTION --data-block-size SIZE
/// --nr-data-blocks BLOCKS`, with `--shared` before `-i` or not: status 0 says that the output is clean and means what can be saved of the
/// input from these two roots, whatever is damaged, that sharing is seen in it, with nothing unsynced; with shared leaves its devices share
/// each leaf that two or more of them had whole. Status 1 never comes.
pub fn thin_repair_saves_from_named_roots()
    ensures made { (shared : Bool) (from to : List ℕ) (roots : RootWords) (words : NumberWords) (named : NamedRoots)
        (given : GivenSuper) (before after : Objects) → IsName from → IsName to → SayRoots roots named → SayNumbers words given
        → CallEnds (named_repair_words shared from to roots words) 0 before after → HoldsNamed shared given named before after }
    ensures seen { (shared : Bool) (from to : List ℕ) (roots : RootWords) (words : NumberWords) (named : NamedRoots)
        (given : GivenSuper) (before after : Objects) → IsName from → IsName to → SayRoots roots named → SayNumbers words given
        → CallEnds (named_repair_words shared from to roots words) 0 before after → SeesSharing before after }
    ensures never { (shared : Bool) (from to : List ℕ) (roots : RootWords) (words : NumberWords) (named : NamedRoots)
        (given : GivenSuper) (before after : Objects) → IsName from → IsName to → SayRoots roots named
        → SayNumbers words given → CallEnds (named_repair_words shared from to roots words) 1 before after → ⊥ }
{
    named_repair_is_clean();
    named_pool_sees_sharing();
}

/// `thin_repair --dry-run -i IMAGE --transaction-id TRANSACTION --data-block-size SIZE --nr-data-blocks BLOCKS`, with `--shared` before
/// `-i` or not: status 0 says that the states of the input were put from which a repair can choose, the sound ones before the damaged
/// ones, and what it would keep of the best one; status 1 says that no two trees of the input fit each other, and that there is no damaged
/// state. With `--mapping-root TOP --details-root DETAILS` before
/// the numbers status 0 says that it was put what a repair from these roots would keep, and status 1 never comes.
pub fn thin_repair_tells_the_states()
    ensures told { (shared : Bool) (image : List ℕ) (words : NumberWords) (given : GivenSuper) (before after : Objects) → IsName image
        → SayNumbers words given → CallEnds (dry_search_words shared image words) 0 before after → TellsStates given before after }
    ensures none { (shared : Bool) (image : List ℕ) (words : NumberWords) (given : GivenSuper) (before after : Objects) → IsName image
        → SayNumbers words given → CallEnds (dry_search_words shared image words) 1 before after → HasNoStates given before }
    ensures named { (shared : Bool) (image : List ℕ) (roots : RootWords) (words : NumberWords) (named : NamedRoots)
        (given : GivenSuper) (before after : Objects) → IsName image → SayRoots roots named → SayNumbers words given
        → CallEnds (dry_named_words shared image roots words) 0 before after → TellsNamed given named before after }
    ensures never { (shared : Bool) (image : List ℕ) (roots : RootWords) (words : NumberWords)
        (named : NamedRoots) (given : GivenSuper) (before after : Objects) → IsName image → SayRoots roots named
        → SayNumbers words given → CallEnds (dry_named_words shared image roots words) 1 before after → ⊥ }
{
    first_state_is_the_best();
}

/// `cache_repair -i IMAGE -o IMAGE`, in the input's version of the metadata or, where `--metadata-version` says so, another: status 0 says
/// that the output is clean and means what can be saved of the cache, in that version, with nothing unsynced, and that the line of what is
/// kept was put. The roots that `--mapping-root`, `--hint-root` and `--dirty-root` name stand for those of the superblock. Of an input
/// without faults up to the stage Whole, where none is named, that is all of it, and nothing is unknown. The output is so under any status
/// once `out` was touched.
pub fn cache_repair_makes_what_is_saved()
    ensures made { (word : Option (List ℕ)) (version : Option ℕ) (roots : CacheRootWords) (named : CacheRoots)
        (from to : List ℕ) (before after : Objects) (status : ℕ) → IsVersionSaid word version → SayCacheRoots roots named → IsName from
        → IsName to → CallEnds (cache_repair_words word roots from to) status before after
        → IsWorkDone before after status → HoldsSavedCache version named before after }
    ensures line { (word : Option (List ℕ)) (version : Option ℕ) (roots : CacheRootWords)
        (named : CacheRoots) (from to : List ℕ) (before after : Objects) → IsVersionSaid word version → SayCacheRoots roots named
        → IsName from → IsName to → CallEnds (cache_repair_words word roots from to) 0 before after → PutsKept named before after }
    ensures known { (word : Option (List ℕ)) (version : Option ℕ) (image base : List (List ℕ)) (from to : List ℕ) (before after : Objects)
        → IsVersionSaid word version → IsName from → IsName to → IsSoundCacheRepair image base before
        → CallEnds (cache_repair_words word no_root_words from to) 0 before after
        → Appends (keeps_line (cache_meaning image) 0) before.out.written after.out.written }
{
    repaired_cache_is_clean();
    repaired_sound_cache_means_the_same();
}

/// `cache_repair --dry-run -i IMAGE`, with a version and roots before `-i` or not: status 0 says that the superblock of the image has no
/// faults, and that it was put what a repair from these roots would keep: how many entries, how many of them are dirty, and of how many
/// cache blocks the mapping word is lost; and the roots of the mapping arrays of which more words are saved.
pub fn cache_repair_tells_what_it_would_keep()
    ensures { (word : Option (List ℕ)) (version : Option ℕ) (roots : CacheRootWords) (named : CacheRoots) (image : List ℕ)
        (before after : Objects) → IsVersionSaid word version → SayCacheRoots roots named → IsName image
        → CallEnds (dry_cache_words word roots image) 0 before after → TellsCacheOfInput named before after }
{}

/// `thin_rmap --region FIRST..END IMAGE`, to a file or not: status 0 says that the image has no faults up to the stage Whole,
/// and that the mappings to the data blocks of the region were put.
pub fn thin_rmap_puts_the_mappings()
    ensures { (word : List ℕ) (region : Region) (file : Option (List ℕ)) (image : List ℕ) (before after : Objects) → IsName word
        → region_of word ≡ Some region → IfSome file IsName → IsName image → CallEnds (rmap_words word file image) 0 before after
        → PutsOfInput Thin (λ held. rmap_lines region.first region.end (thin_meaning held)) before after }
{}

/// `thin_ls IMAGE`, to a file or not: status 0 says that the image has no faults up to the stage Whole, and that the list of
/// its devices was put.
pub fn thin_ls_puts_the_devices()
    ensures { (file : Option (List ℕ)) (image : List ℕ) (before after : Objects) → IfSome file IsName
        → IsName image → CallEnds (image_words (codes "thin_ls") file image) 0 before after
        → PutsOfInput Thin (λ held. device_list_lines (thin_meaning held)) before after }
{}

/// `thin_trim --list IMAGE`, to a file or not: status 0 says that the pool's image is clean, and that the runs of its unused data blocks
/// were put: no mapping leads to one of them, neither of a device of the pool nor of one of the held root's.
pub fn thin_trim_lists_the_unused_blocks()
    ensures { (file : Option (List ℕ)) (image : List ℕ) (before after : Objects) → IfSome file IsName
        → IsName image → CallEnds (trim_words file image) 0 before after → ListsUnmappedOfInput before after }
{
    unused_blocks_are_mapped_by_none();
    faults_are_none_where_clean();
}

/// `era_invalidate --written-since ERA IMAGE`, to a file or not: status 0 says that the image has no faults up to the stage
/// Whole, and that the blocks that were written in that era or later were put.
pub fn era_invalidate_puts_the_written_blocks()
    ensures { (word : List ℕ) (era : ℕ) (file : Option (List ℕ)) (image : List ℕ) (before after : Objects) → IsName word
        → number_below (2 ^ 32) word ≡ Some era → IfSome file IsName → IsName image → CallEnds (since_words word file image) 0 before after
        → PutsOfInput Era (λ held. since_lines era (era_meaning held)) before after }
{}

/// `thin_generate --number NUMBER`, to a file or not: status 0 says that the generator's text of the number was put.
pub fn thin_generate_puts_its_text()
    ensures { (word : List ℕ) (number : ℕ) (file : Option (List ℕ)) (before after : Objects) → IsName word → generated_number word
        ≡ Some number → IfSome file IsName → CallEnds (generate_words word file) 0 before after → PutsGenerated number before after }
{}

/// `thin_rehearse --number NUMBER -o IMAGE`: status 0 says that the image is clean and means the pool of the generator's
/// text of the number, with nothing unsynced. So it does under any status once `out` was touched: its line comes last.
pub fn thin_rehearse_makes_its_pool()
    ensures { (word : List ℕ) (number : ℕ) (path : List ℕ) (before after : Objects) (status : ℕ) → IsName word
        → generated_number word ≡ Some number → IsName path → CallEnds (rehearse_words word path) status before after
        → IsWorkDone before after status → HoldsGenerated number before after }
{
    laid_shapes_are_clean();
    generated_text_spells_a_pool();
    either_version_spells_a_shape();
    pool_text_has_one_shape();
    pool_text_has_one_verdict();
    pool_text_is_accepted_where_there_is_room();
}

/// `cache_writeback --metadata-device IMAGE --fast-device IMAGE --origin-device IMAGE`: status 0 says that nothing in the cache is dirty,
/// that it is as sound as it was, and that the origin reads alone what the cached device read, where the blocks that weren't copied are the
/// same on both devices, with nothing unsynced. So it is under any status once `out` was touched.
pub fn cache_writeback_leaves_nothing_dirty()
    ensures { (metadata fast origin : List ℕ) (before after : Objects) (status : ℕ) → IsName metadata
        → IsName fast → IsName origin → CallEnds (writeback_words metadata fast origin) status before after
        → IsWorkDone before after status → HoldsWrittenBack before after }
{
    written_back_cache_is_clean();
}

/// `thin_shrink -i IMAGE -o IMAGE --data IMAGE --nr-blocks NUMBER`: status 0 says that the output is a clean pool with at most so many data
/// blocks, the same devices and the same virtual blocks, and that each device reads by it, on the data device as it is then or cut to
/// the pool's data blocks, what it read before by the input, with nothing unsynced. So it is under any status once `out` was touched.
pub fn thin_shrink_makes_the_pool_smaller()
    ensures { (from to pool word : List ℕ) (blocks : ℕ) (before after : Objects) (status : ℕ) → IsName from → IsName to → IsName pool
        → IsName word → number_below (2 ^ 64) word ≡ Some blocks → CallEnds (shrink_words false from to pool word) status before after
        → IsWorkDone before after status → HoldsShrunk blocks before after }
{
    shrunk_pool_is_clean_and_reads_the_same();
}

/// `thin_shrink --shared -i IMAGE -o IMAGE --data IMAGE --nr-blocks NUMBER`: status 0 says the same, and that the smaller pool's devices
/// share the leaves that they shared before, and no other ones. So it is under any status once `out` was touched.
pub fn thin_shrink_keeps_the_sharing()
    ensures smaller { (from to pool word : List ℕ) (blocks : ℕ) (before after : Objects) (status : ℕ)
        → IsName from → IsName to → IsName pool → IsName word → number_below (2 ^ 64) word ≡ Some blocks
        → CallEnds (shrink_words true from to pool word) status before after
        → IsWorkDone before after status → HoldsShrunk blocks before after }
    ensures sharing { (from to pool word : List ℕ) (blocks : ℕ) (before after : Objects) (status : ℕ)
        → IsName from → IsName to → IsName pool → IsName word → number_below (2 ^ 64) word ≡ Some blocks
        → CallEnds (shrink_words true from to pool word) status before after
        → IsWorkDone before after status → HoldsSharing blocks before after }
{
    shrunk_pool_is_clean_and_reads_the_same();
    shrunk_pool_keeps_its_sharing();
}

/// The words `thin_restore -i FILE -o IMAGE`, in either order, ask for the restore of a pool from FILE to IMAGE.
pub fn thin_restore_is_asked()
    ensures text_first { (file path : List ℕ) → is_value file ≡ true → is_value path ≡ true
        → asked (codes "thin_restore" ∷ codes "-i" ∷ file ∷ codes "-o" ∷ path ∷ []) ≡ Some (Restore Thin 1 file path) }
    ensures image_first { (file path : List ℕ) → is_value file ≡ true → is_value path ≡ true
        → asked (codes "thin_restore" ∷ codes "-o" ∷ path ∷ codes "-i" ∷ file ∷ []) ≡ Some (Restore Thin 1 file path) }
{}
