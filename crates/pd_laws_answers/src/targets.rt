//! What restored and dumped era targets are.

ghost use Rattle.std.specs.Prelude.{◌≡◌, ◌⊎◌, ℕ, List, [], IfSome};
ghost use Rattle.pd_kinds.specs.declared.kind.Kind.TheVariants.{Era};
ghost use Rattle.pd_kinds.specs.declared.kind.Stage.TheVariants.{Whole};
ghost use Rattle.pd_kinds.specs.Meaning.{era_meaning};
ghost use Rattle.pd_kinds.specs.Stages.{faults};
ghost use Rattle.pd_kinds.specs.Image.{IsImage};
ghost use Rattle.pd_grammar.specs.Lawful.{IsLawfulEra};
ghost use Rattle.pd_answers.specs.Terms.{NoFaults, Objects};
ghost use Rattle.pd_laws_answers.specs.Exact.{HoldsTargetOfText, IsDumpOf, IsRestoreAnswered, LeavesTargetOfText};

use pd_grammar::{
    era_text_has_one_meaning, era_text_has_one_verdict, era_text_is_accepted_where_there_is_room,
    era_text_spells,
};
use pd_laws_laid::laid_era_is_clean;
use pd_meaning_era::lists_are_the_eras;

/// At status 0 the text that was restored spells an era target, and the output holds, with nothing unsynced, an image
/// that is clean and means that target.
pub fn restored_target_is_clean()
    ensures { (file path : List ℕ) (before after : Objects)
        → IsRestoreAnswered Era 1 file path before after 0 → HoldsTargetOfText before after }
{
    laid_era_is_clean();
    era_text_has_one_verdict();
    era_text_is_accepted_where_there_is_room();
}

/// Under every status a crash at any moment of the call leaves, by no chance, the old image, no valid superblock,
/// or an image that is clean and means the target of the text.
pub fn crashed_restore_leaves_no_other_target()
    ensures { (file path : List ℕ) (before after : Objects) (status : ℕ)
        → IsRestoreAnswered Era 1 file path before after status → LeavesTargetOfText before after }
{
    laid_era_is_clean();
    era_text_has_one_verdict();
    era_text_is_accepted_where_there_is_room();
}

/// The meaning of an era target without faults up to the stage Whole is lawful: a text spells it.
pub fn sound_targets_are_lawful()
    ensures { (image : List (List ℕ)) → IsImage image → faults Era Whole image ≡ []
        → IsLawfulEra (era_meaning image) }
{
    lists_are_the_eras();
}

/// The dump of an era target without faults up to the stage Whole is restored, where there is room for it, nothing
/// fails and memory isn't wanting; and what is restored of it means the same target.
pub fn restored_target_dump_means_the_same()
    ensures restored { (image base : List (List ℕ)) (file path : List ℕ) (before after : Objects) (status : ℕ)
        → IsDumpOf Era 1 image base before
        → IsRestoreAnswered Era 1 file path before after status → NoFaults before after → (status ≡ 0) ⊎ (status ≡ 7) }
    ensures same { (image base : List (List ℕ)) (file path : List ℕ) (before after : Objects) → IsDumpOf Era 1 image base before
        → IsRestoreAnswered Era 1 file path before after 0
        → IfSome after.output.held (λ restored. era_meaning restored ≡ era_meaning image) }
{
    restored_target_is_clean();
    sound_targets_are_lawful();
    laid_era_is_clean();
    era_text_spells();
    era_text_has_one_meaning();
    era_text_has_one_verdict();
    era_text_is_accepted_where_there_is_room();
}
