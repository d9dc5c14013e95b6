//! What the texts over bytes come to for images without faults: those of their meanings (`cache_dump`, `era_dump`).

ghost use Rattle.std.specs.Prelude.{◌≡◌, ℕ, List, []};
ghost use Rattle.pd_kinds.specs.declared.kind.Kind.TheVariants.{Cache, Era};
ghost use Rattle.pd_kinds.specs.declared.kind.Stage.TheVariants.{Whole};
ghost use Rattle.pd_kinds.specs.CacheFormat.{cache_fields};
ghost use Rattle.pd_kinds.specs.EraFormat.{era_fields};
ghost use Rattle.pd_kinds.specs.Graph.{block_at};
ghost use Rattle.pd_kinds.specs.Image.{HasBytes};
ghost use Rattle.pd_kinds.specs.Meaning.{cache_meaning, era_meaning};
ghost use Rattle.pd_kinds.specs.Stages.{faults};
ghost use Rattle.pd_grammar.specs.CacheText.{text_of_cache};
ghost use Rattle.pd_grammar.specs.EraText.{text_of_era};
ghost use Rattle.pd_meaning_era.specs.Eras.{eras_below};
ghost use Rattle.pd_dumps.specs.CacheLines.{cache_dump_text};
ghost use Rattle.pd_dumps.specs.EraLines.{era_dump_text};

use pd_meaning_cache::rows_are_the_entries;
use pd_meaning_era::lists_are_the_eras;
use pd_tree::superblocks_lead_to_reached_roots;

/// The lines of what the cursor gives of a cache without faults up to the stage Whole are its text.
pub fn given_cache_lines_are_the_text()
    ensures { (image : List (List ℕ)) → HasBytes image → faults Cache Whole image ≡ []
        → cache_dump_text image (cache_fields (block_at image 0)) ≡ text_of_cache (cache_meaning image) }
{
    rows_are_the_entries();
    superblocks_lead_to_reached_roots();
}

/// The lines of the eras that are given of an era target without faults up to the stage Whole, with the lines around them,
/// are its text.
pub fn given_era_lines_are_the_text()
    ensures { (image : List (List ℕ)) → faults Era Whole image ≡ []
        → era_dump_text (era_fields (block_at image 0)) (eras_below image (era_fields (block_at image 0)))
        ≡ text_of_era (era_meaning image) }
{
    lists_are_the_eras();
}
