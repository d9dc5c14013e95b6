//! What the lists over bytes come to for a pool without faults: its meaning, and its text.

ghost use Rattle.std.specs.Prelude.{◌≡◌, ℕ, List, []};
ghost use Rattle.std.specs.List.{AllByRecursion};
ghost use Rattle.pd_kinds.specs.declared.kind.Kind.TheVariants.{Thin};
ghost use Rattle.pd_kinds.specs.declared.kind.Stage.TheVariants.{Whole};
ghost use Rattle.pd_kinds.specs.Graph.{block_at};
ghost use Rattle.pd_kinds.specs.Meaning.{thin_meaning};
ghost use Rattle.pd_kinds.specs.Stages.{faults};
ghost use Rattle.pd_kinds.specs.ThinFormat.{thin_fields, thin_graph};
ghost use Rattle.pd_kinds.specs.Image.{IsImage};
ghost use Rattle.pd_grammar.specs.Texts.{text_of_lines};
ghost use Rattle.pd_grammar.specs.Lawful.{IsLawfulPool};
ghost use Rattle.pd_grammar.specs.ThinText.{text_of_pool, thin};
ghost use Rattle.pd_laid.specs.Shape.{device_roots, leaf_blocks};
ghost use Rattle.pd_meaning_thin.specs.Given.{GivesPool, super_lines};
ghost use Rattle.pd_meaning_thin.specs.Walk.{IsProperTree, leaves_below, roots_below};

use pd_kinds::{reached_by_paths, trees_are_in_order};
use pd_laid::sound_pool_is_saved;
use pd_tree::{
    entries_lead_to_reached_pairs, formats_have_trees, reached_trees_are_sound,
    superblocks_lead_to_reached_roots,
};

/// In a pool without faults up to the stage Whole the rows are the devices of its meaning, and what is below
/// their roots are the mappings of each.
pub fn rows_are_the_devices()
    ensures { (image : List (List ℕ)) → faults Thin Whole image ≡ [] → GivesPool image }
{
    trees_are_in_order();
    formats_have_trees();
    superblocks_lead_to_reached_roots();
    entries_lead_to_reached_pairs();
    reached_trees_are_sound();
}

/// The lines of what the cursors give of a pool without faults up to the stage Whole are its text.
pub fn given_lines_are_the_text()
    ensures { (image : List (List ℕ)) → faults Thin Whole image ≡ []
        → text_of_lines thin (super_lines image (thin_fields (block_at image 0))) ≡ text_of_pool (thin_meaning image) }
{
    rows_are_the_devices();
}

/// The meaning of a pool without faults up to the stage Whole is lawful: a text spells it.
pub fn sound_pools_are_lawful()
    ensures { (image : List (List ℕ)) → IsImage image → faults Thin Whole image ≡ []
        → IsLawfulPool (thin_meaning image) }
{
    rows_are_the_devices();
    sound_pool_is_saved();
}

// What the leaves and the roots over bytes come to for a pool without faults: those of its shape.

/// In a pool without faults up to the stage Whole the roots of the devices are those that a cursor over the mapping tree
/// gives, the leaves of each are those below its root, and the nodes of its tree are metadata blocks, each met once.
pub fn leaves_are_below_roots()
    ensures roots { (image : List (List ℕ)) → faults Thin Whole image ≡ []
        → device_roots (thin_graph (block_at image 0)) image ≡ roots_below image (thin_fields (block_at image 0)).mapping_root }
    ensures leaves { (image : List (List ℕ)) → faults Thin Whole image ≡ []
        → AllByRecursion (λ root. leaf_blocks (thin_graph (block_at image 0)) image root ≡ leaves_below image 63 root)
        (device_roots (thin_graph (block_at image 0)) image) }
    ensures trees { (image : List (List ℕ)) → faults Thin Whole image ≡ []
        → AllByRecursion (IsProperTree image (thin_fields (block_at image 0)).meta_map.blocks)
        (device_roots (thin_graph (block_at image 0)) image) }
{
    trees_are_in_order();
    reached_by_paths();
    formats_have_trees();
    superblocks_lead_to_reached_roots();
    entries_lead_to_reached_pairs();
    reached_trees_are_sound();
}
