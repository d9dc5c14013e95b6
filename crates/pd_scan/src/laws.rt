//! What the settling in one role comes to, as laws on functions with empty bodies (`thin_repair`).

ghost use Rattle.std.specs.Prelude.{◌≡◌, ◌⊎◌, ◌<◌, ◌&&◌, ℕ, Bool, true, not, List, false};
ghost use Rattle.pd_kinds.specs.Graph.{is_outside, Graph, block_at, pair, keys_below};
ghost use Rattle.pd_kinds.specs.Layout.{Layout, Tree, tree, graph_of};
ghost use Rattle.pd_kinds.specs.Lawful.{IsLawful};
ghost use Rattle.pd_kinds.specs.Trees.{entries_below, keys_of};
ghost use Rattle.pd_kinds.specs.Image.{HasBytes};
ghost use Rattle.pd_laid.specs.FoundRoots.{lost_graph, is_sound_tree, FoundRoots, are_fitting, found_pool};
ghost use Rattle.pd_laid.specs.Salvage.{salvage_from};
ghost use Rattle.pd_answers.specs.NamedRepairs.{lacks_details};
ghost use Rattle.pd_settle.specs.Settled.{is_good_node};
ghost use Rattle.pd_scan.specs.Lost.{is_unbroken, is_fit_root};
ghost use Rattle.pd_scan.specs.Pairs.{lost_fields};

use pd_kinds::thin_format_is_lawful;

/// A block is a good node of a role exactly where it is the root of a sound tree, in any format: where those are fit that
/// are inside, break no rule of their own, and as a leaf name only roots of sound trees.
pub fn good_nodes_are_sound_trees()
    ensures { (graph : Graph) (image : List (List ℕ)) (role : ℕ) (fit : ℕ → Bool) → IsLawful graph → role < graph.roles
        → ((b : ℕ) → b < graph.nr → fit b ≡ is_fit_root graph image role b)
        → (b : ℕ) → b < graph.nr → is_good_node graph image fit true (pair b role) ≡ is_sound_tree graph image role b }
{}

/// A leaf of a device's mappings, or of the details, names no block: so a block is fit in these roles where it is inside,
/// and breaks no rule of its own.
pub fn lost_leaves_lead_nowhere()
    ensures { (image : List (List ℕ)) (data_blocks role b : ℕ) → (role ≡ 3) ⊎ (role ≡ 4)
        → let graph = lost_graph image data_blocks in
        is_fit_root graph image role b ≡ (not (is_outside graph.nr b) && is_unbroken graph role b (block_at image b)) }
{}

/// In a format that is a table of layouts the keys below the root of a sound tree are those of the entries below it.
pub fn keys_of_sound_trees_are_those_of_entries()
    ensures { (roles nr data_blocks : ℕ) (layout : ℕ → Layout) (t : Tree) (image : List (List ℕ)) (role b : ℕ)
        → let graph = graph_of roles nr data_blocks layout in
        IsLawful graph → role < graph.roles → layout role ≡ tree t → is_sound_tree graph image role b ≡ true
        → keys_below graph image (pair b role) ≡ keys_of (entries_below graph image t.size role b) }
{}

// What a repair saves from found roots, as a law on a function with an empty body (`thin_repair`).

/// Of a pool whose trees fit each other all is saved: what a repair saves from their roots is what was found, and no device lacks
/// its details.
pub fn found_pools_are_saved_whole()
    ensures saved { (image : List (List ℕ)) (data_blocks transaction block_size : ℕ) (roots : FoundRoots) → HasBytes image
        → let graph = lost_graph image data_blocks in are_fitting graph image roots.top roots.details ≡ true
        → salvage_from (lost_fields roots transaction block_size graph.nr data_blocks) image
        ≡ found_pool graph image transaction block_size roots }
    ensures details { (image : List (List ℕ)) (data_blocks transaction block_size : ℕ) (roots : FoundRoots) → HasBytes image
        → let graph = lost_graph image data_blocks in are_fitting graph image roots.top roots.details ≡ true
        → lacks_details (lost_fields roots transaction block_size graph.nr data_blocks) image ≡ false }
{
    thin_format_is_lawful();
}
