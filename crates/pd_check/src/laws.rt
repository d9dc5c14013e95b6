//! What the trees and the audit of an image come to in which no rule is broken up to the order of the trees.

ghost use Rattle.std.specs.Prelude.{◌≡◌, ℕ, List, suc, ◌+◌, ◌<◌, ◌≤◌, false, true, nat_eq, Bool, [], ◌∷◌, length, map};
ghost use Rattle.std.specs.List.{AllByRecursion, IsDistinct};
ghost use Rattle.pd_kinds.specs.Graph.{Graph, pair, block_at, nodes};
ghost use Rattle.pd_kinds.specs.Lawful.{IsLawful};
ghost use Rattle.pd_kinds.specs.Stages.{IsReached};
ghost use Rattle.pd_kinds.specs.Trees.{entries_below, keys_of};
ghost use Rattle.pd_kinds.specs.InOrder.{AreInOrder};
ghost use Rattle.pd_kinds.specs.declared.rule.Rule.TheVariants.{Index};
ghost use Rattle.pd_kinds.specs.Bitmap.{index_blocks};
ghost use Rattle.pd_kinds.specs.Node.{Entry};
ghost use Rattle.pd_kinds.specs.Whole.{bitmap_tests, whole_bad};
ghost use Rattle.pd_graph.specs.declared.audit.Audit.{Audit};
ghost use Rattle.pd_graph.specs.Audit.{blocks_of};
ghost use Rattle.pd_tree.specs.Search.{IsSoundTree, IsTreeRole, IsTreeTo};
ghost use Rattle.pd_tree.specs.Below.{nodes_below};
ghost use Rattle.pd_check.specs.Known.{IsUp, IsKnown, IsWellSettled};
ghost use Rattle.pd_check.specs.Refs.{AreReachedOnce, InRole, IsIndexRole, blocks_in, known_in, named_in};

use pd_kinds::reached_by_paths;
use pd_tree::{edges_lead_to_reached_pairs, reached_trees_are_sound};

/// The keys of the entries of a sound tree ascend.
pub fn keys_of_sound_trees_ascend()
    ensures { (graph : Graph) (image : List (List ℕ)) (b role size : ℕ) → IsTreeRole graph role size → IsSoundTree graph image (pair b role)
        → IsUp 0 (keys_of (entries_below graph image size role b)) }
{}

/// Where no reached pair is out of order, the keys of the entries of a reached tree ascend.
pub fn keys_of_reached_trees_ascend()
    ensures { (graph : Graph) (image : List (List ℕ)) (b role size : ℕ) → IsLawful graph → AreInOrder graph image
        → IsTreeRole graph role size → IsReached graph image b role → IsUp 0 (keys_of (entries_below graph image size role b)) }
{
    reached_trees_are_sound();
}

/// Where the walk and settling find no rule broken, a note is that of the keys of the entries below its node.
pub fn settled_audits_are_known()
    ensures { (graph : Graph) (image : List (List ℕ)) (audit : Audit) → IsLawful graph → blocks_of audit ≡ graph.nr
        → IsWellSettled graph image audit → IsKnown graph image audit }
{}

// How many blocks are reached: those of trees, of index blocks, and of the bitmaps that these name.

/// Blocks that are reached once each, in roles of which none comes twice, are together no more than the reachable pairs.
pub fn reached_blocks_are_no_more_than_nodes()
    ensures { (graph : Graph) (image : List (List ℕ)) (parts : List InRole) → AllByRecursion (AreReachedOnce graph image) parts
        → IsDistinct nat_eq (map (λ (part : InRole). part.role) parts) → blocks_in parts ≤ length (nodes graph image) }
{}

/// The blocks that an audit of an image has in a role are reached once each.
pub fn known_blocks_are_reached_once()
    ensures { (graph : Graph) (image : List (List ℕ)) (audit : Audit) (role : ℕ) → IsKnown graph image audit → role < 16
        → AreReachedOnce graph image (record { role = role; blocks = known_in audit role graph.nr }) }
{}

/// Where no reached pair is out of order, the nodes that a cursor over a reached tree reads are reached once each.
pub fn nodes_of_reached_trees_are_reached_once()
    ensures { (graph : Graph) (image : List (List ℕ)) (b role size : ℕ) → IsLawful graph → AreInOrder graph image
        → IsTreeRole graph role size → IsReached graph image b role
        → AreReachedOnce graph image (record { role = role; blocks = nodes_below size image 63 b }) }
{
    reached_by_paths();
    reached_trees_are_sound();
}

/// Where no bitmap breaks the rule Index, the bitmaps that blocks which are reached once each name are reached once each.
pub fn bitmaps_are_named_once()
    ensures { (graph : Graph) (image : List (List ℕ)) (is_bitmap : ℕ → Bool) (part : InRole) (role : ℕ) → IsLawful graph
        → ((b : ℕ) → b < graph.nr → whole_bad (bitmap_tests graph image is_bitmap) b Index ≡ false)
        → part.role < 16 → is_bitmap role ≡ true → AreReachedOnce graph image part
        → AreReachedOnce graph image (record { role = role; blocks = named_in graph image part role }) }
{
    edges_lead_to_reached_pairs();
}

/// Where no reached pair is out of order, a reached tree names the blocks of its entries, and a reached index block its
/// bitmaps.
pub fn trees_and_indices_name_blocks()
    ensures entries { (graph : Graph) (image : List (List ℕ)) (b role size next : ℕ) (named : ℕ → ℕ) → IsTreeTo graph role size next named
        → IsLawful graph → AreInOrder graph image → IsReached graph image b role → (role ≡ next → ⊥)
        → named_in graph image (record { role = role; blocks = nodes_below size image 63 b }) next
        ≡ map (λ (e : Entry). named e.value) (entries_below graph image size role b) }
    ensures bitmaps { (graph : Graph) (image : List (List ℕ)) (b role next : ℕ)
        → IsIndexRole graph role next → AreInOrder graph image → IsReached graph image b role
        → named_in graph image (record { role = role; blocks = b ∷ [] }) next ≡ index_blocks graph.nr (block_at image b) }
{
    reached_trees_are_sound();
}

/// Where no reached pair is out of order, cursors over two reached trees in two roles read no more nodes than there
/// are pairs besides one in a third role.
pub fn two_trees_have_no_more_nodes()
    ensures { (graph : Graph) (image : List (List ℕ)) (c other b role size b' role' size' : ℕ) → IsLawful graph → AreInOrder graph image
        → IsReached graph image c other
        → IsTreeRole graph role size → IsReached graph image b role
        → IsTreeRole graph role' size' → IsReached graph image b' role'
        → (role ≡ role' → ⊥) → (other ≡ role → ⊥) → (other ≡ role' → ⊥)
        → suc (length (nodes_below size image 63 b) + length (nodes_below size' image 63 b')) ≤ length (nodes graph image) }
{
    reached_blocks_are_no_more_than_nodes();
    nodes_of_reached_trees_are_reached_once();
}
