//! A cache in which nothing is dirty any more: which faults it has, what it means, and what it shows.
//! Serves `cache_writeback`.

ghost use Rattle.std.specs.Prelude.{◌≡◌, ℕ, true, List, [], ◌==◌};
ghost use Rattle.std.specs.List.{list_any};
ghost use Rattle.pd_kinds.specs.declared.kind.Kind.TheVariants.{Cache};
ghost use Rattle.pd_kinds.specs.declared.kind.Stage.{Stage};
ghost use Rattle.pd_kinds.specs.declared.kind.Stage.TheVariants.{Whole};
ghost use Rattle.pd_kinds.specs.Graph.{block_at};
ghost use Rattle.pd_kinds.specs.Image.{IsImage};
ghost use Rattle.pd_kinds.specs.Meaning.{cache_meaning};
ghost use Rattle.pd_kinds.specs.Stages.{faults};
ghost use Rattle.pd_kinds.specs.InOrder.{LooksAtOrder};
ghost use Rattle.pd_kinds.specs.Node.{Entry};
ghost use Rattle.pd_answers.specs.Writebacks.{hot_blocks, settled, view, dirty_places};
ghost use Rattle.pd_laws_changed.specs.Known.{IsKnown};
ghost use Rattle.pd_laws_changed.specs.Premises.{without_dirt, dirty_entries};

use pd_kinds::{reached_by_paths, trees_are_in_order};
use pd_tree::{
    edges_lead_to_reached_pairs, entries_lead_to_reached_pairs, formats_have_trees,
    superblocks_lead_to_reached_roots,
};

/// What is known of a cache that has no faults up to the stage Order, or up to a later one.
pub(crate) fn caches_in_order_are_known()
    ensures { (until : Stage) (image : List (List ℕ)) → LooksAtOrder until → faults Cache until image ≡ [] → IsKnown image }
{
    trees_are_in_order();
    formats_have_trees();
    superblocks_lead_to_reached_roots();
    edges_lead_to_reached_pairs();
    entries_lead_to_reached_pairs();
}

/// A cache without faults up to the stage Whole has, once nothing is dirty in it, the faults that it had, up to each stage: none up to
/// Whole, and those of its counts. No rule looks at what changes but that on checksums, and changed blocks are sealed again.
pub fn settled_caches_have_the_same_faults()
    ensures { (until : Stage) (image : List (List ℕ)) → IsImage image → faults Cache Whole image ≡ []
        → faults Cache until (settled image) ≡ faults Cache until image }
{
    caches_in_order_are_known();
}

/// It means what it meant, with no entry dirty, and its superblock is the same. Where nothing is hot it is the image itself; and where
/// the cache was shut down, nothing in it is hot: there is nothing left to copy. It is an image, of blocks of 4096 bytes, as that was.
pub fn settled_caches_mean_the_same()
    ensures meaning { (image : List (List ℕ)) → IsImage image → faults Cache Whole image ≡ []
        → cache_meaning (settled image) ≡ without_dirt (cache_meaning image) }
    ensures super_block { (image : List (List ℕ)) → IsImage image → faults Cache Whole image ≡ []
        → block_at (settled image) 0 ≡ block_at image 0 }
    ensures image { (image : List (List ℕ)) → IsImage image → faults Cache Whole image ≡ [] → IsImage (settled image) }
    ensures done { (image : List (List ℕ)) → IsImage image → faults Cache Whole image ≡ [] → (cache_meaning image).clean ≡ true
        → hot_blocks (cache_meaning (settled image)) ≡ [] }
    ensures cold { (image : List (List ℕ)) → hot_blocks (cache_meaning image) ≡ [] → settled image ≡ image }
{
    caches_in_order_are_known();
}

/// So the cached device reads the same under it, whatever the origin and the fast device hold.
pub fn settled_caches_show_the_same()
    ensures { (image origin fast : List (List ℕ)) → IsImage image → faults Cache Whole image ≡ []
        → view (settled image) origin fast ≡ view image origin fast }
{
    caches_in_order_are_known();
}

// Which blocks of a cache's metadata say what is dirty (`cache_writeback`).

/// The blocks that say what is dirty in a cache are those that the entries of its mapping array's tree name, in version 2 those of its
/// dirty bitset's, where the image has no faults up to the stage Order, or up to a later one.
pub fn dirty_places_are_named()
    ensures { (until : Stage) (image : List (List ℕ)) (b : ℕ) → LooksAtOrder until → faults Cache until image ≡ []
        → list_any (λ place. place == b) (dirty_places image) ≡ list_any (λ (e : Entry). e.value == b) (dirty_entries image) }
{
    reached_by_paths();
    trees_are_in_order();
    formats_have_trees();
    superblocks_lead_to_reached_roots();
    entries_lead_to_reached_pairs();
}
