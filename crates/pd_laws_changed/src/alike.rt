//! Caches that are alike: they differ in nothing but the flags and the checksum of the superblock.
//! Serves `thin_check` and `cache_check` with `--clear-needs-check-flag`.

ghost use Rattle.std.specs.Prelude.{◌≡◌, ℕ, List, []};
ghost use Rattle.pd_kinds.specs.declared.kind.Kind.TheVariants.{Cache, Thin};
ghost use Rattle.pd_kinds.specs.declared.kind.Stage.{Stage};
ghost use Rattle.pd_kinds.specs.Meaning.{cache_meaning, thin_meaning};
ghost use Rattle.pd_kinds.specs.Stages.{faults};
ghost use Rattle.pd_kinds.specs.InOrder.{LooksAtOrder};
ghost use Rattle.pd_laws_changed.specs.Known.{AreAlike};
ghost use Rattle.pd_laws_changed.specs.KnownPool.{IsKnown};

use crate::settled::caches_in_order_are_known;
use pd_kinds::trees_are_in_order;
use pd_tree::{
    edges_lead_to_reached_pairs, entries_lead_to_reached_pairs, formats_have_trees,
    superblocks_lead_to_reached_roots,
};

/// Images of a cache that are alike have the same faults up to each stage, where one of them has none up to some stage, so
/// none in its superblock.
pub fn alike_caches_have_the_same_faults()
    ensures { (some until : Stage) (image other : List (List ℕ)) → AreAlike Cache image other
        → faults Cache some image ≡ [] → faults Cache until other ≡ faults Cache until image }
{
    caches_in_order_are_known();
}

/// They mean the same, where one has no faults up to the stage Order, or up to a later one, and both flags say the same of whether the
/// cache was shut down.
pub fn alike_caches_mean_the_same()
    ensures { (until : Stage) (image other : List (List ℕ))
        → AreAlike Cache image other → (cache_meaning other).clean ≡ (cache_meaning image).clean
        → LooksAtOrder until → faults Cache until image ≡ [] → cache_meaning other ≡ cache_meaning image }
{
    caches_in_order_are_known();
}

// Laws of two images of a pool that are alike: they differ in nothing but the flags and the checksum of the superblock.
// Neither is looked at by a rule of any other block, so the two have the same faults and the same meaning.
// Serves `thin_check` and `cache_check` with `--clear-needs-check-flag`.

/// What is known of a pool that has no faults up to the stage Order, or up to a later one.
pub fn pools_in_order_are_known()
    ensures { (until : Stage) (image : List (List ℕ)) → LooksAtOrder until → faults Thin until image ≡ [] → IsKnown image }
{
    trees_are_in_order();
    formats_have_trees();
    superblocks_lead_to_reached_roots();
    edges_lead_to_reached_pairs();
    entries_lead_to_reached_pairs();
}

/// Images of a pool that are alike have the same faults up to each stage, where one of them has none up to some stage, so
/// none in its superblock.
pub fn alike_pools_have_the_same_faults()
    ensures { (some until : Stage) (image other : List (List ℕ)) → AreAlike Thin image other
        → faults Thin some image ≡ [] → faults Thin until other ≡ faults Thin until image }
{
    pools_in_order_are_known();
}

/// They mean the same, where one has no faults up to the stage Order, or up to a later one.
pub fn alike_pools_mean_the_same()
    ensures { (until : Stage) (image other : List (List ℕ)) → AreAlike Thin image other
        → LooksAtOrder until → faults Thin until image ≡ [] → thin_meaning other ≡ thin_meaning image }
{
    pools_in_order_are_known();
}
