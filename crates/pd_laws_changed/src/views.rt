//! What a cached device reads: the same at each moment of the copying, and what its origin reads alone in the end.
//! Serves `cache_writeback`.

ghost use Rattle.std.specs.Prelude.{◌≡◌, ℕ, true, false, List, [], map};
ghost use Rattle.std.specs.List.{AllByRecursion};
ghost use Rattle.pd_kinds.specs.declared.kind.Kind.TheVariants.{Cache};
ghost use Rattle.pd_kinds.specs.declared.kind.Stage.TheVariants.{Whole};
ghost use Rattle.pd_kinds.specs.Meaning.{cache_meaning};
ghost use Rattle.pd_kinds.specs.Stages.{faults};
ghost use Rattle.pd_kinds.specs.Whole.{has_repeat};
ghost use Rattle.pd_answers.specs.Writebacks.{blocks_each, copied, hot_blocks, is_hot, view, KeepsOthers};
ghost use Rattle.pd_laws_changed.specs.Premises.{AgreeElsewhere, HasHotBlocks, IsOver};

use pd_tree::superblocks_lead_to_reached_roots;

/// What the definitions of a copied origin and of a cached view come to, entry by entry, as far as both devices reach: block j of a hot
/// entry stands at its place in the copied origin, and block j of any entry in what the cached device reads.
pub fn cached_blocks_stand_in_their_places()
    ensures copied { (image origin fast : List (List ℕ)) → faults Cache Whole image ≡ []
        → AllByRecursion (λ e. is_hot (cache_meaning image) e ≡ true
        → IsOver (blocks_each (cache_meaning image).block_size) origin fast (copied image origin fast) e) (cache_meaning image).entries }
    ensures view { (image origin fast : List (List ℕ)) → faults Cache Whole image ≡ []
        → AllByRecursion (IsOver (blocks_each (cache_meaning image).block_size) origin fast (view image origin fast))
        (cache_meaning image).entries }
{
    superblocks_lead_to_reached_roots();
}

/// While hot blocks are copied, whatever of them the origin has already, in whatever order, the cached device reads the same; and with
/// all of them copied the origin has its other blocks as they were.
pub fn copying_keeps_the_view()
    ensures same { (image origin left fast : List (List ℕ)) → faults Cache Whole image ≡ [] → HasHotBlocks image fast
        → KeepsOthers (blocks_each (cache_meaning image).block_size) (hot_blocks (cache_meaning image)) origin left
        → view image left fast ≡ view image origin fast }
    ensures copied { (image origin fast : List (List ℕ))
        → KeepsOthers (blocks_each (cache_meaning image).block_size) (hot_blocks (cache_meaning image)) origin (copied image origin fast) }
{
    superblocks_lead_to_reached_roots();
}

/// Once all hot blocks are copied, the origin reads alone what the cached device read, where the blocks that weren't copied are the
/// same on both devices.
pub fn copied_origins_stand_alone()
    ensures { (image origin fast : List (List ℕ)) → faults Cache Whole image ≡ [] → AgreeElsewhere image origin fast
        → copied image origin fast ≡ view image origin fast }
{
    superblocks_lead_to_reached_roots();
}

/// No two cached blocks have one origin.
pub fn origins_come_once()
    ensures { (image : List (List ℕ)) → faults Cache Whole image ≡ []
        → has_repeat (map (λ e. e.origin) (cache_meaning image).entries) ≡ false }
{
    superblocks_lead_to_reached_roots();
}
