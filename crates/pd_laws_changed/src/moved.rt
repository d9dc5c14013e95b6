//! What the devices of a pool read while its data blocks are moved, and once they are (`thin_shrink`).

ghost use Rattle.std.specs.Prelude.{◌≡◌, ◌≤◌, ℕ, List, [], length, map};
ghost use Rattle.pd_kinds.specs.declared.kind.Kind.TheVariants.{Thin};
ghost use Rattle.pd_kinds.specs.declared.kind.Stage.{Stage};
ghost use Rattle.pd_kinds.specs.Meaning.{ThinPool, thin_meaning};
ghost use Rattle.pd_kinds.specs.Stages.{faults};
ghost use Rattle.pd_kinds.specs.InOrder.{LooksAtOrder};
ghost use Rattle.pd_grammar.specs.Lawful.{IsLawfulPool};
ghost use Rattle.pd_laid.specs.Shape.{ThinShape, pool_of};
ghost use Rattle.pd_laid.specs.PoolText.{IsLawfulShape};
ghost use Rattle.pd_answers.specs.Writebacks.{blocks_each, KeepsOthers};
ghost use Rattle.pd_answers.specs.Shrinks.{copy_of_move, data_after, data_need, free_blocks, moved_pool};
ghost use Rattle.pd_answers.specs.Shrinks.{moves_to, sources, ReadTheSame, Move, moved_shape};
ghost use Rattle.pd_laws_changed.specs.KnownPool.{AreFree, AreUnnamed, IsMoving};

use pd_kinds::trees_are_in_order;
use pd_tree::{
    entries_lead_to_reached_pairs, formats_have_trees, superblocks_lead_to_reached_roots,
};

/// Of a pool without faults up to the stage Order, or up to a later one, no mapping names a free data block.
pub fn free_blocks_are_read_by_none()
    ensures { (until : Stage) (image : List (List ℕ)) (end : ℕ) → LooksAtOrder until → faults Thin until image ≡ []
        → AreFree (thin_meaning image) end (free_blocks image end) }
{
    trees_are_in_order();
    formats_have_trees();
    superblocks_lead_to_reached_roots();
    entries_lead_to_reached_pairs();
}

/// While data blocks are moved into blocks that no mapping names, whatever of them is copied already, each device reads the same.
pub fn moving_keeps_what_is_read()
    ensures { (m : ThinPool) (end : ℕ) (free : List ℕ) (held left : List (List ℕ)) → AreUnnamed m free
        → KeepsOthers (blocks_each m.block_size) (map copy_of_move (moves_to (sources m end) free)) held left → ReadTheSame m held m left }
{}

/// Once all that have a free block are copied, each device of the smaller pool reads what it read before, where the data device has
/// all data blocks that are to be moved.
pub fn moved_pool_reads_the_same()
    ensures { (m : ThinPool) (end : ℕ) (free : List ℕ) (held : List (List ℕ)) → AreFree m end free
        → data_need (blocks_each m.block_size) (sources m end) ≤ length held
        → ReadTheSame m held (moved_pool m end (moves_to (sources m end) free))
        (data_after (blocks_each m.block_size) (moves_to (sources m end) free) held) }
{}

/// The smaller pool is lawful, where there is a block below its end for each that is moved.
pub fn moved_pool_is_lawful()
    ensures { (m : ThinPool) (end : ℕ) (free : List ℕ) → IsLawfulPool m
        → IsMoving m end free → IsLawfulPool (moved_pool m end (moves_to (sources m end) free)) }
{}

// The shape of a pool whose data blocks are moved (`thin_shrink`).

/// A shape whose leaves and pieces name the moved blocks means the pool whose mappings do so: what is shared stays shared.
pub fn moved_shapes_mean_moved_pools()
    ensures { (w : ThinShape) (end : ℕ) (moves : List Move) → pool_of (moved_shape w end moves) ≡ moved_pool (pool_of w) end moves }
{}

/// The smaller shape is lawful, where there is a block below its end for each that is moved.
pub fn moved_shapes_are_lawful()
    ensures { (w : ThinShape) (end : ℕ) (free : List ℕ) → IsLawfulShape w → IsMoving (pool_of w) end free
        → IsLawfulShape (moved_shape w end (moves_to (sources (pool_of w) end) free)) }
{
    moved_pool_is_lawful();
    moved_shapes_mean_moved_pools();
}
