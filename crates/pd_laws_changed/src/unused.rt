//! The data blocks of a pool that nothing uses (`thin_trim`).

ghost use Rattle.std.specs.Prelude.{◌≡◌, ℕ, List, []};
ghost use Rattle.pd_kinds.specs.declared.kind.Kind.TheVariants.{Thin};
ghost use Rattle.pd_kinds.specs.declared.kind.Stage.{Stage};
ghost use Rattle.pd_kinds.specs.Graph.{block_at, data_count};
ghost use Rattle.pd_kinds.specs.InOrder.{LooksAtOrder};
ghost use Rattle.pd_kinds.specs.Stages.{faults};
ghost use Rattle.pd_kinds.specs.ThinFormat.{thin_graph};
ghost use Rattle.pd_laws_changed.specs.Unused.{IsMappedByNone};

use crate::alike::pools_in_order_are_known;

/// Of a pool without faults up to the stage Order, or up to a later one, no mapping leads to a data block whose count is 0: neither
/// one of a device of the pool nor one of the held root's. So a block to which a mapping leads has a count above 0.
pub fn unused_blocks_are_mapped_by_none()
    ensures { (until : Stage) (image : List (List ℕ)) (d : ℕ) → LooksAtOrder until → faults Thin until image ≡ []
        → data_count (thin_graph (block_at image 0)) image d ≡ 0 → IsMappedByNone image d }
{
    pools_in_order_are_known();
}
