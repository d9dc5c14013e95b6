//! A leaf, a piece and a tree that are over (`thin_restore`, `thin_repair`, `thin_shrink`).

ghost use Rattle.std.specs.Prelude.{◌≡◌, ℕ, ◌+◌, ◌<◌, ◌≤◌, ◌^◌, List, [], ◌∷◌, OnOk, IfOk, slice_get};
ghost use Rattle.std.specs.Option.{unwrap_or};
ghost use Rattle.pd_kinds.specs.Node.{Entry, leaf_block};
ghost use Rattle.pd_grammar.specs.Need.{nodes_for};
ghost use Rattle.pd_grammar.specs.ThinText.{least_of};
ghost use Rattle.pd_laid.specs.LaidThin.{device_root};
ghost use Rattle.pd_laid.specs.Shape.{ShapeDevice, shared};
ghost use Rattle.pd_laid.specs.Laid.{first_key};
ghost use Rattle.pd_image.specs.Device.{IsWritable};
ghost use Rattle.pd_draft.specs.Closed.{IsClosed, StaysClosed, DraftState, Wrote};
ghost use Rattle.pd_draft.specs.DraftState.{draft_state};
ghost use Rattle.pd_build.specs.Building.{CountsBuildFault};
ghost use Rattle.pd_devices.specs.SharedGrowth.{CanEndTree, Grown, need_ended, CanBeLaid, HasHeld, held_runs, items_of_runs, AreHeld};
ghost use Rattle.pd_devices.specs.Told.{own_piece, with_pieces};
ghost use Rattle.pd_laws_laid.specs.Shared.{device_tree};

use crate::growing::{Growing, tree_ended};
use crate::piece::{Held, write_piece};
use pd_build::{BuildFault, UpperBuilder};
use pd_draft::Draft;
use pd_image::Device;
use std::alloc::Global;

/// The tree of a device that is over.
#[derive(Drop)]
pub(crate) struct Tree {
    pub id: u64,
    pub root: u64,
    /// How many blocks it has, without the shared leaves.
    pub blocks: u64,
}

/// Writes the leaf whose runs are held, and answers its least key.
pub(crate) fn write_shared_leaf<D: Device>(
    alloc: Global,
    draft: &mut Draft<'_, D>,
    held: &mut Held,
) -> Result<u64, BuildFault>
    requires can { CanBeLaid (held_runs held.old) 0 }
    requires number { HasHeld (held_runs held.old) held.old }
    requires some { 1 ≤ held.old.number }
    requires few { held.old.number ≤ 252 }
    requires writable { IsWritable (draft_state draft.old).device }
    requires room { draft.old.next < (draft_state draft.old).device.blocks }
    requires closed { IsClosed (draft_state draft.old).device }
    ensures same_reference { draft.new.dev.ghost_name ≡ draft.old.dev.ghost_name }
    ensures wrote { OnOk result (Wrote (leaf_block 8 draft.old.next (items_of_runs (held_runs held.old)) ∷ []) (draft_state draft.old)
        (draft_state draft.new)) }
    ensures least { IfOk result (λ least. least ≡ least_of (held_runs held.old)) }
    ensures none { OnOk result (HasHeld [] held.new) }
    ensures closed { StaysClosed (draft_state draft.old).device (draft_state draft.new).device }
    ensures faults { CountsBuildFault result (draft_state draft.old).device.faults (draft_state draft.new).device.faults }
{
    let mut row = UpperBuilder::new(alloc);
    let least = held.least();
    write_piece(alloc, draft, held, &mut row)?;
    held.clear();
    Ok(least)
}

/// Ends the piece of a device's own, where there is one, and adds the use of a leaf behind it.
pub(crate) fn use_leaf<D: Device>(
    alloc: Global,
    draft: &mut Draft<'_, D>,
    growing: &mut Growing,
    held: &mut Held,
    least: u64,
    number: u64,
) -> Result<(), BuildFault>
    requires can { CanBeLaid (held_runs held.old) 0 }
    requires number { HasHeld (held_runs held.old) held.old }
    requires few { growing.old.own + nodes_for 252 held.old.number + growing.old.uses + 1 ≤ 2 ^ 61 }
    requires number_fits { number + 1 < 2 ^ 64 }
    requires writable { IsWritable (draft_state draft.old).device }
    requires room { draft.old.next + nodes_for 252 held.old.number ≤ (draft_state draft.old).device.blocks }
    requires closed { IsClosed (draft_state draft.old).device }
    ensures same_reference { draft.new.dev.ghost_name ≡ draft.old.dev.ghost_name }
    ensures grown { (leaves : List (List Entry)) (d : ShapeDevice) (blocks low mid end : ℕ) (from : DraftState)
        → Grown leaves d low growing.old from (draft_state draft.old)
        → AreHeld blocks low mid (held_runs held.old)
        → mid ≤ least → least < end → least ≡ first_key (unwrap_or (slice_get leaves number) [])
        → OnOk result (Grown leaves (with_pieces (shared number ∷ []) (with_pieces (own_piece (held_runs held.old)) d)) end growing.new from
        (draft_state draft.new)) }
    ensures none { OnOk result (HasHeld [] held.new) }
    ensures closed { StaysClosed (draft_state draft.old).device (draft_state draft.new).device }
    ensures faults { CountsBuildFault result (draft_state draft.old).device.faults (draft_state draft.new).device.faults }
{
    growing.end_piece(alloc, draft, held)?;
    held.clear();
    growing.use_leaf(least, number)
}

/// Writes what is left of the tree of a device: the piece that is held, where there is one, and the levels above.
pub(crate) fn end_tree<D: Device>(
    alloc: Global,
    draft: &mut Draft<'_, D>,
    mut growing: Growing,
    held: &mut Held,
) -> Result<Tree, BuildFault>
    requires can { CanEndTree growing held.old (draft_state draft.old) }
    requires writable { IsWritable (draft_state draft.old).device }
    requires closed { IsClosed (draft_state draft.old).device }
    ensures same_reference { draft.new.dev.ghost_name ≡ draft.old.dev.ghost_name }
    ensures wrote { (leaves : List (List Entry)) (d : ShapeDevice) (blocks low end : ℕ) (from : DraftState)
        → Grown leaves d low growing from (draft_state draft.old)
        → AreHeld blocks low end (held_runs held.old)
        → OnOk result (Wrote (device_tree leaves from.place (with_pieces (own_piece (held_runs held.old)) d)) from
        (draft_state draft.new)) }
    ensures root { (leaves : List (List Entry)) (d : ShapeDevice) (blocks low end : ℕ) (from : DraftState)
        → Grown leaves d low growing from (draft_state draft.old)
        → AreHeld blocks low end (held_runs held.old)
        → IfOk result (λ tree. tree.root ≡ device_root leaves from.place (with_pieces (own_piece (held_runs held.old)) d)) }
    ensures id { IfOk result (λ tree. tree.id ≡ growing.id) }
    ensures blocks { IfOk result (λ tree. tree.blocks ≡ need_ended (growing.own + nodes_for 252 held.old.number) growing.uses) }
    ensures none { OnOk result (HasHeld [] held.new) }
    ensures closed { StaysClosed (draft_state draft.old).device (draft_state draft.new).device }
    ensures faults { CountsBuildFault result (draft_state draft.old).device.faults (draft_state draft.new).device.faults }
{
    growing.end_piece(alloc, draft, held)?;
    held.clear();
    let id = growing.id;
    let blocks = tree_ended(growing.own, growing.uses);
    let root = growing.finish(draft)?;
    Ok(Tree { id, root, blocks })
}
