//! A tree of items in memory.

ghost use Rattle.std.specs.Prelude.{◌≡◌, ◌+◌, ◌≤◌, [], length, true, OnOk, IfOk};
ghost use Rattle.std.specs.List.{All};
ghost use Rattle.pd_kinds.specs.Node.{is_ascending};
ghost use Rattle.pd_grammar.specs.Need.{need_tree};
ghost use Rattle.pd_laid.specs.Laid.{tree_blocks, tree_root};
ghost use Rattle.pd_node.specs.Items.{entries_of, keys_of};
ghost use Rattle.pd_image.specs.Device.{IsWritable};
ghost use Rattle.pd_draft.specs.Closed.{IsClosed, StaysClosed, Wrote};
ghost use Rattle.pd_draft.specs.DraftState.{draft_state};
ghost use Rattle.pd_build.specs.Building.{IsBuilding, CountsBuildFault};

use crate::{BuildFault, Builder};
use pd_draft::Draft;
use pd_image::Device;
use pd_value::Value;
use std::alloc::Global;

/// Writes the tree of these items, and answers the place of its root.
pub fn write_tree<V: Value, D: Device>(
    alloc: Global,
    draft: &mut Draft<'_, D>,
    items: &[(u64, V)],
) -> Result<u64, BuildFault>
    requires ascend { is_ascending (keys_of items.now) ≡ true }
    requires fit { All (λ item. V.fitting item.1 ≡ true) items.now }
    requires writable { IsWritable (draft_state draft.old).device }
    requires room { draft.old.next + need_tree V.SIZE (length items.now) ≤ (draft_state draft.old).device.blocks }
    requires closed { IsClosed (draft_state draft.old).device }
    ensures same_reference { draft.new.dev.ghost_name ≡ draft.old.dev.ghost_name }
    ensures wrote { OnOk result (Wrote (tree_blocks V.SIZE draft.old.next (entries_of V.code items.now)) (draft_state draft.old)
        (draft_state draft.new)) }
    ensures root { IfOk result (λ root. root ≡ tree_root V.SIZE draft.old.next (entries_of V.code items.now)) }
    ensures closed { StaysClosed (draft_state draft.old).device (draft_state draft.new).device }
    ensures faults { CountsBuildFault result (draft_state draft.old).device.faults (draft_state draft.new).device.faults }
{
    let mut builder = Builder::<V>::new(alloc, items.len() as u64)?;
    put_items(&mut builder, draft, items)?;
    builder.finish(draft)
}

/// Takes all items of a tree of which none was taken.
fn put_items<V: Value, D: Device>(
    builder: &mut Builder<V>,
    draft: &mut Draft<'_, D>,
    items: &[(u64, V)],
) -> Result<(), BuildFault>
    requires building { IsBuilding V.SIZE (entries_of V.code items.now) (entries_of V.code items.now) builder.old (draft_state draft.old)
        (draft_state draft.old) }
    requires fit { All (λ item. V.fitting item.1 ≡ true) items.now }
    requires writable { IsWritable (draft_state draft.old).device }
    requires room { draft.old.next + need_tree V.SIZE (length items.now) ≤ (draft_state draft.old).device.blocks }
    ensures same_reference { draft.new.dev.ghost_name ≡ draft.old.dev.ghost_name }
    ensures building { OnOk result (IsBuilding V.SIZE (entries_of V.code items.now) [] builder.new (draft_state draft.old)
        (draft_state draft.new)) }
    ensures closed { StaysClosed (draft_state draft.old).device (draft_state draft.new).device }
    ensures faults { CountsBuildFault result (draft_state draft.old).device.faults (draft_state draft.new).device.faults }
{
    for item in items {
        let (key, value) = *item;
        builder.put(draft, key, value)?;
    }
    Ok(())
}
