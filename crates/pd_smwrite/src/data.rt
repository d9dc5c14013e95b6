//! The map of data blocks.

ghost use Rattle.std.specs.Prelude.{◌≡◌, ◌+◌, ◌≤◌, IfOk, OnOk};
ghost use Rattle.pd_image.specs.Device.{IsWritable};
ghost use Rattle.pd_draft.specs.Closed.{IsClosed, StaysClosed, Wrote};
ghost use Rattle.pd_draft.specs.DraftState.{draft_state};
ghost use Rattle.pd_count.specs.Counted.{count_of};
ghost use Rattle.pd_build.specs.Building.{CountsBuildFault};
ghost use Rattle.pd_smwrite.specs.Map.{data_map_blocks, data_map_need, data_map_root};

use crate::bitmaps::{write_bitmaps, write_overflow};
use crate::index::{allocated, write_index_tree};
use pd_build::BuildFault;
use pd_count::Counts;
use pd_draft::Draft;
use pd_image::Device;
use pd_kinds::SmRoot;
use std::alloc::Global;

/// Writes the map that stores these counts of data blocks, and answers its root.
pub fn write_data_map<D: Device>(
    alloc: Global,
    draft: &mut Draft<'_, D>,
    counts: &Counts,
) -> Result<SmRoot, BuildFault>
    requires writable { IsWritable (draft_state draft.old).device }
    requires room { draft.old.next + data_map_need (count_of counts.now) counts.now.size ≤ (draft_state draft.old).device.blocks }
    requires closed { IsClosed (draft_state draft.old).device }
    ensures same_reference { draft.new.dev.ghost_name ≡ draft.old.dev.ghost_name }
    ensures wrote { OnOk result (Wrote (data_map_blocks (count_of counts.now) counts.now.size draft.old.next) (draft_state draft.old)
        (draft_state draft.new)) }
    ensures root { IfOk result (λ root. root ≡ data_map_root (count_of counts.now) counts.now.size draft.old.next) }
    ensures closed { StaysClosed (draft_state draft.old).device (draft_state draft.new).device }
    ensures faults { CountsBuildFault result (draft_state draft.old).device.faults (draft_state draft.new).device.faults }
{
    let first = draft.next();
    write_bitmaps(draft, counts)?;
    let bitmap_root = write_index_tree(alloc, draft, counts, first)?;
    let overflow_root = write_overflow(alloc, draft, counts)?;
    Ok(SmRoot {
        blocks: counts.size(),
        allocated: allocated(counts),
        bitmap_root,
        overflow_root,
    })
}
