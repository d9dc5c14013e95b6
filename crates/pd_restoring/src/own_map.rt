//! The map of the metadata blocks, where each is named once (`cache_restore`, `era_restore`, `cache_repair`).

ghost use Rattle.std.specs.Prelude.{◌≡◌, ◌+◌, ◌≤◌, ℕ, IfOk, OnOk};
ghost use Rattle.pd_grammar.specs.Need.{need_meta_map};
ghost use Rattle.pd_image.specs.Device.{IsWritable};
ghost use Rattle.pd_draft.specs.Closed.{IsClosed, StaysClosed, Wrote};
ghost use Rattle.pd_draft.specs.DraftState.{draft_state};
ghost use Rattle.pd_count.specs.Counted.{count_of};
ghost use Rattle.pd_build.specs.Building.{CountsBuildFault};
ghost use Rattle.pd_smwrite.specs.Map.{meta_map_blocks, meta_map_root};
ghost use Rattle.pd_laws_laid.specs.Once.{ones_below};

use pd_build::BuildFault;
use pd_count::Counts;
use pd_draft::Draft;
use pd_image::Device;
use pd_kinds::SmRoot;
use pd_smwrite::write_meta_map;
use std::alloc::{AllocError, Global};

/// Writes the map of so many metadata blocks, of which each up to the map's end is named once.
pub fn write_own_map<D: Device>(
    alloc: Global,
    draft: &mut Draft<'_, D>,
    room: u64,
) -> Result<SmRoot, BuildFault>
    requires few { room ≤ 4161600 }
    requires within { draft.old.next + need_meta_map room ≤ room }
    requires writable { IsWritable (draft_state draft.old).device }
    requires room { room ≤ (draft_state draft.old).device.blocks }
    requires closed { IsClosed (draft_state draft.old).device }
    ensures same_reference { draft.new.dev.ghost_name ≡ draft.old.dev.ghost_name }
    ensures wrote { OnOk result (Wrote (meta_map_blocks (ones_below (draft.old.next + need_meta_map room)) room draft.old.next)
        (draft_state draft.old) (draft_state draft.new)) }
    ensures root { IfOk result (λ root. root ≡ meta_map_root (ones_below (draft.old.next + need_meta_map room)) room draft.old.next) }
    ensures closed { StaysClosed (draft_state draft.old).device (draft_state draft.new).device }
    ensures faults { CountsBuildFault result (draft_state draft.old).device.faults (draft_state draft.new).device.faults }
{
    let mut counts = counts_of_ones(alloc, room, draft.next())?;
    write_meta_map(alloc, draft, &mut counts)
}

/// The counts of so many blocks, where each below `end` was counted once.
fn counts_of_ones(alloc: Global, size: u64, end: u64) -> Result<Counts, AllocError>
    requires { end ≤ size }
    ensures size { IfOk result (λ counts. counts.size ≡ size) }
    ensures ones { IfOk result (λ counts. (b : ℕ) → count_of counts b ≡ ones_below end b) }
{
    let mut counts = Counts::new(alloc, size)?;
    for b in 0..end {
        counts.add(b)?;
    }
    Ok(counts)
}
