//! The map of the metadata blocks, where a shared leaf is named as often as devices use it.
//! Serves `thin_restore`, `thin_repair`, `thin_shrink`.

ghost use Rattle.std.specs.Prelude.{◌≡◌, ◌≢◌, ◌+◌, ◌<◌, ◌≤◌, ◌==◌, not, ℕ, List, count_by, IfOk, OnOk};
ghost use Rattle.std.specs.List.{range_with_len};
ghost use Rattle.pd_laid.specs.Laid.{count_in, written_from, laid_meta_map, meta_counts, meta_overflow_root};
ghost use Rattle.pd_image.specs.Device.{IsWritable};
ghost use Rattle.pd_draft.specs.Closed.{IsClosed, StaysClosed, Wrote};
ghost use Rattle.pd_draft.specs.DraftState.{draft_state};
ghost use Rattle.pd_count.specs.Counted.{count_of};
ghost use Rattle.pd_build.specs.Building.{CountsBuildFault};
ghost use Rattle.pd_smwrite.specs.Map.{meta_map_need};
ghost use Rattle.pd_laws_laid.specs.Shared.{named_times};

use pd_build::BuildFault;
use pd_count::Counts;
use pd_draft::Draft;
use pd_image::Device;
use pd_kinds::SmRoot;
use pd_smwrite::write_meta_map;
use std::alloc::{AllocError, Global};

/// Writes the map of so many metadata blocks at the draft's next place. The leaves stand from block 1 on, and each is named
/// as often as it was counted; each other block up to the map's end is named once.
///
/// Fails with `Memory` where memory wasn't found, and with `Device` where the device failed.
pub fn write_leaves_map<D: Device>(
    alloc: Global,
    draft: &mut Draft<'_, D>,
    leaves: u64,
    uses: &Counts,
    room: u64,
) -> Result<SmRoot, BuildFault>
    requires few { room ≤ 4161600 }
    requires leaves { leaves < draft.old.next }
    requires counted { leaves ≤ uses.now.size }
    requires within { draft.old.next + meta_map_need (named_times (count_of uses.now) leaves draft.old.next) room ≤ room }
    requires writable { IsWritable (draft_state draft.old).device }
    requires room { room ≤ (draft_state draft.old).device.blocks }
    requires closed { IsClosed (draft_state draft.old).device }
    ensures same_reference { draft.new.dev.ghost_name ≡ draft.old.dev.ghost_name }
    ensures laid { OnOk result ((role : ℕ) (named : List ℕ)
        → ((b : ℕ) → count_in named b ≡ named_times (count_of uses.now) leaves draft.old.next b)
        → Wrote (written_from draft.old.next (laid_meta_map role room draft.old.next named)) (draft_state draft.old)
        (draft_state draft.new)) }
    ensures root { IfOk result (λ root. (role : ℕ) (named : List ℕ)
        → ((b : ℕ) → count_in named b ≡ named_times (count_of uses.now) leaves draft.old.next b)
        → root ≡ record {
          blocks = room;
          allocated = count_by (λ b. not (meta_counts role room draft.old.next named b == 0)) (range_with_len 0 room);
          bitmap_root = draft.old.next;
          overflow_root = meta_overflow_root room draft.old.next named;
        }) }
    ensures closed { StaysClosed (draft_state draft.old).device (draft_state draft.new).device }
    ensures faults { CountsBuildFault result (draft_state draft.old).device.faults (draft_state draft.new).device.faults }
{
    let mut counts = named_counts(alloc, leaves, uses, room, draft.next())?;
    write_meta_map(alloc, draft, &mut counts)
}

/// The counts of so many blocks, where each leaf was counted as often as it is used, and each other block below `end` once.
fn named_counts(
    alloc: Global,
    leaves: u64,
    uses: &Counts,
    size: u64,
    end: u64,
) -> Result<Counts, AllocError>
    requires within { end ≤ size }
    requires leaves { leaves < end }
    requires counted { leaves ≤ uses.now.size }
    ensures size { IfOk result (λ counts. counts.size ≡ size) }
    ensures named { IfOk result (λ counts. (b : ℕ) → count_of counts b ≡ named_times (count_of uses.now) leaves end b) }
{
    let mut counts = Counts::new(alloc, size)?;
    for b in 0..end {
        add_times(&mut counts, b, times_named(leaves, uses, b))?;
    }
    Ok(counts)
}

/// How often the block is named, where it stands before the map's end.
fn times_named(leaves: u64, uses: &Counts, b: u64) -> u32
    requires counted { leaves ≤ uses.now.size }
    ensures named { (end : ℕ) → b < end → result ≡ named_times (count_of uses.now) leaves end b }
{
    if 1 <= b && b <= leaves {
        uses.get(b - 1)
    } else {
        1
    }
}

/// Counts a block that wasn't counted yet so many times.
fn add_times(counts: &mut Counts, b: u64, times: u32) -> Result<(), AllocError>
    requires within { b < counts.old.size }
    requires none { count_of counts.old b ≡ 0 }
    ensures size { OnOk result (counts.new.size ≡ counts.old.size) }
    ensures counted { OnOk result (count_of counts.new b ≡ times) }
    ensures others { OnOk result ((c : ℕ) → c ≢ b → count_of counts.new c ≡ count_of counts.old c) }
{
    for _ in 0..times {
        counts.add(b)?;
    }
    Ok(())
}
