//! The map of metadata blocks, which counts its own blocks.

ghost use Rattle.std.specs.Prelude.{◌≡◌, ◌+◌, ◌<◌, ◌≤◌, ◌^◌, ℕ, List, [], ◌∷◌, IfOk, IfErr, OnOk};
ghost use Rattle.pd_laid.specs.Laid.{written_from, laid_meta_map};
ghost use Rattle.pd_image.specs.Device.{IsWritable};
ghost use Rattle.pd_draft.specs.Closed.{IsClosed, StaysClosed, Wrote};
ghost use Rattle.pd_draft.specs.DraftState.{draft_state};
ghost use Rattle.pd_count.specs.Counted.{HasCounted, count_of};
ghost use Rattle.pd_build.specs.Building.{CountsBuildFault};
ghost use Rattle.pd_smwrite.specs.Map.{index_block as index_block_of, meta_map_blocks, meta_map_need, meta_map_root, CountsOwn, HasNone};

use crate::bitmaps::{bitmap_number, overflow_number, write_bitmaps, write_overflow};
use crate::index::{allocated, index_block};
use pd_build::{BuildFault, need_tree, put_block};
use pd_count::Counts;
use pd_draft::Draft;
use pd_image::Device;
use pd_kinds::SmRoot;
use std::alloc::Global;

/// The greatest number of entries of a leaf of counts.
const OVERFLOW_ENTRIES: u64 = 336;

/// Counts each block of the map itself once, writes the map that stores the counts of all metadata blocks then, and
/// answers its root.
///
/// After an error the counts may have some of the map's blocks.
pub fn write_meta_map<D: Device>(
    alloc: Global,
    draft: &mut Draft<'_, D>,
    counts: &mut Counts,
) -> Result<SmRoot, BuildFault>
    requires small { counts.old.size ≤ 4161600 }
    requires within { draft.old.next + meta_map_need (count_of counts.old) counts.old.size ≤ counts.old.size }
    requires none { HasNone counts.old draft.old.next (meta_map_need (count_of counts.old) counts.old.size) }
    requires writable { IsWritable (draft_state draft.old).device }
    requires room { draft.old.next + meta_map_need (count_of counts.old) counts.old.size ≤ (draft_state draft.old).device.blocks }
    requires closed { IsClosed (draft_state draft.old).device }
    ensures same_reference { draft.new.dev.ghost_name ≡ draft.old.dev.ghost_name }
    ensures counted { OnOk result (CountsOwn draft.old.next (meta_map_need (count_of counts.old) counts.old.size) counts.old counts.new) }
    ensures wrote { OnOk result (Wrote (meta_map_blocks (count_of counts.new) counts.old.size draft.old.next) (draft_state draft.old)
        (draft_state draft.new)) }
    ensures root { IfOk result (λ root. root ≡ meta_map_root (count_of counts.new) counts.old.size draft.old.next) }

    // So what is written is the laid map, where these are the blocks that were named before.
    ensures laid { OnOk result ((role : ℕ) (named : List ℕ) → HasCounted counts.old named
        → Wrote (written_from draft.old.next (laid_meta_map role counts.old.size draft.old.next named)) (draft_state draft.old)
        (draft_state draft.new)) }
    ensures closed { StaysClosed (draft_state draft.old).device (draft_state draft.new).device }
    ensures faults { CountsBuildFault result (draft_state draft.old).device.faults (draft_state draft.new).device.faults }
{
    let number = meta_map_number(counts);
    count_own(counts, draft.next(), number)?;
    write_counted(alloc, draft, counts)
}

/// How many blocks the map of these counts has.
fn meta_map_number(counts: &Counts) -> u64
    requires { meta_map_need (count_of counts.now) counts.now.size < 2 ^ 64 }
    ensures { result ≡ meta_map_need (count_of counts.now) counts.now.size }
{
    1 + bitmap_number(counts) + need_tree(overflow_number(counts), OVERFLOW_ENTRIES)
}

/// Counts so many blocks from a place on, each once.
fn count_own(counts: &mut Counts, place: u64, number: u64) -> Result<(), BuildFault>
    requires within { place + number ≤ counts.old.size }
    requires fits { place + number < 2 ^ 64 }
    requires none { HasNone counts.old place number }
    ensures counted { OnOk result (CountsOwn place number counts.old counts.new) }
    ensures fault { IfErr result (λ fault. fault ≡ BuildFault.Memory) }
{
    for i in 0..number {
        add_one(counts, place + i)?;
    }
    Ok(())
}

/// Counts a block once.
fn add_one(counts: &mut Counts, b: u64) -> Result<(), BuildFault>
    requires within { b < counts.old.size }
    requires none { count_of counts.old b ≡ 0 }
    ensures counted { OnOk result (CountsOwn b 1 counts.old counts.new) }
    ensures fault { IfErr result (λ fault. fault ≡ BuildFault.Memory) }
{
    Ok(counts.add(b)?)
}

/// Writes the map that stores these counts, and answers its root.
fn write_counted<D: Device>(
    alloc: Global,
    draft: &mut Draft<'_, D>,
    counts: &Counts,
) -> Result<SmRoot, BuildFault>
    requires small { counts.now.size ≤ 4161600 }
    requires place { draft.old.next + 256 < 2 ^ 64 }
    requires writable { IsWritable (draft_state draft.old).device }
    requires room { draft.old.next + meta_map_need (count_of counts.now) counts.now.size ≤ (draft_state draft.old).device.blocks }
    requires closed { IsClosed (draft_state draft.old).device }
    ensures same_reference { draft.new.dev.ghost_name ≡ draft.old.dev.ghost_name }
    ensures wrote { OnOk result (Wrote (meta_map_blocks (count_of counts.now) counts.now.size draft.old.next) (draft_state draft.old)
        (draft_state draft.new)) }
    ensures root { IfOk result (λ root. root ≡ meta_map_root (count_of counts.now) counts.now.size draft.old.next) }
    ensures closed { StaysClosed (draft_state draft.old).device (draft_state draft.new).device }
    ensures faults { CountsBuildFault result (draft_state draft.old).device.faults (draft_state draft.new).device.faults }
{
    let place = draft.next();
    put_index(alloc, draft, counts)?;
    write_bitmaps(draft, counts)?;
    let overflow_root = write_overflow(alloc, draft, counts)?;
    Ok(SmRoot {
        blocks: counts.size(),
        allocated: allocated(counts),
        bitmap_root: place,
        overflow_root,
    })
}

/// Writes the index block at the draft's next place, for bitmaps behind it.
fn put_index<D: Device>(
    alloc: Global,
    draft: &mut Draft<'_, D>,
    counts: &Counts,
) -> Result<(), BuildFault>
    requires small { counts.now.size ≤ 4161600 }
    requires place { draft.old.next + 256 < 2 ^ 64 }
    requires writable { IsWritable (draft_state draft.old).device }
    requires room { draft.old.next < (draft_state draft.old).device.blocks }
    requires closed { IsClosed (draft_state draft.old).device }
    ensures same_reference { draft.new.dev.ghost_name ≡ draft.old.dev.ghost_name }
    ensures wrote { OnOk result (Wrote (index_block_of (count_of counts.now) counts.now.size draft.old.next ∷ []) (draft_state draft.old)
        (draft_state draft.new)) }
    ensures closed { StaysClosed (draft_state draft.old).device (draft_state draft.new).device }
    ensures faults { CountsBuildFault result (draft_state draft.old).device.faults (draft_state draft.new).device.faults }
{
    let block = index_block(alloc, counts, draft.next())?;
    put_block(draft, &block)
}
