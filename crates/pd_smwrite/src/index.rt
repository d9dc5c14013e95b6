//! The index of a map's bitmaps: a tree for data, a block for metadata.

ghost use Rattle.std.specs.Prelude.{◌≡◌, ◌+◌, ◌<◌, ◌≤◌, ◌^◌, IfOk, OnOk, map, true, ◌*◌};
ghost use Rattle.std.specs.List.{range_with_len};
ghost use Rattle.pd_kinds.specs.Bitmap.{bitmaps_for};
ghost use Rattle.pd_grammar.specs.Need.{need_tree};
ghost use Rattle.pd_laid.specs.Laid.{index_entry_of, index_items, tree_blocks, tree_root, free_in as free_of};
ghost use Rattle.pd_image.specs.Device.{IsWritable};
ghost use Rattle.pd_draft.specs.Closed.{IsClosed, StaysClosed, Wrote};
ghost use Rattle.pd_draft.specs.DraftState.{draft_state};
ghost use Rattle.pd_count.specs.Counted.{count_of};
ghost use Rattle.pd_build.specs.Building.{CountsBuildFault};
ghost use Rattle.pd_smwrite.specs.Map.{index_block as index_block_of, allocated_of};

use crate::bitmaps::bitmap_number;
use pd_bitmap::{new_index, seal_index};
use pd_build::{BuildFault, Builder};
use pd_count::{CHUNK_COUNTS, Counts};
use pd_draft::Draft;
use pd_image::Device;
use pd_kinds::Block;
use pd_value::{IndexEntry, Value};
use std::alloc::{AllocError, Global};

/// The entry of bitmap `i`, of bitmaps from the place `first` on: where it stands, and how many of its blocks are free.
fn entry_of(counts: &Counts, i: u64, first: u64) -> IndexEntry
    requires covered { i < bitmaps_for counts.now.size }
    requires place { first + i < 2 ^ 64 }
    ensures entry { ⟦<IndexEntry as Value>⟧.code result ≡ index_entry_of (count_of counts.now) counts.now.size first i }
    ensures fits { ⟦<IndexEntry as Value>⟧.fitting result ≡ true }
{
    IndexEntry {
        block: first + i,
        free: free_in(counts, i),
        none_before: 0,
    }
}

/// Writes the tree of the entries of bitmaps from the place `first` on, and answers the place of its root.
pub(crate) fn write_index_tree<D: Device>(
    alloc: Global,
    draft: &mut Draft<'_, D>,
    counts: &Counts,
    first: u64,
) -> Result<u64, BuildFault>
    requires behind { first + bitmaps_for counts.now.size ≤ draft.old.next }
    requires writable { IsWritable (draft_state draft.old).device }
    requires room { draft.old.next + need_tree 16 (bitmaps_for counts.now.size) ≤ (draft_state draft.old).device.blocks }
    requires closed { IsClosed (draft_state draft.old).device }
    ensures same_reference { draft.new.dev.ghost_name ≡ draft.old.dev.ghost_name }
    ensures wrote { OnOk result (Wrote (tree_blocks 16 draft.old.next (index_items (count_of counts.now) counts.now.size first))
        (draft_state draft.old) (draft_state draft.new)) }
    ensures root { IfOk result (λ root. root ≡ tree_root 16 draft.old.next (index_items (count_of counts.now) counts.now.size first)) }
    ensures closed { StaysClosed (draft_state draft.old).device (draft_state draft.new).device }
    ensures faults { CountsBuildFault result (draft_state draft.old).device.faults (draft_state draft.new).device.faults }
{
    // The places of the bitmaps stand before the next one, so they are numbers too.
    let _behind = draft.next();
    let number = bitmap_number(counts);
    let mut builder = Builder::<IndexEntry>::new(alloc, number)?;
    for i in 0..number {
        builder.put(draft, i, entry_of(counts, i, first))?;
    }
    builder.finish(draft)
}

/// The index block in its place, of the bitmaps from the next place on.
pub(crate) fn index_block(alloc: Global, counts: &Counts, place: u64) -> Result<Block, AllocError>
    requires few { counts.now.size ≤ 4161600 }
    requires place { place + 256 < 2 ^ 64 }
    ensures { IfOk result (λ block. block.0 ≡ index_block_of (count_of counts.now) counts.now.size place) }
{
    let entries = entries_of(alloc, counts, place + 1)?;
    let mut block = new_index(&entries);
    seal_index(&mut block, place);
    Ok(block)
}

/// The entries of the bitmaps, which stand from the place `first` on.
fn entries_of(alloc: Global, counts: &Counts, first: u64) -> Result<Vec<IndexEntry>, AllocError>
    requires { first + bitmaps_for counts.now.size < 2 ^ 64 }
    ensures { IfOk result (λ entries. map ⟦<IndexEntry as Value>⟧.code entries.items
        ≡ map (index_entry_of (count_of counts.now) counts.now.size first) (range_with_len 0 (bitmaps_for counts.now.size))) }
{
    let mut entries = Vec::new(alloc);
    for i in 0..bitmap_number(counts) {
        entries.push(entry_of(counts, i, first))?;
    }
    Ok(entries)
}

// How many blocks have a count, and how many have none.

/// How many blocks that bitmap `i` covers have a count of 0. Where none was counted, no number is looked at.
pub(crate) fn free_in(counts: &Counts, i: u64) -> u32
    requires { i < bitmaps_for counts.now.size }
    ensures free { result ≡ free_of (count_of counts.now) counts.now.size i }
    ensures most { result ≤ 16320 }
    ensures covered { 16320 * i + result ≤ counts.now.size }
{
    let covered = (counts.size() - i * CHUNK_COUNTS as u64).min(CHUNK_COUNTS as u64) as usize;
    match counts.chunk(i) {
        None => covered as u32,
        Some(chunk) => chunk.zeros(covered) as u32,
    }
}

/// How many blocks have a count.
pub(crate) fn allocated(counts: &Counts) -> u64
    ensures { result ≡ allocated_of (count_of counts.now) counts.now.size }
{
    let mut allocated = counts.size();
    for i in 0..bitmap_number(counts) {
        allocated -= free_in(counts, i) as u64;
    }
    allocated
}
