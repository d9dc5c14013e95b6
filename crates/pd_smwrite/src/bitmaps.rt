//! The bitmaps of a map.

ghost use Rattle.std.specs.Prelude.{◌≡◌, ◌+◌, ◌≤◌, OnOk, ◌*◌, length, slice_index, ◌<◌, ℕ, IfOk, MatchOption};
ghost use Rattle.pd_kinds.specs.Bitmap.{bitmaps_for};
ghost use Rattle.pd_laid.specs.Laid.{bitmap_of, overflow_items, tree_blocks, tree_root};
ghost use Rattle.pd_bitmap.specs.Counts.{stored_all};
ghost use Rattle.pd_image.specs.Device.{IsWritable};
ghost use Rattle.pd_draft.specs.Closed.{IsClosed, StaysClosed, Wrote};
ghost use Rattle.pd_draft.specs.DraftState.{draft_state};
ghost use Rattle.pd_count.specs.Counted.{count_of};
ghost use Rattle.pd_build.specs.Building.{CountsBuildFault};
ghost use Rattle.pd_smwrite.specs.Map.{bitmap_blocks, written_bitmap, overflow_need};

use pd_bitmap::{filled_bitmap, new_bitmap, seal_bitmap};
use pd_build::{BuildFault, Builder, put_block};
use pd_count::{CHUNK_COUNTS, Chunk, Counts};
use pd_draft::Draft;
use pd_image::Device;
use pd_kinds::Block;
use pd_value::Count;
use std::alloc::Global;

/// How many bitmaps the counts take.
pub(crate) fn bitmap_number(counts: &Counts) -> u64
    ensures { result ≡ bitmaps_for counts.now.size }
{
    counts.size().div_ceil(CHUNK_COUNTS as u64)
}

/// Writes the bitmaps of these counts.
pub(crate) fn write_bitmaps<D: Device>(
    draft: &mut Draft<'_, D>,
    counts: &Counts,
) -> Result<(), BuildFault>
    requires writable { IsWritable (draft_state draft.old).device }
    requires room { draft.old.next + bitmaps_for counts.now.size ≤ (draft_state draft.old).device.blocks }
    requires closed { IsClosed (draft_state draft.old).device }
    ensures same_reference { draft.new.dev.ghost_name ≡ draft.old.dev.ghost_name }
    ensures wrote { OnOk result (Wrote (bitmap_blocks (count_of counts.now) counts.now.size draft.old.next) (draft_state draft.old)
        (draft_state draft.new)) }
    ensures closed { StaysClosed (draft_state draft.old).device (draft_state draft.new).device }
    ensures faults { CountsBuildFault result (draft_state draft.old).device.faults (draft_state draft.new).device.faults }
{
    for i in 0..bitmap_number(counts) {
        let block = bitmap(counts, i, draft.next());
        put_block(draft, &block)?;
    }
    Ok(())
}

// Counts as the bits of a bitmap.

/// Bitmap `i` of these counts in its place, sealed. Where none of its blocks was counted, no number is looked at.
pub(crate) fn bitmap(counts: &Counts, i: u64, place: u64) -> Block
    ensures { result.0 ≡ written_bitmap (count_of counts.now) place i }
{
    let mut block = unsealed(counts, i);
    seal_bitmap(&mut block, place);
    block
}

/// Bitmap `i` of these counts, which isn't sealed yet.
fn unsealed(counts: &Counts, i: u64) -> Block
    ensures { result.0 ≡ bitmap_of (λ e. count_of counts.now (16320 * i + e)) }
{
    match counts.chunk(i) {
        None => new_bitmap(),
        Some(chunk) => counted(chunk),
    }
}

/// The bitmap of the counts of a chunk that is made, which isn't sealed yet.
fn counted(chunk: &Chunk) -> Block
    requires { length chunk.now ≡ 16320 }
    ensures { result.0 ≡ stored_all (slice_index chunk.now) }
{
    let mut numbers = [0; CHUNK_COUNTS];
    chunk.copy(&mut numbers);
    filled_bitmap(&numbers)
}

// The tree of the counts that two bits don't hold.

/// Writes the tree of the counts of 3 and more, and answers the place of its root.
pub(crate) fn write_overflow<D: Device>(
    alloc: Global,
    draft: &mut Draft<'_, D>,
    counts: &Counts,
) -> Result<u64, BuildFault>
    requires writable { IsWritable (draft_state draft.old).device }
    requires room { draft.old.next + overflow_need (count_of counts.now) counts.now.size ≤ (draft_state draft.old).device.blocks }
    requires closed { IsClosed (draft_state draft.old).device }
    ensures same_reference { draft.new.dev.ghost_name ≡ draft.old.dev.ghost_name }
    ensures wrote { OnOk result (Wrote (tree_blocks 4 draft.old.next (overflow_items (count_of counts.now) counts.now.size))
        (draft_state draft.old) (draft_state draft.new)) }
    ensures root { IfOk result (λ root. root ≡ tree_root 4 draft.old.next (overflow_items (count_of counts.now) counts.now.size)) }
    ensures closed { StaysClosed (draft_state draft.old).device (draft_state draft.new).device }
    ensures faults { CountsBuildFault result (draft_state draft.old).device.faults (draft_state draft.new).device.faults }
{
    let number = overflow_number(counts);
    let mut builder = Builder::<Count>::new(alloc, number)?;
    let size = counts.size();
    let mut high = next_high(counts, 0);
    while high < size {
        builder.put(draft, high, Count(counts.get(high)))?;
        high = next_high(counts, high + 1);
    }
    builder.finish(draft)
}

/// How many blocks have a count of 3 or more.
pub(crate) fn overflow_number(counts: &Counts) -> u64
    ensures { result ≡ length (overflow_items (count_of counts.now) counts.now.size) }
{
    let size = counts.size();
    let mut number = 0;
    let mut high = next_high(counts, 0);
    while high < size {
        number += 1;
        high = next_high(counts, high + 1);
    }
    number
}

/// The first block with a count of 3 or more, from a block on, or the number of blocks where there is none. No number
/// of a chunk that isn't there is looked at.
fn next_high(counts: &Counts, from: u64) -> u64
    requires { from ≤ counts.now.size }
    ensures behind { from ≤ result }
    ensures within { result ≤ counts.now.size }
    ensures between { (b : ℕ) → from ≤ b → b < result → count_of counts.now b < 3 }
    ensures high { result < counts.now.size → 3 ≤ count_of counts.now result }
{
    let size = counts.size();
    for i in from / CHUNK_COUNTS as u64..bitmap_number(counts) {
        let start = from.max(i * CHUNK_COUNTS as u64);
        match high_in(counts, i, start) {
            Some(high) => return high,
            None => {}
        }
    }
    size
}

/// The first block with a count of 3 or more among those of chunk `i`, from a block in it on.
fn high_in(counts: &Counts, i: u64, start: u64) -> Option<u64>
    requires low { 16320 * i ≤ start }
    requires within { start ≤ counts.now.size }
    requires high { start < 16320 * i + 16320 }
    ensures { MatchOption result ((b : ℕ) → start ≤ b → b < 16320 * i + 16320 → count_of counts.now b < 3)
        (λ high. (start ≤ high) × ((high < counts.now.size)
        × ((3 ≤ count_of counts.now high) × ((b : ℕ) → start ≤ b → b < high → count_of counts.now b < 3)))) }
{
    let _size = counts.size();
    let first = i * CHUNK_COUNTS as u64;
    match counts.chunk(i) {
        None => None,
        Some(chunk) => match chunk.first((start - first) as usize, 3) {
            None => None,
            Some(at) => Some(first + at as u64),
        },
    }
}
