//! What is saved of a leaf (`thin_repair`, `thin_shrink`).

ghost use Rattle.std.specs.Prelude.{◌≡◌, ◌∷◌, ◌<◌, ◌^◌, ◌==◌, ◌&&◌, ◌||◌, not, nat_lt, nat_le, [], List, IfOk};
ghost use Rattle.std.specs.Prelude.{OnOk, false, true, if◌then◌else◌, length, map, ℕ};
ghost use Rattle.std.specs.List.{range_with_len};
ghost use Rattle.pd_kinds.specs.Meaning.{Mapping};
ghost use Rattle.pd_kinds.specs.Node.{entry_count, is_inner_node, key_at, value_at};
ghost use Rattle.pd_salvage.specs.Range.{is_in_range};
ghost use Rattle.pd_salvage_shapes.specs.Note.{IsGathered, IsNote, Notes, in_keys, noted, saved_in};

use pd_kinds::Block;
use pd_meaning_thin::{PackedRuns, Run};
use pd_node::{entries, is_inner, key, value};
use pd_salvage::{Joining, Range, is_sound};
use pd_value::BlockTime;
use std::alloc::{AllocError, Global};

/// The greatest number of mappings of a shared leaf: as many as the kernel gives a leaf, 3 * (4064 / 16 / 3).
const MAX_LEAF_MAPPINGS: u64 = 252;

/// What is saved of a leaf in a range of keys.
#[derive(Drop)]
pub(crate) struct LeafNote {
    /// The leaf's block.
    pub(crate) block: u64,
    /// Whether these are all mappings of the leaf, of which it has 1 to 252.
    pub(crate) full: bool,
    /// How many mappings are saved.
    pub(crate) entries: u64,
    /// The least key, or 0 where nothing is saved.
    pub(crate) first: u64,
    /// The end of the keys, or 0 where nothing is saved.
    pub(crate) end: u128,
    pub(crate) runs: PackedRuns,
}

/// What was gathered of a leaf, but for the runs that are done.
#[derive(Clone, Copy)]
pub(crate) struct LeafGathering {
    joining: Joining,
    mapped: u64,
    first: u64,
    end: u128,
}

impl LeafNote {
    /// Whether all of it lies in a range of keys.
    pub(crate) fn lies_in(&self, range: &Range) -> bool
        ensures inside { (blocks : ℕ) → IsNote blocks self.now → result ≡ true → in_keys range.now (noted self.now) ≡ noted self.now }
        ensures outside { (blocks : ℕ) → IsNote blocks self.now
            → result ≡ false → length (in_keys range.now (noted self.now)) < length (noted self.now) }
    {
        is_between(self.entries, self.first, self.end, range)
    }
}

impl LeafGathering {
    ghost use Rattle.std.specs.Prelude.{◌≡◌, ◌++◌, ◌∷◌, ◌<◌, ◌^◌, [], List, OnOk, false};
    ghost use Rattle.pd_kinds.specs.Meaning.{Mapping};
    ghost use Rattle.pd_kinds.specs.Node.{entry_count, is_inner_node, key_at, value_at};
    ghost use Rattle.pd_meaning_thin.specs.Runs.{mapping_of};
    ghost use Rattle.pd_salvage_shapes.specs.Note.{IsGathered, saved_in};

    /// Takes the next mapping.
    fn take(
        &mut self,
        runs: &mut PackedRuns,
        virt: u64,
        mapping: BlockTime,
    ) -> Result<(), AllocError>
        requires { mapping.block < 2 ^ 40 }
        ensures { OnOk result ((ms : List Mapping) → IsGathered runs.old self.old ms
            → IsGathered runs.new self.new (ms ++ mapping_of (virt, mapping) ∷ [])) }
    {
        if self.mapped == u64::MAX {
            return Err(AllocError);
        }
        let first = least_key(self.mapped, self.first, virt);
        self.first = first;
        self.mapped += 1;
        self.end = virt as u128 + 1;
        self.joining.take(
            runs,
            Run {
                virt,
                target: mapping.block,
                length: 1,
                time: mapping.time,
            },
        )?;
        Ok(())
    }

    /// Takes entry `i` of a leaf, where it is in the range and its data block is below the number.
    fn take_entry(
        &mut self,
        runs: &mut PackedRuns,
        block: &Block,
        i: usize,
        range: &Range,
        blocks: u64,
    ) -> Result<(), AllocError>
        requires within { i < entry_count 8 block.now.0 }
        requires leaf { is_inner_node block.now.0 ≡ false }
        ensures takes { OnOk result ((ms : List Mapping) → IsGathered runs.old self.old ms
            → IsGathered runs.new self.new (ms ++ saved_in blocks range.now
            (record { key = key_at block.now.0 i; value = value_at 8 block.now.0 i } ∷ []))) }
        ensures fits { key_at block.now.0 i < 2 ^ 64 }
    {
        let virt = key::<BlockTime>(block, i);
        let mapping = value::<BlockTime>(block, i);
        if !is_saved(range, blocks, virt, &mapping) {
            return Ok(());
        }
        self.take(runs, virt, mapping)?;
        Ok(())
    }
}

/// Whether an entry with this mapping is saved.
fn is_saved(range: &Range, blocks: u64, virt: u64, mapping: &BlockTime) -> bool
    ensures { result ≡ (is_in_range range.now virt && nat_lt mapping.now.block blocks) }
{
    range.has(virt) & (mapping.block < blocks)
}

/// Whether so many mappings, with these first and last keys, are in a range.
fn is_between(entries: u64, first: u64, end: u128, range: &Range) -> bool
    ensures { result ≡ ((entries == 0) || (not (nat_lt first range.now.low) && not (nat_lt range.now.high end))) }
{
    let begins = first >= range.low;
    let ends = end <= range.high;
    (entries == 0) | (begins & ends)
}

/// Whether so many mappings are all of a leaf with this number of entries, of which there are 1 to 252.
fn is_all(mapped: u64, count: u64) -> bool
    ensures { result ≡ ((mapped == count) && (nat_le 1 count && nat_le count 252)) }
{
    (mapped == count) & ((1 <= count) & (count <= MAX_LEAF_MAPPINGS))
}

/// The least key after another one came to so many.
fn least_key(mapped: u64, first: u64, virt: u64) -> u64
    ensures { result ≡ (if mapped == 0 then virt else first) }
{
    if mapped == 0 { virt } else { first }
}

/// Gathers the mappings of a leaf that are in the range, and whose data blocks are below the number.
fn gather_leaf(
    block: &Block,
    range: &Range,
    blocks: u64,
    runs: &mut PackedRuns,
) -> Result<LeafGathering, AllocError>
    requires empty { runs.old ≡ [] }
    requires leaf { is_inner_node block.now.0 ≡ false }
    ensures gathered { IfOk result (λ gathering. IsGathered runs.new gathering
        (saved_in blocks range.now (map (λ i. record { key = key_at block.now.0 i; value = value_at 8 block.now.0 i })
        (range_with_len 0 (entry_count 8 block.now.0))))) }
    ensures fits { OnOk result ((i : ℕ) → i < entry_count 8 block.now.0 → key_at block.now.0 i < 2 ^ 64) }
{
    let mut gathering = LeafGathering {
        joining: Joining { begun: None },
        mapped: 0,
        first: 0,
        end: 0,
    };
    for i in 0..entries::<BlockTime>(block) {
        gathering.take_entry(runs, block, i, range, blocks)?;
    }
    Ok(gathering)
}

/// The note of the block at this place, in a range of keys.
pub(crate) fn note_of(
    alloc: Global,
    block: &Block,
    place: u64,
    range: &Range,
    blocks: u64,
) -> Result<LeafNote, AllocError>
    ensures notes { IfOk result (Notes blocks place block.now.0 range.now) }
    ensures sound { IfOk result (IsNote blocks) }
{
    if !is_sound::<BlockTime>(block, place) {
        return Ok(no_note(alloc, place));
    }
    if is_inner(block) {
        return Ok(no_note(alloc, place));
    }
    let mut runs = PackedRuns::new(alloc);
    let mut gathering = gather_leaf(block, range, blocks, &mut runs)?;
    gathering.joining.end(&mut runs)?;
    runs.trim();
    let full = is_all(gathering.mapped, entries::<BlockTime>(block) as u64);
    Ok(LeafNote {
        block: place,
        full,
        entries: gathering.mapped,
        first: gathering.first,
        end: gathering.end,
        runs,
    })
}

/// The note of a leaf of which nothing is saved.
pub(crate) fn no_note(alloc: Global, place: u64) -> LeafNote
    ensures none { noted result ≡ [] }
    ensures at { result.block ≡ place }
    ensures part { result.full ≡ false }
    ensures sound { (blocks : ℕ) → IsNote blocks result }
{
    LeafNote {
        block: place,
        full: false,
        entries: 0,
        first: 0,
        end: 0,
        runs: PackedRuns::new(alloc),
    }
}
