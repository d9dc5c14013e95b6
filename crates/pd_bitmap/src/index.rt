//! The index block of the metadata's space map: an entry for each bitmap.

ghost use Rattle.std.specs.Prelude.{◌≡◌, ℕ, ◌+◌, ◌*◌, ◌<◌, ◌≤◌, ◌&&◌, EachIndex, Some, false, true, length, map, slice_get};
ghost use Rattle.std.specs.List.{list_any};
ghost use Rattle.pd_kinds.specs.declared.limits.TheConstants.{MAX_META_BLOCKS};
ghost use Rattle.pd_kinds.specs.declared.rule.Rule.{Rule as BrokenRule};
ghost use Rattle.pd_kinds.specs.declared.rule.Rule.TheVariants.{Checksum, Place, Pointer};
ghost use Rattle.pd_kinds.specs.Bitmap.{index_bad, index_block_at, index_blocks, index_code_at, index_salt};
ghost use Rattle.pd_kinds.specs.Bitmap.{index_tests, placed_block, unsealed_index};
ghost use Rattle.pd_kinds.specs.Field.{le, put};
ghost use Rattle.pd_kinds.specs.Rule.{same_rule, failing, has_rule};
ghost use Rattle.pd_kinds.specs.Graph.{is_outside};
ghost use Rattle.pd_bitmap.specs.Counts.{DoFieldsFit};

use crate::HEADER_SIZE;
use pd_crc::{is_sealed, seal};
use pd_kinds::{Block, Rule, Rules, bitmaps_for, is_outside, put_u64, u64_at};
use pd_value::{IndexEntry, Value, put_value, value_at};

/// What the checksum of an index block is XORed with, as INDEX_CSUM_XOR of
/// "drivers/md/persistent-data/dm-space-map-common.c".
const INDEX_SALT: u32 = 160478;

/// The size of an entry in bytes.
const ENTRY_SIZE: usize = 16;

/// The rules that the block breaks as the index block in this place, for so many metadata blocks.
///
/// A block whose checksum is wrong breaks Checksum alone. Only the entries of the bitmaps that so
/// many blocks need are looked at.
#[tactic(auto, unfolding(pd_kinds::specs::Bitmap::index_bad, pd_kinds::specs::Rule::alone))]
pub fn index_rules(block: &Block, place: u64, nr: u64) -> Rules
    requires { nr ≤ MAX_META_BLOCKS }
    ensures { (rule : BrokenRule) → has_rule result rule ≡ index_bad nr place block.now.0 rule }
{
    if !is_sealed(block, INDEX_SALT) {
        return Rules::none().with(Rule::Checksum);
    }
    table_rules(block, place, nr)
}

/// The rules that are looked at each by itself.
#[tactic(auto, unfolding(pd_kinds::specs::Bitmap::index_tests, pd_kinds::specs::Rule::failing))]
fn table_rules(block: &Block, place: u64, nr: u64) -> Rules
    requires { nr ≤ MAX_META_BLOCKS }
    ensures { (rule : BrokenRule) → has_rule result rule ≡ failing (index_tests nr place block.now.0) rule }
{
    let elsewhere = u64_at(&block.0, 8) != place;
    let outside = is_bitmap_outside(block, nr);
    Rules::none()
        .with_if(Rule::Place, elsewhere)
        .with_if(Rule::Pointer, outside)
}

/// Whether a bitmap that so many blocks need isn't from 1 to `nr - 1`.
#[tactic(auto, unfolding(pd_kinds::specs::Bitmap::index_blocks))]
fn is_bitmap_outside(block: &Block, nr: u64) -> bool
    requires { nr ≤ MAX_META_BLOCKS }
    ensures { result ≡ list_any (λ (b : ℕ). is_outside nr b) (index_blocks nr block.now.0) }
{
    let count = bitmaps_for(nr) as usize;
    let mut outside = false;
    for i in 0..count {
        let bitmap = u64_at(&block.0, HEADER_SIZE + ENTRY_SIZE * i);
        outside |= is_outside(nr, bitmap);
    }
    outside
}

/// Entry `i`, from 0.
pub fn index_entry(block: &Block, i: usize) -> IndexEntry
    requires { i < 255 }
    ensures entry { result ≡ ⟦<IndexEntry as Value>⟧.decoded (index_code_at block.now.0 i) }
    ensures block { result.block ≡ index_block_at block.now.0 i }
    ensures fits { ⟦<IndexEntry as Value>⟧.fitting result ≡ true }
{
    entry_at(&block.0, HEADER_SIZE + ENTRY_SIZE * i)
}

/// The entry that is stored from `at` on.
fn entry_at(bytes: &[u8], at: usize) -> IndexEntry
    requires { at + 16 ≤ length bytes.now }
    ensures entry { result ≡ ⟦<IndexEntry as Value>⟧.decoded (le bytes.now at 16) }
    ensures block { result.block ≡ le bytes.now at 8 }
    ensures fits { ⟦<IndexEntry as Value>⟧.fitting result ≡ true }
{
    value_at(bytes, at)
}

/// An index block of these entries, which isn't sealed yet. Every other byte is 0.
pub fn new_index(entries: &[IndexEntry]) -> Block
    requires { length entries.now ≤ 255 }
    ensures block { result.0 ≡ unsealed_index (map ⟦<IndexEntry as Value>⟧.code entries.now) }
    // Reading what was written gives the same entries.
    ensures entries { EachIndex entries.now (λ i.
        slice_get entries.now i ≡ Some (⟦<IndexEntry as Value>⟧.decoded (index_code_at result.0 i))) }
{
    let mut block = Block::zeros();
    for i in 0..entries.len() {
        put_entry(&mut block, HEADER_SIZE + ENTRY_SIZE * i, entries[i]);
    }
    block
}

/// Writes one entry, and changes no other byte.
fn put_entry(block: &mut Block, at: usize, entry: IndexEntry)
    requires { at + 16 ≤ 4096 }
    ensures put { block.new.0 ≡ put block.old.0 at 16 (⟦<IndexEntry as Value>⟧.code entry) }
    ensures fits { DoFieldsFit entry }
{
    put_value(&mut block.0, at, &entry);
}

/// Writes the place and the checksum of an index block, and changes nothing else.
pub fn seal_index(block: &mut Block, place: u64)
    ensures sealed { block.new.0 ≡ placed_block index_salt place block.old.0 }
    ensures checksum { (nr : ℕ) → index_bad nr place block.new.0 Checksum ≡ false }
    ensures place { (nr : ℕ) → index_bad nr place block.new.0 Place ≡ false }
    // Only a bitmap outside the metadata is a broken rule then.
    ensures rules { (nr : ℕ) (rule : BrokenRule) → index_bad nr place block.new.0 rule
        ≡ (list_any (λ (b : ℕ). is_outside nr b) (index_blocks nr block.old.0) && same_rule Pointer rule) }
    ensures entries { (i : ℕ) → index_code_at block.new.0 i ≡ index_code_at block.old.0 i }
{
    put_u64(&mut block.0, 8, place);
    seal(block, INDEX_SALT);
}
