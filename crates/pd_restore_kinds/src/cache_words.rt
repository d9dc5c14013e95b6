//! The entries of a cache (`cache_restore`, `cache_repair`).
//! The words of a cache's arrays (`cache_restore`, `cache_repair`).
//! How many blocks a cache needs (`cache_restore`, `cache_repair`).

ghost use Rattle.std.specs.Prelude.{◌≡◌, ◌+◌, ◌^◌, ◌<◌, IfSome, ◌*◌, if◌then◌else◌, ◌≤◌};
ghost use Rattle.pd_kinds.specs.Array.{max_words};
ghost use Rattle.pd_kinds.specs.Bitmap.{bitmaps_for};
ghost use Rattle.pd_grammar.specs.CacheText.{need_of_cache};
ghost use Rattle.pd_grammar.specs.Need.{need_array, nodes_for};
ghost use Rattle.pd_laid.specs.LaidCache.{hint_word as hint_in, is_dirty as is_dirty_in, mapping_word as mapping_in};
ghost use Rattle.pd_array.specs.Word.{size_of};
ghost use Rattle.pd_salvage_cache.specs.SavedCache.{entry_of_row};
ghost use Rattle.pd_restore_kinds.specs.CacheRoots.{found, StandsAt, bits_below, bytes_of, span, word_of};

use pd_array::Word;
use pd_build::need_upper;
use pd_kinds::bitmaps_for;
use pd_salvage_cache::Row;

/// The row of a cache block, where there is one, and the index of the first row behind it.
pub(crate) fn next_row(rows: &[Row], at: usize, block: u64) -> (Option<Row>, usize)
    requires { StandsAt rows.now at block }
    ensures row { entry_of_row result.0 ≡ found rows.now block }
    ensures next { StandsAt rows.now result.1 (block + 1) }
    ensures fits { IfSome result.0 (λ row. row.origin < 2 ^ 48) }
    ensures hint { IfSome result.0 (λ row. row.hint < 2 ^ 32) }
{
    if at < rows.len() {
        let row = rows[at];
        if row.block as u64 == block {
            return (Some(row), at + 1);
        }
    }
    (None, at)
}

/// What an array of a cache has.
#[derive(Clone, Copy, Debug, PartialEq, Eq)]
pub(crate) enum Words {
    /// The origin of each cache block; bit 1 where it is dirty is of version 1.
    Mapping(u32),
    /// The hint of each cache block.
    Hints,
    /// The dirty bits of 64 cache blocks.
    Dirty,
}

impl Words {
    /// The size of a word.
    pub(crate) fn size(&self) -> Word
        ensures { size_of result ≡ bytes_of self.now }
    {
        match self {
            Words::Mapping(_) | Words::Dirty => Word::Eight,
            Words::Hints => Word::Four,
        }
    }

    /// Word `i`, and the index of the first row behind its cache blocks.
    pub(crate) fn word(&self, rows: &[Row], at: usize, i: u64) -> (u64, usize)
        requires few { i < 2 ^ 32 }
        requires stands { StandsAt rows.now at (span self.now * i) }
        ensures word { result.0 ≡ word_of self.now rows.now i }
        ensures next { StandsAt rows.now result.1 (span self.now * (i + 1)) }
        ensures fits { result.0 < 256 ^ bytes_of self.now }
    {
        match self {
            Words::Mapping(version) => {
                let (row, next) = next_row(rows, at, i);
                (mapping_word(*version, row), next)
            }
            Words::Hints => {
                let (row, next) = next_row(rows, at, i);
                (hint_word(row), next)
            }
            Words::Dirty => dirty_word(rows, at, 64 * i),
        }
    }
}

/// The word of a cache block in the mapping array.
fn mapping_word(version: u32, row: Option<Row>) -> u64
    requires { IfSome row (λ r. r.origin < 2 ^ 48) }
    ensures word { result ≡ mapping_in version (entry_of_row row) }
    ensures fits { result < 256 ^ 8 }
{
    match row {
        Some(row) => {
            let marked = row.dirty & (version == 1);
            row.origin * 65536 + flags(marked)
        }
        None => 0,
    }
}

/// The low bits of a word of the mapping array.
fn flags(marked: bool) -> u64
    ensures { result ≡ (if marked then 3 else 1) }
{
    if marked { 3 } else { 1 }
}

/// The word of a cache block in the hint array.
fn hint_word(row: Option<Row>) -> u64
    requires { IfSome row (λ r. r.hint < 2 ^ 32) }
    ensures word { result ≡ hint_in (entry_of_row row) }
    ensures fits { result < 256 ^ 4 }
{
    match row {
        Some(row) => row.hint as u64,
        None => 0,
    }
}

/// Whether a cache block is dirty.
fn is_dirty(row: Option<Row>) -> bool
    ensures { result ≡ is_dirty_in (entry_of_row row) }
{
    match row {
        Some(row) => row.dirty,
        None => false,
    }
}

/// The dirty bits of 64 cache blocks from one on, and the index of the first row behind them.
fn dirty_word(rows: &[Row], at: usize, first: u64) -> (u64, usize)
    requires few { first < 2 ^ 40 }
    requires stands { StandsAt rows.now at first }
    ensures word { result.0 ≡ bits_below rows.now first 64 }
    ensures next { StandsAt rows.now result.1 (first + 64) }
    ensures fits { result.0 < 256 ^ 8 }
{
    let mut at = at;
    let mut word = 0;
    for i in 0..64 {
        let (row, next) = next_row(rows, at, first + i);
        word = with_bit(word, i, is_dirty(row));
        at = next;
    }
    (word, at)
}

/// A word with a bit that it has not, where it is to have it.
fn with_bit(word: u64, i: u64, bit: bool) -> u64
    requires small { word < 2 ^ i }
    requires few { i < 64 }
    ensures { result ≡ word + (if bit then 2 ^ i else 0) }
{
    if bit { word + (1 << i) } else { word }
}

/// How many dirty bits a word has.
const DIRTY_BITS: u64 = 64;

/// How many blocks a cache needs in a version of the metadata, of so many cache blocks and with hints of this size, where
/// there are so many blocks for metadata.
pub fn need_cache(version: u32, blocks: u32, hint_size: u32, room: u64) -> u64
    requires few { room ≤ 4161600 }
    ensures need { result ≡ need_of_cache version blocks hint_size room }
    ensures some { 1 ≤ result }
{
    let blocks = blocks as u64;
    let mapping = need_words(Words::Mapping(version), blocks);
    let hints = need_where(hint_size == 4, Words::Hints, blocks);
    let dirty = need_where(version == 2, Words::Dirty, dirty_words(blocks));
    1 + mapping + hints + dirty + 1 + need_own_map(room)
}

/// How many words the dirty bits of so many cache blocks take.
pub(crate) fn dirty_words(blocks: u64) -> u64
    requires few { blocks ≤ 2 ^ 32 }
    ensures number { result ≡ nodes_for 64 blocks }
    ensures few { result ≤ 2 ^ 32 }
{
    (blocks + (DIRTY_BITS - 1)) / DIRTY_BITS
}

/// How many blocks an array has where there is one.
fn need_where(there: bool, words: Words, count: u64) -> u64
    requires few { count ≤ 2 ^ 32 }
    ensures need { result ≡ (if there then need_array (bytes_of words) count else 0) }
    ensures small { result ≤ 2 ^ 34 }
{
    if there { need_words(words, count) } else { 0 }
}

/// How many blocks an array of so many words has.
fn need_words(words: Words, count: u64) -> u64
    requires few { count ≤ 2 ^ 32 }
    ensures need { result ≡ need_array (bytes_of words) count }
    ensures small { result ≤ 2 ^ 34 }
{
    let blocks = word_blocks(words, count);
    let leaves = ((blocks + 251) / 252).max(1);
    blocks + leaves + need_upper(leaves)
}

/// How many blocks so many words take.
fn word_blocks(words: Words, count: u64) -> u64
    requires few { count ≤ 2 ^ 32 }
    ensures number { result ≡ nodes_for (max_words (bytes_of words)) count }
    ensures few { result ≤ 2 ^ 32 }
{
    match words {
        Words::Mapping(_) | Words::Dirty => (count + 508) / 509,
        Words::Hints => (count + 1017) / 1018,
    }
}

/// How many blocks the map of so many metadata blocks has.
fn need_own_map(room: u64) -> u64
    requires few { room ≤ 4161600 }
    ensures number { result ≡ 2 + bitmaps_for room }
    ensures few { result ≤ 4161602 }
{
    2 + bitmaps_for(room)
}
