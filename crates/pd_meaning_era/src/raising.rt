//! Eras that are raised where a bit is set (`era_dump`, `era_invalidate`).

ghost use Rattle.std.specs.Prelude.{◌*◌, ◌<◌, ◌≤◌, ◌==◌, ◌&&◌, nat_lt, length, ◌≡◌, ◌+◌, ◌^◌, slice_index, slice_set};
ghost use Rattle.std.specs.Int.{bit_at};
ghost use Rattle.std.specs.Int.Bits.{bit_or};
ghost use Rattle.pd_kinds.specs.Meaning.{is_bit_set};
ghost use Rattle.pd_tree.specs.Cursor.{words_from};
ghost use Rattle.pd_meaning_era.specs.Eras.{Raises, holds_in_word, AreAtLeast, holds_from};

use pd_array::{Word, array_len, array_word};
use pd_kinds::Block;

/// Raises the era of block b to this one, where bit i of the word is set and the block stands before the end.
fn raise(eras: &mut [u32], b: u64, word: u64, i: u32, end: u64, era: u32)
    requires within { end ≤ length eras.old }
    requires bit { i < 64 }
    ensures { Raises era (λ c. (c == b) && (nat_lt c end && (bit_at word i == 1))) eras.old eras.new }
{
    let is_set = (word >> i) & 1 == 1;
    if is_set & (b < end) {
        eras[b as usize] = eras[b as usize].max(era);
    }
}

/// Raises the eras of the blocks before the end to this one whose bits are set in the word with this number, of 64
/// blocks each, the lowest bit first.
pub(crate) fn raise_word(eras: &mut [u32], number: u64, word: u64, end: u64, era: u32)
    requires within { end ≤ length eras.old }
    requires some { 64 * number < end }
    requires fits { end ≤ 4294967296 }
    ensures { Raises era (holds_in_word end number word) eras.old eras.new }
{
    if word == 0 {
        return;
    }
    for i in 0..64u32 {
        raise(eras, 64 * number + u64::from(i), word, i, end, era);
    }
}

// Eras that are raised where a word says so, but for the blocks that were raised before.
// Serves `era_dump`, `era_invalidate`.

/// The number of bits in a word.
const WORD_BITS: u64 = 64;

/// Notes the blocks of the word with this number as raised, if all of them stand before the end.
fn take(taken: &mut [u64], number: u64, word: u64, end: u64)
    requires within { number < length taken.old }
    requires fits { number < 2 ^ 32 }
    ensures whole { 64 * number + 64 ≤ end → taken.new ≡ slice_set taken.old number (bit_or (slice_index taken.old number) word) }
    ensures part { end < 64 * number + 64 → taken.new ≡ taken.old }
{
    if WORD_BITS * number + WORD_BITS <= end {
        taken[number as usize] |= word;
    }
}

/// Raises the eras of the blocks before the end to this one whose bits are set in the word with this number. Those that
/// `taken` has are as high.
fn raise_fresh(eras: &mut [u32], taken: &mut [u64], number: u64, word: u64, end: u64, era: u32)
    requires within { end ≤ length eras.old }
    requires room { end ≤ 64 * length taken.old }
    requires fits { end ≤ 4294967296 }
    requires taken { AreAtLeast era (is_bit_set taken.old) eras.old }
    ensures raised { Raises era (holds_in_word end number word) eras.old eras.new }
    ensures taken { AreAtLeast era (is_bit_set taken.new) eras.new }
{
    if number >= end.div_ceil(WORD_BITS) {
        return;
    }
    let known = taken[number as usize];
    raise_word(eras, number, (word | known) ^ known, end, era);
    take(taken, number, word, end);
}

/// Raises the eras of the blocks before the end to this one that the words of an array block hold from word `from` on,
/// which has the number `first`.
pub(crate) fn raise_words_of(
    block: &Block,
    from: usize,
    first: u64,
    eras: &mut [u32],
    taken: &mut [u64],
    end: u64,
    era: u32,
)
    requires first { first < 2 ^ 33 }
    requires within { end ≤ length eras.old }
    requires room { end ≤ 64 * length taken.old }
    requires fits { end ≤ 4294967296 }
    requires taken { AreAtLeast era (is_bit_set taken.old) eras.old }
    ensures raised { Raises era (holds_from end first (words_from 8 block.now.0 from)) eras.old eras.new }
    ensures taken { AreAtLeast era (is_bit_set taken.new) eras.new }
{
    for i in 0..array_len(block, Word::Eight).saturating_sub(from) {
        let word = array_word(block, Word::Eight, from + i);
        raise_fresh(eras, taken, first + i as u64, word, end, era);
    }
}
