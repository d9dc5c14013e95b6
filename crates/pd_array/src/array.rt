//! The sizes that an array's words have.
//! The words of an array block, read where they lie.
//! The rules that a block of an array breaks.
//! An array block, written whole or word by word.

ghost use Rattle.std.specs.Prelude.{◌≡◌, ◌+◌, ◌*◌, ◌^◌, ◌<◌, ◌≤◌, EachIndex, false, length, slice_index};
ghost use Rattle.pd_kinds.specs.Array.{max_words as max_words_of, word_at, word_count, array_bad, array_tests};
ghost use Rattle.pd_kinds.specs.Array.{is_array_shape_bad, array_block, array_rows, array_salt, max_words};
ghost use Rattle.pd_kinds.specs.declared.rule.Rule.{Rule as BrokenRule};
ghost use Rattle.pd_kinds.specs.Rule.{failing, has_rule};
ghost use Rattle.pd_kinds.specs.Field.{sealed, put, written, zeros};
ghost use Rattle.pd_array.specs.Word.{size_of};

use pd_crc::{is_sealed, seal};
use pd_kinds::{BLOCK_SIZE, Block, Rule, Rules, put_u32, put_u64, u32_at, u64_at};

/// The size of the header in bytes: the words stand behind it.
pub(crate) const HEADER_SIZE: usize = 24;

/// The size of an array's words.
#[derive(Clone, Copy, Debug, PartialEq, Eq)]
pub enum Word {
    /// Words of four bytes.
    Four,
    /// Words of eight bytes.
    Eight,
}

impl Word {
    /// The size of a word in bytes.
    pub fn size(self) -> usize
        ensures { result ≡ size_of self }
    {
        match self {
            Word::Four => 4,
            Word::Eight => 8,
        }
    }

    /// How many words a block has room for: 1018 of four bytes, 509 of eight.
    pub fn max_words(self) -> usize
        ensures { result ≡ max_words_of (size_of self) }
    {
        (BLOCK_SIZE - HEADER_SIZE) / self.size()
    }
}

/// The number of words of a block whose shape is that of a block with such words, and 0 of any other.
#[tactic(auto, unfolding(pd_kinds::specs::Array::word_count))]
pub fn array_len(block: &Block, word: Word) -> usize
    ensures { result ≡ word_count (size_of word) block.now.0 }
{
    if has_bad_shape(block, word) {
        0
    } else {
        u32_at(&block.0, 8) as usize
    }
}

/// Word `i`, from 0.
pub fn array_word(block: &Block, word: Word, i: usize) -> u64
    requires { i < word_count (size_of word) block.now.0 }
    ensures value { result ≡ word_at (size_of word) block.now.0 i }
    ensures fits { result < 256 ^ size_of word }
{
    lies_within(block, word, i);
    match word {
        Word::Four => u32_at(&block.0, HEADER_SIZE + 4 * i) as u64,
        Word::Eight => u64_at(&block.0, HEADER_SIZE + 8 * i),
    }
}

/// Word `i` lies within the block.
#[inline]
fn lies_within(block: &Block, word: Word, i: usize)
    requires { i < word_count (size_of word) block.now.0 }
    ensures { 24 + size_of word * i + size_of word ≤ 4096 }
{}

/// What the checksum of an array block is XORed with, as CSUM_XOR of
/// "drivers/md/persistent-data/dm-array.c".
pub(crate) const ARRAY_SALT: u32 = 595846735;

/// The rules that the block breaks as the block in this place of an array with such words.
///
/// A block whose checksum is wrong breaks Checksum alone.
#[tactic(auto, unfolding(pd_kinds::specs::Array::array_bad, pd_kinds::specs::Rule::alone))]
pub fn array_rules(block: &Block, place: u64, word: Word) -> Rules
    ensures { (rule : BrokenRule) → has_rule result rule ≡ array_bad (size_of word) place block.now.0 rule }
{
    if !is_sealed(block, ARRAY_SALT) {
        return Rules::none().with(Rule::Checksum);
    }
    table_rules(block, place, word)
}

/// The rules that are looked at each by itself.
#[tactic(auto, unfolding(pd_kinds::specs::Array::array_tests, pd_kinds::specs::Rule::failing))]
fn table_rules(block: &Block, place: u64, word: Word) -> Rules
    ensures { (rule : BrokenRule) → has_rule result rule ≡ failing (array_tests (size_of word) place block.now.0) rule }
{
    let elsewhere = u64_at(&block.0, 16) != place;
    let shape_bad = has_bad_shape(block, word);
    Rules::none()
        .with_if(Rule::Place, elsewhere)
        .with_if(Rule::Shape, shape_bad)
}

/// Whether the sizes in the header aren't those of a block with such words.
#[tactic(auto, unfolding(pd_kinds::specs::Array::is_array_shape_bad))]
pub(crate) fn has_bad_shape(block: &Block, word: Word) -> bool
    ensures { result ≡ is_array_shape_bad (size_of word) block.now.0 }
{
    let max = u32_at(&block.0, 4);
    let entries = u32_at(&block.0, 8);
    let size = u32_at(&block.0, 12);
    (size as usize != word.size()) | (max as usize != word.max_words()) | (entries > max)
}

/// The block of these words in this place, sealed. Every other byte is 0.
pub fn write_array(place: u64, word: Word, words: &[u64]) -> Block
    requires room { length words.now ≤ max_words (size_of word) }
    requires fit { EachIndex words.now (λ i. slice_index words.now i < 256 ^ size_of word) }
    ensures block { result.0 ≡ array_block (size_of word) place words.now }
    ensures rules { (rule : BrokenRule) → array_bad (size_of word) place result.0 rule ≡ false }
    // Reading what was written gives the same words.
    ensures count { word_count (size_of word) result.0 ≡ length words.now }
    ensures words { EachIndex words.now (λ i. word_at (size_of word) result.0 i ≡ slice_index words.now i) }
{
    let mut block = header_of(place, word, words.len());
    for (i, value) in words.iter().enumerate() {
        set_array_word(&mut block, word, i, *value);
    }
    seal(&mut block, ARRAY_SALT);
    block
}

/// A block of zeros but for the header: the greatest and the actual number of words, their size, the place.
#[tactic(auto, unfolding(pd_kinds::specs::Field::written))]
fn header_of(place: u64, word: Word, count: usize) -> Block
    requires { count ≤ max_words (size_of word) }
    ensures { result.0 ≡ written zeros (array_rows (size_of word) place count) }
{
    let mut block = Block::zeros();
    put_u32(&mut block.0, 4, word.max_words() as u32);
    put_u32(&mut block.0, 8, count as u32);
    put_u32(&mut block.0, 12, word.size() as u32);
    put_u64(&mut block.0, 16, place);
    block
}

/// Sets word `i`, from 0, and changes no other byte: the checksum isn't that of the block then.
#[inline]
pub fn set_array_word(block: &mut Block, word: Word, i: usize, value: u64)
    requires within { i < max_words (size_of word) }
    requires fits { value < 256 ^ size_of word }
    ensures { block.new.0 ≡ put block.old.0 (24 + size_of word * i) (size_of word) value }
{
    match word {
        Word::Four => put_u32(&mut block.0, HEADER_SIZE + 4 * i, value as u32),
        Word::Eight => put_u64(&mut block.0, HEADER_SIZE + 8 * i, value),
    }
}

/// Writes the checksum of an array block, and changes nothing else.
pub fn seal_array(block: &mut Block)
    ensures { block.new.0 ≡ sealed block.old.0 array_salt }
{
    seal(block, ARRAY_SALT);
}
