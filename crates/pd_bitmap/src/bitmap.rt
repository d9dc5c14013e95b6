//! A bitmap: 16320 reference counts of two bits each.

ghost use Rattle.std.specs.Prelude.{◌≡◌, ◌≢◌, ℕ, ◌+◌, ◌/◌, ◌<◌, ◌≤◌, false, length, slice_index, ◌*◌, ◌%◌, IfSome};
ghost use Rattle.pd_kinds.specs.declared.rule.Rule.{Rule as BrokenRule};
ghost use Rattle.pd_kinds.specs.Bitmap.{bitmap_bad, bitmap_salt, placed_block, two_bits_of};
ghost use Rattle.pd_kinds.specs.Field.{zeros};
ghost use Rattle.pd_kinds.specs.Rule.{has_rule};
ghost use Rattle.pd_bitmap.specs.Counts.{stored_all, count_at, stored as stored_of, AreAll};

use crate::HEADER_SIZE;
use pd_crc::{is_sealed, seal};
use pd_kinds::{Block, Rule, Rules, put_u64, u64_at};

/// What the checksum of a bitmap is XORed with, as BITMAP_CSUM_XOR of
/// "drivers/md/persistent-data/dm-space-map-common.c".
const BITMAP_SALT: u32 = 240779;

/// How many bytes the counts take: four are in a byte.
const COUNT_BYTES: usize = 4080;

/// The rules that the block breaks as the bitmap in this place.
///
/// A bitmap whose checksum is wrong breaks Checksum alone.
#[tactic(auto, unfolding(pd_kinds::specs::Bitmap::bitmap_bad, pd_kinds::specs::Rule::alone, pd_kinds::specs::Rule::failing))]
pub fn bitmap_rules(block: &Block, place: u64) -> Rules
    ensures { (rule : BrokenRule) → has_rule result rule ≡ bitmap_bad place block.now.0 rule }
{
    if !is_sealed(block, BITMAP_SALT) {
        return Rules::none().with(Rule::Checksum);
    }
    let elsewhere = u64_at(&block.0, 8) != place;
    Rules::none().with_if(Rule::Place, elsewhere)
}

/// The two bits of entry `i`, from 0: a count, or 3 where the overflow tree has the count.
#[tactic(auto, unfolding(pd_kinds::specs::Bitmap::two_bits_of))]
pub fn two_bits(block: &Block, i: usize) -> u8
    requires { i < 16320 }
    ensures count { result ≡ two_bits_of block.now.0 i }
    ensures most { result ≤ 3 }
{
    count_of(block.0[HEADER_SIZE + i / 4], (i % 4) as u32)
}

/// Sets the two bits of entry `i`, from 0, and changes nothing else.
#[tactic(auto, unfolding(pd_kinds::specs::Bitmap::two_bits_of))]
pub fn set_two_bits(block: &mut Block, i: usize, count: u8)
    requires entry { i < 16320 }
    requires count { count ≤ 3 }
    ensures set { two_bits_of block.new.0 i ≡ count }
    ensures others { (j : ℕ) → j ≢ i → two_bits_of block.new.0 j ≡ two_bits_of block.old.0 j }
    ensures bytes { (k : ℕ) → k ≢ 16 + i / 4 → slice_index block.new.0 k ≡ slice_index block.old.0 k }
{
    let at = HEADER_SIZE + i / 4;
    block.0[at] = with_count(block.0[at], (i % 4) as u32, count);
}

/// A bitmap of zeros, which isn't sealed yet.
pub fn new_bitmap() -> Block
    ensures block { result.0 ≡ zeros }
    ensures counts { (i : ℕ) → two_bits_of result.0 i ≡ 0 }
{
    Block::zeros()
}

/// The bitmap of these numbers, which isn't sealed yet, where 3 stands for 3 and all above.
pub fn filled_bitmap(numbers: &[u32]) -> Block
    requires { length numbers.now ≡ 16320 }
    ensures { result.0 ≡ stored_all (slice_index numbers.now) }
{
    let mut block = new_bitmap();
    for i in 0..COUNT_BYTES {
        let at = 4 * i;
        block.0[HEADER_SIZE + i] = byte_of(
            numbers[at],
            numbers[at + 1],
            numbers[at + 2],
            numbers[at + 3],
        );
    }
    block
}

/// Writes the place and the checksum of a bitmap, and changes nothing else.
pub fn seal_bitmap(block: &mut Block, place: u64)
    ensures sealed { block.new.0 ≡ placed_block bitmap_salt place block.old.0 }
    ensures rules { (rule : BrokenRule) → bitmap_bad place block.new.0 rule ≡ false }
    ensures counts { (i : ℕ) → two_bits_of block.new.0 i ≡ two_bits_of block.old.0 i }
{
    put_u64(&mut block.0, 8, place);
    seal(block, BITMAP_SALT);
}

// The four counts of a byte, of two bits each.

/// The count at a place, from 0, of the byte.
#[tactic(auto, using(crate::proofs::Filled::count_read))]
pub(crate) fn count_of(byte: u8, place: u32) -> u8
    requires { place < 4 }
    ensures { result ≡ count_at byte place }
{
    swapped(byte >> (2 * place) & 3)
}

/// The byte with this count at a place, from 0, and its other counts as they are.
#[tactic(auto, using(crate::proofs::Filled::count_written, crate::proofs::Filled::count_kept))]
pub(crate) fn with_count(byte: u8, place: u32, count: u8) -> u8
    requires place { place < 4 }
    requires count { count ≤ 3 }
    ensures set { count_at result place ≡ count }
    ensures others { (other : ℕ) → other < 4 → other ≢ place → count_at result other ≡ count_at byte other }
{
    let others = byte & !(3 << (2 * place));
    others | swapped(count) << (2 * place)
}

/// The byte of four numbers, the first in its lowest bits.
pub(crate) fn byte_of(first: u32, second: u32, third: u32, fourth: u32) -> u8
    ensures { result ≡ stored_of first + 4 * stored_of second + 16 * stored_of third + 64 * stored_of fourth }
{
    stored(first) + 4 * stored(second) + 16 * stored(third) + 64 * stored(fourth)
}

/// A number as the two bits that are stored of it, where 3 stands for 3 and all above.
fn stored(number: u32) -> u8
    ensures value { result ≡ stored_of number }
    ensures most { result < 4 }
{
    let low = number.min(3) as u8;
    swapped(low)
}

/// Two bits in the other order: the high bit of a count is stored before the low one.
fn swapped(bits: u8) -> u8
    requires { bits ≤ 3 }
    ensures { result ≡ 2 * (bits % 2) + bits / 2 }
{
    2 * (bits % 2) + bits / 2
}

// Runs of equal counts, of which 32 are looked at at a time.

/// Eight bytes of a bitmap whose 32 counts are all 1: the low bit of a count is the second of its two bits.
const ONES: u64 = 0xaaaa_aaaa_aaaa_aaaa;

/// The number that all 32 counts from entry `32 * g` of a bitmap are, where it is seen by their eight bytes.
pub fn one_number(bytes: &[u8], g: usize) -> Option<u32>
    requires size { length bytes.now ≡ 4096 }
    requires group { g < 510 }
    ensures { IfSome result (AreAll bytes.now g) }
{
    let word = u64_at(bytes, HEADER_SIZE + 8 * g);
    if word == 0 {
        Some(0)
    } else if word == ONES {
        Some(1)
    } else {
        None
    }
}
