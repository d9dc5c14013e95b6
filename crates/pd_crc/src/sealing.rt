//! The checksum of a block: what it is, whether it stands in the block, and how it gets there.

ghost use Rattle.std.specs.Prelude.{◌≡◌, true, ◌%◌, ◌≤◌, fold, length, slice_index};
ghost use Rattle.pd_kinds.specs.Field.{checksum, has_checksum, sealed, le, crc_byte, crc32c};
ghost use Rattle.pd_kinds.specs.Super.{is_valid_super};
ghost use Rattle.pd_crc.specs.Magic.{kind_with};
ghost use Rattle.pd_crc.specs.Steps.{byte_steps};

use crate::tables::{
    AFTER_FIFTEEN, AFTER_FOUR, AFTER_FOURTEEN, AFTER_ONE, AFTER_SIXTEEN, AFTER_THIRTEEN,
    AFTER_THREE, AFTER_TWO,
};
use pd_kinds::{Block, Kind, put_u32, u32_at, u64_at};

/// The checksum of a block: that of its bytes 4 to 4095, XORed with the salt of its kind.
pub fn salted(block: &Block, salt: u32) -> u32
    ensures { result ≡ checksum block.now.0 salt }
{
    crc32c_raw(&block.0[4..]) ^ salt
}

/// Whether the first four bytes are the block's checksum.
#[tactic(auto, unfolding(pd_kinds::specs::Field::has_checksum))]
pub fn is_sealed(block: &Block, salt: u32) -> bool
    ensures { result ≡ has_checksum block.now.0 salt }
{
    u32_at(&block.0, 0) == salted(block, salt)
}

/// Writes the checksum into bytes 0 to 3, and changes nothing else.
#[tactic(auto, unfolding(pd_kinds::specs::Field::sealed))]
pub fn seal(block: &mut Block, salt: u32)
    ensures sealed { block.new.0 ≡ sealed block.old.0 salt }
    ensures valid { has_checksum block.new.0 salt ≡ true }
{
    let sum = salted(block, salt);
    put_u32(&mut block.0, 0, sum);
}

/// Whether the block has the checksum, the magic and place 0 of one of the three kinds of superblock.
///
/// The three kinds have magic numbers of their own, so the checksum is computed at most once.
pub fn any_valid(block: &Block) -> bool
    ensures { result ≡ is_valid_super block.now.0 }
{
    match kind_of(block) {
        Some(kind) => u64_at(&block.0, 8) == 0 && is_sealed(block, kind.salt()),
        None => false,
    }
}

/// The kind whose magic the block has.
fn kind_of(block: &Block) -> Option<Kind>
    ensures { result ≡ kind_with (le block.now.0 32 8) }
{
    let magic = u64_at(&block.0, 32);
    if magic == Kind::Thin.magic() {
        Some(Kind::Thin)
    } else if magic == Kind::Cache.magic() {
        Some(Kind::Cache)
    } else if magic == Kind::Era.magic() {
        Some(Kind::Era)
    } else {
        None
    }
}

// CRC-32C of bytes, in four streams.
//
// A checksum's next look-ups wait for its last ones. So the words of four bytes are dealt out to four
// streams, each with look-ups of its own, which the processor makes side by side; at the end the streams
// are joined.
//
// The streams are braided: they take words in turn, and not four long parts of the bytes. So the bytes are
// read in order, which is as fast where the block isn't in the processor's cache.

/// The checksum of the bytes: reflected polynomial 0x82F63B78, from a start of all ones, with no
/// inversion at the end.
pub fn crc32c_raw(bytes: &[u8]) -> u32
    ensures { result ≡ crc32c bytes.now }
{
    if bytes.len() < 16 {
        by_words(u32::MAX, bytes)
    } else {
        in_streams(u32::MAX, bytes)
    }
}

/// The checksum so far taken over the bytes, sixteen at a time: a word for each of the four streams.
fn in_streams(start: u32, bytes: &[u8]) -> u32
    requires { 16 ≤ length bytes.now }
    ensures { result ≡ fold crc_byte start bytes.now }
{
    let mut first = start ^ u32_at(bytes, 0);
    let mut second = u32_at(bytes, 4);
    let mut third = u32_at(bytes, 8);
    let mut fourth = u32_at(bytes, 12);
    let mut at = 16;
    while bytes.len() - at >= 16 {
        // The look-ups stand last in each XOR: they wait for the stream, and the word does not.
        first = u32_at(bytes, at) ^ after_sixteen(first);
        second = u32_at(bytes, at + 4) ^ after_sixteen(second);
        third = u32_at(bytes, at + 8) ^ after_sixteen(third);
        fourth = u32_at(bytes, at + 12) ^ after_sixteen(fourth);
        at += 16;
    }
    let crc = after_four(after_four(after_four(after_four(first) ^ second) ^ third) ^ fourth);
    by_words(crc, &bytes[at..])
}

/// The checksum so far taken over the bytes, four at a time.
fn by_words(start: u32, bytes: &[u8]) -> u32
    ensures { result ≡ fold crc_byte start bytes.now }
{
    let mut crc = start;
    let mut at = 0;
    while bytes.len() - at >= 4 {
        crc = after_four(crc ^ u32_at(bytes, at));
        at += 4;
    }
    one_by_one(crc, &bytes[at..])
}

/// The checksum so far taken over the bytes, one at a time.
fn one_by_one(start: u32, bytes: &[u8]) -> u32
    ensures { result ≡ fold crc_byte start bytes.now }
{
    let mut crc = start;
    for byte in bytes {
        crc = after_one(crc ^ u32::from(*byte));
    }
    crc
}

/// One byte's steps, of a checksum that the byte is already XORed into.
#[inline]
fn after_one(crc: u32) -> u32
    ensures { result ≡ byte_steps 1 crc }
{
    entry(&AFTER_ONE, crc) ^ (crc >> 8)
}

/// Four bytes' steps, of a checksum that the four bytes are already XORed into.
#[inline]
fn after_four(word: u32) -> u32
    ensures { result ≡ byte_steps 4 word }
{
    entry(&AFTER_FOUR, word)
        ^ entry(&AFTER_THREE, word >> 8)
        ^ entry(&AFTER_TWO, word >> 16)
        ^ entry(&AFTER_ONE, word >> 24)
}

/// Sixteen bytes' steps, of a checksum that four bytes are already XORed into.
#[inline]
fn after_sixteen(word: u32) -> u32
    ensures { result ≡ byte_steps 16 word }
{
    entry(&AFTER_SIXTEEN, word)
        ^ entry(&AFTER_FIFTEEN, word >> 8)
        ^ entry(&AFTER_FOURTEEN, word >> 16)
        ^ entry(&AFTER_THIRTEEN, word >> 24)
}

/// The table's entry at the low byte of the word.
#[inline]
fn entry(table: &[u32; 256], word: u32) -> u32
    ensures { result ≡ slice_index table.now (word % 256) }
{
    table[(word % 256) as usize]
}
