//! Checks and dumps of caches, sound and broken ones.

use crate::cache_tests::Change::{
    Blocks, Damage, Eighth, First, GapIndex, Hints, Magic, Older, OneHint, SevenWords, ShortIndex,
    Version,
};
use pd_array::{Word, write_array};
use pd_bitmap::index_entry;
use pd_kinds::{Block, Kind, u64_at};
use pd_node::write_leaf;
use pd_samples::expected::{
    Trouble, expect, expect_device_faults, expect_dumped, expect_fault_in_notes, expect_faults_of,
    made, status_in,
};
use pd_samples::pool::{damaged, resealed};
use pd_supers::{read_cache_super, write_cache_super};
use pd_value::Root;
use std::alloc::Global;
use std::test::Fail;

/// The words of a restore of a cache in the first version of the metadata.
pub(crate) const FIRST: &[&str] = &[
    "cache_restore",
    "--metadata-version",
    "1",
    "-i",
    "text",
    "-o",
    "image",
];

/// The same in the second version.
pub(crate) const SECOND: &[&str] = &[
    "cache_restore",
    "--metadata-version",
    "2",
    "-i",
    "text",
    "-o",
    "image",
];

/// A cache of 510 blocks with hints, of which the first and the last block are mapped, the last one dirty.
pub(crate) const TWO_MAPPED: &str =
    "cache 1\ncache 00000000-0000-0000-0000-000000000000 128 510 1 736d7100000000000000000000000000 2 0 0 4\nmap 0 7 0 5\n\
     map 509 8 1 6\nend\n";

/// A cache of 40000 blocks with hints, of which so few are mapped that most blocks of its arrays have none. The last mapping of
/// one array block and the first of the next are among them, and those where a block of hints and one of dirty bits ends.
const FAR_APART: &str =
    "cache 1\ncache 00000000-0000-0000-0000-000000000000 128 40000 1 736d7100000000000000000000000000 2 0 0 4\nmap 0 1 0 11\n\
     map 508 2 1 12\nmap 509 3 0 13\nmap 1017 4 1 14\nmap 1018 5 0 15\nmap 2099 6 1 16\nmap 32575 7 0 17\nmap 32576 8 1 18\n\
     map 39999 9 1 19\nend\n";

/// A cache without blocks, which wasn't shut down cleanly.
pub(crate) const EMPTY: &str =
    "cache 1\ncache 00000000-0000-0000-0000-000000000000 128 0 0 00000000000000000000000000000000 0 0 0 0\nend\n";

/// What the checksum of an array block is XORed with.
const ARRAY_SALT: u32 = 595846735;

/// Where the words of an array block begin.
const WORDS_AT: usize = 24;

/// The words of a check.
const CHECK: &[&str] = &["cache_check", "image"];

/// The words of a dump.
const DUMP: &[&str] = &["cache_dump", "image"];

/// How a block is changed.
#[derive(Clone, Copy)]
pub(crate) enum Change {
    /// The first eight bytes of an array's words.
    First(u64),
    /// Their eighth eight bytes.
    Eighth(u64),
    /// It is an array's block of one hint.
    OneHint,
    /// It is an array's block of seven words of dirty bits.
    SevenWords,
    /// It is an index of one block, or of two with a gap.
    ShortIndex,
    GapIndex,
    /// One bit of it is another one.
    Damage,
    /// A superblock's magic number.
    Magic,
    /// Its version, without dirty bits.
    Version(u32),
    /// The root of the hints, and their size.
    Hints(u64, u32),
    /// Its number of cache blocks.
    Blocks(u32),
    /// It is the root of an older mapping array, over the same words.
    Older,
}

/// A superblock with this version, and without dirty bits.
fn of_version(first: &Block, version: u32) -> Block {
    let mut fields = read_cache_super(first);
    fields.version = version;
    fields.dirty_root = 0;
    write_cache_super(&fields)
}

/// A superblock with these hints, of the second version.
fn with_hints(first: &Block, root: u64, size: u32) -> Block {
    let mut fields = read_cache_super(first);
    fields.version = 2;
    fields.hint_root = root;
    fields.hint_size = size;
    write_cache_super(&fields)
}

/// A superblock with so many cache blocks.
fn with_blocks(first: &Block, blocks: u32) -> Block {
    let mut fields = read_cache_super(first);
    fields.version = 2;
    fields.blocks = blocks;
    write_cache_super(&fields)
}

/// A block that is changed so.
#[tactic(auto, unfolding(pd_kinds::specs::Node::is_ascending))]
fn changed(block: &Block, change: Change) -> Block {
    match change {
        First(value) => resealed(*block, ARRAY_SALT, WORDS_AT, value),
        Eighth(value) => resealed(*block, ARRAY_SALT, WORDS_AT + 56, value),
        OneHint => write_array(4, Word::Four, &[9]),
        SevenWords => write_array(6, Word::Eight, &[0, 0, 0, 0, 0, 0, 0]),
        ShortIndex => write_leaf(3, &[(0, Root(1))]),
        GapIndex => write_leaf(3, &[(0, Root(1)), (2, Root(2))]),
        Damage => damaged(*block, 100),
        Magic => resealed(*block, Kind::Cache.salt(), 32, 5),
        Version(version) => of_version(block, version),
        Hints(root, size) => with_hints(block, root, size),
        Blocks(blocks) => with_blocks(block, blocks),
        Older => write_leaf(13, &[(0, Root(1)), (1, Root(2))]),
    }
}

/// `TWO_MAPPED` in this version, with these blocks changed.
pub(crate) fn changed_cache(
    alloc: Global,
    version: &[&str],
    changes: &[(usize, Change)],
) -> Result<Vec<Block>, Fail> {
    let mut image = made(alloc, version, TWO_MAPPED, 16)?;
    for (b, change) in changes {
        if *b < image.len() {
            image[*b] = changed(&image[*b], *change);
        }
    }
    Ok(image)
}

/// A version, the blocks that are changed, and the fault that a check reports, or the text of a dump.
type Row = (
    &'static [&'static str],
    &'static [(usize, Change)],
    &'static str,
);

/// Caches that are clean.
const CLEAN_ROWS: &[Row] = &[
    // In the second version the bit of the mapping word isn't looked at. In the first one it is.
    (SECOND, &[(6, Eighth(0))], CLEAN),
    (SECOND, &[(6, Eighth(0)), (2, First(524291))], CLEAN),
    (FIRST, &[(2, First(524289))], CLEAN),
    // An invalid word has no line, no hint and no origin.
    (FIRST, &[(2, First(0))], ONE_MAPPED),
    (FIRST, &[(2, First(458754))], ONE_MAPPED),
    // Hints past the end of their array are 0.
    (FIRST, &[(4, OneHint)], ONE_HINT),
];

/// Caches that break a rule.
const ROWS: &[Row] = &[
    // Two origins are one.
    (FIRST, &[(2, First(458755))], "3 origin"),
    // A mapping array that is a word short, and an index that leaves a block out.
    (FIRST, &[(3, ShortIndex)], "3 length"),
    (FIRST, &[(3, GapIndex)], "3 index"),
    // A hint block with a changed bit.
    (FIRST, &[(4, Damage)], "4 checksum"),
    // Dirty bits have a bit for each block.
    (SECOND, &[(6, SevenWords)], "7 length"),
    // A version that isn't known, no dirty bits in the second version, a root outside, and no hints.
    (SECOND, &[(0, Version(3))], "0 version"),
    (SECOND, &[(0, Version(2))], "0 pointer"),
    (SECOND, &[(0, Hints(16, 4))], "0 pointer"),
    (SECOND, &[(0, Hints(0, 0))], TWO_LEAKS),
];

/// The text where the last block isn't dirty, where there is none, and where there is one hint.
const CLEAN: &str =
    "cache 1\ncache 00000000-0000-0000-0000-000000000000 128 510 1 736d7100000000000000000000000000 2 0 0 4\nmap 0 7 0 5\n\
     map 509 8 0 6\nend\n";

pub(crate) const ONE_MAPPED: &str =
    "cache 1\ncache 00000000-0000-0000-0000-000000000000 128 510 1 736d7100000000000000000000000000 2 0 0 4\nmap 0 7 0 5\nend\n";

const ONE_HINT: &str =
    "cache 1\ncache 00000000-0000-0000-0000-000000000000 128 510 1 736d7100000000000000000000000000 2 0 0 4\nmap 0 7 0 9\n\
     map 509 8 1 0\nend\n";

const TWO_LEAKS: &str = "4 leak stored 1 references 0\nfault meta 5 leak stored 1 references 0";

/// Checks and dumps a changed cache.
fn expect_clean(alloc: Global, row: &Row) -> Result<(), Fail> {
    let (version, changes, text) = *row;
    let image = changed_cache(alloc, version, changes)?;
    expect_dumped(alloc, ("cache_check", "cache_dump"), image.as_slice(), text)
}

#[test]
fn changed_caches_are_dumped_as_they_are(rt: HostRuntime) -> Result<(), Fail> {
    for row in CLEAN_ROWS {
        expect_clean(rt.alloc(), row)?;
    }
    Ok(())
}

/// Checks a cache that breaks a rule.
fn expect_broken(alloc: Global, row: &Row) -> Result<(), Fail> {
    let (version, changes, faults) = *row;
    let image = changed_cache(alloc, version, changes)?;
    expect_faults_of(alloc, "cache_check", image.as_slice(), faults)
}

#[test]
fn rules_that_caches_break(rt: HostRuntime) -> Result<(), Fail> {
    for row in ROWS {
        expect_broken(rt.alloc(), row)?;
    }
    Ok(())
}

/// Restores a text onto so many blocks, and checks and dumps the cache.
fn expect_same(alloc: Global, words: &[&str], text: &str, blocks: usize) -> Result<(), Fail> {
    let image = made(alloc, words, text, blocks)?;
    expect_dumped(alloc, ("cache_check", "cache_dump"), image.as_slice(), text)
}

#[test]
fn restored_caches_are_clean_and_dumped_as_they_were(rt: HostRuntime) -> Result<(), Fail> {
    for words in [FIRST, SECOND] {
        expect_same(rt.alloc(), words, TWO_MAPPED, 16)?;
        expect_same(rt.alloc(), words, EMPTY, 16)?;
        expect_same(rt.alloc(), words, FAR_APART, 140)?;
    }
    Ok(())
}

/// The version, the roots, the used blocks and the words of `TWO_MAPPED` in the first version.
const FIRST_NUMBERS: &[u64] = &[1, 3, 5, 6, 10, 7, 8, 9, 458753, 524291];

#[test]
fn words_and_roots_of_the_first_version(rt: HostRuntime) -> Result<(), Fail> {
    let image = made(rt.alloc(), FIRST, TWO_MAPPED, 16)?;
    let fields = read_cache_super(&image[0]);
    let found = [
        u64::from(fields.version),
        fields.mapping_root,
        fields.hint_root,
        fields.discard_root,
        fields.meta_map.allocated,
        fields.meta_map.bitmap_root,
        index_entry(&image[7], 0).block,
        fields.meta_map.overflow_root,
        u64_at(&image[1].0, WORDS_AT),
        u64_at(&image[2].0, WORDS_AT),
    ];
    assert!(rt; found.as_slice() == FIRST_NUMBERS);
    Ok(())
}

/// The same in the second version, with the dirty bits.
const SECOND_NUMBERS: &[u64] = &[
    2,
    3,
    5,
    7,
    8,
    12,
    9,
    10,
    11,
    458753,
    524289,
    2305843009213693952,
];

#[test]
fn words_and_roots_of_the_second_version(rt: HostRuntime) -> Result<(), Fail> {
    let image = made(rt.alloc(), SECOND, TWO_MAPPED, 16)?;
    let fields = read_cache_super(&image[0]);
    let found = [
        u64::from(fields.version),
        fields.mapping_root,
        fields.hint_root,
        fields.dirty_root,
        fields.discard_root,
        fields.meta_map.allocated,
        fields.meta_map.bitmap_root,
        index_entry(&image[9], 0).block,
        fields.meta_map.overflow_root,
        u64_at(&image[1].0, WORDS_AT),
        u64_at(&image[2].0, WORDS_AT),
        u64_at(&image[6].0, WORDS_AT + 56),
    ];
    assert!(rt; found.as_slice() == SECOND_NUMBERS);
    Ok(())
}

#[test]
fn a_dump_reports_faults_and_says_which_object_failed(rt: HostRuntime) -> Result<(), Fail> {
    let alloc = rt.alloc();
    let broken = changed_cache(alloc, FIRST, &[(4, Damage)])?;
    let report = "fault meta 4 checksum\nfaults 1\n";
    expect_fault_in_notes(alloc, DUMP, broken.as_slice(), report)?;
    let image = made(alloc, FIRST, TWO_MAPPED, 16)?;
    let status = status_in(alloc, DUMP, image.as_slice(), Trouble::Out, 1)?;
    assert!(rt; status == 6);
    Ok(())
}

/// Checks and dumps a restored cache with each call of the device failing in turn.
fn expect_faults(alloc: Global, words: &[&str]) -> Result<(), Fail> {
    let image = made(alloc, words, TWO_MAPPED, 16)?;
    expect_device_faults(alloc, CHECK, image.as_slice(), 200)?;
    expect_device_faults(alloc, DUMP, image.as_slice(), 200)
}

#[test]
fn each_call_of_the_device_of_a_cache_may_fail(rt: HostRuntime) -> Result<(), Fail> {
    expect_faults(rt.alloc(), FIRST)?;
    expect_faults(rt.alloc(), SECOND)?;
    Ok(())
}

/// Checks caches up to this stage, a sound one and one whose superblock breaks a rule.
fn expect_stage(alloc: Global, stage: &str) -> Result<(), Fail> {
    let words = ["cache_check", "--until", stage, "image"];
    let image = changed_cache(alloc, SECOND, &[])?;
    expect(alloc, &words, image.as_slice(), 0, "clean\n")?;
    let broken = changed_cache(alloc, SECOND, &[(0, Magic)])?;
    expect(
        alloc,
        &words,
        broken.as_slice(),
        1,
        "fault meta 0 magic\nfaults 1\n",
    )
}

// What a superblock breaks is reported by each of them.
#[test]
fn stages_of_a_check(rt: HostRuntime) -> Result<(), Fail> {
    for stage in ["super", "walk", "order", "whole", "counts"] {
        expect_stage(rt.alloc(), stage)?;
    }
    Ok(())
}
