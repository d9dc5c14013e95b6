//! Checks, dumps and queries of era targets, sound and broken ones.

ghost use Rattle.std.specs.Prelude.{◌<◌};

use crate::era_tests::Change::{
    CurrentBits, Damage, LateIndex, LateWriteset, NoCurrent, OneMoreBit, ShortArray, ShortWriteset,
    Version,
};
use pd_array::{Word, write_array};
use pd_bitmap::{seal_bitmap, set_two_bits};
use pd_crc::seal;
use pd_kinds::{Block, EraSuper, Kind, SmRoot, put_u32, put_u64};
use pd_node::{write_inner, write_leaf};
use pd_samples::expected::{
    Trouble, expect, expect_device_faults, expect_dumped, expect_fault_in_notes, expect_faults_of,
    expect_said, made, status_in,
};
use pd_samples::pool::{NODE_SALT, bitmap, damaged, empty_leaf, index, index_entry, resealed};
use pd_samples::runs::run;
use pd_supers::write_era_super;
use pd_value::{Count, Root, Writeset};
use std::alloc::Global;
use std::test::Fail;

/// The tool that checks.
const CHECK: &str = "era_check";

/// The words of a dump.
const DUMP: &[&str] = &["era_dump", "image"];

/// Both tools.
const TOOLS: (&str, &str) = ("era_check", "era_dump");

/// Asks for the blocks of that target that were written since an era.
fn expect_since(alloc: Global, era: &str, lines: &str) -> Result<(), Fail> {
    let words = ["era_invalidate", "--written-since", era, "image"];
    expect(alloc, &words, &written_target(), 0, lines)
}

#[test]
fn blocks_that_were_written_since_an_era(rt: HostRuntime) -> Result<(), Fail> {
    expect_since(rt.alloc(), "3", "written 3 1\nwritten 64 1\n")?;
    expect_since(rt.alloc(), "9", "written 64 1\n")?;
    expect_since(rt.alloc(), "10", "")?;
    expect_since(rt.alloc(), "0", "written 0 100\n")?;
    Ok(())
}

/// Restores a text onto so many blocks, and checks and dumps the target.
fn expect_same(alloc: Global, text: &str, blocks: usize) -> Result<(), Fail> {
    let image = made(alloc, ERA, text, blocks)?;
    expect_dumped(alloc, TOOLS, image.as_slice(), text)
}

#[test]
fn a_dump_is_restored_to_a_target_that_dumps_the_same(rt: HostRuntime) -> Result<(), Fail> {
    expect_same(rt.alloc(), WRITTEN, 7)?;
    expect_same(rt.alloc(), EMPTY, 6)?;
    Ok(())
}

/// Blocks of three parts, as a dump takes 1048576 at once: a run goes over the end of the first, and one ends with the second.
const PARTS: &str =
    "era 1\nera 00000000-0000-0000-0000-000000000000 128 2097200 9\nrun 0 1000000 3\nrun 1000000 100000 5\nrun 1100000 997152 7\n\
     run 2097152 48 2\nend\n";

/// What of these blocks was written since an era.
const PARTS_SINCE: &[(&str, &str)] = &[
    ("5", "written 1000000 1097152\n"),
    ("3", "written 0 2097152\n"),
    ("2", "written 0 2097200\n"),
    ("7", "written 1100000 997152\n"),
];

#[test]
fn runs_go_over_the_ends_of_parts(rt: HostRuntime) -> Result<(), Fail> {
    let image = made(rt.alloc(), ERA, PARTS, 2100)?;
    expect_dumped(rt.alloc(), TOOLS, image.as_slice(), PARTS)?;
    for (era, lines) in PARTS_SINCE {
        let words = ["era_invalidate", "--written-since", *era, "image"];
        expect(rt.alloc(), &words, image.as_slice(), 0, lines)?;
    }
    Ok(())
}

/// How a block of that target is changed.
#[derive(Clone, Copy)]
enum Change {
    /// The bits of the current writeset.
    CurrentBits(u32),
    /// The version.
    Version(u32),
    /// There is no current writeset.
    NoCurrent,
    /// The era array has a word less.
    ShortArray,
    /// A writeset has less bits than its array.
    ShortWriteset,
    /// A writeset's era is past the last one.
    LateWriteset,
    /// A writeset's array begins with its second block.
    LateIndex,
    /// A bit past those of the current writeset is set, too.
    OneMoreBit,
    /// One bit of the current writeset's block is another one.
    Damage,
}

/// The superblock of that target, with these in place of its own.
fn super_of(version: u32, current_bits: u32, current_root: u64) -> Block {
    write_era_super(&EraSuper {
        version,
        current_bits,
        current_root,
        ..SUPER
    })
}

/// The block that is changed so, and its place.
#[tactic(auto, unfolding(pd_kinds::specs::Node::is_ascending))]
fn changed(change: Change) -> (usize, Block) {
    let short = Writeset { bits: 60, root: 7 };
    match change {
        CurrentBits(bits) => (0, super_of(1, bits, 11)),
        Version(version) => (0, super_of(version, 100, 11)),
        NoCurrent => (0, super_of(1, 100, 0)),
        ShortArray => (1, zero_words(1, 99)),
        ShortWriteset => (3, write_leaf(3, &[(3, short), (5, writeset(9))])),
        LateWriteset => (
            3,
            write_leaf(3, &[(3, writeset(7)), (4294967296, writeset(9))]),
        ),
        LateIndex => (7, write_leaf(7, &[(1, Root(8))])),
        OneMoreBit => (12, write_array(12, Word::Eight, &[0, 65537])),
        Damage => (12, damaged(write_array(12, Word::Eight, &[0, 1]), 100)),
    }
}

/// That target with these blocks changed.
fn changed_target(changes: &[Change]) -> [Block; 16] {
    let mut image = written_target();
    for change in changes {
        let (b, block) = changed(*change);
        if b < 16 {
            image[b] = block;
        }
    }
    image
}

/// What is changed of a target that is clean and is dumped the same: nothing, or bits past those of a writeset.
const CLEAN_ROWS: &[&[Change]] = &[&[], &[CurrentBits(70), OneMoreBit]];

/// What is changed of that target, and the fault that a check reports.
const ROWS: &[(&[Change], &str)] = &[
    (&[CurrentBits(60), OneMoreBit], "11 length"),
    (&[ShortArray], "2 length"),
    (&[ShortWriteset], "7 length"),
    (&[LateIndex], "7 index"),
    (&[LateWriteset], "3 beyond"),
    (&[Damage], "12 checksum"),
    (&[Version(2)], "0 version"),
    (&[NoCurrent], TWO_LEAKS),
];

const TWO_LEAKS: &str = "11 leak stored 1 references 0\nfault meta 12 leak stored 1 references 0";

#[test]
fn eras_are_the_greatest_of_all_writesets(rt: HostRuntime) -> Result<(), Fail> {
    for changes in CLEAN_ROWS {
        expect_dumped(rt.alloc(), TOOLS, &changed_target(changes), WRITTEN)?;
    }
    Ok(())
}

#[test]
fn rules_that_targets_break(rt: HostRuntime) -> Result<(), Fail> {
    for (changes, faults) in ROWS {
        expect_faults_of(rt.alloc(), CHECK, &changed_target(changes), faults)?;
    }
    Ok(())
}

/// A target with a metadata snapshot, a copy of its superblock with trees of its own: an era array in block 14, and the
/// writeset of block 7, of so many bits, in block 15.
#[tactic(auto, unfolding(pd_kinds::specs::Node::is_ascending))]
fn target_with_snapshot(bits: u32) -> [Block; 18] {
    let mut image = [Block::zeros(); 18];
    image[..16].copy_from_slice(&written_target());
    let mut fields = SUPER;
    fields.snap_root = 13;
    fields.meta_map.blocks = 18;
    fields.meta_map.allocated = 17;
    image[0] = write_era_super(&fields);
    let copy = EraSuper {
        array_root: 14,
        writesets_root: 15,
        ..SUPER
    };
    image[13] = resealed(write_era_super(&copy), Kind::Era.salt(), 8, 13);
    image[14] = write_leaf(14, &[(0, Root(16))]);
    image[15] = write_leaf(15, &[(7, Writeset { bits, root: 7 })]);
    image[16] = write_array(16, Word::Four, &[7]);
    image[4] = index(4, &[index_entry(5, 1)]);
    image[5] = bitmap(5, 17);
    set_two_bits(&mut image[5], 7, 2);
    seal_bitmap(&mut image[5], 5);
    image
}

#[test]
fn trees_of_a_snapshot_are_checked_and_do_not_count(rt: HostRuntime) -> Result<(), Fail> {
    expect_dumped(rt.alloc(), TOOLS, &target_with_snapshot(100), WRITTEN)?;
    expect_faults_of(rt.alloc(), CHECK, &target_with_snapshot(60), "7 length")?;
    Ok(())
}

/// Puts an era and its writeset, of a hundred bits and the root 7, into these places.
fn put_writeset(block: &mut Block, key_at: usize, value_at: usize, era: u64)
    requires key { key_at < 4000 }
    requires value { value_at < 4080 }
{
    put_u64(&mut block.0, key_at, era);
    put_u32(&mut block.0, value_at, 100);
    put_u64(&mut block.0, value_at + 4, 7);
}

/// A leaf of two hundred writesets of the root 7, of the eras from this one on.
#[tactic(auto, unfolding(pd_kinds::specs::Node::is_ascending))]
fn two_hundred_writesets(place: u64, first: u64) -> Block
    requires { first < 2000 }
{
    let mut block = write_leaf(place, &[(first, writeset(7))]);
    for i in 0..200 {
        put_writeset(&mut block, 32 + 8 * i, 1640 + 12 * i, first + i as u64);
    }
    put_u32(&mut block.0, 16, 200);
    seal(&mut block, NODE_SALT);
    block
}

/// A target with a thousand archived writesets over one array.
#[tactic(auto, unfolding(pd_kinds::specs::Node::is_ascending))]
fn thousand_writesets() -> [Block; 16] {
    let mut image = written_target();
    image[3] = write_inner(3, &[(1, 9), (201, 10), (401, 11), (601, 12), (801, 13)]);
    image[9] = two_hundred_writesets(9, 1);
    image[10] = two_hundred_writesets(10, 201);
    image[11] = two_hundred_writesets(11, 401);
    image[12] = two_hundred_writesets(12, 601);
    image[13] = two_hundred_writesets(13, 801);
    image[4] = index(4, &[index_entry(5, 2)]);
    image[5] = bitmap(5, 14);
    set_two_bits(&mut image[5], 7, 3);
    seal_bitmap(&mut image[5], 5);
    image[6] = write_leaf(6, &[(7, Count(1000))]);
    let mut fields = SUPER;
    fields.era = 2000;
    fields.current_root = 0;
    fields.meta_map.allocated = 14;
    image[0] = write_era_super(&fields);
    image
}

#[test]
fn a_thousand_writesets_over_one_array(rt: HostRuntime) -> Result<(), Fail> {
    let image = thousand_writesets();
    // Fourteen blocks are in one role each, so at most 85 reads follow the call that attaches the image: a failure of the
    // next call shows nowhere.
    let ran = run(rt.alloc(), &[CHECK, "image"], &image, Trouble::Input.at(87))?;
    expect_said(&ran, 0, "clean\n", "")?;
    let text =
        "era 1\nera 00000000-0000-0000-0000-000000000000 128 100 2000\nrun 0 3 0\nrun 3 1 1000\nrun 4 96 0\nend\n";
    // A dump reads that array once, and not for each writeset: it makes fewer than two hundred calls.
    let ran = run(rt.alloc(), DUMP, &image, Trouble::Input.at(200))?;
    expect_said(&ran, 0, text, "")?;
    Ok(())
}

/// The words of a query.
const SINCE: &[&str] = &["era_invalidate", "--written-since", "5", "image"];

#[test]
fn each_call_of_the_device_of_a_target_may_fail(rt: HostRuntime) -> Result<(), Fail> {
    let image = written_target();
    expect_device_faults(rt.alloc(), &[CHECK, "image"], &image, 300)?;
    expect_device_faults(rt.alloc(), DUMP, &image, 300)?;
    expect_device_faults(rt.alloc(), SINCE, &image, 300)?;
    Ok(())
}

#[test]
fn a_query_reports_faults_and_says_that_out_failed(rt: HostRuntime) -> Result<(), Fail> {
    let alloc = rt.alloc();
    let broken = changed_target(&[Damage]);
    let image = written_target();
    let report = "fault meta 12 checksum\nfaults 1\n";
    for words in [DUMP, SINCE] {
        expect_fault_in_notes(alloc, words, &broken, report)?;
        let status = status_in(alloc, words, &image, Trouble::Out, 1)?;
        assert!(rt; status == 6);
    }
    Ok(())
}

// Era targets in memory, put together from written blocks.

/// The salt of the checksums of array blocks (drivers/md/persistent-data/dm-array.c).
const ARRAY_SALT: u32 = 595846735;

/// The words of a restore of an era target.
pub(crate) const ERA: &[&str] = &["era_restore", "-i", "text", "-o", "image"];

/// A hundred blocks, of which block 64 was written in the current era, and block 3 in the eras 3 and 5.
pub(crate) const WRITTEN: &str =
    "era 1\nera 00000000-0000-0000-0000-000000000000 128 100 9\nrun 0 3 0\nrun 3 1 5\nrun 4 60 0\nrun 64 1 9\nrun 65 35 0\nend\n";

/// No block.
pub(crate) const EMPTY: &str = "era 1\nera 00000000-0000-0000-0000-000000000000 128 0 1\nend\n";

/// The superblock of those blocks, whose writesets have trees of their own.
pub(crate) const SUPER: EraSuper = EraSuper {
    flags: 0,
    uuid: [0; 16],
    version: 1,
    meta_map: SmRoot {
        blocks: 16,
        allocated: 13,
        bitmap_root: 4,
        overflow_root: 6,
    },
    block_size: 128,
    meta_block_size: 8,
    blocks: 100,
    era: 9,
    current_bits: 100,
    current_root: 11,
    writesets_root: 3,
    array_root: 2,
    snap_root: 0,
};

/// A writeset of a hundred blocks with this root.
pub(crate) fn writeset(root: u64) -> Writeset {
    Writeset { bits: 100, root }
}

/// A block of an array, of so many words of four bytes that are all 0.
pub(crate) fn zero_words(place: u64, words: u32) -> Block {
    let mut block = Block::zeros();
    put_u32(&mut block.0, 4, 1018);
    put_u32(&mut block.0, 8, words);
    put_u32(&mut block.0, 12, 4);
    put_u64(&mut block.0, 16, place);
    seal(&mut block, ARRAY_SALT);
    block
}

/// The sixteen blocks of that target, of which thirteen are used: the era array's words are 0, and there are two archived
/// writesets and the current one.
#[tactic(auto, unfolding(pd_kinds::specs::Node::is_ascending))]
pub(crate) fn written_target() -> [Block; 16] {
    let mut image = [Block::zeros(); 16];
    image[0] = write_era_super(&SUPER);
    image[1] = zero_words(1, 100);
    image[2] = write_leaf(2, &[(0, Root(1))]);
    image[3] = write_leaf(3, &[(3, writeset(7)), (5, writeset(9))]);
    image[4] = index(4, &[index_entry(5, 3)]);
    image[5] = bitmap(5, 13);
    image[6] = empty_leaf::<Count>(6);
    image[7] = write_leaf(7, &[(0, Root(8))]);
    image[8] = write_array(8, Word::Eight, &[8, 0]);
    image[9] = write_leaf(9, &[(0, Root(10))]);
    image[10] = write_array(10, Word::Eight, &[8, 0]);
    image[11] = write_leaf(11, &[(0, Root(12))]);
    image[12] = write_array(12, Word::Eight, &[0, 1]);
    image
}
