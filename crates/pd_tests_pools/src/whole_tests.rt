//! Checks up to the rules of the whole pool.

ghost use Rattle.std.specs.Prelude.{◌+◌, ◌*◌, ◌≤◌};

use crate::asked::{WHOLE_CHECK, expect_report, expect_told};
use crate::stored_tests::{pool_of_two_devices, with_count};
use pd_bitmap::{seal_bitmap, set_two_bits};
use pd_crc::seal;
use pd_kinds::{Block, put_u32, put_u64};
use pd_node::{write_inner, write_leaf};
use pd_samples::pool::{
    NODE_SALT, bitmap, empty_leaf, empty_super, held_copy, index_entry, map_root,
    pool_of_one_mapping,
};
use pd_samples::runs::{Failing, NOTHING_FAILS, restored, run};
use pd_supers::{ThinSuper, write_thin_super};
use pd_value::{Count, Details, IndexEntry, Root};
use std::alloc::{AllocError, Global};
use std::process::Abort;
use std::test::Fail;

/// The words of the check up to the whole pool.
const WHOLE: &[&str] = &["thin_check", "--until", "whole", "thin.img"];

/// A block with its number.
type Change = (usize, Block);

/// The details of a device with so many mapped blocks.
pub(crate) fn details(mapped: u64) -> Details {
    Details {
        mapped,
        transaction: 0,
        created: 0,
        snapped: 0,
    }
}

/// The superblock of the pool of one mapping, with a held copy in this block, or none at 0.
pub(crate) fn superblock(data_blocks: u64, held_root: u64) -> ThinSuper {
    let mut fields = empty_super();
    fields.held_root = held_root;
    fields.data_map = map_root(data_blocks, 1, 5, 6);
    fields.meta_map = map_root(16, 10, 7, 9);
    fields.mapping_root = 2;
    fields.details_root = 3;
    fields.meta_blocks = 16;
    fields
}

/// A held copy in block 10 that names the mapping tree of the pool, and the details tree with this root.
fn copy_with_details(details_root: u64) -> Block {
    let mut fields = superblock(1, 0);
    fields.details_root = details_root;
    held_copy(10, &fields)
}

/// A details leaf of one device.
#[tactic(auto, unfolding(pd_kinds::specs::Node::is_ascending))]
pub(crate) fn details_leaf(place: u64, id: u64, mapped: u64) -> Block {
    write_leaf(place, &[(id, details(mapped))])
}

/// Checks the pool of one mapping with these blocks changed, up to the whole pool.
fn expect_changed(
    rt: &impl Abort,
    alloc: Global,
    shows: &str,
    changes: &[Change],
    report: &str,
) -> Result<(), AllocError> {
    let mut image = pool_of_one_mapping();
    for (b, block) in changes {
        assert!(rt; *b < 16);
        image[*b] = *block;
    }
    expect_report(rt, alloc, WHOLE, shows, &image, report)
}

#[test]
fn devices_and_their_numbers_of_mapped_blocks(rt: HostRuntime) -> Result<(), Fail> {
    let alloc = rt.alloc();
    let wrong = "fault meta 1 mapped\nfaults 1\n";
    let other = "fault meta 3 device\nfaults 1\n";
    expect_changed(&rt, alloc, "as it is", &[], "clean\n")?;
    let great = [(3, details_leaf(3, 1, 2))];
    expect_changed(&rt, alloc, "a number that is too great", &great, wrong)?;
    let another = [(3, details_leaf(3, 2, 1))];
    expect_changed(&rt, alloc, "another device", &another, other)?;
    let none = [(3, empty_leaf::<Details>(3))];
    expect_changed(&rt, alloc, "no details", &none, other)?;
    Ok(())
}

/// Checks a pool whose devices 1 and 2 have one root, and details with these numbers of mapped blocks.
#[tactic(auto, unfolding(pd_kinds::specs::Node::is_ascending))]
fn expect_shared(
    rt: &impl Abort,
    alloc: Global,
    one: u64,
    two: u64,
    report: &str,
) -> Result<(), AllocError> {
    let roots = write_leaf(2, &[(1, Root(1)), (2, Root(1))]);
    let numbers = write_leaf(3, &[(1, details(one)), (2, details(two))]);
    expect_changed(
        rt,
        alloc,
        "two devices",
        &[(2, roots), (3, numbers)],
        report,
    )
}

#[test]
fn devices_that_share_a_root(rt: HostRuntime) -> Result<(), Fail> {
    let wrong = "fault meta 1 mapped\nfaults 1\n";
    expect_shared(&rt, rt.alloc(), 1, 1, "clean\n")?;
    expect_shared(&rt, rt.alloc(), 1, 2, wrong)?;
    expect_shared(&rt, rt.alloc(), 2, 2, wrong)?;
    Ok(())
}

/// Checks a pool with a held copy in block 10, whose details are the tree with this root, and maybe this leaf in block 11.
fn expect_held(
    rt: &impl Abort,
    alloc: Global,
    details_root: u64,
    leaf: Block,
    report: &str,
) -> Result<(), AllocError> {
    let changes = [
        (0, write_thin_super(&superblock(1, 10))),
        (10, copy_with_details(details_root)),
        (11, leaf),
    ];
    expect_changed(rt, alloc, "a held copy", &changes, report)
}

#[test]
fn the_held_copy_has_devices_of_its_own(rt: HostRuntime) -> Result<(), Fail> {
    let alloc = rt.alloc();
    expect_held(&rt, alloc, 3, Block::zeros(), "clean\n")?;
    let another = details_leaf(11, 2, 1);
    let report = "fault meta 11 device\nfaults 1\n";
    expect_held(&rt, alloc, 11, another, report)?;
    let other_number = details_leaf(11, 1, 0);
    let report = "fault meta 1 mapped\nfaults 1\n";
    expect_held(&rt, alloc, 11, other_number, report)?;
    Ok(())
}

#[test]
#[tactic(auto, unfolding(pd_kinds::specs::Node::is_ascending))]
fn the_index_of_the_data_bitmaps(rt: HostRuntime) -> Result<(), Fail> {
    let alloc = rt.alloc();
    let report = "fault meta 5 index\nfaults 1\n";
    let late = [(5, write_leaf(5, &[(1, index_entry(4, 0))]))];
    expect_changed(&rt, alloc, "not from 0", &late, report)?;
    let none = [(5, empty_leaf::<IndexEntry>(5))];
    expect_changed(&rt, alloc, "empty", &none, report)?;
    let two = write_leaf(5, &[(0, index_entry(4, 0)), (1, index_entry(10, 0))]);
    let long = [(5, two), (10, bitmap(10, 0))];
    expect_changed(&rt, alloc, "one too long", &long, report)?;
    let twice = write_leaf(5, &[(0, index_entry(4, 0)), (1, index_entry(4, 0))]);
    let named_twice = [(0, write_thin_super(&superblock(16321, 0))), (5, twice)];
    let report = "fault meta 4 index\nfaults 1\n";
    expect_changed(&rt, alloc, "a bitmap named twice", &named_twice, report)?;
    let besides = [(5, empty_leaf::<IndexEntry>(5)), (3, details_leaf(3, 2, 1))];
    let report = "fault meta 3 device\nfault meta 5 index\nfaults 2\n";
    expect_changed(&rt, alloc, "another device besides", &besides, report)?;
    Ok(())
}

/// Fills a leaf with so many entries whose keys ascend by 1 from the first one, and whose values begin with 1, where
/// keys begin at byte 32, and values of this size at this byte.
fn fill(block: &mut Block, first: u64, number: usize, values: usize, size: usize)
    requires keys { 32 + 8 * number ≤ 4096 }
    requires values { values + size * number + 8 ≤ 4096 }
{
    put_u32(&mut block.0, 16, number as u32);
    for i in 0..number {
        put_u64(&mut block.0, 32 + 8 * i, first.saturating_add(i as u64));
        put_u64(&mut block.0, values + size * i, 1);
    }
    seal(block, NODE_SALT);
}

/// Two hundred devices over the leaf of one mapping, whose details take two leaves.
#[tactic(auto, unfolding(pd_kinds::specs::Node::is_ascending))]
fn pool_of_two_hundred_devices() -> [Block; 16] {
    let mut image = pool_of_one_mapping();
    image[2] = write_leaf(2, &[(1, Root(1))]);
    fill(&mut image[2], 1, 200, 32 + 8 * 252, 8);
    image[3] = write_inner(3, &[(1, 10), (101, 11)]);
    image[10] = write_leaf(10, &[(1, details(1))]);
    fill(&mut image[10], 1, 100, 32 + 8 * 126, 24);
    image[11] = write_leaf(11, &[(101, details(1))]);
    fill(&mut image[11], 101, 100, 32 + 8 * 126, 24);
    image[8] = bitmap(8, 12);
    set_two_bits(&mut image[8], 1, 3);
    seal_bitmap(&mut image[8], 8);
    image[9] = write_leaf(9, &[(1, Count(200))]);
    image
}

/// Checks that pool with this call of the image failing, which isn't made.
fn expect_no_such_call(
    rt: &impl Abort,
    alloc: Global,
    words: &[&str],
    call: u64,
) -> Result<(), AllocError> {
    let failing = Failing {
        input: Some(call),
        ..NOTHING_FAILS
    };
    let ran = run(alloc, words, &pool_of_two_hundred_devices(), failing)?;
    assert!(rt; ran.status == 0, "{call}");
    assert!(rt; ran.out.bytes() == "clean\n".as_bytes(), "{call}");
    Ok(())
}

// There are twelve blocks in their roles, so at most 61 reads follow the call that attaches the image, and 73 of the
// whole check.
#[test]
fn two_hundred_devices_over_one_leaf(rt: HostRuntime) -> Result<(), Fail> {
    expect_no_such_call(&rt, rt.alloc(), WHOLE, 63)?;
    expect_no_such_call(&rt, rt.alloc(), WHOLE_CHECK, 75)?;
    Ok(())
}

// Checks in which leaks pass.

/// The words of a check in which leaks pass, and of the same up to stages.
const PASSING: &[&str] = &["thin_check", "--ignore-non-fatal-errors", "thin.img"];

const PASSING_TO_COUNTS: &[&str] = &[
    "thin_check",
    "--until",
    "counts",
    "--ignore-non-fatal-errors",
    "thin.img",
];

const PASSING_TO_WHOLE: &[&str] = &[
    "thin_check",
    "--ignore-non-fatal-errors",
    "--until",
    "whole",
    "x",
];

/// The same of the other kinds, and words with it twice.
const PASSING_CACHE: &[&str] = &["cache_check", "--ignore-non-fatal-errors", "x"];

const PASSING_ERA: &[&str] = &["era_check", "x", "--ignore-non-fatal-errors"];

const TWICE: &[&str] = &[
    "thin_check",
    "--ignore-non-fatal-errors",
    "--ignore-non-fatal-errors",
    "x",
];

/// A report of a leak.
const LEAK: &str = "fault data 0 leak stored 2 references 1\nfaults 1\n";

/// A pool of 1501 data blocks, of which the last is mapped.
const LAST_MAPPED: &str =
    "thin 1\npool 00000000-0000-0000-0000-000000000000 0 0 128 1501\ndevice 1 1 0 0 0\nmap 0 1500 1 0\nend\n";

#[test]
fn a_leak_passes_with_the_same_report(rt: HostRuntime) -> Result<(), Fail> {
    let alloc = rt.alloc();
    let mut image = pool_of_one_mapping();
    image[4] = with_count(4, 1, 0, 2);
    expect_report(&rt, alloc, WHOLE_CHECK, "a leak fails", &image, LEAK)?;
    expect_told(&rt, alloc, PASSING, "a leak passes", &image, 0, LEAK)?;
    expect_told(&rt, alloc, PASSING_TO_COUNTS, "to counts", &image, 0, LEAK)?;
    Ok(())
}

#[test]
fn a_clean_pool_passes_and_a_short_count_does_not(rt: HostRuntime) -> Result<(), Fail> {
    let alloc = rt.alloc();
    let image = pool_of_one_mapping();
    expect_told(&rt, alloc, PASSING, "clean", &image, 0, "clean\n")?;
    let short = "fault meta 1 short stored 1 references 2\nfaults 1\n";
    expect_told(
        &rt,
        alloc,
        PASSING,
        "short",
        &pool_of_two_devices(1),
        1,
        short,
    )?;
    Ok(())
}

/// Each data block of `LAST_MAPPED` but the last leaks, and the last has this count.
fn leaking(rt: &impl Abort, alloc: Global, last: u8) -> Result<Vec<Block>, AllocError>
    requires { last ≤ 3 }
{
    let mut image = restored(alloc, LAST_MAPPED, 16)?;
    assert!(rt; image.len() == 16);
    image[4] = if last == 1 {
        bitmap(4, 1501)
    } else {
        with_count(4, 1501, 1500, last)
    };
    Ok(image)
}

/// How many lines the bytes are.
fn lines_of(bytes: &[u8]) -> usize {
    let mut lines: usize = 0;
    for byte in bytes {
        if *byte == b'\n' {
            lines = lines.saturating_add(1);
        }
    }
    lines
}

/// Checks that pool: a thousand faults are told, the last of them and the number of all by this.
fn expect_leaks(
    rt: &impl Abort,
    alloc: Global,
    last: u8,
    status: u8,
    end: &str,
) -> Result<(), AllocError>
    requires { last ≤ 3 }
{
    let image = leaking(rt, alloc, last)?;
    let ran = run(alloc, PASSING, image.as_slice(), NOTHING_FAILS)?;
    assert!(rt; ran.status == status, "{end}");
    let told = ran.out.bytes();
    assert!(rt; told.starts_with("fault data 0 leak stored 1 references 0\n".as_bytes()));
    assert!(rt; told.ends_with(end.as_bytes()), "{end}");
    assert!(rt; lines_of(told) == 1001, "{end}");
    Ok(())
}

// The status speaks of the faults that aren't told, too.
#[test]
fn the_status_counts_leaks_past_the_first_thousand(rt: HostRuntime) -> Result<(), Fail> {
    let leaks = "fault data 999 leak stored 1 references 0\nfaults 1500\n";
    expect_leaks(&rt, rt.alloc(), 1, 0, leaks)?;
    let short = "fault data 999 leak stored 1 references 0\nfaults 1501\n";
    expect_leaks(&rt, rt.alloc(), 0, 1, short)?;
    Ok(())
}

/// Checks by words that spell no request.
fn expect_refused(rt: &impl Abort, alloc: Global, words: &[&str]) -> Result<(), AllocError> {
    let ran = run(alloc, words, &pool_of_one_mapping(), NOTHING_FAILS)?;
    assert!(rt; ran.status == 2);
    Ok(())
}

#[test]
fn leaks_pass_only_in_whole_checks(rt: HostRuntime) -> Result<(), Fail> {
    expect_refused(&rt, rt.alloc(), PASSING_TO_WHOLE)?;
    expect_refused(&rt, rt.alloc(), TWICE)?;
    let other = run(
        rt.alloc(),
        PASSING_CACHE,
        &pool_of_one_mapping(),
        NOTHING_FAILS,
    )?;
    assert!(rt; other.status == 1);
    let other = run(
        rt.alloc(),
        PASSING_ERA,
        &pool_of_one_mapping(),
        NOTHING_FAILS,
    )?;
    assert!(rt; other.status == 1);
    Ok(())
}
