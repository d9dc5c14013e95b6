//! Searches for the roots of pools whose superblock is lost: which trees are taken, what is refused, and what the output
//! holds then.

use crate::lost::Lost::{
    Copies, DamagedMappings, EarlierMappings, EarlierTop, FewerAndLater, FewerMappings, HeldCopy,
    LaterDetails, LaterInTransaction, LaterSum, LaterThanDetails, LaterTime, LaterTop,
    MoreMappings, OneFingerprint, OneMapping, OtherDevice, OtherNumber, OwnChild, SameNodes,
    TopInBlockZero, Zeros,
};
use crate::lost::{Lost, lost_pool};
use pd_kinds::Block;
use pd_samples::expected::{
    ONE_MAPPING, ONES, expect_dumped, expect_held, expect_report, expect_said, pool_of,
};
use pd_samples::pool::{device_leaf, inner};
use pd_samples::runs::{Held, NOTHING_FAILS, Ran, blocks_of, run, run_over};
use std::alloc::{AllocError, Global};
use std::process::Abort;
use std::test::Fail;

/// A pool whose superblock is lost, the number of its data blocks, the roots that the search puts, and how the dump of what
/// it makes ends.
type Found = (Lost, &'static str, &'static str, &'static str);

/// The line and the ends of dumps of several of them.
const PLAIN: &str = "2 3 mappings 1 time 0";

const ONE_MAPPED: &str = " 0 7 128 1\ndevice 1 1 0 0 0\nmap 0 0 1 0\nend\n";

const OF_NINE: &str = " 0 7 128 9\ndevice 1 1 0 0 0\nmap 0 0 1 0\nend\n";

const TWO_MAPPINGS: &str = " 1 7 128 2\ndevice 1 2 0 0 0\nmap 0 0 1 0\nmap 1 1 1 1\nend\n";

const LATER_TIME: &str = " 3 7 128 1\ndevice 1 1 0 0 0\nmap 0 0 1 3\nend\n";

const LATER_DETAILS: &str = " 4 7 128 1\ndevice 1 1 0 4 0\nmap 0 0 1 0\nend\n";

const FEWER: &str = " 3 7 128 2\ndevice 1 1 0 0 0\nmap 0 0 1 3\nend\n";

const LATER_SUM: &str = " 1 7 128 2\ndevice 1 2 0 0 0\nmap 0 0 2 1\nend\n";

const LATER_TRANSACTION: &str = " 0 7 128 1\ndevice 1 1 9 0 0\nmap 0 0 1 0\nend\n";

const LATER_THAN_DETAILS: &str = " 5 7 128 1\ndevice 1 1 9 0 0\nmap 0 0 1 5\nend\n";

const OTHER_DEVICE: &str = " 0 7 128 1\ndevice 8388608 0 0 0 0\nend\n";

const FOUND: &[Found] = &[
    (OneMapping, "1", PLAIN, ONE_MAPPED),
    (OneMapping, "9", PLAIN, OF_NINE),
    (HeldCopy, "0", "1 2 mappings 0 time 0", " 0 7 128 0\nend\n"),
    (MoreMappings, "2", "11 12 mappings 2 time 1", TWO_MAPPINGS),
    // The second mapping is past the pool's last data block.
    (MoreMappings, "1", PLAIN, ONE_MAPPED),
    // The time decides first, wherever it stands.
    (LaterTime, "1", "11 12 mappings 1 time 3", LATER_TIME),
    (LaterTop, "1", "11 3 mappings 1 time 3", LATER_TIME),
    (EarlierTop, "1", "2 3 mappings 1 time 3", LATER_TIME),
    (LaterDetails, "1", "11 12 mappings 1 time 4", LATER_DETAILS),
    (FewerAndLater, "2", "11 12 mappings 1 time 3", FEWER),
    (EarlierMappings, "2", "2 3 mappings 1 time 3", FEWER),
    // Then the transaction.
    (
        LaterInTransaction,
        "1",
        "11 3 mappings 1 time 0",
        LATER_TRANSACTION,
    ),
    (
        LaterThanDetails,
        "1",
        "11 3 mappings 1 time 5",
        LATER_THAN_DETAILS,
    ),
    // Then the sum of the times, and the number of mappings.
    (LaterSum, "2", "2 3 mappings 2 time 1", LATER_SUM),
    (FewerMappings, "1", PLAIN, ONE_MAPPED),
    // Where all these are equal, the higher place.
    (Copies, "1", "11 12 mappings 1 time 0", ONE_MAPPED),
    (OneFingerprint, "1", "11 3 mappings 0 time 0", OTHER_DEVICE),
];

/// Pools in which no two trees fit each other, and the number of their data blocks.
const NOT_FOUND: &[(Lost, &str)] = &[
    (Zeros, "1"),
    (OneMapping, "0"),
    (DamagedMappings, "1"),
    (OtherDevice, "1"),
    (OtherNumber, "1"),
    (TopInBlockZero, "1"),
    (OwnChild, "1"),
    (SameNodes, "1"),
];

const NO_ROOTS: &str = "pdata_tools: no roots\n";

/// Searches an image for its roots, and makes the pool on these blocks, with transaction 7.
fn search(
    alloc: Global,
    image: &[Block],
    base: &[Block],
    data_blocks: &str,
) -> Result<Ran, AllocError> {
    search_for(alloc, image, base, "7", data_blocks)
}

/// Searches an image for its roots, and makes the pool of this transaction on these blocks.
fn search_for(
    alloc: Global,
    image: &[Block],
    base: &[Block],
    transaction: &str,
    data_blocks: &str,
) -> Result<Ran, AllocError> {
    let held = Held {
        text: b"",
        input: image,
        output: base,
        third: &[],
    };
    let words = [
        "thin_repair",
        "-i",
        "image",
        "-o",
        "found",
        "--transaction-id",
        transaction,
        "--data-block-size",
        "128",
        "--nr-data-blocks",
        data_blocks,
    ];
    run_over(alloc, &words, held, NOTHING_FAILS)
}

/// Searches an image, where these are the roots that are put, and the dump of the pool that is made ends so.
pub(crate) fn expect_found(
    rt: &impl Abort,
    alloc: Global,
    image: &[Block],
    data_blocks: &str,
    roots: &str,
    text: &str,
) -> Result<(), Fail> {
    let line = format!(in alloc; "roots {roots}\n")?;
    let line = line.as_str();
    let found = search(alloc, image, &[ONES; 16], data_blocks)?;
    expect_said(&found, 0, line, "")?;
    expect_held(alloc, &found.input, image, line)?;
    let made = blocks_of(alloc, &found.output)?;
    expect_report(alloc, "thin_check", made.as_slice(), "clean\n")?;
    let dumped = run(alloc, &["thin_dump", "x"], made.as_slice(), NOTHING_FAILS)?;
    assert!(rt; dumped.out.bytes().ends_with(text.as_bytes()), "{line}");
    Ok(())
}

/// Searches an image, which comes to this status and these notes, with nothing written.
pub(crate) fn expect_refused(
    alloc: Global,
    image: &[Block],
    data_blocks: &str,
    base: &[Block],
    status: u8,
    notes: &str,
) -> Result<(), Fail> {
    let refused = search(alloc, image, base, data_blocks)?;
    expect_said(&refused, status, "", notes)?;
    expect_held(alloc, &refused.output, base, notes)
}

#[test]
fn the_best_trees_that_fit_are_found(rt: HostRuntime) -> Result<(), Fail> {
    for (lost, data_blocks, roots, text) in FOUND {
        let image = lost_pool(*lost);
        expect_found(&rt, rt.alloc(), &image, data_blocks, roots, text)?;
    }
    Ok(())
}

#[test]
fn roots_are_found_in_a_pool_whose_superblock_is_zeros(rt: HostRuntime) -> Result<(), Fail> {
    let alloc = rt.alloc();
    let base = [ONES; 16];
    let image = lost_pool(OneMapping);
    let found = search_for(alloc, &image, &base, "0", "1")?;
    expect_said(&found, 0, "roots 2 3 mappings 1 time 0\n", "")?;
    let made = blocks_of(alloc, &found.output)?;
    let tools = ("thin_check", "thin_dump");
    expect_dumped(alloc, tools, made.as_slice(), ONE_MAPPING)?;
    // No data block is the pool's, so no mapping leads to one.
    let none = search_for(alloc, &image, &base, "0", "0")?;
    expect_said(&none, 1, "", NO_ROOTS)?;
    expect_held(alloc, &none.output, &base, "the output")?;
    Ok(())
}

#[test]
fn trees_that_do_not_fit_are_not_found(rt: HostRuntime) -> Result<(), Fail> {
    let base = [ONES; 16];
    for (lost, data_blocks) in NOT_FOUND {
        let image = lost_pool(*lost);
        expect_refused(rt.alloc(), &image, data_blocks, &base, 1, NO_ROOTS)?;
    }
    expect_refused(rt.alloc(), &[], "1", &base, 1, NO_ROOTS)?;
    expect_refused(rt.alloc(), &[Block::zeros()], "1", &base, 1, NO_ROOTS)?;
    Ok(())
}

#[test]
fn a_found_pool_needs_room(rt: HostRuntime) -> Result<(), Fail> {
    let image = lost_pool(OneMapping);
    let notes = "pdata_tools: no room: need 10, blocks 9\n";
    expect_refused(rt.alloc(), &image, "1", &[ONES; 9], 4, notes)?;
    Ok(())
}

#[test]
fn trees_of_64_nodes_in_a_row_are_sound_and_no_deeper_ones(rt: HostRuntime) -> Result<(), Fail> {
    // 63 inner nodes above the leaf, each with one child, behind the pool's blocks.
    let mut image = pool_of(rt.alloc(), ONE_MAPPING, 128)?;
    image[0] = Block::zeros();
    for b in 20..83 {
        let child = if b < 82 { b as u64 + 1 } else { 1 };
        image[b] = inner(b as u64, child);
    }
    image[19] = inner(19, 20);
    image[2] = device_leaf(2, 20);
    expect_found(&rt, rt.alloc(), image.as_slice(), "1", PLAIN, ONE_MAPPED)?;
    image[2] = device_leaf(2, 19);
    let base = [ONES; 16];
    expect_refused(rt.alloc(), image.as_slice(), "1", &base, 1, NO_ROOTS)?;
    Ok(())
}

/// Words with some of the three numbers of a search, or with one that is too great.
const NO_REQUESTS: &[&str] = &[
    "--transaction-id 7",
    "--transaction-id 7 --data-block-size 128",
    "--data-block-size 128 --nr-data-blocks 1",
    "--transaction-id 18446744073709551616 --data-block-size 128 --nr-data-blocks 1",
    "--transaction-id 7 --data-block-size 4294967296 --nr-data-blocks 1",
    "--transaction-id 7 --data-block-size 128 --nr-data-blocks 1099511627777",
];

#[test]
fn a_search_is_given_all_three_numbers(rt: HostRuntime) -> Result<(), Fail> {
    for words in NO_REQUESTS {
        let mut list: Vec<&str> = Vec::new(rt.alloc());
        for word in ["thin_repair", "-i", "image", "-o", "found"] {
            list.push(word)?;
        }
        for word in words.split_whitespace() {
            list.push(word)?;
        }
        let refused = run(rt.alloc(), list.as_slice(), &[], NOTHING_FAILS)?;
        assert!(rt; refused.status == 2, "{words}");
    }
    Ok(())
}
