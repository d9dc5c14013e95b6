//! Pools whose superblock is lost: the states to choose from, and repairs from roots that are named.

ghost use Rattle.std.specs.Prelude.{◌≤◌};

use crate::kept_tests::{ask, expect_read};
use crate::lost::Lost::{
    DamagedMappings, FewerMappings, HeldCopy, LaterDetails, LaterInTransaction, MoreMappings,
    OneMapping, OtherDevice, OtherNumber, TopInBlockZero, Zeros,
};
use crate::lost::{Lost, lost_pool};
use crate::shared_repair_tests::{repair, repaired};
use pd_kinds::Block;
use pd_samples::expected::{ONE_MAPPING, ONES, expect, expect_report, expect_so, pool_of};
use pd_samples::runs::{NOTHING_FAILS, blocks_of, run};
use std::alloc::{AllocError, Global};
use std::process::Abort;
use std::test::Fail;

/// A pool whose superblock is lost, the number of its data blocks, and what is told of it: the states, and then what a repair
/// from the first one keeps.
type Listed = (Lost, &'static str, &'static str);

const LISTED: &[Listed] = &[
    (
        OneMapping,
        "1",
        "roots 2 3 devices 1 mappings 1 transaction 0 time 0\ndevice 1 kept 1 of 1\nkeeps 1 1 need 10 shared 10\n",
    ),
    (
        HeldCopy,
        "0",
        "roots 1 2 devices 0 mappings 0 transaction 0 time 0\nkeeps 0 0 need 8 shared 8\n",
    ),
    (
        MoreMappings,
        "2",
        "roots 11 12 devices 1 mappings 2 transaction 0 time 1\nroots 2 3 devices 1 mappings 1 transaction 0 time 0\n\
         device 1 kept 2 of 2\nkeeps 1 2 need 10 shared 10\n",
    ),
    // The second mapping of the other trees is past the pool's last data block.
    (
        MoreMappings,
        "1",
        "roots 2 3 devices 1 mappings 1 transaction 0 time 0\ndamaged 11 12 devices 1 mappings 1 transaction 0 time 0\n\
         device 1 kept 1 of 1\nkeeps 1 1 need 10 shared 10\n",
    ),
    (
        FewerMappings,
        "1",
        "roots 2 3 devices 1 mappings 1 transaction 0 time 0\nroots 11 12 devices 1 mappings 0 transaction 0 time 0\n\
         device 1 kept 1 of 1\nkeeps 1 1 need 10 shared 10\n",
    ),
    // Each mapping tree stands once, with the best details that fit it.
    (
        LaterInTransaction,
        "1",
        "roots 11 3 devices 1 mappings 1 transaction 9 time 0\nroots 2 3 devices 1 mappings 1 transaction 9 time 0\n\
         device 1 kept 1 of 1\nkeeps 1 1 need 10 shared 10\n",
    ),
];

/// A pool whose superblock is lost, the roots that are named, the number of its data blocks, what is told of it, the room that
/// a repair takes, and how the dump of what it makes ends.
type Named = (
    Lost,
    (&'static str, &'static str),
    &'static str,
    &'static str,
    usize,
    &'static str,
);

pub(crate) const ALL_KEPT: &str = "device 1 kept 1 of 1\nkeeps 1 1 need 10 shared 10\n";

const DETAILS_LOST: &str = "device 1 kept 1 of ?\nkeeps 1 1 need 10 shared 10\n";

const DEVICE_LOST: &str = "device 1 lost 1\nkeeps 0 0 need 9 shared 9\n";

const ONE_MAPPED: &str = " 0 7 128 1\ndevice 1 1 0 0 0\nmap 0 0 1 0\nend\n";

const NEXT_TIME: &str = " 1 7 128 1\ndevice 1 1 7 1 1\nmap 0 0 1 0\nend\n";

const NO_DEVICE: &str = " 0 7 128 1\nend\n";

const NAMED: &[Named] = &[
    (OneMapping, ("2", "3"), "1", ALL_KEPT, 10, ONE_MAPPED),
    // These aren't the best trees.
    (
        MoreMappings,
        ("2", "3"),
        "2",
        ALL_KEPT,
        10,
        " 0 7 128 2\ndevice 1 1 0 0 0\nmap 0 0 1 0\nend\n",
    ),
    // The second mapping is past the pool's last data block, and with it the later time.
    (
        MoreMappings,
        ("11", "12"),
        "1",
        "device 1 kept 1 of 2\nkeeps 1 1 need 10 shared 10\n",
        10,
        ONE_MAPPED,
    ),
    // The two trees don't fit each other.
    (
        LaterDetails,
        ("2", "12"),
        "1",
        ALL_KEPT,
        10,
        " 4 7 128 1\ndevice 1 1 0 4 0\nmap 0 0 1 0\nend\n",
    ),
    (
        OtherNumber,
        ("2", "3"),
        "1",
        "device 1 kept 1 of 2\nkeeps 1 1 need 10 shared 10\n",
        10,
        ONE_MAPPED,
    ),
    // The leaf of the mappings is damaged.
    (
        DamagedMappings,
        ("2", "3"),
        "1",
        "device 1 kept 0 of 1\nkeeps 1 0 need 10 shared 10\n",
        10,
        " 0 7 128 1\ndevice 1 0 0 0 0\nend\n",
    ),
    // The mapping tree is outside, or in block 0.
    (OneMapping, ("16", "3"), "1", DEVICE_LOST, 9, NO_DEVICE),
    (TopInBlockZero, ("0", "3"), "1", DEVICE_LOST, 9, NO_DEVICE),
    // The details are lost: their root is no details tree, or outside, or that of another device's.
    (OneMapping, ("2", "2"), "1", DETAILS_LOST, 10, NEXT_TIME),
    (OneMapping, ("2", "16"), "1", DETAILS_LOST, 10, NEXT_TIME),
    (
        OtherDevice,
        ("2", "3"),
        "1",
        "device 1 kept 1 of ?\ndevice 2 lost 1\nkeeps 1 1 need 10 shared 10\n",
        10,
        NEXT_TIME,
    ),
    (
        Zeros,
        ("2", "3"),
        "1",
        "keeps 0 0 need 9 shared 9\n",
        9,
        NO_DEVICE,
    ),
];

/// The words of a repair, of one that keeps what is shared, and of a dry run.
pub(crate) const REPAIR: &[&str] = &["thin_repair", "-i", "in", "-o", "found"];

pub(crate) const REPAIR_SHARED: &[&str] = &["thin_repair", "--shared", "-i", "in", "-o", "found"];

const DRY_RUN: &[&str] = &["thin_repair", "--dry-run", "-i", "in"];

/// Words, and the three numbers of a pool with so many data blocks behind them, and then the roots, if any.
pub(crate) fn with_numbers<'a>(
    alloc: Global,
    words: &[&'a str],
    data_blocks: &'a str,
    roots: Option<(&'a str, &'a str)>,
) -> Result<Vec<&'a str>, AllocError> {
    let mut all = Vec::from_slice(alloc, words)?;
    let numbers = [
        "--transaction-id",
        "7",
        "--data-block-size",
        "128",
        "--nr-data-blocks",
        data_blocks,
    ];
    all.extend_from_slice(&numbers)?;
    if let Some((top, details)) = roots {
        all.extend_from_slice(&["--mapping-root", top, "--details-root", details])?;
    }
    Ok(all)
}

/// A dry run comes to this, and nothing is written.
pub(crate) fn expect_told(
    alloc: Global,
    image: &[Block],
    data_blocks: &str,
    roots: Option<(&str, &str)>,
    status: u8,
    told: &str,
    notes: &str,
) -> Result<(), Fail> {
    let words = with_numbers(alloc, DRY_RUN, data_blocks, roots)?;
    let ran = ask(alloc, words.as_slice(), image, NOTHING_FAILS)?;
    expect_read(alloc, &ran, image, status, told, notes)
}

#[test]
fn the_states_are_listed_and_what_the_first_one_keeps(rt: HostRuntime) -> Result<(), Fail> {
    for (lost, data_blocks, told) in LISTED {
        let image = lost_pool(*lost);
        expect_told(rt.alloc(), &image, data_blocks, None, 0, told, "")?;
    }
    let none = lost_pool(DamagedMappings);
    let notes = "pdata_tools: no roots\n";
    expect_told(rt.alloc(), &none, "1", None, 1, "", notes)?;
    Ok(())
}

/// A repair makes a clean pool, on just so many blocks, whose dump ends so.
pub(crate) fn expect_made(
    rt: &impl Abort,
    alloc: Global,
    words: &[&str],
    image: &[Block],
    need: usize,
    text: &str,
) -> Result<(), Fail>
    requires { 1 ≤ need }
{
    let made = repaired(alloc, words, image, need, "")?;
    expect_report(alloc, "thin_check", made.as_slice(), "clean\n")?;
    let dumped = run(alloc, &["thin_dump", "x"], made.as_slice(), NOTHING_FAILS)?;
    assert!(rt; dumped.out.bytes().ends_with(text.as_bytes()), "{text}");
    Ok(())
}

/// A row holds: a dry run tells so much, and repairs make just that.
fn expect_named(rt: &impl Abort, alloc: Global, row: &Named) -> Result<(), Fail> {
    let (lost, roots, data_blocks, told, need, text) = *row;
    let image = lost_pool(lost);
    expect_told(alloc, &image, data_blocks, Some(roots), 0, told, "")?;
    expect_so(need > 0, "some room")?;
    let plain = with_numbers(alloc, REPAIR, data_blocks, Some(roots))?;
    expect_made(rt, alloc, plain.as_slice(), &image, need, text)?;
    let shared = with_numbers(alloc, REPAIR_SHARED, data_blocks, Some(roots))?;
    expect_made(rt, alloc, shared.as_slice(), &image, need, text)
}

#[test]
fn what_stands_below_named_roots_is_saved(rt: HostRuntime) -> Result<(), Fail> {
    for row in NAMED {
        expect_named(&rt, rt.alloc(), row)?;
    }
    Ok(())
}

/// Words with some of the five options, or with a root that is no number.
const NO_REQUESTS: &[&str] = &[
    "--mapping-root 2 --details-root 3",
    "--details-root 3 --transaction-id 7 --data-block-size 128 --nr-data-blocks 1",
    "--mapping-root 2 --transaction-id 7 --data-block-size 128 --nr-data-blocks 1",
    "--mapping-root 2 --details-root 3 --data-block-size 128 --nr-data-blocks 1",
    "--mapping-root 2 --details-root 3 --transaction-id 7 --nr-data-blocks 1",
    "--mapping-root 2 --details-root 3 --transaction-id 7 --data-block-size 128",
    "--mapping-root 18446744073709551616 --details-root 3 --transaction-id 7 --data-block-size 128 --nr-data-blocks 1",
    "--mapping-root 2 --details-root x --transaction-id 7 --data-block-size 128 --nr-data-blocks 1",
];

#[test]
fn roots_are_named_with_all_five_options(rt: HostRuntime) -> Result<(), Fail> {
    for words in NO_REQUESTS {
        for tool in [REPAIR, DRY_RUN] {
            let mut list = Vec::from_slice(rt.alloc(), tool)?;
            for word in words.split_whitespace() {
                list.push(word)?;
            }
            let refused = run(rt.alloc(), list.as_slice(), &[], NOTHING_FAILS)?;
            assert!(rt; refused.status == 2, "{words}");
        }
    }
    Ok(())
}

// What a search and a repair from named roots make: each device was snapped after its mappings whose data blocks are mapped twice.

/// The text of a pool whose superblock is lost then, and the dump of what is made of its trees in blocks 2 and 3.
type Seen = (&'static str, &'static str);

const SEEN: &[Seen] = &[
    // Two devices share a mapping of the pool's time, as where a search joins a leaf with older details.
    (
        "thin 2\npool 00000000-0000-0000-0000-000000000000 4 7 128 3\nleaf 0 2\nmap 0 0 1 0\nmap 1 2 1 3\ndevice 1 2 1 0 3\n\
         use 0\ndevice 2 2 1 3 3\nuse 0\nend\n",
        "thin 1\npool 00000000-0000-0000-0000-000000000000 4 7 128 3\ndevice 1 2 1 0 4\nmap 0 0 1 0\nmap 1 2 1 3\n\
         device 2 2 1 3 4\nmap 0 0 1 0\nmap 1 2 1 3\nend\n",
    ),
    // One device maps a data block twice.
    (
        "thin 1\npool 00000000-0000-0000-0000-000000000000 4 7 128 3\ndevice 1 3 1 0 3\nmap 0 0 1 0\nmap 1 2 1 3\nmap 2 2 1 3\nend\n",
        "thin 1\npool 00000000-0000-0000-0000-000000000000 4 7 128 3\ndevice 1 3 1 0 4\nmap 0 0 1 0\nmap 1 2 1 3\nmap 2 2 1 3\nend\n",
    ),
    // No pool's time is raised above the greatest one of a mapping.
    (
        "thin 1\npool 00000000-0000-0000-0000-000000000000 4 7 128 3\ndevice 1 2 1 0 3\nmap 1 2 1 16777215\nmap 2 2 1 16777215\nend\n",
        "thin 1\npool 00000000-0000-0000-0000-000000000000 16777215 7 128 3\ndevice 1 2 1 0 16777216\nmap 1 2 1 16777215\n\
         map 2 2 1 16777215\nend\n",
    ),
    // Each device was snapped later, or shares none of its later mappings.
    (
        "thin 1\npool 00000000-0000-0000-0000-000000000000 4 7 128 3\ndevice 1 3 1 0 3\nmap 0 0 1 3\nmap 1 2 1 2\nmap 2 2 1 2\nend\n",
        "thin 1\npool 00000000-0000-0000-0000-000000000000 3 7 128 3\ndevice 1 3 1 0 3\nmap 0 0 1 3\nmap 1 2 1 2\nmap 2 2 1 2\nend\n",
    ),
];

/// A search and a repair from named roots, each with the leaves that devices share and without.
type Way = (
    &'static [&'static str],
    Option<(&'static str, &'static str)>,
);

const WAYS: &[Way] = &[
    (REPAIR, None),
    (REPAIR_SHARED, None),
    (REPAIR, Some(("2", "3"))),
    (REPAIR_SHARED, Some(("2", "3"))),
];

/// What is made of the row's pool in this way is clean, and dumped so.
fn expect_seen(alloc: Global, row: &Seen, way: &Way) -> Result<(), Fail> {
    let (text, seen) = *row;
    let (words, roots) = *way;
    let mut image = pool_of(alloc, text, 16)?;
    image[0] = Block::zeros();
    let words = with_numbers(alloc, words, "3", roots)?;
    let base = [ONES; 16];
    let ran = repair(
        alloc,
        words.as_slice(),
        image.as_slice(),
        &base,
        NOTHING_FAILS,
    )?;
    expect_so(ran.status == 0, text)?;
    let made = blocks_of(alloc, &ran.output)?;
    expect(alloc, &["thin_check", "x"], made.as_slice(), 0, "clean\n")?;
    expect(alloc, &["thin_dump", "x"], made.as_slice(), 0, seen)
}

#[test]
fn devices_are_snapped_after_what_they_share(rt: HostRuntime) -> Result<(), Fail> {
    for row in SEEN {
        for way in WAYS {
            expect_seen(rt.alloc(), row, way)?;
        }
    }
    Ok(())
}
