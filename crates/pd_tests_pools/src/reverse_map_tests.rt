//! The reverse map of regions.

use crate::asked::{ask, expect_lines, expect_put};
use crate::device_list_tests::{Mapping, SEEDS, image_of, mappings_of};
use crate::shared_dump_tests::{
    ABOVE, BESIDE, BOTH, EMPTY, FIRST, SECOND, Top, of_two, with_held_trees,
};
use pd_samples::pool::{SHARED, TWICE};
use std::alloc::{AllocError, Global};
use std::process::Abort;
use std::test::Fail;

/// The text of a pool, a region, and the lines.
type Row = (&'static str, &'static str, &'static str);

const ROWS: &[Row] = &[
    (
        SHARED,
        "0..1",
        "block 0 device 1 virtual 0\nblock 0 device 2 virtual 0\n",
    ),
    // An empty region, and one past the last data block.
    (SHARED, "1..1", ""),
    (SHARED, "1..18446744073709551615", ""),
    // The end isn't in the region, nor is what is before the first block.
    (
        TWICE,
        "6..8",
        "block 6 device 7 virtual 1\nblock 7 device 7 virtual 30\n",
    ),
    // A block twice in one device, and the order by blocks.
    (
        TWICE,
        "4..6",
        "block 4 device 3 virtual 8\nblock 5 device 3 virtual 0\nblock 5 device 3 virtual 9\n",
    ),
    // A whole pool and what is past it.
    (
        TWICE,
        "0..100",
        "block 4 device 3 virtual 8\nblock 5 device 3 virtual 0\nblock 5 device 3 virtual 9\nblock 6 device 7 virtual 1\n\
         block 7 device 7 virtual 30\nblock 8 device 7 virtual 31\n",
    ),
];

/// Asks for a region as a row says.
fn expect_row(rt: &impl Abort, alloc: Global, row: Row) -> Result<(), AllocError> {
    let (text, region, lines) = row;
    let words = ["thin_rmap", "--region", region, "thin.img"];
    expect_lines(rt, alloc, text, &words, "", lines)
}

#[test]
fn regions_are_mapped_back(rt: HostRuntime) -> Result<(), Fail> {
    for row in ROWS {
        expect_row(&rt, rt.alloc(), *row)?;
    }
    Ok(())
}

/// A text in which two devices share a leaf of two mappings, behind or before one of their own. Data block 3 is in both
/// the shared leaf and the second device's own.
const SHARED_PAIR: &str =
    "thin 2\npool 00000000-0000-0000-0000-000000000000 0 0 128 8\nleaf 0 2\nmap 4 3 1 0\nmap 5 1 1 0\ndevice 1 3 0 0 0\n\
     map 0 2 1 0\nuse 0\ndevice 6 3 0 0 0\nuse 0\nmap 9 3 1 0\nend\n";

const SHARED_ROWS: &[Row] = &[
    // One mapping of the shared leaf, the other, and both in the order of their data blocks.
    (
        SHARED_PAIR,
        "1..2",
        "block 1 device 1 virtual 5\nblock 1 device 6 virtual 5\n",
    ),
    (
        SHARED_PAIR,
        "3..4",
        "block 3 device 1 virtual 4\nblock 3 device 6 virtual 4\nblock 3 device 6 virtual 9\n",
    ),
    (
        SHARED_PAIR,
        "0..8",
        "block 1 device 1 virtual 5\nblock 1 device 6 virtual 5\nblock 2 device 1 virtual 0\nblock 3 device 1 virtual 4\n\
         block 3 device 6 virtual 4\nblock 3 device 6 virtual 9\n",
    ),
    (SHARED_PAIR, "4..8", ""),
];

#[test]
fn each_device_is_told_that_has_a_shared_leaf(rt: HostRuntime) -> Result<(), Fail> {
    for row in SHARED_ROWS {
        expect_row(&rt, rt.alloc(), *row)?;
    }
    Ok(())
}

/// What two devices have, a region, and the lines.
type NodeRow = (Top, Top, &'static str, &'static str);

const NODE_ROWS: &[NodeRow] = &[
    // A leaf that is the root of both, and one that is the root of one and below that of the other.
    (
        FIRST,
        FIRST,
        "0..2",
        "block 0 device 1 virtual 0\nblock 0 device 2 virtual 0\n",
    ),
    (
        FIRST,
        ABOVE,
        "0..2",
        "block 0 device 1 virtual 0\nblock 0 device 2 virtual 0\n",
    ),
    // An inner node that is the root of both, one that is below the roots of both, and neither has the region.
    (
        ABOVE,
        ABOVE,
        "0..2",
        "block 0 device 1 virtual 0\nblock 0 device 2 virtual 0\n",
    ),
    (
        ABOVE,
        BESIDE,
        "0..1",
        "block 0 device 1 virtual 0\nblock 0 device 2 virtual 0\n",
    ),
    (ABOVE, BESIDE, "1..2", ""),
    // Two leaves below one node, of which the region has one or both.
    (
        BOTH,
        BOTH,
        "1..2",
        "block 1 device 1 virtual 1\nblock 1 device 2 virtual 1\n",
    ),
    (
        BOTH,
        SECOND,
        "0..2",
        "block 0 device 1 virtual 0\nblock 1 device 1 virtual 1\nblock 1 device 2 virtual 1\n",
    ),
    (SECOND, BOTH, "0..1", "block 0 device 2 virtual 0\n"),
    // A leaf without mappings.
    (EMPTY, EMPTY, "0..2", ""),
];

/// Asks for a region of two devices as a row says.
fn expect_nodes(rt: &impl Abort, alloc: Global, row: NodeRow) -> Result<(), AllocError> {
    let (first, second, region, lines) = row;
    let words = ["thin_rmap", "--region", region, "thin.img"];
    expect_put(rt, alloc, &words, &of_two(first, second), "", lines)
}

#[test]
fn each_device_is_told_that_has_a_shared_node(rt: HostRuntime) -> Result<(), Fail> {
    for row in NODE_ROWS {
        expect_nodes(&rt, rt.alloc(), *row)?;
    }
    Ok(())
}

#[test]
fn a_held_copy_is_no_user(rt: HostRuntime) -> Result<(), Fail> {
    let words = ["thin_rmap", "--region", "0..2", "thin.img"];
    let lines = "block 0 device 1 virtual 0\nblock 1 device 2 virtual 1\n";
    expect_put(&rt, rt.alloc(), &words, &with_held_trees(), "", lines)?;
    Ok(())
}

/// Writes the lines of a data block, one for each mapping that has it.
fn write_lines(text: &mut String, mappings: &[Mapping], data_block: u64) -> Result<(), Fail> {
    for m in mappings {
        if m.data_block == data_block {
            let (id, virtual_block) = (m.device, m.virtual_block);
            writeln!(
                text,
                "block {data_block} device {id} virtual {virtual_block}"
            )?;
        }
    }
    Ok(())
}

/// Asks for a region of a random pool, which must have the lines that the definition says.
fn expect_random(
    rt: &impl Abort,
    alloc: Global,
    seed: u32,
    region: (u64, u64),
) -> Result<(), Fail> {
    let (first, end) = region;
    let mappings = mappings_of(alloc, seed)?;
    let mut lines = String::new(alloc);
    for data_block in first..end {
        write_lines(&mut lines, mappings.as_slice(), data_block)?;
    }
    let image = image_of(alloc, seed, mappings.as_slice())?;
    let region = format!(in alloc; "{first}..{end}")?;
    let words = ["thin_rmap", "--region", region.as_str(), "thin.img"];
    Ok(expect_put(rt, alloc, &words, image.as_slice(), "", lines.as_str())?)
}

#[test]
fn random_pools_are_mapped_back_by_the_definition(rt: HostRuntime) -> Result<(), Fail> {
    for seed in SEEDS {
        expect_random(&rt, rt.alloc(), *seed, (0, 8))?;
        expect_random(&rt, rt.alloc(), *seed, (2, 5))?;
    }
    Ok(())
}

#[test]
fn an_answer_without_lines_attaches_the_named_file(rt: HostRuntime) -> Result<(), Fail> {
    let words = &[
        "thin_rmap",
        "-o",
        "uses.txt",
        "thin.img",
        "--region",
        "1..1",
    ];
    expect_lines(&rt, rt.alloc(), SHARED, words, "uses.txt", "")?;
    Ok(())
}

/// Words that are no region.
const REFUSED: &[&str] = &[
    "2..1",
    "1",
    "1.2",
    "1...2",
    "1..2.",
    "..1",
    "1..",
    "01..2",
    "+1..2",
    "0..18446744073709551616",
];

/// Asks for what is no region.
fn expect_refused(rt: &impl Abort, alloc: Global, region: &str) -> Result<(), AllocError> {
    let words = ["thin_rmap", "--region", region, "thin.img"];
    let ran = ask(alloc, SHARED, &words)?;
    assert!(rt; ran.status == 2, "{region}");
    Ok(())
}

#[test]
fn other_words_are_no_region(rt: HostRuntime) -> Result<(), Fail> {
    for region in REFUSED {
        expect_refused(&rt, rt.alloc(), region)?;
    }
    Ok(())
}
