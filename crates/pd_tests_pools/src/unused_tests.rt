//! The unused data blocks of a pool.

use crate::asked::{expect_lines, expect_put, expect_run};
use crate::stored_tests::with_count;
use pd_kinds::Block;
use pd_node::write_leaf;
use pd_samples::pool::{
    ONE, TWICE, bitmap, device_leaf, empty_super, held_copy, map_root, mapping_leaf,
    pool_of_one_mapping,
};
use pd_samples::runs::{NOTHING_FAILS, restored};
use pd_supers::{ThinSuper, write_thin_super};
use pd_value::{Count, Details};
use std::alloc::{AllocError, Global};
use std::process::Abort;
use std::test::Fail;

const LIST: &[&str] = &["thin_trim", "--list", "thin.img"];

const TO_FILE: &[&str] = &["thin_trim", "thin.img", "-o", "list", "--list"];

/// The text of a pool, and what is listed of it.
type Row = (&'static str, &'static str);

/// Three devices that map the second of three data blocks, which has its count in the overflow tree.
const THRICE: &str =
    "thin 1\npool 00000000-0000-0000-0000-000000000000 0 0 128 3\ndevice 1 1 0 0 0\nmap 0 1 1 0\ndevice 2 1 0 0 0\nmap 0 1 1 0\n\
     device 3 1 0 0 0\nmap 7 1 1 0\nend\n";

const ROWS: &[Row] = &[
    (
        "thin 1\npool 00000000-0000-0000-0000-000000000000 0 0 128 0\nend\n",
        "",
    ),
    (
        "thin 1\npool 00000000-0000-0000-0000-000000000000 0 0 128 33\nend\n",
        "unused 0 33\n",
    ),
    (ONE, ""),
    (TWICE, "unused 0 4\nunused 9 11\n"),
    (THRICE, "unused 0 1\nunused 2 1\n"),
    (
        "thin 1\npool 00000000-0000-0000-0000-000000000000 0 0 128 5\ndevice 1 4 0 0 0\nmap 0 0 4 0\nend\n",
        "unused 4 1\n",
    ),
    (
        "thin 1\npool 00000000-0000-0000-0000-000000000000 0 0 128 101\ndevice 1 36 0 0 0\nmap 0 32 32 0\nmap 40 66 3 0\n\
         map 60 70 1 0\nend\n",
        "unused 0 32\nunused 64 2\nunused 69 1\nunused 71 30\n",
    ),
    (
        "thin 1\npool 00000000-0000-0000-0000-000000000000 0 0 128 16340\ndevice 1 1 0 0 0\nmap 0 16321 1 0\nend\n",
        "unused 0 16321\nunused 16322 18\n",
    ),
];

#[test]
fn unused_blocks_are_listed(rt: HostRuntime) -> Result<(), Fail> {
    for row in ROWS {
        expect_lines(&rt, rt.alloc(), row.0, LIST, "", row.1)?;
    }
    expect_lines(
        &rt,
        rt.alloc(),
        TWICE,
        TO_FILE,
        "list",
        "unused 0 4\nunused 9 11\n",
    )?;
    Ok(())
}

/// A pool whose 170 bitmaps don't have room in one leaf of the index.
const WIDE: &str =
    "thin 1\npool 00000000-0000-0000-0000-000000000000 0 0 128 2774400\ndevice 1 1 0 0 0\nmap 0 2758080 1 0\nend\n";

#[test]
fn a_run_goes_over_bitmaps(rt: HostRuntime) -> Result<(), Fail> {
    let image = restored(rt.alloc(), WIDE, 256)?;
    expect_put(
        &rt,
        rt.alloc(),
        LIST,
        image.as_slice(),
        "",
        "unused 0 2758080\nunused 2758081 16319\n",
    )?;
    Ok(())
}

/// The superblock of the pool of one mapping, with so many data blocks of which some are used, and so many metadata blocks in
/// use.
fn superblock(blocks: u64, used: u64, meta_used: u64) -> ThinSuper {
    let mut fields = empty_super();
    fields.data_map = map_root(blocks, used, 5, 6);
    fields.meta_map = map_root(16, meta_used, 7, 9);
    fields.mapping_root = 2;
    fields.details_root = 3;
    fields.meta_blocks = 16;
    fields
}

/// The details of a device with one mapped block.
const DETAILS: Details = Details {
    mapped: 1,
    transaction: 0,
    created: 0,
    snapped: 0,
};

/// A leaf of the details tree, of device 1.
#[tactic(auto, unfolding(pd_kinds::specs::Node::is_ascending))]
fn details_leaf(place: u64) -> Block {
    write_leaf(place, &[(1, DETAILS)])
}

/// A leaf of the overflow tree, in which data block 1 has the count 0.
#[tactic(auto, unfolding(pd_kinds::specs::Node::is_ascending))]
fn overflow_leaf(place: u64) -> Block {
    write_leaf(place, &[(1, Count(0))])
}

/// A pool of three data blocks: a device maps the first one, and one of the held state the second.
fn with_held_block() -> [Block; 16] {
    let mut image = pool_of_one_mapping();
    let mut fields = superblock(3, 2, 14);
    fields.held_root = 10;
    image[0] = write_thin_super(&fields);
    image[4] = bitmap(4, 2);
    image[8] = bitmap(8, 14);
    fields.held_root = 0;
    fields.mapping_root = 11;
    fields.details_root = 13;
    image[10] = held_copy(10, &fields);
    image[11] = device_leaf(11, 12);
    image[12] = mapping_leaf(12, 1);
    image[13] = details_leaf(13);
    image
}

#[test]
fn a_block_of_the_held_state_is_used(rt: HostRuntime) -> Result<(), Fail> {
    expect_put(
        &rt,
        rt.alloc(),
        LIST,
        &with_held_block(),
        "",
        "unused 2 1\n",
    )?;
    Ok(())
}

#[test]
fn a_count_of_0_in_the_overflow_tree_is_none(rt: HostRuntime) -> Result<(), Fail> {
    let mut image = pool_of_one_mapping();
    image[0] = write_thin_super(&superblock(2, 1, 10));
    image[4] = with_count(4, 1, 1, 3);
    image[6] = overflow_leaf(6);
    expect_put(&rt, rt.alloc(), LIST, &image, "", "unused 1 1\n")?;
    Ok(())
}

/// Lists an image with one fault, which only `notes` tells.
fn expect_fault(
    rt: &impl Abort,
    alloc: Global,
    image: &[Block],
    fault: &str,
) -> Result<(), AllocError> {
    expect_run(rt, alloc, LIST, image, NOTHING_FAILS, (1, "", fault))
}

#[test]
fn nothing_is_listed_where_a_count_is_wrong(rt: HostRuntime) -> Result<(), Fail> {
    let mut image = pool_of_one_mapping();
    image[0] = write_thin_super(&superblock(9, 2, 10));
    image[4] = bitmap(4, 2);
    expect_fault(
        &rt,
        rt.alloc(),
        &image,
        "fault data 1 leak stored 1 references 0\nfaults 1\n",
    )?;
    image[4] = bitmap(4, 0);
    expect_fault(
        &rt,
        rt.alloc(),
        &image,
        "fault data 0 short stored 0 references 1\nfaults 1\n",
    )?;
    Ok(())
}
