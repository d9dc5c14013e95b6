//! Checks to the end: the stored counts against the references.

ghost use Rattle.std.specs.Prelude.{◌<◌, ◌≤◌};

use crate::asked::{WHOLE_CHECK, expect_report, expect_restored};
use pd_bitmap::{seal_bitmap, set_two_bits};
use pd_image::{Device, MemDevice};
use pd_kinds::{Block, SmRoot};
use pd_node::write_leaf;
use pd_samples::pool::{
    bitmap, damaged, empty_leaf, empty_pool, empty_super, index, index_entry, index_leaf, inner,
    map_root, mapping_leaf, pool_of_one_mapping, pool_with_held_copy,
};
use pd_smap::stored_meta;
use pd_supers::write_thin_super;
use pd_value::{Count, Details, Root};
use std::alloc::{AllocError, Global};
use std::process::Abort;
use std::test::Fail;

/// The words of the whole check with its last stage.
const TO_COUNTS: &[&str] = &["thin_check", "--until", "counts", "thin.img"];

/// Checks an image to the end, with the last stage and without, where this must be the report.
fn expect_counts(
    rt: &impl Abort,
    alloc: Global,
    shows: &str,
    image: &[Block],
    report: &str,
) -> Result<(), AllocError> {
    expect_report(rt, alloc, TO_COUNTS, shows, image, report)?;
    expect_report(rt, alloc, WHOLE_CHECK, shows, image, report)
}

/// A bitmap in which this count is changed.
pub(crate) fn with_count(place: u64, used: usize, i: usize, bits: u8) -> Block
    requires used { used ≤ 16320 }
    requires entry { i < 16320 }
    requires bits { bits ≤ 3 }
{
    let mut block = bitmap(place, used);
    set_two_bits(&mut block, i, bits);
    seal_bitmap(&mut block, place);
    block
}

/// The details of a device with one mapped block.
const ONE: Details = Details {
    mapped: 1,
    transaction: 0,
    created: 0,
    snapped: 0,
};

#[test]
fn sound_pools_are_clean(rt: HostRuntime) -> Result<(), Fail> {
    let alloc = rt.alloc();
    expect_counts(&rt, alloc, "empty", &empty_pool(), "clean\n")?;
    expect_counts(&rt, alloc, "one mapping", &pool_of_one_mapping(), "clean\n")?;
    expect_counts(&rt, alloc, "a held copy", &pool_with_held_copy(), "clean\n")?;
    Ok(())
}

#[test]
fn trees_that_the_held_copy_names_have_two_references(rt: HostRuntime) -> Result<(), Fail> {
    let mut image = pool_with_held_copy();
    image[6] = with_count(6, 9, 2, 2);
    expect_counts(
        &rt,
        rt.alloc(),
        "the mapping tree has one",
        &image,
        "fault meta 1 short stored 1 references 2\nfaults 1\n",
    )?;
    Ok(())
}

/// What a changed count shows, the bitmap with its number of ones, the count with its bits, and the report.
type Counted = (&'static str, usize, usize, usize, u8, &'static str);

const COUNTED: &[Counted] = &[
    (
        "a metadata block that nothing refers to",
        8,
        10,
        10,
        1,
        "fault meta 10 leak stored 1 references 0\nfaults 1\n",
    ),
    (
        "block 0 has the reference that every superblock has",
        8,
        10,
        0,
        0,
        "fault meta 0 short stored 0 references 1\nfaults 1\n",
    ),
    (
        "a count of 3 without its entry",
        8,
        10,
        1,
        3,
        "fault meta 1 overflow\nfaults 1\n",
    ),
    (
        "a data block with too many",
        4,
        1,
        0,
        2,
        "fault data 0 leak stored 2 references 1\nfaults 1\n",
    ),
    (
        "a data block with none",
        4,
        1,
        0,
        0,
        "fault data 0 short stored 0 references 1\nfaults 1\n",
    ),
];

/// Checks the pool of one mapping with a count changed.
fn expect_counted(rt: &impl Abort, alloc: Global, counted: Counted) -> Result<(), AllocError> {
    let (shows, b, used, i, bits, report) = counted;
    let mut image = pool_of_one_mapping();
    assert!(rt; b < 16 && used < 16 && i < 16 && bits < 4, "{shows}");
    image[b] = with_count(b as u64, used, i, bits);
    expect_counts(rt, alloc, shows, &image, report)
}

#[test]
fn counts_that_differ_from_the_references(rt: HostRuntime) -> Result<(), Fail> {
    for counted in COUNTED {
        expect_counted(&rt, rt.alloc(), *counted)?;
    }
    Ok(())
}

/// The pool of one mapping with a second device on its leaf, whose count is this.
#[tactic(auto, unfolding(pd_kinds::specs::Node::is_ascending))]
pub(crate) fn pool_of_two_devices(count: u8) -> [Block; 16]
    requires { count ≤ 3 }
{
    let mut image = pool_of_one_mapping();
    image[2] = write_leaf(2, &[(1, Root(1)), (2, Root(1))]);
    image[3] = write_leaf(3, &[(1, ONE), (2, ONE)]);
    image[8] = with_count(8, 10, 1, count);
    image
}

// The leaf has a reference of each device, and its data block one of the leaf.
#[test]
fn leaves_that_two_devices_share(rt: HostRuntime) -> Result<(), Fail> {
    let alloc = rt.alloc();
    let report = "fault meta 1 short stored 1 references 2\nfaults 1\n";
    expect_counts(&rt, alloc, "one for two", &pool_of_two_devices(1), report)?;
    let mut image = pool_of_two_devices(2);
    expect_counts(&rt, alloc, "two devices", &image, "clean\n")?;
    image[4] = with_count(4, 1, 0, 2);
    let report = "fault data 0 leak stored 2 references 1\nfaults 1\n";
    expect_counts(&rt, alloc, "one data block", &image, report)?;
    Ok(())
}

/// The same pool with a third device, the count 3 in the two bits of the leaf, and this overflow tree.
#[tactic(auto, unfolding(pd_kinds::specs::Node::is_ascending))]
pub(crate) fn pool_of_a_leaf_of_three(overflow: Block) -> [Block; 16] {
    let mut image = pool_of_two_devices(3);
    image[2] = write_leaf(2, &[(1, Root(1)), (2, Root(1)), (3, Root(1))]);
    image[3] = write_leaf(3, &[(1, ONE), (2, ONE), (3, ONE)]);
    image[9] = overflow;
    image
}

/// An overflow tree in this block with this one entry.
#[tactic(auto, unfolding(pd_kinds::specs::Node::is_ascending))]
pub(crate) fn overflow_of(place: u64, block: u64, count: u32) -> Block {
    write_leaf(place, &[(block, Count(count))])
}

/// The block that has an entry in an overflow tree, with its count there, and the report.
type Overflow = (u64, u32, &'static str);

const LEAF_OVERFLOWS: &[Overflow] = &[
    (2, 3, "fault meta 1 overflow\nfaults 1\n"),
    (1, 3, "clean\n"),
    (1, 4, "fault meta 1 leak stored 4 references 3\nfaults 1\n"),
    (1, 2, "fault meta 1 short stored 2 references 3\nfaults 1\n"),
];

#[test]
fn leaves_that_three_devices_share(rt: HostRuntime) -> Result<(), Fail> {
    let image = pool_of_a_leaf_of_three(empty_leaf::<Count>(9));
    let report = "fault meta 1 overflow\nfaults 1\n";
    expect_counts(&rt, rt.alloc(), "no entry", &image, report)?;
    for (block, count, report) in LEAF_OVERFLOWS {
        let image = pool_of_a_leaf_of_three(overflow_of(9, *block, *count));
        expect_counts(&rt, rt.alloc(), report, &image, report)?;
    }
    Ok(())
}

/// Sixteen blocks, of which twelve are used: three devices, each with a leaf of its own, have the one data block, whose
/// count stands in this overflow tree in block 8.
#[tactic(auto, unfolding(pd_kinds::specs::Node::is_ascending))]
fn pool_of_three_devices(overflow: Block) -> [Block; 16] {
    let mut fields = empty_super();
    fields.data_map = map_root(1, 1, 7, 8);
    fields.meta_map = map_root(16, 12, 9, 11);
    fields.mapping_root = 4;
    fields.details_root = 5;
    fields.meta_blocks = 16;
    let mut image = [Block::zeros(); 16];
    image[0] = write_thin_super(&fields);
    image[1] = mapping_leaf(1, 0);
    image[2] = mapping_leaf(2, 0);
    image[3] = mapping_leaf(3, 0);
    image[4] = write_leaf(4, &[(1, Root(1)), (2, Root(2)), (3, Root(3))]);
    image[5] = write_leaf(5, &[(1, ONE), (2, ONE), (3, ONE)]);
    image[6] = with_count(6, 1, 0, 3);
    image[7] = index_leaf(7, 6);
    image[8] = overflow;
    image[9] = index(9, &[index_entry(10, 4)]);
    image[10] = bitmap(10, 12);
    image[11] = empty_leaf::<Count>(11);
    image
}

const DATA_OVERFLOWS: &[Overflow] = &[
    (0, 3, "clean\n"),
    (
        0,
        u32::MAX,
        "fault data 0 leak stored 4294967295 references 3\nfaults 1\n",
    ),
    (0, 2, "fault data 0 short stored 2 references 3\nfaults 1\n"),
];

/// The text of that pool, whose overflow tree has the count 3.
const THREE_DEVICES: &str =
    "thin 1\npool 00000000-0000-0000-0000-000000000000 0 0 128 1\ndevice 1 1 0 0 0\nmap 0 0 1 0\ndevice 2 1 0 0 0\nmap 0 0 1 0\n\
     device 3 1 0 0 0\nmap 0 0 1 0\nend\n";

#[test]
fn data_blocks_with_three_references(rt: HostRuntime) -> Result<(), Fail> {
    let image = pool_of_three_devices(overflow_of(8, 0, 3));
    expect_restored(&rt, rt.alloc(), THREE_DEVICES, &image)?;
    let image = pool_of_three_devices(empty_leaf::<Count>(8));
    let report = "fault data 0 overflow\nfaults 1\n";
    expect_counts(&rt, rt.alloc(), "no entry", &image, report)?;
    for (block, count, report) in DATA_OVERFLOWS {
        let image = pool_of_three_devices(overflow_of(8, *block, *count));
        expect_counts(&rt, rt.alloc(), report, &image, report)?;
    }
    Ok(())
}

#[test]
fn data_maps_that_an_index_is_too_short_for(rt: HostRuntime) -> Result<(), Fail> {
    // The greatest number of data blocks, over the index of one bitmap: no count of it is looked at.
    let mut fields = empty_super();
    fields.data_map = map_root(1 << 40, 1, 5, 6);
    fields.meta_map = map_root(16, 10, 7, 9);
    fields.mapping_root = 2;
    fields.details_root = 3;
    fields.meta_blocks = 16;
    let mut image = pool_of_one_mapping();
    image[0] = write_thin_super(&fields);
    expect_counts(
        &rt,
        rt.alloc(),
        "2 ^ 40 data blocks",
        &image,
        "fault meta 5 index\nfaults 1\n",
    )?;
    Ok(())
}

// The counts of such pools aren't looked at.
#[test]
fn what_an_earlier_stage_finds_is_told_alone(rt: HostRuntime) -> Result<(), Fail> {
    let alloc = rt.alloc();
    let mut image = pool_of_one_mapping();
    image[1] = damaged(image[1], 100);
    let report = "fault meta 1 checksum\nfaults 1\n";
    expect_counts(&rt, alloc, "a leaf's bit", &image, report)?;
    image[1] = inner(1, 1);
    let report = "fault meta 1 level\nfaults 1\n";
    expect_counts(&rt, alloc, "a node in itself", &image, report)?;
    let mut fields = empty_super();
    fields.details_root = 1;
    let mut image = empty_pool();
    image[0] = write_thin_super(&fields);
    let report = "fault meta 1 shape\nfault meta 1 role\nfaults 2\n";
    expect_counts(&rt, alloc, "one tree for two", &image, report)?;
    Ok(())
}

#[test]
fn a_pool_of_one_mapping_stores_ones(rt: HostRuntime) -> Result<(), Fail> {
    let mut device = MemDevice::of(rt.alloc(), &pool_of_one_mapping())?;
    device.attach("thin.img", false)?;
    let root = SmRoot {
        blocks: 16,
        allocated: 10,
        bitmap_root: 7,
        overflow_root: 9,
    };
    assert!(rt; stored_meta(&mut device, &root, 1) == Ok(Some(1)));
    assert!(rt; stored_meta(&mut device, &root, 10) == Ok(Some(0)));
    Ok(())
}
