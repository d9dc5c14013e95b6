//! Shrinks of pools: data blocks past the new end are moved below it, and new metadata is written after that.

ghost use Rattle.std.specs.Prelude.{◌<◌, ◌^◌};

use pd_bitmap::{seal_bitmap, set_two_bits};
use pd_image::Pick;
use pd_kinds::{BLOCK_SIZE, Block};
use pd_node::{write_inner, write_leaf};
use pd_samples::expected::End::{Done, NoRoom, Stopped};
use pd_samples::expected::{
    End, ONES, PICKS, THIN, Trouble, expect, expect_dumped, expect_end, expect_held, made,
};
use pd_samples::pool::{
    bitmap, damaged, device_leaf, empty_leaf, empty_super, held_copy, index, index_entry,
    index_leaf, map_root,
};
use pd_samples::runs::{
    Devices, Failing, Fill, NOTHING_FAILS, Ran, blocks_after_crash, blocks_of, filled, may_be_old,
};
use pd_supers::write_thin_super;
use pd_value::{BlockTime, Count, Details, Root};
use std::alloc::{AllocError, Global};
use std::process::Abort;
use std::test::Fail;

/// A pool of four data blocks of 4096 bytes, of which the first one and the last one are used.
const POOL: &str =
    "thin 1\npool 00000000-0000-0000-0000-000000000000 0 0 8 4\ndevice 1 2 0 0 0\nmap 0 0 1 0\nmap 1 3 1 0\nend\n";

/// The same with two data blocks: the last one was moved.
const SMALLER: &str =
    "thin 1\npool 00000000-0000-0000-0000-000000000000 0 0 8 2\ndevice 1 2 0 0 0\nmap 0 0 2 0\nend\n";

/// A pool whose last run is torn where one of its blocks is moved, and that pool with three data blocks.
const RUN: &str =
    "thin 1\npool 00000000-0000-0000-0000-000000000000 0 0 8 4\ndevice 1 3 0 0 0\nmap 0 2 2 0\nmap 5 1 1 0\nend\n";

const TORN: &str =
    "thin 1\npool 00000000-0000-0000-0000-000000000000 0 0 8 3\ndevice 1 3 0 0 0\nmap 0 2 1 0\nmap 1 0 1 0\nmap 5 1 1 0\nend\n";

/// A pool of which all used blocks lie past the new end, and that pool with two data blocks.
const BEHIND: &str =
    "thin 1\npool 00000000-0000-0000-0000-000000000000 0 0 8 4\ndevice 1 2 0 0 0\nmap 0 2 2 0\nend\n";

/// A pool without a free data block.
const FULL: &str =
    "thin 1\npool 00000000-0000-0000-0000-000000000000 0 0 8 4\ndevice 1 4 0 0 0\nmap 0 0 4 0\nend\n";

/// A pool of two devices that share three data blocks, at several times, and that pool with six data blocks.
const SHARED: &str =
    "thin 1\npool 00010203-0405-0607-0809-0a0b0c0d0e0f 7 5 8 10\ndevice 1 4 1 2 6\nmap 0 8 2 3\nmap 4 1 1 7\nmap 9 6 1 0\n\
     device 2 4 3 6 5\nmap 0 8 2 3\nmap 4 5 1 6\nmap 20 1 1 7\nend\n";

const SHARED_SMALLER: &str =
    "thin 1\npool 00010203-0405-0607-0809-0a0b0c0d0e0f 7 5 8 6\ndevice 1 4 1 2 6\nmap 0 2 2 3\nmap 4 1 1 7\nmap 9 0 1 0\n\
     device 2 4 3 6 5\nmap 0 2 2 3\nmap 4 5 1 6\nmap 20 1 1 7\nend\n";

/// A pool whose data blocks have 8192 bytes, and that pool with two of them.
const TWO_EACH: &str =
    "thin 1\npool 00000000-0000-0000-0000-000000000000 0 0 16 4\ndevice 1 2 0 0 0\nmap 0 0 1 0\nmap 1 3 1 0\nend\n";

const TWO_EACH_SMALLER: &str =
    "thin 1\npool 00000000-0000-0000-0000-000000000000 0 0 16 2\ndevice 1 2 0 0 0\nmap 0 0 2 0\nend\n";

/// A pool without a device, and that pool without a data block.
const EMPTY: &str = "thin 1\npool 00000000-0000-0000-0000-000000000000 0 0 8 4\nend\n";

const NOTHING: &str = "thin 1\npool 00000000-0000-0000-0000-000000000000 0 0 8 0\nend\n";

/// Pools whose data blocks aren't whole blocks of 4096 bytes: of 6144, of 2048, and of no bytes.
const OF_12_SECTORS: &str = "thin 1\npool 00000000-0000-0000-0000-000000000000 0 0 12 4\nend\n";

const OF_4_SECTORS: &str = "thin 1\npool 00000000-0000-0000-0000-000000000000 0 0 4 4\nend\n";

const OF_NO_SECTORS: &str = "thin 1\npool 00000000-0000-0000-0000-000000000000 0 0 0 4\nend\n";

const BAD_SIZE: End = Stopped("pdata_tools: block size\n");

/// The output isn't written.
const UNTOUCHED: &str = "";

const FOUR: Fill = &[0xA0, 0xA1, 0xA2, 0xA3];

/// `FOUR` where the last block was moved to the second place.
const MOVED: Fill = &[0xA0, 0xA3, 0xA2, 0xA3];

/// Devices of less blocks, and of more.
const THREE: Fill = &[0xA0, 0xA1, 0xA2];

const SEVEN: Fill = &[0, 1, 2, 3, 4, 5, 6];

const EIGHT: Fill = &[0, 1, 2, 3, 4, 5, 6, 7];

const TEN: Fill = &[0, 1, 2, 3, 4, 5, 6, 7, 8, 9];

const TORN_FILL: Fill = &[0xA3, 0xA1, 0xA2, 0xA3];

const BEHIND_FILL: Fill = &[0xA2, 0xA3, 0xA2, 0xA3];

const SHARED_FILL: Fill = &[6, 1, 8, 9, 4, 5, 6, 7, 8, 9];

const TWO_EACH_FILL: Fill = &[0, 1, 6, 7, 4, 5, 6, 7];

/// How many are moved.
const NONE: End = Done("moved 0\n");

const ONE: End = Done("moved 1\n");

const TWO: End = Done("moved 2\n");

const SHARED_MOVED: End = Done("moved 3\n");

/// A shrink: the text of the pool, what the data device holds, how many blocks the output has, the number of data blocks
/// that is asked for, what it comes to, what the data device holds then, and the text of the output.
type Row = (
    &'static str,
    Fill,
    usize,
    &'static str,
    End,
    Fill,
    &'static str,
);

const ROWS: &[Row] = &[
    (POOL, FOUR, 16, "2", ONE, MOVED, SMALLER),
    // Ten blocks of metadata are just enough.
    (POOL, FOUR, 10, "2", ONE, MOVED, SMALLER),
    (POOL, FOUR, 9, "2", NoRoom(10, 9), FOUR, UNTOUCHED),
    (POOL, FOUR, 16, "1", NoRoom(2, 1), FOUR, UNTOUCHED),
    (POOL, FOUR, 16, "0", NoRoom(2, 0), FOUR, UNTOUCHED),
    (POOL, FOUR, 16, "4", NONE, FOUR, POOL),
    // It isn't made larger.
    (POOL, FOUR, 16, "9", NONE, FOUR, POOL),
    (POOL, FOUR, 16, "18446744073709551615", NONE, FOUR, POOL),
    // The last block that is moved isn't on the data device; where none is moved, none is looked for.
    (POOL, THREE, 16, "2", NoRoom(4, 3), THREE, UNTOUCHED),
    (POOL, &[], 16, "4", NONE, &[], POOL),
    // What the smaller pool lacks comes before what the data device lacks, and that before what the output lacks.
    (POOL, &[], 9, "1", NoRoom(2, 1), &[], UNTOUCHED),
    (POOL, &[], 9, "2", NoRoom(4, 0), &[], UNTOUCHED),
    (RUN, FOUR, 16, "3", ONE, TORN_FILL, TORN),
    (BEHIND, FOUR, 16, "2", TWO, BEHIND_FILL, SMALLER),
    (FULL, FOUR, 16, "3", NoRoom(4, 3), FOUR, UNTOUCHED),
    (
        SHARED,
        TEN,
        16,
        "6",
        SHARED_MOVED,
        SHARED_FILL,
        SHARED_SMALLER,
    ),
    (SHARED, TEN, 16, "4", NoRoom(5, 4), TEN, UNTOUCHED),
    (
        TWO_EACH,
        EIGHT,
        16,
        "2",
        ONE,
        TWO_EACH_FILL,
        TWO_EACH_SMALLER,
    ),
    (TWO_EACH, SEVEN, 16, "2", NoRoom(8, 7), SEVEN, UNTOUCHED),
    (EMPTY, FOUR, 16, "0", NONE, FOUR, NOTHING),
    (OF_12_SECTORS, FOUR, 16, "2", BAD_SIZE, FOUR, UNTOUCHED),
    (OF_4_SECTORS, FOUR, 16, "2", BAD_SIZE, FOUR, UNTOUCHED),
    (OF_NO_SECTORS, FOUR, 16, "2", BAD_SIZE, FOUR, UNTOUCHED),
];

/// Two devices on one leaf, of which one block is moved; and that pool with two data blocks.
const PAIR: &str =
    "thin 2\npool 00000000-0000-0000-0000-000000000000 0 0 8 4\nleaf 0 2\nmap 0 0 1 0\nmap 1 3 1 0\ndevice 1 2 0 0 0\nuse 0\n\
     device 2 2 0 0 0\nuse 0\nend\n";

const PAIR_SMALLER: &str =
    "thin 2\npool 00000000-0000-0000-0000-000000000000 0 0 8 2\nleaf 0 2\nmap 0 0 2 0\ndevice 1 2 0 0 0\nuse 0\n\
     device 2 2 0 0 0\nuse 0\nend\n";

/// The same pool without its shared leaf.
const PAIR_APART: &str =
    "thin 1\npool 00000000-0000-0000-0000-000000000000 0 0 8 2\ndevice 1 2 0 0 0\nmap 0 0 2 0\ndevice 2 2 0 0 0\nmap 0 0 2 0\nend\n";

/// A shared leaf before a run of a device's own, which follows on the leaf's once that is moved: they stay apart. And that pool
/// with two data blocks.
const BEFORE: &str =
    "thin 2\npool 00000000-0000-0000-0000-000000000000 0 0 8 4\nleaf 0 1\nmap 1 3 1 0\ndevice 1 2 0 0 0\nuse 0\nmap 2 1 1 0\n\
     device 2 1 0 0 0\nuse 0\nend\n";

const BEFORE_SMALLER: &str =
    "thin 2\npool 00000000-0000-0000-0000-000000000000 0 0 8 2\nleaf 0 1\nmap 1 0 1 0\ndevice 1 2 0 0 0\nuse 0\nmap 2 1 1 0\n\
     device 2 1 0 0 0\nuse 0\nend\n";

const BEFORE_FILL: Fill = &[0xA3, 0xA1, 0xA2, 0xA3];

/// Rows with shared leaves: whether they are kept, and the row.
const SHARED_ROWS: &[(bool, Row)] = &[
    (true, (PAIR, FOUR, 10, "2", ONE, MOVED, PAIR_SMALLER)),
    (
        false,
        (PAIR, FOUR, 10, "2", NoRoom(11, 10), FOUR, UNTOUCHED),
    ),
    (false, (PAIR, FOUR, 11, "2", ONE, MOVED, PAIR_APART)),
    (true, (PAIR, FOUR, 9, "2", NoRoom(10, 9), FOUR, UNTOUCHED)),
    (true, (PAIR, FOUR, 16, "1", NoRoom(2, 1), FOUR, UNTOUCHED)),
    (true, (PAIR, FOUR, 16, "4", NONE, FOUR, PAIR)),
    (
        true,
        (BEFORE, FOUR, 16, "2", ONE, BEFORE_FILL, BEFORE_SMALLER),
    ),
];

/// The devices of a pool with this metadata.
fn devices_over(
    alloc: Global,
    meta: Vec<Block>,
    output_blocks: usize,
    fill: &[u8],
) -> Result<Box<Devices>, AllocError> {
    Devices::of(alloc, meta, vec![in alloc; ONES; output_blocks]?, fill)
}

/// How leaves are written that devices share: for each of them, or once.
const WAYS: &[bool] = &[false, true];

/// Makes a pool smaller, to at most so many data blocks, with its shared leaves or without.
fn shrink(
    alloc: Global,
    devices: &Devices,
    (shared, number): (bool, &str),
    failing: Failing,
) -> Result<Ran, AllocError> {
    let words = [
        "thin_shrink",
        "-i",
        "meta",
        "-o",
        "smaller",
        "--data",
        "third",
        "--nr-blocks",
        number,
        "--shared",
    ];
    let count = if shared { 10 } else { 9 };
    devices.run(alloc, &words[..count], failing)
}

/// The output is as it was, or is clean and dumps as this text.
fn expect_text(alloc: Global, before: &Devices, ran: &Ran, text: &str) -> Result<(), Fail> {
    if text == UNTOUCHED {
        return expect_held(alloc, &ran.output, before.output.as_slice(), "the output");
    }
    let image = blocks_of(alloc, &ran.output)?;
    if text.starts_with("thin 1") {
        return expect_dumped(alloc, ("thin_check", "thin_dump"), image.as_slice(), text);
    }
    let shape = ["thin_dump", "--shared", "image"];
    expect(
        alloc,
        &["thin_check", "image"],
        image.as_slice(),
        0,
        "clean\n",
    )?;
    expect(alloc, &shape, image.as_slice(), 0, text)
}

/// The metadata is as it was.
fn expect_kept(alloc: Global, before: &Devices, ran: &Ran) -> Result<(), Fail> {
    expect_held(alloc, &ran.input, before.meta.as_slice(), "the metadata")
}

/// Makes a pool smaller, which comes to this, leaves the metadata, and leaves this on the data device and this text.
fn expect_shrink(
    alloc: Global,
    before: &Devices,
    (shared, number, end): (bool, &str, End),
    after: &[u8],
    text: &str,
) -> Result<(), Fail> {
    let ran = shrink(alloc, before, (shared, number), NOTHING_FAILS)?;
    expect_end(alloc, &ran, end)?;
    expect_kept(alloc, before, &ran)?;
    let wanted = filled(alloc, after)?;
    expect_held(alloc, &ran.third, wanted.as_slice(), "the data device")?;
    expect_text(alloc, before, &ran, text)
}

/// Makes a pool of a text smaller.
fn expect_row(alloc: Global, shared: bool, row: &Row) -> Result<(), Fail> {
    let (text, fill, output_blocks, number, end, after, text_after) = *row;
    let meta = made(alloc, THIN, text, 16)?;
    let before = devices_over(alloc, meta, output_blocks, fill)?;
    expect_shrink(alloc, &*before, (shared, number, end), after, text_after)
}

#[test]
fn shrinks_move_what_lies_behind_and_write_a_smaller_pool(rt: HostRuntime) -> Result<(), Fail> {
    for row in ROWS {
        expect_row(rt.alloc(), false, row)?;
    }
    Ok(())
}

// No leaf of these pools is shared, so the option changes nothing.
#[test]
fn what_shares_nothing_is_made_smaller_as_without_the_option(rt: HostRuntime) -> Result<(), Fail> {
    for row in ROWS {
        expect_row(rt.alloc(), true, row)?;
    }
    Ok(())
}

#[test]
fn what_devices_share_stays_shared(rt: HostRuntime) -> Result<(), Fail> {
    for (shared, row) in SHARED_ROWS {
        expect_row(rt.alloc(), *shared, row)?;
    }
    Ok(())
}

/// A shrink of this metadata comes to this, and leaves this on the data device and this text, with the option and without.
fn expect_made_smaller(
    alloc: Global,
    meta: &[Block],
    (number, end): (&str, End),
    after: &[u8],
    text: &str,
) -> Result<(), Fail> {
    for shared in WAYS {
        let before = devices_over(alloc, Vec::from_slice(alloc, meta)?, 16, FOUR)?;
        expect_shrink(alloc, &*before, (*shared, number, end), after, text)?;
    }
    Ok(())
}

/// A leaf of mappings in which the virtual blocks 0 and 1 have these data blocks, at time 0.
#[tactic(auto, unfolding(pd_kinds::specs::Node::is_ascending))]
fn two_mappings(place: u64, first: u64, second: u64) -> Block
    requires first { first < 2 ^ 40 }
    requires second { second < 2 ^ 40 }
{
    let at = |block| BlockTime { block, time: 0 };
    write_leaf(place, &[(0, at(first)), (1, at(second))])
}

/// A bitmap in which these places, each below 4, have one reference.
fn counts(place: u64, used: &[usize]) -> Block {
    let mut block = bitmap(place, 0);
    for at in used {
        if *at < 4 {
            set_two_bits(&mut block, *at, 1);
        }
    }
    seal_bitmap(&mut block, place);
    block
}

/// The metadata of `POOL`, put together by hand, in which these data blocks have a reference.
#[tactic(auto, unfolding(pd_kinds::specs::Node::is_ascending))]
fn pool_with_counts(used: &[usize]) -> [Block; 16] {
    let mut fields = empty_super();
    fields.block_size = 8;
    fields.data_map = map_root(4, 2, 5, 6);
    fields.meta_map = map_root(16, 10, 7, 9);
    fields.mapping_root = 2;
    fields.details_root = 3;
    fields.meta_blocks = 16;
    let details = Details {
        mapped: 2,
        transaction: 0,
        created: 0,
        snapped: 0,
    };
    let mut image = [Block::zeros(); 16];
    image[0] = write_thin_super(&fields);
    image[1] = two_mappings(1, 0, 3);
    image[2] = device_leaf(2, 1);
    image[3] = write_leaf(3, &[(1, details)]);
    image[4] = counts(4, used);
    image[5] = index_leaf(5, 4);
    image[6] = empty_leaf::<Count>(6);
    image[7] = index(7, &[index_entry(8, 6)]);
    image[8] = bitmap(8, 10);
    image[9] = empty_leaf::<Count>(9);
    image
}

/// The same with a held copy, which alone uses the data blocks 1 and 2.
fn pool_with_held_blocks() -> [Block; 16] {
    let mut fields = empty_super();
    fields.block_size = 8;
    fields.data_map = map_root(4, 4, 5, 6);
    fields.meta_map = map_root(16, 13, 7, 9);
    fields.mapping_root = 2;
    fields.details_root = 3;
    fields.meta_blocks = 16;
    fields.held_root = 12;
    let mut image = pool_with_counts(&[0, 1, 2, 3]);
    image[0] = write_thin_super(&fields);
    image[8] = bitmap(8, 13);
    // The details are those of both.
    set_two_bits(&mut image[8], 3, 2);
    seal_bitmap(&mut image[8], 8);
    image[10] = two_mappings(10, 1, 2);
    image[11] = device_leaf(11, 10);
    fields.mapping_root = 11;
    fields.held_root = 0;
    image[12] = held_copy(12, &fields);
    image
}

/// The metadata of `POOL` with a damaged leaf.
fn torn_pool(alloc: Global) -> Result<Vec<Block>, Fail> {
    let mut torn = made(alloc, THIN, POOL, 16)?;
    torn[1] = damaged(torn[1], 100);
    Ok(torn)
}

#[test]
fn metadata_with_faults_is_not_made_smaller(rt: HostRuntime) -> Result<(), Fail> {
    let alloc = rt.alloc();
    let leak = pool_with_counts(&[0, 2, 3]);
    let report = Stopped("fault data 2 leak stored 1 references 0\nfaults 1\n");
    expect_made_smaller(alloc, &leak, ("2", report), FOUR, UNTOUCHED)?;
    let torn = torn_pool(alloc)?;
    let report = Stopped("fault meta 1 checksum\nfaults 1\n");
    expect_made_smaller(alloc, torn.as_slice(), ("2", report), FOUR, UNTOUCHED)?;
    Ok(())
}

#[test]
fn what_a_held_copy_uses_is_not_free(rt: HostRuntime) -> Result<(), Fail> {
    let alloc = rt.alloc();
    let held = pool_with_held_blocks();
    expect_made_smaller(alloc, &held, ("3", NoRoom(4, 3)), FOUR, UNTOUCHED)?;
    let alone = pool_with_counts(&[0, 3]);
    expect_made_smaller(alloc, &alone, ("2", ONE), MOVED, SMALLER)?;
    Ok(())
}

/// Two devices on one inner node, below which are two leaves: the metadata, put together by hand.
#[tactic(auto, unfolding(pd_kinds::specs::Node::is_ascending))]
fn pool_on_one_node() -> [Block; 16] {
    let mut fields = empty_super();
    fields.block_size = 8;
    fields.data_map = map_root(4, 3, 5, 6);
    fields.meta_map = map_root(16, 12, 7, 9);
    fields.mapping_root = 2;
    fields.details_root = 3;
    fields.meta_blocks = 16;
    let details = Details {
        mapped: 3,
        transaction: 0,
        created: 0,
        snapped: 0,
    };
    let third = BlockTime { block: 1, time: 0 };
    let mut image = pool_with_counts(&[0, 1, 3]);
    image[0] = write_thin_super(&fields);
    image[2] = write_leaf(2, &[(1, Root(11)), (2, Root(11))]);
    image[3] = write_leaf(3, &[(1, details), (2, details)]);
    image[7] = index(7, &[index_entry(8, 4)]);
    image[8] = bitmap(8, 12);
    // Both devices have the node.
    set_two_bits(&mut image[8], 11, 2);
    seal_bitmap(&mut image[8], 8);
    image[10] = write_leaf(10, &[(300, third)]);
    image[11] = write_inner(11, &[(0, 1), (300, 10)]);
    image
}

/// That pool with three data blocks, as it is dumped.
const ON_ONE_NODE_SMALLER: &str =
    "thin 2\npool 00000000-0000-0000-0000-000000000000 0 0 8 3\nleaf 0 2\nmap 0 0 1 0\nmap 1 2 1 0\nleaf 1 1\nmap 300 1 1 0\n\
     device 1 3 0 0 0\nuse 0\nuse 1\ndevice 2 3 0 0 0\nuse 0\nuse 1\nend\n";

const ON_ONE_NODE_FILL: Fill = &[0xA0, 0xA1, 0xA3, 0xA3];

#[test]
fn leaves_below_a_shared_node_stay_shared(rt: HostRuntime) -> Result<(), Fail> {
    let alloc = rt.alloc();
    let meta = Vec::from_slice(alloc, &pool_on_one_node())?;
    let before = devices_over(alloc, meta, 16, FOUR)?;
    expect_shrink(
        alloc,
        &*before,
        (true, "3", ONE),
        ON_ONE_NODE_FILL,
        ON_ONE_NODE_SMALLER,
    )?;
    Ok(())
}

/// What the device of `POOL` reads at its two virtual blocks, by the old metadata and by the new one: these data blocks.
const BY_OLD: [usize; 2] = [0, 3];

const BY_NEW: [usize; 2] = [0, 1];

/// Whether two blocks of the data device are those that the device of `POOL` read.
fn reads_the_same(third: &[Block], places: [usize; 2]) -> bool {
    let [first, second] = places;
    let is_first = third.get(first) == Some(&Block([0xA0; BLOCK_SIZE]));
    let is_second = third.get(second) == Some(&Block([0xA3; BLOCK_SIZE]));
    is_first & is_second
}

/// What of a stopped or failed shrink of `POOL` a crash leaves by these picks: the old output, the new one or none, and a data
/// device on which the old metadata reads the same, and so does the new one where the output isn't the old one.
fn expect_left(
    rt: &impl Abort,
    alloc: Global,
    before: &Devices,
    whole: &[Block],
    ran: &Ran,
    (of_output, of_third): (Pick, Pick),
) -> Result<(), AllocError> {
    let output = blocks_after_crash(alloc, &ran.output, of_output)?;
    let third = blocks_after_crash(alloc, &ran.third, of_third)?;
    let is_old = may_be_old(output.as_slice(), before.output.as_slice(), whole);
    let is_whole = third.len() == 4;
    let by_old = reads_the_same(third.as_slice(), BY_OLD);
    let by_new = reads_the_same(third.as_slice(), BY_NEW);
    assert!(rt; is_whole & by_old & (is_old == Some(true) || (is_old == Some(false)) & by_new));
    Ok(())
}

const TROUBLES: &[Trouble] = &[
    Trouble::Out,
    Trouble::Notes,
    Trouble::Input,
    Trouble::Output,
    Trouble::Third,
    Trouble::OutputStops,
    Trouble::ThirdStops,
];

/// More calls than an object of a shrink gets.
const MANY: u64 = 100;

/// What a shrink that failed leaves.
fn expect_failed(
    rt: &impl Abort,
    alloc: Global,
    before: &Devices,
    whole: &[Block],
    ran: &Ran,
) -> Result<(), Fail> {
    expect_kept(alloc, before, ran)?;
    for of_output in PICKS {
        for of_third in PICKS {
            expect_left(rt, alloc, before, whole, ran, (*of_output, *of_third))?;
        }
    }
    Ok(())
}

/// Whether a trouble at this call comes to none. Where it comes to one, the shrink fails by it.
fn is_past_trouble(
    rt: &impl Abort,
    alloc: Global,
    before: &Devices,
    (shared, whole): (bool, &[Block]),
    trouble: Trouble,
    call: u64,
) -> Result<bool, Fail> {
    let ran = shrink(alloc, before, (shared, "2"), trouble.at(call))?;
    let is_past = ran.status == 0;
    assert!(rt; is_past | (ran.status == trouble.status()), "{call}");
    if !is_past {
        expect_failed(rt, alloc, before, whole, &ran)?;
    }
    Ok(is_past)
}

/// Tries a trouble at each call, until it comes to none.
fn expect_troubles(
    rt: &impl Abort,
    alloc: Global,
    before: &Devices,
    made: (bool, &[Block]),
    trouble: Trouble,
) -> Result<(), Fail> {
    for call in 0..MANY {
        if is_past_trouble(rt, alloc, before, made, trouble, call)? {
            return Ok(());
        }
    }
    assert!(rt; false, "there are more calls");
    Ok(())
}

/// A shrink of this pool reads the same wherever it fails or stops.
fn expect_safe(rt: &impl Abort, alloc: Global, shared: bool, text: &str) -> Result<(), Fail> {
    let meta = made(alloc, THIN, text, 16)?;
    let before = devices_over(alloc, meta, 16, FOUR)?;
    let ran = shrink(alloc, &*before, (shared, "2"), NOTHING_FAILS)?;
    let whole = blocks_of(alloc, &ran.output)?;
    for trouble in TROUBLES {
        expect_troubles(rt, alloc, &*before, (shared, whole.as_slice()), *trouble)?;
    }
    Ok(())
}

#[test]
fn a_shrink_that_fails_or_stops_anywhere_reads_the_same(rt: HostRuntime) -> Result<(), Fail> {
    expect_safe(&rt, rt.alloc(), false, POOL)?;
    expect_safe(&rt, rt.alloc(), true, PAIR)?;
    Ok(())
}
