//! Repairs that keep what snapshots share: what is written once, how much room it takes, and that the mappings are those of a
//! repair that shares nothing.

ghost use Rattle.std.specs.Prelude.{◌≤◌, ◌<◌, ◌^◌};

use pd_crc::seal;
use pd_kinds::{Block, put_u32, put_u64};
use pd_node::{write_inner, write_leaf};
use pd_samples::expected::{
    ONES, Trouble, expect, expect_held, expect_output_fault, expect_said, expect_so, pool_of,
};
use pd_samples::pool::{NODE_SALT, damaged, empty_super, map_root};
use pd_samples::runs::{Failing, Held, NOTHING_FAILS, Ran, blocks_of, run, run_over};
use pd_supers::write_thin_super;
use pd_value::{Details, Root};
use std::alloc::{AllocError, Global};
use std::process::Abort;
use std::test::Fail;

/// The words of a repair, of one that keeps what is shared, and of a search that does.
pub(crate) const PLAIN: &[&str] = &["thin_repair", "-i", "image", "-o", "repaired"];

pub(crate) const SHARED: &[&str] = &["thin_repair", "--shared", "-i", "image", "-o", "repaired"];

const SEARCH: &[&str] = &[
    "thin_repair",
    "-i",
    "image",
    "-o",
    "repaired",
    "--transaction-id",
    "0",
    "--shared",
    "--data-block-size",
    "128",
    "--nr-data-blocks",
    "2",
];

/// Two devices whose mappings are one leaf, and the same where nothing is left of the leaf.
pub(crate) const TWO_ON_ONE_LEAF: &str =
    "thin 2\npool 00000000-0000-0000-0000-000000000000 0 0 128 2\nleaf 0 2\nmap 0 0 2 0\ndevice 1 2 0 0 0\nuse 0\n\
     device 2 2 0 0 0\nuse 0\nend\n";

/// The same, where they were snapped after the leaf's mappings were made, and so was the pool's time.
const TWO_SEEN: &str =
    "thin 2\npool 00000000-0000-0000-0000-000000000000 1 0 128 2\nleaf 0 2\nmap 0 0 2 0\ndevice 1 2 0 0 1\nuse 0\n\
     device 2 2 0 0 1\nuse 0\nend\n";

const TWO_EMPTY: &str =
    "thin 2\npool 00000000-0000-0000-0000-000000000000 0 0 128 2\ndevice 1 0 0 0 0\ndevice 2 0 0 0 0\nend\n";

/// Two leaves of 126 mappings that two devices share: they need more room than one device's own leaf, twice.
const TWO_HALVES: &str =
    "thin 2\npool 00000000-0000-0000-0000-000000000000 0 0 128 252\nleaf 0 126\nmap 0 0 126 0\nleaf 1 126\nmap 126 126 126 0\n\
     device 1 252 0 0 0\nuse 0\nuse 1\ndevice 2 252 0 0 0\nuse 0\nuse 1\nend\n";

/// What is saved of a leaf that one of two devices has in part.
const CUT_LEAF: &str =
    "thin 2\npool 00000000-0000-0000-0000-000000000000 0 0 128 300\ndevice 1 252 0 0 0\nmap 0 0 252 0\ndevice 2 101 0 0 0\n\
     map 0 0 100 0\nmap 300 252 1 0\nend\n";

/// Repairs an image onto these blocks.
pub(crate) fn repair(
    alloc: Global,
    words: &[&str],
    image: &[Block],
    base: &[Block],
    failing: Failing,
) -> Result<Ran, AllocError> {
    let held = Held {
        text: b"",
        input: image,
        output: base,
        third: &[],
    };
    run_over(alloc, words, held, failing)
}

/// The blocks that a repair makes of so many blocks of ones, on which there is just room for it, by what it puts.
pub(crate) fn repaired(
    alloc: Global,
    words: &[&str],
    image: &[Block],
    need: usize,
    out: &str,
) -> Result<Vec<Block>, Fail>
    requires { 1 ≤ need }
{
    let base = vec![in alloc; ONES; need]?;
    let fewer = base.len() - 1;
    let refused = repair(alloc, words, image, &base[..fewer], NOTHING_FAILS)?;
    let notes = format!(in alloc; "pdata_tools: no room: need {need}, blocks {fewer}\n")?;
    expect_said(&refused, 4, "", notes.as_str())?;
    expect_held(alloc, &refused.output, &base[..fewer], "nothing is written")?;
    let ran = repair(alloc, words, image, base.as_slice(), NOTHING_FAILS)?;
    expect_said(&ran, 0, out, "")?;
    expect_held(alloc, &ran.input, image, "the input stays")?;
    Ok(blocks_of(alloc, &ran.output)?)
}

/// These blocks are a clean pool, which is dumped as this text with its shared leaves.
pub(crate) fn expect_shape(alloc: Global, made: &[Block], text: &str) -> Result<(), Fail> {
    expect(alloc, &["thin_check", "image"], made, 0, "clean\n")?;
    expect(alloc, &["thin_dump", "--shared", "image"], made, 0, text)
}

/// The pool of a text, the block of it that is damaged, if any, what is kept of it, and the room that this takes with its
/// leaves shared and without.
type Kept = (&'static str, Option<usize>, &'static str, usize, usize);

const KEPT: &[Kept] = &[
    (TWO_ON_ONE_LEAF, None, TWO_ON_ONE_LEAF, 10, 11),
    (TWO_ON_ONE_LEAF, Some(1), TWO_EMPTY, 11, 11),
    (TWO_HALVES, None, TWO_HALVES, 13, 11),
];

/// A row holds.
fn expect_kept(alloc: Global, row: &Kept) -> Result<(), Fail> {
    let (text, broken, kept, shared, plain) = *row;
    let mut image = pool_of(alloc, text, 16)?;
    if let Some(b) = broken {
        expect_so(b < 16, "a block")?;
        image[b] = damaged(image[b], 100);
    }
    expect_so((shared > 0) & (plain > 0), "some room")?;
    let made = repaired(alloc, SHARED, image.as_slice(), shared, "")?;
    expect_shape(alloc, made.as_slice(), kept)?;
    repaired(alloc, PLAIN, image.as_slice(), plain, "")?;
    Ok(())
}

#[test]
fn a_leaf_that_is_met_whole_twice_is_written_once(rt: HostRuntime) -> Result<(), Fail> {
    for row in KEPT {
        expect_kept(rt.alloc(), row)?;
    }
    Ok(())
}

#[test]
fn a_search_keeps_what_is_shared(rt: HostRuntime) -> Result<(), Fail> {
    let mut image = pool_of(rt.alloc(), TWO_ON_ONE_LEAF, 16)?;
    image[0] = Block::zeros();
    let out = "roots 2 3 mappings 4 time 0\n";
    let made = repaired(rt.alloc(), SEARCH, image.as_slice(), 10, out)?;
    expect_shape(rt.alloc(), made.as_slice(), TWO_SEEN)?;
    Ok(())
}

/// A leaf of so many mappings from these blocks on, in a row.
fn row_of(place: u64, virtual_block: u64, data_block: u64, number: usize) -> Block
    requires few { number ≤ 252 }
    requires virtually { virtual_block < 2 ^ 32 }
    requires data { data_block < 2 ^ 32 }
{
    let mut block = Block::zeros();
    put_u32(&mut block.0, 4, 2);
    put_u64(&mut block.0, 8, place);
    put_u32(&mut block.0, 16, number as u32);
    put_u32(&mut block.0, 20, 252);
    put_u32(&mut block.0, 24, 8);
    for i in 0..number {
        put_u64(&mut block.0, 32 + 8 * i, virtual_block + i as u64);
        put_u64(
            &mut block.0,
            2048 + 8 * i,
            (data_block + i as u64) * 16777216,
        );
    }
    seal(&mut block, NODE_SALT);
    block
}

/// The superblock of a pool of so many data blocks on 32 blocks, whose mapping tree is block 2 and whose details are block 3.
fn super_of(data_blocks: u64) -> Block {
    let mut fields = empty_super();
    fields.data_map = map_root(data_blocks, 0, 5, 6);
    fields.meta_map = map_root(32, 32, 7, 9);
    fields.mapping_root = 2;
    fields.details_root = 3;
    fields.meta_blocks = 32;
    write_thin_super(&fields)
}

/// Details of a device with so many mappings.
pub(crate) fn details(mapped: u64) -> Details {
    Details {
        mapped,
        transaction: 0,
        created: 0,
        snapped: 0,
    }
}

/// Leaf 10 stands below both devices, but below the second one its keys end before 100.
#[tactic(auto, unfolding(pd_kinds::specs::Node::is_ascending))]
fn cut_leaf() -> [Block; 32] {
    let mut image = [Block::zeros(); 32];
    image[0] = super_of(300);
    image[2] = write_leaf(2, &[(1, Root(20)), (2, Root(21))]);
    image[3] = write_leaf(3, &[(1, details(252)), (2, details(101))]);
    image[10] = row_of(10, 0, 0, 252);
    image[11] = row_of(11, 300, 252, 1);
    image[20] = write_inner(20, &[(0, 10)]);
    image[21] = write_inner(21, &[(0, 10), (100, 11)]);
    image
}

#[test]
fn a_leaf_that_a_range_cuts_is_not_shared(rt: HostRuntime) -> Result<(), Fail> {
    let made = repaired(rt.alloc(), SHARED, &cut_leaf(), 11, "")?;
    expect_shape(rt.alloc(), made.as_slice(), CUT_LEAF)?;
    Ok(())
}

/// A pool of six devices: block 20 is above leaves 10 and 11, 21 above 10 and 12. Devices 1 and 2 begin at 20, 3 at 21, 4 at 10,
/// 5 at 12, and 6 at a leaf of its own, 13.
#[tactic(auto, unfolding(pd_kinds::specs::Node::is_ascending))]
fn six_devices() -> [Block; 32] {
    let mut image = [Block::zeros(); 32];
    image[0] = super_of(100);
    image[2] = write_leaf(
        2,
        &[
            (1, Root(20)),
            (2, Root(20)),
            (3, Root(21)),
            (4, Root(10)),
            (5, Root(12)),
            (6, Root(13)),
        ],
    );
    image[3] = write_leaf(
        3,
        &[
            (1, details(8)),
            (2, details(8)),
            (3, details(8)),
            (4, details(4)),
            (5, details(4)),
            (6, details(3)),
        ],
    );
    image[10] = row_of(10, 0, 0, 4);
    image[11] = row_of(11, 10, 10, 4);
    image[12] = row_of(12, 20, 20, 4);
    image[13] = row_of(13, 0, 30, 3);
    image[20] = write_inner(20, &[(0, 10), (10, 11)]);
    image[21] = write_inner(21, &[(0, 10), (20, 12)]);
    image
}

/// The block of the pool of six devices that is damaged, and how many blocks are then needed with shared leaves and without. A
/// leaf has few mappings there, so a device's own leaf takes no more room than the node above two shared ones.
const DAMAGES: &[(usize, usize, usize)] = &[
    (31, 16, 15),
    (2, 9, 9),
    (3, 16, 15),
    (10, 13, 15),
    (11, 13, 15),
    (12, 15, 15),
    (13, 16, 15),
    (20, 15, 15),
    (21, 16, 15),
];

/// The plain dump of a clean pool.
fn dump_of(alloc: Global, made: &[Block]) -> Result<Ran, Fail> {
    expect(alloc, &["thin_check", "image"], made, 0, "clean\n")?;
    Ok(run(alloc, &["thin_dump", "image"], made, NOTHING_FAILS)?)
}

/// With one block damaged both repairs need so many blocks, and keep the same mappings.
fn expect_same_mappings(alloc: Global, row: &(usize, usize, usize)) -> Result<(), Fail> {
    let (b, shared, plain) = *row;
    expect_so(
        (b < 32) & (shared > 0) & (plain > 0),
        "a block, and some room",
    )?;
    let mut image = six_devices();
    image[b] = damaged(image[b], 100);
    let with_sharing = repaired(alloc, SHARED, &image, shared, "")?;
    let without = repaired(alloc, PLAIN, &image, plain, "")?;
    let one = dump_of(alloc, with_sharing.as_slice())?;
    let other = dump_of(alloc, without.as_slice())?;
    let is_same = one.out.bytes() == other.out.bytes();
    expect_so(is_same & (one.status == 0), "the same mappings")
}

#[test]
fn damage_costs_the_same_mappings_with_shared_leaves_kept(rt: HostRuntime) -> Result<(), Fail> {
    for row in DAMAGES {
        expect_same_mappings(rt.alloc(), row)?;
    }
    Ok(())
}

/// What is saved of the pool of six devices where leaf 11 is damaged.
const WITHOUT_ELEVEN: &str =
    "thin 2\npool 00000000-0000-0000-0000-000000000000 0 0 128 100\nleaf 0 4\nmap 0 0 4 0\nleaf 1 4\nmap 20 20 4 0\n\
     device 1 4 0 0 0\nuse 0\ndevice 2 4 0 0 0\nuse 0\ndevice 3 8 0 0 0\nuse 0\nuse 1\ndevice 4 4 0 0 0\nuse 0\n\
     device 5 4 0 0 0\nuse 1\ndevice 6 3 0 0 0\nmap 0 30 3 0\nend\n";

#[test]
fn a_damaged_leaf_is_no_devices_and_the_others_stay_shared(rt: HostRuntime) -> Result<(), Fail> {
    let mut image = six_devices();
    image[11] = damaged(image[11], 100);
    let made = repaired(rt.alloc(), SHARED, &image, 13, "")?;
    expect_shape(rt.alloc(), made.as_slice(), WITHOUT_ELEVEN)?;
    Ok(())
}

// A leaf with a mapping past the pool's end isn't whole for anybody.
#[test]
fn a_leaf_with_a_mapping_past_the_end_is_not_shared(rt: HostRuntime) -> Result<(), Fail> {
    let mut image = six_devices();
    image[10] = row_of(10, 0, 97, 4);
    let made = repaired(rt.alloc(), SHARED, &image, 19, "")?;
    expect_shape(rt.alloc(), made.as_slice(), PAST_THE_END)?;
    Ok(())
}

const PAST_THE_END: &str =
    "thin 2\npool 00000000-0000-0000-0000-000000000000 0 0 128 100\nleaf 0 4\nmap 10 10 4 0\nleaf 1 4\nmap 20 20 4 0\n\
     device 1 7 0 0 0\nmap 0 97 3 0\nuse 0\ndevice 2 7 0 0 0\nmap 0 97 3 0\nuse 0\ndevice 3 7 0 0 0\nmap 0 97 3 0\nuse 1\n\
     device 4 3 0 0 0\nmap 0 97 3 0\ndevice 5 4 0 0 0\nuse 1\ndevice 6 3 0 0 0\nmap 0 30 3 0\nend\n";

/// How many calls of a device a repair makes at most.
const MANY: u64 = 100;

/// Whether a repair has no such call. Where it has, it fails in that call: of the input with nothing written, of the output with
/// what it held, no valid superblock, or what is made.
fn is_past(alloc: Global, trouble: Trouble, new: &[Block], call: u64) -> Result<bool, Fail> {
    let base = [ONES; 16];
    let ran = repair(alloc, SHARED, &six_devices(), &base, trouble.at(call))?;
    let is_past = ran.status == 0;
    if !is_past {
        expect_output_fault(alloc, &ran, &base, new)?;
    }
    Ok(is_past)
}

/// Each call of this object fails in turn, up to one that isn't made.
fn expect_failures(alloc: Global, trouble: Trouble, new: &[Block], least: u64) -> Result<(), Fail> {
    for call in 0..MANY {
        if is_past(alloc, trouble, new, call)? {
            return expect_so(call > least, "more calls");
        }
    }
    expect_so(false, "an end")
}

#[test]
fn each_call_of_the_devices_may_fail(rt: HostRuntime) -> Result<(), Fail> {
    let new = repaired(rt.alloc(), SHARED, &six_devices(), 16, "")?;
    expect_failures(rt.alloc(), Trouble::Input, new.as_slice(), 9)?;
    expect_failures(rt.alloc(), Trouble::InputStops, new.as_slice(), 9)?;
    expect_failures(rt.alloc(), Trouble::Output, new.as_slice(), 17)?;
    expect_failures(rt.alloc(), Trouble::OutputStops, new.as_slice(), 17)?;
    Ok(())
}
