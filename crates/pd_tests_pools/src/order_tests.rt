//! Checks up to the order of the trees.

ghost use Rattle.std.specs.Prelude.{◌≡◌, ◌<◌, ◌≤◌, ◌^◌, IfOk, vec_len};

use crate::asked::{WHOLE_CHECK, expect_report, expect_restored};
use pd_crc::seal;
use pd_kinds::{Block, put_u64};
use pd_node::{write_inner, write_leaf};
use pd_samples::pool::{
    NODE_SALT, bitmap, device_leaf, empty_leaf, empty_super, index, index_entry, inner, map_root,
    mapping_leaf, pool_of_one_mapping, resealed,
};
use pd_supers::write_thin_super;
use pd_value::{BlockTime, Count, Details, Root};
use std::alloc::{AllocError, Global};
use std::process::Abort;
use std::test::Fail;

/// The words of the check up to the order of the trees.
const ORDER: &[&str] = &["thin_check", "--until", "order", "thin.img"];

/// The number of metadata blocks of a pool of chains.
const BLOCKS: usize = 256;

/// The leaf at the end of chains.
const LEAF: u64 = 255;

/// So many inner nodes from the first block on, each with one child: the next one, and the last this block.
type Chain = (u64, u64, u64);

/// Blocks from this one on, so many.
type Blocks = (u64, u64);

/// What a case shows, the two roots, the chains, and the blocks that are too deep.
type Case = (&'static str, [u64; 2], [Chain; 2], [Blocks; 2]);

/// Puts a line for each of these blocks, which are too deep.
fn put_levels(report: &mut String, blocks: Blocks) -> Result<(), Fail> {
    let (first, number) = blocks;
    for b in first..first.saturating_add(number) {
        writeln!(report, "fault meta {b} level")?;
    }
    Ok(())
}

/// The report where these blocks, ascending, are too deep.
fn levels(alloc: Global, deep: [Blocks; 2]) -> Result<String, Fail> {
    let mut report = String::new(alloc);
    let total = deep[0].1.saturating_add(deep[1].1);
    if total == 0 {
        writeln!(report, "clean")?;
        return Ok(report);
    }
    put_levels(&mut report, deep[0])?;
    put_levels(&mut report, deep[1])?;
    writeln!(report, "faults {total}")?;
    Ok(report)
}

/// A pool of 300 data blocks and 256 metadata blocks, whose devices 1 and 2 have these roots, and block 255
/// is a leaf of one mapping.
#[tactic(auto, unfolding(pd_kinds::specs::Node::is_ascending))]
fn pool_of_two(alloc: Global, first: u64, second: u64) -> Result<Vec<Block>, AllocError>
    ensures { IfOk result (λ image. vec_len image ≡ 256) }
{
    let mut fields = empty_super();
    fields.data_map = map_root(300, 1, 5, 6);
    fields.meta_map = map_root(BLOCKS as u64, 10, 7, 9);
    fields.mapping_root = 2;
    fields.details_root = 3;
    fields.meta_blocks = BLOCKS as u64;
    let details = Details {
        mapped: 1,
        transaction: 0,
        created: 0,
        snapped: 0,
    };
    let mut image = Vec::from_slice(alloc, &pool_of_one_mapping())?;
    image.resize(BLOCKS, Block::zeros())?;
    image[0] = write_thin_super(&fields);
    image[2] = write_leaf(2, &[(1, Root(first)), (2, Root(second))]);
    image[3] = write_leaf(3, &[(1, details), (2, details)]);
    image[255] = mapping_leaf(LEAF, 0);
    Ok(image)
}

/// Puts a chain into an image.
fn put_chain(rt: &impl Abort, image: &mut [Block], chain: Chain) {
    let (first, number, end) = chain;
    let last = first.saturating_add(number).saturating_sub(1);
    for place in first..first.saturating_add(number) {
        let child = if place == last {
            end
        } else {
            place.saturating_add(1)
        };
        let b = place as usize;
        assert!(rt; b < image.len());
        image[b] = inner(place, child);
    }
}

/// Checks a pool of chains, where just these blocks must be too deep.
fn expect_levels(rt: &impl Abort, alloc: Global, case: &Case) -> Result<(), Fail> {
    let (shows, roots, chains, deep) = *case;
    let mut image = pool_of_two(alloc, roots[0], roots[1])?;
    put_chain(rt, image.as_mut_slice(), chains[0]);
    put_chain(rt, image.as_mut_slice(), chains[1]);
    let report = levels(alloc, deep)?;
    expect_report(rt, alloc, ORDER, shows, image.as_slice(), report.as_str())?;
    Ok(())
}

/// Chains, most of them of about 64 nodes.
const CASES: &[Case] = &[
    (
        "63 alone",
        [20, 20],
        [(20, 63, LEAF), (20, 0, 0)],
        [(20, 0), (0, 0)],
    ),
    (
        "64 alone",
        [20, 20],
        [(20, 64, LEAF), (20, 0, 0)],
        [(20, 1), (0, 0)],
    ),
    (
        "65 alone",
        [20, 20],
        [(20, 65, LEAF), (20, 0, 0)],
        [(20, 2), (0, 0)],
    ),
    (
        "63 behind another",
        [100, 100],
        [(20, 63, LEAF), (100, 3, 20)],
        [(20, 0), (100, 3)],
    ),
    (
        "64 behind another",
        [100, 100],
        [(20, 64, LEAF), (100, 3, 20)],
        [(20, 1), (100, 3)],
    ),
    (
        "65 behind another",
        [100, 100],
        [(20, 65, LEAF), (100, 3, 20)],
        [(20, 2), (100, 3)],
    ),
    (
        "behind an earlier one",
        [10, 10],
        [(10, 3, 20), (20, 63, LEAF)],
        [(10, 3), (20, 0)],
    ),
    (
        "63 shared",
        [20, 100],
        [(20, 63, LEAF), (100, 1, 20)],
        [(20, 0), (100, 1)],
    ),
    (
        "63 shared, turned round",
        [100, 20],
        [(20, 63, LEAF), (100, 1, 20)],
        [(20, 0), (100, 1)],
    ),
    (
        "63 shared by an earlier one",
        [10, 20],
        [(10, 1, 20), (20, 63, LEAF)],
        [(10, 1), (20, 0)],
    ),
    (
        "64 shared",
        [20, 100],
        [(20, 64, LEAF), (100, 1, 20)],
        [(20, 1), (100, 1)],
    ),
    (
        "65 shared in its middle",
        [20, 100],
        [(20, 65, LEAF), (100, 1, 22)],
        [(20, 2), (100, 1)],
    ),
    (
        "62 left of 65",
        [20, 100],
        [(20, 65, LEAF), (100, 1, 23)],
        [(20, 2), (100, 0)],
    ),
    (
        "far too many",
        [20, 20],
        [(20, 200, LEAF), (20, 0, 0)],
        [(20, 137), (0, 0)],
    ),
    (
        "a node in itself",
        [20, 20],
        [(20, 1, 20), (20, 0, 0)],
        [(20, 1), (0, 0)],
    ),
    (
        "a cycle of two",
        [20, 21],
        [(20, 2, 20), (20, 0, 0)],
        [(20, 2), (0, 0)],
    ),
    (
        "a cycle behind a chain",
        [10, 20],
        [(10, 5, 20), (20, 100, 30)],
        [(10, 5), (20, 100)],
    ),
];

#[test]
fn chains_of_64_inner_nodes_are_too_deep(rt: HostRuntime) -> Result<(), Fail> {
    for case in CASES {
        expect_levels(&rt, rt.alloc(), case)?;
    }
    Ok(())
}

#[test]
fn a_node_that_is_its_own_child_is_too_deep(rt: HostRuntime) -> Result<(), Fail> {
    let mut pool = pool_of_one_mapping();
    expect_report(&rt, rt.alloc(), ORDER, "one mapping", &pool, "clean\n")?;
    pool[1] = inner(1, 1);
    let report = "fault meta 1 level\nfaults 1\n";
    expect_report(&rt, rt.alloc(), ORDER, "a node in itself", &pool, report)?;
    Ok(())
}

/// A leaf of mappings of the virtual blocks from this one on, so many, to the data blocks from another one on.
fn leaf_of(place: u64, first: u64, number: u64, target: u64) -> Block
    requires number { number ≤ 252 }
    requires first { first < 2 ^ 32 }
    requires target { target < 2 ^ 32 }
{
    let mut leaf = mapping_leaf(place, 0);
    // The number of entries, and the greatest one; keys from 32 on, and values from 2048 on.
    put_u64(&mut leaf.0, 16, number + (252 << 32));
    for i in 0..number {
        let at = 8 * i as usize;
        put_u64(&mut leaf.0, 32 + at, first + i);
        put_u64(&mut leaf.0, 2048 + at, (target + i) << 24);
    }
    seal(&mut leaf, NODE_SALT);
    leaf
}

#[test]
#[tactic(auto, unfolding(pd_kinds::specs::Node::is_ascending))]
fn a_shared_leaf_is_out_of_range_under_one_of_two_parents(rt: HostRuntime) -> Result<(), Fail> {
    let alloc = rt.alloc();
    let mut image = pool_of_two(alloc, 20, 21)?;
    image[10] = leaf_of(10, 0, 51, 0);
    image[11] = leaf_of(11, 100, 1, 51);
    image[12] = leaf_of(12, 60, 1, 52);
    image[20] = write_inner(20, &[(0, 10), (100, 11)]);
    image[21] = write_inner(21, &[(0, 10), (50, 12)]);
    let report = "fault meta 21 range\nfaults 1\n";
    expect_report(&rt, alloc, ORDER, "key 50 twice", image.as_slice(), report)?;
    expect_report(
        &rt,
        alloc,
        WHOLE_CHECK,
        "a whole check",
        image.as_slice(),
        report,
    )?;
    image[21] = write_inner(21, &[(0, 10), (51, 12)]);
    expect_report(
        &rt,
        alloc,
        ORDER,
        "up to the next key",
        image.as_slice(),
        "clean\n",
    )?;
    image[21] = write_inner(21, &[(1, 10), (51, 12)]);
    expect_report(&rt, alloc, ORDER, "below its key", image.as_slice(), report)?;
    image[21] = write_inner(21, &[(0, 10), (61, 12)]);
    expect_report(
        &rt,
        alloc,
        ORDER,
        "the last below its key",
        image.as_slice(),
        report,
    )?;
    image[12] = empty_leaf::<BlockTime>(12);
    image[21] = write_inner(21, &[(0, 10), (51, 12)]);
    expect_report(
        &rt,
        alloc,
        ORDER,
        "a child without keys",
        image.as_slice(),
        report,
    )?;
    // Both children are one leaf, whose key 0 isn't in the range of the second.
    image[21] = write_inner(21, &[(0, LEAF), (1, LEAF)]);
    expect_report(
        &rt,
        alloc,
        ORDER,
        "one leaf twice",
        image.as_slice(),
        report,
    )?;
    // A child that is too deep makes the node too deep, and then nothing is said of its range.
    put_chain(&rt, image.as_mut_slice(), (30, 64, LEAF));
    image[21] = write_inner(21, &[(0, 30), (7, 30)]);
    let report = "fault meta 21 level\nfault meta 30 level\nfaults 2\n";
    expect_report(
        &rt,
        alloc,
        ORDER,
        "children that are too deep",
        image.as_slice(),
        report,
    )?;
    Ok(())
}

/// A pool of 300 data blocks, of which the virtual blocks 0 to 252 of device 1 are mapped to 0 to 252.
#[tactic(auto, unfolding(pd_kinds::specs::Node::is_ascending))]
fn pool_of_two_leaves(alloc: Global) -> Result<Vec<Block>, AllocError>
    ensures { IfOk result (λ image. vec_len image ≡ 16) }
{
    let mut fields = empty_super();
    fields.data_map = map_root(300, 253, 7, 8);
    fields.meta_map = map_root(16, 12, 9, 11);
    fields.mapping_root = 4;
    fields.details_root = 5;
    fields.meta_blocks = 16;
    let details = Details {
        mapped: 253,
        transaction: 0,
        created: 0,
        snapped: 0,
    };
    let mut image = Vec::new(alloc);
    image.resize(16, Block::zeros())?;
    image[0] = write_thin_super(&fields);
    image[1] = leaf_of(1, 0, 127, 0);
    image[2] = leaf_of(2, 127, 126, 127);
    image[3] = write_inner(3, &[(0, 1), (127, 2)]);
    image[4] = device_leaf(4, 3);
    image[5] = write_leaf(5, &[(1, details)]);
    image[6] = bitmap(6, 253);
    image[7] = write_leaf(7, &[(0, index_entry(6, 47))]);
    image[8] = empty_leaf::<Count>(8);
    image[9] = index(9, &[index_entry(10, 4)]);
    image[10] = bitmap(10, 12);
    image[11] = empty_leaf::<Count>(11);
    Ok(image)
}

/// The text of that pool.
const TWO_LEAVES: &str =
    "thin 1\npool 00000000-0000-0000-0000-000000000000 0 0 128 300\ndevice 1 253 0 0 0\nmap 0 0 253 0\nend\n";

#[test]
fn swapped_keys_break_order_at_the_walk(rt: HostRuntime) -> Result<(), Fail> {
    let alloc = rt.alloc();
    let mut image = pool_of_two_leaves(alloc)?;
    expect_restored(&rt, alloc, TWO_LEAVES, image.as_slice())?;
    expect_report(&rt, alloc, ORDER, "two leaves", image.as_slice(), "clean\n")?;
    // The first two keys stand at 32 and 40.
    image[1] = resealed(resealed(image[1], NODE_SALT, 32, 1), NODE_SALT, 40, 0);
    let report = "fault meta 1 order\nfaults 1\n";
    expect_report(&rt, alloc, ORDER, "swapped keys", image.as_slice(), report)?;
    expect_report(
        &rt,
        alloc,
        WHOLE_CHECK,
        "swapped keys",
        image.as_slice(),
        report,
    )?;
    Ok(())
}
