//! Checks up to the walk: the rules of each block by itself, and its roles.

use crate::asked::{expect_report, expect_run};
use pd_kinds::{Block, Kind};
use pd_samples::pool::{
    DEVICE, NODE_SALT, bitmap, damaged, device_leaf, empty_pool, empty_super, held_copy, index,
    index_entry, index_leaf, inner, map_root, mapping_leaf, pool_of_one_mapping,
    pool_with_held_copy, resealed, zeros_behind,
};
use pd_samples::runs::{Failing, NOTHING_FAILS};
use pd_supers::write_thin_super;
use std::alloc::{AllocError, Global};
use std::process::Abort;
use std::test::Fail;

/// The words of the check up to the walk.
const WALK: &[&str] = &["thin_check", "--until", "walk", "thin.img"];

/// An image that differs from another one in one block: what it shows, the number of the block and the
/// block, and the number of the block that breaks rules then, and the words for these rules in their order.
type Case = (&'static str, usize, Block, &'static str, &'static str);

/// Puts these parts of a line.
fn put_parts(report: &mut String, parts: &[&str]) -> Result<(), AllocError> {
    for part in parts {
        report.push_str(part)?;
    }
    Ok(())
}

/// How a report of so many faults ends.
fn end_of(total: u8) -> &'static str {
    match total {
        0 => "clean\n",
        1 => "faults 1\n",
        2 => "faults 2\n",
        _ => "faults 3\n",
    }
}

/// The printed report where this block breaks these rules, up to three.
fn report_on(alloc: Global, b: &str, rules: &str) -> Result<String, AllocError> {
    let mut report = String::new(alloc);
    let mut total: u8 = 0;
    for rule in rules.split_whitespace() {
        put_parts(&mut report, &["fault meta ", b, " ", rule, "\n"])?;
        total = total.saturating_add(1);
    }
    put_parts(&mut report, &[end_of(total)])?;
    Ok(report)
}

/// The bytes of the first twelve counts of a bitmap.
fn first_counts(bitmap: &Block) -> [u8; 3] {
    [bitmap.0[16], bitmap.0[17], bitmap.0[18]]
}

/// Checks an image with one block changed.
fn expect_case(rt: &impl Abort, alloc: Global, image: &[Block], case: &Case) -> Result<(), Fail> {
    let (shows, b, block, at, rules) = case;
    let mut changed = Vec::from_slice(alloc, image)?;
    assert!(rt; *b < changed.len());
    changed[*b] = *block;
    let report = report_on(alloc, at, rules)?;
    expect_report(rt, alloc, WALK, shows, changed.as_slice(), report.as_str())?;
    Ok(())
}

/// Checks each image that differs from this one in one block.
fn expect_each(
    rt: &impl Abort,
    alloc: Global,
    image: &[Block],
    cases: &[Case],
) -> Result<(), Fail> {
    for case in cases {
        expect_case(rt, alloc, image, case)?;
    }
    Ok(())
}

#[test]
fn a_sound_pool_is_clean(rt: HostRuntime) -> Result<(), Fail> {
    let alloc = rt.alloc();
    let empty = empty_pool();
    let pool = pool_of_one_mapping();
    let held = pool_with_held_copy();
    // Four counts a byte: 1 is the bits 10, 2 the bits 01, the first count the lowest.
    assert!(rt; first_counts(&empty[6]) == [0xaa, 0xaa, 0]);
    assert!(rt; first_counts(&pool[4]) == [0x02, 0, 0]);
    assert!(rt; first_counts(&pool[8]) == [0xaa, 0xaa, 0x0a]);
    assert!(rt; first_counts(&held[6]) == [0x96, 0xaa, 0x02]);
    expect_report(&rt, alloc, WALK, "an empty pool", &empty, "clean\n")?;
    expect_report(&rt, alloc, WALK, "one mapping", &pool, "clean\n")?;
    expect_report(&rt, alloc, WALK, "a held copy", &held, "clean\n")?;
    Ok(())
}

#[test]
fn zeros_break_checksum_where_they_are_reached(rt: HostRuntime) -> Result<(), Fail> {
    let mut fields = empty_super();
    // The bitmap, block 6, is named by the index block alone, and a block with a bad rule names nothing.
    let report = "fault meta 1 checksum\nfault meta 2 checksum\nfault meta 3 checksum\n\
                  fault meta 4 checksum\nfault meta 5 checksum\nfault meta 7 checksum\nfaults 6\n";
    let image = zeros_behind(&fields);
    expect_report(&rt, rt.alloc(), WALK, "a sound superblock", &image, report)?;
    // What the superblock breaks is told alone: it has nine blocks, on a device of eight.
    fields.meta_map.blocks = 9;
    let report = "fault meta 0 size\nfaults 1\n";
    let image = zeros_behind(&fields);
    expect_report(&rt, rt.alloc(), WALK, "a broken superblock", &image, report)?;
    Ok(())
}

#[test]
fn reports_what_a_block_of_a_pool_breaks(rt: HostRuntime) -> Result<(), Fail> {
    let pool = pool_of_one_mapping();
    let bitmap_8 = index(7, &[index_entry(8, 6); 255]);
    let bitmap_16 = index(7, &[index_entry(16, 6); 255]);
    let bitmap_7 = index(7, &[index_entry(7, 6); 255]);
    let cases: [Case; 13] = [
        ("a leaf's bit", 1, damaged(pool[1], 100), "1", "checksum"),
        ("a checksum", 8, damaged(pool[8], 0), "8", "checksum"),
        ("a root of 0", 2, device_leaf(2, 0), "2", "pointer"),
        ("past the end", 2, device_leaf(2, 16), "2", "pointer"),
        // The last block may be named; it is zero here.
        ("the last block", 2, device_leaf(2, 15), "15", "checksum"),
        ("a child of 0", 1, inner(1, 0), "1", "pointer"),
        // The pool has data block 0 alone.
        ("past the data", 1, mapping_leaf(1, 1), "1", "beyond"),
        // A cycle in one role breaks no rule of a block by itself.
        ("a node that names itself", 1, inner(1, 1), "1", ""),
        // Its value 2, read as a mapping, is data block 0 at time 2.
        ("a tree in itself", 2, device_leaf(2, 2), "2", "role"),
        // Sixteen blocks have one bitmap: only the first of 255 entries is looked at.
        ("an index of one bitmap", 7, bitmap_8, "7", ""),
        ("a bitmap past the end", 7, bitmap_16, "7", "pointer"),
        // A bitmap has another salt than an index block.
        ("an index of itself", 7, bitmap_7, "7", "checksum role"),
        // Bitmaps of data and of metadata are alike.
        ("one bitmap for both", 5, index_leaf(5, 8), "8", "role"),
    ];
    expect_each(&rt, rt.alloc(), &pool, &cases)?;
    Ok(())
}

/// What a changed leaf shows, an offset in it and the eight bytes from there, and what they break.
type Field = (&'static str, usize, u64, &'static str);

const FIELDS: &[Field] = &[
    ("neither inner nor leaf", 0, 3 << 32, "flags"),
    ("another place", 8, 2, "place"),
    // The second of two entries has key 0 too.
    ("equal keys", 16, 2 + (252 << 32), "order"),
    ("more entries than room", 16, 253 + (252 << 32), "shape"),
    // 32 + 254 * (8 + 8) is 4096. The value stands further behind then, and is 0 there too.
    ("room for a whole block", 16, 1 + (254 << 32), ""),
    ("room for more", 16, 1 + (255 << 32), "shape"),
    ("values of four bytes", 24, 4, "shape"),
    // An inner node with the child 0.
    ("an inner node", 0, 1 << 32, "pointer"),
];

/// Checks the pool of one mapping with this field of its leaf changed.
fn expect_field(rt: &impl Abort, alloc: Global, field: Field) -> Result<(), Fail> {
    let (shows, offset, value, rules) = field;
    let pool = pool_of_one_mapping();
    assert!(rt; offset < 4088);
    let leaf = resealed(pool[1], NODE_SALT, offset, value);
    expect_case(rt, alloc, &pool, &(shows, 1, leaf, "1", rules))
}

#[test]
fn reports_what_fields_of_a_leaf_break(rt: HostRuntime) -> Result<(), Fail> {
    for field in FIELDS {
        expect_field(&rt, rt.alloc(), *field)?;
    }
    Ok(())
}

#[test]
fn reports_blocks_in_several_roles(rt: HostRuntime) -> Result<(), Fail> {
    let mut pool = empty_pool();
    let mut shared = empty_super();
    shared.details_root = 1;
    let mut one_root = shared;
    one_root.held_root = 1;
    one_root.data_map = map_root(0, 0, 1, 1);
    one_root.meta_map = map_root(8, 8, 1, 1);
    let one_root = write_thin_super(&one_root);
    let shared = write_thin_super(&shared);
    let flipped = damaged(pool[6], 16);
    let cases: [Case; 4] = [
        // A leaf of roots has values of 8 bytes, and one of details has values of 24.
        ("one root for two", 0, shared, "1", "shape role"),
        // It is sealed neither as a held copy nor as an index block.
        ("for all", 0, one_root, "1", "checksum shape role"),
        ("a bitmap's bit", 6, flipped, "6", "checksum"),
        ("a bitmap's place", 6, bitmap(7, 8), "6", "place"),
    ];
    expect_each(&rt, rt.alloc(), &pool, &cases)?;
    // An inner node has the shape that each tree wants, and names itself in five roles here.
    pool[1] = inner(1, 1);
    let case: Case = ("a node for all", 0, one_root, "1", "checksum role");
    expect_each(&rt, rt.alloc(), &pool, &[case])?;
    Ok(())
}

#[test]
fn reports_what_a_held_copy_breaks(rt: HostRuntime) -> Result<(), Fail> {
    let pool = pool_with_held_copy();
    let flipped = damaged(pool[8], 100);
    let bare = resealed(pool[8], Kind::Thin.salt(), 32, 0);
    let mut fields = empty_super();
    fields.details_root = 16;
    let moved = held_copy(9, &fields);
    fields.details_root = 1;
    let one_tree = held_copy(8, &fields);
    let cases: [Case; 4] = [
        ("a bit", 8, flipped, "8", "checksum"),
        ("no magic", 8, bare, "8", "magic"),
        ("place and root", 8, moved, "8", "place pointer"),
        // The mapping tree is read as a tree of details too.
        ("one tree for two", 8, one_tree, "1", "shape role"),
    ];
    expect_each(&rt, rt.alloc(), &pool, &cases)?;
    Ok(())
}

#[test]
fn follows_inner_nodes(rt: HostRuntime) -> Result<(), Fail> {
    let mut pool = pool_of_one_mapping();
    pool[10] = inner(10, 1);
    let cases: [Case; 2] = [
        ("two levels", 2, device_leaf(2, 10), "2", ""),
        // Two nodes that name each other.
        ("a cycle", 1, inner(1, 10), "1", ""),
    ];
    expect_each(&rt, rt.alloc(), &pool, &cases)?;
    // Of the sixteen blocks ten are the pool's: block 10 is outside.
    pool[0] = resealed(pool[0], Kind::Thin.salt(), 192, 10);
    let case: Case = ("outside", 1, inner(1, 10), "1", "pointer");
    expect_each(&rt, rt.alloc(), &pool, &[case])?;
    Ok(())
}

/// Checks the pool of one mapping with this call of the image failing.
fn expect_failure(rt: &impl Abort, alloc: Global, call: u64) -> Result<(), AllocError> {
    let failing = Failing {
        input: Some(call),
        ..NOTHING_FAILS
    };
    let came = if call < 12 {
        (5, "", DEVICE)
    } else {
        (0, "clean\n", "")
    };
    expect_run(rt, alloc, WALK, &pool_of_one_mapping(), failing, came)
}

#[test]
fn answers_no_report_where_the_device_fails(rt: HostRuntime) -> Result<(), Fail> {
    // The calls are `attach`, a read of block 0, and then a read of each of ten blocks in its one role.
    for call in 0..13 {
        expect_failure(&rt, rt.alloc(), call)?;
    }
    Ok(())
}
