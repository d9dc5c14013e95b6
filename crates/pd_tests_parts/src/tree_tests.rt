//! Lookup in trees, and cursors over their entries and over the words of arrays, on devices in memory.

ghost use Rattle.std.specs.Prelude.{◌≡◌, ◌<◌, EachIndex, slice_index};
ghost use Rattle.pd_image.specs.Device.{IsAttached, OnlyReads};
ghost use Rattle.pd_image.specs.MemObjects.{mem_device_state};

use crate::objects::{NEVER, device_of};
use pd_array::{Word, write_array};
use pd_image::MemDevice;
use pd_kinds::{Block, EraSuper, SmRoot};
use pd_meaning_era::era_list;
use pd_node::{write_inner, write_leaf};
use pd_tree::{ArrayCursor, Cursor, find};
use pd_value::{Root, Writeset};
use std::alloc::Global;
use std::process::Abort;
use std::test::Fail;

/// A tree of three levels, whose root is block 0.
#[tactic(auto, unfolding(pd_kinds::specs::Node::is_ascending))]
fn three_levels() -> [Block; 6] {
    [
        write_inner(0, &[(2, 1), (20, 2)]),
        write_inner(1, &[(2, 3), (9, 4)]),
        write_inner(2, &[(20, 5)]),
        write_leaf::<Root>(3, &[(2, Root(12)), (5, Root(15))]),
        write_leaf::<Root>(4, &[(9, Root(19)), (11, Root(21))]),
        write_leaf::<Root>(5, &[(20, Root(30))]),
    ]
}

/// Looks these keys up in the tree with this root, one after another, and finds these values or none.
fn expect_lookups(
    rt: &impl Abort,
    device: &mut MemDevice,
    root: u64,
    lookups: &[(u64, Option<Root>)],
)
    requires attached { IsAttached (mem_device_state device.old) }
    requires within { root < (mem_device_state device.old).blocks }
    ensures { OnlyReads (mem_device_state device.old) (mem_device_state device.new) }
{
    for lookup in lookups {
        assert!(rt; find::<Root, MemDevice>(device, root, lookup.0) == Ok(lookup.1));
    }
}

/// A cursor over the tree with this root gives these entries and no more.
fn expect_entries(
    rt: &impl Abort,
    alloc: Global,
    device: &mut MemDevice,
    root: u64,
    entries: &[(u64, Root)],
) -> Result<(), Fail>
    requires attached { IsAttached (mem_device_state device.old) }
    ensures { OnlyReads (mem_device_state device.old) (mem_device_state device.new) }
{
    let mut cursor = Cursor::<Root>::start(alloc, root)?;
    for entry in entries {
        assert!(rt; cursor.next(device) == Ok(Some(*entry)));
    }
    assert!(rt; cursor.next(device) == Ok(None));
    Ok(())
}

#[test]
#[tactic(auto, unfolding(pd_kinds::specs::Node::is_ascending))]
fn a_lookup_finds_the_keys_that_there_are(rt: HostRuntime) -> Result<(), Fail> {
    let leaf = write_leaf::<Root>(2, &[(1, Root(1))]);
    let mut device = device_of(
        rt.alloc(),
        &[Block::zeros(), Block::zeros(), leaf],
        false,
        NEVER,
        NEVER,
    )?;
    expect_lookups(
        &rt,
        &mut *device,
        2,
        &[(1, Some(Root(1))), (2, None), (0, None)],
    );
    Ok(())
}

/// Lookups of a tree of three levels: three reads each.
const BEFORE_THE_FAULT: &[(u64, Option<Root>)] = &[
    (5, Some(Root(15))),
    (10, None),
    (11, Some(Root(21))),
    (20, Some(Root(30))),
];

#[test]
fn a_lookup_goes_down_three_levels_with_one_read_each(rt: HostRuntime) -> Result<(), Fail> {
    // The calls are 0 for attaching, and three for each lookup.
    let mut device = device_of(rt.alloc(), &three_levels(), false, 13, NEVER)?;
    expect_lookups(&rt, &mut *device, 0, BEFORE_THE_FAULT);
    assert!(rt; find::<Root, MemDevice>(&mut *device, 0, 20).is_err());
    expect_lookups(&rt, &mut *device, 0, &[(2, Some(Root(12)))]);
    Ok(())
}

#[test]
#[tactic(auto, unfolding(pd_kinds::specs::Node::is_ascending))]
fn a_cursor_gives_one_leaf_and_an_empty_one(rt: HostRuntime) -> Result<(), Fail> {
    let leaf = write_leaf::<Root>(0, &[(1, Root(7)), (4, Root(8))]);
    let mut device = device_of(
        rt.alloc(),
        &[leaf, write_leaf::<Root>(1, &[])],
        false,
        NEVER,
        NEVER,
    )?;
    let entries = [(1, Root(7)), (4, Root(8))];
    expect_entries(&rt, rt.alloc(), &mut *device, 0, &entries)?;
    expect_entries(&rt, rt.alloc(), &mut *device, 1, &[])
}

#[test]
#[tactic(auto, unfolding(pd_kinds::specs::Node::is_ascending))]
fn a_cursor_goes_on_behind_an_empty_leaf_and_a_block_outside(rt: HostRuntime) -> Result<(), Fail> {
    let image = [
        write_inner(0, &[(1, 1), (5, 2), (7, 99), (9, 3)]),
        write_leaf::<Root>(1, &[(1, Root(11)), (2, Root(12))]),
        write_leaf::<Root>(2, &[]),
        write_leaf::<Root>(3, &[(9, Root(19))]),
    ];
    let mut device = device_of(rt.alloc(), &image, false, NEVER, NEVER)?;
    let entries = [(1, Root(11)), (2, Root(12)), (9, Root(19))];
    expect_entries(&rt, rt.alloc(), &mut *device, 0, &entries)
}

#[test]
fn a_cursor_reads_each_node_of_three_levels_once(rt: HostRuntime) -> Result<(), Fail> {
    // The calls are 0 for attaching, and six for the nodes.
    let mut device = device_of(rt.alloc(), &three_levels(), false, 7, NEVER)?;
    let mut cursor = Cursor::<Root>::start(rt.alloc(), 0)?;
    let is_first = cursor.next(&mut *device) == Ok(Some((2, Root(12))));
    let is_rest = cursor.count(&mut *device) == Ok(4);
    let is_past = find::<Root, MemDevice>(&mut *device, 0, 2).is_err();
    assert!(rt; is_first & is_rest & is_past);
    Ok(())
}

#[test]
#[tactic(auto, unfolding(pd_kinds::specs::Node::is_ascending))]
fn a_read_that_fails_in_the_middle_is_answered(rt: HostRuntime) -> Result<(), Fail> {
    let image = [
        write_inner(0, &[(1, 1), (9, 2)]),
        write_leaf::<Root>(1, &[(1, Root(11))]),
        write_leaf::<Root>(2, &[(9, Root(19))]),
    ];
    let mut device = device_of(rt.alloc(), &image, false, 3, NEVER)?;
    let mut cursor = Cursor::<Root>::start(rt.alloc(), 0)?;
    let is_first = cursor.next(&mut *device) == Ok(Some((1, Root(11))));
    let is_failed = cursor.next(&mut *device).is_err();
    assert!(rt; is_first & is_failed);
    let entries = [(1, Root(11)), (9, Root(19))];
    expect_entries(&rt, rt.alloc(), &mut *device, 0, &entries)
}

#[test]
#[tactic(auto, unfolding(pd_kinds::specs::Node::is_ascending))]
fn a_tree_that_names_itself_has_an_end(rt: HostRuntime) -> Result<(), Fail> {
    let image = [write_inner(0, &[(1, 0)]), write_inner(1, &[(1, 0), (3, 1)])];
    let mut device = device_of(rt.alloc(), &image, false, NEVER, NEVER)?;
    expect_lookups(&rt, &mut *device, 0, &[(1, None)]);
    expect_lookups(&rt, &mut *device, 1, &[(3, None)]);
    expect_entries(&rt, rt.alloc(), &mut *device, 0, &[])?;
    let mut cursor = Cursor::<Root>::start(rt.alloc(), 1)?;
    assert!(rt; cursor.count(&mut *device) == Ok(0));
    Ok(())
}

/// Sets each word to 7.
fn fill_with_sevens(words: &mut [u64])
    ensures { EachIndex words.new (λ i. slice_index words.new i ≡ 7) }
{
    for word in words.iter_mut() {
        *word = 7;
    }
}

/// The next 509 words are 7.
fn expect_sevens(rt: &impl Abort, cursor: &mut ArrayCursor, device: &mut MemDevice)
    requires attached { IsAttached (mem_device_state device.old) }
    ensures attached { IsAttached (mem_device_state device.new) }
{
    for _ in 0..509u32 {
        assert!(rt; cursor.next(device) == Ok(Some(7)));
    }
}

#[test]
#[tactic(auto, unfolding(pd_kinds::specs::Node::is_ascending))]
fn an_array_of_510_words_is_given_whole(rt: HostRuntime) -> Result<(), Fail> {
    let mut words = [0; 509];
    fill_with_sevens(&mut words);
    let image = [
        write_leaf::<Root>(0, &[(0, Root(1)), (1, Root(2))]),
        write_array(1, Word::Eight, &words),
        write_array(2, Word::Eight, &[9]),
    ];
    let mut device = device_of(rt.alloc(), &image, false, NEVER, NEVER)?;
    let mut cursor = ArrayCursor::start(rt.alloc(), 0, Word::Eight)?;
    expect_sevens(&rt, &mut cursor, &mut *device);
    let is_last = cursor.next(&mut *device) == Ok(Some(9));
    let is_end = cursor.next(&mut *device) == Ok(None);
    assert!(rt; is_last & is_end);
    Ok(())
}

// The eras of all blocks of a target, in one list. The tools take them part by part.

/// A target of four blocks, whose era array is below block 1, its archived writesets below block 3, and its current one below
/// block 6.
const SUPER: EraSuper = EraSuper {
    flags: 0,
    uuid: [0; 16],
    version: 1,
    meta_map: SmRoot {
        blocks: 8,
        allocated: 8,
        bitmap_root: 0,
        overflow_root: 0,
    },
    block_size: 128,
    meta_block_size: 8,
    blocks: 4,
    era: 9,
    current_bits: 4,
    current_root: 6,
    writesets_root: 3,
    array_root: 1,
    snap_root: 0,
};

/// The blocks of that target, but for its superblock. The writeset of era 4 has blocks 0 and 1, and the current one has block 2.
#[tactic(auto, unfolding(pd_kinds::specs::Node::is_ascending))]
fn trees() -> [Block; 8] {
    [
        Block::zeros(),
        write_leaf(1, &[(0, Root(2))]),
        write_array(2, Word::Four, &[1, 5, 3, 2]),
        write_leaf(3, &[(4, Writeset { bits: 4, root: 4 })]),
        write_leaf(4, &[(0, Root(5))]),
        write_array(5, Word::Eight, &[3]),
        write_leaf(6, &[(0, Root(7))]),
        write_array(7, Word::Eight, &[4]),
    ]
}

#[test]
fn the_eras_of_all_blocks_in_one_list(rt: HostRuntime) -> Result<(), Fail> {
    let mut device = device_of(rt.alloc(), &trees(), false, NEVER, NEVER)?;
    match era_list(rt.alloc(), &mut *device, &SUPER) {
        Ok(eras) => assert!(rt; eras.as_slice() == [4, 5, 9, 2].as_slice()),
        Err(_) => assert!(rt; false),
    }
    Ok(())
}
