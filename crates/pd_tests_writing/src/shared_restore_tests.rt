//! Restores of texts of version 2: what is restored, what is refused, and where there is no room.

use crate::shared_pool::{image_of_many, text_of_leaves, text_of_many};
use pd_samples::expected::End::{Done, NoRoom, Refused};
use pd_samples::expected::Left::{Closed, Old, Written};
use pd_samples::expected::{
    Left, ONES, Row, THIN, expect, expect_end, expect_left, expect_restored, expect_said, left_of,
    made, made_over, restore,
};
use pd_samples::runs::NOTHING_FAILS;
use std::alloc::Global;
use std::test::Fail;

/// Two devices on one leaf.
const TWO_USERS: &str =
    "thin 2\npool 00000000-0000-0000-0000-000000000000 0 0 128 1\nleaf 0 1\nmap 0 0 1 0\ndevice 1 1 0 0 0\nuse 0\n\
     device 2 1 0 0 0\nuse 0\nend\n";

/// The same with another number in the first line that uses a leaf.
const NO_SUCH_LEAF: &str =
    "thin 2\npool 00000000-0000-0000-0000-000000000000 0 0 128 1\nleaf 0 1\nmap 0 0 1 0\ndevice 1 1 0 0 0\nuse 1\n\
     device 2 1 0 0 0\nuse 0\nend\n";

/// A leaf that no device uses.
const UNUSED: &str =
    "thin 2\npool 00000000-0000-0000-0000-000000000000 0 0 128 1\nleaf 0 1\nmap 0 0 1 0\nend\n";

/// Two devices on two leaves, below an inner node each.
const TWO_LEAVES: &str =
    "thin 2\npool 00000000-0000-0000-0000-000000000000 0 0 128 2\nleaf 0 1\nmap 0 0 1 0\nleaf 1 1\nmap 1 1 1 0\n\
     device 1 2 0 0 0\nuse 0\nuse 1\ndevice 2 2 0 0 0\nuse 0\nuse 1\nend\n";

/// Two devices without mappings, which have an empty leaf each.
const NO_PIECES: &str =
    "thin 2\npool 00000000-0000-0000-0000-000000000000 0 0 128 1\ndevice 1 0 0 0 0\ndevice 2 0 0 0 0\nend\n";

/// Three devices that map as many data blocks, each of its own: their counts take three blocks of the overflow tree.
const THREE_OF_EACH: &str =
    "thin 2\npool 00000000-0000-0000-0000-000000000000 0 0 128 337\ndevice 1 337 0 0 0\nmap 0 0 337 0\ndevice 2 337 0 0 0\n\
     map 0 0 337 0\ndevice 3 337 0 0 0\nmap 0 0 337 0\nend\n";

/// The same data blocks in leaves that three devices use count once.
const TWO_OF_A_THIRD: &str =
    "thin 2\npool 00000000-0000-0000-0000-000000000000 0 0 128 252\nleaf 0 252\nmap 0 0 252 0\ndevice 1 252 0 0 0\nuse 0\n\
     device 2 252 0 0 0\nuse 0\ndevice 3 252 0 0 0\nuse 0\nend\n";

/// A last line that is refused, where it would want more room, too; and one behind a line for which there is no room.
const REFUSED_FIRST: &str =
    "thin 2\npool 00000000-0000-0000-0000-000000000000 0 0 128 1\nleaf 0 1\nmap 0 0 1 0\ndevice 1 1 0 0 0\nmap 0 1 1 0\n";

const NO_ROOM_FIRST: &str =
    "thin 2\npool 00000000-0000-0000-0000-000000000000 0 0 128 1\nleaf 0 1\nx\n";

/// A pool without devices, also without its last line.
const EMPTY: &str = "thin 2\npool 00000000-0000-0000-0000-000000000000 0 0 128 0\nend\n";

const NO_END: &str = "thin 2\npool 00000000-0000-0000-0000-000000000000 0 0 128 0\n";

const NO_SIZE: &str = "thin 2\npool 00000000-0000-0000-0000-000000000000 0 0 128 x\n";

const HUGE: &str =
    "thin 2\npool 00000000-0000-0000-0000-000000000000 0 0 128 1099511627776\ndevice 1 1099511627776 0 0 0\nmap 0 0 1099511627776 0\nend\n";

/// Restores, with what they come to.
const ROWS: &[Row] = &[
    (THIN, TWO_USERS, 16, Done(""), Written),
    (THIN, TWO_USERS, 10, Done(""), Written),
    (THIN, TWO_USERS, 9, NoRoom(10, 9), Closed),
    (THIN, TWO_USERS, 8, NoRoom(9, 8), Old),
    (THIN, TWO_LEAVES, 13, Done(""), Written),
    (THIN, TWO_LEAVES, 12, NoRoom(13, 12), Closed),
    (THIN, TWO_LEAVES, 11, NoRoom(12, 11), Closed),
    (THIN, TWO_LEAVES, 10, NoRoom(11, 10), Closed),
    (THIN, NO_PIECES, 11, Done(""), Written),
    (THIN, NO_PIECES, 10, NoRoom(11, 10), Closed),
    (THIN, NO_PIECES, 9, NoRoom(10, 9), Closed),
    (THIN, THREE_OF_EACH, 20, Done(""), Written),
    (THIN, THREE_OF_EACH, 19, NoRoom(20, 19), Closed),
    (THIN, TWO_OF_A_THIRD, 10, Done(""), Written),
    (THIN, EMPTY, 8, Done(""), Written),
    (THIN, EMPTY, 7, NoRoom(8, 7), Old),
    (THIN, HUGE, 1000, NoRoom(67774669, 1000), Old),
    (THIN, REFUSED_FIRST, 10, Refused(6, "out of range"), Closed),
    (THIN, NO_ROOM_FIRST, 9, NoRoom(10, 9), Closed),
    (THIN, UNUSED, 16, Refused(5, "unused"), Closed),
    (THIN, NO_SUCH_LEAF, 16, Refused(6, "out of range"), Closed),
    (THIN, NO_END, 16, Refused(3, "no end"), Closed),
    (THIN, NO_SIZE, 16, Refused(2, "number"), Old),
    (THIN, "thin 2\nleaf 0 1\n", 16, Refused(2, "word"), Old),
    (THIN, "thin 2 \n", 16, Refused(1, "header"), Old),
    (THIN, "thin 02\n", 16, Refused(1, "header"), Old),
    (THIN, "thin 2", 16, Refused(1, "no end"), Old),
];

#[test]
fn restores_of_shared_leaves_come_to_their_status(rt: HostRuntime) -> Result<(), Fail> {
    for row in ROWS {
        expect_restored(rt.alloc(), row)?;
    }
    Ok(())
}

/// Restores a text of this version and these lines behind that of the pool, which has four data blocks. The line is refused.
fn expect_refused(alloc: Global, version: u8, lines: &str, refusal: &str) -> Result<(), Fail> {
    let text = format!(in alloc;
        "thin {version}\npool 00000000-0000-0000-0000-000000000000 0 0 128 4\n{lines}"
    )?;
    let notes = format!(in alloc; "pdata_tools: line {refusal}\n")?;
    let base = [ONES; 16];
    let refused = restore(alloc, THIN, text.as_str(), &base, NOTHING_FAILS)?;
    expect_said(&refused, 3, "", notes.as_str())?;
    expect_left(alloc, &refused, &base, Left::Closed, lines)
}

/// Lines from the third one on, and the line that is refused with its cause.
type Refusal = (&'static str, &'static str);

const REFUSALS: &[Refusal] = &[
    // A line in a place in which it may not stand, or with another number of words.
    ("map 0 0 1 0\n", "3: word"),
    ("use 0\n", "3: word"),
    ("thin 2\n", "3: word"),
    ("leaf 0 1\nuse 0\n", "4: word"),
    ("leaf 0\n", "3: word"),
    ("leaf 0 1 0\n", "3: word"),
    ("leaf  0 1\n", "3: word"),
    ("leaf 0 1\nmap 0 0 1 0\ndevice 1 1 0 0 0\nuse\n", "6: word"),
    (
        "leaf 0 1\nmap 0 0 1 0\ndevice 1 1 0 0 0\nuse 0 0\n",
        "6: word",
    ),
    ("device 1 0 0 0 0\nleaf 0 1\n", "4: word"),
    // A number that hasn't its form.
    ("leaf 00 1\n", "3: number"),
    ("leaf 0 -1\n", "3: number"),
    ("leaf 0 18446744073709551616\n", "3: number"),
    (
        "leaf 0 1\nmap 0 0 1 0\ndevice 1 1 0 0 0\nuse x\n",
        "6: number",
    ),
    // Mappings of a leaf, the number of a leaf, and what lies outside the pool.
    ("leaf 0 0\n", "3: out of range"),
    ("leaf 0 253\n", "3: out of range"),
    ("leaf 1 253\n", "3: out of range"),
    ("leaf 0 1\nmap 0 4 1 0\n", "4: out of range"),
    ("leaf 0 1\nmap 0 0 0 0\n", "4: out of range"),
    ("leaf 0 1\nmap 0 0 1 16777216\n", "4: out of range"),
    (
        "leaf 0 2\nmap 18446744073709551615 0 2 0\n",
        "4: out of range",
    ),
    ("device 1 1 0 0 0\nuse 0\n", "4: out of range"),
    (
        "leaf 0 1\nmap 0 0 1 0\ndevice 1 1 0 0 0\nuse 18446744073709551615\n",
        "6: out of range",
    ),
    // Leaves by their numbers, devices by their ids, runs and leaves by their virtual blocks.
    ("leaf 1 1\n", "3: order"),
    ("leaf 0 1\nmap 0 0 1 0\nleaf 0 1\n", "5: order"),
    ("leaf 0 2\nmap 1 0 1 0\nmap 0 1 1 0\n", "5: order"),
    ("leaf 0 2\nmap 0 0 1 0\nmap 0 1 1 0\n", "5: order"),
    (
        "leaf 0 1\nmap 1 0 1 0\ndevice 1 2 0 0 0\nmap 1 1 1 0\nuse 0\n",
        "7: order",
    ),
    (
        "leaf 0 2\nmap 1 0 1 0\nmap 9 1 1 0\ndevice 1 3 0 0 0\nuse 0\nmap 5 2 1 0\n",
        "8: order",
    ),
    (
        "leaf 0 1\nmap 1 0 1 0\ndevice 1 2 0 0 0\nuse 0\nuse 0\n",
        "7: order",
    ),
    ("device 1 0 0 0 0\ndevice 1 0 0 0 0\n", "4: order"),
    // Too many mappings, and too few.
    ("leaf 0 1\nmap 0 0 2 0\n", "4: mapped differs"),
    ("leaf 0 2\nmap 0 0 1 0\nleaf 1 1\n", "5: mapped differs"),
    (
        "leaf 0 2\nmap 0 0 1 0\ndevice 1 2 0 0 0\n",
        "5: mapped differs",
    ),
    ("leaf 0 1\nend\n", "4: mapped differs"),
    (
        "leaf 0 2\nmap 0 0 2 0\ndevice 1 1 0 0 0\nuse 0\n",
        "6: mapped differs",
    ),
    (
        "leaf 0 1\nmap 0 0 1 0\ndevice 1 2 0 0 0\nuse 0\ndevice 2 0 0 0 0\n",
        "7: mapped differs",
    ),
    (
        "leaf 0 1\nmap 0 0 1 0\ndevice 1 2 0 0 0\nuse 0\nend\n",
        "7: mapped differs",
    ),
    // A leaf without a use, which is looked at after that.
    (
        "leaf 0 1\nmap 0 0 1 0\nleaf 1 1\nmap 1 1 1 0\ndevice 1 1 0 0 0\nuse 1\nend\n",
        "9: unused",
    ),
    (
        "leaf 0 1\nmap 0 0 1 0\ndevice 1 1 0 0 0\nend\n",
        "6: mapped differs",
    ),
    ("device 1 0 0 0 0\nend\nend\n", "5: after end"),
    ("device 1 0 0 0 0\n", "4: no end"),
];

/// In version 1 there are neither leaves nor uses.
const REFUSALS_OF_FIRST: &[Refusal] = &[
    ("leaf 0 1\n", "3: word"),
    ("device 1 1 0 0 0\nuse 0\n", "4: word"),
    ("device 1 0 0 0 0\nleaf 0 1\n", "4: word"),
];

#[test]
fn lines_of_shared_leaves_are_refused_in_their_place(rt: HostRuntime) -> Result<(), Fail> {
    for (lines, refusal) in REFUSALS {
        expect_refused(rt.alloc(), 2, lines, refusal)?;
    }
    for (lines, refusal) in REFUSALS_OF_FIRST {
        expect_refused(rt.alloc(), 1, lines, refusal)?;
    }
    Ok(())
}

#[test]
fn a_pool_of_many_runs_is_that_put_together_by_hand(rt: HostRuntime) -> Result<(), Fail> {
    let alloc = rt.alloc();
    let text = text_of_many(alloc)?;
    let base = [ONES; 16];
    let image = made_over(alloc, THIN, text.as_str(), &base)?;
    assert!(rt; image.as_slice() == image_of_many().as_slice());
    Ok(())
}

#[test]
fn a_pool_of_many_runs_is_clean_and_is_told_again(rt: HostRuntime) -> Result<(), Fail> {
    let alloc = rt.alloc();
    let text = text_of_many(alloc)?;
    let image = image_of_many();
    expect(alloc, &["thin_check", "image"], &image, 0, "clean\n")?;
    let words = &["thin_dump", "--shared", "image"];
    expect(alloc, words, &image, 0, text.as_str())?;
    Ok(())
}

/// Restores the pool of many runs onto so many blocks, where it needs more.
fn expect_no_room(alloc: Global, text: &str, blocks: usize, need: u64) -> Result<(), Fail> {
    let base = vec![in alloc; ONES; blocks]?;
    let refused = restore(alloc, THIN, text, base.as_slice(), NOTHING_FAILS)?;
    expect_end(alloc, &refused, NoRoom(need, blocks as u64))
}

/// Blocks, and how many are needed where there are no more. The need passes them at the line of the pool, of the leaf, of the
/// first run of the first device, at its 253rd one, with which the piece has a second leaf and its device an inner node, and
/// at the end line, with which the last device has an empty leaf.
const NEEDS: &[(usize, u64)] = &[(8, 9), (9, 10), (10, 11), (11, 13), (12, 13), (13, 14)];

#[test]
fn the_need_grows_with_the_lines(rt: HostRuntime) -> Result<(), Fail> {
    let alloc = rt.alloc();
    let text = text_of_many(alloc)?;
    for (blocks, need) in NEEDS {
        expect_no_room(alloc, text.as_str(), *blocks, *need)?;
    }
    let least = made(alloc, THIN, text.as_str(), 14)?;
    assert!(rt; left_of(least.as_slice(), &[ONES; 14], &[]) == Left::Written);
    Ok(())
}

// Beside the leaves each device of 337 has two nodes above them and a root. The counts of 336 leaves stand in one block of the
// overflow tree of the metadata, and those of one more in two, below a third.
#[test]
fn leaves_of_three_devices_have_counts_of_their_own(rt: HostRuntime) -> Result<(), Fail> {
    let alloc = rt.alloc();
    let text = text_of_leaves(alloc, 336)?;
    expect_no_room(alloc, text.as_str(), 353, 354)?;
    let text = text_of_leaves(alloc, 337)?;
    expect_no_room(alloc, text.as_str(), 356, 357)?;
    let image = made(alloc, THIN, text.as_str(), 357)?;
    let image = image.as_slice();
    expect(alloc, &["thin_check", "image"], image, 0, "clean\n")?;
    let words = &["thin_dump", "--shared", "image"];
    expect(alloc, words, image, 0, text.as_str())?;
    Ok(())
}
