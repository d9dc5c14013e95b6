//! What a repair would keep, told before it is made, and repairs onto just as many blocks as are told.

use crate::repair_tests::ONE;
use crate::shared_repair_tests::{PLAIN, SHARED, TWO_ON_ONE_LEAF, repaired};
use pd_kinds::Block;
use pd_samples::expected::{ONES, Trouble, expect_held, expect_said, expect_so, pool_of};
use pd_samples::pool::{damaged, empty_leaf};
use pd_samples::runs::{Failing, Held, NOTHING_FAILS, Ran, run_over};
use pd_value::Root;
use std::alloc::{AllocError, Global};
use std::test::Fail;

/// The words that ask, without shared leaves and with them: they change nothing of what is told.
const ASKS: &[&[&str]] = &[
    &["thin_repair", "--dry-run", "-i", "in"],
    &["thin_repair", "--dry-run", "--shared", "-i", "in"],
];

/// What is done to a pool before it is asked about.
#[derive(Clone, Copy)]
enum Harm {
    /// Nothing.
    Nothing,
    /// This block is damaged.
    Damaged(usize),
    /// The mapping tree, which is block 2, has no devices.
    NoDevices,
}

/// The text of a pool, what is done to it, what is told, and the room that a repair takes without shared leaves and with them.
type Row = (&'static str, Harm, &'static str, usize, usize);

const ROWS: &[Row] = &[
    (
        ONE,
        Harm::Nothing,
        "device 1 kept 1 of 1\nkeeps 1 1 need 10 shared 10\n",
        10,
        10,
    ),
    (
        ONE,
        Harm::Damaged(1),
        "device 1 kept 0 of 1\nkeeps 1 0 need 10 shared 10\n",
        10,
        10,
    ),
    (
        ONE,
        Harm::Damaged(3),
        "device 1 kept 1 of ?\nkeeps 1 1 need 10 shared 10\n",
        10,
        10,
    ),
    (
        ONE,
        Harm::NoDevices,
        "device 1 lost 1\nkeeps 0 0 need 9 shared 9\n",
        9,
        9,
    ),
    (
        TWO_ON_ONE_LEAF,
        Harm::Nothing,
        "device 1 kept 2 of 2\ndevice 2 kept 2 of 2\nkeeps 2 4 need 11 shared 10\n",
        11,
        10,
    ),
    (EMPTY, Harm::Nothing, "keeps 0 0 need 8 shared 8\n", 8, 8),
];

/// A pool without devices and without data blocks.
const EMPTY: &str = "thin 1\npool 00000000-0000-0000-0000-000000000000 0 0 128 0\nend\n";

/// The sixteen blocks of the pool of a text, after this was done to it.
fn harmed(alloc: Global, text: &str, harm: Harm) -> Result<Vec<Block>, Fail> {
    let mut image = pool_of(alloc, text, 16)?;
    match harm {
        Harm::Nothing => {}
        Harm::Damaged(b) => {
            expect_so(b < 16, "a block")?;
            image[b] = damaged(image[b], 100);
        }
        Harm::NoDevices => image[2] = empty_leaf::<Root>(2),
    }
    Ok(image)
}

/// Asks about an image, beside other devices that hold blocks of ones.
pub(crate) fn ask(
    alloc: Global,
    words: &[&str],
    image: &[Block],
    failing: Failing,
) -> Result<Ran, AllocError> {
    let held = Held {
        text: b"",
        input: image,
        output: &[ONES; 2],
        third: &[ONES; 2],
    };
    run_over(alloc, words, held, failing)
}

/// A run came to this. The input stays, and no other device was opened.
pub(crate) fn expect_read(
    alloc: Global,
    ran: &Ran,
    image: &[Block],
    status: u8,
    out: &str,
    notes: &str,
) -> Result<(), Fail> {
    expect_said(ran, status, out, notes)?;
    expect_held(alloc, &ran.input, image, "the input stays")?;
    expect_held(alloc, &ran.output, &[ONES; 2], "nothing is written")?;
    expect_held(alloc, &ran.third, &[ONES; 2], "nothing is written")?;
    let is_closed = ran.output.path().is_none() & ran.third.path().is_none();
    expect_so(is_closed, "no other device is opened")
}

/// A row holds: so much is told, and repairs take just so much room.
fn expect_kept(alloc: Global, row: &Row) -> Result<(), Fail> {
    let (text, harm, told, plain, shared) = *row;
    let image = harmed(alloc, text, harm)?;
    for words in ASKS {
        let ran = ask(alloc, words, image.as_slice(), NOTHING_FAILS)?;
        expect_read(alloc, &ran, image.as_slice(), 0, told, "")?;
    }
    expect_so((plain > 0) & (shared > 0), "some room")?;
    repaired(alloc, PLAIN, image.as_slice(), plain, "")?;
    repaired(alloc, SHARED, image.as_slice(), shared, "")?;
    Ok(())
}

#[test]
fn what_a_repair_keeps_is_told_before(rt: HostRuntime) -> Result<(), Fail> {
    for row in ROWS {
        expect_kept(rt.alloc(), row)?;
    }
    Ok(())
}

#[test]
fn a_superblock_with_faults_is_reported(rt: HostRuntime) -> Result<(), Fail> {
    let image = harmed(rt.alloc(), ONE, Harm::Damaged(0))?;
    let report = "fault meta 0 checksum\nfaults 1\n";
    for words in ASKS {
        let ran = ask(rt.alloc(), words, image.as_slice(), NOTHING_FAILS)?;
        expect_read(rt.alloc(), &ran, image.as_slice(), 1, "", report)?;
    }
    Ok(())
}

/// How many calls of the input are made at most.
const MANY: u64 = 50;

/// Whether there is no such call of the input. Where there is, the run fails in it, with nothing told.
fn is_past(alloc: Global, image: &[Block], call: u64) -> Result<bool, Fail> {
    let ran = ask(alloc, ASKS[0], image, Trouble::Input.at(call))?;
    let is_past = ran.status == 0;
    if !is_past {
        expect_read(alloc, &ran, image, 5, "", "pdata_tools: device fault\n")?;
    }
    Ok(is_past)
}

#[test]
fn each_call_of_the_input_may_fail(rt: HostRuntime) -> Result<(), Fail> {
    let image = harmed(rt.alloc(), ONE, Harm::Nothing)?;
    for call in 0..MANY {
        if is_past(rt.alloc(), image.as_slice(), call)? {
            return expect_so(call > 6, "more calls");
        }
    }
    expect_so(false, "an end")
}
