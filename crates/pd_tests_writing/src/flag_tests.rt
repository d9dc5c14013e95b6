//! Checks that clear the flag "needs check" in the superblock of a pool.

use pd_bitmap::{new_bitmap, seal_bitmap, set_two_bits};
use pd_crc::any_valid;
use pd_image::Pick;
use pd_kinds::Block;
use pd_samples::expected::{PICKS, Trouble, expect_held};
use pd_samples::pool::{damaged, pool_of_one_mapping};
use pd_samples::runs::{Failing, NOTHING_FAILS, Ran, blocks_after_crash, run};
use pd_supers::{read_thin_super, write_thin_super};
use std::alloc::{AllocError, Global};
use std::process::Abort;
use std::test::Fail;

/// The words of a check that clears the flag.
const CLEAR: &[&str] = &["thin_check", "--clear-needs-check-flag", "thin.img"];

/// The words of checks up to a stage that ask for it, too.
const CLEAR_AT_THE_END: &[&str] = &[
    "thin_check",
    "--until",
    "counts",
    "--clear-needs-check-flag",
    "x",
];

const CLEAR_BEFORE_THE_END: &[&str] = &[
    "thin_check",
    "--until",
    "whole",
    "--clear-needs-check-flag",
    "x",
];

/// The words of a check that doesn't, and of one that can't.
const KEEP: &[&str] = &["thin_check", "x"];

const CLEAR_OF_A_TARGET: &[&str] = &["era_check", "--clear-needs-check-flag", "x"];

/// The words of checks in which leaks pass: one that clears the flag, in either order, and one that doesn't.
const PASS_AND_CLEAR: &[&str] = &[
    "thin_check",
    "--ignore-non-fatal-errors",
    "--clear-needs-check-flag",
    "x",
];

const CLEAR_AND_PASS: &[&str] = &[
    "thin_check",
    "--clear-needs-check-flag",
    "x",
    "--ignore-non-fatal-errors",
];

const PASS: &[&str] = &["thin_check", "--ignore-non-fatal-errors", "x"];

/// A report of the damaged leaf.
const DAMAGED: &str = "fault meta 1 checksum\nfaults 1\n";

/// The words, the flags of a pool and whether its leaf is damaged, and the status, `out` and flags that they come to.
type Row = (&'static [&'static str], u32, bool, u8, &'static str, u32);

/// Checks of pools with flags.
const ROWS: &[Row] = &[
    (CLEAR, 1, false, 0, "clean\n", 0),
    (CLEAR, 0, false, 0, "clean\n", 0),
    (CLEAR, u32::MAX, false, 0, "clean\n", u32::MAX - 1),
    (CLEAR_AT_THE_END, 3, false, 0, "clean\n", 2),
    (KEEP, 1, false, 0, "clean\n", 1),
    (CLEAR, 1, true, 1, DAMAGED, 1),
    (CLEAR_BEFORE_THE_END, 1, false, 2, "", 1),
    (CLEAR_OF_A_TARGET, 1, false, 2, "", 1),
    (PASS_AND_CLEAR, 3, false, 0, "clean\n", 2),
    (PASS_AND_CLEAR, 1, true, 1, DAMAGED, 1),
    (PASS, 1, false, 0, "clean\n", 1),
];

/// The pool of one mapping with these flags in its superblock, and maybe a leaf whose checksum is wrong.
fn flagged(flags: u32, broken: bool) -> [Block; 16] {
    let mut image = pool_of_one_mapping();
    let mut fields = read_thin_super(&image[0]);
    fields.flags = flags;
    image[0] = write_thin_super(&fields);
    if broken {
        image[1] = damaged(image[1], 100);
    }
    image
}

/// Checks a pool as a row says, which must come to what the row says.
fn expect_row(rt: &impl Abort, alloc: Global, row: Row) -> Result<(), Fail> {
    let (words, flags, broken, status, out, left) = row;
    let ran = run(alloc, words, &flagged(flags, broken), NOTHING_FAILS)?;
    assert!(rt; ran.status == status, "{out}");
    assert!(rt; ran.out.bytes() == out.as_bytes(), "{out}");
    expect_held(alloc, &ran.input, &flagged(left, broken), out)
}

#[test]
fn the_flag_alone_is_cleared_where_a_whole_check_found_nothing(
    rt: HostRuntime,
) -> Result<(), Fail> {
    for row in ROWS {
        expect_row(&rt, rt.alloc(), *row)?;
    }
    Ok(())
}

/// The same pool with a data block whose count is above its references.
fn leaking(flags: u32) -> [Block; 16] {
    let mut image = flagged(flags, false);
    let mut counts = new_bitmap();
    set_two_bits(&mut counts, 0, 2);
    seal_bitmap(&mut counts, 4);
    image[4] = counts;
    image
}

// A leak leaves the flag, but where leaks pass.
#[test]
fn the_flag_of_a_leaking_pool_is_cleared_where_leaks_pass(rt: HostRuntime) -> Result<(), Fail> {
    let alloc = rt.alloc();
    let report = "fault data 0 leak stored 2 references 1\nfaults 1\n";
    let ran = run(alloc, CLEAR, &leaking(1), NOTHING_FAILS)?;
    assert!(rt; ran.status == 1);
    expect_held(alloc, &ran.input, &leaking(1), "a leak")?;
    let ran = run(alloc, CLEAR_AND_PASS, &leaking(1), NOTHING_FAILS)?;
    assert!(rt; ran.status == 0);
    assert!(rt; ran.out.bytes() == report.as_bytes());
    expect_held(alloc, &ran.input, &leaking(0), "it passes")?;
    Ok(())
}

/// Checks a pool with this call of `out` failing, which leaves the flag.
fn expect_kept(rt: &impl Abort, alloc: Global, call: u64) -> Result<(), Fail> {
    let ran = run(alloc, CLEAR, &flagged(1, false), Trouble::Out.at(call))?;
    assert!(rt; ran.status == 6, "{call}");
    expect_held(alloc, &ran.input, &flagged(1, false), "the flag")
}

// The calls of `out` are 0 for attaching, and one for each piece.
#[test]
fn the_flag_stays_where_the_report_was_not_put(rt: HostRuntime) -> Result<(), Fail> {
    expect_kept(&rt, rt.alloc(), 0)?;
    expect_kept(&rt, rt.alloc(), 1)?;
    Ok(())
}

/// Whether a crash by this pick leaves the flag, or has cleared it, or has changed block 0 to no valid superblock.
fn is_outcome(alloc: Global, ran: &Ran, pick: Pick) -> Result<bool, AllocError> {
    let blocks = blocks_after_crash(alloc, &ran.input, pick)?;
    let set = flagged(1, false);
    let left = blocks.as_slice();
    Ok(match left {
        [] => false,
        [first, rest @ ..] => {
            left == set.as_slice()
                || left == flagged(0, false).as_slice()
                || (!any_valid(first) && rest == &set[1..])
        }
    })
}

/// Runs a clearing check with these failures, whose crashes must leave what they may: whether the device failed after
/// the report was put.
fn fails_late(rt: &impl Abort, alloc: Global, failing: Failing) -> Result<bool, Fail> {
    let ran = run(alloc, CLEAR, &flagged(1, false), failing)?;
    for pick in PICKS {
        assert!(rt; is_outcome(alloc, &ran, *pick)?);
    }
    if ran.status == 0 {
        expect_held(alloc, &ran.input, &flagged(0, false), "no flag")?;
        return Ok(false);
    }
    assert!(rt; ran.status == 5);
    assert!(rt; ran.notes.bytes() == "pdata_tools: device fault\n".as_bytes());
    Ok(!ran.out.bytes().is_empty())
}

/// How often the device fails after the report was put, of a check in which this call of it fails, and one before
/// which it stops.
fn late_failures(rt: &impl Abort, alloc: Global, call: u64) -> Result<u32, Fail> {
    let failed = fails_late(rt, alloc, Trouble::Input.at(call))?;
    let stopped = fails_late(rt, alloc, Trouble::InputStops.at(call))?;
    Ok(failed as u32 + stopped as u32)
}

// After the report block 0 is read, written and synced.
#[test]
fn a_failed_call_or_a_stop_leaves_the_flag_or_clears_it(rt: HostRuntime) -> Result<(), Fail> {
    let mut late: u32 = 0;
    for call in 0..40 {
        late = late.saturating_add(late_failures(&rt, rt.alloc(), call)?);
    }
    assert!(rt; late == 6, "{late}");
    Ok(())
}
