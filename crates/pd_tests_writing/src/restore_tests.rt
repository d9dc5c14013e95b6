//! Whole runs of `thin_restore` over objects in memory: what is restored, what is refused, and what the output holds then.

use pd_kinds::Block;
use pd_samples::expected::End::{Done, NoRoom, Refused};
use pd_samples::expected::Left::{Closed, Old, Written};
use pd_samples::expected::{
    Left, ONE_MAPPING, ONES, PICKS, Row, THIN, Trouble, expect, expect_output_faults,
    expect_restored, expect_said, left_by, left_by_source_fault, left_of, made, made_over, restore,
};
use pd_samples::pool::{bitmap, empty_pool, pool_of_one_mapping};
use pd_samples::runs::{self, NOTHING_FAILS, blocks_of, restored};
use pd_supers::read_thin_super;
use std::alloc::{AllocError, Global};
use std::process::Abort;
use std::test::Fail;

/// The pool without a mapping.
const EMPTY: &str = "thin 1\npool 00000000-0000-0000-0000-000000000000 0 0 128 0\nend\n";

/// A pool of a hundred million data blocks, of which the last one is mapped.
const WIDE: &str =
    "thin 1\npool 00000000-0000-0000-0000-000000000000 0 0 128 100000000\ndevice 1 1 0 0 0\nmap 0 99999999 1 0\nend\n";

/// A device whose mappings take two leaves, and one whose mappings fill one.
const TWO_LEAVES: &str =
    "thin 1\npool 00000000-0000-0000-0000-000000000000 0 0 128 300\ndevice 1 253 0 0 0\nmap 0 0 253 0\nend\n";

const FULL_LEAF: &str =
    "thin 1\npool 00000000-0000-0000-0000-000000000000 0 0 128 252\ndevice 1 252 0 0 0\nmap 0 0 252 0\nend\n";

/// An empty pool, whose third line has 161 bytes.
const LONG: &str = "thin 1\npool 00000000-0000-0000-0000-000000000000 0 0 128 0\n\
     xxxxxxxxxxxxxxxxxxxxxxxxxxxxxxxxxxxxxxxxxxxxxxxxxxxxxxxxxxxxxxxxxxxxxxxxxxxxxxxxxxxxxxxxxxxxxxxxxxxxxxxxxxxxxxxxxxxxxxxxxxxxx\
     xxxxxxxxxxxxxxxxxxxxxxxxxxxxxxxxxxxx\n";

/// A pool of more data blocks than there is room for.
const HUGE: &str =
    "thin 1\npool 00000000-0000-0000-0000-000000000000 0 0 128 1099511627776\ndevice 1 1099511627776 0 0 0\nmap 0 0 1099511627776 0\nend\n";

/// Texts that are refused.
const NO_END: &str = "thin 1\npool 00000000-0000-0000-0000-000000000000 0 0 128 0\n";

const AFTER_END: &str = "thin 1\npool 00000000-0000-0000-0000-000000000000 0 0 128 0\nend\nx";

const TOO_FEW: &str =
    "thin 1\npool 00000000-0000-0000-0000-000000000000 0 0 128 2\ndevice 1 2 0 0 0\nmap 0 0 1 0\nend\n";

const NO_NUMBER: &str =
    "thin 1\npool 00000000-0000-0000-0000-000000000000 0 0 128 1\ndevice 1 1 0 0 0\nmap 0 0 01 0\nend\n";

const NO_SIZE: &str = "thin 1\npool 00000000-0000-0000-0000-000000000000 0 0 128 x\n";

const NO_WORD: &str =
    "thin 1\npool 00000000-0000-0000-0000-000000000000 0 0 128 1\ndevice 1 1 0 0 0\nmap 0 0 1 0\nx\n";

/// Restores, with what they come to.
const ROWS: &[Row] = &[
    (THIN, TWO_LEAVES, 12, Done(""), Written),
    (THIN, TWO_LEAVES, 11, NoRoom(12, 11), Closed),
    (THIN, FULL_LEAF, 10, Done(""), Written),
    (THIN, FULL_LEAF, 9, NoRoom(10, 9), Closed),
    (THIN, EMPTY, 0, NoRoom(7, 0), Old),
    (THIN, WIDE, 6173, NoRoom(6174, 6173), Closed),
    (THIN, EMPTY, 8, Done(""), Written),
    (THIN, EMPTY, 7, NoRoom(8, 7), Old),
    (THIN, ONE_MAPPING, 16, Done(""), Written),
    (THIN, ONE_MAPPING, 9, NoRoom(10, 9), Closed),
    (THIN, HUGE, 1000, NoRoom(67774669, 1000), Old),
    (THIN, NO_END, 100, Refused(3, "no end"), Closed),
    (THIN, LONG, 100, Refused(3, "too long"), Closed),
    (THIN, AFTER_END, 100, Refused(4, "after end"), Closed),
    (THIN, TOO_FEW, 100, Refused(5, "mapped differs"), Closed),
    (THIN, NO_NUMBER, 100, Refused(4, "number"), Closed),
    (THIN, "", 100, Refused(1, "no end"), Old),
    (THIN, "thin 3\n", 100, Refused(1, "header"), Old),
    (THIN, NO_SIZE, 100, Refused(2, "number"), Old),
];

#[test]
fn restores_come_to_their_status(rt: HostRuntime) -> Result<(), Fail> {
    for row in ROWS {
        expect_restored(rt.alloc(), row)?;
    }
    Ok(())
}

#[test]
fn restored_pools_are_those_put_together_by_hand(rt: HostRuntime) -> Result<(), Fail> {
    let empty = restored(rt.alloc(), EMPTY, 8)?;
    assert!(rt; empty.as_slice() == empty_pool().as_slice());
    let one = restored(rt.alloc(), ONE_MAPPING, 16)?;
    assert!(rt; one.as_slice() == pool_of_one_mapping().as_slice());
    Ok(())
}

/// Restores a text to so many blocks of ones, and runs a tool over them, which has status 0 and writes this.
fn expect_written(
    alloc: Global,
    tool: &str,
    text: &str,
    blocks: usize,
    written: &str,
) -> Result<(), Fail> {
    let image = made(alloc, THIN, text, blocks)?;
    expect(alloc, &[tool, "image"], image.as_slice(), 0, written)
}

/// Texts, with the blocks of a device that has room for them.
const TEXTS: &[(&str, usize)] = &[
    (EMPTY, 8),
    (ONE_MAPPING, 16),
    (TWO_LEAVES, 12),
    (FULL_LEAF, 10),
    (WIDE, 8192),
];

#[test]
fn restored_pools_are_clean(rt: HostRuntime) -> Result<(), Fail> {
    for (text, blocks) in TEXTS {
        expect_written(rt.alloc(), "thin_check", text, *blocks, "clean\n")?;
    }
    Ok(())
}

#[test]
fn a_restore_writes_the_blocks_that_it_needs_and_no_others(rt: HostRuntime) -> Result<(), Fail> {
    let image = made(rt.alloc(), THIN, WIDE, 8192)?;
    let used = read_thin_super(&image[0]).meta_map.allocated;
    assert!(rt; (used == 6174) & (image[6173] != ONES));
    for b in 6174..8192 {
        assert!(rt; image[b] == ONES, "{b}");
    }
    Ok(())
}

/// Two mappings in one line, in two that join, and in two of different times, which don't.
const JOINED: &str =
    "thin 1\npool 00000000-0000-0000-0000-000000000000 0 0 128 2\ndevice 1 2 0 0 0\nmap 0 0 2 0\nend\n";

const CUT: &str =
    "thin 1\npool 00000000-0000-0000-0000-000000000000 0 0 128 2\ndevice 1 2 0 0 0\nmap 0 0 1 0\nmap 1 1 1 0\nend\n";

const APART: &str =
    "thin 1\npool 00000000-0000-0000-0000-000000000000 0 0 128 2\ndevice 1 2 0 0 0\nmap 0 0 1 0\nmap 1 1 1 1\nend\n";

/// Texts, with what is dumped of the pools that are restored from them.
const DUMPS: &[(&str, &str)] = &[
    (ONE_MAPPING, ONE_MAPPING),
    (JOINED, JOINED),
    (CUT, JOINED),
    (APART, APART),
];

#[test]
fn restored_pools_are_dumped_with_their_runs_joined(rt: HostRuntime) -> Result<(), Fail> {
    for (text, dump) in DUMPS {
        expect_written(rt.alloc(), "thin_dump", text, 16, dump)?;
    }
    Ok(())
}

// The calls of the source are 0 for attaching, and one for each piece of seven bytes. The first two lines are 59 bytes, which
// take nine pieces.
#[test]
fn a_source_that_fails_is_blamed(rt: HostRuntime) -> Result<(), Fail> {
    for call in 0..14 {
        let left = left_by_source_fault(rt.alloc(), THIN, ONE_MAPPING, call)?;
        let wanted = if call < 10 { Left::Old } else { Left::Closed };
        assert!(rt; left == wanted, "{call}");
    }
    Ok(())
}

/// Restores the front of a text onto these blocks, which is refused at its last line.
fn expect_no_end(alloc: Global, front: &[u8], base: &[Block]) -> Result<(), Fail> {
    let line = 1 + front.iter().filter(|b| **b == b'\n').count();
    let notes = format!(in alloc; "pdata_tools: line {line}: no end\n")?;
    let refused = runs::restore(alloc, front, base, NOTHING_FAILS)?;
    expect_said(&refused, 3, "", notes.as_str())?;
    Ok(())
}

#[test]
fn a_text_that_ends_early_has_no_end(rt: HostRuntime) -> Result<(), Fail> {
    let text = ONE_MAPPING.as_bytes();
    let base = [ONES; 16];
    for end in 0..text.len() {
        expect_no_end(rt.alloc(), &text[..end], &base)?;
    }
    Ok(())
}

#[test]
fn leaves_are_written_as_their_lines_come(rt: HostRuntime) -> Result<(), Fail> {
    let alloc = rt.alloc();
    let base = [ONES; 16];
    let refused = restore(alloc, THIN, NO_WORD, &base, NOTHING_FAILS)?;
    expect_said(&refused, 3, "", "pdata_tools: line 5: word\n")?;
    let found = blocks_of(alloc, &refused.output)?;
    let whole = made(alloc, THIN, ONE_MAPPING, 16)?;
    assert!(rt; left_of(found.as_slice(), &base, whole.as_slice()) == Left::Closed);
    assert!(rt; found.get(1) == whole.get(1));
    Ok(())
}

/// Whether a device that stops after so many calls may hold this.
fn may_be_left(calls: u64, found: Left) -> bool {
    match calls {
        0..=2 => found == Left::Old || found == Left::Closed,
        3..=13 => found == Left::Closed,
        14 => found == Left::Closed || found == Left::New,
        _ => found == Left::New,
    }
}

/// Restores a pool onto an output that stops after so many calls.
fn expect_stopped(
    rt: &impl Abort,
    alloc: Global,
    calls: u64,
    old: &[Block],
    new: &[Block],
) -> Result<(), AllocError> {
    let restored = restore(
        alloc,
        THIN,
        ONE_MAPPING,
        old,
        Trouble::OutputStops.at(calls),
    )?;
    let status = if calls < 15 { 5 } else { 0 };
    assert!(rt; restored.status == status, "{calls}");
    for pick in PICKS {
        let found = left_by(alloc, &restored, *pick, old, new)?;
        assert!(rt; may_be_left(calls, found), "{calls}");
    }
    Ok(())
}

#[test]
fn a_stop_leaves_the_old_pool_none_or_the_new_one(rt: HostRuntime) -> Result<(), Fail> {
    let old = made(rt.alloc(), THIN, EMPTY, 16)?;
    let new = made_over(rt.alloc(), THIN, ONE_MAPPING, old.as_slice())?;
    for calls in 0..17 {
        expect_stopped(&rt, rt.alloc(), calls, old.as_slice(), new.as_slice())?;
    }
    Ok(())
}

#[test]
fn a_failed_call_leaves_the_old_pool_none_or_the_new_one(rt: HostRuntime) -> Result<(), Fail> {
    expect_output_faults(rt.alloc(), (THIN, EMPTY), (THIN, ONE_MAPPING), 15)?;
    Ok(())
}

/// The report of so many data blocks that nothing refers to, of which a thousand have a line.
fn leaks(alloc: Global, total: u64) -> Result<String, Fail> {
    let mut report = String::new(alloc);
    for d in 0..1000 {
        writeln!(report, "fault data {d} leak stored 1 references 0")?;
    }
    writeln!(report, "faults {total}")?;
    Ok(report)
}

#[test]
fn a_thousand_and_one_leaks_are_counted(rt: HostRuntime) -> Result<(), Fail> {
    let alloc = rt.alloc();
    let text = "thin 1\npool 00000000-0000-0000-0000-000000000000 0 0 128 1001\nend\n";
    let mut image = made(alloc, THIN, text, 16)?;
    image[3] = bitmap(3, 1001);
    let report = leaks(alloc, 1001)?;
    let image = image.as_slice();
    expect(alloc, &["thin_check", "image"], image, 1, report.as_str())?;
    expect(alloc, &["thin_dump", "image"], image, 0, text)?;
    Ok(())
}
