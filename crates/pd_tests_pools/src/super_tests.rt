//! Checks of the superblock alone, and the words of a check.

use crate::asked::{Came, WHOLE_CHECK, expect_came, expect_report, expect_run};
use pd_kinds::{Block, Kind};
use pd_samples::pool::{DEVICE, SINK, damaged, empty_super, resealed, zeros_behind};
use pd_samples::runs::{Failing, NOTHING_FAILS, run};
use std::alloc::{AllocError, Global};
use std::process::Abort;
use std::test::Fail;

/// The words of the check of the thin superblock.
const CHECK: &[&str] = &["thin_check", "--until", "super", "thin.img"];

const USAGE: &str = "pdata_tools: the words spell no request\n";

/// An empty pool's superblock with zeros behind it.
fn pool() -> [Block; 8] {
    zeros_behind(&empty_super())
}

/// Fields of the superblock that are changed, each by its offset and its eight bytes, and the report.
type Row = (&'static [(usize, u64)], &'static str);

const ROWS: &[Row] = &[
    (&[], "clean\n"),
    (&[(320, 8), (328, 2)], "fault meta 0 pointer\nfaults 1\n"),
    (
        &[(40, 1), (360, 1)],
        "fault meta 0 version\nfault meta 0 features\nfaults 2\n",
    ),
    (&[(192, 9), (328, 2)], "fault meta 0 size\nfaults 1\n"),
    (&[(8, 3), (328, 2)], "fault meta 0 place\nfaults 1\n"),
    (&[(32, 5), (40, 7)], "fault meta 0 magic\nfaults 1\n"),
];

/// The pool with these fields changed, and sealed again.
fn changed(rt: &impl Abort, fields: &[(usize, u64)]) -> [Block; 8] {
    let mut image = pool();
    for (at, value) in fields {
        assert!(rt; *at < 4088);
        image[0] = resealed(image[0], Kind::Thin.salt(), *at, *value);
    }
    image
}

/// Checks the pool with the fields of a row changed.
fn expect_row(rt: &impl Abort, alloc: Global, row: Row) -> Result<(), AllocError> {
    let (fields, report) = row;
    expect_report(rt, alloc, CHECK, report, &changed(rt, fields), report)
}

#[test]
fn reports_what_the_superblock_breaks(rt: HostRuntime) -> Result<(), Fail> {
    for row in ROWS {
        expect_row(&rt, rt.alloc(), *row)?;
    }
    Ok(())
}

#[test]
fn reports_a_damaged_superblock_and_a_device_without_blocks(rt: HostRuntime) -> Result<(), Fail> {
    let mut image = pool();
    image[0] = damaged(image[0], 100);
    let report = "fault meta 0 checksum\nfaults 1\n";
    expect_report(&rt, rt.alloc(), CHECK, "one bit", &image, report)?;
    let report = "fault meta 0 size\nfaults 1\n";
    expect_report(&rt, rt.alloc(), CHECK, "no block", &[], report)?;
    expect_report(&rt, rt.alloc(), WHOLE_CHECK, "no block", &[], report)?;
    Ok(())
}

/// The calls of `input`, `out` and `notes` that fail, and what the run comes to.
type Failure = ([Option<u64>; 3], Came<'static>);

const FAILURES: &[Failure] = &[
    ([Some(0), None, None], (5, "", DEVICE)),
    ([Some(1), None, None], (5, "", DEVICE)),
    ([Some(2), None, None], (0, "clean\n", "")),
    ([None, Some(0), None], (6, "", SINK)),
    ([None, Some(1), None], (6, "", SINK)),
    ([None, Some(2), None], (0, "clean\n", "")),
    ([None, None, Some(0)], (6, "", "")),
    ([None, None, Some(1)], (0, "clean\n", "")),
    ([Some(0), None, Some(1)], (6, "", "")),
    ([Some(1), None, Some(1)], (6, "", "")),
    ([None, Some(0), Some(1)], (6, "", "")),
    ([None, Some(1), Some(1)], (6, "", "")),
];

/// Checks the pool with these calls failing.
fn expect_failure(rt: &impl Abort, alloc: Global, failure: Failure) -> Result<(), AllocError> {
    let ([input, out, notes], came) = failure;
    let failing = Failing {
        input,
        out,
        notes,
        ..NOTHING_FAILS
    };
    expect_run(rt, alloc, CHECK, &pool(), failing, came)
}

#[test]
fn says_which_object_failed(rt: HostRuntime) -> Result<(), Fail> {
    for failure in FAILURES {
        expect_failure(&rt, rt.alloc(), *failure)?;
    }
    Ok(())
}

/// Words that spell no request.
const REFUSED: &[&[&str]] = &[
    &[],
    &["thin_check"],
    &["thin_check", "a", "b"],
    &["thin_check", "--until", "counts"],
    &["thin_check", "--until", "fast", "a"],
    &["thin_check", "--until=super", "a"],
    &["thin_check", "--until=walk", "a"],
    &["thin_check", "--until", "super", "--until", "super", "a"],
    &["thin_check", "--until", "super", "-a"],
    &["thin_check", "--until", "super", ""],
    &["thin_check", "--", "a"],
    &["thick_check", "--until", "super", "a"],
    &["thick_check", "a"],
    &["thin_check", "--until", "super", "a", "b"],
    &["--until", "super", "a"],
    &[
        "thin_check",
        "--until",
        "super",
        "--clear-needs-check-flag",
        "a",
    ],
    &["thin_restore", "-i", "a"],
];

/// Runs words that spell no request.
fn expect_refused(rt: &impl Abort, alloc: Global, words: &[&str]) -> Result<(), AllocError> {
    let ran = run(alloc, words, &[], NOTHING_FAILS)?;
    expect_came(rt, &ran, (2, "", USAGE), "refused");
    assert!(rt; ran.input.path().is_none());
    Ok(())
}

#[test]
fn refuses_words_that_spell_no_request(rt: HostRuntime) -> Result<(), Fail> {
    for words in REFUSED {
        expect_refused(&rt, rt.alloc(), words)?;
    }
    Ok(())
}

#[test]
fn takes_the_image_before_the_option(rt: HostRuntime) -> Result<(), Fail> {
    let words = &["thin_check", "thin.img", "--until", "super"];
    expect_report(&rt, rt.alloc(), words, "image first", &pool(), "clean\n")?;
    Ok(())
}
