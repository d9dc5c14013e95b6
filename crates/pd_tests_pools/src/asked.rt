//! What is asked of pools, and what a run must come to.

use pd_kinds::Block;
use pd_samples::runs::{Call, Failing, NOTHING_FAILS, Ran, blocks_of, restored, run};
use std::alloc::{AllocError, Global};
use std::process::Abort;

/// The report on a leaf in block 1 that is damaged.
pub const DAMAGED: &str = "fault meta 1 checksum\nfaults 1\n";

/// A status, and the bytes of `out` and of `notes`.
pub type Came<'a> = (u8, &'a str, &'a str);

/// A run came to this.
pub fn expect_came(rt: &impl Abort, call: &Call, came: Came<'_>, shows: &str) {
    let (status, out, notes) = came;
    assert!(rt; call.status == status, "{shows}");
    assert!(rt; call.out.bytes() == out.as_bytes(), "{shows}");
    assert!(rt; call.notes.bytes() == notes.as_bytes(), "{shows}");
}

/// Runs a tool over an image, with these calls failing, which must come to this.
pub fn expect_run(
    rt: &impl Abort,
    alloc: Global,
    words: &[&str],
    image: &[Block],
    failing: Failing,
    came: Came<'_>,
) -> Result<(), AllocError> {
    let ran = run(alloc, words, image, failing)?;
    expect_came(rt, &ran, came, came.1);
    Ok(())
}

/// Runs a tool over an image, where these must be the lines, put to this path.
pub fn expect_put(
    rt: &impl Abort,
    alloc: Global,
    words: &[&str],
    image: &[Block],
    path: &str,
    lines: &str,
) -> Result<(), AllocError> {
    let ran = run(alloc, words, image, NOTHING_FAILS)?;
    expect_came(rt, &ran, (0, lines, ""), lines);
    assert!(rt; ran.out.path() == Some(path.as_bytes()), "{lines}");
    Ok(())
}

/// Runs a tool over an image whose block 1 is damaged, which only `notes` tells.
pub fn expect_damaged(
    rt: &impl Abort,
    alloc: Global,
    words: &[&str],
    image: &[Block],
) -> Result<(), AllocError> {
    let ran = run(alloc, words, image, NOTHING_FAILS)?;
    expect_came(rt, &ran, (1, "", DAMAGED), "damaged");
    assert!(rt; ran.out.path().is_none());
    Ok(())
}

/// Runs a tool over the pool that a restore makes of a text.
pub fn ask(alloc: Global, text: &str, words: &[&str]) -> Result<Ran, AllocError> {
    let image = restored(alloc, text, 16)?;
    run(alloc, words, image.as_slice(), NOTHING_FAILS)
}

/// Asks of the pool that a restore makes of a text, where these must be the lines, put to this path.
pub fn expect_lines(
    rt: &impl Abort,
    alloc: Global,
    text: &str,
    words: &[&str],
    path: &str,
    lines: &str,
) -> Result<(), AllocError> {
    let image = restored(alloc, text, 16)?;
    expect_put(rt, alloc, words, image.as_slice(), path, lines)
}

// Checks of images in memory, and the reports that they come to.

/// The words of the whole check.
pub const WHOLE_CHECK: &[&str] = &["thin_check", "thin.img"];

/// Whether no object but the image was attached.
fn is_read_alone(call: &Call) -> bool {
    let source = call.source.path().is_none();
    let output = call.output.path().is_none();
    let third = call.third.path().is_none();
    source & output & third
}

/// Runs a tool over an image, which it only reads: this must be put with this status, and nothing is noted.
pub fn expect_told(
    rt: &impl Abort,
    alloc: Global,
    words: &[&str],
    shows: &str,
    image: &[Block],
    status: u8,
    out: &str,
) -> Result<(), AllocError> {
    let ran = run(alloc, words, image, NOTHING_FAILS)?;
    expect_came(rt, &ran, (status, out, ""), shows);
    assert!(rt; ran.input.path() == Some("thin.img".as_bytes()), "{shows}");
    assert!(rt; is_read_alone(&ran), "{shows}");
    let left = blocks_of(alloc, &ran.input)?;
    assert!(rt; left.as_slice() == image, "{shows}");
    Ok(())
}

/// Checks an image by these words, where this must be the report. The status is 0 where it is clean.
pub fn expect_report(
    rt: &impl Abort,
    alloc: Global,
    words: &[&str],
    shows: &str,
    image: &[Block],
    report: &str,
) -> Result<(), AllocError> {
    let status = if report == "clean\n" { 0 } else { 1 };
    expect_told(rt, alloc, words, shows, image, status, report)
}

/// Restores a text to blocks of zeros, where these must be the blocks then.
pub fn expect_restored(
    rt: &impl Abort,
    alloc: Global,
    text: &str,
    image: &[Block],
) -> Result<(), AllocError> {
    let found = restored(alloc, text, image.len())?;
    assert!(rt; found.as_slice() == image, "{text}");
    Ok(())
}
