//! Runs of the tools over devices that tell nothing.

use crate::hidden::{Hidden, Shown};
use crate::requests::Image::{FlaggedPool, Pool};
use crate::requests::{
    APART, CACHE_TEXT, CLEAN, DIRTY, SHARED_LEAF, TARGET_TEXT, TOGETHER, blocks, filled,
};
use pd_image::{MemSink, MemSource};
use pd_kinds::Block;
use pd_samples::pool::{ONE, SHARED};
use pd_samples::runs::{Held, NOTHING_FAILS, blocks_of, run, run_over, texts_of};
use pd_tools::run_tool;
use std::alloc::{AllocError, Global};
use std::process::Abort;
use std::test::Fail;

/// The status of a call, and its objects after it.
#[derive(Drop)]
struct Call {
    status: u8,
    out: MemSink,
    notes: MemSink,
    input: Hidden,
    output: Hidden,
    third: Hidden,
}

/// The text that a call reads, the blocks of its three devices, and what the output shows from a call on.
#[derive(Drop)]
struct Untold<'a> {
    text: &'a str,
    input: Vec<Block>,
    output: Vec<Block>,
    third: Vec<Block>,
    shows_from: u64,
    shown: Shown,
}

/// Runs a tool over devices that tell nothing.
fn run_untold(alloc: Global, words: &[&str], untold: Untold<'_>) -> Result<Box<Call>, AllocError> {
    let Untold {
        text,
        input,
        output,
        third,
        shows_from,
        shown,
    } = untold;
    let texts = texts_of(alloc, words)?;
    let mut source = MemSource::of(alloc, text.as_bytes(), 7)?;
    let mut out = MemSink::new(alloc);
    let mut notes = MemSink::new(alloc);
    let mut input = Hidden::new(input, u64::MAX, Shown::Damaged);
    let mut output = Hidden::new(output, shows_from, shown);
    let mut third = Hidden::new(third, u64::MAX, Shown::Damaged);
    let status = run_tool(
        alloc,
        texts.as_slice(),
        &mut source,
        &mut out,
        &mut notes,
        &mut input,
        &mut output,
        &mut third,
    );
    let call = Call {
        status,
        out,
        notes,
        input,
        output,
        third,
    };
    Ok(Box::new(alloc, call)?)
}

/// A call with this text and this input, over so many blocks of zeros, which shows what it holds.
fn shown<'a>(
    alloc: Global,
    text: &'a str,
    input: Vec<Block>,
    blocks: usize,
) -> Result<Untold<'a>, AllocError> {
    let output = vec![in alloc; Block::zeros(); blocks]?;
    Ok(Untold {
        text,
        input,
        output,
        third: Vec::new(alloc),
        shows_from: u64::MAX,
        shown: Shown::Damaged,
    })
}

/// The words of the restores.
const THIN: &[&str] = &["thin_restore", "-i", "text", "-o", "x"];

const CACHE: &[&str] = &["cache_restore", "-i", "text", "-o", "x"];

const ERA: &[&str] = &["era_restore", "-i", "text", "-o", "x"];

/// The words of a restore and a text, which make the input, and the words of a tool and its `out`.
type Row = (
    &'static [&'static str],
    &'static str,
    &'static [&'static str],
    &'static str,
);

/// Tools that read the input.
const READING: &[Row] = &[
    (THIN, ONE, &["thin_check", "x"], "clean\n"),
    (CACHE, CACHE_TEXT, &["cache_check", "x"], "clean\n"),
    (ERA, TARGET_TEXT, &["era_check", "x"], "clean\n"),
    (THIN, ONE, &["thin_dump", "x"], ONE),
    (
        THIN,
        SHARED_LEAF,
        &["thin_dump", "--shared", "x"],
        SHARED_LEAF,
    ),
    (CACHE, CACHE_TEXT, &["cache_dump", "x"], CACHE_TEXT),
    (ERA, TARGET_TEXT, &["era_dump", "x"], TARGET_TEXT),
    (
        THIN,
        SHARED,
        &["thin_rmap", "--region", "0..1", "x"],
        "block 0 device 1 virtual 0\nblock 0 device 2 virtual 0\n",
    ),
    (
        THIN,
        ONE,
        &["thin_ls", "x"],
        "device 1 mapped 1 exclusive 1 shared 0 transaction 0 created 0 snapped 0\n",
    ),
    (THIN, APART, &["thin_trim", "--list", "x"], "unused 1 2\n"),
    (
        THIN,
        ONE,
        &["thin_repair", "--dry-run", "-i", "x"],
        "device 1 kept 1 of 1\nkeeps 1 1 need 10 shared 10\n",
    ),
    (
        CACHE,
        CACHE_TEXT,
        &["cache_repair", "--dry-run", "-i", "x"],
        KEEPS_BOTH,
    ),
    (
        ERA,
        TARGET_TEXT,
        &["era_invalidate", "--written-since", "9", "x"],
        "written 64 1\n",
    ),
];

/// Tools that write the output. What they write is what that restore makes of that text on a device that tells.
const WRITING: &[Row] = &[
    (THIN, ONE, THIN, ""),
    (THIN, SHARED_LEAF, THIN, ""),
    (CACHE, CACHE_TEXT, CACHE, ""),
    (ERA, TARGET_TEXT, ERA, ""),
    (THIN, ONE, &["thin_repair", "-i", "a", "-o", "x"], ""),
    (THIN, SHARED_LEAF, REPAIR_SHARED, ""),
    (THIN, ONE, SEARCH, "roots 2 3 mappings 1 time 0\n"),
    (CACHE, CACHE_TEXT, REPAIR_CACHE, KEEPS_BOTH),
];

/// What a repair keeps of the cache.
const KEEPS_BOTH: &str = "keeps 2 of 510 blocks, 1 dirty, 0 unknown\n";

/// The words of a repair that keeps what is shared, and of one of a cache.
const REPAIR_SHARED: &[&str] = &["thin_repair", "--shared", "-i", "a", "-o", "x"];

const REPAIR_CACHE: &[&str] = &["cache_repair", "-i", "a", "-o", "x"];

/// The words of a search for the roots of the pool of one mapping.
const SEARCH: &[&str] = &[
    "thin_repair",
    "-i",
    "a",
    "-o",
    "x",
    "--transaction-id",
    "0",
    "--data-block-size",
    "128",
    "--nr-data-blocks",
    "1",
];

/// The words of a writeback, of a shrink to two data blocks, and of a check that clears the flag.
const WRITEBACK: &[&str] = &[
    "cache_writeback",
    "--metadata-device",
    "a",
    "--fast-device",
    "f",
    "--origin-device",
    "x",
];

const SHRINK: &[&str] = &[
    "thin_shrink",
    "-i",
    "a",
    "-o",
    "x",
    "--data",
    "d",
    "--nr-blocks",
    "2",
];

const CLEAR: &[&str] = &["thin_check", "--clear-needs-check-flag", "a"];

/// How many blocks a device of a row has.
const BLOCKS: usize = 16;

/// The blocks that a restore makes of a text.
fn made_of(alloc: Global, words: &[&str], text: &str) -> Result<Vec<Block>, AllocError> {
    let base = [Block::zeros(); BLOCKS];
    let held = Held {
        text: text.as_bytes(),
        input: &[],
        output: &base,
        third: &[],
    };
    let made = run_over(alloc, words, held, NOTHING_FAILS)?;
    blocks_of(alloc, &made.output)
}

/// Runs the tool of a row, which must come to what the row says: its call.
fn expect_row(rt: &impl Abort, alloc: Global, row: Row) -> Result<Box<Call>, AllocError> {
    let (restore, text, words, out) = row;
    let made = made_of(alloc, restore, text)?;
    let call = run_untold(alloc, words, shown(alloc, text, made, BLOCKS)?)?;
    expect_done(rt, &*call, out);
    Ok(call)
}

#[test]
fn devices_that_tell_nothing_are_read(rt: HostRuntime) -> Result<(), Fail> {
    for row in READING {
        expect_row(&rt, rt.alloc(), *row)?;
    }
    Ok(())
}

/// Runs the tool of a row, after which the output must hold what the restore of the row makes.
fn expect_written(rt: &impl Abort, alloc: Global, row: Row) -> Result<(), AllocError> {
    let call = expect_row(rt, alloc, row)?;
    let made = made_of(alloc, row.0, row.1)?;
    assert!(rt; call.output.held() == made.as_slice());
    Ok(())
}

#[test]
fn devices_that_tell_nothing_are_written(rt: HostRuntime) -> Result<(), Fail> {
    for row in WRITING {
        expect_written(&rt, rt.alloc(), *row)?;
    }
    Ok(())
}

/// A call has status 0 and has put this.
fn expect_done(rt: &impl Abort, call: &Call, out: &str) {
    assert!(rt; call.status == 0, "{out}");
    assert!(rt; call.notes.bytes().is_empty(), "{out}");
    assert!(rt; call.out.bytes() == out.as_bytes(), "{out}");
}

#[test]
fn the_flag_is_cleared_on_a_device_that_tells_nothing(rt: HostRuntime) -> Result<(), Fail> {
    let alloc = rt.alloc();
    let flagged = blocks(&rt, alloc, FlaggedPool)?;
    let call = run_untold(alloc, CLEAR, shown(alloc, "", flagged, 0)?)?;
    expect_done(&rt, &*call, "clean\n");
    let cleared = blocks(&rt, alloc, Pool)?;
    assert!(rt; call.input.held() == cleared.as_slice());
    Ok(())
}

#[test]
fn a_cache_is_written_back_over_devices_that_tell_nothing(rt: HostRuntime) -> Result<(), Fail> {
    let alloc = rt.alloc();
    let mut untold = shown(alloc, "", made_of(alloc, CACHE, DIRTY)?, 0)?;
    untold.output = filled(alloc, &[0xBB, 0, 0, 0])?;
    untold.third = filled(alloc, &[0xAA, 0xBB])?;
    let call = run_untold(alloc, WRITEBACK, untold)?;
    expect_done(&rt, &*call, "copied 1\n");
    let settled = made_of(alloc, CACHE, CLEAN)?;
    assert!(rt; call.input.held() == settled.as_slice());
    let copied = filled(alloc, &[0xBB, 0, 0, 0xAA])?;
    assert!(rt; call.output.held() == copied.as_slice());
    Ok(())
}

#[test]
fn a_pool_is_made_smaller_over_devices_that_tell_nothing(rt: HostRuntime) -> Result<(), Fail> {
    let alloc = rt.alloc();
    let mut untold = shown(alloc, "", made_of(alloc, THIN, APART)?, BLOCKS)?;
    untold.third = filled(alloc, &[0xA0, 0xA1, 0xA2, 0xA3])?;
    let call = run_untold(alloc, SHRINK, untold)?;
    expect_done(&rt, &*call, "moved 1\n");
    let smaller = made_of(alloc, THIN, TOGETHER)?;
    assert!(rt; call.output.held() == smaller.as_slice());
    let moved = filled(alloc, &[0xA0, 0xA3, 0xA2, 0xA3])?;
    assert!(rt; call.third.held() == moved.as_slice());
    Ok(())
}

#[test]
fn the_generator_leaves_devices_alone(rt: HostRuntime) -> Result<(), Fail> {
    let alloc = rt.alloc();
    let words = &["thin_generate", "--number", "1"];
    let told = run(alloc, words, &[], NOTHING_FAILS)?;
    let untold = shown(alloc, "", Vec::new(alloc), 0)?;
    let call = run_untold(alloc, words, untold)?;
    assert!(rt; call.status == 0);
    assert!(rt; call.out.bytes() == told.out.bytes());
    Ok(())
}

/// The call after a rehearsal's restore, which is the first read of its check.
const AFTER_RESTORE: u64 = 24;

/// How many blocks a rehearsal's device has.
const REHEARSED: usize = 4096;

/// A rehearsal of number 1 over a device that shows this after the restore.
fn rehearse(alloc: Global, after: Shown) -> Result<Box<Call>, AllocError> {
    let words = &["thin_rehearse", "--number", "1", "-o", "x"];
    let untold = Untold {
        text: "",
        input: Vec::new(alloc),
        output: vec![in alloc; Block::zeros(); REHEARSED]?,
        third: Vec::new(alloc),
        shows_from: AFTER_RESTORE,
        shown: after,
    };
    run_untold(alloc, words, untold)
}

#[test]
fn a_rehearsal_checks_what_it_restored(rt: HostRuntime) -> Result<(), Fail> {
    let call = rehearse(rt.alloc(), Shown::Damaged)?;
    assert!(rt; call.status == 1);
    assert!(rt; call.out.bytes().is_empty());
    assert!(rt; call.notes.bytes() == "fault meta 1 checksum\nfaults 1\n".as_bytes());
    Ok(())
}

#[test]
fn a_rehearsal_dumps_what_it_restored(rt: HostRuntime) -> Result<(), Fail> {
    let alloc = rt.alloc();
    let base = vec![in alloc; Block::zeros(); REHEARSED]?;
    let held = Held {
        text: ONE.as_bytes(),
        input: &[],
        output: base.as_slice(),
        third: &[],
    };
    let made = run_over(alloc, THIN, held, NOTHING_FAILS)?;
    let shown = Shown::Blocks(blocks_of(alloc, &made.output)?);
    let call = rehearse(alloc, shown)?;
    assert!(rt; call.status == 0);
    assert!(rt; call.notes.bytes().is_empty());
    assert!(rt; call.out.bytes().starts_with("rehearsal 1 ".as_bytes()));
    assert!(rt;
        call.out
            .bytes()
            .ends_with(" mappings 1 lines 5 clean\n".as_bytes())
    );
    Ok(())
}
