//! Writebacks of caches: what is dirty is copied, and marked clean after that.

use crate::cache_tests::{FIRST, SECOND};
use pd_image::{MemDevice, Pick};
use pd_kinds::{Block, u64_at};
use pd_samples::expected::End::{Done, NoRoom, Stopped};
use pd_samples::expected::{End, ONES, Trouble, expect_end, expect_held, holds, made};
use pd_samples::pool::damaged;
use pd_samples::runs::{
    Devices, Failing, Fill, NOTHING_FAILS, Ran, blocks_after_crash, blocks_of, filled, may_be_old,
    run,
};
use pd_supers::read_cache_super;
use std::alloc::{AllocError, Global};
use std::process::Abort;
use std::test::Fail;

/// A cache that was shut down, with blocks of 4096 bytes: two are mapped, and the first one is dirty.
const DIRTY: &str =
    "cache 1\ncache 00000000-0000-0000-0000-000000000000 8 2 1 736d7100000000000000000000000000 2 0 0 4\nmap 0 3 1 0\nmap 1 0 0 0\nend\n";

/// The same with nothing dirty.
const CLEAN: &str =
    "cache 1\ncache 00000000-0000-0000-0000-000000000000 8 2 1 736d7100000000000000000000000000 2 0 0 4\nmap 0 3 0 0\nmap 1 0 0 0\nend\n";

/// The same two caches, not shut down.
const IN_USE: &str =
    "cache 1\ncache 00000000-0000-0000-0000-000000000000 8 2 0 736d7100000000000000000000000000 2 0 0 4\nmap 0 3 1 0\nmap 1 0 0 0\nend\n";

const CLEAN_IN_USE: &str =
    "cache 1\ncache 00000000-0000-0000-0000-000000000000 8 2 0 736d7100000000000000000000000000 2 0 0 4\nmap 0 3 0 0\nmap 1 0 0 0\nend\n";

/// A cache whose one block, of 8192 bytes, is dirty, and the same with nothing dirty.
const TWO_EACH: &str =
    "cache 1\ncache 00000000-0000-0000-0000-000000000000 16 1 1 736d7100000000000000000000000000 2 0 0 0\nmap 0 1 1 0\nend\n";

const TWO_EACH_CLEAN: &str =
    "cache 1\ncache 00000000-0000-0000-0000-000000000000 16 1 1 736d7100000000000000000000000000 2 0 0 0\nmap 0 1 0 0\nend\n";

/// Caches whose blocks aren't whole blocks of 4096 bytes: of 6144, of 2048, and of no bytes.
const OF_12_SECTORS: &str =
    "cache 1\ncache 00000000-0000-0000-0000-000000000000 12 1 1 736d7100000000000000000000000000 2 0 0 0\nmap 0 1 1 0\nend\n";

const OF_4_SECTORS: &str =
    "cache 1\ncache 00000000-0000-0000-0000-000000000000 4 1 1 736d7100000000000000000000000000 2 0 0 0\nmap 0 1 1 0\nend\n";

const OF_NO_SECTORS: &str =
    "cache 1\ncache 00000000-0000-0000-0000-000000000000 0 1 1 736d7100000000000000000000000000 2 0 0 0\nmap 0 1 1 0\nend\n";

/// The cache of two blocks, of 6144 bytes each.
const DIRTY_OF_12_SECTORS: &str =
    "cache 1\ncache 00000000-0000-0000-0000-000000000000 12 2 1 736d7100000000000000000000000000 2 0 0 4\nmap 0 3 1 0\nmap 1 0 0 0\nend\n";

const BAD_SIZE: End = Stopped("pdata_tools: block size\n");

/// The words of a writeback.
const WORDS: &[&str] = &[
    "cache_writeback",
    "--metadata-device",
    "meta",
    "--fast-device",
    "fast",
    "--origin-device",
    "origin",
];

/// Fast devices of two blocks.
const FAST: Fill = &[0xAA, 0xBB];

const FIVE_SIX: Fill = &[5, 6];

/// Origins that need not change.
const ORIGIN: Fill = &[1, 2, 3, 4];

const OF_THREE: Fill = &[1, 2, 3];

const STALE: Fill = &[0xBB, 0, 0, 0];

const STALE_OF_THREE: Fill = &[0xBB, 0, 0];

/// What is copied of these.
const COPIED: Fill = &[0xBB, 0, 0, 0xAA];

const ONE_COPIED: Fill = &[1, 2, 3, 0xAA];

const BOTH_COPIED: Fill = &[0xBB, 2, 3, 0xAA];

const ONE: End = Done("copied 1\n");

const TWO: End = Done("copied 2\n");

/// A writeback: the text of the cache, what the fast device and the origin hold, what it comes to, and what the origin and the
/// text of the cache are then.
type Row = (&'static str, Fill, Fill, End, Fill, &'static str);

const ROWS: &[Row] = &[
    (DIRTY, FAST, STALE, ONE, COPIED, CLEAN),
    (
        DIRTY,
        FAST,
        STALE_OF_THREE,
        NoRoom(4, 3),
        STALE_OF_THREE,
        DIRTY,
    ),
    (IN_USE, FAST, STALE, TWO, COPIED, CLEAN_IN_USE),
    (
        DIRTY_OF_12_SECTORS,
        FAST,
        STALE,
        BAD_SIZE,
        STALE,
        DIRTY_OF_12_SECTORS,
    ),
    (IN_USE, FAST, ORIGIN, TWO, BOTH_COPIED, CLEAN_IN_USE),
    (CLEAN, FAST, ORIGIN, Done("copied 0\n"), ORIGIN, CLEAN),
    // A clean block needs no room, on either device.
    (DIRTY, &[0xAA], ORIGIN, ONE, ONE_COPIED, CLEAN),
    // The origin has a front of the last block alone.
    (
        TWO_EACH,
        FIVE_SIX,
        OF_THREE,
        ONE,
        &[1, 2, 5],
        TWO_EACH_CLEAN,
    ),
    (TWO_EACH, FIVE_SIX, &[1, 2], NoRoom(3, 2), &[1, 2], TWO_EACH),
    (TWO_EACH, &[5], ORIGIN, NoRoom(2, 1), ORIGIN, TWO_EACH),
    (DIRTY, FAST, OF_THREE, NoRoom(4, 3), OF_THREE, DIRTY),
    (IN_USE, &[0xAA], &[1], NoRoom(2, 1), &[1], IN_USE),
    (OF_12_SECTORS, &[], &[1], BAD_SIZE, &[1], OF_12_SECTORS),
    (OF_4_SECTORS, &[], &[1], BAD_SIZE, &[1], OF_4_SECTORS),
    (OF_NO_SECTORS, &[], &[1], BAD_SIZE, &[1], OF_NO_SECTORS),
];

/// The devices of a cache of this text: the origin is the output, and the fast device the third.
fn devices_of(
    alloc: Global,
    version: &[&str],
    text: &str,
    fast: &[u8],
    origin: &[u8],
) -> Result<Box<Devices>, Fail> {
    let meta = made(alloc, version, text, 16)?;
    let origin = filled(alloc, origin)?;
    Ok(Devices::of(alloc, meta, origin, fast)?)
}

/// Writes a cache back.
fn write_back(alloc: Global, devices: &Devices, failing: Failing) -> Result<Ran, AllocError> {
    devices.run(alloc, WORDS, failing)
}

/// Whether the metadata dumps as this text.
fn dumps_as(alloc: Global, device: &MemDevice, text: &str) -> Result<bool, AllocError> {
    let image = blocks_of(alloc, device)?;
    let dumped = run(
        alloc,
        &["cache_dump", "meta"],
        image.as_slice(),
        NOTHING_FAILS,
    )?;
    Ok(dumped.out.bytes() == text.as_bytes())
}

/// The fast device is as it was.
fn expect_fast(alloc: Global, before: &Devices, ran: &Ran) -> Result<(), Fail> {
    expect_held(
        alloc,
        &ran.third,
        before.third.as_slice(),
        "the fast device",
    )
}

/// Writes a cache back, which comes to this. The metadata is written where the text changes, and dumps as the text after it.
fn expect_row(rt: &impl Abort, alloc: Global, version: &[&str], row: &Row) -> Result<(), Fail> {
    let (text, fast, origin, end, after, text_after) = *row;
    let before = devices_of(alloc, version, text, fast, origin)?;
    let ran = write_back(alloc, &*before, NOTHING_FAILS)?;
    expect_end(alloc, &ran, end)?;
    expect_fast(alloc, &*before, &ran)?;
    let copied = filled(alloc, after)?;
    expect_held(alloc, &ran.output, copied.as_slice(), "the origin")?;
    let is_dumped = dumps_as(alloc, &ran.input, text_after)?;
    let stays = holds(alloc, &ran.input, before.meta.as_slice())?;
    assert!(rt; is_dumped & (stays == (text == text_after)));
    Ok(())
}

#[test]
fn writebacks_copy_what_is_hot_and_mark_it(rt: HostRuntime) -> Result<(), Fail> {
    for row in ROWS {
        expect_row(&rt, rt.alloc(), FIRST, row)?;
        expect_row(&rt, rt.alloc(), SECOND, row)?;
    }
    Ok(())
}

/// The first mapping word of a cache: it stands in block 1, behind the 24 bytes that an array block begins with.
fn first_word(image: &[Block]) -> Option<u64> {
    match image.get(1) {
        Some(block) => Some(u64_at(&block.0, 24)),
        None => None,
    }
}

/// How many blocks of a cache's metadata are used.
fn used_blocks(image: &[Block]) -> Option<u64> {
    match image.first() {
        Some(block) => Some(read_cache_super(block).meta_map.allocated),
        None => None,
    }
}

// The first block of the cache leads to block 3 of the origin, is valid and is dirty: 3 * 65536 + 1 + 2.
#[test]
fn a_writeback_of_one_block_clears_its_flag(rt: HostRuntime) -> Result<(), Fail> {
    let alloc = rt.alloc();
    let before = devices_of(alloc, FIRST, DIRTY, FAST, STALE)?;
    assert!(rt; used_blocks(before.meta.as_slice()) == Some(9));
    assert!(rt; first_word(before.meta.as_slice()) == Some(196611));
    for b in 9..before.meta.len() {
        assert!(rt; before.meta[b] == ONES);
    }
    let ran = write_back(alloc, &*before, NOTHING_FAILS)?;
    let after = blocks_of(alloc, &ran.input)?;
    assert!(rt; first_word(after.as_slice()) == Some(196609));
    Ok(())
}

#[test]
fn metadata_with_faults_is_not_written_back(rt: HostRuntime) -> Result<(), Fail> {
    let alloc = rt.alloc();
    let mut before = devices_of(alloc, FIRST, DIRTY, &[1, 2], &[3, 4, 5, 6])?;
    if 1 < before.meta.len() {
        before.meta[1] = damaged(before.meta[1], 100);
    }
    let ran = write_back(alloc, &*before, NOTHING_FAILS)?;
    expect_end(alloc, &ran, Stopped("fault meta 1 checksum\nfaults 1\n"))?;
    expect_held(alloc, &ran.input, before.meta.as_slice(), "the metadata")?;
    expect_held(alloc, &ran.output, before.output.as_slice(), "the origin")?;
    Ok(())
}

/// Whether all blocks of an origin but block 3, for which the fast device's block 0 stands, are as they were.
fn has_others(old: &[Block], left: &[Block]) -> bool {
    let mut same = left.len() == old.len();
    for b in 0..left.len() {
        same &= b == 3 || b >= old.len() || left[b] == old[b];
    }
    same
}

/// What of a stopped or failed writeback of `DIRTY` a crash may leave by this pick: the old metadata, the marked one or
/// none, and an origin that under the cache reads the same, and that has all where the metadata isn't the old one.
fn expect_left(
    rt: &impl Abort,
    alloc: Global,
    before: &Devices,
    whole: &Devices,
    ran: &Ran,
    pick: Pick,
) -> Result<(), AllocError> {
    let meta = blocks_after_crash(alloc, &ran.input, pick)?;
    let origin = blocks_after_crash(alloc, &ran.output, pick)?;
    let is_old = may_be_old(
        meta.as_slice(),
        before.meta.as_slice(),
        whole.meta.as_slice(),
    );
    let is_copied = origin.as_slice() == whole.output.as_slice();
    let has_others = has_others(before.output.as_slice(), origin.as_slice());
    assert!(rt; has_others & (is_old == Some(true) || (is_old == Some(false)) & is_copied));
    Ok(())
}

const TROUBLES: &[Trouble] = &[
    Trouble::Out,
    Trouble::Notes,
    Trouble::Input,
    Trouble::Output,
    Trouble::Third,
    Trouble::InputStops,
    Trouble::OutputStops,
];

/// The picks of the crashes that are looked at.
const PICKS: &[Pick] = &[Pick::Old, Pick::New, Pick::Other(7)];

/// More calls than an object of a writeback gets.
const MANY: u64 = 60;

/// Whether a trouble at this call comes to none. Where it comes to one, the writeback fails by it.
fn is_past_trouble(
    rt: &impl Abort,
    alloc: Global,
    before: &Devices,
    whole: &Devices,
    trouble: Trouble,
    call: u64,
) -> Result<bool, Fail> {
    let ran = write_back(alloc, before, trouble.at(call))?;
    let is_past = ran.status == 0;
    assert!(rt; is_past | (ran.status == trouble.status()), "{call}");
    if !is_past {
        expect_fast(alloc, before, &ran)?;
        for pick in PICKS {
            expect_left(rt, alloc, before, whole, &ran, *pick)?;
        }
    }
    Ok(is_past)
}

/// Tries a trouble at each call, until it comes to none.
fn expect_troubles(
    rt: &impl Abort,
    alloc: Global,
    before: &Devices,
    whole: &Devices,
    trouble: Trouble,
) -> Result<(), Fail> {
    for call in 0..MANY {
        if is_past_trouble(rt, alloc, before, whole, trouble, call)? {
            return Ok(());
        }
    }
    assert!(rt; false, "there are more calls");
    Ok(())
}

/// What a whole writeback of these devices leaves.
fn written_back(alloc: Global, before: &Devices) -> Result<Box<Devices>, AllocError> {
    let ran = write_back(alloc, before, NOTHING_FAILS)?;
    let settled = blocks_of(alloc, &ran.input)?;
    let copied = blocks_of(alloc, &ran.output)?;
    Devices::of(alloc, settled, copied, FAST)
}

#[test]
fn a_writeback_that_fails_or_stops_anywhere_reads_the_same(rt: HostRuntime) -> Result<(), Fail> {
    let alloc = rt.alloc();
    for version in [FIRST, SECOND] {
        let before = devices_of(alloc, version, DIRTY, FAST, STALE)?;
        let whole = written_back(alloc, &*before)?;
        for trouble in TROUBLES {
            expect_troubles(&rt, alloc, &*before, &*whole, *trouble)?;
        }
    }
    Ok(())
}
