//! Repairs of caches: what is kept, what is taken for dirty, what is refused, and what the output holds then.

use crate::cache_tests::Change::{Damage, Eighth, First, Magic};
use crate::cache_tests::{Change, EMPTY, FIRST, ONE_MAPPED, SECOND, TWO_MAPPED, changed_cache};
use pd_kinds::Block;
use pd_node::write_inner;
use pd_samples::expected::{
    ONES, Trouble, expect_dumped, expect_held, expect_output_fault, expect_said, expect_so, made,
};
use pd_samples::pool::damaged;
use pd_samples::runs::{Failing, Held, NOTHING_FAILS, Ran, blocks_of, run_over};
use std::alloc::{AllocError, Global};
use std::process::Abort;
use std::test::Fail;

/// The words of a repair in the version of the input, and in each version.
const REPAIR: &[&str] = &["cache_repair", "-i", "image", "-o", "repaired"];

const TO_FIRST: &[&str] = &[
    "cache_repair",
    "--metadata-version",
    "1",
    "-i",
    "image",
    "-o",
    "repaired",
];

const TO_SECOND: &[&str] = &[
    "cache_repair",
    "-i",
    "image",
    "-o",
    "repaired",
    "--metadata-version",
    "2",
];

const TO_THIRD: &[&str] = &[
    "cache_repair",
    "-i",
    "image",
    "-o",
    "repaired",
    "--metadata-version",
    "3",
];

/// The tools that check and dump.
pub(crate) const CACHE: (&str, &str) = ("cache_check", "cache_dump");

/// Repairs an image onto these blocks.
pub(crate) fn repair(
    alloc: Global,
    words: &[&str],
    image: &[Block],
    base: &[Block],
    failing: Failing,
) -> Result<Ran, AllocError> {
    let held = Held {
        text: b"",
        input: image,
        output: base,
        third: &[],
    };
    run_over(alloc, words, held, failing)
}

/// The blocks that a repair makes of sixteen blocks of ones, which says so much.
pub(crate) fn repaired(
    alloc: Global,
    words: &[&str],
    image: &[Block],
    says: &str,
) -> Result<Vec<Block>, Fail> {
    let ran = repair(alloc, words, image, &[ONES; 16], NOTHING_FAILS)?;
    expect_said(&ran, 0, says, "")?;
    expect_held(alloc, &ran.input, image, "the input stays")?;
    Ok(blocks_of(alloc, &ran.output)?)
}

/// The words of a restore, the text that it restores, and what a repair says of it.
type Sound = (&'static [&'static str], &'static str, &'static str);

const SOUND: &[Sound] = &[
    (
        FIRST,
        TWO_MAPPED,
        "keeps 2 of 510 blocks, 1 dirty, 0 unknown\n",
    ),
    (
        SECOND,
        TWO_MAPPED,
        "keeps 2 of 510 blocks, 1 dirty, 0 unknown\n",
    ),
    (FIRST, EMPTY, "keeps 0 of 0 blocks, 0 dirty, 0 unknown\n"),
    (SECOND, EMPTY, "keeps 0 of 0 blocks, 0 dirty, 0 unknown\n"),
    // Of a cache that wasn't shut down each entry counts as dirty.
    (SECOND, NOT_SHUT_DOWN, BOTH_DIRTY),
];

const NOT_SHUT_DOWN: &str =
    "cache 1\ncache 00000000-0000-0000-0000-000000000000 128 510 0 736d7100000000000000000000000000 2 0 0 4\nmap 0 7 0 5\n\
     map 509 8 1 6\nend\n";

/// A sound cache is made again block by block, in its version or another one, also one that wasn't shut down.
fn expect_made_again(alloc: Global, row: &Sound) -> Result<(), Fail> {
    let (version, text, says) = *row;
    let image = made(alloc, version, text, 16)?;
    for (words, wanted) in [(REPAIR, version), (TO_FIRST, FIRST), (TO_SECOND, SECOND)] {
        let found = repaired(alloc, words, image.as_slice(), says)?;
        let other = made(alloc, wanted, text, 16)?;
        expect_so(found.as_slice() == other.as_slice(), "the same blocks")?;
    }
    Ok(())
}

#[test]
fn sound_caches_are_made_again(rt: HostRuntime) -> Result<(), Fail> {
    for row in SOUND {
        expect_made_again(rt.alloc(), row)?;
    }
    Ok(())
}

/// A version of the cache of two entries, what is changed in it, what a repair says, and the text of what is kept.
type Row = (
    &'static [&'static str],
    &'static [(usize, Change)],
    &'static str,
    &'static str,
);

const ROWS: &[Row] = &[
    // The second entry's origin is that of the first one.
    (FIRST, &[(2, First(458755))], ONE_CLEAN, ONE_MAPPED),
    (SECOND, &[(2, First(458753))], ONE_CLEAN, ONE_MAPPED),
    // The words of a damaged block aren't looked at.
    (
        FIRST,
        &[(2, Damage)],
        "keeps 1 of 510 blocks, 0 dirty, 1 unknown\n",
        ONE_MAPPED,
    ),
    (FIRST, &[(1, Damage)], ONE_DIRTY, LAST_MAPPED),
    (SECOND, &[(1, Damage)], ONE_DIRTY, LAST_MAPPED),
    (FIRST, &[(3, Damage)], NOTHING, NONE_MAPPED),
    (SECOND, &[(3, Damage)], NOTHING, NONE_MAPPED),
    // A word that is invalid.
    (FIRST, &[(2, First(524290))], ONE_CLEAN, ONE_MAPPED),
    // Without hints all are 0.
    (FIRST, &[(4, Damage)], BOTH, WITHOUT_HINTS),
    (FIRST, &[(5, Damage)], BOTH, WITHOUT_HINTS),
    (SECOND, &[(5, Damage)], BOTH, WITHOUT_HINTS),
    // Whose dirty bits are lost is dirty.
    (SECOND, &[(6, Damage)], BOTH_DIRTY, ALL_DIRTY),
    (SECOND, &[(7, Damage)], BOTH_DIRTY, ALL_DIRTY),
    // In the second version the bit of a mapping word isn't looked at.
    (SECOND, &[(1, First(458755))], BOTH, TWO_MAPPED),
    (
        SECOND,
        &[(6, Eighth(0))],
        "keeps 2 of 510 blocks, 0 dirty, 0 unknown\n",
        NONE_DIRTY,
    ),
];

const ONE_CLEAN: &str = "keeps 1 of 510 blocks, 0 dirty, 0 unknown\n";

const ONE_DIRTY: &str = "keeps 1 of 510 blocks, 1 dirty, 509 unknown\n";

pub(crate) const NOTHING: &str = "keeps 0 of 510 blocks, 0 dirty, 510 unknown\n";

pub(crate) const BOTH: &str = "keeps 2 of 510 blocks, 1 dirty, 0 unknown\n";

pub(crate) const BOTH_DIRTY: &str = "keeps 2 of 510 blocks, 2 dirty, 0 unknown\n";

const LAST_MAPPED: &str =
    "cache 1\ncache 00000000-0000-0000-0000-000000000000 128 510 1 736d7100000000000000000000000000 2 0 0 4\nmap 509 8 1 6\nend\n";

pub(crate) const NONE_MAPPED: &str =
    "cache 1\ncache 00000000-0000-0000-0000-000000000000 128 510 1 736d7100000000000000000000000000 2 0 0 4\nend\n";

pub(crate) const WITHOUT_HINTS: &str =
    "cache 1\ncache 00000000-0000-0000-0000-000000000000 128 510 1 736d7100000000000000000000000000 2 0 0 4\nmap 0 7 0 0\n\
     map 509 8 1 0\nend\n";

pub(crate) const ALL_DIRTY: &str =
    "cache 1\ncache 00000000-0000-0000-0000-000000000000 128 510 1 736d7100000000000000000000000000 2 0 0 4\nmap 0 7 1 5\n\
     map 509 8 1 6\nend\n";

const NONE_DIRTY: &str =
    "cache 1\ncache 00000000-0000-0000-0000-000000000000 128 510 1 736d7100000000000000000000000000 2 0 0 4\nmap 0 7 0 5\n\
     map 509 8 0 6\nend\n";

/// What is kept of a changed cache is a clean one of this text.
fn expect_kept(alloc: Global, row: &Row) -> Result<(), Fail> {
    let (version, changes, says, text) = *row;
    let image = changed_cache(alloc, version, changes)?;
    let kept = repaired(alloc, REPAIR, image.as_slice(), says)?;
    expect_dumped(alloc, CACHE, kept.as_slice(), text)
}

#[test]
fn what_is_not_damaged_is_kept(rt: HostRuntime) -> Result<(), Fail> {
    for row in ROWS {
        expect_kept(rt.alloc(), row)?;
    }
    Ok(())
}

/// The text of a cache of 600 blocks, each of which has an entry from this one on up to another one; every second is dirty.
fn text_of_600(alloc: Global, end: u16, all_dirty: bool) -> Result<String, Fail> {
    let mut text = String::from_str(
        alloc,
        "cache 1\ncache 00000000-0000-0000-0000-000000000000 128 600 1 736d7100000000000000000000000000 2 0 0 4\n",
    )?;
    for c in 0..end {
        let dirty = if all_dirty { 1 } else { c % 2 };
        let (origin, hint) = (2 * u32::from(c), c + 1);
        writeln!(text, "map {c} {origin} {dirty} {hint}")?;
    }
    writeln!(text, "end")?;
    Ok(text)
}

/// A version, the block of the cache of 600 blocks that is damaged, what a repair says, and how many entries are kept, and whether
/// all are dirty.
type Half = (&'static [&'static str], usize, &'static str, u16, bool);

/// Of the second block of mapping words nothing is known.
const HALF: &str = "keeps 509 of 600 blocks, 254 dirty, 91 unknown\n";

const HALVES: &[Half] = &[
    (FIRST, 2, HALF, 509, false),
    (SECOND, 2, HALF, 509, false),
    (
        SECOND,
        6,
        "keeps 600 of 600 blocks, 600 dirty, 0 unknown\n",
        600,
        true,
    ),
];

/// A row holds.
fn expect_half(alloc: Global, row: &Half) -> Result<(), Fail> {
    let (version, b, says, end, all_dirty) = *row;
    let whole = text_of_600(alloc, 600, false)?;
    let mut image = made(alloc, version, whole.as_str(), 16)?;
    expect_so(b < 16, "a block")?;
    image[b] = damaged(image[b], 100);
    let kept = repaired(alloc, REPAIR, image.as_slice(), says)?;
    let text = text_of_600(alloc, end, all_dirty)?;
    expect_dumped(alloc, CACHE, kept.as_slice(), text.as_str())
}

#[test]
fn entries_of_undamaged_blocks_are_kept(rt: HostRuntime) -> Result<(), Fail> {
    for row in HALVES {
        expect_half(rt.alloc(), row)?;
    }
    Ok(())
}

// A tree that names itself ends.
#[test]
#[tactic(auto, unfolding(pd_kinds::specs::Node::is_ascending))]
fn a_node_below_itself_gives_no_entry(rt: HostRuntime) -> Result<(), Fail> {
    let mut image = made(rt.alloc(), FIRST, TWO_MAPPED, 16)?;
    image[3] = write_inner(3, &[(0, 3), (1, 3)]);
    let kept = repaired(rt.alloc(), REPAIR, image.as_slice(), NOTHING)?;
    expect_dumped(rt.alloc(), CACHE, kept.as_slice(), NONE_MAPPED)?;
    Ok(())
}

/// What is refused leaves the output as it was.
fn expect_refused(
    alloc: Global,
    words: &[&str],
    image: &[Block],
    base: &[Block],
    (status, notes): (u8, &str),
) -> Result<(), Fail> {
    let refused = repair(alloc, words, image, base, NOTHING_FAILS)?;
    expect_said(&refused, status, "", notes)?;
    expect_held(alloc, &refused.output, base, notes)
}

#[test]
fn a_repaired_cache_needs_room(rt: HostRuntime) -> Result<(), Fail> {
    let alloc = rt.alloc();
    let image = made(alloc, FIRST, TWO_MAPPED, 16)?;
    let image = image.as_slice();
    let first = (4, "pdata_tools: no room: need 10, blocks 9\n");
    expect_refused(alloc, REPAIR, image, &[ONES; 9], first)?;
    let second = (4, "pdata_tools: no room: need 12, blocks 11\n");
    expect_refused(alloc, TO_SECOND, image, &[ONES; 11], second)?;
    let fits = repair(alloc, TO_SECOND, image, &[ONES; 12], NOTHING_FAILS)?;
    expect_said(&fits, 0, BOTH, "")?;
    Ok(())
}

#[test]
fn a_superblock_with_faults_is_reported(rt: HostRuntime) -> Result<(), Fail> {
    let alloc = rt.alloc();
    let image = changed_cache(alloc, SECOND, &[(0, Magic)])?;
    let report = (1, "fault meta 0 magic\nfaults 1\n");
    expect_refused(alloc, REPAIR, image.as_slice(), &[ONES; 16], report)?;
    expect_refused(
        alloc,
        REPAIR,
        &[],
        &[ONES; 16],
        (1, "fault meta 0 size\nfaults 1\n"),
    )?;
    let words = (2, "pdata_tools: the words spell no request\n");
    expect_refused(alloc, TO_THIRD, image.as_slice(), &[ONES; 16], words)?;
    Ok(())
}

/// How many calls of a device a repair makes at most.
const MANY: u64 = 100;

/// Whether a repair has no such call. Where it has, it fails in that call, with the output as it was, without a valid superblock,
/// or made.
fn is_past(
    alloc: Global,
    image: &[Block],
    trouble: Trouble,
    new: &[Block],
    call: u64,
) -> Result<bool, Fail> {
    let base = [ONES; 16];
    let ran = repair(alloc, REPAIR, image, &base, trouble.at(call))?;
    let is_past = ran.status == 0;
    if !is_past {
        expect_output_fault(alloc, &ran, &base, new)?;
    }
    Ok(is_past)
}

/// Each call of this object fails in turn, up to one that isn't made.
fn expect_failures(alloc: Global, trouble: Trouble, least: u64) -> Result<(), Fail> {
    let image = made(alloc, SECOND, TWO_MAPPED, 16)?;
    let image = image.as_slice();
    for call in 0..MANY {
        if is_past(alloc, image, trouble, image, call)? {
            return expect_so(call > least, "more calls");
        }
    }
    expect_so(false, "an end")
}

#[test]
fn each_call_of_the_devices_may_fail(rt: HostRuntime) -> Result<(), Fail> {
    for (trouble, least) in [
        (Trouble::Input, 5),
        (Trouble::InputStops, 5),
        (Trouble::Output, 14),
        (Trouble::OutputStops, 14),
    ] {
        expect_failures(rt.alloc(), trouble, least)?;
    }
    Ok(())
}
