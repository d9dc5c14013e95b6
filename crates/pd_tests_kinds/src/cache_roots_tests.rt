//! Damaged caches: what a repair would keep, the roots that it lists, and repairs from named roots.

use crate::cache_repair_tests::{
    ALL_DIRTY, BOTH, BOTH_DIRTY, CACHE, NONE_MAPPED, NOTHING, WITHOUT_HINTS, repair, repaired,
};
use crate::cache_tests::Change::{Blocks, Damage, Magic, Older};
use crate::cache_tests::{Change, FIRST, SECOND, TWO_MAPPED, changed_cache};
use pd_samples::expected::{expect_dumped, expect_held, expect_said};
use pd_samples::runs::NOTHING_FAILS;
use std::alloc::Global;
use std::test::Fail;

/// What is asked: the words between the tool's name and the input.
const DRY: &[&str] = &["cache_repair", "--dry-run", "-i", "image"];

const DRY_FROM_OLDER: &[&str] = &[
    "cache_repair",
    "--dry-run",
    "--mapping-root",
    "13",
    "-i",
    "image",
];

const DRY_FROM_OUTSIDE: &[&str] = &[
    "cache_repair",
    "--dry-run",
    "--mapping-root",
    "18446744073709551615",
    "-i",
    "image",
];

const DRY_WITHOUT_BITS: &[&str] = &[
    "cache_repair",
    "--dry-run",
    "--metadata-version",
    "1",
    "--dirty-root",
    "16",
    "-i",
    "image",
];

/// A version of the cache of two entries, what is changed in it, what is asked, and what is told.
type Row = (
    &'static [&'static str],
    &'static [(usize, Change)],
    &'static [&'static str],
    &'static str,
);

const ROWS: &[Row] = &[
    (FIRST, &[], DRY, BOTH),
    (SECOND, &[(13, Older)], DRY, BOTH),
    // The root of the mapping array is lost, and an older one is whole.
    (FIRST, &[(3, Damage)], DRY, NOTHING),
    (FIRST, &[(3, Damage), (13, Older)], DRY, OLDER),
    (SECOND, &[(3, Damage), (13, Older)], DRY, OLDER),
    (SECOND, &[(3, Damage), (13, Older)], DRY_FROM_OLDER, BOTH),
    // One of its blocks is, which the older one has too.
    (
        FIRST,
        &[(1, Damage), (13, Older)],
        DRY,
        "keeps 1 of 510 blocks, 1 dirty, 509 unknown\n",
    ),
    // In the second version the dirty bits are, or their root.
    (SECOND, &[(6, Damage)], DRY, BOTH_DIRTY),
    (SECOND, &[(7, Damage)], DRY, BOTH_DIRTY),
    (SECOND, &[], DRY_WITHOUT_BITS, BOTH_DIRTY),
    // A root outside the metadata saves nothing, and then the superblock's own is fuller.
    (SECOND, &[], DRY_FROM_OUTSIDE, OWN),
    // As many cache blocks as can be said.
    (
        SECOND,
        &[(0, Blocks(4294967295))],
        DRY,
        "keeps 2 of 4294967295 blocks, 1 dirty, 4294966785 unknown\n",
    ),
];

const OLDER: &str = "keeps 0 of 510 blocks, 0 dirty, 510 unknown\nroot 13 words 510 entries 2\n";

const OWN: &str = "keeps 0 of 510 blocks, 0 dirty, 510 unknown\nroot 3 words 510 entries 2\n";

/// What is asked of a changed cache is told, and the cache stays.
fn expect_told(alloc: Global, row: &Row) -> Result<(), Fail> {
    let (version, changes, words, told) = *row;
    let image = changed_cache(alloc, version, changes)?;
    let ran = repair(alloc, words, image.as_slice(), &[], NOTHING_FAILS)?;
    expect_said(&ran, 0, told, "")?;
    expect_held(alloc, &ran.input, image.as_slice(), told)
}

#[test]
fn what_is_unknown_is_told(rt: HostRuntime) -> Result<(), Fail> {
    for row in ROWS {
        expect_told(rt.alloc(), row)?;
    }
    Ok(())
}

#[test]
fn a_superblock_with_faults_tells_nothing(rt: HostRuntime) -> Result<(), Fail> {
    let alloc = rt.alloc();
    let image = changed_cache(alloc, SECOND, &[(0, Magic)])?;
    let ran = repair(alloc, DRY, image.as_slice(), &[], NOTHING_FAILS)?;
    expect_said(&ran, 1, "", "fault meta 0 magic\nfaults 1\n")
}

/// Repairs from named roots.
const FROM_OLDER: &[&str] = &[
    "cache_repair",
    "--mapping-root",
    "13",
    "-i",
    "image",
    "-o",
    "repaired",
];

const FROM_OUTSIDE: &[&str] = &[
    "cache_repair",
    "-i",
    "image",
    "-o",
    "repaired",
    "--mapping-root",
    "16",
];

const WITHOUT_HINT_ROOT: &[&str] = &[
    "cache_repair",
    "--hint-root",
    "3",
    "-i",
    "image",
    "-o",
    "repaired",
];

const WITHOUT_DIRTY_ROOT: &[&str] = &[
    "cache_repair",
    "--dirty-root",
    "0",
    "-i",
    "image",
    "-o",
    "repaired",
];

/// A version of the cache of two entries, what is changed in it, the words of a repair, what it says, and the text of what is
/// kept.
type Named = (
    &'static [&'static str],
    &'static [(usize, Change)],
    &'static [&'static str],
    &'static str,
    &'static str,
);

const NAMED: &[Named] = &[
    (
        FIRST,
        &[(3, Damage), (13, Older)],
        FROM_OLDER,
        BOTH,
        TWO_MAPPED,
    ),
    (
        SECOND,
        &[(3, Damage), (13, Older)],
        FROM_OLDER,
        BOTH,
        TWO_MAPPED,
    ),
    (FIRST, &[], FROM_OUTSIDE, NOTHING, NONE_MAPPED),
    // Blocks of mapping words give no hints.
    (FIRST, &[], WITHOUT_HINT_ROOT, BOTH, WITHOUT_HINTS),
    (SECOND, &[], WITHOUT_DIRTY_ROOT, BOTH_DIRTY, ALL_DIRTY),
];

/// What is kept from the roots is a clean cache of this text.
fn expect_saved(alloc: Global, row: &Named) -> Result<(), Fail> {
    let (version, changes, words, says, text) = *row;
    let image = changed_cache(alloc, version, changes)?;
    let kept = repaired(alloc, words, image.as_slice(), says)?;
    expect_dumped(alloc, CACHE, kept.as_slice(), text)
}

#[test]
fn named_roots_are_taken(rt: HostRuntime) -> Result<(), Fail> {
    for row in NAMED {
        expect_saved(rt.alloc(), row)?;
    }
    Ok(())
}
