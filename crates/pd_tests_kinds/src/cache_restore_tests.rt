//! Restores of caches: what is restored, what is refused, and what the output holds then.

use crate::cache_tests::{EMPTY, FIRST, SECOND, TWO_MAPPED};
use pd_kinds::Block;
use pd_samples::expected::End::{Done, NoRoom, Refused};
use pd_samples::expected::Left::{Closed, Old, Written};
use pd_samples::expected::{
    Left, ONES, Row, expect_end, expect_held, expect_left, expect_output_faults, expect_restored,
    left_by_source_fault, made, restore,
};
use pd_samples::runs::{NOTHING_FAILS, run};
use pd_supers::{read_cache_super, write_cache_super};
use std::alloc::{AllocError, Global};
use std::process::Abort;
use std::test::Fail;

/// Two blocks of the cache with one origin.
const REPEATED: &str =
    "cache 1\ncache 00000000-0000-0000-0000-000000000000 128 510 1 736d7100000000000000000000000000 2 0 0 4\nmap 0 7 0 5\n\
     map 509 7 1 6\nend\n";

/// A hint where there are none.
const HINT: &str =
    "cache 1\ncache 00000000-0000-0000-0000-000000000000 128 4 1 00000000000000000000000000000000 0 0 0 0\nmap 0 7 0 5\nend\n";

/// No last line.
const NO_END: &str =
    "cache 1\ncache 00000000-0000-0000-0000-000000000000 128 4 1 00000000000000000000000000000000 0 0 0 0\n";

/// A second line with a wrong number.
const NO_NUMBER: &str =
    "cache 1\ncache 00000000-0000-0000-0000-000000000000 128 x 1 00000000000000000000000000000000 0 0 0 0\n";

/// The first two lines of a cache of eight blocks without hints.
const EIGHT_BLOCKS: &str =
    "cache 1\ncache 00000000-0000-0000-0000-000000000000 128 8 1 00000000000000000000000000000000 0 0 0 0\n";

/// Lines behind those, the line that is refused, and why: the first one that could be.
const REFUSED: &[(&str, u32, &str)] = &[
    (
        "map 0 7 0 0\nmap 1 8 0 0\nmap 2 7 0 0\nmap 3 9 0 0\nmap 3 10 0 0\nend\n",
        5,
        "repeated",
    ),
    (
        "map 0 7 0 0\nmap 1 8 0 0\nmap 1 9 0 0\nmap 2 10 0 0\nmap 3 7 0 0\nend\n",
        5,
        "order",
    ),
    (
        "map 0 9 0 0\nmap 1 7 0 0\nmap 2 9 0 0\nmap 3 7 0 0\nend\n",
        5,
        "repeated",
    ),
    (
        "map 0 7 0 0\nmap 1 8 0 0\nmap 2 7 0 0\nmap 3 7 0 0\nend\n",
        5,
        "repeated",
    ),
    (
        "map 0 7 0 0\nmap 1 8 0 0\nmap 2 9 0 0\nmap 7 8 0 0\nend\n",
        6,
        "repeated",
    ),
    ("map 0 7 0 0\nmap 1 7 0 0\nmap 2 8 0 0\n", 4, "repeated"),
    (
        "map 0 7 0 0\nmap 1 7 0 0\nmap 2 8 0 0\nend\nend\n",
        4,
        "repeated",
    ),
];

/// Restores, with what they come to.
const ROWS: &[Row] = &[
    (FIRST, EMPTY, 6, Done(""), Written),
    (FIRST, EMPTY, 5, NoRoom(6, 5), Old),
    (FIRST, TWO_MAPPED, 10, Done(""), Written),
    (FIRST, TWO_MAPPED, 9, NoRoom(10, 9), Old),
    (SECOND, TWO_MAPPED, 12, Done(""), Written),
    (SECOND, TWO_MAPPED, 11, NoRoom(12, 11), Old),
    (FIRST, REPEATED, 16, Refused(4, "repeated"), Closed),
    (SECOND, HINT, 16, Refused(3, "out of range"), Closed),
    (FIRST, NO_END, 16, Refused(3, "no end"), Closed),
    (FIRST, NO_NUMBER, 16, Refused(2, "number"), Old),
];

#[test]
fn restores_of_caches_come_to_their_status(rt: HostRuntime) -> Result<(), Fail> {
    for row in ROWS {
        expect_restored(rt.alloc(), row)?;
    }
    Ok(())
}

/// Restores the cache of eight blocks with more lines, of which one is refused.
fn expect_refused(alloc: Global, row: &(&str, u32, &'static str)) -> Result<(), Fail> {
    let (lines, line, cause) = *row;
    let text = format!(in alloc; "{EIGHT_BLOCKS}{lines}")?;
    let base = [ONES; 16];
    let refused = restore(alloc, FIRST, text.as_str(), &base, NOTHING_FAILS)?;
    expect_end(alloc, &refused, Refused(line, cause))?;
    expect_left(alloc, &refused, &base, Closed, lines)
}

#[test]
fn the_first_line_that_could_be_is_refused(rt: HostRuntime) -> Result<(), Fail> {
    for row in REFUSED {
        expect_refused(rt.alloc(), row)?;
    }
    Ok(())
}

/// The status of a restore with these words.
fn status_of(alloc: Global, words: &[&str]) -> Result<u8, AllocError> {
    Ok(restore(alloc, words, TWO_MAPPED, &[ONES; 16], NOTHING_FAILS)?.status)
}

/// A third version of the metadata.
const THIRD: &[&str] = &[
    "cache_restore",
    "--metadata-version",
    "3",
    "-i",
    "text",
    "-o",
    "image",
];

/// A version of an era target.
const VERSION_OF_ERA: &[&str] = &[
    "era_restore",
    "--metadata-version",
    "1",
    "-i",
    "text",
    "-o",
    "image",
];

#[test]
fn a_version_is_1_or_2_and_1_where_none_is_given(rt: HostRuntime) -> Result<(), Fail> {
    let alloc = rt.alloc();
    assert!(rt; status_of(alloc, THIRD)? == 2);
    assert!(rt; status_of(alloc, &["cache_restore", "-i", "text", "-o", "image"])? == 0);
    assert!(rt; status_of(alloc, &["cache_restore", "-i", "text"])? == 2);
    assert!(rt; status_of(alloc, VERSION_OF_ERA)? == 2);
    Ok(())
}

#[test]
fn a_source_of_a_cache_that_fails_is_blamed(rt: HostRuntime) -> Result<(), Fail> {
    for call in 0..20 {
        let left = left_by_source_fault(rt.alloc(), SECOND, TWO_MAPPED, call)?;
        assert!(rt; left != Left::Written, "{call}");
    }
    Ok(())
}

// The calls of the source are 0 for attaching, and one for each piece of seven bytes. The last one finds the end.
#[test]
fn a_source_that_fails_behind_a_repeated_origin_is_blamed(rt: HostRuntime) -> Result<(), Fail> {
    for call in 0..21 {
        let left = left_by_source_fault(rt.alloc(), FIRST, REPEATED, call)?;
        assert!(rt; left != Left::Written, "{call}");
    }
    Ok(())
}

#[test]
fn a_failed_call_leaves_the_old_cache_none_or_the_new_one(rt: HostRuntime) -> Result<(), Fail> {
    // Attaching, the closing of block 0 and a sync, eleven blocks, a sync, the superblock and a sync.
    expect_output_faults(rt.alloc(), (FIRST, EMPTY), (SECOND, TWO_MAPPED), 17)?;
    Ok(())
}

// Checks that clear the flag "needs check" in the superblock of a cache.

/// The words of checks of a cache.
const CLEAR_CACHE: &[&str] = &["cache_check", "--clear-needs-check-flag", "x"];

const KEEP_CACHE: &[&str] = &["cache_check", "x"];

/// The words of a check of a cache, its flags, and those that the check leaves.
const CACHE_FLAGS: &[(&[&str], u32, u32)] = &[
    (CLEAR_CACHE, 2, 0),
    (CLEAR_CACHE, 3, 1),
    (CLEAR_CACHE, 1, 1),
    (CLEAR_CACHE, u32::MAX, u32::MAX - 2),
    (KEEP_CACHE, 3, 3),
];

/// A cache of version 1, which has no bitset of dirty blocks, with these flags in its superblock.
fn flagged_cache(alloc: Global, flags: u32) -> Result<Vec<Block>, Fail> {
    let mut image = made(alloc, FIRST, TWO_MAPPED, 16)?;
    let mut fields = read_cache_super(&image[0]);
    fields.flags = flags;
    fields.dirty_root = 0;
    image[0] = write_cache_super(&fields);
    Ok(image)
}

/// Checks a cache with these flags by these words, which must leave those.
fn expect_cache(
    rt: &impl Abort,
    alloc: Global,
    words: &[&str],
    flags: u32,
    left: u32,
) -> Result<(), Fail> {
    let image = flagged_cache(alloc, flags)?;
    let ran = run(alloc, words, image.as_slice(), NOTHING_FAILS)?;
    assert!(rt; ran.status == 0);
    assert!(rt; ran.out.bytes() == "clean\n".as_bytes());
    let kept = flagged_cache(alloc, left)?;
    expect_held(alloc, &ran.input, kept.as_slice(), "a cache")
}

// Bit 0 says that a cache was shut down, and stays.
#[test]
fn of_a_cache_bit_1_of_the_flags_is_cleared(rt: HostRuntime) -> Result<(), Fail> {
    for (words, flags, left) in CACHE_FLAGS {
        expect_cache(&rt, rt.alloc(), words, *flags, *left)?;
    }
    Ok(())
}
