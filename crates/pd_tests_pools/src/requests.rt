//! Requests of all tools but the rehearsal, and the images that they are made over.

use Image::{
    Apart, Cache, DamagedPool, Data, DirtyCache, FlaggedPool, NoPool, Nothing, Ones, Pool, Target,
    Twice,
};
use pd_kinds::Block;
use pd_samples::pool::{ONE, TWICE, damaged, pool_of_one_mapping};
use pd_samples::runs::{Held, NOTHING_FAILS, blocks_of, run_over};
use pd_supers::{read_thin_super, write_thin_super};
use std::alloc::{AllocError, Global};
use std::process::Abort;

/// What a device holds before a request.
#[derive(Clone, Copy, PartialEq, Eq)]
pub(crate) enum Image {
    /// No block.
    Nothing,
    /// Sixteen blocks whose bytes are all 1.
    Ones,
    /// The pool of one mapping, on sixteen blocks.
    Pool,
    /// The same pool with the flag "needs check".
    FlaggedPool,
    /// The same pool with a leaf of mappings whose checksum is wrong.
    DamagedPool,
    /// The same pool with a superblock whose checksum is wrong.
    NoPool,
    /// The pool of the text of that name.
    Twice,
    /// A cache with two mapped blocks, in the second version of the metadata.
    Cache,
    /// An era target of a hundred blocks.
    Target,
    /// The pool of the text of that name.
    Apart,
    /// The cache of the text `DIRTY`.
    DirtyCache,
    /// Four blocks of data.
    Data,
}

/// The words of a request, the text that its source has, what its input and its output hold, and its status.
pub(crate) type Asked = (&'static str, &'static str, Image, Image, u8);

/// The text of the cache.
pub(crate) const CACHE_TEXT: &str =
    "cache 1\ncache 00000000-0000-0000-0000-000000000000 128 510 1 736d7100000000000000000000000000 2 0 0 4\nmap 0 7 0 5\n\
     map 509 8 1 6\nend\n";

/// The text of the era target.
pub(crate) const TARGET_TEXT: &str =
    "era 1\nera 00000000-0000-0000-0000-000000000000 128 100 9\nrun 0 3 0\nrun 3 1 5\nrun 4 60 0\nrun 64 1 9\nrun 65 35 0\nend\n";

/// A pool of four data blocks of 4096 bytes, of which the first and the last are mapped, and the same of two data blocks.
pub(crate) const APART: &str =
    "thin 1\npool 00000000-0000-0000-0000-000000000000 0 0 8 4\ndevice 1 2 0 0 0\nmap 0 0 1 0\nmap 1 3 1 0\nend\n";

pub(crate) const TOGETHER: &str =
    "thin 1\npool 00000000-0000-0000-0000-000000000000 0 0 8 2\ndevice 1 2 0 0 0\nmap 0 0 2 0\nend\n";

/// A cache of two blocks of 4096 bytes, of which the first one is dirty, and the same with nothing dirty.
pub(crate) const DIRTY: &str =
    "cache 1\ncache 00000000-0000-0000-0000-000000000000 8 2 1 736d7100000000000000000000000000 2 0 0 4\nmap 0 3 1 0\nmap 1 0 0 0\nend\n";

pub(crate) const CLEAN: &str =
    "cache 1\ncache 00000000-0000-0000-0000-000000000000 8 2 1 736d7100000000000000000000000000 2 0 0 4\nmap 0 3 0 0\nmap 1 0 0 0\nend\n";

/// A text of version 2: a leaf that two devices use, a run that one of them has besides, and a device without mappings.
pub(crate) const SHARED_LEAF: &str =
    "thin 2\npool 00000000-0000-0000-0000-000000000000 0 0 128 2\nleaf 0 1\nmap 0 0 1 0\ndevice 1 2 0 0 0\nuse 0\nmap 1 1 1 0\n\
     device 2 1 0 0 0\nuse 0\ndevice 3 0 0 0 0\nend\n";

/// A text of version 2 in which no device uses the leaf.
const UNUSED: &str =
    "thin 2\npool 00000000-0000-0000-0000-000000000000 0 0 128 2\nleaf 0 1\nmap 0 0 1 0\nend\n";

/// A text whose fourth line is refused.
const REFUSED: &str =
    "thin 1\npool 00000000-0000-0000-0000-000000000000 0 0 128 1\ndevice 1 1 0 0 0\nmap 0 1 1 0\nend\n";

/// A text that needs more blocks than sixteen, from its second line on.
const LARGE: &str = "era 1\nera 00000000-0000-0000-0000-000000000000 128 100000 9\nend\n";

/// A check in which leaks pass.
const PASSING: &str = "thin_check --ignore-non-fatal-errors x";

/// A check that clears the flag, and one in which leaks pass besides.
const CLEAR: &str = "thin_check --clear-needs-check-flag x";

const CLEAR_PASSING: &str = "thin_check --clear-needs-check-flag --ignore-non-fatal-errors x";

/// The check of a cache that clears the flag.
const CLEAR_CACHE: &str = "cache_check --clear-needs-check-flag x";

/// A search for the roots of a pool, which doesn't look at its block 0.
const SEARCH: &str =
    "thin_repair -i x -o y --transaction-id 7 --data-block-size 128 --nr-data-blocks 1";

/// A search of a pool without data blocks.
const SEARCH_NONE: &str =
    "thin_repair -i x -o y --transaction-id 7 --data-block-size 128 --nr-data-blocks 0";

/// The same search and a repair, which keep what is shared.
const SEARCH_SHARED: &str =
    "thin_repair --shared -i x -o y --transaction-id 7 --data-block-size 128 --nr-data-blocks 1";

const REPAIR_SHARED: &str = "thin_repair --shared -i x -o y";

/// What such a search would keep, and that of the pool without data blocks.
const DRY_SEARCH: &str =
    "thin_repair --dry-run -i x --transaction-id 7 --data-block-size 128 --nr-data-blocks 1";

const DRY_SEARCH_NONE: &str =
    "thin_repair --dry-run -i x --transaction-id 7 --data-block-size 128 --nr-data-blocks 0";

/// What a repair from these roots would keep, and the same where the second one is no details tree.
const DRY_NAMED: &str =
    "thin_repair --dry-run -i x --mapping-root 2 --details-root 3 --transaction-id 7 --data-block-size 128 --nr-data-blocks 1";

const DRY_NAMED_ALONE: &str =
    "thin_repair --dry-run -i x --mapping-root 2 --details-root 2 --transaction-id 7 --data-block-size 128 --nr-data-blocks 1";

/// A repair from these roots, and one that keeps what is shared.
const NAMED: &str =
    "thin_repair -i x -o y --mapping-root 2 --details-root 3 --transaction-id 7 --data-block-size 128 --nr-data-blocks 1";

const NAMED_SHARED: &str =
    "thin_repair --shared -i x -o y --mapping-root 2 --details-root 3 --transaction-id 7 --data-block-size 128 --nr-data-blocks 1";

/// A repair of a cache, and one in the first version.
const REPAIR_CACHE: &str = "cache_repair -i x -o y";

const REPAIR_CACHE_1: &str = "cache_repair --metadata-version 1 -i x -o y";

/// What a repair of a cache would keep, from its own roots and from a root outside, and a repair from a named root.
const DRY_CACHE: &str = "cache_repair --dry-run -i x";

const DRY_CACHE_NAMED: &str = "cache_repair --dry-run --mapping-root 99 -i x";

const CACHE_NAMED: &str = "cache_repair --mapping-root 3 -i x -o y";

/// A restore of the second version of a cache.
const CACHE_2: &str = "cache_restore --metadata-version 2 -i t -o x";

/// Checks, dumps and queries, with each status that comes where nothing fails.
pub(crate) const READINGS: &[Asked] = &[
    ("thin_check --until super x", "", Pool, Nothing, 0),
    ("thin_check --until walk x", "", Pool, Nothing, 0),
    ("thin_check --until order x", "", Pool, Nothing, 0),
    ("thin_check --until whole x", "", Pool, Nothing, 0),
    ("thin_check x", "", Pool, Nothing, 0),
    ("thin_check x", "", DamagedPool, Nothing, 1),
    ("thin_check x", "", NoPool, Nothing, 1),
    ("thin_check x", "", Nothing, Nothing, 1),
    (PASSING, "", Pool, Nothing, 0),
    (PASSING, "", DamagedPool, Nothing, 1),
    ("cache_check x", "", Cache, Nothing, 0),
    ("cache_check x", "", Pool, Nothing, 1),
    ("era_check x", "", Target, Nothing, 0),
    ("era_check x", "", Cache, Nothing, 1),
    ("thin_dump x", "", Pool, Nothing, 0),
    ("thin_dump -o f x", "", DamagedPool, Nothing, 1),
    ("thin_dump --shared x", "", Pool, Nothing, 0),
    ("thin_dump --shared -o f x", "", DamagedPool, Nothing, 1),
    ("cache_dump --shared x", "", Cache, Nothing, 2),
    ("cache_dump -o f x", "", Cache, Nothing, 0),
    ("era_dump x", "", Target, Nothing, 0),
    ("thin_rmap --region 0..1 x", "", Pool, Nothing, 0),
    ("thin_ls x", "", Pool, Nothing, 0),
    ("thin_ls -o f x", "", NoPool, Nothing, 1),
    ("thin_rmap --region 4..6 x", "", Twice, Nothing, 0),
    ("thin_ls x", "", Twice, Nothing, 0),
    ("thin_dump --shared x", "", Twice, Nothing, 0),
    ("thin_trim --list x", "", Twice, Nothing, 0),
    ("thin_trim --list -o f x", "", DamagedPool, Nothing, 1),
    ("thin_trim x", "", Pool, Nothing, 2),
    ("thin_repair --dry-run -i x", "", DamagedPool, Nothing, 0),
    ("thin_repair --dry-run --shared -i x", "", Twice, Nothing, 0),
    ("thin_repair --dry-run -i x", "", NoPool, Nothing, 1),
    ("thin_repair --dry-run -i x -o y", "", Pool, Target, 2),
    (DRY_SEARCH, "", NoPool, Nothing, 0),
    (DRY_SEARCH_NONE, "", NoPool, Nothing, 1),
    (DRY_NAMED, "", NoPool, Nothing, 0),
    (DRY_NAMED_ALONE, "", NoPool, Nothing, 0),
    (DRY_CACHE, "", Cache, Nothing, 0),
    (DRY_CACHE, "", Pool, Nothing, 1),
    (DRY_CACHE_NAMED, "", Cache, Nothing, 0),
    ("era_invalidate --written-since 5 x", "", Target, Nothing, 0),
    ("thin_generate --number 1", "", Nothing, Nothing, 0),
    ("thin_check", "", Pool, Nothing, 2),
];

/// Requests that may write a device, with each status that comes where nothing fails.
pub(crate) const WRITINGS: &[Asked] = &[
    (CLEAR, "", FlaggedPool, Nothing, 0),
    (CLEAR, "", DamagedPool, Nothing, 1),
    (CLEAR_PASSING, "", FlaggedPool, Nothing, 0),
    (CLEAR_CACHE, "", Cache, Nothing, 0),
    ("thin_restore -i t -o x", ONE, Nothing, Ones, 0),
    ("thin_restore -i t -o x", SHARED_LEAF, Nothing, Pool, 0),
    ("thin_restore -i t -o x", REFUSED, Nothing, Pool, 3),
    ("thin_restore -i t -o x", UNUSED, Nothing, Pool, 3),
    ("thin_restore -i t -o x", CACHE_TEXT, Nothing, Cache, 3),
    ("cache_restore -i t -o x", CACHE_TEXT, Nothing, Cache, 0),
    (CACHE_2, CACHE_TEXT, Nothing, Pool, 0),
    ("era_restore -i t -o x", TARGET_TEXT, Nothing, Cache, 0),
    ("era_restore -i t -o x", LARGE, Nothing, Target, 4),
    ("thin_repair -i x -o y", "", DamagedPool, Target, 0),
    ("thin_repair -i x -o y", "", NoPool, Target, 1),
    ("thin_repair -i x -o y", "", Pool, Nothing, 4),
    (SEARCH, "", NoPool, Target, 0),
    (SEARCH_NONE, "", Pool, Target, 1),
    (SEARCH, "", Pool, Nothing, 4),
    (REPAIR_SHARED, "", Twice, Target, 0),
    (REPAIR_SHARED, "", DamagedPool, Pool, 0),
    (REPAIR_SHARED, "", NoPool, Target, 1),
    (REPAIR_SHARED, "", Pool, Nothing, 4),
    (SEARCH_SHARED, "", NoPool, Target, 0),
    (NAMED, "", NoPool, Target, 0),
    (NAMED_SHARED, "", DamagedPool, Pool, 0),
    (NAMED, "", Pool, Nothing, 4),
    (REPAIR_CACHE, "", Cache, Target, 0),
    (REPAIR_CACHE_1, "", Cache, Ones, 0),
    (REPAIR_CACHE, "", Pool, Target, 1),
    (REPAIR_CACHE, "", Cache, Nothing, 4),
    (CACHE_NAMED, "", Cache, Target, 0),
];

/// A writeback.
const WRITEBACK: &str = "cache_writeback --metadata-device x --fast-device f --origin-device y";

/// A shrink to two data blocks, one that keeps what is shared, and one to a single block.
const SHRINK: &str = "thin_shrink -i x -o y --data d --nr-blocks 2";

const SHRINK_SHARED: &str = "thin_shrink --shared -i x -o y --data d --nr-blocks 2";

const SHRINK_MORE: &str = "thin_shrink -i x -o y --data d --nr-blocks 1";

/// Requests over three devices: their words, what the input, the output and the third device hold, and the status that comes
/// where nothing fails.
pub(crate) type AskedOfThree = (&'static str, Image, Image, Image, u8);

pub(crate) const OF_THREE: &[AskedOfThree] = &[
    (WRITEBACK, DirtyCache, Data, Data, 0),
    (WRITEBACK, Pool, Data, Data, 1),
    (WRITEBACK, DirtyCache, Nothing, Data, 4),
    (SHRINK, Apart, Target, Data, 0),
    (SHRINK, DamagedPool, Target, Data, 1),
    (SHRINK_SHARED, Apart, Target, Data, 0),
    (SHRINK_SHARED, DamagedPool, Target, Data, 1),
    (SHRINK_MORE, Apart, Target, Data, 4),
];

/// The words of the restore that makes the cache.
const MAKE_CACHE: &[&str] = &[
    "cache_restore",
    "--metadata-version",
    "2",
    "-i",
    "t",
    "-o",
    "x",
];

/// The words of the restores that make the pool and the era target.
const MAKE_POOL: &[&str] = &["thin_restore", "-i", "t", "-o", "x"];

const MAKE_TARGET: &[&str] = &["era_restore", "-i", "t", "-o", "x"];

/// The blocks of an image.
pub(crate) fn blocks(
    rt: &impl Abort,
    alloc: Global,
    image: Image,
) -> Result<Vec<Block>, AllocError> {
    match image {
        Image::Nothing => Ok(Vec::new(alloc)),
        Image::Twice => restored(rt, alloc, MAKE_POOL, TWICE),
        Image::Cache => restored(rt, alloc, MAKE_CACHE, CACHE_TEXT),
        Image::Target => restored(rt, alloc, MAKE_TARGET, TARGET_TEXT),
        Image::Apart => restored(rt, alloc, MAKE_POOL, APART),
        Image::DirtyCache => restored(rt, alloc, MAKE_CACHE, DIRTY),
        Image::Data => filled(alloc, &[0xA0, 0xA1, 0xA2, 0xA3]),
        _ => Vec::from_slice(alloc, &pool(image)),
    }
}

/// Blocks that are filled with these bytes, one a block.
pub(crate) fn filled(alloc: Global, fill: &[u8]) -> Result<Vec<Block>, AllocError> {
    let mut blocks = Vec::new(alloc);
    for byte in fill {
        blocks.push(Block([*byte; 4096]))?;
    }
    Ok(blocks)
}

/// The sixteen blocks of a pool, or of ones.
fn pool(image: Image) -> [Block; 16] {
    let mut pool = pool_of_one_mapping();
    match image {
        Image::FlaggedPool => pool[0] = flagged(&pool[0]),
        Image::DamagedPool => pool[1] = damaged(pool[1], 100),
        Image::NoPool => pool[0] = damaged(pool[0], 100),
        Image::Pool => {}
        _ => {
            pool = [Block([1; 4096]); 16];
        }
    }
    pool
}

/// A pool's superblock with the flag.
fn flagged(super_block: &Block) -> Block {
    let mut fields = read_thin_super(super_block);
    fields.flags = 1;
    write_thin_super(&fields)
}

/// The sixteen blocks that a restore of a text makes of ones.
fn restored(
    rt: &impl Abort,
    alloc: Global,
    words: &[&str],
    text: &str,
) -> Result<Vec<Block>, AllocError> {
    let held = Held {
        text: text.as_bytes(),
        input: &[],
        output: &[Block([1; 4096]); 16],
        third: &[],
    };
    let made = run_over(alloc, words, held, NOTHING_FAILS)?;
    assert!(rt; made.status == 0, "{text}");
    blocks_of(alloc, &made.output)
}
