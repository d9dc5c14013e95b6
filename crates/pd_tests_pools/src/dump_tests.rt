//! Dumps of pools as text.

ghost use Rattle.std.specs.Prelude.{◌<◌, ◌^◌};

use crate::asked::{expect_damaged, expect_put, expect_run, expect_told};
use crate::shared_dump_tests::{BOTH, EMPTY, FIRST, of_three};
use crate::stored_tests::pool_of_two_devices;
use crate::whole_tests::{details_leaf, superblock};
use pd_image::{Device, MemDevice, MemSink, Sink};
use pd_kinds::Block;
use pd_node::write_leaf;
use pd_pool_dumps::{DumpCounts, ThinDump};
use pd_samples::pool::{DEVICE, ONE, TWICE, bitmap, damaged, pool_of_one_mapping};
use pd_samples::runs::{Failing, NOTHING_FAILS, restored};
use pd_supers::write_thin_super;
use pd_value::{BlockTime, Details, Root};
use std::alloc::{AllocError, Global};
use std::process::Abort;
use std::test::Fail;

/// The words of a dump to standard output.
const DUMP: &[&str] = &["thin_dump", "thin.img"];

/// The same pool with two data blocks: the second one is mapped after the first, at this time.
#[tactic(auto, unfolding(pd_kinds::specs::Node::is_ascending))]
fn pool_of_two_mappings(time: u32) -> [Block; 16]
    requires { time < 2 ^ 24 }
{
    let mut image = pool_of_one_mapping();
    image[0] = write_thin_super(&superblock(2, 0));
    image[1] = write_leaf(
        1,
        &[
            (0, BlockTime { block: 0, time: 0 }),
            (1, BlockTime { block: 1, time }),
        ],
    );
    image[3] = details_leaf(3, 1, 2);
    image
}

/// Two devices whose mappings are one leaf.
#[tactic(auto, unfolding(pd_kinds::specs::Node::is_ascending))]
fn two_devices_on_one_leaf() -> [Block; 16] {
    let one = Details {
        mapped: 1,
        transaction: 7,
        created: 2,
        snapped: 3,
    };
    let mut image = pool_of_one_mapping();
    image[2] = write_leaf(2, &[(1, Root(1)), (2, Root(1))]);
    image[3] = write_leaf(3, &[(1, one), (2, one)]);
    image
}

/// The pool of one mapping with a count of the data block that is too high.
fn leaking_pool() -> [Block; 16] {
    let mut image = pool_of_one_mapping();
    image[4] = bitmap(4, 4);
    image
}

/// The texts of the pools of two mappings: runs join, but not where their times differ.
const JOINED: &str =
    "thin 1\npool 00000000-0000-0000-0000-000000000000 0 0 128 2\ndevice 1 2 0 0 0\nmap 0 0 2 0\nend\n";

const APART: &str =
    "thin 1\npool 00000000-0000-0000-0000-000000000000 0 0 128 2\ndevice 1 2 0 0 0\nmap 0 0 1 0\nmap 1 1 1 1\nend\n";

/// The text of the pool of a leaf of two devices.
const ONE_LEAF: &str =
    "thin 1\npool 00000000-0000-0000-0000-000000000000 0 0 128 1\ndevice 1 1 7 2 3\nmap 0 0 1 0\ndevice 2 1 7 2 3\nmap 0 0 1 0\nend\n";

/// Dumps an image, of which this must be the text.
fn expect_text(
    rt: &impl Abort,
    alloc: Global,
    image: &[Block],
    text: &str,
) -> Result<(), AllocError> {
    expect_told(rt, alloc, DUMP, text, image, 0, text)
}

#[test]
fn pools_are_dumped_as_their_texts(rt: HostRuntime) -> Result<(), Fail> {
    let alloc = rt.alloc();
    expect_text(&rt, alloc, &pool_of_one_mapping(), ONE)?;
    // Counts aren't looked at.
    expect_text(&rt, alloc, &leaking_pool(), ONE)?;
    expect_text(&rt, alloc, &pool_of_two_mappings(0), JOINED)?;
    expect_text(&rt, alloc, &pool_of_two_mappings(1), APART)?;
    expect_text(&rt, alloc, &two_devices_on_one_leaf(), ONE_LEAF)?;
    Ok(())
}

/// What a dump of an image counts.
fn counts_of(alloc: Global, image: &[Block]) -> Result<DumpCounts, Fail> {
    let mut device = MemDevice::of(alloc, image)?;
    device.attach("thin.img", false)?;
    let mut out = MemSink::new(alloc);
    out.attach(None)?;
    let mut dump = ThinDump::start(alloc, &mut device)?;
    Ok(dump.put_counted(&mut device, &mut out)?)
}

/// Dumps an image, of which this must be the text, with so many mappings and lines.
fn expect_counted(
    rt: &impl Abort,
    alloc: Global,
    image: &[Block],
    text: &str,
    counts: (u64, u64),
) -> Result<(), Fail> {
    expect_text(rt, alloc, image, text)?;
    let found = counts_of(alloc, image)?;
    assert!(rt; (found.mappings, found.lines) == counts, "{text}");
    Ok(())
}

/// The text of a pool in version 2, that in version 1, and how many mappings and lines that has.
type Shared = (&'static str, &'static str, (u64, u64));

/// Pools whose leaves are read for the first device, made a text for the second one, and put from that for the third one.
const SHARED_LEAVES: &[Shared] = &[
    // A run goes over the border of two leaves, and others stand in the middle of each.
    (
        "thin 2\npool 00000000-0000-0000-0000-000000000000 0 0 128 10\nleaf 0 4\nmap 0 0 1 0\nmap 2 2 1 0\nmap 4 4 2 0\n\
         leaf 1 3\nmap 6 6 1 0\nmap 8 8 1 0\nmap 9 1 1 0\ndevice 1 7 0 0 0\nuse 0\nuse 1\ndevice 2 7 0 0 0\nuse 0\nuse 1\n\
         device 3 7 0 0 0\nuse 0\nuse 1\nend\n",
        "thin 1\npool 00000000-0000-0000-0000-000000000000 0 0 128 10\ndevice 1 7 0 0 0\nmap 0 0 1 0\nmap 2 2 1 0\nmap 4 4 3 0\n\
         map 8 8 1 0\nmap 9 1 1 0\ndevice 2 7 0 0 0\nmap 0 0 1 0\nmap 2 2 1 0\nmap 4 4 3 0\nmap 8 8 1 0\nmap 9 1 1 0\n\
         device 3 7 0 0 0\nmap 0 0 1 0\nmap 2 2 1 0\nmap 4 4 3 0\nmap 8 8 1 0\nmap 9 1 1 0\nend\n",
        (21, 21),
    ),
    // Leaves of one run each, which goes on before, between and behind them, but not at another time.
    (
        "thin 2\npool 00000000-0000-0000-0000-000000000000 1 0 128 10\nleaf 0 2\nmap 1 1 2 0\nleaf 1 1\nmap 3 3 1 0\nleaf 2 1\n\
         map 4 4 1 1\ndevice 1 5 0 0 0\nmap 0 0 1 0\nuse 0\nuse 1\nuse 2\ndevice 2 5 0 0 0\nuse 0\nuse 1\nuse 2\nmap 5 5 1 1\n\
         device 3 4 0 0 0\nuse 0\nuse 1\nuse 2\ndevice 4 1 0 0 0\nuse 1\nend\n",
        "thin 1\npool 00000000-0000-0000-0000-000000000000 1 0 128 10\ndevice 1 5 0 0 0\nmap 0 0 4 0\nmap 4 4 1 1\n\
         device 2 5 0 0 0\nmap 1 1 3 0\nmap 4 4 2 1\ndevice 3 4 0 0 0\nmap 1 1 3 0\nmap 4 4 1 1\ndevice 4 1 0 0 0\nmap 3 3 1 0\n\
         end\n",
        (15, 14),
    ),
];

/// The texts of three devices on two leaves of one mapping each, and on leaves without any.
const THREE_JOINED: &str =
    "thin 1\npool 00000000-0000-0000-0000-000000000000 0 0 128 2\ndevice 1 2 0 0 0\nmap 0 0 2 0\ndevice 2 2 0 0 0\nmap 0 0 2 0\n\
     device 3 2 0 0 0\nmap 0 0 2 0\nend\n";

const THREE_EMPTY: &str =
    "thin 1\npool 00000000-0000-0000-0000-000000000000 0 0 128 2\ndevice 1 0 0 0 0\ndevice 2 0 0 0 0\ndevice 3 0 0 0 0\nend\n";

const AGAIN: &str =
    "thin 1\npool 00000000-0000-0000-0000-000000000000 0 0 128 2\ndevice 1 1 0 0 0\nmap 0 0 1 0\ndevice 2 2 0 0 0\nmap 0 0 2 0\n\
     device 3 1 0 0 0\nmap 0 0 1 0\nend\n";

#[test]
fn leaves_that_three_devices_have_are_told_for_each(rt: HostRuntime) -> Result<(), Fail> {
    let alloc = rt.alloc();
    for (shared, plain, counts) in SHARED_LEAVES {
        let image = restored(alloc, shared, 24)?;
        expect_counted(&rt, alloc, image.as_slice(), plain, *counts)?;
    }
    let joined = of_three(BOTH, BOTH, BOTH);
    expect_counted(&rt, alloc, &joined, THREE_JOINED, (6, 9))?;
    let empty = of_three(EMPTY, EMPTY, EMPTY);
    expect_counted(&rt, alloc, &empty, THREE_EMPTY, (0, 6))?;
    let again = of_three(FIRST, BOTH, FIRST);
    expect_counted(&rt, alloc, &again, AGAIN, (4, 9))?;
    Ok(())
}

/// Writes the lines of a leaf that has as many bytes of them as can be over one bitmap: no two of its mappings make a run.
fn write_longest(text: &mut String) -> Result<(), Fail> {
    for i in 0u64..252 {
        let virtual_block = u64::MAX - 251 + i;
        let data_block = 16319 - i;
        writeln!(text, "map {virtual_block} {data_block} 1 16777215")?;
    }
    Ok(())
}

#[test]
fn the_longest_lines_are_told_for_each_device(rt: HostRuntime) -> Result<(), Fail> {
    let alloc = rt.alloc();
    let head = "pool 00000000-0000-0000-0000-000000000000 16777215 0 128 16320";
    let mut shared = format!(in alloc; "thin 2\n{head}\nleaf 0 252\n")?;
    write_longest(&mut shared)?;
    let mut plain = format!(in alloc; "thin 1\n{head}\n")?;
    for id in 1..4 {
        writeln!(shared, "device {id} 252 0 0 0\nuse 0")?;
        writeln!(plain, "device {id} 252 0 0 0")?;
        write_longest(&mut plain)?;
    }
    writeln!(shared, "end")?;
    writeln!(plain, "end")?;
    let image = restored(alloc, shared.as_str(), 16)?;
    expect_counted(&rt, alloc, image.as_slice(), plain.as_str(), (756, 762))
}

/// The words of a dump to a file, of two queries, and of a dump with shared leaves.
const DUMP_TO_FILE: &[&str] = &["thin_dump", "-o", "pool.txt", "thin.img"];

const QUERIES: &[&[&str]] = &[
    DUMP_TO_FILE,
    &["thin_rmap", "--region", "4..6", "thin.img"],
    &["thin_ls", "thin.img"],
    &["thin_dump", "--shared", "thin.img"],
];

#[test]
fn faults_of_an_image_go_to_notes(rt: HostRuntime) -> Result<(), Fail> {
    let mut image = restored(rt.alloc(), TWICE, 16)?;
    assert!(rt; image.len() > 1);
    image[1] = damaged(image[1], 100);
    for words in QUERIES {
        expect_damaged(&rt, rt.alloc(), words, image.as_slice())?;
    }
    Ok(())
}

#[test]
fn a_dump_goes_to_the_named_file(rt: HostRuntime) -> Result<(), Fail> {
    let mut image = pool_of_one_mapping();
    expect_put(&rt, rt.alloc(), DUMP_TO_FILE, &image, "pool.txt", ONE)?;
    image[1] = damaged(image[1], 100);
    expect_damaged(&rt, rt.alloc(), DUMP_TO_FILE, &image)?;
    Ok(())
}

#[test]
fn a_dump_whose_last_call_fails_puts_nothing(rt: HostRuntime) -> Result<(), Fail> {
    let failing = Failing {
        input: Some(17),
        ..NOTHING_FAILS
    };
    let image = pool_of_one_mapping();
    expect_run(&rt, rt.alloc(), DUMP, &image, failing, (5, "", DEVICE))?;
    Ok(())
}

#[test]
fn a_leaf_of_two_devices_is_mapped_back(rt: HostRuntime) -> Result<(), Fail> {
    let words = &["thin_rmap", "--region", "0..1", "thin.img"];
    let lines = "block 0 device 1 virtual 0\nblock 0 device 2 virtual 0\n";
    expect_put(&rt, rt.alloc(), words, &pool_of_two_devices(2), "", lines)?;
    Ok(())
}
