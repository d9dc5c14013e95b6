//! Repairs of damaged pools: what is kept, what is refused, and what the output holds then.

ghost use Rattle.std.specs.Prelude.{◌<◌};

use pd_bitmap::{seal_bitmap, set_two_bits};
use pd_kinds::Block;
use pd_node::write_inner;
use pd_samples::expected::{
    ONE_MAPPING, ONES, Trouble, expect_dumped, expect_held, expect_output_fault, expect_report,
    expect_said, pool_of,
};
use pd_samples::pool::{damaged, device_leaf, inner, pool_of_one_mapping};
use pd_samples::runs::{Failing, Held, NOTHING_FAILS, Ran, blocks_of, run_over};
use std::alloc::{AllocError, Global};
use std::process::Abort;
use std::test::Fail;

/// A device with one mapping, whose transaction isn't the pool's.
pub(crate) const ONE: &str =
    "thin 1\npool 00000000-0000-0000-0000-000000000000 0 7 128 1\ndevice 1 1 3 0 0\nmap 0 0 1 0\nend\n";

/// A device whose mappings stand in three leaves.
const THREE_LEAVES: &str =
    "thin 1\npool 00000000-0000-0000-0000-000000000000 0 0 128 600\ndevice 1 600 0 0 0\nmap 0 0 600 0\nend\n";

/// The tool that checks.
const CHECK: &str = "thin_check";

/// Repairs an image onto these blocks.
fn repair(
    alloc: Global,
    image: &[Block],
    base: &[Block],
    failing: Failing,
) -> Result<Ran, AllocError> {
    let held = Held {
        text: b"",
        input: image,
        output: base,
        third: &[],
    };
    let words = ["thin_repair", "-i", "image", "-o", "repaired"];
    run_over(alloc, &words, held, failing)
}

/// Repairs an image onto sixteen blocks of ones, where this must be the text of the pool that is made.
fn expect_saved(alloc: Global, image: &[Block], text: &str) -> Result<(), Fail> {
    let repaired = repair(alloc, image, &[ONES; 16], NOTHING_FAILS)?;
    expect_said(&repaired, 0, "", "")?;
    expect_held(alloc, &repaired.input, image, text)?;
    let made = blocks_of(alloc, &repaired.output)?;
    expect_dumped(alloc, (CHECK, "thin_dump"), made.as_slice(), text)
}

/// Repairs an image onto these blocks, which the repair refuses by this status and notes, with nothing written.
fn expect_refused(
    alloc: Global,
    image: &[Block],
    base: &[Block],
    status: u8,
    notes: &str,
) -> Result<(), Fail> {
    let refused = repair(alloc, image, base, NOTHING_FAILS)?;
    expect_said(&refused, status, "", notes)?;
    expect_held(alloc, &refused.output, base, notes)
}

#[test]
fn sound_pools_are_kept_whole(rt: HostRuntime) -> Result<(), Fail> {
    for text in [ONE, THREE_LEAVES] {
        let image = pool_of(rt.alloc(), text, 16)?;
        expect_saved(rt.alloc(), image.as_slice(), text)?;
    }
    Ok(())
}

/// The pool of this text with one block damaged.
fn broken_pool(alloc: Global, text: &str, b: usize) -> Result<Vec<Block>, Fail>
    requires { b < 16 }
{
    let mut image = pool_of(alloc, text, 16)?;
    image[b] = damaged(image[b], 100);
    Ok(image)
}

/// Pools, the block that is damaged, and the text of what is kept: a device without details has the transaction and the time of
/// its pool, nothing is kept below a damaged mapping tree, and the other leaves of a device are kept.
const BROKEN: &[(&str, usize, &str)] = &[
    (ONE, 3, WITHOUT_DETAILS),
    (VOLUME_AND_SNAPSHOT, 4, BOTH_WITHOUT_DETAILS),
    (ONE, 2, WITHOUT_DEVICES),
    (THREE_LEAVES, 2, TWO_OF_THREE_LEAVES),
];

const WITHOUT_DETAILS: &str =
    "thin 1\npool 00000000-0000-0000-0000-000000000000 0 7 128 1\ndevice 1 1 7 0 0\nmap 0 0 1 0\nend\n";

/// A volume and its snapshot, which lead to one data block.
const VOLUME_AND_SNAPSHOT: &str =
    "thin 1\npool 00000000-0000-0000-0000-000000000000 1 0 128 1\ndevice 1 1 0 0 1\nmap 0 0 1 0\ndevice 2 1 0 0 1\nmap 0 0 1 0\nend\n";

const BOTH_WITHOUT_DETAILS: &str =
    "thin 1\npool 00000000-0000-0000-0000-000000000000 1 0 128 1\ndevice 1 1 0 1 1\nmap 0 0 1 0\ndevice 2 1 0 1 1\nmap 0 0 1 0\nend\n";

const WITHOUT_DEVICES: &str = "thin 1\npool 00000000-0000-0000-0000-000000000000 0 7 128 1\nend\n";

const TWO_OF_THREE_LEAVES: &str =
    "thin 1\npool 00000000-0000-0000-0000-000000000000 0 0 128 600\ndevice 1 400 0 0 0\nmap 0 0 200 0\nmap 400 400 200 0\nend\n";

#[test]
fn what_is_not_damaged_is_kept(rt: HostRuntime) -> Result<(), Fail> {
    for (text, b, kept) in BROKEN {
        assert!(rt; *b < 16);
        let image = broken_pool(rt.alloc(), text, *b)?;
        expect_saved(rt.alloc(), image.as_slice(), kept)?;
    }
    Ok(())
}

// With the pool's time as snapped a kernel copies the data block that both lead to before it writes to it.
#[test]
fn a_volume_and_its_snapshot_without_details_share_still(rt: HostRuntime) -> Result<(), Fail> {
    let mut image = pool_of(rt.alloc(), VOLUME_AND_SNAPSHOT, 16)?;
    image[4] = Block::zeros();
    expect_saved(rt.alloc(), image.as_slice(), BOTH_WITHOUT_DETAILS)?;
    Ok(())
}

/// A repair of the pool of three leaves with this block damaged is refused.
fn expect_none(alloc: Global, b: usize, base: &[Block], status: u8, notes: &str) -> Result<(), Fail>
    requires { b < 16 }
{
    let image = broken_pool(alloc, THREE_LEAVES, b)?;
    expect_refused(alloc, image.as_slice(), base, status, notes)
}

// The need is looked at before anything is written.
#[test]
fn a_repaired_pool_needs_room(rt: HostRuntime) -> Result<(), Fail> {
    let notes = "pdata_tools: no room: need 12, blocks 11\n";
    expect_none(rt.alloc(), 2, &[ONES; 11], 4, notes)?;
    Ok(())
}

#[test]
fn a_superblock_with_faults_is_reported(rt: HostRuntime) -> Result<(), Fail> {
    let base = [ONES; 16];
    expect_none(rt.alloc(), 0, &base, 1, "fault meta 0 checksum\nfaults 1\n")?;
    expect_refused(rt.alloc(), &[], &base, 1, "fault meta 0 size\nfaults 1\n")?;
    Ok(())
}

/// The pool of a device without mappings.
const NO_MAPPING: &str =
    "thin 1\npool 00000000-0000-0000-0000-000000000000 0 0 128 1\ndevice 1 0 0 0 0\nend\n";

#[test]
#[tactic(auto, unfolding(pd_kinds::specs::Node::is_ascending))]
fn a_node_below_itself_gives_nothing(rt: HostRuntime) -> Result<(), Fail> {
    let mut image = pool_of_one_mapping();
    image[2] = device_leaf(2, 10);
    image[10] = write_inner(10, &[(0, 10), (5, 10)]);
    let report = "fault meta 10 level\nfaults 1\n";
    expect_report(rt.alloc(), CHECK, &image, report)?;
    expect_saved(rt.alloc(), &image, NO_MAPPING)?;
    Ok(())
}

#[test]
fn paths_of_64_nodes_are_followed_and_no_longer_ones(rt: HostRuntime) -> Result<(), Fail> {
    // 63 inner nodes above the leaf, each with one child, in blocks of their own behind the pool's.
    let mut image = pool_of(rt.alloc(), ONE_MAPPING, 128)?;
    for b in 20..83 {
        let child = if b < 82 { b as u64 + 1 } else { 1 };
        image[b] = inner(b as u64, child);
        set_two_bits(&mut image[8], b, 1);
    }
    seal_bitmap(&mut image[8], 8);
    image[2] = device_leaf(2, 20);
    expect_report(rt.alloc(), CHECK, image.as_slice(), "clean\n")?;
    expect_saved(rt.alloc(), image.as_slice(), ONE_MAPPING)?;
    image[19] = inner(19, 20);
    image[2] = device_leaf(2, 19);
    let report = "fault meta 19 level\nfaults 1\n";
    expect_report(rt.alloc(), CHECK, image.as_slice(), report)?;
    expect_saved(rt.alloc(), image.as_slice(), NO_MAPPING)?;
    Ok(())
}

/// How many calls of a device a repair makes at most.
const MANY: u64 = 100;

/// Whether a repair has no such call of the input. Where it has, it fails in that call, with nothing written.
fn is_past_input(
    rt: &impl Abort,
    alloc: Global,
    image: &[Block],
    base: &[Block],
    call: u64,
) -> Result<bool, Fail> {
    let ran = repair(alloc, image, base, Trouble::Input.at(call))?;
    let is_past = ran.status == 0;
    assert!(rt; is_past | (ran.status == 5), "{call}");
    if !is_past {
        expect_held(alloc, &ran.output, base, "the output")?;
    }
    Ok(is_past)
}

#[test]
fn each_call_of_the_input_may_fail(rt: HostRuntime) -> Result<(), Fail> {
    let image = pool_of(rt.alloc(), THREE_LEAVES, 16)?;
    let base = [ONES; 16];
    for call in 0..MANY {
        if is_past_input(&rt, rt.alloc(), image.as_slice(), &base, call)? {
            assert!(rt; call > 6);
            return Ok(());
        }
    }
    assert!(rt; false, "no end");
    Ok(())
}

/// Whether a repair has no such call of the output. Where it has, it fails in that call.
fn is_past_output(
    alloc: Global,
    image: &[Block],
    base: &[Block],
    new: &[Block],
    call: u64,
) -> Result<bool, Fail> {
    let ran = repair(alloc, image, base, Trouble::Output.at(call))?;
    let is_past = ran.status == 0;
    if !is_past {
        expect_output_fault(alloc, &ran, base, new)?;
    }
    Ok(is_past)
}

#[test]
fn each_call_of_the_output_may_fail(rt: HostRuntime) -> Result<(), Fail> {
    let image = pool_of(rt.alloc(), THREE_LEAVES, 16)?;
    let base = [ONES; 16];
    let made = repair(rt.alloc(), image.as_slice(), &base, NOTHING_FAILS)?;
    let new = blocks_of(rt.alloc(), &made.output)?;
    for call in 0..MANY {
        if is_past_output(rt.alloc(), image.as_slice(), &base, new.as_slice(), call)? {
            assert!(rt; call > 14);
            return Ok(());
        }
    }
    assert!(rt; false, "no end");
    Ok(())
}
