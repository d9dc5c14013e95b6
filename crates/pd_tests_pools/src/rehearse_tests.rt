//! Rehearsals over devices in memory.

use crate::asked::{Came, expect_came, expect_put};
use pd_crc::any_valid;
use pd_image::{MemDevice, Pick};
use pd_kinds::Block;
use pd_samples::pool::DEVICE;
use pd_samples::runs::{
    Failing, Held, NOTHING_FAILS, Ran, blocks_after_crash, blocks_of, restore, run, run_over,
};
use std::alloc::{AllocError, Global};
use std::process::Abort;
use std::test::Fail;

/// A rehearsal of number 1 over so many blocks of zeros.
fn rehearse(alloc: Global, blocks: usize, failing: Failing) -> Result<Ran, AllocError> {
    let base = vec![in alloc; Block::zeros(); blocks]?;
    let held = Held {
        text: b"",
        input: &[],
        output: base.as_slice(),
        third: &[],
    };
    let words = &["thin_rehearse", "--number", "1", "-o", "x"];
    run_over(alloc, words, held, failing)
}

/// Rehearses number 1 over so many blocks, which must come to this.
fn expect_rehearsal(
    rt: &impl Abort,
    alloc: Global,
    blocks: usize,
    came: Came<'_>,
) -> Result<Ran, AllocError> {
    let ran = rehearse(alloc, blocks, NOTHING_FAILS)?;
    expect_came(rt, &ran, came, came.1);
    Ok(ran)
}

/// The line of a rehearsal.
const LINE: &str = "rehearsal 1 used 19 mappings 2000 lines 2005 clean\n";

/// The list of its devices: one of a thousand blocks, and a snapshot of it with five changed ones.
const LIST: &str = "device 0 mapped 1000 exclusive 5 shared 995 transaction 0 created 0 snapped 1\n\
     device 1 mapped 1000 exclusive 5 shared 995 transaction 1 created 1 snapped 1\n";

#[test]
fn a_rehearsed_pool_is_clean_and_listed(rt: HostRuntime) -> Result<(), Fail> {
    let alloc = rt.alloc();
    let ran = expect_rehearsal(&rt, alloc, 32, (0, LINE, ""))?;
    let image = blocks_of(alloc, &ran.output)?;
    let check = &["thin_check", "x"];
    expect_put(&rt, alloc, check, image.as_slice(), "", "clean\n")?;
    let list = &["thin_ls", "-o", "list.txt", "x"];
    expect_put(&rt, alloc, list, image.as_slice(), "list.txt", LIST)?;
    Ok(())
}

#[test]
fn a_rehearsed_pool_is_what_the_generated_text_is_restored_to(rt: HostRuntime) -> Result<(), Fail> {
    let alloc = rt.alloc();
    let rehearsed = rehearse(alloc, 32, NOTHING_FAILS)?;
    let number = &["thin_generate", "--number", "1"];
    let generated = run(alloc, number, &[], NOTHING_FAILS)?;
    let base = [Block::zeros(); 32];
    let made = restore(alloc, generated.out.bytes(), &base, NOTHING_FAILS)?;
    let found = blocks_of(alloc, &made.output)?;
    assert!(rt; blocks_of(alloc, &rehearsed.output)?.as_slice() == found.as_slice());
    Ok(())
}

#[test]
fn a_rehearsal_needs_room(rt: HostRuntime) -> Result<(), Fail> {
    let notes = "pdata_tools: no room: need 19, blocks 18\n";
    expect_rehearsal(&rt, rt.alloc(), 18, (4, "", notes))?;
    Ok(())
}

/// Whether a crash by this pick leaves zeros, no valid superblock, or the whole pool.
fn is_outcome(
    alloc: Global,
    output: &MemDevice,
    pick: Pick,
    pool: &[Block],
) -> Result<bool, AllocError> {
    let left = blocks_after_crash(alloc, output, pick)?;
    Ok(match left.as_slice() {
        [] => false,
        [first, ..] => left.as_slice() == pool || !any_valid(first),
    })
}

/// Rehearses over as many blocks as this pool has, with this call of the device failing, which it must say, if it is made.
fn expect_failure(
    rt: &impl Abort,
    alloc: Global,
    call: u64,
    pool: &[Block],
) -> Result<(), AllocError> {
    let failing = Failing {
        output: Some(call),
        ..NOTHING_FAILS
    };
    let ran = rehearse(alloc, pool.len(), failing)?;
    for pick in [Pick::Old, Pick::New, Pick::Other(0)] {
        assert!(rt; is_outcome(alloc, &ran.output, pick, pool)?);
    }
    if ran.status == 0 {
        assert!(rt; call > 60);
        return Ok(());
    }
    expect_came(rt, &ran, (5, "", DEVICE), "rehearsal");
    Ok(())
}

// The restore makes the calls 0 to 23; then come the reads of the check and of the dump.
#[test]
fn each_call_that_fails_is_blamed(rt: HostRuntime) -> Result<(), Fail> {
    let whole = rehearse(rt.alloc(), 24, NOTHING_FAILS)?;
    let pool = blocks_of(rt.alloc(), &whole.output)?;
    for call in 0..140 {
        expect_failure(&rt, rt.alloc(), call, pool.as_slice())?;
    }
    Ok(())
}

// The same calls on more blocks: the last one of the restore, and the first read of the check.
#[test]
fn a_large_device_that_fails_after_the_restore_is_blamed(rt: HostRuntime) -> Result<(), Fail> {
    let whole = rehearse(rt.alloc(), 4096, NOTHING_FAILS)?;
    let pool = blocks_of(rt.alloc(), &whole.output)?;
    for call in 23..25 {
        expect_failure(&rt, rt.alloc(), call, pool.as_slice())?;
    }
    Ok(())
}

// The generated text.

/// How the text of number 1 begins.
const BEGINNING: &str =
    "thin 1\npool 00000000-0000-0000-0000-000000000000 1 2 128 10000\ndevice 0 1000 0 0 1\nmap 0 0 1 0\nmap 1 2 1 0\n";

/// The line of the second device, and the first ones of its mappings.
const SECOND: &str = "device 1 1000 1 1 1\nmap 0 1 1 1\nmap 1 2 1 0\n";

/// How it ends.
const END: &str = "map 999 1998 1 0\nend\n";

#[test]
fn the_text_of_number_1_has_2005_lines(rt: HostRuntime) -> Result<(), Fail> {
    let words = &["thin_generate", "--number", "1"];
    let ran = run(rt.alloc(), words, &[], NOTHING_FAILS)?;
    let text = ran.out.bytes();
    assert!(rt; ran.status == 0);
    assert!(rt; text.iter().filter(|b| **b == b'\n').count() == 2005);
    assert!(rt; text.starts_with(BEGINNING.as_bytes()));
    assert!(rt; text.ends_with(END.as_bytes()));
    assert!(rt;
        text.windows(SECOND.len())
            .any(|part| part == SECOND.as_bytes())
    );
    Ok(())
}
