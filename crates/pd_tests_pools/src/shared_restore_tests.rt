//! Pools with shared leaves that are dumped, restored and dumped again.

use crate::shared_dump_tests::{
    ABOVE, BESIDE, BOTH, EMPTY, FIRST, SECOND, SHARED_DUMP, of_three, of_two,
};
use crate::stored_tests::{overflow_of, pool_of_a_leaf_of_three, pool_of_two_devices};
use pd_kinds::Block;
use pd_samples::pool::pool_of_one_mapping;
use pd_samples::runs::{NOTHING_FAILS, blocks_of, restore, run};
use std::alloc::{AllocError, Global};
use std::process::Abort;
use std::test::Fail;

/// The words of a dump in version 1, and of a check.
const DUMP: &[&str] = &["thin_dump", "thin.img"];

const CHECK: &[&str] = &["thin_check", "thin.img"];

/// Two devices on one leaf, and three.
const TWO_USERS: &str =
    "thin 2\npool 00000000-0000-0000-0000-000000000000 0 0 128 1\nleaf 0 1\nmap 0 0 1 0\ndevice 1 1 0 0 0\nuse 0\n\
     device 2 1 0 0 0\nuse 0\nend\n";

const THREE_USERS: &str =
    "thin 2\npool 00000000-0000-0000-0000-000000000000 0 0 128 1\nleaf 0 1\nmap 0 0 1 0\ndevice 1 1 0 0 0\nuse 0\n\
     device 2 1 0 0 0\nuse 0\ndevice 3 1 0 0 0\nuse 0\nend\n";

/// What a run over an image puts, with status 0.
fn put_by(
    rt: &impl Abort,
    alloc: Global,
    words: &[&str],
    image: &[Block],
) -> Result<Vec<u8>, AllocError> {
    let ran = run(alloc, words, image, NOTHING_FAILS)?;
    assert!(rt; ran.status == 0);
    assert!(rt; ran.notes.bytes().is_empty());
    Vec::from_slice(alloc, ran.out.bytes())
}

/// A run over an image puts this, with status 0.
fn expect_put_by(
    rt: &impl Abort,
    alloc: Global,
    words: &[&str],
    image: &[Block],
    put: &[u8],
) -> Result<(), AllocError> {
    let found = put_by(rt, alloc, words, image)?;
    assert!(rt; found.as_slice() == put);
    Ok(())
}

/// The sixteen blocks that a restore of a text makes of zeros.
fn made_of(rt: &impl Abort, alloc: Global, text: &[u8]) -> Result<Vec<Block>, AllocError> {
    let made = restore(alloc, text, &[Block::zeros(); 16], NOTHING_FAILS)?;
    assert!(rt; made.status == 0);
    assert!(rt; made.notes.bytes().is_empty());
    blocks_of(alloc, &made.output)
}

/// An image is a clean pool, of which these are the dumps in the two versions.
fn expect_told(
    rt: &impl Abort,
    alloc: Global,
    image: &[Block],
    plain: &[u8],
    shared: &[u8],
) -> Result<(), AllocError> {
    expect_put_by(rt, alloc, CHECK, image, b"clean\n")?;
    expect_put_by(rt, alloc, DUMP, image, plain)?;
    expect_put_by(rt, alloc, SHARED_DUMP, image, shared)
}

/// What is restored of the text of an image in version 2 is told as the image was, in both versions. What is restored of that
/// in version 1 is told so in version 1; and in version 2 it is told without shared leaves, of which the same pool is restored.
fn expect_again(rt: &impl Abort, alloc: Global, image: &[Block]) -> Result<(), AllocError> {
    let shared = put_by(rt, alloc, SHARED_DUMP, image)?;
    let plain = put_by(rt, alloc, DUMP, image)?;
    let of_shared = made_of(rt, alloc, &shared)?;
    expect_told(rt, alloc, &of_shared, &plain, &shared)?;
    let of_plain = made_of(rt, alloc, &plain)?;
    let apart = put_by(rt, alloc, SHARED_DUMP, &of_plain)?;
    expect_told(rt, alloc, &of_plain, &plain, &apart)?;
    let of_apart = made_of(rt, alloc, &apart)?;
    assert!(rt; of_apart.as_slice() == of_plain.as_slice());
    Ok(())
}

#[test]
fn pools_of_two_devices_come_back_as_they_were(rt: HostRuntime) -> Result<(), Fail> {
    let alloc = rt.alloc();
    expect_again(&rt, alloc, &pool_of_one_mapping())?;
    expect_again(&rt, alloc, &of_two(FIRST, ABOVE))?;
    expect_again(&rt, alloc, &of_two(BOTH, FIRST))?;
    expect_again(&rt, alloc, &of_two(SECOND, BOTH))?;
    expect_again(&rt, alloc, &of_two(BOTH, BOTH))?;
    expect_again(&rt, alloc, &of_two(FIRST, SECOND))?;
    expect_again(&rt, alloc, &of_two(BOTH, EMPTY))?;
    Ok(())
}

#[test]
fn pools_of_three_devices_come_back_as_they_were(rt: HostRuntime) -> Result<(), Fail> {
    let alloc = rt.alloc();
    expect_again(&rt, alloc, &of_three(SECOND, BOTH, FIRST))?;
    expect_again(&rt, alloc, &of_three(FIRST, ABOVE, BESIDE))?;
    expect_again(&rt, alloc, &of_three(FIRST, EMPTY, EMPTY))?;
    Ok(())
}

/// A text is that of an image, which is restored of it.
fn expect_made(
    rt: &impl Abort,
    alloc: Global,
    text: &str,
    image: &[Block],
) -> Result<(), AllocError> {
    expect_put_by(rt, alloc, SHARED_DUMP, image, text.as_bytes())?;
    let made = made_of(rt, alloc, text.as_bytes())?;
    assert!(rt; made.as_slice() == image, "{text}");
    Ok(())
}

// The leaf stands in block 1, with a count of 2, or with one of 3 in the overflow tree.
#[test]
fn shared_pools_are_those_put_together_by_hand(rt: HostRuntime) -> Result<(), Fail> {
    let alloc = rt.alloc();
    let two = pool_of_two_devices(2);
    expect_made(&rt, alloc, TWO_USERS, &two)?;
    let three = pool_of_a_leaf_of_three(overflow_of(9, 1, 3));
    assert!(rt; three[4].0[16] == 0x02);
    assert!(rt; three[8].0[16] == 0xae);
    assert!(rt; three[8].0[17] == 0xaa);
    assert!(rt; three[8].0[18] == 0x0a);
    expect_made(&rt, alloc, THREE_USERS, &three)?;
    Ok(())
}
