//! Restores of era targets: what is restored, what is refused, and what the output holds then.

use crate::era_tests::{EMPTY, ERA, WRITTEN};
use pd_samples::expected::End::{Done, NoRoom, Refused};
use pd_samples::expected::Left::{Closed, Old, Written};
use pd_samples::expected::{
    Left, Row, expect_output_faults, expect_restored, left_by_source_fault,
};
use std::test::Fail;

/// Runs that leave a block out.
const GAP: &str =
    "era 1\nera 00000000-0000-0000-0000-000000000000 128 100 9\nrun 0 3 0\nrun 4 96 0\nend\n";

/// Runs that don't come to the last block.
const SHORT: &str = "era 1\nera 00000000-0000-0000-0000-000000000000 128 100 9\nrun 0 3 0\nend\n";

/// Restores, with what they come to.
const ROWS: &[Row] = &[
    (ERA, WRITTEN, 7, Done(""), Written),
    (ERA, WRITTEN, 6, NoRoom(7, 6), Old),
    (ERA, EMPTY, 6, Done(""), Written),
    (ERA, GAP, 16, Refused(4, "order"), Closed),
    (ERA, SHORT, 16, Refused(4, "mapped differs"), Closed),
    (
        ERA,
        "era 1\nera 00000000-0000-0000-0000-000000000000 128 x 9\n",
        16,
        Refused(2, "number"),
        Old,
    ),
    (ERA, "cache 1\n", 16, Refused(1, "header"), Old),
];

#[test]
fn restores_of_targets_come_to_their_status(rt: HostRuntime) -> Result<(), Fail> {
    for row in ROWS {
        expect_restored(rt.alloc(), row)?;
    }
    Ok(())
}

#[test]
fn a_source_of_a_target_that_fails_is_blamed(rt: HostRuntime) -> Result<(), Fail> {
    for call in 0..16 {
        let left = left_by_source_fault(rt.alloc(), ERA, WRITTEN, call)?;
        assert!(rt; left != Left::Written, "{call}");
    }
    Ok(())
}

#[test]
fn a_failed_call_leaves_the_old_target_none_or_the_new_one(rt: HostRuntime) -> Result<(), Fail> {
    // Attaching, the closing of block 0 and a sync, six blocks, a sync, the superblock and a sync.
    expect_output_faults(rt.alloc(), (ERA, EMPTY), (ERA, WRITTEN), 12)?;
    Ok(())
}
