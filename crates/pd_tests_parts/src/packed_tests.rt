//! Packed runs: that memory is enough for a few of them, and for some chunks.

use pd_meaning_thin::{PackedRuns, Run};
use std::alloc::{AllocError, Global};
use std::test::Fail;

/// Gaps up and down, the ends of each type, and runs that follow each other closely.
const RUNS: [Run; 5] = [
    Run {
        virt: 7,
        target: 1000,
        length: 1,
        time: 3,
    },
    Run {
        virt: 8,
        target: 999,
        length: 200,
        time: 2,
    },
    Run {
        virt: u64::MAX,
        target: u64::MAX,
        length: u64::MAX,
        time: u32::MAX,
    },
    Run {
        virt: 0,
        target: 0,
        length: 0,
        time: 0,
    },
    Run {
        virt: 1 << 63,
        target: 1 << 63,
        length: 1 << 63,
        time: 1 << 31,
    },
];

/// How often these are put in, and how many runs that is. The last row takes three chunks.
const ROWS: [(usize, usize); 3] = [(0, 0), (1, 5), (2000, 10000)];

#[test]
fn runs_come_back_as_they_were(rt: HostRuntime) -> Result<(), Fail> {
    for (times, len) in ROWS {
        let packed = packed_times(rt.alloc(), times)?;
        assert!(rt; packed.is_empty() == (times == 0));
        assert!(rt; packed.len() == len);
        assert!(rt; come_back(&packed, times));
    }
    Ok(())
}

/// The runs, so many times.
fn packed_times(alloc: Global, times: usize) -> Result<PackedRuns, AllocError> {
    let mut packed = PackedRuns::new(alloc);
    for _ in 0..times {
        for run in &RUNS {
            packed.push(*run)?;
        }
    }
    Ok(packed)
}

/// Whether the runs come back so many times, and no more.
fn come_back(packed: &PackedRuns, times: usize) -> bool {
    let mut place = packed.first();
    for _ in 0..times {
        for run in &RUNS {
            if packed.next(&mut place) != Some(*run) {
                return false;
            }
        }
    }
    packed.next(&mut place) == None
}
