//! The counts of data blocks (`thin_restore`, `thin_repair`, `thin_shrink`).

ghost use Rattle.std.specs.Prelude.{◌≡◌, ℕ, ◌+◌, ◌^◌, ◌<◌, ◌≤◌, List, [], ◌++◌, IfOk, OnOk};
ghost use Rattle.std.specs.List.{range_with_len};
ghost use Rattle.pd_count.specs.Counted.{count_of, CountsOneMore, HasCounted};
ghost use Rattle.pd_devices.specs.Counts.{overflows_of};

use pd_count::Counts;
use std::alloc::{AllocError, Global};

/// How often each data block of a pool is mapped, and how many of them so often that two bits don't hold it.
#[derive(Drop)]
pub struct BlockCounts {
    counts: Counts,
    /// How many mappings were counted.
    total: u64,
    /// How many data blocks were counted three times or more.
    over: u64,
    ghost bounded: { (b : ℕ) → count_of counts b ≤ total },
    ghost overflows: { over ≡ overflows_of counts counts.size },
}

impl BlockCounts {
    /// The counts of so many data blocks, none of which was counted.
    pub fn new(alloc: Global, blocks: u64) -> Result<BlockCounts, AllocError>
        ensures size { IfOk result (λ counts. counts.counts.size ≡ blocks) }
        ensures none { IfOk result (λ counts. HasCounted counts.counts []) }
        ensures total { IfOk result (λ counts. counts.total ≡ 0) }
    {
        Ok(BlockCounts {
            counts: Counts::new(alloc, blocks)?,
            total: 0,
            over: 0,
        })
    }

    /// The counts.
    pub fn counts(&self) -> &Counts
        ensures { result.now ≡ self.now.counts }
    {
        &self.counts
    }

    /// How many data blocks were counted three times or more.
    pub fn over(&self) -> u64
        ensures over { result ≡ self.now.over }
        ensures count { result ≡ overflows_of self.now.counts self.now.counts.size }
    {
        self.over
    }

    /// Counts so many blocks in a row once more.
    ///
    /// Fails with `AllocError` where memory wasn't found; then some of them may be counted.
    pub fn add_run(&mut self, first: u64, length: u64) -> Result<(), AllocError>
        requires within { first + length ≤ self.old.counts.size }
        requires few { self.old.total + length < 2 ^ 32 }
        ensures size { OnOk result (self.new.counts.size ≡ self.old.counts.size) }
        ensures total { OnOk result (self.new.total ≡ self.old.total + length) }
        ensures listed { (before : List ℕ) → HasCounted self.old.counts before
            → OnOk result (HasCounted self.new.counts (range_with_len first length ++ before)) }
    {
        let _blocks = self.counts.size();
        for i in 0..length {
            self.add(first + i)?;
        }
        Ok(())
    }

    /// Counts a block once more.
    fn add(&mut self, b: u64) -> Result<(), AllocError>
        requires within { b < self.old.counts.size }
        requires few { self.old.total + 1 < 2 ^ 32 }
        ensures total { OnOk result (self.new.total ≡ self.old.total + 1) }
        ensures added { OnOk result (CountsOneMore b self.old.counts self.new.counts) }
    {
        // There are no more such blocks than blocks, whose number is one of its type.
        let _blocks = self.counts.size();
        let before = self.counts.saturating_add(b)?;
        self.total += 1;
        if before == 2 {
            self.over += 1;
        }
        Ok(())
    }
}
