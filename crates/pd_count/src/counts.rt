//! A table of counts.

ghost use Rattle.std.specs.Prelude.{◌≡◌, ℕ, ◌+◌, ◌-◌, ◌^◌, ◌<◌, ◌≤◌, List, [], ◌∷◌, ◌++◌, IfOk, OnOk, OnErr, MatchOption, min};

use crate::CHUNK_COUNTS;
use crate::chunk::Chunk;
use crate::group::{GROUP_CHUNKS, Group, absent_groups};
use std::alloc::{AllocError, Global};
use std::marker::Model;

/// How often each of so many blocks was counted.
///
/// The counts stand in chunks of 16320, and the chunks in groups of 64. Each group takes 32 bytes: that is 34 MB for 2^40
/// blocks, before any is counted. A chunk is made when a block in it is first counted. From then on it takes 32 bytes in
/// its group, and more as `Chunk` tells: at most 64 bytes in all for each block that was counted, and a byte for each
/// block where blocks lie close and none was counted more than 255 times.
#[derive(Drop)]
pub struct Counts {
    size: u64,
    groups: Vec<Group>,
    /// The chunk of the block that was noted last.
    noted: usize,
}

impl Model for Counts {
    ghost use Rattle.std.specs.Prelude.{◌≡◌, ℕ, ◌+◌, ◌/◌, ◌≤◌, length};
    ghost use Rattle.pd_count.specs.Counted.{Counted, count_of};
    ghost use Rattle.pd_count.specs.Counted.{chunks_in};

    ghost Value = { Counted };

    ghost view = { λ c. record { size = c.size; chunks = chunks_in c.groups.items } };

    ghost invariant = { λ c. (length c.groups.items ≡ (c.size + 1044479) / 1044480)
        × ((b : ℕ) → c.size ≤ b → count_of (record { size = c.size; chunks = chunks_in c.groups.items }) b ≡ 0) };
}

impl Counts {
    ghost use Rattle.pd_count.specs.Counted.{count_of, CountsOneMore, HasCounted, IsChunk, IsUncounted, PutsNumber};

    /// A table of so many blocks, none of which was counted. It takes the memory of the list of groups.
    ///
    /// Fails with `AllocError` where that memory wasn't found.
    pub fn new(alloc: Global, size: u64) -> Result<Counts, AllocError>
        ensures size { IfOk result (λ counts. counts.size ≡ size) }
        ensures none { IfOk result (λ counts. HasCounted counts []) }
    {
        let places = size.div_ceil((GROUP_CHUNKS * CHUNK_COUNTS) as u64) as usize;
        Ok(Counts {
            size,
            groups: absent_groups(alloc, places)?,
            noted: 0,
        })
    }

    /// Counts the block once more. It takes memory only where the chunk of the block isn't made, or has no room for its
    /// count.
    ///
    /// Fails with `AllocError` where that memory wasn't found; then all is as before.
    pub fn add(&mut self, b: u64) -> Result<(), AllocError>
        requires within { b < self.old.size }
        requires few { count_of self.old b < 2 ^ 32 - 1 }
        ensures added { OnOk result (CountsOneMore b self.old self.new) }
        // So the counts are those of the list of the blocks that were counted.
        ensures listed { OnOk result ((before : List ℕ) → HasCounted self.old before → HasCounted self.new (before ++ b ∷ [])) }
        ensures err { OnErr result (self.new ≡ self.old) }
    {
        self.saturating_add(b)?;
        Ok(())
    }

    /// Counts the block once more, unless its count is as great as it can be, which is 2^32 - 1, and answers how often it was
    /// counted before. It takes memory as `add` does.
    ///
    /// Fails with `AllocError` where that memory wasn't found; then all is as before.
    pub fn saturating_add(&mut self, b: u64) -> Result<u32, AllocError>
        requires { b < self.old.size }
        ensures before { IfOk result (λ before. before ≡ count_of self.old b) }
        ensures put { OnOk result (PutsNumber b (min (count_of self.old b + 1) (2 ^ 32 - 1)) self.old self.new) }
        // So it is one count more, unless there is no greater one.
        ensures added { OnOk result (count_of self.old b < 2 ^ 32 - 1 → CountsOneMore b self.old self.new) }
        ensures listed { OnOk result (count_of self.old b < 2 ^ 32 - 1
            → (before : List ℕ) → HasCounted self.old before → HasCounted self.new (before ++ b ∷ [])) }
        ensures err { OnErr result (self.new ≡ self.old) }
    {
        let i = (b / CHUNK_COUNTS as u64) as usize;
        let at = (b % CHUNK_COUNTS as u64) as usize;
        let before = self.groups[i / GROUP_CHUNKS].saturating_add(i % GROUP_CHUNKS, at)?;
        Ok(before)
    }

    /// Notes the block: counts it once more, unless its count is as great as it can be, now or once many blocks of its chunk
    /// wait. Where blocks come in no order that is faster than `saturating_add`. It takes memory as `add` does, and 540 bytes
    /// for a chunk whose blocks wait.
    ///
    /// Every call here counts what waits; those that read are slow while blocks wait, until `settle`.
    ///
    /// Fails with `AllocError` where that memory wasn't found; then all is as before.
    pub fn note(&mut self, b: u64) -> Result<(), AllocError>
        requires { b < self.old.size }
        ensures others { OnOk result (PutsNumber b (count_of self.new b) self.old self.new) }
        ensures added { OnOk result (count_of self.old b < 2 ^ 32 - 1 → CountsOneMore b self.old self.new) }
        ensures listed { OnOk result (count_of self.old b < 2 ^ 32 - 1
            → (before : List ℕ) → HasCounted self.old before → HasCounted self.new (before ++ b ∷ [])) }
        ensures err { OnErr result (self.new ≡ self.old) }
    {
        let i = (b / CHUNK_COUNTS as u64) as usize;
        let at = (b % CHUNK_COUNTS as u64) as usize;
        let is_far = i != self.noted;
        self.noted = i;
        self.groups[i / GROUP_CHUNKS].note(i % GROUP_CHUNKS, at, is_far)?;
        Ok(())
    }

    /// Counts the blocks that wait after `note`, so that what reads the counts is fast. All counts are as before. It takes the
    /// memory of one chunk for a while; where that isn't found, some blocks go on waiting.
    pub fn settle(&mut self)
        ensures { self.new ≡ self.old }
    {
        for place in 0..self.groups.len() {
            self.groups[place].settle();
        }
    }

    /// Puts the number of the block, in a table of other numbers than counts. It takes memory as `add` does.
    ///
    /// Fails with `AllocError` where that memory wasn't found; then all is as before.
    pub fn set(&mut self, b: u64, number: u32) -> Result<(), AllocError>
        requires within { b < self.old.size }
        ensures put { OnOk result (PutsNumber b number self.old self.new) }
        ensures err { OnErr result (self.new ≡ self.old) }
    {
        let i = (b / CHUNK_COUNTS as u64) as usize;
        let at = (b % CHUNK_COUNTS as u64) as usize;
        self.groups[i / GROUP_CHUNKS].set(i % GROUP_CHUNKS, at, number)?;
        Ok(())
    }

    /// How often the block was counted. It takes no memory.
    pub fn get(&self, b: u64) -> u32
        requires { b < self.now.size }
        ensures { result ≡ count_of self.now b }
    {
        let i = (b / CHUNK_COUNTS as u64) as usize;
        let at = (b % CHUNK_COUNTS as u64) as usize;
        self.groups[i / GROUP_CHUNKS].get(i % GROUP_CHUNKS, at)
    }

    /// The number of blocks. It takes no memory.
    pub fn size(&self) -> u64
        ensures size { result ≡ self.now.size }
        // No block past them was counted.
        ensures past { (b : ℕ) → self.now.size ≤ b → count_of self.now b ≡ 0 }
    {
        self.size
    }

    /// The chunk of the 16320 blocks from block `16320 * i` on, or `None` where none of these blocks was counted. The
    /// counts past the last block are 0. It takes no memory.
    pub fn chunk(&self, i: u64) -> Option<&Chunk>
        ensures { MatchOption result (IsUncounted self.now i) (λ chunk. IsChunk self.now i chunk.now) }
    {
        let i = i as usize;
        let group = self.groups.get(i / GROUP_CHUNKS)?;
        let chunk = group.chunk(i % GROUP_CHUNKS)?;
        if chunk.is_made() { Some(chunk) } else { None }
    }
}
