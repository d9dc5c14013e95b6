//! The run of blocks that was read last, from which the next reads are served.

ghost use Rattle.std.specs.Prelude.{◌≡◌, ◌+◌, ◌-◌, ◌*◌, ◌/◌, ◌≤◌, ◌∷◌, [], ◌↔◌, IsTrue, IfOk, OnOk};
ghost use Rattle.std.specs.Prelude.{OnErr, length, slice_range, take, true, false};
ghost use Rattle.std.specs.Vec.{vec_len};
ghost use Rattle.pd_files.specs.FileCall.{gave, LooksMore};

use crate::recorded_file::FileCalls;
use pd_kinds::{BLOCK_SIZE, Block};
use std::alloc::{AllocError, Global};
use std::io;

/// A run ends where the number of the next block is a multiple of it.
pub(crate) const RUN_BLOCKS: u64 = 16;

/// The blocks that one read gave, one after another.
#[derive(Drop)]
pub(crate) struct ReadBlocks {
    /// The first block that is kept.
    first: u64,
    /// How many blocks are kept.
    count: u64,
    /// Their bytes, and room for more: 64 KiB from the first run on.
    buffer: Vec<u8>,
    ghost fits: { 4096 * count ≤ length buffer.items },
}

impl ReadBlocks {
    ghost use Rattle.pd_files.specs.Run.{Serves, kept_bytes};

    /// Nothing is kept.
    pub(crate) fn new(alloc: Global) -> ReadBlocks
        ensures { result.count ≡ 0 }
    {
        ReadBlocks {
            first: 0,
            count: 0,
            buffer: Vec::new(alloc),
        }
    }

    /// Whether the block is one of those that are kept.
    pub(crate) fn serves(&self, b: u64) -> bool
        ensures { IsTrue result ↔ Serves b self.now }
    {
        self.first <= b && b - self.first < self.count
    }

    /// Copies a block that is kept.
    pub(crate) fn copy(&self, b: u64, into: &mut Block)
        requires { Serves b self.now }
        ensures { into.new.0 ≡ slice_range (kept_bytes self.now) (4096 * (b - self.now.first)) (4096 * (b - self.now.first) + 4096) }
    {
        let at = (b - self.first) as usize * BLOCK_SIZE;
        into.0.copy_from_slice(&self.buffer[at..at + BLOCK_SIZE]);
    }

    /// Keeps nothing from now on.
    pub(crate) fn clear(&mut self)
        ensures { self.new.count ≡ 0 }
    {
        self.count = 0;
    }

    /// Reads so many blocks at one call of the file, which stands at block b, in place of what was kept. It answers
    /// how many bytes came; the whole blocks among them are kept. An error is the file's own, or want of memory.
    pub(crate) fn fill<F: FileCalls>(
        &mut self,
        file: &mut F,
        b: u64,
        blocks: u64,
    ) -> io::Result<usize>
        requires few { blocks ≤ 16 }
        ensures first { IfOk result (λ came. self.new.first ≡ b) }
        ensures count { IfOk result (λ came. self.new.count ≡ came / 4096) }
        ensures came { IfOk result (λ came. (came ≤ length self.new.buffer.items)
            × (F.calls file.new ≡ gave (take came self.new.buffer.items) true ∷ F.calls file.old)) }
        ensures most { IfOk result (λ came. came ≤ 4096 * blocks) }
        ensures none { OnErr result (self.new.count ≡ 0) }
        ensures failed { OnErr result (LooksMore 1 (F.calls file.old) (F.calls file.new)) }
    {
        self.count = 0;
        take_memory(&mut self.buffer)?;
        let bytes = blocks as usize * BLOCK_SIZE;
        let came = take_front(file, &mut self.buffer, bytes)?;
        self.first = b;
        self.count = (came / BLOCK_SIZE) as u64;
        Ok(came)
    }
}

/// Reads once into the front of the buffer, so many bytes at most.
fn take_front<F: FileCalls>(file: &mut F, buffer: &mut [u8], most: usize) -> io::Result<usize>
    requires { most ≤ length buffer.old }
    ensures some { IfOk result (λ came. came ≤ most) }
    ensures came { IfOk result (λ came. F.calls file.new ≡ gave (take came buffer.new) true ∷ F.calls file.old) }
    ensures failed { OnErr result (F.calls file.new ≡ gave [] false ∷ F.calls file.old) }
{
    file.take(&mut buffer[..most])
}

/// Room for the longest run.
fn take_memory(buffer: &mut Vec<u8>) -> Result<(), AllocError>
    ensures { OnOk result (vec_len buffer.new ≡ 65536) }
{
    lengthen(buffer, RUN_BLOCKS as usize * BLOCK_SIZE)
}

/// Cuts it to this length, or fills it up with zeros.
fn lengthen(buffer: &mut Vec<u8>, bytes: usize) -> Result<(), AllocError>
    ensures { OnOk result (vec_len buffer.new ≡ bytes) }
{
    buffer.resize(bytes, 0)
}
