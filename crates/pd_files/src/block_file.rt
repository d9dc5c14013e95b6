//! An open file as blocks: a run of them is read at one call, where the reads stand in a row.

ghost use Rattle.std.specs.Prelude.{◌≡◌, ◌+◌, ◌*◌, ◌/◌, ◌^◌, ◌<◌, ◌∷◌, ◌↔◌, true, ℕ, IsTrue, Some, None, is_ok, OnOk, OnErr, if◌then◌else◌};
ghost use Rattle.std.proofs.Props.{props};
ghost use Rattle.pd_files.specs.FileCall.{wrote, synced, after_moving, place, given, FailsAlone, IsGivenAt, LooksMore};
ghost use Rattle.pd_files.specs.Run.{Serves, kept_bytes};

use crate::recorded_file::{FileCalls, RecordedFile};
use crate::run::{RUN_BLOCKS, ReadBlocks};
use pd_kinds::{BLOCK_SIZE, Block};
use std::alloc::Global;
use std::fs::OpenFile;
use std::io;
use std::io::{ErrorKind, Read, Seek, Write};

/// An open file with the run of blocks that was read last. What is kept of it is what the file gave since the last
/// write or sync.
#[derive(Drop)]
pub(crate) struct BlockFile<F> {
    file: RecordedFile<F>,
    /// The block at whose first byte the file stands, where that is known.
    position: Option<u64>,
    /// Whether the last block was read, so that a run may follow. None follows a write: where each block that is read
    /// is written back, a run would read most of them in vain.
    reading: bool,
    run: ReadBlocks,
    ghost stands: { (b : ℕ) → position ≡ Some b → place file.log.calls ≡ Some (4096 * b) } by { Prim.hlevel props },
    ghost told: { IsGivenAt file.log.calls (4096 * run.first) (kept_bytes run) } by { Prim.hlevel props },
}

impl<F> BlockFile<F> {
    /// A file of which no call was made. It may stand anywhere.
    pub(crate) fn new(alloc: Global, file: F) -> BlockFile<F> {
        BlockFile {
            file: RecordedFile::new(file),
            position: None,
            reading: false,
            run: ReadBlocks::new(alloc),
        }
    }
}

impl<F: Read + Write + Seek + OpenFile> BlockFile<F> {
    ghost use Rattle.pd_files.specs.FileDevice.{calls_of, is_at};

    /// Reads block b of so many: from the run that is kept, or a new one, or else by itself.
    pub(crate) fn read(&mut self, b: u64, blocks: u64, into: &mut Block) -> io::Result<()>
        requires within { b < blocks }
        ensures given { OnOk result (IsGivenAt (calls_of self.new) (4096 * b) into.new.0) }
        ensures made { LooksMore 3 (calls_of self.old) (calls_of self.new) }
        ensures failed { OnErr result (FailsAlone b (calls_of self.new)) }
        ensures served { Serves b self.old.run → calls_of self.new ≡ calls_of self.old }
    {
        if self.run.serves(b) {
            self.run.copy(b, into);
            return Ok(());
        }
        if self.begins_run(b, blocks) {
            self.run.copy(b, into);
            return Ok(());
        }
        self.read_alone(b, into)
    }

    /// Reads a run from block b on, where the file stands there after a read. It answers whether block b has come.
    fn begins_run(&mut self, b: u64, blocks: u64) -> bool
        requires within { b < blocks }
        requires missing { Serves b self.old.run → ⊥ }
        ensures made { LooksMore 1 (calls_of self.old) (calls_of self.new) }
        ensures kept { IsTrue result ↔ Serves b self.new.run }
    {
        if !self.reading {
            return false;
        }
        if self.position != Some(b) {
            return false;
        }
        self.position = None;
        let most = (RUN_BLOCKS - b % RUN_BLOCKS).min(blocks - b);
        match self.run.fill(&mut self.file, b, most) {
            Ok(came) => {
                self.position = block_behind(b, came);
                self.run.serves(b)
            }
            Err(_) => false,
        }
    }

    /// Whether it is known to stand at the first byte of block b.
    fn stands_at(&self, b: u64) -> bool
        ensures { result ≡ is_at self.now.position b }
    {
        self.position == Some(b)
    }

    /// Reads block b by itself. What is kept stays, since it isn't there.
    fn read_alone(&mut self, b: u64, into: &mut Block) -> io::Result<()>
        requires fits { b + 1 < 2 ^ 64 }
        requires missing { Serves b self.old.run → ⊥ }
        ensures given { OnOk result (IsGivenAt (calls_of self.new) (4096 * b) into.new.0) }
        ensures made { LooksMore 2 (calls_of self.old) (calls_of self.new) }
        ensures failed { OnErr result (FailsAlone b (calls_of self.new)) }
    {
        let known = self.stands_at(b);
        self.position = None;
        self.reading = true;
        move_to_block(&mut self.file, b, known)?;
        self.file.fill(&mut into.0)?;
        self.position = Some(b + 1);
        Ok(())
    }

    /// Writes block b. Nothing is kept from then on.
    pub(crate) fn write(&mut self, b: u64, from: &Block) -> io::Result<()>
        requires { b + 1 < 2 ^ 64 }
        ensures made { OnOk result (calls_of self.new
            ≡ wrote from.now.0 true ∷ after_moving (is_at self.old.position b) b (calls_of self.old)) }
        ensures stands { self.new.position ≡ (if is_ok result then Some (b + 1) else None) }
    {
        let known = self.stands_at(b);
        self.position = None;
        self.reading = false;
        self.run.clear(); // It may have this block.
        move_to_block(&mut self.file, b, known)?;
        self.file.put(&from.0)?;
        self.position = Some(b + 1);
        Ok(())
    }

    /// Waits until all that was written is on the disk. Nothing is kept from then on.
    pub(crate) fn sync(&mut self) -> io::Result<()>
        ensures { calls_of self.new ≡ synced (is_ok result) ∷ calls_of self.old }
    {
        self.run.clear(); // What failed may be lost.
        self.file.sync()
    }
}

/// The block that begins so many bytes behind the first one of block b, if one begins there.
fn block_behind(b: u64, bytes: usize) -> Option<u64>
    requires { b + bytes / 4096 < 2 ^ 64 }
    ensures { (c : ℕ) → result ≡ Some c → 4096 * c ≡ 4096 * b + bytes }
{
    if bytes % BLOCK_SIZE == 0 {
        Some(b + (bytes / BLOCK_SIZE) as u64)
    } else {
        None
    }
}

/// Moves to the first byte of the block, where the file isn't `known` to stand there.
fn move_to_block<F: FileCalls>(file: &mut F, b: u64, known: bool) -> io::Result<()>
    ensures moved { OnOk result (F.calls file.new ≡ after_moving known b (F.calls file.old)) }
    ensures stands { OnOk result ((IsTrue known → place (F.calls file.old) ≡ Some (4096 * b))
        → place (F.calls file.new) ≡ Some (4096 * b)) }
    ensures made { LooksMore 1 (F.calls file.old) (F.calls file.new) }
    ensures failed { OnErr result (FailsAlone b (F.calls file.new)) }
    ensures kept { (at : ℕ) → given (F.calls file.new) at ≡ given (F.calls file.old) at }
{
    if known {
        return Ok(());
    }
    let at = b
        .checked_mul(BLOCK_SIZE as u64)
        .ok_or(ErrorKind::InvalidInput)?;
    file.move_to(at)
}
