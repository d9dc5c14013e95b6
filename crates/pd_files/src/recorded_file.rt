//! An open file that keeps a record of its calls, so that it is proved which were made, and in which order.

ghost use Rattle.std.specs.Prelude.{◌≡◌, ◌≤◌, ◌∷◌, [], List, true, false, length, take, is_ok, IfOk, OnErr};
ghost use Rattle.std.specs.Borrow.{ftrue};
ghost use Rattle.pd_files.specs.FileCall.{FileCall, sought, gave, wrote, synced, call_of};

use std::fs::OpenFile;
use std::io;
use std::io::{ErrorKind, Read, Seek, SeekFrom, Write};
use std::marker::{Model, PhantomData};

const SOUGHT: u64 = 0;

const GAVE: u64 = 1;

const WROTE: u64 = 2;

const SYNCED: u64 = 3;

/// What is asked of an open file: that each call is in its record, whatever it answers.
pub(crate) trait FileCalls {
    /// The calls so far, the newest first.
    ghost calls: { Self → List FileCall };

    /// Moves to this byte.
    fn move_to(&mut self, at: u64) -> io::Result<()>
        ensures { calls self.new ≡ sought at (is_ok result) ∷ calls self.old };

    /// Reads once: as many bytes as come, up to all of `into`, and 0 at the end of the file.
    fn take(&mut self, into: &mut [u8]) -> io::Result<usize>
        ensures some { IfOk result (λ n. n ≤ length into.new) }
        ensures came { IfOk result (λ n. calls self.new ≡ gave (take n into.new) true ∷ calls self.old) }
        ensures failed { OnErr result (calls self.new ≡ gave [] false ∷ calls self.old) };

    /// Reads until `into` is full.
    fn fill(&mut self, into: &mut [u8]) -> io::Result<()>
        ensures { calls self.new ≡ gave into.new (is_ok result) ∷ calls self.old };

    /// Writes all of the bytes.
    fn put(&mut self, from: &[u8]) -> io::Result<()>
        ensures { calls self.new ≡ wrote from.now (is_ok result) ∷ calls self.old };

    /// Waits until all that was written is on the disk.
    fn sync(&mut self) -> io::Result<()>
        ensures { calls self.new ≡ synced (is_ok result) ∷ calls self.old };
}

/// An open file with its record. Each method makes the one call of the file that it notes.
#[derive(Drop)]
pub(crate) struct RecordedFile<F> {
    file: F,
    log: Record,
}

impl<F> RecordedFile<F> {
    /// A file of which no call was made.
    pub(crate) fn new(file: F) -> RecordedFile<F> {
        RecordedFile {
            file,
            log: Record::new(),
        }
    }
}

impl<F: Read + Write + Seek + OpenFile> FileCalls for RecordedFile<F> {
    ghost calls = { λ file. file.log.calls };

    fn move_to(&mut self, at: u64) -> io::Result<()> {
        let answer = seek(&mut self.file, at);
        match answer {
            Ok(()) => self.log.note(&[SOUGHT, 1, at], &[]),
            Err(_) => self.log.note(&[SOUGHT, 0, at], &[]),
        }
        answer
    }

    fn take(&mut self, into: &mut [u8]) -> io::Result<usize> {
        let answer = read_some(&mut self.file, into);
        match answer {
            Ok(n) => self.log.note(&[GAVE, 1], &into[..n]),
            Err(_) => self.log.note(&[GAVE, 0], &[]),
        }
        answer
    }

    fn fill(&mut self, into: &mut [u8]) -> io::Result<()> {
        let answer = self.file.read_exact(into);
        match answer {
            Ok(()) => self.log.note(&[GAVE, 1], into),
            Err(_) => self.log.note(&[GAVE, 0], into),
        }
        answer
    }

    fn put(&mut self, from: &[u8]) -> io::Result<()> {
        let answer = self.file.write_all(from);
        match answer {
            Ok(()) => self.log.note(&[WROTE, 1], from),
            Err(_) => self.log.note(&[WROTE, 0], from),
        }
        answer
    }

    fn sync(&mut self) -> io::Result<()> {
        let answer = self.file.sync_all();
        match answer {
            Ok(()) => self.log.note(&[SYNCED, 1], &[]),
            Err(_) => self.log.note(&[SYNCED, 0], &[]),
        }
        answer
    }
}

/// Moves to this byte, and nowhere else.
fn seek<F: Seek>(file: &mut F, at: u64) -> io::Result<()> {
    if file.seek(SeekFrom::Start(at))? != at {
        return Err(ErrorKind::Other.into());
    }
    Ok(())
}

// A list of the calls of a file, which only clauses read: it takes no room.

/// The calls so far, the newest first.
#[derive(Drop)]
pub(crate) struct Record {
    marker: PhantomData<u8>,
    pub(crate) ghost calls: { List FileCall },
}

impl Model for Record {
    ghost also_owns = { λ _. ftrue };
}

impl Record {
    /// No call was made.
    pub(crate) fn new() -> Record
        ensures { result.calls ≡ [] }
    {
        Record {
            marker: PhantomData,
        }
    }

    /// One call more, by its numbers and its bytes.
    pub(crate) fn note(&mut self, _numbers: &[u64], _bytes: &[u8])
        ensures { self.new.calls ≡ call_of _numbers.now _bytes.now ∷ self.old.calls }
    {}
}

// A read of a file that no signal cuts off.

/// Reads once, and again where a signal cut in. 0 is the end of the file.
pub(crate) fn read_some<F: Read>(file: &mut F, into: &mut [u8]) -> io::Result<usize>
    ensures { IfOk result (λ n. n ≤ length into.new) }
{
    for _ in 0..u64::MAX {
        match file.read(into) {
            Err(error) if error.kind() == ErrorKind::Interrupted => {}
            answer => return answer,
        }
    }
    Err(ErrorKind::Interrupted.into())
}
