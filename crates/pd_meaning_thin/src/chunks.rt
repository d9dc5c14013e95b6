//! The bytes of runs in chunks, so that a long list neither doubles nor moves while it grows.
//! Serves `thin_repair`, `thin_shrink`.

ghost use Rattle.std.specs.Prelude.{◌≡◌, ◌++◌, OnOk, OnErr};
ghost use Rattle.pd_meaning_thin.specs.Packed.{packed_run};

use crate::joined::Run;
use crate::packed::RunPlace;
use crate::packing::{pack_run, unpack_run};
use std::alloc::{AllocError, Global};
use std::marker::Model;
use std::mem;

/// How many bytes a chunk has room for.
const CHUNK: usize = 65536;

/// The most bytes that a run takes.
const LONGEST: usize = 35;

/// The most runs behind which a chunk is begun: no memory holds more.
const MOST_RUNS: usize = 1 << 62;

/// The bytes of runs, in chunks: each run stands in one chunk.
///
/// A chunk is done where a further run might not fit. The first chunk grows as any `Vec`, and each further one is
/// allocated whole.
#[derive(Drop)]
pub(crate) struct Chunks {
    alloc: Global,
    /// The chunks that are done.
    full: Vec<Vec<u8>>,
    /// The chunk that runs are put into.
    tail: Vec<u8>,
}

impl Model for Chunks {
    ghost use Rattle.std.specs.Prelude.{map};
    ghost use Rattle.pd_meaning_thin.specs.Packed.{ByteChunks};

    ghost Value = { ByteChunks };

    ghost view = { λ c. record { full = map (λ v. v.items) c.full.items; tail = c.tail.items } };
}

impl Chunks {
    ghost use Rattle.std.specs.Prelude.{◌≡◌, ◌+◌, ◌^◌, ◌<◌, ◌≤◌, ◌∷◌, [], length, slice_index_or, MatchOption, OnOk, OnErr};
    ghost use Rattle.pd_meaning_thin.specs.Packed.{begun, in_order, no_chunks, with_run};
    ghost use Rattle.pd_meaning_thin.specs.Packed.{runs_at};

    /// No bytes. It takes no memory.
    pub(crate) fn new(alloc: Global) -> Chunks
        ensures { result ≡ no_chunks }
    {
        Chunks {
            alloc,
            full: Vec::new(alloc),
            tail: Vec::new(alloc),
        }
    }

    /// Puts a run behind so many runs, of which `before` is the last one.
    ///
    /// Fails with `AllocError` where memory for it wasn't found; then all is as before.
    pub(crate) fn put(&mut self, before: Run, run: Run, count: usize) -> Result<(), AllocError>
        requires few { count ≤ 2 ^ 62 + length self.old.tail }
        ensures put { OnOk result (self.new ≡ with_run self.old before run) }
        ensures counted { OnOk result (count + 1 ≤ 2 ^ 62 + length self.new.tail) }
        ensures fits { OnOk result (count + 1 < 2 ^ 64) }
        ensures err { OnErr result (self.new ≡ self.old) }
    {
        if self.tail.len() > CHUNK - LONGEST {
            return self.begin(before, run, count);
        }
        add_run(&mut self.tail, before, run)
    }

    /// Puts a run into a new chunk. Want of memory leaves all as before.
    #[inline(never)]
    fn begin(&mut self, before: Run, run: Run, count: usize) -> Result<(), AllocError>
        ensures begun { OnOk result (self.new ≡ begun self.old before run) }
        ensures counted { OnOk result (count + 1 ≤ 2 ^ 62 + length self.new.tail) }
        ensures fits { OnOk result (count + 1 < 2 ^ 64) }
        ensures err { OnErr result (self.new ≡ self.old) }
    {
        if count > MOST_RUNS {
            return Err(AllocError);
        }
        let mut tail = Vec::with_capacity(self.alloc, CHUNK)?;
        pack_run(&mut tail, before, run)?;
        self.full.reserve(1)?;
        let done = mem::replace(&mut self.tail, tail);
        self.full.push_reserved(done);
        Ok(())
    }

    /// Gives back the room behind the open chunk's bytes.
    pub(crate) fn trim(&mut self)
        ensures { self.new ≡ self.old }
    {
        self.tail.shrink_to_fit();
    }

    /// How many chunks are done.
    pub(crate) fn done(&self) -> usize
        ensures { result ≡ length self.now.full }
    {
        self.full.len()
    }

    /// How many bytes the open chunk has.
    pub(crate) fn in_tail(&self) -> usize
        ensures { result ≡ length self.now.tail }
    {
        self.tail.len()
    }

    /// The bytes of the chunk with this number, of which the open one is the last.
    fn chunk(&self, number: usize) -> &[u8]
        requires { number ≤ length self.now.full }
        ensures { result.now ≡ slice_index_or (in_order self.now) number [] }
    {
        if number < self.full.len() {
            &self.full[number]
        } else {
            &self.tail
        }
    }

    /// The run at the place, which goes on behind it; or `None` where none is left.
    pub(crate) fn next(&self, place: &mut RunPlace) -> Option<Run>
        ensures { MatchOption result ((runs_at self.now place.old ≡ []) × (place.new ≡ place.old))
            (λ run. runs_at self.now place.old ≡ run ∷ runs_at self.now place.new) }
    {
        let mut at = place.at;
        for number in place.chunk..self.full.len() + 1 {
            if let Some((run, end)) = unpack_run(self.chunk(number), at, place.before) {
                *place = RunPlace {
                    chunk: number,
                    at: end,
                    before: run,
                };
                return Some(run);
            }
            at = 0;
        }
        None
    }
}

/// Puts a run behind the bytes. Want of memory leaves them as before.
fn add_run(bytes: &mut Vec<u8>, before: Run, run: Run) -> Result<(), AllocError>
    ensures added { OnOk result (bytes.new.items ≡ bytes.old.items ++ packed_run before run) }
    ensures err { OnErr result (bytes.new.items ≡ bytes.old.items) }
{
    let kept = bytes.len();
    match pack_run(bytes, before, run) {
        Ok(()) => Ok(()),
        Err(error) => {
            bytes.truncate(kept);
            Err(error)
        }
    }
}
