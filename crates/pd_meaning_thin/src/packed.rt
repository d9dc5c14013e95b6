//! A list of runs, held packed (`thin_repair`, `thin_shrink`).

ghost use Rattle.std.specs.Prelude.{◌≡◌, [], ◌∷◌, ◌++◌, length, OnOk, OnErr, MatchOption, IsTrue, ◌↔◌};
ghost use Rattle.pd_meaning_thin.specs.Packed.{runs_from};

use crate::chunks::Chunks;
use crate::joined::Run;
use std::alloc::{AllocError, Global};
use std::marker::Model;

/// The run before the first one.
const NO_RUN: Run = Run {
    virt: 0,
    target: 0,
    length: 0,
    time: 0,
};

/// Runs of mappings, held packed: 4 bytes a run where each begins close behind the one before, mostly 3 to 5 for a single block
/// right behind the one before, and at most 35. Up to 64 KiB more are allocated: a list grows as a `Vec` to 64 KiB, and from then
/// on by chunks of 64 KiB, which never move.
///
/// Any runs come back as they were put in, in that order: they need not ascend, nor mean anything.
#[derive(Drop)]
pub struct PackedRuns {
    chunks: Chunks,
    /// The last run, or `NO_RUN`.
    last: Run,
    count: usize,
}

impl Model for PackedRuns {
    ghost use Rattle.std.specs.Prelude.{List};
    ghost use Rattle.pd_meaning_thin.specs.declared.joined.Run.{Run as OneRun};
    ghost use Rattle.pd_meaning_thin.specs.Packed.{ArePacked, runs_in};

    ghost Value = { List OneRun };

    ghost view = { λ p. runs_in p.chunks };

    ghost invariant = { λ p. ArePacked p.chunks p.last p.count };
}

impl PackedRuns {
    ghost use Rattle.std.specs.List.{AllByRecursion};
    ghost use Rattle.pd_meaning_thin.specs.Packed.{IsEnd};
    ghost use Rattle.pd_meaning_thin.specs.Packed.{FitsRun};

    /// No runs. It takes no memory.
    pub fn new(alloc: Global) -> PackedRuns
        ensures { result ≡ [] }
    {
        PackedRuns {
            chunks: Chunks::new(alloc),
            last: NO_RUN,
            count: 0,
        }
    }

    /// Puts a run at the end.
    ///
    /// Fails with `AllocError` where memory for it wasn't found; then all is as before.
    pub fn push(&mut self, run: Run) -> Result<(), AllocError>
        ensures pushed { OnOk result (self.new ≡ self.old ++ run ∷ []) }
        ensures err { OnErr result (self.new ≡ self.old) }
    {
        self.chunks.put(self.last, run, self.count)?;
        self.last = run;
        self.count += 1;
        Ok(())
    }

    /// Gives back the room that no run takes, as far as memory for a smaller copy is found.
    pub fn trim(&mut self)
        ensures { self.new ≡ self.old }
    {
        self.chunks.trim();
    }

    /// How many runs there are.
    pub fn len(&self) -> usize
        ensures { result ≡ length self.now }
    {
        self.count
    }

    /// Whether there are none.
    pub fn is_empty(&self) -> bool
        ensures { IsTrue result ↔ (self.now ≡ []) }
    {
        self.count == 0
    }

    /// The place of the first run.
    pub fn first(&self) -> RunPlace
        ensures { runs_from self.now result ≡ self.now }
    {
        // For the proof alone, which sees the fields where one is named.
        let _ = &self.chunks;
        RunPlace {
            chunk: 0,
            at: 0,
            before: NO_RUN,
        }
    }

    /// The place behind the last run, from which those that are pushed later are read.
    pub fn end(&self) -> RunPlace
        ensures end { IsEnd self.now result }
        ensures fits { AllByRecursion FitsRun self.now }
    {
        RunPlace {
            chunk: self.chunks.done(),
            at: self.chunks.in_tail(),
            before: self.last,
        }
    }

    /// The run at the place, which goes on behind it; or `None` where none is left.
    pub fn next(&self, place: &mut RunPlace) -> Option<Run>
        ensures { MatchOption result ((runs_from self.now place.old ≡ []) × (place.new ≡ place.old))
            (λ run. runs_from self.now place.old ≡ run ∷ runs_from self.now place.new) }
    {
        self.chunks.next(place)
    }
}

// Places in a list of packed runs (`thin_repair`, `thin_shrink`).

/// A place in a list of packed runs, from which the next run is read: 48 bytes.
#[derive(Clone, Copy, Debug, PartialEq, Eq)]
pub struct RunPlace {
    /// The number of the chunk that it lies in.
    pub(crate) chunk: usize,
    /// How many of the chunk's bytes stand before it.
    pub(crate) at: usize,
    /// The run before it.
    pub(crate) before: Run,
}
