//! What is noted of the nodes of trees, by block number.

ghost use Rattle.std.specs.Prelude.{◌≡◌, ℕ, ◌<◌, ◌≤◌, ◌==◌, length, IfOk, if◌then◌else◌};
ghost use Rattle.pd_kinds.specs.declared.limits.TheConstants.{MAX_META_BLOCKS};
ghost use Rattle.pd_graph.specs.Marks.{values_of};

use crate::block_table::BlockTable;
use std::alloc::{AllocError, Global};

/// What is kept of a node: the least and the greatest key below it, the number of entries below it,
/// its height, and whether its own children are in range.
#[derive(Clone, Copy, Debug, PartialEq, Eq)]
pub struct Note {
    /// The least key, where there is one.
    pub least: Option<u64>,
    /// The greatest key, where there is one.
    pub greatest: Option<u64>,
    /// The number of entries of the leaves below.
    pub below: u64,
    /// How many nodes the longest way down to a leaf has: from 1, for a leaf itself, to 64 for a settled node.
    /// It is 0 where nothing is known of the node, and greater where it is too deep.
    pub height: u8,
    /// Whether the keys below each child are in the range that the node's own keys give it. Only of a settled
    /// inner node it may be false.
    pub in_range: bool,
}

/// A note as it is kept, in 32 bytes: a key that there isn't is 0.
#[derive(Clone, Copy)]
pub(crate) struct KeptNote {
    least: u64,
    greatest: u64,
    below: u64,
    height: u8,
    has_least: bool,
    has_greatest: bool,
    in_range: bool,
}

impl KeptNote {
    ghost use Rattle.pd_graph.specs.Notes.{note_of};

    /// The note as it is kept.
    pub(crate) fn of(note: Note) -> KeptNote
        ensures { note_of result ≡ note }
    {
        KeptNote {
            least: note.least.unwrap_or(0),
            greatest: note.greatest.unwrap_or(0),
            below: note.below,
            height: note.height,
            has_least: note.least.is_some(),
            has_greatest: note.greatest.is_some(),
            in_range: note.in_range,
        }
    }

    /// The note that is kept.
    pub(crate) fn note(self) -> Note
        ensures { result ≡ note_of self }
    {
        Note {
            least: self.has_least.then_some(self.least),
            greatest: self.has_greatest.then_some(self.greatest),
            below: self.below,
            height: self.height,
            in_range: self.in_range,
        }
    }
}

/// A note for each of so many blocks.
#[derive(Drop)]
pub struct Notes {
    nr: u64,
    kept: BlockTable<KeptNote>,
    ghost places: { length (values_of kept) ≡ nr },
    ghost some: { 1 ≤ nr },
    ghost few: { nr ≤ MAX_META_BLOCKS },
}

impl Notes {
    ghost use Rattle.pd_graph.specs.Notes.{size_of, note_in, no_note};

    /// Notes of so many blocks, from 1 to `MAX_META_BLOCKS`, of which nothing is known. It reserves 32 bytes a
    /// block; want of that memory is the only error.
    pub fn new(alloc: Global, nr: u64) -> Result<Notes, AllocError>
        requires some { 1 ≤ nr }
        requires few { nr ≤ MAX_META_BLOCKS }
        ensures number { IfOk result (λ notes. size_of notes ≡ nr) }
        ensures notes { IfOk result (λ notes. (b : ℕ) → note_in notes b ≡ no_note) }
    {
        let unknown = KeptNote::of(Note {
            least: None,
            greatest: None,
            below: 0,
            height: 0,
            in_range: true,
        });
        let kept = BlockTable::new(alloc, nr as usize, unknown)?;
        Ok(Notes { nr, kept })
    }

    /// The number of blocks.
    pub fn nr(&self) -> u64
        ensures number { result ≡ size_of self.now }
        ensures some { 1 ≤ result }
        ensures few { result ≤ MAX_META_BLOCKS }
    {
        self.nr
    }

    /// What is noted of block b.
    pub fn note(&self, b: u64) -> Note
        requires { b < size_of self.now }
        ensures { result ≡ note_in self.now b }
    {
        self.kept.get(b as usize).note()
    }

    /// Replaces the note of block b.
    pub fn set_note(&mut self, b: u64, note: Note)
        requires { b < size_of self.old }
        ensures notes { (c : ℕ) → note_in self.new c ≡ (if c == b then note else note_in self.old c) }
        ensures number { size_of self.new ≡ size_of self.old }
    {
        self.kept.set(b as usize, KeptNote::of(note));
    }
}
