//! What is known of the blocks of writesets that were met (`era_dump`, `era_invalidate`).

ghost use Rattle.std.specs.Prelude.{◌≡◌, ℕ, ◌*◌, ◌<◌, List, slice_index_or, IfErr, IfOk, IfSome, OnOk};
ghost use Rattle.pd_kinds.specs.declared.report.CheckFault.TheVariants.{Memory};
ghost use Rattle.pd_graph.specs.Marks.{values_of};
ghost use Rattle.pd_meaning_era.specs.Notes.{IsNextKnown, KnowsNothing, Knows, NotesOne, known_end as known_end_of, note_of};

use pd_graph::BlockTable;
use pd_kinds::CheckFault;
use std::alloc::{AllocError, Global};

/// An array block at one place in the array of a writeset: where the eras come from that blocks are raised to.
#[derive(Clone, Copy)]
pub(crate) struct Row {
    /// The number of the array block.
    pub(crate) block: u64,
    /// The number of its first word in its array.
    pub(crate) first: u32,
    /// Its bits count for the blocks before this one.
    pub(crate) end: u32,
    /// The era of the writeset.
    pub(crate) era: u32,
}

/// What is known of a block: it has a row, or all array blocks below it have, for the blocks before the end. Where that
/// is 0 nothing is known.
#[derive(Clone, Copy)]
pub(crate) struct ArrayNote {
    /// How the block was met: on level 0 as an array block, and else as a node, from which at most one inner edge fewer
    /// leads on than this number.
    pub(crate) level: u32,
    /// The number of its first word.
    pub(crate) first: u32,
    /// That of the word after its last one.
    pub(crate) next: u32,
    pub(crate) end: u32,
}

/// Nothing is known of a block.
const NO_NOTE: ArrayNote = ArrayNote {
    level: 0,
    first: 0,
    next: 0,
    end: 0,
};

/// The rows so far, and what is known of the blocks that they came from.
#[derive(Drop)]
pub(crate) struct Walk {
    /// No block that is known has a row of an earlier era.
    pub(crate) era: u32,
    pub(crate) notes: BlockTable<ArrayNote>,
    pub(crate) rows: Vec<Row>,
}

/// The note at a place; there is none outside of the table.
fn note_at(notes: &BlockTable<ArrayNote>, b: u64) -> ArrayNote
    ensures { result ≡ slice_index_or (values_of notes.now) b (record { level = 0; first = 0; next = 0; end = 0 }) }
{
    if b >= notes.places() as u64 {
        return NO_NOTE;
    }
    notes.get(b as usize)
}

/// Where the end is up to which a block is known, whose next word has this number: nothing of it stands past an end that
/// the block doesn't reach.
fn known_end(next: u32, end: u32) -> u32
    ensures { result ≡ known_end_of next end }
{
    if 64 * u64::from(next) < u64::from(end) {
        u32::MAX
    } else {
        end
    }
}

impl Walk {
    /// A walk that knows nothing and has no rows, over a device of so many blocks.
    pub(crate) fn start(alloc: Global, blocks: u64) -> Result<Walk, AllocError>
        ensures { IfOk result KnowsNothing }
    {
        Ok(Walk {
            era: u32::MAX,
            notes: BlockTable::new(alloc, blocks as usize, NO_NOTE)?,
            rows: Vec::new(alloc),
        })
    }

    /// The number of the word after a block, which is known to begin with this one on this level up to the end.
    pub(crate) fn next_after(&self, b: u64, level: u32, first: u32, end: u32) -> Option<u32>
        ensures { IfSome result (IsNextKnown level first end (note_of self.now b)) }
    {
        let note = note_at(&self.notes, b);
        let is_same = (note.level == level) & (note.first == first);
        if is_same & (end <= note.end) {
            Some(note.next)
        } else {
            None
        }
    }

    /// Notes a block on this level, that has its rows up to the end: the numbers of its first word and of the word after it.
    pub(crate) fn note(&mut self, b: u64, level: u32, first: u32, next: u32, end: u32)
        ensures noted { NotesOne b (record { level = level; first = first; next = next; end = known_end_of next end })
            (values_of self.old.notes) (values_of self.new.notes) }
        ensures rows { self.new.rows ≡ self.old.rows }
        ensures era { self.new.era ≡ self.old.era }
    {
        let note = ArrayNote {
            level,
            first,
            next,
            end: known_end(next, end),
        };
        if b < self.notes.places() as u64 {
            self.notes.set(b as usize, note);
        }
    }
}

/// Makes the walk ready for an era: what is known is forgotten where that is of an earlier one.
pub(crate) fn make_ready(
    alloc: Global,
    walk: &mut Walk,
    blocks: u64,
    era: u32,
) -> Result<(), CheckFault>
    ensures era { OnOk result (walk.new.era ≡ era) }
    ensures rows { OnOk result (walk.new.rows ≡ walk.old.rows) }
    ensures knows { (image : List (List ℕ)) → OnOk result (Knows image walk.old → Knows image walk.new) }
    ensures memory { IfErr result (λ fault. fault ≡ Memory) }
{
    if walk.era < era {
        walk.notes = BlockTable::new(alloc, blocks as usize, NO_NOTE)?;
    }
    walk.era = era;
    Ok(())
}
