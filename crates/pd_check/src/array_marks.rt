//! The table of such marks, by block number.
//! How full the blocks of an array are that stand below a node.
//! What learns of a walk how many words each block of arrays has.

ghost use Rattle.std.specs.Prelude.{◌≡◌, [], ◌∷◌, IfOk};
ghost use Rattle.pd_kinds.specs.Array.{max_words, word_count};
ghost use Rattle.pd_array.specs.Word.{size_of};
ghost use Rattle.pd_check.specs.Arrays.{fits as fits_of, join as join_of, mark_of, no_mark, places_of};

use pd_array::{Word, array_len};
use pd_graph::{BlockTable, Format, Watch};
use pd_kinds::{Block, Rules};
use pd_layouts::{Layout, Table};
use std::alloc::{AllocError, Global};
use std::marker::PhantomData;

/// A mark for each of so many blocks, in six bytes: of a node of an array's tree, how full the blocks of the array
/// are that stand below it, and of a block of an array, how many words it has.
#[derive(Drop)]
pub struct ArrayMarks {
    marks: BlockTable<ArrayMark>,
}

impl ArrayMarks {
    ghost use Rattle.std.specs.Prelude.{◌≡◌, ℕ, ◌<◌, ◌==◌, if◌then◌else◌, IfOk};
    ghost use Rattle.pd_check.specs.Arrays.{mark_at, places_of};

    /// Marks for so many blocks, each that of no blocks below. It reserves all the memory of the marks; want of it is
    /// the only error.
    pub fn new(alloc: Global, nr: u64) -> Result<ArrayMarks, AllocError>
        ensures { IfOk result (λ marks. places_of marks ≡ nr) }
    {
        let marks = BlockTable::new(alloc, nr as usize, ArrayMark::none())?;
        Ok(ArrayMarks { marks })
    }

    /// The mark of block b, and that of no blocks where there is no block b.
    pub(crate) fn get(&self, b: u64) -> ArrayMark
        ensures { result ≡ mark_at self.now b }
    {
        let b = b as usize;
        if b < self.marks.places() {
            self.marks.get(b)
        } else {
            ArrayMark::none()
        }
    }

    /// Replaces the mark of block b.
    pub(crate) fn set(&mut self, b: u64, mark: ArrayMark)
        requires { b < places_of self.old }
        ensures places { places_of self.new ≡ places_of self.old }
        ensures marks { (c : ℕ) → mark_at self.new c ≡ (if c == b then mark else mark_at self.old c) }
    {
        self.marks.set(b as usize, mark);
    }
}

/// How full the blocks of an array are that stand one after another.
#[derive(Clone, Copy, Debug, PartialEq, Eq)]
pub struct ArrayMark {
    /// Whether each block but the last is full.
    pub full: bool,
    /// How many words the last block has, where there is one.
    pub last: Option<u16>,
}

impl ArrayMark {
    /// The mark of no blocks.
    pub fn none() -> ArrayMark
        ensures { result ≡ no_mark }
    {
        ArrayMark {
            full: true,
            last: None,
        }
    }

    /// The mark of one block, whose words have this size.
    pub(crate) fn of(block: &Block, word: Word) -> ArrayMark
        ensures { result ≡ mark_of (max_words (size_of word)) (word_count (size_of word) block.now.0 ∷ []) }
    {
        ArrayMark {
            full: true,
            last: Some(array_len(block, word) as u16),
        }
    }

    /// The mark of these blocks and the later ones behind them, where a full block has so many words.
    pub(crate) fn join(self, later: ArrayMark, most: usize) -> ArrayMark
        ensures { result ≡ join_of most self later }
    {
        ArrayMark {
            full: self.full & fits(self.last, later.last, most) & later.full,
            last: later.last.or(self.last),
        }
    }
}

/// Whether the last block before others is full: there may be none, or no others.
fn fits(before: Option<u16>, behind: Option<u16>, most: usize) -> bool
    ensures { result ≡ fits_of most before behind }
{
    match (before, behind) {
        (Some(last), Some(_)) => usize::from(last) == most,
        _ => true,
    }
}

/// The marks of a format with this table: a walk that shows it each block marks those of arrays.
#[derive(Drop)]
pub struct ArrayMemory<T> {
    /// The marks.
    pub marks: ArrayMarks,
    table: PhantomData<T>,
}

impl<T: Table> ArrayMemory<T> {
    /// Marks for so many metadata blocks: six bytes for each. Want of it is the only error.
    pub fn new(alloc: Global, nr: u64) -> Result<ArrayMemory<T>, AllocError>
        ensures { IfOk result (λ room. places_of room.marks ≡ nr) }
    {
        let marks = ArrayMarks::new(alloc, nr)?;
        Ok(ArrayMemory {
            marks,
            table: PhantomData,
        })
    }
}

impl<T: Table> Watch for ArrayMemory<T> {
    ghost use Rattle.pd_check.specs.Arrays.{AreAllShown};
    ghost use Rattle.pd_check.specs.Arrays.{HasMarks, shown_same};

    ghost has_room = { λ room graph. HasMarks T.ROLES graph room.marks };

    ghost has_seen = { λ room graph image pairs. AreAllShown (T.layout 0 0) image pairs room.marks };

    ghost same = { λ room graph image pairs others same. shown_same (T.layout 0 0) image pairs others room.marks same };

    fn see<F: Format>(&mut self, _format: &F, role: u8, b: u64, block: &Block, _broken: &Rules) {
        if let Layout::Array(word) = T::layout(role, 0) {
            self.marks.set(b, ArrayMark::of(block, word));
        }
    }
}
