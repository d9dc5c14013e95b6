//! The texts of the leaves that were met again (`thin_dump`).

use crate::leaf_text::LeafText;
use pd_kinds::Block;
use pd_node::is_inner;
use std::alloc::{AllocError, Global};

/// How many bytes the kept texts take at the most, in all: 16 MiB.
const MOST_BYTES: usize = 16777216;

/// How many bytes a text takes at the most: its lines, and what else is kept of it.
const TEXT_BYTES: usize = 16384 + ENTRY_BYTES;

/// How many bytes are counted for a text beside its lines.
const ENTRY_BYTES: usize = 192;

/// The number of a block that wasn't met as a leaf, of one that was met once, and of one that was met again.
const UNMET: u32 = 0;

const MET: u32 = 1;

const MET_AGAIN: u32 = 2;

/// The number of the block of the first text. Each other text has the next one.
const FIRST_TEXT: u32 = 3;

/// The texts of leaves that were met again, each of them once. They take 16 MiB at the most, and 4 bytes a metadata block.
///
/// The numbers only say where to look: a text tells which block it is of.
#[derive(Drop)]
pub(crate) struct LeafTexts {
    alloc: Global,
    /// By each metadata block one of the numbers above.
    numbers: Vec<u32>,
    texts: Vec<LeafText>,
    /// How many bytes more may be kept.
    room: usize,
}

impl LeafTexts {
    ghost use Rattle.std.specs.Prelude.{◌≡◌, [], ℕ, List, false, IfSome};
    ghost use Rattle.pd_kinds.specs.Node.{is_inner_node};
    ghost use Rattle.pd_pool_dumps.specs.LeafText.{AreKept, IsKept, IsTextOf, leaf_mappings};

    /// No leaf was met, of so many metadata blocks.
    pub(crate) fn new(alloc: Global, blocks: u64) -> Result<LeafTexts, AllocError> {
        let mut numbers = Vec::new(alloc);
        numbers.resize(blocks as usize, UNMET)?;
        Ok(LeafTexts {
            alloc,
            numbers,
            texts: Vec::new(alloc),
            room: MOST_BYTES,
        })
    }

    /// Forgets all texts.
    pub(crate) fn clear(&mut self)
        ensures { self.new.texts.items ≡ [] }
    {
        self.texts.clear();
        self.room = MOST_BYTES;
    }

    /// The text of the leaf in a block, if it is kept.
    pub(crate) fn find(&self, b: u64) -> Option<&LeafText>
        ensures { (image : List (List ℕ)) → AreKept image self.now.texts.items → IfSome result (λ text. IsKept image b text.now) }
    {
        let number = match self.numbers.get(b as usize) {
            Some(number) => *number,
            None => UNMET,
        };
        if number < FIRST_TEXT {
            return None;
        }
        let place = (number - FIRST_TEXT) as usize;
        if place >= self.texts.len() {
            return None;
        }
        let text = &self.texts[place];
        if text.block == b { Some(text) } else { None }
    }

    /// Meets the leaf in a block: whether it is met for the second time, and there is room for its text.
    fn meet(&mut self, b: u64) -> bool
        ensures { self.new.texts ≡ self.old.texts }
    {
        let place = b as usize;
        if (place >= self.numbers.len()) | (self.room < TEXT_BYTES) {
            return false;
        }
        let number = self.numbers[place];
        if number < MET_AGAIN {
            self.numbers[place] = number + 1;
        }
        number == MET
    }

    /// Meets a node that was read, and makes its text, if it is a leaf which is met for the second time.
    pub(crate) fn make(&mut self, b: u64, block: &Block) -> Option<LeafText>
        ensures texts { self.new.texts ≡ self.old.texts }
        ensures block { IfSome result (λ text. text.block ≡ b) }
        ensures leaf { IfSome result (λ _. is_inner_node block.now.0 ≡ false) }
        ensures text { IfSome result (λ text. IsTextOf (leaf_mappings block.now.0) text.first text.later) }
    {
        if is_inner(block) {
            return None;
        }
        if !self.meet(b) {
            return None;
        }
        LeafText::of(self.alloc, b, block)
    }

    /// Keeps a text, if memory is found for it.
    pub(crate) fn keep(&mut self, text: LeafText)
        ensures { (image : List (List ℕ)) → AreKept image self.old.texts.items
            → IsKept image text.block text → AreKept image self.new.texts.items }
    {
        let place = text.block as usize;
        let taken = text.len().saturating_add(ENTRY_BYTES);
        let number = match u32::try_from(self.texts.len()) {
            Ok(number) => number.saturating_add(FIRST_TEXT),
            Err(_) => return,
        };
        if self.texts.push(text).is_err() {
            return;
        }
        self.room = self.room.saturating_sub(taken);
        if place < self.numbers.len() {
            self.numbers[place] = number;
        }
    }
}
