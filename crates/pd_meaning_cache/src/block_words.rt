//! The block of an array that words are taken from (`cache_dump`, `cache_writeback`).

ghost use Rattle.std.specs.Prelude.{◌≡◌, ◌<◌, ◌≤◌, ◌^◌, [], drop, length, slice_index, IfSome, OnOk};
ghost use Rattle.std.specs.List.{list_any};
ghost use Rattle.pd_kinds.specs.Objects.{CountsFault};
ghost use Rattle.pd_kinds.specs.Graph.{block_at};
ghost use Rattle.pd_kinds.specs.Whole.{is_valid_word};
ghost use Rattle.pd_array.specs.Word.{size_of};
ghost use Rattle.pd_image.specs.Device.{IsAttached, OnlyReads};
ghost use Rattle.pd_tree.specs.Cursor.{words_from};
ghost use Rattle.pd_meaning_cache.specs.SkippedWords.{block_words, TakesFirst};

use pd_array::{Word, array_len, array_word};
use pd_graph::BlockTable;
use pd_image::{Device, Failed};
use pd_kinds::{BLOCK_SIZE, Block, MAX_META_BLOCKS};
use std::alloc::{AllocError, Global};

/// A block of an array, and its first word that is left.
#[derive(Clone, Copy)]
pub(crate) struct BlockWords {
    pub(crate) block: Block,
    pub(crate) next: usize,
}

impl BlockWords {
    /// No words.
    pub(crate) fn none(word: Word) -> BlockWords
        ensures { block_words (size_of word) result ≡ [] }
    {
        BlockWords {
            block: Block::zeros(),
            next: BLOCK_SIZE,
        }
    }

    /// Leaves no words.
    pub(crate) fn clear(&mut self, word: Word)
        ensures { block_words (size_of word) self.new ≡ [] }
    {
        self.next = BLOCK_SIZE;
    }

    /// How many words are left.
    pub(crate) fn left(&self, word: Word) -> usize
        ensures number { result ≡ length (block_words (size_of word) self.now) }
        ensures few { result ≤ 4072 }
    {
        array_len(&self.block, word).saturating_sub(self.next)
    }

    /// The first word that is left.
    pub(crate) fn first(&self, word: Word) -> u64
        requires { 0 < length (block_words (size_of word) self.now) }
        ensures first { result ≡ slice_index (block_words (size_of word) self.now) 0 }
        ensures fits { result < 256 ^ size_of word }
    {
        array_word(&self.block, word, self.next)
    }

    /// Skips so many words.
    pub(crate) fn skip(&mut self, word: Word, n: usize)
        requires { n ≤ length (block_words (size_of word) self.old) }
        ensures { block_words (size_of word) self.new ≡ drop n (block_words (size_of word) self.old) }
    {
        self.next += n;
    }

    /// Takes the next word.
    pub(crate) fn take(&mut self, word: Word) -> Option<u64>
        ensures { TakesFirst (size_of word) result self.old self.new }
    {
        let i = self.next;
        if i < array_len(&self.block, word) {
            self.next = i + 1;
            Some(array_word(&self.block, word, i))
        } else {
            None
        }
    }

    /// Whether a word of eight bytes that is left maps a block.
    pub(crate) fn has_valid(&self) -> bool
        ensures { result ≡ list_any is_valid_word (block_words 8 self.now) }
    {
        let end = array_len(&self.block, Word::Eight);
        let mut i = self.next;
        while i < end {
            if array_word(&self.block, Word::Eight, i) % 2 == 1 {
                return true;
            }
            i += 1;
        }
        false
    }

    /// Reads the block, so that its words are left. A block outside of the device has none.
    pub(crate) fn read<D: Device>(&mut self, dev: &mut D, b: u64, word: Word) -> Result<(), Failed>
        requires { IsAttached (D.state dev.old) }
        ensures words { OnOk result (IfSome (D.state dev.old).held
            (λ image. block_words (size_of word) self.new ≡ words_from (size_of word) (block_at image b) 0)) }
        ensures kept { OnlyReads (D.state dev.old) (D.state dev.new) }
        ensures faults { CountsFault result (D.state dev.old).faults (D.state dev.new).faults }
    {
        if b < dev.blocks() {
            dev.read(b, &mut self.block)?;
            self.next = 0;
        } else {
            self.next = BLOCK_SIZE;
        }
        Ok(())
    }
}

// The lengths of array blocks, noted by block (`cache_dump`, `cache_writeback`).

/// The lengths of array blocks in words, as far as they are noted. Two bytes a block of the device are reserved, for at most
/// `MAX_META_BLOCKS` blocks, and used as far as the last block that was noted.
#[derive(Drop)]
pub(crate) struct Lengths {
    /// One more than a block's length; 0 where nothing is noted.
    pub(crate) kept: BlockTable<u16>,
}

impl Lengths {
    ghost use Rattle.std.specs.Prelude.{◌≡◌, ℕ, ◌<◌, ◌≤◌, suc, IfOk, IfSome};
    ghost use Rattle.pd_meaning_cache.specs.SkippedWords.{Notes, noted};

    /// Nothing is noted, of a device of so many blocks.
    pub(crate) fn none(alloc: Global, blocks: u64) -> Result<Lengths, AllocError>
        ensures { IfOk result (λ lengths. (b : ℕ) → noted lengths b ≡ 0) }
    {
        let places = blocks.min(MAX_META_BLOCKS);
        Ok(Lengths {
            kept: BlockTable::new(alloc, places as usize, 0)?,
        })
    }

    /// The length of block b, where it is noted.
    pub(crate) fn get(&self, b: u64) -> Option<u64>
        ensures noted { IfSome result (λ length. noted self.now b ≡ suc length) }
        ensures few { IfSome result (λ length. length ≤ 65535) }
    {
        if b >= self.kept.places() as u64 {
            return None;
        }
        let kept = self.kept.get(b as usize);
        if kept == 0 {
            None
        } else {
            Some(kept as u64 - 1)
        }
    }

    /// Notes the length of block b, if there is a place for it.
    pub(crate) fn note(&mut self, b: u64, length: usize)
        requires { length < 65535 }
        ensures { Notes b length self.old self.new }
    {
        if b < self.kept.places() as u64 {
            self.kept.set(b as usize, length as u16 + 1);
        }
    }
}
