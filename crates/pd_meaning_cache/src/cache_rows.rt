//! A cursor over the valid mappings of a cache that passes array blocks without any (`cache_dump`, `cache_writeback`).

ghost use Rattle.std.specs.Prelude.{◌≡◌, ℕ, ◌<◌, List, IfOk, IfSome, OnOk, ◌≤◌, []};
ghost use Rattle.pd_kinds.specs.Objects.{CountsFault};
ghost use Rattle.pd_kinds.specs.declared.kind.Kind.TheVariants.{Cache};
ghost use Rattle.pd_kinds.specs.declared.kind.Stage.TheVariants.{Whole};
ghost use Rattle.pd_kinds.specs.Image.{HasBytes};
ghost use Rattle.pd_kinds.specs.Stages.{faults};
ghost use Rattle.pd_image.specs.Device.{IsAttached, OnlyReads};
ghost use Rattle.pd_tree.specs.Stack.{IsNext};
ghost use Rattle.pd_tree.specs.Cursor.{cursor_number};
ghost use Rattle.pd_meaning_cache.specs.Rows.{rows_below, words_below, GivesCache};
ghost use Rattle.pd_meaning_cache.specs.Sides.{GivesWord, Knows, rows_ahead, rows_ahead_number};
ghost use Rattle.pd_meaning_cache.specs.SkippedWords.{TakesFirst, block_words, EntersBlock, GoesOn, KnowsIdle, map_words};

use crate::block_words::{BlockWords, Lengths};
use crate::sides::Sides;
use pd_array::Word;
use pd_image::{Device, Failed};
use pd_kinds::CacheSuper;
use pd_tree::{
    Cursor, array_cursors_give_words, formats_have_trees, reached_trees_are_sound,
    superblocks_lead_to_reached_roots,
};
use pd_value::Root;
use std::alloc::{AllocError, Global};

/// The valid mappings of a cache, by ascending block of the cache.
///
/// Each block of the mapping array is read and noted once where it has no valid mapping: where it comes again it is passed
/// unread. Hints and dirty bits are looked at only beside valid mappings; what stands between is skipped by array blocks,
/// whose lengths are noted when they are first read. The notes hold over one image alone.
#[derive(Drop)]
pub struct CacheRows {
    words: MapWords,
    sides: Sides,
}

impl CacheRows {
    /// A cursor before the first mapping of the cache with this superblock, over a device of so many blocks. It takes all
    /// memory that the cursor needs: that of at most three cursors over arrays, and two bytes for each block of the device
    /// and each of these arrays, which are used as far as the last block that is noted.
    ///
    /// Fails with `AllocError` where that memory wasn't found.
    pub fn start(alloc: Global, blocks: u64, s: &CacheSuper) -> Result<CacheRows, AllocError>
        ensures rows { (image : List (List ℕ)) → IfOk result (λ rows. rows_ahead image rows ≡ rows_below image s.now) }
        ensures knows { (image : List (List ℕ)) → IfOk result (λ rows. Knows image rows) }
    {
        let words = MapWords::start(alloc, blocks, s.mapping_root)?;
        let sides = Sides::start(alloc, blocks, s)?;
        Ok(CacheRows { words, sides })
    }

    /// The next word of a block that may map something.
    fn next_word<D: Device>(&mut self, dev: &mut D) -> Result<Option<u64>, Failed>
        requires attached { IsAttached (D.state dev.old) }
        ensures gives { IfOk result (λ word. IfSome (D.state dev.old).held
            (λ image. Knows image self.old → GivesWord image word self.old self.new)) }
        ensures number { IfOk result (λ word. IfSome word (λ _. rows_ahead_number self.new < rows_ahead_number self.old)) }
        ensures kept { OnlyReads (D.state dev.old) (D.state dev.new) }
        ensures faults { CountsFault result (D.state dev.old).faults (D.state dev.new).faults }
    {
        loop {
            let word = self.words.take();
            if word.is_some() {
                return Ok(word);
            }
            let passed = self.words.go_on(dev)?;
            match passed {
                Some(n) => self.sides.skip(dev, n)?,
                None => return Ok(None),
            }
        }
    }

    /// The next mapping, or `None` after the last one. It takes no memory.
    ///
    /// Over any device and cache the cursor's number falls with each mapping.
    ///
    /// Fails with `Failed` where a read failed; then nothing is said of what is left.
    pub fn next<D: Device>(&mut self, dev: &mut D) -> Result<Option<CacheRow>, Failed>
        requires attached { IsAttached (D.state dev.old) }
        requires knows { IfSome (D.state dev.old).held (λ image. Knows image self.old) }
        ensures next { IfOk result (λ row. IfSome (D.state dev.old).held
            (λ image. IsNext row (rows_ahead image self.old) (rows_ahead image self.new))) }
        ensures knows { OnOk result (IfSome (D.state dev.old).held (λ image. Knows image self.new)) }
        ensures number { IfOk result (λ row. IfSome row (λ _. rows_ahead_number self.new < rows_ahead_number self.old)) }
        ensures kept { OnlyReads (D.state dev.old) (D.state dev.new) }
        ensures faults { CountsFault result (D.state dev.old).faults (D.state dev.new).faults }
    {
        while let Some(word) = self.next_word(dev)? {
            let row = self.sides.give(dev, word)?;
            if row.is_some() {
                return Ok(row);
            }
        }
        Ok(None)
    }
}

// A row of a cache (`cache_dump`, `cache_writeback`).

/// A valid mapping of a cache.
#[derive(Clone, Copy, Debug, PartialEq, Eq)]
pub struct CacheRow {
    /// The block of the cache, from 0.
    pub block: u64,
    /// The block of the origin that it holds, below 2^48.
    pub origin: u64,
    /// Whether it has data that the origin doesn't have.
    pub dirty: bool,
    /// What the policy noted of it; 0 where there are no hints.
    pub hint: u32,
}

// The words of a cache's mapping array, without those of blocks that map nothing (`cache_dump`, `cache_writeback`).

/// The words that are left of a mapping array.
#[derive(Drop)]
pub(crate) struct MapWords {
    entries: Cursor<Root>,
    /// The block that words are taken from.
    here: BlockWords,
    /// The lengths of blocks of which no word maps a block.
    idle: Lengths,
}

impl MapWords {
    /// The words of the array with this root, over a device of so many blocks. It takes all memory that they need.
    pub(crate) fn start(alloc: Global, blocks: u64, root: u64) -> Result<MapWords, AllocError>
        ensures words { (image : List (List ℕ)) → IfOk result (λ words. map_words image words ≡ words_below 8 image root) }
        ensures knows { (image : List (List ℕ)) → IfOk result (λ words. KnowsIdle image words) }
    {
        let entries = Cursor::start(alloc, root)?;
        let idle = Lengths::none(alloc, blocks)?;
        Ok(MapWords {
            entries,
            here: BlockWords::none(Word::Eight),
            idle,
        })
    }

    /// Takes the next word of the block that words are taken from.
    #[inline]
    pub(crate) fn take(&mut self) -> Option<u64>
        ensures takes { TakesFirst 8 result self.old.here self.new.here }
        ensures idle { self.new.idle ≡ self.old.idle }
        ensures entries { self.new.entries ≡ self.old.entries }
    {
        self.here.take(Word::Eight)
    }

    /// Goes into a block, or past it where none of its words maps a block: how many words it went past.
    fn enter<D: Device>(&mut self, dev: &mut D, b: u64) -> Result<u64, Failed>
        requires attached { IsAttached (D.state dev.old) }
        requires none { block_words 8 self.old.here ≡ [] }
        ensures enters { IfOk result (λ n. IfSome (D.state dev.old).held
            (λ image. KnowsIdle image self.old → EntersBlock image b n self.new)) }
        ensures few { IfOk result (λ n. n ≤ 65535) }
        ensures entries { self.new.entries ≡ self.old.entries }
        ensures kept { OnlyReads (D.state dev.old) (D.state dev.new) }
        ensures faults { CountsFault result (D.state dev.old).faults (D.state dev.new).faults }
    {
        if let Some(length) = self.idle.get(b) {
            return Ok(length);
        }
        self.here.read(dev, b, Word::Eight)?;
        if self.here.has_valid() {
            return Ok(0);
        }
        let length = self.here.left(Word::Eight);
        self.here.clear(Word::Eight);
        self.idle.note(b, length);
        Ok(length as u64)
    }

    /// Goes on to the next block: how many words it went past; `None` after the last one.
    pub(crate) fn go_on<D: Device>(&mut self, dev: &mut D) -> Result<Option<u64>, Failed>
        requires attached { IsAttached (D.state dev.old) }
        requires none { block_words 8 self.old.here ≡ [] }
        ensures goes_on { IfOk result (λ n. IfSome (D.state dev.old).held
            (λ image. KnowsIdle image self.old → GoesOn image n self.old self.new)) }
        ensures few { IfOk result (λ n. IfSome n (λ n. n ≤ 65535)) }
        ensures number { IfOk result (λ n. IfSome n (λ _. cursor_number 8 self.new.entries < cursor_number 8 self.old.entries)) }
        ensures kept { OnlyReads (D.state dev.old) (D.state dev.new) }
        ensures faults { CountsFault result (D.state dev.old).faults (D.state dev.new).faults }
    {
        let entry = self.entries.next(dev)?;
        match entry {
            Some((_, root)) => {
                let n = self.enter(dev, root.0)?;
                Ok(Some(n))
            }
            None => Ok(None),
        }
    }
}

// What the lists over bytes come to for a cache without faults: its meaning (`cache_dump`, `cache_writeback`).

/// In a cache without faults up to the stage Whole the rows are the entries of its meaning.
pub fn rows_are_the_entries()
    ensures { (image : List (List ℕ)) → HasBytes image → faults Cache Whole image ≡ [] → GivesCache image }
{
    formats_have_trees();
    superblocks_lead_to_reached_roots();
    reached_trees_are_sound();
    array_cursors_give_words();
}
