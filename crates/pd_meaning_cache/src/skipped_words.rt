//! The words of an array, of which many may be skipped (`cache_dump`, `cache_writeback`).

ghost use Rattle.std.specs.Prelude.{◌≡◌, ℕ, ◌^◌, ◌<◌, ◌≤◌, List, IfOk, IfSome, OnOk};
ghost use Rattle.pd_kinds.specs.Objects.{CountsFault};
ghost use Rattle.pd_array.specs.Word.{size_of};
ghost use Rattle.pd_array.specs.declared.array.Word.TheVariants.{Eight, Four};
ghost use Rattle.pd_image.specs.Device.{IsAttached, OnlyReads};
ghost use Rattle.pd_meaning_cache.specs.Rows.{words_below};
ghost use Rattle.pd_meaning_cache.specs.SkippedWords.{Enters, IsFirst, IsSkippedWhole, KnowsLengths, Skips, skipped_words};

use crate::block_words::{BlockWords, Lengths};
use pd_array::Word;
use pd_image::{Device, Failed};
use pd_tree::Cursor;
use pd_value::Root;
use std::alloc::{AllocError, Global};

/// As many words may be skipped before any is looked for.
const MOST_BEHIND: u64 = 1 << 40;

/// The words that are left of an array. Those that are skipped are looked for only when a word is wanted, and a block whose
/// length is noted is passed unread.
#[derive(Drop)]
pub(crate) struct SkippedWords {
    entries: Cursor<Root>,
    pub(crate) word: Word,
    /// The block that was read last, with the words of it that weren't passed.
    here: BlockWords,
    lengths: Lengths,
    /// How many words are still to be skipped.
    behind: u64,
}

impl SkippedWords {
    /// The words of the array with this root, over a device of so many blocks. It takes all memory that they need.
    pub(crate) fn start(
        alloc: Global,
        blocks: u64,
        root: u64,
        word: Word,
    ) -> Result<SkippedWords, AllocError>
        ensures words { (image : List (List ℕ)) → IfOk result (λ words. skipped_words image words ≡ words_below (size_of word) image root) }
        ensures knows { (image : List (List ℕ)) → IfOk result (λ words. KnowsLengths image words) }
        ensures size { IfOk result (λ words. words.word ≡ word) }
    {
        let entries = Cursor::start(alloc, root)?;
        let lengths = Lengths::none(alloc, blocks)?;
        Ok(SkippedWords {
            entries,
            word,
            here: BlockWords::none(word),
            lengths,
            behind: 0,
        })
    }

    /// How many words are to be skipped behind block b, where it is known to be skipped whole.
    fn behind_whole(&self, b: u64) -> Option<u64>
        ensures { IfSome result (λ behind. (image : List (List ℕ)) → KnowsLengths image self.now → IsSkippedWhole image b behind self.now) }
    {
        match self.lengths.get(b) {
            Some(length) => {
                if length <= self.behind {
                    Some(self.behind - length)
                } else {
                    None
                }
            }
            None => None,
        }
    }

    /// Goes into the next block, or past it where it is known to be skipped whole.
    fn enter<D: Device>(&mut self, dev: &mut D, b: u64) -> Result<(), Failed>
        requires attached { IsAttached (D.state dev.old) }
        ensures enters { OnOk result (IfSome (D.state dev.old).held
            (λ image. KnowsLengths image self.old → Enters image b self.old self.new)) }
        ensures entries { self.new.entries ≡ self.old.entries }
        ensures size { self.new.word ≡ self.old.word }
        ensures kept { OnlyReads (D.state dev.old) (D.state dev.new) }
        ensures faults { CountsFault result (D.state dev.old).faults (D.state dev.new).faults }
    {
        if let Some(behind) = self.behind_whole(b) {
            self.behind = behind;
            self.here.clear(self.word);
            return Ok(());
        }
        self.here.read(dev, b, self.word)?;
        let length = self.here.left(self.word);
        self.lengths.note(b, length);
        Ok(())
    }

    /// The first word that isn't skipped; 0 where none is left.
    pub(crate) fn first<D: Device>(&mut self, dev: &mut D) -> Result<u64, Failed>
        requires attached { IsAttached (D.state dev.old) }
        ensures first { IfOk result (λ first. IfSome (D.state dev.old).held
            (λ image. KnowsLengths image self.old → IsFirst image first self.old self.new)) }
        ensures fits { IfOk result (λ first. first < 256 ^ size_of self.old.word) }
        ensures none_behind { OnOk result (self.new.behind ≡ 0) }
        ensures size { self.new.word ≡ self.old.word }
        ensures kept { OnlyReads (D.state dev.old) (D.state dev.new) }
        ensures faults { CountsFault result (D.state dev.old).faults (D.state dev.new).faults }
    {
        loop {
            let left = self.here.left(self.word) as u64;
            if self.behind < left {
                self.here.skip(self.word, self.behind as usize);
                self.behind = 0;
                return Ok(self.here.first(self.word));
            }
            self.behind -= left;
            let entry = self.entries.next(dev)?;
            match entry {
                Some((_, root)) => self.enter(dev, root.0)?,
                None => {
                    self.here.clear(self.word);
                    self.behind = 0;
                    return Ok(0);
                }
            }
        }
    }

    /// Goes past what is skipped, where that is much.
    fn settle<D: Device>(&mut self, dev: &mut D) -> Result<(), Failed>
        requires attached { IsAttached (D.state dev.old) }
        ensures skips { OnOk result (IfSome (D.state dev.old).held
            (λ image. KnowsLengths image self.old → Skips image 0 self.old self.new)) }
        ensures few { OnOk result (self.new.behind < 2 ^ 40) }
        ensures size { self.new.word ≡ self.old.word }
        ensures kept { OnlyReads (D.state dev.old) (D.state dev.new) }
        ensures faults { CountsFault result (D.state dev.old).faults (D.state dev.new).faults }
    {
        if self.behind < MOST_BEHIND {
            return Ok(());
        }
        self.first(dev)?;
        Ok(())
    }

    /// Skips so many words.
    pub(crate) fn skip<D: Device>(&mut self, dev: &mut D, n: u64) -> Result<(), Failed>
        requires attached { IsAttached (D.state dev.old) }
        requires few { n ≤ 2 ^ 32 }
        ensures skips { OnOk result (IfSome (D.state dev.old).held
            (λ image. KnowsLengths image self.old → Skips image n self.old self.new)) }
        ensures size { self.new.word ≡ self.old.word }
        ensures kept { OnlyReads (D.state dev.old) (D.state dev.new) }
        ensures faults { CountsFault result (D.state dev.old).faults (D.state dev.new).faults }
    {
        self.settle(dev)?;
        self.behind += n;
        Ok(())
    }
}

// The dirty bits of a cache, of which many may be skipped (`cache_dump`, `cache_writeback`).

/// The bits that are left of an array of words of 64 bits, of each word the lowest bit first.
#[derive(Drop)]
pub(crate) struct SkippedBits {
    words: SkippedWords,
    /// How many bits of the first word are skipped.
    bit: u32,
    ghost eight: { words.word ≡ Eight },
    ghost within: { bit < 64 },
}

impl SkippedBits {
    ghost use Rattle.std.specs.Prelude.{◌≡◌, ℕ, ◌^◌, ◌≤◌, List, IfOk, IfSome, OnOk};
    ghost use Rattle.pd_kinds.specs.Objects.{CountsFault};
    ghost use Rattle.pd_image.specs.Device.{IsAttached, OnlyReads};
    ghost use Rattle.pd_meaning_cache.specs.Rows.{bits_below};
    ghost use Rattle.pd_meaning_cache.specs.SkippedWords.{KnowsLengths};
    ghost use Rattle.pd_meaning_cache.specs.Sides.{IsFirstBit, SkipsBits, skipped_bits};

    /// The bits of the array with this root, over a device of so many blocks. It takes all memory that they need.
    pub(crate) fn start(alloc: Global, blocks: u64, root: u64) -> Result<SkippedBits, AllocError>
        ensures bits { (image : List (List ℕ)) → IfOk result (λ bits. skipped_bits image bits ≡ bits_below image root) }
        ensures knows { (image : List (List ℕ)) → IfOk result (λ bits. KnowsLengths image bits.words) }
    {
        let words = SkippedWords::start(alloc, blocks, root, Word::Eight)?;
        Ok(SkippedBits { words, bit: 0 })
    }

    /// The first bit that isn't skipped, as 0 or 1; 0 where none is left.
    pub(crate) fn first<D: Device>(&mut self, dev: &mut D) -> Result<u64, Failed>
        requires attached { IsAttached (D.state dev.old) }
        ensures first { IfOk result (λ first. IfSome (D.state dev.old).held
            (λ image. KnowsLengths image self.old.words → IsFirstBit image first self.old self.new)) }
        ensures kept { OnlyReads (D.state dev.old) (D.state dev.new) }
        ensures faults { CountsFault result (D.state dev.old).faults (D.state dev.new).faults }
    {
        let word = self.words.first(dev)?;
        Ok((word >> self.bit) % 2)
    }

    /// Skips so many bits.
    pub(crate) fn skip<D: Device>(&mut self, dev: &mut D, n: u64) -> Result<(), Failed>
        requires attached { IsAttached (D.state dev.old) }
        requires few { n ≤ 2 ^ 32 }
        ensures skips { OnOk result (IfSome (D.state dev.old).held
            (λ image. KnowsLengths image self.old.words → SkipsBits image n self.old self.new)) }
        ensures kept { OnlyReads (D.state dev.old) (D.state dev.new) }
        ensures faults { CountsFault result (D.state dev.old).faults (D.state dev.new).faults }
    {
        let bit = self.bit as u64 + n;
        self.words.skip(dev, bit / 64)?;
        self.bit = (bit % 64) as u32;
        Ok(())
    }
}

// The hints of a cache, of which many may be skipped (`cache_dump`, `cache_writeback`).

/// The words that are left of an array of words of four bytes.
#[derive(Drop)]
pub(crate) struct SkippedHints {
    words: SkippedWords,
    ghost four: { words.word ≡ Four },
}

impl SkippedHints {
    ghost use Rattle.std.specs.Prelude.{◌≡◌, ℕ, ◌^◌, ◌≤◌, List, IfOk, IfSome, OnOk};
    ghost use Rattle.pd_kinds.specs.Objects.{CountsFault};
    ghost use Rattle.pd_image.specs.Device.{IsAttached, OnlyReads};
    ghost use Rattle.pd_meaning_cache.specs.Rows.{words_below};
    ghost use Rattle.pd_meaning_cache.specs.SkippedWords.{IsFirst, KnowsLengths, Skips, skipped_words};

    /// The words of the array with this root, over a device of so many blocks. It takes all memory that they need.
    pub(crate) fn start(alloc: Global, blocks: u64, root: u64) -> Result<SkippedHints, AllocError>
        ensures words { (image : List (List ℕ)) → IfOk result (λ hints. skipped_words image hints.words ≡ words_below 4 image root) }
        ensures knows { (image : List (List ℕ)) → IfOk result (λ hints. KnowsLengths image hints.words) }
    {
        let words = SkippedWords::start(alloc, blocks, root, Word::Four)?;
        Ok(SkippedHints { words })
    }

    /// The first hint that isn't skipped; 0 where none is left.
    pub(crate) fn first<D: Device>(&mut self, dev: &mut D) -> Result<u32, Failed>
        requires attached { IsAttached (D.state dev.old) }
        ensures first { IfOk result (λ first. IfSome (D.state dev.old).held
            (λ image. KnowsLengths image self.old.words → IsFirst image first self.old.words self.new.words)) }
        ensures kept { OnlyReads (D.state dev.old) (D.state dev.new) }
        ensures faults { CountsFault result (D.state dev.old).faults (D.state dev.new).faults }
    {
        let first = self.words.first(dev)?;
        Ok(first as u32)
    }

    /// Skips so many hints.
    pub(crate) fn skip<D: Device>(&mut self, dev: &mut D, n: u64) -> Result<(), Failed>
        requires attached { IsAttached (D.state dev.old) }
        requires few { n ≤ 2 ^ 32 }
        ensures skips { OnOk result (IfSome (D.state dev.old).held
            (λ image. KnowsLengths image self.old.words → Skips image n self.old.words self.new.words)) }
        ensures kept { OnlyReads (D.state dev.old) (D.state dev.new) }
        ensures faults { CountsFault result (D.state dev.old).faults (D.state dev.new).faults }
    {
        self.words.skip(dev, n)
    }
}
