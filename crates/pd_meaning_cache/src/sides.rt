//! What stands beside the words of a mapping array, where many may be skipped (`cache_dump`, `cache_writeback`).

ghost use Rattle.std.specs.Prelude.{◌≡◌, ℕ, ◌^◌, ◌<◌, ◌≤◌, List, IfOk, IfSome, OnOk};
ghost use Rattle.pd_kinds.specs.Objects.{CountsFault};
ghost use Rattle.pd_image.specs.Device.{IsAttached, OnlyReads};
ghost use Rattle.pd_meaning_cache.specs.Rows.{block_after, dirty_below, hints_below, rows_of};
ghost use Rattle.pd_meaning_cache.specs.Sides.{Gives, IsFirstDirty, IsFirstHint, IsRow, KnowsBits, KnowsHints, KnowsSides};
ghost use Rattle.pd_meaning_cache.specs.Sides.{SkipsDirty, SkipsHints, SkipsSides, bits_ahead, hints_ahead, rows_with};

use crate::cache_rows::CacheRow;
use crate::skipped_words::{SkippedBits, SkippedHints};
use pd_image::{Device, Failed};
use pd_kinds::CacheSuper;
use std::alloc::{AllocError, Global};

/// The hints of the cache with this superblock, over a device of so many blocks.
fn hints_of(alloc: Global, blocks: u64, s: &CacheSuper) -> Result<Option<SkippedHints>, AllocError>
    ensures hints { (image : List (List ℕ)) → IfOk result (λ hints. hints_ahead image hints ≡ hints_below image s.now) }
    ensures knows { (image : List (List ℕ)) → IfOk result (λ hints. KnowsHints image hints) }
{
    if s.hint_size == 4 && s.hint_root != 0 {
        Ok(Some(SkippedHints::start(alloc, blocks, s.hint_root)?))
    } else {
        Ok(None)
    }
}

/// Its dirty bits.
fn bits_of(alloc: Global, blocks: u64, s: &CacheSuper) -> Result<Option<SkippedBits>, AllocError>
    ensures bits { (image : List (List ℕ)) → IfOk result (λ bits. bits_ahead image bits ≡ dirty_below image s.now) }
    ensures knows { (image : List (List ℕ)) → IfOk result (λ bits. KnowsBits image bits) }
{
    if s.version == 2 {
        Ok(Some(SkippedBits::start(alloc, blocks, s.dirty_root)?))
    } else {
        Ok(None)
    }
}

/// The first hint; 0 where there is none.
fn first_hint<D: Device>(hints: &mut Option<SkippedHints>, dev: &mut D) -> Result<u32, Failed>
    requires attached { IsAttached (D.state dev.old) }
    ensures first { IfOk result (λ hint. IfSome (D.state dev.old).held
        (λ image. KnowsHints image hints.old → IsFirstHint image hint hints.old hints.new)) }
    ensures kept { OnlyReads (D.state dev.old) (D.state dev.new) }
    ensures faults { CountsFault result (D.state dev.old).faults (D.state dev.new).faults }
{
    match hints {
        Some(hints) => hints.first(dev),
        None => Ok(0),
    }
}

/// Skips so many hints, where there are any.
fn skip_hints<D: Device>(
    hints: &mut Option<SkippedHints>,
    dev: &mut D,
    n: u64,
) -> Result<(), Failed>
    requires attached { IsAttached (D.state dev.old) }
    requires few { n ≤ 2 ^ 32 }
    ensures skips { OnOk result (IfSome (D.state dev.old).held
        (λ image. KnowsHints image hints.old → SkipsHints image n hints.old hints.new)) }
    ensures kept { OnlyReads (D.state dev.old) (D.state dev.new) }
    ensures faults { CountsFault result (D.state dev.old).faults (D.state dev.new).faults }
{
    match hints {
        Some(hints) => hints.skip(dev, n),
        None => Ok(()),
    }
}

/// Whether the next block is dirty: by the first bit where there are bits, else by its word.
fn first_dirty<D: Device>(
    bits: &mut Option<SkippedBits>,
    dev: &mut D,
    word: u64,
) -> Result<bool, Failed>
    requires attached { IsAttached (D.state dev.old) }
    ensures first { IfOk result (λ dirty. IfSome (D.state dev.old).held
        (λ image. KnowsBits image bits.old → IsFirstDirty image word dirty bits.old bits.new)) }
    ensures kept { OnlyReads (D.state dev.old) (D.state dev.new) }
    ensures faults { CountsFault result (D.state dev.old).faults (D.state dev.new).faults }
{
    match bits {
        Some(bits) => Ok(bits.first(dev)? == 1),
        None => Ok(word / 2 % 2 == 1),
    }
}

/// Skips so many dirty bits, where there are any.
fn skip_bits<D: Device>(bits: &mut Option<SkippedBits>, dev: &mut D, n: u64) -> Result<(), Failed>
    requires attached { IsAttached (D.state dev.old) }
    requires few { n ≤ 2 ^ 32 }
    ensures skips { OnOk result (IfSome (D.state dev.old).held (λ image. KnowsBits image bits.old → SkipsDirty image n bits.old bits.new)) }
    ensures kept { OnlyReads (D.state dev.old) (D.state dev.new) }
    ensures faults { CountsFault result (D.state dev.old).faults (D.state dev.new).faults }
{
    match bits {
        Some(bits) => bits.skip(dev, n),
        None => Ok(()),
    }
}

/// The number of the next word's block, with the hints and the dirty bits from it on, where there are any.
#[derive(Drop)]
pub(crate) struct Sides {
    hints: Option<SkippedHints>,
    bits: Option<SkippedBits>,
    /// It stays at 2^64 - 1.
    block: u64,
}

impl Sides {
    /// What stands beside the first word of the cache with this superblock, over a device of so many blocks. It takes all
    /// memory that is needed.
    pub(crate) fn start(alloc: Global, blocks: u64, s: &CacheSuper) -> Result<Sides, AllocError>
        ensures rows { (image : List (List ℕ)) (words : List ℕ)
            → IfOk result (λ sides. rows_with image sides words ≡ rows_of 0 words (hints_below image s.now) (dirty_below image s.now)) }
        ensures knows { (image : List (List ℕ)) → IfOk result (λ sides. KnowsSides image sides) }
    {
        let hints = hints_of(alloc, blocks, s)?;
        let bits = bits_of(alloc, blocks, s)?;
        Ok(Sides {
            hints,
            bits,
            block: 0,
        })
    }

    /// The row of a word.
    fn row<D: Device>(&mut self, dev: &mut D, word: u64) -> Result<CacheRow, Failed>
        requires attached { IsAttached (D.state dev.old) }
        ensures row { IfOk result (λ row. IfSome (D.state dev.old).held
            (λ image. KnowsSides image self.old → IsRow image word row self.old self.new)) }
        ensures block { self.new.block ≡ self.old.block }
        ensures kept { OnlyReads (D.state dev.old) (D.state dev.new) }
        ensures faults { CountsFault result (D.state dev.old).faults (D.state dev.new).faults }
    {
        let hint = first_hint(&mut self.hints, dev)?;
        let dirty = first_dirty(&mut self.bits, dev, word)?;
        Ok(CacheRow {
            block: self.block,
            origin: word >> 16,
            dirty,
            hint,
        })
    }

    /// Skips what stands beside so many words.
    pub(crate) fn skip<D: Device>(&mut self, dev: &mut D, n: u64) -> Result<(), Failed>
        requires attached { IsAttached (D.state dev.old) }
        requires few { n ≤ 2 ^ 32 }
        ensures skips { OnOk result (IfSome (D.state dev.old).held
            (λ image. KnowsSides image self.old → SkipsSides image n self.old self.new)) }
        ensures block { OnOk result (self.new.block ≡ block_after n self.old.block) }
        ensures fits { OnOk result (self.old.block < 2 ^ 64) }
        ensures kept { OnlyReads (D.state dev.old) (D.state dev.new) }
        ensures faults { CountsFault result (D.state dev.old).faults (D.state dev.new).faults }
    {
        skip_hints(&mut self.hints, dev, n)?;
        skip_bits(&mut self.bits, dev, n)?;
        self.block = self.block.saturating_add(n);
        Ok(())
    }

    /// The row of the next word, where the word maps a block.
    pub(crate) fn give<D: Device>(
        &mut self,
        dev: &mut D,
        word: u64,
    ) -> Result<Option<CacheRow>, Failed>
        requires attached { IsAttached (D.state dev.old) }
        ensures gives { IfOk result (λ row. IfSome (D.state dev.old).held
            (λ image. KnowsSides image self.old → Gives image word row self.old self.new)) }
        ensures kept { OnlyReads (D.state dev.old) (D.state dev.new) }
        ensures faults { CountsFault result (D.state dev.old).faults (D.state dev.new).faults }
    {
        if word % 2 != 1 {
            self.skip(dev, 1)?;
            return Ok(None);
        }
        let row = self.row(dev, word)?;
        self.skip(dev, 1)?;
        Ok(Some(row))
    }
}
