//! The arrays of a cache, of which blocks are held side by side (`cache_repair`).

ghost use Rattle.std.specs.Prelude.{◌≡◌};
ghost use Rattle.std.specs.Option.{ForSome};
ghost use Rattle.pd_array.specs.declared.array.Word.TheVariants.{Eight, Four};

use crate::array::SavedArray;
use crate::beside::{bits_of, hint_of, hints_of, hold_some, is_dirty};
use crate::saved::Row;
use pd_array::Word;
use pd_image::{Device, Failed};
use pd_kinds::CacheSuper;
use std::alloc::{AllocError, Global};

/// The words of the mapping array, with the hints where there are any, and in version 2 the dirty bits.
#[derive(Drop)]
pub(crate) struct Arrays {
    words: SavedArray,
    hints: Option<SavedArray>,
    bits: Option<SavedArray>,
    /// The number of metadata blocks.
    nr: u64,
    ghost words_are: { (words.word ≡ Eight) × (words.nr ≡ nr) },
    ghost hints_are: { ForSome hints (λ a. (a.word ≡ Four) × (a.nr ≡ nr)) },
    ghost bits_are: { ForSome bits (λ a. (a.word ≡ Eight) × (a.nr ≡ nr)) },
}

impl Arrays {
    ghost use Rattle.std.specs.Prelude.{◌≡◌, ℕ, ◌-◌, ◌*◌, ◌<◌, ◌≤◌, ◌++◌, [], List, Some, IfOk, IfSome, OnOk, count_by, min};
    ghost use Rattle.std.specs.List.{AllByRecursion, cons_option, filter_map, range_with_len};
    ghost use Rattle.pd_kinds.specs.CacheFormat.{CacheFields};
    ghost use Rattle.pd_kinds.specs.Objects.{CountsFault};
    ghost use Rattle.pd_image.specs.Device.{IsAttached, OnlyReads};
    ghost use Rattle.pd_salvage_cache.specs.SavedCache.{FitsRow};
    ghost use Rattle.pd_salvage_cache.specs.Arrays.{HoldsKey, IsOfCache, IsReadyFor, KnowsCache, is_lost, row_held, row_of, row_with};

    /// Those of the cache with this superblock. No block is held.
    pub(crate) fn start(alloc: Global, s: &CacheSuper) -> Result<Arrays, AllocError>
        ensures knows { (image : List (List ℕ)) → IfOk result (KnowsCache image s.now) }
        ensures of { IfOk result (IsOfCache s.now) }
        ensures ready { IfOk result (IsReadyFor 0) }
    {
        let nr = s.meta_map.blocks;
        let words = SavedArray::start(alloc, nr, s.mapping_root, Word::Eight)?;
        let hints = hints_of(alloc, s)?;
        let bits = bits_of(alloc, s)?;
        Ok(Arrays {
            words,
            hints,
            bits,
            nr,
        })
    }

    /// Holds the block of this key of the mapping array, with those of the same cache blocks of the others.
    pub(crate) fn hold<D: Device>(&mut self, dev: &mut D, key: u32) -> Result<(), Failed>
        requires attached { IsAttached (D.state dev.old) }
        requires ready { IsReadyFor key self.old }
        requires within { self.old.nr ≤ (D.state dev.old).blocks }
        ensures knows { OnOk result (IfSome (D.state dev.old).held (λ image. (fields : CacheFields)
            → KnowsCache image fields self.old → KnowsCache image fields self.new)) }
        ensures of { (fields : CacheFields) → IsOfCache fields self.old → IsOfCache fields self.new }
        ensures holds { OnOk result (HoldsKey key self.new) }
        ensures kept { OnlyReads (D.state dev.old) (D.state dev.new) }
        ensures faults { CountsFault result (D.state dev.old).faults (D.state dev.new).faults }
    {
        self.words.hold(dev, key)?;
        hold_some(&mut self.hints, dev, key / 2)?;
        hold_some(&mut self.bits, dev, key / 64)
    }

    /// Adds the rows of the cache blocks below `end` of the key that is held.
    pub(crate) fn add_rows(&self, rows: &mut Vec<Row>, key: u32, end: u32) -> Result<(), AllocError>
        requires { 509 * key < end }
        ensures rows { OnOk result (rows.new.items
            ≡ rows.old.items ++ filter_map (row_held self.now) (range_with_len (509 * key) (min 509 (end - 509 * key)))) }
        ensures fit { OnOk result (AllByRecursion FitsRow
            (filter_map (row_held self.now) (range_with_len (509 * key) (min 509 (end - 509 * key))))) }
    {
        let first = 509 * key;
        let number = self.words.count().min((end - first) as usize);
        for i in 0..number {
            match self.words.word(i) {
                Some(word) => self.add_row(rows, word, first + i as u32)?,
                None => {}
            }
        }
        Ok(())
    }

    /// Of how many cache blocks below `end` of the key that is held the mapping word is lost.
    pub(crate) fn lost(&self, key: u32, end: u32) -> u32
        requires { 509 * key < end }
        ensures lost { result ≡ count_by (is_lost self.now) (range_with_len (509 * key) (min 509 (end - 509 * key))) }
        ensures few { result ≤ min 509 (end - 509 * key) }
    {
        let number = (end - 509 * key).min(509);
        let known = self.words.count().min(number as usize);
        number - known as u32
    }

    /// Adds the row of a cache block whose key is held, where this word is valid.
    fn add_row(&self, rows: &mut Vec<Row>, word: u64, block: u32) -> Result<(), AllocError>
        ensures row { OnOk result (rows.new.items ≡ rows.old.items ++ cons_option (row_of self.now block (Some word)) []) }
        ensures fits { OnOk result (AllByRecursion FitsRow (cons_option (row_of self.now block (Some word)) [])) }
    {
        if word % 2 == 1 {
            rows.push(self.row(word, block))?;
        }
        Ok(())
    }

    /// The row of such a block.
    fn row(&self, word: u64, block: u32) -> Row
        ensures row { result ≡ row_with self.now block word }
        ensures fits { FitsRow result }
    {
        Row {
            block,
            dirty: is_dirty(&self.bits, word, block),
            hint: hint_of(&self.hints, block),
            origin: word >> 16,
        }
    }
}
