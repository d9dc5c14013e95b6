//! Which blocks of a damaged cache are the roots of fuller mapping arrays, and which are children of others (`cache_repair`).

ghost use Rattle.std.specs.Prelude.{◌≡◌, ℕ, ◌+◌, ◌/◌, ◌^◌, ◌<◌, ◌≤◌, ◌==◌, ◌&&◌, ◌||◌, not, false, nat_lt, if◌then◌else◌};
ghost use Rattle.std.specs.Prelude.{length, map, replicate, IfOk, IfSome, OnOk, slice_index_or};
ghost use Rattle.std.specs.List.{range_with_len};
ghost use Rattle.pd_kinds.specs.Objects.{CountsFault};
ghost use Rattle.pd_image.specs.Device.{IsAttached, OnlyReads};
ghost use Rattle.pd_laid.specs.CacheRoots.{end_of_keys, has_child, known_words};
ghost use Rattle.pd_laid.specs.Salvage.{salvaged_entries};
ghost use Rattle.pd_salvage.specs.Saved.{CountsSalvage};
ghost use Rattle.pd_salvage_cache.specs.Fuller.{AreMarked, fuller_words as fuller_words_of, names_child, with_word, words_at};

use crate::array::SavedArray;
use pd_array::Word;
use pd_image::{Device, Failed};
use pd_kinds::{Block, CacheSuper};
use pd_node::{child, entries, is_inner};
use pd_salvage::{SalvageFault, SavedCursor};
use pd_value::Root;
use std::alloc::{AllocError, Global};

/// How many cache blocks have their words in one block of a mapping array.
const WORDS: u32 = 509;

/// The words that are saved of a mapping array.
#[derive(Clone, Copy)]
pub(crate) struct SavedWords {
    /// How many there are.
    number: u32,
    /// Whether they have no flags besides valid and dirty.
    are_plain: bool,
}

impl SavedWords {
    /// With one word more, where it is saved.
    fn with(self, word: Option<u64>) -> SavedWords
        requires { self.number + 1 < 2 ^ 32 }
        ensures words { result ≡ with_word self word }
        ensures few { result.number ≤ self.number + 1 }
    {
        match word {
            Some(word) => SavedWords {
                number: self.number + 1,
                are_plain: self.are_plain & (word % 65536 < 4),
            },
            None => self,
        }
    }

    /// Their number, where they are plain and more than these, and else 0.
    fn above(self, known: u32) -> u32
        ensures { result ≡ (if nat_lt known self.number && self.are_plain then self.number else 0) }
    {
        if (known < self.number) & self.are_plain {
            self.number
        } else {
            0
        }
    }
}

/// The words that are saved of the mapping array with this root.
fn saved_words<D: Device>(
    alloc: Global,
    dev: &mut D,
    s: &CacheSuper,
    root: u64,
) -> Result<SavedWords, SalvageFault>
    requires attached { IsAttached (D.state dev.old) }
    requires within { s.now.meta_map.blocks ≤ (D.state dev.old).blocks }
    ensures words { IfOk result (λ words. IfSome (D.state dev.old).held (λ image. words ≡ words_at s.now image root s.now.blocks)) }
    ensures kept { OnlyReads (D.state dev.old) (D.state dev.new) }
    ensures faults { CountsSalvage result (D.state dev.old).faults (D.state dev.new).faults }
{
    let mut array = SavedArray::start(alloc, s.meta_map.blocks, root, Word::Eight)?;
    let mut words = SavedWords {
        number: 0,
        are_plain: true,
    };
    for block in 0..s.blocks {
        array.hold(dev, block / WORDS)?;
        words = words.with(array.word((block % WORDS) as usize));
    }
    Ok(words)
}

/// The least number above all keys of the tree with this root, of a cache with so many metadata blocks.
fn end_of<D: Device>(
    cursor: &mut SavedCursor<Root>,
    dev: &mut D,
    nr: u64,
    root: u64,
) -> Result<u128, Failed>
    requires attached { IsAttached (D.state dev.old) }
    requires within { nr ≤ (D.state dev.old).blocks }
    ensures end { IfOk result (λ end. IfSome (D.state dev.old).held (λ image. end ≡ end_of_keys (salvaged_entries 8 nr image root))) }
    ensures kept { OnlyReads (D.state dev.old) (D.state dev.new) }
    ensures faults { CountsFault result (D.state dev.old).faults (D.state dev.new).faults }
{
    cursor.restart(nr, root);
    let mut end: u128 = 0;
    while let Some((key, _)) = cursor.next(dev)? {
        end = end.max(key as u128 + 1);
    }
    Ok(end)
}

/// How many blocks the mapping array of so many cache blocks has.
fn keys_of(blocks: u32) -> u32
    ensures { result ≡ (blocks + 508) / 509 }
{
    blocks.div_ceil(WORDS)
}

/// How many words the array with this root has, where it is fuller than that of which so many words are known, and else 0.
fn fuller_words<D: Device>(
    alloc: Global,
    dev: &mut D,
    s: &CacheSuper,
    cursor: &mut SavedCursor<Root>,
    root: u64,
    known: u32,
) -> Result<u32, SalvageFault>
    requires attached { IsAttached (D.state dev.old) }
    requires within { s.now.meta_map.blocks ≤ (D.state dev.old).blocks }
    ensures words { IfOk result (λ words. IfSome (D.state dev.old).held
        (λ image. known ≡ known_words s.now image → words ≡ fuller_words_of s.now image root)) }
    ensures kept { OnlyReads (D.state dev.old) (D.state dev.new) }
    ensures faults { CountsSalvage result (D.state dev.old).faults (D.state dev.new).faults }
{
    let end = end_of(cursor, dev, s.meta_map.blocks, root)?;
    if end != keys_of(s.blocks) as u128 {
        return Ok(0);
    }
    let words = saved_words(alloc, dev, s, root)?;
    Ok(words.above(known))
}

/// For each metadata block how many words are saved of the mapping array with that root, where it is fuller than the
/// superblock's, and else 0. It takes 4 bytes a metadata block, and the memory of two cursors.
pub(crate) fn fuller_blocks<D: Device>(
    alloc: Global,
    dev: &mut D,
    s: &CacheSuper,
) -> Result<Vec<u32>, SalvageFault>
    requires attached { IsAttached (D.state dev.old) }
    requires within { s.now.meta_map.blocks ≤ (D.state dev.old).blocks }
    ensures words { IfOk result (λ words. IfSome (D.state dev.old).held
        (λ image. words.items ≡ map (fuller_words_of s.now image) (range_with_len 0 s.now.meta_map.blocks))) }
    ensures number { IfOk result (λ words. length words.items ≡ s.now.meta_map.blocks) }
    ensures kept { OnlyReads (D.state dev.old) (D.state dev.new) }
    ensures faults { CountsSalvage result (D.state dev.old).faults (D.state dev.new).faults }
{
    let own = saved_words(alloc, dev, s, s.mapping_root)?;
    let mut cursor = SavedCursor::start(alloc, s.meta_map.blocks, s.mapping_root)?;
    let mut found = Vec::with_capacity(alloc, s.meta_map.blocks as usize)?;
    for root in 0..s.meta_map.blocks {
        let words = fuller_words(alloc, dev, s, &mut cursor, root, own.number)?;
        found.push(words)?;
    }
    Ok(found)
}

/// For each metadata block whether another one that has words is an inner node with this one among its children. It takes a
/// byte a metadata block.
pub(crate) fn children_of<D: Device>(
    alloc: Global,
    dev: &mut D,
    words: &[u32],
) -> Result<Vec<bool>, SalvageFault>
    requires attached { IsAttached (D.state dev.old) }
    requires within { length words.now ≤ (D.state dev.old).blocks }
    ensures marks { IfOk result (λ marks. IfSome (D.state dev.old).held
        (λ image. AreMarked image words.now (length words.now) marks.items)) }
    ensures number { IfOk result (λ marks. length marks.items ≡ length words.now) }
    ensures kept { OnlyReads (D.state dev.old) (D.state dev.new) }
    ensures faults { CountsSalvage result (D.state dev.old).faults (D.state dev.new).faults }
{
    let mut marks = no_marks(alloc, words.len())?;
    mark_all(dev, words, marks.as_mut_slice())?;
    Ok(marks)
}

/// So many blocks, of which none is marked.
fn no_marks(alloc: Global, blocks: usize) -> Result<Vec<bool>, AllocError>
    ensures { IfOk result (λ marks. marks.items ≡ replicate blocks false) }
{
    let mut marks = Vec::new(alloc);
    marks.resize(blocks, false)?;
    Ok(marks)
}

/// Marks the children of all blocks that have words.
fn mark_all<D: Device>(dev: &mut D, words: &[u32], marks: &mut [bool]) -> Result<(), Failed>
    requires attached { IsAttached (D.state dev.old) }
    requires within { length words.now ≤ (D.state dev.old).blocks }
    requires none { (c : ℕ) → slice_index_or marks.old c false ≡ false }
    ensures marks { OnOk result (IfSome (D.state dev.old).held (λ image. AreMarked image words.now (length words.now) marks.new)) }
    ensures number { length marks.new ≡ length marks.old }
    ensures kept { OnlyReads (D.state dev.old) (D.state dev.new) }
    ensures faults { CountsFault result (D.state dev.old).faults (D.state dev.new).faults }
{
    let mut block = Block::zeros();
    for place in 0..words.len() {
        if words[place] != 0 {
            mark_from(dev, &mut block, marks, place as u64)?;
        }
    }
    Ok(())
}

/// Marks the children of the block in this place, but for itself.
fn mark_from<D: Device>(
    dev: &mut D,
    block: &mut Block,
    marks: &mut [bool],
    place: u64,
) -> Result<(), Failed>
    requires attached { IsAttached (D.state dev.old) }
    requires within { place < (D.state dev.old).blocks }
    ensures marks { OnOk result (IfSome (D.state dev.old).held (λ image. (c : ℕ) → c < length marks.old
        → slice_index_or marks.new c false ≡ (slice_index_or marks.old c false || (not (place == c) && has_child image place c)))) }
    ensures number { length marks.new ≡ length marks.old }
    ensures kept { OnlyReads (D.state dev.old) (D.state dev.new) }
    ensures faults { CountsFault result (D.state dev.old).faults (D.state dev.new).faults }
{
    dev.read(place, block)?;
    mark_children(marks, block, place);
    Ok(())
}

/// Marks the children of an inner node in this place, but for itself.
fn mark_children(marks: &mut [bool], block: &Block, place: u64)
    ensures marks { (c : ℕ) → c < length marks.old
        → slice_index_or marks.new c false ≡ (slice_index_or marks.old c false || (not (place == c) && names_child block.now.0 c)) }
    ensures number { length marks.new ≡ length marks.old }
{
    if is_inner(block) {
        for i in 0..entries::<Root>(block) {
            mark(marks, child::<Root>(block, i), place);
        }
    }
}

/// Marks a child of the node in this place, where it is another block of the metadata.
fn mark(marks: &mut [bool], child: u64, place: u64)
    ensures marks { (c : ℕ) → c < length marks.old
        → slice_index_or marks.new c false ≡ (slice_index_or marks.old c false || (not (place == c) && (child == c))) }
    ensures number { length marks.new ≡ length marks.old }
{
    if child != place && child < marks.len() as u64 {
        marks[child as usize] = true;
    }
}
