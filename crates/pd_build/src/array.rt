//! Arrays.

ghost use Rattle.std.specs.Prelude.{◌≡◌, ℕ, ◌+◌, ◌-◌, ◌<◌, ◌≤◌, ◌^◌, EachIndex, List, [], ◌∷◌, ◌++◌, length};
ghost use Rattle.std.specs.Prelude.{slice_index, OnOk, OnErr, IfOk, IfErr, vec_len, IsTrue, ◌↔◌, ◌⊎◌};
ghost use Rattle.std.specs.List.{All};
ghost use Rattle.pd_kinds.specs.Array.{array_block, max_words};
ghost use Rattle.pd_grammar.specs.Need.{need_array, need_tree};
ghost use Rattle.pd_laid.specs.Laid.{tree_blocks, tree_root, array_items, array_root};
ghost use Rattle.pd_array.specs.Word.{size_of};
ghost use Rattle.pd_image.specs.Device.{IsWritable};
ghost use Rattle.pd_draft.specs.Closed.{IsClosed, StaysClosed, Wrote};
ghost use Rattle.pd_draft.specs.DraftState.{draft_state};
ghost use Rattle.pd_build.specs.Array.{ArrayLeft, Pushes, array_blocks, array_left, array_number, array_root_left};
ghost use Rattle.pd_build.specs.Building.{CountsBuildFault};

use crate::steps::put_block;
use crate::{BuildFault, Builder};
use pd_array::{Word, write_array};
use pd_draft::Draft;
use pd_image::Device;
use pd_value::Root;
use std::alloc::{AllocError, Global};
use std::marker::Model;

/// Writes an array, as its words come: blocks that are full but for the last one, and then the tree that names them by
/// number. It holds the words of one block.
#[derive(Drop)]
pub struct ArrayBuilder {
    alloc: Global,
    word: Word,
    /// The words that are to come.
    left: u64,
    /// The blocks that were written.
    made: u64,
    /// The words of the block that has begun.
    begun: Vec<u64>,
}

impl Model for ArrayBuilder {
    ghost Value = { ArrayLeft };

    ghost view = { λ b. record { size = size_of b.word; words = record { begun = b.begun.items; left = b.left; made = b.made } } };

    ghost invariant = { λ b. (vec_len b.begun < max_words (size_of b.word))
        × (b.left ≡ 0 → b.begun.items ≡ [])
        × All (λ word. word < 256 ^ size_of b.word) b.begun.items };
}

impl ArrayBuilder {
    /// An array of so many words of this size.
    pub fn new(alloc: Global, len: u64, word: Word) -> Result<ArrayBuilder, AllocError>
        ensures size { IfOk result (λ b. b.size ≡ size_of word) }
        ensures left { IfOk result (λ b. b.words.left ≡ len) }
        ensures made { IfOk result (λ b. b.words.made ≡ 0) }
        ensures blocks { IfOk result (λ b. (place : ℕ) (words : List ℕ) → length words ≡ len
            → array_left (size_of word) place b.words words ≡ array_blocks (size_of word) place words) }
        ensures root { IfOk result (λ b. (place : ℕ) (words : List ℕ) → length words ≡ len
            → array_root_left (size_of word) place b.words words ≡ array_root (size_of word) place words) }
        ensures number { IfOk result (λ b. array_number (size_of word) b.words ≡ need_array (size_of word) len) }
    {
        let begun = Vec::with_capacity(alloc, word.max_words())?;
        Ok(ArrayBuilder {
            alloc,
            word,
            left: len,
            made: 0,
            begun,
        })
    }

    /// Takes a word. Where it fills a block, or is the last one, the block is written.
    #[inline]
    pub fn push<D: Device>(
        &mut self,
        draft: &mut Draft<'_, D>,
        value: u64,
    ) -> Result<(), BuildFault>
        requires fits { value < 256 ^ self.old.size }
        requires more { 1 ≤ self.old.words.left }
        requires stood { self.old.words.made ≤ draft.old.next }
        requires writable { IsWritable (draft_state draft.old).device }
        requires room { draft.old.next + array_number self.old.size self.old.words ≤ (draft_state draft.old).device.blocks }
        requires closed { IsClosed (draft_state draft.old).device }
        ensures same_reference { draft.new.dev.ghost_name ≡ draft.old.dev.ghost_name }
        ensures size { self.new.size ≡ self.old.size }
        ensures pushes { OnOk result (Pushes self.old.size value self.old.words self.new.words (draft_state draft.old)
            (draft_state draft.new)) }
        ensures closed { StaysClosed (draft_state draft.old).device (draft_state draft.new).device }
        ensures faults { CountsBuildFault result (draft_state draft.old).device.faults (draft_state draft.new).device.faults }
    {
        let _blocks = draft.blocks();
        push_word(&mut self.begun, value)?;
        self.left -= 1;
        if !is_full(self.begun.len(), self.word.max_words(), self.left) {
            return Ok(());
        }
        let put = put_words(draft, self.word, &self.begun);
        self.begun.clear();
        self.made += 1;
        put
    }

    /// Writes the tree of the blocks, and answers the place of its root.
    pub fn finish<D: Device>(self, draft: &mut Draft<'_, D>) -> Result<u64, BuildFault>
        requires done { self.words.left ≡ 0 }
        requires stood { self.words.made ≤ draft.old.next }
        requires writable { IsWritable (draft_state draft.old).device }
        requires room { draft.old.next + array_number self.size self.words ≤ (draft_state draft.old).device.blocks }
        requires closed { IsClosed (draft_state draft.old).device }
        ensures same_reference { draft.new.dev.ghost_name ≡ draft.old.dev.ghost_name }
        ensures wrote { OnOk result (Wrote (array_left self.size draft.old.next self.words []) (draft_state draft.old)
            (draft_state draft.new)) }
        ensures root { IfOk result (λ root. root ≡ array_root_left self.size draft.old.next self.words []) }
        ensures closed { StaysClosed (draft_state draft.old).device (draft_state draft.new).device }
        ensures faults { CountsBuildFault result (draft_state draft.old).device.faults (draft_state draft.new).device.faults }
    {
        write_index(self.alloc, draft, self.made)
    }
}

/// Whether a block of so many words is to be written: it is full, or no word is to come.
fn is_full(count: usize, most: usize, left: u64) -> bool
    ensures { IsTrue result ↔ ((count ≡ most) ⊎ (left ≡ 0)) }
{
    (count == most) | (left == 0)
}

/// Adds a word at the end.
fn push_word(words: &mut Vec<u64>, value: u64) -> Result<(), BuildFault>
    ensures items { OnOk result (words.new.items ≡ words.old.items ++ value ∷ []) }
    ensures len { OnOk result (vec_len words.new ≡ vec_len words.old + 1) }
    ensures kept { OnErr result (words.new.items ≡ words.old.items) }
    ensures same { OnErr result (vec_len words.new ≡ vec_len words.old) }
    ensures fault { IfErr result (λ fault. fault ≡ BuildFault.Memory) }
{
    Ok(words.push(value)?)
}

/// Puts the block of these words at the draft's next place. It stands apart from what takes a word, which then makes no room
/// for a block.
#[inline(never)]
fn put_words<D: Device>(
    draft: &mut Draft<'_, D>,
    word: Word,
    words: &[u64],
) -> Result<(), BuildFault>
    requires few { length words.now ≤ max_words (size_of word) }
    requires fit { EachIndex words.now (λ i. slice_index words.now i < 256 ^ size_of word) }
    requires writable { IsWritable (draft_state draft.old).device }
    requires room { draft.old.next < (draft_state draft.old).device.blocks }
    requires closed { IsClosed (draft_state draft.old).device }
    ensures same_reference { draft.new.dev.ghost_name ≡ draft.old.dev.ghost_name }
    ensures wrote { OnOk result (Wrote (array_block (size_of word) draft.old.next words.now ∷ []) (draft_state draft.old)
        (draft_state draft.new)) }
    ensures closed { StaysClosed (draft_state draft.old).device (draft_state draft.new).device }
    ensures faults { CountsBuildFault result (draft_state draft.old).device.faults (draft_state draft.new).device.faults }
{
    let block = write_array(draft.next(), word, words);
    put_block(draft, &block)
}

/// Writes the tree of the blocks of an array, which stand just before it, and answers its root.
fn write_index<D: Device>(
    alloc: Global,
    draft: &mut Draft<'_, D>,
    count: u64,
) -> Result<u64, BuildFault>
    requires writable { IsWritable (draft_state draft.old).device }
    requires room { draft.old.next + need_tree 8 count ≤ (draft_state draft.old).device.blocks }
    requires stood { count ≤ draft.old.next }
    requires closed { IsClosed (draft_state draft.old).device }
    ensures same_reference { draft.new.dev.ghost_name ≡ draft.old.dev.ghost_name }
    ensures wrote { OnOk result (Wrote (tree_blocks 8 draft.old.next (array_items (draft.old.next - count) count)) (draft_state draft.old)
        (draft_state draft.new)) }
    ensures root { IfOk result (λ root. root ≡ tree_root 8 draft.old.next (array_items (draft.old.next - count) count)) }
    ensures closed { StaysClosed (draft_state draft.old).device (draft_state draft.new).device }
    ensures faults { CountsBuildFault result (draft_state draft.old).device.faults (draft_state draft.new).device.faults }
{
    let first = draft.next() - count;
    let mut builder = Builder::<Root>::new(alloc, count)?;
    for i in 0..count {
        builder.put(draft, i, Root(first + i))?;
    }
    builder.finish(draft)
}
