//! The words that are saved of an array, a block at a time (`cache_repair`).

ghost use Rattle.std.specs.Prelude.{◌≡◌, ◌≤◌, not};
ghost use Rattle.pd_kinds.specs.Array.{word_count};
ghost use Rattle.pd_kinds.specs.Graph.{is_outside};
ghost use Rattle.pd_array.specs.Word.{size_of};
ghost use Rattle.pd_salvage_cache.specs.Places.{places_room};
ghost use Rattle.pd_salvage_cache.specs.Sound.{sound_count};

use crate::places::Places;
use pd_array::{Word, array_len, array_rules, array_word};
use pd_image::{Device, Failed};
use pd_kinds::Block;
use std::alloc::{AllocError, Global};

/// The words that are saved of an array: those of one block are held.
#[derive(Drop)]
pub(crate) struct SavedArray {
    places: Places,
    word: Word,
    /// The number of metadata blocks.
    nr: u64,
    /// The least key that wasn't asked: the block of the key before it is held.
    next: u64,
    block: Block,
    /// How many words the block has: none where it is lost.
    count: usize,
    ghost counted: { count ≤ word_count (size_of word) block.0 },
    ghost room: { places_room places ≡ nr },
}

impl SavedArray {
    ghost use Rattle.std.specs.Prelude.{◌≡◌, ℕ, ◌+◌, ◌^◌, ◌<◌, ◌≤◌, List, IfOk, IfSome, OnOk};
    ghost use Rattle.pd_kinds.specs.Array.{max_words};
    ghost use Rattle.pd_kinds.specs.Node.{Entry};
    ghost use Rattle.pd_kinds.specs.Objects.{CountsFault};
    ghost use Rattle.pd_image.specs.Device.{IsAttached, OnlyReads};
    ghost use Rattle.pd_laid.specs.Salvage.{salvaged_entries};
    ghost use Rattle.pd_salvage_cache.specs.Arrays.{HoldsBlock, Knows, held_word};

    /// Those of the array with this root, of a cache with so many metadata blocks. No block is held.
    pub(crate) fn start(
        alloc: Global,
        nr: u64,
        root: u64,
        word: Word,
    ) -> Result<SavedArray, AllocError>
        ensures knows { (image : List (List ℕ)) → IfOk result (λ array. Knows image (salvaged_entries 8 nr image root) array) }
        ensures next { IfOk result (λ array. array.next ≡ 0) }
        ensures same { IfOk result (λ array. (array.word ≡ word) × (array.nr ≡ nr)) }
    {
        let places = Places::start(alloc, nr, root)?;
        Ok(SavedArray {
            places,
            word,
            nr,
            next: 0,
            block: Block::zeros(),
            count: 0,
        })
    }

    /// Holds the block of this key from now on. Those of lesser keys can't be asked then.
    pub(crate) fn hold<D: Device>(&mut self, dev: &mut D, key: u32) -> Result<(), Failed>
        requires attached { IsAttached (D.state dev.old) }
        requires within { self.old.nr ≤ (D.state dev.old).blocks }
        requires later { self.old.next ≤ key + 1 }
        ensures knows { OnOk result (IfSome (D.state dev.old).held
            (λ image. (entries : List Entry) → Knows image entries self.old → Knows image entries self.new)) }
        ensures next { OnOk result (self.new.next ≡ key + 1) }
        ensures same { (self.new.word ≡ self.old.word) × (self.new.nr ≡ self.old.nr) }
        ensures kept { OnlyReads (D.state dev.old) (D.state dev.new) }
        ensures faults { CountsFault result (D.state dev.old).faults (D.state dev.new).faults }
    {
        let key = key as u64;
        if key < self.next {
            return Ok(());
        }
        self.next = key + 1;
        self.count = 0;
        match self.places.find(dev, key)? {
            Some(root) => self.read(dev, root.0),
            None => Ok(()),
        }
    }

    /// Holds the block in this place.
    fn read<D: Device>(&mut self, dev: &mut D, place: u64) -> Result<(), Failed>
        requires attached { IsAttached (D.state dev.old) }
        requires within { self.old.nr ≤ (D.state dev.old).blocks }
        requires none { self.old.count ≡ 0 }
        ensures holds { OnOk result (IfSome (D.state dev.old).held (λ image. HoldsBlock image place self.new)) }
        ensures next { self.new.next ≡ self.old.next }
        ensures places { self.new.places ≡ self.old.places }
        ensures same { (self.new.word ≡ self.old.word) × (self.new.nr ≡ self.old.nr) }
        ensures kept { OnlyReads (D.state dev.old) (D.state dev.new) }
        ensures faults { CountsFault result (D.state dev.old).faults (D.state dev.new).faults }
    {
        if is_inside(place, self.nr) {
            dev.read(place, &mut self.block)?;
            self.count = sound_words(&self.block, place, self.word);
        }
        Ok(())
    }

    /// Word `i` of the block that is held.
    pub(crate) fn word(&self, i: usize) -> Option<u64>
        ensures word { result ≡ held_word self.now i }
        ensures fits { IfSome result (λ word. word < 256 ^ size_of self.now.word) }
    {
        if i < self.count {
            Some(array_word(&self.block, self.word, i))
        } else {
            None
        }
    }

    /// How many words the block that is held has.
    pub(crate) fn count(&self) -> usize
        ensures count { result ≡ self.now.count }
        ensures few { result ≤ max_words (size_of self.now.word) }
    {
        self.count
    }
}

// Whether an array block can be taken (`cache_repair`).

/// Whether a place lies in the metadata, of so many blocks.
pub(crate) fn is_inside(place: u64, nr: u64) -> bool
    ensures { result ≡ not (is_outside nr place) }
{
    (place != 0) & (place < nr)
}

/// How many words are saved of the array block in this place: none where it is damaged.
pub(crate) fn sound_words(block: &Block, place: u64, word: Word) -> usize
    ensures count { result ≡ sound_count (size_of word) place block.now.0 }
    ensures few { result ≤ word_count (size_of word) block.now.0 }
{
    if array_rules(block, place, word).is_empty() {
        array_len(block, word)
    } else {
        0
    }
}
