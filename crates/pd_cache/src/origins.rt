//! Whether two entries of a cache have one origin (`cache_check`).

ghost use Rattle.std.specs.Prelude.{◌≡◌, ℕ, ◌+◌, ◌*◌, ◌≤◌, ◌<◌, List, ◌++◌, [], length, None, false, IfOk, replicate};
ghost use Rattle.pd_kinds.specs.Whole.{has_repeat};
ghost use Rattle.pd_meaning_cache.specs.OriginSet.{AreAdded, others_number, others_room};
ghost use Rattle.pd_cache.specs.Words.{block_origins, unseen_number, word_origins};

use pd_array::{Word, array_len, array_word};
use pd_kinds::Block;
use pd_meaning_cache::OriginSet;
use std::alloc::{AllocError, Global};

/// How many words a block of the mapping array has room for.
const MAX_WORDS: usize = 509;

/// How many words of bits there is memory for, for each metadata block.
const BIT_WORDS: usize = 128;

/// The origins of the valid words of the blocks of a mapping array that were met, each distinct block once.
///
/// All memory is taken at the start: for each metadata block 5096 bytes, for the words that it can hold and for bits, of
/// which eight bytes for each valid entry and 64 KiB are touched at the most, and two bytes.
#[derive(Drop)]
pub(crate) struct Origins {
    /// The origins of the blocks that were met.
    met: OriginSet,
    /// Of each block that was met, whether it has a valid word.
    seen: Vec<Option<bool>>,
    /// Whether a block that has a valid word was met again.
    again: bool,
    ghost room: { others_number met + 509 * unseen_number seen.items ≤ others_room met },
}

impl Origins {
    ghost use Rattle.std.specs.Prelude.{◌||◌};
    ghost use Rattle.pd_kinds.specs.declared.limits.TheConstants.{MAX_META_BLOCKS};
    ghost use Rattle.pd_cache.specs.Meeting.{AddsBlock, is_again, places_of, seen_at};

    /// No origin yet, with memory for so many metadata blocks. Want of it is the only error.
    pub(crate) fn new(alloc: Global, nr: u64) -> Result<Origins, AllocError>
        requires { nr ≤ MAX_META_BLOCKS }
        ensures places { IfOk result (λ origins. places_of origins ≡ nr) }
        ensures added { IfOk result (λ origins. AreAdded [] origins.met) }
        ensures seen { IfOk result (λ origins. (b : ℕ) → seen_at origins b ≡ None) }
        ensures again { IfOk result (λ origins. is_again origins ≡ false) }
    {
        let nr = nr as usize;
        let met = OriginSet::new(alloc, BIT_WORDS * nr, MAX_WORDS * nr)?;
        let seen = unseen(alloc, nr)?;
        Ok(Origins {
            met,
            seen,
            again: false,
        })
    }

    /// Of block b, where it was met, whether it has a valid word.
    pub(crate) fn seen(&self, b: u64) -> Option<bool>
        requires { b < places_of self.now }
        ensures { result ≡ seen_at self.now b }
    {
        self.seen[b as usize]
    }

    /// Adds the origins of block b, which wasn't met before.
    pub(crate) fn add(&mut self, b: u64, block: &Block)
        requires block { b < places_of self.old }
        requires unseen { seen_at self.old b ≡ None }
        ensures { AddsBlock b (block_origins block.now.0) self.old self.new }
    {
        let number = add_words(&mut self.met, block);
        self.met.widen(number);
        self.seen[b as usize] = Some(0 < number);
    }

    /// Meets a block again, which has a valid word or not.
    pub(crate) fn meet_again(&mut self, valid: bool)
        ensures again { is_again self.new ≡ (is_again self.old || valid) }
        ensures met { self.new.met ≡ self.old.met }
        ensures places { places_of self.new ≡ places_of self.old }
        ensures seen { (c : ℕ) → seen_at self.new c ≡ seen_at self.old c }
    {
        self.again |= valid;
    }

    /// Whether an origin came twice.
    pub(crate) fn has_repeat(&mut self) -> bool
        ensures { (os : List ℕ) → AreAdded os self.old.met → result ≡ (is_again self.old || has_repeat os) }
    {
        let repeated = self.met.has_repeat();
        self.again | repeated
    }
}

/// So many blocks, none of which was met.
fn unseen(alloc: Global, nr: usize) -> Result<Vec<Option<bool>>, AllocError>
    ensures { IfOk result (λ seen. seen.items ≡ replicate nr None) }
{
    let mut seen = Vec::new(alloc);
    seen.resize(nr, None)?;
    Ok(seen)
}

/// Adds the origin of a word, where the word is valid, and answers how many that are.
fn add_word(met: &mut OriginSet, word: u64) -> usize
    requires { others_number met.old < others_room met.old }
    ensures number { result ≡ length (word_origins word) }
    ensures added { (os : List ℕ) → AreAdded os met.old → AreAdded (os ++ word_origins word) met.new }
    ensures few { others_number met.new ≤ others_number met.old + 1 }
    ensures room { others_room met.old ≤ others_room met.new }
{
    if word % 2 == 1 {
        met.add(word >> 16);
        1
    } else {
        0
    }
}

/// Adds the origins of the valid words of a block, and answers how many these are.
fn add_words(met: &mut OriginSet, block: &Block) -> usize
    requires { others_number met.old + 509 ≤ others_room met.old }
    ensures number { result ≡ length (block_origins block.now.0) }
    ensures added { (os : List ℕ) → AreAdded os met.old → AreAdded (os ++ block_origins block.now.0) met.new }
    ensures few { others_number met.new ≤ others_number met.old + 509 }
    ensures room { others_room met.old ≤ others_room met.new }
{
    let mut number = 0;
    for i in 0..array_len(block, Word::Eight) {
        number += add_word(met, array_word(block, Word::Eight, i));
    }
    number
}
