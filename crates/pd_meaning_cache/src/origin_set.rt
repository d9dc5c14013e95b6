//! Origins that are added one after another, and whether one comes twice (`cache_check`, `cache_repair`).

ghost use Rattle.std.specs.Prelude.{◌≡◌, ℕ, ◌+◌, ◌/◌, ◌<◌, ◌≤◌, ◌==◌, ◌||◌, [], ◌∷◌, ◌++◌, List, IfOk, vec_len, vec_capacity};
ghost use Rattle.std.specs.List.{list_any};
ghost use Rattle.std.specs.List.Sorted.{IsNonDecreasing};
ghost use Rattle.pd_kinds.specs.Whole.{has_repeat};
ghost use Rattle.pd_meaning_cache.specs.OriginSet.{AreAdded, is_set, others_number, others_room};

use std::alloc::{AllocError, Global};

/// How many origins have their bits in one word.
const WORD_BITS: u64 = 64;

/// How many words of bits there are from the first block on, where there is memory for them: 64 KiB.
const FIRST_WORDS: usize = 8192;

/// Origins that were added. The low ones have a bit each; the others are kept one by one, and sorted at the end.
#[derive(Drop)]
pub struct OriginSet {
    /// The bits of the origins from 0 on, 64 in a word: whether the origin was added since it has a bit.
    bits: Vec<u64>,
    /// The origins that had no bit when they were added.
    others: Vec<u64>,
    /// Whether an origin was added whose bit was set.
    again: bool,
    /// How many were added, as far as it was told.
    added: usize,
    /// How many of those had no bit.
    listed: usize,
}

impl OriginSet {
    /// No origin, with memory for so many words of bits, none of which there is yet, and for so many origins without a
    /// bit. Want of it is the only error.
    pub fn new(alloc: Global, words: usize, others: usize) -> Result<OriginSet, AllocError>
        ensures added { IfOk result (AreAdded []) }
        ensures none { IfOk result (λ set. others_number set ≡ 0) }
        ensures room { IfOk result (λ set. others_room set ≡ others) }
    {
        let bits = Vec::with_capacity(alloc, words)?;
        let others = Vec::with_capacity(alloc, others)?;
        Ok(OriginSet {
            bits,
            others,
            again: false,
            added: 0,
            listed: 0,
        })
    }

    /// Adds an origin, for which there is room.
    pub fn add(&mut self, origin: u64)
        requires { others_number self.old < others_room self.old }
        ensures added { (os : List ℕ) → AreAdded os self.old → AreAdded (os ++ origin ∷ []) self.new }
        ensures few { others_number self.new ≤ others_number self.old + 1 }
        ensures room { others_room self.old ≤ others_room self.new }
    {
        if origin / WORD_BITS < self.bits.len() as u64 {
            let was_set = set_bit(&mut self.bits, origin);
            self.again |= was_set;
        } else {
            add_other(&mut self.others, origin);
        }
    }

    /// Tells that so many origins were added. Where one of them had no bit, the next ones have more words of bits, as far
    /// as there is memory for them: a word for each origin that had a bit, so that bits pay.
    pub fn widen(&mut self, added: usize)
        ensures added { (os : List ℕ) → AreAdded os self.old → AreAdded os self.new }
        ensures few { others_number self.new ≡ others_number self.old }
        ensures room { others_room self.new ≡ others_room self.old }
    {
        let before = self.listed;
        self.added = self.added.saturating_add(added);
        self.listed = self.others.len();
        if before < self.listed {
            let had_bits = self.added.saturating_sub(self.listed);
            self.give_bits(had_bits.saturating_add(FIRST_WORDS));
        }
    }

    /// Gives the origins below 64 times this number a bit each, as far as there is memory for them, when they are added
    /// from then on.
    pub fn give_bits(&mut self, words: usize)
        ensures added { (os : List ℕ) → AreAdded os self.old → AreAdded os self.new }
        ensures few { others_number self.new ≡ others_number self.old }
        ensures room { others_room self.new ≡ others_room self.old }
    {
        lengthen(&mut self.bits, words);
    }

    /// Whether an origin was added twice. Those without a bit are sorted for it.
    pub fn has_repeat(&mut self) -> bool
        ensures repeat { (os : List ℕ) → AreAdded os self.old → result ≡ has_repeat os }
        ensures few { others_number self.new ≡ others_number self.old }
        ensures room { others_room self.old ≤ others_room self.new }
    {
        let mixed = is_any_set(&self.bits, &self.others);
        self.others.sort_unstable();
        let repeated = is_repeated(&self.others);
        self.again | mixed | repeated
    }
}

/// Puts words of zeros behind the others, up to so many and as far as there is memory for them.
fn lengthen(bits: &mut Vec<u64>, words: usize)
    ensures { (number : ℕ) → is_set bits.new.items number ≡ is_set bits.old.items number }
{
    let words = words.min(bits.capacity());
    if bits.len() < words {
        let _ = bits.resize(words, 0);
    }
}

/// Adds an origin, for which there is room.
fn add_other(others: &mut Vec<u64>, origin: u64)
    requires { vec_len others.old < vec_capacity others.old }
    ensures added { others.new.items ≡ others.old.items ++ origin ∷ [] }
    ensures few { vec_len others.new ≤ vec_len others.old + 1 }
    ensures room { vec_capacity others.old ≤ vec_capacity others.new }
{
    let _ = others.push(origin);
}

/// Sets the bit of a number, and answers whether it was set before.
#[tactic(auto, unfolding(crate::specs::OriginSet::is_set))]
fn set_bit(bits: &mut Vec<u64>, number: u64) -> bool
    requires { number / 64 < vec_len bits.old }
    ensures was { result ≡ is_set bits.old.items number }
    ensures sets { (other : ℕ) → is_set bits.new.items other ≡ (is_set bits.old.items other || other == number) }
{
    let at = (number / WORD_BITS) as usize;
    let place = (number % WORD_BITS) as u32;
    let word = bits[at];
    bits[at] = word | (1 << place);
    (word >> place) & 1 == 1
}

/// Whether a number has a bit, which is set.
#[tactic(auto, unfolding(crate::specs::OriginSet::is_set))]
fn has_set_bit(bits: &[u64], number: u64) -> bool
    ensures { result ≡ is_set bits.now number }
{
    let at = (number / WORD_BITS) as usize;
    if at < bits.len() {
        (bits[at] >> (number % WORD_BITS) as u32) & 1 == 1
    } else {
        false
    }
}

/// Whether one of the numbers has a bit that is set.
fn is_any_set(bits: &[u64], numbers: &[u64]) -> bool
    ensures { result ≡ list_any (is_set bits.now) numbers.now }
{
    let mut found = false;
    for i in 0..numbers.len() {
        found |= has_set_bit(bits, numbers[i]);
    }
    found
}

/// Whether two neighbours in a sorted list are equal.
fn is_repeated(sorted: &[u64]) -> bool
    requires { IsNonDecreasing sorted.now }
    ensures { result ≡ has_repeat sorted.now }
{
    for i in 1..sorted.len() {
        if sorted[i - 1] == sorted[i] {
            return true;
        }
    }
    false
}
