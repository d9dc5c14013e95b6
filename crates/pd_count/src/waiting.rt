//! The numbers of all places of a chunk, while places wait to be counted.
//!
//! A count at a random place waits for its digit to come from memory. So the places are noted first, and counted in one loop
//! once they are many: then the processor loads many digits at once.

ghost use Rattle.std.specs.Prelude.{◌≡◌, ℕ, ◌+◌, ◌<◌, ◌≤◌, ◌==◌, true, false, length, map, take};
ghost use Rattle.std.specs.Prelude.{slice_index, IfOk, OnOk, OnErr, MatchOption};
ghost use Rattle.std.specs.List.{count_by, range_with_len};
ghost use Rattle.pd_count.specs.Counted.{AreDigits, AreWaiting, HaveSameNumbers, Puts, digits_number, number_with, waiting_number};

use crate::{CHUNK_COUNTS, dense};
use std::alloc::{AllocError, Global};

/// How many places of a chunk wait at most.
const MOST_WAITING: usize = 254;

/// A digit for each place of a chunk, and the places that wait to be counted.
#[derive(Drop)]
pub(crate) struct WaitingPlaces {
    digits: Vec<u8>,
    places: Vec<u16>,
}

impl WaitingPlaces {
    /// The places with these digits, none of which waits. It takes 508 bytes.
    ///
    /// Fails with `AllocError` where that memory wasn't found.
    #[tactic(auto, unfolding(crate::specs::Counted::number_with))]
    pub(crate) fn begin(alloc: Global, digits: Vec<u8>) -> Result<WaitingPlaces, AllocError>
        requires { length digits.items ≡ 16320 }
        ensures waiting { IfOk result (λ waiting. AreWaiting waiting) }
        ensures numbers { IfOk result (λ waiting. (k : ℕ) → k < 16320 → waiting_number waiting k ≡ digits_number digits.items k) }
    {
        Ok(WaitingPlaces {
            digits,
            places: Vec::with_capacity(alloc, MOST_WAITING)?,
        })
    }

    /// Whether no more places can wait.
    pub(crate) fn is_full(&self) -> bool
        ensures full { result ≡ false → length self.now.places.items < 254 }
    {
        self.places.len() >= MOST_WAITING
    }

    /// The number of a place once so many of the places that wait are counted.
    #[tactic(auto, using(crate::proofs::FormLemmas::low_digit), unfolding(crate::specs::Counted::number_with))]
    fn number_with(&self, counted: usize, at: usize) -> u32
        requires waiting { AreWaiting self.now }
        requires place { at < 16320 }
        requires counted { counted ≤ length self.now.places.items }
        ensures { result ≡ number_with self.now counted at }
    {
        let waits = self.places[..counted]
            .iter()
            .filter(|place| usize::from(**place) == at)
            .count();
        u32::from(self.digits[at]) + waits as u32
    }

    /// The number of a place.
    pub(crate) fn number(&self, at: usize) -> u32
        requires waiting { AreWaiting self.now }
        requires place { at < 16320 }
        ensures { result ≡ waiting_number self.now at }
    {
        self.number_with(self.places.len(), at)
    }

    /// Lets a place wait. Want of memory leaves all numbers as they are.
    pub(crate) fn wait(&mut self, at: usize) -> Result<(), AllocError>
        requires waiting { AreWaiting self.old }
        requires room { length self.old.places.items < 254 }
        requires place { at < 16320 }
        ensures waiting { AreWaiting self.new }
        ensures put { OnOk result (Puts at (waiting_number self.old at + 1) (waiting_number self.old) (waiting_number self.new)) }
        ensures err { OnErr result (HaveSameNumbers self.new self.old) }
    {
        Ok(self.places.push(at as u16)?)
    }

    /// Counts the last place that waits, where there is one and its digit has room for that, and tells whether it did. All
    /// numbers stay as they are.
    fn count_last(&mut self) -> bool
        requires { AreWaiting self.old }
        ensures waiting { AreWaiting self.new }
        ensures same { HaveSameNumbers self.new self.old }
        ensures counted { result ≡ true → length self.new.places.items + 1 ≡ length self.old.places.items }
    {
        if self.places.is_empty() {
            return false;
        }
        let last = self.places.len() - 1;
        let at = usize::from(self.places[last]);
        let has_room = dense::raise(&mut self.digits, at);
        if has_room {
            self.places.truncate(last);
        }
        has_room
    }

    /// Counts the places that wait, the last one first, up to one whose digit has no room for it. All numbers stay as they are.
    pub(crate) fn count_where_room(&mut self)
        requires { AreWaiting self.old }
        ensures waiting { AreWaiting self.new }
        ensures same { HaveSameNumbers self.new self.old }
    {
        for _ in 0..self.places.len() {
            if !self.count_last() {
                return;
            }
        }
    }

    /// The digits of all numbers, as they are once all places are counted.
    ///
    /// Fails with `AllocError` where memory for them wasn't found.
    pub(crate) fn counted(&self) -> Result<Vec<u8>, AllocError>
        requires { AreWaiting self.now }
        ensures digits { IfOk result (λ digits. AreDigits digits.items) }
        ensures numbers { IfOk result (λ digits. (k : ℕ) → k < 16320 → digits_number digits.items k ≡ waiting_number self.now k) }
    {
        let mut digits = self.digits.clone()?;
        for i in 0..self.places.len() {
            let at = usize::from(self.places[i]);
            dense::put(&mut digits, at, self.number_with(i + 1, at))?;
        }
        Ok(digits)
    }

    /// The digits of all numbers, once all places are counted and this number is put at a place.
    ///
    /// Fails with `AllocError` where memory for them wasn't found.
    pub(crate) fn counted_with(&self, at: usize, number: u32) -> Result<Vec<u8>, AllocError>
        requires waiting { AreWaiting self.now }
        requires place { at < 16320 }
        ensures digits { IfOk result (λ digits. AreDigits digits.items) }
        ensures put { IfOk result (λ digits. Puts at number (waiting_number self.now) (digits_number digits.items)) }
    {
        let mut digits = self.counted()?;
        dense::put(&mut digits, at, number)?;
        Ok(digits)
    }

    /// How many places below `covered` have the number 0.
    pub(crate) fn zeros(&self, covered: usize) -> usize
        requires waiting { AreWaiting self.now }
        requires covered { covered ≤ 16320 }
        ensures zeros { result ≡ count_by (λ n. n == 0) (map (waiting_number self.now) (range_with_len 0 covered)) }
        ensures most { result ≤ covered }
    {
        let mut zeros = 0;
        for at in 0..covered {
            zeros += usize::from(self.number(at) == 0);
        }
        zeros
    }

    /// The first place with a number of `least` or more, from a place on.
    pub(crate) fn first(&self, from: usize, least: u32) -> Option<usize>
        requires { AreWaiting self.now }
        ensures { MatchOption result ((k : ℕ) → from ≤ k → k < 16320 → waiting_number self.now k < least)
            (λ at. (from ≤ at) × ((at < 16320) × ((least ≤ waiting_number self.now at)
            × ((k : ℕ) → from ≤ k → k < at → waiting_number self.now k < least)))) }
    {
        for at in from..CHUNK_COUNTS {
            if self.number(at) >= least {
                return Some(at);
            }
        }
        None
    }

    /// Whether all of so many places from `at` on have this number.
    pub(crate) fn are_all(&self, at: usize, len: usize, wanted: u32) -> bool
        requires waiting { AreWaiting self.now }
        requires places { at + len ≤ 16320 }
        ensures { result ≡ true → (k : ℕ) → k < len → waiting_number self.now (at + k) ≡ wanted }
    {
        for place in at..at + len {
            if self.number(place) != wanted {
                return false;
            }
        }
        true
    }

    /// Writes the numbers of all places.
    pub(crate) fn copy(&self, numbers: &mut [u32])
        requires waiting { AreWaiting self.now }
        requires size { length numbers.old ≡ 16320 }
        ensures size { length numbers.new ≡ 16320 }
        ensures numbers { (k : ℕ) → k < 16320 → slice_index numbers.new k ≡ waiting_number self.now k }
    {
        for at in 0..CHUNK_COUNTS {
            numbers[at] = self.number(at);
        }
    }
}
