//! The numbers of few places of a chunk, as a list of the places that have one.

ghost use Rattle.std.specs.Prelude.{◌≡◌, ℕ, ◌+◌, ◌<◌, ◌≤◌, ◌==◌, ◌&&◌, not, nat_lt, true, length};
ghost use Rattle.std.specs.Prelude.{slice_index, IfOk, IfErr, OnOk, OnErr, MatchOption};
ghost use Rattle.std.specs.List.{count_by};
ghost use Rattle.pd_count.specs.Counted.{AreEntries, IsAt, IsGapFor, Puts, entered, place_at};

use std::alloc::AllocError;

/// A place of a chunk, and its number.
#[derive(Clone, Copy)]
pub(crate) struct Entry {
    place: u16,
    number: u32,
}

impl Entry {
    /// The place.
    pub(crate) fn place(self) -> usize
        ensures { result ≡ self.place }
    {
        usize::from(self.place)
    }

    /// The number.
    pub(crate) fn number(self) -> u32
        ensures { result ≡ self.number }
    {
        self.number
    }
}

/// The entry that has the place, or where an entry of that place would go.
fn find(entries: &[Entry], place: u16) -> Result<usize, usize>
    requires { AreEntries entries.now }
    ensures found { IfOk result (IsAt entries.now place) }
    ensures absent { IfErr result (IsGapFor entries.now place) }
{
    entries.binary_search_by_key(&place, |entry| entry.place)
}

/// The number of a place, which is 0 where no entry has the place.
pub(crate) fn entered_number(entries: &[Entry], place: u16) -> u32
    requires { AreEntries entries.now }
    ensures { result ≡ entered entries.now place }
{
    match find(entries, place) {
        Ok(i) => entries[i].number,
        Err(_) => 0,
    }
}

/// Enters the number of a place. Want of memory leaves all as before.
pub(crate) fn enter(entries: &mut Vec<Entry>, place: u16, number: u32) -> Result<(), AllocError>
    requires entries { AreEntries entries.old.items }
    requires place { place < 16320 }
    ensures entries { AreEntries entries.new.items }
    ensures put { OnOk result (Puts place number (entered entries.old.items) (entered entries.new.items)) }
    ensures err { OnErr result (entries.new.items ≡ entries.old.items) }
{
    match find(entries, place) {
        Ok(i) => {
            entries[i] = Entry { place, number };
            Ok(())
        }
        Err(i) => Ok(entries.insert(i, Entry { place, number })?),
    }
}

/// How many places below `covered` have another number than 0.
pub(crate) fn counted_below(entries: &[Entry], covered: usize) -> usize
    ensures { result ≡ count_by (λ entry. nat_lt entry.place covered && not (entry.number == 0)) entries.now }
{
    entries
        .iter()
        .filter(|entry| entry.place() < covered && entry.number != 0)
        .count()
}

/// Whether all of so many places from `at` on have the number 0.
pub(crate) fn are_none(entries: &[Entry], at: usize, len: usize) -> bool
    requires entries { AreEntries entries.now }
    requires places { at + len ≤ 16320 }
    ensures { result ≡ true → (k : ℕ) → k < len → entered entries.now (at + k) ≡ 0 }
{
    match first_entered(entries, at, 1) {
        Some(place) => place >= at + len,
        None => true,
    }
}

/// Where the entries from a place on begin.
fn begin(entries: &[Entry], from: usize) -> usize
    requires entries { AreEntries entries.now }
    requires from { from ≤ 16320 }
    ensures before { (j : ℕ) → j < result → place_at entries.now j < from }
    ensures behind { (j : ℕ) → result ≤ j → j < length entries.now → from ≤ place_at entries.now j }
{
    match find(entries, from as u16) {
        Ok(i) => i,
        Err(i) => i,
    }
}

/// The first place with a number of `least` or more, from a place on.
pub(crate) fn first_entered(entries: &[Entry], from: usize, least: u32) -> Option<usize>
    requires entries { AreEntries entries.now }
    requires from { from ≤ 16320 }
    requires least { 0 < least }
    ensures { MatchOption result ((k : ℕ) → from ≤ k → k < 16320 → entered entries.now k < least)
        (λ at. (from ≤ at) × ((at < 16320) × ((least ≤ entered entries.now at)
        × ((k : ℕ) → from ≤ k → k < at → entered entries.now k < least)))) }
{
    let start = begin(entries, from);
    for i in start..entries.len() {
        if entries[i].number >= least {
            return Some(entries[i].place());
        }
    }
    None
}

/// Writes the numbers of all places.
pub(crate) fn copy(entries: &[Entry], numbers: &mut [u32])
    requires entries { AreEntries entries.now }
    requires size { length numbers.old ≡ 16320 }
    ensures size { length numbers.new ≡ 16320 }
    ensures numbers { (k : ℕ) → k < 16320 → slice_index numbers.new k ≡ entered entries.now k }
{
    numbers.fill(0);
    for i in 0..entries.len() {
        numbers[entries[i].place()] = entries[i].number;
    }
}
