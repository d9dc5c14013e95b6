//! The numbers of the blocks that one bitmap covers.

ghost use Rattle.std.specs.Prelude.{◌≡◌, ℕ, ◌+◌, ◌-◌, ◌^◌, ◌<◌, ◌≤◌, ◌==◌, [], true, false, take, length};
ghost use Rattle.std.specs.Prelude.{slice_index, IfOk, OnOk, OnErr, MatchOption, min};
ghost use Rattle.std.specs.List.{count_by};
ghost use Rattle.pd_count.specs.Counted.{AreDigits, IsForm, digits_number, form_numbers, numbers_by};

use crate::few::{self, Entry};
use crate::waiting::WaitingPlaces;
use crate::{CHUNK_COUNTS, dense};
use std::alloc::{AllocError, Global};
use std::marker::Model;

/// How many places may stand in a list. The digits of all places are made when one more number is put, so that they take
/// less than 64 bytes for each time that a place was counted.
const FEW_PLACES: usize = 256;

/// How many places the list has room for at first. With what `malloc` needs that takes 32 bytes, which is the least that it
/// gives.
const FIRST_PLACES: usize = 3;

/// How the numbers are kept.
#[derive(Drop)]
enum Form {
    /// The places that have a number.
    Few(Vec<Entry>),
    /// The digits of all places.
    Dense(Vec<u8>),
    /// A digit of each place, and places that wait to be counted.
    Waiting(Box<WaitingPlaces>),
}

/// The form of these digits, where places may wait if that is asked for and each place has one digit.
///
/// Fails with `AllocError` where memory for the places wasn't found.
fn form_of(alloc: Global, digits: Vec<u8>, may_wait: bool) -> Result<Form, AllocError>
    requires { AreDigits digits.items }
    ensures form { IfOk result IsForm }
    ensures same { IfOk result (λ form. form_numbers form ≡ numbers_by 16320 (digits_number digits.items)) }
{
    if may_wait && digits.len() == CHUNK_COUNTS {
        let places = WaitingPlaces::begin(alloc, digits)?;
        return Ok(Form::Waiting(Box::new(alloc, places)?));
    }
    Ok(Form::Dense(digits))
}

/// 16320 numbers, or nothing where each of them is 0.
///
/// A chunk takes 32 bytes. While at most 256 places have a number it takes 8 bytes more for each of them, in a list that
/// has room for 3 and doubles as it grows. From then on it takes a byte more for each of the 16320 places, two where a
/// number above 255 was put, and four where one above 65535 was put.
#[derive(Drop)]
pub struct Chunk {
    form: Form,
}

impl Model for Chunk {
    ghost use Rattle.std.specs.Prelude.{List, ℕ};
    ghost use Rattle.pd_count.specs.Counted.{IsForm, form_numbers};

    ghost Value = { List ℕ };

    ghost view = { λ c. form_numbers c.form };

    ghost invariant = { λ c. IsForm c.form };
}

impl Chunk {
    ghost use Rattle.pd_count.specs.Counted.{PutsAt};

    /// A chunk that is to be made. It takes the memory of a short list of places.
    ///
    /// Fails with `AllocError` where that memory wasn't found.
    pub(crate) fn with_room(alloc: Global) -> Result<Chunk, AllocError>
        ensures { IfOk result (λ chunk. chunk ≡ []) }
    {
        Ok(Chunk {
            form: Form::Few(Vec::with_capacity(alloc, FIRST_PLACES)?),
        })
    }

    /// Whether a number was put.
    pub(crate) fn is_made(&self) -> bool
        ensures made { result ≡ true → length self.now ≡ 16320 }
        ensures absent { result ≡ false → self.now ≡ [] }
    {
        match &self.form {
            Form::Few(entries) => !entries.is_empty(),
            Form::Dense(_) => true,
            Form::Waiting(_) => true,
        }
    }

    /// The number at a place, which is 0 where the chunk isn't made. It takes no memory.
    pub fn get(&self, at: usize) -> u32
        ensures { result ≡ slice_index self.now at }
    {
        let form = &self.form;
        if at >= CHUNK_COUNTS {
            return 0;
        }
        match form {
            Form::Few(entries) => few::entered_number(entries, at as u16),
            Form::Dense(digits) => dense::number(digits, at),
            Form::Waiting(waiting) => waiting.number(at),
        }
    }

    /// Puts a number at a place, and makes the chunk where it isn't there.
    ///
    /// Fails with `AllocError` where memory for that wasn't found; then all is as before.
    pub(crate) fn set(&mut self, at: usize, number: u32) -> Result<(), AllocError>
        requires { at < 16320 }
        ensures put { OnOk result (PutsAt at number self.old self.new) }
        ensures err { OnErr result (self.new ≡ self.old) }
    {
        if self.is_full() {
            self.spread(false)?;
        }
        self.put(at, number)
    }

    /// Whether the list of places is as long as it may be.
    fn is_full(&self) -> bool
        ensures { result ≡ true → length self.now ≡ 16320 }
    {
        match &self.form {
            Form::Few(entries) => entries.len() >= FEW_PLACES,
            Form::Dense(_) => false,
            Form::Waiting(_) => false,
        }
    }

    /// Gives digits to all places, which may wait from then on if that is asked for. Want of memory leaves all as before, as
    /// each number is in any case.
    fn spread(&mut self, may_wait: bool) -> Result<(), AllocError>
        requires { length self.old ≡ 16320 }
        ensures { self.new ≡ self.old }
    {
        let Form::Few(entries) = &self.form else {
            return Ok(());
        };
        let alloc = *entries.allocator();
        let digits = dense::spread(alloc, entries)?;
        self.form = form_of(alloc, digits, may_wait)?;
        Ok(())
    }

    /// Puts a number at a place, in the form that is there. Want of memory leaves all as before.
    fn put(&mut self, at: usize, number: u32) -> Result<(), AllocError>
        requires { at < 16320 }
        ensures put { OnOk result (PutsAt at number self.old self.new) }
        ensures err { OnErr result (self.new ≡ self.old) }
    {
        let digits = match &mut self.form {
            Form::Few(entries) => return few::enter(entries, at as u16, number),
            Form::Dense(digits) => return dense::put(digits, at, number),
            Form::Waiting(waiting) => waiting.counted_with(at, number)?,
        };
        self.form = Form::Dense(digits);
        Ok(())
    }

    /// Raises the number at a place by one, unless it is as great as it can be, makes the chunk where it isn't there, and
    /// answers what the number was. Want of memory leaves all as before.
    pub(crate) fn saturating_add(&mut self, at: usize) -> Result<u32, AllocError>
        requires { at < 16320 }
        ensures before { IfOk result (λ before. before ≡ slice_index self.old at) }
        ensures added { OnOk result (PutsAt at (min (slice_index self.old at + 1) (2 ^ 32 - 1)) self.old self.new) }
        ensures err { OnErr result (self.new ≡ self.old) }
    {
        let before = self.get(at);
        if before < u32::MAX && !self.raise(at) {
            self.set(at, before + 1)?;
        }
        Ok(before)
    }

    /// Raises the number at a place by one where that takes no more digits, and tells whether it did.
    fn raise(&mut self, at: usize) -> bool
        requires { at < 16320 }
        ensures raised { result ≡ true → PutsAt at (slice_index self.old at + 1) self.old self.new }
        ensures same { result ≡ false → self.new ≡ self.old }
    {
        match &mut self.form {
            Form::Few(_) => false,
            Form::Dense(digits) => dense::raise(digits, at),
            Form::Waiting(_) => false,
        }
    }

    /// Raises the number at a place by one, unless it is as great as it can be, now or with others that wait; and makes the
    /// chunk where it isn't there. Places begin to wait where `is_far` says that the place noted before lies in another chunk.
    ///
    /// Fails with `AllocError` where memory wasn't found; then all is as before.
    pub(crate) fn note(&mut self, at: usize, is_far: bool) -> Result<(), AllocError>
        requires { at < 16320 }
        ensures others { OnOk result (PutsAt at (slice_index self.new at) self.old self.new) }
        ensures added { OnOk result (slice_index self.old at < 2 ^ 32 - 1 → slice_index self.new at ≡ slice_index self.old at + 1) }
        ensures err { OnErr result (self.new ≡ self.old) }
    {
        self.make_room(is_far)?;
        self.wait_or_add(at)
    }

    /// Makes room for places to wait: counts those that wait where there are no more, and begins to let them wait where the
    /// list of places is as long as it may be. Want of memory leaves all as before, as each number is in any case.
    fn make_room(&mut self, is_far: bool) -> Result<(), AllocError>
        ensures { self.new ≡ self.old }
    {
        if let Form::Waiting(waiting) = &mut self.form {
            if waiting.is_full() {
                waiting.count_where_room();
            }
            return Ok(());
        }
        if is_far && self.is_full() {
            self.spread(true)?;
        }
        Ok(())
    }

    /// Lets the place wait where it can; else raises its number by one, unless it is as great as it can be. Want of memory
    /// leaves all as before.
    fn wait_or_add(&mut self, at: usize) -> Result<(), AllocError>
        requires { at < 16320 }
        ensures others { OnOk result (PutsAt at (slice_index self.new at) self.old self.new) }
        ensures added { OnOk result (slice_index self.old at < 2 ^ 32 - 1 → slice_index self.new at ≡ slice_index self.old at + 1) }
        ensures err { OnErr result (self.new ≡ self.old) }
    {
        if let Form::Waiting(waiting) = &mut self.form {
            if !waiting.is_full() {
                return waiting.wait(at);
            }
        }
        self.saturating_add(at)?;
        Ok(())
    }

    /// Counts the places that wait. Where memory for their numbers isn't found, some of them go on waiting. All numbers are as
    /// before.
    pub(crate) fn settle(&mut self)
        ensures { self.new ≡ self.old }
    {
        let Form::Waiting(waiting) = &mut self.form else {
            return;
        };
        waiting.count_where_room();
        match waiting.counted() {
            Ok(digits) => self.form = Form::Dense(digits),
            Err(_) => {}
        }
    }

    /// Whether all of so many numbers from a place on are seen to be this one. It takes no memory.
    ///
    /// Of a chunk of few numbers only the number 0 is seen.
    pub fn are_all(&self, at: usize, len: usize, number: u32) -> bool
        requires { at + len ≤ 16320 }
        ensures { result ≡ true → (k : ℕ) → k < len → slice_index self.now (at + k) ≡ number }
    {
        match &self.form {
            Form::Few(entries) => number == 0 && few::are_none(entries, at, len),
            Form::Dense(digits) => dense::are_all(digits, at, len, number),
            Form::Waiting(waiting) => waiting.are_all(at, len, number),
        }
    }

    /// How many of the first `covered` numbers of a chunk that is made are 0. It takes no memory.
    pub fn zeros(&self, covered: usize) -> usize
        requires made { length self.now ≡ 16320 }
        requires covered { covered ≤ 16320 }
        ensures zeros { result ≡ count_by (λ n. n == 0) (take covered self.now) }
        ensures most { result ≤ covered }
    {
        match &self.form {
            Form::Few(entries) => covered - few::counted_below(entries, covered),
            Form::Dense(digits) => dense::zeros(digits, covered),
            Form::Waiting(waiting) => waiting.zeros(covered),
        }
    }

    /// The first place with a number of `least` or more, from a place on. It takes no memory.
    pub fn first(&self, from: usize, least: u32) -> Option<usize>
        requires from { from ≤ 16320 }
        requires least { 0 < least }
        ensures { MatchOption result ((k : ℕ) → from ≤ k → slice_index self.now k < least)
            (λ at. (from ≤ at) × ((at < 16320) × ((least ≤ slice_index self.now at)
            × ((k : ℕ) → from ≤ k → k < at → slice_index self.now k < least)))) }
    {
        match &self.form {
            Form::Few(entries) => few::first_entered(entries, from, least),
            Form::Dense(digits) => dense::first(digits, from, least),
            Form::Waiting(waiting) => waiting.first(from, least),
        }
    }

    /// Writes the numbers of a chunk that is made. It takes no memory.
    pub fn copy(&self, numbers: &mut [u32])
        requires made { length self.now ≡ 16320 }
        requires size { length numbers.old ≡ 16320 }
        ensures { numbers.new ≡ self.now }
    {
        match &self.form {
            Form::Few(entries) => few::copy(entries, numbers),
            Form::Dense(digits) => dense::copy(digits, numbers),
            Form::Waiting(waiting) => waiting.copy(numbers),
        }
    }
}
