//! The numbers of all places of a chunk, as digits of a byte.
//!
//! The lowest digits of all places stand first, then the second ones, and so on, as far as a number that was put
//! needs them: 16320 bytes where all numbers are below 256, 32640 where all are below 65536, and 65280 else.

ghost use Rattle.std.specs.Prelude.{◌≡◌, ◌≢◌, ℕ, ◌+◌, ◌*◌, ◌%◌, ◌^◌, ◌<◌, ◌≤◌, ◌==◌, true, false, length};
ghost use Rattle.std.specs.Prelude.{map, slice_index, IfOk, OnOk, OnErr, MatchOption};
ghost use Rattle.std.specs.List.{count_by, range_with_len};
ghost use Rattle.pd_count.specs.Counted.{AreDigits, AreEntries, HasRoom, Puts, digits_number, entered};

use crate::CHUNK_COUNTS;
use crate::few::Entry;
use std::alloc::{AllocError, Global};

/// A digit, which is 0 where it isn't there.
fn digit(digits: &[u8], i: usize) -> u32
    ensures digit { result ≡ slice_index digits.now i }
    ensures most { result < 256 }
{
    match digits.get(i) {
        Some(digit) => u32::from(*digit),
        None => 0,
    }
}

/// The number of a place, without its lowest digit.
fn high(digits: &[u8], at: usize) -> u32
    requires { at < 16320 }
    ensures number { result ≡ slice_index digits.now (16320 + at)
        + 256 * (slice_index digits.now (32640 + at) + 256 * slice_index digits.now (48960 + at)) }
    ensures most { result < 2 ^ 24 }
{
    let second = digit(digits, CHUNK_COUNTS + at);
    let third = digit(digits, 2 * CHUNK_COUNTS + at);
    let fourth = digit(digits, 3 * CHUNK_COUNTS + at);
    second + 256 * (third + 256 * fourth)
}

/// The number of a place.
pub(crate) fn number(digits: &[u8], at: usize) -> u32
    requires digits { AreDigits digits.now }
    requires place { at < 16320 }
    ensures { result ≡ digits_number digits.now at }
{
    let low = u32::from(digits[at]);
    if digits.len() == CHUNK_COUNTS {
        return low;
    }
    low + 256 * high(digits, at)
}

/// How many digits a place is to have for the number.
fn digits_of(number: u32) -> usize
    ensures room { HasRoom number (16320 * result) }
    ensures least { 1 ≤ result }
    ensures most { result ≤ 4 }
{
    if number < 256 {
        1
    } else if number < 65536 {
        2
    } else {
        4
    }
}

/// Makes room for the number, and leaves all numbers as they are. Want of memory leaves all as before.
fn take_memory(digits: &mut Vec<u8>, number: u32) -> Result<(), AllocError>
    requires { length digits.old.items % 16320 ≡ 0 }
    ensures digits { OnOk result (AreDigits digits.new.items) }
    ensures room { OnOk result (HasRoom number (length digits.new.items)) }
    ensures same { (k : ℕ) → slice_index digits.new.items k ≡ slice_index digits.old.items k }
    ensures err { OnErr result (digits.new.items ≡ digits.old.items) }
{
    let wanted = CHUNK_COUNTS * digits_of(number);
    if digits.len() < wanted {
        digits.resize(wanted, 0)
    } else {
        Ok(())
    }
}

/// Writes a digit. One that isn't there is 0 already.
fn put_digit(digits: &mut [u8], i: usize, digit: u8)
    requires { length digits.old ≤ i → digit ≡ 0 }
    ensures size { length digits.new ≡ length digits.old }
    ensures put { slice_index digits.new i ≡ digit }
    ensures others { (k : ℕ) → k ≢ i → slice_index digits.new k ≡ slice_index digits.old k }
{
    if i < digits.len() {
        digits[i] = digit;
    }
}

/// Writes the digits of a number that has room.
fn write(digits: &mut [u8], at: usize, number: u32)
    requires place { at < 16320 }
    requires some { 16320 ≤ length digits.old }
    requires room { HasRoom number (length digits.old) }
    ensures size { length digits.new ≡ length digits.old }
    ensures put { Puts at number (digits_number digits.old) (digits_number digits.new) }
{
    let second = number / 256;
    let third = second / 256;
    let fourth = third / 256;
    put_digit(digits, at, (number % 256) as u8);
    put_digit(digits, CHUNK_COUNTS + at, (second % 256) as u8);
    put_digit(digits, 2 * CHUNK_COUNTS + at, (third % 256) as u8);
    put_digit(digits, 3 * CHUNK_COUNTS + at, fourth as u8);
}

/// Puts the number of a place. Want of memory leaves all as before.
pub(crate) fn put(digits: &mut Vec<u8>, at: usize, number: u32) -> Result<(), AllocError>
    requires digits { AreDigits digits.old.items }
    requires place { at < 16320 }
    ensures digits { AreDigits digits.new.items }
    ensures put { OnOk result (Puts at number (digits_number digits.old.items) (digits_number digits.new.items)) }
    ensures err { OnErr result (digits.new.items ≡ digits.old.items) }
{
    if number < 256 && digits.len() == CHUNK_COUNTS {
        digits[at] = number as u8;
        return Ok(());
    }
    take_memory(digits, number)?;
    write(digits, at, number);
    Ok(())
}

/// Raises the number of a place by one where its lowest digit has room for that, and tells whether it did.
pub(crate) fn raise(digits: &mut [u8], at: usize) -> bool
    requires digits { AreDigits digits.old }
    requires place { at < 16320 }
    ensures digits { AreDigits digits.new }
    ensures raised { result ≡ true → Puts at (digits_number digits.old at + 1) (digits_number digits.old) (digits_number digits.new) }
    ensures same { result ≡ false → digits.new ≡ digits.old }
{
    let room = digits[at] < u8::MAX;
    if room {
        digits[at] += 1;
    }
    room
}

/// The digits of the numbers of these entries.
///
/// Fails with `AllocError` where memory for them wasn't found.
pub(crate) fn spread(alloc: Global, entries: &[Entry]) -> Result<Vec<u8>, AllocError>
    requires { AreEntries entries.now }
    ensures digits { IfOk result (λ digits. AreDigits digits.items) }
    ensures numbers { IfOk result (λ digits. (k : ℕ) → k < 16320 → digits_number digits.items k ≡ entered entries.now k) }
{
    let mut digits = Vec::new(alloc);
    take_memory(&mut digits, 0)?;
    for i in 0..entries.len() {
        put(&mut digits, entries[i].place(), entries[i].number())?;
    }
    Ok(digits)
}

/// How many places below `covered` have the number 0.
pub(crate) fn zeros(digits: &[u8], covered: usize) -> usize
    requires digits { AreDigits digits.now }
    requires covered { covered ≤ 16320 }
    ensures zeros { result ≡ count_by (λ n. n == 0) (map (digits_number digits.now) (range_with_len 0 covered)) }
    ensures most { result ≤ covered }
{
    let mut zeros = 0;
    for at in 0..covered {
        zeros += usize::from(number(digits, at) == 0);
    }
    zeros
}

/// The first place with a number of `least` or more, from a place on.
pub(crate) fn first(digits: &[u8], from: usize, least: u32) -> Option<usize>
    requires { AreDigits digits.now }
    ensures { MatchOption result ((k : ℕ) → from ≤ k → k < 16320 → digits_number digits.now k < least)
        (λ at. (from ≤ at) × ((at < 16320) × ((least ≤ digits_number digits.now at)
        × ((k : ℕ) → from ≤ k → k < at → digits_number digits.now k < least)))) }
{
    for at in from..CHUNK_COUNTS {
        if number(digits, at) >= least {
            return Some(at);
        }
    }
    None
}

/// Whether all of so many places from `at` on have this number.
pub(crate) fn are_all(digits: &[u8], at: usize, len: usize, wanted: u32) -> bool
    requires digits { AreDigits digits.now }
    requires places { at + len ≤ 16320 }
    ensures { result ≡ true → (k : ℕ) → k < len → digits_number digits.now (at + k) ≡ wanted }
{
    if digits.len() == CHUNK_COUNTS && wanted < 256 {
        let wanted = wanted as u8;
        return digits[at..at + len].iter().all(|digit| *digit == wanted);
    }
    for place in at..at + len {
        if number(digits, place) != wanted {
            return false;
        }
    }
    true
}

/// Writes the numbers of all places.
pub(crate) fn copy(digits: &[u8], numbers: &mut [u32])
    requires digits { AreDigits digits.now }
    requires size { length numbers.old ≡ 16320 }
    ensures size { length numbers.new ≡ 16320 }
    ensures numbers { (k : ℕ) → k < 16320 → slice_index numbers.new k ≡ digits_number digits.now k }
{
    for at in 0..CHUNK_COUNTS {
        numbers[at] = number(digits, at);
    }
}
