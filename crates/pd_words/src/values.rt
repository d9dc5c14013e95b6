//! What is given for a word of the table: its value, whether there is one, or whether a flag is set.

ghost use Rattle.std.specs.Prelude.{◌≡◌, ◌≤◌, ◌+◌, map, string_bytes, IfSome, ◌^◌};
ghost use Rattle.std.specs.Option.{option_and_then, option_copied, option_map};
ghost use Rattle.pd_answers.specs.declared.tool.Value.TheVariants as value_spec;
ghost use Rattle.pd_answers.specs.Words.{at_most_one, given, is_set, meant_if_any, number_below, single_value, region_of};
ghost use Rattle.pd_words.specs.Items.{items_in, AreItems, region_as, region_from};

use crate::items::{Given, given_for};
use crate::table::NamedWord;
use itoa::Buffer;

/// The value of an option that is wanted, or the operand.
pub(crate) fn required<'a>(words: &'a [String], word: NamedWord) -> Option<&'a str>
    requires { AreItems (map string_bytes words.now) }
    ensures { option_copied result ≡ single_value (given word.entry.name.now (items_in (map string_bytes words.now))) }
{
    match given_for(words, word.name) {
        Given::Once(value) => Some(value),
        _ => None,
    }
}

/// The value of an option that may be left out.
pub(crate) fn optional<'a>(words: &'a [String], word: NamedWord) -> Option<Option<&'a str>>
    requires { AreItems (map string_bytes words.now) }
    ensures { option_map option_copied result ≡ at_most_one (given word.entry.name.now (items_in (map string_bytes words.now))) }
{
    match given_for(words, word.name) {
        Given::Never => Some(None),
        Given::Once(value) => Some(Some(value)),
        Given::Often => None,
    }
}

/// Whether a flag is set.
pub(crate) fn flag(words: &[String], word: NamedWord) -> Option<bool>
    requires { AreItems (map string_bytes words.now) }
    ensures { result ≡ is_set (given word.entry.name.now (items_in (map string_bytes words.now))) }
{
    match given_for(words, word.name) {
        Given::Never => Some(false),
        Given::Once(_) => Some(true),
        Given::Often => None,
    }
}

/// The number up to `most` that the value of an option is, which is wanted.
pub(crate) fn required_number(words: &[String], most: u64, word: NamedWord) -> Option<u64>
    requires { AreItems (map string_bytes words.now) }
    ensures number { result ≡ option_and_then (number_below (most + 1))
        (single_value (given word.entry.name.now (items_in (map string_bytes words.now)))) }
    ensures within { IfSome result (λ number. number ≤ most) }
{
    match required(words, word) {
        None => None,
        Some(word) => number_up_to(most, word),
    }
}

/// The number up to `most` that the value of an option is, where it is given.
pub(crate) fn optional_number(words: &[String], most: u64, word: NamedWord) -> Option<Option<u64>>
    requires { AreItems (map string_bytes words.now) }
    ensures { result ≡ option_and_then (meant_if_any (value_spec.UpTo most))
        (at_most_one (given word.entry.name.now (items_in (map string_bytes words.now)))) }
{
    match optional(words, word)? {
        None => Some(None),
        Some(word) => match number_up_to(most, word) {
            None => None,
            Some(number) => Some(Some(number)),
        },
    }
}

// The numbers that words are, and regions between two numbers.

/// The blocks from the first one on and below the end.
#[derive(Clone, Copy)]
pub(crate) struct Region {
    pub(crate) first: u64,
    /// The block after the last one, not below the first.
    pub(crate) end: u64,
}

/// The number that a word is in decimal, without leading zeros.
///
/// A word is read as Rust reads a number, which may have a sign and zeros before it, and must then be what the number
/// prints as.
pub(crate) fn number(word: &str) -> Option<u64>
    ensures { result ≡ number_below (2 ^ 64) word.now }
{
    let number = match word.parse::<u64>() {
        Ok(number) => number,
        Err(_) => return None,
    };
    let mut buffer = Buffer::new();
    if buffer.format(number) == word {
        Some(number)
    } else {
        None
    }
}

/// The number up to `most` that a word is in decimal, without leading zeros.
pub(crate) fn number_up_to(most: u64, word: &str) -> Option<u64>
    ensures number { result ≡ number_below (most + 1) word.now }
    ensures within { IfSome result (λ number. number ≤ most) }
{
    match number(word) {
        None => None,
        Some(number) => { if number <= most { Some(number) } else { None } }
    }
}

/// The region that a word is: two numbers with two points between them, of which the first isn't above the second.
pub(crate) fn read_region(word: &str) -> Option<Region>
    ensures { region_as result ≡ region_of word.now }
{
    match word.split_once('.') {
        None => None,
        Some((begin, rest)) => match rest.strip_prefix('.') {
            None => None,
            Some(end) => region_between(begin, end),
        },
    }
}

/// The region between two words.
fn region_between(begin: &str, end: &str) -> Option<Region>
    ensures { region_as result ≡ region_from begin.now end.now }
{
    match number(begin) {
        None => None,
        Some(first) => match number(end) {
            None => None,
            Some(end) => {
                if end < first {
                    None
                } else {
                    Some(Region { first, end })
                }
            }
        },
    }
}
