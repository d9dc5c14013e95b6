//! The words of a line: numbers and uuids (`thin_restore`, `cache_restore`, `era_restore`).

ghost use Rattle.std.specs.Prelude.{◌≡◌, ◌&&◌, ◌+◌, ◌*◌, ◌-◌, ◌^◌, nat_lt, if◌then◌else◌, ◌∷◌, ◌≤◌, length, take, true};
ghost use Rattle.std.specs.Prelude.{Some, None, ◌<◌, slice_index, is_some, Ok, Err, MatchResult};
ghost use Rattle.std.specs.Char.{is_ascii_digit};
ghost use Rattle.std.specs.Str.{all_ascii_digits};
ghost use Rattle.std.specs.Str.Parse.{digits_value};
ghost use Rattle.pd_grammar.specs.Texts.{split, is_canonical, number_of, uuid_of, policy_of};
ghost use Rattle.pd_grammar.specs.Tables.{value_of, values_in};
ghost use Rattle.pd_grammar.proofs.TableLemmas.{values_at};
ghost use Rattle.pd_texts.specs.Words.{first_word, words_in, is_name, value_by, name_at};

use pd_grammar::{Field, TextCause};
use uuid::Uuid;

/// The first word, and what follows it after a space.
pub(crate) fn cut_word(bytes: &[u8]) -> (&[u8], Option<&[u8]>)
    ensures { split 32 bytes.now ≡ result.0.now ∷ words_in result.1 }
{
    for i in 0..bytes.len() {
        if bytes[i] == b' ' {
            return (&bytes[..i], Some(&bytes[i + 1..]));
        }
    }
    (bytes, None)
}

/// The number with a digit more.
fn with_digit(value: u64, byte: u8) -> Option<u64>
    ensures { result ≡ (if is_ascii_digit byte && nat_lt (value * 10 + (byte - 48)) (2 ^ 64)
        then Some (value * 10 + (byte - 48)) else None) }
{
    if byte < 48 || byte > 57 {
        return None;
    }
    match value.checked_mul(10) {
        Some(tens) => tens.checked_add((byte - 48) as u64),
        None => None,
    }
}

/// The number below 2 ^ 64 that digits are.
fn digits_number(word: &[u8]) -> Option<u64>
    ensures { result ≡ (if all_ascii_digits word.now && nat_lt (digits_value 10 word.now) (2 ^ 64)
        then Some (digits_value 10 word.now) else None) }
{
    let mut value = 0;
    for b in word {
        match with_digit(value, *b) {
            Some(next) => value = next,
            None => return None,
        }
    }
    Some(value)
}

/// The number below 2 ^ 64 that a word is, without leading zeros.
#[tactic(auto, unfolding(pd_grammar::specs::Texts::number_of, pd_grammar::specs::Texts::is_canonical))]
pub fn number_word(word: &[u8]) -> Option<u64>
    ensures { result ≡ number_of word.now }
{
    match word {
        [] => None,
        [first, _, ..] if *first == b'0' => None,
        _ => digits_number(word),
    }
}

/// The number that the first word is, and what follows that word after a space.
pub(crate) fn cut_number(bytes: &[u8]) -> (Option<u64>, Option<&[u8]>)
    ensures cut { split 32 bytes.now ≡ first_word bytes.now ∷ words_in result.1 }
    ensures number { result.0 ≡ number_of (first_word bytes.now) }
{
    let (value, len) = first_digits(bytes);
    if !is_canonical(&bytes[..len]) {
        return cut_any_number(bytes);
    }
    if len == bytes.len() {
        return (Some(value), None);
    }
    if bytes[len] == b' ' {
        return (Some(value), Some(&bytes[len + 1..]));
    }
    cut_any_number(bytes)
}

/// The same, of a word of any bytes.
fn cut_any_number(bytes: &[u8]) -> (Option<u64>, Option<&[u8]>)
    ensures cut { split 32 bytes.now ≡ first_word bytes.now ∷ words_in result.1 }
    ensures number { result.0 ≡ number_of (first_word bytes.now) }
{
    let (word, rest) = cut_word(bytes);
    (number_word(word), rest)
}

/// The number that the first digits are, and how many they are: at most 19, which fit.
fn first_digits(bytes: &[u8]) -> (u64, usize)
    ensures within { result.1 ≤ length bytes.now }
    ensures digits { all_ascii_digits (take result.1 bytes.now) ≡ true }
    ensures value { result.0 ≡ digits_value 10 (take result.1 bytes.now) }
{
    let most = bytes.len().min(19);
    let mut value = 0;
    for i in 0..most {
        let byte = bytes[i];
        if !byte.is_ascii_digit() {
            return (value, i);
        }
        value = value * 10 + (byte - b'0') as u64;
    }
    (value, most)
}

/// Whether there are digits, and no leading zero among them.
#[tactic(auto, unfolding(pd_grammar::specs::Texts::is_canonical))]
fn is_canonical(digits: &[u8]) -> bool
    ensures { all_ascii_digits digits.now ≡ true → result ≡ is_canonical digits.now }
{
    match digits {
        [] => false,
        [first, _, ..] => *first != b'0',
        _ => true,
    }
}

/// The uuid that a word is, in its hyphenated form in lower case.
#[tactic(auto, unfolding(pd_grammar::specs::Texts::bytes_of))]
pub fn read_uuid(word: &[u8]) -> Option<[u8; 16]>
    ensures { result ≡ uuid_of word.now }
{
    let Ok(uuid) = Uuid::try_parse_ascii(word) else {
        return None;
    };
    let mut buffer = Uuid::encode_buffer();
    let text = uuid.hyphenated().encode_lower(&mut buffer);
    if text.as_bytes() == word {
        Some(uuid.into_bytes())
    } else {
        None
    }
}

// The values of a line, by its fields (`thin_restore`, `cache_restore`, `era_restore`).

/// The identifiers of a line, each in the place of its field.
pub type Names = [[u8; 16]; 9];

/// The numbers of a line, each in the place of its field.
pub type Numbers = [u64; 9];

/// The policy name that a word is: 32 hexadecimal digits in lower case.
#[tactic(auto, unfolding(pd_grammar::specs::Texts::bytes_of))]
fn read_policy(word: &[u8]) -> Option<[u8; 16]>
    ensures { result ≡ policy_of word.now }
{
    let mut name = [0; 16];
    if hex::decode_to_slice(word, &mut name).is_err() {
        return None;
    }
    let mut text = [0; 32];
    if hex::encode_to_slice(name, &mut text).is_ok() && text.as_slice() == word {
        Some(name)
    } else {
        None
    }
}

/// Reads the value of the first word into its place, and answers whether the word is one, and what follows it.
fn put_value<'a>(
    names: &mut [[u8; 16]],
    numbers: &mut [u64],
    i: usize,
    field: Field,
    text: &'a [u8],
) -> (bool, Option<&'a [u8]>)
    requires names { i < length names.old }
    requires numbers { i < length numbers.old }
    ensures cut { split 32 text.now ≡ first_word text.now ∷ words_in result.1 }
    ensures read { result.0 ≡ is_some (value_of field (first_word text.now)) }
    ensures put { result.0 ≡ true → value_of field (first_word text.now)
        ≡ Some (value_by field (name_at names.new i) (slice_index numbers.new i)) }
    ensures names_before { take i names.new ≡ take i names.old }
    ensures numbers_before { take i numbers.new ≡ take i numbers.old }
    ensures names_len { length names.new ≡ length names.old }
    ensures numbers_len { length numbers.new ≡ length numbers.old }
{
    match field {
        Field::Number => {
            let (number, rest) = cut_number(text);
            (put_number(numbers, i, number), rest)
        }
        Field::Uuid => {
            let (word, rest) = cut_word(text);
            (put_name(names, i, read_uuid(word)), rest)
        }
        Field::Policy => {
            let (word, rest) = cut_word(text);
            (put_name(names, i, read_policy(word)), rest)
        }
    }
}

/// Puts a number into its place, and answers whether there is one.
fn put_number(numbers: &mut [u64], i: usize, number: Option<u64>) -> bool
    requires { i < length numbers.old }
    ensures read { result ≡ is_some number }
    ensures put { result ≡ true → number ≡ Some (slice_index numbers.new i) }
    ensures before { take i numbers.new ≡ take i numbers.old }
    ensures len { length numbers.new ≡ length numbers.old }
{
    match number {
        Some(value) => {
            numbers[i] = value;
            true
        }
        None => false,
    }
}

/// Puts an identifier into its place, and answers whether there is one.
fn put_name(names: &mut [[u8; 16]], i: usize, name: Option<[u8; 16]>) -> bool
    requires { i < length names.old }
    ensures read { result ≡ is_some name }
    ensures put { result ≡ true → name ≡ Some (name_at names.new i) }
    ensures before { take i names.new ≡ take i names.old }
    ensures len { length names.new ≡ length names.old }
{
    match name {
        Some(bytes) => {
            names[i] = bytes;
            true
        }
        None => false,
    }
}

/// Reads the values of the words of fields, a word for each, identifiers and numbers each into their places. `Word` where
/// there are more or fewer words, or where one isn't an identifier, else `Number` where one isn't a number.
pub(crate) fn read_values(
    fields: &[Field],
    words: Option<&[u8]>,
    names: &mut [[u8; 16]],
    numbers: &mut [u64],
) -> Result<(), TextCause>
    requires names { length fields.now ≤ length names.old }
    requires numbers { length fields.now ≤ length numbers.old }
    ensures { MatchResult result (λ _. values_in fields.now (words_in words.entry) ≡ Ok (values_at fields.now (name_at names.new)
        (slice_index numbers.new))) (λ cause. values_in fields.now (words_in words.entry) ≡ Err cause) }
{
    let mut rest = words;
    let mut all = true;
    for i in 0..fields.len() {
        let text = match rest {
            Some(text) => text,
            None => return Err(TextCause::Word),
        };
        let (good, next) = put_value(names, numbers, i, fields[i], text);
        rest = next;
        if !good & is_name(fields[i]) {
            return Err(TextCause::Word);
        }
        all = all & good;
    }
    if rest.is_some() {
        return Err(TextCause::Word);
    }
    if all { Ok(()) } else { Err(TextCause::Number) }
}

/// Whether a field has an identifier.
fn is_name(field: Field) -> bool
    ensures { result ≡ is_name field }
{
    match field {
        Field::Uuid | Field::Policy => true,
        Field::Number => false,
    }
}
