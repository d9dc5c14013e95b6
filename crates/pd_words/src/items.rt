//! The items of a command line: options with their values, flags, and the operand.

ghost use Rattle.std.specs.Prelude.{◌≡◌, ◌<◌, length, map, drop, string_bytes, IfSome, is_some};
ghost use Rattle.std.specs.Option.{option_map};
ghost use Rattle.pd_answers.specs.Words.{is_value, items_of, given, known, takes, tool_in, tool_of};
ghost use Rattle.pd_words.specs.Items.{with_item, IsItemWithin, items_in, values_from, with_found, given_as, AreItems};
ghost use Rattle.pd_words.specs.Table.{word_as, row_as};

use crate::table::{IMAGE, NamedWord, TOOLS, ToolForm, has_word, is_flag};

/// How often something was given.
#[derive(Clone, Copy)]
pub enum Given<'a> {
    /// It wasn't given.
    Never,
    /// It was given once, by this word.
    Once(&'a str),
    /// It was given more than once.
    Often,
}

/// A word that was given, and for what: its value for an option's word, the operand for `IMAGE`, a flag's word for
/// itself.
#[derive(Clone, Copy)]
pub struct Item<'a> {
    /// What it was given for.
    pub purpose: &'a str,
    /// The word.
    pub value: &'a str,
    /// The index of the word after the item.
    pub next: usize,
}

/// A word that was given, and the index of the word after its item.
#[derive(Clone, Copy)]
struct FoundWord<'a> {
    value: &'a str,
    next: usize,
}

/// Whether a word can be a value or an operand.
fn is_operand(word: &str) -> bool
    ensures { result ≡ is_value word.now }
{
    match word.as_bytes() {
        [] => false,
        [first, ..] => *first != b'-',
    }
}

/// The item that begins with this word; none where the word wants a value and has none.
pub fn item_at(words: &[String], at: usize) -> Option<Item<'_>>
    requires { at < length words.now }
    ensures items { items_of (drop at (map string_bytes words.now)) ≡ with_item (map string_bytes words.now) result }
    ensures within { IfSome result (IsItemWithin at (length words.now)) }
{
    let word = words[at].as_str();
    if is_operand(word) {
        return Some(Item {
            purpose: IMAGE.name,
            value: word,
            next: at + 1,
        });
    }
    if is_flag(word) {
        return Some(Item {
            purpose: word,
            value: word,
            next: at + 1,
        });
    }
    if at + 1 >= words.len() {
        return None;
    }
    let value = words[at + 1].as_str();
    if !is_operand(value) {
        return None;
    }
    Some(Item {
        purpose: word,
        value,
        next: at + 2,
    })
}

/// Whether the words from this one on are items that are given for the table's words.
pub fn are_items_of(table: &[NamedWord], words: &[String], begin: usize) -> bool
    ensures { result ≡ is_some (known (map word_as table.now) (items_of (drop begin (map string_bytes words.now)))) }
{
    let mut at = begin;
    while at < words.len() {
        match item_at(words, at) {
            None => return false,
            Some(item) => {
                if !has_word(table, item.purpose) {
                    return false;
                }
                at = item.next;
            }
        }
    }
    true
}

/// The first word from this one on that is given for this.
fn found_from<'a>(words: &'a [String], begin: usize, purpose: &str) -> Option<FoundWord<'a>>
    ensures { with_found (map string_bytes words.now) purpose.now (values_from (map string_bytes words.now) purpose.now begin) result }
{
    let mut at = begin;
    while at < words.len() {
        match item_at(words, at) {
            None => return None,
            Some(item) => {
                if item.purpose == purpose {
                    return Some(FoundWord {
                        value: item.value,
                        next: item.next,
                    });
                }
                at = item.next;
            }
        }
    }
    None
}

/// How often the words after the tool's name give something for an option or a flag, or for the operand.
pub fn given_for<'a>(words: &'a [String], purpose: &str) -> Given<'a>
    requires { AreItems (map string_bytes words.now) }
    ensures { given_as result ≡ given purpose.now (items_in (map string_bytes words.now)) }
{
    match found_from(words, 1, purpose) {
        None => Given::Never,
        Some(first) => match found_from(words, first.next, purpose) {
            None => Given::Once(first.value),
            Some(_) => Given::Often,
        },
    }
}

// The form of a tool that takes the words of a command line.

/// Whether a form has this name, and the words after it are given for its words.
fn takes(row: &ToolForm, words: &[String], name: &str) -> bool
    ensures { result ≡ takes name.now (items_of (drop 1 (map string_bytes words.now))) (row_as row.now) }
{
    if name == row.name {
        are_items_of(row.words, words, 1)
    } else {
        false
    }
}

/// The first of the forms that has this name and takes the words after it.
fn row_named(rows: &[ToolForm], words: &[String], name: &str) -> Option<ToolForm>
    ensures { option_map row_as result ≡ tool_in (map row_as rows.now) name.now (items_of (drop 1 (map string_bytes words.now))) }
{
    for row in rows {
        if takes(row, words, name) {
            return Some(*row);
        }
    }
    None
}

/// The form of the tool of this name that takes the words after it.
pub(crate) fn tool_named(words: &[String], name: &str) -> Option<ToolForm>
    ensures { option_map row_as result ≡ tool_of name.now (items_of (drop 1 (map string_bytes words.now))) }
{
    row_named(&TOOLS, words, name)
}
