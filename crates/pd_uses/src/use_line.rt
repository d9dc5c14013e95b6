//! The line of a use, made of that of the use before where their blocks differ in the last two digits alone (`thin_rmap`).

ghost use Rattle.std.specs.Prelude.{◌≡◌, ◌/◌, ◌+◌, ◌<◌, ◌≤◌, ◌++◌, ◌∷◌, ◌==◌, ◌&&◌, ◌^◌, [], nat_le, length, codes, decimal, IsTrue};
ghost use Rattle.pd_uses.specs.UseLine.{IsNear, set_two, rest_of_line};
ghost use Rattle.pd_uses.specs.Uses.{use_line};

use crate::asking::add_labeled;
use crate::hits::DataUse;
use pd_lines::LineBuffer;
use std::marker::Model;

/// The line of a use, with its line feed.
#[derive(Drop)]
pub(crate) struct UseLine {
    one: DataUse,
    bytes: [u8; 161],
    len: usize,
    /// How many bytes there are up to the end of the data block.
    head: usize,
}

impl Model for UseLine {
    ghost use Rattle.std.specs.Prelude.{◌≡◌, ◌≤◌, ◌++◌, codes, decimal, length, take};
    ghost use Rattle.pd_uses.specs.declared.hits.DataUse.{DataUse as OneUse};
    ghost use Rattle.pd_uses.specs.Uses.{use_line};

    ghost Value = { OneUse };

    ghost view = { λ line. line.one };

    ghost invariant = { λ line. (take line.len line.bytes ≡ use_line line.one)
        × ((line.len ≤ 161) × (line.head ≡ length (codes "block " ++ decimal line.one.block))) };
}

impl UseLine {
    /// The line of this use.
    pub(crate) fn of(one: DataUse) -> UseLine
        ensures { result ≡ one }
    {
        let mut line = head_of(one.block);
        let head = line.as_bytes().len();
        add_rest(&mut line, one);
        UseLine::with_text(one, line.as_bytes(), head)
    }

    /// The line of a use that has this text.
    fn with_text(one: DataUse, text: &[u8], head: usize) -> UseLine
        requires short { length text.now ≤ 161 }
        requires text { text.now ≡ use_line one }
        requires head { head ≡ length (codes "block " ++ decimal one.block) }
        ensures { result ≡ one }
    {
        let mut bytes = [0; 161];
        bytes[..text.len()].copy_from_slice(text);
        UseLine {
            one,
            bytes,
            len: text.len(),
            head,
        }
    }

    /// Becomes the line of this use.
    pub(crate) fn go_to(&mut self, one: DataUse)
        ensures { self.new ≡ one }
    {
        if !is_near(self.one, one) {
            *self = UseLine::of(one);
            return;
        }
        fits(self.one);
        fits(one);
        put_two(&mut self.bytes, self.head.saturating_sub(2), one.block);
        put_two(&mut self.bytes, self.len.saturating_sub(3), one.virt);
        self.one = one;
    }

    /// Its bytes.
    pub(crate) fn as_bytes(&self) -> &[u8]
        ensures bytes { result.now ≡ use_line self.now }
        ensures len { length result.now ≤ 161 }
    {
        &self.bytes[..self.len]
    }
}

/// The line of a use up to the end of the data block.
fn head_of(block: u64) -> LineBuffer
    ensures bytes { result ≡ codes "block " ++ decimal block }
    ensures len { length result ≤ 26 }
{
    let mut line = LineBuffer::new();
    add_labeled(&mut line, b"block ", block);
    line
}

/// Adds what is behind the data block.
fn add_rest(line: &mut LineBuffer, one: DataUse)
    requires { length line.old ≤ 26 }
    ensures { line.new ≡ line.old ++ rest_of_line one }
{
    add_labeled(line, b" device ", one.id);
    add_labeled(line, b" virtual ", one.virt);
    line.add(b"\n");
}

/// The numbers of blocks fit their types.
fn fits(one: DataUse)
    ensures block { one.block < 2 ^ 64 }
    ensures virt { one.virt < 2 ^ 64 }
{}

/// Whether the lines of two uses differ in the last two digits of the data block and of the virtual block alone.
fn is_near(old: DataUse, new: DataUse) -> bool
    ensures { IsTrue result → IsNear old new }
{
    let block = is_beside(old.block, new.block);
    let virt = is_beside(old.virt, new.virt);
    let near = block & virt;
    near & (old.id == new.id)
}

/// Whether two numbers differ in their last two digits alone, and have more.
fn is_beside(old: u64, new: u64) -> bool
    ensures { result ≡ ((old / 100 == new / 100) && nat_le 100 old) }
{
    (old / 100 == new / 100) & (old >= 100)
}

/// Puts the last two digits of a number at a place.
fn put_two(bytes: &mut [u8], at: usize, number: u64)
    requires { at + 1 < length bytes.old }
    ensures { bytes.new ≡ set_two bytes.old at number }
{
    bytes[at] = b'0' + (number / 10 % 10) as u8;
    bytes[at + 1] = b'0' + (number % 10) as u8;
}
