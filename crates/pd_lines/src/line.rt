//! A line that is put together in a buffer.

ghost use Rattle.std.specs.Prelude.{◌≡◌, ℕ, ◌+◌, ◌≤◌, ◌++◌, List, [], length, take, decimal, OnOk};
ghost use Rattle.pd_kinds.specs.Objects.{CountsFault, Appends, AppendsFront};
ghost use Rattle.pd_image.specs.Sink.{KeepsSink};

use itoa::{Buffer, write_digits};
use pd_image::{Failed, Sink};
use std::marker::Model;

/// The greatest number of bytes of a line, without its line feed.
pub const LINE_ROOM: usize = 160;

/// A text of at most `N` bytes while it is put together.
#[derive(Drop)]
pub struct TextBuffer<const N: usize> {
    bytes: [u8; N],
    len: usize,
}

/// A line while it is put together, with its line feed.
pub type LineBuffer = TextBuffer<161>;

/// How many bytes of text are gathered before they are put.
pub const PIECE_ROOM: usize = 16384;

/// The lines of a text while they are put together.
pub type PieceBuffer = TextBuffer<PIECE_ROOM>;

impl<const N: usize> Model for TextBuffer<N> {
    ghost Value = { List ℕ };

    ghost view = { λ text. take text.len text.bytes };

    ghost invariant = { λ text. text.len ≤ N };
}

impl<const N: usize> TextBuffer<N> {
    /// A text without bytes.
    pub fn new() -> TextBuffer<N>
        ensures { result ≡ [] }
    {
        TextBuffer {
            bytes: [0; N],
            len: 0,
        }
    }

    /// Adds the bytes at the end.
    pub fn add(&mut self, text: &[u8])
        requires { length self.old + length text.now ≤ N }
        ensures bytes { self.new ≡ self.old ++ text.now }
        ensures len { length self.new ≡ length self.old + length text.now }
    {
        let end = self.len + text.len();
        let bytes = &mut self.bytes[..];
        bytes[self.len..end].copy_from_slice(text);
        self.len = end;
    }

    /// Adds the number in decimal, without leading zeros.
    pub fn add_number(&mut self, number: u64)
        requires { length self.old + 20 ≤ N }
        ensures bytes { self.new ≡ self.old ++ decimal number }
        ensures len { length self.new ≤ length self.old + 20 }
    {
        self.len = write_number(&mut self.bytes, self.len, number);
    }

    /// Has no bytes any more.
    pub fn clear(&mut self)
        ensures { self.new ≡ [] }
    {
        self.len = 0;
    }

    /// How many bytes can still be added.
    pub(crate) fn free(&self) -> usize
        ensures { result + length self.now ≡ N }
    {
        N - self.len
    }

    /// The bytes so far.
    pub fn as_bytes(&self) -> &[u8]
        ensures bytes { result.now ≡ self.now }
        ensures len { length result.now ≤ N }
    {
        &self.bytes[..self.len]
    }
}

// A number, put in decimal.

/// Puts the number in decimal, without leading zeros.
pub fn put_number<K: Sink>(number: u128, out: &mut K) -> Result<(), Failed>
    requires { (K.state out.old).access ≡ 1 }
    ensures whole { OnOk result (Appends (decimal number) (K.state out.old).written (K.state out.new).written) }
    ensures front { AppendsFront (decimal number) (K.state out.old).written (K.state out.new).written }
    ensures kept { KeepsSink (K.state out.old) (K.state out.new) }
    ensures faults { CountsFault result (K.state out.old).faults (K.state out.new).faults }
{
    let mut buffer = Buffer::new();
    out.put(buffer.format(number).as_bytes())
}

/// Writes the number in decimal behind the first `len` bytes, and answers how many bytes there are then.
pub(crate) fn write_number(bytes: &mut [u8], len: usize, number: u64) -> usize
    requires { len + 20 ≤ length bytes.old }
    ensures bytes { take result bytes.new ≡ take len bytes.old ++ decimal number }
    ensures len { result ≤ len + 20 }
{
    let end = len + digits_of(number);
    write_digits(number, bytes, end);
    end
}

/// How many digits the number has in decimal, without leading zeros.
fn digits_of(number: u64) -> usize
    ensures digits { result ≡ length (decimal number) }
    ensures few { result ≤ 20 }
{
    if number < 10 {
        return 1;
    }
    number.ilog10() as usize + 1
}

// A line of a text, as it is printed.

/// A line of a text.
pub trait TextLine {
    /// Its bytes, with its line feed.
    ghost bytes: { Self → List ℕ };

    /// Adds its bytes, with its line feed: at most 161.
    fn add_to(&self, text: &mut PieceBuffer)
        requires { length text.old + 161 ≤ 16384 }
        ensures { text.new ≡ text.old ++ bytes self.now };
}

/// Puts a line. It takes no memory.
pub fn put_line<L: TextLine, K: Sink>(line: &L, out: &mut K) -> Result<(), Failed>
    requires { (K.state out.old).access ≡ 1 }
    ensures whole { OnOk result (Appends (L.bytes line.now) (K.state out.old).written (K.state out.new).written) }
    ensures front { AppendsFront (L.bytes line.now) (K.state out.old).written (K.state out.new).written }
    ensures kept { KeepsSink (K.state out.old) (K.state out.new) }
    ensures faults { CountsFault result (K.state out.old).faults (K.state out.new).faults }
{
    let mut text = PieceBuffer::new();
    line.add_to(&mut text);
    out.put(text.as_bytes())
}
