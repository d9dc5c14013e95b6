//! The causes of a refusal.

ghost use Rattle.std.specs.Prelude.{◌≡◌, ◌≤◌, length};
ghost use Rattle.pd_grammar.specs.Lines.{cause_name, cause_number};

/// Why a line of a text is refused, by its number.
///
/// They are looked at in another order: `TooLong`, `NoEnd`, `Header`, `Word`, `Number`, `OutOfRange`, `Order`,
/// `MappedDiffers`, `Repeated` and `Unused`; after the `end` line `AfterEnd` alone.
#[derive(Clone, Copy, Debug, PartialEq, Eq)]
pub enum TextCause {
    /// Line 1 isn't the first line of a text of this kind.
    Header = 1,
    /// A byte isn't printed, a keyword may not stand here, the number of words is wrong, or a uuid or a policy
    /// name isn't of its form.
    Word = 2,
    /// A word isn't a number of canonical form below 2^64.
    Number = 3,
    /// A number isn't above those of the lines before.
    Order = 4,
    /// A number isn't in its range.
    OutOfRange = 5,
    /// The lines give other numbers of blocks than was said.
    MappedDiffers = 6,
    /// The line has more than 160 bytes.
    TooLong = 7,
    /// The input ends before the line does.
    NoEnd = 8,
    /// There are bytes after the `end` line.
    AfterEnd = 9,
    /// An earlier line has this origin.
    Repeated = 10,
    /// No device uses one of the shared leaves.
    Unused = 11,
}

impl TextCause {
    /// The cause's number, from 1.
    pub fn number(self) -> u8
        ensures { result ≡ cause_number self }
    {
        match self {
            TextCause::Header => 1,
            TextCause::Word => 2,
            TextCause::Number => 3,
            TextCause::Order => 4,
            TextCause::OutOfRange => 5,
            TextCause::MappedDiffers => 6,
            TextCause::TooLong => 7,
            TextCause::NoEnd => 8,
            TextCause::AfterEnd => 9,
            TextCause::Repeated => 10,
            TextCause::Unused => 11,
        }
    }

    /// The cause's printed name.
    pub fn name(self) -> &'static str
        ensures name { result.now ≡ cause_name self }
        ensures short { length result.now ≤ 14 }
    {
        match self {
            TextCause::Header => "header",
            TextCause::Word => "word",
            TextCause::Number => "number",
            TextCause::Order => "order",
            TextCause::OutOfRange => "out of range",
            TextCause::MappedDiffers => "mapped differs",
            TextCause::TooLong => "too long",
            TextCause::NoEnd => "no end",
            TextCause::AfterEnd => "after end",
            TextCause::Repeated => "repeated",
            TextCause::Unused => "unused",
        }
    }
}
