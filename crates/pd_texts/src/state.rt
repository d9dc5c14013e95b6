//! A kind of text, as its reader sees it (`thin_restore`, `cache_restore`, `era_restore`).

ghost use Rattle.std.specs.Prelude.{◌≡◌, ◌==◌, ◌≤◌, ℕ, List, [], ◌∷◌, length, Option, Some, None, is_none, true, false, IfOk, IfErr, OnOk};
ghost use Rattle.std.specs.List.{list_all};
ghost use Rattle.std.specs.Option.{option_map};
ghost use Rattle.pd_grammar.specs.Texts.{is_printable, TextFormat, read, tested};
ghost use Rattle.pd_grammar.specs.Tables.{LineKind, Table, format_of, kind_named, may_stand};
ghost use Rattle.pd_texts.specs.Words.{seen_by, made_of};
ghost use Rattle.pd_texts.specs.ThinState.{is_second, is_body};

use crate::words::{Names, Numbers, cut_word, read_values};
use pd_grammar::{Field, TextCause};
use std::alloc::{AllocError, Global};

/// What gives lines of one kind of text.
pub trait TextLines: Drop {
    /// What a line gives that isn't the first or the last one.
    type Line;
}

/// What the lines so far say of the next one, in one kind of text.
pub trait TextState: TextLines {
    /// The kinds of lines after the first one.
    type Kind: Copy;

    /// What a line is in the definitions.
    ghost Meant: { Type 0 };

    /// The format of the text.
    ghost format: { TextFormat Meant };

    /// The table of the format.
    ghost table: { Table Meant };

    /// The format is that of its table.
    ghost by_table: { format ≡ format_of table };

    /// The kind of a line in the definitions.
    ghost kind_meant: { Self.Kind → LineKind Meant };

    /// The first line that was read.
    ghost first_line: { Self → Meant };

    /// What a later line means; none is the last one.
    ghost meant: { Option Self.Line → Meant };

    /// These are the lines so far, the newest first.
    ghost Stands: { Self → List Meant → Type 0 };

    /// No line was read.
    fn start(alloc: Global) -> Self
        ensures { Stands result [] };

    /// Whether no line was read.
    fn is_first(&self) -> bool
        ensures { (before : List Meant) → Stands self.now before → result ≡ (length before == 0) };

    /// Whether what the lines so far say of later ones may want more memory.
    ghost CanWantMemory: { Self → Type 0 };

    /// There is the memory that the next line may want.
    ghost HasRoom: { Self → Type 0 };

    /// Reads the first line, and answers whether it is one of the format.
    fn read_first(&mut self, text: &[u8]) -> bool
        ensures first { result ≡ true → format.first text.now ≡ Some (first_line self.new) }
        ensures other { result ≡ false → format.first text.now ≡ None }
        ensures after { Stands self.old [] → result ≡ true → Stands self.new (first_line self.new ∷ []) };

    /// Takes the memory that the next line may want.
    fn take_memory(&mut self) -> Result<(), AllocError>
        ensures stands { (before : List Meant) → Stands self.old before → Stands self.new before }
        ensures first { first_line self.new ≡ first_line self.old }
        ensures room { OnOk result (HasRoom self.new) }
        ensures memory { IfErr result (λ _. CanWantMemory self.new) };

    /// The kind of line with this keyword.
    fn named(word: &[u8]) -> Option<Self::Kind>
        ensures { option_map kind_meant result ≡ kind_named table.kinds word.now };

    /// The fields of such a line.
    fn fields(kind: Self::Kind) -> &'static [Field]
        ensures fields { result.now ≡ (kind_meant kind).fields }
        ensures few { length result.now ≤ 9 };

    /// Whether such a line may come next.
    fn may_stand(&self, kind: Self::Kind) -> bool
        ensures { (before : List Meant) → Stands self.now before → result ≡ may_stand (kind_meant kind).place before };

    /// Takes a line of these values, of which none is the last one, or says which test it fails. After an error it
    /// says nothing of what a further call gives. It takes no memory.
    fn take(
        &mut self,
        kind: Self::Kind,
        names: &Names,
        numbers: &Numbers,
    ) -> Result<Option<Self::Line>, TextCause>
        ensures line { (before : List Meant) → Stands self.old before → 1 ≤ length before
            → seen_by meant result ≡ tested table.tests before (made_of (kind_meant kind) names.now numbers.now) }
        ensures after { (before : List Meant) → Stands self.old before → 1 ≤ length before
            → HasRoom self.old → may_stand (kind_meant kind).place before ≡ true
            → IfOk result (λ taken. Stands self.new (meant taken ∷ before)) }
        ensures first { first_line self.new ≡ first_line self.old };

    /// The first line has only bytes that a line may have.
    ghost header: { (bytes : List ℕ) → list_all is_printable bytes ≡ false → format.first bytes ≡ None };

    /// The first line isn't the last one.
    ghost begins: { (state : Self) → format.is_end (first_line state) ≡ false };

    /// The last line is the one that gives nothing.
    ghost ends: { (line : Option Self.Line) → format.is_end (meant line) ≡ is_none line };
}

/// Reads a later line, of which none is the last one, or says why it is refused. After an error the state says nothing
/// of what a further call gives. It takes no memory.
// A call would copy the line once more; so would one of `take`.
#[inline(always)]
pub(crate) fn read_line<P: TextState>(
    state: &mut P,
    text: &[u8],
) -> Result<Option<P::Line>, TextCause>
    requires text { list_all is_printable text.now ≡ true }
    requires room { P.HasRoom state.old }
    ensures line { (before : List P.Meant) → P.Stands state.old before → 1 ≤ length before
        → seen_by P.meant result ≡ read P.format before text.now }
    ensures after { (before : List P.Meant) → P.Stands state.old before → 1 ≤ length before
        → IfOk result (λ line. P.Stands state.new (P.meant line ∷ before)) }
    ensures first { P.first_line state.new ≡ P.first_line state.old }
{
    let (word, rest) = cut_word(text);
    let kind = match P::named(word) {
        Some(kind) => kind,
        None => return Err(TextCause::Word),
    };
    if !state.may_stand(kind) {
        return Err(TextCause::Word);
    }
    let mut names = [[0; 16]; 9];
    let mut numbers = [0; 9];
    match read_values(P::fields(kind), rest, &mut names, &mut numbers) {
        Ok(()) => state.take(kind, &names, &numbers),
        Err(cause) => Err(cause),
    }
}

// Which line of a text may come next (`thin_restore`, `cache_restore`, `era_restore`).

/// Which line may come next.
#[derive(Clone, Copy, Debug, PartialEq, Eq)]
pub enum Stage {
    /// The first line.
    First,
    /// Line 2, which says what the text is of.
    Second,
    /// A later line.
    Body,
}

impl Stage {
    /// Whether line 2 comes next.
    pub fn is_second(self) -> bool
        ensures { result ≡ is_second self }
    {
        match self {
            Stage::Second => true,
            Stage::First | Stage::Body => false,
        }
    }

    /// Whether a later line comes next.
    pub fn is_body(self) -> bool
        ensures { result ≡ is_body self }
    {
        match self {
            Stage::Body => true,
            Stage::First | Stage::Second => false,
        }
    }
}
