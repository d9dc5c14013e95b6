//! A small copy of a pool's text of either version: that it is printed as it was read follows from the contracts of the
//! reader and the printers alone.

ghost use Rattle.std.specs.Prelude.{◌≡◌, ◌≤◌, length, [], List, ℕ, Option, MatchResult, Some};
ghost use Rattle.std.specs.Bool.{MatchBool};
ghost use Rattle.pd_kinds.specs.Objects.{Appends};
ghost use Rattle.pd_grammar.specs.ThinText.{pool_format};
ghost use Rattle.pd_laid.specs.Shape.{ThinShape};
ghost use Rattle.pd_laid.specs.PoolText.{SpellsPoolShape};
ghost use Rattle.pd_lines.specs.Pieces.{Gathers};
ghost use Rattle.pd_texts.specs.Reader.{LeavesOf, ReadsOn};
ghost use Rattle.pd_texts.specs.ThinState.{ThinStands};
ghost use Rattle.pd_tests_parts.specs.Copied.{IsCopying, HasCopied, IsRefused, first_printed};

use pd_image::{Sink, Source};
use pd_kinds::Kind;
use pd_laid::pool_text_unless_refused;
use pd_lines::Pieces;
use pd_texts::{
    ReadFault, ThinText, bytes_of_end, bytes_of_first, bytes_of_shared_first,
    read_pool_lines_are_in_range, thin_lines_are_printed_in_order, whole_thin_text_spells,
};
use std::alloc::Global;

/// Why a text wasn't copied.
#[derive(Clone, Copy, Debug, PartialEq, Eq)]
pub enum CopyFault {
    /// The text couldn't be read.
    Read(ReadFault),
    /// The sink has failed.
    Sink,
    /// The text has too many lines.
    Length,
}

/// Reads a pool's text of either version and prints it again.
pub fn copy<S: Source, K: Sink>(alloc: Global, source: &mut S, out: &mut K) -> Result<(), CopyFault>
    requires source { (S.state source.old).access ≡ 1 }
    requires sink { (K.state out.old).access ≡ 1 }

    // What was read to its end is printed byte for byte, and spells a pool's shape; a refusal is the text's.
    ensures { (text : List ℕ) → (S.state source.old).left ≡ Some text
        → MatchResult result (λ _. Appends text (K.state out.old).written (K.state out.new).written
        × ((w : ThinShape) × SpellsPoolShape text w)) (IsRefused text) }
{
    let mut text = match ThinText::new(alloc) {
        Ok(text) => text,
        Err(_) => return Err(CopyFault::Read(ReadFault::Memory)),
    };
    let mut pieces = Pieces::new();
    match copy_first(&mut text, source, &mut pieces, out) {
        Ok(()) => copy_after_first(&mut text, source, &mut pieces, out),
        Err(fault) => Err(fault),
    }
}

/// Copies the first two lines, which the first answer gives.
fn copy_first<S: Source, K: Sink>(
    text: &mut ThinText,
    source: &mut S,
    pieces: &mut Pieces,
    out: &mut K,
) -> Result<(), CopyFault>
    requires source { (S.state source.old).access ≡ 1 }
    requires sink { (K.state out.old).access ≡ 1 }
    requires reads { ReadsOn pool_format ThinStands [] text.old }
    ensures copied { (t : List ℕ) (start : Option (List ℕ)) → LeavesOf pool_format t [] text.old (S.state source.old).left
        → Gathers [] pieces.old start (K.state out.old).written
        → MatchResult result
        (λ _. IsCopying t start text.new (S.state source.new).left pieces.new (K.state out.new).written) (IsRefused t) }
    ensures source { (S.state source.new).access ≡ 1 }
    ensures sink { (K.state out.new).access ≡ 1 }
{
    read_pool_lines_are_in_range();
    thin_lines_are_printed_in_order();
    match text.next(source) {
        Ok(Some(line)) => match pieces.add(bytes_of_version(text.version()), out) {
            Ok(()) => match pieces.add_line(&line, out) {
                Ok(()) => Ok(()),
                Err(_) => Err(CopyFault::Sink),
            },
            Err(_) => Err(CopyFault::Sink),
        },
        // The second line is the pool's.
        Ok(None) => unreachable!(),
        Err(fault) => Err(CopyFault::Read(fault)),
    }
}

/// The bytes of the first line of a text of this version.
fn bytes_of_version(version: u32) -> &'static [u8]
    ensures bytes { result.now ≡ first_printed version }
    ensures len { length result.now ≤ 8 }
{
    if version == 2 {
        bytes_of_shared_first()
    } else {
        bytes_of_first(Kind::Thin)
    }
}

/// Copies what follows the first two lines.
fn copy_after_first<S: Source, K: Sink>(
    text: &mut ThinText,
    source: &mut S,
    pieces: &mut Pieces,
    out: &mut K,
) -> Result<(), CopyFault>
    requires source { (S.state source.old).access ≡ 1 }
    requires sink { (K.state out.old).access ≡ 1 }
    ensures { (t : List ℕ) (start : Option (List ℕ))
        → IsCopying t start text.old (S.state source.old).left pieces.old (K.state out.old).written
        → MatchResult result (λ _. Appends t start (K.state out.new).written × ((w : ThinShape) × SpellsPoolShape t w)) (IsRefused t) }
{
    match copy_lines(text, source, pieces, out) {
        Ok(()) => put_end(pieces, out),
        Err(fault) => Err(fault),
    }
}

/// Copies the lines up to the end of the text.
fn copy_lines<S: Source, K: Sink>(
    text: &mut ThinText,
    source: &mut S,
    pieces: &mut Pieces,
    out: &mut K,
) -> Result<(), CopyFault>
    requires source { (S.state source.old).access ≡ 1 }
    requires sink { (K.state out.old).access ≡ 1 }
    ensures copied { (t : List ℕ) (start : Option (List ℕ))
        → IsCopying t start text.old (S.state source.old).left pieces.old (K.state out.old).written
        → MatchResult result (λ _. HasCopied t start pieces.new (K.state out.new).written) (IsRefused t) }
    ensures sink { (K.state out.new).access ≡ 1 }
{
    for _ in 0..u64::MAX {
        match copy_line(text, source, pieces, out) {
            Ok(true) => {}
            Ok(false) => return Ok(()),
            Err(fault) => return Err(fault),
        }
    }
    Err(CopyFault::Length)
}

/// Copies a line, and answers whether there was one.
fn copy_line<S: Source, K: Sink>(
    text: &mut ThinText,
    source: &mut S,
    pieces: &mut Pieces,
    out: &mut K,
) -> Result<bool, CopyFault>
    requires source { (S.state source.old).access ≡ 1 }
    requires sink { (K.state out.old).access ≡ 1 }
    ensures copied { (t : List ℕ) (start : Option (List ℕ))
        → IsCopying t start text.old (S.state source.old).left pieces.old (K.state out.old).written
        → MatchResult result (λ more. MatchBool more
        (IsCopying t start text.new (S.state source.new).left pieces.new (K.state out.new).written)
        (HasCopied t start pieces.new (K.state out.new).written)) (IsRefused t) }
    ensures source { (S.state source.new).access ≡ 1 }
    ensures sink { (K.state out.new).access ≡ 1 }
{
    thin_lines_are_printed_in_order();
    match text.next(source) {
        Ok(Some(line)) => match pieces.add_line(&line, out) {
            Ok(()) => Ok(true),
            Err(_) => Err(CopyFault::Sink),
        },
        Ok(None) => Ok(false),
        Err(fault) => Err(CopyFault::Read(fault)),
    }
}

/// Puts the last line, and what is gathered.
fn put_end<K: Sink>(pieces: &mut Pieces, out: &mut K) -> Result<(), CopyFault>
    requires { (K.state out.old).access ≡ 1 }
    ensures { (t : List ℕ) (start : Option (List ℕ)) → HasCopied t start pieces.old (K.state out.old).written
        → MatchResult result (λ _. Appends t start (K.state out.new).written × ((w : ThinShape) × SpellsPoolShape t w)) (IsRefused t) }
{
    pool_text_unless_refused();
    whole_thin_text_spells();
    thin_lines_are_printed_in_order();
    match pieces.add(bytes_of_end(), out) {
        Ok(()) => match pieces.put(out) {
            Ok(()) => Ok(()),
            Err(_) => Err(CopyFault::Sink),
        },
        Err(_) => Err(CopyFault::Sink),
    }
}
