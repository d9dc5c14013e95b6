//! A cache whose entries are gathered from its text (`cache_restore`).
//! The first entry that has the origin of an earlier one (`cache_restore`).
//! The lines of a cache's text after the cache line (`cache_restore`).

ghost use Rattle.std.specs.Prelude.{◌≡◌, ◌+◌, ◌^◌, ◌<◌, [], ◌∷◌, ◌++◌, true, IfOk, IfErr, OnOk, length, ℕ, List};
ghost use Rattle.pd_grammar.specs.CacheText.{cache_single};
ghost use Rattle.pd_image.specs.Source.{KeepsSource};
ghost use Rattle.pd_texts.specs.Reader.{IsReadAfter, LeavesOf};
ghost use Rattle.pd_texts_kinds.specs.CacheLine.{OriginsDiffer, line_of};
ghost use Rattle.pd_restoring.specs.Reading.{CountsBegin, IsOfLater};
ghost use Rattle.pd_restore_kinds.specs.CacheReading.{lines_of, IsRepeatIn, IsFirstRepeat, IsLeastRepeat, places_in, EndsGathering};
ghost use Rattle.pd_restore_kinds.specs.CacheReading.{EndsReading, Reads, SaysAfter, SaysSingle, StepsGathering, TakesLine};

use pd_grammar::TextCause;
use pd_image::Source;
use pd_restoring::RestoreFault;
use pd_salvage_cache::{CacheHead, Row};
use pd_texts::TextFault;
use pd_texts_kinds::{CacheLine, CacheText};
use std::alloc::{AllocError, Global};

/// The entries of a cache that were read.
#[derive(Drop)]
pub(crate) struct Gathered {
    pub(crate) cache: CacheHead,
    pub(crate) rows: Vec<Row>,
}

impl Gathered {
    /// No entry of the cache was read.
    pub(crate) fn new(alloc: Global, cache: CacheHead) -> Gathered
        ensures cache { result.cache ≡ cache }
        ensures none { result.rows.items ≡ [] }
    {
        Gathered {
            cache,
            rows: Vec::new(alloc),
        }
    }

    /// Puts an entry behind the others.
    pub(crate) fn add(&mut self, row: Row) -> Result<bool, RestoreFault>
        ensures more { IfOk result (λ more. more ≡ true) }
        ensures cache { self.new.cache ≡ self.old.cache }
        ensures rows { IfOk result (λ more. self.new.rows.items ≡ self.old.rows.items ++ row ∷ []) }
        ensures fault { IfErr result (λ fault. fault ≡ RestoreFault.Memory) }
    {
        self.rows.push(row)?;
        Ok(true)
    }

    /// Refuses the first line that has the origin of an earlier one.
    pub(crate) fn check_origins(&self, alloc: Global) -> Result<(), RestoreFault>
        ensures differ { OnOk result (OriginsDiffer (lines_of self.now)) }
        ensures repeated { IfErr result (IsRepeatIn self.now) }
    {
        let rows = &self.rows;
        let before = rows_before_repeat(alloc, rows)?;
        if before < rows.len() {
            return Err(repeated_after(before));
        }
        Ok(())
    }
}

/// The line after those of so many entries has the origin of an earlier one.
fn repeated_after(before: usize) -> RestoreFault
    requires few { before < 2 ^ 63 }
    ensures { result ≡ RestoreFault.Text (record { line = before + 3; cause = TextCause.Repeated }) }
{
    RestoreFault::Text(TextFault {
        line: before as u64 + 3,
        cause: TextCause::Repeated,
    })
}

/// How many rows stand before the first one that has the origin of an earlier one; all, where there is none.
///
/// The origins are sorted for it, with their places, in 16 bytes each.
pub(crate) fn rows_before_repeat(alloc: Global, rows: &[Row]) -> Result<usize, AllocError>
    ensures { IfOk result (IsFirstRepeat rows.now) }
{
    let mut places = places_of(alloc, rows)?;
    places.sort_unstable();
    Ok(least_repeat(&places, rows.len()))
}

/// The origin of each row, with the row's place.
fn places_of(alloc: Global, rows: &[Row]) -> Result<Vec<(u64, usize)>, AllocError>
    ensures { IfOk result (λ places. places.items ≡ places_in rows.now) }
{
    rows.iter()
        .enumerate()
        .map(|(i, row)| (row.origin, i))
        .collect(alloc)
}

/// The least place behind another one of its origin among sorted ones, or else `end`.
fn least_repeat(sorted: &[(u64, usize)], end: usize) -> usize
    ensures { IsLeastRepeat sorted.now (length sorted.now) end result }
{
    let mut least = end;
    for i in 1..sorted.len() {
        let (origin, place) = sorted[i];
        if sorted[i - 1].0 == origin {
            least = least.min(place);
        }
    }
    least
}

/// Gathers the lines of a text after the cache line, up to its end. Their origins are looked at once behind them, also
/// where a line is refused: a line before it that has the origin of an earlier one comes first.
pub(crate) fn gather_lines<S: Source>(
    alloc: Global,
    text: &mut CacheText,
    source: &mut S,
    gathered: &mut Gathered,
) -> Result<(), RestoreFault>
    requires attached { (S.state source.old).access ≡ 1 }
    requires reads { Reads text.old gathered.old }
    ensures ends { OnOk result (EndsGathering text.old (S.state source.old).left (S.state source.new).left gathered.old gathered.new) }
    ensures says { (t : List ℕ) → LeavesOf cache_single t (lines_of gathered.old) text.old (S.state source.old).left
        → IfErr result (SaysAfter gathered.old.cache t) }
    ensures later { IfErr result IsOfLater }
    ensures source { KeepsSource (S.state source.old) (S.state source.new) }
    ensures faults { CountsBegin result (S.state source.old).faults (S.state source.new).faults }
{
    match read_lines(text, source, gathered) {
        Ok(()) => gathered.check_origins(alloc),
        Err(RestoreFault::Text(fault)) => {
            gathered.check_origins(alloc)?;
            Err(RestoreFault::Text(fault))
        }
        Err(fault) => Err(fault),
    }
}

/// Gathers them without a look at their origins.
fn read_lines<S: Source>(
    text: &mut CacheText,
    source: &mut S,
    gathered: &mut Gathered,
) -> Result<(), RestoreFault>
    requires attached { (S.state source.old).access ≡ 1 }
    requires reads { Reads text.old gathered.old }
    ensures ends { OnOk result (EndsReading text.old (S.state source.old).left (S.state source.new).left gathered.old gathered.new) }
    ensures cache { gathered.new.cache ≡ gathered.old.cache }
    ensures says { (t : List ℕ) → LeavesOf cache_single t (lines_of gathered.old) text.old (S.state source.old).left
        → IfErr result (SaysSingle t gathered.new) }
    ensures later { IfErr result IsOfLater }
    ensures source { KeepsSource (S.state source.old) (S.state source.new) }
    ensures faults { CountsBegin result (S.state source.old).faults (S.state source.new).faults }
{
    'lines: while step(text, source, gathered)? {}
    Ok(())
}

/// Gathers a line, and answers whether it wasn't the last one.
fn step<S: Source>(
    text: &mut CacheText,
    source: &mut S,
    gathered: &mut Gathered,
) -> Result<bool, RestoreFault>
    requires attached { (S.state source.old).access ≡ 1 }
    requires reads { Reads text.old gathered.old }
    ensures steps { IfOk result
        (λ more. StepsGathering more text.old (S.state source.old).left text.new (S.state source.new).left gathered.old gathered.new) }
    ensures cache { gathered.new.cache ≡ gathered.old.cache }
    ensures says { (t : List ℕ) → LeavesOf cache_single t (lines_of gathered.old) text.old (S.state source.old).left
        → IfErr result (SaysSingle t gathered.new) }
    ensures later { IfErr result IsOfLater }
    ensures source { KeepsSource (S.state source.old) (S.state source.new) }
    ensures faults { CountsBegin result (S.state source.old).faults (S.state source.new).faults }
{
    match text.next(source)? {
        Some(line) => take(gathered, line),
        None => Ok(false),
    }
}

/// Gathers a map line. Any other one has nothing to gather.
fn take(gathered: &mut Gathered, line: CacheLine) -> Result<bool, RestoreFault>
    requires after { IsReadAfter cache_single (lines_of gathered.old) (line_of line) }
    ensures more { IfOk result (λ more. more ≡ true) }
    ensures takes { IfOk result (λ more. TakesLine line gathered.old gathered.new) }
    ensures cache { gathered.new.cache ≡ gathered.old.cache }
    ensures fault { IfErr result (λ fault. fault ≡ RestoreFault.Memory) }
{
    match line {
        CacheLine::Cache { .. } => Ok(true),
        CacheLine::Map {
            block,
            origin,
            dirty,
            hint,
        } => gathered.add(Row {
            block,
            dirty,
            hint,
            origin,
        }),
    }
}
