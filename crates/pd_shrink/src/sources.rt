//! The data blocks that must be moved (`thin_shrink`).

ghost use Rattle.std.specs.Prelude.{◌≡◌, ◌+◌, ◌^◌, ◌<◌, ◌++◌, All, IfOk, OnOk};
ghost use Rattle.std.specs.List.Sorted.{IsNonDecreasingBy, IsPermutation};
ghost use Rattle.pd_answers.specs.Shrinks.{sources};
ghost use Rattle.pd_meaning_thin.specs.declared.joined.Run.{Run as SavedRun};
ghost use Rattle.pd_shrink.specs.Kept.{kept_pool, leaf_runs_in};
ghost use Rattle.pd_shrink.specs.Making.{blocks_between, span_between, spans_past, union_from};

use crate::kept::{Kept, head_of, own_runs_of};
use pd_meaning_thin::PackedRuns;
use std::alloc::{AllocError, Global};

/// Data blocks in a row.
#[derive(Clone, Copy)]
struct Span {
    /// The first of them.
    first: u64,
    /// The one after the last.
    stop: u64,
}

/// The data blocks of a pool's mappings that aren't below `end`, ascending, each once. Those of a shared leaf are looked at
/// once.
///
/// It takes 16 bytes for each run that reaches past the end, and 8 for each such block.
pub(crate) fn find_sources(alloc: Global, kept: &Kept, end: u64) -> Result<Vec<u64>, AllocError>
    ensures { IfOk result (λ found. found.items ≡ sources (kept_pool kept.now) end) }
{
    // What is held is a lawful pool, so each run ends within it.
    let _head = head_of(kept);
    let mut spans = Vec::new(alloc);
    add_leaf_spans(&mut spans, kept, end)?;
    add_spans(&mut spans, own_runs_of(kept), end)?;
    sort_spans(&mut spans);
    blocks_of(alloc, &spans)
}

/// Adds what the runs of the shared leaves have past the end.
fn add_leaf_spans(spans: &mut Vec<Span>, kept: &Kept, end: u64) -> Result<(), AllocError>
    requires { All (λ (r : SavedRun). r.target + r.length < 2 ^ 64) (leaf_runs_in kept.now) }
    ensures { OnOk result (spans.new.items ≡ spans.old.items ++ spans_past end (leaf_runs_in kept.now)) }
{
    match kept {
        Kept::Pool(_) => Ok(()),
        Kept::Shape(saved) => add_spans(spans, saved.leaf_runs(), end),
    }
}

/// Adds what the runs have past the end.
fn add_spans(spans: &mut Vec<Span>, runs: &PackedRuns, end: u64) -> Result<(), AllocError>
    requires { All (λ (r : SavedRun). r.target + r.length < 2 ^ 64) runs.now }
    ensures { OnOk result (spans.new.items ≡ spans.old.items ++ spans_past end runs.now) }
{
    let mut place = runs.first();
    for _ in 0..runs.len() {
        if let Some(run) = runs.next(&mut place) {
            let stop = run.target + run.length;
            add_span(spans, run.target.max(end), stop)?;
        }
    }
    Ok(())
}

/// Adds the blocks from one to below another, where there are any.
fn add_span(spans: &mut Vec<Span>, first: u64, stop: u64) -> Result<(), AllocError>
    ensures { OnOk result (spans.new.items ≡ spans.old.items ++ span_between first stop) }
{
    if first < stop {
        spans.push(Span { first, stop })?;
    }
    Ok(())
}

/// Orders them by their first blocks. It takes no memory.
fn sort_spans(spans: &mut Vec<Span>)
    ensures same { IsPermutation spans.old.items spans.new.items }
    ensures sorted { IsNonDecreasingBy (λ s. s.first) spans.new.items }
{
    spans.sort_unstable_by_key(|span| span.first);
}

/// Each block of these once, where they are in order.
fn blocks_of(alloc: Global, spans: &[Span]) -> Result<Vec<u64>, AllocError>
    ensures { IfOk result (λ found. found.items ≡ union_from 0 spans.now) }
{
    let mut found = Vec::new(alloc);
    // No block below this one is still to come.
    let mut least = 0;
    for span in spans {
        add_blocks(&mut found, span.first.max(least), span.stop)?;
        least = least.max(span.stop);
    }
    Ok(found)
}

/// Adds the blocks from one to below another.
fn add_blocks(found: &mut Vec<u64>, first: u64, stop: u64) -> Result<(), AllocError>
    ensures { OnOk result (found.new.items ≡ found.old.items ++ blocks_between first stop) }
{
    for b in first..stop {
        found.push(b)?;
    }
    Ok(())
}
