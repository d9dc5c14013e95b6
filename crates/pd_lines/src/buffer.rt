//! Bytes of a source that were taken and not yet read.

ghost use Rattle.std.specs.Prelude.{◌≡◌, ℕ, ◌+◌, ◌-◌, ◌<◌, ◌≤◌, List, [], length, take, drop, slice_range};
ghost use Rattle.std.specs.Prelude.{IfOk, OnErr, true, false, Some, IfSome, None};
ghost use Rattle.pd_kinds.specs.Objects.{CountsFault};
ghost use Rattle.pd_image.specs.Source.{KeepsSource};
ghost use Rattle.pd_lines.specs.Front.{Moves, IsUnbroken, EndsLine, IsFront, IsRun, IsRunIn};

use pd_image::{Failed, Source};
use std::alloc::{AllocError, Global};
use std::marker::Model;
use std::simd::prelude::*;

/// How many bytes there is room for.
const ROOM: usize = 32768;

/// Bytes that were taken and not yet read.
#[derive(Drop)]
pub(crate) struct Buffer {
    bytes: Vec<u8>,
    start: usize,
    end: usize,
}

impl Model for Buffer {
    ghost Value = { List ℕ };

    ghost view = { λ b. slice_range b.bytes.items b.start b.end };

    ghost invariant = { λ b. (b.start ≤ b.end) × ((b.end ≤ 32768) × (length b.bytes.items ≡ 32768)) };
}

impl Buffer {
    /// Nothing is held.
    pub(crate) fn new(alloc: Global) -> Result<Buffer, AllocError>
        ensures { IfOk result (λ buffer. buffer ≡ []) }
    {
        Ok(Buffer {
            bytes: vec![in alloc; 0; ROOM]?,
            start: 0,
            end: 0,
        })
    }

    /// The bytes that are held.
    pub(crate) fn held(&self) -> &[u8]
        ensures { result.now ≡ self.now }
    {
        &self.bytes[self.start..self.end]
    }

    /// Lets go of the first bytes.
    pub(crate) fn skip(&mut self, n: usize)
        requires { n ≤ length self.old }
        ensures { self.new ≡ drop n self.old }
    {
        self.start += n;
    }

    /// Takes more bytes, and answers whether there were any. After an error the same bytes are held.
    pub(crate) fn fill<S: Source>(&mut self, source: &mut S) -> Result<bool, Failed>
        requires attached { (S.state source.old).access ≡ 1 }
        requires short { length self.old ≤ 160 }
        ensures moved { Moves self.old self.new (S.state source.old).left (S.state source.new).left }
        ensures more { IfOk result (λ more. more ≡ true → length self.old < length self.new) }
        ensures none { IfOk result (λ more. more ≡ false → self.new ≡ self.old) }
        ensures end { IfOk result (λ more. more ≡ false
            → (left : List ℕ) → (S.state source.old).left ≡ Some left → (S.state source.new).left ≡ Some []) }
        ensures failed { OnErr result (self.new ≡ self.old) }
        ensures kept { KeepsSource (S.state source.old) (S.state source.new) }
        ensures faults { CountsFault result (S.state source.old).faults (S.state source.new).faults }
    {
        let kept = self.end - self.start;
        let outcome = fill_after(self.bytes.as_mut_slice(), self.start, self.end, source);
        self.start = 0;
        match outcome {
            Ok(n) => {
                self.end = kept + n;
                Ok(n != 0)
            }
            Err(failed) => {
                self.end = kept;
                Err(failed)
            }
        }
    }
}

/// Moves the bytes from start to end to the front, takes more after them, and answers how many.
fn fill_after<S: Source>(
    bytes: &mut [u8],
    start: usize,
    end: usize,
    source: &mut S,
) -> Result<usize, Failed>
    requires attached { (S.state source.old).access ≡ 1 }
    requires order { start ≤ end }
    requires within { end ≤ length bytes.old }
    requires room { end - start < length bytes.old }
    ensures moved { IfOk result (λ n. Moves (slice_range bytes.old start end)
        (slice_range bytes.new 0 (end - start + n)) (S.state source.old).left (S.state source.new).left) }
    ensures within { IfOk result (λ n. end - start + n ≤ length bytes.new) }
    ensures end { IfOk result (λ n. n ≡ 0 → (left : List ℕ) → (S.state source.old).left ≡ Some left → (S.state source.new).left ≡ Some []) }
    ensures none { slice_range bytes.new 0 (end - start) ≡ slice_range bytes.old start end }
    ensures failed { OnErr result ((S.state source.new).left ≡ (S.state source.old).left) }
    ensures kept { KeepsSource (S.state source.old) (S.state source.new) }
    ensures faults { CountsFault result (S.state source.old).faults (S.state source.new).faults }
{
    bytes.copy_within(start..end, 0);
    source.take(&mut bytes[end - start..])
}

// What bytes begin with: a line, or none.

/// How many bytes are looked at in one step.
const LANES: usize = 32;

/// What bytes begin with.
#[derive(Clone, Copy)]
pub(crate) enum Front {
    /// A line of so many bytes, at most 160, and its line feed.
    Line(usize),
    /// A line of at most 160 bytes with one that it may not have, and its line feed.
    NotText,
    /// No line feed among the first 161 bytes.
    Open,
}

/// What these bytes begin with.
pub(crate) fn front_of(bytes: &[u8]) -> Front
    ensures { IsFront bytes.now result }
{
    let len = printable_len(bytes);
    if len <= 160 && len < bytes.len() && bytes[len] == b'\n' {
        return Front::Line(len);
    }
    match find_end(bytes) {
        Some(_) => Front::NotText,
        None => Front::Open,
    }
}

/// Where the first line feed is, among the first 161 bytes.
fn find_end(bytes: &[u8]) -> Option<usize>
    ensures found { IfSome result (λ i. EndsLine bytes.now i) }
    ensures none { result ≡ None → IsUnbroken (take 161 bytes.now) }
{
    let most = bytes.len().min(161);
    for i in 0..most {
        if bytes[i] == b'\n' {
            return Some(i);
        }
    }
    None
}

/// How many bytes are printable, up to the first that isn't.
fn printable_len(bytes: &[u8]) -> usize
    ensures { IsRun bytes.now 0 result }
{
    let mut at = 0;
    while LANES <= bytes.len() - at {
        let run = printable_run(bytes, at);
        at += run;
        if run < LANES {
            return at;
        }
    }
    printable_end(bytes, at)
}

/// How many of the 32 bytes in this place are printable, up to the first that isn't.
#[inline(always)]
fn printable_run(bytes: &[u8], at: usize) -> usize
    requires { at + 32 ≤ length bytes.now }
    ensures { IsRunIn bytes.now at 32 result }
{
    let above = u8x32::from_slice(&bytes[at..]) - u8x32::splat(32);
    let others = above.simd_gt(u8x32::splat(94)).to_bitmask();
    if others == 0 {
        LANES
    } else {
        others.trailing_zeros() as usize
    }
}

/// The end of the printable bytes from this place on.
fn printable_end(bytes: &[u8], at: usize) -> usize
    requires { at ≤ length bytes.now }
    ensures { IsRun bytes.now at result }
{
    for i in at..bytes.len() {
        if bytes[i] < 32 || 126 < bytes[i] {
            return i;
        }
    }
    bytes.len()
}
