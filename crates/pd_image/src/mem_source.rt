//! A source of text in memory, which tells what is left of it.

ghost use Rattle.std.specs.Prelude.{is_none, true, false, None, ◌≡◌, ◌<◌, ◌≤◌, length, take, drop, min, is_ok, not};
ghost use Rattle.std.specs.Prelude.{IsTrue, IsErr, IsSome, IfOk, OnOk, OnErr, IfSome, if◌then◌else◌};
ghost use Rattle.std.specs.Option.{option_copied};
ghost use Rattle.pd_kinds.specs.Objects.{CountsFault};
ghost use Rattle.pd_image.specs.Calls.{access_number, untold, counted, next_fails, IsUncalled, CountsCall, SetsToFail, KeepsCalls};
ghost use Rattle.pd_image.specs.Source.{AttachesSource, KeepsSource, TakesBytes};

use crate::calls::{Access, Calls};
use crate::{Failed, Source};
use std::alloc::{AllocError, Global};

/// A source whose bytes are in memory. It opens every path, gives the bytes in pieces, and any of its
/// calls can be set to fail.
///
/// Its calls of `attach` and `take` are numbered from 0, so `attach` is call 0.
#[derive(Drop)]
pub struct MemSource {
    bytes: Vec<u8>,
    /// How many of the bytes were given.
    taken: usize,
    /// How many bytes a call gives at most.
    piece: usize,
    access: Access,
    /// The path that `attach` was called with.
    path: Option<Vec<u8>>,
    calls: Calls,
    ghost unnamed: { access_number access ≡ 0 → is_none path ≡ true },
    ghost within: { taken ≤ length bytes.items },
    ghost some: { 1 ≤ piece },
}

impl MemSource {
    ghost use Rattle.pd_image.specs.MemObjects.{mem_source_state, mem_source_calls, mem_source_piece, unattached_source};

    /// A source of these bytes, which gives at most `piece` of them a call.
    pub fn of(alloc: Global, bytes: &[u8], piece: usize) -> Result<MemSource, AllocError>
        requires { 1 ≤ piece }
        ensures state { IfOk result (λ source. mem_source_state source ≡ unattached_source bytes.now) }
        ensures piece { IfOk result (λ source. mem_source_piece source ≡ piece) }
        ensures calls { IfOk result (λ source. IsUncalled (mem_source_calls source)) }
    {
        Ok(MemSource {
            bytes: Vec::from_slice(alloc, bytes)?,
            taken: 0,
            piece,
            access: Access::Unattached,
            path: None,
            calls: Calls::new(alloc),
        })
    }

    /// The path that `attach` was called with, if it was called and the path could be kept.
    pub fn path(&self) -> Option<&[u8]>
        ensures { option_copied result ≡ (mem_source_state self.now).path }
    {
        match &self.path {
            Some(path) => Some(path.as_slice()),
            None => None,
        }
    }

    /// Sets the call with this number to fail, besides those that are set already.
    pub fn fail_at(&mut self, call: u64) -> Result<(), AllocError>
        ensures ok { OnOk result (SetsToFail call (mem_source_calls self.old) (mem_source_calls self.new)) }
        ensures err { OnErr result (KeepsCalls (mem_source_calls self.old) (mem_source_calls self.new)) }
        ensures state { mem_source_state self.new ≡ mem_source_state self.old }
        ensures piece { mem_source_piece self.new ≡ mem_source_piece self.old }
    {
        self.calls.fail_at(call)
    }
}

/// A call fails exactly where it is set to, and then does nothing but to count. `attach` keeps its path
/// first, and fails for want of memory too.
impl Source for MemSource {
    ghost use Rattle.pd_image.specs.MemObjects.{mem_source_state, mem_source_calls, mem_source_piece};

    ghost state = { mem_source_state };

    ghost unnamed = { λ object fresh. untold object.path (object.unnamed fresh) };

    fn attach(&mut self, path: &str) -> Result<(), Failed>
        requires { (mem_source_state self.old).access ≡ 0 }
        ensures attached { AttachesSource path.now (is_ok result) (mem_source_state self.old) (mem_source_state self.new) }
        ensures told { OnOk result (IsSome (mem_source_state self.new).path) }
        ensures faults { CountsFault result (mem_source_state self.old).faults (mem_source_state self.new).faults }
        ensures set { IsTrue (next_fails (mem_source_calls self.old)) → IsErr result }
        ensures unset { OnErr result (next_fails (mem_source_calls self.old) ≡ false → (mem_source_state self.new).path ≡ None) }
        ensures calls { CountsCall (mem_source_calls self.old) (mem_source_calls self.new) }
        ensures failed { (mem_source_state self.new).faults
            ≡ (if is_ok result then (mem_source_state self.old).faults else counted (mem_source_state self.old).faults) }
        ensures piece { mem_source_piece self.new ≡ mem_source_piece self.old }
    {
        self.access = Access::Refused;
        self.path = Vec::from_slice(*self.bytes.allocator(), path.as_bytes()).ok();
        self.calls.begin()?;
        if self.path.is_none() {
            return Err(self.calls.fail());
        }
        self.access = Access::Attached;
        Ok(())
    }

    fn take(&mut self, into: &mut [u8]) -> Result<usize, Failed>
        requires attached { (mem_source_state self.old).access ≡ 1 }
        requires room { 0 < length into.old }
        ensures taken { IfOk result (λ n. n ≤ length into.new) }
        ensures content { IfOk result (λ n. IfSome (mem_source_state self.old).left
            (TakesBytes n into.new (mem_source_state self.new).left)) }
        ensures failed { OnErr result ((mem_source_state self.new).left ≡ (mem_source_state self.old).left) }
        ensures kept { KeepsSource (mem_source_state self.old) (mem_source_state self.new) }
        ensures faults { CountsFault result (mem_source_state self.old).faults (mem_source_state self.new).faults }
        ensures exact { IfOk result (λ n. IfSome (mem_source_state self.old).left
            (λ left. n ≡ min (min (mem_source_piece self.old) (length into.old)) (length left))) }
        ensures rest { IfOk result (λ n. drop n into.new ≡ drop n into.old) }
        ensures untouched { OnErr result (into.new ≡ into.old) }
        ensures set { is_ok result ≡ not (next_fails (mem_source_calls self.old)) }
        ensures calls { CountsCall (mem_source_calls self.old) (mem_source_calls self.new) }
        ensures counted { (mem_source_state self.new).faults
            ≡ (if is_ok result then (mem_source_state self.old).faults else counted (mem_source_state self.old).faults) }
        ensures piece { mem_source_piece self.new ≡ mem_source_piece self.old }
    {
        self.calls.begin()?;
        let left = &self.bytes[self.taken..];
        let n = self.piece.min(into.len()).min(left.len());
        into[..n].copy_from_slice(&left[..n]);
        self.taken += n;
        Ok(n)
    }
}
