//! A sink in memory, which tells what was written.

ghost use Rattle.std.specs.Prelude.{is_none, true, false, None, ◌≡◌, [], is_ok, Some, IsTrue, IsErr};
ghost use Rattle.std.specs.Prelude.{IsSome, OnOk, OnErr, unwrap_or, if◌then◌else◌};
ghost use Rattle.std.specs.Option.{option_copied};
ghost use Rattle.pd_kinds.specs.Objects.{CountsFault, Appends, AppendsFront};
ghost use Rattle.pd_image.specs.Sink.{AttachesSink, KeepsSink};
ghost use Rattle.pd_image.specs.Calls.{access_number, untold, counted, next_fails, IsUncalled, CountsCall, SetsToFail, KeepsCalls};

use crate::calls::{Access, Calls};
use crate::{Failed, Sink};
use std::alloc::{AllocError, Global};

/// A sink that keeps its bytes in memory. It opens every path, and any of its calls can be set to fail.
///
/// Its calls of `attach` and `put` are numbered from 0, so `attach` is call 0.
#[derive(Drop)]
pub struct MemSink {
    written: Vec<u8>,
    access: Access,
    /// The path that `attach` was called with, empty for the standard stream.
    path: Option<Vec<u8>>,
    calls: Calls,
    ghost unnamed: { access_number access ≡ 0 → is_none path ≡ true },
}

impl MemSink {
    ghost use Rattle.pd_image.specs.MemObjects.{mem_sink_state, mem_sink_calls, unattached_sink};

    /// A sink to which nothing was written.
    pub fn new(alloc: Global) -> MemSink
        ensures state { mem_sink_state result ≡ unattached_sink }
        ensures calls { IsUncalled (mem_sink_calls result) }
    {
        MemSink {
            written: Vec::new(alloc),
            access: Access::Unattached,
            path: None,
            calls: Calls::new(alloc),
        }
    }

    /// The bytes that were written.
    pub fn bytes(&self) -> &[u8]
        ensures { (mem_sink_state self.now).written ≡ Some result.now }
    {
        self.written.as_slice()
    }

    /// The path that `attach` was called with, if it was called and the path could be kept. It is empty
    /// for the standard stream.
    pub fn path(&self) -> Option<&[u8]>
        ensures { option_copied result ≡ (mem_sink_state self.now).path }
    {
        match &self.path {
            Some(path) => Some(path.as_slice()),
            None => None,
        }
    }

    /// Sets the call with this number to fail, besides those that are set already.
    pub fn fail_at(&mut self, call: u64) -> Result<(), AllocError>
        ensures ok { OnOk result (SetsToFail call (mem_sink_calls self.old) (mem_sink_calls self.new)) }
        ensures err { OnErr result (KeepsCalls (mem_sink_calls self.old) (mem_sink_calls self.new)) }
        ensures state { mem_sink_state self.new ≡ mem_sink_state self.old }
    {
        self.calls.fail_at(call)
    }
}

/// A call fails where it is set to and for want of memory, and then does nothing but to count. `attach`
/// keeps its path first.
impl Sink for MemSink {
    ghost use Rattle.pd_image.specs.MemObjects.{mem_sink_state, mem_sink_calls};

    ghost state = { mem_sink_state };

    ghost unnamed = { λ object fresh. untold object.path (object.unnamed fresh) };

    fn attach(&mut self, path: Option<&str>) -> Result<(), Failed>
        requires { (mem_sink_state self.old).access ≡ 0 }
        ensures attached { AttachesSink (unwrap_or (option_copied path.entry) []) (is_ok result) (mem_sink_state self.old)
            (mem_sink_state self.new) }
        ensures told { OnOk result (IsSome (mem_sink_state self.new).path) }
        ensures faults { CountsFault result (mem_sink_state self.old).faults (mem_sink_state self.new).faults }
        ensures set { IsTrue (next_fails (mem_sink_calls self.old)) → IsErr result }
        ensures unset { OnErr result (next_fails (mem_sink_calls self.old) ≡ false → (mem_sink_state self.new).path ≡ None) }
        ensures calls { CountsCall (mem_sink_calls self.old) (mem_sink_calls self.new) }
        ensures failed { (mem_sink_state self.new).faults
            ≡ (if is_ok result then (mem_sink_state self.old).faults else counted (mem_sink_state self.old).faults) }
    {
        let text = path.unwrap_or("");
        self.access = Access::Refused;
        self.path = Vec::from_slice(*self.written.allocator(), text.as_bytes()).ok();
        self.calls.begin()?;
        if self.path.is_none() {
            return Err(self.calls.fail());
        }
        self.access = Access::Attached;
        Ok(())
    }

    fn put(&mut self, bytes: &[u8]) -> Result<(), Failed>
        requires { (mem_sink_state self.old).access ≡ 1 }
        ensures whole { OnOk result (Appends bytes.now (mem_sink_state self.old).written (mem_sink_state self.new).written) }
        ensures front { AppendsFront bytes.now (mem_sink_state self.old).written (mem_sink_state self.new).written }
        ensures kept { KeepsSink (mem_sink_state self.old) (mem_sink_state self.new) }
        ensures faults { CountsFault result (mem_sink_state self.old).faults (mem_sink_state self.new).faults }
        ensures nothing { OnErr result ((mem_sink_state self.new).written ≡ (mem_sink_state self.old).written) }
        ensures set { IsTrue (next_fails (mem_sink_calls self.old)) → IsErr result }
        ensures calls { CountsCall (mem_sink_calls self.old) (mem_sink_calls self.new) }
        ensures failed { (mem_sink_state self.new).faults
            ≡ (if is_ok result then (mem_sink_state self.old).faults else counted (mem_sink_state self.old).faults) }
    {
        self.calls.begin()?;
        if self.written.extend_from_slice(bytes).is_err() {
            return Err(self.calls.fail());
        }
        Ok(())
    }
}
