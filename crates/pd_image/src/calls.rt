//! The numbered calls of an object in memory, of which any can be set to fail.

ghost use Rattle.std.specs.Prelude.{◌≡◌, ◌≤◌, is_ok, not, OnOk, OnErr, if◌then◌else◌};
ghost use Rattle.pd_kinds.specs.Objects.{CountsFault, Rose};
ghost use Rattle.pd_image.specs.Calls.{counted, calls_made, calls_failed, calls_stop, is_stopped, next_fails};
ghost use Rattle.pd_image.specs.Calls.{IsUncalled, CountsCall, SetsToFail, Stops, KeepsCalls};

use crate::Failed;
use pd_kinds::CheckFault;
use std::alloc::{AllocError, Global};

/// How many calls were made, which are set to fail, and how many have failed.
#[derive(Drop)]
pub(crate) struct Calls {
    /// Up to the end of its type.
    made: u64,
    /// The numbers of the calls that are set to fail, counted from 0.
    failing: Vec<u64>,
    /// The number from which on each call fails, where there is one.
    stop: Option<u64>,
    /// Up to the end of its type.
    faults: u64,
}

impl Calls {
    /// No call was made, and none is set to fail.
    pub(crate) fn new(alloc: Global) -> Calls
        ensures calls { IsUncalled result }
        ensures failed { calls_failed result ≡ 0 }
    {
        Calls {
            made: 0,
            failing: Vec::new(alloc),
            stop: None,
            faults: 0,
        }
    }

    /// Sets the call with this number to fail, besides those that are set already.
    pub(crate) fn fail_at(&mut self, call: u64) -> Result<(), AllocError>
        ensures ok { OnOk result (SetsToFail call self.old self.new) }
        ensures err { OnErr result (KeepsCalls self.old self.new) }
        ensures failed { calls_failed self.new ≡ calls_failed self.old }
    {
        self.failing.push(call)?;
        Ok(())
    }

    /// Lets each call from this number on fail. An earlier stop stays.
    pub(crate) fn stop_after(&mut self, calls: u64)
        ensures stops { Stops calls self.old self.new }
        ensures failed { calls_failed self.new ≡ calls_failed self.old }
    {
        let first = match self.stop {
            Some(stop) => stop.min(calls),
            None => calls,
        };
        self.stop = Some(first);
    }

    /// Whether each call fails from now on.
    fn is_stopped(&self) -> bool
        ensures { result ≡ is_stopped (calls_stop self.now) (calls_made self.now) }
    {
        match self.stop {
            Some(stop) => stop <= self.made,
            None => false,
        }
    }

    /// Counts a call, which fails if it is set to, or comes after the stop.
    pub(crate) fn begin(&mut self) -> Result<(), Failed>
        ensures exact { is_ok result ≡ not (next_fails self.old) }
        ensures counted { CountsCall self.old self.new }
        ensures failed { calls_failed self.new ≡ (if is_ok result then calls_failed self.old else counted (calls_failed self.old)) }
        ensures faults { CountsFault result (calls_failed self.old) (calls_failed self.new) }
    {
        let fails = self.failing.contains(&self.made) | self.is_stopped();
        self.made = self.made.saturating_add(1);
        if fails {
            return Err(self.fail());
        }
        Ok(())
    }

    /// Counts a failure of the call that has begun.
    pub(crate) fn fail(&mut self) -> Failed
        ensures kept { KeepsCalls self.old self.new }
        ensures failed { calls_failed self.new ≡ counted (calls_failed self.old) }
        ensures faults { Rose (calls_failed self.old) (calls_failed self.new) × (calls_failed self.old ≤ calls_failed self.new) }
    {
        fault(&mut self.faults)
    }
}

// The count of the calls of an object that have failed.

impl From<Failed> for CheckFault {
    ghost use Rattle.pd_kinds.specs.declared.report.CheckFault.TheVariants.{Device};

    ghost from_gives = { λ _ fault. fault ≡ Device };

    fn from(_failed: Failed) -> CheckFault {
        CheckFault::Device
    }
}

/// Counts a call that failed, up to the end of the count's type.
pub fn fault(faults: &mut u64) -> Failed
    ensures count { faults.new ≡ counted faults.old }
    ensures rose { Rose faults.old faults.new × (faults.old ≤ faults.new) }
{
    *faults = faults.saturating_add(1);
    Failed
}

// How an object outside is attached.

/// How far an object outside has been attached.
#[derive(Clone, Copy)]
pub enum Access {
    /// `attach` wasn't called yet.
    Unattached,
    /// `attach` answered Ok; a device may only be read.
    Attached,
    /// `attach` answered Ok, and the device may be written too.
    Writable,
    /// `attach` failed.
    Refused,
}
