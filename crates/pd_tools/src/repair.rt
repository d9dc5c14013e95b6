//! A repair, from the path of an image to that of another (`thin_repair`).

ghost use Rattle.std.specs.Prelude.{◌≡◌, IfErr, true};
ghost use Rattle.pd_kinds.specs.Rule.{faults_at, report_of, has_rule};
ghost use Rattle.pd_answers.specs.Repairs.{saved_of};
ghost use Rattle.pd_image.specs.Device.{IsAttached, IsWritable, KeepsPlace, OnlyReads};
ghost use Rattle.pd_repair.specs.Repaired.{CountsRepair, IsRepairedAs, NamesRules};
ghost use Rattle.pd_tools.specs.Ending.{repair_ended};
ghost use Rattle.pd_tools.specs.Restore.{saved_content};
ghost use Rattle.pd_tools.specs.Given.{is_known};

use crate::ending::{Ending, Outcome, Stop, no_room};
use crate::task::{DevicePath, Places, Task};
use pd_answers::CacheRoots;
use pd_image::Device;
use pd_kept::kept_cache_line;
use pd_kinds::{Report, Rules};
use pd_repair::{RepairFault, repair_cache, repair_shared, repair_thin};
use std::alloc::Global;

/// Writes what can be saved of the pool in the image at one path to the image at another, with the leaves that its devices
/// share or without. Where the superblock has faults, their report goes to `notes`.
#[derive(Clone, Copy)]
pub struct Repair<'a> {
    pub from: &'a str,
    pub to: &'a str,
    pub shared: bool,
}

impl Task for Repair<'_> {
    ghost use Rattle.pd_answers.specs.Repairs.{repair};

    ghost terms = { λ task. repair task.shared task.from.now task.to.now };

    fn places(&self) -> Places<'_> {
        Places {
            input: DevicePath::Reading(self.from),
            output: DevicePath::Writing(self.to),
            third: DevicePath::Unused,
        }
    }

    fn laws(&self) {}

    fn work<A: Device, B: Device, C: Device>(
        &self,
        alloc: Global,
        input: &mut A,
        output: &mut B,
        third: &mut C,
    ) -> Result<Outcome, Stop> {
        ended_of(repair_pool(alloc, self.shared, input, output))
    }
}

/// Writes what can be saved of a pool, with the leaves that its devices share or without.
fn repair_pool<A: Device, B: Device>(
    alloc: Global,
    shared: bool,
    input: &mut A,
    output: &mut B,
) -> Result<(), RepairFault>
    requires attached { IsAttached (A.state input.old) }
    requires writable { IsWritable (B.state output.old) }
    ensures repaired { IsRepairedAs (saved_content shared) (saved_of shared) result (A.state input.old) (B.state output.old)
        (B.state output.new) }
    ensures named { IfErr result NamesRules }
    ensures input { OnlyReads (A.state input.old) (A.state input.new) }
    ensures place { KeepsPlace (B.state output.old) (B.state output.new) }
    ensures causes { CountsRepair result (A.state input.old).faults
        (A.state input.new).faults (B.state output.old).faults (B.state output.new).faults }
{
    if shared {
        repair_shared(alloc, input, output)
    } else {
        repair_thin(alloc, input, output)
    }
}

/// How a repair ended.
pub(crate) fn ended_of(repaired: Result<(), RepairFault>) -> Result<Outcome, Stop>
    ensures { result ≡ repair_ended repaired }
{
    let ending = match repaired {
        Ok(()) => Ending::Done,
        Err(fault) => match fault {
            RepairFault::Memory => return Err(Stop::Memory),
            RepairFault::Input | RepairFault::Output => return Err(Stop::Device),
            RepairFault::NoSuper(rules) => Ending::Faulty(report_of_rules(&rules)),
            RepairFault::NoRoom { need, blocks } => no_room(need, blocks),
        },
    };
    Ok(Outcome::Ended(ending))
}

/// The report of a superblock that breaks these rules.
fn report_of_rules(rules: &Rules) -> Report
    ensures { result ≡ report_of (faults_at 0 (has_rule rules.now)) }
{
    let mut report = Report::new();
    report.add_rules(0, rules);
    report
}

// A repair of a cache, from the path of an image to that of another (`cache_repair`).

/// Writes what can be saved of the cache in the image at one path to the image at another, in this version of its metadata or
/// else in its own, and puts the line of what is kept. Roots that are named stand for those of the superblock. Where the
/// superblock has faults, their report goes to `notes`.
#[derive(Clone, Copy)]
pub struct CacheRepair<'a> {
    pub from: &'a str,
    pub to: &'a str,
    pub version: Option<u32>,
    pub named: CacheRoots,
    ghost known: { is_known version ≡ true },
}

impl Task for CacheRepair<'_> {
    ghost use Rattle.pd_answers.specs.Repairs.{repair_cache};

    ghost terms = { λ task. repair_cache task.version task.named task.from.now task.to.now };

    fn places(&self) -> Places<'_> {
        Places {
            input: DevicePath::Reading(self.from),
            output: DevicePath::Writing(self.to),
            third: DevicePath::Unused,
        }
    }

    fn laws(&self) {}

    fn work<A: Device, B: Device, C: Device>(
        &self,
        alloc: Global,
        input: &mut A,
        output: &mut B,
        third: &mut C,
    ) -> Result<Outcome, Stop> {
        match repair_cache(alloc, input, output, self.version, self.named) {
            Ok(kept) => Ok(Outcome::Line(kept_cache_line(&kept))),
            Err(fault) => ended_of(Err(fault)),
        }
    }
}
