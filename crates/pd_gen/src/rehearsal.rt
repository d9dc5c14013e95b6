//! Why a rehearsal has no numbers (`thin_rehearse`).
//! The sink of a dump whose text nobody wants (`thin_rehearse`).
//! The restore of the generator's text (`thin_rehearse`).
//! The dump of what was restored, and what it counts (`thin_rehearse`).
//! The rehearsal (`thin_rehearse`).

ghost use Rattle.std.specs.Prelude.{◌≡◌, ◌≤◌, IfErr, IfOk, IfSome, length, ℕ, List, Some, MatchResult};
ghost use Rattle.pd_kinds.specs.Meaning.{ThinPool};
ghost use Rattle.pd_image.specs.Device.{IsWritable, KeepsPlace, IsAttached, OnlyReads};
ghost use Rattle.pd_gen.specs.Rehearsed.{CountsRehearsal, IsFaulty, RestoresText, IsCountedIn, OnlyFails};
ghost use Rattle.pd_gen.specs.Rehearsed.{IsCountOfPool, FindsFaults, Rehearses};
ghost use Rattle.pd_laws_laid.specs.Clean.{IsCleanPool};

use crate::source::GenSource;
use pd_image::{Device, Failed, Sink, Source};
use pd_kinds::{CheckFault, Report, Stage, faults_are_none_where_clean};
use pd_meaning_thin::rows_are_the_devices;
use pd_pool_dumps::{DumpCounts, ThinDump};
use pd_query::QueryFault;
use pd_restore::{RestoreFault, restore_thin};
use pd_thin::check_thin;
use std::alloc::Global;

/// Why a rehearsal has no numbers.
#[derive(Drop)]
pub enum RehearseFault {
    /// Memory wasn't found.
    Memory,
    /// The device failed.
    Device,
    /// So many blocks are needed, and so many are there.
    NoRoom { need: u64, blocks: u64 },
    /// What was restored has faults.
    Faulty(Report),
}

/// A sink that takes all bytes, and keeps none. It tells nothing, and never fails.
#[derive(Drop)]
pub(crate) struct Nowhere {
    attached: bool,
}

impl Nowhere {
    ghost use Rattle.pd_gen.specs.Rehearsed.{nowhere_state};

    /// The sink, with `attach` behind it.
    pub(crate) fn attached() -> Nowhere
        ensures { (nowhere_state result).access ≡ 1 }
    {
        Nowhere { attached: true }
    }
}

impl Sink for Nowhere {
    ghost use Rattle.std.proofs.Common.{refl};
    ghost use Rattle.pd_gen.specs.Rehearsed.{nowhere_state};

    ghost state = { nowhere_state };

    ghost unnamed = { λ _ _. refl };

    fn attach(&mut self, _path: Option<&str>) -> Result<(), Failed> {
        self.attached = true;
        Ok(())
    }

    fn put(&mut self, _bytes: &[u8]) -> Result<(), Failed> {
        Ok(())
    }
}

/// Restores the generator's text of the number onto the device. No line of it is refused.
pub(crate) fn restore_text<D: Device>(
    alloc: Global,
    number: u32,
    dev: &mut D,
) -> Result<(), RehearseFault>
    requires few { number ≤ 10000 }
    requires writable { IsWritable (D.state dev.old) }
    ensures restored { RestoresText number result (D.state dev.old) (D.state dev.new) }
    ensures unchecked { IfErr result (λ fault. IsFaulty fault → ⊥) }
    ensures place { KeepsPlace (D.state dev.old) (D.state dev.new) }
    ensures causes { CountsRehearsal result (D.state dev.old).faults (D.state dev.new).faults }
{
    let mut source = GenSource::new(number);
    if source.attach("").is_err() {
        unreachable!();
    }
    match restore_thin(alloc, &mut source, dev) {
        Ok(()) => Ok(()),
        Err(fault) => match fault {
            RestoreFault::Memory => Err(RehearseFault::Memory),
            RestoreFault::Device => Err(RehearseFault::Device),
            RestoreFault::NoRoom { need, blocks } => Err(RehearseFault::NoRoom { need, blocks }),
            RestoreFault::Source => unreachable!(),
            RestoreFault::Text(_) => unreachable!(),
        },
    }
}

/// Dumps the pool on the device to nowhere, and answers what the dump counted.
pub(crate) fn count_dump<D: Device>(alloc: Global, dev: &mut D) -> Result<Rehearsal, RehearseFault>
    requires { IsAttached (D.state dev.old) }
    ensures counted { IfOk result (λ rehearsal. IfSome (D.state dev.old).held (λ image. 1 ≤ length image → IsCountedIn image rehearsal)) }
    ensures found { OnlyFails result }
    ensures kept { OnlyReads (D.state dev.old) (D.state dev.new) }
    ensures causes { CountsRehearsal result (D.state dev.old).faults (D.state dev.new).faults }
{
    let mut dump = match ThinDump::start(alloc, dev) {
        Ok(dump) => dump,
        Err(fault) => match fault {
            QueryFault::Memory => return Err(RehearseFault::Memory),
            QueryFault::Device => return Err(RehearseFault::Device),
            QueryFault::Sink => unreachable!(),
        },
    };
    let used = dump.used();
    let mut nowhere = Nowhere::attached();
    match dump.put_counted(dev, &mut nowhere) {
        Ok(counts) => Ok(Rehearsal { used, counts }),
        Err(fault) => match fault {
            QueryFault::Memory => unreachable!(),
            QueryFault::Device => Err(RehearseFault::Device),
            QueryFault::Sink => unreachable!(),
        },
    }
}

/// What a rehearsal found.
#[derive(Clone, Copy, Debug, PartialEq, Eq)]
pub struct Rehearsal {
    /// How many metadata blocks the restored pool uses, as its superblock says.
    pub used: u64,
    /// The mappings and the lines that the dump of it counted.
    pub counts: DumpCounts,
}

/// Restores the generator's text of the number onto the device, checks what was restored up to its counts, and dumps it.
///
/// Fails with `NoRoom` where the text needs more blocks than there are, and with `Faulty`, the report of the check, where
/// that finds faults: over a device that tells what it holds this never comes.
pub fn rehearse<D: Device>(
    alloc: Global,
    number: u32,
    dev: &mut D,
) -> Result<Rehearsal, RehearseFault>
    requires few { number ≤ 10000 }
    requires writable { IsWritable (D.state dev.old) }
    ensures rehearsed { Rehearses number result (D.state dev.old) (D.state dev.new) }
    ensures place { KeepsPlace (D.state dev.old) (D.state dev.new) }
    ensures causes { CountsRehearsal result (D.state dev.old).faults (D.state dev.new).faults }
{
    restore_text(alloc, number, dev)?;
    check_and_count(alloc, dev)
}

/// Checks the pool on the device up to its counts, and dumps it where it has no faults.
fn check_and_count<D: Device>(alloc: Global, dev: &mut D) -> Result<Rehearsal, RehearseFault>
    requires { IsAttached (D.state dev.old) }
    ensures counted { (m : ThinPool) (image : List (List ℕ)) → (D.state dev.old).held ≡ Some image → IsCleanPool image m
        → MatchResult result (IsCountOfPool image m) (λ fault. IsFaulty fault → ⊥) }
    ensures faults { FindsFaults result }
    ensures kept { OnlyReads (D.state dev.old) (D.state dev.new) }
    ensures causes { CountsRehearsal result (D.state dev.old).faults (D.state dev.new).faults }
{
    faults_are_none_where_clean();
    rows_are_the_devices();
    let report = match check_thin(alloc, dev, Stage::Counts) {
        Ok(report) => report,
        Err(fault) => match fault {
            CheckFault::Memory => return Err(RehearseFault::Memory),
            CheckFault::Device => return Err(RehearseFault::Device),
        },
    };
    if !report.is_empty() {
        return Err(RehearseFault::Faulty(report));
    }
    count_dump(alloc, dev)
}
