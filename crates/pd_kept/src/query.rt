//! What a repair of a pool would keep, as it is asked for (`thin_repair --dry-run`).

ghost use Rattle.std.specs.Prelude.{◌≡◌, ◌≢◌, [], None, IfOk, IfSome};
ghost use Rattle.pd_kinds.specs.declared.kind.Kind.TheVariants.{Thin};
ghost use Rattle.pd_kinds.specs.declared.kind.Stage.TheVariants.{Super};
ghost use Rattle.pd_kinds.specs.Stages.{faults};
ghost use Rattle.pd_image.specs.Device.{IsAttached, OnlyReads};
ghost use Rattle.pd_query.specs.Query.{StartFails};
ghost use Rattle.pd_repair.specs.Repaired.{IsSoundSuper};
ghost use Rattle.pd_kept.specs.States.{untaken_of};

use crate::kept::{Kept, kept_by_repair};
use crate::lines::put_kept;
use pd_image::{Device, Sink};
use pd_kinds::ThinSuper;
use pd_query::{Query, QueryFault};
use pd_repair::{RepairFault, sound_super};
use pd_salvage::SalvageFault;
use std::alloc::Global;

/// What a repair of a pool would keep, as it is asked for. It is asked of a pool whose superblock has no faults, whatever is
/// damaged behind it.
#[derive(Clone, Copy, Debug, PartialEq, Eq)]
pub struct KeptOfPool;

impl Query for KeptOfPool {
    ghost use Rattle.std.specs.Prelude.{◌≡◌, [], IfSome};
    ghost use Rattle.pd_kinds.specs.declared.kind.Kind.TheVariants.{Thin};
    ghost use Rattle.pd_kinds.specs.declared.kind.Stage.TheVariants.{Super};
    ghost use Rattle.pd_kinds.specs.Stages.{faults};
    ghost use Rattle.pd_answers.specs.KeptLines.{kept_text, told_text};
    ghost use Rattle.pd_kept.specs.Kept.{told_of};

    type Started = Kept;

    ghost kind = { Thin };

    ghost stage = { Super };

    ghost answer = { λ query image. kept_text image };

    ghost IsOver = { λ query kept held. IfSome held (λ image. faults Thin Super image ≡ [] → told_text (told_of kept) ≡ kept_text image) };

    fn start<D: Device>(&self, alloc: Global, dev: &mut D) -> Result<Kept, QueryFault> {
        match super_if_sound(dev)? {
            Some(s) => match kept_by_repair(alloc, dev, &s) {
                Ok(kept) => Ok(kept),
                Err(SalvageFault::Memory) => Err(QueryFault::Memory),
                Err(SalvageFault::Device) => Err(QueryFault::Device),
            },
            None => Ok(Kept::none(alloc)),
        }
    }

    fn put<D: Device, K: Sink>(
        &self,
        alloc: Global,
        started: Kept,
        dev: &mut D,
        out: &mut K,
    ) -> Result<(), QueryFault> {
        match put_kept(&started, out) {
            Ok(()) => Ok(()),
            Err(_) => Err(QueryFault::Sink),
        }
    }
}

/// The superblock of a pool, or `None` where it breaks rules. Fails with `Device` where the read failed.
fn super_if_sound<D: Device>(dev: &mut D) -> Result<Option<ThinSuper>, QueryFault>
    requires { IsAttached (D.state dev.old) }
    ensures sound { IfOk result (λ found. IfSome found (λ s. IsSoundSuper s (D.state dev.old))) }
    ensures broken { IfOk result (λ found. found ≡ None → IfSome (D.state dev.old).held (λ image. faults Thin Super image ≢ [])) }
    ensures kept { OnlyReads (D.state dev.old) (D.state dev.new) }
    ensures faults { StartFails result (D.state dev.old).faults (D.state dev.new).faults }
{
    match sound_super(dev) {
        Ok(s) => Ok(Some(s)),
        Err(fault) => untaken(fault),
    }
}

/// What a superblock that wasn't taken comes to: its read failed, or it breaks rules.
fn untaken(fault: RepairFault) -> Result<Option<ThinSuper>, QueryFault>
    ensures { result ≡ untaken_of fault }
{
    match fault {
        RepairFault::Input => Err(QueryFault::Device),
        RepairFault::Memory
        | RepairFault::Output
        | RepairFault::NoSuper(_)
        | RepairFault::NoRoom { .. } => Ok(None),
    }
}
