//! A repair from roots that are named, from the paths of two images, the numbers that are given and the roots.
//! Serves `thin_repair`.

ghost use Rattle.std.specs.Prelude.{◌≡◌, ◌≤◌, IfOk, IfSome, ◌≢◌, None};
ghost use Rattle.std.specs.Option.{option_map};
ghost use Rattle.pd_answers.specs.NamedRepairs.{named_fields, pool_time, timeless_fields, text_without_super};
ghost use Rattle.pd_image.specs.Device.{IsAttached, OnlyReads};
ghost use Rattle.pd_salvage.specs.Saved.{CountsSalvage};
ghost use Rattle.pd_kept.specs.States.{looked_text};
ghost use Rattle.pd_words.specs.Words.{IsPoolSize};

use crate::ending::{Ending, Outcome, Stop};
use crate::repair::ended_of;
use crate::search::repair_lost;
use crate::task::{DevicePath, Places, Task};
use pd_answers::{GivenSuper, NamedRoots};
use pd_image::Device;
use pd_kept::{Looked, kept_by_repair, look_for_states, time_of_saved, usable_blocks};
use pd_kinds::ThinSuper;
use pd_salvage::SalvageFault;
use pd_scan::{Roots, lost_super};
use std::alloc::Global;

/// Writes what can be saved from two roots of the image at one path to the image at another, with the numbers that are given,
/// and with the leaves that its devices share or without.
#[derive(Clone, Copy)]
pub struct NamedRepair<'a> {
    pub from: &'a str,
    pub to: &'a str,
    pub shared: bool,
    pub given: GivenSuper,
    pub named: NamedRoots,
    ghost size: { IsPoolSize given.blocks },
}

impl Task for NamedRepair<'_> {
    ghost use Rattle.pd_answers.specs.NamedRepairs.{repair_named};

    ghost terms = { λ task. repair_named task.shared task.from.now task.to.now task.given task.named };

    fn places(&self) -> Places<'_> {
        Places {
            input: DevicePath::Reading(self.from),
            output: DevicePath::Writing(self.to),
            third: DevicePath::Unused,
        }
    }

    fn laws(&self) {}

    fn work<A: Device, B: Device, C: Device>(
        &self,
        alloc: Global,
        input: &mut A,
        output: &mut B,
        third: &mut C,
    ) -> Result<Outcome, Stop> {
        let s = named_super(alloc, input, &self.given, &self.named)?;
        let written = repair_lost(alloc, self.shared, input, output, &s.fields, s.time);
        ended_of(written)
    }
}

/// The superblock of a pool whose roots are named, with the time that lost details get, and the pool's own time.
#[derive(Clone, Copy)]
pub(crate) struct NamedSuper {
    pub(crate) fields: ThinSuper,
    pub(crate) time: u32,
}

/// The superblock of a pool with these roots, and the times of what is saved from them.
///
/// Fails with `Device` where a read failed, and with `Memory` where memory wasn't found.
pub(crate) fn named_super<A: Device>(
    alloc: Global,
    input: &mut A,
    given: &GivenSuper,
    named: &NamedRoots,
) -> Result<NamedSuper, SalvageFault>
    requires attached { IsAttached (A.state input.old) }
    requires size { IsPoolSize given.now.blocks }
    ensures named { IfOk result (λ s. IfSome (A.state input.old).held (λ image. s.fields ≡ named_fields image given.now named.now)) }
    ensures time { IfOk result (λ s. IfSome (A.state input.old).held
        (λ image. s.time ≡ pool_time (timeless_fields image given.now named.now) image)) }
    ensures within { IfOk result (λ s. s.fields.meta_map.blocks ≤ (A.state input.old).blocks) }
    ensures few { IfOk result (λ s. s.fields.meta_map.blocks ≤ 4161600) }
    ensures data { IfOk result (λ s. s.fields.data_map.blocks ≡ given.now.blocks) }
    ensures kept { OnlyReads (A.state input.old) (A.state input.new) }
    ensures faults { CountsSalvage result (A.state input.old).faults (A.state input.new).faults }
{
    let timeless = lost_super(
        &roots_of(named),
        given.transaction,
        given.block_size,
        usable_blocks(input),
        given.blocks,
    );
    let times = time_of_saved(alloc, input, &timeless)?;
    Ok(NamedSuper {
        fields: ThinSuper {
            time: times.lost,
            ..timeless
        },
        time: times.pool,
    })
}

/// The roots, of which nothing else is known.
fn roots_of(named: &NamedRoots) -> Roots
    ensures { result ≡ record { top = named.now.top; details = named.now.details; mappings = 0; time = 0; transaction = 0; times = 0 } }
{
    Roots {
        top: named.top,
        details: named.details,
        mappings: 0,
        time: 0,
        transaction: 0,
        times: 0,
    }
}

// What a repair without a superblock would keep, from the path of an image and the numbers that are given.
// Serves `thin_repair --dry-run`.

/// Tells what a repair would keep of the image at a path, with the numbers that are given: from roots that are named, or else
/// from the best state that is found, after the states to choose from.
#[derive(Clone, Copy)]
pub struct DrySearch<'a> {
    pub path: &'a str,
    pub given: GivenSuper,
    pub named: Option<NamedRoots>,
    ghost size: { IsPoolSize given.blocks },
}

impl Task for DrySearch<'_> {
    ghost use Rattle.pd_answers.specs.NamedRepairs.{dry_search};

    ghost terms = { λ task. dry_search task.path.now task.given task.named };

    fn places(&self) -> Places<'_> {
        Places {
            input: DevicePath::Reading(self.path),
            output: DevicePath::Unused,
            third: DevicePath::Unused,
        }
    }

    fn laws(&self) {}

    fn work<A: Device, B: Device, C: Device>(
        &self,
        alloc: Global,
        input: &mut A,
        output: &mut B,
        third: &mut C,
    ) -> Result<Outcome, Stop> {
        match look(alloc, input, &self.given, self.named)? {
            Some(looked) => Ok(Outcome::Told(looked)),
            None => Ok(Outcome::Ended(Ending::NoRoots { are_damaged: false })),
        }
    }
}

/// What would be kept, if there are roots. Some are named, or there may be none.
///
/// Fails with `Device` where a read failed, and with `Memory` where memory wasn't found.
fn look<A: Device>(
    alloc: Global,
    input: &mut A,
    given: &GivenSuper,
    named: Option<NamedRoots>,
) -> Result<Option<Looked>, SalvageFault>
    requires attached { IsAttached (A.state input.old) }
    requires size { IsPoolSize given.now.blocks }
    ensures told { IfOk result (λ looked. IfSome (A.state input.old).held (λ image.
        option_map looked_text looked ≡ text_without_super named given.now image)) }
    ensures some { IfOk result (λ looked. IfSome named (λ _. looked ≢ None)) }
    ensures kept { OnlyReads (A.state input.old) (A.state input.new) }
    ensures faults { CountsSalvage result (A.state input.old).faults (A.state input.new).faults }
{
    match named {
        Some(roots) => {
            let s = named_super(alloc, input, given, &roots)?;
            let kept = kept_by_repair(alloc, input, &s.fields)?;
            Ok(Some(Looked::from_named(alloc, kept)))
        }
        None => look_for_states(
            alloc,
            input,
            given.transaction,
            given.block_size,
            given.blocks,
        ),
    }
}
