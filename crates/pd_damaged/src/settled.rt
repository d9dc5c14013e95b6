//! Which blocks are the roots of sound trees (`thin_repair`).

ghost use Rattle.std.specs.Prelude.{◌≡◌, ◌≤◌, length, IfOk, IfSome};
ghost use Rattle.pd_kinds.specs.CheckFault.{CountsCheckFault};
ghost use Rattle.pd_image.specs.Device.{IsAttached, OnlyReads};
ghost use Rattle.pd_graph.specs.Notes.{size_of};
ghost use Rattle.pd_scan.specs.Lost.{IsPool};
ghost use Rattle.pd_damaged.specs.Loose.{AreSound};

use pd_graph::{Format, Notes};
use pd_image::Device;
use pd_kinds::CheckFault;
use pd_scan::settle_lost;
use std::alloc::{AllocError, Global};

/// Which blocks are the roots of sound trees.
#[derive(Drop)]
pub(crate) struct Sound {
    /// Notes of each block as the root of a mapping tree.
    pub(crate) tops: Notes,
    /// Notes of each block as the root of a details tree.
    pub(crate) details: Notes,
}

/// A table of so many sets of roles, all empty. Want of memory is the only error.
fn no_roles(alloc: Global, nr: u64) -> Result<Vec<u16>, AllocError>
    ensures { IfOk result (λ fit. length fit.items ≡ nr) }
{
    let mut fit = Vec::new(alloc);
    fit.resize(nr as usize, 0)?;
    Ok(fit)
}

/// Finds which blocks of a pool of this format are the roots of sound trees. It reads each block eight times at most.
///
/// Fails with `CheckFault::Memory` where memory wasn't found, and with `CheckFault::Device` where a read failed.
pub(crate) fn settle<F: Format, D: Device>(
    alloc: Global,
    format: &F,
    dev: &mut D,
) -> Result<Sound, CheckFault>
    requires pool { IsPool F.ROLES (F.graph format.now) }
    requires attached { IsAttached (D.state dev.old) }
    requires within { (F.graph format.now).nr ≤ (D.state dev.old).blocks }
    ensures sound { IfOk result (λ sound. IfSome (D.state dev.old).held (λ image. AreSound (F.graph format.now) image sound)) }
    ensures tops { IfOk result (λ sound. size_of sound.tops ≡ (F.graph format.now).nr) }
    ensures details { IfOk result (λ sound. size_of sound.details ≡ (F.graph format.now).nr) }
    ensures kept { OnlyReads (D.state dev.old) (D.state dev.new) }
    ensures faults { CountsCheckFault result (D.state dev.old).faults (D.state dev.new).faults }
{
    let nr = format.nr();
    let mut fit = no_roles(alloc, nr)?;
    let mut tops = Notes::new(alloc, nr)?;
    let mut devices = Notes::new(alloc, nr)?;
    let mut details = Notes::new(alloc, nr)?;
    settle_lost(
        fit.as_mut_slice(),
        &mut tops,
        &mut devices,
        &mut details,
        format,
        dev,
    )?;
    Ok(Sound { tops, details })
}
