//! The roots of damaged mapping trees, and of details trees, sound or damaged (`thin_repair`).

ghost use Rattle.std.specs.Prelude.{◌≡◌, ℕ, ◌<◌, ◌≤◌, IfOk, IfSome};
ghost use Rattle.std.specs.List.{AllByRecursion};
ghost use Rattle.pd_kinds.specs.CheckFault.{CountsCheckFault};
ghost use Rattle.pd_kinds.specs.Graph.{Graph};
ghost use Rattle.pd_image.specs.Device.{IsAttached, OnlyReads};
ghost use Rattle.pd_graph.specs.Notes.{size_of};
ghost use Rattle.pd_scan.specs.Lost.{AreRoots};
ghost use Rattle.pd_damaged.specs.Loose.{AreDetailsRoots, AreTopmost};

use crate::loose::Kind;
use crate::marks::LooseNodes;
use pd_graph::Notes;
use pd_image::Device;
use pd_kinds::CheckFault;
use std::alloc::Global;

/// The blocks that look like roots of damaged mapping trees, ascending, whatever is kept below them.
///
/// Fails with `CheckFault::Memory` where memory wasn't found, and with `CheckFault::Device` where a read failed.
pub(crate) fn loose_tops<D: Device>(
    alloc: Global,
    notes: &Notes,
    dev: &mut D,
) -> Result<Vec<u64>, CheckFault>
    requires attached { IsAttached (D.state dev.old) }
    requires within { size_of notes.now ≤ (D.state dev.old).blocks }
    ensures all { IfOk result (λ found. IfSome (D.state dev.old).held (λ image. (graph : Graph) → graph.nr ≡ size_of notes.now
        → AreRoots graph image 2 notes.now → AreTopmost graph image found.items)) }
    ensures inside { IfOk result (λ found. AllByRecursion (λ b. b < size_of notes.now) found.items) }
    ensures kept { OnlyReads (D.state dev.old) (D.state dev.new) }
    ensures faults { CountsCheckFault result (D.state dev.old).faults (D.state dev.new).faults }
{
    let nodes = LooseNodes::find(alloc, Kind::Top, notes, dev)?;
    Ok(nodes.listed(alloc, notes, false)?)
}

/// The blocks that are roots of sound details trees, or look like those of damaged ones, ascending.
///
/// Fails with `CheckFault::Memory` where memory wasn't found, and with `CheckFault::Device` where a read failed.
pub(crate) fn details_roots<D: Device>(
    alloc: Global,
    notes: &Notes,
    dev: &mut D,
) -> Result<Vec<u64>, CheckFault>
    requires attached { IsAttached (D.state dev.old) }
    requires within { size_of notes.now ≤ (D.state dev.old).blocks }
    ensures all { IfOk result (λ found. IfSome (D.state dev.old).held (λ image. (graph : Graph) → graph.nr ≡ size_of notes.now
        → AreRoots graph image 4 notes.now → AreDetailsRoots graph image found.items)) }
    ensures inside { IfOk result (λ found. AllByRecursion (λ b. b < size_of notes.now) found.items) }
    ensures kept { OnlyReads (D.state dev.old) (D.state dev.new) }
    ensures faults { CountsCheckFault result (D.state dev.old).faults (D.state dev.new).faults }
{
    let nodes = LooseNodes::find(alloc, Kind::Details, notes, dev)?;
    Ok(nodes.listed(alloc, notes, true)?)
}
