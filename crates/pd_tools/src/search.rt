//! A repair without a superblock, from the paths of two images and the numbers that are given to the line of the roots.
//! Serves `thin_repair`.

ghost use Rattle.std.specs.Prelude.{◌≡◌, ◌≤◌, ◌^◌, ℕ, List, IfOk, IfSome, min};
ghost use Rattle.pd_kinds.specs.declared.limits.TheConstants.{MAX_META_BLOCKS};
ghost use Rattle.pd_kinds.specs.CheckFault.{CountsCheckFault};
ghost use Rattle.pd_kinds.specs.Objects.{DeviceState, SinkState};
ghost use Rattle.pd_laid.specs.FoundRoots.{AreBest, lost_graph};
ghost use Rattle.pd_answers.specs.Terms.{AreFresh, Objects};
ghost use Rattle.pd_answers.specs.Searches.{roots_line};
ghost use Rattle.pd_image.specs.Device.{IsAttached, IsWritable, KeepsPlace, OnlyReads};
ghost use Rattle.pd_repair.specs.Repaired.{CountsRepair, HasSuper, IsRepairedFromAs};
ghost use Rattle.pd_scan.specs.Pairs.{AreInside, roots_of};
ghost use Rattle.pd_words.specs.Words.{IsPoolSize};
ghost use Rattle.pd_tools.specs.Opened.{AreOpened, Devices, devices};
ghost use Rattle.pd_tools.specs.Restore.{saved_content, seen_by};
ghost use Rattle.pd_tools.specs.Given.{terms_of_search};
ghost use Rattle.pd_tools.specs.Search.{AreInsideHere, IsFoundHere};
ghost use Rattle.pd_tools.specs.Task.{Works};

use crate::ending::{Ending, Outcome, Stop};
use crate::repair::ended_of;
use crate::task::{DevicePath, Places, Task};
use pd_answers::GivenSuper;
use pd_damaged::find_damaged;
use pd_image::Device;
use pd_kept::usable_blocks;
use pd_kinds::{CheckFault, ThinSuper};
use pd_lines::LineBuffer;
use pd_repair::{RepairFault, repair_seen, repair_seen_shared};
use pd_scan::{Roots, find_roots, found_pools_are_saved_whole, lost_super};
use std::alloc::Global;

/// Writes the pool of the best roots that are found in the image at one path to the image at another, with the numbers
/// that are given, and with the leaves that its devices share or without; and puts the line of these roots.
#[derive(Clone, Copy)]
pub struct Search<'a> {
    pub from: &'a str,
    pub to: &'a str,
    pub shared: bool,
    pub given: GivenSuper,
    ghost size: { IsPoolSize given.blocks },
}

impl Task for Search<'_> {
    ghost use Rattle.pd_tools.specs.Given.{terms_of_search};

    ghost terms = { λ task. terms_of_search task.shared task.given task.from.now task.to.now };

    fn places(&self) -> Places<'_> {
        Places {
            input: DevicePath::Reading(self.from),
            output: DevicePath::Writing(self.to),
            third: DevicePath::Unused,
        }
    }

    fn laws(&self) {}

    fn work<A: Device, B: Device, C: Device>(
        &self,
        alloc: Global,
        input: &mut A,
        output: &mut B,
        third: &mut C,
    ) -> Result<Outcome, Stop> {
        match look_for_roots(alloc, input, self.given.blocks) {
            Ok(found) => match found {
                Found::Best(roots) => {
                    write_found(alloc, &roots, self.shared, &self.given, input, output)
                }
                Found::NoRoots { are_damaged } => {
                    Ok(Outcome::Ended(Ending::NoRoots { are_damaged }))
                }
            },
            Err(fault) => match fault {
                CheckFault::Memory => Err(Stop::Memory),
                CheckFault::Device => Err(Stop::Device),
            },
        }
    }
}

/// What a search finds.
enum Found {
    /// The best roots.
    Best(Roots),
    /// None. There may be damaged states.
    NoRoots { are_damaged: bool },
}

/// Looks for the best roots of a pool with so many data blocks, and where there are none for damaged states.
///
/// Fails with `CheckFault::Memory` where memory wasn't found, and with `CheckFault::Device` where a read failed.
fn look_for_roots<A: Device>(
    alloc: Global,
    input: &mut A,
    data_blocks: u64,
) -> Result<Found, CheckFault>
    requires attached { IsAttached (A.state input.old) }
    ensures found { IfOk result (λ found. IfSome (A.state input.old).held (λ image. IsFoundHere image data_blocks found)) }
    ensures inside { IfOk result (AreInsideHere (min (A.state input.old).blocks MAX_META_BLOCKS)) }
    ensures kept { OnlyReads (A.state input.old) (A.state input.new) }
    ensures faults { CountsCheckFault result (A.state input.old).faults (A.state input.new).faults }
{
    match find_roots(alloc, input, data_blocks)? {
        Some(roots) => Ok(Found::Best(roots)),
        None => {
            let damaged = find_damaged(alloc, input, data_blocks)?;
            Ok(Found::NoRoots {
                are_damaged: damaged.len() > 0,
            })
        }
    }
}

/// Writes the pool of the best roots: their line.
fn write_found<A: Device, B: Device>(
    alloc: Global,
    roots: &Roots,
    shared: bool,
    given: &GivenSuper,
    input: &mut A,
    output: &mut B,
) -> Result<Outcome, Stop>
    requires size { IsPoolSize given.now.blocks }
    requires inside { AreInside (min (A.state input.old).blocks MAX_META_BLOCKS) roots.now }
    requires best { IfSome (A.state input.old).held (λ image. AreBest (lost_graph image given.now.blocks) image (roots_of roots.now)) }
    requires input { (A.state input.old).access ≡ 1 }
    requires output { IsWritable (B.state output.old) }
    ensures input { OnlyReads (A.state input.old) (A.state input.new) }
    ensures output { KeepsPlace (B.state output.old) (B.state output.new) }
    ensures works { (from to : List ℕ) (others : Objects) (notes : SinkState) (first : Devices) (third : DeviceState) →
        let before = record others { input = first.input; output = first.output; third = first.third } in
        let after = record others { notes = notes; input = A.state input.new; output = B.state output.new; third = third } in
        let terms = terms_of_search shared given.now from to in
        AreFresh before → AreOpened terms.uses first (devices (A.state input.old) (B.state output.old) third)
        → Works terms before after result }
{
    found_pools_are_saved_whole();
    let meta_blocks = usable_blocks(input);
    let lost = lost_super(
        roots,
        given.transaction,
        given.block_size,
        meta_blocks,
        given.blocks,
    );
    match repair_lost(alloc, shared, input, output, &lost, lost.time) {
        Ok(()) => Ok(Outcome::Line(roots_text(roots))),
        Err(fault) => ended_of(Err(fault)),
    }
}

/// Writes what can be saved of the pool with this superblock, with this as the pool's time, and with sharing seen in it; with the
/// leaves that its devices share or without.
pub(crate) fn repair_lost<A: Device, B: Device>(
    alloc: Global,
    shared: bool,
    input: &mut A,
    output: &mut B,
    lost: &ThinSuper,
    time: u32,
) -> Result<(), RepairFault>
    requires attached { IsAttached (A.state input.old) }
    requires writable { IsWritable (B.state output.old) }
    requires there { lost.now.meta_map.blocks ≤ (A.state input.old).blocks }
    requires few { lost.now.meta_map.blocks ≤ 4161600 }
    requires data { lost.now.data_map.blocks ≤ 2 ^ 40 }
    ensures repaired { IsRepairedFromAs (saved_content shared)
        (seen_by shared time) lost.now result (A.state input.old) (B.state output.old) (B.state output.new) }
    ensures sound { HasSuper result }
    ensures input { OnlyReads (A.state input.old) (A.state input.new) }
    ensures place { KeepsPlace (B.state output.old) (B.state output.new) }
    ensures causes { CountsRepair result (A.state input.old).faults
        (A.state input.new).faults (B.state output.old).faults (B.state output.new).faults }
{
    if shared {
        repair_seen_shared(alloc, input, output, lost, time)
    } else {
        repair_seen(alloc, input, output, lost, time)
    }
}

/// The line of roots.
fn roots_text(roots: &Roots) -> LineBuffer
    ensures { result ≡ roots_line (roots_of roots.now) }
{
    let mut line = LineBuffer::new();
    line.add(b"roots ");
    line.add_number(roots.top);
    line.add(b" ");
    line.add_number(roots.details);
    line.add(b" mappings ");
    line.add_number(roots.mappings);
    line.add(b" time ");
    line.add_number(roots.time as u64);
    line.add(b"\n");
    line
}
