//! A shrink, from the paths of its three devices to the line that says how many data blocks were moved (`thin_shrink`).

ghost use Rattle.std.specs.Prelude.{◌≡◌, [], None, Bool, List, ℕ, IfOk, IfSome, length};
ghost use Rattle.pd_kinds.specs.declared.kind.Kind.TheVariants.{Thin};
ghost use Rattle.pd_kinds.specs.declared.kind.Stage.TheVariants.{Counts};
ghost use Rattle.pd_kinds.specs.Objects.{DeviceState, SinkState};
ghost use Rattle.pd_kinds.specs.Stages.{faults};
ghost use Rattle.pd_answers.specs.Terms.{AreFresh, Objects};
ghost use Rattle.pd_answers.specs.Shrinks.{sources, ShrinkGround, lack_of, moved_line, pool_before, shrink};
ghost use Rattle.pd_image.specs.Device.{IsAttached, IsWritable, KeepsPlace, OnlyReads};
ghost use Rattle.pd_shrink.specs.Failing.{CountsPlanning};
ghost use Rattle.pd_shrink.specs.Planned.{IsPlanOf, Plans};
ghost use Rattle.pd_tools.specs.Ending.{shrink_ended};
ghost use Rattle.pd_tools.specs.Opened.{AreOpened, Devices, devices};
ghost use Rattle.pd_tools.specs.Shrink.{IsWritten};
ghost use Rattle.pd_tools.specs.Task.{Works};

use crate::check::check_attached;
use crate::ending::{Ending, Outcome, Stop};
use crate::task::{DevicePath, Places, Task};
use pd_image::Device;
use pd_kinds::{Kind, Stage};
use pd_lines::LineBuffer;
use pd_shrink::{Shrink, ShrinkFault};
use std::alloc::Global;

/// Makes the pool of the metadata at the path `from` smaller, to so many data blocks or fewer: moves what lies past them on the
/// data device at the path `pool`, and writes the new metadata at the path `to`, with the leaves that devices share or without.
#[derive(Clone, Copy)]
pub struct Shrinking<'a> {
    pub shared: bool,
    pub from: &'a str,
    pub to: &'a str,
    pub pool: &'a str,
    pub blocks: u64,
}

impl Task for Shrinking<'_> {
    ghost use Rattle.pd_answers.specs.Shrinks.{shrink};

    ghost terms = { λ task. shrink task.shared task.from.now task.to.now task.pool.now task.blocks };

    fn places(&self) -> Places<'_> {
        Places {
            input: DevicePath::Reading(self.from),
            output: DevicePath::Writing(self.to),
            third: DevicePath::Writing(self.pool),
        }
    }

    fn laws(&self) {}

    fn work<A: Device, B: Device, C: Device>(
        &self,
        alloc: Global,
        input: &mut A,
        output: &mut B,
        third: &mut C,
    ) -> Result<Outcome, Stop> {
        let report = check_attached(alloc, Kind::Thin, Stage::Counts, input)?;
        if !report.is_empty() {
            return Ok(Outcome::Ended(Ending::Faulty(report)));
        }
        shrink_sound(alloc, self.shared, self.blocks, input, output, third)
    }
}

/// Makes a pool smaller whose metadata is sound.
fn shrink_sound<A: Device, B: Device, C: Device>(
    alloc: Global,
    shared: bool,
    blocks: u64,
    input: &mut A,
    output: &mut B,
    third: &mut C,
) -> Result<Outcome, Stop>
    requires input { (A.state input.old).access ≡ 1 }
    requires output { IsWritable (B.state output.old) }
    requires third { IsWritable (C.state third.old) }
    requires sound { IfSome (A.state input.old).held (λ image. faults Thin Counts image ≡ []) }
    ensures input { OnlyReads (A.state input.old) (A.state input.new) }
    ensures output { KeepsPlace (B.state output.old) (B.state output.new) }
    ensures third { KeepsPlace (C.state third.old) (C.state third.new) }
    ensures works { (from to pool : List ℕ) (others : Objects) (notes : SinkState) (first : Devices) →
        let before = record others { input = first.input; output = first.output; third = first.third } in
        let after = record others { notes = notes; input = A.state input.new; output = B.state output.new; third = C.state third.new } in
        let terms = shrink shared from to pool blocks in
        AreFresh before → AreOpened terms.uses first (devices (A.state input.old) (B.state output.old) (C.state third.old))
        → Works terms before after result }
{
    let plan = match plan_shrink(alloc, shared, blocks, input, output, third) {
        Ok(plan) => plan,
        Err(fault) => return ended_without_plan(fault),
    };
    let count = move_and_write(alloc, plan, output, third)?;
    Ok(Outcome::Line(moved_text(count)))
}

/// The plan of a shrink, with the leaves that devices share or without.
fn plan_shrink<A: Device, B: Device, C: Device>(
    alloc: Global,
    shared: bool,
    blocks: u64,
    input: &mut A,
    output: &B,
    third: &C,
) -> Result<Shrink, ShrinkFault>
    requires input { IsAttached (A.state input.old) }
    requires output { IsAttached (B.state output.now) }
    requires third { IsAttached (C.state third.now) }
    requires sound { IfSome (A.state input.old).held (λ image. faults Thin Counts image ≡ []) }
    ensures plans { Plans shared (A.state input.old).held (B.state output.now).blocks (C.state third.now).blocks blocks result }
    ensures kept { OnlyReads (A.state input.old) (A.state input.new) }
    ensures faults { CountsPlanning result (A.state input.old).faults (A.state input.new).faults }
{
    if shared {
        Shrink::plan_shared(alloc, input, output, third, blocks)
    } else {
        Shrink::plan(alloc, input, output, third, blocks)
    }
}

/// How a shrink ended of which no plan was made.
fn ended_without_plan(fault: ShrinkFault) -> Result<Outcome, Stop>
    ensures { result ≡ shrink_ended fault }
{
    match fault {
        ShrinkFault::Memory => Err(Stop::Memory),
        ShrinkFault::Meta | ShrinkFault::Output => Err(Stop::Device),
        ShrinkFault::BlockSize => Ok(Outcome::Ended(Ending::BlockSize)),
        ShrinkFault::NoRoom { need, blocks } => {
            Ok(Outcome::Ended(Ending::NoRoom { need, blocks }))
        }
    }
}

/// Moves the data blocks of a plan, and then writes the metadata of the smaller pool: how many data blocks were moved.
fn move_and_write<B: Device, C: Device>(
    alloc: Global,
    plan: Shrink,
    output: &mut B,
    third: &mut C,
) -> Result<u64, Stop>
    requires output { IsWritable (B.state output.old) }
    requires third { IsWritable (C.state third.old) }
    requires output_blocks { (B.state output.old).blocks ≡ plan.output_blocks }
    requires pool_blocks { (C.state third.old).blocks ≡ plan.pool_blocks }
    ensures count { IfOk result (λ n. (shared : Bool) (basis : ShrinkGround shared)
        → IsPlanOf basis plan → lack_of basis ≡ None → n ≡ length (sources (pool_before basis) basis.end)) }
    ensures written { (meta : DeviceState) → IsWritten plan result (devices meta (B.state output.old) (C.state third.old))
        (devices meta (B.state output.new) (C.state third.new)) }
{
    let count = match plan.copy(third) {
        Ok(count) => count,
        Err(_) => return Err(Stop::Device),
    };
    match plan.write(alloc, output) {
        Ok(()) => Ok(count),
        Err(ShrinkFault::Memory) => Err(Stop::Memory),
        Err(_) => Err(Stop::Device),
    }
}

/// The line of a shrink.
fn moved_text(count: u64) -> LineBuffer
    ensures { result ≡ moved_line count }
{
    let mut line = LineBuffer::new();
    line.add(b"moved ");
    line.add_number(count);
    line.add(b"\n");
    line
}
