//! A writeback, from the paths of its three devices to the line that says how many blocks were copied.
//! Serves `cache_writeback`.

ghost use Rattle.std.specs.Prelude.{◌≡◌, [], List, ℕ, IfOk, IfSome, length};
ghost use Rattle.pd_kinds.specs.declared.kind.Kind.TheVariants.{Cache};
ghost use Rattle.pd_kinds.specs.declared.kind.Stage.TheVariants.{Whole};
ghost use Rattle.pd_kinds.specs.Objects.{SinkState};
ghost use Rattle.pd_kinds.specs.Stages.{faults};
ghost use Rattle.pd_answers.specs.Terms.{AreFresh, Objects};
ghost use Rattle.pd_answers.specs.Writebacks.{copied_line, writeback};
ghost use Rattle.pd_image.specs.Device.{IsWritable, KeepsPlace, OnlyReads};
ghost use Rattle.pd_writeback.specs.Plan.{plan_hot};
ghost use Rattle.pd_tools.specs.Ending.{plan_ended};
ghost use Rattle.pd_tools.specs.Opened.{AreOpened, Devices, devices};
ghost use Rattle.pd_tools.specs.Task.{Works};
ghost use Rattle.pd_tools.specs.Writeback.{IsWritten};

use crate::check::check_attached;
use crate::ending::{Ending, Outcome, Stop};
use crate::task::{DevicePath, Places, Task};
use pd_image::{Device, Failed};
use pd_kinds::{Kind, Stage};
use pd_lines::LineBuffer;
use pd_writeback::{Plan, WriteFault};
use std::alloc::Global;

/// Copies what is dirty in the cache of the metadata at one path, from the fast device to the origin, and marks the
/// cache clean.
#[derive(Clone, Copy)]
pub struct Writeback<'a> {
    pub metadata: &'a str,
    pub fast: &'a str,
    pub origin: &'a str,
}

impl Task for Writeback<'_> {
    ghost use Rattle.pd_answers.specs.Writebacks.{writeback};

    ghost terms = { λ task. writeback task.metadata.now task.fast.now task.origin.now };

    fn places(&self) -> Places<'_> {
        Places {
            input: DevicePath::Writing(self.metadata),
            output: DevicePath::Writing(self.origin),
            third: DevicePath::Reading(self.fast),
        }
    }

    fn laws(&self) {}

    fn work<A: Device, B: Device, C: Device>(
        &self,
        alloc: Global,
        input: &mut A,
        output: &mut B,
        third: &mut C,
    ) -> Result<Outcome, Stop> {
        let report = check_attached(alloc, Kind::Cache, Stage::Whole, input)?;
        if !report.is_empty() {
            return Ok(Outcome::Ended(Ending::Faulty(report)));
        }
        write_sound(alloc, input, output, third)
    }
}

/// Writes a cache back whose metadata is sound.
fn write_sound<A: Device, B: Device, C: Device>(
    alloc: Global,
    input: &mut A,
    output: &mut B,
    third: &mut C,
) -> Result<Outcome, Stop>
    requires input { IsWritable (A.state input.old) }
    requires output { IsWritable (B.state output.old) }
    requires third { (C.state third.old).access ≡ 1 }
    requires sound { IfSome (A.state input.old).held (λ image. faults Cache Whole image ≡ []) }
    ensures input { KeepsPlace (A.state input.old) (A.state input.new) }
    ensures output { KeepsPlace (B.state output.old) (B.state output.new) }
    ensures third { OnlyReads (C.state third.old) (C.state third.new) }
    ensures works { (metadata fast origin : List ℕ) (others : Objects) (notes : SinkState) (first : Devices) →
        let before = record others { input = first.input; output = first.output; third = first.third } in
        let after = record others { notes = notes; input = A.state input.new; output = B.state output.new; third = C.state third.new } in
        let terms = writeback metadata fast origin in
        AreFresh before → AreOpened terms.uses first (devices (A.state input.old) (B.state output.old) (C.state third.old))
        → Works terms before after result }
{
    let plan = match Plan::make(alloc, input, output, third) {
        Ok(plan) => plan,
        Err(fault) => return ended_without_plan(fault),
    };
    match copy_and_mark(&plan, input, output, third) {
        Ok(count) => Ok(Outcome::Line(copied_text(count))),
        Err(_) => Err(Stop::Device),
    }
}

/// How a writeback ended of which no plan was made.
fn ended_without_plan(fault: WriteFault) -> Result<Outcome, Stop>
    ensures { result ≡ plan_ended fault }
{
    match fault {
        WriteFault::Memory => Err(Stop::Memory),
        WriteFault::Meta | WriteFault::Origin | WriteFault::Fast => Err(Stop::Device),
        WriteFault::BlockSize => Ok(Outcome::Ended(Ending::BlockSize)),
        WriteFault::NoRoom { need, blocks } => {
            Ok(Outcome::Ended(Ending::NoRoom { need, blocks }))
        }
    }
}

/// Copies what a plan has to copy, and then marks the cache clean: how many blocks of the cache were copied.
fn copy_and_mark<A: Device, B: Device, C: Device>(
    plan: &Plan,
    input: &mut A,
    output: &mut B,
    third: &mut C,
) -> Result<u64, Failed>
    requires input { IsWritable (A.state input.old) }
    requires output { IsWritable (B.state output.old) }
    requires third { (C.state third.old).access ≡ 1 }
    requires meta_blocks { (A.state input.old).blocks ≡ plan.now.meta_blocks }
    requires origin_blocks { (B.state output.old).blocks ≡ plan.now.origin_blocks }
    requires fast_blocks { (C.state third.old).blocks ≡ plan.now.fast_blocks }
    ensures count { IfOk result (λ count. count ≡ length (plan_hot plan.now)) }
    ensures written { IsWritten plan.now result (devices (A.state input.old) (B.state output.old) (C.state third.old))
        (devices (A.state input.new) (B.state output.new) (C.state third.new)) }
{
    match plan.copy(output, third) {
        Ok(count) => match plan.mark(input) {
            Ok(()) => Ok(count),
            Err(_) => Err(Failed),
        },
        Err(_) => Err(Failed),
    }
}

/// The line of a writeback.
fn copied_text(count: u64) -> LineBuffer
    ensures { result ≡ copied_line count }
{
    let mut line = LineBuffer::new();
    line.add(b"copied ");
    line.add_number(count);
    line.add(b"\n");
    line
}
