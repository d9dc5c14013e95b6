//! A pool's text of version 2, whose devices share leaves (`thin_restore`, `thin_repair`, `thin_shrink`).

ghost use Rattle.std.specs.Prelude.{◌≡◌, ◌≤◌, List, ◌∷◌, false, ◌-◌, ◌^◌, ℕ, min, IfErr, OnOk, MatchResult};
ghost use Rattle.pd_grammar.specs.Texts.{has_ended};
ghost use Rattle.pd_grammar.specs.ThinText.{Line, end_line, pool_format, LeafHead, leaf_line, device_line, use_line, map_line};
ghost use Rattle.pd_laid.specs.PoolText.{pool_need_so_far, told_devices, shape_need_so_far};
ghost use Rattle.pd_image.specs.Device.{IsWritable};
ghost use Rattle.pd_draft.specs.Closed.{DraftState, IsClosed, StaysClosed};
ghost use Rattle.pd_draft.specs.DraftState.{draft_state};
ghost use Rattle.pd_texts.specs.ThinLine.{line_of, details_of, run_of};
ghost use Rattle.pd_devices.specs.SharedGathered.{HasGathered, CanEnd, CanUse};
ghost use Rattle.pd_restoring.specs.Reading.{CountsTake};
ghost use Rattle.pd_restore.specs.Shared.{HasShared, lacks_pieces, CanPutRun};
ghost use Rattle.pd_restore.specs.Reading.{CanTake, Follows, IsNoRoom, IsOver, IsShort};

use crate::gathering::{Gathering, within};
use crate::pool::{PoolRoots, write_behind};
use pd_build::BuildFault;
use pd_devices::{Run, SharedDevices, gathered_lines_are_a_shape};
use pd_draft::Draft;
use pd_image::Device;
use pd_restoring::RestoreFault;
use pd_texts::{Run2, TextFault, ThinLine};
use pd_value::Details;
use std::alloc::{AllocError, Global};

/// The leaves and the devices of a text of version 2, and what its end needs.
#[derive(Drop)]
pub(crate) struct SharedLines {
    devices: SharedDevices,
    /// How many lines were taken.
    lines: u64,
    /// Whether the last device has no piece so far: at the end it would have an empty leaf.
    lacks_pieces: bool,
}

impl SharedLines {
    /// How many blocks the pool needs where the next line is the last one.
    fn need_at_end(&self, room: u64) -> u64
        ensures { (before : List Line) (start now : DraftState)
            → HasShared room before self.now start now → has_ended pool_format before ≡ false
            → pool_need_so_far room before ≤ room → room ≤ 4161600 → result ≡ pool_need_so_far room (end_line ∷ before) }
    {
        let needed = self.devices.need(room);
        if self.lacks_pieces {
            needed.saturating_add(1)
        } else {
            needed
        }
    }
}

impl Gathering for SharedLines {
    ghost use Rattle.std.specs.Prelude.{true};
    ghost use Rattle.pd_restore.specs.Shared.{HasShared};

    ghost HasGathered = { HasShared };

    ghost shared = { true };

    fn start(alloc: Global, blocks: u64, room: u64) -> Result<SharedLines, AllocError> {
        Ok(SharedLines {
            devices: SharedDevices::new(alloc, blocks, room)?,
            lines: 2,
            lacks_pieces: false,
        })
    }

    fn take_line<D: Device>(
        &mut self,
        draft: &mut Draft<'_, D>,
        line: ThinLine,
        room: u64,
    ) -> Result<(), RestoreFault> {
        let lacks_pieces = lacks_after(&line, self.lacks_pieces);
        put_shared(draft, &mut self.devices, line, room)?;
        self.lines = self.lines.saturating_add(1);
        self.lacks_pieces = lacks_pieces;
        Ok(())
    }

    fn take_end<D: Device>(
        &mut self,
        draft: &mut Draft<'_, D>,
        room: u64,
    ) -> Result<(), RestoreFault> {
        let needed = self.need_at_end(room);
        within(needed, room)?;
        self.devices.end(draft)?;
        self.lines = self.lines.saturating_add(1);
        Ok(())
    }

    fn refused(&self, fault: TextFault, room: u64) -> RestoreFault {
        let needed = self.need_at_end(room);
        if fault.line <= self.lines.saturating_add(1) {
            RestoreFault::Text(fault)
        } else if needed <= room {
            RestoreFault::Text(fault)
        } else {
            RestoreFault::NoRoom {
                need: needed,
                blocks: room,
            }
        }
    }

    fn write_parts<D: Device>(
        &self,
        alloc: Global,
        draft: &mut Draft<'_, D>,
        room: u64,
    ) -> Result<PoolRoots, BuildFault> {
        gathered_lines_are_a_shape();
        write_behind(
            alloc,
            draft,
            self.devices.roots(),
            self.devices.details(),
            self.devices.counts(),
            self.devices.leaves(),
            self.devices.uses(),
            room,
        )
    }
}

/// Whether the last device has no piece after a line more.
fn lacks_after(line: &ThinLine, lacks: bool) -> bool
    ensures { (before : List Line) → lacks ≡ lacks_pieces (told_devices before)
        → result ≡ lacks_pieces (told_devices (line_of line.now ∷ before)) }
{
    match line {
        ThinLine::Pool { .. } | ThinLine::Leaf { .. } => lacks,
        ThinLine::Device { .. } => true,
        ThinLine::UseLeaf { .. } | ThinLine::Map(_) => false,
    }
}

// The lines of a pool's text of version 2, each with a look at the room.
// Serves `thin_restore`, `thin_repair`, `thin_shrink`.

/// Restores a line after the pool line, where there is room for it.
pub(crate) fn put_shared<D: Device>(
    draft: &mut Draft<'_, D>,
    devices: &mut SharedDevices,
    line: ThinLine,
    room: u64,
) -> Result<(), RestoreFault>
    requires follows { CanTake HasGathered room devices.old (line_of line) (draft_state draft.old) }
    requires writable { IsWritable (draft_state draft.old).device }
    requires closed { IsClosed (draft_state draft.old).device }
    ensures same_reference { draft.new.dev.ghost_name ≡ draft.old.dev.ghost_name }
    ensures gathered { (before : List Line) (start : DraftState)
        → Follows HasGathered before room devices.old (line_of line) start (draft_state draft.old)
        → OnOk result (HasGathered room (line_of line ∷ before) devices.new start (draft_state draft.new)) }
    ensures need { (before : List Line) (start : DraftState)
        → Follows HasGathered before room devices.old (line_of line) start (draft_state draft.old)
        → MatchResult result (λ _. pool_need_so_far room (line_of line ∷ before) ≤ room)
        (IsOver room (pool_need_so_far room (line_of line ∷ before))) }
    ensures closed { StaysClosed (draft_state draft.old).device (draft_state draft.new).device }
    ensures faults { CountsTake result (draft_state draft.old).device.faults (draft_state draft.new).device.faults }
{
    match line {
        ThinLine::Pool { .. } => Ok(()),
        ThinLine::Leaf { .. } => put_leaf(draft, devices, room),
        ThinLine::Device { id, details } => put_device(draft, devices, id, details, room),
        ThinLine::UseLeaf { number } => put_use(draft, devices, number, room),
        ThinLine::Map(run) => put_run(devices, run, room),
    }
}

/// Begins a leaf, and looks at the room then.
fn put_leaf<D: Device>(
    draft: &mut Draft<'_, D>,
    devices: &mut SharedDevices,
    room: u64,
) -> Result<(), RestoreFault>
    requires gathered { CanEnd devices.old (draft_state draft.old) }
    requires writable { IsWritable (draft_state draft.old).device }
    requires closed { IsClosed (draft_state draft.old).device }
    ensures same_reference { draft.new.dev.ghost_name ≡ draft.old.dev.ghost_name }
    ensures gathered { (before : List Line) (start : DraftState) (l : LeafHead)
        → Follows HasGathered before room devices.old (leaf_line l) start (draft_state draft.old)
        → OnOk result (HasGathered room (leaf_line l ∷ before) devices.new start (draft_state draft.new)) }
    ensures need { (before : List Line) (start : DraftState) (l : LeafHead)
        → Follows HasGathered before room devices.old (leaf_line l) start (draft_state draft.old)
        → MatchResult result (λ _. pool_need_so_far room (leaf_line l ∷ before) ≤ room)
        (IsOver room (pool_need_so_far room (leaf_line l ∷ before))) }
    ensures closed { StaysClosed (draft_state draft.old).device (draft_state draft.new).device }
    ensures faults { CountsTake result (draft_state draft.old).device.faults (draft_state draft.new).device.faults }
{
    devices.add_leaf(draft)?;
    look(devices, room)
}

/// Begins a device, and looks at the room then.
fn put_device<D: Device>(
    draft: &mut Draft<'_, D>,
    devices: &mut SharedDevices,
    id: u64,
    details: Details,
    room: u64,
) -> Result<(), RestoreFault>
    requires gathered { CanEnd devices.old (draft_state draft.old) }
    requires writable { IsWritable (draft_state draft.old).device }
    requires closed { IsClosed (draft_state draft.old).device }
    ensures same_reference { draft.new.dev.ghost_name ≡ draft.old.dev.ghost_name }
    ensures gathered { (before : List Line) (start : DraftState)
        → Follows HasGathered before room devices.old (device_line (details_of id details)) start (draft_state draft.old)
        → OnOk result (HasGathered room (device_line (details_of id details) ∷ before) devices.new start (draft_state draft.new)) }
    ensures need { (before : List Line) (start : DraftState)
        → Follows HasGathered before room devices.old (device_line (details_of id details)) start (draft_state draft.old)
        → MatchResult result (λ _. pool_need_so_far room (device_line (details_of id details) ∷ before) ≤ room)
        (IsOver room (pool_need_so_far room (device_line (details_of id details) ∷ before))) }
    ensures closed { StaysClosed (draft_state draft.old).device (draft_state draft.new).device }
    ensures faults { CountsTake result (draft_state draft.old).device.faults (draft_state draft.new).device.faults }
{
    devices.add_device(draft, id, details)?;
    look(devices, room)
}

/// Takes the use of a leaf, and looks at the room then.
fn put_use<D: Device>(
    draft: &mut Draft<'_, D>,
    devices: &mut SharedDevices,
    number: u64,
    room: u64,
) -> Result<(), RestoreFault>
    requires gathered { CanUse devices.old number (draft_state draft.old) }
    requires writable { IsWritable (draft_state draft.old).device }
    requires closed { IsClosed (draft_state draft.old).device }
    ensures same_reference { draft.new.dev.ghost_name ≡ draft.old.dev.ghost_name }
    ensures gathered { (before : List Line) (start : DraftState)
        → Follows HasGathered before room devices.old (use_line number) start (draft_state draft.old)
        → OnOk result (HasGathered room (use_line number ∷ before) devices.new start (draft_state draft.new)) }
    ensures need { (before : List Line) (start : DraftState)
        → Follows HasGathered before room devices.old (use_line number) start (draft_state draft.old)
        → MatchResult result (λ _. pool_need_so_far room (use_line number ∷ before) ≤ room)
        (IsOver room (pool_need_so_far room (use_line number ∷ before))) }
    ensures closed { StaysClosed (draft_state draft.old).device (draft_state draft.new).device }
    ensures faults { CountsTake result (draft_state draft.old).device.faults (draft_state draft.new).device.faults }
{
    devices.add_use(draft, number)?;
    look(devices, room)
}

/// Takes a run, where there is room for it: its length is what the line says, so the room is looked at first.
fn put_run(devices: &mut SharedDevices, run: Run2, room: u64) -> Result<(), RestoreFault>
    requires follows { CanPutRun room devices.old (run_of run) }
    ensures gathered { (before : List Line) (start now : DraftState)
        → Follows HasGathered before room devices.old (map_line (run_of run)) start now
        → OnOk result (HasGathered room (map_line (run_of run) ∷ before) devices.new start now) }
    ensures need { (before : List Line) (start now : DraftState)
        → Follows HasGathered before room devices.old (map_line (run_of run)) start now
        → MatchResult result (λ _. pool_need_so_far room (map_line (run_of run) ∷ before) ≤ room)
        (IsOver room (pool_need_so_far room (map_line (run_of run) ∷ before))) }
    ensures faults { (faults : ℕ) → CountsTake result faults faults }
{
    let run = Run {
        virtual_block: run.virt,
        data_block: run.target,
        length: run.length,
        time: run.time,
    };
    let needed = devices.need_with(&run, room);
    within(needed, room)?;
    devices.add_run(run)?;
    Ok(())
}

/// Whether there is room for what was restored so far.
fn look(devices: &SharedDevices, room: u64) -> Result<(), RestoreFault>
    ensures need { (before : List Line) (start now : DraftState) → HasGathered room before devices.now start now
        → MatchResult result (λ _. min (shape_need_so_far room before) (2 ^ 64 - 1) ≤ room)
        (IsShort room (min (shape_need_so_far room before) (2 ^ 64 - 1))) }
    ensures fault { IfErr result IsNoRoom }
{
    within(devices.need(room), room)
}
