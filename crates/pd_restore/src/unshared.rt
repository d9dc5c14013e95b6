//! A pool's text of version 1, whose devices share no leaf (`thin_restore`, `thin_repair`, `thin_shrink`).

ghost use Rattle.std.specs.Prelude.{◌≡◌, ◌-◌, ◌≤◌, ◌^◌, List, ◌∷◌, min, IfErr, OnOk, MatchResult};
ghost use Rattle.pd_grammar.specs.Need.{thin_need_so_far};
ghost use Rattle.pd_grammar.specs.ThinText.{Line};
ghost use Rattle.pd_image.specs.Device.{IsWritable};
ghost use Rattle.pd_draft.specs.Closed.{IsClosed, StaysClosed, DraftState};
ghost use Rattle.pd_draft.specs.DraftState.{draft_state};
ghost use Rattle.pd_texts.specs.ThinLine.{line_of};
ghost use Rattle.pd_build.specs.Building.{CountsBuildFault};
ghost use Rattle.pd_devices.specs.Gathered.{HasGathered};
ghost use Rattle.pd_restore.specs.Reading.{CanTake, Follows, IsNoRoom, IsShort, HasUnshared};

use crate::gathering::{Gathering, within};
use crate::pool::{PoolRoots, write_behind};
use pd_build::BuildFault;
use pd_count::Counts;
use pd_devices::{Devices, Run};
use pd_draft::Draft;
use pd_image::Device;
use pd_laid::pool_text_is_accepted_where_there_is_room;
use pd_restoring::RestoreFault;
use pd_texts::{TextFault, ThinLine};
use std::alloc::{AllocError, Global};

impl Gathering for Devices {
    ghost use Rattle.std.specs.Prelude.{false};
    ghost use Rattle.pd_restore.specs.Reading.{HasUnshared};

    ghost HasGathered = { HasUnshared };

    ghost shared = { false };

    fn start(alloc: Global, blocks: u64, room: u64) -> Result<Devices, AllocError> {
        let _room = room;
        Devices::new(alloc, blocks)
    }

    fn take_line<D: Device>(
        &mut self,
        draft: &mut Draft<'_, D>,
        line: ThinLine,
        room: u64,
    ) -> Result<(), RestoreFault> {
        put_line(draft, self, line, room)?;
        look(self, room)
    }

    fn take_end<D: Device>(
        &mut self,
        draft: &mut Draft<'_, D>,
        room: u64,
    ) -> Result<(), RestoreFault> {
        let _room = room;
        Ok(self.end(draft)?)
    }

    fn refused(&self, fault: TextFault, room: u64) -> RestoreFault {
        let _room = room;
        RestoreFault::Text(fault)
    }

    fn write_parts<D: Device>(
        &self,
        alloc: Global,
        draft: &mut Draft<'_, D>,
        room: u64,
    ) -> Result<PoolRoots, BuildFault> {
        pool_text_is_accepted_where_there_is_room();
        let uses = Counts::new(alloc, 0)?;
        write_behind(
            alloc,
            draft,
            self.roots(),
            self.details(),
            self.counts(),
            0,
            &uses,
            room,
        )
    }
}

/// Restores a line after the pool line.
fn put_line<D: Device>(
    draft: &mut Draft<'_, D>,
    devices: &mut Devices,
    line: ThinLine,
    room: u64,
) -> Result<(), BuildFault>
    requires follows { CanTake HasUnshared room devices.old (line_of line) (draft_state draft.old) }
    requires writable { IsWritable (draft_state draft.old).device }
    requires closed { IsClosed (draft_state draft.old).device }
    ensures same_reference { draft.new.dev.ghost_name ≡ draft.old.dev.ghost_name }
    ensures gathered { (before : List Line) (start : DraftState)
        → Follows HasUnshared before room devices.old (line_of line) start (draft_state draft.old)
        → OnOk result (HasUnshared room (line_of line ∷ before) devices.new start (draft_state draft.new)) }
    ensures closed { StaysClosed (draft_state draft.old).device (draft_state draft.new).device }
    ensures faults { CountsBuildFault result (draft_state draft.old).device.faults (draft_state draft.new).device.faults }
{
    match line {
        ThinLine::Pool { .. } => Ok(()),
        ThinLine::Leaf { .. } => Ok(()),
        ThinLine::Device { id, details } => devices.add_device(draft, id, details),
        ThinLine::UseLeaf { .. } => Ok(()),
        ThinLine::Map(run) => devices.add_run(
            draft,
            Run {
                virtual_block: run.virt,
                data_block: run.target,
                length: run.length,
                time: run.time,
            },
        ),
    }
}

/// Whether there is room for what was restored so far.
fn look(devices: &Devices, room: u64) -> Result<(), RestoreFault>
    ensures need { (before : List Line) (start now : DraftState) → HasGathered before devices.now start now
        → MatchResult result (λ _. min (thin_need_so_far room before) (2 ^ 64 - 1) ≤ room)
        (IsShort room (min (thin_need_so_far room before) (2 ^ 64 - 1))) }
    ensures fault { IfErr result IsNoRoom }
{
    within(devices.need(room), room)
}
