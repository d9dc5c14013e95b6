//! What gathers the lines of a pool's text (`thin_restore`, `thin_repair`, `thin_shrink`).

ghost use Rattle.std.specs.Prelude.{◌≡◌, ◌-◌, ◌<◌, ◌≤◌, ◌^◌, ℕ, Bool, if◌then◌else◌, List, [], ◌∷◌, length, IfOk, IfErr, OnOk, MatchResult};
ghost use Rattle.pd_grammar.specs.ThinText.{Head, Line, end_line, first_line, pool_format, pool_line, shared_first_line};
ghost use Rattle.pd_laid.specs.PoolText.{pool_need_so_far};
ghost use Rattle.pd_image.specs.Device.{IsWritable};
ghost use Rattle.pd_draft.specs.Closed.{IsClosed, StaysClosed, DraftState};
ghost use Rattle.pd_draft.specs.DraftState.{draft_state};
ghost use Rattle.pd_texts.specs.Reader.{RefusesNext};
ghost use Rattle.pd_texts.specs.declared.reader.TextReader.{TextReader};
ghost use Rattle.pd_texts.specs.declared.thin_state.ThinState.{ThinState};
ghost use Rattle.pd_texts.specs.ThinLine.{line_of};
ghost use Rattle.pd_build.specs.Building.{CountsBuildFault};
ghost use Rattle.pd_restoring.specs.Reading.{CountsTake, IsOfLater, SaysOf};
ghost use Rattle.pd_restore.specs.Reading.{Gathers, Reading, CanTake, Follows, CanWrite, HasReadAll};
ghost use Rattle.pd_restore.specs.Reading.{WritesParts, IsNoRoom, IsOfText, IsOver, IsShort};

use crate::pool::PoolRoots;
use pd_build::BuildFault;
use pd_draft::Draft;
use pd_image::Device;
use pd_restoring::RestoreFault;
use pd_texts::{ReadFault, TextFault, ThinLine};
use std::alloc::{AllocError, Global};

/// What gathers the lines of a pool's text of one version, and writes what they mean.
pub(crate) trait Gathering: Drop {
    /// Of these lines, the newest first, all was gathered, where there are so many blocks for metadata, and what is over of
    /// them is written from one stand to another.
    ghost HasGathered: { Gathers Self };

    /// Whether the text is of version 2.
    ghost shared: { Bool };

    /// The first two lines of a text were read, and nothing else.
    fn start(alloc: Global, blocks: u64, room: u64) -> Result<Self, AllocError>
        requires blocks { blocks ≤ 2 ^ 40 }
        requires room { room ≤ 4161600 }
        ensures { (p : Head) (start : DraftState) → p.data_blocks ≡ blocks → start.place ≡ 1 → IsClosed start.device
            → IfOk result (λ s. HasGathered room (pool_line p ∷ (if shared then shared_first_line else first_line) ∷ []) s start start) };

    /// Takes a line after the pool line, where there is room for it. A text that has room has few lines.
    fn take_line<D: Device>(
        &mut self,
        draft: &mut Draft<'_, D>,
        line: ThinLine,
        room: u64,
    ) -> Result<(), RestoreFault>
        requires follows { CanTake HasGathered room self.old (line_of line) (draft_state draft.old) }
        requires writable { IsWritable (draft_state draft.old).device }
        requires closed { IsClosed (draft_state draft.old).device }
        ensures same_reference { draft.new.dev.ghost_name ≡ draft.old.dev.ghost_name }
        ensures gathered { (before : List Line) (start : DraftState)
            → Follows HasGathered before room self.old (line_of line) start (draft_state draft.old)
            → OnOk result (HasGathered room (line_of line ∷ before) self.new start (draft_state draft.new)) }
        ensures need { (before : List Line) (start : DraftState)
            → Follows HasGathered before room self.old (line_of line) start (draft_state draft.old)
            → MatchResult result (λ _. pool_need_so_far room (line_of line ∷ before) ≤ room)
            (IsOver room (pool_need_so_far room (line_of line ∷ before))) }
        ensures few { (before : List Line) (start : DraftState)
            → Follows HasGathered before room self.old (line_of line) start (draft_state draft.old) → length before < 2 ^ 64 - 1 }
        ensures closed { StaysClosed (draft_state draft.old).device (draft_state draft.new).device }
        ensures faults { CountsTake result (draft_state draft.old).device.faults (draft_state draft.new).device.faults };

    /// Takes the last line, where there is room for it.
    fn take_end<D: Device>(
        &mut self,
        draft: &mut Draft<'_, D>,
        room: u64,
    ) -> Result<(), RestoreFault>
        requires follows { CanTake HasGathered room self.old end_line (draft_state draft.old) }
        requires writable { IsWritable (draft_state draft.old).device }
        requires closed { IsClosed (draft_state draft.old).device }
        ensures same_reference { draft.new.dev.ghost_name ≡ draft.old.dev.ghost_name }
        ensures gathered { (before : List Line) (start : DraftState)
            → Follows HasGathered before room self.old end_line start (draft_state draft.old)
            → OnOk result (HasGathered room (end_line ∷ before) self.new start (draft_state draft.new)) }
        ensures need { (before : List Line) (start : DraftState)
            → Follows HasGathered before room self.old end_line start (draft_state draft.old)
            → MatchResult result (λ _. pool_need_so_far room (end_line ∷ before) ≤ room)
            (IsOver room (pool_need_so_far room (end_line ∷ before))) }
        ensures closed { StaysClosed (draft_state draft.old).device (draft_state draft.new).device }
        ensures faults { CountsTake result (draft_state draft.old).device.faults (draft_state draft.new).device.faults };

    /// What is answered where the text is refused: that there is no room where it is refused behind its last line, for which
    /// there is none.
    fn refused(&self, fault: TextFault, room: u64) -> RestoreFault
        ensures says { (before : List Line) (text : TextReader ThinState ThinLine) (start now : DraftState)
            → Reading HasGathered before room text self.now start now
            → (first : Line) (t : List ℕ) → RefusesNext pool_format first end_line t before (ReadFault.Text fault)
            → SaysOf pool_format pool_need_so_far room t result }
        ensures later { 3 ≤ fault.line → IsOfLater result }
        ensures fault { IsOfText result };

    /// Writes the parts of the pool behind its devices.
    fn write_parts<D: Device>(
        &self,
        alloc: Global,
        draft: &mut Draft<'_, D>,
        room: u64,
    ) -> Result<PoolRoots, BuildFault>
        requires whole { CanWrite HasGathered room self.now (draft_state draft.old) }
        requires writable { IsWritable (draft_state draft.old).device }
        requires closed { IsClosed (draft_state draft.old).device }
        ensures same_reference { draft.new.dev.ghost_name ≡ draft.old.dev.ghost_name }
        ensures writes { (lines : List Line) (start : DraftState) → HasReadAll HasGathered lines room self.now start (draft_state draft.old)
            → IfOk result (WritesParts lines room start (draft_state draft.new)) }
        ensures closed { StaysClosed (draft_state draft.old).device (draft_state draft.new).device }
        ensures faults { CountsBuildFault result (draft_state draft.old).device.faults (draft_state draft.new).device.faults };
}

/// Whether there is room for so many blocks.
pub(crate) fn within(need: u64, room: u64) -> Result<(), RestoreFault>
    ensures need { MatchResult result (λ _. need ≤ room) (IsShort room need) }
    ensures fault { IfErr result IsNoRoom }
{
    if need > room {
        Err(RestoreFault::NoRoom { need, blocks: room })
    } else {
        Ok(())
    }
}
