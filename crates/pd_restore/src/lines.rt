//! The lines of a pool's text, restored as they are read (`thin_restore`, `thin_repair`, `thin_shrink`).

ghost use Rattle.std.specs.Prelude.{◌≡◌, ◌-◌, ◌<◌, ◌≤◌, ◌^◌, ℕ, List, ◌∷◌, length, true, false, IfOk, IfErr};
ghost use Rattle.std.specs.Prelude.{OnOk, MatchResult, [], IfNone, IfSome, Option};
ghost use Rattle.pd_grammar.specs.ThinText.{Line, end_line, pool_format};
ghost use Rattle.pd_laid.specs.PoolText.{pool_need_so_far};
ghost use Rattle.pd_image.specs.Device.{IsWritable};
ghost use Rattle.pd_image.specs.Source.{KeepsSource};
ghost use Rattle.pd_draft.specs.Closed.{IsClosed, StaysClosed, DraftState};
ghost use Rattle.pd_draft.specs.DraftState.{draft_state};
ghost use Rattle.pd_lines.specs.Reader.{lines_of};
ghost use Rattle.pd_texts.specs.Reader.{LeavesOf, RefusesNext, CountsRead};
ghost use Rattle.pd_texts.specs.declared.reader.TextReader.{TextReader};
ghost use Rattle.pd_texts.specs.declared.thin_state.ThinState.{ThinState};
ghost use Rattle.pd_texts.specs.ThinLine.{line_of};
ghost use Rattle.pd_restoring.specs.Restored.{BlamesOne, CountsRestore, read_fault, Writes};
ghost use Rattle.pd_restoring.specs.Reading.{CountsTake, IsOfLater, SaysOf};
ghost use Rattle.pd_restore.specs.Reading.{Reading, CanRead, CanTake, Follows, Steps, EndsAll, IsOver};
ghost use Rattle.pd_restore.specs.Whole.{Coming, CanTakeMade, HasMade, IsTextOf, made_begun};
ghost use Rattle.pd_restore.specs.Pools.{pools};

use crate::gathering::Gathering;
use crate::pool::write_rest;
use pd_draft::Draft;
use pd_image::{Device, Source};
use pd_kinds::Block;
use pd_restoring::RestoreFault;
use pd_salvage::SavedHead;
use pd_texts::{ReadFault, ThinLine, ThinText};
use std::alloc::Global;

/// Reads the lines of a text after these ones up to its end, and restores them.
pub(crate) fn restore_lines<S: Source, D: Device, G: Gathering>(
    text: &mut ThinText,
    source: &mut S,
    draft: &mut Draft<'_, D>,
    gathered: &mut G,
    room: u64,
) -> Result<(), RestoreFault>
    requires attached { (S.state source.old).access ≡ 1 }
    requires reading { CanRead G.HasGathered room text.old gathered.old (draft_state draft.old) }
    requires writable { IsWritable (draft_state draft.old).device }
    requires closed { IsClosed (draft_state draft.old).device }
    ensures same_reference { draft.new.dev.ghost_name ≡ draft.old.dev.ghost_name }
    ensures all { (before : List Line) (start : DraftState)
        → Reading G.HasGathered before room text.old gathered.old start (draft_state draft.old)
        → OnOk result (EndsAll G.HasGathered before room (λ t. LeavesOf pool_format t before text.old (S.state source.old).left)
        (S.state source.new).left gathered.new start (draft_state draft.new)) }
    ensures room { (before : List Line) (start : DraftState)
        → Reading G.HasGathered before room text.old gathered.old start (draft_state draft.old)
        → (t : List ℕ) → LeavesOf pool_format t before text.old (S.state source.old).left
        → IfErr result (SaysOf pool_format pool_need_so_far room t) }
    ensures later { IfErr result IsOfLater }
    ensures source { KeepsSource (S.state source.old) (S.state source.new) }
    ensures closed { StaysClosed (draft_state draft.old).device (draft_state draft.new).device }
    ensures faults { CountsRestore result (S.state source.old).faults (S.state source.new).faults
        (draft_state draft.old).device.faults (draft_state draft.new).device.faults }
{
    'lines: while step(text, source, draft, gathered, room)? {}
    Ok(())
}

/// Reads a line and restores it, and answers whether it wasn't the end.
pub(crate) fn step<S: Source, D: Device, G: Gathering>(
    text: &mut ThinText,
    source: &mut S,
    draft: &mut Draft<'_, D>,
    gathered: &mut G,
    room: u64,
) -> Result<bool, RestoreFault>
    requires attached { (S.state source.old).access ≡ 1 }
    requires reading { CanRead G.HasGathered room text.old gathered.old (draft_state draft.old) }
    requires writable { IsWritable (draft_state draft.old).device }
    requires closed { IsClosed (draft_state draft.old).device }
    ensures same_reference { draft.new.dev.ghost_name ≡ draft.old.dev.ghost_name }
    ensures steps { (before : List Line) (start : DraftState)
        → Reading G.HasGathered before room text.old gathered.old start (draft_state draft.old)
        → IfOk result (λ more. Steps G.HasGathered more before room text.old (S.state source.old).left text.new
        (S.state source.new).left gathered.new start (draft_state draft.new)) }
    ensures room { (before : List Line) (start : DraftState)
        → Reading G.HasGathered before room text.old gathered.old start (draft_state draft.old)
        → (t : List ℕ) → LeavesOf pool_format t before text.old (S.state source.old).left
        → IfErr result (SaysOf pool_format pool_need_so_far room t) }
    ensures grows { IfOk result (λ more. more ≡ true → lines_of text.old.reader < lines_of text.new.reader) }
    ensures later { IfErr result IsOfLater }
    ensures source { KeepsSource (S.state source.old) (S.state source.new) }
    ensures closed { StaysClosed (draft_state draft.old).device (draft_state draft.new).device }
    ensures faults { CountsRestore result (S.state source.old).faults (S.state source.new).faults
        (draft_state draft.old).device.faults (draft_state draft.new).device.faults }
{
    match text.next(source) {
        Ok(Some(line)) => take(draft, gathered, line, room),
        Ok(None) => end(draft, gathered, room),
        Err(fault) => Err(fault_after(gathered, fault, room)),
    }
}

/// Restores a line, for which there is room.
fn take<D: Device, G: Gathering>(
    draft: &mut Draft<'_, D>,
    gathered: &mut G,
    line: ThinLine,
    room: u64,
) -> Result<bool, RestoreFault>
    requires follows { CanTake G.HasGathered room gathered.old (line_of line) (draft_state draft.old) }
    requires writable { IsWritable (draft_state draft.old).device }
    requires closed { IsClosed (draft_state draft.old).device }
    ensures same_reference { draft.new.dev.ghost_name ≡ draft.old.dev.ghost_name }
    ensures more { IfOk result (λ more. more ≡ true) }
    ensures gathered { (before : List Line) (start : DraftState)
        → Follows G.HasGathered before room gathered.old (line_of line) start (draft_state draft.old)
        → OnOk result (G.HasGathered room (line_of line ∷ before) gathered.new start (draft_state draft.new)) }
    ensures need { (before : List Line) (start : DraftState)
        → Follows G.HasGathered before room gathered.old (line_of line) start (draft_state draft.old)
        → MatchResult result (λ _. pool_need_so_far room (line_of line ∷ before) ≤ room)
        (IsOver room (pool_need_so_far room (line_of line ∷ before))) }
    ensures few { (before : List Line) (start : DraftState)
        → Follows G.HasGathered before room gathered.old (line_of line) start (draft_state draft.old) → length before < 2 ^ 64 - 1 }
    ensures closed { StaysClosed (draft_state draft.old).device (draft_state draft.new).device }
    ensures faults { CountsTake result (draft_state draft.old).device.faults (draft_state draft.new).device.faults }
{
    gathered.take_line(draft, line, room)?;
    Ok(true)
}

/// Restores what is left at the end, where there is room for it.
fn end<D: Device, G: Gathering>(
    draft: &mut Draft<'_, D>,
    gathered: &mut G,
    room: u64,
) -> Result<bool, RestoreFault>
    requires follows { CanTake G.HasGathered room gathered.old end_line (draft_state draft.old) }
    requires writable { IsWritable (draft_state draft.old).device }
    requires closed { IsClosed (draft_state draft.old).device }
    ensures same_reference { draft.new.dev.ghost_name ≡ draft.old.dev.ghost_name }
    ensures more { IfOk result (λ more. more ≡ false) }
    ensures gathered { (before : List Line) (start : DraftState)
        → Follows G.HasGathered before room gathered.old end_line start (draft_state draft.old)
        → OnOk result (G.HasGathered room (end_line ∷ before) gathered.new start (draft_state draft.new)) }
    ensures need { (before : List Line) (start : DraftState)
        → Follows G.HasGathered before room gathered.old end_line start (draft_state draft.old)
        → MatchResult result (λ _. pool_need_so_far room (end_line ∷ before) ≤ room)
        (IsOver room (pool_need_so_far room (end_line ∷ before))) }
    ensures closed { StaysClosed (draft_state draft.old).device (draft_state draft.new).device }
    ensures faults { CountsTake result (draft_state draft.old).device.faults (draft_state draft.new).device.faults }
{
    gathered.take_end(draft, room)?;
    Ok(false)
}

/// What is answered where the next line isn't given.
fn fault_after<G: Gathering>(gathered: &G, fault: ReadFault, room: u64) -> RestoreFault
    ensures says { (before : List Line) (text : TextReader ThinState ThinLine) (start now : DraftState)
        → Reading G.HasGathered before room text gathered.now start now
        → (first : Line) (t : List ℕ) → RefusesNext pool_format first end_line t before fault
        → SaysOf pool_format pool_need_so_far room t result }
    ensures later { IsOfLater (read_fault fault) → IsOfLater result }
    ensures counts { (s t d : ℕ) → CountsRead fault s t → BlamesOne result s t d d }
{
    match fault {
        ReadFault::Memory => RestoreFault::Memory,
        ReadFault::Source => RestoreFault::Source,
        ReadFault::Text(fault) => gathered.refused(fault, room),
    }
}

// What gives the lines of a pool that is held in memory (`thin_repair`, `thin_shrink`).

/// What gives the lines of a pool's text between its pool line and its last one, one by one.
pub(crate) trait Giving: Drop {
    /// The lines that are still to come.
    ghost coming: { Self → List Line };

    /// The next line, or none where all were given.
    fn next(&mut self) -> Option<ThinLine>
        ensures some { IfSome result (λ line. coming self.old ≡ line_of line ∷ coming self.new) }
        ensures none { IfNone result (coming self.old ≡ []) };
}

// What is held in memory of a pool, restored by its lines (`thin_repair`, `thin_shrink`).

/// Restores the lines of a pool after its own, by what gathers those of their version, and writes all of it but its superblock,
/// which it answers.
pub(crate) fn write_saved<D: Device, L: Giving, G: Gathering>(
    alloc: Global,
    lines: &mut L,
    draft: &mut Draft<'_, D>,
    pool: &SavedHead,
    room: u64,
) -> Result<Block, RestoreFault>
    requires made { HasMade G.shared (L.coming lines.old) pool.now room (draft_state draft.old) }
    requires writable { IsWritable (draft_state draft.old).device }
    requires closed { IsClosed (draft_state draft.old).device }
    ensures same_reference { draft.new.dev.ghost_name ≡ draft.old.dev.ghost_name }
    ensures writes { (left : Option (List ℕ)) → IfOk result (Writes pools room
        (IsTextOf (made_begun G.shared pool.now) (L.coming lines.old) left) left (draft_state draft.old) (draft_state draft.new)) }
    ensures says { (left : Option (List ℕ)) (t : List ℕ) → IsTextOf (made_begun G.shared pool.now) (L.coming lines.old) left t
        → IfErr result (SaysOf pool_format pool_need_so_far room t) }
    ensures closed { StaysClosed (draft_state draft.old).device (draft_state draft.new).device }
    ensures faults { CountsTake result (draft_state draft.old).device.faults (draft_state draft.new).device.faults }
{
    let mut gathered = G::start(alloc, pool.blocks, room)?;
    take_all(lines, draft, &mut gathered, room)?;
    write_rest(alloc, draft, &gathered, pool, room)
}

/// Restores the lines that come, and the last one.
fn take_all<D: Device, L: Giving, G: Gathering>(
    lines: &mut L,
    draft: &mut Draft<'_, D>,
    gathered: &mut G,
    room: u64,
) -> Result<(), RestoreFault>
    requires made { CanTakeMade G.HasGathered room (L.coming lines.old) gathered.old (draft_state draft.old) }
    requires writable { IsWritable (draft_state draft.old).device }
    requires closed { IsClosed (draft_state draft.old).device }
    ensures same_reference { draft.new.dev.ghost_name ≡ draft.old.dev.ghost_name }
    ensures all { (before : List Line) (start : DraftState)
        → Coming G.HasGathered before room (L.coming lines.old) gathered.old start (draft_state draft.old)
        → (left : Option (List ℕ)) → OnOk result
        (EndsAll G.HasGathered before room (IsTextOf before (L.coming lines.old) left) left gathered.new start (draft_state draft.new)) }
    ensures says { (before : List Line) (start : DraftState)
        → Coming G.HasGathered before room (L.coming lines.old) gathered.old start (draft_state draft.old)
        → (left : Option (List ℕ)) (t : List ℕ) → IsTextOf before (L.coming lines.old) left t
        → IfErr result (SaysOf pool_format pool_need_so_far room t) }
    ensures closed { StaysClosed (draft_state draft.old).device (draft_state draft.new).device }
    ensures faults { CountsTake result (draft_state draft.old).device.faults (draft_state draft.new).device.faults }
{
    while let Some(line) = lines.next() {
        gathered.take_line(draft, line, room)?;
    }
    gathered.take_end(draft, room)
}
