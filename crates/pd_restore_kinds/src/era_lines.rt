//! The eras of blocks that follow each other, put into the era array (`era_restore`).
//! The lines of an era target's text, restored as they are read (`era_restore`).

ghost use Rattle.std.specs.Prelude.{◌≡◌, ℕ, List, ◌++◌, OnOk, ◌<◌, ◌≤◌, ◌∷◌, length, true, IfOk, IfErr};
ghost use Rattle.pd_grammar.specs.EraText.{eras_from, Line, era, era_need_so_far};
ghost use Rattle.pd_image.specs.Device.{IsWritable};
ghost use Rattle.pd_image.specs.Source.{KeepsSource};
ghost use Rattle.pd_draft.specs.Closed.{IsClosed, StaysClosed, DraftState};
ghost use Rattle.pd_draft.specs.DraftState.{draft_state};
ghost use Rattle.pd_texts.specs.Reader.{IsReadAfter, LeavesOf};
ghost use Rattle.pd_texts_kinds.specs.EraLine.{line_of};
ghost use Rattle.pd_build.specs.Building.{CountsBuildFault};
ghost use Rattle.pd_restoring.specs.Restored.{CountsRestore};
ghost use Rattle.pd_restoring.specs.Reading.{CountsTake, IsOfBuild, IsOfLater, SaysOf};
ghost use Rattle.pd_restore_kinds.specs.EraReading.{HasPut, MayFollow, HasGathered, Reading, CanRead, CanTake, StepsEras, EndsEras};

use pd_build::{ArrayBuilder, BuildFault};
use pd_draft::Draft;
use pd_image::{Device, Source};
use pd_restoring::RestoreFault;
use pd_texts_kinds::{EraLine, EraText};

/// Puts one era for so many blocks into the array.
pub(crate) fn put_run<D: Device>(
    draft: &mut Draft<'_, D>,
    array: &mut ArrayBuilder,
    count: u32,
    era: u32,
) -> Result<(), BuildFault>
    requires follow { MayFollow count array.old (draft_state draft.old) }
    requires writable { IsWritable (draft_state draft.old).device }
    requires closed { IsClosed (draft_state draft.old).device }
    ensures same_reference { draft.new.dev.ghost_name ≡ draft.old.dev.ghost_name }
    ensures put { (eras : List ℕ) (blocks : ℕ) (start : DraftState) → HasPut eras blocks array.old start (draft_state draft.old)
        → OnOk result (HasPut (eras ++ eras_from era count) blocks array.new start (draft_state draft.new)) }
    ensures closed { StaysClosed (draft_state draft.old).device (draft_state draft.new).device }
    ensures faults { CountsBuildFault result (draft_state draft.old).device.faults (draft_state draft.new).device.faults }
{
    for _i in 0..count {
        array.push(draft, era as u64)?;
    }
    Ok(())
}

/// Reads the lines of a text after these ones up to its end, and restores them.
pub(crate) fn restore_lines<S: Source, D: Device>(
    text: &mut EraText,
    source: &mut S,
    draft: &mut Draft<'_, D>,
    array: &mut ArrayBuilder,
) -> Result<(), RestoreFault>
    requires attached { (S.state source.old).access ≡ 1 }
    requires reading { CanRead text.old array.old (draft_state draft.old) }
    requires writable { IsWritable (draft_state draft.old).device }
    requires closed { IsClosed (draft_state draft.old).device }
    ensures same_reference { draft.new.dev.ghost_name ≡ draft.old.dev.ghost_name }
    ensures all { (before : List Line) (room : ℕ) (start : DraftState)
        → Reading before room text.old array.old start (draft_state draft.old)
        → OnOk result (EndsEras before room text.old (S.state source.old).left (S.state source.new).left array.new start
        (draft_state draft.new)) }
    ensures says { (before : List Line) (room : ℕ) (start : DraftState)
        → Reading before room text.old array.old start (draft_state draft.old)
        → (t : List ℕ) → LeavesOf era t before text.old (S.state source.old).left → IfErr result (SaysOf era era_need_so_far room t) }
    ensures later { IfErr result IsOfLater }
    ensures source { KeepsSource (S.state source.old) (S.state source.new) }
    ensures closed { StaysClosed (draft_state draft.old).device (draft_state draft.new).device }
    ensures faults { CountsRestore result (S.state source.old).faults (S.state source.new).faults
        (draft_state draft.old).device.faults (draft_state draft.new).device.faults }
{
    'lines: while step(text, source, draft, array)? {}
    Ok(())
}

/// Reads a line and restores it, and answers whether it wasn't the end.
pub(crate) fn step<S: Source, D: Device>(
    text: &mut EraText,
    source: &mut S,
    draft: &mut Draft<'_, D>,
    array: &mut ArrayBuilder,
) -> Result<bool, RestoreFault>
    requires attached { (S.state source.old).access ≡ 1 }
    requires reading { CanRead text.old array.old (draft_state draft.old) }
    requires writable { IsWritable (draft_state draft.old).device }
    requires closed { IsClosed (draft_state draft.old).device }
    ensures same_reference { draft.new.dev.ghost_name ≡ draft.old.dev.ghost_name }
    ensures steps { (before : List Line) (room : ℕ) (start : DraftState)
        → Reading before room text.old array.old start (draft_state draft.old)
        → IfOk result (λ more. StepsEras more before room text.old (S.state source.old).left text.new
        (S.state source.new).left array.new start (draft_state draft.new)) }
    ensures says { (before : List Line) (room : ℕ) (start : DraftState)
        → Reading before room text.old array.old start (draft_state draft.old)
        → (t : List ℕ) → LeavesOf era t before text.old (S.state source.old).left → IfErr result (SaysOf era era_need_so_far room t) }
    ensures falls { IfOk result (λ more. more ≡ true → array.new.words.left < array.old.words.left) }
    ensures later { IfErr result IsOfLater }
    ensures source { KeepsSource (S.state source.old) (S.state source.new) }
    ensures closed { StaysClosed (draft_state draft.old).device (draft_state draft.new).device }
    ensures faults { CountsRestore result (S.state source.old).faults (S.state source.new).faults
        (draft_state draft.old).device.faults (draft_state draft.new).device.faults }
{
    match text.next(source)? {
        Some(line) => take(draft, array, line),
        None => Ok(false),
    }
}

/// Puts the eras of a run line.
fn take<D: Device>(
    draft: &mut Draft<'_, D>,
    array: &mut ArrayBuilder,
    line: EraLine,
) -> Result<bool, RestoreFault>
    requires take { CanTake array.old line (draft_state draft.old) }
    requires writable { IsWritable (draft_state draft.old).device }
    requires closed { IsClosed (draft_state draft.old).device }
    ensures same_reference { draft.new.dev.ghost_name ≡ draft.old.dev.ghost_name }
    ensures more { IfOk result (λ more. more ≡ true) }
    ensures gathered { (before : List Line) (start : DraftState) → HasGathered before array.old start (draft_state draft.old)
        → 2 ≤ length before → IsReadAfter era before (line_of line)
        → OnOk result (HasGathered (line_of line ∷ before) array.new start (draft_state draft.new)) }
    ensures fault { IfErr result IsOfBuild }
    ensures closed { StaysClosed (draft_state draft.old).device (draft_state draft.new).device }
    ensures faults { CountsTake result (draft_state draft.old).device.faults (draft_state draft.new).device.faults }
{
    match line {
        EraLine::Era { .. } => Ok(true),
        EraLine::Run {
            first: _,
            length,
            era,
        } => {
            put_run(draft, array, length, era)?;
            Ok(true)
        }
    }
}
