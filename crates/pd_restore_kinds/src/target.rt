//! An era target, from the lines after its own (`era_restore`).

ghost use Rattle.std.specs.Prelude.{◌≡◌, ◌≤◌, ℕ, List, IfOk, IfErr, OnOk};
ghost use Rattle.pd_kinds.specs.Bitmap.{bitmaps_for};
ghost use Rattle.pd_kinds.specs.Meaning.{EraMeaning};
ghost use Rattle.pd_grammar.specs.EraText.{era, era_need_so_far, need_of_era};
ghost use Rattle.pd_image.specs.Device.{IsWritable};
ghost use Rattle.pd_image.specs.Source.{KeepsSource};
ghost use Rattle.pd_draft.specs.Closed.{IsClosed, StaysClosed, DraftState, Wrote};
ghost use Rattle.pd_draft.specs.DraftState.{draft_state};
ghost use Rattle.pd_texts.specs.Reader.{LeavesOf, ReadsOn};
ghost use Rattle.pd_texts_kinds.specs.EraLine.{EraStands};
ghost use Rattle.pd_build.specs.Building.{CountsBuildFault};
ghost use Rattle.pd_restoring.specs.Restored.{CountsRestore, Writes};
ghost use Rattle.pd_restoring.specs.Reading.{IsOfLater, SaysOf};
ghost use Rattle.pd_restore_kinds.specs.EraRoots.{begun_lines, era_targets, fields_of, HasEras, CanWrite, AreParts, target_behind};

use crate::era::Target;
use crate::era_lines::restore_lines;
use pd_array::Word;
use pd_build::{ArrayBuilder, BuildFault, need_tree, write_tree};
use pd_draft::Draft;
use pd_image::{Device, Source};
use pd_kinds::{Block, EraSuper, SmRoot, bitmaps_for};
use pd_node::max_entries_of;
use pd_restoring::{RestoreFault, write_own_map};
use pd_supers::write_era_super;
use pd_texts_kinds::EraText;
use pd_value::Writeset;
use std::alloc::Global;

/// Restores the lines after the era line and writes all of the target but its superblock, which it answers.
pub(crate) fn write_target<S: Source, D: Device>(
    alloc: Global,
    text: &mut EraText,
    source: &mut S,
    draft: &mut Draft<'_, D>,
    target: &Target,
    room: u64,
) -> Result<Block, RestoreFault>
    requires attached { (S.state source.old).access ≡ 1 }
    requires reads { ReadsOn era EraStands (begun_lines target.now) text.old }
    requires place { (draft_state draft.old).place ≡ 1 }
    requires need { era_need_so_far room (begun_lines target.now) ≤ room }
    requires most { room ≤ 4161600 }
    requires there { room ≤ (draft_state draft.old).device.blocks }
    requires writable { IsWritable (draft_state draft.old).device }
    requires closed { IsClosed (draft_state draft.old).device }
    ensures same_reference { draft.new.dev.ghost_name ≡ draft.old.dev.ghost_name }
    ensures writes { IfOk result (Writes era_targets room (λ t. LeavesOf era t (begun_lines target.now) text.old (S.state source.old).left)
        (S.state source.new).left (draft_state draft.old) (draft_state draft.new)) }
    ensures says { (t : List ℕ) → LeavesOf era t (begun_lines target.now) text.old (S.state source.old).left
        → IfErr result (SaysOf era era_need_so_far room t) }
    ensures later { IfErr result IsOfLater }
    ensures source { KeepsSource (S.state source.old) (S.state source.new) }
    ensures closed { StaysClosed (draft_state draft.old).device (draft_state draft.new).device }
    ensures faults { CountsRestore result (S.state source.old).faults (S.state source.new).faults
        (draft_state draft.old).device.faults (draft_state draft.new).device.faults }
{
    let mut array = ArrayBuilder::new(alloc, target.blocks as u64, Word::Four)?;
    restore_lines(text, source, draft, &mut array)?;
    let parts = write_parts(alloc, draft, array, room)?;
    Ok(write_era_super(&super_of(target, parts)))
}

/// The superblock's fields.
fn super_of(target: &Target, parts: EraRoots) -> EraSuper
    ensures { result ≡ fields_of target.now parts }
{
    EraSuper {
        flags: 0,
        uuid: target.uuid,
        version: 1,
        meta_map: parts.meta_map,
        block_size: target.block_size,
        meta_block_size: 8,
        blocks: target.blocks,
        era: target.era,
        current_bits: 0,
        current_root: 0,
        writesets_root: parts.writesets_root,
        array_root: parts.array_root,
        snap_root: 0,
    }
}

// How many blocks an era target needs (`era_restore`).

/// How many blocks a target of so many blocks needs, where there are so many for metadata. It takes no memory.
pub fn need_era(blocks: u32, room: u64) -> u64
    requires most { room ≤ 4161600 }
    ensures need { result ≡ need_of_era blocks room }
    ensures some { 1 ≤ result }
{
    let words = (blocks as u64 + 1017) / 1018;
    let index = need_tree(words, max_entries_of(8) as u64);
    let writesets = need_tree(0, max_entries_of(12) as u64);
    let overflow = need_tree(0, max_entries_of(4) as u64);
    1 + (words + index) + writesets + (1 + bitmaps_for(room) + overflow)
}

// The parts of an era target: the era array, the tree of archived writesets, which is empty, and the metadata map.
// Serves `era_restore`.

/// The roots that the superblock of an era target names.
#[derive(Clone, Copy, Debug, PartialEq, Eq)]
pub(crate) struct EraRoots {
    pub(crate) array_root: u64,
    pub(crate) writesets_root: u64,
    pub(crate) meta_map: SmRoot,
}

/// Ends the array of a target's eras and writes the parts behind it, where there are so many blocks for metadata.
pub(crate) fn write_parts<D: Device>(
    alloc: Global,
    draft: &mut Draft<'_, D>,
    array: ArrayBuilder,
    room: u64,
) -> Result<EraRoots, BuildFault>
    requires room { CanWrite array room (draft_state draft.old) }
    requires writable { IsWritable (draft_state draft.old).device }
    requires closed { IsClosed (draft_state draft.old).device }
    ensures same_reference { draft.new.dev.ghost_name ≡ draft.old.dev.ghost_name }
    ensures wrote { (m : EraMeaning) (start : DraftState) → HasEras m array start (draft_state draft.old)
        → OnOk result (Wrote (target_behind m room) start (draft_state draft.new)) }
    ensures parts { (m : EraMeaning) (start : DraftState) → HasEras m array start (draft_state draft.old) → IfOk result (AreParts m room) }
    ensures closed { StaysClosed (draft_state draft.old).device (draft_state draft.new).device }
    ensures faults { CountsBuildFault result (draft_state draft.old).device.faults (draft_state draft.new).device.faults }
{
    let array_root = array.finish(draft)?;
    let writesets_root = write_tree::<Writeset, D>(alloc, draft, &[])?;
    let meta_map = write_own_map(alloc, draft, room)?;
    Ok(EraRoots {
        array_root,
        writesets_root,
        meta_map,
    })
}
