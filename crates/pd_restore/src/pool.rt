//! A pool, from the lines after its own (`thin_restore`, `thin_repair`, `thin_shrink`).

ghost use Rattle.std.specs.Prelude.{◌≡◌, ℕ, List, [], ◌∷◌, Option, IfOk, IfErr, ◌≤◌, OnOk};
ghost use Rattle.pd_grammar.specs.ThinText.{Line, pool_line, pool_format};
ghost use Rattle.pd_laid.specs.PoolText.{pool_need_so_far, shape_need};
ghost use Rattle.pd_laid.specs.Shape.{ThinShape};
ghost use Rattle.pd_image.specs.Device.{IsWritable};
ghost use Rattle.pd_image.specs.Source.{KeepsSource};
ghost use Rattle.pd_draft.specs.Closed.{IsClosed, StaysClosed, DraftState, Wrote};
ghost use Rattle.pd_draft.specs.DraftState.{draft_state};
ghost use Rattle.pd_texts.specs.Reader.{in_order, IsWhole, LeavesOf};
ghost use Rattle.pd_build.specs.Building.{CountsBuildFault};
ghost use Rattle.pd_restoring.specs.Reading.{CountsTake, IsOfBuild, IsOfLater, SaysOf};
ghost use Rattle.pd_restoring.specs.Restored.{CountsRestore, Writes};
ghost use Rattle.pd_restore.specs.Pools.{pools};
ghost use Rattle.pd_restore.specs.Reading.{CanWrite, HasReadAll, Reading, CanWriteParts, HasDevices, shape_behind, AreParts};
ghost use Rattle.pd_restore.specs.Whole.{begun_lines, fields_of, head_of_pool, CanBegin};

use crate::gathering::Gathering;
use crate::lines::restore_lines;
use pd_build::{BuildFault, write_tree};
use pd_count::Counts;
use pd_devices::write_leaves_map;
use pd_draft::Draft;
use pd_image::{Device, Source};
use pd_kinds::{Block, SmRoot, ThinSuper};
use pd_restoring::RestoreFault;
use pd_salvage::SavedHead;
use pd_smwrite::write_data_map;
use pd_supers::write_thin_super;
use pd_texts::ThinText;
use pd_value::{Details, Root};
use std::alloc::Global;

/// Restores the lines after the pool line and writes all of the pool but its superblock, which it answers.
pub(crate) fn write_pool<S: Source, D: Device, G: Gathering>(
    alloc: Global,
    text: &mut ThinText,
    source: &mut S,
    draft: &mut Draft<'_, D>,
    gathered: &mut G,
    pool: &SavedHead,
    room: u64,
) -> Result<Block, RestoreFault>
    requires attached { (S.state source.old).access ≡ 1 }
    requires reading { CanBegin G.HasGathered pool.now room text.old gathered.old (draft_state draft.old) }
    requires writable { IsWritable (draft_state draft.old).device }
    requires closed { IsClosed (draft_state draft.old).device }
    ensures same_reference { draft.new.dev.ghost_name ≡ draft.old.dev.ghost_name }
    ensures writes { (start : DraftState)
        → Reading G.HasGathered (begun_lines text.old pool.now) room text.old gathered.old start (draft_state draft.old)
        → IfOk result (Writes pools room (λ t. LeavesOf pool_format t (begun_lines text.old pool.now) text.old (S.state source.old).left)
        (S.state source.new).left start (draft_state draft.new)) }
    ensures says { (start : DraftState)
        → Reading G.HasGathered (begun_lines text.old pool.now) room text.old gathered.old start (draft_state draft.old)
        → (t : List ℕ) → LeavesOf pool_format t (begun_lines text.old pool.now) text.old (S.state source.old).left
        → IfErr result (SaysOf pool_format pool_need_so_far room t) }
    ensures later { IfErr result IsOfLater }
    ensures source { KeepsSource (S.state source.old) (S.state source.new) }
    ensures closed { StaysClosed (draft_state draft.old).device (draft_state draft.new).device }
    ensures faults { CountsRestore result (S.state source.old).faults (S.state source.new).faults
        (draft_state draft.old).device.faults (draft_state draft.new).device.faults }
{
    restore_lines(text, source, draft, gathered, room)?;
    write_rest(alloc, draft, gathered, pool, room)
}

/// Writes all that is left of a pool whose lines were gathered but its superblock, which it answers.
pub(crate) fn write_rest<D: Device, G: Gathering>(
    alloc: Global,
    draft: &mut Draft<'_, D>,
    gathered: &G,
    pool: &SavedHead,
    room: u64,
) -> Result<Block, RestoreFault>
    requires whole { CanWrite G.HasGathered room gathered.now (draft_state draft.old) }
    requires writable { IsWritable (draft_state draft.old).device }
    requires closed { IsClosed (draft_state draft.old).device }
    ensures same_reference { draft.new.dev.ghost_name ≡ draft.old.dev.ghost_name }
    ensures writes { (first : Line) (lines later : List Line) (left : Option (List ℕ)) (start : DraftState)
        → in_order lines [] ≡ in_order (pool_line (head_of_pool pool.now) ∷ first ∷ []) later
        → HasReadAll G.HasGathered lines room gathered.now start (draft_state draft.old)
        → IfOk result (Writes pools room (λ t. IsWhole pool_format t lines left) left start (draft_state draft.new)) }
    ensures build { IfErr result IsOfBuild }
    ensures closed { StaysClosed (draft_state draft.old).device (draft_state draft.new).device }
    ensures faults { CountsTake result (draft_state draft.old).device.faults (draft_state draft.new).device.faults }
{
    let parts = gathered.write_parts(alloc, draft, room)?;
    Ok(write_thin_super(&super_of(pool, parts, room)))
}

/// The superblock's fields.
fn super_of(pool: &SavedHead, parts: PoolRoots, room: u64) -> ThinSuper
    ensures { result ≡ fields_of pool.now parts room }
{
    ThinSuper {
        flags: 0,
        uuid: pool.uuid,
        version: 2,
        time: pool.time,
        transaction: pool.transaction,
        held_root: 0,
        data_map: parts.data_map,
        meta_map: parts.meta_map,
        mapping_root: parts.mapping_root,
        details_root: parts.details_root,
        block_size: pool.block_size,
        meta_block_size: 8,
        meta_blocks: room,
        compat: 0,
        compat_ro: 0,
        incompat: 0,
    }
}

// The parts of a pool behind the trees of its devices (`thin_restore`, `thin_repair`, `thin_shrink`).

/// The roots that the superblock of a pool names.
#[derive(Clone, Copy, Debug, PartialEq, Eq)]
pub(crate) struct PoolRoots {
    pub(crate) mapping_root: u64,
    pub(crate) details_root: u64,
    pub(crate) data_map: SmRoot,
    pub(crate) meta_map: SmRoot,
}

/// Writes the parts of a pool behind the trees of its devices, of which these are the roots and the details, where there are
/// so many blocks for metadata. The devices share so many leaves, each used as often as was counted.
pub(crate) fn write_behind<D: Device>(
    alloc: Global,
    draft: &mut Draft<'_, D>,
    roots: &[(u64, Root)],
    details: &[(u64, Details)],
    counts: &Counts,
    leaves: u64,
    uses: &Counts,
    room: u64,
) -> Result<PoolRoots, BuildFault>
    requires room { CanWriteParts
        (record { roots = roots.now; details = details.now; counts = counts.now; leaves = leaves; uses = uses.now }) room
        (draft_state draft.old) }
    requires writable { IsWritable (draft_state draft.old).device }
    requires closed { IsClosed (draft_state draft.old).device }
    ensures same_reference { draft.new.dev.ghost_name ≡ draft.old.dev.ghost_name }
    ensures wrote { (w : ThinShape) (start : DraftState)
        → HasDevices w (record { roots = roots.now; details = details.now; counts = counts.now; leaves = leaves; uses = uses.now }) start
        (draft_state draft.old)
        → shape_need w room ≤ room → OnOk result (Wrote (shape_behind w room) start (draft_state draft.new)) }
    ensures parts { (w : ThinShape) (start : DraftState)
        → HasDevices w (record { roots = roots.now; details = details.now; counts = counts.now; leaves = leaves; uses = uses.now }) start
        (draft_state draft.old)
        → shape_need w room ≤ room → IfOk result (AreParts w room) }
    ensures closed { StaysClosed (draft_state draft.old).device (draft_state draft.new).device }
    ensures faults { CountsBuildFault result (draft_state draft.old).device.faults (draft_state draft.new).device.faults }
{
    let mapping_root = write_tree(alloc, draft, roots)?;
    let details_root = write_tree(alloc, draft, details)?;
    let data_map = write_data_map(alloc, draft, counts)?;
    let meta_map = write_leaves_map(alloc, draft, leaves, uses, room)?;
    Ok(PoolRoots {
        mapping_root,
        details_root,
        data_map,
        meta_map,
    })
}
