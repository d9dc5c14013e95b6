//! The runs of a leaf or of a device's own piece, which are held until it is over: only then is it known over how many
//! leaves they are spread (`thin_restore`, `thin_repair`, `thin_shrink`).

ghost use Rattle.std.specs.Prelude.{◌≡◌, ◌+◌, ◌<◌, ◌≤◌, ◌^◌, ◌++◌, List, [], ◌∷◌, length, OnOk, IfErr};
ghost use Rattle.pd_kinds.specs.Node.{leaf_block};
ghost use Rattle.pd_kinds.specs.Field.{mapping_code};
ghost use Rattle.pd_grammar.specs.Need.{nodes_for};
ghost use Rattle.pd_grammar.specs.ThinText.{least_of, mappings_from, Run as Value};
ghost use Rattle.pd_laid.specs.LaidThin.{mapping_items};
ghost use Rattle.pd_laid.specs.Laid.{blocks_from, heads, tree_leaves};
ghost use Rattle.pd_laid.specs.PoolText.{mappings_of_runs};
ghost use Rattle.pd_image.specs.Device.{IsWritable};
ghost use Rattle.pd_draft.specs.Closed.{IsClosed, StaysClosed, Wrote};
ghost use Rattle.pd_draft.specs.DraftState.{draft_state};
ghost use Rattle.pd_build.specs.Tree.{items_to_come};
ghost use Rattle.pd_build.specs.Building.{CountsBuildFault};
ghost use Rattle.pd_devices.specs.SharedGrowth.{runs_of, held_runs, items_of_runs, CanBeLaid, HasHeld, TakesAll};
ghost use Rattle.pd_devices.specs.Devices.{run_of};

use crate::devices::Run;
use pd_build::{BuildFault, LeafBuilder, UpperBuilder};
use pd_draft::Draft;
use pd_image::Device;
use pd_meaning_thin::{PackedRuns, Run as PackedRun};
use pd_value::BlockTime;
use std::alloc::{AllocError, Global};

/// The runs of a leaf or of a piece that isn't over.
#[derive(Drop)]
pub struct Held {
    alloc: Global,
    pub(crate) runs: PackedRuns,
    /// How many mappings they are.
    pub(crate) number: u64,
}

impl Held {
    /// No run.
    pub(crate) fn new(alloc: Global) -> Held
        ensures { HasHeld [] result }
    {
        Held {
            alloc,
            runs: PackedRuns::new(alloc),
            number: 0,
        }
    }

    /// Holds a run more.
    pub(crate) fn add(&mut self, run: Run) -> Result<(), AllocError>
        requires few { self.old.number + run.length < 2 ^ 64 }
        ensures held { (runs : List Value) → HasHeld runs self.old → OnOk result (HasHeld (runs ++ run_of run ∷ []) self.new) }
    {
        self.runs.push(PackedRun {
            virt: run.virtual_block,
            target: run.data_block,
            length: run.length,
            time: run.time,
        })?;
        self.number += run.length;
        Ok(())
    }

    /// The first virtual block, where there is a run.
    pub(crate) fn least(&self) -> u64
        requires some { 1 ≤ self.now.number }
        requires held { HasHeld (held_runs self.now) self.now }
        ensures { result ≡ least_of (held_runs self.now) }
    {
        let mut place = self.runs.first();
        match self.runs.next(&mut place) {
            Some(run) => run.virt,
            None => 0,
        }
    }

    /// Holds none from now on.
    pub(crate) fn clear(&mut self)
        ensures { HasHeld [] self.new }
    {
        self.runs = PackedRuns::new(self.alloc);
        self.number = 0;
    }
}

/// Writes the leaves of a piece, over which its mappings are spread, and adds the least key and the place of each to the row.
pub(crate) fn write_piece<D: Device>(
    alloc: Global,
    draft: &mut Draft<'_, D>,
    held: &Held,
    row: &mut UpperBuilder,
) -> Result<(), BuildFault>
    requires can { CanBeLaid (held_runs held.now) 0 }
    requires number { held.now.number ≡ length (mappings_of_runs (held_runs held.now)) }
    requires some { 1 ≤ held.now.number }
    requires writable { IsWritable (draft_state draft.old).device }
    requires room { draft.old.next + nodes_for 252 held.now.number ≤ (draft_state draft.old).device.blocks }
    requires closed { IsClosed (draft_state draft.old).device }
    ensures same_reference { draft.new.dev.ghost_name ≡ draft.old.dev.ghost_name }
    ensures wrote { OnOk result (Wrote (blocks_from (leaf_block 8) draft.old.next (tree_leaves 8 (items_of_runs (held_runs held.now))))
        (draft_state draft.old) (draft_state draft.new)) }
    ensures row_is { OnOk result (row.new ≡ row.old ++ heads draft.old.next (tree_leaves 8 (items_of_runs (held_runs held.now)))) }
    ensures closed { StaysClosed (draft_state draft.old).device (draft_state draft.new).device }
    ensures faults { CountsBuildFault result (draft_state draft.old).device.faults (draft_state draft.new).device.faults }
{
    let mut builder = LeafBuilder::<BlockTime>::new(alloc, held.number)?;
    put_runs(&mut builder, row, draft, &held.runs)?;
    let _done = builder.is_done();
    Ok(())
}

/// Puts the mappings of runs into their leaves. Each leaf is written as soon as its items were put.
fn put_runs<D: Device>(
    builder: &mut LeafBuilder<BlockTime>,
    row: &mut UpperBuilder,
    draft: &mut Draft<'_, D>,
    runs: &PackedRuns,
) -> Result<(), BuildFault>
    requires can { CanBeLaid (runs_of runs.now) builder.old.low }
    requires more { items_to_come builder.old ≡ length (mappings_of_runs (runs_of runs.now)) }
    requires writable { IsWritable (draft_state draft.old).device }
    requires room { draft.old.next + length builder.old.sizes ≤ (draft_state draft.old).device.blocks }
    requires closed { IsClosed (draft_state draft.old).device }
    ensures same_reference { draft.new.dev.ghost_name ≡ draft.old.dev.ghost_name }
    ensures takes { OnOk result (TakesAll 8 (items_of_runs (runs_of runs.now)) builder.old builder.new row.old row.new
        (draft_state draft.old) (draft_state draft.new)) }
    ensures closed { StaysClosed (draft_state draft.old).device (draft_state draft.new).device }
    ensures faults { CountsBuildFault result (draft_state draft.old).device.faults (draft_state draft.new).device.faults }
{
    let mut place = runs.first();
    while let Some(run) = runs.next(&mut place) {
        put_run(builder, row, draft, run)?;
    }
    Ok(())
}

/// Puts the mappings of a run into their leaves.
fn put_run<D: Device>(
    builder: &mut LeafBuilder<BlockTime>,
    row: &mut UpperBuilder,
    draft: &mut Draft<'_, D>,
    run: PackedRun,
) -> Result<(), BuildFault>
    requires above { builder.old.low ≤ run.virt }
    requires ends { run.virt + run.length ≤ 2 ^ 64 }
    requires within { run.target + run.length ≤ 2 ^ 40 }
    requires time { run.time < 2 ^ 24 }
    requires more { run.length ≤ items_to_come builder.old }
    requires writable { IsWritable (draft_state draft.old).device }
    requires room { draft.old.next + length builder.old.sizes ≤ (draft_state draft.old).device.blocks }
    requires closed { IsClosed (draft_state draft.old).device }
    ensures same_reference { draft.new.dev.ghost_name ≡ draft.old.dev.ghost_name }
    ensures takes { OnOk result (TakesAll 8 (mapping_items (mappings_from run.virt run.target run.time run.length))
        builder.old builder.new row.old row.new (draft_state draft.old) (draft_state draft.new)) }
    ensures raised { OnOk result (builder.new.low ≤ run.virt + run.length) }
    ensures closed { StaysClosed (draft_state draft.old).device (draft_state draft.new).device }
    ensures faults { CountsBuildFault result (draft_state draft.old).device.faults (draft_state draft.new).device.faults }
{
    for i in 0..run.length {
        let mapping = BlockTime {
            block: run.target + i,
            time: run.time,
        };
        put_mapping(builder, row, draft, run.virt + i, mapping)?;
    }
    Ok(())
}

/// Puts a mapping into its leaf. Where it ends that, the leaf is written, and its least key and place go to the row.
fn put_mapping<D: Device>(
    builder: &mut LeafBuilder<BlockTime>,
    row: &mut UpperBuilder,
    draft: &mut Draft<'_, D>,
    key: u64,
    mapping: BlockTime,
) -> Result<(), BuildFault>
    requires low { builder.old.low ≤ key }
    requires block { mapping.block < 2 ^ 40 }
    requires time { mapping.time < 2 ^ 24 }
    requires more { 1 ≤ items_to_come builder.old }
    requires writable { IsWritable (draft_state draft.old).device }
    requires room { draft.old.next + length builder.old.sizes ≤ (draft_state draft.old).device.blocks }
    requires closed { IsClosed (draft_state draft.old).device }
    ensures same_reference { draft.new.dev.ghost_name ≡ draft.old.dev.ghost_name }
    ensures takes { OnOk result (TakesAll 8 (record { key = key; value = mapping_code mapping.block mapping.time }
        ∷ []) builder.old builder.new row.old row.new (draft_state draft.old) (draft_state draft.new)) }
    ensures raised { OnOk result (builder.new.low ≡ key + 1) }
    ensures closed { StaysClosed (draft_state draft.old).device (draft_state draft.new).device }
    ensures faults { CountsBuildFault result (draft_state draft.old).device.faults (draft_state draft.new).device.faults }
{
    match builder.put(draft, key, mapping)? {
        None => Ok(()),
        Some((least, place)) => add_head(row, least, place),
    }
}

/// Adds the least key and the place of a leaf to a row.
pub(crate) fn add_head(row: &mut UpperBuilder, least: u64, place: u64) -> Result<(), BuildFault>
    ensures added { OnOk result (row.new ≡ row.old ++ record { key = least; value = place } ∷ []) }
    ensures fault { IfErr result (λ fault. fault ≡ BuildFault.Memory) }
{
    Ok(row.add(least, place)?)
}
