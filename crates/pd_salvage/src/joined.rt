//! Runs that are joined as they come (`thin_repair`, `thin_shrink`).

ghost use Rattle.std.specs.Prelude.{◌≡◌, ◌^◌, ◌<◌, ◌≤◌, IfOk, IfSome, ◌++◌, OnOk};
ghost use Rattle.pd_grammar.specs.ThinText.{continues_run};
ghost use Rattle.pd_image.specs.Device.{IsAttached, OnlyReads};
ghost use Rattle.pd_meaning_thin.specs.Runs.{spelled};
ghost use Rattle.pd_meaning_thin.specs.Packed.{runs_from};
ghost use Rattle.pd_salvage.specs.Cursor.{KnowsSaved, saved_least, saved_room};
ghost use Rattle.pd_salvage.specs.Saved.{CountsSalvage};
ghost use Rattle.pd_salvage.specs.Gather.{IsGathered, run_of_mapping, to_come};

use crate::cursor::SavedCursor;
use crate::saved::SalvageFault;
use pd_image::Device;
use pd_meaning_thin::{PackedRuns, Run, RunPlace};
use pd_value::BlockTime;
use std::alloc::{AllocError, Global};

/// The last of the runs that were taken, which may still become longer.
#[derive(Clone, Copy)]
pub struct Joining {
    pub begun: Option<Run>,
}

/// Whether a run follows another.
fn follows(begun: &Run, next: &Run) -> bool
    ensures { result ≡ continues_run (spelled begun.now) (spelled next.now) }
{
    let next_virtual = next.virt >= begun.virt && next.virt - begun.virt == begun.length;
    let next_data = next.target >= begun.target && next.target - begun.target == begun.length;
    let same_time = next.time == begun.time;
    next_virtual & next_data & same_time
}

impl Joining {
    ghost use Rattle.std.specs.Prelude.{◌+◌, ◌^◌, ◌≤◌, List, OnOk};
    ghost use Rattle.pd_kinds.specs.Meaning.{Mapping};
    ghost use Rattle.pd_grammar.specs.ThinText.{mappings_of};
    ghost use Rattle.pd_meaning_thin.specs.declared.joined.Run.{Run};
    ghost use Rattle.pd_meaning_thin.specs.Runs.{spelled};
    ghost use Rattle.pd_salvage.specs.Gather.{HasRuns, IsJoining, Takes};

    /// Takes the next run, and adds the one before it where it doesn't follow that.
    pub fn take(&mut self, runs: &mut PackedRuns, next: Run) -> Result<(), AllocError>
        requires some { 1 ≤ next.length }
        requires fits { next.target + next.length ≤ 2 ^ 40 }
        ensures { OnOk result (Takes (mappings_of (spelled next)) runs.old runs.new self.old self.new) }
    {
        match self.begun {
            Some(mut begun) => {
                if follows(&begun, &next) {
                    begun.length = next.target - begun.target + next.length;
                    self.begun = Some(begun);
                } else {
                    runs.push(begun)?;
                    self.begun = Some(next);
                }
            }
            None => self.begun = Some(next),
        }
        Ok(())
    }

    /// Adds the last run, if there is any.
    pub fn end(&mut self, runs: &mut PackedRuns) -> Result<(), AllocError>
        ensures { OnOk result ((before : List Run) (ms : List Mapping)
            → IsJoining before runs.old self.old ms → HasRuns before runs.new ms) }
    {
        if let Some(begun) = self.begun {
            runs.push(begun)?;
            self.begun = None;
        }
        Ok(())
    }
}

// The mappings of a device, joined to runs (`thin_repair`, `thin_shrink`).

/// The runs of the mappings that were taken, and how many of these there were.
#[derive(Clone, Copy)]
pub(crate) struct Gathering {
    pub(crate) joining: Joining,
    pub(crate) mapped: u64,
}

/// The run of one mapping.
fn run_of(virt: u64, mapping: BlockTime) -> Run
    ensures { result ≡ run_of_mapping virt mapping }
{
    Run {
        virt,
        target: mapping.block,
        length: 1,
        time: mapping.time,
    }
}

impl Gathering {
    ghost use Rattle.std.specs.Prelude.{◌^◌, ◌<◌, ◌++◌, ◌∷◌, [], List, OnOk};
    ghost use Rattle.pd_kinds.specs.Meaning.{Mapping};
    ghost use Rattle.pd_meaning_thin.specs.Runs.{mapping_of};
    ghost use Rattle.pd_salvage.specs.Gather.{IsGathering};

    /// Takes the next mapping, and adds the run before it where the mapping doesn't follow that.
    fn take(
        &mut self,
        runs: &mut PackedRuns,
        virt: u64,
        mapping: BlockTime,
    ) -> Result<(), AllocError>
        requires { mapping.block < 2 ^ 40 }
        ensures fits { virt < 2 ^ 64 }
        ensures takes { OnOk result ((before : List Run) (ms : List Mapping) → IsGathering before runs.old self.old ms
            → IsGathering before runs.new self.new (ms ++ mapping_of (virt, mapping) ∷ [])) }
    {
        if self.mapped == u64::MAX {
            return Err(AllocError);
        }
        self.mapped += 1;
        self.joining.take(runs, run_of(virt, mapping))
    }
}

/// Adds the runs of the mappings that are left, whose data blocks are below this number, and answers how many
/// mappings they have.
pub(crate) fn gather<D: Device>(
    mappings: &mut SavedCursor<BlockTime>,
    dev: &mut D,
    blocks: u64,
    runs: &mut PackedRuns,
) -> Result<u64, SalvageFault>
    requires attached { IsAttached (D.state dev.old) }
    requires within { saved_room mappings.old ≤ (D.state dev.old).blocks }
    requires few { blocks ≤ 2 ^ 40 }
    requires knows { IfSome (D.state dev.old).held (λ image. KnowsSaved 8 image mappings.old) }
    ensures gathered { IfOk result (λ mapped. IsGathered blocks (saved_least mappings.old) mapped (D.state dev.old).held
        (λ image. to_come blocks image mappings.old) runs.old runs.new) }
    ensures room { saved_room mappings.new ≡ saved_room mappings.old }
    ensures kept { OnlyReads (D.state dev.old) (D.state dev.new) }
    ensures faults { CountsSalvage result (D.state dev.old).faults (D.state dev.new).faults }
{
    let mut gathering = Gathering {
        joining: Joining { begun: None },
        mapped: 0,
    };
    while let Some((virt, mapping)) = mappings.next_known(dev)? {
        if mapping.block < blocks {
            gathering.take(runs, virt, mapping)?;
        }
    }
    gathering.joining.end(runs)?;
    Ok(gathering.mapped)
}

// Runs that are put once more behind a list of runs (`thin_repair`, `thin_shrink`).

/// Puts the runs that are read from a place on once more behind all of them.
///
/// It takes the memory of these runs twice, and gives one half back.
pub(crate) fn repeat_runs(
    alloc: Global,
    runs: &mut PackedRuns,
    place: RunPlace,
) -> Result<(), AllocError>
    ensures { OnOk result (runs.new ≡ runs.old ++ runs_from runs.old place) }
{
    let mut copy = PackedRuns::new(alloc);
    add_runs(&mut copy, runs, place)?;
    let first = copy.first();
    add_runs(runs, &copy, first)?;
    Ok(())
}

/// Puts the runs that are read from a place of one list on behind those of another.
fn add_runs(runs: &mut PackedRuns, more: &PackedRuns, place: RunPlace) -> Result<(), AllocError>
    ensures { OnOk result (runs.new ≡ runs.old ++ runs_from more.now place) }
{
    let mut place = place;
    while let Some(run) = more.next(&mut place) {
        runs.push(run)?;
    }
    Ok(())
}
