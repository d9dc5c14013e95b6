//! Mappings to neighbouring data blocks by neighbouring virtual blocks, in one row of memory (`thin_rmap`).

ghost use Rattle.std.specs.Prelude.{◌≡◌, ◌<◌, ◌^◌, ◌++◌, ◌∷◌, [], OnOk};
ghost use Rattle.pd_uses.specs.Hits.{run_hits, runs_hits};

use crate::hits::Hit;
use std::alloc::{AllocError, Global};

/// Mappings to neighbouring data blocks by neighbouring virtual blocks. A block stays at the end of its type.
#[derive(Clone, Copy, Debug, PartialEq, Eq)]
pub(crate) struct HitRun {
    /// The data block of the first one.
    pub(crate) block: u64,
    /// The virtual block that is mapped to it.
    pub(crate) virt: u64,
    /// How many mappings there are.
    pub(crate) number: u32,
}

impl HitRun {
    ghost use Rattle.std.specs.Prelude.{◌≡◌, ◌-◌, ◌++◌, ◌∷◌, [], IfSome};
    ghost use Rattle.pd_uses.specs.Hits.{run_hit, run_hits};

    /// The mapping in this place, from 0.
    pub(crate) fn hit(self, place: u32) -> Hit
        ensures { result ≡ run_hit self place }
    {
        Hit {
            block: self.block.saturating_add(u64::from(place)),
            virt: self.virt.saturating_add(u64::from(place)),
        }
    }

    /// The data block of the first mapping.
    pub(crate) fn first_block(self) -> u64
        ensures { result ≡ (run_hit self 0).block }
    {
        self.hit(0).block
    }

    /// The data block of the last one.
    pub(crate) fn last_block(self) -> u64
        ensures { result ≡ (run_hit self (self.number - 1)).block }
    {
        self.hit(self.number.saturating_sub(1)).block
    }

    /// The run with one mapping more, if this is the next one.
    fn joined(self, hit: Hit) -> Option<HitRun>
        ensures { IfSome result (λ run. run_hits run ≡ run_hits self ++ (hit ∷ [])) }
    {
        let next = self.hit(self.number);
        let is_next = (next.block == hit.block) & (next.virt == hit.virt);
        let grows = is_next & (self.number < u32::MAX);
        if !grows {
            return None;
        }
        Some(HitRun {
            block: self.block,
            virt: self.virt,
            number: self.number + 1,
        })
    }
}

/// Runs of mappings while they are put together.
#[derive(Drop)]
pub(crate) struct Joining {
    done: Vec<HitRun>,
    /// The last run, which may still grow. Before the first mapping it has none.
    open: HitRun,
}

impl Joining {
    ghost use Rattle.std.specs.Prelude.{◌≡◌, ◌++◌, ◌∷◌, [], IfOk, OnOk};
    ghost use Rattle.pd_uses.specs.HitRuns.{joined_hits};
    ghost use Rattle.pd_uses.specs.Hits.{runs_hits};

    /// No mapping yet.
    #[tactic(auto, unfolding(crate::specs::Hits::runs_hits))]
    pub(crate) fn new(alloc: Global) -> Joining
        ensures { joined_hits result ≡ [] }
    {
        Joining {
            done: Vec::new(alloc),
            open: HitRun {
                block: 0,
                virt: 0,
                number: 0,
            },
        }
    }

    /// Adds a mapping behind the others. Want of memory is the only error.
    pub(crate) fn add(&mut self, hit: Hit) -> Result<(), AllocError>
        ensures { OnOk result (joined_hits self.new ≡ joined_hits self.old ++ (hit ∷ [])) }
    {
        if let Some(run) = self.open.joined(hit) {
            self.open = run;
            return Ok(());
        }
        add_run(&mut self.done, self.open)?;
        self.open = run_of(hit);
        Ok(())
    }

    /// The runs, in no more memory than they need. Want of memory is the only error.
    pub(crate) fn end(self) -> Result<Vec<HitRun>, AllocError>
        ensures { IfOk result (λ runs. runs_hits runs.items ≡ joined_hits self) }
    {
        let mut runs = self.done;
        add_run(&mut runs, self.open)?;
        runs.shrink_to_fit();
        Ok(runs)
    }
}

/// A run of this mapping alone.
fn run_of(hit: Hit) -> HitRun
    ensures { run_hits result ≡ hit ∷ [] }
{
    fits(hit);
    HitRun {
        block: hit.block,
        virt: hit.virt,
        number: 1,
    }
}

/// The numbers of blocks fit their types.
fn fits(hit: Hit)
    ensures block { hit.block < 2 ^ 64 }
    ensures virt { hit.virt < 2 ^ 64 }
{}

/// Adds a run, if it has any mapping. Want of memory is the only error.
fn add_run(runs: &mut Vec<HitRun>, run: HitRun) -> Result<(), AllocError>
    ensures { OnOk result (runs_hits runs.new.items ≡ runs_hits runs.old.items ++ run_hits run) }
{
    if run.number == 0 {
        return Ok(());
    }
    runs.push(run)?;
    Ok(())
}
