//! The states of a pool whose superblock is lost and whose trees are damaged (`thin_repair`).

ghost use Rattle.std.specs.Prelude.{◌≡◌, ◌≤◌, insert, IfOk, IfSome, OnOk};
ghost use Rattle.pd_kinds.specs.CheckFault.{CountsCheckFault};
ghost use Rattle.pd_image.specs.Device.{IsAttached, OnlyReads};
ghost use Rattle.pd_salvage.specs.Cursor.{saved_left, saved_room};
ghost use Rattle.pd_tree.specs.Cursor.{root_of};
ghost use Rattle.pd_scan.specs.Pairs.{place_among};
ghost use Rattle.pd_damaged.specs.Given.{AscendFrom, ids_left};
ghost use Rattle.pd_damaged.specs.Listed.{state_by};

use crate::given::{Given, best_given};
use crate::marks::push_if;
use crate::remains::Remains;
use crate::top::{KeptTop, below_top};
use pd_image::{Device, Failed};
use pd_kinds::{CheckFault, is_outside};
use pd_salvage::SavedCursor;
use pd_scan::{Roots, State, place_of};
use pd_value::{Details, Root};
use std::alloc::{AllocError, Global};

/// What the states are found by.
#[derive(Drop)]
pub(crate) struct Search {
    /// What is kept below each block.
    pub(crate) remains: Remains,
    /// The memory of cursors over the devices of a mapping tree, and over details.
    pub(crate) tops: SavedCursor<Root>,
    pub(crate) details: SavedCursor<Details>,
    /// The roots of details trees, ascending.
    pub(crate) roots: Vec<u64>,
}

/// The ids of the devices that are left of a mapping tree, ascending, but for those whose roots lie outside the metadata.
///
/// Fails with `CheckFault::Memory` where memory wasn't found, and with `CheckFault::Device` where a read failed.
fn ids_of<D: Device>(
    alloc: Global,
    tops: &mut SavedCursor<Root>,
    dev: &mut D,
    nr: u64,
) -> Result<Vec<u64>, CheckFault>
    requires attached { IsAttached (D.state dev.old) }
    requires within { saved_room tops.old ≤ (D.state dev.old).blocks }
    ensures ids { IfOk result (λ ids. IfSome (D.state dev.old).held
        (λ image. ids.items ≡ ids_left nr (saved_left 8 root_of image tops.old))) }
    ensures ascend { IfOk result (λ ids. AscendFrom 0 ids.items) }
    ensures kept { OnlyReads (D.state dev.old) (D.state dev.new) }
    ensures faults { CountsCheckFault result (D.state dev.old).faults (D.state dev.new).faults }
{
    let mut ids = Vec::new(alloc);
    'tops: loop {
        match tops.next(dev)? {
            Some((id, root)) => push_if(&mut ids, id, !is_outside(nr, root.0))?,
            None => return Ok(ids),
        }
    }
}

/// The state of a mapping tree, of which this is kept, with what the best details tree gives for its devices.
fn state_of(top: u64, kept: &KeptTop, given: &Given) -> State
    ensures { result ≡ state_by top kept.now given.now }
{
    let roots = Roots {
        top,
        details: given.details,
        mappings: kept.kept.number,
        time: kept.kept.time.max(given.time),
        transaction: given.transaction,
        times: kept.kept.times,
    };
    State {
        roots,
        devices: kept.devices,
    }
}

impl Search {
    ghost use Rattle.std.specs.Prelude.{ℕ, ◌∷◌, ◌<◌, ◌≤◌, List, IfOk, IfSome, OnOk};
    ghost use Rattle.std.specs.List.{AllByRecursion};
    ghost use Rattle.pd_kinds.specs.CheckFault.{CountsCheckFault};
    ghost use Rattle.pd_kinds.specs.Graph.{Graph};
    ghost use Rattle.pd_kinds.specs.declared.limits.TheConstants.{MAX_META_BLOCKS};
    ghost use Rattle.pd_image.specs.Device.{IsAttached, OnlyReads};
    ghost use Rattle.pd_scan.specs.Pairs.{AreInside};
    ghost use Rattle.pd_damaged.specs.Known.{meta_blocks_of};
    ghost use Rattle.pd_damaged.specs.Listed.{AreRootsInside, AreStates, IsSearchOf, IsStateOf, StatesInside, StaysSearch};
    ghost use Rattle.pd_damaged.specs.Top.{IsKeptOfTop};

    /// The state of a mapping tree of which this is kept.
    ///
    /// Fails with `CheckFault::Memory` where memory wasn't found, and with `CheckFault::Device` where a read failed.
    fn state<D: Device>(
        &mut self,
        alloc: Global,
        dev: &mut D,
        top: u64,
        kept: &KeptTop,
    ) -> Result<State, CheckFault>
        requires attached { IsAttached (D.state dev.old) }
        requires within { meta_blocks_of self.old.remains ≤ (D.state dev.old).blocks }
        ensures state { IfOk result (λ s. IfSome (D.state dev.old).held (λ image. (graph : Graph) → IsSearchOf graph image self.old
            → graph.nr ≤ MAX_META_BLOCKS → IsKeptOfTop graph image top kept.now → IsStateOf graph image top s)) }
        ensures inside { IfOk result (λ s. AreRootsInside self.old → top < meta_blocks_of self.old.remains
            → AreInside (meta_blocks_of self.old.remains) s.roots) }
        ensures stays { StaysSearch self.old self.new }
        ensures kept { OnlyReads (D.state dev.old) (D.state dev.new) }
        ensures faults { CountsCheckFault result (D.state dev.old).faults (D.state dev.new).faults }
    {
        let nr = self.remains.nr();
        self.tops.restart(nr, top);
        let ids = ids_of(alloc, &mut self.tops, dev, nr)?;
        let given = best_given(
            ids.as_slice(),
            &mut self.details,
            dev,
            nr,
            self.roots.as_slice(),
        )?;
        Ok(state_of(top, kept, &given))
    }

    /// Puts the state of a mapping tree into its place among others that are in order, where anything is kept of the tree.
    ///
    /// Fails with `CheckFault::Memory` where memory wasn't found, and with `CheckFault::Device` where a read failed.
    fn put_top<D: Device>(
        &mut self,
        states: &mut Vec<State>,
        alloc: Global,
        dev: &mut D,
        top: u64,
    ) -> Result<(), CheckFault>
        requires attached { IsAttached (D.state dev.old) }
        requires within { meta_blocks_of self.old.remains ≤ (D.state dev.old).blocks }
        ensures states { OnOk result (IfSome (D.state dev.old).held (λ image. (graph : Graph) (tops : List ℕ)
            → IsSearchOf graph image self.old → graph.nr ≤ MAX_META_BLOCKS → AreStates graph image tops states.old.items
            → AreStates graph image (top ∷ tops) states.new.items)) }
        ensures inside { OnOk result (AreRootsInside self.old → top < meta_blocks_of self.old.remains
            → StatesInside (meta_blocks_of self.old.remains) states.old.items
            → StatesInside (meta_blocks_of self.old.remains) states.new.items) }
        ensures stays { StaysSearch self.old self.new }
        ensures kept { OnlyReads (D.state dev.old) (D.state dev.new) }
        ensures faults { CountsCheckFault result (D.state dev.old).faults (D.state dev.new).faults }
    {
        let kept = below_top(&mut self.remains, &mut self.tops, dev, top)?;
        if kept.kept.number == 0 {
            return Ok(());
        }
        let state = self.state(alloc, dev, top, &kept)?;
        put(states, state)?;
        Ok(())
    }

    /// The states of these mapping trees, the best first.
    ///
    /// Fails with `CheckFault::Memory` where memory wasn't found, and with `CheckFault::Device` where a read failed.
    pub(crate) fn states<D: Device>(
        &mut self,
        alloc: Global,
        dev: &mut D,
        tops: &[u64],
    ) -> Result<Vec<State>, CheckFault>
        requires attached { IsAttached (D.state dev.old) }
        requires within { meta_blocks_of self.old.remains ≤ (D.state dev.old).blocks }
        ensures states { IfOk result (λ found. IfSome (D.state dev.old).held (λ image. (graph : Graph) → IsSearchOf graph image self.old
            → graph.nr ≤ MAX_META_BLOCKS → AreStates graph image tops.now found.items)) }
        ensures inside { IfOk result (λ found. AreRootsInside self.old → AllByRecursion (λ t. t < meta_blocks_of self.old.remains) tops.now
            → StatesInside (meta_blocks_of self.old.remains) found.items) }
        ensures kept { OnlyReads (D.state dev.old) (D.state dev.new) }
        ensures faults { CountsCheckFault result (D.state dev.old).faults (D.state dev.new).faults }
    {
        let nr = tops.len();
        let mut states = Vec::new(alloc);
        for passed in 0..nr {
            self.put_top(&mut states, alloc, dev, tops[nr - (passed + 1)])?;
        }
        Ok(states)
    }
}

/// Puts a state into its place among others that are in order, the best first. Want of memory is the only error.
fn put(states: &mut Vec<State>, state: State) -> Result<(), AllocError>
    ensures { OnOk result (states.new.items ≡ insert states.old.items (place_among state states.old.items) state) }
{
    let place = place_of(states, &state);
    states.insert(place, state)?;
    Ok(())
}
