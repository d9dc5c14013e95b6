//! The states of a pool without its superblock whose trees are damaged, to choose from (`thin_repair`).

ghost use Rattle.std.specs.Prelude.{◌≡◌, ◌<◌, min, map, IfOk, IfSome};
ghost use Rattle.std.specs.List.{AllByRecursion};
ghost use Rattle.pd_kinds.specs.CheckFault.{CountsCheckFault};
ghost use Rattle.pd_kinds.specs.Graph.{Graph};
ghost use Rattle.pd_kinds.specs.declared.limits.TheConstants.{MAX_META_BLOCKS};
ghost use Rattle.pd_laid.specs.FoundRoots.{lost_graph};
ghost use Rattle.pd_image.specs.Device.{IsAttached, OnlyReads};
ghost use Rattle.pd_graph.specs.Notes.{size_of};
ghost use Rattle.pd_scan.specs.Lost.{AreRoots, IsPool};
ghost use Rattle.pd_scan.specs.Pairs.{state_roots};
ghost use Rattle.pd_answers.specs.DamagedStates.{damaged_states};
ghost use Rattle.pd_damaged.specs.Listed.{AreFound, HasKeptDevices, StatesInside};
ghost use Rattle.pd_damaged.specs.Loose.{AreTopmost};

use crate::listing::Search;
use crate::remains::Remains;
use crate::roots::{details_roots, loose_tops};
use crate::settled::settle;
use pd_graph::{Format, Notes};
use pd_image::Device;
use pd_kinds::{CheckFault, MAX_META_BLOCKS};
use pd_salvage::SavedCursor;
use pd_scan::{State, lost_format};
use std::alloc::Global;

/// The states of the mapping trees with these roots, by notes of the sound details trees.
///
/// Fails with `CheckFault::Memory` where memory wasn't found, and with `CheckFault::Device` where a read failed.
fn states_of_tops<D: Device>(
    alloc: Global,
    tops: &[u64],
    details: &Notes,
    dev: &mut D,
    data_blocks: u64,
) -> Result<Vec<State>, CheckFault>
    requires attached { IsAttached (D.state dev.old) }
    requires number { size_of details.now ≡ min (D.state dev.old).blocks MAX_META_BLOCKS }
    ensures found { IfOk result (λ found. IfSome (D.state dev.old).held (λ image. (graph : Graph) → graph.nr ≡ size_of details.now
        → graph.data_blocks ≡ data_blocks → AreRoots graph image 4 details.now → AreTopmost graph image tops.now
        → AreFound graph image found.items)) }
    ensures inside { IfOk result (λ found. AllByRecursion (λ t. t < size_of details.now) tops.now
        → StatesInside (size_of details.now) found.items) }
    ensures kept { OnlyReads (D.state dev.old) (D.state dev.new) }
    ensures faults { CountsCheckFault result (D.state dev.old).faults (D.state dev.new).faults }
{
    let roots = details_roots(alloc, details, dev)?;
    let remains = Remains::find(alloc, dev, data_blocks)?;
    let mut search = Search {
        remains,
        tops: SavedCursor::start(alloc, 0, 0)?,
        details: SavedCursor::start(alloc, 0, 0)?,
        roots,
    };
    search.states(alloc, dev, tops)
}

/// Finds the damaged states of a pool of this format.
///
/// Fails with `CheckFault::Memory` where memory wasn't found, and with `CheckFault::Device` where a read failed.
fn find_damaged_in<F: Format, D: Device>(
    alloc: Global,
    format: &F,
    dev: &mut D,
    data_blocks: u64,
) -> Result<Vec<State>, CheckFault>
    requires pool { IsPool F.ROLES (F.graph format.now) }
    requires attached { IsAttached (D.state dev.old) }
    requires number { (F.graph format.now).nr ≡ min (D.state dev.old).blocks MAX_META_BLOCKS }
    requires given { (F.graph format.now).data_blocks ≡ data_blocks }
    ensures found { IfOk result (λ found. IfSome (D.state dev.old).held (λ image. AreFound (F.graph format.now) image found.items)) }
    ensures inside { IfOk result (λ found. StatesInside (F.graph format.now).nr found.items) }
    ensures kept { OnlyReads (D.state dev.old) (D.state dev.new) }
    ensures faults { CountsCheckFault result (D.state dev.old).faults (D.state dev.new).faults }
{
    let sound = settle(alloc, format, dev)?;
    let tops = loose_tops(alloc, &sound.tops, dev)?;
    if tops.is_empty() {
        return Ok(Vec::new(alloc));
    }
    states_of_tops(alloc, tops.as_slice(), &sound.details, dev, data_blocks)
}

/// Finds the damaged states to choose from of a pool with so many data blocks, whatever its block 0 holds: one for each block
/// that looks like the root of a mapping tree, isn't that of a sound one, and of which a salvage keeps something. Its details
/// tree, sound or damaged, is the one that gives details for the most of the devices that are kept; of such ones that with the
/// latest time, then with the latest transaction, then in the highest block; and 0 where none gives any. The best state comes
/// first, by the order that `find_states` has.
///
/// The device is only read: each block nine times at most where there is no such block. Else each block is read twice more, and
/// an inner node once more for each round until what is kept below its children is known, 64 times at most; then the tree of
/// each such block and all details trees are gone over.
///
/// It takes some 100 bytes for each of its blocks, of which it looks at no more than `MAX_META_BLOCKS`. Where there is any such
/// block it takes some 80 bytes a block more, and 800 KiB, which are used as far as trees are deep, and memory for the ids of one
/// tree's devices and for the states.
///
/// Fails with `CheckFault::Memory` where memory wasn't found, and with `CheckFault::Device` where a read failed.
pub fn find_damaged<D: Device>(
    alloc: Global,
    dev: &mut D,
    data_blocks: u64,
) -> Result<Vec<State>, CheckFault>
    requires attached { IsAttached (D.state dev.old) }
    ensures states { IfOk result (λ found. IfSome (D.state dev.old).held
        (λ image. map state_roots found.items ≡ damaged_states (lost_graph image data_blocks) image)) }
    ensures devices { IfOk result (λ found. IfSome (D.state dev.old).held
        (λ image. AllByRecursion (HasKeptDevices (lost_graph image data_blocks) image) found.items)) }
    ensures inside { IfOk result (λ found. StatesInside (min (D.state dev.old).blocks MAX_META_BLOCKS) found.items) }
    ensures kept { OnlyReads (D.state dev.old) (D.state dev.new) }
    ensures faults { CountsCheckFault result (D.state dev.old).faults (D.state dev.new).faults }
{
    let nr = dev.blocks().min(MAX_META_BLOCKS);
    if nr == 0 {
        return Ok(Vec::new(alloc));
    }
    find_damaged_in(alloc, &lost_format(nr, data_blocks), dev, data_blocks)
}
