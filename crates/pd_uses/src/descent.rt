//! The way from the roots of a pool's devices to the leaves with mappings to the blocks of a region (`thin_rmap`).

ghost use Rattle.std.specs.Prelude.{◌≡◌, ℕ, List, ◌∷◌, [], false, filter, IfOk, IfSome, OnOk};
ghost use Rattle.pd_kinds.specs.Graph.{block_at};
ghost use Rattle.pd_kinds.specs.Node.{is_inner_node};
ghost use Rattle.pd_image.specs.Device.{IsAttached, OnlyReads};
ghost use Rattle.pd_tree.specs.Below.{kids_from};
ghost use Rattle.pd_meaning_thin.specs.Runs.{rows_left};
ghost use Rattle.pd_query.specs.Query.{StartFails};
ghost use Rattle.pd_uses.specs.Descent.{FindsRows, IsDeeper, IsOpened};
ghost use Rattle.pd_uses.specs.FoundUses.{Finds, IsRight, found_uses};
ghost use Rattle.pd_uses.specs.Hits.{hits_each, hits_in};
ghost use Rattle.pd_uses.specs.Uses.{is_within, super_uses};

use crate::found::{Found, HitNote};
use crate::hits::{LeafHits, Region};
use pd_image::Device;
use pd_kinds::{Block, MAX_META_BLOCKS, ThinSuper};
use pd_meaning_thin::{DeviceRow, ThinDevices};
use pd_node::{child, entries, is_inner};
use pd_query::QueryFault;
use pd_value::BlockTime;
use std::alloc::{AllocError, Global};

/// The most inner edges that lead from a root to a leaf.
const MOST_EDGES: u32 = 63;

/// What is searched for: the mappings of one device to the blocks of a region.
#[derive(Clone, Copy)]
struct Wanted {
    region: Region,
    /// The number of the device.
    id: u64,
}

/// What comes of a block.
#[derive(Drop)]
enum Opened {
    /// All that is below it was found, which was something or nothing.
    Done(bool),
    /// It is an inner node with these children, below which nothing was looked for.
    Inner(Vec<u64>),
}

/// The blocks that an inner node names; a leaf names none.
#[tactic(auto, unfolding(pd_tree::specs::Below::kids_from))]
fn children(alloc: Global, block: &Block) -> Result<Vec<u64>, AllocError>
    ensures { IfOk result (λ children. children.items ≡ kids_from 8 block.now.0 0) }
{
    let mut children = Vec::new(alloc);
    if !is_inner(block) {
        return Ok(children);
    }
    for i in 0..entries::<BlockTime>(block) {
        children.push(child::<BlockTime>(block, i))?;
    }
    Ok(children)
}

/// Notes what a leaf has of the region, which a device has. Want of memory is the only error.
fn find_leaf(
    alloc: Global,
    wanted: Wanted,
    b: u64,
    block: &Block,
    found: &mut Found,
) -> Result<bool, AllocError>
    requires { is_inner_node block.now.0 ≡ false }
    ensures { IfOk result (λ some. (image : List (List ℕ)) → block_at image b ≡ block.now.0 → IsRight wanted.region image found.old
        → Finds wanted.region image wanted.id (hits_in wanted.region block.now.0) some found.old found.new) }
{
    let hits = LeafHits::of(alloc, wanted.region, block)?;
    if hits.is_empty() {
        found.set_note(b, HitNote::Bare(u32::MAX));
        return Ok(false);
    }
    let number = found.add_leaf(hits)?;
    found.set_note(b, HitNote::Hits(number));
    found.visit(wanted.id, number)?;
    Ok(true)
}

/// Takes what a block has, if it is a leaf, or its children. Want of memory is the only error.
fn take_node(
    alloc: Global,
    wanted: Wanted,
    edges: u32,
    b: u64,
    block: &Block,
    found: &mut Found,
) -> Result<Opened, AllocError>
    ensures opened { IfOk result (λ opened. (image : List (List ℕ)) → block_at image b ≡ block.now.0 → IsRight wanted.region image found.old
        → IsOpened wanted.region image wanted.id edges b opened found.old found.new) }
    ensures deeper { IfOk result (IsDeeper edges) }
{
    if !is_inner(block) {
        let some = find_leaf(alloc, wanted, b, block, found)?;
        return Ok(Opened::Done(some));
    }
    if edges == 0 {
        return Ok(Opened::Done(false));
    }
    Ok(Opened::Inner(children(alloc, block)?))
}

/// Reads a block of which nothing is known, if it is on the device, and takes what it has.
fn read_node<D: Device>(
    alloc: Global,
    wanted: Wanted,
    edges: u32,
    b: u64,
    dev: &mut D,
    block: &mut Block,
    found: &mut Found,
) -> Result<Opened, QueryFault>
    requires { IsAttached (D.state dev.old) }
    ensures opened { IfOk result (λ opened. IfSome (D.state dev.old).held (λ image. IsRight wanted.region image found.old
        → IsOpened wanted.region image wanted.id edges b opened found.old found.new)) }
    ensures deeper { IfOk result (IsDeeper edges) }
    ensures kept { OnlyReads (D.state dev.old) (D.state dev.new) }
    ensures faults { StartFails result (D.state dev.old).faults (D.state dev.new).faults }
{
    if b >= dev.blocks() {
        return Ok(Opened::Done(false));
    }
    match dev.read(b, block) {
        Ok(()) => Ok(take_node(alloc, wanted, edges, b, block, found)?),
        Err(_) => Err(QueryFault::Device),
    }
}

/// Takes what is known of a block, or reads it.
fn open_node<D: Device>(
    alloc: Global,
    wanted: Wanted,
    edges: u32,
    b: u64,
    dev: &mut D,
    block: &mut Block,
    found: &mut Found,
) -> Result<Opened, QueryFault>
    requires { IsAttached (D.state dev.old) }
    ensures opened { IfOk result (λ opened. IfSome (D.state dev.old).held (λ image. IsRight wanted.region image found.old
        → IsOpened wanted.region image wanted.id edges b opened found.old found.new)) }
    ensures deeper { IfOk result (IsDeeper edges) }
    ensures kept { OnlyReads (D.state dev.old) (D.state dev.new) }
    ensures faults { StartFails result (D.state dev.old).faults (D.state dev.new).faults }
{
    match found.note(b) {
        HitNote::Bare(known) if edges <= known => Ok(Opened::Done(false)),
        HitNote::Hits(leaf) => {
            found.visit(wanted.id, leaf)?;
            Ok(Opened::Done(true))
        }
        _ => read_node(alloc, wanted, edges, b, dev, block, found),
    }
}

/// Finds what is below each of these blocks, from which at most so many inner edges lead on. A node below which nothing
/// was found, and a leaf, aren't read again.
fn find_each<D: Device>(
    alloc: Global,
    wanted: Wanted,
    edges: u32,
    blocks: &[u64],
    dev: &mut D,
    block: &mut Block,
    found: &mut Found,
) -> Result<bool, QueryFault>
    requires { IsAttached (D.state dev.old) }
    ensures finds { IfOk result (λ some. IfSome (D.state dev.old).held (λ image. IsRight wanted.region image found.old
        → Finds wanted.region image wanted.id (hits_each wanted.region image edges blocks.now) some found.old found.new)) }
    ensures kept { OnlyReads (D.state dev.old) (D.state dev.new) }
    ensures faults { StartFails result (D.state dev.old).faults (D.state dev.new).faults }
{
    let mut some = false;
    for b in blocks {
        let here = match open_node(alloc, wanted, edges, *b, dev, block, found)? {
            Opened::Done(here) => here,
            Opened::Inner(below) => {
                let here = find_each(
                    alloc,
                    wanted,
                    edges - 1,
                    below.as_slice(),
                    dev,
                    block,
                    found,
                )?;
                found.close(*b, edges, here);
                here
            }
        };
        some |= here;
    }
    Ok(some)
}

/// Finds what a device has.
fn find_row<D: Device>(
    alloc: Global,
    region: Region,
    row: &DeviceRow,
    dev: &mut D,
    block: &mut Block,
    found: &mut Found,
) -> Result<(), QueryFault>
    requires { IsAttached (D.state dev.old) }
    ensures finds { OnOk result (IfSome (D.state dev.old).held (λ image. IsRight region image found.old
        → FindsRows region image (row.now ∷ []) found.old found.new)) }
    ensures kept { OnlyReads (D.state dev.old) (D.state dev.new) }
    ensures faults { StartFails result (D.state dev.old).faults (D.state dev.new).faults }
{
    let wanted = Wanted { region, id: row.id };
    let roots = [row.root];
    let _some = find_each(alloc, wanted, MOST_EDGES, &roots, dev, block, found)?;
    Ok(())
}

/// Finds what the devices have that are left.
fn find_rows<D: Device>(
    alloc: Global,
    region: Region,
    devices: &mut ThinDevices,
    dev: &mut D,
    found: &mut Found,
) -> Result<(), QueryFault>
    requires { IsAttached (D.state dev.old) }
    ensures finds { OnOk result (IfSome (D.state dev.old).held (λ image. IsRight region image found.old
        → FindsRows region image (rows_left image devices.old) found.old found.new)) }
    ensures kept { OnlyReads (D.state dev.old) (D.state dev.new) }
    ensures faults { StartFails result (D.state dev.old).faults (D.state dev.new).faults }
{
    let mut block = Block::zeros();
    loop {
        let row = match devices.next(dev) {
            Ok(row) => row,
            Err(_) => return Err(QueryFault::Device),
        };
        match row {
            Some(row) => find_row(alloc, region, &row, dev, &mut block, found)?,
            None => return Ok(()),
        }
    }
}

/// Finds which devices of the pool with this superblock have which leaves with mappings to the blocks of the region.
///
/// Each leaf is read once, each inner node of a device that has no such leaf below it once, and any other one once for each
/// device that has it.
pub(crate) fn find_region<D: Device>(
    alloc: Global,
    dev: &mut D,
    s: &ThinSuper,
    region: Region,
) -> Result<Found, QueryFault>
    requires { IsAttached (D.state dev.old) }
    ensures uses { IfOk result (λ found. IfSome (D.state dev.old).held
        (λ image. found_uses found ≡ filter (is_within region.first region.end) (super_uses image s.now))) }
    ensures kept { OnlyReads (D.state dev.old) (D.state dev.new) }
    ensures faults { StartFails result (D.state dev.old).faults (D.state dev.new).faults }
{
    let mut found = Found::new(alloc, dev.blocks().min(MAX_META_BLOCKS))?;
    let mut devices = ThinDevices::start(alloc, s)?;
    find_rows(alloc, region, &mut devices, dev, &mut found)?;
    Ok(found)
}
