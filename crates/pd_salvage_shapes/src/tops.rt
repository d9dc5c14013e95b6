//! The devices whose mappings are saved (`thin_repair`, `thin_shrink`).

ghost use Rattle.std.specs.Prelude.{◌≡◌, ◌≤◌, IfOk, IfSome, OnOk, ◌<◌, ◌++◌, ◌∷◌, [], length};
ghost use Rattle.pd_image.specs.Device.{IsAttached, OnlyReads};
ghost use Rattle.pd_salvage.specs.Details.{details_room};
ghost use Rattle.pd_salvage.specs.Saved.{CountsSalvage};
ghost use Rattle.pd_salvage_shapes.specs.Tops.{AddsTop, AreTops, FitsTop, IsBegun, TellsTops, made_top, SeesAll, SeesNext, seen_at, top_at};
ghost use Rattle.pd_salvage_shapes.specs.Visiting.{HasTable};

use crate::visiting::{Seen, Visiting};
use pd_image::Device;
use pd_kinds::ThinSuper;
use pd_salvage::{SalvageFault, SavedCursor, SavedDetails, is_inside, lost_details};
use pd_value::{Details, Root};
use std::alloc::{AllocError, Global};

/// A device whose mappings are saved.
#[derive(Clone, Copy)]
pub(crate) struct Top {
    /// The number of the device.
    pub(crate) id: u64,
    /// The root of its mappings.
    pub(crate) root: u64,
    /// Its details, or those that stand for lost ones.
    pub(crate) details: Details,
}

/// A device with these details, but for their mapped number.
fn make_top(id: u64, root: u64, details: Details) -> Top
    ensures is { result ≡ made_top id root details }
    ensures fits { FitsTop result }
{
    Top {
        id,
        root,
        details: Details {
            mapped: 0,
            ..details
        },
    }
}

/// Adds the device with this id and root.
fn add_top<D: Device>(
    found: &mut Vec<Top>,
    details: &mut SavedDetails,
    dev: &mut D,
    s: &ThinSuper,
    id: u64,
    root: u64,
) -> Result<(), SalvageFault>
    requires attached { IsAttached (D.state dev.old) }
    requires within { details_room details.old ≤ (D.state dev.old).blocks }
    ensures adds { OnOk result (AddsTop (D.state dev.old).held s.now id root details.old details.new found.old.items found.new.items) }
    ensures room { details_room details.new ≡ details_room details.old }
    ensures kept { OnlyReads (D.state dev.old) (D.state dev.new) }
    ensures faults { CountsSalvage result (D.state dev.old).faults (D.state dev.new).faults }
{
    let lost = lost_details(s.transaction, s.time);
    let own = details.find_or(dev, id, lost)?;
    found.push(make_top(id, root, own))?;
    Ok(())
}

/// The devices of the pool with this superblock, by ascending id.
pub(crate) fn read_tops<D: Device>(
    alloc: Global,
    dev: &mut D,
    s: &ThinSuper,
) -> Result<Vec<Top>, SalvageFault>
    requires attached { IsAttached (D.state dev.old) }
    requires within { s.now.meta_map.blocks ≤ (D.state dev.old).blocks }
    ensures lawful { IfOk result (λ tops. AreTops 0 tops.items) }
    ensures told { IfOk result (λ tops. IfSome (D.state dev.old).held (λ image. TellsTops s.now image tops.items)) }
    ensures kept { OnlyReads (D.state dev.old) (D.state dev.new) }
    ensures faults { CountsSalvage result (D.state dev.old).faults (D.state dev.new).faults }
{
    let (mut tops, mut details) = start(alloc, s)?;
    let mut found = Vec::new(alloc);
    while let Some((id, root)) = tops.next(dev)? {
        if is_inside(root.0, s.meta_map.blocks) {
            add_top(&mut found, &mut details, dev, s, id, root.0)?;
        }
    }
    Ok(found)
}

/// The cursors over the mapping tree and the details tree of the pool with this superblock.
fn start(alloc: Global, s: &ThinSuper) -> Result<(SavedCursor<Root>, SavedDetails), AllocError>
    ensures { IfOk result (λ both. IsBegun s.now both.0 both.1) }
{
    let nr = s.meta_map.blocks;
    let tops = SavedCursor::start(alloc, nr, s.mapping_root)?;
    let details = SavedDetails::start(alloc, nr, s.details_root)?;
    Ok((tops, details))
}

// What is met of devices (`thin_repair`, `thin_shrink`).

/// What is met of each of these devices. For one with the root of the device before it that is what was met of that one.
pub(crate) fn see_all<D: Device>(
    alloc: Global,
    visiting: &mut Visiting,
    dev: &mut D,
    tops: &[Top],
) -> Result<Vec<Seen>, SalvageFault>
    requires attached { IsAttached (D.state dev.old) }
    requires within { visiting.old.s.meta_map.blocks ≤ (D.state dev.old).blocks }
    requires table { HasTable visiting.old }
    ensures sees { IfOk result (λ seen. SeesAll (D.state dev.old).held tops.now seen.items visiting.old visiting.new) }
    ensures kept { OnlyReads (D.state dev.old) (D.state dev.new) }
    ensures faults { CountsSalvage result (D.state dev.old).faults (D.state dev.new).faults }
{
    let mut seen = Vec::new(alloc);
    for i in 0..tops.len() {
        see_next(alloc, visiting, dev, tops, i, &mut seen)?;
    }
    Ok(seen)
}

/// Adds what is met of the device with this number, behind what was met of those before it.
fn see_next<D: Device>(
    alloc: Global,
    visiting: &mut Visiting,
    dev: &mut D,
    tops: &[Top],
    i: usize,
    seen: &mut Vec<Seen>,
) -> Result<(), SalvageFault>
    requires attached { IsAttached (D.state dev.old) }
    requires within { visiting.old.s.meta_map.blocks ≤ (D.state dev.old).blocks }
    requires table { HasTable visiting.old }
    requires device { i < length tops.now }
    requires number { length seen.old.items ≡ i }
    ensures sees { OnOk result (SeesNext (D.state dev.old).held tops.now i seen.old.items seen.new.items visiting.old visiting.new) }
    ensures kept { OnlyReads (D.state dev.old) (D.state dev.new) }
    ensures faults { CountsSalvage result (D.state dev.old).faults (D.state dev.new).faults }
{
    if let Some(k) = same_before(tops, i) {
        see_again(alloc, seen, k)?;
        return Ok(());
    }
    let one = visiting.see(dev, tops[i].root)?;
    seen.push(one)?;
    Ok(())
}

/// The number of the device before this one, if that has the same root.
fn same_before(tops: &[Top], i: usize) -> Option<usize>
    requires { i < length tops.now }
    ensures { IfSome result (λ k. (k < i) × ((top_at tops.now k).root ≡ (top_at tops.now i).root)) }
{
    if i == 0 {
        return None;
    }
    let same = tops[i - 1].root == tops[i].root;
    if same { Some(i - 1) } else { None }
}

/// Adds what was met of the device with this number once more.
fn see_again(alloc: Global, seen: &mut Vec<Seen>, k: usize) -> Result<(), AllocError>
    requires { k < length seen.old.items }
    ensures { OnOk result (seen.new.items ≡ seen.old.items ++ seen_at seen.old.items k ∷ []) }
{
    let one = seen[k].copy(alloc)?;
    seen.push(one)?;
    Ok(())
}
