//! The shape of what can be saved of a pool (`thin_repair`, `thin_shrink`).

ghost use Rattle.std.specs.Prelude.{◌≡◌, ◌^◌, ◌≤◌, IfOk, IfSome, length, ◌++◌, OnOk};
ghost use Rattle.std.specs.List.{AllByRecursion};
ghost use Rattle.pd_laid.specs.Salvage.{saved_shape_from};
ghost use Rattle.pd_image.specs.Device.{IsAttached, OnlyReads};
ghost use Rattle.pd_salvage.specs.Saved.{CountsSalvage};
ghost use Rattle.pd_salvage.specs.SavedShape.{held_shape};
ghost use Rattle.pd_salvage_shapes.specs.SeenShape.{seen_shape};
ghost use Rattle.pd_salvage_shapes.specs.Tops.{AreTops};
ghost use Rattle.pd_salvage_shapes.specs.Visiting.{HasTable, IsSeen};
ghost use Rattle.pd_salvage_shapes.specs.Pieces.{AreCountedNotes, AreNamed, IsSharing};

use crate::note::LeafNote;
use crate::pieces::shape_devices;
use crate::tops::{Top, read_tops, see_all};
use crate::uses::count_all;
use crate::visiting::{Seen, Visiting};
use pd_image::Device;
use pd_kinds::ThinSuper;
use pd_meaning_thin::PackedRuns;
use pd_salvage::{SalvageFault, SavedLeaf, SavedShape, head_of};
use std::alloc::{AllocError, Global};

/// What is saved of the pool with this superblock, with the leaves that its devices share.
///
/// An inner node is read at most once for each device and range of keys that isn't empty, and not again while it still
/// stands in the place of its depth. A leaf is read once, and once more for each range that cuts it. For a device with the
/// root of the device before it no block is read. While this works, the runs of each leaf that one device alone met are held
/// once, and those of any other at most twice. Each leaf takes some 160 bytes more, and of each device the numbers of the leaves
/// that it met: 8 bytes for those in a row. Room for the pieces is taken at once: 4 bytes for each leaf that a device met.
///
/// Fails with `Device` where a read failed, and with `Memory` where memory wasn't found.
pub fn salvage_shape<D: Device>(
    alloc: Global,
    dev: &mut D,
    s: &ThinSuper,
) -> Result<SavedShape, SalvageFault>
    requires attached { IsAttached (D.state dev.old) }
    requires within { s.now.meta_map.blocks ≤ (D.state dev.old).blocks }
    requires few { s.now.meta_map.blocks ≤ 4161600 }
    requires data { s.now.data_map.blocks ≤ 2 ^ 40 }
    ensures saved { IfOk result (λ saved. IfSome (D.state dev.old).held (λ image. held_shape saved ≡ saved_shape_from s.now image)) }
    ensures kept { OnlyReads (D.state dev.old) (D.state dev.new) }
    ensures faults { CountsSalvage result (D.state dev.old).faults (D.state dev.new).faults }
{
    let tops = read_tops(alloc, dev, s)?;
    let mut visiting = Visiting::start(alloc, s)?;
    let mut seen = see_all(alloc, &mut visiting, dev, tops.as_slice())?;
    Ok(shape_of(alloc, visiting, tops.as_slice(), seen.as_mut_slice())?)
}

/// The shape of what was met of these devices, which it uses up.
fn shape_of(
    alloc: Global,
    visiting: Visiting,
    tops: &[Top],
    seen: &mut [Seen],
) -> Result<SavedShape, AllocError>
    requires few { visiting.s.meta_map.blocks ≤ 4161600 }
    requires data { visiting.s.data_map.blocks ≤ 2 ^ 40 }
    requires table { HasTable visiting }
    requires each { length seen.old ≡ length tops.now }
    requires seen { AllByRecursion (IsSeen visiting.s.data_map.blocks visiting.notes.items) seen.old }
    requires tops { AreTops 0 tops.now }
    ensures { IfOk result (λ shape. held_shape shape
        ≡ seen_shape visiting.s visiting.places.items visiting.notes.items tops.now seen.old) }
{
    let mut visiting = visiting;
    let notes = visiting.notes.as_slice();
    let places = visiting.places.as_slice();
    let uses = count_all(alloc, visiting.s.meta_map.blocks, notes, seen)?;
    let shared = share(alloc, uses.as_slice(), places, notes)?;
    let notes = visiting.notes.as_mut_slice();
    let shaped = shape_devices(alloc, notes, shared.numbers.as_slice(), tops, seen)?;
    Ok(SavedShape::of_parts(
        head_of(&visiting.s),
        shared.leaves,
        shared.runs,
        shaped.devices,
        shaped.piecing.pieces,
        shaped.piecing.runs,
    ))
}

// The leaves that devices share (`thin_repair`, `thin_shrink`).

/// The shared leaves, by ascending block.
#[derive(Drop)]
pub(crate) struct SharedLeaves {
    /// By block one above the number of its leaf among the shared ones, or 0.
    pub(crate) numbers: Vec<u32>,
    pub(crate) leaves: Vec<SavedLeaf>,
    /// The runs of all of them.
    pub(crate) runs: PackedRuns,
}

impl SharedLeaves {
    ghost use Rattle.std.specs.Prelude.{◌≡◌, ◌∷◌, ◌++◌, [], OnOk};
    ghost use Rattle.pd_salvage_shapes.specs.Pieces.{AddsLeaf};

    /// Adds a leaf that isn't shared.
    fn skip(&mut self) -> Result<(), AllocError>
        ensures { OnOk result ((self.new.numbers.items ≡ self.old.numbers.items ++ 0 ∷ [])
            × (self.new.leaves ≡ self.old.leaves) × (self.new.runs ≡ self.old.runs)) }
    {
        self.numbers.push(0)?;
        Ok(())
    }

    /// Adds a shared leaf.
    fn add(&mut self, note: &LeafNote) -> Result<(), AllocError>
        ensures { OnOk result (AddsLeaf note.now self.old self.new) }
    {
        self.leaves.push(SavedLeaf {
            entries: note.entries,
            runs: note.runs.len(),
        })?;
        add_runs(&mut self.runs, &note.runs)?;
        let number = match u32::try_from(self.leaves.len()) {
            Ok(number) => number,
            Err(_) => return Err(AllocError),
        };
        self.numbers.push(number)?;
        Ok(())
    }
}

impl SharedLeaves {
    ghost use Rattle.std.specs.Prelude.{◌≡◌, ◌+◌, ◌<◌, length, OnOk};
    ghost use Rattle.pd_salvage_shapes.specs.Pieces.{AreCountedNotes, AreNamed, IsSharing};

    /// Takes the leaf of the next block.
    fn take(
        &mut self,
        uses: &[u8],
        places: &[u32],
        notes: &[LeafNote],
        b: usize,
    ) -> Result<(), AllocError>
        requires places { length uses.now ≡ length places.now }
        requires named { AreNamed uses.now places.now notes.now }
        requires counted { AreCountedNotes notes.now }
        requires within { b < length uses.now }
        ensures { OnOk result (IsSharing uses.now places.now notes.now self.old b
            → IsSharing uses.now places.now notes.now self.new (b + 1)) }
    {
        if uses[b] != 2 {
            self.skip()?;
            return Ok(());
        }
        self.add(&notes[places[b] as usize - 1])?;
        Ok(())
    }
}

/// Adds runs behind others.
fn add_runs(runs: &mut PackedRuns, more: &PackedRuns) -> Result<(), AllocError>
    ensures { OnOk result (runs.new ≡ runs.old ++ more.now) }
{
    let mut place = more.first();
    while let Some(run) = more.next(&mut place) {
        runs.push(run)?;
    }
    Ok(())
}

/// The shared leaves: those that are used twice or more.
pub(crate) fn share(
    alloc: Global,
    uses: &[u8],
    places: &[u32],
    notes: &[LeafNote],
) -> Result<SharedLeaves, AllocError>
    requires places { length uses.now ≡ length places.now }
    requires named { AreNamed uses.now places.now notes.now }
    requires counted { AreCountedNotes notes.now }
    ensures { IfOk result (λ shared. IsSharing uses.now places.now notes.now shared (length uses.now)) }
{
    let mut shared = SharedLeaves {
        numbers: Vec::new(alloc),
        leaves: Vec::new(alloc),
        runs: PackedRuns::new(alloc),
    };
    for b in 0..uses.len() {
        shared.take(uses, places, notes, b)?;
    }
    Ok(shared)
}
