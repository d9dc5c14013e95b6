//! The pieces of what was met of devices (`thin_repair`, `thin_shrink`).

ghost use Rattle.std.specs.Prelude.{◌≡◌, ◌<◌, ℕ, List, Some, None, true, false, if◌then◌else◌, length, IfOk};
ghost use Rattle.pd_salvage_shapes.specs.Pieces.{AreNumbers, above, number_of_leaf};
ghost use Rattle.pd_salvage_shapes.specs.SeenShape.{AreShaped, AllWithin, AreSized};

use crate::note::LeafNote;
use crate::numbers::Numbers;
use crate::once::{count_meetings, forget_once};
use crate::tops::Top;
use crate::visiting::Seen;
use pd_meaning_thin::PackedRuns;
use pd_salvage::{Joining, PackedPiece, SavedPiece, ShapedDevice, add_piece};
use pd_value::Details;
use std::alloc::{AllocError, Global};
use std::mem;

/// The pieces and the runs that were made, and the piece of a device's own that was begun.
#[derive(Drop)]
pub(crate) struct Piecing {
    pub(crate) pieces: Vec<PackedPiece>,
    pub(crate) runs: PackedRuns,
    joining: Joining,
    /// How many runs there were when the piece was begun.
    first: usize,
}

impl Piecing {
    ghost use Rattle.std.specs.Prelude.{◌≡◌, ◌<◌, List, [], length, IfOk, OnOk};
    ghost use Rattle.pd_kinds.specs.Meaning.{Mapping};
    ghost use Rattle.pd_meaning_thin.specs.declared.joined.Run.{Run};
    ghost use Rattle.pd_salvage.specs.Gather.{IsJoining, Takes, mappings_of_runs};
    ghost use Rattle.pd_salvage_shapes.specs.Once.{KeepsOthers, MeetOnce};
    ghost use Rattle.pd_salvage_shapes.specs.SeenShape.{TakesAt, TakesDevice};
    ghost use Rattle.pd_salvage_shapes.specs.Pieces.{AreRuns, EndsOwn, IsIdle, TakesMet};
    ghost use Rattle.pd_salvage_shapes.specs.SeenShape.{AreSized, AreWithin};

    /// No piece, with room for so many.
    pub(crate) fn with_room(alloc: Global, pieces: usize) -> Result<Piecing, AllocError>
        ensures idle { IfOk result IsIdle }
        ensures none { IfOk result (λ piecing. (piecing.pieces.items ≡ []) × (piecing.runs ≡ [])) }
    {
        Ok(Piecing {
            pieces: Vec::with_capacity(alloc, pieces)?,
            runs: PackedRuns::new(alloc),
            joining: Joining { begun: None },
            first: 0,
        })
    }

    /// Takes runs of a device's own.
    fn take_runs(&mut self, runs: &PackedRuns) -> Result<(), AllocError>
        requires { AreRuns runs.now }
        ensures takes { OnOk result (Takes (mappings_of_runs runs.now) self.old.runs self.new.runs self.old.joining self.new.joining) }
        ensures same { (self.new.pieces ≡ self.old.pieces) × (self.new.first ≡ self.old.first) }
    {
        let mut place = runs.first();
        while let Some(run) = runs.next(&mut place) {
            self.joining.take(&mut self.runs, run)?;
        }
        Ok(())
    }

    /// Ends the begun piece.
    fn end_own(&mut self) -> Result<(), AllocError>
        ensures ends { OnOk result ((before : List Run) (ms : List Mapping)
            → IsJoining before self.old.runs self.old.joining ms → self.old.first ≡ length before
            → EndsOwn self.old self.new before ms) }
        ensures idle { OnOk result (IsIdle self.new) }
    {
        self.joining.end(&mut self.runs)?;
        self.joining = Joining { begun: None };
        let all = self.runs.len();
        let count = match u32::try_from(all.saturating_sub(self.first)) {
            Ok(count) => count,
            Err(_) => return Err(AllocError),
        };
        self.first = all;
        if count > 0 {
            add_piece(&mut self.pieces, SavedPiece::Own(count))?;
        }
        Ok(())
    }

    /// Takes a note: all of the shared leaf with the number below this, or of the device's own where this is 0.
    fn take_met(&mut self, note: &LeafNote, number: u32) -> Result<(), AllocError>
        requires { AreRuns note.now.runs }
        ensures { OnOk result (TakesMet note.now number self.old self.new) }
    {
        if number == 0 {
            self.take_runs(&note.runs)?;
            return Ok(());
        }
        self.end_own()?;
        add_piece(&mut self.pieces, SavedPiece::Shared(number - 1))?;
        Ok(())
    }

    /// Takes the note with this number.
    fn take_at(&mut self, notes: &[LeafNote], numbers: &[u32], k: usize) -> Result<(), AllocError>
        requires sized { AreSized (length numbers.now) notes.now }
        requires within { k < length notes.now }
        ensures { OnOk result (TakesAt notes.now numbers.now k self.old self.new) }
    {
        let note = &notes[k];
        let number = number_of(note, numbers);
        self.take_met(note, number)?;
        Ok(())
    }

    /// Takes all that a device met, and answers how many pieces that is. A note that is said to be met once is forgotten.
    pub(crate) fn take_device(
        &mut self,
        alloc: Global,
        notes: &mut [LeafNote],
        numbers: &[u32],
        times: &[u8],
        met: &[u32],
    ) -> Result<usize, AllocError>
        requires sized { AreSized (length numbers.now) notes.old }
        requires within { AreWithin notes.old met.now }
        requires once { MeetOnce times.now met.now }
        requires idle { IsIdle self.old }
        ensures takes { IfOk result (λ count. TakesDevice notes.old numbers.now met.now count self.old self.new) }
        ensures others { OnOk result (KeepsOthers times.now met.now notes.old notes.new) }
        ensures sized { OnOk result (AreSized (length numbers.now) notes.new) }
    {
        let before = self.pieces.len();
        for k in met {
            self.take_at(notes, numbers, *k as usize)?;
            forget_once(alloc, notes, times, *k as usize);
        }
        Self::end_own(self)?;
        Ok(self.pieces.len().saturating_sub(before))
    }
}

/// One above the number of a note's leaf among the shared ones, or 0.
fn number_of(note: &LeafNote, numbers: &[u32]) -> u32
    requires { note.now.full ≡ true → note.now.block < length numbers.now }
    ensures number { (ones : List ℕ) → AreNumbers ones numbers.now
        → result ≡ above (number_of_leaf ones (if note.now.full then Some note.now.block else None)) }
    ensures whole { note.now.full ≡ false → result ≡ 0 }
{
    if !note.full {
        return 0;
    }
    numbers[note.block as usize]
}

// Devices with their pieces (`thin_repair`, `thin_shrink`).

/// Devices, and the pieces and runs of all of them.
#[derive(Drop)]
pub(crate) struct ShapedDevices {
    pub(crate) devices: Vec<ShapedDevice>,
    pub(crate) piecing: Piecing,
}

impl ShapedDevices {
    ghost use Rattle.std.specs.Prelude.{length, OnOk};
    ghost use Rattle.pd_salvage_shapes.specs.Once.{KeepsOthers, MeetOnce};
    ghost use Rattle.pd_salvage_shapes.specs.SeenShape.{AddsDevice};
    ghost use Rattle.pd_salvage_shapes.specs.Pieces.{IsIdle};
    ghost use Rattle.pd_salvage_shapes.specs.SeenShape.{AreSized, AreWithin};

    /// Adds a device with what it met.
    fn add(
        &mut self,
        alloc: Global,
        notes: &mut [LeafNote],
        numbers: &[u32],
        times: &[u8],
        top: &Top,
        seen: &Seen,
    ) -> Result<(), AllocError>
        requires sized { AreSized (length numbers.now) notes.old }
        requires within { AreWithin notes.old seen.now.met }
        requires once { MeetOnce times.now seen.now.met }
        requires idle { IsIdle self.old.piecing }
        ensures adds { OnOk result (AddsDevice notes.old numbers.now top.now seen.now self.old self.new) }
        ensures others { OnOk result (KeepsOthers times.now seen.now.met notes.old notes.new) }
        ensures sized { OnOk result (AreSized (length numbers.now) notes.new) }
    {
        let met = seen.met.list(alloc)?;
        let pieces = self
            .piecing
            .take_device(alloc, notes, numbers, times, met.as_slice())?;
        self.devices.push(ShapedDevice {
            id: top.id,
            details: Details {
                mapped: seen.mapped,
                transaction: top.details.transaction,
                created: top.details.created,
                snapped: top.details.snapped,
            },
            pieces,
        })?;
        Ok(())
    }
}

/// How many notes devices met. They have no more pieces.
fn count_met(seen: &[Seen]) -> usize {
    let mut count = 0usize;
    for device in seen {
        count = count.saturating_add(device.met.count());
    }
    count
}

/// The devices with the pieces of what they met. Of each device the list of what it met is freed once its pieces are made, and
/// so are the runs of each note that it alone met.
pub(crate) fn shape_devices(
    alloc: Global,
    notes: &mut [LeafNote],
    numbers: &[u32],
    tops: &[Top],
    seen: &mut [Seen],
) -> Result<ShapedDevices, AllocError>
    requires sized { AreSized (length numbers.now) notes.old }
    requires within { AllWithin notes.old seen.old }
    requires each { length seen.old ≡ length tops.now }
    ensures { IfOk result (λ shaped. (ones : List ℕ) → AreNumbers ones numbers.now → AreShaped ones notes.old tops.now seen.old shaped) }
{
    let times = count_meetings(alloc, notes, seen)?;
    let piecing = Piecing::with_room(alloc, count_met(seen))?;
    let mut shaped = ShapedDevices {
        devices: Vec::new(alloc),
        piecing,
    };
    for i in 0..tops.len() {
        let none = Seen {
            met: Numbers::none(alloc),
            mapped: 0,
        };
        let one = mem::replace(&mut seen[i], none);
        shaped.add(alloc, notes, numbers, times.as_slice(), &tops[i], &one)?;
    }
    Ok(shaped)
}
