//! Notes that are met once, which are forgotten once they were taken (`thin_repair`, `thin_shrink`).

ghost use Rattle.std.specs.Prelude.{◌≡◌, ℕ, ◌<◌, ◌++◌, ◌∷◌, ◌==◌, List, [], length, slice_index, IfOk, OnOk};
ghost use Rattle.pd_salvage_shapes.specs.Once.{KeepsOthers, all_met};
ghost use Rattle.pd_salvage_shapes.specs.SeenShape.{AllWithin, AreSized, AreUses, AreWithin};

use crate::note::{LeafNote, no_note};
use crate::uses::count_use;
use crate::visiting::Seen;
use std::alloc::{AllocError, Global};

/// Counts the notes with these numbers.
fn count_numbers(times: &mut [u8], notes: &[LeafNote], met: &[u32])
    requires each { length times.old ≡ length notes.now }
    requires within { AreWithin notes.now met.now }
    ensures counted { (before : List ℕ) → AreUses before times.old → AreUses (before ++ met.now) times.new }
    ensures same { length times.new ≡ length times.old }
{
    for k in met {
        count_use(times, u64::from(*k));
    }
}

/// Counts the notes that devices met. Want of memory is the only error.
fn count_all_numbers(
    alloc: Global,
    times: &mut [u8],
    notes: &[LeafNote],
    seen: &[Seen],
) -> Result<(), AllocError>
    requires each { length times.old ≡ length notes.now }
    requires within { AllWithin notes.now seen.now }
    requires none { AreUses [] times.old }
    ensures counted { OnOk result (AreUses (all_met seen.now) times.new) }
    ensures same { length times.new ≡ length times.old }
{
    for device in seen {
        let met = device.met.list(alloc)?;
        count_numbers(times, notes, met.as_slice());
    }
    Ok(())
}

/// How often each note is met by these devices: 2 stands for more, too.
pub(crate) fn count_meetings(
    alloc: Global,
    notes: &[LeafNote],
    seen: &[Seen],
) -> Result<Vec<u8>, AllocError>
    requires { AllWithin notes.now seen.now }
    ensures { IfOk result (λ times. AreUses (all_met seen.now) times.items) }
{
    let mut times = Vec::new(alloc);
    times.resize(notes.len(), 0)?;
    count_all_numbers(alloc, times.as_mut_slice(), notes, seen)?;
    Ok(times)
}

/// Whether the note with this number is said to be met once.
fn is_once(times: &[u8], k: usize) -> bool
    ensures { result ≡ (slice_index times.now k == 1) }
{
    match times.get(k) {
        Some(number) => *number == 1,
        None => false,
    }
}

/// Forgets the note with this number, where it is said to be met once.
pub(crate) fn forget_once(alloc: Global, notes: &mut [LeafNote], times: &[u8], k: usize)
    requires { k < length notes.old }
    ensures others { KeepsOthers times.now (k ∷ []) notes.old notes.new }
    ensures sized { (blocks : ℕ) → AreSized blocks notes.old → AreSized blocks notes.new }
{
    if !is_once(times, k) {
        return;
    }
    notes[k] = no_note(alloc, 0);
}
