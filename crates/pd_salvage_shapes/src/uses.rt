//! How often leaves are met whole (`thin_repair`, `thin_shrink`).

ghost use Rattle.std.specs.Prelude.{◌≡◌, ℕ, ◌+◌, ◌<◌, ◌≤◌, ◌++◌, ◌∷◌, List, [], true, length, min, replicate, IfOk, OnOk};
ghost use Rattle.pd_salvage_shapes.specs.Note.{met_of_note, noted};
ghost use Rattle.pd_salvage_shapes.specs.SeenShape.{AllWithin, AreSized, AreUses, AreWithin, all_mets, leaves_of};
ghost use Rattle.pd_salvage_shapes.specs.Visiting.{mets_of};

use crate::note::LeafNote;
use crate::visiting::Seen;
use std::alloc::{AllocError, Global};

/// A number of uses after one more: 2 stands for more of them too.
fn next_use(uses: u8) -> u8
    ensures { result ≡ min 2 (uses + 1) }
{
    if uses == 0 { 1 } else { 2 }
}

/// Counts one more use of a block, or of a note.
pub(crate) fn count_use(uses: &mut [u8], block: u64)
    requires { block < length uses.old }
    ensures counted { (blocks : List ℕ) → AreUses blocks uses.old → AreUses (blocks ++ block ∷ []) uses.new }
    ensures same { length uses.new ≡ length uses.old }
{
    let place = block as usize;
    let next = next_use(uses[place]);
    uses[place] = next;
}

/// Counts what a note met.
fn count_note(uses: &mut [u8], note: &LeafNote)
    requires within { note.now.full ≡ true → note.now.block < length uses.old }
    requires some { note.now.full ≡ true → 1 ≤ length (noted note.now) }
    ensures counted { (blocks : List ℕ) → AreUses blocks uses.old → AreUses (blocks ++ leaves_of (met_of_note note.now)) uses.new }
    ensures same { length uses.new ≡ length uses.old }
{
    if !note.full {
        return;
    }
    count_use(uses, note.block);
}

/// Counts what a device met.
fn count_device(uses: &mut [u8], notes: &[LeafNote], met: &[u32])
    requires sized { AreSized (length uses.old) notes.now }
    requires within { AreWithin notes.now met.now }
    ensures counted { (blocks : List ℕ) → AreUses blocks uses.old → AreUses (blocks ++ leaves_of (mets_of notes.now met.now)) uses.new }
    ensures same { length uses.new ≡ length uses.old }
{
    for k in met {
        count_note(uses, &notes[*k as usize]);
    }
}

/// Counts what devices met. Want of memory is the only error.
fn count_devices(
    alloc: Global,
    uses: &mut [u8],
    notes: &[LeafNote],
    seen: &[Seen],
) -> Result<(), AllocError>
    requires sized { AreSized (length uses.old) notes.now }
    requires within { AllWithin notes.now seen.now }
    requires none { AreUses [] uses.old }
    ensures counted { OnOk result (AreUses (leaves_of (all_mets notes.now seen.now)) uses.new) }
    ensures same { length uses.new ≡ length uses.old }
{
    for device in seen {
        let met = device.met.list(alloc)?;
        count_device(uses, notes, met.as_slice());
    }
    Ok(())
}

/// Counts what devices met, for so many blocks.
pub(crate) fn count_all(
    alloc: Global,
    blocks: u64,
    notes: &[LeafNote],
    seen: &[Seen],
) -> Result<Vec<u8>, AllocError>
    requires few { blocks ≤ 4161600 }
    requires sized { AreSized blocks notes.now }
    requires within { AllWithin notes.now seen.now }
    ensures counted { IfOk result (λ uses. AreUses (leaves_of (all_mets notes.now seen.now)) uses.items) }
    ensures number { IfOk result (λ uses. length uses.items ≡ blocks) }
{
    let mut uses = no_uses(alloc, blocks)?;
    count_devices(alloc, uses.as_mut_slice(), notes, seen)?;
    Ok(uses)
}

/// No use of so many blocks.
fn no_uses(alloc: Global, blocks: u64) -> Result<Vec<u8>, AllocError>
    requires { blocks ≤ 4161600 }
    ensures { IfOk result (λ uses. uses.items ≡ replicate blocks 0) }
{
    let mut uses = Vec::new(alloc);
    uses.resize(blocks as usize, 0)?;
    Ok(uses)
}
