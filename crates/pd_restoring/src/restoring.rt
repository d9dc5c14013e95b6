//! A kind of metadata, as a restore sees it (`thin_restore`, `cache_restore`, `era_restore`).

ghost use Rattle.std.specs.Prelude.{◌≡◌, ◌≤◌, ℕ, List, Option, Some, IfOk, IfErr, MatchResult, is_some};
ghost use Rattle.pd_kinds.specs.Image.{room_of};
ghost use Rattle.pd_kinds.specs.Objects.{SourceState};
ghost use Rattle.pd_image.specs.Device.{IsWritable, KeepsPlace};
ghost use Rattle.pd_image.specs.Source.{KeepsSource};
ghost use Rattle.pd_draft.specs.Closed.{IsClosed, StaysClosed};
ghost use Rattle.pd_draft.specs.DraftState.{draft_state};
ghost use Rattle.pd_restoring.specs.Reading.{BeginsOf, BeginsWith, CountsBegin, IsOfLater, SaysOf};
ghost use Rattle.pd_restoring.specs.Restored.{CountsRestore, Subject, HasVerdicts, Writes, CommitsSynced, Restores, ShutBy, Tries};

use crate::fault::RestoreFault;
use pd_draft::{Draft, clear};
use pd_image::{Device, Source};
use pd_kinds::{Block, MAX_META_BLOCKS};
use std::alloc::Global;

/// A kind of metadata, and in which version it is restored.
pub trait Restoring {
    /// A reader of a text, with what the first two lines say.
    type Begun: Drop;

    /// What a line of a text is in the definitions.
    ghost Line: { Type 0 };

    /// What a text means.
    ghost Meaning: { Type 0 };

    /// What is restored.
    ghost subject: { Self → Subject Line Meaning };

    /// The first two lines, the newest first.
    ghost lines: { Self.Begun → List Line };

    /// They were read, from whatever source.
    ghost Stands: { Self.Begun → Type 0 };

    /// Of this text they were read, and this is left of the source.
    ghost Leaves: { List ℕ → Self.Begun → Option (List ℕ) → Type 0 };

    /// Each text has a verdict.
    ghost verdicts: { (kind : Self) → HasVerdicts (subject kind) };

    /// A text of which they were read begins with them.
    ghost goes_on: { (kind : Self) (text : List ℕ) (begun : Self.Begun) (left : Option (List ℕ)) → Leaves text begun left
        → BeginsWith (subject kind).format text (lines begun) };

    /// Reads the first two lines.
    fn begin<S: Source>(&self, alloc: Global, source: &mut S) -> Result<Self::Begun, RestoreFault>
        requires attached { (S.state source.old).access ≡ 1 }
        ensures stands { IfOk result Stands }
        ensures told { (t : List ℕ) → (S.state source.old).left ≡ Some t
            → MatchResult result (λ begun. Leaves t begun (S.state source.new).left)
            (λ fault. (room : ℕ) → BeginsOf (subject self.now).format (subject self.now).need room t fault) }
        ensures source { KeepsSource (S.state source.old) (S.state source.new) }
        ensures faults { CountsBegin result (S.state source.old).faults (S.state source.new).faults };

    /// How many blocks the first two lines need, of a device with so many for metadata.
    fn need(&self, begun: &Self::Begun, room: u64) -> u64
        requires stands { Stands begun.now }
        requires most { room ≤ 4161600 }
        ensures need { result ≡ (subject self.now).need room (lines begun.now) }
        ensures some { 1 ≤ result };

    /// Reads the other lines, writes all but the superblock, of which block 0 is closed, and answers that.
    fn write<S: Source, D: Device>(
        &self,
        alloc: Global,
        begun: Self::Begun,
        source: &mut S,
        draft: &mut Draft<'_, D>,
        room: u64,
    ) -> Result<Block, RestoreFault>
        requires attached { (S.state source.old).access ≡ 1 }
        requires stands { Stands begun }
        requires place { (draft_state draft.old).place ≡ 1 }
        requires need { (subject self.now).need room (lines begun) ≤ room }
        requires most { room ≤ 4161600 }
        requires there { room ≤ (draft_state draft.old).device.blocks }
        requires writable { IsWritable (draft_state draft.old).device }
        requires closed { IsClosed (draft_state draft.old).device }
        ensures same_reference { draft.new.dev.ghost_name ≡ draft.old.dev.ghost_name }
        ensures writes { IfOk result (Writes (subject self.now) room
            (λ t. Leaves t begun (S.state source.old).left) (S.state source.new).left (draft_state draft.old) (draft_state draft.new)) }
        ensures says { (t : List ℕ) → Leaves t begun (S.state source.old).left
            → IfErr result (SaysOf (subject self.now).format (subject self.now).need room t) }
        ensures later { IfErr result IsOfLater }
        ensures source { KeepsSource (S.state source.old) (S.state source.new) }
        ensures closed { StaysClosed (draft_state draft.old).device (draft_state draft.new).device }
        ensures faults { CountsRestore result (S.state source.old).faults (S.state source.new).faults
            (draft_state draft.old).device.faults (draft_state draft.new).device.faults };
}

// A restore of any kind (`thin_restore`, `cache_restore`, `era_restore`).

/// Restores what a text spells onto a device.
///
/// The device isn't written before the first two lines were accepted and have room. A line's own refusal comes before
/// the want of room after it. Of the blocks of the device 4161600 at most are used. After any fault but the device's
/// own the device is as it was, or has no valid superblock.
pub fn restore<K: Restoring, S: Source, D: Device>(
    kind: &K,
    alloc: Global,
    source: &mut S,
    dev: &mut D,
) -> Result<(), RestoreFault>
    requires attached { (S.state source.old).access ≡ 1 }
    requires writable { IsWritable (D.state dev.old) }
    ensures restored { Restores (K.subject kind.now) result (S.state source.old) (S.state source.new) (D.state dev.old) (D.state dev.new) }
    ensures place { KeepsPlace (D.state dev.old) (D.state dev.new) }
    ensures source { KeepsSource (S.state source.old) (S.state source.new) }
    ensures causes { CountsRestore result (S.state source.old).faults
        (S.state source.new).faults (D.state dev.old).faults (D.state dev.new).faults }
{
    let room = dev.blocks().min(MAX_META_BLOCKS);
    let begun = kind.begin(alloc, source)?;
    restore_begun(kind, alloc, begun, source, dev, room)
}

/// Restores what a text spells whose first two lines were read, from whatever source.
pub fn restore_begun<K: Restoring, S: Source, D: Device>(
    kind: &K,
    alloc: Global,
    begun: K::Begun,
    source: &mut S,
    dev: &mut D,
    room: u64,
) -> Result<(), RestoreFault>
    requires attached { (S.state source.old).access ≡ 1 }
    requires writable { IsWritable (D.state dev.old) }
    requires stands { K.Stands begun }
    requires room { room ≡ room_of (D.state dev.old).blocks }
    ensures restored { (from : SourceState) → ((t : List ℕ) → from.left ≡ Some t → K.Leaves t begun (S.state source.old).left)
        → Restores (K.subject kind.now) result from (S.state source.new) (D.state dev.old) (D.state dev.new) }
    ensures place { KeepsPlace (D.state dev.old) (D.state dev.new) }
    ensures source { KeepsSource (S.state source.old) (S.state source.new) }
    ensures causes { CountsRestore result (S.state source.old).faults
        (S.state source.new).faults (D.state dev.old).faults (D.state dev.new).faults }
{
    let need = kind.need(&begun, room);
    if need > room {
        return Err(RestoreFault::NoRoom { need, blocks: room });
    }
    match clear(dev) {
        Ok(()) => restore_closed(kind, alloc, begun, source, dev, room),
        Err(_) => Err(RestoreFault::Device),
    }
}

/// Restores what a text spells from its third line on, onto a device whose block 0 is closed.
fn restore_closed<K: Restoring, S: Source, D: Device>(
    kind: &K,
    alloc: Global,
    begun: K::Begun,
    source: &mut S,
    dev: &mut D,
    room: u64,
) -> Result<(), RestoreFault>
    requires attached { (S.state source.old).access ≡ 1 }
    requires writable { IsWritable (D.state dev.old) }
    requires closed { IsClosed (D.state dev.old) }
    requires stands { K.Stands begun }
    requires need { (K.subject kind.now).need room (K.lines begun) ≤ room }
    requires most { room ≤ 4161600 }
    requires some { 1 ≤ room }
    requires there { room ≤ (D.state dev.old).blocks }
    ensures tries { MatchResult result
        (λ _. CommitsSynced (K.subject kind.now) room
        (λ t. K.Leaves t begun (S.state source.old).left) (S.state source.new).left (D.state dev.old) (D.state dev.new))
        (λ _. Tries (K.subject kind.now) room (λ t.
        K.Leaves t begun (S.state source.old).left) (S.state source.new).left (D.state dev.old) (D.state dev.new)) }
    ensures shut { IfErr result (λ fault. ShutBy fault (D.state dev.old) (D.state dev.new)) }
    ensures says { (t : List ℕ) → K.Leaves t begun (S.state source.old).left
        → IfErr result (SaysOf (K.subject kind.now).format (K.subject kind.now).need room t) }
    ensures later { IfErr result IsOfLater }
    ensures told { is_some (D.state dev.new).held ≡ is_some (D.state dev.old).held }
    ensures source { KeepsSource (S.state source.old) (S.state source.new) }
    ensures kept { KeepsPlace (D.state dev.old) (D.state dev.new) }
    ensures faults { CountsRestore result (S.state source.old).faults
        (S.state source.new).faults (D.state dev.old).faults (D.state dev.new).faults }
{
    let mut draft = Draft::on_closed(dev);
    let block = kind.write(alloc, begun, source, &mut draft, room)?;
    match draft.commit(&block) {
        Ok(()) => Ok(()),
        Err(_) => Err(RestoreFault::Device),
    }
}
