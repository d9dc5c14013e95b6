//! The settling of all blocks in one role, whatever leads to them, as a search for the roots of trees wants it.

ghost use Rattle.std.specs.Prelude.{◌≡◌, ℕ, ◌+◌, ◌*◌, ◌<◌, ◌≤◌, ◌==◌, ◌&&◌, Bool, true, not, nat_lt, length, OnOk, IfSome, if◌then◌else◌};
ghost use Rattle.pd_kinds.specs.Objects.{CountsFault};
ghost use Rattle.pd_kinds.specs.Graph.{pair};
ghost use Rattle.pd_image.specs.Device.{IsAttached, OnlyReads};
ghost use Rattle.pd_graph.specs.Notes.{size_of, note_in};
ghost use Rattle.pd_settle.specs.Settled.{AreSettleable, IsOrdering, IsClosed, KeepsKnown, steps, is_fit, AreFit, AreSettledIn};
ghost use Rattle.pd_settle.specs.Looking.{bad_note};

use crate::descending::descend;
use crate::looking::keyless;
use crate::settling::clear;
use pd_graph::{Format, Notes, has_role};
use pd_image::{Device, Failed};

/// Notes block b as bad, unless it is fit.
fn rule_out(notes: &mut Notes, b: u64, fits: bool)
    requires { b < size_of notes.old }
    ensures notes { (c : ℕ) → note_in notes.new c ≡ (if (c == b) && not fits then bad_note else note_in notes.old c) }
    ensures number { size_of notes.new ≡ size_of notes.old }
{
    if !fits {
        notes.set_note(b, keyless(0, 65));
    }
}

/// Notes each block as bad that isn't fit for the role: so it won't be read.
fn rule_out_each(notes: &mut Notes, role: u8, fit: &[u16])
    requires role { role < 16 }
    requires places { length fit.now ≡ size_of notes.old }
    ensures notes { (c : ℕ) → note_in notes.new c
        ≡ (if nat_lt c (size_of notes.old) && not (is_fit fit.now role c) then bad_note else note_in notes.old c) }
    ensures number { size_of notes.new ≡ size_of notes.old }
{
    for b in 0..notes.nr() {
        let fits = has_role(fit[b as usize], role);
        rule_out(notes, b, fits);
    }
}

/// Settles block b and all below it, where nothing is known of it.
fn settle_from<F: Format, D: Device>(
    notes: &mut Notes,
    format: &F,
    dev: &mut D,
    role: u8,
    b: u64,
) -> Result<(), Failed>
    requires role { role < F.ROLES }
    requires number { size_of notes.old ≡ (F.graph format.now).nr }
    requires block { b < (F.graph format.now).nr }
    requires closed { IsClosed (note_in notes.old) }
    requires attached { IsAttached (D.state dev.old) }
    requires within { (F.graph format.now).nr ≤ (D.state dev.old).blocks }
    ensures ended { OnOk result (IsClosed (note_in notes.new)) }
    ensures number { size_of notes.new ≡ size_of notes.old }
    ensures knows { KeepsKnown (note_in notes.old) (note_in notes.new) }
    ensures started { 1 ≤ (note_in notes.new b).height }
    ensures told { IfSome (D.state dev.old).held (λ image. (nodes fit : ℕ → Bool) → AreSettleable (F.graph format.now) image nodes fit
        → IsOrdering (F.graph format.now) image nodes fit true (note_in notes.old) → nodes (pair b role) ≡ true
        → IsOrdering (F.graph format.now) image nodes fit true (note_in notes.new)) }
    ensures reads { (D.state dev.new).reads + steps (F.graph format.now).nr (note_in notes.old)
        ≤ (D.state dev.old).reads + steps (F.graph format.now).nr (note_in notes.new) }
    ensures kept { OnlyReads (D.state dev.old) (D.state dev.new) }
    ensures faults { CountsFault result (D.state dev.old).faults (D.state dev.new).faults }
{
    if notes.note(b).height != 0 {
        return Ok(());
    }
    descend(notes, format, dev, role, b, true)
}

/// Settles each block as a node of this role, whatever leads to it. The table has a set of roles for each block, as
/// those of an audit; only the blocks that it has in this role are fit: any other is noted as bad, and isn't read.
///
/// Afterwards the height of a block is at most 64 exactly where it is good: it is fit, it isn't deep, the keys below
/// each child are in its range, and each child is good too. Then its note tells of the keys below it. It takes no
/// memory, and forgets all that was noted before.
///
/// What it says of content holds where the device tells what it holds, and each fit block breaks no rule of its own in
/// this role; over any other device or table it is safe.
pub fn settle_role<F: Format, D: Device>(
    notes: &mut Notes,
    format: &F,
    dev: &mut D,
    role: u8,
    fit: &[u16],
) -> Result<(), Failed>
    requires role { role < F.ROLES }
    requires number { size_of notes.old ≡ (F.graph format.now).nr }
    requires places { length fit.now ≡ (F.graph format.now).nr }
    requires attached { IsAttached (D.state dev.old) }
    requires within { (F.graph format.now).nr ≤ (D.state dev.old).blocks }
    ensures settled { OnOk result (IfSome (D.state dev.old).held (λ image. AreFit (F.graph format.now) image role (is_fit fit.now role)
        → AreSettledIn (F.graph format.now) image role (is_fit fit.now role) notes.new)) }
    ensures number { size_of notes.new ≡ size_of notes.old }

    // At most two reads for each block, also where one failed.
    ensures reads { (D.state dev.new).reads ≤ (D.state dev.old).reads + 2 * (F.graph format.now).nr }
    ensures kept { OnlyReads (D.state dev.old) (D.state dev.new) }
    ensures faults { CountsFault result (D.state dev.old).faults (D.state dev.new).faults }
{
    clear(notes);
    rule_out_each(notes, role, fit);
    for b in 0..notes.nr() {
        settle_from(notes, format, dev, role, b)?;
    }
    Ok(())
}
