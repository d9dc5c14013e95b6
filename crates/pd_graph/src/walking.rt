//! The walk over all that block 0 leads to.

ghost use Rattle.std.specs.Prelude.{◌≡◌, ℕ, ◌+◌, ◌≤◌, List, length, is_ok, OnOk, IfSome, ◌⊎◌, ◌<◌, slice_get};
ghost use Rattle.pd_kinds.specs.Objects.{CountsFault};
ghost use Rattle.pd_kinds.specs.Graph.{is_reached, nodes};
ghost use Rattle.pd_kinds.specs.declared.rule.Rule.{Rule};
ghost use Rattle.pd_kinds.specs.Rule.{has_rule};
ghost use Rattle.pd_image.specs.Device.{IsAttached, OnlyReads};
ghost use Rattle.pd_graph.specs.Marks.{HasPlaces, read_of, is_in};
ghost use Rattle.pd_graph.specs.Notes.{size_of, note_in, ends_note};
ghost use Rattle.pd_graph.specs.Audit.{blocks_of, has_walked, note_at, IsNew};
ghost use Rattle.pd_graph.specs.Walk.{IsWalked, AreLeavesNoted, HasNotedLeaves, IsSafe, IsTold, IsDone, read_number, NotesLeaf, NotesNone};
ghost use Rattle.pd_graph.specs.Format.{no_pairs};

use crate::audit::Audit;
use crate::format::{Format, NoWatch, Watch};
use crate::marks::Marks;
use crate::notes::{Note, Notes};
use pd_image::{Device, Failed};
use pd_kinds::{Block, Rules};

/// Reads every reachable block once in each of its roles, and marks in the audit the roles in which it
/// was met, the rules that it breaks, and the references to it. It notes the leaves of trees that break no
/// rule: a block that is met in two roles has the note of one of them. It takes no memory.
///
/// After `Failed` the audit may not be used again.
pub fn walk<F: Format, D: Device>(audit: &mut Audit, format: &F, dev: &mut D) -> Result<(), Failed>
    requires fresh { IsNew (F.graph format.now).nr audit.old }
    requires attached { IsAttached (D.state dev.old) }
    requires within { (F.graph format.now).nr ≤ (D.state dev.old).blocks }
    ensures walked { has_walked audit.new ≡ is_ok result }
    ensures marks { OnOk result (IfSome (D.state dev.old).held (λ image. IsWalked (F.graph format.now) image audit.new)) }
    ensures number { blocks_of audit.new ≡ blocks_of audit.old }
    ensures leaves { OnOk result (IfSome (D.state dev.old).held (λ image. HasNotedLeaves (F.graph format.now) image audit.new)) }

    // Also where a read failed, and whatever the device gives.
    ensures notes { (b : ℕ) → (note_at audit.new b).height ≤ 1 }

    // At most one read for each reachable pair, also where one failed.
    ensures reads { IfSome (D.state dev.old).held
        (λ image. (D.state dev.new).reads ≤ (D.state dev.old).reads + length (nodes (F.graph format.now) image)) }
    ensures kept { OnlyReads (D.state dev.old) (D.state dev.new) }
    ensures faults { CountsFault result (D.state dev.old).faults (D.state dev.new).faults }
{
    walk_watched(audit, format, dev, &mut NoWatch)
}

/// Does what `walk` does, and shows each block to the watcher, in each role, when it is read.
///
/// After `Failed` the audit may not be used again.
pub fn walk_watched<F: Format, D: Device, W: Watch>(
    audit: &mut Audit,
    format: &F,
    dev: &mut D,
    watch: &mut W,
) -> Result<(), Failed>
    requires fresh { IsNew (F.graph format.now).nr audit.old }
    requires attached { IsAttached (D.state dev.old) }
    requires within { (F.graph format.now).nr ≤ (D.state dev.old).blocks }
    requires room { W.has_room watch.old (F.graph format.now) }
    requires unseen { (image : List (List ℕ)) → W.has_seen watch.old (F.graph format.now) image no_pairs }
    ensures walked { has_walked audit.new ≡ is_ok result }
    ensures marks { OnOk result (IfSome (D.state dev.old).held (λ image. IsWalked (F.graph format.now) image audit.new)) }
    ensures number { blocks_of audit.new ≡ blocks_of audit.old }
    ensures leaves { OnOk result (IfSome (D.state dev.old).held (λ image. HasNotedLeaves (F.graph format.now) image audit.new)) }

    ensures seen { OnOk result (IfSome (D.state dev.old).held
        (λ image. W.has_seen watch.new (F.graph format.now) image (is_reached (F.graph format.now) image))) }
    ensures room { W.has_room watch.new (F.graph format.now) }

    // Also where a read failed, and whatever the device gives.
    ensures notes { (b : ℕ) → (note_at audit.new b).height ≤ 1 }

    // At most one read for each reachable pair, also where one failed.
    ensures reads { IfSome (D.state dev.old).held
        (λ image. (D.state dev.new).reads ≤ (D.state dev.old).reads + length (nodes (F.graph format.now) image)) }
    ensures kept { OnlyReads (D.state dev.old) (D.state dev.new) }
    ensures faults { CountsFault result (D.state dev.old).faults (D.state dev.new).faults }
{
    audit.marks.meet(0, 0);
    read_all(&mut audit.marks, &mut audit.notes, format, dev, watch)?;
    audit.walked = true;
    Ok(())
}

/// Reads each pair that was met and not yet read, follows its edges, notes it where it is a leaf, and shows it to the
/// watcher, until there is none.
fn read_all<F: Format, D: Device, W: Watch>(
    marks: &mut Marks,
    notes: &mut Notes,
    format: &F,
    dev: &mut D,
    watch: &mut W,
) -> Result<(), Failed>
    requires safe { IsSafe (F.graph format.now) marks.old }
    requires told { IfSome (D.state dev.old).held (λ image. IsTold (F.graph format.now) image marks.old) }
    requires fresh { read_number (F.graph format.now).nr marks.old ≡ 0 }
    requires leaves { IfSome (D.state dev.old).held (λ image.
        AreLeavesNoted (F.graph format.now) image (is_in (read_of marks.old)) (note_in notes.old)) }
    requires notes { (b : ℕ) → (note_in notes.old b).height ≤ 1 }
    requires number { size_of notes.old ≡ (F.graph format.now).nr }
    requires seen { IfSome (D.state dev.old).held (λ image. W.has_seen watch.old (F.graph format.now) image (is_in (read_of marks.old))) }
    requires room { W.has_room watch.old (F.graph format.now) }
    requires attached { IsAttached (D.state dev.old) }
    requires within { (F.graph format.now).nr ≤ (D.state dev.old).blocks }
    ensures places { HasPlaces (F.graph format.now).nr marks.new }
    ensures done { OnOk result (IfSome (D.state dev.old).held (λ image. IsDone (F.graph format.now) image marks.new)) }
    ensures leaves { OnOk result (IfSome (D.state dev.old).held (λ image.
        AreLeavesNoted (F.graph format.now) image (is_in (read_of marks.new)) (note_in notes.new))) }
    ensures notes { (b : ℕ) → (note_in notes.new b).height ≤ 1 }
    ensures number { size_of notes.new ≡ size_of notes.old }
    ensures seen { OnOk result (IfSome (D.state dev.old).held
        (λ image. W.has_seen watch.new (F.graph format.now) image (is_in (read_of marks.new)))) }
    ensures room { W.has_room watch.new (F.graph format.now) }
    ensures reads { IfSome (D.state dev.old).held
        (λ image. (D.state dev.new).reads ≤ (D.state dev.old).reads + length (nodes (F.graph format.now) image)) }
    ensures kept { OnlyReads (D.state dev.old) (D.state dev.new) }
    ensures faults { CountsFault result (D.state dev.old).faults (D.state dev.new).faults }
{
    let mut block = Block::zeros();
    while let Some((b, role)) = marks.take() {
        dev.read(b, &mut block)?;
        let broken = format.rules(role, b, &block);
        marks.look(format, role, b, &block, &broken);
        note_leaf(notes, format, role, b, &block, &broken);
        watch.see(format, role, b, &block, &broken);
    }
    Ok(())
}

// The notes of leaves, which the walk has in hand.

/// Key i, where there is one, of so many.
pub fn key_at<F: Format>(
    format: &F,
    role: u8,
    block: &Block,
    number: usize,
    i: usize,
) -> Option<u64>
    requires role { role < F.ROLES }
    requires number { number ≡ length ((F.contents format.now).keys role block.now.0) }
    ensures { result ≡ slice_get ((F.contents format.now).keys role block.now.0) i }
{
    if i < number {
        Some(format.key_of_any(role, block, i))
    } else {
        None
    }
}

/// The note of a node without children: its own keys, of which a sound node has the least first and the
/// greatest last.
pub fn leaf_note<F: Format>(format: &F, role: u8, block: &Block) -> Note
    requires role { role < F.ROLES }
    ensures { result ≡ ends_note ((F.contents format.now).keys role block.now.0) }
{
    let number = format.keys_of_any(role, block);
    let least = key_at(format, role, block, number, 0);
    let greatest = key_at(format, role, block, number, number.saturating_sub(1));
    Note {
        least,
        greatest,
        below: number as u64,
        height: 1,
        in_range: true,
    }
}

/// Notes block b where it is a leaf of a tree in this role, and breaks no rule.
pub(crate) fn note_leaf<F: Format>(
    notes: &mut Notes,
    format: &F,
    role: u8,
    b: u64,
    block: &Block,
    broken: &Rules,
)
    requires role { role < F.ROLES }
    requires within { b < size_of notes.old }
    requires judged { (rule : Rule) → has_rule broken.now rule ≡ (F.graph format.now).bad role b block.now.0 rule }
    ensures notes { NotesLeaf (F.graph format.now) role b block.now.0 (note_in notes.old) (note_in notes.new)
        ⊎ NotesNone (F.graph format.now) role b block.now.0 (note_in notes.old) (note_in notes.new) }
    ensures number { size_of notes.new ≡ size_of notes.old }
{
    let is_sound = broken.is_empty();
    let is_tree = format.is_tree(role);
    let is_leaf = !format.inner_of_any(role, block);
    if is_sound & is_tree & is_leaf {
        notes.set_note(b, leaf_note(format, role, block));
    }
}
