//! The settling of a check: all nodes of trees, block after block.

ghost use Rattle.std.specs.Prelude.{◌≡◌, ℕ, ◌+◌, ◌*◌, ◌<◌, ◌≤◌, ◌==◌, ◌||◌, ◌&&◌, nat_lt, true, false};
ghost use Rattle.std.specs.Prelude.{length, is_ok, OnOk, IfSome, IfNone, if◌then◌else◌};
ghost use Rattle.pd_kinds.specs.declared.rule.Rule.{Rule};
ghost use Rattle.pd_kinds.specs.Objects.{CountsFault};
ghost use Rattle.pd_image.specs.Device.{IsAttached, OnlyReads};
ghost use Rattle.pd_graph.specs.Marks.{has_bit};
ghost use Rattle.pd_graph.specs.Notes.{no_note, size_of, note_in};
ghost use Rattle.pd_graph.specs.Walk.{IsWalked, HasNotedLeaves};
ghost use Rattle.pd_graph.specs.Audit.{blocks_of, has_walked, roles_at, has_rule_at, note_at, KeepsButNotes, KeepsButRules};
ghost use Rattle.pd_settle.specs.Settled.{AreSettleable, is_node, IsOrdering, IsClosed, KeepsKnown, HasRoles, steps, inner_nodes};
ghost use Rattle.pd_settle.specs.Settled.{noted_rule, breaks, AreSettled, IsSettled, KeepsMet, KeepsWalk};

use crate::descending::descend;
use crate::looking::keyless;
use pd_graph::{Audit, Format, Note, Notes, has_role};
use pd_image::{Device, Failed};
use pd_kinds::Rule;

/// Forgets what was noted of each block.
pub(crate) fn clear(notes: &mut Notes)
    ensures notes { (b : ℕ) → note_in notes.new b ≡ no_note }
    ensures number { size_of notes.new ≡ size_of notes.old }
{
    let unknown = keyless(0, 0);
    for b in 0..notes.nr() {
        notes.set_note(b, unknown);
    }
}

/// Forgets the note of block b, unless it is that of a leaf.
fn forget_inner_node(notes: &mut Notes, b: u64)
    requires { b < size_of notes.old }
    ensures notes { (c : ℕ) → note_in notes.new c
        ≡ (if (c == b) && nat_lt 1 (note_in notes.old c).height then no_note else note_in notes.old c) }
    ensures number { size_of notes.new ≡ size_of notes.old }
{
    if 1 < notes.note(b).height {
        notes.set_note(b, keyless(0, 0));
    }
}

/// Forgets what was noted of each block but of leaves, as a walk leaves an audit's notes.
fn forget_inner_nodes(notes: &mut Notes)
    ensures low { (b : ℕ) → (note_in notes.new b).height ≤ 1 }
    ensures leaves { (b : ℕ) → (note_in notes.old b).height ≤ 1 → note_in notes.new b ≡ note_in notes.old b }
    ensures number { size_of notes.new ≡ size_of notes.old }
{
    for b in 0..notes.nr() {
        forget_inner_node(notes, b);
    }
}

/// The role in which block b is a node of a tree.
fn tree_role<F: Format>(audit: &Audit, format: &F, b: u64) -> Option<u8>
    requires { b < blocks_of audit.now }
    ensures some { IfSome result (λ role. (role < F.ROLES)
        × (has_bit (roles_at audit.now b) role ≡ true) × ((F.graph format.now).is_tree role ≡ true)) }
    ensures none { IfNone result ((role : ℕ) → role < F.ROLES
        → has_bit (roles_at audit.now b) role ≡ true → (F.graph format.now).is_tree role ≡ false) }
{
    let roles = audit.roles(b);
    if roles == 0 {
        return None;
    }
    for role in 0..F::ROLES {
        if has_role(roles, role) && format.is_tree(role) {
            return Some(role);
        }
    }
    None
}

/// Settles block b and all below it, where it is a node of a tree that nothing is known of.
fn visit<F: Format, D: Device>(
    audit: &mut Audit,
    format: &F,
    dev: &mut D,
    b: u64,
) -> Result<(), Failed>
    requires number { blocks_of audit.old ≡ (F.graph format.now).nr }
    requires block { b < (F.graph format.now).nr }
    requires closed { IsClosed (note_at audit.old) }
    requires attached { IsAttached (D.state dev.old) }
    requires within { (F.graph format.now).nr ≤ (D.state dev.old).blocks }
    ensures ended { OnOk result (IsClosed (note_at audit.new)) }
    ensures marks { KeepsButNotes audit.old audit.new }
    ensures knows { KeepsKnown (note_at audit.old) (note_at audit.new) }
    ensures done { OnOk result ((role : ℕ) → role < F.ROLES
        → has_bit (roles_at audit.old b) role ≡ true → (F.graph format.now).is_tree role ≡ true
        → 1 ≤ (note_at audit.new b).height) }
    ensures told { IfSome (D.state dev.old).held
        (λ image. AreSettleable (F.graph format.now) image (is_node (F.graph format.now) image) (λ c. true)
        → IsOrdering (F.graph format.now) image (is_node (F.graph format.now) image) (λ c. true) false (note_at audit.old)
        → HasRoles (F.graph format.now) image audit.old
        → IsOrdering (F.graph format.now) image (is_node (F.graph format.now) image) (λ c. true) false (note_at audit.new)) }
    ensures reads { (D.state dev.new).reads + steps (F.graph format.now).nr (note_at audit.old)
        ≤ (D.state dev.old).reads + steps (F.graph format.now).nr (note_at audit.new) }
    ensures kept { OnlyReads (D.state dev.old) (D.state dev.new) }
    ensures faults { CountsFault result (D.state dev.old).faults (D.state dev.new).faults }
{
    if audit.note(b).height != 0 {
        return Ok(());
    }
    match tree_role(audit, format, b) {
        Some(role) => descend(&mut audit.notes, format, dev, role, b, false),
        None => Ok(()),
    }
}

/// Settles each node of a tree that nothing is known of.
fn note_each<F: Format, D: Device>(audit: &mut Audit, format: &F, dev: &mut D) -> Result<(), Failed>
    requires number { blocks_of audit.old ≡ (F.graph format.now).nr }
    requires sound { (b : ℕ) (rule : Rule) → b < (F.graph format.now).nr → has_rule_at audit.old b rule ≡ false }
    requires notes { (b : ℕ) → (note_at audit.old b).height ≤ 1 }
    requires attached { IsAttached (D.state dev.old) }
    requires within { (F.graph format.now).nr ≤ (D.state dev.old).blocks }
    ensures settled { OnOk result (IfSome (D.state dev.old).held (λ image. IsWalked (F.graph format.now) image audit.old
        → HasNotedLeaves (F.graph format.now) image audit.old
        → AreSettled (F.graph format.now) image (is_node (F.graph format.now) image) (λ c. true) false (note_at audit.new))) }
    ensures marks { KeepsButNotes audit.old audit.new }
    ensures reads { IfSome (D.state dev.old).held (λ image. IsWalked (F.graph format.now) image audit.old
        → HasNotedLeaves (F.graph format.now) image audit.old
        → (D.state dev.new).reads ≤ (D.state dev.old).reads + 2 * length (inner_nodes (F.graph format.now) image)) }
    ensures kept { OnlyReads (D.state dev.old) (D.state dev.new) }
    ensures faults { CountsFault result (D.state dev.old).faults (D.state dev.new).faults }
{
    for b in 0..audit.nr() {
        visit(audit, format, dev, b)?;
    }
    Ok(())
}

/// The rule of a settled node: Level where it is deep, and Range where a child of it is out of its range.
fn rule_of(note: Note) -> Option<Rule>
    ensures { result ≡ noted_rule note }
{
    if 65 <= note.height {
        Some(Rule::Level)
    } else if note.in_range {
        None
    } else {
        Some(Rule::Range)
    }
}

/// Gives block b the rule of its note.
fn mark(audit: &mut Audit, b: u64)
    requires { b < blocks_of audit.old }
    ensures rules { (c : ℕ) (wanted : Rule) → has_rule_at audit.new c wanted
        ≡ (has_rule_at audit.old c wanted || ((c == b) && breaks (noted_rule (note_at audit.old b)) wanted)) }
    ensures kept { KeepsButRules audit.old audit.new }
{
    if let Some(rule) = rule_of(audit.note(b)) {
        audit.mark(b, rule);
    }
}

/// Gives each block the rule of its note.
fn mark_each(audit: &mut Audit)
    ensures rules { (c : ℕ) (wanted : Rule) → c < blocks_of audit.old → has_rule_at audit.new c wanted
        ≡ (has_rule_at audit.old c wanted || breaks (noted_rule (note_at audit.old c)) wanted) }
    ensures kept { KeepsButRules audit.old audit.new }
{
    for b in 0..audit.nr() {
        mark(audit, b);
    }
}

/// Settles each node of a tree, and gives each block the rule of its note.
fn settle_each<F: Format, D: Device>(
    audit: &mut Audit,
    format: &F,
    dev: &mut D,
) -> Result<(), Failed>
    requires number { blocks_of audit.old ≡ (F.graph format.now).nr }
    requires sound { (b : ℕ) (rule : Rule) → b < (F.graph format.now).nr → has_rule_at audit.old b rule ≡ false }
    requires attached { IsAttached (D.state dev.old) }
    requires within { (F.graph format.now).nr ≤ (D.state dev.old).blocks }
    ensures settled { OnOk result (IfSome (D.state dev.old).held (λ image. IsWalked (F.graph format.now) image audit.old
        → HasNotedLeaves (F.graph format.now) image audit.old → IsSettled (F.graph format.now) image audit.new)) }
    ensures walk { KeepsWalk audit.old audit.new }
    ensures reads { IfSome (D.state dev.old).held (λ image. IsWalked (F.graph format.now) image audit.old
        → HasNotedLeaves (F.graph format.now) image audit.old
        → (D.state dev.new).reads ≤ (D.state dev.old).reads + 2 * length (inner_nodes (F.graph format.now) image)) }
    ensures kept { OnlyReads (D.state dev.old) (D.state dev.new) }
    ensures faults { CountsFault result (D.state dev.old).faults (D.state dev.new).faults }
{
    forget_inner_nodes(&mut audit.notes);
    note_each(audit, format, dev)?;
    mark_each(audit);
    Ok(())
}

/// Marks the blocks of a walked audit with Level and Range, and notes what stands below each node of a
/// tree. The leaves were noted by the walk, and aren't read again. It takes no memory.
///
/// What it says of content holds where the audit has the marks and the notes of the walk of what the device
/// holds; over any other device or audit it is safe. After `Failed` the audit may not be used again.
pub fn settle<F: Format, D: Device>(
    audit: &mut Audit,
    format: &F,
    dev: &mut D,
) -> Result<(), Failed>
    requires walked { has_walked audit.old ≡ true }
    requires number { blocks_of audit.old ≡ (F.graph format.now).nr }
    requires sound { (b : ℕ) (rule : Rule) → b < (F.graph format.now).nr → has_rule_at audit.old b rule ≡ false }
    requires attached { IsAttached (D.state dev.old) }
    requires within { (F.graph format.now).nr ≤ (D.state dev.old).blocks }
    ensures walked { has_walked audit.new ≡ is_ok result }
    ensures settled { OnOk result (IfSome (D.state dev.old).held (λ image. IsWalked (F.graph format.now) image audit.old
        → HasNotedLeaves (F.graph format.now) image audit.old → IsSettled (F.graph format.now) image audit.new)) }
    ensures met { KeepsMet audit.old audit.new }

    // At most two reads for each inner node, also where one failed.
    ensures reads { IfSome (D.state dev.old).held (λ image. IsWalked (F.graph format.now) image audit.old
        → HasNotedLeaves (F.graph format.now) image audit.old
        → (D.state dev.new).reads ≤ (D.state dev.old).reads + 2 * length (inner_nodes (F.graph format.now) image)) }
    ensures kept { OnlyReads (D.state dev.old) (D.state dev.new) }
    ensures faults { CountsFault result (D.state dev.old).faults (D.state dev.new).faults }
{
    match settle_each(audit, format, dev) {
        Ok(()) => Ok(()),
        Err(failed) => {
            audit.give_up();
            Err(failed)
        }
    }
}
