//! The bits of the archived writesets, those of a metadata snapshot too (`era_check`).

ghost use Rattle.std.specs.Prelude.{◌≡◌, ℕ, ◌+◌, ◌/◌, ◌<◌, ◌≤◌, List, IfSome, OnOk};
ghost use Rattle.std.specs.List.{AllByRecursion, flat_map};
ghost use Rattle.pd_kinds.specs.EraFormat.{writeset_root};
ghost use Rattle.pd_kinds.specs.Objects.{CountsFault};
ghost use Rattle.pd_kinds.specs.Graph.{Graph};
ghost use Rattle.pd_kinds.specs.Layout.{leaf_entries};
ghost use Rattle.pd_kinds.specs.Node.{Entry};
ghost use Rattle.pd_kinds.specs.Stages.{IsReached};
ghost use Rattle.pd_kinds.specs.Whole.{array_whole, reached_writesets, writeset_array};
ghost use Rattle.pd_image.specs.Device.{IsAttached, OnlyReads};
ghost use Rattle.pd_graph.specs.Audit.{blocks_of, KeepsButRules};
ghost use Rattle.pd_tree.specs.Search.{HasEraTrees};
ghost use Rattle.pd_check.specs.Refs.{number_in};
ghost use Rattle.pd_check.specs.Known.{Charges};
ghost use Rattle.pd_check.specs.Arrays.{AreMarked, HasArrays};
ghost use Rattle.pd_era.specs.Whole.{bits as bits_of, set_tests, sets_at, IsSnap, eras as eras_of, snap_eras, snap_reads};

use crate::whole::{bits, eras};
use pd_check::{ArrayMarks, check_array};
use pd_graph::{Audit, has_role};
use pd_image::{Device, Failed};
use pd_kinds::{Block, era_role};
use pd_node::{entries, is_inner, value};
use pd_supers::read_era_super;
use pd_tree::edges_lead_to_reached_pairs;
use pd_value::Writeset;

/// The number of bits in a word.
const WORD_BITS: u64 = 64;

/// How many words hold so many bits.
fn words_for(bits: u32) -> u64
    ensures { result ≡ (bits + 63) / 64 }
{
    (u64::from(bits) + (WORD_BITS - 1)) / WORD_BITS
}

/// Gives the root of a writeset's bits, of which there are so many, the rules Index and Length, where it breaks them. It
/// reads nothing.
pub(crate) fn check_writeset(marks: &ArrayMarks, audit: &mut Audit, number: u32, root: u64)
    ensures charges { (graph : Graph) (image : List (List ℕ)) → HasArrays graph image audit.old bits_of
        → AreMarked graph image bits_of marks.now → IsReached graph image root 3
        → Charges (array_whole graph image (writeset_array number root)) audit.old audit.new }
    ensures rules { KeepsButRules audit.old audit.new }
{
    check_array(audit, marks, bits(), root, Some(words_for(number)));
}

/// Does so for each entry of a leaf of archived writesets.
fn check_leaf(marks: &ArrayMarks, audit: &mut Audit, block: &Block)
    ensures charges { (graph : Graph) (image : List (List ℕ)) → HasArrays graph image audit.old bits_of
        → AreMarked graph image bits_of marks.now
        → AllByRecursion (λ (e : Entry). IsReached graph image (writeset_root e.value) 3) (leaf_entries 12 block.now.0)
        → Charges (set_tests graph image (leaf_entries 12 block.now.0)) audit.old audit.new }
    ensures rules { KeepsButRules audit.old audit.new }
{
    if is_inner(block) {
        return;
    }
    let count = entries::<Writeset>(block);
    for i in 0..count {
        let set = value::<Writeset>(block, i);
        check_writeset(marks, audit, set.bits, set.root);
    }
}

/// Does so for block b, where it was met as a node of a tree of archived writesets.
fn mark_node<D: Device>(
    marks: &ArrayMarks,
    audit: &mut Audit,
    dev: &mut D,
    b: u64,
) -> Result<(), Failed>
    requires attached { IsAttached (D.state dev.old) }
    requires block { b < blocks_of audit.old }
    requires within { blocks_of audit.old ≤ (D.state dev.old).blocks }
    ensures charges { OnOk result (IfSome (D.state dev.old).held (λ image. (graph : Graph) → HasArrays graph image audit.old bits_of
        → HasEraTrees graph → AreMarked graph image bits_of marks.now
        → Charges (set_tests graph image (sets_at graph image b)) audit.old audit.new)) }
    ensures reads { (D.state dev.new).reads + number_in audit.old 2 b ≤ (D.state dev.old).reads + number_in audit.old 2 (b + 1) }
    ensures rules { KeepsButRules audit.old audit.new }
    ensures kept { OnlyReads (D.state dev.old) (D.state dev.new) }
    ensures faults { CountsFault result (D.state dev.old).faults (D.state dev.new).faults }
{
    edges_lead_to_reached_pairs();
    if has_role(audit.roles(b), era_role::WRITESETS) {
        let mut block = Block::zeros();
        dev.read(b, &mut block)?;
        check_leaf(marks, audit, &block);
    }
    Ok(())
}

/// Gives the roots of the bits of all archived writesets the rules Index and Length that they break. Each node of the
/// trees of archived writesets is read once.
pub(crate) fn mark_writesets<D: Device>(
    marks: &ArrayMarks,
    audit: &mut Audit,
    dev: &mut D,
) -> Result<(), Failed>
    requires attached { IsAttached (D.state dev.old) }
    requires within { blocks_of audit.old ≤ (D.state dev.old).blocks }
    ensures charges { OnOk result (IfSome (D.state dev.old).held (λ image. (graph : Graph) → HasArrays graph image audit.old bits_of
        → HasEraTrees graph → AreMarked graph image bits_of marks.now
        → Charges (set_tests graph image (reached_writesets graph image)) audit.old audit.new)) }
    ensures reads { (D.state dev.new).reads ≤ (D.state dev.old).reads + number_in audit.old 2 (blocks_of audit.old) }
    ensures rules { KeepsButRules audit.old audit.new }
    ensures kept { OnlyReads (D.state dev.old) (D.state dev.new) }
    ensures faults { CountsFault result (D.state dev.old).faults (D.state dev.new).faults }
{
    for b in 0..audit.nr() {
        mark_node(marks, audit, dev, b)?;
    }
    Ok(())
}

// The eras that a metadata snapshot names (`era_check`).

/// Gives the root of the eras that the metadata snapshot in this block names the rule Index, where it breaks it; block 0
/// means that there is no snapshot. The snapshot is read once.
pub(crate) fn mark_snap<D: Device>(
    marks: &ArrayMarks,
    audit: &mut Audit,
    dev: &mut D,
    snap: u64,
) -> Result<(), Failed>
    requires attached { IsAttached (D.state dev.old) }
    requires within { blocks_of audit.old ≤ (D.state dev.old).blocks }
    ensures charges { OnOk result (IfSome (D.state dev.old).held (λ image. (graph : Graph) → HasArrays graph image audit.old eras_of
        → AreMarked graph image eras_of marks.now → ((snap ≡ 0 → ⊥) → IsSnap graph image snap)
        → Charges (flat_map (array_whole graph image) (snap_eras image snap)) audit.old audit.new)) }
    ensures reads { (D.state dev.new).reads ≤ (D.state dev.old).reads + snap_reads snap }
    ensures rules { KeepsButRules audit.old audit.new }
    ensures kept { OnlyReads (D.state dev.old) (D.state dev.new) }
    ensures faults { CountsFault result (D.state dev.old).faults (D.state dev.new).faults }
{
    if snap == 0 {
        return Ok(());
    }
    if audit.nr() <= snap {
        return Ok(());
    }
    let mut block = Block::zeros();
    dev.read(snap, &mut block)?;
    let root = read_era_super(&block).array_root;
    check_array(audit, marks, eras(), root, None);
    Ok(())
}
