//! The rules of a whole era target, where no block has a rule up to the order of the trees (`era_check`).

ghost use Rattle.std.specs.Prelude.{◌≡◌, ℕ, ◌+◌, ◌≤◌, ◌++◌, [], ◌∷◌, List, IfSome, OnOk};
ghost use Rattle.std.specs.List.{flat_map};
ghost use Rattle.pd_kinds.specs.Objects.{CountsFault};
ghost use Rattle.pd_kinds.specs.Graph.{Graph};
ghost use Rattle.pd_kinds.specs.Stages.{IsReached};
ghost use Rattle.pd_kinds.specs.Whole.{array_whole, reached_writesets};
ghost use Rattle.pd_image.specs.Device.{IsAttached, OnlyReads};
ghost use Rattle.pd_graph.specs.Audit.{blocks_of, KeepsButRules};
ghost use Rattle.pd_check.specs.Refs.{number_in};
ghost use Rattle.pd_check.specs.Known.{Charges};
ghost use Rattle.pd_check.specs.Arrays.{places_of, AreAllCounted, AreCounted, AreMarked, HasArrays, KeepsBlocks, array_of, kind_reads};
ghost use Rattle.pd_era.specs.Whole.{IsReady, arrays, bits as bits_of, current_bits, eras as eras_of};
ghost use Rattle.pd_era.specs.Whole.{set_tests, snap_eras, snap_reads, tests_named, whole_reads};

use crate::writesets::{check_writeset, mark_snap, mark_writesets};
use pd_array::Word;
use pd_check::{ArrayMarks, ArrayRoles, check_array, fill_marks, mark_shared};
use pd_graph::{Audit, Format};
use pd_image::{Device, Failed};
use pd_kinds::{EraSuper, era_role};

/// The arrays of the eras of all blocks.
pub(crate) fn eras() -> ArrayRoles
    ensures { result ≡ eras_of }
{
    ArrayRoles {
        nodes: era_role::ERA_NODE,
        blocks: era_role::ERA_BLOCK,
        word: Word::Four,
    }
}

/// The arrays of the bits of writesets.
pub(crate) fn bits() -> ArrayRoles
    ensures { result ≡ bits_of }
{
    ArrayRoles {
        nodes: era_role::BIT_NODE,
        blocks: era_role::BIT_BLOCK,
        word: Word::Eight,
    }
}

/// Gives the roots of the eras, the target's and the snapshot's, the rules Index and Length that they break.
fn mark_eras<F: Format, D: Device>(
    marks: &mut ArrayMarks,
    audit: &mut Audit,
    format: &F,
    dev: &mut D,
    fields: &EraSuper,
) -> Result<(), Failed>
    requires attached { IsAttached (D.state dev.old) }
    requires number { blocks_of audit.old ≡ (F.graph format.now).nr }
    requires places { places_of marks.old ≡ blocks_of audit.old }
    requires within { blocks_of audit.old ≤ (D.state dev.old).blocks }
    requires roles { F.ROLES ≡ 10 }
    ensures charges { OnOk result (IfSome (D.state dev.old).held (λ image. IsReady (F.graph format.now) image audit.old fields.now
        → AreCounted (F.graph format.now) image eras_of marks.old
        → Charges (flat_map (array_whole (F.graph format.now) image) (array_of eras_of fields.now.array_root (fields.now.blocks ∷ [])
        ∷ snap_eras image fields.now.snap_root)) audit.old audit.new)) }
    ensures blocks { KeepsBlocks audit.old eras_of marks.old marks.new }
    ensures places { places_of marks.new ≡ places_of marks.old }
    ensures reads { (D.state dev.new).reads ≤ (D.state dev.old).reads + (kind_reads audit.old eras_of + snap_reads fields.now.snap_root) }
    ensures rules { KeepsButRules audit.old audit.new }
    ensures kept { OnlyReads (D.state dev.old) (D.state dev.new) }
    ensures faults { CountsFault result (D.state dev.old).faults (D.state dev.new).faults }
{
    fill_marks(marks, audit, format, dev, eras())?;
    let words = u64::from(fields.blocks);
    check_array(audit, marks, eras(), fields.array_root, Some(words));
    mark_snap(marks, audit, dev, fields.snap_root)
}

/// Gives the root of the current writeset's bits the rules Index and Length, where it breaks them, and where there is
/// one. It reads nothing.
fn check_current(marks: &ArrayMarks, audit: &mut Audit, number: u32, root: u64)
    ensures charges { (graph : Graph) (image : List (List ℕ)) → HasArrays graph image audit.old bits_of
        → AreMarked graph image bits_of marks.now → ((root ≡ 0 → ⊥) → IsReached graph image root 3)
        → Charges (flat_map (array_whole graph image) (current_bits number root)) audit.old audit.new }
    ensures rules { KeepsButRules audit.old audit.new }
{
    if root != 0 {
        check_writeset(marks, audit, number, root);
    }
}

/// Gives the roots of the bits of all writesets, current and archived, the rules Index and Length that they break.
fn mark_bits<F: Format, D: Device>(
    marks: &mut ArrayMarks,
    audit: &mut Audit,
    format: &F,
    dev: &mut D,
    fields: &EraSuper,
) -> Result<(), Failed>
    requires attached { IsAttached (D.state dev.old) }
    requires number { blocks_of audit.old ≡ (F.graph format.now).nr }
    requires places { places_of marks.old ≡ blocks_of audit.old }
    requires within { blocks_of audit.old ≤ (D.state dev.old).blocks }
    requires roles { F.ROLES ≡ 10 }
    ensures charges { OnOk result (IfSome (D.state dev.old).held (λ image. IsReady (F.graph format.now) image audit.old fields.now
        → AreCounted (F.graph format.now) image bits_of marks.old
        → Charges (flat_map (array_whole (F.graph format.now) image) (current_bits fields.now.current_bits fields.now.current_root)
        ++ set_tests (F.graph format.now) image (reached_writesets (F.graph format.now) image)) audit.old audit.new)) }
    ensures reads { (D.state dev.new).reads ≤ (D.state dev.old).reads
        + (kind_reads audit.old bits_of + number_in audit.old 2 (blocks_of audit.old)) }
    ensures rules { KeepsButRules audit.old audit.new }
    ensures kept { OnlyReads (D.state dev.old) (D.state dev.new) }
    ensures faults { CountsFault result (D.state dev.old).faults (D.state dev.new).faults }
{
    fill_marks(marks, audit, format, dev, bits())?;
    check_current(marks, audit, fields.current_bits, fields.current_root);
    mark_writesets(marks, audit, dev)
}

/// Gives each block the rules of the whole era target that it breaks, where these are the superblock's fields. It takes
/// no memory.
pub(crate) fn mark_era<F: Format, D: Device>(
    marks: &mut ArrayMarks,
    fields: &EraSuper,
    format: &F,
    audit: &mut Audit,
    dev: &mut D,
) -> Result<(), Failed>
    requires attached { IsAttached (D.state dev.old) }
    requires number { blocks_of audit.old ≡ (F.graph format.now).nr }
    requires places { places_of marks.old ≡ blocks_of audit.old }
    requires within { blocks_of audit.old ≤ (D.state dev.old).blocks }
    requires roles { F.ROLES ≡ 10 }
    ensures charges { OnOk result (IfSome (D.state dev.old).held (λ image. IsReady (F.graph format.now) image audit.old fields.now
        → AreAllCounted arrays (F.graph format.now) image marks.old
        → Charges (tests_named (F.graph format.now) image fields.now) audit.old audit.new)) }
    ensures reads { (D.state dev.new).reads ≤ (D.state dev.old).reads + whole_reads audit.old fields.now }
    ensures rules { KeepsButRules audit.old audit.new }
    ensures kept { OnlyReads (D.state dev.old) (D.state dev.new) }
    ensures faults { CountsFault result (D.state dev.old).faults (D.state dev.new).faults }
{
    mark_shared(audit, era_role::META_BITMAP);
    mark_eras(marks, audit, format, dev, fields)?;
    mark_bits(marks, audit, format, dev, fields)
}
