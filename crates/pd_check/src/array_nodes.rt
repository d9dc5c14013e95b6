//! The marks of the nodes of arrays' trees, by rising height.

ghost use Rattle.std.specs.Prelude.{◌≡◌, ℕ, ◌+◌, ◌<◌, ◌≤◌, true, length, slice_get, Some, OnOk, IfSome};
ghost use Rattle.pd_kinds.specs.Objects.{CountsFault};
ghost use Rattle.pd_image.specs.Device.{IsAttached, OnlyReads};
ghost use Rattle.pd_graph.specs.Marks.{has_bit};
ghost use Rattle.pd_graph.specs.Audit.{blocks_of, note_at, roles_at};
ghost use Rattle.pd_settle.specs.Looking.{blocks_of_edges};
ghost use Rattle.pd_check.specs.Arrays.{joined, no_mark, mark_at, places_of, AreMarkedTo, HasArrays};
ghost use Rattle.pd_check.specs.Arrays.{KeepsBlocks, is_at, is_under, number_where};

use crate::array_marks::{ArrayMark, ArrayMarks};
use crate::array_rules::ArrayRoles;
use pd_graph::{Audit, Format, has_role};
use pd_image::{Device, Failed};
use pd_kinds::Block;
use pd_tree::{edges_lead_to_reached_pairs, reached_trees_are_sound};

/// The greatest height of a node that isn't deep.
const MAX_HEIGHT: u8 = 64;

/// One more than the height of block b, where it was met in the role and isn't deep; else 0.
fn levels_at(audit: &Audit, role: u8, b: u64) -> u8
    requires role { role < 16 }
    requires block { b < blocks_of audit.now }
    ensures few { result ≤ 65 }
    ensures above { has_bit (roles_at audit.now b) role ≡ true → (note_at audit.now b).height ≤ 64 → (note_at audit.now b).height < result }
{
    if !has_role(audit.roles(b), role) {
        return 0;
    }
    let height = audit.note(b).height;
    if height <= MAX_HEIGHT { height + 1 } else { 0 }
}

/// One more than the greatest height of the blocks that were met in the role and aren't deep.
pub(crate) fn levels(audit: &Audit, role: u8) -> u8
    requires { role < 16 }
    ensures few { result ≤ 65 }
    ensures above { (b : ℕ) → b < blocks_of audit.now → has_bit (roles_at audit.now b) role ≡ true
        → (note_at audit.now b).height ≤ 64 → (note_at audit.now b).height < result }
{
    let mut levels = 0;
    for b in 0..audit.nr() {
        levels = levels.max(levels_at(audit, role, b));
    }
    levels
}

/// Block i of those that a node's bytes name.
fn named_at<F: Format>(format: &F, role: u8, block: &Block, i: usize) -> u64
    requires role { role < F.ROLES }
    requires within { i < length ((F.contents format.now).edges role block.now.0) }
    ensures { slice_get (blocks_of_edges ((F.contents format.now).edges role block.now.0)) i ≡ Some result }
{
    format.edge_of_any(role, block, i).1
}

/// The marks of all blocks that a node's bytes name, one after another, where a full block has so many words.
fn mark_below<F: Format>(
    marks: &ArrayMarks,
    format: &F,
    role: u8,
    block: &Block,
    most: usize,
) -> ArrayMark
    requires { role < F.ROLES }
    ensures { result ≡ joined most (mark_at marks.now) no_mark (blocks_of_edges ((F.contents format.now).edges role block.now.0)) }
{
    let mut mark = ArrayMark::none();
    for i in 0..format.edges_of_any(role, block) {
        let named = named_at(format, role, block, i);
        mark = mark.join(marks.get(named), most);
    }
    mark
}

/// Whether block b was met in the role, with a note of this height.
fn is_node_at(audit: &Audit, role: u8, height: u8, b: u64) -> bool
    requires role { role < 16 }
    requires block { b < blocks_of audit.now }
    ensures { result ≡ is_at audit.now role height b }
{
    if has_role(audit.roles(b), role) {
        audit.note(b).height == height
    } else {
        false
    }
}

/// Marks block b, where it is a node of an array's tree of this height: all blocks that it names were marked before. The
/// node is read into the block that is lent.
fn mark_node<F: Format, D: Device>(
    marks: &mut ArrayMarks,
    audit: &Audit,
    format: &F,
    dev: &mut D,
    roles: ArrayRoles,
    height: u8,
    b: u64,
    block: &mut Block,
) -> Result<(), Failed>
    requires attached { IsAttached (D.state dev.old) }
    requires number { blocks_of audit.now ≡ (F.graph format.now).nr }
    requires block { b < blocks_of audit.now }
    requires places { places_of marks.old ≡ blocks_of audit.now }
    requires within { blocks_of audit.now ≤ (D.state dev.old).blocks }
    requires nodes { roles.nodes < F.ROLES }
    requires few { roles.nodes < 16 }
    ensures marked { OnOk result (IfSome (D.state dev.old).held (λ image. HasArrays (F.graph format.now) image audit.now roles
        → AreMarkedTo (F.graph format.now) image audit.now roles height b marks.old
        → AreMarkedTo (F.graph format.now) image audit.now roles height (b + 1) marks.new)) }
    ensures blocks { KeepsBlocks audit.now roles marks.old marks.new }
    ensures places { places_of marks.new ≡ places_of marks.old }
    ensures reads { (D.state dev.new).reads + number_where (is_at audit.now roles.nodes height) b
        ≤ (D.state dev.old).reads + number_where (is_at audit.now roles.nodes height) (b + 1) }
    ensures kept { OnlyReads (D.state dev.old) (D.state dev.new) }
    ensures faults { CountsFault result (D.state dev.old).faults (D.state dev.new).faults }
{
    edges_lead_to_reached_pairs();
    reached_trees_are_sound();
    if is_node_at(audit, roles.nodes, height, b) {
        dev.read(b, block)?;
        let mark = mark_below(marks, format, roles.nodes, block, roles.word.max_words());
        marks.set(b, mark);
    }
    Ok(())
}

/// Marks all nodes of arrays' trees of this height, where those of lower heights were marked.
pub(crate) fn mark_level<F: Format, D: Device>(
    marks: &mut ArrayMarks,
    audit: &Audit,
    format: &F,
    dev: &mut D,
    roles: ArrayRoles,
    height: u8,
) -> Result<(), Failed>
    requires attached { IsAttached (D.state dev.old) }
    requires number { blocks_of audit.now ≡ (F.graph format.now).nr }
    requires places { places_of marks.old ≡ blocks_of audit.now }
    requires within { blocks_of audit.now ≤ (D.state dev.old).blocks }
    requires nodes { roles.nodes < F.ROLES }
    requires few { roles.nodes < 16 }
    ensures marked { OnOk result (IfSome (D.state dev.old).held (λ image. HasArrays (F.graph format.now) image audit.now roles
        → AreMarkedTo (F.graph format.now) image audit.now roles height 0 marks.old
        → AreMarkedTo (F.graph format.now) image audit.now roles (height + 1) 0 marks.new)) }
    ensures blocks { KeepsBlocks audit.now roles marks.old marks.new }
    ensures places { places_of marks.new ≡ places_of marks.old }
    ensures reads { (D.state dev.new).reads + number_where (is_under audit.now roles.nodes height) (blocks_of audit.now)
        ≤ (D.state dev.old).reads + number_where (is_under audit.now roles.nodes (height + 1)) (blocks_of audit.now) }
    ensures kept { OnlyReads (D.state dev.old) (D.state dev.new) }
    ensures faults { CountsFault result (D.state dev.old).faults (D.state dev.new).faults }
{
    let mut block = Block::zeros();
    for b in 0..audit.nr() {
        mark_node(marks, audit, format, dev, roles, height, b, &mut block)?;
    }
    Ok(())
}
