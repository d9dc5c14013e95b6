//! The rules Index and Length at the root of an array.
//! The marks of all nodes of the trees of one kind of arrays.
//! The roles of one kind of array in a format.

ghost use Rattle.std.specs.Prelude.{◌≡◌, ℕ, ◌+◌, ◌-◌, ◌*◌, ◌<◌, ◌==◌, ◌≤◌, false, List, length, IfSome, OnOk};
ghost use Rattle.std.specs.List.{AllByRecursion};
ghost use Rattle.pd_kinds.specs.Objects.{CountsFault};
ghost use Rattle.pd_kinds.specs.Graph.{Graph, is_reached};
ghost use Rattle.pd_kinds.specs.Stages.{IsReached};
ghost use Rattle.pd_kinds.specs.Whole.{array_whole, array_words, is_array_index_bad};
ghost use Rattle.pd_kinds.specs.Layout.{Layout};
ghost use Rattle.pd_image.specs.Device.{IsAttached, OnlyReads};
ghost use Rattle.pd_graph.specs.Audit.{blocks_of, KeepsButRules};
ghost use Rattle.pd_graph.specs.declared.audit.Audit.{Audit as TheAudit};
ghost use Rattle.pd_check.specs.Known.{Charges, IsKnown};
ghost use Rattle.pd_check.specs.declared.array_rules.ArrayRoles.{ArrayRoles as Kind};
ghost use Rattle.pd_check.specs.Arrays.{places_of, kind_reads, AreCounted, AreMarked, HasArrays, KeepsBlocks};
ghost use Rattle.pd_check.specs.Arrays.{array_of, lengths_of, AreAllCounted, AreAllShown, HasWords};
ghost use Rattle.pd_check.specs.declared.array_marks.ArrayMarks.{ArrayMarks as Marks};

use crate::array_marks::ArrayMarks;
use crate::array_nodes::{levels, mark_level};
use crate::charging::{charge, is_counting};
use pd_array::Word;
use pd_graph::{Audit, Format};
use pd_image::{Device, Failed};
use pd_kinds::Rule;

/// Whether the array with this root breaks the rule Index: its block indices don't count from 0, or a block but the
/// last isn't full. It reads nothing.
pub fn is_index_bad(marks: &ArrayMarks, audit: &Audit, root: u64) -> bool
    requires { root < blocks_of audit.now }
    ensures { (graph : Graph) (image : List (List ℕ)) (roles : Kind) (lengths : List ℕ) → HasArrays graph image audit.now roles
        → AreMarked graph image roles marks.now → IsReached graph image root roles.nodes
        → result ≡ is_array_index_bad graph image (array_of roles root lengths) }
{
    let counts = is_counting(audit, root, audit.note(root).below);
    let filled = marks.get(root).full;
    !counts | !filled
}

/// How many words so many blocks have, at least one, of which each but the last has the most that there is room for.
fn words_in(blocks: u64, last: u16, most: usize) -> u128
    ensures { result ≡ (blocks - 1) * most + last }
{
    u128::from(blocks.saturating_sub(1)) * most as u128 + u128::from(last)
}

/// Whether the array with this root has so many words, where it doesn't break the rule Index. It reads nothing.
pub fn has_words(marks: &ArrayMarks, audit: &Audit, root: u64, word: Word, words: u64) -> bool
    requires { root < blocks_of audit.now }
    ensures { (graph : Graph) (image : List (List ℕ)) (roles : Kind) (lengths : List ℕ) → HasArrays graph image audit.now roles
        → AreMarked graph image roles marks.now → IsReached graph image root roles.nodes → roles.word ≡ word
        → is_array_index_bad graph image (array_of roles root lengths) ≡ false
        → result ≡ (length (array_words graph image (array_of roles root lengths)) == words) }
{
    let blocks = audit.note(root).below;
    match marks.get(root).last {
        Some(last) => words_in(blocks, last, word.max_words()) == u128::from(words),
        None => words == 0,
    }
}

/// Gives the root of an array the rules Index and Length, where it breaks them: it must have so many words, where a
/// number is given, and Length is looked at only where Index holds. It reads nothing.
pub fn check_array(
    audit: &mut Audit,
    marks: &ArrayMarks,
    roles: ArrayRoles,
    root: u64,
    words: Option<u64>,
)
    ensures charges { (graph : Graph) (image : List (List ℕ)) → HasArrays graph image audit.old roles
        → AreMarked graph image roles marks.now → IsReached graph image root roles.nodes
        → Charges (array_whole graph image (array_of roles root (lengths_of words))) audit.old audit.new }
    ensures rules { KeepsButRules audit.old audit.new }
{
    if audit.nr() <= root {
        return;
    }
    let index_bad = is_index_bad(marks, audit, root);
    charge(audit, root, Rule::Index, index_bad);
    if let Some(number) = words {
        let right = has_words(marks, audit, root, roles.word, number);
        charge(audit, root, Rule::Length, !index_bad & !right);
    }
}

/// Marks the nodes of the trees of one kind of arrays, and gives the root of one of them the rules Index and Length, where
/// it breaks them: it must have so many words, where a number is given. It takes no memory.
///
/// What it says of content holds where the audit knows what the device holds, and nothing there is out of order; over
/// any other device or audit it is safe.
pub fn mark_array<F: Format, D: Device>(
    marks: &mut ArrayMarks,
    audit: &mut Audit,
    format: &F,
    dev: &mut D,
    roles: ArrayRoles,
    root: u64,
    words: Option<u64>,
) -> Result<(), Failed>
    requires attached { IsAttached (D.state dev.old) }
    requires number { blocks_of audit.old ≡ (F.graph format.now).nr }
    requires places { places_of marks.old ≡ blocks_of audit.old }
    requires within { blocks_of audit.old ≤ (D.state dev.old).blocks }
    requires nodes { roles.nodes < F.ROLES }
    ensures charges { OnOk result (IfSome (D.state dev.old).held (λ image. HasArrays (F.graph format.now) image audit.old roles
        → AreCounted (F.graph format.now) image roles marks.old → IsReached (F.graph format.now) image root roles.nodes
        → Charges (array_whole (F.graph format.now) image (array_of roles root (lengths_of words))) audit.old audit.new)) }
    ensures blocks { KeepsBlocks audit.old roles marks.old marks.new }
    ensures places { places_of marks.new ≡ places_of marks.old }

    // Each node is read once at most, also where a read failed.
    ensures reads { (D.state dev.new).reads ≤ (D.state dev.old).reads + kind_reads audit.old roles }
    ensures rules { KeepsButRules audit.old audit.new }
    ensures kept { OnlyReads (D.state dev.old) (D.state dev.new) }
    ensures faults { CountsFault result (D.state dev.old).faults (D.state dev.new).faults }
{
    fill_marks(marks, audit, format, dev, roles)?;
    check_array(audit, marks, roles, root, words);
    Ok(())
}

/// Where an audit knows each reached block in one role, and the marks were shown all that is reached, the mark of each
/// block of arrays is that of its words.
pub fn shown_blocks_are_counted()
    ensures { (graph : Graph) (image : List (List ℕ)) (audit : TheAudit) (layout : ℕ → Layout) (kinds : List Kind) (marks : Marks)
        → IsKnown graph image audit
        → AllByRecursion (HasWords layout) kinds
        → AreAllShown layout image (is_reached graph image) marks → AreAllCounted kinds graph image marks }
{}

/// Marks each node of the trees of one kind of arrays, where the blocks of the arrays were marked: the marks of other
/// blocks stay. It takes no memory.
///
/// What it says of content holds where the audit knows what the device holds, and nothing there is out of order; over
/// any other device or audit it is safe. After `Failed` the marks may not be used.
pub fn fill_marks<F: Format, D: Device>(
    marks: &mut ArrayMarks,
    audit: &Audit,
    format: &F,
    dev: &mut D,
    roles: ArrayRoles,
) -> Result<(), Failed>
    requires attached { IsAttached (D.state dev.old) }
    requires number { blocks_of audit.now ≡ (F.graph format.now).nr }
    requires places { places_of marks.old ≡ blocks_of audit.now }
    requires within { blocks_of audit.now ≤ (D.state dev.old).blocks }
    requires nodes { roles.nodes < F.ROLES }
    ensures marked { OnOk result (IfSome (D.state dev.old).held (λ image. HasArrays (F.graph format.now) image audit.now roles
        → AreCounted (F.graph format.now) image roles marks.old → AreMarked (F.graph format.now) image roles marks.new)) }
    ensures blocks { KeepsBlocks audit.now roles marks.old marks.new }
    ensures places { places_of marks.new ≡ places_of marks.old }

    // Each node is read once at most, also where a read failed.
    ensures reads { (D.state dev.new).reads ≤ (D.state dev.old).reads + kind_reads audit.now roles }
    ensures kept { OnlyReads (D.state dev.old) (D.state dev.new) }
    ensures faults { CountsFault result (D.state dev.old).faults (D.state dev.new).faults }
{
    for height in 0..levels(audit, roles.nodes) {
        mark_level(marks, audit, format, dev, roles, height)?;
    }
    Ok(())
}

/// The arrays of one kind in a format: the role of the nodes of their trees, that of their blocks, and the size of
/// their words.
#[derive(Clone, Copy, Debug, PartialEq, Eq)]
pub struct ArrayRoles {
    /// The role of the nodes of the trees, whose entries name the blocks.
    pub nodes: u8,
    /// The role of the blocks.
    pub blocks: u8,
    /// The size of the words.
    pub word: Word,
}
