//! A rule of the whole image, charged to a block.

ghost use Rattle.std.specs.Prelude.{[], ◌∷◌, ◌≡◌, ℕ, ◌<◌, ◌==◌, List, ◌+◌, not};
ghost use Rattle.pd_kinds.specs.Graph.{Graph};
ghost use Rattle.pd_kinds.specs.Whole.{bitmap_tests, is_not_counting};
ghost use Rattle.pd_kinds.specs.Stages.{IsReached};
ghost use Rattle.pd_kinds.specs.Trees.{entries_below, keys_of};
ghost use Rattle.pd_kinds.specs.InOrder.{AreInOrder};
ghost use Rattle.pd_graph.specs.Audit.{blocks_of, note_at};
ghost use Rattle.pd_tree.specs.Search.{IsTreeRole};
ghost use Rattle.pd_check.specs.Known.{Charges, IsKnown, is_counting_note};
ghost use Rattle.pd_check.specs.Refs.{is_shared, shared_tests};

use crate::laws::keys_of_reached_trees_ascend;
use pd_graph::{Audit, has_role};
use pd_kinds::Rule;

/// Gives block b the rule, where it fails. A block that there isn't has no rules.
pub fn charge(audit: &mut Audit, b: u64, rule: Rule, fails: bool)
    ensures { Charges (record { block = b; rule = rule; fails = fails } ∷ []) audit.old audit.new }
{
    let is_there = b < audit.nr();
    if fails & is_there {
        audit.mark(b, rule);
    }
}

// Blocks that more than one reference leads to, where one alone may.

/// Whether block b was met in the role, and more than one reference to it.
fn has_more(audit: &Audit, role: u8, b: u64) -> bool
    requires role { role < 16 }
    requires block { b < blocks_of audit.now }
    ensures { result ≡ is_shared audit.now role b }
{
    let met = has_role(audit.roles(b), role);
    let several = 1 < audit.meta_count(b);
    met & several
}

/// Gives each block the rule Index that was met in the role and that more than one reference leads to, as no
/// bitmap may have. It reads nothing.
pub fn mark_shared(audit: &mut Audit, role: u8)
    requires { role < 16 }
    ensures charges { Charges (shared_tests audit.old role) audit.old audit.new }
    ensures bitmaps { (graph : Graph) (image : List (List ℕ)) → IsKnown graph image audit.old
        → Charges (bitmap_tests graph image (λ r. r == role)) audit.old audit.new }
{
    for b in 0..audit.nr() {
        let fails = has_more(audit, role, b);
        charge(audit, b, Rule::Index, fails);
    }
}

// Keys that count from 0.

/// Whether the one number follows the other.
fn is_next(last: u64, n: u64) -> bool
    ensures { result ≡ (last + 1 == n) }
{
    last < n && n - last == 1
}

/// Whether the keys below the root of a tree are 0 to n - 1, by what settling noted of the root. It reads
/// nothing.
pub fn is_counting(audit: &Audit, root: u64, n: u64) -> bool
    requires { root < blocks_of audit.now }
    ensures note { result ≡ is_counting_note (note_at audit.now root) n }
    ensures keys { (graph : Graph) (image : List (List ℕ)) (role size : ℕ) → IsKnown graph image audit.now → AreInOrder graph image
        → IsTreeRole graph role size → IsReached graph image root role
        → result ≡ not (is_not_counting (keys_of (entries_below graph image size role root)) n) }
{
    keys_of_reached_trees_ascend();
    let note = audit.note(root);
    match note.greatest {
        Some(last) => {
            let follows = is_next(last, n);
            (note.below == n) & follows
        }
        None => n == 0,
    }
}
