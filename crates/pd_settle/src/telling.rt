//! What settling found below a node of a tree.

ghost use Rattle.std.specs.Prelude.{◌≡◌, ◌<◌, not, nat_lt, ◌↔◌, ℕ, List, [], length, Some, None, true, false};
ghost use Rattle.pd_kinds.specs.declared.rule.Rule.{Rule};
ghost use Rattle.pd_kinds.specs.Graph.{pair, is_reached, keys_below};
ghost use Rattle.pd_kinds.specs.Layout.{Layout, Tree, tree, graph_of};
ghost use Rattle.pd_kinds.specs.Lawful.{IsLawful};
ghost use Rattle.pd_kinds.specs.Stages.{walk_bad, order_bad};
ghost use Rattle.pd_kinds.specs.Trees.{entries_below, keys_of};
ghost use Rattle.pd_graph.specs.Audit.{blocks_of, note_at};
ghost use Rattle.pd_graph.specs.declared.audit.Audit.{Audit};
ghost use Rattle.pd_settle.specs.Notes.{least_of, greatest_of, IsLeast, IsGreatest};
ghost use Rattle.pd_settle.specs.Settled.{IsSettled};

use pd_graph::Audit;

/// Whether node b is deep: a chain of 64 inner edges starts at it.
pub fn deep(audit: &Audit, b: u64) -> bool
    requires { b < blocks_of audit.now }
    ensures { result ≡ not (nat_lt (note_at audit.now b).height 65) }
{
    65 <= audit.note(b).height
}

/// The least key below node b, or none where there is no key. Nothing is said of a deep node.
pub fn least(audit: &Audit, b: u64) -> Option<u64>
    requires { b < blocks_of audit.now }
    ensures { result ≡ (note_at audit.now b).least }
{
    audit.note(b).least
}

/// The greatest key below node b, or none where there is no key. Nothing is said of a deep node.
pub fn greatest(audit: &Audit, b: u64) -> Option<u64>
    requires { b < blocks_of audit.now }
    ensures { result ≡ (note_at audit.now b).greatest }
{
    audit.note(b).greatest
}

/// The number of keys in the leaves below node b, those of a shared leaf once for each way to it; it stays
/// at 2 ^ 64 - 1. Where no block has Level or Range it is the number of entries. Nothing is said of a deep
/// node.
pub fn below(audit: &Audit, b: u64) -> u64
    requires { b < blocks_of audit.now }
    ensures { result ≡ (note_at audit.now b).below }
{
    audit.note(b).below
}

// What the notes of settling come to, in plain words.

/// The least key is one of the keys, and none is below it. Only no keys have none.
pub fn least_is_the_least_key()
    ensures some { (keys : List ℕ) (key : ℕ) → (least_of keys ≡ Some key) ↔ IsLeast keys key }
    ensures none { (keys : List ℕ) → (least_of keys ≡ None) ↔ (keys ≡ []) }
{}

/// The greatest key is one of the keys, and none is above it. Only no keys have none.
pub fn greatest_is_the_greatest_key()
    ensures some { (keys : List ℕ) (key : ℕ) → (greatest_of keys ≡ Some key) ↔ IsGreatest keys key }
    ensures none { (keys : List ℕ) → (greatest_of keys ≡ None) ↔ (keys ≡ []) }
{}

/// Where the walk finds no bad rule, the keys below a node of a tree are those of the entries below it, in
/// every format that is a table of layouts.
pub fn keys_are_those_of_entries()
    ensures { (roles nr data_blocks : ℕ) (layout : ℕ → Layout) (t : Tree) (image : List (List ℕ)) (role b : ℕ)
        → let graph = graph_of roles nr data_blocks layout in
        IsLawful graph → ((c : ℕ) (rule : Rule) → c < graph.nr → walk_bad graph image c rule ≡ false)
        → role < 16 → layout role ≡ tree t → is_reached graph image (pair b role) ≡ true
        → keys_below graph image (pair b role) ≡ keys_of (entries_below graph image t.size role b) }
{}

/// Where neither the walk nor settling finds a bad rule, `below` is the number of entries below a node.
pub fn below_is_the_number_of_entries()
    ensures { (roles nr data_blocks : ℕ) (layout : ℕ → Layout) (t : Tree) (image : List (List ℕ)) (audit : Audit) (role b : ℕ)
        → let graph = graph_of roles nr data_blocks layout in
        IsLawful graph → ((c : ℕ) (rule : Rule) → c < graph.nr → walk_bad graph image c rule ≡ false)
        → IsSettled graph image audit → ((c : ℕ) (rule : Rule) → c < graph.nr → order_bad graph image c rule ≡ false)
        → role < 16 → layout role ≡ tree t → is_reached graph image (pair b role) ≡ true
        → (note_at audit b).below ≡ length (entries_below graph image t.size role b) }
{}
