//! The blocks that a node of a tree names.
//!
//! A block that isn't a node with values of this type has no entries.

ghost use Rattle.std.specs.Prelude.{◌≡◌, ℕ, ◌<◌, Some, length, slice_get, ◌^◌, false, nat_lt, not};
ghost use Rattle.std.specs.List.{list_any};
ghost use Rattle.pd_kinds.specs.Layout.{layout_data, layout_keys, tree, tree_edges, leaf_entries, node_entries_of, tree_bad};
ghost use Rattle.pd_kinds.specs.Graph.{edge_of, has_edge_outside};
ghost use Rattle.pd_kinds.specs.declared.rule.Rule.{Rule as BrokenRule};
ghost use Rattle.pd_kinds.specs.Node.{is_inner_node};
ghost use Rattle.pd_kinds.specs.Rule.{has_rule};
ghost use Rattle.pd_layouts.specs.Layout.{tree_of, value_size, value_target};

use crate::layout::{LeafValue, Names};
use pd_kinds::{Block, Rule, Rules, is_outside};
use pd_node::is_inner;

/// How many keys the node has.
pub(crate) fn key_count(b: &Block, value: LeafValue, names: Names) -> usize
    ensures { result ≡ length (layout_keys (tree (tree_of value names)) b.now.0) }
{
    value.entries(b)
}

/// Key `i`, from 0, of the node.
pub(crate) fn key_of(b: &Block, value: LeafValue, names: Names, i: usize) -> u64
    requires { i < length (layout_keys (tree (tree_of value names)) b.now.0) }
    ensures { slice_get (layout_keys (tree (tree_of value names)) b.now.0) i ≡ Some result }
{
    value.key(b, i)
}

/// How many metadata blocks the node names.
///
/// An inner node names one for each entry, and a leaf those that its values name.
pub(crate) fn edge_count(b: &Block, value: LeafValue, names: Names) -> usize
    ensures { (role : ℕ) → result ≡ length (tree_edges role (tree_of value names) b.now.0) }
{
    let count = value.entries(b);
    if is_inner(b) {
        count
    } else {
        names.metadata_of(count)
    }
}

/// The role and the number of metadata block `i`, from 0, that the node names.
///
/// An inner node in a role names nodes in the same role.
pub(crate) fn edge_of_node(
    b: &Block,
    value: LeafValue,
    names: Names,
    role: u8,
    i: usize,
) -> (u8, u64)
    requires { i < length (tree_edges role (tree_of value names) b.now.0) }
    ensures { slice_get (tree_edges role (tree_of value names) b.now.0) i ≡ Some (edge_of result.0 result.1) }
{
    if is_inner(b) {
        (role, value.child(b, i))
    } else {
        (names.role(), value.named(b, i))
    }
}

/// How many data blocks the node names: an inner node none, and a leaf those that its values name.
pub(crate) fn data_count(b: &Block, value: LeafValue, names: Names) -> usize
    ensures { result ≡ length (layout_data (tree (tree_of value names)) b.now.0) }
{
    if is_inner(b) {
        0
    } else {
        names.data_of(value.entries(b))
    }
}

/// Data block `i`, from 0, that the node names.
pub(crate) fn data_of_node(b: &Block, value: LeafValue, names: Names, i: usize) -> u64
    requires { i < length (layout_data (tree (tree_of value names)) b.now.0) }
    ensures { slice_get (layout_data (tree (tree_of value names)) b.now.0) i ≡ Some result }
{
    value.named(b, i)
}

// The rules that a block breaks as a node of a tree.

/// The rules that the block breaks as the node in this role and place of a tree, for so many metadata
/// blocks.
///
/// A node whose checksum is wrong breaks Checksum alone.
pub(crate) fn tree_rules(
    b: &Block,
    value: LeafValue,
    names: Names,
    role: u8,
    place: u64,
    nr: u64,
) -> Rules
    ensures { (rule : BrokenRule) → has_rule result rule ≡ tree_bad nr role (tree_of value names) place b.now.0 rule }
{
    let rules = value.node_rules(b, place);
    if rules.has(Rule::Checksum) {
        return rules;
    }
    let outside = is_edge_outside(b, value, names, role, nr);
    let beyond = is_entry_beyond(b, value, names);
    rules
        .with_if(Rule::Pointer, outside)
        .with_if(Rule::Beyond, beyond)
}

/// Whether the node in this role names a metadata block that isn't from 1 to `nr - 1`.
fn is_edge_outside(b: &Block, value: LeafValue, names: Names, role: u8, nr: u64) -> bool
    ensures { result ≡ has_edge_outside nr (tree_edges role (tree_of value names) b.now.0) }
{
    let mut outside = false;
    let count = edge_count(b, value, names);
    for i in 0..count {
        let (_, block) = edge_of_node(b, value, names, role, i);
        outside |= is_outside(nr, block);
    }
    outside
}

/// Whether an entry of the node, where it is a leaf, lies outside its range.
fn is_entry_beyond(b: &Block, value: LeafValue, names: Names) -> bool
    ensures { result ≡ list_any (tree_of value names).is_beyond (leaf_entries (value_size value) b.now.0) }
{
    if is_inner(b) {
        return false;
    }
    match names {
        Names::Nothing | Names::Metadata(_) => false,
        Names::MetadataByEra(_) => is_key_beyond(b, value),
        Names::Data(limit) => is_named_beyond(b, value, limit),
    }
}

/// Whether a key of the leaf is no era.
fn is_key_beyond(b: &Block, value: LeafValue) -> bool
    ensures { result ≡ list_any (λ e. not (nat_lt e.key (2 ^ 32))) (node_entries_of (value_size value) b.now.0) }
{
    let mut beyond = false;
    for i in 0..value.entries(b) {
        beyond |= value.key(b, i) >= 1 << 32;
    }
    beyond
}

/// Whether a value of the leaf names a block past this limit.
fn is_named_beyond(b: &Block, value: LeafValue, limit: u64) -> bool
    requires { is_inner_node b.now.0 ≡ false }
    ensures { result ≡ list_any (λ e. not (nat_lt (value_target value e.value) limit)) (node_entries_of (value_size value) b.now.0) }
{
    let mut beyond = false;
    for i in 0..value.entries(b) {
        beyond |= value.named(b, i) >= limit;
    }
    beyond
}
