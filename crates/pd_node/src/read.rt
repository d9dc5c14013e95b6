//! The entries of a node, read where they lie.

ghost use Rattle.std.specs.Prelude.{◌≡◌, ◌+◌, ◌*◌, ◌<◌, ◌≤◌, false, true, ℕ, ◌↔◌, List, length, map, slice_index};
ghost use Rattle.std.specs.List.{range_with_len};
ghost use Rattle.pd_kinds.specs.Node.{child_at, entry_count, is_inner_node, key_at, node_max, value_at, are_flags_bad};
ghost use Rattle.pd_kinds.specs.Node.{is_shape_bad, is_ascending, node_bad, node_keys, node_tests};
ghost use Rattle.pd_kinds.specs.declared.rule.Rule.{Rule as BrokenRule};
ghost use Rattle.pd_kinds.specs.Rule.{failing, has_rule};

use pd_crc::is_sealed;
use pd_kinds::{BLOCK_SIZE, Block, Rule, Rules, u32_at, u64_at};
use pd_value::{Value, value_at};

/// The key of entry `i`, from 0.
pub fn key<V: Value>(block: &Block, i: usize) -> u64
    requires { i < entry_count V.SIZE block.now.0 }
    ensures { result ≡ key_at block.now.0 i }
{
    lies_within::<V>(block, i);
    u64_at(&block.0, HEADER_SIZE + KEY_SIZE * i)
}

/// The metadata block that entry `i`, from 0, of an inner node names.
pub fn child<V: Value>(block: &Block, i: usize) -> u64
    requires entry { i < entry_count V.SIZE block.now.0 }
    requires inner { is_inner_node block.now.0 ≡ true }
    ensures { result ≡ child_at block.now.0 i }
{
    lies_within::<V>(block, i);
    let at = HEADER_SIZE + KEY_SIZE * max_of(block) + KEY_SIZE * i;
    u64_at(&block.0, at)
}

/// The value of entry `i`, from 0, of a leaf.
pub fn value<V: Value>(block: &Block, i: usize) -> V
    requires entry { i < entry_count V.SIZE block.now.0 }
    requires leaf { is_inner_node block.now.0 ≡ false }
    ensures value { result ≡ V.decoded (value_at V.SIZE block.now.0 i) }
    ensures fits { V.fitting result ≡ true }
{
    lies_within::<V>(block, i);
    let at = HEADER_SIZE + KEY_SIZE * max_of(block) + V::SIZE * i;
    value_at(&block.0, at)
}

/// The key and the value of entry `i` lie within the block.
#[inline]
fn lies_within<V: Value>(block: &Block, i: usize)
    requires { i < entry_count V.SIZE block.now.0 }
    ensures key { 32 + 8 * i + 8 ≤ 4096 }
    ensures child { is_inner_node block.now.0 ≡ true → 32 + 8 * node_max block.now.0 + 8 * i + 8 ≤ 4096 }
    ensures value { is_inner_node block.now.0 ≡ false → 32 + 8 * node_max block.now.0 + V.SIZE * i + V.SIZE ≤ 4096 }
{}

// The header of a node, as struct node_header of
// "drivers/md/persistent-data/dm-btree-internal.h": checksum, flags, place, number of entries,
// greatest number of entries, size of a value.

/// The size of the header in bytes: the keys stand behind it.
pub(crate) const HEADER_SIZE: usize = 32;

/// The size of a key, and of the number of a child, in bytes.
pub(crate) const KEY_SIZE: usize = 8;

/// Where the fields of the header stand behind the checksum, in bytes.
pub(crate) const FLAGS_AT: usize = 4;

pub(crate) const PLACE_AT: usize = 8;

pub(crate) const ENTRIES_AT: usize = 16;

pub(crate) const MAX_AT: usize = 20;

pub(crate) const VALUE_SIZE_AT: usize = 24;

/// The flags of an inner node and of a leaf, INTERNAL_NODE and LEAF_NODE of the same header file.
pub(crate) const INNER_FLAGS: u32 = 1;

pub(crate) const LEAF_FLAGS: u32 = 2;

/// Whether the node's flags say that its entries name other nodes, and not that they are values.
pub fn is_inner(block: &Block) -> bool
    ensures { result ≡ is_inner_node block.now.0 }
{
    u32_at(&block.0, FLAGS_AT) == INNER_FLAGS
}

/// The number of entries of a node whose flags and shape are those of a node with such values in its
/// leaves, and 0 of any other block.
#[tactic(auto, unfolding(pd_kinds::specs::Node::entry_count))]
pub fn entries<V: Value>(block: &Block) -> usize
    ensures { result ≡ entry_count V.SIZE block.now.0 }
{
    let flags_bad = has_bad_flags(block);
    let shape_bad = has_bad_shape::<V>(block);
    if flags_bad | shape_bad {
        0
    } else {
        u32_at(&block.0, ENTRIES_AT) as usize
    }
}

/// The number of entries for which a node has room.
pub(crate) fn max_of(block: &Block) -> usize
    ensures { result ≡ node_max block.now.0 }
{
    u32_at(&block.0, MAX_AT) as usize
}

/// Whether the flags are neither those of an inner node nor those of a leaf.
pub(crate) fn has_bad_flags(block: &Block) -> bool
    ensures { result ≡ are_flags_bad block.now.0 }
{
    let flags = u32_at(&block.0, FLAGS_AT);
    (flags != INNER_FLAGS) & (flags != LEAF_FLAGS)
}

/// Whether the sizes of the header don't fit a node with such values in its leaves.
#[tactic(auto, unfolding(pd_kinds::specs::Node::is_shape_bad))]
pub(crate) fn has_bad_shape<V: Value>(block: &Block) -> bool
    ensures { result ≡ is_shape_bad V.SIZE block.now.0 }
{
    let inner = is_inner(block);
    let wanted = if inner { KEY_SIZE } else { V::SIZE };
    let size = u32_at(&block.0, VALUE_SIZE_AT) as usize;
    if size != wanted {
        return true;
    }
    let entries = u32_at(&block.0, ENTRIES_AT);
    let max = u32_at(&block.0, MAX_AT);
    let room = HEADER_SIZE + max as usize * (KEY_SIZE + size);
    (entries > max) | (room > BLOCK_SIZE) | (inner & (entries == 0))
}

// The rules that a node breaks.

/// What the checksum of a node is XORed with, as BTREE_CSUM_XOR of
/// "drivers/md/persistent-data/dm-btree-spine.c".
pub(crate) const NODE_SALT: u32 = 121107;

/// The rules up to Order that the block breaks as the node in this place of a tree with such values.
///
/// A node whose checksum is wrong breaks Checksum alone.
#[tactic(auto, unfolding(pd_kinds::specs::Node::node_bad, pd_kinds::specs::Rule::alone))]
pub fn node_rules<V: Value>(block: &Block, place: u64) -> Rules
    ensures { (rule : BrokenRule) → has_rule result rule ≡ node_bad V.SIZE place block.now.0 rule }
{
    if !is_sealed(block, NODE_SALT) {
        return Rules::none().with(Rule::Checksum);
    }
    table_rules::<V>(block, place)
}

/// The rules that are looked at each by itself.
#[tactic(auto, unfolding(pd_kinds::specs::Node::node_tests, pd_kinds::specs::Node::node_keys, pd_kinds::specs::Rule::failing))]
fn table_rules<V: Value>(block: &Block, place: u64) -> Rules
    ensures { (rule : BrokenRule) → has_rule result rule ≡ failing (node_tests V.SIZE place block.now.0) rule }
{
    let elsewhere = u64_at(&block.0, PLACE_AT) != place;
    let flags_bad = has_bad_flags(block);
    let shape_bad = has_bad_shape::<V>(block);
    let ascending = are_neighbours_ascending(block, entries::<V>(block));
    Rules::none()
        .with_if(Rule::Place, elsewhere)
        .with_if(Rule::Flags, flags_bad)
        .with_if(Rule::Shape, !flags_bad & shape_bad)
        .with_if(Rule::Order, !ascending)
}

/// Whether each of so many keys is below the next one.
fn are_neighbours_ascending(block: &Block, count: usize) -> bool
    requires { 32 + 8 * count ≤ 4096 }
    ensures { result ≡ is_ascending (map (key_at block.now.0) (range_with_len 0 count)) }
{
    let mut ascending = true;
    for i in 1..count {
        let before = u64_at(&block.0, HEADER_SIZE + KEY_SIZE * (i - 1));
        let key = u64_at(&block.0, HEADER_SIZE + KEY_SIZE * i);
        ascending &= before < key;
    }
    ascending
}

/// Keys ascend where the key of each entry is below those of all later ones, and only there.
pub fn keys_ascend()
    ensures { (keys : List ℕ) → (is_ascending keys ≡ true)
        ↔ ((i j : ℕ) → i < j → j < length keys → slice_index keys i < slice_index keys j) }
{}
