//! Leaves and inner nodes, written.

ghost use Rattle.std.specs.Prelude.{◌≡◌, ℕ, ◌+◌, ◌*◌, ◌<◌, ◌≤◌, ◌^◌, false, true, length, map, slice_index};
ghost use Rattle.std.specs.List.{All};
ghost use Rattle.pd_kinds.specs.declared.rule.Rule.{Rule as BrokenRule};
ghost use Rattle.pd_kinds.specs.Field.{has_checksum, sealed, written};
ghost use Rattle.pd_kinds.specs.Node.{entry_count, inner_block, is_ascending, is_inner_node, leaf_block};
ghost use Rattle.pd_kinds.specs.Node.{max_entries, node_bad, node_keys, node_rows, node_salt, puts};
ghost use Rattle.pd_node.specs.Items.{entries_of, keys_of, values_of, node_children, node_values};

use crate::read::{
    ENTRIES_AT, FLAGS_AT, HEADER_SIZE, INNER_FLAGS, KEY_SIZE, LEAF_FLAGS, MAX_AT, NODE_SALT,
    PLACE_AT, VALUE_SIZE_AT,
};
use pd_crc::seal;
use pd_kinds::{BLOCK_SIZE, Block, put_u32, put_u64};
use pd_value::{Value, put_value};

/// The number of entries for which a node with values of so many bytes is given room: the greatest
/// multiple of 3 that fits the block, as calc_max_entries of
/// "drivers/md/persistent-data/dm-btree.c" has it.
pub fn max_entries_of(size: usize) -> usize
    requires { size < 2 ^ 32 }
    ensures { result ≡ max_entries size }
{
    (BLOCK_SIZE - HEADER_SIZE) / (KEY_SIZE + size) / 3 * 3
}

/// The leaf of these keys and values in its place.
///
/// Every byte but those of the header, the keys and the values is 0.
pub fn write_leaf<V: Value>(place: u64, items: &[(u64, V)]) -> Block
    requires ascend { is_ascending (keys_of items.now) ≡ true }
    requires room { length items.now ≤ max_entries V.SIZE }
    requires fit { All (λ item. V.fitting item.1 ≡ true) items.now }
    ensures block { result.0 ≡ leaf_block V.SIZE place (entries_of V.code items.now) }
    ensures sound { (rule : BrokenRule) → node_bad V.SIZE place result.0 rule ≡ false }
    ensures leaf { is_inner_node result.0 ≡ false }
    ensures count { entry_count V.SIZE result.0 ≡ length items.now }
    ensures keys { node_keys V.SIZE result.0 ≡ keys_of items.now }
    ensures values { node_values V.SIZE V.decoded result.0 ≡ values_of items.now }
{
    let mut block = Block::zeros();
    put_keys(&mut block, items);
    let values_at = HEADER_SIZE + KEY_SIZE * max_entries_of(V::SIZE);
    put_values(&mut block, values_at, items);
    seal_node(&mut block, LEAF_FLAGS, V::SIZE, place, items.len());
    block
}

/// The inner node of these keys and children in its place, whatever values the leaves below it have.
///
/// Every byte but those of the header, the keys and the children is 0.
pub fn write_inner(place: u64, items: &[(u64, u64)]) -> Block
    requires ascend { is_ascending (keys_of items.now) ≡ true }
    requires some { 1 ≤ length items.now }
    requires room { length items.now ≤ max_entries 8 }
    ensures block { result.0 ≡ inner_block place (entries_of (λ child. child) items.now) }
    ensures sound { (size : ℕ) (rule : BrokenRule) → node_bad size place result.0 rule ≡ false }
    ensures inner { is_inner_node result.0 ≡ true }
    ensures count { (size : ℕ) → entry_count size result.0 ≡ length items.now }
    ensures keys { (size : ℕ) → node_keys size result.0 ≡ keys_of items.now }
    ensures children { (size : ℕ) → node_children size result.0 ≡ values_of items.now }
{
    let mut block = Block::zeros();
    put_keys(&mut block, items);
    put_children(
        &mut block,
        HEADER_SIZE + KEY_SIZE * max_entries_of(KEY_SIZE),
        items,
    );
    seal_node(&mut block, INNER_FLAGS, KEY_SIZE, place, items.len());
    block
}

/// Writes the header of a node and its checksum: the flags, the size of a value, the place, the number of entries.
#[tactic(auto, unfolding(pd_kinds::specs::Field::written))]
pub(crate) fn seal_node(block: &mut Block, flags: u32, size: usize, place: u64, count: usize)
    requires size { size ≤ 24 }
    requires count { count ≤ max_entries size }
    ensures sealed { block.new.0 ≡ sealed (written block.old.0 (node_rows flags size place count)) node_salt }
    ensures valid { has_checksum block.new.0 node_salt ≡ true }
{
    put_u32(&mut block.0, FLAGS_AT, flags);
    put_u64(&mut block.0, PLACE_AT, place);
    put_u32(&mut block.0, ENTRIES_AT, count as u32);
    put_u32(&mut block.0, MAX_AT, max_entries_of(size) as u32);
    put_u32(&mut block.0, VALUE_SIZE_AT, size as u32);
    seal(block, NODE_SALT);
}

/// Writes the keys in a row behind the header.
fn put_keys<T: Copy>(block: &mut Block, items: &[(u64, T)])
    requires { 32 + 8 * length items.now ≤ 4096 }
    ensures row { block.new.0 ≡ puts block.old.0 32 8 (keys_of items.now) }
    ensures below { (i : ℕ) → i < length items.now → slice_index (keys_of items.now) i < 2 ^ 64 }
{
    for i in 0..items.len() {
        let (key, _) = items[i];
        put_u64(&mut block.0, HEADER_SIZE + KEY_SIZE * i, key);
    }
}

/// Writes the numbers of the children in a row from `at` on.
fn put_children(block: &mut Block, at: usize, items: &[(u64, u64)])
    requires { at + 8 * length items.now ≤ 4096 }
    ensures row { block.new.0 ≡ puts block.old.0 at 8 (values_of items.now) }
    ensures below { (i : ℕ) → i < length items.now → slice_index (values_of items.now) i < 2 ^ 64 }
{
    for i in 0..items.len() {
        let (_, child) = items[i];
        put_u64(&mut block.0, at + KEY_SIZE * i, child);
    }
}

/// Writes the values in a row from `at` on.
fn put_values<V: Value>(block: &mut Block, at: usize, items: &[(u64, V)])
    requires room { at + V.SIZE * length items.now ≤ 4096 }
    requires fit { All (λ item. V.fitting item.1 ≡ true) items.now }
    ensures { block.new.0 ≡ puts block.old.0 at V.SIZE (map (λ item. V.code item.1) items.now) }
{
    for i in 0..items.len() {
        let (_, value) = items[i];
        put_value(&mut block.0, at + V::SIZE * i, &value);
    }
}
