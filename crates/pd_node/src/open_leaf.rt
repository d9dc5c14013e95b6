//! A leaf whose entries come one by one: each goes into its place at once, so that it is stored a single time.

ghost use Rattle.std.specs.Prelude.{◌≡◌, ℕ, ◌<◌, ◌≤◌, true};
ghost use Rattle.pd_kinds.specs.Field.{zeros};
ghost use Rattle.pd_kinds.specs.Node.{key_at, leaf_block, max_entries};
ghost use Rattle.pd_node.specs.Items.{HasMore, IsBegun, entries_in};

use crate::read::{HEADER_SIZE, KEY_SIZE, LEAF_FLAGS};
use crate::write::{max_entries_of, seal_node};
use pd_kinds::{Block, put_u64, u64_at};
use pd_value::{Value, put_value};

/// The block of a leaf to which no entry has come yet, with values of any size: all of it is 0.
#[inline]
pub fn new_leaf() -> Block
    ensures block { result.0 ≡ zeros }
    ensures begun { (size : ℕ) → IsBegun size result.0 0 }
{
    Block::zeros()
}

/// Writes entry `i`, where those before it are there: its key behind the header, in a row of keys, and its value
/// behind the room for all keys.
#[inline]
pub fn put_entry<V: Value>(block: &mut Block, i: usize, key: u64, value: V)
    requires begun { IsBegun V.SIZE block.old.0 i }
    requires within { i < max_entries V.SIZE }
    requires fits { V.fitting value ≡ true }
    ensures { HasMore V.SIZE block.old.0 i (record { key = key; value = V.code value }) block.new.0 }
{
    let values_at = HEADER_SIZE + KEY_SIZE * max_entries_of(V::SIZE);
    put_u64(&mut block.0, HEADER_SIZE + KEY_SIZE * i, key);
    put_value(&mut block.0, values_at + V::SIZE * i, &value);
}

/// The key of the first entry of a node, sealed or not.
pub fn first_key(block: &Block) -> u64
    ensures { result ≡ key_at block.now.0 0 }
{
    u64_at(&block.0, HEADER_SIZE)
}

/// Writes the header and the checksum of a leaf to which so many entries have come.
pub fn seal_leaf<V: Value>(block: &mut Block, place: u64, count: usize)
    requires begun { IsBegun V.SIZE block.old.0 count }
    requires room { count ≤ max_entries V.SIZE }
    ensures { block.new.0 ≡ leaf_block V.SIZE place (entries_in V.SIZE block.old.0 count) }
{
    seal_node(block, LEAF_FLAGS, V::SIZE, place, count);
}
