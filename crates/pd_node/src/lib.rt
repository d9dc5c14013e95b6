//! The nodes of B-trees, as struct btree_node of "drivers/md/persistent-data/dm-btree-internal.h":
//! the rules that a block breaks as a node, its entries, and the writing of leaves and inner nodes,
//! at once or entry by entry.
#![tactic(auto)]

mod open_leaf;
mod read;
mod write;

pub use open_leaf::{first_key, new_leaf, put_entry, seal_leaf};
pub use read::{child, entries, is_inner, key, keys_ascend, node_rules, value};
pub use write::{max_entries_of, write_inner, write_leaf};
