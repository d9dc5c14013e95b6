//! What the definitions over bytes come to for the maps of a format, so that a check's contract can speak of the
//! stored counts of the format's own definitions.

ghost use Rattle.std.specs.Prelude.{◌≡◌, ℕ, List};
ghost use Rattle.pd_kinds.specs.Node.{Entry};
ghost use Rattle.pd_kinds.specs.Graph.{Graph, pair};
ghost use Rattle.pd_kinds.specs.Trees.{entries_below, keys_of, stored_data_in};
ghost use Rattle.pd_tree.specs.Search.{IsSoundTree, IsTreeRole};
ghost use Rattle.pd_smap.specs.Overflow.{IsOverflow, index_of, overflow_of};

use pd_tree::cursors_give_entries;
use pd_value::{Count, IndexEntry};

/// A sound overflow tree can be searched, and what is read of it are its entries.
pub fn overflow_trees_hold_counts()
    ensures searchable { (graph : Graph) (image : List (List ℕ)) (b role : ℕ)
        → IsTreeRole graph role 4 → IsSoundTree graph image (pair b role) → IsOverflow image b }
    ensures entries { (graph : Graph) (image : List (List ℕ)) (b role : ℕ) → IsTreeRole graph role 4 → IsSoundTree graph image (pair b role)
        → overflow_of image b ≡ entries_below graph image 4 role b }
{
    cursors_give_entries::<Count>();
}

/// What is read of a sound index tree are the keys of its entries, and by it the same counts are stored.
pub fn index_trees_name_bitmaps()
    ensures keys { (graph : Graph) (image : List (List ℕ)) (b role : ℕ) → IsTreeRole graph role 16 → IsSoundTree graph image (pair b role)
        → keys_of (index_of image b) ≡ keys_of (entries_below graph image 16 role b) }
    ensures stored { (graph : Graph) (image : List (List ℕ)) (b role d : ℕ) (overflow : List Entry)
        → IsTreeRole graph role 16 → IsSoundTree graph image (pair b role)
        → stored_data_in image (index_of image b) overflow d ≡ stored_data_in image (entries_below graph image 16 role b) overflow d }
{
    cursors_give_entries::<IndexEntry>();
}
