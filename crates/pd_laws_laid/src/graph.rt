//! Laid blocks and laid trees as a format's graph sees them: where each block fits among the others, they are all that
//! is reached, and what is below the root of a tree.
//! Laid arrays as a format's graph sees them.
//! Laid space maps as a format's graph sees them.

ghost use Rattle.std.specs.Prelude.{◌≡◌, ◌<◌, ◌≤◌, ◌+◌, List, length, ℕ, ◌^◌};
ghost use Rattle.std.specs.List.{AllByRecursion};
ghost use Rattle.pd_kinds.specs.declared.limits.TheConstants.{MAX_META_BLOCKS};
ghost use Rattle.pd_kinds.specs.Graph.{Graph};
ghost use Rattle.pd_kinds.specs.Lawful.{IsLawful};
ghost use Rattle.pd_kinds.specs.Layout.{Layout, Tree, graph_of, tree, array, tree_to, bitmap, index, plain_tree};
ghost use Rattle.pd_kinds.specs.Node.{Entry};
ghost use Rattle.pd_laid.specs.Laid.{LaidBlock, laid_tree, tree_root, array_root, laid_array, laid_meta_map, meta_overflow_root};
ghost use Rattle.pd_laws_laid.specs.LaidOut.{AreItems, IsTreeSeen, AllFrom, AreLaidInOrder, IsInPlace};
ghost use Rattle.pd_laws_laid.specs.LaidOut.{IsLaidOut, IsNamed, IsArraySeen, IsMetaMapSeen};

/// Blocks that are laid from block 0 on, each of them sound and in order by itself, named by another one and naming
/// laid blocks in their roles, are the blocks that are reached; they are in order, and their references are counted.
/// It holds of any format, and whatever blocks are named by more than one.
pub fn laid_blocks_are_in_order()
    ensures { (graph : Graph) (image : List (List ℕ)) (blocks : List LaidBlock) → IsLawful graph → IsLaidOut graph image blocks
        → AreLaidInOrder graph image blocks }
{}

/// A tree that is laid in a role of a table of layouts, and whose root some block names: its items stand below its
/// root, each of its blocks is sound, in order and fits among the laid blocks, and it names what its items name.
pub fn laid_tree_is_seen()
    ensures { (roles nr data_blocks : ℕ) (table : ℕ → Layout) (image : List (List ℕ))
        (blocks : List LaidBlock) (limit role : ℕ) (t : Tree) (place : ℕ) (items : List Entry)
        → table role ≡ tree t → role < roles → roles ≤ 16 → t.size ≤ 24 → nr ≤ MAX_META_BLOCKS → limit ≤ nr → 1 ≤ place
        → place + length (laid_tree role t place items) ≤ limit → AreItems blocks limit t items
        → AllFrom (IsInPlace image blocks) place (laid_tree role t place items) → IsNamed blocks (tree_root t.size place items)
        → IsTreeSeen (graph_of roles nr data_blocks table) image blocks limit role t place items }
{}

/// An array of words of one size that is laid in two roles of a table of layouts, and whose root some block names:
/// its blocks are sound and fit among the laid blocks, it is whole, and its words are read back.
pub fn laid_array_is_seen()
    ensures { (roles nr data_blocks : ℕ) (table : ℕ → Layout)
        (image : List (List ℕ)) (blocks : List LaidBlock) (limit role size place : ℕ) (words : List ℕ)
        → table role ≡ tree_to 8 (role + 1) (λ v. v) → table (role + 1) ≡ array size → role + 1 < roles → roles ≤ 16 → 1 ≤ size → size ≤ 8
        → nr ≤ MAX_META_BLOCKS → limit ≤ nr → 1 ≤ place → place + length (laid_array role size place words) ≤ limit
        → AllByRecursion (λ word. word < 256 ^ size) words → AllFrom (IsInPlace image blocks) place (laid_array role size place words)
        → IsNamed blocks (array_root size place words)
        → IsArraySeen (graph_of roles nr data_blocks table) image blocks limit role size place words }
{}

/// A metadata map of all blocks that is laid in three roles of a table of layouts, behind all blocks that were named
/// before it, and whose index block and overflow tree's root are named: its blocks are sound and fit among the laid
/// blocks, and its stored counts are read back.
pub fn laid_meta_map_is_seen()
    ensures { (roles n data_blocks : ℕ) (table : ℕ → Layout)
        (image : List (List ℕ)) (blocks : List LaidBlock) (limit role place : ℕ) (named : List ℕ)
        → table role ≡ index (role + 1) → table (role + 1) ≡ bitmap → table (role + 2) ≡ plain_tree 4 → role + 2 < roles → roles ≤ 16
        → n ≤ MAX_META_BLOCKS → limit ≤ n → 1 ≤ place → place + length (laid_meta_map role n place named) ≤ limit
        → AllByRecursion (λ r. r < place) named → length named < 2 ^ 32
        → AllFrom (IsInPlace image blocks) place (laid_meta_map role n place named)
        → IsNamed blocks place → IsNamed blocks (meta_overflow_root n place named)
        → IsMetaMapSeen (graph_of roles n data_blocks table) image blocks limit role n place named }
{}
