//! What a block is in a role.

ghost use Rattle.std.specs.Prelude.{◌≡◌, ◌<◌, true, false, ℕ, ◌≤◌, Bool, List};
ghost use Rattle.pd_kinds.specs.declared.rule.Rule.{Rule as BrokenRule, Rule};
ghost use Rattle.pd_kinds.specs.Node.{child_at, entry_count, is_inner_node, key_at, node_bad, value_at};
ghost use Rattle.pd_kinds.specs.Rule.{has_rule};
ghost use Rattle.pd_kinds.specs.declared.limits.TheConstants.{MAX_META_BLOCKS};
ghost use Rattle.pd_kinds.specs.Graph.{Edge};
ghost use Rattle.pd_kinds.specs.Layout.{Layout as TheLayout, graph_of};
ghost use Rattle.pd_kinds.specs.Lawful.{IsLawful};

use pd_array::Word;
use pd_kinds::{Block, Edges, Rules};
use pd_node::{child, entries, key, node_rules, value};
use pd_value::{BlockTime, Count, Details, IndexEntry, Root, Writeset};

/// What a block is in a role.
#[derive(Clone, Copy, Debug, PartialEq, Eq)]
pub enum Layout {
    /// A superblock or a copy of it.
    Copy,
    /// A node of a tree with such values in its leaves, and what they name.
    Tree(LeafValue, Names),
    /// A bitmap of a space map.
    Bitmap,
    /// The index block of the metadata's bitmaps, whose role this is.
    Index(u8),
    /// A block of an array with such words.
    Array(Word),
}

// What the entries of a tree's leaves name.

/// What each entry of a tree's leaves names, and the range in which it lies.
///
/// A format says this of each of its trees; the number of the block comes from the entry's value.
#[derive(Clone, Copy, Debug, PartialEq, Eq)]
pub enum Names {
    /// No block.
    Nothing,
    /// A metadata block, in this role.
    Metadata(u8),
    /// A metadata block, in this role. The key is an era, below 2 ^ 32.
    MetadataByEra(u8),
    /// A data block, below this number.
    Data(u64),
}

impl Names {
    ghost use Rattle.pd_layouts.specs.Layout.{if_data, if_metadata, role_named};

    /// How many metadata blocks so many entries name.
    pub(crate) fn metadata_of(self, count: usize) -> usize
        ensures { result ≡ if_metadata self count }
    {
        match self {
            Names::Metadata(_) | Names::MetadataByEra(_) => count,
            Names::Nothing | Names::Data(_) => 0,
        }
    }

    /// How many data blocks so many entries name.
    pub(crate) fn data_of(self, count: usize) -> usize
        ensures { result ≡ if_data self count }
    {
        match self {
            Names::Data(_) => count,
            Names::Nothing | Names::Metadata(_) | Names::MetadataByEra(_) => 0,
        }
    }

    /// The role of the metadata blocks that entries name, and 0 where they name none.
    pub(crate) fn role(self) -> u8
        ensures { result ≡ role_named self }
    {
        match self {
            Names::Metadata(role) | Names::MetadataByEra(role) => role,
            Names::Nothing | Names::Data(_) => 0,
        }
    }
}

// The values of a tree's leaves.

/// The values that the leaves of a tree hold.
///
/// Some name a block; what kind of block that is, `Names` says for each tree.
#[derive(Clone, Copy, Debug, PartialEq, Eq)]
pub enum LeafValue {
    /// The number of a metadata block.
    Root,
    /// A mapping of a thin device, which names a data block.
    BlockTime,
    /// The details of a thin device.
    Details,
    /// What an index has of a bitmap, which names the bitmap.
    IndexEntry,
    /// A reference count.
    Count,
    /// An archived writeset, which names the root of its bits.
    Writeset,
}

impl LeafValue {
    ghost use Rattle.pd_layouts.specs.Layout.{value_size, value_target};

    /// The rules of any node that the block in this place breaks.
    pub(crate) fn node_rules(self, b: &Block, place: u64) -> Rules
        ensures { (rule : BrokenRule) → has_rule result rule ≡ node_bad (value_size self) place b.now.0 rule }
    {
        match self {
            LeafValue::Root => node_rules::<Root>(b, place),
            LeafValue::BlockTime => node_rules::<BlockTime>(b, place),
            LeafValue::Details => node_rules::<Details>(b, place),
            LeafValue::IndexEntry => node_rules::<IndexEntry>(b, place),
            LeafValue::Count => node_rules::<Count>(b, place),
            LeafValue::Writeset => node_rules::<Writeset>(b, place),
        }
    }

    /// How many entries the node has.
    pub(crate) fn entries(self, b: &Block) -> usize
        ensures { result ≡ entry_count (value_size self) b.now.0 }
    {
        match self {
            LeafValue::Root => entries::<Root>(b),
            LeafValue::BlockTime => entries::<BlockTime>(b),
            LeafValue::Details => entries::<Details>(b),
            LeafValue::IndexEntry => entries::<IndexEntry>(b),
            LeafValue::Count => entries::<Count>(b),
            LeafValue::Writeset => entries::<Writeset>(b),
        }
    }

    /// The key of entry `i`, from 0.
    pub(crate) fn key(self, b: &Block, i: usize) -> u64
        requires { i < entry_count (value_size self) b.now.0 }
        ensures { result ≡ key_at b.now.0 i }
    {
        match self {
            LeafValue::Root => key::<Root>(b, i),
            LeafValue::BlockTime => key::<BlockTime>(b, i),
            LeafValue::Details => key::<Details>(b, i),
            LeafValue::IndexEntry => key::<IndexEntry>(b, i),
            LeafValue::Count => key::<Count>(b, i),
            LeafValue::Writeset => key::<Writeset>(b, i),
        }
    }

    /// The block that entry `i`, from 0, of an inner node names.
    pub(crate) fn child(self, b: &Block, i: usize) -> u64
        requires entry { i < entry_count (value_size self) b.now.0 }
        requires inner { is_inner_node b.now.0 ≡ true }
        ensures { result ≡ child_at b.now.0 i }
    {
        match self {
            LeafValue::Root => child::<Root>(b, i),
            LeafValue::BlockTime => child::<BlockTime>(b, i),
            LeafValue::Details => child::<Details>(b, i),
            LeafValue::IndexEntry => child::<IndexEntry>(b, i),
            LeafValue::Count => child::<Count>(b, i),
            LeafValue::Writeset => child::<Writeset>(b, i),
        }
    }

    /// The block that the value of entry `i`, from 0, of a leaf names, and 0 where it names none.
    pub(crate) fn named(self, b: &Block, i: usize) -> u64
        requires entry { i < entry_count (value_size self) b.now.0 }
        requires leaf { is_inner_node b.now.0 ≡ false }
        ensures { result ≡ value_target self (value_at (value_size self) b.now.0 i) }
    {
        match self {
            LeafValue::Root => value::<Root>(b, i).0,
            LeafValue::BlockTime => value::<BlockTime>(b, i).block,
            LeafValue::IndexEntry => value::<IndexEntry>(b, i).block,
            LeafValue::Writeset => value::<Writeset>(b, i).root,
            LeafValue::Details | LeafValue::Count => 0,
        }
    }
}

// A format as a table from role to layout.

/// The table of a format: what a block is in each role, where there are so many metadata blocks (`nr`) and
/// data blocks.
///
/// Roles are numbered from 0, the superblock's.
pub trait Table {
    ghost use Rattle.pd_layouts.specs.Layout.{layout_of};

    /// The fields of the superblock.
    type Super;

    /// The number of roles, from 1 to 16.
    const ROLES: u8;

    ghost ROLES: { ℕ };

    // how many metadata and data blocks a superblock says that there are
    ghost meta_blocks_of: { Self.Super → ℕ };

    ghost data_blocks_of: { Self.Super → ℕ };

    // what a block is in a role, for so many metadata and data blocks
    ghost layout: { ℕ → ℕ → ℕ → TheLayout };

    // of the copy of a superblock in a role, for so many metadata blocks: its rules in a place, and its edges
    ghost super_copy_bad: { ℕ → ℕ → ℕ → List ℕ → Rule → Bool };

    ghost super_copy_edges: { ℕ → List ℕ → List Edge };

    /// How many metadata blocks the superblock says that there are.
    fn meta_blocks_of(s: &Self::Super) -> u64
        ensures { result ≡ meta_blocks_of s.now };

    /// How many data blocks it says that there are.
    fn data_blocks_of(s: &Self::Super) -> u64
        ensures { result ≡ data_blocks_of s.now };

    /// What a block is in this role, of so many data blocks.
    fn layout(role: u8, data_blocks: u64) -> Layout
        requires { role < ROLES }
        ensures { (nr : ℕ) → layout nr data_blocks role ≡ layout_of (super_copy_bad nr role) (super_copy_edges role) result };

    /// The rules that the block breaks as the copy of a superblock in this role.
    fn super_copy_rules(role: u8, place: u64, b: &Block, nr: u64) -> Rules
        ensures { (rule : Rule) → has_rule result rule ≡ super_copy_bad nr role place b.now.0 rule };

    /// The blocks that the copy of a superblock in this role names.
    fn super_copy_edges(role: u8, b: &Block) -> Edges
        ensures { result ≡ super_copy_edges role b.now.0 };

    /// The format keeps the laws.
    ghost lawful: { (nr data_blocks : ℕ) → 1 ≤ nr
        → nr ≤ MAX_META_BLOCKS → IsLawful (graph_of ROLES nr data_blocks (layout nr data_blocks)) };
}
