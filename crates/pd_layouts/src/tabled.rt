//! The format that a table gives.

ghost use Rattle.std.specs.Prelude.{◌≡◌, ℕ, ◌<◌, ◌≤◌, IfNone, IfSome, Some, false, length, slice_get};
ghost use Rattle.pd_kinds.specs.declared.limits.TheConstants.{MAX_META_BLOCKS};
ghost use Rattle.pd_kinds.specs.declared.rule.Rule.{Rule as BrokenRule};
ghost use Rattle.pd_kinds.specs.Rule.{has_rule};
ghost use Rattle.pd_kinds.specs.Bitmap.{bitmaps_for, index_block_at};
ghost use Rattle.pd_kinds.specs.Graph.{edge_of};
ghost use Rattle.pd_kinds.specs.Layout.{graph_of, is_tree_layout, layout_bad, layout_edges, tree};
ghost use Rattle.pd_layouts.specs.Layout.{layout_of, tree_of};

use crate::layout::{Layout, LeafValue, Names, Table};
use crate::tree::{
    data_count, data_of_node, edge_count, edge_of_node, key_count, key_of, tree_rules,
};
use pd_array::array_rules;
use pd_bitmap::{bitmap_rules, index_entry, index_rules};
use pd_graph::Format;
use pd_kinds::{Block, Rules, bitmaps_for};
use pd_node::is_inner;
use std::alloc::AllocError;
use std::marker::PhantomData;

/// The format with this table, of so many metadata and data blocks.
pub struct Tabled<T> {
    nr: u64,
    data_blocks: u64,
    table: PhantomData<T>,
    ghost some: { 1 ≤ nr },
    ghost few: { nr ≤ MAX_META_BLOCKS },
}

impl<T: Copy> Clone for Tabled<T> {
    fn clone(&self) -> Result<Self, AllocError> {
        Ok(*self)
    }
}

impl<T: Copy> Copy for Tabled<T> {}

impl<T: Table> Tabled<T> {
    /// The format by this superblock, whose number of metadata blocks is from 1 to `MAX_META_BLOCKS`.
    pub fn of(s: &T::Super) -> Self
        requires some { 1 ≤ T.meta_blocks_of s.now }
        requires few { T.meta_blocks_of s.now ≤ MAX_META_BLOCKS }
        ensures { ⟦<Tabled<T> as Format>⟧.graph result
            ≡ graph_of T.ROLES (T.meta_blocks_of s.now) (T.data_blocks_of s.now)
            (T.layout (T.meta_blocks_of s.now) (T.data_blocks_of s.now)) }
    {
        Tabled {
            nr: T::meta_blocks_of(s),
            data_blocks: T::data_blocks_of(s),
            table: PhantomData,
        }
    }
}

impl<T: Table> Format for Tabled<T> {
    ghost use Rattle.pd_layouts.specs.Layout.{roles_of_graph};
    ghost use Rattle.pd_layouts.specs.Layout.{contents_of, contents_told};

    const ROLES: u8 = T::ROLES;

    ghost ROLES = { T.ROLES };

    ghost graph = { λ format. graph_of T.ROLES format.nr format.data_blocks (T.layout format.nr format.data_blocks) };

    ghost contents = { λ format. contents_of format.nr (T.layout format.nr format.data_blocks) };

    #[tactic(auto, unfolding(pd_kinds::specs::Layout::graph_of))]
    fn nr(&self) -> u64 {
        self.nr
    }

    #[tactic(auto, unfolding(pd_kinds::specs::Layout::graph_of))]
    fn data_blocks(&self) -> u64 {
        self.data_blocks
    }

    #[tactic(auto, unfolding(pd_kinds::specs::Layout::graph_of))]
    fn rules(&self, role: u8, place: u64, b: &Block) -> Rules {
        let layout = T::layout(role, self.data_blocks);
        layout_rules::<T>(self.nr, layout, role, place, b)
    }

    #[tactic(auto, unfolding(pd_kinds::specs::Layout::graph_of))]
    fn is_tree(&self, role: u8) -> bool {
        match tree_in::<T>(role, self.data_blocks) {
            Some(_) => true,
            None => false,
        }
    }

    fn inner_of_any(&self, role: u8, b: &Block) -> bool {
        match tree_in::<T>(role, self.data_blocks) {
            Some(_) => is_inner(b),
            None => false,
        }
    }

    fn edges_of_any(&self, role: u8, b: &Block) -> usize {
        let layout = T::layout(role, self.data_blocks);
        edges_in::<T>(self.nr, layout, role, b)
    }

    fn edge_of_any(&self, role: u8, b: &Block, i: usize) -> (u8, u64) {
        let layout = T::layout(role, self.data_blocks);
        edge_in::<T>(self.nr, layout, role, b, i)
    }

    fn keys_of_any(&self, role: u8, b: &Block) -> usize {
        match tree_in::<T>(role, self.data_blocks) {
            Some((value, names)) => key_count(b, value, names),
            None => 0,
        }
    }

    fn key_of_any(&self, role: u8, b: &Block, i: usize) -> u64 {
        match tree_in::<T>(role, self.data_blocks) {
            Some((value, names)) => key_of(b, value, names, i),
            None => 0,
        }
    }

    fn data_refs_of_any(&self, role: u8, b: &Block) -> usize {
        match tree_in::<T>(role, self.data_blocks) {
            Some((value, names)) => data_count(b, value, names),
            None => 0,
        }
    }

    fn data_ref_of_any(&self, role: u8, b: &Block, i: usize) -> u64 {
        match tree_in::<T>(role, self.data_blocks) {
            Some((value, names)) => data_of_node(b, value, names, i),
            None => 0,
        }
    }

    ghost roles = { λ format. roles_of_graph T.ROLES format.nr format.data_blocks (T.layout format.nr format.data_blocks) };

    ghost lawful = { λ format. T.lawful format.nr format.data_blocks format.some format.few };

    ghost told = { λ format. contents_told T.ROLES format.nr format.data_blocks (T.layout format.nr format.data_blocks) };
}

/// The rules that the block breaks with this layout, in its role and place.
fn layout_rules<T: Table>(nr: u64, layout: Layout, role: u8, place: u64, b: &Block) -> Rules
    requires { nr ≤ MAX_META_BLOCKS }
    ensures { (rule : BrokenRule) → has_rule result rule
        ≡ layout_bad nr role (layout_of (T.super_copy_bad nr role) (T.super_copy_edges role) layout) place b.now.0 rule }
{
    match layout {
        Layout::Copy => T::super_copy_rules(role, place, b, nr),
        Layout::Tree(value, names) => tree_rules(b, value, names, role, place, nr),
        Layout::Bitmap => bitmap_rules(b, place),
        Layout::Index(_) => index_rules(b, place, nr),
        Layout::Array(word) => array_rules(b, place, word),
    }
}

/// How many blocks a block with this layout names.
fn edges_in<T: Table>(nr: u64, layout: Layout, role: u8, b: &Block) -> usize
    requires { nr ≤ MAX_META_BLOCKS }
    ensures { result
        ≡ length (layout_edges nr role (layout_of (T.super_copy_bad nr role) (T.super_copy_edges role) layout) b.now.0) }
{
    match layout {
        Layout::Copy => T::super_copy_edges(role, b).len(),
        Layout::Tree(value, names) => edge_count(b, value, names),
        Layout::Bitmap | Layout::Array(_) => 0,
        Layout::Index(_) => bitmaps_for(nr) as usize,
    }
}

/// The role and the number of block `i`, from 0, that a block with this layout names.
fn edge_in<T: Table>(nr: u64, layout: Layout, role: u8, b: &Block, i: usize) -> (u8, u64)
    requires few { nr ≤ MAX_META_BLOCKS }
    requires within { i < length (layout_edges nr role (layout_of (T.super_copy_bad nr role) (T.super_copy_edges role) layout) b.now.0) }
    ensures { slice_get (layout_edges nr role (layout_of (T.super_copy_bad nr role) (T.super_copy_edges role) layout) b.now.0) i
        ≡ Some (edge_of result.0 result.1) }
{
    match layout {
        Layout::Copy => T::super_copy_edges(role, b).get(i),
        Layout::Tree(value, names) => edge_of_node(b, value, names, role, i),
        // These name nothing.
        Layout::Bitmap | Layout::Array(_) => (role, 0),
        Layout::Index(to) => (to, bitmap_named(b, nr, i)),
    }
}

/// The number of bitmap `i`, from 0, that the index block of so many metadata blocks names.
fn bitmap_named(b: &Block, nr: u64, i: usize) -> u64
    requires few { nr ≤ MAX_META_BLOCKS }
    requires within { i < bitmaps_for nr }
    ensures { result ≡ index_block_at b.now.0 i }
{
    index_entry(b, i).block
}

/// The values of the leaves and what they name, where the blocks in this role are nodes of a tree.
fn tree_in<T: Table>(role: u8, data_blocks: u64) -> Option<(LeafValue, Names)>
    requires { role < T.ROLES }
    ensures some { (nr : ℕ) → IfSome result (λ found. T.layout nr data_blocks role ≡ tree (tree_of found.0 found.1)) }
    ensures none { (nr : ℕ) → IfNone result (is_tree_layout (T.layout nr data_blocks role) ≡ false) }
{
    match T::layout(role, data_blocks) {
        Layout::Tree(value, names) => Some((value, names)),
        Layout::Copy | Layout::Bitmap | Layout::Index(_) | Layout::Array(_) => None,
    }
}
