//! A whole tree.

ghost use Rattle.std.specs.Prelude.{◌≡◌, ℕ, ◌+◌, ◌≤◌, List, [], ◌++◌, length, true, OnOk, OnErr, IfOk, IfErr};
ghost use Rattle.pd_kinds.specs.Node.{Entry};
ghost use Rattle.pd_grammar.specs.Need.{need_tree};
ghost use Rattle.pd_laid.specs.Laid.{tree_blocks, tree_root};
ghost use Rattle.pd_image.specs.Device.{IsWritable};
ghost use Rattle.pd_draft.specs.Closed.{IsClosed, StaysClosed, Wrote};
ghost use Rattle.pd_draft.specs.DraftState.{draft_state};
ghost use Rattle.pd_build.specs.Tree.{items_to_come, size_of_first, row_entry, TreeLeft, Grows};
ghost use Rattle.pd_build.specs.Tree.{AreKeysInOrder, blocks_left, root_left, number_left};
ghost use Rattle.pd_build.specs.Building.{CountsBuildFault};

use crate::steps::put_block;
use crate::{BuildFault, LeafBuilder, UpperBuilder};
use pd_draft::Draft;
use pd_image::Device;
use pd_node::write_leaf;
use pd_value::Value;
use std::alloc::{AllocError, Global};
use std::marker::Model;

/// Writes a tree, as the items come: its leaves and then the levels above them. It holds the block of one leaf, and the
/// least key and the place of each leaf.
#[derive(Drop)]
pub struct Builder<V: Value> {
    leaves: LeafBuilder<V>,
    upper: UpperBuilder,
}

impl<V: Value> Model for Builder<V> {
    ghost Value = { TreeLeft };

    ghost view = { λ b. record { leaves = b.leaves; heads = b.upper } };

    ghost invariant = { λ b. AreKeysInOrder b.leaves b.upper };
}

impl<V: Value> Builder<V> {
    /// A tree of `n` items, in the order of their keys. Without items it is one empty leaf.
    pub fn new(alloc: Global, n: u64) -> Result<Builder<V>, AllocError>
        ensures blocks { IfOk result (λ b. (place : ℕ) (items : List Entry)
            → length items ≡ n → blocks_left V.SIZE place b items ≡ tree_blocks V.SIZE place items) }
        ensures root { IfOk result (λ b. (place : ℕ) (items : List Entry)
            → length items ≡ n → root_left place b items ≡ tree_root V.SIZE place items) }
        ensures items { IfOk result (λ b. items_to_come b.leaves ≡ n) }
        ensures room { IfOk result (λ b. number_left b ≡ need_tree V.SIZE n) }
        ensures low { IfOk result (λ b. b.leaves.low ≡ 0) }
    {
        let leaves = LeafBuilder::new(alloc, n)?;
        Ok(Builder {
            leaves,
            upper: UpperBuilder::new(alloc),
        })
    }

    /// Takes an item, whose key is above the last one.
    #[inline]
    pub fn put<D: Device>(
        &mut self,
        draft: &mut Draft<'_, D>,
        key: u64,
        value: V,
    ) -> Result<(), BuildFault>
        requires low { self.old.leaves.low ≤ key }
        requires fits { V.fitting value ≡ true }
        requires more { 1 ≤ items_to_come self.old.leaves }
        requires writable { IsWritable (draft_state draft.old).device }
        requires room { draft.old.next + number_left self.old ≤ (draft_state draft.old).device.blocks }
        requires closed { IsClosed (draft_state draft.old).device }
        ensures same_reference { draft.new.dev.ghost_name ≡ draft.old.dev.ghost_name }
        ensures grows { OnOk result (Grows V.SIZE (record { key = key; value = V.code value }) self.old self.new (draft_state draft.old)
            (draft_state draft.new)) }
        ensures closed { StaysClosed (draft_state draft.old).device (draft_state draft.new).device }
        ensures faults { CountsBuildFault result (draft_state draft.old).device.faults (draft_state draft.new).device.faults }
    {
        if self.leaves.hold(key, value) {
            return Ok(());
        }
        self.end_leaf(draft, key, value)
    }

    /// Takes the last item of the leaf that has begun, and writes that leaf.
    #[inline(never)]
    fn end_leaf<D: Device>(
        &mut self,
        draft: &mut Draft<'_, D>,
        key: u64,
        value: V,
    ) -> Result<(), BuildFault>
        requires low { self.old.leaves.low ≤ key }
        requires fits { V.fitting value ≡ true }
        requires more { 1 ≤ items_to_come self.old.leaves }
        requires last { length self.old.leaves.begun + 1 ≡ size_of_first self.old.leaves.sizes }
        requires writable { IsWritable (draft_state draft.old).device }
        requires room { draft.old.next + number_left self.old ≤ (draft_state draft.old).device.blocks }
        requires closed { IsClosed (draft_state draft.old).device }
        ensures same_reference { draft.new.dev.ghost_name ≡ draft.old.dev.ghost_name }
        ensures grows { OnOk result (Grows V.SIZE (record { key = key; value = V.code value }) self.old self.new (draft_state draft.old)
            (draft_state draft.new)) }
        ensures closed { StaysClosed (draft_state draft.old).device (draft_state draft.new).device }
        ensures faults { CountsBuildFault result (draft_state draft.old).device.faults (draft_state draft.new).device.faults }
    {
        let head = self.leaves.end_leaf(draft, key, value)?;
        add_head(&mut self.upper, head)
    }

    /// Writes what is left of the tree, and answers the place of its root.
    pub fn finish<D: Device>(self, draft: &mut Draft<'_, D>) -> Result<u64, BuildFault>
        requires done { items_to_come self.leaves ≡ 0 }
        requires writable { IsWritable (draft_state draft.old).device }
        requires room { draft.old.next + number_left self ≤ (draft_state draft.old).device.blocks }
        requires closed { IsClosed (draft_state draft.old).device }
        ensures same_reference { draft.new.dev.ghost_name ≡ draft.old.dev.ghost_name }
        ensures wrote { OnOk result (Wrote (blocks_left V.SIZE draft.old.next self []) (draft_state draft.old) (draft_state draft.new)) }
        ensures root { IfOk result (λ root. root ≡ root_left draft.old.next self []) }
        ensures closed { StaysClosed (draft_state draft.old).device (draft_state draft.new).device }
        ensures faults { CountsBuildFault result (draft_state draft.old).device.faults (draft_state draft.new).device.faults }
        ensures fault { IfErr result (λ fault. fault ≡ BuildFault.Device) }
    {
        let _done = self.leaves.is_done();
        if self.upper.is_empty() {
            let place = draft.next();
            let empty: [(u64, V); 0] = [];
            let block = write_leaf::<V>(place, &empty);
            put_block(draft, &block)?;
            return Ok(place);
        }
        self.upper.finish(draft)
    }
}

/// Adds the leaf that was written, if one was.
fn add_head(upper: &mut UpperBuilder, head: Option<(u64, u64)>) -> Result<(), BuildFault>
    ensures added { OnOk result (upper.new ≡ upper.old ++ row_entry head) }
    ensures kept { OnErr result (upper.new ≡ upper.old) }
    ensures fault { IfErr result (λ fault. fault ≡ BuildFault.Memory) }
{
    match head {
        None => Ok(()),
        Some((key, place)) => Ok(upper.add(key, place)?),
    }
}
