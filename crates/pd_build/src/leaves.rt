//! The leaves of a tree.

ghost use Rattle.std.specs.Prelude.{◌≡◌, ◌+◌, ◌≤◌, List, [], length, true, false, None, OnErr, IfOk, nat_eq};
ghost use Rattle.pd_kinds.specs.Node.{Entry, max_entries};
ghost use Rattle.pd_grammar.specs.Need.{nodes_for};
ghost use Rattle.pd_laid.specs.Laid.{tree_leaves};
ghost use Rattle.pd_node.specs.Items.{IsBegun, entries_in};
ghost use Rattle.pd_image.specs.Device.{IsWritable};
ghost use Rattle.pd_draft.specs.Closed.{IsClosed, StaysClosed, DraftState};
ghost use Rattle.pd_draft.specs.DraftState.{draft_state};
ghost use Rattle.pd_build.specs.Tree.{even_sizes, LeavesLeft, items_to_come, leaves_to_come, size_of_first};
ghost use Rattle.pd_build.specs.Tree.{TakesItem, AreCounts, low_of, low_after, LosesLeaf};
ghost use Rattle.pd_build.specs.Building.{CountsBuildFault};

use crate::BuildFault;
use crate::steps::{parts, put_block};
use pd_draft::Draft;
use pd_image::Device;
use pd_kinds::Block;
use pd_node::{first_key, max_entries_of, new_leaf, put_entry, seal_leaf};
use pd_value::Value;
use std::alloc::{AllocError, Global};
use std::marker::{Model, PhantomData};

/// Writes the leaves of a tree, as the items come: the fewest that hold them, spread evenly. It holds the block of one
/// leaf.
#[derive(Drop)]
pub struct LeafBuilder<V: Value> {
    /// How many leaves are to come, with the one that has begun.
    leaves: u64,
    /// How many items these leaves have.
    items: u64,
    /// How many items the first of them has.
    size: u64,
    /// How many items of the first of them were put.
    count: u64,
    /// The leaf that has begun: those items in their places, and zeros elsewhere.
    block: Box<Block>,
    /// The last key of the leaves before that one.
    last: Option<u64>,
    values: PhantomData<V>,
}

impl<V: Value> Model for LeafBuilder<V> {
    ghost Value = { LeavesLeft };

    ghost view = { λ b. record {
      sizes = even_sizes b.leaves b.items;
      begun = entries_in V.SIZE b.block.value.0 b.count;
      low = low_after
          (low_of b.last) (entries_in V.SIZE b.block.value.0 b.count);
    } };

    ghost invariant = { λ b. AreCounts (max_entries V.SIZE) b.leaves b.items b.size b.count
        × IsBegun V.SIZE b.block.value.0 b.count };
}

impl<V: Value> LeafBuilder<V> {
    /// The leaves of `n` items, in the order of their keys. Without items there are none.
    pub fn new(alloc: Global, n: u64) -> Result<LeafBuilder<V>, AllocError>
        ensures leaves { 1 ≤ n → IfOk result (λ b. (items : List Entry)
            → length items ≡ n → leaves_to_come b items ≡ tree_leaves V.SIZE items) }
        ensures items { IfOk result (λ b. items_to_come b ≡ n) }
        ensures number { IfOk result (λ b. length b.sizes ≡ nodes_for (max_entries V.SIZE) n) }
        ensures low { IfOk result (λ b. b.low ≡ 0) }
        ensures begun { IfOk result (λ b. b.begun ≡ []) }
    {
        let most = max_entries_of(V::SIZE) as u64;
        let leaves = parts(n, most);
        let block = Box::new(alloc, new_leaf())?;
        Ok(LeafBuilder {
            leaves,
            items: n,
            size: first_of(leaves, n),
            count: 0,
            block,
            last: None,
            values: PhantomData,
        })
    }

    /// Whether all items were put, and so all leaves written.
    pub fn is_done(&self) -> bool
        ensures done { result ≡ nat_eq (items_to_come self.now) 0 }
        ensures sizes { items_to_come self.now ≡ 0 → self.now.sizes ≡ [] }
    {
        self.leaves == 0
    }

    /// Takes an item. Where it ends a leaf, that is written, and its least key and place are answered.
    #[inline]
    pub fn put<D: Device>(
        &mut self,
        draft: &mut Draft<'_, D>,
        key: u64,
        value: V,
    ) -> Result<Option<(u64, u64)>, BuildFault>
        requires low { self.old.low ≤ key }
        requires fits { V.fitting value ≡ true }
        requires more { 1 ≤ items_to_come self.old }
        requires writable { IsWritable (draft_state draft.old).device }
        requires room { draft.old.next + length self.old.sizes ≤ (draft_state draft.old).device.blocks }
        requires closed { IsClosed (draft_state draft.old).device }
        ensures same_reference { draft.new.dev.ghost_name ≡ draft.old.dev.ghost_name }
        ensures takes { IfOk result (λ head. TakesItem V.SIZE (record { key = key; value = V.code value }) head self.old self.new
            (draft_state draft.old) (draft_state draft.new)) }
        ensures lost { OnErr result (LosesLeaf self.old (record { key = key; value = V.code value }) self.new) }
        ensures closed { StaysClosed (draft_state draft.old).device (draft_state draft.new).device }
        ensures faults { CountsBuildFault result (draft_state draft.old).device.faults (draft_state draft.new).device.faults }
    {
        if self.hold(key, value) {
            return Ok(None);
        }
        self.end_leaf(draft, key, value)
    }

    /// Takes an item where it doesn't end a leaf, and answers whether it did: else all stays as it was.
    #[inline]
    pub(crate) fn hold(&mut self, key: u64, value: V) -> bool
        requires fits { V.fitting value ≡ true }
        requires more { 1 ≤ items_to_come self.old }
        ensures held { result ≡ true → (now : DraftState) → IsClosed now.device
            → TakesItem V.SIZE (record { key = key; value = V.code value }) None self.old self.new now now }
        ensures kept { result ≡ false → self.new ≡ self.old }
        ensures last { result ≡ false → length self.old.begun + 1 ≡ size_of_first self.old.sizes }
    {
        let count = self.count + 1;
        if count < self.size {
            put_entry(&mut self.block, self.count as usize, key, value);
            self.count = count;
            return true;
        }
        false
    }

    /// Takes the last item of the leaf that has begun, and writes that leaf.
    #[inline(never)]
    pub(crate) fn end_leaf<D: Device>(
        &mut self,
        draft: &mut Draft<'_, D>,
        key: u64,
        value: V,
    ) -> Result<Option<(u64, u64)>, BuildFault>
        requires fits { V.fitting value ≡ true }
        requires more { 1 ≤ items_to_come self.old }
        requires last { length self.old.begun + 1 ≡ size_of_first self.old.sizes }
        requires writable { IsWritable (draft_state draft.old).device }
        requires room { draft.old.next + length self.old.sizes ≤ (draft_state draft.old).device.blocks }
        requires closed { IsClosed (draft_state draft.old).device }
        ensures same_reference { draft.new.dev.ghost_name ≡ draft.old.dev.ghost_name }
        ensures takes { IfOk result (λ head. TakesItem V.SIZE (record { key = key; value = V.code value }) head self.old self.new
            (draft_state draft.old) (draft_state draft.new)) }
        ensures lost { OnErr result (LosesLeaf self.old (record { key = key; value = V.code value }) self.new) }
        ensures closed { StaysClosed (draft_state draft.old).device (draft_state draft.new).device }
        ensures faults { CountsBuildFault result (draft_state draft.old).device.faults (draft_state draft.new).device.faults }
    {
        put_entry(&mut self.block, self.count as usize, key, value);
        let place = draft.next();
        let least = first_key(&self.block);
        seal_leaf::<V>(&mut self.block, place, self.size as usize);
        let written = put_block(draft, &self.block);
        *self.block = new_leaf();
        self.count = 0;
        self.last = Some(key);
        self.leaves -= 1;
        self.items -= self.size;
        self.size = first_of(self.leaves, self.items);
        written?;
        Ok(Some((least, place)))
    }
}

/// The size of the first of so many leaves.
fn first_of(leaves: u64, items: u64) -> u64
    ensures { 1 ≤ leaves → result ≡ nodes_for leaves items }
{
    if leaves == 0 {
        return 0;
    }
    parts(items, leaves)
}
