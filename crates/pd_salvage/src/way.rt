//! The nodes on the way from the root of a tree to what comes next (`thin_repair`, `thin_shrink`, `cache_repair`).

ghost use Rattle.std.specs.Prelude.{◌≡◌, ◌≤◌, not, ◌<◌};
ghost use Rattle.std.specs.Vec.{vec_len};
ghost use Rattle.pd_kinds.specs.Node.{entry_count};
ghost use Rattle.pd_laid.specs.Salvage.{is_damaged};
ghost use Rattle.pd_salvage.specs.Range.{is_wanted, child_range, is_in_range};

use pd_image::{Device, Failed};
use pd_kinds::Block;
use pd_node::{entries, key, node_rules};
use pd_tree::{LEVELS, Stack, Step};
use pd_value::Value;
use std::alloc::{AllocError, Global};

/// The way to what comes next, with the keys that are wanted of each node.
///
/// It is for a caller who looks at each node and may forget it. The memory of 64 nodes is reserved in `new`.
///
/// A node that the way left still stands in its place, until another block is read into that place or into one before
/// it. The way knows the blocks of the nodes that the caller kept: where it comes to such a block again, at the same
/// depth, `again` takes it without a read.
#[derive(Drop)]
pub struct Way {
    stack: Stack,
    ranges: Vec<Range>,
    /// The blocks that stand in the places from `from` on and before `known`.
    blocks: Vec<u64>,
    from: usize,
    known: usize,
    ghost ranges_are: { vec_len ranges ≡ 64 },
    ghost blocks_are: { vec_len blocks ≡ 64 },
    ghost known_are: { known ≤ vec_len stack.places },
}

/// What a step takes.
#[derive(Clone, Copy)]
pub enum Taken<V> {
    /// Nothing: a node that nothing is left of, a child that is too deep, or an entry that isn't wanted.
    Passed,
    /// The block of a child, and the keys that are wanted of it.
    Child(u64, Range),
    /// An entry.
    Entry(u64, V),
}

impl Way {
    ghost use Rattle.std.specs.Prelude.{◌≡◌, ℕ, ◌-◌, ◌<◌, ◌≤◌, ◌↔◌, true, IsTrue, OnOk, IfOk};
    ghost use Rattle.pd_kinds.specs.Objects.{CountsFault};
    ghost use Rattle.pd_image.specs.Device.{IsAttached, OnlyReads};
    ghost use Rattle.pd_tree.specs.Stack.{last_place};
    ghost use Rattle.pd_salvage.specs.Way.{range_at};
    ghost use Rattle.pd_salvage.specs.Way.{Forgets, KeepsKnown, KeepsNode, KnowsNothing, number_at};
    ghost use Rattle.pd_salvage.specs.Way.{PopsNode, PushesNode, StepsOnWay, TakesAgain};

    /// No node, and memory reserved for `LEVELS` of them.
    ///
    /// Fails with `AllocError` where that memory wasn't found.
    pub fn new(alloc: Global) -> Result<Way, AllocError>
        ensures { IfOk result (λ way. way.stack.depth ≡ 0) }
    {
        let stack = Stack::new(alloc)?;
        let ranges = vec![in alloc; Range { low: 0, high: 0 }; LEVELS]?;
        let blocks = vec![in alloc; 0; LEVELS]?;
        Ok(Way {
            stack,
            ranges,
            blocks,
            from: 0,
            known: 0,
        })
    }

    /// Whether nothing is left.
    pub fn is_empty(&self) -> bool
        ensures { IsTrue result ↔ (self.now.stack.depth ≡ 0) }
    {
        self.stack.is_empty()
    }

    /// Forgets all nodes, and which blocks stand in the places.
    pub fn clear(&mut self)
        ensures depth { self.new.stack.depth ≡ 0 }
        ensures knows { KnowsNothing self.new }
    {
        self.stack.clear();
        self.from = 0;
        self.known = 0;
    }

    /// Forgets which blocks stand in the places, as another device may come. The nodes on the way stay.
    pub fn forget(&mut self)
        ensures { Forgets self.old self.new }
    {
        let depth = self.stack.depth();
        self.from = depth;
        self.known = depth;
    }

    /// Reads a block into the next place, with the keys that are wanted of it.
    ///
    /// Fails with `Failed` where the read failed; then nothing is said of what is left.
    pub fn push<V: Value, D: Device>(
        &mut self,
        dev: &mut D,
        b: u64,
        range: Range,
    ) -> Result<(), Failed>
        requires attached { IsAttached (D.state dev.old) }
        requires within { b < (D.state dev.old).blocks }
        requires room { self.old.stack.depth < 64 }
        ensures pushes { OnOk result (PushesNode V.SIZE (D.state dev.old).held b range self.old self.new) }
        ensures kept { OnlyReads (D.state dev.old) (D.state dev.new) }
        ensures faults { CountsFault result (D.state dev.old).faults (D.state dev.new).faults }
    {
        let depth = self.stack.depth();
        let from = self.known_from(depth);
        self.from = 0;
        self.known = 0;
        self.ranges[depth] = range;
        self.stack.push::<V, D>(dev, b)?;
        self.from = from;
        self.known = depth;
        Ok(())
    }

    /// From which place on all before this one are known.
    fn known_from(&self, depth: usize) -> usize
        ensures { (d : ℕ) → result ≤ d → d < depth → (self.now.from ≤ d) × (d < self.now.known) }
    {
        if self.from <= depth && depth <= self.known {
            self.from
        } else {
            depth
        }
    }

    /// Takes a block into the next place without a read, with the keys that are wanted of it, and answers `true`, where
    /// it is known that the block stands there. Else nothing changes.
    pub fn again<V: Value>(&mut self, b: u64, range: Range) -> bool
        requires room { self.old.stack.depth < 64 }
        ensures { TakesAgain V.SIZE result b range self.old self.new }
    {
        if !self.stands_next(b) {
            return false;
        }
        self.ranges[self.stack.depth()] = range;
        self.stack.again::<V>();
        true
    }

    /// Whether it is known that the block stands in the next place.
    fn stands_next(&self, b: u64) -> bool
        ensures known { result ≡ true → (self.now.from ≤ self.now.stack.depth) × (self.now.stack.depth < self.now.known) }
        ensures number { result ≡ true → number_at self.now self.now.stack.depth ≡ b }
    {
        let depth = self.stack.depth();
        if depth < self.from {
            return false;
        }
        if depth >= self.known {
            return false;
        }
        self.blocks[depth] == b
    }

    /// Knows that the block stands in the place of the last node. It must have been read there.
    pub fn keep(&mut self, b: u64)
        requires { 0 < self.old.stack.depth }
        ensures { KeepsNode b self.old self.new }
    {
        let last = self.stack.depth() - 1;
        if self.known == last {
            self.blocks[last] = b;
            self.known = last + 1;
        }
    }

    /// The last node.
    pub fn top(&self) -> &Block
        requires { 0 < self.now.stack.depth }
        ensures { result.now ≡ (last_place self.now.stack).block }
    {
        self.stack.top()
    }

    /// Forgets the last node.
    pub fn pop(&mut self)
        requires { 0 < self.old.stack.depth }
        ensures { PopsNode self.old self.new }
    {
        self.stack.pop();
    }

    /// Goes on at the last node.
    pub fn step<V: Value>(&mut self) -> Taken<V>
        requires { 0 < self.old.stack.depth }
        ensures steps { StepsOnWay V.SIZE V.decoded V.fitting result self.old self.new }
        ensures knows { KeepsKnown self.old self.new }
    {
        match self.stack.step::<V>() {
            Step::Passed => Taken::Passed,
            Step::Child(b) => {
                let i = self.stack.taken() - 1;
                let range = self.range().of_child::<V>(self.stack.top(), i);
                Taken::Child(b, range)
            }
            Step::Entry(key, value) => {
                if self.range().has(key) {
                    Taken::Entry(key, value)
                } else {
                    Taken::Passed
                }
            }
        }
    }

    /// The keys that are wanted of the last node.
    fn range(&self) -> Range
        requires { 0 < self.now.stack.depth }
        ensures { result ≡ range_at self.now.ranges.items (self.now.stack.depth - 1) }
    {
        self.ranges[self.stack.depth() - 1]
    }
}

/// Whether the block lies in the metadata, of so many blocks, and keys are wanted of it.
pub fn is_wanted(b: u64, range: &Range, nr: u64) -> bool
    ensures { result ≡ is_wanted nr b range.now }
{
    (b != 0) & (b < nr) & ((range.low as u128) < range.high)
}

/// Whether the block is undamaged as the node in this place.
pub fn is_sound<V: Value>(block: &Block, place: u64) -> bool
    ensures { result ≡ not (is_damaged V.SIZE place block.now.0) }
{
    node_rules::<V>(block, place).is_empty()
}

// The keys that are wanted of a node (`thin_repair`, `thin_shrink`, `cache_repair`).

/// The keys that are wanted of a node.
#[derive(Clone, Copy)]
pub struct Range {
    /// The least key.
    pub low: u64,
    /// The end of the keys, without which they are: 2^64 at the most.
    pub high: u128,
}

impl Range {
    /// Whether the key is wanted.
    pub fn has(&self, key: u64) -> bool
        ensures { result ≡ is_in_range self.now key }
    {
        (key >= self.low) & ((key as u128) < self.high)
    }

    /// The part that is wanted of the node's child `i`.
    pub fn of_child<V: Value>(&self, node: &Block, i: usize) -> Range
        requires { i < entry_count V.SIZE node.now.0 }
        ensures { result ≡ child_range V.SIZE node.now.0 self.now i }
    {
        let low = key::<V>(node, i).max(self.low);
        if entries::<V>(node) - i == 1 {
            Range {
                low,
                high: self.high,
            }
        } else {
            let next = key::<V>(node, i + 1) as u128;
            Range {
                low,
                high: next.min(self.high),
            }
        }
    }
}
