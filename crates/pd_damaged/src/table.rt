//! What is known of each block of a damaged pool (`thin_repair`).

ghost use Rattle.std.specs.Prelude.{◌≡◌, length};
ghost use Rattle.pd_graph.specs.Marks.{values_of};

use crate::kept::Kept;
use crate::known::{Known, NOTHING, height_over, lies_in};
use pd_graph::BlockTable;
use pd_kinds::{Block, is_outside};
use pd_node::{child, entries};
use pd_salvage::Range;
use pd_value::BlockTime;
use std::alloc::{AllocError, Global};

/// All keys.
const ALL_KEYS: Range = Range {
    low: 0,
    high: 18446744073709551616,
};

/// What is known of each block, in some 80 bytes each.
#[derive(Drop)]
pub(crate) struct KnownTable {
    /// The number of metadata blocks, and of data blocks.
    pub(crate) nr: u64,
    pub(crate) data_blocks: u64,
    known: BlockTable<Option<Known>>,
    ghost places: { length (values_of known) ≡ nr },
}

impl KnownTable {
    ghost use Rattle.std.specs.Prelude.{◌≡◌, ℕ, ◌<◌, ◌==◌, false, true, if◌then◌else◌, None, Some, IfOk, IfSome, IsSome};
    ghost use Rattle.pd_kinds.specs.Graph.{is_outside};
    ghost use Rattle.pd_kinds.specs.Node.{entry_count, is_inner_node};
    ghost use Rattle.pd_damaged.specs.Known.{AreUnder, IsHeightOf, LieInRange, joined_kept, kept_at, known_at, note_at};

    /// A table of so many blocks, of a pool with so many data blocks, in which nothing is known. It reserves all memory;
    /// want of it is the only error.
    pub(crate) fn new(alloc: Global, nr: u64, data_blocks: u64) -> Result<KnownTable, AllocError>
        ensures number { IfOk result (λ table. table.nr ≡ nr) }
        ensures pool { IfOk result (λ table. table.data_blocks ≡ data_blocks) }
        ensures unknown { IfOk result (λ table. (b : ℕ) → note_at table b ≡ None) }
    {
        let known = BlockTable::new(alloc, nr as usize, None)?;
        Ok(KnownTable {
            nr,
            data_blocks,
            known,
        })
    }

    /// What is known of block b.
    pub(crate) fn known(&self, b: u64) -> Option<Known>
        ensures { result ≡ known_at self.now b }
    {
        if is_outside(self.nr, b) {
            Some(NOTHING)
        } else {
            self.known.get(b as usize)
        }
    }

    /// What is kept below block b, and nothing where that isn't known.
    fn kept(&self, b: u64) -> Kept
        ensures { result ≡ kept_at self.now b }
    {
        match self.known(b) {
            Some(known) => known.kept,
            None => Kept::none(),
        }
    }

    /// Knows this of block b.
    pub(crate) fn set(&mut self, b: u64, known: Known)
        requires { b < self.old.nr }
        ensures number { self.new.nr ≡ self.old.nr }
        ensures pool { self.new.data_blocks ≡ self.old.data_blocks }
        ensures known { (c : ℕ) → note_at self.new c ≡ (if c == b then Some known else note_at self.old c) }
    {
        self.known.set(b as usize, Some(known));
    }

    /// The height of an inner node: one more than the greatest one of its children. `None` where that of a child isn't known,
    /// or the node's is above `LEVELS`.
    pub(crate) fn height_of(&self, block: &Block) -> Option<u8>
        requires { is_inner_node block.now.0 ≡ true }
        ensures height { IfSome result (IsHeightOf self.now block.now.0 (entry_count 8 block.now.0)) }
        ensures some { AreUnder 64 self.now block.now.0 (entry_count 8 block.now.0) → IsSome result }
    {
        let mut height = 1;
        for i in 0..entries::<BlockTime>(block) {
            match height_over(height, self.known(child::<BlockTime>(block, i))) {
                Some(over) => height = over,
                None => return None,
            }
        }
        Some(height)
    }

    /// Whether the keys of what is kept below each child of an inner node lie where the node looks for them.
    pub(crate) fn lie_in_range(&self, block: &Block) -> bool
        requires { is_inner_node block.now.0 ≡ true }
        ensures { result ≡ true → LieInRange self.now block.now.0 (entry_count 8 block.now.0) }
    {
        for i in 0..entries::<BlockTime>(block) {
            let range = ALL_KEYS.of_child::<BlockTime>(block, i);
            if !lies_in(&self.kept(child::<BlockTime>(block, i)), &range) {
                return false;
            }
        }
        true
    }

    /// What is kept below the children of an inner node.
    pub(crate) fn joined(&self, block: &Block) -> Kept
        requires { is_inner_node block.now.0 ≡ true }
        ensures { result ≡ joined_kept self.now block.now.0 (entry_count 8 block.now.0) }
    {
        let mut sum = Kept::none();
        for i in 0..entries::<BlockTime>(block) {
            sum = sum.join(self.kept(child::<BlockTime>(block, i)));
        }
        sum
    }
}
