//! What a salvage keeps below each block of a damaged pool, found once a block (`thin_repair`).

ghost use Rattle.std.specs.Prelude.{◌≡◌, ℕ, ◌≤◌, false, true, IfOk, IfSome, IsSome};
ghost use Rattle.pd_kinds.specs.Graph.{block_at, is_outside};
ghost use Rattle.pd_kinds.specs.Image.{HasBytes};
ghost use Rattle.pd_kinds.specs.Node.{entry_count, is_inner_node};
ghost use Rattle.pd_kinds.specs.Objects.{CountsFault};
ghost use Rattle.pd_image.specs.Device.{IsAttached, OnlyReads};
ghost use Rattle.pd_laid.specs.Salvage.{is_damaged};
ghost use Rattle.pd_damaged.specs.Kept.{kept_below, measure_of};
ghost use Rattle.pd_damaged.specs.Known.{AreKnown, AreUnder, IsKnownOf, IsLow, KnowsBelow};

use crate::kept::{Kept, kept_of_cursor, kept_of_leaf};
use crate::known::{Known, LEVELS, NOTHING};
use crate::table::KnownTable;
use pd_image::{Device, Failed};
use pd_kinds::{Block, CheckFault, MAX_META_BLOCKS};
use pd_node::is_inner;
use pd_salvage::{SavedCursor, is_sound};
use pd_value::BlockTime;
use std::alloc::{AllocError, Global};

/// How many rounds find all that there is to know: those of each height up to `LEVELS`.
const ROUNDS: u8 = LEVELS + 1;

/// What is kept below a block, by all entries of its tree.
fn kept_of_tree<D: Device>(
    table: &KnownTable,
    mappings: &mut SavedCursor<BlockTime>,
    dev: &mut D,
    root: u64,
) -> Result<Kept, Failed>
    requires attached { IsAttached (D.state dev.old) }
    requires within { table.now.nr ≤ (D.state dev.old).blocks }
    ensures below { IfOk result (λ kept. IfSome (D.state dev.old).held
        (λ image. kept ≡ measure_of (kept_below table.now.nr table.now.data_blocks image root))) }
    ensures kept { OnlyReads (D.state dev.old) (D.state dev.new) }
    ensures faults { CountsFault result (D.state dev.old).faults (D.state dev.new).faults }
{
    mappings.restart(table.nr, root);
    kept_of_cursor(mappings, dev, table.data_blocks)
}

/// What there is to know of an undamaged inner node, where all its children are known.
fn look_at_inner<D: Device>(
    table: &KnownTable,
    mappings: &mut SavedCursor<BlockTime>,
    dev: &mut D,
    b: u64,
    block: &Block,
) -> Result<Option<Known>, Failed>
    requires attached { IsAttached (D.state dev.old) }
    requires within { table.now.nr ≤ (D.state dev.old).blocks }
    requires inside { is_outside table.now.nr b ≡ false }
    requires inner { is_inner_node block.now.0 ≡ true }
    ensures found { IfOk result (λ found. IfSome (D.state dev.old).held (λ image. block_at image b ≡ block.now.0
        → is_damaged 8 b block.now.0 ≡ false → AreKnown image table.now
        → IfSome found (IsKnownOf table.now.nr table.now.data_blocks image b))) }
    ensures some { IfOk result (λ found. AreUnder 64 table.now block.now.0 (entry_count 8 block.now.0) → IsSome found) }
    ensures kept { OnlyReads (D.state dev.old) (D.state dev.new) }
    ensures faults { CountsFault result (D.state dev.old).faults (D.state dev.new).faults }
{
    match table.height_of(block) {
        Some(height) => {
            let kept = if table.lie_in_range(block) {
                table.joined(block)
            } else {
                kept_of_tree(table, mappings, dev, b)?
            };
            Ok(Some(Known { height, kept }))
        }
        None => Ok(None),
    }
}

/// What there is to know of a block that was read: of an inner node only where all its children are known.
fn look_at<D: Device>(
    table: &KnownTable,
    mappings: &mut SavedCursor<BlockTime>,
    dev: &mut D,
    b: u64,
    block: &Block,
) -> Result<Option<Known>, Failed>
    requires attached { IsAttached (D.state dev.old) }
    requires within { table.now.nr ≤ (D.state dev.old).blocks }
    requires inside { is_outside table.now.nr b ≡ false }
    ensures found { IfOk result (λ found. IfSome (D.state dev.old).held (λ image. HasBytes image → block_at image b ≡ block.now.0
        → AreKnown image table.now → IfSome found (IsKnownOf table.now.nr table.now.data_blocks image b))) }
    ensures some { IfOk result (λ found. IfSome (D.state dev.old).held (λ image. block_at image b ≡ block.now.0
        → AreKnown image table.now → (h : ℕ) → h ≤ 64 → IsLow table.now.nr image h b → KnowsBelow image h table.now → IsSome found)) }
    ensures kept { OnlyReads (D.state dev.old) (D.state dev.new) }
    ensures faults { CountsFault result (D.state dev.old).faults (D.state dev.new).faults }
{
    if !is_sound::<BlockTime>(block, b) {
        return Ok(Some(NOTHING));
    }
    if is_inner(block) {
        return look_at_inner(table, mappings, dev, b, block);
    }
    Ok(Some(Known {
        height: 1,
        kept: kept_of_leaf(block, table.data_blocks),
    }))
}

/// What a salvage keeps below each block of a pool without a superblock, taken as the root of a device's mappings.
///
/// What stands below a block is found once, from its children, where all keys below each child lie where the block looks for
/// them. Else the block's tree is gone over. On a cycle of blocks and above one nothing is known, and the tree is gone over at
/// each question.
#[derive(Drop)]
pub struct Remains {
    table: KnownTable,
    mappings: SavedCursor<BlockTime>,
}

impl Remains {
    ghost use Rattle.std.specs.Prelude.{◌≡◌, ℕ, ◌+◌, ◌<◌, ◌≤◌, List, false, min, OnOk, IfOk, IfSome};
    ghost use Rattle.pd_kinds.specs.CheckFault.{CountsCheckFault};
    ghost use Rattle.pd_kinds.specs.Objects.{CountsFault};
    ghost use Rattle.pd_kinds.specs.declared.limits.TheConstants.{MAX_META_BLOCKS};
    ghost use Rattle.pd_image.specs.Device.{IsAttached, OnlyReads};
    ghost use Rattle.pd_damaged.specs.Kept.{kept_below, measure_of};
    ghost use Rattle.pd_damaged.specs.Known.{AreRight, IsLookedAt, Knows, KnowsBelow, KnowsLow, KnowsTheSame};
    ghost use Rattle.pd_damaged.specs.Known.{data_blocks_of, meta_blocks_of};

    /// Those of a pool with so many metadata blocks and data blocks, before anything is known. It reserves all memory; want
    /// of it is the only error.
    fn unknown(alloc: Global, nr: u64, data_blocks: u64) -> Result<Remains, AllocError>
        ensures number { IfOk result (λ remains. meta_blocks_of remains ≡ nr) }
        ensures pool { IfOk result (λ remains. data_blocks_of remains ≡ data_blocks) }
        ensures right { IfOk result (λ remains. (image : List (List ℕ)) → AreRight image remains) }
    {
        let table = KnownTable::new(alloc, nr, data_blocks)?;
        let mappings = SavedCursor::start(alloc, nr, 0)?;
        Ok(Remains { table, mappings })
    }

    /// Reads block b, and knows what there is to know of it. Whether that is something new.
    fn look<D: Device>(&mut self, dev: &mut D, b: u64) -> Result<bool, Failed>
        requires attached { IsAttached (D.state dev.old) }
        requires within { meta_blocks_of self.old ≤ (D.state dev.old).blocks }
        requires some { 1 ≤ b }
        requires inside { b < meta_blocks_of self.old }
        ensures right { OnOk result (IfSome (D.state dev.old).held (λ image. AreRight image self.old → AreRight image self.new)) }
        ensures looks { OnOk result (IfSome (D.state dev.old).held
            (λ image. AreRight image self.old → IsLookedAt image self.old self.new b)) }
        ensures keeps { (c : ℕ) → Knows self.old c → Knows self.new c }
        ensures still { IfOk result (λ found. found ≡ false → KnowsTheSame self.old self.new) }
        ensures number { meta_blocks_of self.new ≡ meta_blocks_of self.old }
        ensures pool { data_blocks_of self.new ≡ data_blocks_of self.old }
        ensures kept { OnlyReads (D.state dev.old) (D.state dev.new) }
        ensures faults { CountsFault result (D.state dev.old).faults (D.state dev.new).faults }
    {
        let mut block = Block::zeros();
        dev.read(b, &mut block)?;
        match look_at(&self.table, &mut self.mappings, dev, b, &block)? {
            Some(known) => {
                self.table.set(b, known);
                Ok(true)
            }
            None => Ok(false),
        }
    }

    /// Looks at block b, where nothing is known of it.
    fn look_again<D: Device>(&mut self, dev: &mut D, b: u64) -> Result<bool, Failed>
        requires attached { IsAttached (D.state dev.old) }
        requires within { meta_blocks_of self.old ≤ (D.state dev.old).blocks }
        requires some { 1 ≤ b }
        requires inside { b < meta_blocks_of self.old }
        ensures right { OnOk result (IfSome (D.state dev.old).held (λ image. AreRight image self.old → AreRight image self.new)) }
        ensures looks { OnOk result (IfSome (D.state dev.old).held
            (λ image. AreRight image self.old → IsLookedAt image self.old self.new b)) }
        ensures keeps { (c : ℕ) → Knows self.old c → Knows self.new c }
        ensures still { IfOk result (λ found. found ≡ false → KnowsTheSame self.old self.new) }
        ensures number { meta_blocks_of self.new ≡ meta_blocks_of self.old }
        ensures pool { data_blocks_of self.new ≡ data_blocks_of self.old }
        ensures kept { OnlyReads (D.state dev.old) (D.state dev.new) }
        ensures faults { CountsFault result (D.state dev.old).faults (D.state dev.new).faults }
    {
        match self.table.known(b) {
            Some(_) => Ok(false),
            None => self.look(dev, b),
        }
    }

    /// Looks at each block of which nothing is known. Whether something new is known then.
    fn look_round<D: Device>(&mut self, dev: &mut D) -> Result<bool, Failed>
        requires attached { IsAttached (D.state dev.old) }
        requires within { meta_blocks_of self.old ≤ (D.state dev.old).blocks }
        ensures right { OnOk result (IfSome (D.state dev.old).held (λ image. AreRight image self.old → AreRight image self.new)) }
        ensures more { OnOk result (IfSome (D.state dev.old).held (λ image. AreRight image self.old
            → (h : ℕ) → h ≤ 64 → KnowsBelow image h self.old.table → KnowsBelow image (h + 1) self.new.table)) }
        ensures all { IfOk result (λ found. IfSome (D.state dev.old).held
            (λ image. AreRight image self.old → found ≡ false → KnowsLow image self.new)) }
        ensures number { meta_blocks_of self.new ≡ meta_blocks_of self.old }
        ensures pool { data_blocks_of self.new ≡ data_blocks_of self.old }
        ensures kept { OnlyReads (D.state dev.old) (D.state dev.new) }
        ensures faults { CountsFault result (D.state dev.old).faults (D.state dev.new).faults }
    {
        let mut found = false;
        for b in 1..self.table.nr {
            found |= self.look_again(dev, b)?;
        }
        Ok(found)
    }

    /// Looks at the blocks round after round, until a round finds nothing new: a round for each level of the trees at most.
    fn look_rounds<D: Device>(&mut self, dev: &mut D) -> Result<(), Failed>
        requires attached { IsAttached (D.state dev.old) }
        requires within { meta_blocks_of self.old ≤ (D.state dev.old).blocks }
        ensures right { OnOk result (IfSome (D.state dev.old).held (λ image. AreRight image self.old → AreRight image self.new)) }
        ensures all { OnOk result (IfSome (D.state dev.old).held (λ image. AreRight image self.old → KnowsLow image self.new)) }
        ensures number { meta_blocks_of self.new ≡ meta_blocks_of self.old }
        ensures pool { data_blocks_of self.new ≡ data_blocks_of self.old }
        ensures kept { OnlyReads (D.state dev.old) (D.state dev.new) }
        ensures faults { CountsFault result (D.state dev.old).faults (D.state dev.new).faults }
    {
        'rounds: for round in 0..ROUNDS {
            if !self.look_round(dev)? {
                return Ok(());
            }
        }
        Ok(())
    }

    /// Finds what is kept below each block of a pool with so many data blocks, whatever its block 0 holds.
    ///
    /// The device is only read: each block once, and an inner node once more for each round until its children are known, 64
    /// times at most. It reserves some 80 bytes for each of its blocks, of which it looks at no more than `MAX_META_BLOCKS`,
    /// and some 265 KiB, which are used as far as trees are deep.
    ///
    /// Fails with `CheckFault::Memory` where memory wasn't found, and with `CheckFault::Device` where a read failed.
    pub fn find<D: Device>(
        alloc: Global,
        dev: &mut D,
        data_blocks: u64,
    ) -> Result<Remains, CheckFault>
        requires attached { IsAttached (D.state dev.old) }
        ensures right { IfOk result (λ remains. IfSome (D.state dev.old).held (λ image. AreRight image remains)) }
        ensures all { IfOk result (λ remains. IfSome (D.state dev.old).held (λ image. KnowsLow image remains)) }
        ensures number { IfOk result (λ remains. meta_blocks_of remains ≡ min (D.state dev.old).blocks MAX_META_BLOCKS) }
        ensures pool { IfOk result (λ remains. data_blocks_of remains ≡ data_blocks) }
        ensures kept { OnlyReads (D.state dev.old) (D.state dev.new) }
        ensures faults { CountsCheckFault result (D.state dev.old).faults (D.state dev.new).faults }
    {
        let nr = dev.blocks().min(MAX_META_BLOCKS);
        let mut remains = Remains::unknown(alloc, nr, data_blocks)?;
        remains.look_rounds(dev)?;
        Ok(remains)
    }

    /// The number of metadata blocks.
    pub(crate) fn nr(&self) -> u64
        ensures { result ≡ meta_blocks_of self.now }
    {
        self.table.nr
    }

    /// What is kept below this block, whatever the block is. It takes no memory, and reads nothing where that is known.
    ///
    /// Fails with `Failed` where a read failed.
    pub fn below<D: Device>(&mut self, dev: &mut D, root: u64) -> Result<Kept, Failed>
        requires attached { IsAttached (D.state dev.old) }
        requires within { meta_blocks_of self.old ≤ (D.state dev.old).blocks }
        ensures below { IfOk result (λ kept. IfSome (D.state dev.old).held (λ image. AreRight image self.old
            → kept ≡ measure_of (kept_below (meta_blocks_of self.old) (data_blocks_of self.old) image root))) }
        ensures same { KnowsTheSame self.old self.new }

        // Nothing is read where the block is known.
        ensures once { Knows self.old root → dev.new ≡ dev.old }
        ensures kept { OnlyReads (D.state dev.old) (D.state dev.new) }
        ensures faults { CountsFault result (D.state dev.old).faults (D.state dev.new).faults }
    {
        match self.table.known(root) {
            Some(known) => Ok(known.kept),
            None => kept_of_tree(&self.table, &mut self.mappings, dev, root),
        }
    }
}
