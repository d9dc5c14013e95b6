//! A thin pool's superblock, read and written.

ghost use Rattle.std.specs.Prelude.{◌≡◌, ℕ, false, map};
ghost use Rattle.pd_kinds.specs.declared.rule.Rule.TheVariants.{Checksum, Place, Magic};
ghost use Rattle.pd_kinds.specs.ThinFormat.{thin_fields, thin_rows, thin_super_bad, thin_super_block, are_thin_sizes_bad};
ghost use Rattle.pd_kinds.specs.ThinFormat.{thin_super_edges, thin_super_tests, thin_held_bad, thin_held_edges, thin_held_tests};
ghost use Rattle.pd_kinds.specs.declared.rule.Rule.{Rule as BrokenRule};
ghost use Rattle.pd_kinds.specs.Rule.{failing, has_rule};
ghost use Rattle.pd_supers.specs.Table.{row_of};

use crate::shared::Number::{self, Eight, Four};
use crate::shared::{put_rows, read_map_root, sixteen_at, super_block, super_rules};
use pd_kinds::{Block, Edges, Kind, Rule, Rules, ThinSuper, is_meta_size_bad, u32_at, u64_at};

/// The fields of a thin superblock, whatever rules it breaks.
pub fn read_thin_super(block: &Block) -> ThinSuper
    ensures { result ≡ thin_fields block.now.0 }
{
    ThinSuper {
        flags: u32_at(&block.0, 4),
        uuid: sixteen_at(block, 16),
        version: u32_at(&block.0, 40),
        time: u32_at(&block.0, 44),
        transaction: u64_at(&block.0, 48),
        held_root: u64_at(&block.0, 56),
        data_map: read_map_root(block, 64),
        meta_map: read_map_root(block, 192),
        mapping_root: u64_at(&block.0, 320),
        details_root: u64_at(&block.0, 328),
        block_size: u32_at(&block.0, 336),
        meta_block_size: u32_at(&block.0, 340),
        meta_blocks: u64_at(&block.0, 344),
        compat: u32_at(&block.0, 352),
        compat_ro: u32_at(&block.0, 356),
        incompat: u32_at(&block.0, 360),
    }
}

/// The superblock with these fields, sealed for block 0. Every other byte is 0.
pub fn write_thin_super(s: &ThinSuper) -> Block
    ensures block { result.0 ≡ thin_super_block s.now }
    // Reading what was written gives the same fields.
    ensures reads_back { thin_fields result.0 ≡ s.now }
    ensures checksum { (n : ℕ) → thin_super_bad n result.0 Checksum ≡ false }
    ensures place { (n : ℕ) → thin_super_bad n result.0 Place ≡ false }
    ensures magic { (n : ℕ) → thin_super_bad n result.0 Magic ≡ false }
{
    let mut block = Block::zeros();
    put_rows(&mut block, &rows_of(s));
    super_block(Kind::Thin, &s.uuid, block)
}

/// The numbers of the superblock, each at its offset.
fn rows_of(s: &ThinSuper) -> [(usize, Number); 21]
    ensures { map row_of result ≡ thin_rows s.now }
{
    [
        (4, Four(s.flags)),
        (40, Four(s.version)),
        (44, Four(s.time)),
        (48, Eight(s.transaction)),
        (56, Eight(s.held_root)),
        (64, Eight(s.data_map.blocks)),
        (72, Eight(s.data_map.allocated)),
        (80, Eight(s.data_map.bitmap_root)),
        (88, Eight(s.data_map.overflow_root)),
        (192, Eight(s.meta_map.blocks)),
        (200, Eight(s.meta_map.allocated)),
        (208, Eight(s.meta_map.bitmap_root)),
        (216, Eight(s.meta_map.overflow_root)),
        (320, Eight(s.mapping_root)),
        (328, Eight(s.details_root)),
        (336, Four(s.block_size)),
        (340, Four(s.meta_block_size)),
        (344, Eight(s.meta_blocks)),
        (352, Four(s.compat)),
        (356, Four(s.compat_ro)),
        (360, Four(s.incompat)),
    ]
}

// The rules that a thin superblock and its held copy break, and the blocks that they name.

/// The greatest number of data blocks that the tools take.
const MAX_DATA_BLOCKS: u64 = 1 << 40;

/// The rules that block 0 of a thin pool breaks, on a metadata device of so many blocks.
#[tactic(auto, unfolding(pd_kinds::specs::ThinFormat::thin_super_bad))]
pub fn thin_super_rules(block: &Block, device_blocks: u64) -> Rules
    ensures { (rule : BrokenRule) → has_rule result rule ≡ thin_super_bad device_blocks block.now.0 rule }
{
    super_rules(Kind::Thin, block, table_rules(block, device_blocks))
}

/// The rules that are looked at each by itself.
#[tactic(auto, unfolding(pd_kinds::specs::ThinFormat::thin_super_tests, pd_kinds::specs::ThinFormat::are_thin_sizes_bad, pd_kinds::specs::Rule::failing))]
fn table_rules(block: &Block, device_blocks: u64) -> Rules
    ensures { (rule : BrokenRule) → has_rule result rule ≡ failing (thin_super_tests device_blocks block.now.0) rule }
{
    let fields = read_thin_super(block);
    let place = u64_at(&block.0, 8);
    let sizes_bad = is_meta_size_bad(device_blocks, fields.meta_map.blocks)
        | (fields.data_map.blocks > MAX_DATA_BLOCKS);
    let edge_outside = thin_super_edges(&fields).any_outside(fields.meta_map.blocks);
    Rules::none()
        .with_if(Rule::Place, place != 0)
        .with_if(Rule::Version, fields.version != 2)
        .with_if(Rule::Features, fields.incompat != 0)
        .with_if(Rule::Size, sizes_bad)
        .with_if(Rule::Pointer, !sizes_bad & edge_outside)
}

/// The rules that the block breaks as the held copy of a superblock in this place, for so many metadata
/// blocks.
///
/// Of a held copy "drivers/md/dm-thin-metadata.c" reads the two roots of trees alone.
#[tactic(auto, unfolding(pd_kinds::specs::ThinFormat::thin_held_bad))]
pub fn thin_held_rules(block: &Block, place: u64, nr: u64) -> Rules
    ensures { (rule : BrokenRule) → has_rule result rule ≡ thin_held_bad nr place block.now.0 rule }
{
    super_rules(Kind::Thin, block, held_table_rules(block, place, nr))
}

/// The rules of a held copy that are looked at each by itself.
#[tactic(auto, unfolding(pd_kinds::specs::Rule::failing))]
fn held_table_rules(block: &Block, place: u64, nr: u64) -> Rules
    ensures { (rule : BrokenRule) → has_rule result rule ≡ failing (thin_held_tests nr place block.now.0) rule }
{
    let elsewhere = u64_at(&block.0, 8) != place;
    let outside = thin_held_edges(&read_thin_super(block)).any_outside(nr);
    Rules::none()
        .with_if(Rule::Place, elsewhere)
        .with_if(Rule::Pointer, outside)
}

/// The blocks that a thin superblock names, with their roles in the metadata of a pool.
pub fn thin_super_edges(s: &ThinSuper) -> Edges
    ensures { result ≡ thin_super_edges s.now }
{
    Edges::none()
        .with(10, s.meta_map.overflow_root)
        .with(8, s.meta_map.bitmap_root)
        .with(7, s.data_map.overflow_root)
        .with(5, s.data_map.bitmap_root)
        .with(4, s.details_root)
        .with(2, s.mapping_root)
        .with_optional(1, s.held_root)
}

/// The blocks that a held copy of the superblock names: of its fields the two roots of trees count alone.
pub fn thin_held_edges(s: &ThinSuper) -> Edges
    ensures { result ≡ thin_held_edges s.now }
{
    Edges::none()
        .with(4, s.details_root)
        .with(2, s.mapping_root)
}
