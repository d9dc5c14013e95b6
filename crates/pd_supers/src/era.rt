//! An era target's superblock, read and written.

ghost use Rattle.std.specs.Prelude.{◌≡◌, ℕ, false, map};
ghost use Rattle.pd_kinds.specs.declared.rule.Rule.TheVariants.{Checksum, Place, Magic};
ghost use Rattle.pd_kinds.specs.EraFormat.{era_fields, era_rows, era_super_bad, era_super_block, era_snap_bad};
ghost use Rattle.pd_kinds.specs.EraFormat.{era_snap_edges, era_snap_tests, era_super_edges, era_super_tests};
ghost use Rattle.pd_kinds.specs.declared.rule.Rule.{Rule as BrokenRule};
ghost use Rattle.pd_kinds.specs.Rule.{failing, has_rule};
ghost use Rattle.pd_supers.specs.Table.{row_of};

use crate::shared::Number::{self, Eight, Four};
use crate::shared::{put_rows, read_map_root, sixteen_at, super_block, super_rules};
use pd_kinds::{Block, Edges, EraSuper, Kind, Rule, Rules, is_meta_size_bad, u32_at, u64_at};

/// The fields of an era target's superblock, whatever rules it breaks.
pub fn read_era_super(block: &Block) -> EraSuper
    ensures { result ≡ era_fields block.now.0 }
{
    EraSuper {
        flags: u32_at(&block.0, 4),
        uuid: sixteen_at(block, 16),
        version: u32_at(&block.0, 40),
        meta_map: read_map_root(block, 44),
        block_size: u32_at(&block.0, 172),
        meta_block_size: u32_at(&block.0, 176),
        blocks: u32_at(&block.0, 180),
        era: u32_at(&block.0, 184),
        current_bits: u32_at(&block.0, 188),
        current_root: u64_at(&block.0, 192),
        writesets_root: u64_at(&block.0, 200),
        array_root: u64_at(&block.0, 208),
        snap_root: u64_at(&block.0, 216),
    }
}

/// The superblock with these fields, sealed for block 0. Every other byte is 0.
pub fn write_era_super(s: &EraSuper) -> Block
    ensures block { result.0 ≡ era_super_block s.now }
    // Reading what was written gives the same fields.
    ensures reads_back { era_fields result.0 ≡ s.now }
    ensures checksum { (n : ℕ) → era_super_bad n result.0 Checksum ≡ false }
    ensures place { (n : ℕ) → era_super_bad n result.0 Place ≡ false }
    ensures magic { (n : ℕ) → era_super_bad n result.0 Magic ≡ false }
{
    let mut block = Block::zeros();
    put_rows(&mut block, &rows_of(s));
    super_block(Kind::Era, &s.uuid, block)
}

/// The numbers of the superblock, each at its offset.
fn rows_of(s: &EraSuper) -> [(usize, Number); 15]
    ensures { map row_of result ≡ era_rows s.now }
{
    [
        (4, Four(s.flags)),
        (40, Four(s.version)),
        (44, Eight(s.meta_map.blocks)),
        (52, Eight(s.meta_map.allocated)),
        (60, Eight(s.meta_map.bitmap_root)),
        (68, Eight(s.meta_map.overflow_root)),
        (172, Four(s.block_size)),
        (176, Four(s.meta_block_size)),
        (180, Four(s.blocks)),
        (184, Four(s.era)),
        (188, Four(s.current_bits)),
        (192, Eight(s.current_root)),
        (200, Eight(s.writesets_root)),
        (208, Eight(s.array_root)),
        (216, Eight(s.snap_root)),
    ]
}

// The rules that an era target's superblock and its metadata snapshot break, and the blocks that they name.

/// The rules that block 0 of an era target's metadata breaks, on a device of so many blocks.
#[tactic(auto, unfolding(pd_kinds::specs::EraFormat::era_super_bad))]
pub fn era_super_rules(block: &Block, device_blocks: u64) -> Rules
    ensures { (rule : BrokenRule) → has_rule result rule ≡ era_super_bad device_blocks block.now.0 rule }
{
    super_rules(Kind::Era, block, table_rules(block, device_blocks))
}

/// The rules that are looked at each by itself.
#[tactic(auto, unfolding(pd_kinds::specs::EraFormat::era_super_tests, pd_kinds::specs::Rule::failing))]
fn table_rules(block: &Block, device_blocks: u64) -> Rules
    ensures { (rule : BrokenRule) → has_rule result rule ≡ failing (era_super_tests device_blocks block.now.0) rule }
{
    let fields = read_era_super(block);
    let place = u64_at(&block.0, 8);
    let size_bad = is_meta_size_bad(device_blocks, fields.meta_map.blocks);
    let edge_outside = era_super_edges(&fields).any_outside(fields.meta_map.blocks);
    Rules::none()
        .with_if(Rule::Place, place != 0)
        .with_if(Rule::Version, fields.version != 1)
        .with_if(Rule::Size, size_bad)
        .with_if(Rule::Pointer, !size_bad & edge_outside)
}

/// The rules that the block breaks as the metadata snapshot in this place, for so many metadata blocks.
///
/// Of a snapshot "drivers/md/dm-era-target.c" says that only the roots of the archived writesets and of the
/// era array count.
#[tactic(auto, unfolding(pd_kinds::specs::EraFormat::era_snap_bad))]
pub fn era_snap_rules(block: &Block, place: u64, nr: u64) -> Rules
    ensures { (rule : BrokenRule) → has_rule result rule ≡ era_snap_bad nr place block.now.0 rule }
{
    super_rules(Kind::Era, block, snap_table_rules(block, place, nr))
}

/// The rules of a snapshot that are looked at each by itself.
#[tactic(auto, unfolding(pd_kinds::specs::Rule::failing))]
fn snap_table_rules(block: &Block, place: u64, nr: u64) -> Rules
    ensures { (rule : BrokenRule) → has_rule result rule ≡ failing (era_snap_tests nr place block.now.0) rule }
{
    let elsewhere = u64_at(&block.0, 8) != place;
    let outside = era_snap_edges(&read_era_super(block)).any_outside(nr);
    Rules::none()
        .with_if(Rule::Place, elsewhere)
        .with_if(Rule::Pointer, outside)
}

/// The blocks that the superblock names, with their roles.
pub fn era_super_edges(s: &EraSuper) -> Edges
    ensures { result ≡ era_super_edges s.now }
{
    Edges::none()
        .with(9, s.meta_map.overflow_root)
        .with(7, s.meta_map.bitmap_root)
        .with(5, s.array_root)
        .with_optional(3, s.current_root)
        .with(2, s.writesets_root)
        .with_optional(1, s.snap_root)
}

/// The blocks that a metadata snapshot names: of its fields the two roots of trees count alone.
pub fn era_snap_edges(s: &EraSuper) -> Edges
    ensures { result ≡ era_snap_edges s.now }
{
    Edges::none()
        .with(5, s.array_root)
        .with(2, s.writesets_root)
}
