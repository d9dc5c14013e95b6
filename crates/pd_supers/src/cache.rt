//! A cache's superblock, read and written.

ghost use Rattle.std.specs.Prelude.{◌≡◌, ◌≢◌, ℕ, false, map};
ghost use Rattle.pd_kinds.specs.declared.rule.Rule.TheVariants.{Checksum, Place, Magic};
ghost use Rattle.pd_kinds.specs.CacheFormat.{cache_fields, cache_rows, cache_super_bad, cache_super_block};
ghost use Rattle.pd_kinds.specs.CacheFormat.{are_cache_sizes_bad, cache_super_edges, cache_super_tests, dirty_edges};
ghost use Rattle.pd_kinds.specs.declared.rule.Rule.{Rule as BrokenRule};
ghost use Rattle.pd_kinds.specs.Rule.{failing, has_rule};
ghost use Rattle.pd_supers.specs.Table.{row_of};

use crate::shared::Number::{self, Eight, Four};
use crate::shared::{put_rows, put_sixteen, read_map_root, sixteen_at, super_block, super_rules};
use pd_kinds::{Block, CacheSuper, Edges, Kind, Rule, Rules, is_meta_size_bad, u32_at, u64_at};

/// The fields of a cache's superblock, whatever rules it breaks.
pub fn read_cache_super(block: &Block) -> CacheSuper
    ensures { result ≡ cache_fields block.now.0 }
{
    CacheSuper {
        flags: u32_at(&block.0, 4),
        uuid: sixteen_at(block, 16),
        version: u32_at(&block.0, 40),
        policy: sixteen_at(block, 44),
        hint_size: u32_at(&block.0, 60),
        meta_map: read_map_root(block, 64),
        mapping_root: u64_at(&block.0, 192),
        hint_root: u64_at(&block.0, 200),
        discard_root: u64_at(&block.0, 208),
        discard_size: u64_at(&block.0, 216),
        discard_blocks: u64_at(&block.0, 224),
        block_size: u32_at(&block.0, 232),
        meta_block_size: u32_at(&block.0, 236),
        blocks: u32_at(&block.0, 240),
        compat: u32_at(&block.0, 244),
        compat_ro: u32_at(&block.0, 248),
        incompat: u32_at(&block.0, 252),
        read_hits: u32_at(&block.0, 256),
        read_misses: u32_at(&block.0, 260),
        write_hits: u32_at(&block.0, 264),
        write_misses: u32_at(&block.0, 268),
        versions: read_versions(block),
        dirty_root: read_dirty_root(block),
    }
}

/// The three parts of the policy's version.
fn read_versions(block: &Block) -> [u32; 3]
    ensures { result ≡ (cache_fields block.now.0).versions }
{
    [
        u32_at(&block.0, 272),
        u32_at(&block.0, 276),
        u32_at(&block.0, 280),
    ]
}

/// The root of the dirty bitset; a version that has none has 0.
fn read_dirty_root(block: &Block) -> u64
    ensures { result ≡ (cache_fields block.now.0).dirty_root }
{
    if u32_at(&block.0, 40) == 2 {
        u64_at(&block.0, 284)
    } else {
        0
    }
}

/// The superblock with these fields, sealed for block 0. Every other byte is 0.
pub fn write_cache_super(s: &CacheSuper) -> Block
    requires dirty_root { s.now.version ≢ 2 → s.now.dirty_root ≡ 0 }
    ensures block { result.0 ≡ cache_super_block s.now }
    // Reading what was written gives the same fields.
    ensures reads_back { cache_fields result.0 ≡ s.now }
    ensures checksum { (n : ℕ) → cache_super_bad n result.0 Checksum ≡ false }
    ensures place { (n : ℕ) → cache_super_bad n result.0 Place ≡ false }
    ensures magic { (n : ℕ) → cache_super_bad n result.0 Magic ≡ false }
{
    let mut block = Block::zeros();
    put_rows(&mut block, &rows_of(s));
    put_sixteen(&mut block, 44, &s.policy);
    super_block(Kind::Cache, &s.uuid, block)
}

/// The numbers of the superblock, each at its offset.
fn rows_of(s: &CacheSuper) -> [(usize, Number); 26]
    ensures { map row_of result ≡ cache_rows s.now }
{
    [
        (4, Four(s.flags)),
        (40, Four(s.version)),
        (60, Four(s.hint_size)),
        (64, Eight(s.meta_map.blocks)),
        (72, Eight(s.meta_map.allocated)),
        (80, Eight(s.meta_map.bitmap_root)),
        (88, Eight(s.meta_map.overflow_root)),
        (192, Eight(s.mapping_root)),
        (200, Eight(s.hint_root)),
        (208, Eight(s.discard_root)),
        (216, Eight(s.discard_size)),
        (224, Eight(s.discard_blocks)),
        (232, Four(s.block_size)),
        (236, Four(s.meta_block_size)),
        (240, Four(s.blocks)),
        (244, Four(s.compat)),
        (248, Four(s.compat_ro)),
        (252, Four(s.incompat)),
        (256, Four(s.read_hits)),
        (260, Four(s.read_misses)),
        (264, Four(s.write_hits)),
        (268, Four(s.write_misses)),
        (272, Four(s.versions[0])),
        (276, Four(s.versions[1])),
        (280, Four(s.versions[2])),
        (284, Eight(s.dirty_root)),
    ]
}

// The rules that a cache's superblock breaks, and the blocks that it names.

/// The rules that block 0 of a cache's metadata breaks, on a device of so many blocks.
#[tactic(auto, unfolding(pd_kinds::specs::CacheFormat::cache_super_bad))]
pub fn cache_super_rules(block: &Block, device_blocks: u64) -> Rules
    ensures { (rule : BrokenRule) → has_rule result rule ≡ cache_super_bad device_blocks block.now.0 rule }
{
    super_rules(Kind::Cache, block, table_rules(block, device_blocks))
}

/// The rules that are looked at each by itself.
#[tactic(auto, unfolding(pd_kinds::specs::CacheFormat::cache_super_tests, pd_kinds::specs::CacheFormat::are_cache_sizes_bad, pd_kinds::specs::Rule::failing))]
fn table_rules(block: &Block, device_blocks: u64) -> Rules
    ensures { (rule : BrokenRule) → has_rule result rule ≡ failing (cache_super_tests device_blocks block.now.0) rule }
{
    let fields = read_cache_super(block);
    let place = u64_at(&block.0, 8);
    let hint_bad = (fields.hint_size != 0) & (fields.hint_size != 4);
    let sizes_bad = is_meta_size_bad(device_blocks, fields.meta_map.blocks) | hint_bad;
    let edge_outside = cache_super_edges(&fields).any_outside(fields.meta_map.blocks);
    Rules::none()
        .with_if(Rule::Place, place != 0)
        .with_if(Rule::Version, (fields.version != 1) & (fields.version != 2))
        .with_if(Rule::Features, fields.incompat != 0)
        .with_if(Rule::Size, sizes_bad)
        .with_if(Rule::Pointer, !sizes_bad & edge_outside)
}

/// The blocks that the superblock names, with their roles.
pub fn cache_super_edges(s: &CacheSuper) -> Edges
    ensures { result ≡ cache_super_edges s.now }
{
    dirty_edges(s)
        .with(9, s.meta_map.overflow_root)
        .with(7, s.meta_map.bitmap_root)
        .with_optional(5, s.discard_root)
        .with_optional(3, s.hint_root)
        .with(1, s.mapping_root)
}

/// The root of the dirty bitset, which version 2 has.
fn dirty_edges(s: &CacheSuper) -> Edges
    ensures { result ≡ dirty_edges s.now }
{
    if s.version == 2 {
        Edges::none().with(10, s.dirty_root)
    } else {
        Edges::none()
    }
}
