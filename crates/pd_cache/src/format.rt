//! A cache's metadata as a table, versions 1 and 2 (`cache_check`).

use pd_array::Word;
use pd_kinds::{Block, CacheSuper, Edges, Rules, cache_role};
use pd_layouts::{Layout, LeafValue, Names, Table, Tabled};
use pd_supers::{cache_super_edges, cache_super_rules, read_cache_super};

/// The table of a cache's metadata, versions 1 and 2, as "drivers/md/dm-cache-metadata.c" and
/// "drivers/md/persistent-data/dm-array.c" use it.
#[derive(Clone, Copy)]
pub struct CacheTable;

/// The format of a cache's metadata.
pub type CacheFormat = Tabled<CacheTable>;

impl Table for CacheTable {
    ghost use Rattle.pd_kinds.specs.CacheFormat.{cache_layout};
    ghost use Rattle.pd_kinds.proofs.CacheTable.{cache_table};
    ghost use Rattle.pd_cache.specs.Whole.{super_copy_edges, super_copy_rules};

    const ROLES: u8 = cache_role::ROLES;

    type Super = CacheSuper;

    ghost ROLES = { 12 };

    ghost meta_blocks_of = { λ s. s.meta_map.blocks };

    ghost data_blocks_of = { λ s. 0 };

    ghost layout = { λ nr data_blocks. cache_layout nr };

    ghost super_copy_bad = { super_copy_rules };

    ghost super_copy_edges = { super_copy_edges };

    fn meta_blocks_of(s: &CacheSuper) -> u64 {
        s.meta_map.blocks
    }

    fn data_blocks_of(_s: &CacheSuper) -> u64 {
        0
    }

    #[tactic(auto, unfolding(pd_kinds::specs::CacheFormat::cache_layout))]
    fn layout(role: u8, _data_blocks: u64) -> Layout {
        match role {
            cache_role::SUPER => Layout::Copy,
            cache_role::MAPPING_NODE => Layout::Tree(
                LeafValue::Root,
                Names::Metadata(cache_role::MAPPING_BLOCK),
            ),
            cache_role::MAPPING_BLOCK => Layout::Array(Word::Eight),
            cache_role::HINT_NODE => Layout::Tree(
                LeafValue::Root,
                Names::Metadata(cache_role::HINT_BLOCK),
            ),
            cache_role::HINT_BLOCK => Layout::Array(Word::Four),
            cache_role::DISCARD_NODE => Layout::Tree(
                LeafValue::Root,
                Names::Metadata(cache_role::DISCARD_BLOCK),
            ),
            cache_role::DISCARD_BLOCK => Layout::Array(Word::Eight),
            cache_role::META_INDEX => Layout::Index(cache_role::META_BITMAP),
            cache_role::META_BITMAP => Layout::Bitmap,
            cache_role::META_OVERFLOW => Layout::Tree(LeafValue::Count, Names::Nothing),
            cache_role::DIRTY_NODE => Layout::Tree(
                LeafValue::Root,
                Names::Metadata(cache_role::DIRTY_BLOCK),
            ),
            // The last one, `DIRTY_BLOCK`.
            _ => Layout::Array(Word::Eight),
        }
    }

    fn super_copy_rules(_role: u8, _place: u64, b: &Block, nr: u64) -> Rules {
        cache_super_rules(b, nr)
    }

    fn super_copy_edges(_role: u8, b: &Block) -> Edges {
        cache_super_edges(&read_cache_super(b))
    }

    ghost lawful = { cache_table };
}
