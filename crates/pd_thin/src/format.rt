//! A thin pool's metadata as a table (`thin_check`).

use pd_kinds::{Block, Edges, Rules, thin_role};
use pd_layouts::{Layout, LeafValue, Names, Table, Tabled};
use pd_supers::{
    ThinSuper, read_thin_super, thin_held_edges, thin_held_rules, thin_super_edges,
    thin_super_rules,
};

/// The table of a thin pool's metadata, as "drivers/md/dm-thin-metadata.c" and
/// "drivers/md/persistent-data/dm-space-map-common.c" use it.
#[derive(Clone, Copy)]
pub struct ThinTable;

/// The format of a thin pool's metadata.
pub type ThinFormat = Tabled<ThinTable>;

impl Table for ThinTable {
    ghost use Rattle.pd_kinds.specs.ThinFormat.{thin_layout};
    ghost use Rattle.pd_kinds.proofs.ThinTable.{thin_table};
    ghost use Rattle.pd_thin.specs.Pool.{super_copy_edges, super_copy_rules};

    const ROLES: u8 = thin_role::ROLES;

    type Super = ThinSuper;

    ghost ROLES = { 11 };

    ghost meta_blocks_of = { λ s. s.meta_map.blocks };

    ghost data_blocks_of = { λ s. s.data_map.blocks };

    ghost layout = { thin_layout };

    ghost super_copy_bad = { super_copy_rules };

    ghost super_copy_edges = { super_copy_edges };

    fn meta_blocks_of(s: &ThinSuper) -> u64 {
        s.meta_map.blocks
    }

    fn data_blocks_of(s: &ThinSuper) -> u64 {
        s.data_map.blocks
    }

    #[tactic(auto, unfolding(pd_kinds::specs::ThinFormat::thin_layout))]
    fn layout(role: u8, data_blocks: u64) -> Layout {
        match role {
            thin_role::SUPER => Layout::Copy,
            thin_role::HELD => Layout::Copy,
            thin_role::DEVICES => {
                Layout::Tree(LeafValue::Root, Names::Metadata(thin_role::MAPPINGS))
            }
            thin_role::MAPPINGS => Layout::Tree(LeafValue::BlockTime, Names::Data(data_blocks)),
            thin_role::DETAILS => Layout::Tree(LeafValue::Details, Names::Nothing),
            thin_role::DATA_INDEX => Layout::Tree(
                LeafValue::IndexEntry,
                Names::Metadata(thin_role::DATA_BITMAP),
            ),
            thin_role::DATA_BITMAP => Layout::Bitmap,
            thin_role::DATA_OVERFLOW => Layout::Tree(LeafValue::Count, Names::Nothing),
            thin_role::META_INDEX => Layout::Index(thin_role::META_BITMAP),
            thin_role::META_BITMAP => Layout::Bitmap,
            // The last one, `META_OVERFLOW`.
            _ => Layout::Tree(LeafValue::Count, Names::Nothing),
        }
    }

    fn super_copy_rules(role: u8, place: u64, b: &Block, nr: u64) -> Rules {
        if role == thin_role::SUPER {
            thin_super_rules(b, nr)
        } else {
            thin_held_rules(b, place, nr)
        }
    }

    fn super_copy_edges(role: u8, b: &Block) -> Edges {
        let fields = read_thin_super(b);
        if role == thin_role::SUPER {
            thin_super_edges(&fields)
        } else {
            thin_held_edges(&fields)
        }
    }

    ghost lawful = { thin_table };
}
