//! An era target's metadata as a table (`era_check`).

use pd_array::Word;
use pd_kinds::{Block, Edges, EraSuper, Rules, era_role};
use pd_layouts::{Layout, LeafValue, Names, Table, Tabled};
use pd_supers::{era_snap_edges, era_snap_rules, era_super_edges, era_super_rules, read_era_super};

/// The table of an era target's metadata, as "drivers/md/dm-era-target.c" and
/// "drivers/md/persistent-data/dm-bitset.c" use it.
#[derive(Clone, Copy)]
pub struct EraTable;

/// The format of an era target's metadata.
pub type EraFormat = Tabled<EraTable>;

impl Table for EraTable {
    ghost use Rattle.pd_kinds.specs.EraFormat.{era_layout};
    ghost use Rattle.pd_kinds.proofs.EraTable.{era_table};
    ghost use Rattle.pd_era.specs.Whole.{super_copy_edges, super_copy_rules};

    const ROLES: u8 = era_role::ROLES;

    type Super = EraSuper;

    ghost ROLES = { 10 };

    ghost meta_blocks_of = { λ s. s.meta_map.blocks };

    ghost data_blocks_of = { λ s. 0 };

    ghost layout = { λ nr data_blocks. era_layout nr };

    ghost super_copy_bad = { super_copy_rules };

    ghost super_copy_edges = { super_copy_edges };

    fn meta_blocks_of(s: &EraSuper) -> u64 {
        s.meta_map.blocks
    }

    fn data_blocks_of(_s: &EraSuper) -> u64 {
        0
    }

    #[tactic(auto, unfolding(pd_kinds::specs::EraFormat::era_layout))]
    fn layout(role: u8, _data_blocks: u64) -> Layout {
        match role {
            era_role::SUPER => Layout::Copy,
            era_role::SNAP => Layout::Copy,
            era_role::WRITESETS => Layout::Tree(
                LeafValue::Writeset,
                Names::MetadataByEra(era_role::BIT_NODE),
            ),
            era_role::BIT_NODE => Layout::Tree(
                LeafValue::Root,
                Names::Metadata(era_role::BIT_BLOCK),
            ),
            era_role::BIT_BLOCK => Layout::Array(Word::Eight),
            era_role::ERA_NODE => Layout::Tree(
                LeafValue::Root,
                Names::Metadata(era_role::ERA_BLOCK),
            ),
            era_role::ERA_BLOCK => Layout::Array(Word::Four),
            era_role::META_INDEX => Layout::Index(era_role::META_BITMAP),
            era_role::META_BITMAP => Layout::Bitmap,
            // The last one, `META_OVERFLOW`.
            _ => Layout::Tree(LeafValue::Count, Names::Nothing),
        }
    }

    fn super_copy_rules(role: u8, place: u64, b: &Block, nr: u64) -> Rules {
        if role == era_role::SUPER {
            era_super_rules(b, nr)
        } else {
            era_snap_rules(b, place, nr)
        }
    }

    fn super_copy_edges(role: u8, b: &Block) -> Edges {
        let fields = read_era_super(b);
        if role == era_role::SUPER {
            era_super_edges(&fields)
        } else {
            era_snap_edges(&fields)
        }
    }

    ghost lawful = { era_table };
}
