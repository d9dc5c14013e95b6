//! What the entries of a pool's trees count for (`thin_repair`).

ghost use Rattle.std.specs.Prelude.{◌≡◌, nat_lt, if◌then◌else◌, ℕ, ◌<◌, false, true};
ghost use Rattle.pd_kinds.specs.Node.{Entry, child_at, entry_count, is_inner_node};
ghost use Rattle.pd_graph.specs.Notes.{note_in, size_of};
ghost use Rattle.pd_measures.specs.Measured.{details_gauge, mappings_gauge, print_of as print_number, top_gauge, entry_of};
ghost use Rattle.pd_measures.specs.declared.measures.Measured.{Measured as Measure};

use crate::measures::{Measured, Measures};
use pd_graph::Notes;
use pd_kinds::Block;
use pd_node::{child, entries, key, value};
use pd_value::{BlockTime, Details, Root};

/// What the fingerprint of a device and its number of mappings is multiplied by: an odd number whose bits are spread, 2^64
/// over the golden ratio.
const SPREAD: u64 = 11400714819323198485;

/// A number for a device with so many mappings, that most other devices and numbers don't share.
#[tactic(auto, unfolding(crate::specs::Measured::print_of))]
fn print_of(id: u64, mapped: u64) -> u64
    ensures { result ≡ print_number id mapped }
{
    let both = id.wrapping_mul(SPREAD).wrapping_add(mapped);
    both.wrapping_mul(both).wrapping_mul(both)
}

/// Of the mappings of a device each counts for its time.
#[derive(Drop)]
pub struct MappingsGauge;

impl Gauge for MappingsGauge {
    ghost SIZE = { 8 };

    ghost of = { λ gauge entry. mappings_gauge entry };

    fn entries(&self, block: &Block) -> usize {
        entries::<BlockTime>(block)
    }

    fn child(&self, block: &Block, i: usize) -> u64 {
        child::<BlockTime>(block, i)
    }

    fn entry(&self, block: &Block, i: usize) -> Measured {
        let mapping = value::<BlockTime>(block, i);
        Measured {
            total: 0,
            time: u64::from(mapping.time),
            transaction: 0,
            times: u128::from(mapping.time),
            print: 0,
        }
    }
}

/// Of a details tree each device counts for its mapped number, for the later one of its times, and for its transaction.
#[derive(Drop)]
pub struct DetailsGauge;

impl Gauge for DetailsGauge {
    ghost SIZE = { 24 };

    ghost of = { λ gauge entry. details_gauge entry };

    fn entries(&self, block: &Block) -> usize {
        entries::<Details>(block)
    }

    fn child(&self, block: &Block, i: usize) -> u64 {
        child::<Details>(block, i)
    }

    fn entry(&self, block: &Block, i: usize) -> Measured {
        let details = value::<Details>(block, i);
        Measured {
            total: details.mapped,
            time: u64::from(details.created.max(details.snapped)),
            transaction: details.transaction,
            times: 0,
            print: print_of(key::<Details>(block, i), details.mapped),
        }
    }
}

/// Of a mapping tree each device counts for the number of entries below its root, and for the latest time and the sum of the
/// times there: by the notes of the settled devices' trees, and by their measures.
#[derive(Drop)]
pub struct TopGauge {
    pub notes: Notes,
    pub times: Measures,
}

/// How many entries stand below a root, by its note: none below a block that there isn't.
pub(crate) fn below_root(notes: &Notes, root: u64) -> u64
    ensures { result ≡ (if nat_lt root (size_of notes.now) then (note_in notes.now root).below else 0) }
{
    if root < notes.nr() {
        notes.note(root).below
    } else {
        0
    }
}

impl Gauge for TopGauge {
    ghost SIZE = { 8 };

    ghost of = { λ gauge entry. top_gauge gauge.notes gauge.times entry };

    fn entries(&self, block: &Block) -> usize {
        entries::<Root>(block)
    }

    fn child(&self, block: &Block, i: usize) -> u64 {
        child::<Root>(block, i)
    }

    fn entry(&self, block: &Block, i: usize) -> Measured {
        let root = value::<Root>(block, i).0;
        let below = below_root(&self.notes, root);
        let measure = self.times.get(root);
        Measured {
            total: below,
            time: measure.time,
            transaction: 0,
            times: measure.times,
            print: print_of(key::<Root>(block, i), below),
        }
    }
}

// What an entry of a tree counts for (`thin_repair`).

/// What each entry of a tree counts for.
pub trait Gauge {
    /// The size of the values of its leaves, in bytes.
    ghost SIZE: { ℕ };

    /// What an entry counts for.
    ghost of: { Self → Entry → Measure };

    /// The number of entries of a node, and 0 of any other block.
    fn entries(&self, block: &Block) -> usize
        ensures { result ≡ entry_count SIZE block.now.0 };

    /// The block that entry `i`, from 0, of an inner node names.
    fn child(&self, block: &Block, i: usize) -> u64
        requires entry { i < entry_count SIZE block.now.0 }
        requires inner { is_inner_node block.now.0 ≡ true }
        ensures { result ≡ child_at block.now.0 i };

    /// What entry `i`, from 0, of a leaf counts for.
    fn entry(&self, block: &Block, i: usize) -> Measured
        requires entry { i < entry_count SIZE block.now.0 }
        requires leaf { is_inner_node block.now.0 ≡ false }
        ensures { result ≡ of self.now (entry_of SIZE block.now.0 i) };
}
