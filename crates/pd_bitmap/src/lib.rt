//! Bitmaps of reference counts, and the index block of the metadata's space map, as
//! "drivers/md/persistent-data/dm-space-map-common.c" stores them.
#![tactic(auto)]

mod bitmap;
mod index;

pub use bitmap::{
    bitmap_rules, filled_bitmap, new_bitmap, one_number, seal_bitmap, set_two_bits, two_bits,
};
pub use index::{index_entry, index_rules, new_index, seal_index};

/// The size of the header of a bitmap and of an index block in bytes: the counts, and the entries,
/// stand behind it.
const HEADER_SIZE: usize = 16;
