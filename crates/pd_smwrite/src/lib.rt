//! Space maps that are written: the bitmaps, the index and the tree of the counts of 3 and more, as
//! "drivers/md/persistent-data/dm-space-map-common.c" stores them.
//!
//! The places of a map's blocks are known before the first is written, so the metadata's map counts its own blocks
//! first, and is then written over counts that stay.
#![tactic(auto)]

mod bitmaps;
mod data;
mod index;
mod laws;
mod meta;

pub use data::write_data_map;
pub use laws::data_map_is_laid;
pub use meta::write_meta_map;
