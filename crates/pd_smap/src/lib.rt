//! The counts that a space map stores, and how they differ from the references, as
//! "drivers/md/persistent-data" lays them out. It serves each format.
#![tactic(auto)]

mod bitmaps;
mod counting;
mod data;
mod laws;
mod meta;
mod overflow;

pub use bitmaps::read_bitmap;
pub use data::{compare_data, next_place};
pub use laws::{index_trees_name_bitmaps, overflow_trees_hold_counts};
pub use meta::compare_meta;
pub use overflow::{Overflow, stored_meta};
pub use pd_kinds::CheckFault;
