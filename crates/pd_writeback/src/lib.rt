//! The writeback of a cache, offline: what is dirty is copied to the origin, and then the cache is marked clean, as
//! "drivers/md/dm-cache-target.c" writes back while a cache is in use (`cache_writeback`).
//!
//! A plan takes all memory first, and writes nothing. Then the origin is written and synced, and only after that the
//! metadata: so a stop at any moment leaves an origin that reads the same under the cache.
#![tactic(auto)]

mod copying;
mod hot;
mod making;
mod marking;
mod places;
mod plan;

pub use making::WriteFault;
pub use places::{hot_blocks_are_apart, places_are_those_of_one_tree};
pub use plan::Plan;
