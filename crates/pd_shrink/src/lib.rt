//! The shrink of a thin pool, offline: the data blocks past its new end are moved into free ones below it, and new metadata
//! is written (`thin_shrink`).
#![tactic(auto)]

mod free;
mod gathering;
mod kept;
mod making;
mod moves;
mod moving;
mod moving_shapes;
mod parts;
mod plan;
mod sources;

pub use free::{FreeBlocks, find_free, stored_free_blocks_are_free};
pub use making::ShrinkFault;
pub use moves::{MovedBlock, copy_moved, pair_up};
pub use moving::move_pool;
pub use moving_shapes::move_shape;
pub use plan::Shrink;
