//! Trees and arrays that are written bottom up, as their items come.
//!
//! What is written is what the laid image says: leaves of the fewest, spread evenly, then each level above. A
//! builder can't hold the items that have passed, so its model says what is still to be written for the items that
//! are still to come, and a call says what it wrote of that. It holds the block of one leaf, and the least key and
//! the place of each leaf.
#![tactic(auto)]

mod array;
mod build;
mod fault;
mod leaves;
mod steps;
mod upper;
mod write;

pub use array::ArrayBuilder;
pub use build::Builder;
pub use fault::BuildFault;
pub use leaves::LeafBuilder;
pub use steps::put_block;
pub use upper::{UpperBuilder, need_tree, need_upper};
pub use write::write_tree;
