//! A pool that is restored: from its text of either version, as a stream, or as it is held in memory.
//! Serves `thin_restore`, `thin_repair`, `thin_shrink`.
#![tactic(auto)]

mod gathering;
mod known;
mod lines;
mod made;
mod plain_need;
mod pool;
mod saved_lines;
mod saved_need;
mod shape_lines;
mod shape_made;
mod shape_need;
mod shared;
mod thin;
mod unshared;

pub use made::restore_made;
pub use pd_devices::need_thin;
pub use pd_restoring::{MadeFault, RestoreFault};
pub use plain_need::{counted_of_shape, plain_need_of_shape};
pub use saved_lines::{RunSpan, Span};
pub use saved_need::{Thrice, counted_of_saved, need_of_saved};
pub use shape_made::restore_shape;
pub use shape_need::need_of_shape;
pub use thin::restore_thin;
