//! What can be saved of a damaged cache, held in memory (`cache_repair`).
#![tactic(auto)]

mod array;
mod arrays;
mod beside;
mod candidates;
mod fuller;
mod gather;
mod order;
mod places;
mod salvage;
mod saved;

pub use fuller::{FullerRoot, fuller_roots};
pub use salvage::salvage_cache;
pub use saved::{CacheHead, Row, SavedCache};
