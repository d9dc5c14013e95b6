//! The repair of a thin pool, and that of a cache: what can be saved of one image is written to another device.
#![tactic(auto)]

mod cache_repair;
mod cache_super;
mod lost;
mod repair;
mod seen;
mod seen_shape;

pub use cache_repair::{KeptCache, kept_by_cache_repair, repair_cache};
pub use cache_super::sound_cache_super;
pub use lost::{repair_seen, repair_seen_shared};
pub use repair::{
    RepairFault, repair_from, repair_shared, repair_shared_from, repair_thin, sound_super,
};
