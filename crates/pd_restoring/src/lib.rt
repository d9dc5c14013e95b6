//! What all restores share: the trait over the kinds of metadata, and the map that counts the metadata blocks.
//! Serves `thin_restore`, `cache_restore`, `era_restore`.
#![tactic(auto)]

mod fault;
mod own_map;
mod restoring;

pub use fault::{MadeFault, RestoreFault};
pub use own_map::write_own_map;
pub use restoring::{Restoring, restore, restore_begun};
