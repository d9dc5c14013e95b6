//! Laws of laid images: each is a function with an empty body and one clause.
//!
//! What laid blocks name, with shared leaves and without; where each block fits among the others; that they are all that is
//! reached; and that a laid pool, cache or era target is clean and means what was laid. A pool that shares no leaf is the case
//! without leaves.
#![tactic(auto)]

mod clean;
mod graph;
mod once;
mod shared;

pub use clean::{
    laid_cache_is_clean, laid_era_is_clean, laid_pool_is_clean, laid_pool_says_its_number,
    laid_shape_is_clean,
};
pub use graph::{
    laid_array_is_seen, laid_blocks_are_in_order, laid_meta_map_is_seen, laid_tree_is_seen,
};
pub use once::{
    caches_and_era_targets_take_their_need, each_block_of_a_cache_is_named_once,
    each_block_of_an_era_target_is_named_once, later_devices_stand_behind, metadata_map_is_written,
    ones_are_stored,
};
pub use shared::{
    device_tree_takes_its_need, each_block_is_named_once, later_shaped_devices_stand_behind,
    lawful_pool_takes_its_need, leaves_are_named_as_they_are_used, shape_is_written,
    shape_takes_its_need,
};
