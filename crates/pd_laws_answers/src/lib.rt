//! What the answers of the tools come to: laws of restored, repaired, found, cleared, written back and smaller images, in the
//! terms of the tools. Each is a function with an empty body and one clause.
//!
//! They rest on the laws of laid images, of sound images, of shapes, of what is saved, of texts, of clean images, of alike ones, of
//! settled ones and of moved data blocks.
#![tactic(auto)]

mod caches;
mod laws;
mod repairs;
mod searches;
mod shrinks;
mod targets;
mod word_order;
pub mod words;

pub use caches::{
    crashed_repair_leaves_no_other_cache, crashed_restore_leaves_no_other_cache,
    repaired_cache_is_clean, repaired_sound_cache_means_the_same,
    restored_cache_dump_means_the_same, restored_cache_is_clean, saved_caches_are_lawful,
    saved_entries_are_lawful, sound_caches_are_lawful, sound_caches_are_saved,
    stopped_writeback_keeps_the_view, written_back_cache_is_clean,
};
pub use laws::{
    checks_tell_clean_images, cleared_image_is_clean, cleared_images_pass,
    cleared_images_stay_clean, clearing_checks_tell_what_passes,
    crashed_clearing_leaves_no_other_image, crashed_restore_leaves_no_other_pool,
    laid_shapes_are_clean, passing_checks_tell_leaks, restored_dump_means_the_same,
    restored_pool_is_clean, restored_shared_dump_keeps_the_shape,
};
pub use repairs::{
    crashed_repair_leaves_no_other_pool, crashed_shared_repair_leaves_no_other_pool,
    crashed_shared_search_leaves_no_other_pool, found_shapes_are_lawful, repaired_pool_is_clean,
    repaired_pool_keeps_its_sharing, repaired_pool_sees_sharing,
    repaired_sound_pool_keeps_its_sharing, repaired_sound_pool_means_the_same,
    saved_pools_are_lawful, saved_shapes_are_lawful, searched_pool_keeps_its_sharing,
    shared_repair_sees_sharing,
};
pub use searches::{
    crashed_search_leaves_no_other_pool, fitting_roots_are_saved_whole, found_pools_are_lawful,
    listed_states_are_kept, lost_pool_is_repaired, lost_pools_are_found, named_pool_sees_sharing,
    named_pools_are_lawful, named_repair_is_clean, named_repairs_have_room_where_told,
    repairs_have_room_where_told, searched_pool_is_clean, searched_pool_sees_sharing,
    searches_have_room_where_told, seen_pools_see_sharing, seen_pools_stay,
    sound_pools_are_told_whole,
};
pub use shrinks::{
    shrunk_pool_is_clean_and_reads_the_same, shrunk_pool_keeps_its_sharing,
    stopped_shrink_keeps_what_is_read,
};
pub use targets::{
    crashed_restore_leaves_no_other_target, restored_target_dump_means_the_same,
    restored_target_is_clean, sound_targets_are_lawful,
};
pub use word_order::reordered_words_ask_the_same;
