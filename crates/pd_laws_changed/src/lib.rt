//! Laws of a writeback: of a cache in which nothing is dirty any more, and of what a cached device reads while its hot blocks are
//! copied to the origin, and once they are. And laws of two caches that differ in the flags and the checksum of the superblock alone.
#![tactic(auto)]

mod alike;
mod moved;
mod settled;
mod unused;
mod views;

pub use alike::{
    alike_caches_have_the_same_faults, alike_caches_mean_the_same,
    alike_pools_have_the_same_faults, alike_pools_mean_the_same, pools_in_order_are_known,
};
pub use moved::{
    free_blocks_are_read_by_none, moved_pool_is_lawful, moved_pool_reads_the_same,
    moved_shapes_are_lawful, moved_shapes_mean_moved_pools, moving_keeps_what_is_read,
};
pub use settled::{
    dirty_places_are_named, settled_caches_have_the_same_faults, settled_caches_mean_the_same,
    settled_caches_show_the_same,
};
pub use unused::unused_blocks_are_mapped_by_none;
pub use views::{
    cached_blocks_stand_in_their_places, copied_origins_stand_alone, copying_keeps_the_view,
    origins_come_once,
};
