//! What a cache's metadata means, as "drivers/md/dm-cache-metadata.c" lays it out: its valid mappings, each with its hint and
//! whether it is dirty, in both versions; and whether two of its origins are the same.
//!
//! What the cursors give is said over the bytes of any image that the device tells. The laws say what that comes to in an image
//! without faults: the cache's meaning.
#![tactic(auto)]

mod block_words;
mod cache_rows;
mod origin_set;
mod sides;
mod skipped_words;

pub use cache_rows::{CacheRow, CacheRows, rows_are_the_entries};
pub use origin_set::OriginSet;
