//! A cache that is restored from its text, or from memory, in version 1 or 2 of the metadata; and an era target that is restored
//! from its text, as a stream.
#![tactic(auto)]

mod cache;
mod cache_lines;
mod cache_parts;
mod cache_words;
mod cache_writing;
mod era;
mod era_lines;
mod target;

pub use cache::restore_cache;
pub use cache_words::need_cache;
pub use cache_writing::restore_saved_cache;
pub use era::{EraTarget, restore_era};
pub use target::need_era;
