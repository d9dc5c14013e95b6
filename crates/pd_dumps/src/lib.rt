//! What is asked of a cache or of an era target that was found sound, and put as text: its own text, and which blocks of
//! an era target were written since an era (`cache_dump`, `era_dump`, `era_invalidate`).
//!
//! What is put is said over the bytes of any image that the device tells. The laws say what that comes to in an
//! image without faults.
#![tactic(auto)]

mod cache;
mod era;
mod laws;
mod runs;
mod since;
mod supers;

pub use cache::{CacheDump, TextOfCache};
pub use era::{EraDump, TextOfEra};
pub use laws::{given_cache_lines_are_the_text, given_era_lines_are_the_text};
pub use since::{WrittenSince, written_since};
pub use supers::read_era;
