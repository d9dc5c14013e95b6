//! A pool's own text: the dump of its mappings, and the one that tells each shared leaf once (`thin_dump`).
//!
//! What is put is said over the bytes of any image that the device tells. The laws of the crates below say what
//! that comes to in an image without faults.
#![tactic(auto)]

mod counts;
mod device_walk;
mod leaf_lines;
mod leaf_text;
mod leaf_texts;
mod shared_dump;
mod shared_lines;
mod thin_dump;
mod thin_lines;

pub use counts::DumpCounts;
pub use shared_dump::{SharedDump, TextOfShape, shared_lines_are_the_text};
pub use thin_dump::{TextOfPool, ThinDump};
