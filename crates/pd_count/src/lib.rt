//! How often blocks are referred to: a table of counts that is made piece by piece, as blocks are counted, and
//! its chunks. It serves other numbers of blocks too.
#![tactic(auto)]

mod chunk;
mod counts;
mod dense;
mod few;
mod group;
mod waiting;

pub use chunk::Chunk;
pub use counts::Counts;

/// How many counts a chunk has: as many as a bitmap of a space map, so that chunk `i` holds the counts of the
/// blocks that bitmap `i` covers ("drivers/md/persistent-data/dm-space-map-common.h").
pub const CHUNK_COUNTS: usize = 16320;
