//! What a repair of a thin pool would keep, told before it is made: per device how many mappings, which devices are lost, and
//! on how many blocks there is room for what is saved (`thin_repair --dry-run`). The same of a cache (`cache_repair --dry-run`).
#![tactic(auto)]

mod cache_lines;
mod cache_query;
mod kept;
mod latest;
mod lines;
mod merging;
mod query;
mod states;

pub use cache_lines::kept_cache_line;
pub use cache_query::{KeptOfCache, KeptWithRoots};
pub use kept::{Kept, KeptDevice, kept_by_repair, least_room};
pub use latest::{SavedTimes, time_of_saved};
pub use lines::put_kept;
pub use query::KeptOfPool;
pub use states::{Looked, look_for_states, put_looked, usable_blocks};
