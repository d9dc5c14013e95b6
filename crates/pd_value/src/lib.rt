//! The values that leaves of B-trees hold, as "drivers/md/persistent-data" and the three targets
//! store them: little-endian, of a fixed size each.
#![tactic(auto)]

mod era;
mod space_map;
mod thin;
mod value;

pub use era::Writeset;
pub use space_map::{Count, IndexEntry};
pub use thin::{BlockTime, Details, Root};
pub use value::{Value, put_value, reads_back, value_at, writes_back};
