//! The walk over the metadata of any format: every reachable block, once in each of its roles.
#![tactic(auto)]

mod audit;
mod block_table;
mod format;
mod marks;
mod notes;
mod roles;
mod walking;

pub use audit::Audit;
pub use block_table::BlockTable;
pub use format::{Format, NoWatch, Watch};
pub use notes::{Note, Notes};
pub use roles::has_role;
pub use walking::{key_at, leaf_note, walk, walk_watched};
