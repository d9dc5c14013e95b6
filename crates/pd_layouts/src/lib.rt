//! Formats by their tables: what a block is in each role, the rules that it breaks, its keys, and the
//! blocks that it names.
#![tactic(auto)]

mod layout;
mod tabled;
mod tree;

pub use layout::{Layout, LeafValue, Names, Table};
pub use tabled::Tabled;
