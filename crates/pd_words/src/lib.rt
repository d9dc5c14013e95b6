//! The words of a command line, and the request that they spell.
#![tactic(auto)]

mod cache_repairs;
mod items;
mod repairs;
mod table;
mod values;
mod words;

pub use table::{IMAGE, NamedWord, TOOLS, ToolForm};
pub use words::read_words;
