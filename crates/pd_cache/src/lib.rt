//! A cache's metadata, versions 1 and 2: its format, as a walk sees it, and its check (`cache_check`).
#![tactic(auto)]

mod check;
mod format;
mod mapping;
mod origins;
mod room;
mod whole;

pub use check::check_cache;
pub use format::{CacheFormat, CacheTable};
pub use pd_kinds::CheckFault;
pub use room::CacheMemory;
