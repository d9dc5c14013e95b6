//! The words that every crate of the tools shares: blocks and their fields, rules, faults, reports.
//!
//! The definitions of what an image, a report or an answer is stand in this crate's `specs/`, over plain lists and numbers, so
//! that a crate can speak of a definition without standing on the code that computes it. Their laws are functions with an
//! empty body, each with one clause. They say in the subject's own words what the definitions come to.
#![tactic(auto)]

mod block;
pub mod cache_role;
pub mod era_role;
mod kind;
mod laws;
mod limits;
mod report;
mod rule;
mod rules;
mod superblocks;
pub mod thin_role;

pub use block::{BLOCK_SIZE, Block, is_outside, put_u32, put_u64, u32_at, u64_at};
pub use kind::{Flagged, Kind, Passing, Stage};
pub use laws::{
    cache_format_is_lawful, era_format_is_lawful, faults_are_none_where_clean, faults_ascend,
    leaks_alone_lose_nothing, reached_by_paths, reports_tell_leaks, thin_format_is_lawful,
    trees_are_in_order,
};
pub use limits::{BITMAP_COUNTS, MAX_META_BLOCKS, bitmaps_for, is_meta_size_bad};
pub use report::{CheckFault, KEPT_FAULTS, Report};
pub use rule::{Fault, Rule, Space};
pub use rules::Rules;
pub use superblocks::{CacheSuper, Edges, EraSuper, SmRoot, ThinSuper};
