//! The top call of the tools: from the words of a command line to the status.
#![tactic(auto)]

mod check;
mod clear;
mod ending;
mod named;
mod query;
mod rehearse;
mod repair;
mod restore;
mod run;
mod search;
mod shrink;
mod task;
mod writeback;

pub use run::run_tool;
