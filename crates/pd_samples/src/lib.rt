//! What tests of the tools share: images and texts of thin pools, runs of the tools over objects in memory, and what they must come to.
#![tactic(auto)]

pub mod expected;
pub mod pool;
pub mod runs;
