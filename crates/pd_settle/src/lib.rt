//! Settling: which nodes of the trees are too deep, and which have children out of their ranges.
//!
//! Every node is settled once, however many parents it has, and what was found below it is noted. Settling
//! goes down from each node that is still unknown; the nodes on the way are linked through their notes, so
//! it takes no memory.
#![tactic(auto)]

mod descending;
mod in_role;
mod looking;
mod settling;
mod telling;

pub use in_role::settle_role;
pub use settling::settle;
pub use telling::{
    below, below_is_the_number_of_entries, deep, greatest, greatest_is_the_greatest_key,
    keys_are_those_of_entries, least, least_is_the_least_key,
};
