//! The search for the roots of a thin pool whose superblock is lost: which blocks are roots of sound trees, as the top of a
//! mapping tree, as a device's tree of mappings and as a tree of details, and which of them are the best that fit each other,
//! of all trees and for each mapping tree (`thin_repair`).
#![tactic(auto)]

mod fitting;
mod laws;
mod lost;
mod numbering;
mod partners;
mod roots;
mod states;
mod tops;
mod trees;

pub use laws::{
    found_pools_are_saved_whole, good_nodes_are_sound_trees,
    keys_of_sound_trees_are_those_of_entries, lost_leaves_lead_nowhere,
};
pub use lost::{judge_each, settle_lost};
pub use roots::{Roots, find_roots, lost_format, lost_super};
pub use states::{
    FoundStates, MAX_STATES, State, find_states, first_state_is_the_best, place_of, states_fit,
};
pub use tops::leave_out_tops;
