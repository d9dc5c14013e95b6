//! The check of any kind of metadata, stage by stage: block 0, the walk over all that it leads to, the order of the trees, the
//! rules of the whole image, and the stored counts.
//!
//! The rules of the whole image rest on what the walk and settling noted: bitmaps with more than one reference, keys of a tree
//! that count from 0, how many words a block of an array has, and how full the blocks of an array are. Each node of an array's
//! tree is looked at once, however many arrays share it.
#![tactic(auto)]

mod array_marks;
mod array_nodes;
mod array_rules;
mod charging;
mod checking;
mod counter;
mod counts;
mod later_stages;
mod laws;
mod metadata;
mod whole;

pub use array_marks::{ArrayMark, ArrayMarks, ArrayMemory};
pub use array_rules::{
    ArrayRoles, check_array, fill_marks, has_words, is_index_bad, mark_array,
    shown_blocks_are_counted,
};
pub use charging::{charge, is_counting, mark_shared};
pub use checking::check;
pub use counter::RefCounter;
pub use later_stages::{check_later_stages, walk_report};
pub use laws::{
    bitmaps_are_named_once, keys_of_reached_trees_ascend, keys_of_sound_trees_ascend,
    known_blocks_are_reached_once, nodes_of_reached_trees_are_reached_once,
    reached_blocks_are_no_more_than_nodes, settled_audits_are_known, trees_and_indices_name_blocks,
    two_trees_have_no_more_nodes,
};
pub use metadata::{DataSpace, Metadata};
