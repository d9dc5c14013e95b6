//! What a restore writes, and what a repair keeps: the definitions of laid images, of the salvage and of pools told with their
//! shared leaves. Their laws are functions with an empty body, each with one clause.
//!
//! A laid image is said by its blocks from block 1 on, each with the role that it has, what is written at its place, and what it
//! names. So a stored count is how often the laid blocks name a block, whatever is shared. A pool's text has two versions. The
//! second tells a leaf once that thin devices share: what it spells is the shape of an image.
#![tactic(auto)]

mod images;
mod salvages;
mod shapes;

pub use images::{
    images_take_their_need, laid_array_is_written, laid_device_is_written, laid_tree_is_written,
    one_image_is_laid, parts_take_their_need, spread_is_even,
};
pub use salvages::{given_are_saved, given_are_visited, sound_pool_is_saved};
pub use shapes::{
    either_version_spells_a_shape, pool_text_has_one_meaning, pool_text_has_one_shape,
    pool_text_has_one_verdict, pool_text_is_accepted_where_there_is_room, pool_text_unless_refused,
    shape_of_keeps_meaning, shape_text_spells, shape_text_with_runs_apart, two_users_of_a_leaf,
};
