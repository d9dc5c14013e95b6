//! Laws of shapes: each is a function with an empty body and one clause.
//!
//! The shape of a pool's image is one, and means what the image does. That of a laid shape is that shape, and what is laid of a
//! sound pool's shape has the same shape again. The shape of what can be saved of a damaged pool means the salvage, is one, and of
//! a sound pool it is the pool's own.
#![tactic(auto)]

mod shapes;

pub use shapes::{
    laid_shapes_count_each_leaf_once, laid_shapes_keep_their_shape, saved_shapes_are_shapes,
    saved_shapes_mean_what_is_saved, sound_pools_count_each_leaf_once, sound_pools_have_a_shape,
    sound_pools_save_their_shape, told_shapes_come_back,
};
