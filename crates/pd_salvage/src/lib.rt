//! What can be saved of a damaged thin pool: the entries that a path of undamaged nodes leads to from the roots
//! of a superblock, where they lie in every range of keys on that path (`thin_repair`, `thin_shrink`).
//!
//! What is saved is said over the bytes of any image that the device tells; over any device it is a lawful pool.
#![tactic(auto)]

mod cursor;
mod details;
mod joined;
mod saved;
mod saved_shape;
mod saving;
mod way;

pub use cursor::SavedCursor;
pub use details::SavedDetails;
pub use joined::Joining;
pub use saved::{Salvage, SalvageFault, SavedDevice, SavedHead};
pub use saved_shape::{PackedPiece, SavedLeaf, SavedPiece, SavedShape, ShapedDevice, add_piece};
pub use saving::{head_of, is_inside, lost_details, salvage};
pub use way::{Range, Taken, Way, is_sound, is_wanted};
