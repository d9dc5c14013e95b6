//! What a thin pool's metadata means, as "drivers/md/dm-thin-metadata.c" lays it out: its devices, the mappings of each, joined to
//! runs, and the leaves that its devices share.
//!
//! What the cursors give is said over the bytes of any image that the device tells. The laws say what that comes to in an image
//! without faults: the pool's meaning, and its text. Runs are held packed: as differences from the run before, in groups of
//! seven bits.
#![tactic(auto)]

mod chunks;
mod devices;
mod find;
mod joined;
mod laws;
mod marks;
mod packed;
mod packing;
mod part_search;
mod parts;
mod pieces;
mod walk;

pub use devices::{DeviceRow, MapRuns, ThinDevices};
pub use find::SharedLeaves;
pub use joined::{Joined, Run};
pub use laws::{
    given_lines_are_the_text, leaves_are_below_roots, rows_are_the_devices, sound_pools_are_lawful,
};
pub use packed::{PackedRuns, RunPlace};
pub use pieces::{Piece, PieceRuns, pieces_are_those_of_the_shape};
