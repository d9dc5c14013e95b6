//! The era of each block of an era target, as "drivers/md/dm-era-target.c" lays it out: the greatest of its word of the
//! era array, of the eras of the archived writesets that hold it, and of the current era where the current writeset does.
//! Serves `era_dump`, `era_invalidate`.
//!
//! What the eras are is said over the bytes of any image that the device tells. The laws say what that comes to in an
//! image without faults: the eras of its meaning.
#![tactic(auto)]

mod descent;
mod era_words;
mod eras;
mod notes;
mod part;
mod raising;
mod rows;

pub use eras::{Eras, era_list, lists_are_the_eras};
pub use pd_kinds::CheckFault;
