//! An output whose block 0 stays closed until everything else is on the device.
//!
//! A restore, a repair or a rewriting zeroes block 0 first, and writes its superblock last. So a crash at any moment leaves the
//! old image, one with no valid superblock, or the whole new one.
//!
//! The flag "needs check" of a superblock is cleared in one write. The kernel sets it where the metadata may be damaged, and then
//! takes no change of it until it was checked: `THIN_METADATA_NEEDS_CHECK_FLAG` of "drivers/md/dm-thin-metadata.c",
//! `NEEDS_CHECK` of "drivers/md/dm-cache-metadata.c".
#![tactic(auto)]

mod clearing;
mod draft;
mod rewrite;

pub use clearing::{clear_needs_check, is_set, without_flag};
pub use draft::{Draft, clear, others_stay};
pub use rewrite::{Rewrite, rewrite_super};
