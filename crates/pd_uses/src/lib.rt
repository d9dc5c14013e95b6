//! Which virtual blocks of a pool's thin devices use its data blocks: the reverse map of a region, how many blocks of each
//! device are used by nothing else, and which blocks nothing uses (`thin_ls`, `thin_rmap`, `thin_trim`).
//!
//! What is put is said over the meaning of an image that was found sound. Over any other image, and any device, the
//! calls are safe and return.
#![tactic(auto)]

mod asking;
mod descent;
mod device_list;
mod found;
mod hit_runs;
mod hits;
mod in_order;
mod list_walk;
mod reverse_map;
mod stored;
mod tallies;
mod unused;
mod use_line;

pub use device_list::{DeviceList, list_devices};
pub use hits::DataUse;
pub use reverse_map::{ReverseMap, rmap};
pub use stored::StoredCounts;
pub use unused::UnusedBlocks;
