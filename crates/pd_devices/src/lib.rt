//! The devices of a pool that is restored, as the lines of a text come: those of version 1, and the shared leaves and the devices
//! of version 2.
#![tactic(auto)]

mod counts;
mod devices;
mod ending;
mod growing;
mod laws;
mod map;
mod need;
mod piece;
mod shared_devices;

pub use counts::BlockCounts;
pub use devices::{Devices, Run};
pub use growing::{NeedCounts, leaves_for, need_of, tree_ended};
pub use laws::gathered_lines_are_a_shape;
pub use map::write_leaves_map;
pub use need::need_thin;
pub use shared_devices::SharedDevices;
