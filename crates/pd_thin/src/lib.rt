//! A thin pool's metadata: its format, as a walk sees it, and its check (`thin_check`).
#![tactic(auto)]

mod check;
mod device_pairs;
mod format;
mod pool;

pub use check::check_thin;
pub use device_pairs::DeviceCursors;
pub use format::{ThinFormat, ThinTable};
pub use pd_kinds::CheckFault;
