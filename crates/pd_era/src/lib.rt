//! An era target's metadata: its format, as a walk sees it, and its check (`era_check`).
#![tactic(auto)]

mod check;
mod format;
mod whole;
mod writesets;

pub use check::check_era;
pub use format::{EraFormat, EraTable};
pub use pd_kinds::CheckFault;
