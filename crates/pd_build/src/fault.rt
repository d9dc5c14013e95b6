//! Why a builder stopped.

ghost use Rattle.std.specs.Prelude.{◌≡◌};
ghost use Rattle.pd_build.specs.declared.fault.BuildFault.TheVariants.{Memory, Device};

use pd_image::Failed;
use std::alloc::{AllocError, AllocFailed};

/// Why a builder stopped.
#[derive(Clone, Copy, Debug, PartialEq, Eq)]
pub enum BuildFault {
    /// Memory wasn't found.
    Memory,
    /// The device of the draft failed, and has counted it.
    Device,
}

impl From<AllocError> for BuildFault {
    ghost from_gives = { λ _ fault. fault ≡ Memory };

    fn from(_error: AllocError) -> BuildFault {
        BuildFault::Memory
    }
}

impl<T: Drop> From<AllocFailed<T>> for BuildFault {
    ghost from_gives = { λ _ fault. fault ≡ Memory };

    fn from(_failed: AllocFailed<T>) -> BuildFault {
        BuildFault::Memory
    }
}

impl From<Failed> for BuildFault {
    ghost from_gives = { λ _ fault. fault ≡ Device };

    fn from(_failed: Failed) -> BuildFault {
        BuildFault::Device
    }
}
