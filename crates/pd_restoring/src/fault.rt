//! Why a restore failed (`thin_restore`, `cache_restore`, `era_restore`).

ghost use Rattle.std.specs.Prelude.{◌≡◌};
ghost use Rattle.pd_restoring.specs.declared.fault.RestoreFault.TheVariants.{Memory};
ghost use Rattle.pd_restoring.specs.Restored.{read_fault, build_fault};

use pd_build::BuildFault;
use pd_texts::{ReadFault, TextFault};
use std::alloc::{AllocError, AllocFailed};

/// Why a restore failed.
#[derive(Clone, Copy, Debug, PartialEq, Eq)]
pub enum RestoreFault {
    /// There wasn't enough memory.
    Memory,
    /// The source has failed.
    Source,
    /// The device has failed.
    Device,
    /// The text is refused.
    Text(TextFault),
    /// There is no room: so many blocks are needed up to some line, and there are so many.
    NoRoom { need: u64, blocks: u64 },
}

impl From<AllocError> for RestoreFault {
    ghost from_gives = { λ _ given. given ≡ Memory };

    fn from(_error: AllocError) -> RestoreFault {
        RestoreFault::Memory
    }
}

impl<T: Drop> From<AllocFailed<T>> for RestoreFault {
    ghost from_gives = { λ _ given. given ≡ Memory };

    fn from(_failed: AllocFailed<T>) -> RestoreFault {
        RestoreFault::Memory
    }
}

/// A text that can't be read isn't restored.
impl From<ReadFault> for RestoreFault {
    ghost from_gives = { λ fault given. given ≡ read_fault fault };

    fn from(fault: ReadFault) -> RestoreFault {
        match fault {
            ReadFault::Memory => RestoreFault::Memory,
            ReadFault::Source => RestoreFault::Source,
            ReadFault::Text(fault) => RestoreFault::Text(fault),
        }
    }
}

/// Nor is one that can't be written.
impl From<BuildFault> for RestoreFault {
    ghost from_gives = { λ fault given. given ≡ build_fault fault };

    fn from(fault: BuildFault) -> RestoreFault {
        match fault {
            BuildFault::Memory => RestoreFault::Memory,
            BuildFault::Device => RestoreFault::Device,
        }
    }
}

// How the writing of what is held in memory ends (`thin_repair`, `cache_repair`, `thin_shrink`).

/// Why what is held in memory wasn't written.
#[derive(Clone, Copy, Debug, PartialEq, Eq)]
pub enum MadeFault {
    /// There wasn't enough memory.
    Memory,
    /// The device has failed.
    Device,
    /// There is no room: so many blocks are needed, and there are so many.
    NoRoom { need: u64, blocks: u64 },
}
