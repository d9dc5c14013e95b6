//! What was saved of a pool (`thin_repair`, `thin_shrink`).

ghost use Rattle.std.specs.Prelude.{◌≡◌};
ghost use Rattle.pd_salvage.specs.declared.saved.SalvageFault.TheVariants.{Memory, Device};

use pd_image::Failed;
use pd_meaning_thin::PackedRuns;
use pd_value::Details;
use std::alloc::{AllocError, AllocFailed};
use std::marker::Model;

/// What the superblock says of a pool.
#[derive(Clone, Copy, Debug, PartialEq, Eq)]
pub struct SavedHead {
    /// The pool's identifier.
    pub uuid: [u8; 16],
    /// The pool's snapshot count.
    pub time: u32,
    /// The transaction id.
    pub transaction: u64,
    /// The size of a data block in sectors of 512 bytes.
    pub block_size: u32,
    /// The number of data blocks.
    pub blocks: u64,
}

/// A thin device that was saved, and how many of the runs are its.
#[derive(Clone, Copy, Debug, PartialEq, Eq)]
pub struct SavedDevice {
    /// The number of the device.
    pub id: u64,
    /// Its details, of which the mapped number was counted again.
    pub details: Details,
    /// How many runs its mappings are.
    pub runs: usize,
}

/// What was saved of a pool, held in memory: 40 bytes a device, and for a run some 4 and at most 35.
///
/// It is a lawful pool: ids and virtual blocks ascend, and each number fits its place.
#[derive(Drop)]
pub struct Salvage {
    pub(crate) head: SavedHead,
    pub(crate) devices: Vec<SavedDevice>,
    pub(crate) runs: PackedRuns,
}

impl Model for Salvage {
    ghost use Rattle.pd_salvage.specs.Saved.{IsSavedPool, SavedPool};

    ghost Value = { SavedPool };

    ghost view = { λ s. record { head = s.head; devices = s.devices.items; runs = s.runs } };

    ghost invariant = { λ s. IsSavedPool (record { head = s.head; devices = s.devices.items; runs = s.runs }) };
}

impl Salvage {
    ghost use Rattle.pd_salvage.specs.Saved.{IsSavedPool, with_devices as pool_with};

    /// A pool of this head, these devices and these runs.
    pub fn of_parts(head: SavedHead, devices: Vec<SavedDevice>, runs: PackedRuns) -> Salvage
        requires { IsSavedPool (record { head = head; devices = devices.items; runs = runs }) }
        ensures { result ≡ record { head = head; devices = devices.items; runs = runs } }
    {
        Salvage {
            head,
            devices,
            runs,
        }
    }

    /// What the superblock says of the pool.
    pub fn head(&self) -> &SavedHead
        ensures head { result.now ≡ self.now.head }
        // What was saved is a lawful pool, and its runs are as long as can be.
        ensures sound { IsSavedPool self.now }
    {
        &self.head
    }

    /// The devices, by ascending id.
    pub fn devices(&self) -> &[SavedDevice]
        ensures { result.now ≡ self.now.devices }
    {
        &self.devices
    }

    /// The runs of all devices, by ascending virtual block, those of the first device first.
    pub fn runs(&self) -> &PackedRuns
        ensures { result.now ≡ self.now.runs }
    {
        &self.runs
    }

    /// The same runs with another snapshot count, and as those of these devices.
    pub fn with_devices(self, time: u32, devices: Vec<SavedDevice>) -> Salvage
        requires { IsSavedPool (pool_with self time devices.items) }
        ensures { result ≡ pool_with self time devices.items }
    {
        let Salvage {
            head,
            devices: _,
            runs,
        } = self;
        Salvage {
            head: SavedHead { time, ..head },
            devices,
            runs,
        }
    }
}

// Why a salvage has no answer (`thin_repair`, `thin_shrink`, `cache_repair`).

/// Why there is no answer.
#[derive(Clone, Copy, Debug, PartialEq, Eq)]
pub enum SalvageFault {
    /// Memory wasn't found.
    Memory,
    /// A read of the device failed.
    Device,
}

impl From<AllocError> for SalvageFault {
    ghost from_gives = { λ _ fault. fault ≡ Memory };

    fn from(_error: AllocError) -> SalvageFault {
        SalvageFault::Memory
    }
}

impl<T: Drop> From<AllocFailed<T>> for SalvageFault {
    ghost from_gives = { λ _ fault. fault ≡ Memory };

    fn from(_failed: AllocFailed<T>) -> SalvageFault {
        SalvageFault::Memory
    }
}

impl From<Failed> for SalvageFault {
    ghost from_gives = { λ _ fault. fault ≡ Device };

    fn from(_failed: Failed) -> SalvageFault {
        SalvageFault::Device
    }
}
