//! What a repair would keep (`thin_repair --dry-run`).

ghost use Rattle.std.specs.Prelude.{ℕ, ◌+◌, ◌^◌, ◌<◌, IfNone, IfSome, ◌≡◌, ◌≤◌, map, sum_by, IfOk};
ghost use Rattle.pd_kinds.specs.Bitmap.{bitmaps_for};
ghost use Rattle.pd_answers.specs.KeptLines.{IsLeastRoom, IsTold};
ghost use Rattle.pd_image.specs.Device.{IsAttached, OnlyReads};
ghost use Rattle.pd_salvage.specs.declared.saved_shape.ShapedDevice.{ShapedDevice as Device};
ghost use Rattle.pd_salvage.specs.Saved.{CountsSalvage};
ghost use Rattle.pd_kept.specs.Kept.{told_of, AreStored, pair_of, Weighs};

use crate::merging::{StoredNumber, merge, read_stored};
use pd_image::Device;
use pd_kinds::{ThinSuper, bitmaps_for};
use pd_laws_shapes::saved_shapes_mean_what_is_saved;
use pd_restore::{need_of_shape, plain_need_of_shape};
use pd_salvage::{SalvageFault, SavedShape, ShapedDevice};
use pd_salvage_shapes::salvage_shape;
use std::alloc::Global;

/// A device of which something is found.
#[derive(Clone, Copy, Debug, PartialEq, Eq)]
pub enum KeptDevice {
    /// It is saved, with so many mappings. Its details say that it has `mapped`, where they are found.
    Kept {
        id: u64,
        mappings: u64,
        mapped: Option<u64>,
    },
    /// It is lost: only its details are found, which say that it has so many mappings.
    Lost {
        id: u64,
        mapped: u64,
    },
}

/// What a repair would keep of a pool: 40 bytes a device.
#[derive(Drop)]
pub struct Kept {
    /// The devices, by ascending id.
    pub devices: Vec<KeptDevice>,
    /// How many of them are saved.
    pub saved: u64,
    /// How many mappings these have.
    pub mappings: u64,
    /// The least number of blocks on which there is room, where each device has leaves of its own.
    pub need: u64,
    /// The same where leaves that devices share stay shared.
    pub shared_need: u64,
}

impl Kept {
    /// Nothing.
    pub(crate) fn none(alloc: Global) -> Kept {
        Kept {
            devices: Vec::new(alloc),
            saved: 0,
            mappings: 0,
            need: 0,
            shared_need: 0,
        }
    }
}

// The least number of blocks on which there is room (`thin_repair --dry-run`).

/// The least number of metadata blocks on which there is room for so many blocks and the bitmaps of all of them. `None`
/// where there is no such number below 2^64.
pub fn least_room(base: u64) -> Option<u64>
    ensures least { IfSome result (IsLeastRoom (λ room. base + bitmaps_for room)) }
    ensures none { IfNone result ((room : ℕ) → room < 2 ^ 64 → room < base + bitmaps_for room) }
{
    let mut room = base;
    loop {
        let need = base.checked_add(bitmaps_for(room))?;
        if need <= room {
            return Some(room);
        }
        room = need;
    }
}

// What a repair would keep of a pool, and its needs (`thin_repair --dry-run`).

/// What a repair would keep of the pool with this superblock.
///
/// It reads as such a repair does, and the details once more. It takes the memory of what is saved, that of counts of the
/// data blocks, and of each device that is saved or lost 56 bytes.
///
/// Fails with `Device` where a read failed, and with `Memory` where memory wasn't found: a number that doesn't fit its type
/// is that of a pool for which there is no memory.
pub fn kept_by_repair<D: Device>(
    alloc: Global,
    dev: &mut D,
    s: &ThinSuper,
) -> Result<Kept, SalvageFault>
    requires attached { IsAttached (D.state dev.old) }
    requires within { s.now.meta_map.blocks ≤ (D.state dev.old).blocks }
    requires few { s.now.meta_map.blocks ≤ 4161600 }
    requires data { s.now.data_map.blocks ≤ 2 ^ 40 }
    ensures told { IfOk result (λ kept. IfSome (D.state dev.old).held (λ image. IsTold s.now image (told_of kept))) }
    ensures kept { OnlyReads (D.state dev.old) (D.state dev.new) }
    ensures faults { CountsSalvage result (D.state dev.old).faults (D.state dev.new).faults }
{
    saved_shapes_mean_what_is_saved();
    let saved = salvage_shape(alloc, dev, s)?;
    let stored = read_stored(alloc, dev, s)?;
    match weigh(alloc, &saved, stored.as_slice()) {
        Some(kept) => Ok(kept),
        None => Err(SalvageFault::Memory),
    }
}

/// What is kept where this is saved and these are the stored numbers, if memory for it is found and all numbers fit.
fn weigh(alloc: Global, saved: &SavedShape, stored: &[StoredNumber]) -> Option<Kept>
    requires { AreStored 0 (map pair_of stored.now) }
    ensures { IfSome result (Weighs saved.now stored.now) }
{
    // For the proof alone, which learns here that what is saved is a pool.
    let _ = saved.head();
    let devices = saved.devices();
    let mappings = mappings_of(devices)?;
    let plain = plain_need_of_shape(alloc, saved, 0)?;
    let need = least_room(plain)?;
    let shared = need_of_shape(alloc, saved, 0)?;
    let shared_need = least_room(shared)?;
    match merge(alloc, devices, stored) {
        Ok(merged) => Some(Kept {
            devices: merged,
            saved: devices.len() as u64,
            mappings,
            need,
            shared_need,
        }),
        Err(_) => None,
    }
}

/// How many mappings these devices have, where that fits.
fn mappings_of(devices: &[ShapedDevice]) -> Option<u64>
    ensures { IfSome result (λ mappings. mappings ≡ sum_by (λ (d : Device). d.details.mapped) devices.now) }
{
    let mut mappings = 0u64;
    for device in devices {
        mappings = mappings.checked_add(device.details.mapped)?;
    }
    Some(mappings)
}
