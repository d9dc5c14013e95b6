//! The salvage of a cache (`cache_repair`).

ghost use Rattle.std.specs.Prelude.{◌≡◌, ◌⊎◌, ◌^◌, ◌<◌, ◌≤◌, IfOk, IfSome};
ghost use Rattle.std.specs.List.{All, AllByRecursion};
ghost use Rattle.pd_laid.specs.CacheRoots.{unknown_words};
ghost use Rattle.pd_laid.specs.SavedCache.{saved_cache_from};
ghost use Rattle.pd_image.specs.Device.{IsAttached, OnlyReads};
ghost use Rattle.pd_salvage_cache.specs.SavedCache.{FitsHead, head_of, held_cache};
ghost use Rattle.pd_salvage.specs.Saved.{CountsSalvage};

use crate::gather::{first_rows, found_rows};
use crate::saved::{CacheHead, SavedCache};
use pd_image::Device;
use pd_kinds::CacheSuper;
use pd_salvage::SalvageFault;
use std::alloc::Global;

/// All that can be saved of the cache with this superblock: the entries whose mapping words a path of undamaged nodes leads
/// to. What may be dirty is dirty, a lost hint is 0, and of the entries with one origin the first is kept. The cache blocks
/// whose mapping word is lost are counted.
///
/// It takes the memory of a cursor over a tree for each array, 24 bytes an entry, and while it looks for an origin that
/// comes twice up to 16 bytes an entry besides; where there is one, the origins in a tree and the entries once more.
///
/// Fails with `Device` where a read failed, and with `Memory` where that memory wasn't found.
pub fn salvage_cache<D: Device>(
    alloc: Global,
    dev: &mut D,
    s: &CacheSuper,
) -> Result<SavedCache, SalvageFault>
    requires attached { IsAttached (D.state dev.old) }
    requires within { s.now.meta_map.blocks ≤ (D.state dev.old).blocks }
    requires hints { (s.now.hint_size ≡ 0) ⊎ (s.now.hint_size ≡ 4) }
    ensures saved { IfOk result (λ saved. IfSome (D.state dev.old).held (λ image. held_cache saved ≡ saved_cache_from s.now image)) }
    ensures unknown { IfOk result (λ saved. IfSome (D.state dev.old).held (λ image. saved.unknown ≡ unknown_words s.now image)) }
    ensures head { IfOk result (λ saved. saved.head ≡ head_of s.now) }
    ensures kept { OnlyReads (D.state dev.old) (D.state dev.new) }
    ensures faults { CountsSalvage result (D.state dev.old).faults (D.state dev.new).faults }
{
    let (rows, unknown) = found_rows(alloc, dev, s)?;
    let kept = first_rows(alloc, rows)?;
    Ok(SavedCache::of_parts(head_of(s), kept, unknown))
}

/// What is said of the whole cache with this superblock.
fn head_of(s: &CacheSuper) -> CacheHead
    ensures head { result ≡ head_of s.now }
    ensures fits { FitsHead result }
{
    head(
        s.uuid,
        s.block_size,
        s.blocks,
        s.flags % 2 == 1,
        s.policy,
        s.versions,
        s.hint_size,
    )
}

/// The head with these fields.
fn head(
    uuid: [u8; 16],
    block_size: u32,
    blocks: u32,
    clean: bool,
    policy: [u8; 16],
    versions: [u32; 3],
    hint_size: u32,
) -> CacheHead
    ensures head { result ≡ record {
      uuid = uuid;
      block_size = block_size;
      blocks = blocks;
      clean = clean;
      policy = policy;
      versions = versions;
      hint_size = hint_size;
    } }
    ensures fits { FitsHead result }
{
    show_bytes(&uuid);
    show_bytes(&policy);
    show_numbers(&versions);
    CacheHead {
        uuid,
        block_size,
        blocks,
        clean,
        policy,
        versions,
        hint_size,
    }
}

/// Each byte is below 256: reading it shows its range.
fn show_bytes(bytes: &[u8; 16])
    ensures { All (λ b. b < 256) bytes.now }
{
    for i in 0..16 {
        let _byte = bytes[i];
    }
}

/// So is each of these numbers below 2^32.
fn show_numbers(numbers: &[u32; 3])
    ensures { AllByRecursion (λ v. v < 2 ^ 32) numbers.now }
{
    let _first = numbers[0];
    let _second = numbers[1];
    let _third = numbers[2];
}
