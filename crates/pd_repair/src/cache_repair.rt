//! What a repair kept of a cache (`cache_repair`).
//! A repair of a cache (`cache_repair`).

ghost use Rattle.std.specs.Prelude.{◌≡◌, ◌||◌, not, count_by, ◌⊎◌, ◌+◌, ◌≤◌, IfErr, IfOk, IfSome};
ghost use Rattle.pd_laid.specs.CacheRoots.{unknown_words};
ghost use Rattle.pd_laid.specs.SavedCache.{saved_cache_from};
ghost use Rattle.pd_image.specs.Device.{IsAttached, IsWritable, KeepsPlace, OnlyReads};
ghost use Rattle.pd_salvage_cache.specs.declared.saved.Row.{Row as CacheRow};
ghost use Rattle.pd_salvage_cache.specs.SavedCache.{held_cache};
ghost use Rattle.pd_repair.specs.CacheRepaired.{IsKept, IsCacheRepaired, IsCacheRepairedFrom};
ghost use Rattle.pd_repair.specs.Repaired.{CountsRepair, HasSuper, IsFirst, NamesRules, ReadsFew};
ghost use Rattle.pd_salvage.specs.Saved.{CountsSalvage};

use crate::repair::RepairFault;
use pd_answers::CacheRoots;
use pd_image::Device;
use pd_kinds::{Block, CacheSuper, MAX_META_BLOCKS};
use pd_restore_kinds::{need_cache, restore_saved_cache};
use pd_salvage::SalvageFault;
use pd_salvage_cache::{Row, SavedCache, salvage_cache};
use pd_supers::{cache_super_rules, missing_super, read_cache_super};
use std::alloc::Global;

/// How much of a cache was kept.
#[derive(Clone, Copy, Debug, PartialEq, Eq)]
pub struct KeptCache {
    /// The number of entries.
    pub entries: u64,
    /// The number of cache blocks.
    pub blocks: u32,
    /// The number of entries that a kernel takes for dirty: where the cache wasn't shut down, that is each of them.
    pub dirty: u64,
    /// The number of cache blocks whose mapping word is lost: some of them may have been dirty.
    pub unknown: u32,
}

/// What is kept of a cache that is held in memory.
pub(crate) fn kept_of(saved: &SavedCache) -> KeptCache
    ensures { IsKept result (held_cache saved.now) saved.now.unknown }
{
    let rows = saved.rows();
    let head = saved.head();
    KeptCache {
        entries: rows.len() as u64,
        blocks: head.blocks,
        dirty: dirty_in(rows, head.clean),
        unknown: saved.unknown(),
    }
}

/// How many of these entries a kernel takes for dirty. It trusts what is said of them only where the cache was shut down.
fn dirty_in(rows: &[Row], clean: bool) -> u64
    ensures { result ≡ count_by (λ (row : CacheRow). row.dirty || not clean) rows.now }
{
    rows.iter().filter(|row| row.dirty | !clean).count() as u64
}

/// What a repair would keep of the cache with this superblock. It takes the memory of a salvage.
///
/// Fails with `Device` where a read failed, and with `Memory` where memory wasn't found.
pub fn kept_by_cache_repair<D: Device>(
    alloc: Global,
    dev: &mut D,
    s: &CacheSuper,
) -> Result<KeptCache, SalvageFault>
    requires attached { IsAttached (D.state dev.old) }
    requires within { s.now.meta_map.blocks ≤ (D.state dev.old).blocks }
    requires hints { (s.now.hint_size ≡ 0) ⊎ (s.now.hint_size ≡ 4) }
    ensures told { IfOk result (λ kept. IfSome (D.state dev.old).held
        (λ image. IsKept kept (saved_cache_from s.now image) (unknown_words s.now image))) }
    ensures kept { OnlyReads (D.state dev.old) (D.state dev.new) }
    ensures faults { CountsSalvage result (D.state dev.old).faults (D.state dev.new).faults }
{
    let saved = salvage_cache(alloc, dev, s)?;
    Ok(kept_of(&saved))
}

/// Writes what can be saved of a cache to another device, in this version of the metadata, which is 1 or 2, or else in the
/// input's own, and answers how much that is. It is saved from the roots that are named, and else from those of the superblock.
///
/// The input is only read. The room is looked at before another block than the superblock is read. Of the output at most
/// 4161600 blocks are used. It takes the memory of a salvage, and then that of a restore.
///
/// Fails with `RepairFault::NoSuper` exactly where the superblock of the input breaks rules, and names these, with
/// `RepairFault::NoRoom` where what was saved needs more blocks than there are, with `RepairFault::Memory` where memory wasn't
/// found, and with `RepairFault::Input` or `RepairFault::Output` where that device failed. After any fault but these of the
/// output and of memory the output is as it was. After want of memory it is as it was, or has no valid superblock.
pub fn repair_cache<A: Device, B: Device>(
    alloc: Global,
    input: &mut A,
    output: &mut B,
    version: Option<u32>,
    named: CacheRoots,
) -> Result<KeptCache, RepairFault>
    requires attached { IsAttached (A.state input.old) }
    requires writable { IsWritable (B.state output.old) }
    requires known { IfSome version (λ v. (v ≡ 1) ⊎ (v ≡ 2)) }
    ensures repaired { IsCacheRepaired version named ((A.state input.old).reads
        + 1) result (A.state input.old) (A.state input.new) (B.state output.old) (B.state output.new) }
    ensures named { IfErr result NamesRules }
    ensures reads { IfErr result (λ fault. ReadsFew fault ((A.state input.old).reads + 1) (A.state input.new).reads) }
    ensures input { OnlyReads (A.state input.old) (A.state input.new) }
    ensures place { KeepsPlace (B.state output.old) (B.state output.new) }
    ensures causes { CountsRepair result (A.state input.old).faults
        (A.state input.new).faults (B.state output.old).faults (B.state output.new).faults }
{
    let blocks = input.blocks();
    if blocks == 0 {
        return Err(RepairFault::NoSuper(missing_super()));
    }
    let mut first = Block::zeros();
    match input.read(0, &mut first) {
        Ok(()) => repair_read(alloc, input, output, version, named, &first, blocks),
        Err(_) => Err(RepairFault::Input),
    }
}

/// The rest of a repair, where block 0 of so many blocks was read.
fn repair_read<A: Device, B: Device>(
    alloc: Global,
    input: &mut A,
    output: &mut B,
    version: Option<u32>,
    named: CacheRoots,
    first: &Block,
    blocks: u64,
) -> Result<KeptCache, RepairFault>
    requires attached { IsAttached (A.state input.old) }
    requires number { blocks ≡ (A.state input.old).blocks }
    requires first { IfSome (A.state input.old).held (IsFirst blocks first.now.0) }
    requires writable { IsWritable (B.state output.old) }
    requires known { IfSome version (λ v. (v ≡ 1) ⊎ (v ≡ 2)) }
    ensures repaired { IsCacheRepaired version named (A.state input.old).reads result (A.state input.old) (A.state input.new) (B.state output.old)
        (B.state output.new) }
    ensures named { IfErr result NamesRules }
    ensures reads { IfErr result (λ fault. ReadsFew fault (A.state input.old).reads (A.state input.new).reads) }
    ensures input { OnlyReads (A.state input.old) (A.state input.new) }
    ensures place { KeepsPlace (B.state output.old) (B.state output.new) }
    ensures causes { CountsRepair result (A.state input.old).faults
        (A.state input.new).faults (B.state output.old).faults (B.state output.new).faults }
{
    let rules = cache_super_rules(first, blocks);
    if rules.is_empty() {
        let s = named.over(&read_cache_super(first));
        repair_from(alloc, input, output, version, &s)
    } else {
        Err(RepairFault::NoSuper(rules))
    }
}

/// Writes what can be saved of the cache with this superblock to another device.
fn repair_from<A: Device, B: Device>(
    alloc: Global,
    input: &mut A,
    output: &mut B,
    version: Option<u32>,
    s: &CacheSuper,
) -> Result<KeptCache, RepairFault>
    requires attached { IsAttached (A.state input.old) }
    requires writable { IsWritable (B.state output.old) }
    requires known { IfSome version (λ v. (v ≡ 1) ⊎ (v ≡ 2)) }
    requires own { (s.now.version ≡ 1) ⊎ (s.now.version ≡ 2) }
    requires hints { (s.now.hint_size ≡ 0) ⊎ (s.now.hint_size ≡ 4) }
    requires there { s.now.meta_map.blocks ≤ (A.state input.old).blocks }
    ensures repaired { IsCacheRepairedFrom s.now version result (A.state input.old) (A.state input.new) (B.state output.old)
        (B.state output.new) }
    ensures sound { HasSuper result }
    ensures input { OnlyReads (A.state input.old) (A.state input.new) }
    ensures place { KeepsPlace (B.state output.old) (B.state output.new) }
    ensures causes { CountsRepair result (A.state input.old).faults
        (A.state input.new).faults (B.state output.old).faults (B.state output.new).faults }
{
    let written = version.unwrap_or(s.version);
    let room = output.blocks().min(MAX_META_BLOCKS);
    let need = need_cache(written, s.blocks, s.hint_size, room);
    if need > room {
        return Err(RepairFault::NoRoom { need, blocks: room });
    }
    let saved = salvage_cache(alloc, input, s)?;
    restore_saved_cache(alloc, &saved, written, output)?;
    Ok(kept_of(&saved))
}
