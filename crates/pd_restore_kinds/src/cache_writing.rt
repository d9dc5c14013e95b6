//! A cache, from the lines after its own (`cache_restore`, `cache_repair`).
//! A cache that is held in memory, written to a device (`cache_repair`).

ghost use Rattle.std.specs.Prelude.{◌≡◌, ◌≤◌, if◌then◌else◌, ℕ, List, IfOk, IfErr, OnOk, ◌⊎◌, is_some};
ghost use Rattle.pd_grammar.specs.CacheText.{cache_need, cache_need_so_far, cache as cache_texts};
ghost use Rattle.pd_grammar.specs.Lawful.{IsLawfulCache};
ghost use Rattle.pd_laid.specs.Laid.{written_from};
ghost use Rattle.pd_laid.specs.LaidCache.{laid_cache};
ghost use Rattle.pd_image.specs.Device.{IsWritable, KeepsPlace};
ghost use Rattle.pd_image.specs.Source.{KeepsSource};
ghost use Rattle.pd_draft.specs.Closed.{IsClosed, StaysClosed, Wrote};
ghost use Rattle.pd_draft.specs.DraftState.{draft_state};
ghost use Rattle.pd_build.specs.Building.{CountsBuildFault};
ghost use Rattle.pd_restoring.specs.Reading.{CountsTake, IsOfBuild, IsOfLater, SaysOf};
ghost use Rattle.pd_restoring.specs.Restored.{CountsRestore, Writes, Lays};
ghost use Rattle.pd_restoring.specs.Made.{CountsMade, ending_of};
ghost use Rattle.pd_salvage_cache.specs.SavedCache.{cache_meaning, held_cache};
ghost use Rattle.pd_restore_kinds.specs.Caches.{HasBegun, CacheLeaves, caches, IsCacheMadeOf};
ghost use Rattle.pd_restore_kinds.specs.CacheReading.{begun_lines, meaning_of};
ghost use Rattle.pd_restore_kinds.specs.CacheRoots.{fields_of};

use crate::cache::Begun;
use crate::cache_lines::{Gathered, gather_lines};
use crate::cache_parts::{CacheRoots, write_parts};
use crate::cache_words::need_cache;
use pd_build::BuildFault;
use pd_draft::{Draft, clear};
use pd_image::{Device, Source};
use pd_kinds::{Block, CacheSuper, MAX_META_BLOCKS};
use pd_restoring::{MadeFault, RestoreFault};
use pd_salvage_cache::{CacheHead, Row, SavedCache};
use pd_supers::write_cache_super;
use std::alloc::Global;

/// Gathers the lines after the cache line and writes all of the cache but its superblock, which it answers.
pub(crate) fn write_cache<S: Source, D: Device>(
    alloc: Global,
    begun: Begun,
    source: &mut S,
    draft: &mut Draft<'_, D>,
    version: u32,
    room: u64,
) -> Result<Block, RestoreFault>
    requires attached { (S.state source.old).access ≡ 1 }
    requires stands { HasBegun begun }
    requires place { (draft_state draft.old).place ≡ 1 }
    requires need { cache_need_so_far version room (begun_lines begun.cache) ≤ room }
    requires most { room ≤ 4161600 }
    requires there { room ≤ (draft_state draft.old).device.blocks }
    requires writable { IsWritable (draft_state draft.old).device }
    requires closed { IsClosed (draft_state draft.old).device }
    ensures same_reference { draft.new.dev.ghost_name ≡ draft.old.dev.ghost_name }
    ensures writes { IfOk result (Writes (caches version) room
        (λ t. CacheLeaves t begun (S.state source.old).left) (S.state source.new).left (draft_state draft.old) (draft_state draft.new)) }
    ensures says { (t : List ℕ) → CacheLeaves t begun (S.state source.old).left
        → IfErr result (SaysOf cache_texts (cache_need_so_far version) room t) }
    ensures later { IfErr result IsOfLater }
    ensures source { KeepsSource (S.state source.old) (S.state source.new) }
    ensures closed { StaysClosed (draft_state draft.old).device (draft_state draft.new).device }
    ensures faults { CountsRestore result (S.state source.old).faults (S.state source.new).faults
        (draft_state draft.old).device.faults (draft_state draft.new).device.faults }
{
    let Begun { mut text, cache } = begun;
    let mut gathered = Gathered::new(alloc, cache);
    gather_lines(alloc, &mut text, source, &mut gathered)?;
    write_gathered(alloc, draft, &gathered, version, room)
}

/// Writes a cache that was gathered, but for its superblock, which it answers.
fn write_gathered<D: Device>(
    alloc: Global,
    draft: &mut Draft<'_, D>,
    gathered: &Gathered,
    version: u32,
    room: u64,
) -> Result<Block, RestoreFault>
    requires lawful { IsLawfulCache (meaning_of gathered.now) }
    requires place { (draft_state draft.old).place ≡ 1 }
    requires need { cache_need version (meaning_of gathered.now) room ≤ room }
    requires most { room ≤ 4161600 }
    requires there { room ≤ (draft_state draft.old).device.blocks }
    requires writable { IsWritable (draft_state draft.old).device }
    requires closed { IsClosed (draft_state draft.old).device }
    ensures same_reference { draft.new.dev.ghost_name ≡ draft.old.dev.ghost_name }
    ensures super_is { IfOk result (λ block. block.0 ≡ (laid_cache (meaning_of gathered.now) version room).super_block) }
    ensures wrote { OnOk result (Wrote (written_from 1 (laid_cache (meaning_of gathered.now) version room).blocks) (draft_state draft.old)
        (draft_state draft.new)) }
    ensures fault { IfErr result IsOfBuild }
    ensures closed { StaysClosed (draft_state draft.old).device (draft_state draft.new).device }
    ensures faults { CountsTake result (draft_state draft.old).device.faults (draft_state draft.new).device.faults }
{
    Ok(write_rows(alloc, draft, &gathered.cache, &gathered.rows, version, room)?)
}

/// Writes a cache of these entries, but for its superblock, which it answers.
pub(crate) fn write_rows<D: Device>(
    alloc: Global,
    draft: &mut Draft<'_, D>,
    cache: &CacheHead,
    rows: &[Row],
    version: u32,
    room: u64,
) -> Result<Block, BuildFault>
    requires lawful { IsLawfulCache (cache_meaning cache.now rows.now) }
    requires place { (draft_state draft.old).place ≡ 1 }
    requires need { cache_need version (cache_meaning cache.now rows.now) room ≤ room }
    requires most { room ≤ 4161600 }
    requires there { room ≤ (draft_state draft.old).device.blocks }
    requires writable { IsWritable (draft_state draft.old).device }
    requires closed { IsClosed (draft_state draft.old).device }
    ensures same_reference { draft.new.dev.ghost_name ≡ draft.old.dev.ghost_name }
    ensures super_is { IfOk result (λ block. block.0 ≡ (laid_cache (cache_meaning cache.now rows.now) version room).super_block) }
    ensures wrote { OnOk result (Wrote (written_from 1 (laid_cache (cache_meaning cache.now rows.now) version room).blocks)
        (draft_state draft.old) (draft_state draft.new)) }
    ensures closed { StaysClosed (draft_state draft.old).device (draft_state draft.new).device }
    ensures faults { CountsBuildFault result (draft_state draft.old).device.faults (draft_state draft.new).device.faults }
{
    let parts = write_parts(alloc, draft, cache, rows, version, room)?;
    Ok(write_cache_super(&super_of(cache, parts, version)))
}

/// The superblock's fields.
fn super_of(cache: &CacheHead, parts: CacheRoots, version: u32) -> CacheSuper
    ensures { result ≡ fields_of cache.now parts version }
{
    CacheSuper {
        flags: clean_flag(cache.clean),
        uuid: cache.uuid,
        version,
        policy: cache.policy,
        hint_size: cache.hint_size,
        meta_map: parts.meta_map,
        mapping_root: parts.mapping_root,
        hint_root: parts.hint_root,
        discard_root: parts.discard_root,
        discard_size: 0,
        discard_blocks: 0,
        block_size: cache.block_size,
        meta_block_size: 8,
        blocks: cache.blocks,
        compat: 0,
        compat_ro: 0,
        incompat: 0,
        read_hits: 0,
        read_misses: 0,
        write_hits: 0,
        write_misses: 0,
        versions: cache.versions,
        dirty_root: parts.dirty_root,
    }
}

/// The superblock's flags, whose bit 0 says that the cache was shut down cleanly.
fn clean_flag(clean: bool) -> u32
    ensures { result ≡ (if clean then 1 else 0) }
{
    if clean { 1 } else { 0 }
}

/// Writes a cache that is held in memory to a device, as a restore of its text does, in this version of the metadata, which
/// is 1 or 2.
///
/// The room is looked at before the device is written, of which at most 4161600 blocks are used. It takes no memory but that
/// of the arrays' upper levels.
///
/// Fails with `NoRoom` where the cache needs more blocks than there are, with `Memory` where memory wasn't found, and with
/// `Device` where the device failed. After want of room the device is as it was, and after want of memory it is as it was,
/// or has no valid superblock.
pub fn restore_saved_cache<D: Device>(
    alloc: Global,
    saved: &SavedCache,
    version: u32,
    dev: &mut D,
) -> Result<(), MadeFault>
    requires known { (version ≡ 1) ⊎ (version ≡ 2) }
    requires writable { IsWritable (D.state dev.old) }
    ensures made { IsCacheMadeOf version (held_cache saved.now) (ending_of result) (D.state dev.old) (D.state dev.new) }
    ensures place { KeepsPlace (D.state dev.old) (D.state dev.new) }
    ensures causes { CountsMade result (D.state dev.old).faults (D.state dev.new).faults }
{
    let room = dev.blocks().min(MAX_META_BLOCKS);
    let head = saved.head();
    let need = need_cache(version, head.blocks, head.hint_size, room);
    if need > room {
        return Err(MadeFault::NoRoom { need, blocks: room });
    }
    match clear(dev) {
        Ok(()) => write_closed(alloc, saved, version, dev, room),
        Err(_) => Err(MadeFault::Device),
    }
}

/// Writes a cache for which there is room to a device whose block 0 is closed.
fn write_closed<D: Device>(
    alloc: Global,
    saved: &SavedCache,
    version: u32,
    dev: &mut D,
    room: u64,
) -> Result<(), MadeFault>
    requires need { cache_need version (held_cache saved.now) room ≤ room }
    requires most { room ≤ 4161600 }
    requires some { 1 ≤ room }
    requires there { room ≤ (D.state dev.old).blocks }
    requires writable { IsWritable (D.state dev.old) }
    requires closed { IsClosed (D.state dev.old) }
    ensures lays { Lays (laid_cache (held_cache saved.now) version room) result (D.state dev.old) (D.state dev.new) }
    ensures told { is_some (D.state dev.new).held ≡ is_some (D.state dev.old).held }
    ensures place { KeepsPlace (D.state dev.old) (D.state dev.new) }
    ensures causes { CountsMade result (D.state dev.old).faults (D.state dev.new).faults }
{
    let mut draft = Draft::on_closed(dev);
    let block = match write_rows(alloc, &mut draft, saved.head(), saved.rows(), version, room) {
        Ok(block) => block,
        Err(BuildFault::Memory) => return Err(MadeFault::Memory),
        Err(BuildFault::Device) => return Err(MadeFault::Device),
    };
    match draft.commit(&block) {
        Ok(()) => Ok(()),
        Err(_) => Err(MadeFault::Device),
    }
}
