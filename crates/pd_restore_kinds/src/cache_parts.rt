//! The arrays of a cache (`cache_restore`, `cache_repair`).
//! The parts of a cache behind its superblock (`cache_restore`, `cache_repair`).

ghost use Rattle.std.specs.Prelude.{◌≡◌, ◌+◌, ◌^◌, ◌≤◌, IfOk, OnOk, [], if◌then◌else◌};
ghost use Rattle.pd_grammar.specs.Need.{need_array, need_tree};
ghost use Rattle.pd_grammar.specs.Lawful.{IsLawfulCache};
ghost use Rattle.pd_grammar.specs.CacheText.{cache_need};
ghost use Rattle.pd_laid.specs.Laid.{array_root, written_from, tree_blocks, tree_root};
ghost use Rattle.pd_laid.specs.LaidCache.{laid_cache};
ghost use Rattle.pd_image.specs.Device.{IsWritable};
ghost use Rattle.pd_draft.specs.Closed.{IsClosed, StaysClosed, Wrote};
ghost use Rattle.pd_draft.specs.DraftState.{draft_state};
ghost use Rattle.pd_build.specs.Array.{array_blocks};
ghost use Rattle.pd_build.specs.Building.{CountsBuildFault};
ghost use Rattle.pd_salvage_cache.specs.SavedCache.{AreRows, cache_meaning};
ghost use Rattle.pd_restore_kinds.specs.CacheRoots.{bytes_of, words_of, AreParts};

use crate::cache_words::{Words, dirty_words};
use pd_build::{ArrayBuilder, BuildFault, write_tree};
use pd_draft::Draft;
use pd_image::Device;
use pd_kinds::SmRoot;
use pd_restoring::write_own_map;
use pd_salvage_cache::{CacheHead, Row};
use pd_value::Root;
use std::alloc::Global;

/// Writes an array of so many words, and answers the place of its root.
pub(crate) fn write_words<D: Device>(
    alloc: Global,
    draft: &mut Draft<'_, D>,
    words: Words,
    rows: &[Row],
    count: u64,
) -> Result<u64, BuildFault>
    requires rows { AreRows 0 rows.now }
    requires few { count ≤ 2 ^ 32 }
    requires writable { IsWritable (draft_state draft.old).device }
    requires room { draft.old.next + need_array (bytes_of words) count ≤ (draft_state draft.old).device.blocks }
    requires closed { IsClosed (draft_state draft.old).device }
    ensures same_reference { draft.new.dev.ghost_name ≡ draft.old.dev.ghost_name }
    ensures wrote { OnOk result (Wrote (array_blocks (bytes_of words) draft.old.next (words_of words rows.now count))
        (draft_state draft.old) (draft_state draft.new)) }
    ensures root { IfOk result (λ root. root ≡ array_root (bytes_of words) draft.old.next (words_of words rows.now count)) }
    ensures closed { StaysClosed (draft_state draft.old).device (draft_state draft.new).device }
    ensures faults { CountsBuildFault result (draft_state draft.old).device.faults (draft_state draft.new).device.faults }
{
    let mut builder = ArrayBuilder::new(alloc, count, words.size())?;
    let mut at = 0;
    for i in 0..count {
        let (word, next) = words.word(rows, at, i);
        builder.push(draft, word)?;
        at = next;
    }
    builder.finish(draft)
}

/// The roots that the superblock of a cache names; 0 is none.
#[derive(Clone, Copy, Debug, PartialEq, Eq)]
pub(crate) struct CacheRoots {
    pub(crate) mapping_root: u64,
    pub(crate) hint_root: u64,
    pub(crate) dirty_root: u64,
    pub(crate) discard_root: u64,
    pub(crate) meta_map: SmRoot,
}

/// Writes all blocks of a cache but the superblock, where there are so many blocks for metadata.
pub(crate) fn write_parts<D: Device>(
    alloc: Global,
    draft: &mut Draft<'_, D>,
    cache: &CacheHead,
    rows: &[Row],
    version: u32,
    room: u64,
) -> Result<CacheRoots, BuildFault>
    requires lawful { IsLawfulCache (cache_meaning cache.now rows.now) }
    requires place { (draft_state draft.old).place ≡ 1 }
    requires need { cache_need version (cache_meaning cache.now rows.now) room ≤ room }
    requires most { room ≤ 4161600 }
    requires there { room ≤ (draft_state draft.old).device.blocks }
    requires writable { IsWritable (draft_state draft.old).device }
    requires closed { IsClosed (draft_state draft.old).device }
    ensures same_reference { draft.new.dev.ghost_name ≡ draft.old.dev.ghost_name }
    ensures wrote { OnOk result (Wrote (written_from 1 (laid_cache (cache_meaning cache.now rows.now) version room).blocks)
        (draft_state draft.old) (draft_state draft.new)) }
    ensures parts { IfOk result (AreParts (cache_meaning cache.now rows.now) version room) }
    ensures closed { StaysClosed (draft_state draft.old).device (draft_state draft.new).device }
    ensures faults { CountsBuildFault result (draft_state draft.old).device.faults (draft_state draft.new).device.faults }
{
    let blocks = cache.blocks as u64;
    let mapping_root = write_words(alloc, draft, Words::Mapping(version), rows, blocks)?;
    let hints = cache.hint_size == 4;
    let hint_root = write_where(hints, alloc, draft, Words::Hints, rows, blocks)?;
    let words = dirty_words(blocks);
    let dirty_root = write_where(version == 2, alloc, draft, Words::Dirty, rows, words)?;
    let discard_root = write_none(alloc, draft)?;
    let meta_map = write_own_map(alloc, draft, room)?;
    Ok(CacheRoots {
        mapping_root,
        hint_root,
        dirty_root,
        discard_root,
        meta_map,
    })
}

/// Writes an array of so many words where there is to be one, and answers the place of its root, or 0.
fn write_where<D: Device>(
    there: bool,
    alloc: Global,
    draft: &mut Draft<'_, D>,
    words: Words,
    rows: &[Row],
    count: u64,
) -> Result<u64, BuildFault>
    requires rows { AreRows 0 rows.now }
    requires few { count ≤ 2 ^ 32 }
    requires writable { IsWritable (draft_state draft.old).device }
    requires room { draft.old.next + (if there then need_array (bytes_of words) count else 0) ≤ (draft_state draft.old).device.blocks }
    requires closed { IsClosed (draft_state draft.old).device }
    ensures same_reference { draft.new.dev.ghost_name ≡ draft.old.dev.ghost_name }
    ensures wrote { OnOk result (Wrote (if there then array_blocks (bytes_of words) draft.old.next (words_of words rows.now count)
        else []) (draft_state draft.old) (draft_state draft.new)) }
    ensures root { IfOk result (λ root. root
        ≡ (if there then array_root (bytes_of words) draft.old.next (words_of words rows.now count) else 0)) }
    ensures closed { StaysClosed (draft_state draft.old).device (draft_state draft.new).device }
    ensures faults { CountsBuildFault result (draft_state draft.old).device.faults (draft_state draft.new).device.faults }
{
    if there {
        write_words(alloc, draft, words, rows, count)
    } else {
        Ok(0)
    }
}

/// Writes the tree of a discard bitset without words, and answers the place of its root.
fn write_none<D: Device>(alloc: Global, draft: &mut Draft<'_, D>) -> Result<u64, BuildFault>
    requires writable { IsWritable (draft_state draft.old).device }
    requires room { draft.old.next + need_tree 8 0 ≤ (draft_state draft.old).device.blocks }
    requires closed { IsClosed (draft_state draft.old).device }
    ensures same_reference { draft.new.dev.ghost_name ≡ draft.old.dev.ghost_name }
    ensures wrote { OnOk result (Wrote (tree_blocks 8 draft.old.next []) (draft_state draft.old) (draft_state draft.new)) }
    ensures root { IfOk result (λ root. root ≡ tree_root 8 draft.old.next []) }
    ensures closed { StaysClosed (draft_state draft.old).device (draft_state draft.new).device }
    ensures faults { CountsBuildFault result (draft_state draft.old).device.faults (draft_state draft.new).device.faults }
{
    let none: [(u64, Root); 0] = [];
    write_tree(alloc, draft, &none)
}
