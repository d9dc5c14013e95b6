//! The entries that are found of a cache (`cache_repair`).

ghost use Rattle.std.specs.Prelude.{◌≡◌, ◌+◌, ◌-◌, ◌*◌, ◌<◌, ◌≤◌, ◌++◌, map, IfOk, IfSome, OnOk, min, ℕ};
ghost use Rattle.std.specs.Prelude.{◌||◌, ◌==◌, [], ◌∷◌, List, length, if◌then◌else◌};
ghost use Rattle.std.specs.List.{AllByRecursion, filter_map, range_with_len};
ghost use Rattle.std.specs.BTreeSet.{contains};
ghost use Rattle.std.specs.Ordering.{nat_cmp};
ghost use Rattle.pd_kinds.specs.CacheFormat.{CacheFields};
ghost use Rattle.pd_kinds.specs.Whole.{has_repeat as has_repeat_in};
ghost use Rattle.pd_laid.specs.CacheRoots.{unknown_words};
ghost use Rattle.pd_laid.specs.SavedCache.{found_entries};
ghost use Rattle.pd_image.specs.Device.{IsAttached, OnlyReads};
ghost use Rattle.pd_meaning_cache.specs.OriginSet.{AreAdded, others_number, others_room};
ghost use Rattle.pd_salvage_cache.specs.Arrays.{HoldsKey, IsOfCache, IsReadyFor, KnowsCache, row_held};
ghost use Rattle.pd_salvage_cache.specs.SavedCache.{DoAscend, FitsRow, entry, kept_rows, origins_of};
ghost use Rattle.pd_salvage.specs.Saved.{CountsSalvage};

use crate::arrays::Arrays;
use crate::saved::Row;
use pd_image::Device;
use pd_kinds::CacheSuper;
use pd_meaning_cache::OriginSet;
use pd_salvage::SalvageFault;
use std::alloc::{AllocError, Global};
use std::collections::BTreeSet;

/// How many cache blocks have their words in one block of the mapping array.
const WORDS: u32 = 509;

/// The entries of all cache blocks that are saved, by ascending cache block, and the number of those whose mapping word is
/// lost.
pub(crate) fn found_rows<D: Device>(
    alloc: Global,
    dev: &mut D,
    s: &CacheSuper,
) -> Result<(Vec<Row>, u32), SalvageFault>
    requires attached { IsAttached (D.state dev.old) }
    requires within { s.now.meta_map.blocks ≤ (D.state dev.old).blocks }
    ensures found { IfOk result (λ all. IfSome (D.state dev.old).held (λ image. map entry all.0.items ≡ found_entries s.now image)) }
    ensures unknown { IfOk result (λ all. IfSome (D.state dev.old).held (λ image. all.1 ≡ unknown_words s.now image)) }
    ensures ascend { IfOk result (λ all. DoAscend s.now.blocks s.now.hint_size 0 (map entry all.0.items)) }
    ensures kept { OnlyReads (D.state dev.old) (D.state dev.new) }
    ensures faults { CountsSalvage result (D.state dev.old).faults (D.state dev.new).faults }
{
    let mut arrays = Arrays::start(alloc, s)?;
    let mut rows = Vec::new(alloc);
    let mut unknown = 0;
    for key in 0..keys_of(s.blocks) {
        add_key(&mut arrays, dev, &mut rows, key, s.blocks)?;
        unknown += arrays.lost(key, s.blocks);
    }
    Ok((rows, unknown))
}

/// How many blocks the mapping array of so many cache blocks has.
fn keys_of(blocks: u32) -> u32
    ensures enough { blocks ≤ 509 * result }
    ensures few { 509 * result < blocks + 509 }
{
    blocks.div_ceil(WORDS)
}

/// Adds the rows of the cache blocks of a key of the mapping array, which are below `end`.
fn add_key<D: Device>(
    arrays: &mut Arrays,
    dev: &mut D,
    rows: &mut Vec<Row>,
    key: u32,
    end: u32,
) -> Result<(), SalvageFault>
    requires attached { IsAttached (D.state dev.old) }
    requires within { arrays.old.nr ≤ (D.state dev.old).blocks }
    requires ready { IsReadyFor key arrays.old }
    requires some { 509 * key < end }
    ensures knows { OnOk result (IfSome (D.state dev.old).held (λ image. (fields : CacheFields)
        → KnowsCache image fields arrays.old → KnowsCache image fields arrays.new)) }
    ensures of { (fields : CacheFields) → IsOfCache fields arrays.old → IsOfCache fields arrays.new }
    ensures holds { OnOk result (HoldsKey key arrays.new) }
    ensures rows { OnOk result (rows.new.items
        ≡ rows.old.items ++ filter_map (row_held arrays.new) (range_with_len (509 * key) (min 509 (end - 509 * key)))) }
    ensures fit { OnOk result (AllByRecursion FitsRow
        (filter_map (row_held arrays.new) (range_with_len (509 * key) (min 509 (end - 509 * key))))) }
    ensures kept { OnlyReads (D.state dev.old) (D.state dev.new) }
    ensures faults { CountsSalvage result (D.state dev.old).faults (D.state dev.new).faults }
{
    arrays.hold(dev, key)?;
    arrays.add_rows(rows, key, end)?;
    Ok(())
}

// Of the entries with one origin the first (`cache_repair`).

/// The rows but those that have the origin of an earlier one.
pub(crate) fn first_rows(alloc: Global, rows: Vec<Row>) -> Result<Vec<Row>, AllocError>
    requires { (blocks : ℕ) × ((hint_size : ℕ) × DoAscend blocks hint_size 0 (map entry rows.items)) }
    ensures { IfOk result (λ kept. kept.items ≡ kept_rows rows.items) }
{
    if has_repeat(alloc, &rows)? {
        rows_of_new_origins(alloc, &rows)
    } else {
        Ok(rows)
    }
}

/// Whether two rows have one origin.
fn has_repeat(alloc: Global, rows: &[Row]) -> Result<bool, AllocError>
    ensures { IfOk result (λ repeat. repeat ≡ has_repeat_in (origins_of rows.now)) }
{
    let words = bit_words(rows);
    let mut set = OriginSet::new(alloc, words, rows.len())?;
    set.give_bits(words);
    add_origins(&mut set, rows);
    Ok(set.has_repeat())
}

/// How many words have a bit for each origin, or, where that is less, the number of rows.
fn bit_words(rows: &[Row]) -> usize
    ensures { result ≤ length rows.now }
{
    let most = rows.iter().map(|row| row.origin).max().unwrap_or(0);
    rows.len().min((most / 64) as usize + 1)
}

/// Adds the origins of the rows.
fn add_origins(set: &mut OriginSet, rows: &[Row])
    requires { others_number set.old + length rows.now ≤ others_room set.old }
    ensures { (os : List ℕ) → AreAdded os set.old → AreAdded (os ++ origins_of rows.now) set.new }
{
    for i in 0..rows.len() {
        set.add(rows[i].origin);
    }
}

/// The rows but those that have the origin of an earlier one, where there is such a row.
fn rows_of_new_origins(alloc: Global, rows: &[Row]) -> Result<Vec<Row>, AllocError>
    requires { (blocks : ℕ) × ((hint_size : ℕ) × DoAscend blocks hint_size 0 (map entry rows.now)) }
    ensures { IfOk result (λ kept. kept.items ≡ kept_rows rows.now) }
{
    let mut seen = BTreeSet::new(alloc);
    let mut kept = Vec::new(alloc);
    for row in rows {
        add_new(&mut seen, &mut kept, row)?;
    }
    Ok(kept)
}

/// Adds a row whose origin wasn't seen.
fn add_new(seen: &mut BTreeSet<u64>, kept: &mut Vec<Row>, row: &Row) -> Result<(), AllocError>
    ensures kept { OnOk result (kept.new.items
        ≡ kept.old.items ++ (if contains nat_cmp seen.old row.now.origin then [] else row.now ∷ [])) }
    ensures seen { OnOk result ((origin : ℕ)
        → contains nat_cmp seen.new origin ≡ (contains nat_cmp seen.old origin || row.now.origin == origin)) }
{
    if seen.insert(row.origin)? {
        kept.push(*row)?;
    }
    Ok(())
}
