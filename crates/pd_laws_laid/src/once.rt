//! A metadata map over blocks that are named once.
//! In a laid cache and a laid era target each block is named once.
//! A laid cache and a laid era target take their need.
//! Trees that are written one behind the other.

ghost use Rattle.std.specs.Prelude.{◌≡◌, ◌≤◌, ◌+◌, ◌==◌, not, List, [], ℕ, count_by, ◌^◌, length, ◌++◌};
ghost use Rattle.std.specs.List.{range_with_len};
ghost use Rattle.pd_kinds.specs.Meaning.{CacheMeaning, EraMeaning, ThinDevice};
ghost use Rattle.pd_grammar.specs.Need.{need_meta_map};
ghost use Rattle.pd_grammar.specs.CacheText.{cache_need};
ghost use Rattle.pd_grammar.specs.EraText.{era_need};
ghost use Rattle.pd_laid.specs.Laid.{written_from, laid_meta_map, meta_counts, meta_overflow, overflow_items, laid_number};
ghost use Rattle.pd_laid.specs.LaidCache.{cache_named, meta_map_at, laid_cache};
ghost use Rattle.pd_laid.specs.LaidEra.{laid_era};
ghost use Rattle.pd_laid.specs.LaidEra as era;
ghost use Rattle.pd_laws_laid.specs.Once.{NamesEachOnce, ones_below, meta_map_from, device_roots, device_trees, trees_need};

/// Where each block before a metadata map is named once, the map stores ones below its end and zeros from there
/// on; so it has nothing in its overflow tree, and as many blocks have a count as stand below its end.
pub fn ones_are_stored()
    ensures counts { (role n place : ℕ) (named : List ℕ) → NamesEachOnce place named
        → meta_counts role n place named ≡ ones_below (place + need_meta_map n) }
    ensures overflow { (n place : ℕ) (named : List ℕ) → NamesEachOnce place named → meta_overflow n named ≡ [] }
    ensures ones_overflow { (n end : ℕ) → overflow_items (ones_below end) n ≡ [] }
    ensures ones_allocated { (n end : ℕ) → end ≤ n → count_by (λ b. not (ones_below end b == 0)) (range_with_len 0 n) ≡ end }
{}

/// What is written of a laid metadata map are the index block, the bitmaps and the overflow tree.
pub fn metadata_map_is_written()
    ensures { (role n place : ℕ) (named : List ℕ)
        → written_from place (laid_meta_map role n place named)
        ≡ meta_map_from (meta_counts role n place named) (meta_overflow n named) n place }
{}

/// What block 0 and the parts of a cache up to the metadata map name, in each version: each block before the map
/// once, and no other block.
pub fn each_block_of_a_cache_is_named_once()
    ensures { (m : CacheMeaning) (version : ℕ)
        → meta_map_at m version ≤ 2 ^ 64 → NamesEachOnce (meta_map_at m version) (cache_named m version) }
{}

/// What block 0 and the parts of an era target up to the metadata map name: each block before the map once, and no
/// other block.
pub fn each_block_of_an_era_target_is_named_once()
    ensures { (m : EraMeaning) → era.meta_map_at m ≤ 2 ^ 64 → NamesEachOnce (era.meta_map_at m) (era.era_named m) }
{}

/// The laid image of a cache, in each version, and that of an era target takes just the blocks that it needs.
pub fn caches_and_era_targets_take_their_need()
    ensures cache { (m : CacheMeaning) (version n : ℕ)
        → cache_need version m n ≤ 2 ^ 64 → laid_number (laid_cache m version n) ≡ cache_need version m n }
    ensures era { (m : EraMeaning) (n : ℕ) → m.blocks ≡ length m.eras → era_need m n ≤ 2 ^ 64 → laid_number (laid_era m n) ≡ era_need m n }
{}

/// The trees of later devices stand behind those of the devices before them.
pub fn later_devices_stand_behind()
    ensures trees { (place : ℕ) (ds es : List ThinDevice)
        → device_trees place (ds ++ es) ≡ device_trees place ds ++ device_trees (place + trees_need ds) es }
    ensures roots { (place : ℕ) (ds es : List ThinDevice)
        → device_roots place (ds ++ es) ≡ device_roots place ds ++ device_roots (place + trees_need ds) es }
{}
