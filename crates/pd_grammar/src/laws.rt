//! What texts of pools spell.
//! What texts of caches spell.
//! What texts of era targets spell.
//! How many inner nodes a tree needs.

ghost use Rattle.std.specs.Prelude.{◌≡◌, ◌↔◌, ◌<◌, ◌≤◌, None, List, ℕ, [], ◌+◌, ◌^◌};
ghost use Rattle.pd_kinds.specs.Meaning.{ThinPool, CacheMeaning, EraMeaning};
ghost use Rattle.pd_grammar.specs.Texts.{refusal, reading, stopped};
ghost use Rattle.pd_grammar.specs.Spelling.{Verdict, accepted, no_room};
ghost use Rattle.pd_grammar.specs.Lawful.{IsLawfulPool, IsLawfulCache, IsLawfulEra};
ghost use Rattle.pd_grammar.specs.Need.{thin_need, IsThinVerdict, need_above, nodes_for};
ghost use Rattle.pd_grammar.specs.ThinText.{thin, SpellsPool, text_of_pool, AreRunsApart};
ghost use Rattle.pd_grammar.specs.CacheText.{cache_need, IsCacheVerdict, cache, cache_single, repeated_test, SpellsCache, text_of_cache};
ghost use Rattle.pd_grammar.specs.EraText.{era_need, IsEraVerdict, era, SpellsEra, text_of_era, AreApart};

/// A text has no refusal exactly where it spells a pool.
pub fn thin_text_unless_refused()
    ensures { (text : List ℕ) → (refusal thin text ≡ None) ↔ ((m : ThinPool) × SpellsPool text m) }
{}

/// No text spells two pools.
pub fn thin_text_has_one_meaning()
    ensures { (text : List ℕ) (m n : ThinPool) → SpellsPool text m → SpellsPool text n → m ≡ n }
{}

/// Each lawful pool is spelled by its text.
pub fn thin_text_spells()
    ensures { (m : ThinPool) → IsLawfulPool m → SpellsPool (text_of_pool m) m }
{}

/// A spelling in which no two neighbouring runs of a device join is the pool's text.
pub fn thin_text_with_runs_apart()
    ensures { (text : List ℕ) (m : ThinPool) (s : SpellsPool text m) → AreRunsApart s.means.parts → text ≡ text_of_pool m }
{}

/// Each text has one verdict where so many metadata blocks are there.
pub fn thin_text_has_one_verdict()
    ensures some { (text : List ℕ) (room : ℕ) → (v : Verdict ThinPool) × IsThinVerdict text room v }
    ensures one { (text : List ℕ) (room : ℕ) (v w : Verdict ThinPool) → IsThinVerdict text room v → IsThinVerdict text room w → v ≡ w }
{}

/// A text that spells a pool is accepted where the pool's need isn't above the room. Elsewhere there is no room: what is
/// named is above the room, and at most the pool's need.
pub fn thin_text_is_accepted_where_there_is_room()
    ensures accepted { (text : List ℕ) (m : ThinPool) (room : ℕ) → SpellsPool text m → thin_need m room ≤ room
        → IsThinVerdict text room (accepted m) }
    ensures no_room { (text : List ℕ) (m : ThinPool) (room : ℕ) → SpellsPool text m → room < thin_need m room
        → (needed : ℕ) × (IsThinVerdict text room (no_room needed room) × ((room < needed) × (needed ≤ thin_need m room))) }
{}

/// A text has no refusal exactly where it spells a cache.
pub fn cache_text_unless_refused()
    ensures { (text : List ℕ) → (refusal cache text ≡ None) ↔ ((m : CacheMeaning) × SpellsCache text m) }
{}

/// No text spells two caches.
pub fn cache_text_has_one_meaning()
    ensures { (text : List ℕ) (m n : CacheMeaning) → SpellsCache text m → SpellsCache text n → m ≡ n }
{}

/// Each lawful cache is spelled by its text, and by no other.
pub fn cache_text_spells()
    ensures spells { (m : CacheMeaning) → IsLawfulCache m → SpellsCache (text_of_cache m) m }
    ensures alone { (text : List ℕ) (m : CacheMeaning) → SpellsCache text m → text ≡ text_of_cache m }
{}

/// The lines of a text, with repeated origins refused, are those that are read without looking at other lines'
/// origins, up to the first that repeats one.
pub fn cache_text_stops_at_a_repeated_origin()
    ensures { (text : List ℕ) → reading cache text ≡ stopped repeated_test [] (reading cache_single text) }
{}

/// Each text has one verdict in each version of the metadata, where so many metadata blocks are there.
pub fn cache_text_has_one_verdict()
    ensures some { (version : ℕ) (text : List ℕ) (room : ℕ) → (v : Verdict CacheMeaning) × IsCacheVerdict version text room v }
    ensures one { (version : ℕ) (text : List ℕ) (room : ℕ) (v w : Verdict CacheMeaning)
        → IsCacheVerdict version text room v → IsCacheVerdict version text room w → v ≡ w }
{}

/// A text that spells a cache is accepted where the cache's need isn't above the room, and elsewhere that need has no
/// room.
pub fn cache_text_is_accepted_where_there_is_room()
    ensures accepted { (version : ℕ) (text : List ℕ) (m : CacheMeaning) (room : ℕ) → SpellsCache text m
        → cache_need version m room ≤ room → IsCacheVerdict version text room (accepted m) }
    ensures no_room { (version : ℕ) (text : List ℕ) (m : CacheMeaning) (room : ℕ) → SpellsCache text m
        → room < cache_need version m room → IsCacheVerdict version text room (no_room (cache_need version m room) room) }
{}

/// A text has no refusal exactly where it spells an era target.
pub fn era_text_unless_refused()
    ensures { (text : List ℕ) → (refusal era text ≡ None) ↔ ((m : EraMeaning) × SpellsEra text m) }
{}

/// No text spells two era targets.
pub fn era_text_has_one_meaning()
    ensures { (text : List ℕ) (m n : EraMeaning) → SpellsEra text m → SpellsEra text n → m ≡ n }
{}

/// Each lawful era target is spelled by its text.
pub fn era_text_spells()
    ensures { (m : EraMeaning) → IsLawfulEra m → SpellsEra (text_of_era m) m }
{}

/// A spelling in which no two neighbouring runs have one era is the target's text.
pub fn era_text_with_runs_apart()
    ensures { (text : List ℕ) (m : EraMeaning) (s : SpellsEra text m) → AreApart s.means.stretches → text ≡ text_of_era m }
{}

/// Each text has one verdict where so many metadata blocks are there.
pub fn era_text_has_one_verdict()
    ensures some { (text : List ℕ) (room : ℕ) → (v : Verdict EraMeaning) × IsEraVerdict text room v }
    ensures one { (text : List ℕ) (room : ℕ) (v w : Verdict EraMeaning) → IsEraVerdict text room v → IsEraVerdict text room w → v ≡ w }
{}

/// A text that spells an era target is accepted where the target's need isn't above the room, and elsewhere that need
/// has no room.
pub fn era_text_is_accepted_where_there_is_room()
    ensures accepted { (text : List ℕ) (m : EraMeaning) (room : ℕ) → SpellsEra text m → era_need m room ≤ room
        → IsEraVerdict text room (accepted m) }
    ensures no_room { (text : List ℕ) (m : EraMeaning) (room : ℕ) → SpellsEra text m → room < era_need m room
        → IsEraVerdict text room (no_room (era_need m room) room) }
{}

/// The inner nodes above a level, counted in at most ten levels, follow the rule of one level: none stand above one
/// node, and above more nodes one for each 252 of them, and those above these.
pub fn ten_levels_are_enough()
    ensures none { (nodes : ℕ) → nodes ≤ 1 → need_above 10 nodes ≡ 0 }
    ensures more { (nodes : ℕ) → 1 < nodes → nodes < 2 ^ 64
        → need_above 10 nodes ≡ nodes_for 252 nodes + need_above 10 (nodes_for 252 nodes) }
{}
