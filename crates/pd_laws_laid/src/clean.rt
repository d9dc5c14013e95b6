//! A laid pool is clean, and means what was laid.
//! A laid pool says how many blocks it uses.
//! A laid cache is clean, and means what was laid.
//! A laid era target is clean, and means what was laid.

ghost use Rattle.std.specs.Prelude.{◌≡◌, ◌≤◌, List, length, ℕ, ◌⊎◌};
ghost use Rattle.pd_kinds.specs.declared.limits.TheConstants.{MAX_META_BLOCKS};
ghost use Rattle.pd_kinds.specs.Meaning.{ThinPool, CacheMeaning, EraMeaning};
ghost use Rattle.pd_kinds.specs.Image.{room_of};
ghost use Rattle.pd_kinds.specs.Graph.{block_at};
ghost use Rattle.pd_kinds.specs.ThinFormat.{thin_fields};
ghost use Rattle.pd_kinds.specs.CacheFormat.{cache_fields};
ghost use Rattle.pd_grammar.specs.Lawful.{IsLawfulPool, IsLawfulCache, IsLawfulEra};
ghost use Rattle.pd_grammar.specs.Need.{thin_need};
ghost use Rattle.pd_grammar.specs.CacheText.{cache_need};
ghost use Rattle.pd_grammar.specs.EraText.{era_need};
ghost use Rattle.pd_laid.specs.Laid.{IsLaid, laid_number};
ghost use Rattle.pd_laid.specs.LaidThin.{laid_pool, laid_shape};
ghost use Rattle.pd_laid.specs.Shape.{IsShape, ThinShape, pool_of};
ghost use Rattle.pd_laid.specs.LaidCache.{laid_cache};
ghost use Rattle.pd_laid.specs.LaidEra.{laid_era};
ghost use Rattle.pd_laws_laid.specs.Clean.{IsCleanPool, IsCleanCache, IsCleanEra};

/// A thin pool's shape that is laid over a device, where there is room for it: the image is clean, its superblock is
/// valid, and it means the meaning of the shape, whatever leaves its devices share.
pub fn laid_shape_is_clean()
    ensures { (w : ThinShape) (base image : List (List ℕ)) → IsLawfulPool (pool_of w) → IsShape w
        → laid_number (laid_shape w (room_of (length base))) ≤ room_of (length base)
        → IsLaid (laid_shape w (room_of (length base))) base image
        → IsCleanPool image (pool_of w) }
{}

/// A thin pool that a text can spell, and that is laid without shared leaves over a device with room for its need:
/// the image is clean, its superblock is valid, and it means the pool. What is laid takes as many blocks as the need.
pub fn laid_pool_is_clean()
    ensures clean { (m : ThinPool) (base image : List (List ℕ))
        → IsLawfulPool m → thin_need m (room_of (length base)) ≤ room_of (length base)
        → IsLaid (laid_pool m (room_of (length base))) base image → IsCleanPool image m }
    ensures need { (m : ThinPool) (n : ℕ) → IsLawfulPool m → n ≤ MAX_META_BLOCKS → thin_need m n ≤ n
        → laid_number (laid_pool m n) ≡ thin_need m n }
{}

/// The superblock of a pool that is laid over a device says how many metadata blocks are used: those that were laid.
pub fn laid_pool_says_its_number()
    ensures { (m : ThinPool) (base image : List (List ℕ))
        → IsLawfulPool m → laid_number (laid_pool m (room_of (length base))) ≤ room_of (length base)
        → IsLaid (laid_pool m (room_of (length base))) base image
        → (thin_fields (block_at image 0)).meta_map.allocated ≡ laid_number (laid_pool m (room_of (length base))) }
{}

/// A cache that a text can spell, and that is laid in version 1 or 2 of the metadata over a device with room for its
/// need: the image is clean, its superblock is valid and gives that version, and the image means the cache.
pub fn laid_cache_is_clean()
    ensures clean { (m : CacheMeaning) (version : ℕ) (base image : List (List ℕ)) → IsLawfulCache m → (version ≡ 1) ⊎ (version ≡ 2)
        → cache_need version m (room_of (length base)) ≤ room_of (length base)
        → IsLaid (laid_cache m version (room_of (length base))) base image
        → IsCleanCache image m }
    ensures version { (m : CacheMeaning) (version : ℕ) (base image : List (List ℕ)) → IsLawfulCache m → (version ≡ 1) ⊎ (version ≡ 2)
        → cache_need version m (room_of (length base)) ≤ room_of (length base)
        → IsLaid (laid_cache m version (room_of (length base))) base image
        → (cache_fields (block_at image 0)).version ≡ version }
{}

/// An era target that a text can spell, and that is laid over a device with room for its need: the image is clean,
/// its superblock is valid, and it means the target. What is laid takes as many blocks as the need.
pub fn laid_era_is_clean()
    ensures clean { (m : EraMeaning) (base image : List (List ℕ))
        → IsLawfulEra m → era_need m (room_of (length base)) ≤ room_of (length base)
        → IsLaid (laid_era m (room_of (length base))) base image → IsCleanEra image m }
    ensures need { (m : EraMeaning) (n : ℕ) → IsLawfulEra m
        → n ≤ MAX_META_BLOCKS → era_need m n ≤ n → laid_number (laid_era m n) ≡ era_need m n }
{}
