//! That a data map is written as it is laid in a pool.

ghost use Rattle.std.specs.Prelude.{◌≡◌, ◌++◌, ℕ};
ghost use Rattle.pd_laid.specs.Laid.{written_from};
ghost use Rattle.pd_laid.specs.LaidThin.{bitmap_blocks, bitmaps_at, data_counts, index_blocks, overflow_blocks, pool_fields};
ghost use Rattle.pd_laid.specs.Shape.{ThinShape};
ghost use Rattle.pd_smwrite.specs.Map.{data_map_blocks, data_map_root};

/// What is written of a data map is what is laid of it in a pool with these counts, and its root is the one that the
/// pool's superblock has.
pub fn data_map_is_laid()
    ensures written { (w : ThinShape) → written_from (bitmaps_at w) (bitmap_blocks w ++ (index_blocks w ++ overflow_blocks w))
        ≡ data_map_blocks (data_counts w) w.data_blocks (bitmaps_at w) }
    ensures root { (w : ThinShape) (n : ℕ) → (pool_fields w n).data_map ≡ data_map_root (data_counts w) w.data_blocks (bitmaps_at w) }
{}
