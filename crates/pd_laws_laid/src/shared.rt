//! How often the blocks of a laid pool with shared leaves are named.
//! How many blocks a laid pool with shared leaves takes.
//! What is written of a laid pool with shared leaves, part by part.
//! A laid pool whose devices share no leaf, as the case of a shape without shared leaves.

ghost use Rattle.std.specs.Prelude.{◌≡◌, ◌≤◌, ◌+◌, ◌<◌, ◌==◌, not, length, count_by, ℕ, ◌++◌, List, ◌^◌, [], map};
ghost use Rattle.std.specs.List.{flat_map, range_with_len, AllByRecursion};
ghost use Rattle.pd_kinds.specs.Bitmap.{bitmaps_for};
ghost use Rattle.pd_kinds.specs.Node.{Entry};
ghost use Rattle.pd_kinds.specs.Meaning.{Mapping, ThinDevice, ThinPool};
ghost use Rattle.pd_grammar.specs.Lawful.{IsLawfulPool};
ghost use Rattle.pd_grammar.specs.Need.{need_tree, overflows_in, need_meta_map, mapped_data, need_of_devices, thin_need};
ghost use Rattle.pd_laid.specs.Laid.{count_in, meta_counts, meta_overflow, laid_number, written_from};
ghost use Rattle.pd_laid.specs.LaidThin.{meta_map_at, meta_map_blocks, pool_named, data_counts, data_overflow};
ghost use Rattle.pd_laid.specs.LaidThin.{laid_shape, devices_at, pool_parts, shared_items, tops, laid_pool};
ghost use Rattle.pd_laid.specs.Shape.{IsShape, ThinShape, pool_of, uses_of, ArePieces, ShapeDevice, shape_of};
ghost use Rattle.pd_laid.specs.PoolText.{shape_need, used_often, shape_data, leaves_of_pieces, need_of_leaves};
ghost use Rattle.pd_laws_laid.specs.Shared.{named_times, used_times, AreShapePlaces, device_roots, device_tree, device_trees, shape_parts};
ghost use Rattle.pd_laws_laid.specs.Once.{NamesEachOnce};

/// What block 0 and the parts up to the metadata map name: a shared leaf as often as devices use it, each other block before
/// the map once, and no other block. So the map's overflow tree has the leaves that are used three times or more, and each
/// block up to the map's end has a count.
pub fn leaves_are_named_as_they_are_used()
    ensures named { (w : ThinShape) (n : ℕ) → IsShape w → IsLawfulPool (pool_of w) → shape_need w n ≤ n → n ≤ 4161600 → (b : ℕ)
        → count_in (pool_named w) b ≡ named_times (used_times (flat_map uses_of w.devices)) (length w.leaves) (meta_map_at w) b }
    ensures overflow { (w : ThinShape) (n : ℕ) → IsShape w → IsLawfulPool (pool_of w) → shape_need w n ≤ n → n ≤ 4161600
        → length (meta_overflow n (pool_named w)) ≡ used_often (flat_map uses_of w.devices) (length w.leaves) }
    ensures allocated { (w : ThinShape) (n : ℕ) → IsShape w → IsLawfulPool (pool_of w) → shape_need w n ≤ n → n ≤ 4161600
        → count_by (λ b. not (meta_counts 8 n (meta_map_at w) (pool_named w) b == 0)) (range_with_len 0 n)
        ≡ meta_map_at w + length (meta_map_blocks w n) }
    ensures behind { (w : ThinShape) → length w.leaves < meta_map_at w }
{}

/// The laid image of a shape takes just the blocks that the shape needs: those before the metadata map, and those of the map.
/// Its data map stores how often the leaves and the pieces of devices' own name a data block.
pub fn shape_takes_its_need()
    ensures number { (w : ThinShape) (n : ℕ) → IsShape w → IsLawfulPool (pool_of w)
        → shape_need w n ≤ n → n ≤ 4161600 → laid_number (laid_shape w n) ≡ shape_need w n }
    ensures place { (w : ThinShape) (n : ℕ) → IsShape w → IsLawfulPool (pool_of w)
        → meta_map_at w + (1 + (bitmaps_for n + need_tree 4 (used_often (flat_map uses_of w.devices) (length w.leaves)))) ≡ shape_need w n }
    ensures counts { (w : ThinShape) → IsShape w → IsLawfulPool (pool_of w) → data_counts w ≡ count_in (shape_data w) }
    ensures overflows { (w : ThinShape) → IsShape w
        → IsLawfulPool (pool_of w) → length (data_overflow w) ≡ overflows_in (shape_data w) w.data_blocks }
{}

/// What is written of a laid pool from block 1 on are its leaves, the trees of its devices, and then part behind part, each at
/// its place.
pub fn shape_is_written()
    ensures parts { (w : ThinShape) (n : ℕ) → written_from 1 (pool_parts w ++ meta_map_blocks w n) ≡ shape_parts w n }
    ensures places { (w : ThinShape) → IsShape w → AreShapePlaces w }
    ensures roots { (w : ThinShape) → tops w ≡ device_roots (shared_items w) (devices_at w) w.devices }
{}

/// The tree of a device takes as many blocks as it needs: its own leaves, and the levels above all its leaves.
pub fn device_tree_takes_its_need()
    ensures { (leaves : List (List Entry)) (place number : ℕ) (d : ShapeDevice) → ArePieces number d.pieces
        → length (device_tree leaves place d) ≡ need_of_leaves (leaves_of_pieces d.pieces) }
{}

/// The trees of later devices stand behind those of the devices before them.
pub fn later_shaped_devices_stand_behind()
    ensures trees { (leaves : List (List Entry)) (place : ℕ) (ds es : List ShapeDevice) → device_trees leaves place (ds ++ es)
        ≡ device_trees leaves place ds ++ device_trees leaves (place + length (device_trees leaves place ds)) es }
    ensures roots { (leaves : List (List Entry)) (place : ℕ) (ds es : List ShapeDevice) → device_roots leaves place (ds ++ es)
        ≡ device_roots leaves place ds ++ device_roots leaves (place + length (device_trees leaves place ds)) es }
{}

/// What block 0 and the parts up to the metadata map name: each block before the map once, and no other block.
pub fn each_block_is_named_once()
    ensures { (m : ThinPool) → meta_map_at (shape_of m) ≤ 2 ^ 64 → NamesEachOnce (meta_map_at (shape_of m)) (pool_named (shape_of m)) }
{}

/// The laid image of a lawful pool takes just the blocks that the pool needs: those before the metadata map, and
/// those of the map. Its data map stores how often the mappings name a data block. So does any pool's, where no metadata block
/// is named three times or more, and the times of mappings have 24 bits.
pub fn lawful_pool_takes_its_need()
    ensures number { (m : ThinPool) (n : ℕ) → IsLawfulPool m → thin_need m n ≤ 2 ^ 64 → laid_number (laid_pool m n) ≡ thin_need m n }
    ensures place { (m : ThinPool) (n : ℕ) → IsLawfulPool m → meta_map_at (shape_of m) + need_meta_map n ≡ thin_need m n }
    ensures counts { (m : ThinPool) → IsLawfulPool m → data_counts (shape_of m) ≡ count_in (mapped_data m) }
    ensures overflows { (m : ThinPool) → IsLawfulPool m → length (data_overflow (shape_of m)) ≡ overflows_in (mapped_data m) m.data_blocks }
    ensures thin { (m : ThinPool) (n : ℕ) → AllByRecursion
        (λ (d : ThinDevice). AllByRecursion (λ (x : Mapping). x.time < 2 ^ 24) d.mappings) m.devices
        → meta_overflow n (pool_named (shape_of m)) ≡ []
        → laid_number (laid_pool m n)
        ≡ need_of_devices (map (λ (d : ThinDevice).
        length d.mappings) m.devices) m.data_blocks (overflows_in (mapped_data m) m.data_blocks) n }
{}
