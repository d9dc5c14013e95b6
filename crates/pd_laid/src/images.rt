//! There is one laid image over a base.

ghost use Rattle.std.specs.Prelude.{◌≡◌, ◌↔◌, ◌≤◌, ◌++◌, List, ℕ, drop, length, [], ◌+◌, ◌/◌, ◌%◌, ◌<◌, if◌then◌else◌, nat_lt, suc};
ghost use Rattle.std.specs.List.{flat_map};
ghost use Rattle.std.proofs.Common.{get_or};
ghost use Rattle.pd_kinds.specs.Layout.{Tree};
ghost use Rattle.pd_kinds.specs.Meaning.{CacheMeaning, EraMeaning};
ghost use Rattle.pd_kinds.specs.Node.{Entry, inner_block, leaf_block};
ghost use Rattle.pd_kinds.specs.Array.{array_block};
ghost use Rattle.pd_grammar.specs.Need.{need_above, need_array, need_meta_map, need_tree};
ghost use Rattle.pd_grammar.specs.CacheText.{need_of_cache};
ghost use Rattle.pd_grammar.specs.EraText.{need_of_era};
ghost use Rattle.pd_laid.specs.Laid.{IsLaid, Laid, laid_blocks, laid_number, laid_array, laid_tree, laid_meta_map, meta_overflow};
ghost use Rattle.pd_laid.specs.Laid.{inners_above, array_items, array_pieces, written_from, blocks_from, even_parts, tree_blocks};
ghost use Rattle.pd_laid.specs.LaidCache.{cache_named, laid_cache};
ghost use Rattle.pd_laid.specs.LaidEra.{era_named, laid_era};
ghost use Rattle.pd_laid.specs.LaidThin.{device_inners, device_leaves, laid_device};
ghost use Rattle.pd_laid.specs.Shape.{ShapeDevice};

/// Where there is room, one image has it laid over a base: the laid blocks, and behind them what the base has.
pub fn one_image_is_laid()
    ensures { (laid : Laid) (base image : List (List ℕ)) → laid_number laid ≤ length base
        → IsLaid laid base image ↔ (image ≡ laid_blocks laid ++ drop (laid_number laid) base) }
{}

// What is laid has as many blocks as it needs.

/// Laid trees, arrays and metadata maps have as many blocks as are needed of them; a metadata map where no
/// block is named three times or more.
pub fn parts_take_their_need()
    ensures levels { (place : ℕ) (row : List Entry) → length (inners_above place row) ≡ need_above 10 (length row) }
    ensures tree { (role : ℕ) (t : Tree) (place : ℕ) (items : List Entry)
        → length (laid_tree role t place items) ≡ need_tree t.size (length items) }
    ensures array { (role size place : ℕ) (words : List ℕ) → length (laid_array role size place words) ≡ need_array size (length words) }
    ensures meta_map { (role n place : ℕ) (named : List ℕ)
        → meta_overflow n named ≡ [] → length (laid_meta_map role n place named) ≡ need_meta_map n }
{}

/// A laid image of a cache or of an era target has as many blocks as its meaning needs, where no metadata block is named three
/// times or more.
pub fn images_take_their_need()
    ensures cache { (m : CacheMeaning) (version n : ℕ) → meta_overflow n (cache_named m version) ≡ []
        → laid_number (laid_cache m version n) ≡ need_of_cache version m.blocks m.hint_size n }
    ensures era { (m : EraMeaning) (n : ℕ) → meta_overflow n (era_named m) ≡ []
        → laid_number (laid_era m n) ≡ need_of_era (length m.eras) n }
{}

// How laid trees, arrays and devices are written.

/// The parts of an even spread are as many as asked, and joined they are the list. Each has as many
/// elements as the division gives, and the first ones, as many as are left over, one more.
pub fn spread_is_even<X>()
    ensures number { (k : ℕ) (xs : List X) → length (even_parts k xs) ≡ k }
    ensures joined { (k : ℕ) (xs : List X) → flat_map (λ (part : List X). part) (even_parts (suc k) xs) ≡ xs }
    ensures sizes { (k i : ℕ) (xs : List X) → i < suc k
        → length (get_or (even_parts (suc k) xs) i []) ≡ length xs / suc k + (if nat_lt i (length xs % suc k) then 1 else 0) }
{}

/// What is written of a laid tree are the blocks of the tree, as one writes it who knows its items alone.
pub fn laid_tree_is_written()
    ensures { (role : ℕ) (t : Tree) (place : ℕ) (items : List Entry)
        → written_from place (laid_tree role t place items) ≡ tree_blocks t.size place items }
{}

/// What is written of a laid array are the blocks of its words, and the tree that names them by number.
pub fn laid_array_is_written()
    ensures { (role size place : ℕ) (words : List ℕ) → let pieces = array_pieces size words in
        written_from place (laid_array role size place words)
        ≡ blocks_from (array_block size) place pieces ++ tree_blocks 8 (place + length pieces) (array_items place (length pieces)) }
{}

/// What is written of a laid device are its own leaves, and the levels above all its leaves.
pub fn laid_device_is_written()
    ensures { (t : Tree) (leaves : List (List Entry)) (place : ℕ) (d : ShapeDevice)
        → written_from place (laid_device t leaves place d)
        ≡ blocks_from (leaf_block t.size) place (device_leaves d)
        ++ blocks_from inner_block (place + length (device_leaves d)) (device_inners leaves place d) }
{}
