//! How often the data blocks of a sound pool are referred to.
//! What is laid of a sound pool's shape.
//! The shape of a laid pool.
//! The shape of a pool without faults.
//! The shape of what can be saved of a damaged pool: it means the salvage, it is one, and of a sound pool it is the pool's own.

ghost use Rattle.std.specs.Prelude.{◌≡◌, ℕ, List, [], ◌≤◌, length, ◌^◌};
ghost use Rattle.pd_kinds.specs.declared.kind.Kind.TheVariants.{Thin};
ghost use Rattle.pd_kinds.specs.declared.kind.Stage.TheVariants.{Whole};
ghost use Rattle.pd_kinds.specs.Graph.{block_at, data_count};
ghost use Rattle.pd_kinds.specs.Image.{IsImage, room_of, HasBytes};
ghost use Rattle.pd_kinds.specs.Stages.{faults};
ghost use Rattle.pd_kinds.specs.ThinFormat.{thin_graph, thin_fields, ThinFields};
ghost use Rattle.pd_kinds.specs.Meaning.{thin_meaning};
ghost use Rattle.pd_grammar.specs.Spelling.{accepted};
ghost use Rattle.pd_grammar.specs.Lawful.{IsLawfulPool};
ghost use Rattle.pd_laid.specs.Laid.{count_in, IsLaid, laid_number};
ghost use Rattle.pd_laid.specs.Shape.{image_shape, IsShape, ThinShape, pool_of};
ghost use Rattle.pd_laid.specs.PoolText.{shape_data, IsPoolTextVerdict, shape_need, text_of_shape, SpellsShape};
ghost use Rattle.pd_laid.specs.LaidThin.{laid_shape};
ghost use Rattle.pd_laid.specs.Salvage.{salvage_from, saved_shape, saved_shape_from};
ghost use Rattle.pd_laws_laid.specs.Clean.{IsCleanPool};
ghost use Rattle.pd_laws_shapes.specs.Counts.{FewInShared, IsSharedTwice};

use pd_kinds::{reached_by_paths, trees_are_in_order};
use pd_laid::{
    either_version_spells_a_shape, pool_text_is_accepted_where_there_is_room, shape_text_spells,
    sound_pool_is_saved,
};
use pd_laws_laid::{laid_shape_is_clean, shape_takes_its_need};
use pd_meaning_thin::sound_pools_are_lawful;
use pd_tree::{
    entries_lead_to_reached_pairs, formats_have_trees, superblocks_lead_to_reached_roots,
};

/// In a pool without faults up to the stage Whole that holds no copy, and none of whose leaves that stand twice has more than 252
/// mappings, each data block is referred to as often as the pool's shape tells it: by a leaf once, however many devices use it.
pub fn sound_pools_count_each_leaf_once()
    ensures { (image : List (List ℕ)) → IsImage image
        → faults Thin Whole image ≡ [] → (thin_fields (block_at image 0)).held_root ≡ 0 → FewInShared image
        → (d : ℕ) → data_count (thin_graph (block_at image 0)) image d ≡ count_in (shape_data (image_shape image)) d }
{
    trees_are_in_order();
    reached_by_paths();
    formats_have_trees();
    superblocks_lead_to_reached_roots();
    entries_lead_to_reached_pairs();
}

/// Where there is room for the need of a sound pool's shape, its text is accepted for that shape, and what is laid of it is a clean
/// pool that means the same, and whose devices share the same leaves: its shape is the same.
pub fn told_shapes_come_back()
    ensures accepted_shape { (image : List (List ℕ)) (room : ℕ)
        → IsImage image → faults Thin Whole image ≡ [] → shape_need (image_shape image) room ≤ room
        → IsPoolTextVerdict (text_of_shape (image_shape image)) room (accepted (image_shape image)) }
    ensures clean { (image base restored : List (List ℕ)) → IsImage image → faults Thin Whole image ≡ []
        → shape_need (image_shape image) (room_of (length base)) ≤ room_of (length base)
        → IsLaid (laid_shape (image_shape image) (room_of (length base))) base restored
        → IsCleanPool restored (thin_meaning image) }
    ensures same { (image base restored : List (List ℕ)) → IsImage image → faults Thin Whole image ≡ []
        → shape_need (image_shape image) (room_of (length base)) ≤ room_of (length base)
        → IsLaid (laid_shape (image_shape image) (room_of (length base))) base restored
        → image_shape restored ≡ image_shape image }
{
    laid_shapes_keep_their_shape();
    sound_pools_have_a_shape();
    shape_takes_its_need();
    laid_shape_is_clean();
    sound_pools_are_lawful();
    either_version_spells_a_shape();
    pool_text_is_accepted_where_there_is_room();
}

/// A shape that is laid over a device, where there is room for it, is the shape of the image, where each of its shared leaves is
/// used twice or more: one that is used once isn't seen to be shared.
pub fn laid_shapes_keep_their_shape()
    ensures { (w : ThinShape) (base image : List (List ℕ)) → IsLawfulPool (pool_of w) → IsShape w → IsSharedTwice w
        → laid_number (laid_shape w (room_of (length base))) ≤ room_of (length base)
        → IsLaid (laid_shape w (room_of (length base))) base image
        → image_shape image ≡ w }
{}

/// In a laid pool each data block is referred to as often as the shape tells it: by a shared leaf once, however many devices use
/// it.
pub fn laid_shapes_count_each_leaf_once()
    ensures { (w : ThinShape) (base image : List (List ℕ)) → IsLawfulPool (pool_of w) → IsShape w
        → laid_number (laid_shape w (room_of (length base))) ≤ room_of (length base)
        → IsLaid (laid_shape w (room_of (length base))) base image
        → (d : ℕ) → data_count (thin_graph (block_at image 0)) image d ≡ count_in (shape_data w) d }
{}

/// The shape of a pool without faults up to the stage Whole is one: it means what the pool does, each of its shared leaves is
/// used twice or more, and its text spells it.
pub fn sound_pools_have_a_shape()
    ensures shape { (image : List (List ℕ)) → IsImage image → faults Thin Whole image ≡ [] → IsShape (image_shape image) }
    ensures means { (image : List (List ℕ)) → pool_of (image_shape image) ≡ thin_meaning image }
    ensures twice { (image : List (List ℕ)) → IsSharedTwice (image_shape image) }
    ensures spelled { (image : List (List ℕ)) → IsImage image
        → faults Thin Whole image ≡ [] → SpellsShape (text_of_shape (image_shape image)) (image_shape image) }
{
    sound_pools_are_lawful();
    shape_text_spells();
}

/// What is saved with its shared leaves means what is saved without them.
pub fn saved_shapes_mean_what_is_saved()
    ensures { (fields : ThinFields) (image : List (List ℕ)) → pool_of (saved_shape_from fields image) ≡ salvage_from fields image }
{}

/// The shape of what is saved is one, and each of its shared leaves is used twice or more, whatever is damaged.
pub fn saved_shapes_are_shapes()
    ensures shape { (fields : ThinFields) (image : List (List ℕ))
        → fields.meta_map.blocks ≤ 2 ^ 64 → IsShape (saved_shape_from fields image) }
    ensures twice { (fields : ThinFields) (image : List (List ℕ)) → IsSharedTwice (saved_shape_from fields image) }
{}

/// Of a pool without faults up to the stage Whole all sharing is saved: the shape of what is saved is the pool's own.
pub fn sound_pools_save_their_shape()
    ensures { (image : List (List ℕ)) → HasBytes image → faults Thin Whole image ≡ [] → saved_shape image ≡ image_shape image }
{
    trees_are_in_order();
    sound_pool_is_saved();
}
