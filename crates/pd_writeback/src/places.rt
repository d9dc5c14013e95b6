//! The blocks that say what is dirty in a cache (`cache_writeback`).

ghost use Rattle.std.specs.Prelude.{◌≡◌, ◌≤◌, ◌++◌, ◌∷◌, [], if◌then◌else◌, ℕ, false, List, IfOk, IfSome};
ghost use Rattle.std.specs.Prelude.{OnOk, length, replicate, slice_index_or, ◌==◌};
ghost use Rattle.std.specs.List.{list_any};
ghost use Rattle.pd_kinds.specs.Image.{room_of};
ghost use Rattle.pd_kinds.specs.Objects.{CountsFault};
ghost use Rattle.pd_kinds.specs.declared.kind.Kind.TheVariants.{Cache};
ghost use Rattle.pd_kinds.specs.declared.kind.Stage.TheVariants.{Whole};
ghost use Rattle.pd_kinds.specs.CacheFormat.{cache_fields};
ghost use Rattle.pd_kinds.specs.Graph.{block_at};
ghost use Rattle.pd_kinds.specs.Meaning.{cache_meaning};
ghost use Rattle.pd_kinds.specs.Stages.{faults};
ghost use Rattle.pd_answers.specs.Writebacks.{dirty_places, hot_blocks};
ghost use Rattle.pd_image.specs.Device.{IsAttached, OnlyReads};
ghost use Rattle.pd_writeback.specs.Plan.{CountsMeta};
ghost use Rattle.pd_writeback.specs.Room.{ArePlaces, mark, marks, names_left, places_named, seen_places, tree_names, dirty_root};
ghost use Rattle.pd_writeback.specs.Copied.{IsEachOnce};

use crate::making::WriteFault;
use pd_image::{Device, Failed};
use pd_kinds::{MAX_META_BLOCKS, reached_by_paths, trees_are_in_order};
use pd_laws_changed::origins_come_once;
use pd_tree::{
    Cursor, cursors_give_entries, entries_lead_to_reached_pairs, formats_have_trees,
    reached_trees_are_sound, superblocks_lead_to_reached_roots,
};
use pd_value::Root;
use std::alloc::{AllocError, Global};

/// The blocks that the entries of the tree with this root name, ascending, and each once. Block 0 and what is outside of
/// the metadata are left out.
///
/// Of the memory that it takes, a byte for each block of the metadata and that of a cursor are given back.
pub(crate) fn find_places<A: Device>(
    alloc: Global,
    root: u64,
    meta: &mut A,
) -> Result<Vec<u64>, WriteFault>
    requires attached { IsAttached (A.state meta.old) }
    ensures named { IfOk result (λ places. IfSome (A.state meta.old).held
        (λ image. places.items ≡ places_named (room_of (A.state meta.old).blocks) (tree_names image root))) }
    ensures places { IfOk result (λ places. ArePlaces (A.state meta.old).blocks places.items) }
    ensures kept { OnlyReads (A.state meta.old) (A.state meta.new) }
    ensures faults { CountsMeta result (A.state meta.old).faults (A.state meta.new).faults }
{
    let seen = see_named(alloc, root, meta)?;
    Ok(ascending(alloc, seen.as_slice())?)
}

/// Of each block of the metadata, whether an entry of the tree with this root names it; block 0 is left out.
fn see_named<A: Device>(alloc: Global, root: u64, meta: &mut A) -> Result<Vec<bool>, WriteFault>
    requires attached { IsAttached (A.state meta.old) }
    ensures named { IfOk result (λ seen. IfSome (A.state meta.old).held
        (λ image. seen.items ≡ marks (replicate (room_of (A.state meta.old).blocks) false) (tree_names image root))) }
    ensures number { IfOk result (λ seen. length seen.items ≤ (A.state meta.old).blocks) }
    ensures first { IfOk result (λ seen. slice_index_or seen.items 0 false ≡ false) }
    ensures kept { OnlyReads (A.state meta.old) (A.state meta.new) }
    ensures faults { CountsMeta result (A.state meta.old).faults (A.state meta.new).faults }
{
    let blocks = meta.blocks().min(MAX_META_BLOCKS);
    let (mut seen, mut entries) = room_for(alloc, blocks, root)?;
    match mark_named(&mut entries, seen.as_mut_slice(), meta) {
        Ok(()) => Ok(seen),
        Err(_) => Err(WriteFault::Meta),
    }
}

/// The memory for so many blocks, of which none was seen, and for a cursor over the tree with this root.
fn room_for(alloc: Global, blocks: u64, root: u64) -> Result<(Vec<bool>, Cursor<Root>), AllocError>
    requires { blocks ≤ 4161600 }
    ensures seen { IfOk result (λ room. room.0.items ≡ replicate blocks false) }
    ensures names { (image : List (List ℕ)) → IfOk result (λ room. names_left image room.1 ≡ tree_names image root) }
    ensures first { IfOk result (λ room. slice_index_or room.0.items 0 false ≡ false) }
    ensures number { IfOk result (λ room. length room.0.items ≡ blocks) }
{
    let mut seen = Vec::new(alloc);
    seen.resize(blocks as usize, false)?;
    let entries = Cursor::start(alloc, root)?;
    Ok((seen, entries))
}

/// Marks the blocks that the entries that are left name.
fn mark_named<A: Device>(
    entries: &mut Cursor<Root>,
    seen: &mut [bool],
    meta: &mut A,
) -> Result<(), Failed>
    requires attached { IsAttached (A.state meta.old) }
    ensures marked { OnOk result (IfSome (A.state meta.old).held (λ image. seen.new ≡ marks seen.old (names_left image entries.old))) }
    ensures first { slice_index_or seen.new 0 false ≡ slice_index_or seen.old 0 false }
    ensures kept { OnlyReads (A.state meta.old) (A.state meta.new) }
    ensures faults { CountsFault result (A.state meta.old).faults (A.state meta.new).faults }
{
    while let Some((_, named)) = entries.next(meta)? {
        mark(seen, named.0);
    }
    Ok(())
}

/// Marks a block, but for block 0 and those that aren't there.
fn mark(seen: &mut [bool], b: u64)
    ensures marked { seen.new ≡ mark seen.old b }
    ensures first { slice_index_or seen.new 0 false ≡ slice_index_or seen.old 0 false }
{
    if b != 0 && b < seen.len() as u64 {
        seen[b as usize] = true;
    }
}

/// The blocks that are marked, ascending.
fn ascending(alloc: Global, seen: &[bool]) -> Result<Vec<u64>, AllocError>
    ensures { IfOk result (λ places. places.items ≡ seen_places seen.now) }
{
    let mut places = Vec::new(alloc);
    for (b, is_seen) in seen.iter().enumerate() {
        add_if_seen(&mut places, b as u64, *is_seen)?;
    }
    Ok(places)
}

/// Adds a block where it is marked.
fn add_if_seen(places: &mut Vec<u64>, b: u64, is_seen: bool) -> Result<(), AllocError>
    ensures { OnOk result (places.new.items ≡ places.old.items ++ (if is_seen then b ∷ [] else [])) }
{
    if is_seen {
        places.push(b)?;
    }
    Ok(())
}

// Which blocks say what is dirty in a cache without faults, and that its hot blocks are apart (`cache_writeback`).

/// In a cache without faults up to the stage Whole, the blocks that the entries of the mapping array's tree name in
/// version 1, and those of the tree of the dirty bits in version 2, are just the reached blocks that say what is dirty.
pub fn places_are_those_of_one_tree()
    ensures { (image : List (List ℕ)) (b : ℕ) → faults Cache Whole image ≡ []
        → list_any
        (λ place. place == b) (places_named (room_of (length image)) (tree_names image (dirty_root (cache_fields (block_at image 0)))))
        ≡ list_any (λ place. place == b) (dirty_places image) }
{
    formats_have_trees();
    superblocks_lead_to_reached_roots();
    reached_trees_are_sound();
    entries_lead_to_reached_pairs();
    cursors_give_entries::<Root>();
    trees_are_in_order();
    reached_by_paths();
    pd_laws_changed::dirty_places_are_named();
}

/// In a cache without faults up to the stage Whole, at most one hot block stands for each block of the origin.
pub fn hot_blocks_are_apart()
    ensures { (image : List (List ℕ)) (k : ℕ) → faults Cache Whole image ≡ [] → IsEachOnce k (hot_blocks (cache_meaning image)) }
{
    origins_come_once();
}
