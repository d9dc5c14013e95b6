//! The free data blocks of a pool (`thin_shrink`).

ghost use Rattle.std.specs.Prelude.{◌≡◌, ◌+◌, ◌^◌, ◌<◌, ◌≤◌, ℕ, List, [], length, min, take, IfOk, IfSome, OnOk};
ghost use Rattle.pd_kinds.specs.declared.kind.Kind.TheVariants.{Thin};
ghost use Rattle.pd_kinds.specs.declared.kind.Stage.TheVariants.{Counts};
ghost use Rattle.pd_kinds.specs.Bitmap.{bitmaps_for};
ghost use Rattle.pd_kinds.specs.Graph.{block_at};
ghost use Rattle.pd_kinds.specs.Stages.{faults};
ghost use Rattle.pd_kinds.specs.ThinFormat.{thin_fields};
ghost use Rattle.pd_answers.specs.Shrinks.{free_blocks};
ghost use Rattle.pd_image.specs.Device.{IsAttached, OnlyReads};
ghost use Rattle.pd_tree.specs.Below.{nodes_below};
ghost use Rattle.pd_tree.specs.Cursor.{cursor_items, cursor_nodes};
ghost use Rattle.pd_smap.specs.Overflow.{IsIndex, IsOverflow, index_from, place_in, overflow_reads};
ghost use Rattle.pd_smap.specs.Steps.{bits_by};
ghost use Rattle.pd_laws_changed.specs.KnownPool.{AreBelow, Ascend};
ghost use Rattle.pd_shrink.specs.Failing.{CountsMeta};
ghost use Rattle.pd_shrink.specs.Gathered.{Searched, standing, with_reads, unused_below};

use crate::gathering::gather_at;
use crate::making::ShrinkFault;
use pd_image::Device;
use pd_kinds::{CheckFault, SmRoot, bitmaps_for, faults_are_none_where_clean};
use pd_smap::{Overflow, index_trees_name_bitmaps, next_place, overflow_trees_hold_counts};
use pd_tree::{
    Cursor, formats_have_trees, reached_trees_are_sound, superblocks_lead_to_reached_roots,
};
use pd_value::IndexEntry;
use std::alloc::Global;

/// The free data blocks of a pool below a number.
#[derive(Drop)]
pub struct FreeBlocks {
    /// The first ones, ascending.
    pub first: Vec<u64>,
    /// How many there are in all.
    pub number: u64,
}

/// The data blocks below `end` whose stored count is 0, by a map's root: the first ones, as many as are wanted or there are,
/// and how many there are in all. Where the two bits of a bitmap are below 3 they are the count, and else the overflow tree
/// has it.
///
/// It reads each node of the index tree and of the overflow tree, and each bitmap that so many blocks need, at most once, and
/// takes the memory of two cursors and 8 bytes for each block that it gives. What it gives is said over the bytes of any
/// image whose overflow tree can be searched, and whose index tree has an entry for each bitmap and no other one. Over any
/// device it is safe and returns, with blocks that ascend below `end`; a bitmap outside of the device counts as zeros.
///
/// Fails with `Memory` where memory wasn't found, and with `Meta` where a read failed.
pub fn find_free<A: Device>(
    alloc: Global,
    meta: &mut A,
    map: &SmRoot,
    end: u64,
    wanted: usize,
) -> Result<FreeBlocks, ShrinkFault>
    requires attached { IsAttached (A.state meta.old) }
    ensures number { IfOk result (λ free. IfSome (A.state meta.old).held (λ image. (blocks : ℕ)
        → IsIndex image map.now.bitmap_root blocks → IsOverflow image map.now.overflow_root → end ≤ blocks
        → free.number ≡ length (unused_below image map.now end))) }
    ensures first { IfOk result (λ free. IfSome (A.state meta.old).held (λ image. (blocks : ℕ)
        → IsIndex image map.now.bitmap_root blocks → IsOverflow image map.now.overflow_root → end ≤ blocks
        → free.first.items ≡ take wanted (unused_below image map.now end))) }
    ensures below { IfOk result (λ free. AreBelow end free.first.items) }
    ensures ascend { IfOk result (λ free. Ascend 0 free.first.items) }
    ensures few { IfOk result (λ free. length free.first.items ≡ min wanted free.number) }
    ensures most { IfOk result (λ free. free.number ≤ end) }
    ensures reads { IfSome (A.state meta.old).held (λ image. (A.state meta.new).reads ≤ (A.state meta.old).reads
        + (length (nodes_below 16 image 63 map.now.bitmap_root)
        + bitmaps_for end + length (nodes_below 4 image 63 map.now.overflow_root))) }
    ensures kept { OnlyReads (A.state meta.old) (A.state meta.new) }
    ensures faults { CountsMeta result (A.state meta.old).faults (A.state meta.new).faults }
{
    let mut index = Cursor::start(alloc, map.bitmap_root)?;
    let mut overflow = match Overflow::start(alloc, meta, map.overflow_root) {
        Ok(overflow) => overflow,
        Err(CheckFault::Memory) => return Err(ShrinkFault::Memory),
        Err(CheckFault::Device) => return Err(ShrinkFault::Meta),
    };
    let mut free = FreeBlocks {
        first: Vec::new(alloc),
        number: 0,
    };
    gather(meta, &mut index, end, wanted, &mut overflow, &mut free)?;
    Ok(free)
}

/// Adds the free ones of the blocks below `end`, by the bitmaps that the entries of the index tree name.
fn gather<A: Device>(
    meta: &mut A,
    index: &mut Cursor<IndexEntry>,
    end: u64,
    wanted: usize,
    overflow: &mut Overflow,
    free: &mut FreeBlocks,
) -> Result<(), ShrinkFault>
    requires attached { IsAttached (A.state meta.old) }
    requires room { free.old.number + end < 2 ^ 64 }
    ensures searched { OnOk result (Searched wanted (bits_by (λ image. place_in (cursor_items 16 index_from image index.old))) 0 end
        (with_reads (λ image. length (cursor_nodes 16 image index.old) + bitmaps_for end)
        (standing (A.state meta.old) free.old overflow.old)) (standing (A.state meta.new) free.new overflow.new)) }
    ensures reads { IfSome (A.state meta.old).held (λ image. (A.state meta.new).reads ≤ (A.state meta.old).reads
        + (overflow_reads overflow.old image + (length (cursor_nodes 16 image index.old) + bitmaps_for end))) }
    ensures kept { OnlyReads (A.state meta.old) (A.state meta.new) }
    ensures faults { CountsMeta result (A.state meta.old).faults (A.state meta.new).faults }
{
    let bitmaps = bitmaps_for(end);
    for i in 0..bitmaps {
        let place = match next_place(meta, index) {
            Ok(place) => place,
            Err(_) => return Err(ShrinkFault::Meta),
        };
        gather_at(meta, place, i, end, wanted, overflow, free)?;
    }
    Ok(())
}

/// In a pool without faults the blocks whose stored count is 0 are those without a reference, the tree of the data map's
/// bitmaps has an entry for each bitmap and no other one, and its overflow tree can be searched.
pub fn stored_free_blocks_are_free()
    ensures index { (image : List (List ℕ)) → faults Thin Counts image ≡ []
        → IsIndex image (thin_fields (block_at image 0)).data_map.bitmap_root (thin_fields (block_at image 0)).data_map.blocks }
    ensures overflow { (image : List (List ℕ)) → faults Thin Counts image ≡ []
        → IsOverflow image (thin_fields (block_at image 0)).data_map.overflow_root }
    ensures free { (image : List (List ℕ)) (end : ℕ)
        → faults Thin Counts image ≡ [] → end ≤ (thin_fields (block_at image 0)).data_map.blocks
        → unused_below image (thin_fields (block_at image 0)).data_map end ≡ free_blocks image end }
{
    faults_are_none_where_clean();
    formats_have_trees();
    reached_trees_are_sound();
    superblocks_lead_to_reached_roots();
    index_trees_name_bitmaps();
    overflow_trees_hold_counts();
}
