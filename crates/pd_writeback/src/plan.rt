//! What a writeback is to do (`cache_writeback`).

ghost use Rattle.std.specs.Prelude.{◌≤◌};
ghost use Rattle.pd_writeback.specs.Room.{ArePlaces, AllFit};

use crate::copying::copy_hot;
use crate::hot::{HotBlock, sort_by_origin};
use crate::making::{WriteFault, find_dirty, is_block_size_bad, look_at_room, read_super};
use crate::marking::{are_settled, mark_places};
use crate::places::{hot_blocks_are_apart, places_are_those_of_one_tree};
use pd_image::Device;
use pd_kinds::Block;
use pd_meaning_cache::rows_are_the_entries;
use pd_supers::read_cache_super;
use std::alloc::Global;

/// What a writeback is to do: which blocks are copied, and which blocks of the metadata are marked after that.
///
/// It takes 16 bytes for each block of the cache that is copied, and 8 for each metadata block that says what is dirty.
#[derive(Drop)]
pub struct Plan {
    /// Block 0 of the metadata.
    super_block: Box<Block>,
    /// The version of the metadata.
    version: u32,
    /// How many blocks of 4096 bytes a block of the cache has.
    each: u64,
    meta_blocks: u64,
    origin_blocks: u64,
    fast_blocks: u64,
    /// By ascending block of the origin.
    hot: Vec<HotBlock>,
    /// Ascending.
    places: Vec<u64>,
    ghost some: { 1 ≤ meta_blocks },
    ghost fit: { AllFit each fast_blocks origin_blocks hot.items },
    ghost are_places: { ArePlaces meta_blocks places.items },
}

impl Plan {
    ghost use Rattle.std.specs.Prelude.{◌≡◌, ◌≢◌, ◌≤◌, ℕ, List, [], Some, IfOk, IfSome, OnOk, length, is_some};
    ghost use Rattle.std.specs.List.Sorted.{IsPermutation};
    ghost use Rattle.pd_kinds.specs.declared.kind.Kind.TheVariants.{Cache};
    ghost use Rattle.pd_kinds.specs.declared.kind.Stage.TheVariants.{Whole};
    ghost use Rattle.pd_kinds.specs.Crash.{HoldsSynced, IsOldNoneOrMade, IsUntouched, LeavesOnly, StillTells};
    ghost use Rattle.pd_kinds.specs.Graph.{block_at};
    ghost use Rattle.pd_kinds.specs.Stages.{faults};
    ghost use Rattle.pd_image.specs.Device.{IsAttached, IsWritable, KeepsPlace, OnlyReads};
    ghost use Rattle.pd_answers.specs.Writebacks.{CachedBlock, copied, settled};
    ghost use Rattle.pd_writeback.specs.Plan.{CountsCopies, CountsMarking, CountsPlanning};
    ghost use Rattle.pd_writeback.specs.Copied.{IsLeftKept};
    ghost use Rattle.pd_writeback.specs.Plan.{IsPlanOf, Plans, plan_each, plan_hot};

    /// Makes the plan of the writeback of a cache. It takes all memory that the writeback needs, and writes nothing.
    ///
    /// The metadata has no faults up to the stage Whole, where its device tells what it holds.
    ///
    /// Fails with `BlockSize` where the block size is 0 or no multiple of 8 sectors, and then with `NoRoom` where the fast
    /// device lacks a hot block or, else, where one begins past the end of the origin; with `Memory` where memory wasn't
    /// found, and with `Meta` where a read failed.
    pub fn make<A: Device, B: Device, C: Device>(
        alloc: Global,
        meta: &mut A,
        origin: &B,
        fast: &C,
    ) -> Result<Plan, WriteFault>
        requires meta { IsAttached (A.state meta.old) }
        requires origin { IsAttached (B.state origin.now) }
        requires fast { IsAttached (C.state fast.now) }
        requires sound { IfSome (A.state meta.old).held (λ image. faults Cache Whole image ≡ []) }
        ensures plans { Plans (A.state meta.old).held
            (A.state meta.old).blocks (B.state origin.now).blocks (C.state fast.now).blocks result }
        ensures kept { OnlyReads (A.state meta.old) (A.state meta.new) }
        ensures faults { CountsPlanning result (A.state meta.old).faults (A.state meta.new).faults }
    {
        if meta.blocks() == 0 {
            return Err(WriteFault::BlockSize);
        }
        let super_block = read_super(alloc, meta)?;
        Plan::with_super(alloc, super_block, meta, origin.blocks(), fast.blocks())
    }

    /// Makes the plan over metadata with this superblock, and so many blocks of the origin and of the fast device.
    fn with_super<A: Device>(
        alloc: Global,
        super_block: Box<Block>,
        meta: &mut A,
        origin_blocks: u64,
        fast_blocks: u64,
    ) -> Result<Plan, WriteFault>
        requires meta { IsAttached (A.state meta.old) }
        requires some { 1 ≤ (A.state meta.old).blocks }
        requires sound { IfSome (A.state meta.old).held
            (λ image. (faults Cache Whole image ≡ []) × (super_block.value.0 ≡ block_at image 0)) }
        ensures plans { Plans (A.state meta.old).held (A.state meta.old).blocks origin_blocks fast_blocks result }
        ensures kept { OnlyReads (A.state meta.old) (A.state meta.new) }
        ensures faults { CountsPlanning result (A.state meta.old).faults (A.state meta.new).faults }
    {
        rows_are_the_entries();
        places_are_those_of_one_tree();
        let s = read_cache_super(&super_block);
        if is_block_size_bad(s.block_size) {
            return Err(WriteFault::BlockSize);
        }
        let each = (s.block_size / 8) as u64;
        let (mut hot, places) = find_dirty(alloc, &s, meta)?;
        look_at_room(hot.as_slice(), each, fast_blocks, origin_blocks)?;
        sort_by_origin(&mut hot);
        Ok(Plan {
            super_block,
            version: s.version,
            each,
            meta_blocks: meta.blocks(),
            origin_blocks,
            fast_blocks,
            hot,
            places,
        })
    }

    /// Copies the hot blocks to the origin, in the order in which they stand there, and syncs it: how many blocks of the
    /// cache were copied. Where there are none, nothing is written or synced. It takes no memory.
    ///
    /// What of the last block would stand past the end of the origin isn't copied.
    ///
    /// Fails with `Origin` and with `Fast` where that device failed.
    pub fn copy<B: Device, C: Device>(
        &self,
        origin: &mut B,
        fast: &mut C,
    ) -> Result<u64, WriteFault>
        requires origin { IsWritable (B.state origin.old) }
        requires fast { IsAttached (C.state fast.old) }
        requires origin_blocks { (B.state origin.old).blocks ≡ self.now.origin_blocks }
        requires fast_blocks { (C.state fast.old).blocks ≡ self.now.fast_blocks }
        ensures count { IfOk result (λ n. n ≡ length (plan_hot self.now)) }
        ensures copied { OnOk result ((image : List (List ℕ)) → faults Cache Whole image ≡ [] → IsPlanOf image self.now
            → IfSome (C.state fast.old).held (λ held. (old : List (List ℕ))
            → HoldsSynced old (B.state origin.old) → HoldsSynced (copied image old held) (B.state origin.new))) }

        // Where nothing was unsynced, a crash at any moment leaves every block that no hot one stands for as it was.
        ensures crash { (hot : List CachedBlock) (old : List (List ℕ))
            → IsPermutation hot (plan_hot self.now) → HoldsSynced old (B.state origin.old)
            → LeavesOnly (IsLeftKept (plan_each self.now) hot old) (B.state origin.old) (B.state origin.new) }
        ensures told { StillTells (B.state origin.old) (B.state origin.new) }
        ensures cold { plan_hot self.now ≡ [] → IsUntouched (B.state origin.old) (B.state origin.new) }
        ensures kept { OnlyReads (C.state fast.old) (C.state fast.new) }
        ensures place { KeepsPlace (B.state origin.old) (B.state origin.new) }
        ensures faults { CountsCopies result (B.state origin.old).faults
            (B.state origin.new).faults (C.state fast.old).faults (C.state fast.new).faults }
    {
        hot_blocks_are_apart();
        if self.hot.is_empty() {
            return Ok(0);
        }
        copy_hot(self.hot.as_slice(), self.each, origin, fast)?;
        match origin.sync() {
            Ok(()) => Ok(self.hot.len() as u64),
            Err(_) => Err(WriteFault::Origin),
        }
    }

    /// Marks the metadata as that of a cache in which nothing is dirty. Where nothing is hot, or where nothing is to
    /// change, nothing is written. It takes no memory.
    ///
    /// Fails with `Meta` where the device failed.
    pub fn mark<A: Device>(&self, meta: &mut A) -> Result<(), WriteFault>
        requires writable { IsWritable (A.state meta.old) }
        requires blocks { (A.state meta.old).blocks ≡ self.now.meta_blocks }
        ensures done { OnOk result ((image : List (List ℕ)) → IsPlanOf image self.now
            → HoldsSynced image (A.state meta.old) → HoldsSynced (settled image) (A.state meta.new)) }

        // Where nothing was unsynced, a crash leaves the old image, no valid superblock, or nothing that is dirty.
        ensures crash { (image : List (List ℕ)) → IsPlanOf image self.now → HoldsSynced image (A.state meta.old)
            → LeavesOnly (IsOldNoneOrMade image (λ made. made ≡ settled image)) (A.state meta.old) (A.state meta.new) }
        ensures told { StillTells (A.state meta.old) (A.state meta.new) }
        ensures cold { plan_hot self.now ≡ [] → IsUntouched (A.state meta.old) (A.state meta.new) }
        ensures unchanged { (image : List (List ℕ)) → IsPlanOf image self.now → (A.state meta.old).held ≡ Some image
            → settled image ≡ image → IsUntouched (A.state meta.old) (A.state meta.new) }
        ensures kept { KeepsPlace (A.state meta.old) (A.state meta.new) }
        ensures faults { CountsMarking result (A.state meta.old).faults (A.state meta.new).faults }
    {
        if self.hot.is_empty() {
            return Ok(());
        }
        let is_marked = match are_settled(self.version, self.places.as_slice(), meta) {
            Ok(is_marked) => is_marked,
            Err(_) => return Err(WriteFault::Meta),
        };
        if is_marked {
            Ok(())
        } else {
            self.write_marks(meta)
        }
    }

    /// The same, where something is hot, and whether or not anything is to change.
    fn write_marks<A: Device>(&self, meta: &mut A) -> Result<(), WriteFault>
        requires writable { IsWritable (A.state meta.old) }
        requires blocks { (A.state meta.old).blocks ≡ self.now.meta_blocks }
        requires hot { length self.now.hot.items ≢ 0 }
        ensures done { OnOk result ((image : List (List ℕ)) → IsPlanOf image self.now
            → HoldsSynced image (A.state meta.old) → HoldsSynced (settled image) (A.state meta.new)) }
        ensures crash { (image : List (List ℕ)) → IsPlanOf image self.now → HoldsSynced image (A.state meta.old)
            → LeavesOnly (IsOldNoneOrMade image (λ made. made ≡ settled image)) (A.state meta.old) (A.state meta.new) }
        ensures told { is_some (A.state meta.new).held ≡ is_some (A.state meta.old).held }
        ensures kept { KeepsPlace (A.state meta.old) (A.state meta.new) }
        ensures faults { CountsMarking result (A.state meta.old).faults (A.state meta.new).faults }
    {
        match mark_places(
            &self.super_block,
            self.version,
            self.places.as_slice(),
            meta,
        ) {
            Ok(()) => Ok(()),
            Err(_) => Err(WriteFault::Meta),
        }
    }
}
