//! What a shrink is to do (`thin_shrink`).

ghost use Rattle.std.specs.Prelude.{◌≤◌};
ghost use Rattle.std.specs.List.{AllByRecursion};
ghost use Rattle.std.proofs.Props.{props};
ghost use Rattle.pd_kinds.specs.Image.{room_of};
ghost use Rattle.pd_shrink.specs.Kept.{kept_making, kept_pool};
ghost use Rattle.pd_shrink.specs.Moves.{AreOnce, AreOnce-prop, IsAcross};

use crate::kept::{Kept, head_of, move_kept, need_of_kept, read_kept, restore_kept};
use crate::making::{ShrinkFault, find_moves, is_block_size_bad, read_first, sound_super};
use crate::moves::{MovedBlock, copy_moved};
use pd_image::{Device, Failed};
use pd_kinds::{MAX_META_BLOCKS, SmRoot, ThinSuper};
use pd_restore::MadeFault;
use std::alloc::Global;

/// What a shrink is to do: which data blocks are moved where, and the pool afterwards.
///
/// It takes 40 bytes a device, 32 a run of mappings and 16 for each data block that is moved. With the leaves that devices
/// share it takes 48 bytes a device, 8 a piece and 16 a shared leaf, whose runs stand in it once.
#[derive(Drop)]
pub struct Shrink {
    /// The pool afterwards.
    moved: Kept,
    /// By ascending source.
    moves: Vec<MovedBlock>,
    /// How many blocks of 4096 bytes a data block has.
    each: u64,
    output_blocks: u64,
    pool_blocks: u64,
    ghost across: { AllByRecursion (IsAcross each pool_blocks (kept_pool moved).data_blocks) moves.items } by { Prim.hlevel props },
    ghost once: { AreOnce moves.items } by { AreOnce-prop moves.items },
    ghost fits: { (kept_making moved).need (room_of output_blocks) ≤ room_of output_blocks },
}

impl Shrink {
    ghost use Rattle.std.specs.Prelude.{◌≡◌, ◌<◌, ℕ, Bool, true, false, List, [], None, IfOk, IfSome, OnOk, length, map};
    ghost use Rattle.std.specs.List.{AllByRecursion};
    ghost use Rattle.pd_kinds.specs.declared.kind.Kind.TheVariants.{Thin};
    ghost use Rattle.pd_kinds.specs.declared.kind.Stage.TheVariants.{Counts};
    ghost use Rattle.pd_kinds.specs.Crash.{HoldsSynced, IsUntouched, LeavesOnly, StillTells};
    ghost use Rattle.pd_kinds.specs.Objects.{CountsFault};
    ghost use Rattle.pd_kinds.specs.Stages.{faults};
    ghost use Rattle.pd_image.specs.Device.{IsAttached, IsWritable, KeepsPlace, OnlyReads};
    ghost use Rattle.pd_answers.specs.Writebacks.{blocks_each};
    ghost use Rattle.pd_answers.specs.Shrinks.{copy_of_move, data_after, sources};
    ghost use Rattle.pd_answers.specs.Shrinks.{ShrinkGround, lack_of, moves_of, pool_before};
    ghost use Rattle.pd_restoring.specs.Made.{IsMade};
    ghost use Rattle.pd_shrink.specs.Failing.{CountsPlanning, CountsWriting};
    ghost use Rattle.pd_shrink.specs.Kept.{kept_pool, moved_in, shared_of};
    ghost use Rattle.pd_shrink.specs.Making.{FitsDevice, Finishes, IsSoundPool, IsSoundWith};
    ghost use Rattle.pd_shrink.specs.Moves.{AreOnce, IsAcross, IsLeftKept, moves_in};
    ghost use Rattle.pd_shrink.specs.Moves.{AreMovesOf};
    ghost use Rattle.pd_shrink.specs.Planned.{IsPlanOf, Plans, content_after, ending_of_written};

    /// Makes the plan of the shrink of a pool to so many data blocks, with an output for its new metadata and its data device.
    /// It writes nothing.
    ///
    /// The metadata has no faults up to the stage Counts, where its device tells what it holds.
    ///
    /// Fails with `BlockSize` where the block size is 0 or no multiple of 8 sectors, or there is no sound superblock; then with
    /// `NoRoom` where the smaller pool, the data device or, else, the output is too small; with `Memory` where memory wasn't
    /// found, or the need of the output isn't below 2^64 - 1; and with `Meta` where a read failed.
    pub fn plan<A: Device, B: Device, C: Device>(
        alloc: Global,
        meta: &mut A,
        output: &B,
        pool: &C,
        blocks: u64,
    ) -> Result<Shrink, ShrinkFault>
        requires meta { IsAttached (A.state meta.old) }
        requires output { IsAttached (B.state output.now) }
        requires pool { IsAttached (C.state pool.now) }
        requires sound { IfSome (A.state meta.old).held (λ image. faults Thin Counts image ≡ []) }
        ensures plans { Plans false (A.state meta.old).held (B.state output.now).blocks (C.state pool.now).blocks blocks result }
        ensures kept { OnlyReads (A.state meta.old) (A.state meta.new) }
        ensures faults { CountsPlanning result (A.state meta.old).faults (A.state meta.new).faults }
    {
        let output_blocks = output.blocks();
        let pool_blocks = pool.blocks();
        Shrink::plan_with(alloc, meta, false, output_blocks, pool_blocks, blocks)
    }

    /// Makes the plan of the shrink of a pool that keeps the leaves which its devices share: each moved block is named by its
    /// new place in the one leaf that it stands in. It writes nothing.
    ///
    /// Fails as `plan`, with the need of the metadata that keep the shared leaves.
    pub fn plan_shared<A: Device, B: Device, C: Device>(
        alloc: Global,
        meta: &mut A,
        output: &B,
        pool: &C,
        blocks: u64,
    ) -> Result<Shrink, ShrinkFault>
        requires meta { IsAttached (A.state meta.old) }
        requires output { IsAttached (B.state output.now) }
        requires pool { IsAttached (C.state pool.now) }
        requires sound { IfSome (A.state meta.old).held (λ image. faults Thin Counts image ≡ []) }
        ensures plans { Plans true (A.state meta.old).held (B.state output.now).blocks (C.state pool.now).blocks blocks result }
        ensures kept { OnlyReads (A.state meta.old) (A.state meta.new) }
        ensures faults { CountsPlanning result (A.state meta.old).faults (A.state meta.new).faults }
    {
        let output_blocks = output.blocks();
        let pool_blocks = pool.blocks();
        Shrink::plan_with(alloc, meta, true, output_blocks, pool_blocks, blocks)
    }

    /// Makes the plan with the shared leaves or without, with so many blocks of the output and of the data device.
    fn plan_with<A: Device>(
        alloc: Global,
        meta: &mut A,
        shared: bool,
        output_blocks: u64,
        pool_blocks: u64,
        blocks: u64,
    ) -> Result<Shrink, ShrinkFault>
        requires meta { IsAttached (A.state meta.old) }
        requires sound { IfSome (A.state meta.old).held (λ image. faults Thin Counts image ≡ []) }
        ensures plans { Plans shared (A.state meta.old).held output_blocks pool_blocks blocks result }
        ensures kept { OnlyReads (A.state meta.old) (A.state meta.new) }
        ensures faults { CountsPlanning result (A.state meta.old).faults (A.state meta.new).faults }
    {
        let meta_blocks = meta.blocks();
        if meta_blocks == 0 {
            return Err(ShrinkFault::BlockSize);
        }
        let first = read_first(alloc, meta)?;
        let s = match sound_super(&first, meta_blocks) {
            Some(s) => s,
            None => return Err(ShrinkFault::BlockSize),
        };
        Shrink::with_super(alloc, meta, &s, shared, output_blocks, pool_blocks, blocks)
    }

    /// Makes the plan over metadata with this superblock, with so many blocks of the output and of the data device.
    fn with_super<A: Device>(
        alloc: Global,
        meta: &mut A,
        s: &ThinSuper,
        shared: bool,
        output_blocks: u64,
        pool_blocks: u64,
        blocks: u64,
    ) -> Result<Shrink, ShrinkFault>
        requires meta { IsAttached (A.state meta.old) }
        requires fits { FitsDevice (A.state meta.old).blocks s.now }
        requires sound { IfSome (A.state meta.old).held (IsSoundWith s.now) }
        ensures plans { Plans shared (A.state meta.old).held output_blocks pool_blocks blocks result }
        ensures kept { OnlyReads (A.state meta.old) (A.state meta.new) }
        ensures faults { CountsPlanning result (A.state meta.old).faults (A.state meta.new).faults }
    {
        if is_block_size_bad(s.block_size) {
            return Err(ShrinkFault::BlockSize);
        }
        let kept = read_kept(alloc, meta, s, shared)?;
        let map = &s.data_map;
        Shrink::of_pool(alloc, meta, map, &kept, output_blocks, pool_blocks, blocks)
    }

    /// Makes the plan of this pool, whose data blocks have this space map.
    fn of_pool<A: Device>(
        alloc: Global,
        meta: &mut A,
        map: &SmRoot,
        kept: &Kept,
        output_blocks: u64,
        pool_blocks: u64,
        blocks: u64,
    ) -> Result<Shrink, ShrinkFault>
        requires meta { IsAttached (A.state meta.old) }
        requires index { map.now.bitmap_root < (A.state meta.old).blocks }
        requires overflow { map.now.overflow_root < (A.state meta.old).blocks }
        requires sound { IfSome (A.state meta.old).held (IsSoundPool map.now kept.now) }
        ensures plans { Plans (shared_of kept.now) (A.state meta.old).held output_blocks pool_blocks blocks result }
        ensures kept { OnlyReads (A.state meta.old) (A.state meta.new) }
        ensures faults { CountsPlanning result (A.state meta.old).faults (A.state meta.new).faults }
    {
        let head = head_of(kept);
        // The superblock's block size was looked at; that of a pool in memory is another only over a device that tells nothing.
        if is_block_size_bad(head.block_size) {
            return Err(ShrinkFault::BlockSize);
        }
        let each = (head.block_size / 8) as u64;
        let end = blocks.min(head.blocks);
        let moves = find_moves(alloc, meta, map, kept, end, each, pool_blocks)?;
        Shrink::finish(alloc, kept, moves, end, each, output_blocks, pool_blocks)
    }

    /// Makes the plan of these moves.
    fn finish(
        alloc: Global,
        kept: &Kept,
        moves: Vec<MovedBlock>,
        end: u64,
        each: u64,
        output_blocks: u64,
        pool_blocks: u64,
    ) -> Result<Shrink, ShrinkFault>
        requires moves { AreMovesOf (kept_pool kept.now) end (moves_in moves.items) }
        requires across { AllByRecursion (IsAcross each pool_blocks end) moves.items }
        requires once { AreOnce moves.items }
        ensures { Finishes (shared_of kept.now) (moved_in kept.now end
            (moves_in moves.items)) moves.items each output_blocks pool_blocks result }
    {
        let moved = move_kept(alloc, kept, end, moves.as_slice())?;
        let room = output_blocks.min(MAX_META_BLOCKS);
        let need = match need_of_kept(alloc, &moved, room) {
            Some(need) => need,
            None => return Err(ShrinkFault::Memory),
        };
        if need > room {
            return Err(ShrinkFault::NoRoom {
                need: need as u128,
                blocks: room,
            });
        }
        Ok(Shrink {
            moved,
            moves,
            each,
            output_blocks,
            pool_blocks,
        })
    }

    /// Copies the data blocks to their new places, and syncs the data device: how many were moved. Where there are none,
    /// nothing is written or synced. It takes no memory.
    #[tactic(auto, using(crate::proofs::CopiedLemmas::moves_apart))]
    pub fn copy<C: Device>(&self, pool: &mut C) -> Result<u64, Failed>
        requires writable { IsWritable (C.state pool.old) }
        requires blocks { (C.state pool.old).blocks ≡ self.now.pool_blocks }
        ensures count { IfOk result (λ n. (is_shared : Bool) (basis : ShrinkGround is_shared)
            → IsPlanOf basis self.now → lack_of basis ≡ None → n ≡ length (sources (pool_before basis) basis.end)) }
        ensures copied { OnOk result ((is_shared : Bool) (basis : ShrinkGround is_shared) (held : List (List ℕ))
            → IsPlanOf basis self.now → HoldsSynced held (C.state pool.old)
            → HoldsSynced (data_after (blocks_each (pool_before basis).block_size) (moves_of basis) held) (C.state pool.new)) }

        // Where nothing was unsynced, a crash at any moment leaves the data device as it was but for the targets.
        ensures crash { (is_shared : Bool) (basis : ShrinkGround is_shared) (held : List (List ℕ))
            → IsPlanOf basis self.now → HoldsSynced held (C.state pool.old)
            → LeavesOnly (IsLeftKept (blocks_each (pool_before basis).block_size) (map copy_of_move (moves_of basis)) held)
            (C.state pool.old) (C.state pool.new) }
        ensures told { StillTells (C.state pool.old) (C.state pool.new) }
        ensures cold { moves_in self.now.moves.items ≡ [] → IsUntouched (C.state pool.old) (C.state pool.new) }
        ensures place { KeepsPlace (C.state pool.old) (C.state pool.new) }
        ensures faults { CountsFault result (C.state pool.old).faults (C.state pool.new).faults }
    {
        if self.moves.is_empty() {
            return Ok(0);
        }
        copy_moved(self.moves.as_slice(), self.each, pool)?;
        pool.sync()?;
        Ok(self.moves.len() as u64)
    }

    /// Writes the metadata of the pool afterwards to the output, as a restore of its text does.
    ///
    /// Fails with `Memory` where memory wasn't found, and with `Output` where the device failed.
    pub fn write<B: Device>(self, alloc: Global, output: &mut B) -> Result<(), ShrinkFault>
        requires writable { IsWritable (B.state output.old) }
        requires blocks { (B.state output.old).blocks ≡ self.output_blocks }
        ensures made { (is_shared : Bool) (basis : ShrinkGround is_shared) → IsPlanOf basis self
            → IsMade (content_after basis) (ending_of_written result) (B.state output.old) (B.state output.new) }
        ensures place { KeepsPlace (B.state output.old) (B.state output.new) }
        ensures faults { CountsWriting result (B.state output.old).faults (B.state output.new).faults }
    {
        let Shrink {
            moved,
            moves: _,
            each: _,
            output_blocks: _,
            pool_blocks: _,
        } = self;
        match restore_kept(alloc, moved, output) {
            Ok(()) => Ok(()),
            Err(fault) => match fault {
                MadeFault::Memory => Err(ShrinkFault::Memory),
                MadeFault::Device => Err(ShrinkFault::Output),
                MadeFault::NoRoom { .. } => unreachable!(),
            },
        }
    }
}
