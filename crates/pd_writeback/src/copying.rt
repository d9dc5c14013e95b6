//! The copying of blocks from one device to another (`cache_writeback`).

ghost use Rattle.std.specs.Prelude.{◌≡◌, ℕ, ◌+◌, ◌<◌, ◌≤◌, Bool, true, List, OnOk, IfSome, is_some, ◌-◌, ◌*◌, min, Some};
ghost use Rattle.pd_kinds.specs.Crash.{LeavesNow, LeavesOnly};
ghost use Rattle.pd_answers.specs.Writebacks.{overlaid, stands_for};
ghost use Rattle.pd_image.specs.Device.{IsAttached, IsWritable, KeepsPlace, OnlyReads};
ghost use Rattle.pd_writeback.specs.Copied.{CountsCopy, IsCopied, IsLeftAsBut, IsEachOnce, IsLeftKept};
ghost use Rattle.pd_writeback.specs.Plan.{CountsCopies, cached_of_hot, cached_all};
ghost use Rattle.pd_writeback.specs.Room.{AllFit, Fits};

use crate::hot::HotBlock;
use crate::making::WriteFault;
use pd_image::Device;
use pd_kinds::Block;

/// Which device failed while blocks were copied.
#[derive(Clone, Copy, Debug, PartialEq, Eq)]
pub(crate) enum CopyFault {
    /// The one that is read.
    Source,
    /// The one that is written.
    Target,
}

/// Copies so many blocks, in their order. Nothing is synced.
///
/// It takes no memory, and seeks neither device where the next block follows.
pub(crate) fn copy_blocks<A: Device, B: Device>(
    source: &mut A,
    from: u64,
    target: &mut B,
    to: u64,
    count: u64,
) -> Result<(), CopyFault>
    requires source { IsAttached (A.state source.old) }
    requires target { IsWritable (B.state target.old) }
    requires from { from + count ≤ (A.state source.old).blocks }
    requires to { to + count ≤ (B.state target.old).blocks }
    ensures copied { OnOk result (IfSome (A.state source.old).held (λ held. IfSome (B.state target.old).held (λ old.
        IfSome (B.state target.new).held (IsCopied from to count held old)))) }

    // Whatever else a crash leaves, only these blocks of the target differ.
    ensures crash { (may_differ : ℕ → Bool) (base : List (List ℕ)) → ((b : ℕ) → to ≤ b → b < to + count → may_differ b ≡ true)
        → LeavesNow (IsLeftAsBut may_differ base) (B.state target.old)
        → LeavesOnly (IsLeftAsBut may_differ base) (B.state target.old) (B.state target.new) }
    ensures told { is_some (B.state target.new).held ≡ is_some (B.state target.old).held }
    ensures kept { OnlyReads (A.state source.old) (A.state source.new) }
    ensures place { KeepsPlace (B.state target.old) (B.state target.new) }
    ensures faults { CountsCopy result (A.state source.old).faults
        (A.state source.new).faults (B.state target.old).faults (B.state target.new).faults }
{
    // A device has at most 2^64 - 1 blocks, so each number of a block fits.
    let _blocks = source.blocks();
    let _others = target.blocks();
    let mut block = Block::zeros();
    for i in 0..count {
        copy_block(source, from + i, target, to + i, &mut block)?;
    }
    Ok(())
}

/// Copies one block, by way of this one.
fn copy_block<A: Device, B: Device>(
    source: &mut A,
    from: u64,
    target: &mut B,
    to: u64,
    block: &mut Block,
) -> Result<(), CopyFault>
    requires source { IsAttached (A.state source.old) }
    requires target { IsWritable (B.state target.old) }
    requires from { from < (A.state source.old).blocks }
    requires to { to < (B.state target.old).blocks }
    ensures copied { OnOk result (IfSome (A.state source.old).held (λ held. IfSome (B.state target.old).held (λ old.
        IfSome (B.state target.new).held (IsCopied from to 1 held old)))) }
    ensures crash { (may_differ : ℕ → Bool) (base : List (List ℕ)) → may_differ to ≡ true
        → LeavesNow (IsLeftAsBut may_differ base) (B.state target.old)
        → LeavesOnly (IsLeftAsBut may_differ base) (B.state target.old) (B.state target.new) }
    ensures told { is_some (B.state target.new).held ≡ is_some (B.state target.old).held }
    ensures kept { OnlyReads (A.state source.old) (A.state source.new) }
    ensures place { KeepsPlace (B.state target.old) (B.state target.new) }
    ensures faults { CountsCopy result (A.state source.old).faults
        (A.state source.new).faults (B.state target.old).faults (B.state target.new).faults }
{
    match source.read(from, block) {
        Ok(()) => {}
        Err(_) => return Err(CopyFault::Source),
    }
    match target.write(to, block) {
        Ok(()) => Ok(()),
        Err(_) => Err(CopyFault::Target),
    }
}

// The copying of hot blocks to the origin (`cache_writeback`).

/// Copies hot blocks of so many blocks of 4096 bytes to the origin, in this order. Nothing is synced.
pub(crate) fn copy_hot<B: Device, C: Device>(
    hot: &[HotBlock],
    each: u64,
    origin: &mut B,
    fast: &mut C,
) -> Result<(), WriteFault>
    requires origin { IsWritable (B.state origin.old) }
    requires fast { IsAttached (C.state fast.old) }
    requires fit { AllFit each (C.state fast.old).blocks (B.state origin.old).blocks hot.now }
    ensures overlaid { OnOk result (IsEachOnce each (cached_all hot.now)
        → IfSome (C.state fast.old).held (λ held. IfSome (B.state origin.old).held (λ old.
        (B.state origin.new).held ≡ Some (overlaid each (cached_all hot.now) old held)))) }
    ensures crash { (base : List (List ℕ)) → LeavesNow (IsLeftKept each (cached_all hot.now) base) (B.state origin.old)
        → LeavesOnly (IsLeftKept each (cached_all hot.now) base) (B.state origin.old) (B.state origin.new) }
    ensures told { is_some (B.state origin.new).held ≡ is_some (B.state origin.old).held }
    ensures kept { OnlyReads (C.state fast.old) (C.state fast.new) }
    ensures place { KeepsPlace (B.state origin.old) (B.state origin.new) }
    ensures faults { CountsCopies result (B.state origin.old).faults
        (B.state origin.new).faults (C.state fast.old).faults (C.state fast.new).faults }
{
    for one in hot {
        copy_one(one, each, origin, fast)?;
    }
    Ok(())
}

/// Copies a hot block to the origin, as far as the origin goes.
fn copy_one<B: Device, C: Device>(
    one: &HotBlock,
    each: u64,
    origin: &mut B,
    fast: &mut C,
) -> Result<(), WriteFault>
    requires origin { IsWritable (B.state origin.old) }
    requires fast { IsAttached (C.state fast.old) }
    requires fits { Fits each (C.state fast.old).blocks (B.state origin.old).blocks one.now }
    ensures copied { OnOk result (IfSome (C.state fast.old).held
        (λ held. IfSome (B.state origin.old).held (λ old. IfSome (B.state origin.new).held
        (IsCopied (one.now.cache_block * each) (one.now.origin_block
        * each) (min each ((B.state origin.old).blocks - one.now.origin_block * each)) held old)))) }
    ensures crash { (may_differ : ℕ → Bool) (base : List (List ℕ))
        → ((b : ℕ) → stands_for each (cached_of_hot one.now) b ≡ true → may_differ b ≡ true)
        → LeavesNow (IsLeftAsBut may_differ base) (B.state origin.old)
        → LeavesOnly (IsLeftAsBut may_differ base) (B.state origin.old) (B.state origin.new) }
    ensures told { is_some (B.state origin.new).held ≡ is_some (B.state origin.old).held }
    ensures kept { OnlyReads (C.state fast.old) (C.state fast.new) }
    ensures place { KeepsPlace (B.state origin.old) (B.state origin.new) }
    ensures faults { CountsCopies result (B.state origin.old).faults
        (B.state origin.new).faults (C.state fast.old).faults (C.state fast.new).faults }
{
    let blocks = origin.blocks();
    let _fast_blocks = fast.blocks();
    let to = one.origin_block * each;
    let from = one.cache_block * each;
    let count = each.min(blocks - to);
    match copy_blocks(fast, from, origin, to, count) {
        Ok(()) => Ok(()),
        Err(CopyFault::Source) => Err(WriteFault::Fast),
        Err(CopyFault::Target) => Err(WriteFault::Origin),
    }
}
