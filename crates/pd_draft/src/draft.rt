//! An image that is put together on a device.

ghost use Rattle.std.specs.Prelude.{◌≡◌, ◌+◌, ◌<◌, ◌≤◌, List, [], ◌∷◌, ℕ, Some, OnOk, OnErr, IfOk, IfSome};
ghost use Rattle.std.specs.Prelude.{is_some, slice_set, ◌++◌, drop, length, take};
ghost use Rattle.pd_kinds.specs.Field.{zeros};
ghost use Rattle.pd_kinds.specs.Objects.{CountsFault};
ghost use Rattle.pd_kinds.specs.Crash.{LeavesOnly, HoldsSynced, IsOldOrNone, IsNoneOrNew};
ghost use Rattle.pd_image.specs.Device.{IsWritable, KeepsPlace};
ghost use Rattle.pd_draft.specs.Closed.{IsClosed, StaysClosed, Wrote, HasZeros, placed};

use crate::rewrite::rewrite_super;
use pd_image::{Device, Failed};
use pd_kinds::Block;

/// An image that is put together on a device, block after block. Block 0 comes last.
#[derive(Drop)]
pub struct Draft<'a, D: Device> {
    dev: &'a mut D,
    next: u64,
    ghost past: { 1 ≤ next },
}

impl<'a, D: Device> Draft<'a, D> {
    ghost use Rattle.pd_draft.specs.DraftState.{draft_state};

    /// Zeroes block 0 and syncs. What it leaves where it fails is what `clear` leaves.
    pub fn start(dev: &'a mut D) -> Result<Draft<'a, D>, Failed>
        requires writable { IsWritable (D.state dev.old) }
        requires some { 1 ≤ (D.state dev.old).blocks }
        ensures same_reference { IfOk result (λ draft. draft.dev.ghost_name ≡ dev.entry.ghost_name) }
        ensures next { IfOk result (λ draft. draft.next ≡ 1) }
        ensures closed { IfOk result (λ draft. IsClosed (D.state draft.dev.now)) }
        ensures content { IfOk result (λ draft. IfSome (D.state dev.old).held
            (λ image. (D.state draft.dev.now).held ≡ Some (slice_set image 0 zeros))) }

        // Where nothing was unsynced, a crash leaves the old image or no valid superblock.
        ensures crash { IfOk result (λ draft. (image : List (List ℕ)) → HoldsSynced image (D.state dev.old)
            → LeavesOnly (IsOldOrNone image) (D.state dev.old) (D.state draft.dev.now)) }
        ensures kept { IfOk result (λ draft. KeepsPlace (D.state dev.old) (D.state draft.dev.now)) }
        ensures reads { IfOk result (λ draft. (D.state draft.dev.now).reads ≡ (D.state dev.old).reads) }
        ensures faults { IfOk result (λ draft. (D.state draft.dev.now).faults ≡ (D.state dev.old).faults) }
    {
        clear(dev)?;
        Ok(Draft::on_closed(dev))
    }

    /// A draft over a device whose block 0 is closed.
    pub fn on_closed(dev: &'a mut D) -> Draft<'a, D>
        ensures same_reference { result.dev.ghost_name ≡ dev.entry.ghost_name }
        ensures next { result.next ≡ 1 }
        ensures same { result.dev.now ≡ dev.old }
    {
        Draft { dev, next: 1 }
    }

    /// The place of the next block.
    pub fn next(&self) -> u64
        ensures { result ≡ self.now.next }
    {
        self.next
    }

    /// The number of blocks of the device.
    pub fn blocks(&self) -> u64
        requires { IsWritable (D.state self.now.dev.now) }
        ensures { result ≡ (D.state self.now.dev.now).blocks }
    {
        self.dev.blocks()
    }

    /// Writes the block at the next place, and answers that place.
    pub fn put(&mut self, block: &Block) -> Result<u64, Failed>
        requires writable { IsWritable (D.state self.old.dev.now) }
        requires room { self.old.next < (D.state self.old.dev.now).blocks }
        requires closed { IsClosed (D.state self.old.dev.now) }
        ensures same_reference { self.new.dev.ghost_name ≡ self.old.dev.ghost_name }
        ensures place { IfOk result (λ place. (place ≡ self.old.next) × (self.new.next ≡ place + 1)) }
        ensures failed { OnErr result (self.new.next ≡ self.old.next) }
        ensures wrote { OnOk result (Wrote (block.now.0 ∷ []) (draft_state self.old) (draft_state self.new)) }
        ensures content { OnOk result (IfSome (D.state self.old.dev.now).held
            (λ image. (D.state self.new.dev.now).held ≡ Some (slice_set image self.old.next block.now.0))) }
        ensures closed { IsClosed (D.state self.new.dev.now) }

        // A crash leaves zeros in block 0.
        ensures crash { StaysClosed (D.state self.old.dev.now) (D.state self.new.dev.now) }
        ensures reads { (D.state self.new.dev.now).reads ≡ (D.state self.old.dev.now).reads }
        ensures faults { CountsFault result (D.state self.old.dev.now).faults (D.state self.new.dev.now).faults }
    {
        let b = self.next;
        // A device has at most 2^64 - 1 blocks, so the next place is a number too.
        let _blocks = self.dev.blocks();
        place(self.dev, b, block)?;
        self.next = b + 1;
        Ok(b)
    }

    /// Syncs, writes block 0, and syncs.
    pub fn commit(self, super_block: &Block) -> Result<(), Failed>
        requires writable { IsWritable (D.state self.dev.now) }
        requires some { 1 ≤ (D.state self.dev.now).blocks }
        requires closed { IsClosed (D.state self.dev.now) }
        ensures done { OnOk result (IfSome (D.state self.entry.dev.now).held
            (λ image. HoldsSynced (slice_set image 0 super_block.now.0) (D.state self.exit.0.now))) }

        // A crash leaves no valid superblock or the result.
        ensures crash { (image : List (List ℕ)) → (D.state self.entry.dev.now).held ≡ Some image
            → LeavesOnly (IsNoneOrNew (slice_set image 0 super_block.now.0)) (D.state self.entry.dev.now) (D.state self.exit.0.now) }
        ensures told { is_some (D.state self.exit.0.now).held ≡ is_some (D.state self.entry.dev.now).held }
        ensures kept { KeepsPlace (D.state self.entry.dev.now) (D.state self.exit.0.now) }
        ensures reads { (D.state self.exit.0.now).reads ≡ (D.state self.entry.dev.now).reads }
        ensures faults { CountsFault result (D.state self.entry.dev.now).faults (D.state self.exit.0.now).faults }
    {
        let Draft { dev, next: _ } = self;
        finish(dev, super_block)
    }
}

// The steps of a draft, over the device itself.

/// Zeroes block 0 and syncs.
///
/// `Draft::start` and `Rewrite::start` do just this. A caller that has to know what they leave where they
/// fail calls this, and then `on_closed`.
pub fn clear<D: Device>(dev: &mut D) -> Result<(), Failed>
    requires writable { IsWritable (D.state dev.old) }
    requires some { 1 ≤ (D.state dev.old).blocks }
    ensures closed { OnOk result (IsClosed (D.state dev.new)) }
    ensures content { OnOk result (IfSome (D.state dev.old).held (λ image. (D.state dev.new).held ≡ Some (slice_set image 0 zeros))) }

    // Where nothing was unsynced, a crash leaves the old image or no valid superblock.
    ensures crash { (image : List (List ℕ)) → HoldsSynced image (D.state dev.old)
        → LeavesOnly (IsOldOrNone image) (D.state dev.old) (D.state dev.new) }
    ensures told { is_some (D.state dev.new).held ≡ is_some (D.state dev.old).held }
    ensures kept { KeepsPlace (D.state dev.old) (D.state dev.new) }
    ensures reads { (D.state dev.new).reads ≡ (D.state dev.old).reads }
    ensures faults { CountsFault result (D.state dev.old).faults (D.state dev.new).faults }
{
    rewrite_super(dev, &Block::zeros())
}

/// Writes a block past block 0.
pub(crate) fn place<D: Device>(dev: &mut D, b: u64, block: &Block) -> Result<(), Failed>
    requires writable { IsWritable (D.state dev.old) }
    requires past { 1 ≤ b }
    requires within { b < (D.state dev.old).blocks }
    requires closed { IsClosed (D.state dev.old) }
    ensures content { OnOk result (IfSome (D.state dev.old).held (λ image. (D.state dev.new).held ≡ Some (slice_set image b block.now.0))) }

    // A crash leaves zeros in block 0.
    ensures crash { LeavesOnly HasZeros (D.state dev.old) (D.state dev.new) }
    ensures told { is_some (D.state dev.new).held ≡ is_some (D.state dev.old).held }
    ensures kept { KeepsPlace (D.state dev.old) (D.state dev.new) }
    ensures reads { (D.state dev.new).reads ≡ (D.state dev.old).reads }
    ensures faults { CountsFault result (D.state dev.old).faults (D.state dev.new).faults }
{
    dev.write(b, block)
}

/// Syncs, writes block 0, and syncs.
pub(crate) fn finish<D: Device>(dev: &mut D, super_block: &Block) -> Result<(), Failed>
    requires writable { IsWritable (D.state dev.old) }
    requires some { 1 ≤ (D.state dev.old).blocks }
    requires closed { IsClosed (D.state dev.old) }
    ensures done { OnOk result (IfSome (D.state dev.old).held
        (λ image. HoldsSynced (slice_set image 0 super_block.now.0) (D.state dev.new))) }

    // A crash leaves no valid superblock or the result.
    ensures crash { (image : List (List ℕ)) → (D.state dev.old).held ≡ Some image
        → LeavesOnly (IsNoneOrNew (slice_set image 0 super_block.now.0)) (D.state dev.old) (D.state dev.new) }
    ensures told { is_some (D.state dev.new).held ≡ is_some (D.state dev.old).held }
    ensures kept { KeepsPlace (D.state dev.old) (D.state dev.new) }
    ensures reads { (D.state dev.new).reads ≡ (D.state dev.old).reads }
    ensures faults { CountsFault result (D.state dev.old).faults (D.state dev.new).faults }
{
    dev.sync()?;
    rewrite_super(dev, super_block)
}

// What the puts of a draft leave, in the words of the image.

/// Blocks that were put one after another stand in their places, and every other block stays.
pub fn others_stay()
    ensures { (image : List (List ℕ)) (place : ℕ) (blocks : List (List ℕ)) → place + length blocks ≤ length image
        → placed image place blocks ≡ take place image ++ (blocks ++ drop (place + length blocks) image) }
{}
