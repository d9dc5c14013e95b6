//! An image that is changed where it stands (`cache_writeback`).

ghost use Rattle.std.specs.Prelude.{◌≡◌, ◌+◌, ◌<◌, ◌≤◌, List, ℕ, Some, OnOk, IfOk, IfSome, is_some, slice_get, slice_set};
ghost use Rattle.pd_kinds.specs.Field.{zeros};
ghost use Rattle.pd_kinds.specs.Objects.{CountsFault};
ghost use Rattle.pd_kinds.specs.Crash.{LeavesOnly, HoldsSynced, IsOldOrNone, IsNoneOrNew};
ghost use Rattle.pd_image.specs.Device.{IsWritable, KeepsPlace, OnlyReads};
ghost use Rattle.pd_draft.specs.Closed.{IsClosed, StaysClosed, IsReplaced};

use crate::draft::{clear, finish, place};
use pd_image::{Device, Failed};
use pd_kinds::Block;

/// An image that is changed on its device, block by block. Block 0 is closed first and comes last.
#[derive(Drop)]
pub struct Rewrite<'a, D: Device> {
    dev: &'a mut D,
}

impl<'a, D: Device> Rewrite<'a, D> {
    /// Zeroes block 0 and syncs. What it leaves where it fails is what `clear` leaves.
    pub fn start(dev: &'a mut D) -> Result<Rewrite<'a, D>, Failed>
        requires writable { IsWritable (D.state dev.old) }
        requires some { 1 ≤ (D.state dev.old).blocks }
        ensures same_reference { IfOk result (λ rewrite. rewrite.dev.ghost_name ≡ dev.entry.ghost_name) }
        ensures closed { IfOk result (λ rewrite. IsClosed (D.state rewrite.dev.now)) }
        ensures content { IfOk result (λ rewrite. IfSome (D.state dev.old).held
            (λ image. (D.state rewrite.dev.now).held ≡ Some (slice_set image 0 zeros))) }

        // Where nothing was unsynced, a crash leaves the old image or no valid superblock.
        ensures crash { IfOk result (λ rewrite. (image : List (List ℕ)) → HoldsSynced image (D.state dev.old)
            → LeavesOnly (IsOldOrNone image) (D.state dev.old) (D.state rewrite.dev.now)) }
        ensures kept { IfOk result (λ rewrite. KeepsPlace (D.state dev.old) (D.state rewrite.dev.now)) }
        ensures reads { IfOk result (λ rewrite. (D.state rewrite.dev.now).reads ≡ (D.state dev.old).reads) }
        ensures faults { IfOk result (λ rewrite. (D.state rewrite.dev.now).faults ≡ (D.state dev.old).faults) }
    {
        clear(dev)?;
        Ok(Rewrite::on_closed(dev))
    }

    /// A rewriting of a device whose block 0 is closed.
    pub fn on_closed(dev: &'a mut D) -> Rewrite<'a, D>
        ensures same_reference { result.dev.ghost_name ≡ dev.entry.ghost_name }
        ensures same { result.dev.now ≡ dev.old }
    {
        Rewrite { dev }
    }

    /// The number of blocks of the device.
    pub fn blocks(&self) -> u64
        requires { IsWritable (D.state self.now.dev.now) }
        ensures { result ≡ (D.state self.now.dev.now).blocks }
    {
        self.dev.blocks()
    }

    /// Reads a block. After `Failed` the bytes in `into` are any.
    pub fn read(&mut self, b: u64, into: &mut Block) -> Result<(), Failed>
        requires writable { IsWritable (D.state self.old.dev.now) }
        requires within { b < (D.state self.old.dev.now).blocks }
        requires closed { IsClosed (D.state self.old.dev.now) }
        ensures same_reference { self.new.dev.ghost_name ≡ self.old.dev.ghost_name }
        ensures content { OnOk result (IfSome (D.state self.old.dev.now).held (λ image. slice_get image b ≡ Some into.new.0)) }
        ensures closed { IsClosed (D.state self.new.dev.now) }
        ensures crash { StaysClosed (D.state self.old.dev.now) (D.state self.new.dev.now) }
        ensures kept { OnlyReads (D.state self.old.dev.now) (D.state self.new.dev.now) }
        ensures reads { (D.state self.new.dev.now).reads ≤ (D.state self.old.dev.now).reads + 1 }
        ensures faults { CountsFault result (D.state self.old.dev.now).faults (D.state self.new.dev.now).faults }
    {
        self.dev.read(b, into)
    }

    /// Writes a block past block 0.
    pub fn replace(&mut self, b: u64, block: &Block) -> Result<(), Failed>
        requires writable { IsWritable (D.state self.old.dev.now) }
        requires past { 1 ≤ b }
        requires within { b < (D.state self.old.dev.now).blocks }
        requires closed { IsClosed (D.state self.old.dev.now) }
        ensures same_reference { self.new.dev.ghost_name ≡ self.old.dev.ghost_name }
        ensures content { OnOk result (IfSome (D.state self.old.dev.now).held
            (λ image. (D.state self.new.dev.now).held ≡ Some (slice_set image b block.now.0))) }
        ensures closed { IsClosed (D.state self.new.dev.now) }

        // A crash leaves zeros in block 0.
        ensures crash { StaysClosed (D.state self.old.dev.now) (D.state self.new.dev.now) }
        ensures reads { (D.state self.new.dev.now).reads ≡ (D.state self.old.dev.now).reads }
        ensures faults { CountsFault result (D.state self.old.dev.now).faults (D.state self.new.dev.now).faults }
    {
        place(self.dev, b, block)
    }

    /// Syncs, writes block 0, and syncs.
    pub fn commit(self, super_block: &Block) -> Result<(), Failed>
        requires writable { IsWritable (D.state self.dev.now) }
        requires some { 1 ≤ (D.state self.dev.now).blocks }
        requires closed { IsClosed (D.state self.dev.now) }
        ensures done { OnOk result (IfSome (D.state self.entry.dev.now).held
            (λ image. HoldsSynced (slice_set image 0 super_block.now.0) (D.state self.exit.0.now))) }

        // A crash leaves no valid superblock or the result.
        ensures crash { (image : List (List ℕ)) → (D.state self.entry.dev.now).held ≡ Some image
            → LeavesOnly (IsNoneOrNew (slice_set image 0 super_block.now.0)) (D.state self.entry.dev.now) (D.state self.exit.0.now) }
        ensures told { is_some (D.state self.exit.0.now).held ≡ is_some (D.state self.entry.dev.now).held }
        ensures kept { KeepsPlace (D.state self.entry.dev.now) (D.state self.exit.0.now) }
        ensures reads { (D.state self.exit.0.now).reads ≡ (D.state self.entry.dev.now).reads }
        ensures faults { CountsFault result (D.state self.entry.dev.now).faults (D.state self.exit.0.now).faults }
    {
        let Rewrite { dev } = self;
        finish(dev, super_block)
    }
}

// The rewriting of block 0 alone, as the needs-check flag wants it.
// Serves `thin_check` and `cache_check` with `--clear-needs-check-flag`.

/// Writes block 0 and syncs; all other blocks stay.
pub fn rewrite_super<D: Device>(dev: &mut D, super_block: &Block) -> Result<(), Failed>
    requires writable { IsWritable (D.state dev.old) }
    requires some { 1 ≤ (D.state dev.old).blocks }
    ensures done { OnOk result (IfSome (D.state dev.old).held
        (λ image. HoldsSynced (slice_set image 0 super_block.now.0) (D.state dev.new))) }

    // Where nothing was unsynced, a crash leaves the old image, the new one, or the old one with no valid superblock.
    ensures crash { (image : List (List ℕ)) → HoldsSynced image (D.state dev.old)
        → LeavesOnly (IsReplaced image (slice_set image 0 super_block.now.0)) (D.state dev.old) (D.state dev.new) }
    ensures told { is_some (D.state dev.new).held ≡ is_some (D.state dev.old).held }
    ensures kept { KeepsPlace (D.state dev.old) (D.state dev.new) }
    ensures reads { (D.state dev.new).reads ≡ (D.state dev.old).reads }
    ensures faults { CountsFault result (D.state dev.old).faults (D.state dev.new).faults }
{
    dev.write(0, super_block)?;
    dev.sync()
}
