//! A small restore over a draft: what a crash leaves of it follows from the contracts of the draft alone.

ghost use Rattle.std.specs.Prelude.{◌≡◌, ◌<◌, List, ℕ, OnOk, IfSome, Some, length};
ghost use Rattle.pd_kinds.specs.Objects.{CountsFault};
ghost use Rattle.pd_kinds.specs.Crash.{LeavesOnly, HoldsSynced, IsOutcome, IsNoneOrNew};
ghost use Rattle.pd_image.specs.Device.{IsWritable, KeepsPlace};
ghost use Rattle.pd_draft.specs.Closed.{IsClosed};
ghost use Rattle.pd_tests_parts.specs.Restored.{filled, restored};

use pd_draft::{Draft, clear};
use pd_image::{Device, Failed};
use pd_kinds::Block;

/// Puts the blocks from block 1 on, and then the superblock.
#[tactic(auto, using(crate::proofs::RestoreLemmas::cleared_only, crate::proofs::RestoreLemmas::cleared_then))]
pub fn restore<D: Device>(dev: &mut D, blocks: &[Block], super_block: &Block) -> Result<(), Failed>
    requires writable { IsWritable (D.state dev.old) }
    requires room { length blocks.now < (D.state dev.old).blocks }

    // A crash at any moment of the call, whatever its result, leaves the old image, no valid superblock, or the new one.
    ensures crash { (image : List (List ℕ)) → HoldsSynced image (D.state dev.old)
        → LeavesOnly (IsOutcome image (restored image blocks.now super_block.now)) (D.state dev.old) (D.state dev.new) }
    ensures done { OnOk result (IfSome (D.state dev.old).held
        (λ image. HoldsSynced (restored image blocks.now super_block.now) (D.state dev.new))) }
    ensures kept { KeepsPlace (D.state dev.old) (D.state dev.new) }
    ensures faults { CountsFault result (D.state dev.old).faults (D.state dev.new).faults }
{
    clear(dev)?;
    fill(dev, blocks, super_block)
}

/// The same, of a device whose block 0 is closed.
fn fill<D: Device>(dev: &mut D, blocks: &[Block], super_block: &Block) -> Result<(), Failed>
    requires writable { IsWritable (D.state dev.old) }
    requires room { length blocks.now < (D.state dev.old).blocks }
    requires closed { IsClosed (D.state dev.old) }
    ensures crash { (image : List (List ℕ)) → (D.state dev.old).held ≡ Some image
        → LeavesOnly (IsNoneOrNew (filled image blocks.now super_block.now)) (D.state dev.old) (D.state dev.new) }
    ensures done { OnOk result (IfSome (D.state dev.old).held
        (λ image. HoldsSynced (filled image blocks.now super_block.now) (D.state dev.new))) }
    ensures kept { KeepsPlace (D.state dev.old) (D.state dev.new) }
    ensures faults { CountsFault result (D.state dev.old).faults (D.state dev.new).faults }
{
    let mut draft = Draft::on_closed(dev);
    for block in blocks {
        draft.put(block)?;
    }
    draft.commit(super_block)
}
