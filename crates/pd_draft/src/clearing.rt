//! The clearing of the flag on a device (`thin_check` and `cache_check` with `--clear-needs-check-flag`).

ghost use Rattle.std.specs.Prelude.{◌≡◌, ◌+◌, ◌≤◌, List, ℕ, false, OnOk, IfSome, ◌<◌, ◌^◌};
ghost use Rattle.pd_kinds.specs.Objects.{CountsFault};
ghost use Rattle.pd_kinds.specs.Crash.{LeavesOnly, HoldsSynced, IsUntouched, StillTells};
ghost use Rattle.pd_answers.specs.Flag.{cleared, needs_check, cleared_super, flag_bit, flags_without, is_flag_set};
ghost use Rattle.pd_image.specs.Device.{IsWritable, KeepsPlace};
ghost use Rattle.pd_draft.specs.Closed.{IsReplaced};

use crate::rewrite::rewrite_super;
use pd_crc::seal;
use pd_image::{Device, Failed};
use pd_kinds::{Block, Flagged, put_u32, u32_at};

/// Clears the flag "needs check" of the pool or the cache on a device. Block 0 alone is written, and synced; where the flag isn't
/// set, and where there is no block, nothing is written.
///
/// Whether the metadata is clean isn't looked at here.
///
/// Fails with `Failed` where the read, the write or the sync failed.
pub fn clear_needs_check<D: Device>(flagged: Flagged, dev: &mut D) -> Result<(), Failed>
    requires { IsWritable (D.state dev.old) }
    ensures done { OnOk result ((image : List (List ℕ))
        → HoldsSynced image (D.state dev.old) → HoldsSynced (cleared flagged image) (D.state dev.new)) }

    // Where nothing was unsynced, a crash leaves the old image, the cleared one, or the old one with no valid superblock.
    ensures crash { (image : List (List ℕ)) → HoldsSynced image (D.state dev.old)
        → LeavesOnly (IsReplaced image (cleared flagged image)) (D.state dev.old) (D.state dev.new) }
    ensures unset { IfSome (D.state dev.old).held
        (λ image. needs_check flagged image ≡ false → IsUntouched (D.state dev.old) (D.state dev.new)) }
    ensures told { StillTells (D.state dev.old) (D.state dev.new) }
    ensures kept { KeepsPlace (D.state dev.old) (D.state dev.new) }
    ensures reads { (D.state dev.new).reads ≤ (D.state dev.old).reads + 1 }
    ensures faults { CountsFault result (D.state dev.old).faults (D.state dev.new).faults }
{
    if dev.blocks() == 0 {
        return Ok(());
    }
    let mut first = Block::zeros();
    dev.read(0, &mut first)?;
    if is_set(flagged, &first) {
        rewrite_super(dev, &without_flag(flagged, &first))
    } else {
        Ok(())
    }
}

// The flag in the bytes of a superblock (`thin_check` and `cache_check` with `--clear-needs-check-flag`).

/// Whether the flag is set in a superblock: of a pool it is bit 0 of the four bytes at offset 4, of a cache bit 1.
pub fn is_set(flagged: Flagged, first: &Block) -> bool
    ensures { result ≡ is_flag_set flagged first.now.0 }
{
    u32_at(&first.0, 4) / weight(flagged) % 2 == 1
}

/// The superblock with the flag cleared and a new checksum. All its other bytes stay, other flags too.
#[tactic(auto, unfolding(pd_answers::specs::Flag::cleared_super))]
pub fn without_flag(flagged: Flagged, first: &Block) -> Block
    ensures { result.0 ≡ cleared_super flagged first.now.0 }
{
    let flags = u32_at(&first.0, 4);
    let mut cleared = *first;
    put_u32(&mut cleared.0, 4, without(flagged, flags));
    seal(&mut cleared, flagged.kind().salt());
    cleared
}

/// The flags without this one.
fn without(flagged: Flagged, flags: u32) -> u32
    ensures { result ≡ flags_without flagged flags }
{
    let weight = weight(flagged);
    flags - flags / weight % 2 * weight
}

/// What the flag adds to the number of the flags.
fn weight(flagged: Flagged) -> u32
    ensures weight { result ≡ 2 ^ flag_bit flagged }
    ensures some { 0 < result }
    ensures small { result ≤ 2 }
{
    match flagged {
        Flagged::Pool => 1,
        Flagged::Cache => 2,
    }
}
