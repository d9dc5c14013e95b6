//! The marking of a cache's metadata as clean (`cache_writeback`).

ghost use Rattle.std.specs.Prelude.{◌≡◌, ◌≤◌, ◌<◌, ℕ, List, Some, IfOk, IfSome, OnOk, is_some, slice_set, ◌==◌, map};
ghost use Rattle.std.specs.List.{list_all};
ghost use Rattle.pd_kinds.specs.Crash.{HoldsSynced, IsNoneOrNew, LeavesOnly};
ghost use Rattle.pd_kinds.specs.Graph.{block_at};
ghost use Rattle.pd_kinds.specs.Objects.{CountsFault};
ghost use Rattle.pd_kinds.specs.Array.{array_salt};
ghost use Rattle.pd_kinds.specs.Field.{sealed};
ghost use Rattle.pd_kinds.specs.Node.{puts};
ghost use Rattle.pd_answers.specs.Writebacks.{settled_block, long_words, settled_word};
ghost use Rattle.pd_image.specs.Device.{IsAttached, IsWritable, KeepsPlace, OnlyReads};
ghost use Rattle.pd_draft.specs.Closed.{IsClosed, StaysClosed};
ghost use Rattle.pd_writeback.specs.Copied.{IsOldNoneOrMarked, are_settled, marked, marked_image};
ghost use Rattle.pd_writeback.specs.Room.{ArePlaces};

use pd_array::{Word, array_len, array_word, seal_array, set_array_word};
use pd_draft::{Rewrite, clear};
use pd_image::{Device, Failed};
use pd_kinds::Block;

/// Whether the blocks at these places say already that nothing is dirty. They are read up to the first that doesn't.
pub(crate) fn are_settled<A: Device>(
    version: u32,
    places: &[u64],
    meta: &mut A,
) -> Result<bool, Failed>
    requires attached { IsAttached (A.state meta.old) }
    requires places { ArePlaces (A.state meta.old).blocks places.now }
    ensures settled { IfOk result (λ all. IfSome (A.state meta.old).held (λ image. all ≡ are_settled version image places.now)) }
    ensures kept { OnlyReads (A.state meta.old) (A.state meta.new) }
    ensures faults { CountsFault result (A.state meta.old).faults (A.state meta.new).faults }
{
    let mut block = Block::zeros();
    for place in places {
        meta.read(*place, &mut block)?;
        if !is_settled(version, &block) {
            return Ok(false);
        }
    }
    Ok(true)
}

/// Marks the blocks at these places, and writes this superblock again. Block 0 is closed first, and written last.
pub(crate) fn mark_places<A: Device>(
    super_block: &Block,
    version: u32,
    places: &[u64],
    meta: &mut A,
) -> Result<(), Failed>
    requires writable { IsWritable (A.state meta.old) }
    requires some { 1 ≤ (A.state meta.old).blocks }
    requires places { ArePlaces (A.state meta.old).blocks places.now }
    ensures done { OnOk result (IfSome (A.state meta.old).held
        (λ image. HoldsSynced (marked_image version places.now super_block.now.0 image) (A.state meta.new))) }

    // Where nothing was unsynced, a crash leaves the old image, no valid superblock, or the marked image.
    ensures crash { (image : List (List ℕ)) → HoldsSynced image (A.state meta.old)
        → LeavesOnly (IsOldNoneOrMarked image (marked_image version places.now super_block.now.0 image)) (A.state meta.old)
        (A.state meta.new) }
    ensures told { is_some (A.state meta.new).held ≡ is_some (A.state meta.old).held }
    ensures kept { KeepsPlace (A.state meta.old) (A.state meta.new) }
    ensures faults { CountsFault result (A.state meta.old).faults (A.state meta.new).faults }
{
    clear(meta)?;
    mark_closed(super_block, version, places, meta)
}

/// The same over a device whose block 0 is closed.
fn mark_closed<A: Device>(
    super_block: &Block,
    version: u32,
    places: &[u64],
    meta: &mut A,
) -> Result<(), Failed>
    requires writable { IsWritable (A.state meta.old) }
    requires some { 1 ≤ (A.state meta.old).blocks }
    requires places { ArePlaces (A.state meta.old).blocks places.now }
    requires closed { IsClosed (A.state meta.old) }
    ensures done { OnOk result (IfSome (A.state meta.old).held
        (λ image. HoldsSynced (slice_set (marked version image places.now) 0 super_block.now.0) (A.state meta.new))) }
    ensures crash { (image : List (List ℕ)) → (A.state meta.old).held ≡ Some image
        → LeavesOnly (IsNoneOrNew (slice_set (marked version image places.now) 0 super_block.now.0)) (A.state meta.old) (A.state meta.new) }
    ensures told { is_some (A.state meta.new).held ≡ is_some (A.state meta.old).held }
    ensures kept { KeepsPlace (A.state meta.old) (A.state meta.new) }
    ensures faults { CountsFault result (A.state meta.old).faults (A.state meta.new).faults }
{
    let mut rewrite = Rewrite::on_closed(meta);
    mark_all(&mut rewrite, version, places)?;
    rewrite.commit(super_block)
}

/// Marks the blocks at these places.
fn mark_all<A: Device>(
    rewrite: &mut Rewrite<'_, A>,
    version: u32,
    places: &[u64],
) -> Result<(), Failed>
    requires writable { IsWritable (A.state rewrite.old.dev.now) }
    requires places { ArePlaces (A.state rewrite.old.dev.now).blocks places.now }
    requires closed { IsClosed (A.state rewrite.old.dev.now) }
    ensures same_reference { rewrite.new.dev.ghost_name ≡ rewrite.old.dev.ghost_name }
    ensures content { OnOk result (IfSome (A.state rewrite.old.dev.now).held
        (λ image. (A.state rewrite.new.dev.now).held ≡ Some (marked version image places.now))) }
    ensures crash { StaysClosed (A.state rewrite.old.dev.now) (A.state rewrite.new.dev.now) }
    ensures faults { CountsFault result (A.state rewrite.old.dev.now).faults (A.state rewrite.new.dev.now).faults }
{
    let mut block = Block::zeros();
    for place in places {
        mark_one(rewrite, version, *place, &mut block)?;
    }
    Ok(())
}

/// Marks the block at one place, by way of this one; where its words say it already, it isn't written.
fn mark_one<A: Device>(
    rewrite: &mut Rewrite<'_, A>,
    version: u32,
    place: u64,
    block: &mut Block,
) -> Result<(), Failed>
    requires writable { IsWritable (A.state rewrite.old.dev.now) }
    requires past { 1 ≤ place }
    requires within { place < (A.state rewrite.old.dev.now).blocks }
    requires closed { IsClosed (A.state rewrite.old.dev.now) }
    ensures same_reference { rewrite.new.dev.ghost_name ≡ rewrite.old.dev.ghost_name }
    ensures content { OnOk result (IfSome (A.state rewrite.old.dev.now).held (λ image.
        (A.state rewrite.new.dev.now).held ≡ Some (slice_set image place (settled_block version (block_at image place))))) }
    ensures crash { StaysClosed (A.state rewrite.old.dev.now) (A.state rewrite.new.dev.now) }
    ensures faults { CountsFault result (A.state rewrite.old.dev.now).faults (A.state rewrite.new.dev.now).faults }
{
    rewrite.read(place, block)?;
    if is_settled(version, block) {
        return Ok(());
    }
    rewrite.replace(place, &clear_dirty(version, block))
}

// The blocks that say what is dirty, once nothing is (`cache_writeback`).

/// A word once nothing is dirty: in version 2 no bit is set, in version 1 a valid mapping has lost its flag "dirty".
pub(crate) fn settled_word(version: u32, word: u64) -> u64
    ensures { result ≡ settled_word version word }
{
    if version == 2 {
        return 0;
    }
    let valid = word % 2 == 1;
    let dirty = word / 2 % 2 == 1;
    if valid & dirty { word - 2 } else { word }
}

/// Whether the words of the block say that nothing is dirty.
pub(crate) fn is_settled(version: u32, block: &Block) -> bool
    ensures { result ≡ list_all (λ word. settled_word version word == word) (long_words block.now.0) }
{
    for i in 0..array_len(block, Word::Eight) {
        let word = array_word(block, Word::Eight, i);
        if settled_word(version, word) != word {
            return false;
        }
    }
    true
}

/// The block with words that say that nothing is dirty, sealed again.
pub(crate) fn clear_dirty(version: u32, block: &Block) -> Block
    ensures { result.0 ≡ sealed (puts block.now.0 24 8 (map (settled_word version) (long_words block.now.0))) array_salt }
{
    let mut made = *block;
    put_settled(version, block, &mut made);
    seal_array(&mut made);
    made
}

/// Writes the words of a block to another one, as they are once nothing is dirty.
fn put_settled(version: u32, block: &Block, made: &mut Block)
    ensures { made.new.0 ≡ puts made.old.0 24 8 (map (settled_word version) (long_words block.now.0)) }
{
    for i in 0..array_len(block, Word::Eight) {
        let word = array_word(block, Word::Eight, i);
        set_array_word(made, Word::Eight, i, settled_word(version, word));
    }
}
