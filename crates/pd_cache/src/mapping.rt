//! The origins of a cache's mapping array, block after block (`cache_check`).

ghost use Rattle.std.specs.Prelude.{◌≡◌, ℕ, ◌+◌, ◌<◌, ◌≤◌, ◌↔◌, ◌++◌, [], ◌∷◌, List, length, IsTrue, IfOk, IfSome, OnOk};
ghost use Rattle.std.specs.List.{AllByRecursion};
ghost use Rattle.pd_kinds.specs.Objects.{CountsFault};
ghost use Rattle.pd_kinds.specs.Whole.{has_repeat};
ghost use Rattle.pd_image.specs.Device.{IsAttached, OnlyReads};
ghost use Rattle.pd_graph.specs.Audit.{blocks_of};
ghost use Rattle.pd_tree.specs.Below.{items_below, nodes_below};
ghost use Rattle.pd_tree.specs.Cursor.{cursor_nodes, root_of};
ghost use Rattle.pd_check.specs.Refs.{number_in};
ghost use Rattle.pd_cache.specs.Words.{origins_in};
ghost use Rattle.pd_cache.specs.Meeting.{places_of, AreMapBlocks, AreMet, IsFresh, IsMapBlock, blocks_left, blocks_named, seen_number};

use crate::origins::Origins;
use pd_graph::{Audit, has_role};
use pd_image::{Device, Failed};
use pd_kinds::{Block, cache_role};
use pd_tree::Cursor;
use pd_value::Root;

/// Whether the walk met block b as one of the mapping array.
fn is_map_block(audit: &Audit, b: u64) -> bool
    ensures { IsTrue result ↔ IsMapBlock audit.now b }
{
    if b < audit.nr() {
        has_role(audit.roles(b), cache_role::MAPPING_BLOCK)
    } else {
        false
    }
}

/// Meets block b, where it is one of the mapping array: it is read into `block` when it is met for the first time.
fn meet<D: Device>(
    origins: &mut Origins,
    audit: &Audit,
    dev: &mut D,
    b: u64,
    block: &mut Block,
) -> Result<(), Failed>
    requires attached { IsAttached (D.state dev.old) }
    requires places { places_of origins.old ≡ blocks_of audit.now }
    requires within { blocks_of audit.now ≤ (D.state dev.old).blocks }
    requires in_role { AreMapBlocks audit.now origins.old }
    ensures met { OnOk result (IfSome (D.state dev.old).held (λ image. IsMapBlock audit.now b
        → (blocks : List ℕ) → AreMet image blocks origins.old → AreMet image (blocks ++ b ∷ []) origins.new)) }
    ensures in_role { AreMapBlocks audit.now origins.new }
    ensures places { places_of origins.new ≡ places_of origins.old }
    ensures reads { OnOk result ((D.state dev.new).reads + seen_number origins.old ≤ (D.state dev.old).reads + seen_number origins.new) }
    ensures reads_failed { (D.state dev.new).reads + seen_number origins.old
        ≤ (D.state dev.old).reads + number_in audit.now 2 (blocks_of audit.now) }
    ensures kept { OnlyReads (D.state dev.old) (D.state dev.new) }
    ensures faults { CountsFault result (D.state dev.old).faults (D.state dev.new).faults }
{
    if !is_map_block(audit, b) {
        return Ok(());
    }
    match origins.seen(b) {
        Some(valid) => {
            origins.meet_again(valid);
            Ok(())
        }
        None => {
            dev.read(b, block)?;
            origins.add(b, block);
            Ok(())
        }
    }
}

/// Meets all blocks that the entries that are left name.
fn gather<D: Device>(
    origins: &mut Origins,
    entries: &mut Cursor<Root>,
    audit: &Audit,
    dev: &mut D,
) -> Result<(), Failed>
    requires attached { IsAttached (D.state dev.old) }
    requires places { places_of origins.old ≡ blocks_of audit.now }
    requires within { blocks_of audit.now ≤ (D.state dev.old).blocks }
    requires in_role { AreMapBlocks audit.now origins.old }
    ensures met { OnOk result (IfSome (D.state dev.old).held (λ image. AllByRecursion (IsMapBlock audit.now) (blocks_left image entries.old)
        → AreMet image [] origins.old → AreMet image (blocks_left image entries.old) origins.new)) }
    ensures reads { IfSome (D.state dev.old).held (λ image. (D.state dev.new).reads + seen_number origins.old
        ≤ (D.state dev.old).reads + (length (cursor_nodes 8 image entries.old) + number_in audit.now 2 (blocks_of audit.now))) }
    ensures kept { OnlyReads (D.state dev.old) (D.state dev.new) }
    ensures faults { CountsFault result (D.state dev.old).faults (D.state dev.new).faults }
{
    let mut block = Block::zeros();
    while let Some((_, named)) = entries.next(dev)? {
        meet(origins, audit, dev, named.0, &mut block)?;
    }
    Ok(())
}

/// Whether two valid words of the mapping array with this root have one origin. It takes no memory.
///
/// Each node of the array's tree and each distinct block of the array is read once at most, also where a read failed.
pub(crate) fn is_origin_repeated<D: Device>(
    origins: &mut Origins,
    entries: &mut Cursor<Root>,
    audit: &Audit,
    dev: &mut D,
    root: u64,
) -> Result<bool, Failed>
    requires attached { IsAttached (D.state dev.old) }
    requires places { places_of origins.old ≡ blocks_of audit.now }
    requires fresh { IsFresh origins.old }
    requires within { blocks_of audit.now ≤ (D.state dev.old).blocks }
    requires root { root < (D.state dev.old).blocks }
    ensures repeats { IfOk result (λ repeat. IfSome (D.state dev.old).held (λ image.
        let blocks = blocks_named (items_below 8 root_of image 63 root) in
        AllByRecursion (IsMapBlock audit.now) blocks → repeat ≡ has_repeat (origins_in image blocks))) }
    ensures reads { IfSome (D.state dev.old).held (λ image. (D.state dev.new).reads
        ≤ (D.state dev.old).reads + (length (nodes_below 8 image 63 root) + number_in audit.now 2 (blocks_of audit.now))) }
    ensures kept { OnlyReads (D.state dev.old) (D.state dev.new) }
    ensures faults { CountsFault result (D.state dev.old).faults (D.state dev.new).faults }
{
    entries.restart(root);
    gather(origins, entries, audit, dev)?;
    Ok(origins.has_repeat())
}
