//! Whether a mapping tree and a details tree have one list of devices, entry by entry (`thin_repair`).

ghost use Rattle.std.specs.Prelude.{◌≡◌, ℕ, ◌+◌, ◌<◌, ◌≤◌, true, List, length, None, IfOk, IfSome, OnOk};
ghost use Rattle.std.specs.List.{AllByRecursion};
ghost use Rattle.pd_kinds.specs.Node.{Entry};
ghost use Rattle.pd_kinds.specs.Objects.{CountsFault};
ghost use Rattle.pd_kinds.specs.Whole.{top_entries};
ghost use Rattle.pd_laid.specs.FoundRoots.{are_fitting, is_sound_tree, lost_graph};
ghost use Rattle.pd_image.specs.Device.{IsAttached, OnlyReads};
ghost use Rattle.pd_tree.specs.Below.{items_below, nodes_below};
ghost use Rattle.pd_tree.specs.Cursor.{cursor_items, cursor_number, root_of};
ghost use Rattle.pd_measures.specs.Counts.{mappings_below, are_one, decided, details_of, lists_reads, IsDecided};
ghost use Rattle.pd_measures.specs.Measured.{below_root as number_below};

use crate::gauges::below_root;
use crate::laws::{fitting_trees_have_one_list, found_trees_are_sound};
use pd_graph::Notes;
use pd_image::{Device, Failed};
use pd_kinds::thin_format_is_lawful;
use pd_tree::{Cursor, cursors_give_entries};
use pd_value::{Details, Root};
use std::alloc::{AllocError, Global};

/// Cursors over a mapping tree and a details tree.
#[derive(Drop)]
pub struct ListCursors {
    pub(crate) tops: Cursor<Root>,
    pub(crate) details: Cursor<Details>,
}

impl ListCursors {
    /// Both cursors, before the first entry of a tree with the root 0, until they are given others: they reserve all memory that they
    /// need, about 530 KiB, and use it as far as their trees are deep. Want of it is the only error.
    pub fn new(alloc: Global) -> Result<ListCursors, AllocError>
        ensures tops { (image : List (List ℕ)) → IfOk result
            (λ cursors. cursor_items 8 root_of image cursors.tops ≡ items_below 8 root_of image 63 0) }
        ensures details { (image : List (List ℕ))
            → IfOk result (λ cursors. cursor_items 24 details_of image cursors.details ≡ items_below 24 details_of image 63 0) }
    {
        Ok(ListCursors {
            tops: Cursor::start(alloc, 0)?,
            details: Cursor::start(alloc, 0)?,
        })
    }
}

/// What the next entries of both trees say of whether the lists are one, if they decide it.
fn decide(notes: &Notes, top: Option<(u64, Root)>, detail: Option<(u64, Details)>) -> Option<bool>
    ensures { result ≡ decided (number_below notes.now) top detail }
{
    match (top, detail) {
        (None, None) => Some(true),
        (None, Some(_)) => Some(false),
        (Some(_), None) => Some(false),
        (Some((id, root)), Some((other, details))) => {
            let below = below_root(notes, root.0);
            if (id == other) & (below == details.mapped) {
                None
            } else {
                Some(false)
            }
        }
    }
}

/// Takes the next entry of both trees, and says whether the lists are one, if these entries decide it.
fn take_both<D: Device>(
    cursors: &mut ListCursors,
    notes: &Notes,
    dev: &mut D,
) -> Result<Option<bool>, Failed>
    requires attached { IsAttached (D.state dev.old) }
    ensures decided { IfOk result (λ answer. IfSome (D.state dev.old).held (λ image.
        IsDecided (number_below notes.now) (cursor_items 8 root_of image cursors.old.tops)
        (cursor_items 24 details_of image cursors.old.details)
        (cursor_items 8 root_of image cursors.new.tops) (cursor_items 24 details_of image cursors.new.details) answer)) }
    ensures number { IfOk result (λ answer. answer ≡ None → cursor_number 8 cursors.new.tops < cursor_number 8 cursors.old.tops) }
    ensures reads { IfSome (D.state dev.old).held (λ image. OnOk result (
        (D.state dev.new).reads + lists_reads image cursors.new ≤ (D.state dev.old).reads + lists_reads image cursors.old)) }
    ensures reads_failed { IfSome (D.state dev.old).held
        (λ image. (D.state dev.new).reads ≤ (D.state dev.old).reads + lists_reads image cursors.old) }
    ensures kept { OnlyReads (D.state dev.old) (D.state dev.new) }
    ensures faults { CountsFault result (D.state dev.old).faults (D.state dev.new).faults }
{
    let top = cursors.tops.next(dev)?;
    let detail = cursors.details.next(dev)?;
    Ok(decide(notes, top, detail))
}

/// Whether what is left of both trees is one list of devices.
fn compare<D: Device>(cursors: &mut ListCursors, notes: &Notes, dev: &mut D) -> Result<bool, Failed>
    requires attached { IsAttached (D.state dev.old) }
    ensures one { IfOk result (λ same. IfSome (D.state dev.old).held (λ image.
        same ≡ are_one (number_below notes.now) (cursor_items 8 root_of image cursors.old.tops)
        (cursor_items 24 details_of image cursors.old.details))) }
    ensures reads { IfSome (D.state dev.old).held
        (λ image. (D.state dev.new).reads ≤ (D.state dev.old).reads + lists_reads image cursors.old) }
    ensures kept { OnlyReads (D.state dev.old) (D.state dev.new) }
    ensures faults { CountsFault result (D.state dev.old).faults (D.state dev.new).faults }
{
    'entries: loop {
        if let Some(same) = take_both(cursors, notes, dev)? {
            return Ok(same);
        }
    }
}

/// Whether a sound mapping tree and a sound details tree fit each other: they have the same devices, and each has as many
/// mappings below its root, by the notes of the settled devices' trees, as its details say. It takes no memory.
///
/// What it says holds where the device tells what it holds, both trees are sound, and the notes are right for the roots of
/// the mapping tree's devices; over any other device, trees or notes it is safe.
pub fn do_trees_fit<D: Device>(
    cursors: &mut ListCursors,
    notes: &Notes,
    dev: &mut D,
    top: u64,
    details: u64,
) -> Result<bool, Failed>
    requires attached { IsAttached (D.state dev.old) }
    ensures fits { IfOk result (λ fits. IfSome (D.state dev.old).held
        (λ image. (data_blocks : ℕ) → let graph = lost_graph image data_blocks in
        is_sound_tree graph image 2 top ≡ true → is_sound_tree graph image 4 details ≡ true
        → AllByRecursion (λ (e : Entry). number_below notes.now e.value ≡ mappings_below graph image e.value) (top_entries graph image top)
        → fits ≡ are_fitting graph image top details)) }

    // Each node of both trees is read once at most, also where a read failed.
    ensures reads { IfSome (D.state dev.old).held (λ image.
        (D.state dev.new).reads ≤ (D.state dev.old).reads
        + (length (nodes_below 8 image 63 top) + length (nodes_below 24 image 63 details))) }
    ensures kept { OnlyReads (D.state dev.old) (D.state dev.new) }
    ensures faults { CountsFault result (D.state dev.old).faults (D.state dev.new).faults }
{
    thin_format_is_lawful();
    found_trees_are_sound();
    fitting_trees_have_one_list();
    cursors_give_entries::<Root>();
    cursors_give_entries::<Details>();
    cursors.tops.restart(top);
    cursors.details.restart(details);
    compare(cursors, notes, dev)
}
