//! The list of devices of a mapping tree, or of a details tree, in memory (`thin_repair`).

ghost use Rattle.std.specs.Prelude.{◌≡◌, ℕ, true, map, IfOk, IfSome};
ghost use Rattle.std.specs.List.{AllByRecursion};
ghost use Rattle.pd_kinds.specs.CheckFault.{CountsCheckFault};
ghost use Rattle.pd_kinds.specs.Node.{Entry};
ghost use Rattle.pd_kinds.specs.Whole.{top_entries};
ghost use Rattle.pd_laid.specs.FoundRoots.{is_sound_tree, lost_graph};
ghost use Rattle.pd_image.specs.Device.{IsAttached, OnlyReads};
ghost use Rattle.pd_graph.specs.declared.notes.Notes.{Notes as TheNotes};
ghost use Rattle.pd_tree.specs.Cursor.{cursor_items};
ghost use Rattle.pd_measures.specs.Counts.{counts_of_details, counts_of_top, mappings_below, pairs_of, key_and_told};
ghost use Rattle.pd_measures.specs.Measured.{below_root as number_below};

use crate::comparing::ListCursors;
use crate::gauges::below_root;
use crate::laws::found_trees_are_sound;
use pd_graph::Notes;
use pd_image::Device;
use pd_kinds::{CheckFault, thin_format_is_lawful};
use pd_tree::{Cursor, cursors_give_entries};
use pd_value::{Details, Root, Value};
use std::alloc::Global;

/// The devices of a tree by ascending id: of each its id, and how many mappings it has.
pub type DeviceCounts = Vec<(u64, u64)>;

/// A value of a tree's entry that tells how many mappings a device has.
trait TellsMappings: Value {
    /// How many, by these notes of the devices' trees.
    ghost told: { TheNotes → Self → ℕ };

    fn mappings(self, notes: &Notes) -> u64
        ensures { result ≡ told notes.now self };
}

impl TellsMappings for Root {
    ghost told = { λ notes root. number_below notes root.0 };

    fn mappings(self, notes: &Notes) -> u64 {
        below_root(notes, self.0)
    }
}

impl TellsMappings for Details {
    ghost told = { λ notes details. details.mapped };

    fn mappings(self, _notes: &Notes) -> u64 {
        self.mapped
    }
}

/// The list of the entries that are left.
fn gather<V: TellsMappings, D: Device>(
    alloc: Global,
    entries: &mut Cursor<V>,
    notes: &Notes,
    dev: &mut D,
) -> Result<DeviceCounts, CheckFault>
    requires attached { IsAttached (D.state dev.old) }
    ensures list { IfOk result (λ list. IfSome (D.state dev.old).held (λ image.
        list.items ≡ map (key_and_told (V.told notes.now)) (cursor_items V.SIZE V.decoded image entries.old))) }
    ensures kept { OnlyReads (D.state dev.old) (D.state dev.new) }
    ensures faults { CountsCheckFault result (D.state dev.old).faults (D.state dev.new).faults }
{
    let mut list = Vec::new(alloc);
    'entries: loop {
        match entries.next(dev)? {
            Some((id, value)) => list.push((id, value.mappings(notes)))?,
            None => return Ok(list),
        }
    }
}

/// The list of devices of a mapping tree: how many mappings a device has, its root's note says. It takes 16 bytes a device.
///
/// What it says holds where the device tells what it holds, the tree is sound, and the notes are right for the roots of its
/// devices; over any other device, tree or notes it is safe.
///
/// Fails with `CheckFault::Memory` where memory wasn't found, and with `CheckFault::Device` where a read failed.
pub fn list_of_top<D: Device>(
    alloc: Global,
    cursors: &mut ListCursors,
    notes: &Notes,
    dev: &mut D,
    top: u64,
) -> Result<DeviceCounts, CheckFault>
    requires attached { IsAttached (D.state dev.old) }
    ensures list { IfOk result (λ list. IfSome (D.state dev.old).held
        (λ image. (data_blocks : ℕ) → let graph = lost_graph image data_blocks in
        is_sound_tree graph image 2 top ≡ true
        → AllByRecursion (λ (e : Entry). number_below notes.now e.value ≡ mappings_below graph image e.value) (top_entries graph image top)
        → list.items ≡ pairs_of (counts_of_top graph image top))) }
    ensures kept { OnlyReads (D.state dev.old) (D.state dev.new) }
    ensures faults { CountsCheckFault result (D.state dev.old).faults (D.state dev.new).faults }
{
    thin_format_is_lawful();
    found_trees_are_sound();
    cursors_give_entries::<Root>();
    cursors.tops.restart(top);
    gather(alloc, &mut cursors.tops, notes, dev)
}

/// The list of devices of a details tree: how many mappings a device has, its details say. It takes 16 bytes a device.
///
/// What it says holds where the device tells what it holds and the tree is sound; over any other device or tree it is safe.
///
/// Fails with `CheckFault::Memory` where memory wasn't found, and with `CheckFault::Device` where a read failed.
pub fn list_of_details<D: Device>(
    alloc: Global,
    cursors: &mut ListCursors,
    notes: &Notes,
    dev: &mut D,
    details: u64,
) -> Result<DeviceCounts, CheckFault>
    requires attached { IsAttached (D.state dev.old) }
    ensures list { IfOk result (λ list. IfSome (D.state dev.old).held
        (λ image. (data_blocks : ℕ) → let graph = lost_graph image data_blocks in
        is_sound_tree graph image 4 details ≡ true → list.items ≡ pairs_of (counts_of_details graph image details))) }
    ensures kept { OnlyReads (D.state dev.old) (D.state dev.new) }
    ensures faults { CountsCheckFault result (D.state dev.old).faults (D.state dev.new).faults }
{
    thin_format_is_lawful();
    found_trees_are_sound();
    cursors_give_entries::<Details>();
    cursors.details.restart(details);
    gather(alloc, &mut cursors.details, notes, dev)
}
