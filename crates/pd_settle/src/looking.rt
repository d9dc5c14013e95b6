//! A look at a node: its own keys, or what the notes of its children say.

ghost use Rattle.std.specs.Prelude.{◌≡◌, ◌<◌, true, length, nat_lt, slice_get, Some, None};
ghost use Rattle.std.specs.List.{list_all};
ghost use Rattle.pd_graph.specs.Notes.{size_of, note_in};
ghost use Rattle.pd_settle.specs.Looking.{blocks_of_edges, is_low, IsFound, IsShallow};
ghost use Rattle.pd_settle.specs.Notes.{keyless_note, lower as lower_of, higher as higher_of, join as join_of, is_note_in_range};

use pd_graph::{Format, Note, Notes, key_at};
use pd_kinds::Block;

/// What a look at the children of an inner node finds.
#[derive(Drop)]
pub(crate) enum Seen {
    /// A child that is still unknown.
    Down(u64),
    /// A child outside the device's blocks, as no sound node has one.
    Outside,
    /// A child that shows that the node is deep, or that isn't good itself.
    Deep,
    /// A child out of its range, where none may be.
    Stray,
    /// The note of the node.
    Shallow(Note),
}

/// A note without keys.
pub(crate) fn keyless(below: u64, height: u8) -> Note
    ensures { result ≡ keyless_note below height }
{
    Note {
        least: None,
        greatest: None,
        below,
        height,
        in_range: true,
    }
}

/// The block of child i.
fn child_at<F: Format>(format: &F, role: u8, block: &Block, i: usize) -> u64
    requires role { role < F.ROLES }
    requires within { i < length ((F.contents format.now).edges role block.now.0) }
    ensures { slice_get (blocks_of_edges ((F.contents format.now).edges role block.now.0)) i ≡ Some result }
{
    format.edge_of_any(role, block, i).1
}

/// The block of child i of a node all of whose children are blocks that are noted.
fn block_at<F: Format>(notes: &Notes, format: &F, role: u8, block: &Block, i: usize) -> u64
    requires role { role < F.ROLES }
    requires child { i < length ((F.contents format.now).edges role block.now.0) }
    requires within { list_all (λ c. nat_lt c (size_of notes.now)) (blocks_of_edges ((F.contents format.now).edges role block.now.0))
        ≡ true }
    ensures child { slice_get (blocks_of_edges ((F.contents format.now).edges role block.now.0)) i ≡ Some result }
    ensures within { result < size_of notes.now }
{
    child_at(format, role, block, i)
}

/// The notes of the children of an inner node as that of the node.
fn sum_up<F: Format>(notes: &Notes, format: &F, role: u8, block: &Block) -> Note
    requires role { role < F.ROLES }
    requires keys { length ((F.contents format.now).keys role block.now.0) ≡ length ((F.contents format.now).edges role block.now.0) }
    requires within { list_all (λ c. nat_lt c (size_of notes.now)) (blocks_of_edges ((F.contents format.now).edges role block.now.0))
        ≡ true }
    requires low { list_all (λ c. is_low (note_in notes.now c)) (blocks_of_edges ((F.contents format.now).edges role block.now.0)) ≡ true }
    ensures { IsShallow (note_in notes.now) ((F.contents format.now).keys role block.now.0)
        (blocks_of_edges ((F.contents format.now).edges role block.now.0)) result }
{
    let mut sum = keyless(0, 0);
    let mut in_range = true;
    let number = format.edges_of_any(role, block);
    for i in 0..number {
        let child = block_at(notes, format, role, block, i);
        let note = notes.note(child);
        let low = format.key_of_any(role, block, i);
        let high = key_at(format, role, block, number, i + 1);
        let fits = is_in_range(low, high, note);
        in_range = in_range & fits;
        sum = join(sum, note);
    }
    Note {
        least: sum.least,
        greatest: sum.greatest,
        below: sum.below,
        height: sum.height + 1,
        in_range,
    }
}

/// Looks at the children of an inner node, one after another. Where it is strict, none of them may be out of its range.
pub(crate) fn look<F: Format>(
    notes: &Notes,
    format: &F,
    role: u8,
    block: &Block,
    strict: bool,
) -> Seen
    requires role { role < F.ROLES }
    requires keys { length ((F.contents format.now).keys role block.now.0) ≡ length ((F.contents format.now).edges role block.now.0) }
    ensures { IsFound (size_of notes.now) strict (note_in notes.now) ((F.contents format.now).keys role block.now.0)
        (blocks_of_edges ((F.contents format.now).edges role block.now.0)) result }
{
    for i in 0..format.edges_of_any(role, block) {
        let child = child_at(format, role, block, i);
        if notes.nr() <= child {
            return Seen::Outside;
        }
        let height = notes.note(child).height;
        let is_unknown = height == 0;
        if is_unknown {
            return Seen::Down(child);
        }
        if 64 <= height {
            return Seen::Deep;
        }
    }
    let note = sum_up(notes, format, role, block);
    let is_stray = strict & !note.in_range;
    if is_stray {
        return Seen::Stray;
    }
    Seen::Shallow(note)
}

// Notes of children put together.

/// The lesser of two numbers that may be missing.
fn lower(a: Option<u64>, b: Option<u64>) -> Option<u64>
    ensures { result ≡ lower_of a b }
{
    match (a, b) {
        (Some(a), Some(b)) => Some(a.min(b)),
        (Some(a), None) => Some(a),
        (None, b) => b,
    }
}

/// The greater of two numbers that may be missing.
fn higher(a: Option<u64>, b: Option<u64>) -> Option<u64>
    ensures { result ≡ higher_of a b }
{
    match (a, b) {
        (Some(a), Some(b)) => Some(a.max(b)),
        (Some(a), None) => Some(a),
        (None, b) => b,
    }
}

/// The notes of two neighbours as one, which is no node's.
pub(crate) fn join(a: Note, b: Note) -> Note
    ensures { result ≡ join_of a b }
{
    Note {
        least: lower(a.least, b.least),
        greatest: higher(a.greatest, b.greatest),
        below: a.below.saturating_add(b.below),
        height: a.height.max(b.height),
        in_range: true,
    }
}

/// Whether the keys below a child are in its range, by its note.
pub(crate) fn is_in_range(low: u64, high: Option<u64>, note: Note) -> bool
    ensures { result ≡ is_note_in_range low high note }
{
    match (note.least, note.greatest) {
        (Some(least), Some(greatest)) => {
            low <= least
                && match high {
                    Some(high) => greatest < high,
                    None => true,
                }
        }
        (Some(least), None) => low <= least,
        (None, _) => false,
    }
}
