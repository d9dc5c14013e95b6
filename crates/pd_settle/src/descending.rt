//! The descent from one node: down to its unknown children first, each once.

ghost use Rattle.std.specs.Prelude.{◌≡◌, ℕ, ◌+◌, ◌<◌, ◌≤◌, Bool, true, OnOk, IfSome, Some, slice_get, List, ◌⊎◌};
ghost use Rattle.pd_kinds.specs.Objects.{CountsFault};
ghost use Rattle.pd_kinds.specs.Graph.{pair};
ghost use Rattle.pd_kinds.specs.declared.limits.TheConstants.{MAX_META_BLOCKS};
ghost use Rattle.pd_image.specs.Device.{IsAttached, OnlyReads};
ghost use Rattle.pd_graph.specs.Notes.{size_of, note_in};
ghost use Rattle.pd_settle.specs.Settled.{AreSettleable, IsOrdering, IsClosed, KeepsKnown, steps};
ghost use Rattle.pd_settle.specs.Looking.{IsKept, blocks_of_edges, open_note, Closes, Settles, Opens};

use crate::looking::{Seen, keyless, look};
use pd_graph::{Format, Note, Notes, leaf_note};
use pd_image::{Device, Failed};
use pd_kinds::Block;

/// Settles an unknown node of a tree, and all below it. Where it is strict, a node that is out of range is as bad as
/// a deep one.
///
/// What is settled, and which blocks are fit for it, is told by the notes: all that isn't fit was noted as bad before.
pub(crate) fn descend<F: Format, D: Device>(
    notes: &mut Notes,
    format: &F,
    dev: &mut D,
    role: u8,
    start: u64,
    strict: bool,
) -> Result<(), Failed>
    requires role { role < F.ROLES }
    requires number { size_of notes.old ≡ (F.graph format.now).nr }
    requires start { start < (F.graph format.now).nr }
    requires unknown { (note_in notes.old start).height ≡ 0 }
    requires closed { IsClosed (note_in notes.old) }
    requires attached { IsAttached (D.state dev.old) }
    requires within { (F.graph format.now).nr ≤ (D.state dev.old).blocks }
    ensures ended { OnOk result (IsClosed (note_in notes.new)) }
    ensures number { size_of notes.new ≡ size_of notes.old }
    ensures knows { KeepsKnown (note_in notes.old) (note_in notes.new) }
    ensures started { 1 ≤ (note_in notes.new start).height }
    ensures told { IfSome (D.state dev.old).held (λ image. (nodes fit : ℕ → Bool) → AreSettleable (F.graph format.now) image nodes fit
        → IsOrdering (F.graph format.now) image nodes fit strict (note_in notes.old) → nodes (pair start role) ≡ true
        → IsOrdering (F.graph format.now) image nodes fit strict (note_in notes.new)) }
    ensures reads { (D.state dev.new).reads + steps (F.graph format.now).nr (note_in notes.old)
        ≤ (D.state dev.old).reads + steps (F.graph format.now).nr (note_in notes.new) }
    ensures kept { OnlyReads (D.state dev.old) (D.state dev.new) }
    ensures faults { CountsFault result (D.state dev.old).faults (D.state dev.new).faults }
{
    let mut block = Block::zeros();
    let mut kept = Kept {
        at: 0,
        block: Block::zeros(),
    };
    open(notes, start, 0);
    let mut top = start + 1;
    while 0 < top {
        let b = top - 1;
        fetch(&kept, dev, b, &mut block)?;
        keep(&mut kept, format, role, b, &block);
        top = step(notes, format, role, b, &block, strict);
    }
    Ok(())
}

// Reads of the nodes on the stack.

/// The inner node that was looked at last, so that it isn't read again after each leaf below it.
#[derive(Drop)]
pub(crate) struct Kept {
    /// The number of the block and 1 more, or 0 where there is none.
    pub(crate) at: u64,
    pub(crate) block: Block,
}

/// Block b, from the device where it isn't the one that is kept.
pub(crate) fn fetch<D: Device>(
    kept: &Kept,
    dev: &mut D,
    b: u64,
    into: &mut Block,
) -> Result<(), Failed>
    requires attached { IsAttached (D.state dev.old) }
    requires within { b < (D.state dev.old).blocks }
    requires few { b < MAX_META_BLOCKS }
    ensures content { OnOk result (IfSome (D.state dev.old).held (λ image. IsKept image kept.now → slice_get image b ≡ Some into.new.0)) }
    ensures reads { (D.state dev.new).reads ≤ (D.state dev.old).reads + 1 }
    ensures kept { OnlyReads (D.state dev.old) (D.state dev.new) }
    ensures faults { CountsFault result (D.state dev.old).faults (D.state dev.new).faults }
{
    if kept.at == b + 1 {
        *into = kept.block;
        return Ok(());
    }
    dev.read(b, into)
}

/// Keeps block b, where it is an inner node.
pub(crate) fn keep<F: Format>(kept: &mut Kept, format: &F, role: u8, b: u64, block: &Block)
    requires role { role < F.ROLES }
    requires few { b < MAX_META_BLOCKS }
    ensures { (image : List (List ℕ)) → slice_get image b ≡ Some block.now.0 → IsKept image kept.old → IsKept image kept.new }
{
    if kept.at != b + 1 && format.inner_of_any(role, block) {
        kept.at = b + 1;
        kept.block = *block;
    }
}

// One step of settling.

/// Puts block b on the stack, over the block that the link stands for.
pub(crate) fn open(notes: &mut Notes, b: u64, link: u64)
    requires { b < size_of notes.old }
    ensures { Closes b (open_note link) notes.old notes.new }
{
    let note = keyless(link, 66);
    notes.set_note(b, note);
}

/// Settles block b.
fn close(notes: &mut Notes, b: u64, note: Note)
    requires { b < size_of notes.old }
    ensures { Closes b note notes.old notes.new }
{
    notes.set_note(b, note);
}

/// Looks at the block on top: puts a child of it that is unknown on the stack, or settles it. The result
/// stands for the block that is then on top: its number and 1 more, or 0 where there is none.
///
/// Where it is strict, a node that is out of range is as bad as a deep one.
pub(crate) fn step<F: Format>(
    notes: &mut Notes,
    format: &F,
    role: u8,
    b: u64,
    block: &Block,
    strict: bool,
) -> u64
    requires role { role < F.ROLES }
    requires number { size_of notes.old ≡ (F.graph format.now).nr }
    requires within { b < (F.graph format.now).nr }
    ensures { let nr = (F.graph format.now).nr in
        let contents = F.contents format.now in
        let inner = contents.is_inner role block.now.0 in
        let cs = blocks_of_edges (contents.edges role block.now.0) in
        Opens nr inner cs b notes.old notes.new result
        ⊎ Settles nr strict inner (contents.keys role block.now.0) cs b notes.old notes.new result }
{
    let below = notes.note(b).below;
    if !format.inner_of_any(role, block) {
        let note = leaf_note(format, role, block);
        close(notes, b, note);
        return below;
    }
    match look(notes, format, role, block, strict) {
        Seen::Down(child) => {
            open(notes, child, b + 1);
            child + 1
        }
        Seen::Outside => {
            close(notes, b, keyless(0, 1));
            below
        }
        Seen::Deep => {
            close(notes, b, keyless(0, 65));
            below
        }
        Seen::Stray => {
            close(notes, b, keyless(0, 65));
            below
        }
        Seen::Shallow(note) => {
            close(notes, b, note);
            below
        }
    }
}
