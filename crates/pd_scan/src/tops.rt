//! The nodes of a mapping tree's top: their leaves name the roots of other trees, and are fit only where those are sound.
//! Serves `thin_repair`.

ghost use Rattle.std.specs.Prelude.{◌≡◌, ℕ, ◌+◌, ◌<◌, ◌≤◌, ◌==◌, ◌&&◌, ◌||◌, not, length, OnOk, IfSome};
ghost use Rattle.std.specs.List.{list_all};
ghost use Rattle.pd_kinds.specs.Objects.{CountsFault};
ghost use Rattle.pd_kinds.specs.Graph.{block_at};
ghost use Rattle.pd_image.specs.Device.{IsAttached, OnlyReads};
ghost use Rattle.pd_settle.specs.Looking.{blocks_of_edges};
ghost use Rattle.pd_settle.specs.Settled.{is_fit};
ghost use Rattle.pd_scan.specs.Partners.{is_noted_good, keeps_roots};

use pd_graph::{Format, Notes, has_role};
use pd_image::{Device, Failed};
use pd_kinds::Block;

/// Whether there is block b, and it was noted as good.
pub(crate) fn is_good(notes: &Notes, b: u64) -> bool
    ensures { result ≡ is_noted_good notes.now b }
{
    if b < notes.nr() {
        notes.note(b).height <= 64
    } else {
        false
    }
}

/// Whether each block that the bytes name in this role was noted as good.
fn are_named_good<F: Format>(notes: &Notes, format: &F, role: u8, block: &Block) -> bool
    requires { role < F.ROLES }
    ensures { result ≡ list_all (is_noted_good notes.now) (blocks_of_edges ((F.contents format.now).edges role block.now.0)) }
{
    for i in 0..format.edges_of_any(role, block) {
        let (_, child) = format.edge_of_any(role, block, i);
        let good = is_good(notes, child);
        if !good {
            return false;
        }
    }
    true
}

/// Whether the bytes are those of an inner node, or name in this role only blocks that were noted as good.
fn keeps<F: Format>(notes: &Notes, format: &F, role: u8, block: &Block) -> bool
    requires { role < F.ROLES }
    ensures { result ≡ keeps_roots (F.contents format.now) notes.now role block.now.0 }
{
    if format.inner_of_any(role, block) {
        true
    } else {
        are_named_good(notes, format, role, block)
    }
}

/// Takes block b out of the table, unless it is kept.
fn take_out(fit: &mut [u16], b: usize, keeps: bool)
    requires { b < length fit.old }
    ensures fits { (role c : ℕ) → is_fit fit.new role c ≡ (is_fit fit.old role c && (not (c == b) || keeps)) }
    ensures places { length fit.new ≡ length fit.old }
{
    if !keeps {
        fit[b] = 0;
    }
}

/// Looks at block b, where the table has it in this role: takes it out if it is a leaf that names a block that wasn't
/// noted as good.
fn look_at_top<F: Format, D: Device>(
    fit: &mut [u16],
    notes: &Notes,
    format: &F,
    dev: &mut D,
    role: u8,
    b: u64,
) -> Result<(), Failed>
    requires role { role < F.ROLES }
    requires places { length fit.old ≡ (F.graph format.now).nr }
    requires block { b < (F.graph format.now).nr }
    requires attached { IsAttached (D.state dev.old) }
    requires within { (F.graph format.now).nr ≤ (D.state dev.old).blocks }
    ensures told { OnOk result (IfSome (D.state dev.old).held (λ image. (c : ℕ) → is_fit fit.new role c
        ≡ (is_fit fit.old role c && (not (c == b) || keeps_roots (F.contents format.now) notes.now role (block_at image b))))) }
    ensures places { length fit.new ≡ length fit.old }
    ensures reads { (D.state dev.new).reads ≤ (D.state dev.old).reads + 1 }
    ensures kept { OnlyReads (D.state dev.old) (D.state dev.new) }
    ensures faults { CountsFault result (D.state dev.old).faults (D.state dev.new).faults }
{
    if !has_role(fit[b as usize], role) {
        return Ok(());
    }
    let mut block = Block::zeros();
    dev.read(b, &mut block)?;
    let keeps = keeps(notes, format, role, &block);
    take_out(fit, b as usize, keeps);
    Ok(())
}

/// Takes out of the table each block that it has in this role and that is a leaf which names a block that wasn't noted as
/// good. What the table has of other roles may be gone then. It takes no memory.
///
/// After `Failed` the table holds any sets.
pub fn leave_out_tops<F: Format, D: Device>(
    fit: &mut [u16],
    notes: &Notes,
    format: &F,
    dev: &mut D,
    role: u8,
) -> Result<(), Failed>
    requires role { role < F.ROLES }
    requires places { length fit.old ≡ (F.graph format.now).nr }
    requires attached { IsAttached (D.state dev.old) }
    requires within { (F.graph format.now).nr ≤ (D.state dev.old).blocks }
    ensures told { OnOk result (IfSome (D.state dev.old).held (λ image. (b : ℕ) → b < (F.graph format.now).nr → is_fit fit.new role b
        ≡ (is_fit fit.old role b && keeps_roots (F.contents format.now) notes.now role (block_at image b)))) }
    ensures places { length fit.new ≡ length fit.old }

    // At most one read for each block, also where one failed.
    ensures reads { (D.state dev.new).reads ≤ (D.state dev.old).reads + (F.graph format.now).nr }
    ensures kept { OnlyReads (D.state dev.old) (D.state dev.new) }
    ensures faults { CountsFault result (D.state dev.old).faults (D.state dev.new).faults }
{
    for b in 0..format.nr() {
        look_at_top(fit, notes, format, dev, role, b)?;
    }
    Ok(())
}
