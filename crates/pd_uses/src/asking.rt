//! The superblock of a pool that is to be asked (`thin_ls`, `thin_rmap`).
//! Numbers in a line (`thin_ls`, `thin_rmap`).

ghost use Rattle.std.specs.Prelude.{◌≡◌, IfOk, ◌≤◌, ◌+◌, ◌++◌, length, decimal};
ghost use Rattle.pd_kinds.specs.declared.kind.Kind.TheVariants.{Thin};
ghost use Rattle.pd_kinds.specs.Graph.{block_at};
ghost use Rattle.pd_kinds.specs.ThinFormat.{thin_fields};
ghost use Rattle.pd_image.specs.Device.{IsAttached, OnlyReads};
ghost use Rattle.pd_query.specs.Query.{StartFails, IfSound};

use pd_image::Device;
use pd_kinds::ThinSuper;
use pd_lines::TextBuffer;
use pd_meaning_thin::rows_are_the_devices;
use pd_query::{QueryFault, read_super};

/// The superblock of a pool that is to be asked.
pub(crate) fn super_to_ask<D: Device>(dev: &mut D) -> Result<ThinSuper, QueryFault>
    requires { IsAttached (D.state dev.old) }
    ensures fields { IfOk result (λ s. IfSound Thin (D.state dev.old).held (λ image. s ≡ thin_fields (block_at image 0))) }
    ensures kept { OnlyReads (D.state dev.old) (D.state dev.new) }
    ensures faults { StartFails result (D.state dev.old).faults (D.state dev.new).faults }
{
    rows_are_the_devices();
    match read_super(dev) {
        Ok(s) => Ok(s),
        Err(_) => Err(QueryFault::Device),
    }
}

/// Adds a number behind its label.
pub(crate) fn add_labeled<const N: usize>(line: &mut TextBuffer<N>, label: &[u8], number: u64)
    requires { length line.old + length label.now + 20 ≤ N }
    ensures bytes { line.new ≡ line.old ++ (label.now ++ decimal number) }
    ensures len { length line.new ≤ length line.old + length label.now + 20 }
{
    line.add(label);
    line.add_number(number);
}
