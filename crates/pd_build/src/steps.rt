//! Steps that the builders share.

ghost use Rattle.std.specs.Prelude.{◌≡◌, ◌<◌, ◌≤◌, [], ◌∷◌, OnOk, IfErr};
ghost use Rattle.pd_grammar.specs.Need.{nodes_for};
ghost use Rattle.pd_image.specs.Device.{IsWritable};
ghost use Rattle.pd_draft.specs.Closed.{IsClosed, StaysClosed, Wrote};
ghost use Rattle.pd_draft.specs.DraftState.{draft_state};
ghost use Rattle.pd_build.specs.Building.{CountsBuildFault};

use crate::BuildFault;
use pd_draft::Draft;
use pd_image::Device;
use pd_kinds::Block;

/// Puts a block at the draft's next place.
pub fn put_block<D: Device>(draft: &mut Draft<'_, D>, block: &Block) -> Result<(), BuildFault>
    requires writable { IsWritable (draft_state draft.old).device }
    requires room { draft.old.next < (draft_state draft.old).device.blocks }
    requires closed { IsClosed (draft_state draft.old).device }
    ensures same_reference { draft.new.dev.ghost_name ≡ draft.old.dev.ghost_name }
    ensures wrote { OnOk result (Wrote (block.now.0 ∷ []) (draft_state draft.old) (draft_state draft.new)) }
    ensures closed { StaysClosed (draft_state draft.old).device (draft_state draft.new).device }
    ensures faults { CountsBuildFault result (draft_state draft.old).device.faults (draft_state draft.new).device.faults }
    ensures fault { IfErr result (λ fault. fault ≡ BuildFault.Device) }
{
    draft.put(block)?;
    Ok(())
}

/// How many parts of at most so many elements there are.
pub(crate) fn parts(count: u64, most: u64) -> u64
    requires { 1 ≤ most }
    ensures { result ≡ nodes_for most count }
{
    if count == 0 {
        return 0;
    }
    (count - 1) / most + 1
}
