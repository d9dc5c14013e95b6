//! What is held in memory, written to a device (`thin_repair`, `thin_shrink`).

ghost use Rattle.std.specs.Prelude.{◌≡◌, ◌≤◌};
ghost use Rattle.pd_kinds.specs.Image.{room_of};
ghost use Rattle.pd_laid.specs.Shape.{ThinShape};
ghost use Rattle.pd_laid.specs.PoolText.{shape_need};
ghost use Rattle.pd_image.specs.Device.{IsWritable, KeepsPlace};
ghost use Rattle.pd_restoring.specs.Made.{CountsMade, ending_of};
ghost use Rattle.pd_restore.specs.Pools.{CanMake, GivesShape, HasRoom, IsShapeMadeOf, PoolStands};

use crate::thin::{Begun, Pools};
use pd_image::{Device, Failed, Source};
use pd_restoring::{MadeFault, RestoreFault, restore_begun};
use std::alloc::Global;

/// Writes a pool that needs so many blocks, where there is room for it.
pub(crate) fn restore_known<D: Device>(
    alloc: Global,
    begun: Begun,
    need: u64,
    dev: &mut D,
    room: u64,
) -> Result<(), MadeFault>
    requires writable { IsWritable (D.state dev.old) }
    requires here { room ≡ room_of (D.state dev.old).blocks }
    requires stands { PoolStands begun }
    requires some { CanMake need room begun }
    ensures made { (w : ThinShape) → GivesShape w begun
        → need ≡ shape_need w room → IsShapeMadeOf w (ending_of result) (D.state dev.old) (D.state dev.new) }
    ensures place { KeepsPlace (D.state dev.old) (D.state dev.new) }
    ensures causes { CountsMade result (D.state dev.old).faults (D.state dev.new).faults }
{
    if need > room {
        return Err(MadeFault::NoRoom { need, blocks: room });
    }
    restore_fitting(alloc, begun, dev, room)
}

/// Writes a pool for which there is room.
pub(crate) fn restore_fitting<D: Device>(
    alloc: Global,
    begun: Begun,
    dev: &mut D,
    room: u64,
) -> Result<(), MadeFault>
    requires writable { IsWritable (D.state dev.old) }
    requires here { room ≡ room_of (D.state dev.old).blocks }
    requires stands { PoolStands begun }
    requires some { HasRoom room begun }
    ensures made { (w : ThinShape) → GivesShape w begun
        → shape_need w room ≤ room → IsShapeMadeOf w (ending_of result) (D.state dev.old) (D.state dev.new) }
    ensures place { KeepsPlace (D.state dev.old) (D.state dev.new) }
    ensures causes { CountsMade result (D.state dev.old).faults (D.state dev.new).faults }
{
    let mut source = Ended { attached: true };
    match restore_begun(&Pools, alloc, begun, &mut source, dev, room) {
        Ok(()) => Ok(()),
        Err(fault) => match fault {
            RestoreFault::Memory => Err(MadeFault::Memory),
            RestoreFault::Device => Err(MadeFault::Device),
            RestoreFault::NoRoom { need: more, blocks } => {
                Err(MadeFault::NoRoom { need: more, blocks })
            }
            RestoreFault::Source => unreachable!(),
            RestoreFault::Text(_) => unreachable!(),
        },
    }
}

/// A source of which nothing is left: the lines stand in memory.
#[derive(Drop)]
struct Ended {
    attached: bool,
}

impl Source for Ended {
    ghost use Rattle.std.proofs.Common.{refl};
    ghost use Rattle.pd_restore.specs.Pools.{ended_state};

    ghost state = { ended_state };

    ghost unnamed = { λ _ _. refl };

    fn attach(&mut self, _path: &str) -> Result<(), Failed> {
        self.attached = true;
        Ok(())
    }

    fn take(&mut self, _into: &mut [u8]) -> Result<usize, Failed> {
        Ok(0)
    }
}
