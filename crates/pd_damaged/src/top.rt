//! What a salvage keeps of the devices of a mapping tree (`thin_repair`).

ghost use Rattle.std.specs.Prelude.{◌≡◌, ℕ, ◌≤◌, fold, IfOk, IfSome};
ghost use Rattle.pd_kinds.specs.Graph.{Graph};
ghost use Rattle.pd_kinds.specs.Objects.{CountsFault};
ghost use Rattle.pd_image.specs.Device.{IsAttached, OnlyReads};
ghost use Rattle.pd_tree.specs.Cursor.{root_of};
ghost use Rattle.pd_salvage.specs.Cursor.{saved_left, saved_room};
ghost use Rattle.pd_damaged.specs.Known.{AreRight, KnowsTheSame, data_blocks_of, meta_blocks_of};
ghost use Rattle.pd_damaged.specs.Top.{IsKeptOfTop, device_counted, no_devices};

use crate::kept::Kept;
use crate::remains::Remains;
use pd_image::{Device, Failed};
use pd_kinds::is_outside;
use pd_salvage::SavedCursor;
use pd_value::Root;

/// What a salvage keeps of the devices of a mapping tree.
#[derive(Clone, Copy, Debug, PartialEq, Eq)]
pub struct KeptTop {
    /// How many devices there are. It stays at 2^64 - 1 where it would pass it.
    pub devices: u64,
    /// What is measured of the mappings of all of them.
    pub kept: Kept,
}

impl KeptTop {
    ghost use Rattle.std.specs.Prelude.{◌≡◌};
    ghost use Rattle.pd_damaged.specs.Top.{no_devices, with_device};

    /// No device.
    fn none() -> KeptTop
        ensures { result ≡ no_devices }
    {
        KeptTop {
            devices: 0,
            kept: Kept::none(),
        }
    }

    /// These devices, and one more of which this is kept.
    fn with(self, kept: Kept) -> KeptTop
        ensures { result ≡ with_device self kept }
    {
        KeptTop {
            devices: self.devices.saturating_add(1),
            kept: self.kept.join(kept),
        }
    }
}

/// These devices, and that with this root, unless the root lies outside the metadata.
fn add_device<D: Device>(
    remains: &mut Remains,
    dev: &mut D,
    sum: KeptTop,
    root: Root,
) -> Result<KeptTop, Failed>
    requires attached { IsAttached (D.state dev.old) }
    requires within { meta_blocks_of remains.old ≤ (D.state dev.old).blocks }
    ensures sum { IfOk result (λ new. IfSome (D.state dev.old).held (λ image. AreRight image remains.old
        → (id : ℕ) → new ≡ device_counted (meta_blocks_of remains.old) (data_blocks_of remains.old) image sum (id, root))) }
    ensures same { KnowsTheSame remains.old remains.new }
    ensures kept { OnlyReads (D.state dev.old) (D.state dev.new) }
    ensures faults { CountsFault result (D.state dev.old).faults (D.state dev.new).faults }
{
    if is_outside(remains.nr(), root.0) {
        return Ok(sum);
    }
    let kept = remains.below(dev, root.0)?;
    Ok(sum.with(kept))
}

/// What is kept of the devices that are left of a mapping tree.
fn add_devices<D: Device>(
    remains: &mut Remains,
    tops: &mut SavedCursor<Root>,
    dev: &mut D,
) -> Result<KeptTop, Failed>
    requires attached { IsAttached (D.state dev.old) }
    requires within { meta_blocks_of remains.old ≤ (D.state dev.old).blocks }
    requires room { saved_room tops.old ≤ (D.state dev.old).blocks }
    ensures sum { IfOk result (λ sum. IfSome (D.state dev.old).held (λ image. AreRight image remains.old
        → sum ≡ fold (device_counted (meta_blocks_of remains.old) (data_blocks_of remains.old) image) no_devices
        (saved_left 8 root_of image tops.old))) }
    ensures same { KnowsTheSame remains.old remains.new }
    ensures kept { OnlyReads (D.state dev.old) (D.state dev.new) }
    ensures faults { CountsFault result (D.state dev.old).faults (D.state dev.new).faults }
{
    let mut sum = KeptTop::none();
    'tops: loop {
        match tops.next(dev)? {
            Some((_, root)) => sum = add_device(remains, dev, sum, root)?,
            None => return Ok(sum),
        }
    }
}

/// What a salvage keeps of the devices of a mapping tree, by what it keeps below each block. The cursor lends its memory; else
/// none is taken.
///
/// Fails with `Failed` where a read failed.
pub fn below_top<D: Device>(
    remains: &mut Remains,
    tops: &mut SavedCursor<Root>,
    dev: &mut D,
    top: u64,
) -> Result<KeptTop, Failed>
    requires attached { IsAttached (D.state dev.old) }
    requires within { meta_blocks_of remains.old ≤ (D.state dev.old).blocks }
    ensures top { IfOk result (λ kept. IfSome (D.state dev.old).held (λ image. AreRight image remains.old
        → (graph : Graph) → graph.nr ≡ meta_blocks_of remains.old → graph.data_blocks ≡ data_blocks_of remains.old
        → IsKeptOfTop graph image top kept)) }
    ensures same { KnowsTheSame remains.old remains.new }
    ensures kept { OnlyReads (D.state dev.old) (D.state dev.new) }
    ensures faults { CountsFault result (D.state dev.old).faults (D.state dev.new).faults }
{
    tops.restart(remains.nr(), top);
    add_devices(remains, tops, dev)
}
