//! What a salvage keeps of mappings, measured (`thin_repair`).

ghost use Rattle.std.specs.Prelude.{◌≡◌, ◌≤◌, false, filter, fold, IfOk, IfSome};
ghost use Rattle.pd_kinds.specs.Layout.{node_entries_of};
ghost use Rattle.pd_kinds.specs.Node.{is_inner_node};
ghost use Rattle.pd_kinds.specs.Objects.{CountsFault};
ghost use Rattle.pd_image.specs.Device.{IsAttached, OnlyReads};
ghost use Rattle.pd_meaning_thin.specs.Runs.{block_time_of};
ghost use Rattle.pd_salvage.specs.Cursor.{saved_left, saved_room};
ghost use Rattle.pd_damaged.specs.Kept.{counted, is_kept, measure_of, no_kept};

use pd_image::{Device, Failed};
use pd_kinds::Block;
use pd_node::{entries, key, value};
use pd_salvage::SavedCursor;
use pd_value::BlockTime;

/// What is measured of mappings that a salvage keeps.
#[derive(Clone, Copy, Debug, PartialEq, Eq)]
pub struct Kept {
    /// How many there are. It stays at 2^64 - 1 where it would pass it.
    pub number: u64,
    /// Their latest time, and 0 where there is none.
    pub time: u32,
    /// The sum of their times. It stays at 2^128 - 1 where it would pass it.
    pub times: u128,
    /// The least virtual block, and 2^64 - 1 where there is none.
    pub least: u64,
    /// The greatest virtual block, and 0 where there is none.
    pub greatest: u64,
}

impl Kept {
    ghost use Rattle.std.specs.Prelude.{◌≡◌};
    ghost use Rattle.pd_damaged.specs.Kept.{counted as counted_with, join as join_of, no_kept, one_kept};

    /// The measure of no mappings.
    pub(crate) fn none() -> Kept
        ensures { result ≡ no_kept }
    {
        Kept {
            number: 0,
            time: 0,
            times: 0,
            least: u64::MAX,
            greatest: 0,
        }
    }

    /// The measure of one mapping.
    fn one(virt: u64, time: u32) -> Kept
        ensures { result ≡ one_kept virt time }
    {
        Kept {
            number: 1,
            time,
            times: u128::from(time),
            least: virt,
            greatest: virt,
        }
    }

    /// The measure of mappings and of others behind them.
    pub(crate) fn join(self, other: Kept) -> Kept
        ensures { result ≡ join_of self other }
    {
        Kept {
            number: self.number.saturating_add(other.number),
            time: self.time.max(other.time),
            times: self.times.saturating_add(other.times),
            least: self.least.min(other.least),
            greatest: self.greatest.max(other.greatest),
        }
    }

    /// The measure of mappings and of one more, which is kept where its data block is one of so many.
    fn counted(self, data_blocks: u64, virt: u64, mapping: BlockTime) -> Kept
        ensures { result ≡ counted_with data_blocks self (virt, mapping) }
    {
        if mapping.block < data_blocks {
            self.join(Kept::one(virt, mapping.time))
        } else {
            self
        }
    }
}

/// The measure of what is kept of a leaf, in a pool with so many data blocks.
pub(crate) fn kept_of_leaf(block: &Block, data_blocks: u64) -> Kept
    requires { is_inner_node block.now.0 ≡ false }
    ensures { result ≡ measure_of (filter (is_kept data_blocks) (node_entries_of 8 block.now.0)) }
{
    let mut sum = Kept::none();
    for i in 0..entries::<BlockTime>(block) {
        let mapping = value::<BlockTime>(block, i);
        sum = sum.counted(data_blocks, key::<BlockTime>(block, i), mapping);
    }
    sum
}

/// The measure of what is kept of the mappings that are left, in a pool with so many data blocks.
///
/// Fails with `Failed` where a read failed; then nothing is said of what is left.
pub(crate) fn kept_of_cursor<D: Device>(
    mappings: &mut SavedCursor<BlockTime>,
    dev: &mut D,
    data_blocks: u64,
) -> Result<Kept, Failed>
    requires attached { IsAttached (D.state dev.old) }
    requires within { saved_room mappings.old ≤ (D.state dev.old).blocks }
    ensures measure { IfOk result (λ sum. IfSome (D.state dev.old).held
        (λ image. sum ≡ fold (counted data_blocks) no_kept (saved_left 8 block_time_of image mappings.old))) }
    ensures room { saved_room mappings.new ≡ saved_room mappings.old }
    ensures kept { OnlyReads (D.state dev.old) (D.state dev.new) }
    ensures faults { CountsFault result (D.state dev.old).faults (D.state dev.new).faults }
{
    let mut sum = Kept::none();
    'mappings: loop {
        match mappings.next(dev)? {
            Some((virt, mapping)) => sum = sum.counted(data_blocks, virt, mapping),
            None => return Ok(sum),
        }
    }
}
