//! What is known of a block of a damaged pool: its height, and what a salvage keeps below it (`thin_repair`).

ghost use Rattle.std.specs.Prelude.{◌≡◌, ◌≤◌, true, IfSome, IsSome};
ghost use Rattle.pd_damaged.specs.Known.{IsOver, IsUnder, LiesIn};

use crate::kept::Kept;
use pd_salvage::Range;

/// The most nodes on a path that a salvage goes.
pub(crate) const LEVELS: u8 = 64;

/// What is known of a block.
#[derive(Clone, Copy, Debug, PartialEq, Eq)]
pub(crate) struct Known {
    /// The most nodes on a path from the block to a leaf, or to where nothing is kept: `LEVELS` at most.
    pub(crate) height: u8,
    /// What a salvage keeps below it.
    pub(crate) kept: Kept,
}

/// Where nothing is kept.
pub(crate) const NOTHING: Known = Known {
    height: 0,
    kept: Kept {
        number: 0,
        time: 0,
        times: 0,
        least: u64::MAX,
        greatest: 0,
    },
};

/// The height of a node that has this one by some of its children, and this child besides. `None` where it isn't known, or is
/// above `LEVELS`.
pub(crate) fn height_over(height: u8, child: Option<Known>) -> Option<u8>
    requires { height ≤ 64 }
    ensures over { IfSome result (IsOver height child) }
    ensures some { IsUnder 64 child → IsSome result }
{
    match child {
        Some(known) => {
            if known.height < LEVELS {
                Some(height.max(known.height + 1))
            } else {
                None
            }
        }
        None => None,
    }
}

/// Whether the keys of what is kept lie in the range.
pub(crate) fn lies_in(kept: &Kept, range: &Range) -> bool
    ensures { result ≡ true → LiesIn range.now kept.now }
{
    (range.low <= kept.least) & (u128::from(kept.greatest) < range.high)
}
