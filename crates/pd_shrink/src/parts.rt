//! The parts of a pool in memory that have runs: its devices, or its shared leaves and its pieces (`thin_shrink`).

ghost use Rattle.std.specs.Prelude.{◌≡◌, ℕ, Option, IfSome};
ghost use Rattle.pd_kinds.specs.Meaning.{ThinDevice};
ghost use Rattle.pd_salvage.specs.SavedShape.{runs_of_piece};
ghost use Rattle.pd_shrink.specs.Moves.{bare_device, entries_of_leaf, leaf_of_piece, runs_of_device, runs_of_leaf};

use pd_salvage::{PackedPiece, SavedDevice, SavedLeaf, SavedPiece};

/// A part of a pool that has so many of the runs of all parts of its kind.
pub(crate) trait Part: Drop {
    /// What it says beside its runs, in the definitions.
    ghost Said: { Type 0 };

    /// What it says beside its runs.
    ghost says: { Self → Said };

    /// How many runs it has.
    ghost count: { Self → ℕ };

    /// How many runs it has.
    fn runs(&self) -> usize
        ensures { result ≡ count self.now };

    /// The same with so many runs, or `None` where it can't have so many. What has none gets none.
    fn with_runs(&self, runs: usize) -> Option<Self>
        requires { count self.now ≡ 0 → runs ≡ 0 }
        ensures number { IfSome result (λ part. count part ≡ runs) }
        ensures same { IfSome result (λ part. says part ≡ says self.now) };
}

impl Part for SavedDevice {
    ghost Said = { ThinDevice };

    ghost says = { bare_device };

    ghost count = { runs_of_device };

    fn runs(&self) -> usize {
        self.runs
    }

    fn with_runs(&self, runs: usize) -> Option<SavedDevice> {
        Some(SavedDevice {
            id: self.id,
            details: self.details,
            runs,
        })
    }
}

impl Part for SavedLeaf {
    ghost Said = { ℕ };

    ghost says = { entries_of_leaf };

    ghost count = { runs_of_leaf };

    fn runs(&self) -> usize {
        self.runs
    }

    fn with_runs(&self, runs: usize) -> Option<SavedLeaf> {
        Some(SavedLeaf {
            entries: self.entries,
            runs,
        })
    }
}

impl Part for PackedPiece {
    ghost Said = { Option ℕ };

    ghost says = { leaf_of_piece };

    ghost count = { runs_of_piece };

    fn runs(&self) -> usize {
        match self.piece() {
            SavedPiece::Own(runs) => runs as usize,
            SavedPiece::Shared(_) => 0,
        }
    }

    fn with_runs(&self, runs: usize) -> Option<PackedPiece> {
        let piece = match self.piece() {
            SavedPiece::Own(_) => SavedPiece::Own(u32::try_from(runs).ok()?),
            SavedPiece::Shared(number) => SavedPiece::Shared(number),
        };
        PackedPiece::of(piece)
    }
}
