//! A pool that is held in memory with the leaves that its devices share (`thin_repair`, `thin_shrink`).

ghost use Rattle.std.specs.Prelude.{◌≡◌, ◌++◌, ◌∷◌, [], OnOk};

use crate::saved::SavedHead;
use pd_meaning_thin::PackedRuns;
use pd_value::Details;
use std::alloc::AllocError;
use std::marker::Model;

/// A leaf that devices share.
#[derive(Clone, Copy, Debug, PartialEq, Eq)]
pub struct SavedLeaf {
    /// How many mappings it has.
    pub entries: u64,
    /// How many runs these are.
    pub runs: usize,
}

/// A piece of a device's mappings.
#[derive(Clone, Copy, Debug, PartialEq, Eq)]
pub enum SavedPiece {
    /// So many runs of the device's own.
    Own(u32),
    /// All of the shared leaf with this number; the first one has 0.
    Shared(u32),
}

/// A thin device, and how many of the pieces are its.
#[derive(Clone, Copy, Debug, PartialEq, Eq)]
pub struct ShapedDevice {
    /// The number of the device.
    pub id: u64,
    /// Its details.
    pub details: Details,
    /// How many pieces its mappings are.
    pub pieces: usize,
}

/// A pool that is held in memory with its shared leaves: 16 bytes a leaf, 4 a piece, 48 a device, and for a run some 4 and
/// at most 35. A shared leaf's runs stand in it once. Each of its two lists of runs may have room for 64 KiB more.
///
/// It is a shape whose meaning is a lawful pool.
#[derive(Drop)]
pub struct SavedShape {
    head: SavedHead,
    leaves: Vec<SavedLeaf>,
    leaf_runs: PackedRuns,
    devices: Vec<ShapedDevice>,
    pieces: Vec<PackedPiece>,
    runs: PackedRuns,
}

impl Model for SavedShape {
    ghost use Rattle.pd_salvage.specs.SavedShape.{HeldShape, IsSavedShape};

    ghost Value = { HeldShape };

    ghost view = { λ s. record {
      head = s.head;
      leaves = s.leaves.items;
      leaf_runs = s.leaf_runs;
      devices = s.devices.items;
      pieces = s.pieces.items;
      runs = s.runs;
    } };

    ghost invariant = { λ s. IsSavedShape (record {
      head = s.head;
      leaves = s.leaves.items;
      leaf_runs = s.leaf_runs;
      devices = s.devices.items;
      pieces = s.pieces.items;
      runs = s.runs;
    }) };
}

impl SavedShape {
    ghost use Rattle.pd_salvage.specs.SavedShape.{IsSavedShape, held, with_devices as shape_with};

    /// A pool of this head, these leaves with the runs of all of them, and these devices with the pieces of all of them and
    /// the runs of all own pieces.
    pub fn of_parts(
        head: SavedHead,
        leaves: Vec<SavedLeaf>,
        leaf_runs: PackedRuns,
        devices: Vec<ShapedDevice>,
        pieces: Vec<PackedPiece>,
        runs: PackedRuns,
    ) -> SavedShape
        requires { IsSavedShape (held head leaves.items leaf_runs devices.items pieces.items runs) }
        ensures { result ≡ held head leaves.items leaf_runs devices.items pieces.items runs }
    {
        SavedShape {
            head,
            leaves,
            leaf_runs,
            devices,
            pieces,
            runs,
        }
    }

    /// What the superblock says of the pool.
    pub fn head(&self) -> &SavedHead
        ensures head { result.now ≡ self.now.head }
        // It is a shape, its meaning is a lawful pool, and its runs are as long as can be.
        ensures sound { IsSavedShape self.now }
    {
        &self.head
    }

    /// The shared leaves.
    pub fn leaves(&self) -> &[SavedLeaf]
        ensures { result.now ≡ self.now.leaves }
    {
        &self.leaves
    }

    /// The runs of all shared leaves, by ascending virtual block, those of the first leaf first.
    pub fn leaf_runs(&self) -> &PackedRuns
        ensures { result.now ≡ self.now.leaf_runs }
    {
        &self.leaf_runs
    }

    /// The devices, by ascending id.
    pub fn devices(&self) -> &[ShapedDevice]
        ensures { result.now ≡ self.now.devices }
    {
        &self.devices
    }

    /// The pieces of all devices, by ascending virtual block, those of the first device first.
    pub fn pieces(&self) -> &[PackedPiece]
        ensures { result.now ≡ self.now.pieces }
    {
        &self.pieces
    }

    /// The runs of all own pieces, by ascending virtual block, those of the first piece first.
    pub fn runs(&self) -> &PackedRuns
        ensures { result.now ≡ self.now.runs }
    {
        &self.runs
    }

    /// The same leaves, pieces and runs with another snapshot count, and as those of these devices.
    pub fn with_devices(self, time: u32, devices: Vec<ShapedDevice>) -> SavedShape
        requires { IsSavedShape (shape_with self time devices.items) }
        ensures { result ≡ shape_with self time devices.items }
    {
        let SavedShape {
            head,
            leaves,
            leaf_runs,
            devices: _,
            pieces,
            runs,
        } = self;
        SavedShape {
            head: SavedHead { time, ..head },
            leaves,
            leaf_runs,
            devices,
            pieces,
            runs,
        }
    }
}

// A piece of a device's mappings, held in four bytes (`thin_repair`, `thin_shrink`).

/// A piece in four bytes. Its number is below 2^31, which is no bound: a device has at most 2^30 mappings, and a metadata device
/// fewer leaves.
#[derive(Drop)]
pub struct PackedPiece {
    /// Twice the number, and one more for a shared leaf.
    word: u32,
}

impl Model for PackedPiece {
    ghost use Rattle.pd_salvage.specs.declared.saved_shape.SavedPiece.{SavedPiece as Piece};
    ghost use Rattle.pd_salvage.specs.SavedShape.{piece_in};

    ghost Value = { Piece };

    ghost view = { λ p. piece_in p.word };
}

impl PackedPiece {
    ghost use Rattle.std.specs.Prelude.{◌≡◌, IfSome};

    /// A piece, or `None` where its number isn't below 2^31.
    pub fn of(piece: SavedPiece) -> Option<PackedPiece>
        ensures { IfSome result (λ packed. packed ≡ piece) }
    {
        let (number, kind) = match piece {
            SavedPiece::Own(number) => (number, 0),
            SavedPiece::Shared(number) => (number, 1),
        };
        Some(PackedPiece {
            word: number.checked_mul(2)?.checked_add(kind)?,
        })
    }

    /// The piece.
    pub fn piece(&self) -> SavedPiece
        ensures { result ≡ self.now }
    {
        let number = self.word / 2;
        if self.word % 2 == 0 {
            SavedPiece::Own(number)
        } else {
            SavedPiece::Shared(number)
        }
    }
}

/// Adds a piece to some. A number of 2^31 or more counts as want of memory.
pub fn add_piece(pieces: &mut Vec<PackedPiece>, piece: SavedPiece) -> Result<(), AllocError>
    ensures { OnOk result (pieces.new.items ≡ pieces.old.items ++ piece ∷ []) }
{
    match PackedPiece::of(piece) {
        Some(packed) => {
            pieces.push(packed)?;
            Ok(())
        }
        None => Err(AllocError),
    }
}
