//! The leaf values of space maps.

ghost use Rattle.std.specs.Prelude.{◌/◌, ◌%◌, ◌^◌, ◌&&◌, nat_lt};
ghost use Rattle.std.proofs.Common.{rules};
ghost use Rattle.pd_kinds.specs.Field.{index_code};

use crate::value::Value;
use pd_kinds::{put_u32, put_u64, u32_at, u64_at};

/// A reference count of 3 or more, which the overflow tree of a space map holds.
#[derive(Clone, Copy, Debug, PartialEq, Eq)]
pub struct Count(pub u32);

impl Value for Count {
    const SIZE: usize = 4;

    ghost SIZE = { 4 };

    ghost fitting = { λ count. nat_lt count.0 (2 ^ 32) };

    ghost code = { λ count. count.0 };

    ghost decoded = { λ number. record { 0 = number } };

    fn fits(&self) -> bool {
        // Each number of these types has its place: reading it shows its range.
        let _count = self.0;
        true
    }

    fn read(bytes: &[u8]) -> Count {
        Count(u32_at(bytes, 0))
    }

    fn write(&self, bytes: &mut [u8]) {
        put_u32(bytes, 0, self.0);
    }

    ghost size_least = { Prim.search rules };

    ghost size_most = { Prim.search rules };

    ghost code_below = { Prim.search rules };

    ghost reads_back = { Prim.search rules };

    ghost read_fits = { Prim.search rules };

    ghost writes_back = { Prim.search rules };
}

/// An entry of a space map's index, struct disk_index_entry of
/// "drivers/md/persistent-data/dm-space-map-common.h".
#[derive(Clone, Copy, Debug, PartialEq, Eq)]
pub struct IndexEntry {
    /// The metadata block of the bitmap.
    pub block: u64,
    /// How many of the bitmap's blocks are free.
    pub free: u32,
    /// The first entry of the bitmap that may be free.
    pub none_before: u32,
}

impl Value for IndexEntry {
    const SIZE: usize = 16;

    ghost SIZE = { 16 };

    ghost fitting = { λ entry. nat_lt entry.block (2 ^ 64) && (nat_lt entry.free (2 ^ 32) && nat_lt entry.none_before (2 ^ 32)) };

    ghost code = { λ entry. index_code entry.block entry.free entry.none_before };

    ghost decoded = { λ number. record {
      block = number % 2 ^ 64;
      free = number / 2 ^ 64 % 2 ^ 32;
      none_before = number / 2 ^ 96;
    } };

    fn fits(&self) -> bool {
        // Each number of these types has its place: reading it shows its range.
        let _block = self.block;
        let _free = self.free;
        let _none_before = self.none_before;
        true
    }

    fn read(bytes: &[u8]) -> IndexEntry {
        IndexEntry {
            block: u64_at(bytes, 0),
            free: u32_at(bytes, 8),
            none_before: u32_at(bytes, 12),
        }
    }

    fn write(&self, bytes: &mut [u8]) {
        put_u64(bytes, 0, self.block);
        put_u32(bytes, 8, self.free);
        put_u32(bytes, 12, self.none_before);
    }

    ghost size_least = { Prim.search rules };

    ghost size_most = { Prim.search rules };

    ghost code_below = { Prim.search rules };

    ghost reads_back = { Prim.search rules };

    ghost read_fits = { Prim.search rules };

    ghost writes_back = { Prim.search rules };
}
