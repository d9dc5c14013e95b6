//! The leaf values of a thin pool.

ghost use Rattle.std.specs.Prelude.{◌*◌, ◌/◌, ◌%◌, ◌^◌, ◌&&◌, nat_lt};
ghost use Rattle.std.proofs.Common.{rules};
ghost use Rattle.pd_kinds.specs.Field.{mapping_code, details_code};

use crate::value::Value;
use pd_kinds::{put_u32, put_u64, u32_at, u64_at};

/// The number of a metadata block: the root of a tree, or a block of an array.
#[derive(Clone, Copy, Debug, PartialEq, Eq)]
pub struct Root(pub u64);

impl Value for Root {
    const SIZE: usize = 8;

    ghost SIZE = { 8 };

    ghost fitting = { λ root. nat_lt root.0 (2 ^ 64) };

    ghost code = { λ root. root.0 };

    ghost decoded = { λ number. record { 0 = number } };

    fn fits(&self) -> bool {
        // Each number of these types has its place: reading it shows its range.
        let _block = self.0;
        true
    }

    fn read(bytes: &[u8]) -> Root {
        Root(u64_at(bytes, 0))
    }

    fn write(&self, bytes: &mut [u8]) {
        put_u64(bytes, 0, self.0);
    }

    ghost size_least = { Prim.search rules };

    ghost size_most = { Prim.search rules };

    ghost code_below = { Prim.search rules };

    ghost reads_back = { Prim.search rules };

    ghost read_fits = { Prim.search rules };

    ghost writes_back = { Prim.search rules };
}

/// A mapping of a thin device, as "drivers/md/dm-thin-metadata.c" packs it into eight bytes.
#[derive(Clone, Copy, Debug, PartialEq, Eq)]
pub struct BlockTime {
    /// The data block, below 2^40.
    pub block: u64,
    /// The pool's time when the block was mapped, below 2^24.
    pub time: u32,
}

impl Value for BlockTime {
    const SIZE: usize = 8;

    ghost SIZE = { 8 };

    ghost fitting = { λ mapping. nat_lt mapping.block (2 ^ 40) && nat_lt mapping.time (2 ^ 24) };

    ghost code = { λ mapping. mapping_code mapping.block mapping.time };

    ghost decoded = { λ number. record { block = number / 2 ^ 24; time = number % 2 ^ 24 } };

    fn fits(&self) -> bool {
        self.block < 1 << 40 && self.time < 1 << 24
    }

    fn read(bytes: &[u8]) -> BlockTime {
        let word = u64_at(bytes, 0);
        BlockTime {
            block: word >> 24,
            time: (word % (1 << 24)) as u32,
        }
    }

    fn write(&self, bytes: &mut [u8]) {
        put_u64(bytes, 0, self.block * (1 << 24) + self.time as u64);
    }

    ghost size_least = { Prim.search rules };

    ghost size_most = { Prim.search rules };

    ghost code_below = { Prim.search rules };

    ghost reads_back = { Prim.search rules };

    ghost read_fits = { Prim.search rules };

    ghost writes_back = { Prim.search rules };
}

/// The details of a thin device, struct disk_device_details of "drivers/md/dm-thin-metadata.c".
#[derive(Clone, Copy, Debug, PartialEq, Eq)]
pub struct Details {
    /// The number of mapped blocks.
    pub mapped: u64,
    /// The transaction in which the device was made.
    pub transaction: u64,
    /// The pool's time when it was made.
    pub created: u32,
    /// The pool's time of its last snapshot.
    pub snapped: u32,
}

impl Value for Details {
    const SIZE: usize = 24;

    ghost SIZE = { 24 };

    ghost fitting = { λ d. nat_lt d.mapped (2 ^ 64)
        && (nat_lt d.transaction (2 ^ 64) && (nat_lt d.created (2 ^ 32) && nat_lt d.snapped (2 ^ 32))) };

    ghost code = { λ d. details_code d.mapped d.transaction d.created d.snapped };

    ghost decoded = { λ number. record {
      mapped = number % 2 ^ 64;
      transaction = number / 2 ^ 64 % 2 ^ 64;
      created = number / 2 ^ 128 % 2 ^ 32;
      snapped = number / 2 ^ 160;
    } };

    fn fits(&self) -> bool {
        // Each number of these types has its place: reading it shows its range.
        let _mapped = self.mapped;
        let _transaction = self.transaction;
        let _created = self.created;
        let _snapped = self.snapped;
        true
    }

    fn read(bytes: &[u8]) -> Details {
        Details {
            mapped: u64_at(bytes, 0),
            transaction: u64_at(bytes, 8),
            created: u32_at(bytes, 16),
            snapped: u32_at(bytes, 20),
        }
    }

    fn write(&self, bytes: &mut [u8]) {
        put_u64(bytes, 0, self.mapped);
        put_u64(bytes, 8, self.transaction);
        put_u32(bytes, 16, self.created);
        put_u32(bytes, 20, self.snapped);
    }

    ghost size_least = { Prim.search rules };

    ghost size_most = { Prim.search rules };

    ghost code_below = { Prim.search rules };

    ghost reads_back = { Prim.search rules };

    ghost read_fits = { Prim.search rules };

    ghost writes_back = { Prim.search rules };
}
