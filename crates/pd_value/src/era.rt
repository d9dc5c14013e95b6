//! The leaf value of an era target's writesets.

ghost use Rattle.std.specs.Prelude.{◌/◌, ◌%◌, ◌^◌, ◌&&◌, nat_lt};
ghost use Rattle.std.proofs.Common.{rules};
ghost use Rattle.pd_kinds.specs.Field.{writeset_code};

use crate::value::Value;
use pd_kinds::{put_u32, put_u64, u32_at, u64_at};

/// The blocks that were written in an era, struct writeset_disk of "drivers/md/dm-era-target.c".
#[derive(Clone, Copy, Debug, PartialEq, Eq)]
pub struct Writeset {
    /// The number of bits of the bitset.
    pub bits: u32,
    /// The metadata block of the bitset's root.
    pub root: u64,
}

impl Value for Writeset {
    const SIZE: usize = 12;

    ghost SIZE = { 12 };

    ghost fitting = { λ set. nat_lt set.bits (2 ^ 32) && nat_lt set.root (2 ^ 64) };

    ghost code = { λ set. writeset_code set.bits set.root };

    ghost decoded = { λ number. record { bits = number % 2 ^ 32; root = number / 2 ^ 32 } };

    fn fits(&self) -> bool {
        // Each number of these types has its place: reading it shows its range.
        let _bits = self.bits;
        let _root = self.root;
        true
    }

    fn read(bytes: &[u8]) -> Writeset {
        Writeset {
            bits: u32_at(bytes, 0),
            root: u64_at(bytes, 4),
        }
    }

    fn write(&self, bytes: &mut [u8]) {
        put_u32(bytes, 0, self.bits);
        put_u64(bytes, 4, self.root);
    }

    ghost size_least = { Prim.search rules };

    ghost size_most = { Prim.search rules };

    ghost code_below = { Prim.search rules };

    ghost reads_back = { Prim.search rules };

    ghost read_fits = { Prim.search rules };

    ghost writes_back = { Prim.search rules };
}
