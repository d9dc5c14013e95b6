//! The root of a space map, as a superblock holds it.
//! The fields of a thin pool's superblock.
//! The fields of a cache's superblock.
//! The fields of an era target's superblock.
//! The blocks that a superblock names.

ghost use Rattle.std.specs.Prelude.{◌≡◌, ◌+◌, ◌<◌, ◌≤◌, ◌++◌, ◌∷◌, [], List, Some, length, slice_get};
ghost use Rattle.pd_kinds.specs.Graph.{Edge, edge_of, has_edge_outside, optional_edge};

use crate::block::is_outside;
use std::marker::Model;

/// The root of a space map, as struct disk_sm_root of
/// "drivers/md/persistent-data/dm-space-map-common.h".
#[derive(Clone, Copy, Debug, PartialEq, Eq)]
pub struct SmRoot {
    /// How many blocks have a count.
    pub blocks: u64,
    /// How many of them have a count above 0.
    pub allocated: u64,
    /// The block of the index: a tree for data, an index block for metadata.
    pub bitmap_root: u64,
    /// The root of the tree of the counts of 3 and more.
    pub overflow_root: u64,
}

/// The superblock of a thin pool, as struct thin_disk_superblock of "drivers/md/dm-thin-metadata.c",
/// but for the checksum, the place and the magic.
#[derive(Clone, Copy, Debug, PartialEq, Eq)]
pub struct ThinSuper {
    /// Bit 0 is "needs check".
    pub flags: u32,
    /// The pool's identifier, which the kernel doesn't use.
    pub uuid: [u8; 16],
    /// 2 is the only version that is known.
    pub version: u32,
    /// The pool's snapshot count: mappings older than a device's last snapshot are shared.
    pub time: u32,
    /// The transaction id: the number by which user space tells its changes of the pool apart.
    pub transaction: u64,
    /// The block of the held superblock copy; 0 means none.
    pub held_root: u64,
    /// The space map of the data device.
    pub data_map: SmRoot,
    /// The space map of the metadata device.
    pub meta_map: SmRoot,
    /// The block of the root of the tree of the devices' mappings.
    pub mapping_root: u64,
    /// The block of the root of the tree of the devices' details.
    pub details_root: u64,
    /// The size of a data block in sectors of 512 bytes.
    pub block_size: u32,
    /// The size of a metadata block in sectors of 512 bytes.
    pub meta_block_size: u32,
    /// The number of metadata blocks that the pool was given. No rule looks at it.
    pub meta_blocks: u64,
    /// The feature set that any reader may ignore.
    pub compat: u32,
    /// The feature set that a reader may ignore, but not a writer.
    pub compat_ro: u32,
    /// The feature set that a reader has to know; none is known.
    pub incompat: u32,
}

/// The superblock of a cache's metadata, version 1 or 2, as struct cache_disk_superblock of
/// "drivers/md/dm-cache-metadata.c", but for the checksum, the place and the magic.
#[derive(Clone, Copy, Debug, PartialEq, Eq)]
pub struct CacheSuper {
    /// Bit 0 is "clean shutdown", bit 1 "needs check".
    pub flags: u32,
    /// The cache's identifier, which the kernel doesn't use.
    pub uuid: [u8; 16],
    /// 1 or 2; no other version is known.
    pub version: u32,
    /// The name of the policy, with zeros behind it.
    pub policy: [u8; 16],
    /// The size of a hint in bytes, 0 or 4.
    pub hint_size: u32,
    /// The space map of the metadata device.
    pub meta_map: SmRoot,
    /// The block of the root of the tree of the mapping array.
    pub mapping_root: u64,
    /// The block of the root of the tree of the hint array; 0 means none.
    pub hint_root: u64,
    /// The block of the root of the tree of the discard bitset; 0 means none.
    pub discard_root: u64,
    /// The size of what a bit of the discard bitset stands for, in sectors of 512 bytes.
    pub discard_size: u64,
    /// The number of bits of the discard bitset.
    pub discard_blocks: u64,
    /// The size of a cache block in sectors of 512 bytes.
    pub block_size: u32,
    /// The size of a metadata block in sectors of 512 bytes.
    pub meta_block_size: u32,
    /// The number of cache blocks.
    pub blocks: u32,
    /// The feature set that any reader may ignore.
    pub compat: u32,
    /// The feature set that a reader may ignore, but not a writer.
    pub compat_ro: u32,
    /// The feature set that a reader has to know; none is known.
    pub incompat: u32,
    /// Reads that found their block in the cache.
    pub read_hits: u32,
    /// Reads that didn't.
    pub read_misses: u32,
    /// Writes that found their block in the cache.
    pub write_hits: u32,
    /// Writes that didn't.
    pub write_misses: u32,
    /// The version of the policy, in three parts.
    pub versions: [u32; 3],
    /// The block of the root of the tree of the dirty bitset, in version 2 alone; 0 in any other.
    pub dirty_root: u64,
}

/// The superblock of an era target's metadata, as struct superblock_disk of "drivers/md/dm-era-target.c",
/// but for the checksum, the place and the magic.
#[derive(Clone, Copy, Debug, PartialEq, Eq)]
pub struct EraSuper {
    /// No bit has a meaning.
    pub flags: u32,
    /// The target's identifier, which the kernel doesn't use.
    pub uuid: [u8; 16],
    /// 1 is the only version that is known.
    pub version: u32,
    /// The space map of the metadata device.
    pub meta_map: SmRoot,
    /// The size of a block in sectors of 512 bytes.
    pub block_size: u32,
    /// The size of a metadata block in sectors of 512 bytes.
    pub meta_block_size: u32,
    /// The number of blocks.
    pub blocks: u32,
    /// The current era.
    pub era: u32,
    /// The number of bits of the current writeset.
    pub current_bits: u32,
    /// The block of the root of the tree of its bits; 0 means no current writeset.
    pub current_root: u64,
    /// The block of the root of the tree of the archived writesets.
    pub writesets_root: u64,
    /// The block of the root of the tree of the era array.
    pub array_root: u64,
    /// The block of the metadata snapshot; 0 means none.
    pub snap_root: u64,
}

/// The blocks that a superblock names, with their roles: at most eight.
#[derive(Drop)]
pub struct Edges {
    /// The last one first.
    items: [(u8, u64); 8],
    count: usize,
}

impl Model for Edges {
    ghost use Rattle.std.specs.Prelude.{◌≡◌, ◌≤◌, List, length};
    ghost use Rattle.pd_kinds.specs.Graph.{Edge};
    ghost use Rattle.pd_kinds.specs.Edges.{edges_down};

    ghost Value = { List Edge };

    ghost view = { λ e. edges_down e.items e.count };

    ghost invariant = { λ e. (e.count ≤ 8) × (length e.items ≡ 8) };
}

impl Edges {
    /// No block.
    pub fn none() -> Edges
        ensures { result ≡ [] }
    {
        Edges {
            items: [(0, 0); 8],
            count: 0,
        }
    }

    /// These, and a block before them.
    pub fn with(mut self, role: u8, block: u64) -> Edges
        requires { length self < 8 }
        ensures { result ≡ edge_of role block ∷ self }
    {
        self.items[self.count] = (role, block);
        self.count += 1;
        self
    }

    /// These, and a block before them that 0 leaves out.
    pub fn with_optional(self, role: u8, block: u64) -> Edges
        requires { length self < 8 }
        ensures edges { result ≡ optional_edge role block ++ self }
        ensures few { length result ≤ length self + 1 }
    {
        if block == 0 {
            self
        } else {
            self.with(role, block)
        }
    }

    /// How many there are.
    pub fn len(&self) -> usize
        ensures { result ≡ length self.now }
    {
        self.count
    }

    /// The role and the number of block `i`, from 0.
    pub fn get(&self, i: usize) -> (u8, u64)
        requires { i < length self.now }
        ensures { slice_get self.now i ≡ Some (edge_of result.0 result.1) }
    {
        self.items[self.count - 1 - i]
    }

    /// Whether one of them isn't from 1 to `nr - 1`.
    pub fn any_outside(&self, nr: u64) -> bool
        ensures { result ≡ has_edge_outside nr self.now }
    {
        let mut outside = false;
        let count = self.len();
        for i in 0..count {
            let (_, block) = self.get(i);
            outside |= is_outside(nr, block);
        }
        outside
    }
}
