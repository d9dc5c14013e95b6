//! The roles of a cache's metadata blocks ("drivers/md/dm-cache-metadata.c").

/// The superblock.
pub const SUPER: u8 = 0;

/// A node of the mapping array's tree.
pub const MAPPING_NODE: u8 = 1;

/// A block of the mapping array.
pub const MAPPING_BLOCK: u8 = 2;

/// A node of the tree of the array of hints.
pub const HINT_NODE: u8 = 3;

/// A block of the array of hints.
pub const HINT_BLOCK: u8 = 4;

/// A node of the tree of the bits of discarded blocks.
pub const DISCARD_NODE: u8 = 5;

/// A block of the bits of discarded blocks.
pub const DISCARD_BLOCK: u8 = 6;

/// The index block of the metadata bitmaps.
pub const META_INDEX: u8 = 7;

/// A bitmap of metadata blocks.
pub const META_BITMAP: u8 = 8;

/// A node of the metadata blocks' counts of three and more.
pub const META_OVERFLOW: u8 = 9;

/// A node of the tree of the dirty bits, which version 2 has.
pub const DIRTY_NODE: u8 = 10;

/// A block of the dirty bits.
pub const DIRTY_BLOCK: u8 = 11;

/// How many roles there are.
pub const ROLES: u8 = 12;
