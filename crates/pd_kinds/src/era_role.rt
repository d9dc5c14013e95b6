//! The roles of an era target's metadata blocks ("drivers/md/dm-era-target.c").

/// The superblock.
pub const SUPER: u8 = 0;

/// The copy of a superblock that a snapshot holds.
pub const SNAP: u8 = 1;

/// A node of the tree of archived writesets, by era.
pub const WRITESETS: u8 = 2;

/// A node of the tree of a writeset's bits.
pub const BIT_NODE: u8 = 3;

/// A block of a writeset's bits.
pub const BIT_BLOCK: u8 = 4;

/// A node of the tree of the array of eras.
pub const ERA_NODE: u8 = 5;

/// A block of the array of eras.
pub const ERA_BLOCK: u8 = 6;

/// The index block of the metadata bitmaps.
pub const META_INDEX: u8 = 7;

/// A bitmap of metadata blocks.
pub const META_BITMAP: u8 = 8;

/// A node of the metadata blocks' counts of three and more.
pub const META_OVERFLOW: u8 = 9;

/// How many roles there are.
pub const ROLES: u8 = 10;
