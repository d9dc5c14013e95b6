//! The roles of a thin pool's metadata blocks ("drivers/md/dm-thin-metadata.c").

/// The superblock.
pub const SUPER: u8 = 0;

/// The held copy of a superblock.
pub const HELD: u8 = 1;

/// A node of a mapping tree's top, by device.
pub const DEVICES: u8 = 2;

/// A node of a device's mappings, by virtual block.
pub const MAPPINGS: u8 = 3;

/// A node of the details, by device.
pub const DETAILS: u8 = 4;

/// A node of the index of the data bitmaps.
pub const DATA_INDEX: u8 = 5;

/// A bitmap of data blocks.
pub const DATA_BITMAP: u8 = 6;

/// A node of the data blocks' counts of three and more.
pub const DATA_OVERFLOW: u8 = 7;

/// The index block of the metadata bitmaps.
pub const META_INDEX: u8 = 8;

/// A bitmap of metadata blocks.
pub const META_BITMAP: u8 = 9;

/// A node of the metadata blocks' counts of three and more.
pub const META_OVERFLOW: u8 = 10;

/// How many roles there are.
pub const ROLES: u8 = 11;
