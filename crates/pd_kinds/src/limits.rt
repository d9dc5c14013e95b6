//! How many blocks metadata has at the most.

ghost use Rattle.std.specs.Prelude.{◌≡◌};
ghost use Rattle.pd_kinds.specs.Bitmap.{bitmaps_for};
ghost use Rattle.pd_kinds.specs.Image.{is_meta_size_bad};

/// How many reference counts of two bits a bitmap has ("drivers/md/persistent-data/dm-space-map-common.h").
pub const BITMAP_COUNTS: u64 = 16320;

/// The greatest number of metadata blocks that is used: 255 bitmaps of 16320 counts, which is what one index
/// block names ("drivers/md/persistent-data/dm-space-map-metadata.h").
pub const MAX_META_BLOCKS: u64 = 4161600;

/// How many bitmaps so many blocks have.
pub fn bitmaps_for(blocks: u64) -> u64
    ensures { result ≡ bitmaps_for blocks }
{
    blocks.div_ceil(BITMAP_COUNTS)
}

/// Whether a number of metadata blocks is out of range: none, more than the device has, or more than
/// `MAX_META_BLOCKS`.
pub fn is_meta_size_bad(device_blocks: u64, nr: u64) -> bool
    ensures { result ≡ is_meta_size_bad device_blocks nr }
{
    (nr == 0) | (nr > device_blocks) | (nr > MAX_META_BLOCKS)
}
