//! How a plan is made (`cache_writeback`).

ghost use Rattle.std.specs.Prelude.{◌≡◌, ◌≤◌, IfOk, IfSome};
ghost use Rattle.pd_kinds.specs.Graph.{block_at};
ghost use Rattle.pd_kinds.specs.Image.{room_of};
ghost use Rattle.pd_answers.specs.Writebacks.{is_block_size_bad, fast_need, origin_need};
ghost use Rattle.pd_image.specs.Device.{IsAttached, OnlyReads};
ghost use Rattle.pd_meaning_cache.specs.Rows.{rows_below};
ghost use Rattle.pd_writeback.specs.Plan.{CountsMeta, cached_all, hot_rows, is_clean};
ghost use Rattle.pd_writeback.specs.Room.{ArePlaces, dirty_root, places_named, tree_names, LooksAtRoom};
ghost use Rattle.pd_writeback.specs.declared.making.WriteFault.TheVariants.{Memory};

use crate::hot::{HotBlock, find_hot};
use crate::places::find_places;
use pd_image::Device;
use pd_kinds::{Block, CacheSuper};
use std::alloc::{AllocError, AllocFailed, Global};

/// Block 0 of the metadata.
pub(crate) fn read_super<A: Device>(alloc: Global, meta: &mut A) -> Result<Box<Block>, WriteFault>
    requires attached { IsAttached (A.state meta.old) }
    requires some { 1 ≤ (A.state meta.old).blocks }
    ensures bytes { IfOk result (λ block. IfSome (A.state meta.old).held (λ image. block.value.0 ≡ block_at image 0)) }
    ensures kept { OnlyReads (A.state meta.old) (A.state meta.new) }
    ensures faults { CountsMeta result (A.state meta.old).faults (A.state meta.new).faults }
{
    let mut block = Box::new(alloc, Block::zeros())?;
    match meta.read(0, &mut block) {
        Ok(()) => Ok(block),
        Err(_) => Err(WriteFault::Meta),
    }
}

/// Whether a block size in sectors of 512 bytes is no number of whole blocks of 4096 bytes.
pub(crate) fn is_block_size_bad(block_size: u32) -> bool
    ensures { result ≡ is_block_size_bad block_size }
{
    (block_size == 0) | (block_size % 8 != 0)
}

/// The hot blocks of the cache with this superblock, by ascending block of the cache, and the blocks that say what is
/// dirty.
pub(crate) fn find_dirty<A: Device>(
    alloc: Global,
    s: &CacheSuper,
    meta: &mut A,
) -> Result<(Vec<HotBlock>, Vec<u64>), WriteFault>
    requires { IsAttached (A.state meta.old) }
    ensures hot { IfOk result (λ found. IfSome (A.state meta.old).held
        (λ image. cached_all found.0.items ≡ hot_rows (is_clean s.now) (rows_below image s.now))) }
    ensures named { IfOk result (λ found. IfSome (A.state meta.old).held
        (λ image. found.1.items ≡ places_named (room_of (A.state meta.old).blocks) (tree_names image (dirty_root s.now)))) }
    ensures places { IfOk result (λ found. ArePlaces (A.state meta.old).blocks found.1.items) }
    ensures kept { OnlyReads (A.state meta.old) (A.state meta.new) }
    ensures faults { CountsMeta result (A.state meta.old).faults (A.state meta.new).faults }
{
    let hot = find_hot(alloc, s, meta)?;
    let places = find_places(alloc, dirty_root(s), meta)?;
    Ok((hot, places))
}

/// The root of the tree whose entries name the blocks that say what is dirty.
fn dirty_root(s: &CacheSuper) -> u64
    ensures { result ≡ dirty_root s.now }
{
    if s.version == 2 {
        s.dirty_root
    } else {
        s.mapping_root
    }
}

// Why a writeback fails (`cache_writeback`).

/// Why a writeback fails.
#[derive(Clone, Copy, Debug, PartialEq, Eq)]
pub enum WriteFault {
    /// There wasn't enough memory.
    Memory,
    /// The metadata's device has failed.
    Meta,
    /// The origin has failed.
    Origin,
    /// The fast device has failed.
    Fast,
    /// The cache's blocks aren't whole blocks of 4096 bytes.
    BlockSize,
    /// The fast device or the origin is too small: so many blocks of 4096 bytes are needed, and there are so many.
    NoRoom { need: u128, blocks: u64 },
}

impl From<AllocError> for WriteFault {
    ghost from_gives = { λ _ fault. fault ≡ Memory };

    fn from(_error: AllocError) -> WriteFault {
        WriteFault::Memory
    }
}

impl<T: Drop> From<AllocFailed<T>> for WriteFault {
    ghost from_gives = { λ _ fault. fault ≡ Memory };

    fn from(_failed: AllocFailed<T>) -> WriteFault {
        WriteFault::Memory
    }
}

// How large the devices of a writeback must be (`cache_writeback`).

/// Looks whether the fast device has all hot blocks, and then whether the origin has at least the first block of 4096
/// bytes of each; `each` is how many of them a block of the cache has.
pub(crate) fn look_at_room(
    hot: &[HotBlock],
    each: u64,
    fast: u64,
    origin: u64,
) -> Result<(), WriteFault>
    ensures { LooksAtRoom each (cached_all hot.now) fast origin result }
{
    let need = need_of_fast(hot, each);
    if need > fast as u128 {
        return Err(WriteFault::NoRoom { need, blocks: fast });
    }
    let need = need_of_origin(hot, each);
    if need > origin as u128 {
        return Err(WriteFault::NoRoom {
            need,
            blocks: origin,
        });
    }
    Ok(())
}

/// How many blocks the fast device must have.
fn need_of_fast(hot: &[HotBlock], each: u64) -> u128
    ensures { result ≡ fast_need each (cached_all hot.now) }
{
    let mut need: u128 = 0;
    for one in hot {
        need = need.max((one.cache_block as u128 + 1) * each as u128);
    }
    need
}

/// How many blocks the origin must have.
fn need_of_origin(hot: &[HotBlock], each: u64) -> u128
    ensures { result ≡ origin_need each (cached_all hot.now) }
{
    let mut need: u128 = 0;
    for one in hot {
        need = need.max(one.origin_block as u128 * each as u128 + 1);
    }
    need
}
