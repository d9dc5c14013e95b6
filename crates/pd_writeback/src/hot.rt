//! The cached blocks that a writeback copies (`cache_writeback`).

ghost use Rattle.std.specs.Prelude.{◌≡◌, ◌++◌, OnOk, IfOk, IfSome};
ghost use Rattle.std.specs.List.Sorted.{IsPermutation};
ghost use Rattle.pd_image.specs.Device.{IsAttached, OnlyReads};
ghost use Rattle.pd_meaning_cache.specs.Rows.{rows_below};
ghost use Rattle.pd_meaning_cache.specs.Sides.{Knows, rows_ahead};
ghost use Rattle.pd_writeback.specs.Plan.{CountsMeta, cached_all, hot_one, hot_rows, is_clean};

use crate::making::WriteFault;
use pd_image::Device;
use pd_kinds::CacheSuper;
use pd_meaning_cache::CacheRows;
use std::alloc::{AllocError, Global};

/// A cached block whose origin may be older than it.
#[derive(Clone, Copy, Debug, PartialEq, Eq)]
pub struct HotBlock {
    /// The block of the cache, from 0.
    pub(crate) cache_block: u64,
    /// The block of the origin that it stands for.
    pub(crate) origin_block: u64,
}

/// The hot blocks of the cache with this superblock, by ascending block of the cache: the dirty ones where the cache was
/// shut down, and else all.
pub(crate) fn find_hot<A: Device>(
    alloc: Global,
    s: &CacheSuper,
    meta: &mut A,
) -> Result<Vec<HotBlock>, WriteFault>
    requires attached { IsAttached (A.state meta.old) }
    ensures hot { IfOk result (λ hot. IfSome (A.state meta.old).held
        (λ image. cached_all hot.items ≡ hot_rows (is_clean s.now) (rows_below image s.now))) }
    ensures kept { OnlyReads (A.state meta.old) (A.state meta.new) }
    ensures faults { CountsMeta result (A.state meta.old).faults (A.state meta.new).faults }
{
    let mut rows = CacheRows::start(alloc, meta.blocks(), s)?;
    gather(alloc, &mut rows, s.flags % 2 == 1, meta)
}

/// The hot ones among the mappings that are left.
fn gather<A: Device>(
    alloc: Global,
    rows: &mut CacheRows,
    clean: bool,
    meta: &mut A,
) -> Result<Vec<HotBlock>, WriteFault>
    requires attached { IsAttached (A.state meta.old) }
    requires knows { IfSome (A.state meta.old).held (λ image. Knows image rows.old) }
    ensures hot { IfOk result (λ hot. IfSome (A.state meta.old).held
        (λ image. cached_all hot.items ≡ hot_rows clean (rows_ahead image rows.old))) }
    ensures kept { OnlyReads (A.state meta.old) (A.state meta.new) }
    ensures faults { CountsMeta result (A.state meta.old).faults (A.state meta.new).faults }
{
    let mut hot = Vec::new(alloc);
    loop {
        let row = match rows.next(meta) {
            Ok(row) => row,
            Err(_) => return Err(WriteFault::Meta),
        };
        match row {
            Some(row) => add_if_hot(&mut hot, row.block, row.origin, row.dirty | !clean)?,
            None => return Ok(hot),
        }
    }
}

/// Adds a block where it is hot.
fn add_if_hot(
    hot: &mut Vec<HotBlock>,
    cache_block: u64,
    origin_block: u64,
    is_hot: bool,
) -> Result<(), AllocError>
    ensures { OnOk result (cached_all hot.new.items ≡ cached_all hot.old.items ++ hot_one is_hot cache_block origin_block) }
{
    if is_hot {
        hot.push(HotBlock {
            cache_block,
            origin_block,
        })?;
    }
    Ok(())
}

/// Orders hot blocks by the origin's blocks. It takes no memory.
pub(crate) fn sort_by_origin(hot: &mut Vec<HotBlock>)
    ensures { IsPermutation hot.old.items hot.new.items }
{
    hot.sort_unstable_by_key(|one| one.origin_block);
}
