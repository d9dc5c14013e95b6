//! The memory of a cache's check (`cache_check`).

ghost use Rattle.std.specs.Prelude.{◌≤◌, IfOk};
ghost use Rattle.pd_kinds.specs.declared.limits.TheConstants.{MAX_META_BLOCKS};
ghost use Rattle.pd_cache.specs.Meeting.{IsRoomFor};

use crate::format::CacheTable;
use crate::origins::Origins;
use pd_check::ArrayMemory;
use pd_graph::{Format, Watch};
use pd_kinds::{Block, Rules};
use pd_tree::Cursor;
use pd_value::Root;
use std::alloc::{AllocError, Global};

/// The memory in which the rules of a whole cache are looked at. It learns of a walk how many words each block of its
/// arrays has.
#[derive(Drop)]
pub struct CacheMemory {
    pub(crate) arrays: ArrayMemory<CacheTable>,
    pub(crate) entries: Cursor<Root>,
    pub(crate) origins: Origins,
}

impl CacheMemory {
    /// The memory for so many metadata blocks: 329 KiB, and for each block eight bytes and address space for 5096 more,
    /// of which only what the mapping array fills is touched. Want of it is the only error.
    pub fn new(alloc: Global, nr: u64) -> Result<CacheMemory, AllocError>
        requires { nr ≤ MAX_META_BLOCKS }
        ensures { IfOk result (IsRoomFor nr) }
    {
        let arrays = ArrayMemory::new(alloc, nr)?;
        let entries = Cursor::start(alloc, 0)?;
        let origins = Origins::new(alloc, nr)?;
        Ok(CacheMemory {
            arrays,
            entries,
            origins,
        })
    }
}

impl Watch for CacheMemory {
    ghost use Rattle.pd_kinds.specs.CacheFormat.{cache_layout};
    ghost use Rattle.pd_check.specs.Arrays.{AreAllShown};
    ghost use Rattle.pd_check.specs.Arrays.{shown_same};
    ghost use Rattle.pd_cache.specs.Meeting.{HasRoom};

    ghost has_room = { HasRoom };

    ghost has_seen = { λ room graph image pairs. AreAllShown (cache_layout 0) image pairs room.arrays.marks };

    fn see<F: Format>(&mut self, format: &F, role: u8, b: u64, block: &Block, broken: &Rules) {
        self.arrays.see(format, role, b, block, broken);
    }

    ghost same = { λ room graph image pairs others same. shown_same (cache_layout 0) image pairs others room.arrays.marks same };
}
