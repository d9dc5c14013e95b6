//! The superblocks that are asked (`cache_dump`, `era_dump`, `era_invalidate`).

ghost use Rattle.std.specs.Prelude.{◌≡◌, ◌≤◌, IfOk, IfSome, length};
ghost use Rattle.pd_kinds.specs.Objects.{CountsFault};
ghost use Rattle.pd_kinds.specs.CacheFormat.{cache_fields};
ghost use Rattle.pd_kinds.specs.EraFormat.{era_fields};
ghost use Rattle.pd_kinds.specs.Graph.{block_at};
ghost use Rattle.pd_image.specs.Device.{IsAttached, OnlyReads};

use pd_image::{Device, Failed};
use pd_kinds::{Block, CacheSuper, EraSuper};
use pd_supers::{read_cache_super, read_era_super};

/// Block 0 of a device; of a device without blocks, some block.
fn read_first<D: Device>(dev: &mut D) -> Result<Block, Failed>
    requires { IsAttached (D.state dev.old) }
    ensures bytes { IfOk result (λ block. IfSome (D.state dev.old).held (λ image. 1 ≤ length image → block.0 ≡ block_at image 0)) }
    ensures kept { OnlyReads (D.state dev.old) (D.state dev.new) }
    ensures faults { CountsFault result (D.state dev.old).faults (D.state dev.new).faults }
{
    let mut block = Block::zeros();
    if dev.blocks() > 0 {
        dev.read(0, &mut block)?;
    }
    Ok(block)
}

/// The superblock of the cache on a device; of a device without blocks, some superblock.
pub(crate) fn read_cache<D: Device>(dev: &mut D) -> Result<CacheSuper, Failed>
    requires { IsAttached (D.state dev.old) }
    ensures fields { IfOk result (λ s. IfSome (D.state dev.old).held (λ image. 1 ≤ length image → s ≡ cache_fields (block_at image 0))) }
    ensures kept { OnlyReads (D.state dev.old) (D.state dev.new) }
    ensures faults { CountsFault result (D.state dev.old).faults (D.state dev.new).faults }
{
    let block = read_first(dev)?;
    Ok(read_cache_super(&block))
}

/// The superblock of the era target on a device; of a device without blocks, some superblock.
///
/// Fails with `Failed` where a read failed.
pub fn read_era<D: Device>(dev: &mut D) -> Result<EraSuper, Failed>
    requires { IsAttached (D.state dev.old) }
    ensures fields { IfOk result (λ s. IfSome (D.state dev.old).held (λ image. 1 ≤ length image → s ≡ era_fields (block_at image 0))) }
    ensures kept { OnlyReads (D.state dev.old) (D.state dev.new) }
    ensures faults { CountsFault result (D.state dev.old).faults (D.state dev.new).faults }
{
    let block = read_first(dev)?;
    Ok(read_era_super(&block))
}
