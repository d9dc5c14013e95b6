//! The superblock of a cache that is asked what a repair would keep (`cache_repair --dry-run`).

ghost use Rattle.std.specs.Prelude.{◌≡◌, ◌≢◌, [], None, IfOk, IfSome};
ghost use Rattle.pd_kinds.specs.declared.kind.Kind.TheVariants.{Cache};
ghost use Rattle.pd_kinds.specs.declared.kind.Stage.TheVariants.{Super};
ghost use Rattle.pd_kinds.specs.Objects.{CountsFault};
ghost use Rattle.pd_kinds.specs.Stages.{faults};
ghost use Rattle.pd_image.specs.Device.{IsAttached, OnlyReads};
ghost use Rattle.pd_repair.specs.CacheRepaired.{IsSoundCacheSuper};

use pd_image::{Device, Failed};
use pd_kinds::{Block, CacheSuper};
use pd_supers::{cache_super_rules, read_cache_super};

/// The superblock of a cache, or `None` where it breaks rules. Fails with `Failed` where the read failed.
pub fn sound_cache_super<D: Device>(dev: &mut D) -> Result<Option<CacheSuper>, Failed>
    requires { IsAttached (D.state dev.old) }
    ensures sound { IfOk result (λ found. IfSome found (λ s. IsSoundCacheSuper s (D.state dev.old))) }
    ensures broken { IfOk result (λ found. found ≡ None → IfSome (D.state dev.old).held (λ image. faults Cache Super image ≢ [])) }
    ensures kept { OnlyReads (D.state dev.old) (D.state dev.new) }
    ensures faults { CountsFault result (D.state dev.old).faults (D.state dev.new).faults }
{
    let blocks = dev.blocks();
    if blocks == 0 {
        return Ok(None);
    }
    let mut first = Block::zeros();
    dev.read(0, &mut first)?;
    let rules = cache_super_rules(&first, blocks);
    if rules.is_empty() {
        Ok(Some(read_cache_super(&first)))
    } else {
        Ok(None)
    }
}
