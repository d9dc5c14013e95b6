//! What a repair of a cache would keep, as it is asked for (`cache_repair --dry-run`).

ghost use Rattle.std.specs.Prelude.{◌≡◌, ◌⊎◌, ◌≤◌, IfOk, IfSome};
ghost use Rattle.pd_image.specs.Device.{IsAttached, OnlyReads};
ghost use Rattle.pd_salvage.specs.Saved.{CountsSalvage};
ghost use Rattle.pd_kept.specs.KeptCache.{cache_text, text_from};

use crate::cache_lines::put_kept_cache;
use pd_answers::CacheRoots;
use pd_image::{Device, Sink};
use pd_kinds::CacheSuper;
use pd_query::{Query, QueryFault};
use pd_repair::{KeptCache, kept_by_cache_repair, sound_cache_super};
use pd_salvage::SalvageFault;
use pd_salvage_cache::{FullerRoot, fuller_roots};
use std::alloc::Global;

/// What a repair of a cache would keep with these roots, as it is asked for. It is asked of a cache whose superblock has no
/// faults, whatever is damaged behind it.
#[derive(Clone, Copy, Debug, PartialEq, Eq)]
pub struct KeptOfCache {
    /// The roots in place of the superblock's.
    pub named: CacheRoots,
}

/// What would be kept, and the roots of fuller mapping arrays: 24 bytes each, at most 100.
#[derive(Drop)]
pub struct KeptWithRoots {
    pub(crate) kept: KeptCache,
    pub(crate) roots: Vec<FullerRoot>,
}

impl Query for KeptOfCache {
    ghost use Rattle.std.specs.Prelude.{◌≡◌, [], IfSome};
    ghost use Rattle.pd_kinds.specs.declared.kind.Kind.TheVariants.{Cache};
    ghost use Rattle.pd_kinds.specs.declared.kind.Stage.TheVariants.{Super};
    ghost use Rattle.pd_kinds.specs.Stages.{faults};
    ghost use Rattle.pd_answers.specs.KeptCache.{kept_cache_text};
    ghost use Rattle.pd_kept.specs.KeptCache.{cache_text};

    type Started = KeptWithRoots;

    ghost kind = { Cache };

    ghost stage = { Super };

    ghost answer = { λ query image. kept_cache_text query.named image };

    ghost IsOver = { λ query told held. IfSome held (λ image. faults Cache Super image ≡ [] → cache_text told ≡ kept_cache_text query.named image) };

    fn start<D: Device>(&self, alloc: Global, dev: &mut D) -> Result<KeptWithRoots, QueryFault> {
        let found = match sound_cache_super(dev) {
            Ok(found) => found,
            Err(_) => return Err(QueryFault::Device),
        };
        match found {
            Some(s) => match kept_from(alloc, dev, &self.named.over(&s)) {
                Ok(told) => Ok(told),
                Err(SalvageFault::Memory) => Err(QueryFault::Memory),
                Err(SalvageFault::Device) => Err(QueryFault::Device),
            },
            None => Ok(nothing_kept(alloc)),
        }
    }

    fn put<D: Device, K: Sink>(
        &self,
        alloc: Global,
        started: KeptWithRoots,
        dev: &mut D,
        out: &mut K,
    ) -> Result<(), QueryFault> {
        match put_kept_cache(&started, out) {
            Ok(()) => Ok(()),
            Err(_) => Err(QueryFault::Sink),
        }
    }
}

/// What would be kept of the cache with this superblock, and the roots to choose from.
fn kept_from<D: Device>(
    alloc: Global,
    dev: &mut D,
    s: &CacheSuper,
) -> Result<KeptWithRoots, SalvageFault>
    requires attached { IsAttached (D.state dev.old) }
    requires within { s.now.meta_map.blocks ≤ (D.state dev.old).blocks }
    requires hints { (s.now.hint_size ≡ 0) ⊎ (s.now.hint_size ≡ 4) }
    ensures told { IfOk result (λ told. IfSome (D.state dev.old).held (λ image. cache_text told ≡ text_from s.now image)) }
    ensures kept { OnlyReads (D.state dev.old) (D.state dev.new) }
    ensures faults { CountsSalvage result (D.state dev.old).faults (D.state dev.new).faults }
{
    let kept = kept_by_cache_repair(alloc, dev, s)?;
    let roots = fuller_roots(alloc, dev, s)?;
    Ok(KeptWithRoots { kept, roots })
}

/// What is told of a superblock that breaks rules, which isn't asked.
fn nothing_kept(alloc: Global) -> KeptWithRoots {
    KeptWithRoots {
        kept: KeptCache {
            entries: 0,
            blocks: 0,
            dirty: 0,
            unknown: 0,
        },
        roots: Vec::new(alloc),
    }
}
