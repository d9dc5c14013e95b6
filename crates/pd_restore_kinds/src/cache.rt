//! A cache that is restored from its text (`cache_restore`).

ghost use Rattle.std.specs.Prelude.{◌≡◌, ◌⊎◌, ℕ, List, Some, [], IfNone, IfOk, IfSome, MatchResult};
ghost use Rattle.pd_kinds.specs.Meaning.{CacheMeaning};
ghost use Rattle.pd_grammar.specs.CacheText.{IsCacheVerdict, Line, cache, cache_line, cache_single};
ghost use Rattle.pd_grammar.specs.Early.{is_cache_early};
ghost use Rattle.pd_grammar.specs.Lawful.{IsLawfulCache};
ghost use Rattle.pd_laid.specs.LaidCache.{laid_cache};
ghost use Rattle.pd_image.specs.Device.{IsWritable, KeepsPlace};
ghost use Rattle.pd_image.specs.Source.{KeepsSource};
ghost use Rattle.pd_texts.specs.Reader.{LeavesOf, ReadsOn};
ghost use Rattle.pd_texts_kinds.specs.CacheLine.{cache_meant, CacheStands};
ghost use Rattle.pd_restoring.specs.Restored.{CountsRestore, IsRestored};
ghost use Rattle.pd_restoring.specs.Reading.{BeginsOf, CountsBegin};
ghost use Rattle.pd_restore_kinds.specs.Caches.{HasBegun, IsOfCache, IsSmall};
ghost use Rattle.pd_restore_kinds.specs.CacheReading.{begun_lines, head_of_cache};

use crate::cache_words::need_cache;
use crate::cache_writing::write_cache;
use pd_draft::Draft;
use pd_grammar::TextCause;
use pd_image::{Device, Source};
use pd_kinds::Block;
use pd_restoring::{RestoreFault, Restoring, restore};
use pd_salvage_cache::CacheHead;
use pd_texts::TextFault;
use pd_texts_kinds::{CacheLine, CacheText};
use std::alloc::Global;

/// Restores a cache from its text onto a device, in this version of the metadata, which is 1 or 2.
///
/// The device isn't written before the first two lines were accepted and have room. A line that has the origin of an
/// earlier one is refused. Of the blocks of the device 4161600 at most are used. It holds the entries, and while it looks
/// for an origin that repeats, once they are read, the origins with their places.
pub fn restore_cache<S: Source, D: Device>(
    alloc: Global,
    source: &mut S,
    dev: &mut D,
    version: u32,
) -> Result<(), RestoreFault>
    requires attached { (S.state source.old).access ≡ 1 }
    requires writable { IsWritable (D.state dev.old) }
    requires known { (version ≡ 1) ⊎ (version ≡ 2) }
    ensures restored { IsRestored IsLawfulCache (IsCacheVerdict version) (is_cache_early version)
        (λ (m : CacheMeaning) (room : ℕ). laid_cache m version room)
        result (S.state source.old) (S.state source.new) (D.state dev.old) (D.state dev.new) }
    ensures place { KeepsPlace (D.state dev.old) (D.state dev.new) }
    ensures source { KeepsSource (S.state source.old) (S.state source.new) }
    ensures causes { CountsRestore result (S.state source.old).faults
        (S.state source.new).faults (D.state dev.old).faults (D.state dev.new).faults }
{
    restore(&CacheVersion { version }, alloc, source, dev)
}

/// Caches in a version of the metadata.
#[derive(Clone, Copy, Debug, PartialEq, Eq)]
pub(crate) struct CacheVersion {
    pub(crate) version: u32,
}

impl Restoring for CacheVersion {
    ghost use Rattle.pd_kinds.specs.Meaning.{CacheMeaning};
    ghost use Rattle.pd_grammar.specs.CacheText.{Line};
    ghost use Rattle.pd_restore_kinds.specs.Caches.{HasBegun};
    ghost use Rattle.pd_restore_kinds.specs.Caches.{caches, lines_of_begun, CacheLeaves, cache_verdicts, cache_goes_on};

    type Begun = Begun;

    ghost Line = { Line };

    ghost Meaning = { CacheMeaning };

    ghost subject = { λ kind. caches kind.version };

    ghost lines = { lines_of_begun };

    ghost Stands = { HasBegun };

    ghost Leaves = { CacheLeaves };

    ghost verdicts = { λ kind. cache_verdicts kind.version };

    ghost goes_on = { λ kind. cache_goes_on };

    fn begin<S: Source>(&self, alloc: Global, source: &mut S) -> Result<Begun, RestoreFault> {
        begin(alloc, source)
    }

    fn need(&self, begun: &Begun, room: u64) -> u64 {
        need_cache(
            self.version,
            begun.cache.blocks,
            begun.cache.hint_size,
            room,
        )
    }

    fn write<S: Source, D: Device>(
        &self,
        alloc: Global,
        begun: Begun,
        source: &mut S,
        draft: &mut Draft<'_, D>,
        room: u64,
    ) -> Result<Block, RestoreFault> {
        write_cache(alloc, begun, source, draft, self.version, room)
    }
}

// The first two lines of a cache's text (`cache_restore`, `cache_repair`).

/// A reader of a cache's text, with what the cache line says.
#[derive(Drop)]
pub(crate) struct Begun {
    pub(crate) text: CacheText,
    pub(crate) cache: CacheHead,
}

/// Reads the first line and the cache line.
pub(crate) fn begin<S: Source>(alloc: Global, source: &mut S) -> Result<Begun, RestoreFault>
    requires attached { (S.state source.old).access ≡ 1 }
    ensures stands { IfOk result HasBegun }
    ensures told { (t : List ℕ) → (S.state source.old).left ≡ Some t
        → MatchResult result (λ begun. LeavesOf cache_single t (begun_lines begun.cache) begun.text (S.state source.new).left)
        (λ fault. (need : ℕ → List Line → ℕ) (room : ℕ) → BeginsOf cache need room t fault) }
    ensures source { KeepsSource (S.state source.old) (S.state source.new) }
    ensures faults { CountsBegin result (S.state source.old).faults (S.state source.new).faults }
{
    let mut text = CacheText::new(alloc)?;
    let cache = read_cache(&mut text, source)?;
    Ok(Begun { text, cache })
}

/// Reads the first two lines.
fn read_cache<S: Source>(text: &mut CacheText, source: &mut S) -> Result<CacheHead, RestoreFault>
    requires attached { (S.state source.old).access ≡ 1 }
    requires start { ReadsOn cache_single CacheStands [] text.old }
    ensures reads { IfOk result (λ c. ReadsOn cache_single CacheStands (begun_lines c) text.new) }
    ensures small { IfOk result IsSmall }
    ensures told { (t : List ℕ) → LeavesOf cache_single t [] text.old (S.state source.old).left
        → MatchResult result (λ c. LeavesOf cache_single t (begun_lines c) text.new (S.state source.new).left)
        (λ fault. (need : ℕ → List Line → ℕ) (room : ℕ) → BeginsOf cache need room t fault) }
    ensures source { KeepsSource (S.state source.old) (S.state source.new) }
    ensures faults { CountsBegin result (S.state source.old).faults (S.state source.new).faults }
{
    let line = text.next(source)?;
    match cache_of(line) {
        Some(cache) => Ok(cache),
        None => Err(RestoreFault::Text(TextFault {
            line: 2,
            cause: TextCause::Word,
        })),
    }
}

/// The cache that a line says; none where it is no cache's.
fn cache_of(line: Option<CacheLine>) -> Option<CacheHead>
    ensures line { IfSome result (λ cache. cache_meant line ≡ cache_line (head_of_cache cache)) }
    ensures small { IfSome result IsSmall }
    ensures other { IfNone result (IsOfCache line → ⊥) }
{
    match line {
        Some(
            CacheLine::Cache {
                uuid,
                block_size,
                blocks,
                clean,
                policy,
                versions,
                hint_size,
            },
        ) => Some(CacheHead {
            uuid,
            block_size,
            blocks,
            clean,
            policy,
            versions,
            hint_size,
        }),
        Some(CacheLine::Map { .. }) | None => None,
    }
}
