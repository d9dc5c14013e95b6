//! The roots of the mapping arrays of a damaged cache that are fuller than its own (`cache_repair`).

ghost use Rattle.std.specs.Prelude.{◌≡◌, ◌⊎◌, ◌≤◌, length, map, IfOk, IfSome};
ghost use Rattle.pd_image.specs.Device.{IsAttached, OnlyReads};
ghost use Rattle.pd_laid.specs.CacheRoots.{fuller_roots as the_fuller_roots, rooted_at};
ghost use Rattle.pd_laid.specs.SavedCache.{saved_cache_from};
ghost use Rattle.pd_salvage.specs.Saved.{CountsSalvage};
ghost use Rattle.pd_salvage_cache.specs.Fuller.{root_as, told_root};

use crate::candidates::{children_of, fuller_blocks};
use crate::order::{Choice, first_roots};
use crate::salvage::salvage_cache;
use pd_image::Device;
use pd_kinds::CacheSuper;
use pd_salvage::SalvageFault;
use std::alloc::Global;

/// The root of a mapping array of which more words are saved than of the one that the superblock names.
#[derive(Clone, Copy, Debug, PartialEq, Eq)]
pub struct FullerRoot {
    /// The metadata block of the root.
    pub root: u64,
    /// How many mapping words are saved: one a cache block, valid or not.
    pub words: u32,
    /// How many entries a salvage from this root keeps.
    pub entries: u64,
}

/// How many entries are kept of the cache with this superblock, where its mapping array has another root.
fn entries_from<D: Device>(
    alloc: Global,
    dev: &mut D,
    s: &CacheSuper,
    root: u64,
) -> Result<u64, SalvageFault>
    requires attached { IsAttached (D.state dev.old) }
    requires within { s.now.meta_map.blocks ≤ (D.state dev.old).blocks }
    requires hints { (s.now.hint_size ≡ 0) ⊎ (s.now.hint_size ≡ 4) }
    ensures entries { IfOk result (λ entries. IfSome (D.state dev.old).held
        (λ image. entries ≡ length (saved_cache_from (rooted_at s.now root) image).entries)) }
    ensures kept { OnlyReads (D.state dev.old) (D.state dev.new) }
    ensures faults { CountsSalvage result (D.state dev.old).faults (D.state dev.new).faults }
{
    let rooted = CacheSuper {
        mapping_root: root,
        ..*s
    };
    let saved = salvage_cache(alloc, dev, &rooted)?;
    Ok(saved.rows().len() as u64)
}

/// The roots with their entries.
fn with_entries<D: Device>(
    alloc: Global,
    dev: &mut D,
    s: &CacheSuper,
    choices: &[Choice],
) -> Result<Vec<FullerRoot>, SalvageFault>
    requires attached { IsAttached (D.state dev.old) }
    requires within { s.now.meta_map.blocks ≤ (D.state dev.old).blocks }
    requires hints { (s.now.hint_size ≡ 0) ⊎ (s.now.hint_size ≡ 4) }
    ensures roots { IfOk result (λ roots. IfSome (D.state dev.old).held
        (λ image. map root_as roots.items ≡ map (told_root s.now image) choices.now)) }
    ensures kept { OnlyReads (D.state dev.old) (D.state dev.new) }
    ensures faults { CountsSalvage result (D.state dev.old).faults (D.state dev.new).faults }
{
    let mut roots = Vec::new(alloc);
    for i in 0..choices.len() {
        let Choice { root, words } = choices[i];
        let entries = entries_from(alloc, dev, s, root)?;
        roots.push(FullerRoot {
            root,
            words,
            entries,
        })?;
    }
    Ok(roots)
}

/// The roots of mapping arrays that are fuller than that of this superblock: more of their words are saved, their trees end
/// with the last block of such an array, no word has a flag besides valid and dirty, and no other such root has them among its
/// children. More words come first, then the higher place, and there are 100 at most.
///
/// A kernel copies on write, so the arrays of earlier commits may stand whole beside a damaged one. They may name a cache
/// block that holds other data by now.
///
/// It takes 5 bytes a metadata block, the memory of two cursors over a tree, and then that of a salvage for one root after the
/// other. Each metadata block is read, and with each that is a node of a tree the tree below it.
///
/// Fails with `Device` where a read failed, and with `Memory` where that memory wasn't found.
pub fn fuller_roots<D: Device>(
    alloc: Global,
    dev: &mut D,
    s: &CacheSuper,
) -> Result<Vec<FullerRoot>, SalvageFault>
    requires attached { IsAttached (D.state dev.old) }
    requires within { s.now.meta_map.blocks ≤ (D.state dev.old).blocks }
    requires hints { (s.now.hint_size ≡ 0) ⊎ (s.now.hint_size ≡ 4) }
    ensures roots { IfOk result (λ roots. IfSome (D.state dev.old).held
        (λ image. map root_as roots.items ≡ the_fuller_roots s.now image)) }
    ensures kept { OnlyReads (D.state dev.old) (D.state dev.new) }
    ensures faults { CountsSalvage result (D.state dev.old).faults (D.state dev.new).faults }
{
    let words = fuller_blocks(alloc, dev, s)?;
    let children = children_of(alloc, dev, &words)?;
    let choices = first_roots(alloc, &words, &children)?;
    with_entries(alloc, dev, s, &choices)
}
