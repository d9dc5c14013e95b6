//! The era of each block, in one list (`era_dump`, `era_invalidate`).

ghost use Rattle.std.specs.Prelude.{◌≡◌, [], length, IfOk, IfSome, drop, map, slice_index, OnOk, ℕ, List};
ghost use Rattle.std.specs.List.{range_with_len};
ghost use Rattle.pd_kinds.specs.declared.kind.Kind.TheVariants.{Era};
ghost use Rattle.pd_kinds.specs.declared.kind.Stage.TheVariants.{Whole};
ghost use Rattle.pd_kinds.specs.CheckFault.{CountsCheckFault};
ghost use Rattle.pd_kinds.specs.EraFormat.{era_fields};
ghost use Rattle.pd_kinds.specs.Graph.{block_at};
ghost use Rattle.pd_kinds.specs.Meaning.{era_meaning};
ghost use Rattle.pd_kinds.specs.Stages.{faults};
ghost use Rattle.pd_image.specs.Device.{IsAttached, OnlyReads};
ghost use Rattle.pd_meaning_era.specs.EraWords.{era_words};
ghost use Rattle.pd_meaning_era.specs.Eras.{eras_below, GivesEras};

use crate::era_words::{EraWords, take_words};
use crate::notes::Row;
use crate::part::raise_part;
use crate::rows::rows_of;
use pd_image::Device;
use pd_kinds::{CheckFault, EraSuper, trees_are_in_order};
use pd_tree::{
    array_cursors_give_words, cursors_give_entries, entries_lead_to_reached_pairs,
    formats_have_trees, reached_trees_are_sound, superblocks_lead_to_reached_roots,
};
use pd_value::Writeset;
use std::alloc::Global;

/// The era of each block of the target with this superblock, by ascending block, from block 0.
///
/// It takes four bytes a block beside what `Eras` takes, which gives the same eras in parts and reads as often. What it gives is
/// said over the bytes of any image that the device tells: in an image without faults up to the stage Whole, whose superblock
/// this is, these are the eras of its meaning. Over any device and superblock it is safe: a root outside of the device is that
/// of an empty tree or array, and a key past the end of an era's type counts as the last era.
///
/// Fails with `CheckFault::Memory` where memory wasn't found, and with `CheckFault::Device` where a read failed.
pub fn era_list<D: Device>(alloc: Global, dev: &mut D, s: &EraSuper) -> Result<Vec<u32>, CheckFault>
    requires attached { IsAttached (D.state dev.old) }
    ensures eras { IfOk result (λ eras. IfSome (D.state dev.old).held (λ image. eras.items ≡ eras_below image s.now)) }
    ensures meaning { IfOk result (λ eras. IfSome (D.state dev.old).held
        (λ image. faults Era Whole image ≡ [] → s.now ≡ era_fields (block_at image 0)
        → eras.items ≡ (era_meaning image).eras)) }
    ensures number { IfOk result (λ eras. length eras.items ≡ s.now.blocks) }
    ensures kept { OnlyReads (D.state dev.old) (D.state dev.new) }
    ensures faults { CountsCheckFault result (D.state dev.old).faults (D.state dev.new).faults }
{
    lists_are_the_eras();
    let mut left = Eras::start(alloc, dev, s)?;
    let mut eras = Vec::with_capacity(alloc, s.blocks as usize)?;
    while left.next(dev)? {
        eras.extend_from_slice(left.part())?;
    }
    Ok(eras)
}

// The words of a part (`era_dump`, `era_invalidate`).

/// Makes the next words, so many, the part; those past the array's end are 0.
pub(crate) fn fill_part<D: Device>(
    words: &mut EraWords,
    dev: &mut D,
    part: &mut Vec<u32>,
    count: u32,
) -> Result<(), CheckFault>
    requires attached { IsAttached (D.state dev.old) }
    ensures words { OnOk result (IfSome (D.state dev.old).held
        (λ image. part.new.items ≡ map (slice_index (era_words image words.old)) (range_with_len 0 count))) }
    ensures left { OnOk result (IfSome (D.state dev.old).held
        (λ image. era_words image words.new ≡ drop count (era_words image words.old))) }
    ensures number { OnOk result (length part.new.items ≡ count) }
    ensures kept { OnlyReads (D.state dev.old) (D.state dev.new) }
    ensures faults { CountsCheckFault result (D.state dev.old).faults (D.state dev.new).faults }
{
    part.clear();
    take_words(words, dev, part, count as usize)?;
    part.resize(count as usize, 0)?;
    Ok(())
}

// The eras of the blocks, part by part (`era_dump`, `era_invalidate`).

/// The most blocks of a part, a multiple of 64.
const PART_BLOCKS: u64 = 1 << 20;

/// The number of bits in a word.
const WORD_BITS: u64 = 64;

/// The eras of a target's blocks, part by part, by ascending block from block 0.
///
/// Between the parts it takes 24 bytes for each array block of the writesets at each place in their arrays, and the memory
/// of a cursor. The part takes four bytes and a bit a block, of which it has at most 2^20.
#[derive(Drop)]
pub struct Eras {
    /// The number of the target's blocks.
    blocks: u32,
    /// The number of the next part's first word of 64 bits: 64 blocks a word.
    next: u32,
    words: EraWords,
    rows: Vec<Row>,
    part: Vec<u32>,
    /// A bit for each block of the part.
    taken: Vec<u64>,
}

impl Eras {
    ghost use Rattle.std.specs.Prelude.{◌≡◌, map, IfOk, IfSome};
    ghost use Rattle.pd_kinds.specs.CheckFault.{CountsCheckFault};
    ghost use Rattle.pd_image.specs.Device.{IsAttached, OnlyReads};
    ghost use Rattle.pd_meaning_era.specs.Eras.{eras_below, from_era};
    ghost use Rattle.pd_meaning_era.specs.Parts.{CountsPart, TakesPart, blocks_left, eras_left};

    /// The eras of the target with this superblock, before its first block.
    ///
    /// The trees of the writesets are read, the latest era first. A node or an array block is read once, however many
    /// writesets share it, where it stands at one place in their arrays and at one height. It is read again for a writeset of
    /// a later era than the one before, or of more blocks. That takes 16 bytes a block of the device meanwhile, and 24 bytes
    /// an archived writeset. A root or a block outside of the device has no words.
    ///
    /// Fails with `CheckFault::Memory` where memory wasn't found, and with `CheckFault::Device` where a read failed.
    pub fn start<D: Device>(alloc: Global, dev: &mut D, s: &EraSuper) -> Result<Eras, CheckFault>
        requires attached { IsAttached (D.state dev.old) }
        ensures left { IfOk result (λ eras. IfSome (D.state dev.old).held (λ image. eras_left image eras ≡ eras_below image s.now)) }
        ensures number { IfOk result (λ eras. blocks_left eras ≡ s.now.blocks) }
        ensures kept { OnlyReads (D.state dev.old) (D.state dev.new) }
        ensures faults { CountsCheckFault result (D.state dev.old).faults (D.state dev.new).faults }
    {
        let eras = Eras::since(alloc, dev, s, 0)?;
        Ok(eras)
    }

    /// The eras of the target with this superblock from this era on, before its first block. Of another era it is said only that
    /// it is an earlier one.
    ///
    /// It reads as `start` does, but for the trees of writesets of earlier eras. It fails as that does.
    #[tactic(auto, unfolding(crate::specs::Parts::blocks_left))]
    pub fn since<D: Device>(
        alloc: Global,
        dev: &mut D,
        s: &EraSuper,
        least: u32,
    ) -> Result<Eras, CheckFault>
        requires attached { IsAttached (D.state dev.old) }
        ensures left { IfOk result (λ eras. IfSome (D.state dev.old).held
            (λ image. map (from_era least) (eras_left image eras) ≡ map (from_era least) (eras_below image s.now))) }
        ensures number { IfOk result (λ eras. blocks_left eras ≡ s.now.blocks) }
        ensures kept { OnlyReads (D.state dev.old) (D.state dev.new) }
        ensures faults { CountsCheckFault result (D.state dev.old).faults (D.state dev.new).faults }
    {
        let rows = rows_of(alloc, dev, s, least)?;
        let words = EraWords::start(alloc, s.array_root)?;
        Ok(Eras {
            blocks: s.blocks,
            next: 0,
            words,
            rows,
            part: Vec::new(alloc),
            taken: Vec::new(alloc),
        })
    }

    /// Makes the eras of the next blocks the part, at most 2^20, and tells whether there were any.
    ///
    /// Where a writeset's array block may have bits of these blocks, it is read once, however many writesets share it. Fails
    /// with `CheckFault::Memory` where memory wasn't found, and with `CheckFault::Device` where a read failed; then nothing is
    /// said of what is left.
    #[tactic(auto, unfolding(crate::specs::Parts::blocks_left))]
    pub fn next<D: Device>(&mut self, dev: &mut D) -> Result<bool, CheckFault>
        requires attached { IsAttached (D.state dev.old) }
        ensures next { IfOk result (λ more. IfSome (D.state dev.old).held (λ image. TakesPart image more self.old self.new)) }
        ensures number { IfOk result (λ more. CountsPart more self.old self.new) }
        ensures kept { OnlyReads (D.state dev.old) (D.state dev.new) }
        ensures faults { CountsCheckFault result (D.state dev.old).faults (D.state dev.new).faults }
    {
        let left = u64::from(self.blocks).saturating_sub(WORD_BITS * u64::from(self.next));
        let count = left.min(PART_BLOCKS);
        if count == 0 {
            return Ok(false);
        }
        fill_part(&mut self.words, dev, &mut self.part, count as u32)?;
        let rows = self.rows.as_slice();
        raise_part(rows, self.next, dev, &mut self.part, &mut self.taken)?;
        self.next += count.div_ceil(WORD_BITS) as u32;
        Ok(true)
    }

    /// The eras of the part that was taken last, by ascending block.
    pub fn part(&self) -> &[u32]
        ensures { result.now ≡ self.now.part.items }
    {
        self.part.as_slice()
    }
}

// What the list over bytes comes to for an era target without faults: the eras of its meaning.
// Serves `era_dump`, `era_invalidate`.

/// In an era target without faults up to the stage Whole, the list is that of the eras of its meaning, and the roots
/// that the superblock names are in the image.
pub fn lists_are_the_eras()
    ensures { (image : List (List ℕ)) → faults Era Whole image ≡ [] → GivesEras image }
{
    trees_are_in_order();
    formats_have_trees();
    superblocks_lead_to_reached_roots();
    reached_trees_are_sound();
    entries_lead_to_reached_pairs();
    array_cursors_give_words();
    cursors_give_entries::<Writeset>();
}
