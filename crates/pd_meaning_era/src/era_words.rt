//! The words of an era array, many of a block at a time (`era_dump`, `era_invalidate`).

ghost use Rattle.std.specs.Prelude.{◌≡◌, ◌+◌, ◌<◌, ◌≤◌, ◌++◌, ℕ, List, [], length, map, IfErr, IfSome, OnOk};
ghost use Rattle.std.specs.List.{range_with_len};
ghost use Rattle.pd_kinds.specs.declared.report.CheckFault.TheVariants.{Memory};
ghost use Rattle.pd_kinds.specs.Array.{word_at, word_count};
ghost use Rattle.pd_kinds.specs.CheckFault.{CountsCheckFault};
ghost use Rattle.pd_image.specs.Device.{IsAttached, OnlyReads};
ghost use Rattle.pd_meaning_era.specs.EraWords.{era_words};

use pd_array::{Word, array_len, array_word};
use pd_image::Device;
use pd_kinds::{BLOCK_SIZE, Block, CheckFault};
use pd_tree::Cursor;
use pd_value::Root;
use std::alloc::{AllocError, Global};

/// The words of an era array that are left, of four bytes each: those of a block that was read, and those of the blocks
/// behind it. A root or a block outside of the device has no words.
#[derive(Drop)]
pub(crate) struct EraWords {
    /// The entries of the array's tree, which name its blocks.
    entries: Cursor<Root>,
    block: Block,
    /// The number of its first word that wasn't taken.
    next: usize,
}

impl EraWords {
    ghost use Rattle.std.specs.Prelude.{◌≡◌, ◌+◌, ◌≤◌, ◌++◌, ℕ, List, [], length, IfErr, IfOk, IfSome, OnOk};
    ghost use Rattle.pd_kinds.specs.declared.report.CheckFault.TheVariants.{Memory};
    ghost use Rattle.pd_kinds.specs.CheckFault.{CountsCheckFault};
    ghost use Rattle.pd_kinds.specs.Graph.{block_at};
    ghost use Rattle.pd_image.specs.Device.{IsAttached, OnlyReads};
    ghost use Rattle.pd_tree.specs.Cursor.{words_from};
    ghost use Rattle.pd_meaning_era.specs.Eras.{words_below};
    ghost use Rattle.pd_meaning_era.specs.EraWords.{era_words};

    /// The words of the array with this root. Want of memory is the only error.
    pub(crate) fn start(alloc: Global, root: u64) -> Result<EraWords, AllocError>
        ensures words { (image : List (List ℕ)) → IfOk result (λ words. era_words image words ≡ words_below 4 image root) }
    {
        let entries = Cursor::start(alloc, root)?;
        Ok(EraWords {
            entries,
            block: Block::zeros(),
            next: BLOCK_SIZE,
        })
    }

    /// How many words are left of a block that was read, which is the next one with any. There are none at the array's end.
    fn ready<D: Device>(&mut self, dev: &mut D) -> Result<usize, CheckFault>
        requires attached { IsAttached (D.state dev.old) }
        ensures same { OnOk result (IfSome (D.state dev.old).held (λ image. era_words image self.old ≡ era_words image self.new)) }
        ensures here { IfOk result (λ here. here ≡ length (words_from 4 self.new.block.0 self.new.next)) }
        ensures end { IfOk result (λ here. IfSome (D.state dev.old).held (λ image. here ≡ 0 → era_words image self.new ≡ [])) }
        ensures kept { OnlyReads (D.state dev.old) (D.state dev.new) }
        ensures faults { CountsCheckFault result (D.state dev.old).faults (D.state dev.new).faults }
    {
        loop {
            let here = array_len(&self.block, Word::Four).saturating_sub(self.next);
            if here > 0 {
                return Ok(here);
            }
            let entry = self.entries.next(dev)?;
            match entry {
                Some((_, root)) => self.read(dev, root.0)?,
                None => return Ok(0),
            }
        }
    }

    /// Reads a block, so that its words are left of it.
    fn read<D: Device>(&mut self, dev: &mut D, b: u64) -> Result<(), CheckFault>
        requires attached { IsAttached (D.state dev.old) }
        ensures words { OnOk result (IfSome (D.state dev.old).held
            (λ image. words_from 4 self.new.block.0 self.new.next ≡ words_from 4 (block_at image b) 0)) }
        ensures entries { self.new.entries ≡ self.old.entries }
        ensures kept { OnlyReads (D.state dev.old) (D.state dev.new) }
        ensures faults { CountsCheckFault result (D.state dev.old).faults (D.state dev.new).faults }
    {
        if b >= dev.blocks() {
            self.next = BLOCK_SIZE;
            return Ok(());
        }
        dev.read(b, &mut self.block)?;
        self.next = 0;
        Ok(())
    }

    /// Takes so many words of the block, behind those of the part. Want of memory is the only error.
    fn take(&mut self, part: &mut Vec<u32>, number: usize) -> Result<(), CheckFault>
        requires some { 1 ≤ number }
        requires here { number ≤ length (words_from 4 self.old.block.0 self.old.next) }
        ensures moved { OnOk result ((image : List (List ℕ)) → part.old.items ++ era_words image self.old
            ≡ part.new.items ++ era_words image self.new) }
        ensures number { OnOk result (length part.new.items ≡ length part.old.items + number) }
        ensures memory { IfErr result (λ fault. fault ≡ Memory) }
    {
        add_words(&self.block, self.next, number, part)?;
        self.next += number;
        Ok(())
    }
}

/// Adds so many words of a block to a part, from one on. Want of memory is the only error.
fn add_words(
    block: &Block,
    from: usize,
    number: usize,
    part: &mut Vec<u32>,
) -> Result<(), CheckFault>
    requires { from + number ≤ word_count 4 block.now.0 }
    ensures words { OnOk result (part.new.items ≡ part.old.items ++ map (word_at 4 block.now.0) (range_with_len from number)) }
    ensures memory { IfErr result (λ fault. fault ≡ Memory) }
{
    for i in 0..number {
        part.push(array_word(block, Word::Four, from + i) as u32)?;
    }
    Ok(())
}

/// Takes the next words into a part that has none, so many or all that are left.
pub(crate) fn take_words<D: Device>(
    words: &mut EraWords,
    dev: &mut D,
    part: &mut Vec<u32>,
    count: usize,
) -> Result<(), CheckFault>
    requires attached { IsAttached (D.state dev.old) }
    requires none { part.old.items ≡ [] }
    ensures cut { OnOk result (IfSome (D.state dev.old).held
        (λ image. era_words image words.old ≡ part.new.items ++ era_words image words.new)) }
    ensures most { OnOk result (length part.new.items ≤ count) }
    ensures all { OnOk result (IfSome (D.state dev.old).held
        (λ image. length part.new.items < count → era_words image words.new ≡ [])) }
    ensures kept { OnlyReads (D.state dev.old) (D.state dev.new) }
    ensures faults { CountsCheckFault result (D.state dev.old).faults (D.state dev.new).faults }
{
    while part.len() < count {
        let here = words.ready(dev)?;
        if here == 0 {
            return Ok(());
        }
        let number = here.min(count - part.len());
        words.take(part, number)?;
    }
    Ok(())
}
