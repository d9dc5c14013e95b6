//! The eras of a part of the blocks, which rows raise (`era_dump`, `era_invalidate`).

ghost use Rattle.std.specs.Prelude.{◌≡◌, ℕ, ◌+◌, ◌*◌, ◌<◌, ◌≤◌, ◌⊎◌, false, List, length, slice_index, EachIndex, IfErr, IfSome, OnOk};
ghost use Rattle.pd_kinds.specs.declared.report.CheckFault.TheVariants.{Memory};
ghost use Rattle.pd_kinds.specs.CheckFault.{CountsCheckFault};
ghost use Rattle.pd_kinds.specs.Meaning.{is_bit_set};
ghost use Rattle.pd_image.specs.Device.{IsAttached, OnlyReads};
ghost use Rattle.pd_tree.specs.Cursor.{words_from};
ghost use Rattle.pd_meaning_era.specs.Eras.{AreAtLeast, Raises, holds_from};
ghost use Rattle.pd_meaning_era.specs.Notes.{RaisesRows, row_holds};

use crate::notes::Row;
use crate::raising::raise_words_of;
use pd_image::Device;
use pd_kinds::{Block, CheckFault};

/// The number of bits in a word.
const WORD_BITS: u64 = 64;

/// The most words of eight bytes that an array block has.
const MOST_WORDS: u64 = 509;

/// A bit for each of so many blocks, and none of them is set. Want of memory is the only error.
fn ready(taken: &mut Vec<u64>, blocks: usize) -> Result<(), CheckFault>
    ensures none { OnOk result (EachIndex taken.new.items (λ i. slice_index taken.new.items i ≡ 0)) }
    ensures room { OnOk result (blocks ≤ 64 * length taken.new.items) }
    ensures memory { IfErr result (λ fault. fault ≡ Memory) }
{
    taken.clear();
    Ok(taken.resize(blocks.div_ceil(64), 0)?)
}

/// No bit is set any more.
fn clear(taken: &mut [u64])
    ensures { EachIndex taken.new (λ i. slice_index taken.new i ≡ 0) }
{
    for word in taken.iter_mut() {
        *word = 0;
    }
}

/// Where the bits of a row end that count in a part, as the number of a block of the part.
fn end_in(row: &Row, base: u32, part: &[u32]) -> u64
    ensures part { result ≤ length part.now }
    ensures row { (i : ℕ) → i < result → 64 * base + i < row.now.end }
    ensures most { (i : ℕ) → i < length part.now → 64 * base + i < row.now.end → i < result }
{
    let end = u64::from(row.end).saturating_sub(WORD_BITS * u64::from(base));
    end.min(part.len() as u64)
}

/// Whether bits of a row may be those of blocks of the part: some words of a row with the most words are in the part.
fn may_lie(row: &Row, base: u32, part: &[u32]) -> bool
    ensures { result ≡ false → (row.now.end ≤ 64 * base)
        ⊎ ((64 * base + length part.now ≤ 64 * row.now.first) ⊎ (row.now.first + 509 ≤ base)) }
{
    let begins = u64::from(row.first);
    let base = u64::from(base);
    let is_before = WORD_BITS * begins < WORD_BITS * base + part.len() as u64;
    let is_after = (base < begins + MOST_WORDS) & (WORD_BITS * base < u64::from(row.end));
    is_before & is_after
}

/// Raises the eras of the part that a row holds, whose array block was read.
fn raise_by(row: &Row, base: u32, block: &Block, part: &mut [u32], taken: &mut [u64])
    requires room { length part.old ≤ 64 * length taken.old }
    requires fits { length part.old ≤ 4294967296 }
    requires taken { AreAtLeast row.now.era (is_bit_set taken.old) part.old }
    ensures raised { Raises row.now.era (λ i.
        holds_from row.now.end row.now.first (words_from 8 block.now.0 0) (64 * base + i)) part.old part.new }
    ensures taken { AreAtLeast row.now.era (is_bit_set taken.new) part.new }
{
    let end = end_in(row, base, part);
    let from = base.saturating_sub(row.first) as usize;
    let first = u64::from(row.first.saturating_sub(base));
    raise_words_of(block, from, first, part, taken, end, row.era);
}

/// Raises the eras of the part that a row holds. What is taken is of no earlier era.
fn raise_row<D: Device>(
    row: &Row,
    base: u32,
    dev: &mut D,
    part: &mut [u32],
    taken: &mut [u64],
) -> Result<(), CheckFault>
    requires attached { IsAttached (D.state dev.old) }
    requires room { length part.old ≤ 64 * length taken.old }
    requires fits { length part.old ≤ 4294967296 }
    requires taken { AreAtLeast row.now.era (is_bit_set taken.old) part.old }
    ensures raised { OnOk result (IfSome (D.state dev.old).held
        (λ image. Raises row.now.era (λ i. row_holds image row.now (64 * base + i)) part.old part.new)) }
    ensures taken { OnOk result (AreAtLeast row.now.era (is_bit_set taken.new) part.new) }
    ensures kept { OnlyReads (D.state dev.old) (D.state dev.new) }
    ensures faults { CountsCheckFault result (D.state dev.old).faults (D.state dev.new).faults }
{
    if !may_lie(row, base, part) {
        return Ok(());
    }
    if row.block >= dev.blocks() {
        return Ok(());
    }
    let mut block = Block::zeros();
    dev.read(row.block, &mut block)?;
    raise_by(row, base, &block, part, taken);
    Ok(())
}

/// What is taken is of no earlier era than this one, after one of that era: else it is forgotten.
fn forget_earlier(taken: &mut [u64], latest: u32, era: u32)
    ensures { (eras : List ℕ) → AreAtLeast latest (is_bit_set taken.old) eras → AreAtLeast era (is_bit_set taken.new) eras }
{
    if latest < era {
        clear(taken);
    }
}

/// Raises the eras of the part whose first word has the number `base`, each to those of the rows that hold its block.
fn raise_rows<D: Device>(
    rows: &[Row],
    base: u32,
    dev: &mut D,
    part: &mut [u32],
    taken: &mut [u64],
) -> Result<(), CheckFault>
    requires attached { IsAttached (D.state dev.old) }
    requires room { length part.old ≤ 64 * length taken.old }
    requires fits { length part.old ≤ 4294967296 }
    requires none { EachIndex taken.old (λ i. slice_index taken.old i ≡ 0) }
    ensures raised { OnOk result (IfSome (D.state dev.old).held (λ image. RaisesRows image base rows.now part.old part.new)) }
    ensures kept { OnlyReads (D.state dev.old) (D.state dev.new) }
    ensures faults { CountsCheckFault result (D.state dev.old).faults (D.state dev.new).faults }
{
    let mut latest = u32::MAX;
    for row in rows {
        forget_earlier(taken, latest, row.era);
        raise_row(row, base, dev, part, taken)?;
        latest = row.era;
    }
    Ok(())
}

/// Does so, with bits for the blocks that were raised.
fn raise_fresh_part<D: Device>(
    rows: &[Row],
    base: u32,
    dev: &mut D,
    part: &mut [u32],
    taken: &mut Vec<u64>,
) -> Result<(), CheckFault>
    requires attached { IsAttached (D.state dev.old) }
    requires fits { length part.old ≤ 4294967296 }
    ensures raised { OnOk result (IfSome (D.state dev.old).held (λ image. RaisesRows image base rows.now part.old part.new)) }
    ensures number { length part.new ≡ length part.old }
    ensures kept { OnlyReads (D.state dev.old) (D.state dev.new) }
    ensures faults { CountsCheckFault result (D.state dev.old).faults (D.state dev.new).faults }
{
    ready(taken, part.len())?;
    raise_rows(rows, base, dev, part, taken.as_mut_slice())
}

/// Raises the eras of the part whose first word has the number `base`, each to those of the rows that hold its block.
pub(crate) fn raise_part<D: Device>(
    rows: &[Row],
    base: u32,
    dev: &mut D,
    part: &mut Vec<u32>,
    taken: &mut Vec<u64>,
) -> Result<(), CheckFault>
    requires attached { IsAttached (D.state dev.old) }
    requires fits { length part.old.items ≤ 4294967296 }
    ensures raised { OnOk result (IfSome (D.state dev.old).held (λ image. RaisesRows image base rows.now part.old.items part.new.items)) }
    ensures number { OnOk result (length part.new.items ≡ length part.old.items) }
    ensures kept { OnlyReads (D.state dev.old) (D.state dev.new) }
    ensures faults { CountsCheckFault result (D.state dev.old).faults (D.state dev.new).faults }
{
    raise_fresh_part(rows, base, dev, part.as_mut_slice(), taken)
}
