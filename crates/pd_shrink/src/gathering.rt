//! The free data blocks of one bitmap, and of the overflow tree beside it (`thin_shrink`).

ghost use Rattle.std.specs.Prelude.{◌≡◌, ℕ, ◌+◌, ◌*◌, ◌-◌, ◌^◌, ◌<◌, ◌≤◌, [], ◌∷◌, Option, min, IfOk, IfSome, OnOk};
ghost use Rattle.pd_kinds.specs.Bitmap.{two_bits_of};
ghost use Rattle.pd_kinds.specs.Objects.{CountsFault};
ghost use Rattle.pd_image.specs.Device.{IsAttached, OnlyReads};
ghost use Rattle.pd_smap.specs.Overflow.{overflow_items, overflow_reads};
ghost use Rattle.pd_smap.specs.Steps.{IsAhead, stored_by, bits_at, bits_from};
ghost use Rattle.pd_shrink.specs.Failing.{CountsMeta};
ghost use Rattle.pd_shrink.specs.Gathered.{Gathers, Searched, standing, with_reads, is_zero};

use crate::free::FreeBlocks;
use crate::making::ShrinkFault;
use pd_bitmap::{one_number, two_bits};
use pd_image::{Device, Failed};
use pd_kinds::{BITMAP_COUNTS, Block};
use pd_smap::{Overflow, read_bitmap};
use std::alloc::AllocError;

/// How many counts are looked at together where they are equal.
const GROUP_COUNTS: usize = 32;

/// Adds a free block, which is kept where fewer than so many are.
fn gather_block(free: &mut FreeBlocks, wanted: usize, block: u64) -> Result<(), AllocError>
    requires { free.old.number < 2 ^ 64 - 1 }
    ensures gathered { OnOk result (Gathers wanted (block ∷ []) free.old free.new) }
    ensures most { OnOk result (free.new.number ≤ free.old.number + 1) }
{
    free.number += 1;
    if free.first.len() >= wanted {
        return Ok(());
    }
    free.first.push(block)?;
    Ok(())
}

/// Whether a stored count is 0.
fn is_zero(stored: Option<u32>) -> bool
    ensures { result ≡ is_zero stored }
{
    match stored {
        Some(count) => count == 0,
        None => false,
    }
}

/// Whether the stored count of block `b` is 0, which is entry `e` of the bitmap.
fn is_unused<A: Device>(
    meta: &mut A,
    bitmap: &Block,
    e: usize,
    b: u64,
    overflow: &mut Overflow,
) -> Result<bool, Failed>
    requires attached { IsAttached (A.state meta.old) }
    requires entry { e < 16320 }
    ensures unused { IfOk result (λ unused. IfSome (A.state meta.old).held
        (λ image. (over : ℕ → Option ℕ) → IsAhead b over (overflow_items overflow.old image)
        → unused ≡ is_zero (stored_by (two_bits_of bitmap.now.0 e) (over b)))) }
    ensures ahead { OnOk result (IfSome (A.state meta.old).held
        (λ image. (over : ℕ → Option ℕ) → IsAhead b over (overflow_items overflow.old image)
        → IsAhead b over (overflow_items overflow.new image))) }
    ensures reads { OnOk result (IfSome (A.state meta.old).held (λ image.
        (A.state meta.new).reads + overflow_reads overflow.new image ≤ (A.state meta.old).reads + overflow_reads overflow.old image)) }
    ensures reads_failed { IfSome (A.state meta.old).held
        (λ image. (A.state meta.new).reads ≤ (A.state meta.old).reads + overflow_reads overflow.old image) }
    ensures kept { OnlyReads (A.state meta.old) (A.state meta.new) }
    ensures faults { CountsFault result (A.state meta.old).faults (A.state meta.new).faults }
{
    let bits = two_bits(bitmap, e);
    if bits < 3 {
        return Ok(bits == 0);
    }
    let stored = overflow.count(meta, b)?;
    Ok(is_zero(stored))
}

/// Adds block `base + e` where it is free, which is entry `e` of the bitmap.
fn gather_entry<A: Device>(
    meta: &mut A,
    bitmap: &Block,
    base: u64,
    e: usize,
    wanted: usize,
    overflow: &mut Overflow,
    free: &mut FreeBlocks,
) -> Result<(), ShrinkFault>
    requires attached { IsAttached (A.state meta.old) }
    requires entry { e < 16320 }
    requires size { base + e < 2 ^ 64 }
    requires room { free.old.number < 2 ^ 64 - 1 }
    ensures searched { OnOk result (Searched wanted (bits_from base bitmap.now.0) (base + e) 1
        (standing (A.state meta.old) free.old overflow.old) (standing (A.state meta.new) free.new overflow.new)) }
    ensures reads { IfSome (A.state meta.old).held
        (λ image. (A.state meta.new).reads ≤ (A.state meta.old).reads + overflow_reads overflow.old image) }
    ensures kept { OnlyReads (A.state meta.old) (A.state meta.new) }
    ensures faults { CountsMeta result (A.state meta.old).faults (A.state meta.new).faults }
{
    let b = base + e as u64;
    let unused = match is_unused(meta, bitmap, e, b, overflow) {
        Ok(unused) => unused,
        Err(_) => return Err(ShrinkFault::Meta),
    };
    if unused {
        gather_block(free, wanted, b)?;
    }
    Ok(())
}

/// Adds the free ones of so many blocks from `base + from` on, which are entries of the bitmap from `from` on.
fn gather_each<A: Device>(
    meta: &mut A,
    bitmap: &Block,
    base: u64,
    from: usize,
    len: usize,
    wanted: usize,
    overflow: &mut Overflow,
    free: &mut FreeBlocks,
) -> Result<(), ShrinkFault>
    requires attached { IsAttached (A.state meta.old) }
    requires entries { from + len ≤ 16320 }
    requires size { base + (from + len) < 2 ^ 64 }
    requires room { free.old.number + len < 2 ^ 64 }
    ensures searched { OnOk result (Searched wanted (bits_from base bitmap.now.0) (base + from) len
        (standing (A.state meta.old) free.old overflow.old) (standing (A.state meta.new) free.new overflow.new)) }
    ensures reads { IfSome (A.state meta.old).held
        (λ image. (A.state meta.new).reads ≤ (A.state meta.old).reads + overflow_reads overflow.old image) }
    ensures kept { OnlyReads (A.state meta.old) (A.state meta.new) }
    ensures faults { CountsMeta result (A.state meta.old).faults (A.state meta.new).faults }
{
    for e in from..from + len {
        gather_entry(meta, bitmap, base, e, wanted, overflow, free)?;
    }
    Ok(())
}

/// Adds the free ones of the 32 blocks whose counts are group `g` of the bitmap. Where all have one count, and nothing is
/// kept, no count is looked at by itself.
fn gather_group<A: Device>(
    meta: &mut A,
    bitmap: &Block,
    base: u64,
    g: usize,
    wanted: usize,
    overflow: &mut Overflow,
    free: &mut FreeBlocks,
) -> Result<(), ShrinkFault>
    requires attached { IsAttached (A.state meta.old) }
    requires group { g < 510 }
    requires size { base + (32 * g + 32) < 2 ^ 64 }
    requires room { free.old.number + 32 < 2 ^ 64 }
    ensures searched { OnOk result (Searched wanted (bits_from base bitmap.now.0) (base + 32 * g) 32
        (standing (A.state meta.old) free.old overflow.old) (standing (A.state meta.new) free.new overflow.new)) }
    ensures reads { IfSome (A.state meta.old).held
        (λ image. (A.state meta.new).reads ≤ (A.state meta.old).reads + overflow_reads overflow.old image) }
    ensures kept { OnlyReads (A.state meta.old) (A.state meta.new) }
    ensures faults { CountsMeta result (A.state meta.old).faults (A.state meta.new).faults }
{
    if let Some(number) = one_number(&bitmap.0, g) {
        if number != 0 {
            return Ok(());
        }
        if free.first.len() >= wanted {
            free.number += GROUP_COUNTS as u64;
            return Ok(());
        }
    }
    gather_each(
        meta,
        bitmap,
        base,
        GROUP_COUNTS * g,
        GROUP_COUNTS,
        wanted,
        overflow,
        free,
    )
}

/// Adds the free ones of the blocks of so many groups, which the bitmap begins with.
fn gather_groups<A: Device>(
    meta: &mut A,
    bitmap: &Block,
    base: u64,
    groups: usize,
    wanted: usize,
    overflow: &mut Overflow,
    free: &mut FreeBlocks,
) -> Result<(), ShrinkFault>
    requires attached { IsAttached (A.state meta.old) }
    requires groups { groups ≤ 510 }
    requires size { base + 32 * groups < 2 ^ 64 }
    requires room { free.old.number + 32 * groups < 2 ^ 64 }
    ensures searched { OnOk result (Searched wanted (bits_from base bitmap.now.0) base (32 * groups)
        (standing (A.state meta.old) free.old overflow.old) (standing (A.state meta.new) free.new overflow.new)) }
    ensures reads { IfSome (A.state meta.old).held
        (λ image. (A.state meta.new).reads ≤ (A.state meta.old).reads + overflow_reads overflow.old image) }
    ensures kept { OnlyReads (A.state meta.old) (A.state meta.new) }
    ensures faults { CountsMeta result (A.state meta.old).faults (A.state meta.new).faults }
{
    for g in 0..groups {
        gather_group(meta, bitmap, base, g, wanted, overflow, free)?;
    }
    Ok(())
}

/// Adds the free ones of so many blocks from `base` on, whose counts the bitmap begins with.
fn gather_bitmap<A: Device>(
    meta: &mut A,
    bitmap: &Block,
    base: u64,
    len: usize,
    wanted: usize,
    overflow: &mut Overflow,
    free: &mut FreeBlocks,
) -> Result<(), ShrinkFault>
    requires attached { IsAttached (A.state meta.old) }
    requires entries { len ≤ 16320 }
    requires size { base + len < 2 ^ 64 }
    requires room { free.old.number + len < 2 ^ 64 }
    ensures searched { OnOk result (Searched wanted (bits_from base bitmap.now.0) base len
        (standing (A.state meta.old) free.old overflow.old) (standing (A.state meta.new) free.new overflow.new)) }
    ensures reads { IfSome (A.state meta.old).held
        (λ image. (A.state meta.new).reads ≤ (A.state meta.old).reads + overflow_reads overflow.old image) }
    ensures kept { OnlyReads (A.state meta.old) (A.state meta.new) }
    ensures faults { CountsMeta result (A.state meta.old).faults (A.state meta.new).faults }
{
    let groups = len / GROUP_COUNTS;
    gather_groups(meta, bitmap, base, groups, wanted, overflow, free)?;
    let done = GROUP_COUNTS * groups;
    gather_each(meta, bitmap, base, done, len - done, wanted, overflow, free)
}

/// Reads bitmap `i` of a map of so many blocks, which stands in this place, and adds the free ones of the blocks that it
/// covers.
pub(crate) fn gather_at<A: Device>(
    meta: &mut A,
    place: u64,
    i: u64,
    blocks: u64,
    wanted: usize,
    overflow: &mut Overflow,
    free: &mut FreeBlocks,
) -> Result<(), ShrinkFault>
    requires attached { IsAttached (A.state meta.old) }
    requires bitmap { 16320 * i < blocks }
    requires room { free.old.number + min 16320 (blocks - 16320 * i) < 2 ^ 64 }
    ensures searched { OnOk result (Searched wanted (bits_at place i) (16320 * i) (min 16320 (blocks - 16320 * i))
        (with_reads (λ image. 1) (standing (A.state meta.old) free.old overflow.old)) (standing (A.state meta.new) free.new overflow.new)) }
    ensures reads { IfSome (A.state meta.old).held
        (λ image. (A.state meta.new).reads ≤ (A.state meta.old).reads + (overflow_reads overflow.old image + 1)) }
    ensures kept { OnlyReads (A.state meta.old) (A.state meta.new) }
    ensures faults { CountsMeta result (A.state meta.old).faults (A.state meta.new).faults }
{
    let mut bitmap = Block::zeros();
    match read_bitmap(meta, place, &mut bitmap) {
        Ok(()) => {}
        Err(_) => return Err(ShrinkFault::Meta),
    }
    let base = BITMAP_COUNTS * i;
    let len = (blocks - base).min(BITMAP_COUNTS) as usize;
    gather_bitmap(meta, &bitmap, base, len, wanted, overflow, free)
}
