//! The counts of one bitmap against the references.

ghost use Rattle.std.specs.Prelude.{◌≡◌, ℕ, ◌+◌, ◌*◌, ◌-◌, ◌%◌, ◌^◌, ◌<◌, ◌≤◌, min, IfSome, OnOk, OnErr, true};
ghost use Rattle.pd_kinds.specs.Objects.{CountsFault};
ghost use Rattle.pd_kinds.specs.Bitmap.{two_bits_of};
ghost use Rattle.pd_kinds.specs.Graph.{block_at};
ghost use Rattle.pd_image.specs.Device.{IsAttached, OnlyReads};
ghost use Rattle.pd_smap.specs.Overflow.{comparison_state};
ghost use Rattle.pd_smap.specs.Steps.{ComparesRange, Stopped, bits_from, bits_at, with_reads, AreRefs};

use crate::counting::{References, compare_block};
use crate::overflow::Overflow;
use pd_bitmap::{new_bitmap, one_number};
use pd_image::{Device, Failed};
use pd_kinds::{BITMAP_COUNTS, Block, Report};

/// How many counts are compared at a time where they are equal.
const GROUP_COUNTS: usize = 32;

/// Compares so many blocks from `base + from` on, which are entries of the bitmap from `from` on.
fn compare_each<R: References, D: Device>(
    dev: &mut D,
    bitmap: &Block,
    base: u64,
    from: usize,
    len: usize,
    refs: &R,
    overflow: &mut Overflow,
    report: &mut Report,
) -> Result<(), Failed>
    requires attached { IsAttached (D.state dev.old) }
    requires entries { from + len ≤ 16320 }
    requires within { base + (from + len) ≤ R.number refs.now }
    requires size { base + (from + len) < 2 ^ 64 }
    requires room { report.old.total + len < 2 ^ 64 }
    ensures went { OnOk result
        (ComparesRange (record { space = R.space refs.now; refs = R.refs refs.now; bits = bits_from base bitmap.now.0 }) (base + from) len
        (comparison_state (D.state dev.old) overflow.old report.old) (comparison_state (D.state dev.new) overflow.new report.new)) }
    ensures stopped { OnErr result
        (Stopped (record { space = R.space refs.now; refs = R.refs refs.now; bits = bits_from base bitmap.now.0 }) (base + from) len
        (comparison_state (D.state dev.old) overflow.old report.old) (comparison_state (D.state dev.new) overflow.new report.new)) }
{
    for e in from..from + len {
        compare_block(dev, bitmap, base, e, refs, overflow, report)?;
    }
    Ok(())
}

/// Compares the 32 blocks whose counts are group `g` of the bitmap.
fn compare_group<R: References, D: Device>(
    dev: &mut D,
    bitmap: &Block,
    base: u64,
    g: usize,
    refs: &R,
    overflow: &mut Overflow,
    report: &mut Report,
) -> Result<(), Failed>
    requires attached { IsAttached (D.state dev.old) }
    requires group { g < 510 }
    requires start { base % 16320 ≡ 0 }
    requires within { base + (32 * g + 32) ≤ R.number refs.now }
    requires size { base + (32 * g + 32) < 2 ^ 64 }
    requires room { report.old.total + 32 < 2 ^ 64 }
    ensures went { OnOk result
        (ComparesRange (record { space = R.space refs.now; refs = R.refs refs.now; bits = bits_from base bitmap.now.0 }) (base + 32 * g) 32
        (comparison_state (D.state dev.old) overflow.old report.old) (comparison_state (D.state dev.new) overflow.new report.new)) }
    ensures stopped { OnErr result
        (Stopped (record { space = R.space refs.now; refs = R.refs refs.now; bits = bits_from base bitmap.now.0 }) (base + 32 * g) 32
        (comparison_state (D.state dev.old) overflow.old report.old) (comparison_state (D.state dev.new) overflow.new report.new)) }
{
    let from = GROUP_COUNTS * g;
    if are_equal(bitmap, g, refs, base + from as u64) {
        return Ok(());
    }
    compare_each(
        dev,
        bitmap,
        base,
        from,
        GROUP_COUNTS,
        refs,
        overflow,
        report,
    )
}

/// Compares the blocks of so many groups, which the bitmap begins with.
fn compare_groups<R: References, D: Device>(
    dev: &mut D,
    bitmap: &Block,
    base: u64,
    groups: usize,
    refs: &R,
    overflow: &mut Overflow,
    report: &mut Report,
) -> Result<(), Failed>
    requires attached { IsAttached (D.state dev.old) }
    requires groups { groups ≤ 510 }
    requires start { base % 16320 ≡ 0 }
    requires within { base + 32 * groups ≤ R.number refs.now }
    requires size { base + 32 * groups < 2 ^ 64 }
    requires room { report.old.total + 32 * groups < 2 ^ 64 }
    ensures went { OnOk result
        (ComparesRange (record { space = R.space refs.now; refs = R.refs refs.now; bits = bits_from base bitmap.now.0 }) base (32 * groups)
        (comparison_state (D.state dev.old) overflow.old report.old) (comparison_state (D.state dev.new) overflow.new report.new)) }
    ensures stopped { OnErr result
        (Stopped (record { space = R.space refs.now; refs = R.refs refs.now; bits = bits_from base bitmap.now.0 }) base (32 * groups)
        (comparison_state (D.state dev.old) overflow.old report.old) (comparison_state (D.state dev.new) overflow.new report.new)) }
{
    for g in 0..groups {
        compare_group(dev, bitmap, base, g, refs, overflow, report)?;
    }
    Ok(())
}

/// Compares so many blocks from `base` on, whose counts the bitmap begins with.
fn compare_bitmap<R: References, D: Device>(
    dev: &mut D,
    bitmap: &Block,
    base: u64,
    len: usize,
    refs: &R,
    overflow: &mut Overflow,
    report: &mut Report,
) -> Result<(), Failed>
    requires attached { IsAttached (D.state dev.old) }
    requires entries { len ≤ 16320 }
    requires start { base % 16320 ≡ 0 }
    requires within { base + len ≤ R.number refs.now }
    requires size { base + len < 2 ^ 64 }
    requires room { report.old.total + len < 2 ^ 64 }
    ensures went { OnOk result
        (ComparesRange (record { space = R.space refs.now; refs = R.refs refs.now; bits = bits_from base bitmap.now.0 }) base len
        (comparison_state (D.state dev.old) overflow.old report.old) (comparison_state (D.state dev.new) overflow.new report.new)) }
    ensures stopped { OnErr result
        (Stopped (record { space = R.space refs.now; refs = R.refs refs.now; bits = bits_from base bitmap.now.0 }) base len
        (comparison_state (D.state dev.old) overflow.old report.old) (comparison_state (D.state dev.new) overflow.new report.new)) }
{
    let groups = len / GROUP_COUNTS;
    compare_groups(dev, bitmap, base, groups, refs, overflow, report)?;
    let done = GROUP_COUNTS * groups;
    compare_each(dev, bitmap, base, done, len - done, refs, overflow, report)
}

/// Reads the bitmap in this place. A place outside of the device has a bitmap of zeros.
pub fn read_bitmap<D: Device>(dev: &mut D, place: u64, bitmap: &mut Block) -> Result<(), Failed>
    requires { IsAttached (D.state dev.old) }
    ensures counts { OnOk result (IfSome (D.state dev.old).held
        (λ image. (e : ℕ) → two_bits_of bitmap.new.0 e ≡ two_bits_of (block_at image place) e)) }
    ensures reads { (D.state dev.new).reads ≤ (D.state dev.old).reads + 1 }
    ensures kept { OnlyReads (D.state dev.old) (D.state dev.new) }
    ensures faults { CountsFault result (D.state dev.old).faults (D.state dev.new).faults }
{
    if place < dev.blocks() {
        dev.read(place, bitmap)
    } else {
        *bitmap = new_bitmap();
        Ok(())
    }
}

/// Reads bitmap `i` of a map of so many blocks, which stands in this place, and compares the blocks that it covers.
pub(crate) fn compare_at<R: References, D: Device>(
    dev: &mut D,
    place: u64,
    i: u64,
    blocks: u64,
    refs: &R,
    overflow: &mut Overflow,
    report: &mut Report,
) -> Result<(), Failed>
    requires attached { IsAttached (D.state dev.old) }
    requires bitmap { 16320 * i < blocks }
    requires number { blocks ≤ R.number refs.now }
    requires room { report.old.total + min 16320 (blocks - 16320 * i) < 2 ^ 64 }
    ensures went { OnOk result (ComparesRange (record { space = R.space refs.now; refs = R.refs refs.now; bits = bits_at place i })
        (16320 * i) (min 16320 (blocks - 16320 * i))
        (with_reads 1 (comparison_state (D.state dev.old) overflow.old report.old))
        (comparison_state (D.state dev.new) overflow.new report.new)) }
    ensures stopped { OnErr result (Stopped (record { space = R.space refs.now; refs = R.refs refs.now; bits = bits_at place i })
        (16320 * i) (min 16320 (blocks - 16320 * i))
        (with_reads 1 (comparison_state (D.state dev.old) overflow.old report.old))
        (comparison_state (D.state dev.new) overflow.new report.new)) }
{
    let mut bitmap = Block::zeros();
    read_bitmap(dev, place, &mut bitmap)?;
    let base = BITMAP_COUNTS * i;
    let len = (blocks - base).min(BITMAP_COUNTS) as usize;
    compare_bitmap(dev, &bitmap, base, len, refs, overflow, report)
}

// Runs of equal counts, which are compared 32 at a time.

/// Whether the 32 counts from entry `32 * g` of the bitmap on are seen to be those of the blocks from `first` on.
pub(crate) fn are_equal<R: References>(bitmap: &Block, g: usize, refs: &R, first: u64) -> bool
    requires group { g < 510 }
    requires within { first + 32 ≤ R.number refs.now }
    requires chunk { first % 16320 + 32 ≤ 16320 }
    ensures { result ≡ true → AreRefs bitmap.now.0 g (R.refs refs.now) first }
{
    match one_number(&bitmap.0, g) {
        Some(number) => refs.are_all(first, 32, number),
        None => false,
    }
}
