//! One block's stored count against its references.

ghost use Rattle.std.specs.Prelude.{◌≡◌, ℕ, ◌+◌, ◌-◌, ◌^◌, ◌<◌, ◌≤◌, Option, IfOk, IfSome, OnOk, OnErr, Some, ◌%◌, true};
ghost use Rattle.pd_kinds.specs.Objects.{CountsFault};
ghost use Rattle.pd_kinds.specs.Bitmap.{two_bits_of};
ghost use Rattle.pd_kinds.specs.Stages.{count_fault};
ghost use Rattle.pd_kinds.specs.declared.rule.Space.{Space as SpaceOf};
ghost use Rattle.pd_image.specs.Device.{IsAttached, OnlyReads};
ghost use Rattle.pd_smap.specs.Steps.{IsAhead, stored_by, Adds, ComparesRange, Stopped, bits_from};
ghost use Rattle.pd_smap.specs.Overflow.{overflow_items, overflow_reads, comparison_state};

use crate::overflow::Overflow;
use pd_bitmap::two_bits;
use pd_count::{CHUNK_COUNTS, Counts};
use pd_graph::Audit;
use pd_image::{Device, Failed};
use pd_kinds::{Block, Fault, Report, Rule, Space};

/// Adds the fault of a block that is referred to so often, where another count is stored, or none.
pub(crate) fn add_count(
    report: &mut Report,
    space: Space,
    block: u64,
    refs: u64,
    stored: Option<u32>,
)
    requires { report.old.total < 2 ^ 64 - 1 }
    ensures added { Adds (count_fault space block refs stored) report.old report.new }
    ensures total { report.new.total ≤ report.old.total + 1 }
{
    match stored {
        None => report.add(Fault {
            space,
            block,
            rule: Rule::Overflow,
            stored: 0,
            refs: 0,
        }),
        Some(stored) => add_difference(report, space, block, refs, u64::from(stored)),
    }
}

/// Adds the fault of a block where the stored count isn't the number of references.
fn add_difference(report: &mut Report, space: Space, block: u64, refs: u64, stored: u64)
    requires { report.old.total < 2 ^ 64 - 1 }
    ensures added { Adds (count_fault space block refs (Some stored)) report.old report.new }
    ensures total { report.new.total ≤ report.old.total + 1 }
{
    if refs < stored {
        report.add(Fault {
            space,
            block,
            rule: Rule::Leak,
            stored,
            refs,
        });
    } else if stored < refs {
        report.add(Fault {
            space,
            block,
            rule: Rule::Short,
            stored,
            refs,
        });
    }
}

/// The stored count of block `b`, which is entry `e` of the bitmap.
fn stored_count<D: Device>(
    dev: &mut D,
    bitmap: &Block,
    e: usize,
    b: u64,
    overflow: &mut Overflow,
) -> Result<Option<u32>, Failed>
    requires attached { IsAttached (D.state dev.old) }
    requires entry { e < 16320 }
    ensures count { IfOk result (λ count. IfSome (D.state dev.old).held
        (λ image. (over : ℕ → Option ℕ) → IsAhead b over (overflow_items overflow.old image)
        → count ≡ stored_by (two_bits_of bitmap.now.0 e) (over b))) }
    ensures ahead { OnOk result (IfSome (D.state dev.old).held
        (λ image. (over : ℕ → Option ℕ) → IsAhead b over (overflow_items overflow.old image)
        → IsAhead b over (overflow_items overflow.new image))) }
    ensures reads { OnOk result (IfSome (D.state dev.old).held (λ image.
        (D.state dev.new).reads + overflow_reads overflow.new image ≤ (D.state dev.old).reads + overflow_reads overflow.old image)) }
    ensures reads_failed { IfSome (D.state dev.old).held
        (λ image. (D.state dev.new).reads ≤ (D.state dev.old).reads + overflow_reads overflow.old image) }
    ensures kept { OnlyReads (D.state dev.old) (D.state dev.new) }
    ensures faults { CountsFault result (D.state dev.old).faults (D.state dev.new).faults }
{
    let bits = two_bits(bitmap, e);
    if bits < 3 {
        Ok(Some(u32::from(bits)))
    } else {
        overflow.count(dev, b)
    }
}

/// Compares block `base + e`, which is entry `e` of the bitmap.
pub(crate) fn compare_block<R: References, D: Device>(
    dev: &mut D,
    bitmap: &Block,
    base: u64,
    e: usize,
    refs: &R,
    overflow: &mut Overflow,
    report: &mut Report,
) -> Result<(), Failed>
    requires attached { IsAttached (D.state dev.old) }
    requires entry { e < 16320 }
    requires within { base + e < R.number refs.now }
    requires size { base + e < 2 ^ 64 }
    requires room { report.old.total < 2 ^ 64 - 1 }
    ensures went { OnOk result
        (ComparesRange (record { space = R.space refs.now; refs = R.refs refs.now; bits = bits_from base bitmap.now.0 }) (base + e) 1
        (comparison_state (D.state dev.old) overflow.old report.old) (comparison_state (D.state dev.new) overflow.new report.new)) }
    ensures stopped { OnErr result
        (Stopped (record { space = R.space refs.now; refs = R.refs refs.now; bits = bits_from base bitmap.now.0 }) (base + e) 1
        (comparison_state (D.state dev.old) overflow.old report.old) (comparison_state (D.state dev.new) overflow.new report.new)) }
{
    let b = base + e as u64;
    let stored = stored_count(dev, bitmap, e, b, overflow)?;
    add_count(report, refs.space(), b, refs.count(b), stored);
    Ok(())
}

// How often the blocks of a space are referred to, as a comparison asks for it.

/// The number of references to each block of a space.
pub(crate) trait References {
    /// The number of blocks.
    ghost number: { Self → ℕ };

    /// The number of references to a block.
    ghost refs: { Self → ℕ → ℕ };

    /// Whose blocks they are.
    ghost space: { Self → SpaceOf };

    /// Whose blocks they are.
    fn space(&self) -> Space
        ensures { result ≡ space self.now };

    /// How often block `b` is referred to.
    fn count(&self, b: u64) -> u64
        requires { b < number self.now }
        ensures { result ≡ refs self.now b };

    /// Whether all of so many blocks from `first` on, which one bitmap covers, are seen to be referred to so often.
    fn are_all(&self, first: u64, len: u64, count: u32) -> bool
        requires within { first + len ≤ number self.now }
        requires chunk { first % 16320 + len ≤ 16320 }
        ensures { result ≡ true → (k : ℕ) → k < len → refs self.now (first + k) ≡ count };
}

/// The references to metadata blocks, as a walk met them.
#[derive(Clone, Copy)]
pub(crate) struct MetaReferences<'a>(pub(crate) &'a Audit);

impl References for MetaReferences<'_> {
    ghost use Rattle.pd_kinds.specs.declared.rule.Space.TheVariants.{Meta};
    ghost use Rattle.pd_graph.specs.Audit.{blocks_of, count_at};

    ghost number = { λ r. blocks_of r.0.now };

    ghost refs = { λ r b. count_at r.0.now b };

    ghost space = { λ r. Meta };

    fn space(&self) -> Space {
        Space::Meta
    }

    fn count(&self, b: u64) -> u64 {
        self.0.meta_count(b)
    }

    fn are_all(&self, first: u64, len: u64, count: u32) -> bool {
        let audit = self.0;
        for b in first..first + len {
            if audit.meta_count(b) != u64::from(count) {
                return false;
            }
        }
        true
    }
}

/// The references to data blocks, as they were counted.
#[derive(Clone, Copy)]
pub(crate) struct DataReferences<'a>(pub(crate) &'a Counts);

impl References for DataReferences<'_> {
    ghost use Rattle.pd_kinds.specs.declared.rule.Space.TheVariants.{DataBlock};
    ghost use Rattle.pd_count.specs.Counted.{count_of};

    ghost number = { λ r. r.0.now.size };

    ghost refs = { λ r b. count_of r.0.now b };

    ghost space = { λ r. DataBlock };

    fn space(&self) -> Space {
        Space::DataBlock
    }

    fn count(&self, b: u64) -> u64 {
        u64::from(self.0.get(b))
    }

    fn are_all(&self, first: u64, len: u64, count: u32) -> bool {
        let counts = self.0;
        let at = (first % CHUNK_COUNTS as u64) as usize;
        match counts.chunk(first / CHUNK_COUNTS as u64) {
            Some(chunk) => chunk.are_all(at, len as usize, count),
            None => count == 0,
        }
    }
}
