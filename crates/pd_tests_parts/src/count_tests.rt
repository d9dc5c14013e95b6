//! Counts of references, and the counts that space maps store, on devices in memory.

ghost use Rattle.std.specs.Prelude.{◌≡◌, ◌≤◌, IfOk};
ghost use Rattle.pd_image.specs.Device.{IsAttached};
ghost use Rattle.pd_image.specs.MemObjects.{mem_device_state};

use crate::objects::{NEVER, device_of};
use pd_bitmap::{new_bitmap, new_index, seal_bitmap, seal_index, set_two_bits};
use pd_count::Counts;
use pd_graph::Audit;
use pd_image::MemDevice;
use pd_kinds::{Block, Fault, Report, Rule, SmRoot, Space};
use pd_node::write_leaf;
use pd_smap::{compare_data, compare_meta, stored_meta};
use pd_value::{Count, IndexEntry};
use std::alloc::Global;
use std::process::Abort;
use std::test::Fail;

/// Counts a block once more.
fn count(rt: &impl Abort, counts: &mut Counts, b: u64) -> Result<(), Fail>
    ensures { counts.new.size ≡ counts.old.size }
{
    assert!(rt; b < counts.size());
    assert!(rt; counts.get(b) < u32::MAX);
    counts.add(b)?;
    Ok(())
}

/// Blocks that are counted: so many from `first` on, `step` apart, each so many times, and the last one first where they
/// descend.
#[derive(Clone, Copy)]
struct Counting {
    first: u64,
    step: u64,
    number: u64,
    times: u32,
    descends: bool,
}

impl Counting {
    /// The block with this number among them.
    fn block(&self, k: u64) -> u64 {
        self.first.saturating_add(self.step.saturating_mul(k))
    }

    /// The block that is counted at this turn.
    fn block_at(&self, turn: u64) -> u64 {
        if self.descends {
            self.block(self.number.saturating_sub(turn).saturating_sub(1))
        } else {
            self.block(turn)
        }
    }
}

/// Blocks that are counted: the first one, how far they lie apart, how many they are, how often each is counted, and
/// whether the last one comes first.
type CountRow = (u64, u64, u64, u32, bool);

/// So many blocks the tables of these rows have: two groups of chunks, and most of a third one.
const BLOCKS: u64 = 3000000;

/// The forms of a chunk, its first changes, chunks with others between them that aren't made, chunks that are made from the last
/// to the first, and blocks on both sides of a chunk's and a group's end.
const COUNTINGS: &[CountRow] = &[
    (3, 1, 1, 255, false),
    (3, 1, 1, 256, false),
    (3, 1, 256, 1, false),
    (3, 1, 257, 1, false),
    (3, 1, 256, 2, true),
    (3, 1, 257, 2, true),
    (0, 63, 259, 3, false),
    (16319, 1, 2, 3, false),
    (16200, 1, 600, 1, true),
    (7, 16320, 5, 4, false),
    (16327, 32640, 60, 2, false),
    (9, 16320, 130, 1, true),
    (1044479, 1, 2, 3, false),
    (7, 1044480, 3, 4, true),
    (2999999, 1, 1, 2, false),
    (2999700, 1, 300, 1, true),
];

/// The blocks of a row.
fn counting_of(row: CountRow) -> Counting {
    let (first, step, number, times, descends) = row;
    Counting {
        first,
        step,
        number,
        times,
        descends,
    }
}

/// Counts the block once more. Where memory isn't there at first the count is as before, and is tried once more.
fn count_again(rt: &impl Abort, counts: &mut Counts, b: u64) -> Result<(), Fail> {
    assert!(rt; b < counts.size());
    let before = counts.get(b);
    assert!(rt; before < u32::MAX);
    if counts.add(b).is_err() {
        assert!(rt; b < counts.size());
        assert!(rt; counts.get(b) == before);
        counts.add(b)?;
    }
    Ok(())
}

/// Counts the blocks, in their order.
fn count_all(rt: &impl Abort, counts: &mut Counts, counting: &Counting) -> Result<(), Fail> {
    for turn in 0..counting.number {
        for _ in 0..counting.times {
            count_again(rt, counts, counting.block_at(turn))?;
        }
    }
    Ok(())
}

/// The block has this count.
fn expect_count(rt: &impl Abort, counts: &Counts, b: u64, count: u32) {
    if b < counts.size() {
        assert!(rt; counts.get(b) == count, "{b}");
    }
}

/// Each of the blocks has its count, and the blocks beside it have none.
fn expect_counting(rt: &impl Abort, counts: &Counts, counting: &Counting) {
    for k in 0..counting.number {
        let b = counting.block(k);
        expect_count(rt, counts, b, counting.times);
        if counting.step > 1 {
            expect_count(rt, counts, b.saturating_add(1), 0);
        }
    }
    expect_count(rt, counts, counting.block(counting.number), 0);
}

#[test]
fn blocks_are_counted_as_often_as_they_were_added(rt: HostRuntime) -> Result<(), Fail> {
    for row in COUNTINGS {
        let counting = counting_of(*row);
        let mut counts = Counts::new(rt.alloc(), BLOCKS)?;
        count_all(&rt, &mut counts, &counting)?;
        expect_counting(&rt, &counts, &counting);
    }
    Ok(())
}

/// The counts at which a block's count needs another byte, and those before them.
const MARKS: &[u32] = &[255, 256, 65535, 65536];

#[test]
fn one_block_of_many_has_a_great_count(rt: HostRuntime) -> Result<(), Fail> {
    let mut counts = Counts::new(rt.alloc(), 600)?;
    count_all(&rt, &mut counts, &counting_of((0, 2, 300, 1, false)))?;
    let mut times = 0;
    for mark in MARKS {
        for _ in times..*mark {
            count_again(&rt, &mut counts, 5)?;
        }
        times = *mark;
        expect_count(&rt, &counts, 5, times);
        expect_count(&rt, &counts, 4, 1);
        expect_count(&rt, &counts, 7, 0);
    }
    Ok(())
}

#[test]
fn no_count_goes_past_the_greatest(rt: HostRuntime) -> Result<(), Fail> {
    let mut counts = Counts::new(rt.alloc(), 600)?;
    count_all(&rt, &mut counts, &counting_of((0, 2, 300, 1, false)))?;
    assert!(rt; counts.size() == 600);
    counts.set(5, u32::MAX - 1)?;
    for _ in 0..3 {
        assert!(rt; counts.size() == 600);
        counts.saturating_add(5)?;
        expect_count(&rt, &counts, 5, u32::MAX);
    }
    expect_count(&rt, &counts, 4, 1);
    Ok(())
}

#[test]
fn a_huge_table_takes_memory_where_a_block_is_counted(rt: HostRuntime) -> Result<(), Fail> {
    let mut counts = Counts::new(rt.alloc(), 1099511627776)?;
    count(&rt, &mut counts, 0)?;
    count(&rt, &mut counts, 1099511627775)?;
    let found = [counts.get(0), counts.get(1099511627775), counts.get(1)];
    assert!(rt; found == [1, 1, 0]);
    Ok(())
}

/// The entry of the bitmap of those maps, which is block 2.
const ENTRY: IndexEntry = IndexEntry {
    block: 2,
    free: 0,
    none_before: 0,
};

/// An index block of that bitmap alone.
fn index_block() -> Block {
    let mut index = new_index(&[ENTRY]);
    seal_index(&mut index, 1);
    index
}

/// A leaf of an index tree that names the same one.
#[tactic(auto, unfolding(pd_kinds::specs::Node::is_ascending))]
fn index_leaf() -> Block {
    write_leaf(1, &[(0, ENTRY)])
}

/// A map of four blocks: block 0 has the count 1, block 1 has 0, block 2 has 5, and block 3 has 3 in its two bits and
/// no entry in the overflow tree. The bitmap is block 2, the overflow tree block 3.
#[tactic(auto, unfolding(pd_kinds::specs::Node::is_ascending))]
fn counts_of_each_kind(index: Block) -> [Block; 4] {
    let mut bitmap = new_bitmap();
    set_two_bits(&mut bitmap, 0, 1);
    set_two_bits(&mut bitmap, 2, 3);
    set_two_bits(&mut bitmap, 3, 3);
    seal_bitmap(&mut bitmap, 2);
    [
        Block::zeros(),
        index,
        bitmap,
        write_leaf::<Count>(3, &[(2, Count(5))]),
    ]
}

/// The root of that map.
const EACH_KIND: SmRoot = SmRoot {
    blocks: 4,
    allocated: 3,
    bitmap_root: 1,
    overflow_root: 3,
};

/// A fault of a count: the device, the block, the rule, the stored count and the number of references.
type Row = (Space, u64, Rule, u64, u64);

/// What that map's counts of metadata differ in from no references.
const META_FAULTS: &[Row] = &[
    (Space::Meta, 0, Rule::Leak, 1, 0),
    (Space::Meta, 2, Rule::Leak, 5, 0),
    (Space::Meta, 3, Rule::Overflow, 0, 0),
];

/// What that map's counts of data differ in from one reference each of blocks 0 and 1.
const DATA_FAULTS: &[Row] = &[
    (Space::DataBlock, 1, Rule::Short, 0, 1),
    (Space::DataBlock, 2, Rule::Leak, 5, 0),
    (Space::DataBlock, 3, Rule::Overflow, 0, 0),
];

/// Whether this is the fault with this number.
fn has_fault(report: &Report, i: usize, row: Row) -> bool {
    let (space, block, rule, stored, refs) = row;
    let fault = Fault {
        space,
        block,
        rule,
        stored,
        refs,
    };
    i < report.len() && report.get(i) == fault
}

/// A report has these faults and no more.
fn expect_faults(rt: &impl Abort, report: &Report, rows: &[Row]) {
    assert!(rt; report.total() == rows.len() as u64);
    for (i, row) in rows.iter().enumerate() {
        assert!(rt; has_fault(report, i, *row), "{i}");
    }
}

/// Compares that map's counts of metadata with no references.
fn expect_meta_faults(rt: &impl Abort, alloc: Global, device: &mut MemDevice) -> Result<(), Fail>
    requires attached { IsAttached (mem_device_state device.old) }
    requires blocks { 4 ≤ (mem_device_state device.old).blocks }
{
    let audit = Audit::new(alloc, 4)?;
    let mut report = Report::new();
    assert!(rt; compare_meta(alloc, device, &EACH_KIND, &audit, &mut report).is_ok());
    expect_faults(rt, &report, META_FAULTS);
    Ok(())
}

#[test]
fn metadata_counts_differ_from_no_references(rt: HostRuntime) -> Result<(), Fail> {
    let image = counts_of_each_kind(index_block());
    let mut device = device_of(rt.alloc(), &image, false, NEVER, NEVER)?;
    let is_five = stored_meta(&mut *device, &EACH_KIND, 2) == Ok(Some(5));
    let is_none = stored_meta(&mut *device, &EACH_KIND, 3) == Ok(None);
    assert!(rt; is_five & is_none);
    expect_meta_faults(&rt, rt.alloc(), &mut *device)
}

/// Counts of four blocks: blocks 0 and 1 once each.
fn two_counted(rt: &impl Abort, alloc: Global) -> Result<Counts, Fail>
    ensures { IfOk result (λ counts. counts.size ≡ 4) }
{
    let mut counts = Counts::new(alloc, 4)?;
    count(rt, &mut counts, 0)?;
    count(rt, &mut counts, 1)?;
    Ok(counts)
}

/// Compares that map's counts of data with those references.
fn expect_data_faults(rt: &impl Abort, alloc: Global, device: &mut MemDevice) -> Result<(), Fail>
    requires attached { IsAttached (mem_device_state device.old) }
    requires blocks { 4 ≤ (mem_device_state device.old).blocks }
{
    let counts = two_counted(rt, alloc)?;
    let mut report = Report::new();
    assert!(rt; compare_data(alloc, device, &EACH_KIND, &counts, &mut report).is_ok());
    expect_faults(rt, &report, DATA_FAULTS);
    Ok(())
}

#[test]
fn data_counts_differ_from_the_references(rt: HostRuntime) -> Result<(), Fail> {
    let image = counts_of_each_kind(index_leaf());
    let mut device = device_of(rt.alloc(), &image, false, NEVER, NEVER)?;
    expect_data_faults(&rt, rt.alloc(), &mut *device)
}
