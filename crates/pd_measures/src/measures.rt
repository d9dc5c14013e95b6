//! The table of measures, by block number (`thin_repair`).

ghost use Rattle.std.specs.Prelude.{◌≡◌, ℕ, ◌+◌, ◌<◌, ◌≤◌, Bool, true, false, if◌then◌else◌, map, OnOk, IfSome};
ghost use Rattle.std.specs.List.{range_with_len};
ghost use Rattle.pd_kinds.specs.Objects.{CountsFault};
ghost use Rattle.pd_kinds.specs.Graph.{Graph};
ghost use Rattle.pd_kinds.specs.Layout.{node_entries_of};
ghost use Rattle.pd_kinds.specs.Node.{child_at, entry_count, is_inner_node};
ghost use Rattle.pd_image.specs.Device.{IsAttached, OnlyReads};
ghost use Rattle.pd_graph.specs.Notes.{note_in, size_of};
ghost use Rattle.pd_graph.specs.Walk.{weigh};
ghost use Rattle.pd_measures.specs.Measured.{join as join_of, no_measure, joined, measured, measure_at, places_of};
ghost use Rattle.pd_measures.specs.Measured.{AreMeasured, AreMeasuredTo, AreTrees, was_read};

use crate::gauges::Gauge;
use pd_graph::{BlockTable, Notes};
use pd_image::{Device, Failed};
use pd_kinds::Block;
use pd_node::is_inner;
use std::alloc::{AllocError, Global};

/// A measure for each of so many blocks, in 48 bytes.
#[derive(Drop)]
pub struct Measures {
    kept: BlockTable<Measured>,
}

impl Measures {
    ghost use Rattle.std.specs.Prelude.{◌≡◌, ℕ, ◌<◌, ◌==◌, if◌then◌else◌, IfOk};
    ghost use Rattle.pd_measures.specs.Measured.{measure_at, places_of};

    /// Measures for so many blocks, each that of no entries. It reserves all the memory of the measures; want of it is
    /// the only error.
    pub fn new(alloc: Global, nr: u64) -> Result<Measures, AllocError>
        ensures { IfOk result (λ measures. places_of measures ≡ nr) }
    {
        let kept = BlockTable::new(alloc, nr as usize, Measured::none())?;
        Ok(Measures { kept })
    }

    /// The measure of block b, and that of no entries where there is no block b.
    pub fn get(&self, b: u64) -> Measured
        ensures { result ≡ measure_at self.now b }
    {
        let b = b as usize;
        if b < self.kept.places() {
            self.kept.get(b)
        } else {
            Measured::none()
        }
    }

    /// Replaces the measure of block b.
    pub fn set(&mut self, b: u64, measure: Measured)
        requires { b < places_of self.old }
        ensures places { places_of self.new ≡ places_of self.old }
        ensures measures { (c : ℕ) → measure_at self.new c ≡ (if c == b then measure else measure_at self.old c) }
    {
        self.kept.set(b as usize, measure);
    }
}

// What is measured below a node (`thin_repair`).

/// What is measured of the entries that stand below a node of a tree.
#[derive(Clone, Copy, Debug, PartialEq, Eq)]
pub struct Measured {
    /// How many mappings they count for. It stays at 2^64 - 1 where it would pass it.
    pub total: u64,
    /// Their latest time, and 0 where there is none.
    pub time: u64,
    /// Their latest transaction, and 0 where there is none.
    pub transaction: u64,
    /// The sum, modulo 2^64, of a number for each of them. Lists of entries that count for the same have the same one.
    pub print: u64,
    /// The sum of the times of the mappings that they count for. It stays at 2^128 - 1 where it would pass it.
    pub times: u128,
}

impl Measured {
    /// The measure of no entries.
    pub fn none() -> Measured
        ensures { result ≡ no_measure }
    {
        Measured {
            total: 0,
            time: 0,
            transaction: 0,
            times: 0,
            print: 0,
        }
    }

    /// The measure of entries and of others behind them.
    pub fn join(self, other: Measured) -> Measured
        ensures { result ≡ join_of self other }
    {
        Measured {
            total: self.total.saturating_add(other.total),
            time: self.time.max(other.time),
            transaction: self.transaction.max(other.transaction),
            times: self.times.saturating_add(other.times),
            print: self.print.wrapping_add(other.print),
        }
    }
}

// The measures of the nodes of trees, by rising height (`thin_repair`).

/// The greatest height of a good node.
const MAX_HEIGHT: u8 = 64;

/// The measure of a leaf: of its entries.
fn measure_leaf<G: Gauge>(gauge: &G, block: &Block) -> Measured
    requires { is_inner_node block.now.0 ≡ false }
    ensures { result ≡ measured (G.of gauge.now) (node_entries_of G.SIZE block.now.0) }
{
    let mut sum = Measured::none();
    for i in 0..gauge.entries(block) {
        sum = sum.join(gauge.entry(block, i));
    }
    sum
}

/// The measure of an inner node: those of its children, one after another.
fn measure_inner<G: Gauge>(measures: &Measures, gauge: &G, block: &Block) -> Measured
    requires { is_inner_node block.now.0 ≡ true }
    ensures { result ≡ joined (measure_at measures.now) no_measure
        (map (child_at block.now.0) (range_with_len 0 (entry_count G.SIZE block.now.0))) }
{
    let mut sum = Measured::none();
    for i in 0..gauge.entries(block) {
        sum = sum.join(measures.get(gauge.child(block, i)));
    }
    sum
}

/// The measure of a node, where its children were measured.
fn measure_block<G: Gauge>(measures: &Measures, gauge: &G, block: &Block) -> Measured
    ensures leaf { is_inner_node block.now.0 ≡ false → result ≡ measured (G.of gauge.now) (node_entries_of G.SIZE block.now.0) }
    ensures inner { is_inner_node block.now.0 ≡ true → result
        ≡ joined (measure_at measures.now) no_measure (map (child_at block.now.0) (range_with_len 0 (entry_count G.SIZE block.now.0))) }
{
    if is_inner(block) {
        measure_inner(measures, gauge, block)
    } else {
        measure_leaf(gauge, block)
    }
}

/// Measures block b, where its note has this height: all nodes of lower height were measured before.
fn measure_node<G: Gauge, D: Device>(
    measures: &mut Measures,
    notes: &Notes,
    gauge: &G,
    dev: &mut D,
    height: u8,
    b: u64,
) -> Result<(), Failed>
    requires attached { IsAttached (D.state dev.old) }
    requires block { b < size_of notes.now }
    requires places { places_of measures.old ≡ size_of notes.now }
    requires within { size_of notes.now ≤ (D.state dev.old).blocks }
    ensures measured { OnOk result (IfSome (D.state dev.old).held (λ image. (graph : Graph) (role : ℕ) (fit : ℕ → Bool)
        → AreTrees graph image role G.SIZE fit notes.now
        → AreMeasuredTo graph image role G.SIZE fit (G.of gauge.now) notes.now height b measures.old
        → AreMeasuredTo graph image role G.SIZE fit (G.of gauge.now) notes.now height (b + 1) measures.new)) }
    ensures places { places_of measures.new ≡ places_of measures.old }
    ensures reads { (D.state dev.new).reads + weigh (was_read notes.now height b) (λ c. 1) (size_of notes.now)
        ≤ (D.state dev.old).reads + weigh (was_read notes.now height (b + 1)) (λ c. 1) (size_of notes.now) }
    ensures kept { OnlyReads (D.state dev.old) (D.state dev.new) }
    ensures faults { CountsFault result (D.state dev.old).faults (D.state dev.new).faults }
{
    if notes.note(b).height == height {
        let mut block = Block::zeros();
        dev.read(b, &mut block)?;
        let measure = measure_block(measures, gauge, &block);
        measures.set(b, measure);
    }
    Ok(())
}

/// Measures all nodes of this height, where those of lower heights were measured.
fn measure_level<G: Gauge, D: Device>(
    measures: &mut Measures,
    notes: &Notes,
    gauge: &G,
    dev: &mut D,
    height: u8,
) -> Result<(), Failed>
    requires attached { IsAttached (D.state dev.old) }
    requires places { places_of measures.old ≡ size_of notes.now }
    requires within { size_of notes.now ≤ (D.state dev.old).blocks }
    ensures measured { OnOk result (IfSome (D.state dev.old).held (λ image. (graph : Graph) (role : ℕ) (fit : ℕ → Bool)
        → AreTrees graph image role G.SIZE fit notes.now
        → AreMeasuredTo graph image role G.SIZE fit (G.of gauge.now) notes.now height 0 measures.old
        → AreMeasuredTo graph image role G.SIZE fit (G.of gauge.now) notes.now (height + 1) 0 measures.new)) }
    ensures places { places_of measures.new ≡ places_of measures.old }
    ensures reads { (D.state dev.new).reads + weigh (was_read notes.now height 0) (λ c. 1) (size_of notes.now)
        ≤ (D.state dev.old).reads + weigh (was_read notes.now (height + 1) 0) (λ c. 1) (size_of notes.now) }
    ensures kept { OnlyReads (D.state dev.old) (D.state dev.new) }
    ensures faults { CountsFault result (D.state dev.old).faults (D.state dev.new).faults }
{
    for b in 0..notes.nr() {
        measure_node(measures, notes, gauge, dev, height, b)?;
    }
    Ok(())
}

/// One more than the height of block b, where it is good; else 1.
fn levels_at(notes: &Notes, b: u64) -> u8
    requires { b < size_of notes.now }
    ensures some { 1 ≤ result }
    ensures few { result ≤ 65 }
    ensures above { (note_in notes.now b).height ≤ 64 → (note_in notes.now b).height < result }
{
    let height = notes.note(b).height;
    if height <= MAX_HEIGHT { height + 1 } else { 1 }
}

/// One more than the greatest height of the good blocks, and 1 where there is none.
fn levels(notes: &Notes) -> u8
    ensures some { 1 ≤ result }
    ensures few { result ≤ 65 }
    ensures above { (b : ℕ) → b < size_of notes.now → (note_in notes.now b).height ≤ 64 → (note_in notes.now b).height < result }
{
    let mut levels = 1;
    for b in 0..notes.nr() {
        levels = levels.max(levels_at(notes, b));
    }
    levels
}

/// Measures the good nodes of all trees of one role: what the entries below each count for, put together from children to
/// parents, so that a node that many trees share is read once. It takes no memory.
///
/// What it says of content holds where the device tells what it holds, and the notes are those that `settle_role` left;
/// over any other device or notes it is safe. After `Failed` the measures may not be used.
pub fn measure_trees<G: Gauge, D: Device>(
    measures: &mut Measures,
    notes: &Notes,
    gauge: &G,
    dev: &mut D,
) -> Result<(), Failed>
    requires attached { IsAttached (D.state dev.old) }
    requires places { places_of measures.old ≡ size_of notes.now }
    requires within { size_of notes.now ≤ (D.state dev.old).blocks }
    ensures measured { OnOk result (IfSome (D.state dev.old).held (λ image. (graph : Graph) (role : ℕ) (fit : ℕ → Bool)
        → AreTrees graph image role G.SIZE fit notes.now → AreMeasured graph image role G.SIZE fit (G.of gauge.now) measures.new)) }
    ensures places { places_of measures.new ≡ places_of measures.old }

    // Each block is read once at most, also where a read failed.
    ensures reads { (D.state dev.new).reads ≤ (D.state dev.old).reads + size_of notes.now }
    ensures kept { OnlyReads (D.state dev.old) (D.state dev.new) }
    ensures faults { CountsFault result (D.state dev.old).faults (D.state dev.new).faults }
{
    for height in 1..levels(notes) {
        measure_level(measures, notes, gauge, dev, height)?;
    }
    Ok(())
}
