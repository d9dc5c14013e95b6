//! The mappings of leaves to the data blocks of a region (`thin_rmap`).

ghost use Rattle.std.specs.Prelude.{◌≡◌, ◌++◌, ◌∷◌, [], false, filter, map, IfOk, IsTrue, OnOk};
ghost use Rattle.pd_kinds.specs.Node.{is_inner_node};
ghost use Rattle.pd_uses.specs.HitRuns.{joined_hits};
ghost use Rattle.pd_uses.specs.Hits.{has_block, hits_in, is_hit, run_hits, runs_hits, use_of};
ghost use Rattle.pd_uses.specs.Spans.{IsSpan};
ghost use Rattle.pd_uses.specs.FoundUses.{leaf_at};
ghost use Rattle.pd_uses.specs.Parts.{AreParts, hits_at, part_hits};

use crate::hit_runs::{HitRun, Joining};
use pd_kinds::Block;
use pd_node::{entries, key, value};
use pd_value::BlockTime;
use std::alloc::{AllocError, Global};
use std::marker::Model;

/// The data blocks from the first on and below the end.
#[derive(Clone, Copy, Debug, PartialEq, Eq)]
pub(crate) struct Region {
    pub(crate) first: u64,
    /// The block after the last one.
    pub(crate) end: u64,
}

/// A mapping to a data block of a region, in a leaf.
#[derive(Clone, Copy, Debug, PartialEq, Eq)]
pub(crate) struct Hit {
    pub(crate) block: u64,
    /// The virtual block that is mapped to it.
    pub(crate) virt: u64,
}

impl Hit {
    /// The use that it is where the device of this number has the leaf.
    pub(crate) fn use_by(self, id: u64) -> DataUse
        ensures { result ≡ use_of id self }
    {
        DataUse {
            block: self.block,
            id,
            virt: self.virt,
        }
    }
}

/// A block at or below those of some mappings, and one at or above them.
#[derive(Clone, Copy, Debug, PartialEq, Eq)]
pub(crate) struct Span {
    pub(crate) least: u64,
    pub(crate) most: u64,
}

/// The mappings of a leaf to the blocks of a region, in runs, and between which blocks they lead.
#[derive(Drop)]
pub(crate) struct LeafHits {
    runs: Vec<HitRun>,
    span: Span,
}

impl Model for LeafHits {
    ghost use Rattle.std.specs.Prelude.{List};
    ghost use Rattle.pd_uses.specs.declared.hits.Hit.{Hit as OneHit};
    ghost use Rattle.pd_uses.specs.Hits.{runs_hits};
    ghost use Rattle.pd_uses.specs.Spans.{IsSpan};

    ghost Value = { List OneHit };

    ghost view = { λ leaf. runs_hits leaf.runs.items };

    ghost invariant = { λ leaf. IsSpan leaf.span (runs_hits leaf.runs.items) };
}

impl Region {
    /// Whether the block is in it.
    fn has(self, block: u64) -> bool
        ensures { result ≡ has_block self block }
    {
        (block >= self.first) & (block < self.end)
    }
}

/// Adds a mapping, if its block is in the region. Want of memory is the only error.
fn add_hit(hits: &mut Vec<Hit>, region: Region, hit: Hit) -> Result<(), AllocError>
    ensures { OnOk result (hits.new.items ≡ hits.old.items ++ filter (is_hit region) (hit ∷ [])) }
{
    if region.has(hit.block) {
        hits.push(hit)?;
    }
    Ok(())
}

/// Adds the mappings of a run whose blocks are in the region. Want of memory is the only error.
fn add_run(hits: &mut Vec<Hit>, region: Region, run: HitRun) -> Result<(), AllocError>
    ensures { OnOk result (hits.new.items ≡ hits.old.items ++ filter (is_hit region) (run_hits run)) }
{
    for place in 0..run.number {
        add_hit(hits, region, run.hit(place))?;
    }
    Ok(())
}

/// Adds a mapping to runs, if its block is in the region. Want of memory is the only error.
fn join_hit(joining: &mut Joining, region: Region, hit: Hit) -> Result<(), AllocError>
    ensures { OnOk result (joined_hits joining.new ≡ joined_hits joining.old ++ filter (is_hit region) (hit ∷ [])) }
{
    if region.has(hit.block) {
        joining.add(hit)?;
    }
    Ok(())
}

/// The mappings of a leaf to the blocks of the region. Want of memory is the only error.
#[tactic(auto, unfolding(crate::specs::Hits::hits_in, pd_tree::specs::Below::items_from))]
fn hits_of_leaf(alloc: Global, region: Region, block: &Block) -> Result<Vec<HitRun>, AllocError>
    requires { is_inner_node block.now.0 ≡ false }
    ensures { IfOk result (λ runs. runs_hits runs.items ≡ hits_in region block.now.0) }
{
    let mut joining = Joining::new(alloc);
    for i in 0..entries::<BlockTime>(block) {
        let hit = Hit {
            block: value::<BlockTime>(block, i).block,
            virt: key::<BlockTime>(block, i),
        };
        join_hit(&mut joining, region, hit)?;
    }
    joining.end()
}

/// Between which blocks mappings lead.
fn span_of(runs: &[HitRun]) -> Span
    ensures { IsSpan result (runs_hits runs.now) }
{
    let mut span = Span {
        least: u64::MAX,
        most: 0,
    };
    for run in runs {
        let least = span.least.min(run.first_block());
        let most = span.most.max(run.last_block());
        span = Span { least, most };
    }
    span
}

/// How many of the mappings lead to the blocks of the region.
fn number_within(runs: &[HitRun], region: Region) -> usize {
    let mut number: usize = 0;
    for run in runs {
        let first = run.block.max(region.first);
        let end = run
            .block
            .saturating_add(u64::from(run.number))
            .min(region.end);
        number = number.saturating_add(end.saturating_sub(first) as usize);
    }
    number
}

/// Those of the mappings in another region. Want of memory is the only error.
fn hits_within(alloc: Global, runs: &[HitRun], region: Region) -> Result<Vec<Hit>, AllocError>
    ensures { IfOk result (λ hits. hits.items ≡ filter (is_hit region) (runs_hits runs.now)) }
{
    let mut hits = Vec::with_capacity(alloc, number_within(runs, region))?;
    for run in runs {
        add_run(&mut hits, region, *run)?;
    }
    Ok(hits)
}

impl LeafHits {
    /// The mappings of a leaf to the blocks of the region. Want of memory is the only error.
    pub(crate) fn of(alloc: Global, region: Region, block: &Block) -> Result<LeafHits, AllocError>
        requires { is_inner_node block.now.0 ≡ false }
        ensures { IfOk result (λ leaf. leaf ≡ hits_in region block.now.0) }
    {
        let runs = hits_of_leaf(alloc, region, block)?;
        let span = span_of(runs.as_slice());
        Ok(LeafHits { runs, span })
    }

    /// Whether there are none.
    pub(crate) fn is_empty(&self) -> bool
        ensures { IsTrue result → self.now ≡ [] }
    {
        self.runs().is_empty()
    }

    /// Whether all of them lead past the region, to one side or the other. It looks at none of them.
    pub(crate) fn is_outside(&self, region: Region) -> bool
        ensures { IsTrue result → filter (is_hit region) self.now ≡ [] }
    {
        (self.span.most < region.first) | (self.span.least >= region.end)
    }

    /// Whether all of them lead into the region. It looks at none of them.
    pub(crate) fn is_inside(&self, region: Region) -> bool
        ensures { IsTrue result → filter (is_hit region) self.now ≡ self.now }
    {
        (self.span.least >= region.first) & (self.span.most < region.end)
    }

    /// Those of them in another region. Want of memory is the only error.
    pub(crate) fn within(&self, alloc: Global, region: Region) -> Result<Vec<Hit>, AllocError>
        ensures { IfOk result (λ hits. hits.items ≡ filter (is_hit region) self.now) }
    {
        hits_within(alloc, self.runs(), region)
    }

    /// The mappings in runs, by ascending virtual block.
    pub(crate) fn runs(&self) -> &[HitRun]
        ensures { runs_hits result.now ≡ self.now }
    {
        self.runs.as_slice()
    }

    /// How many there are.
    pub(crate) fn number(&self) -> usize {
        let mut number: usize = 0;
        for run in &self.runs {
            number = number.saturating_add(run.number as usize);
        }
        number
    }
}

// Uses of data blocks (`thin_ls`, `thin_rmap`).

/// A use of a data block: by a virtual block of a thin device.
#[derive(Clone, Copy, Debug, PartialEq, Eq)]
pub struct DataUse {
    /// The data block.
    pub block: u64,
    /// The number of the thin device.
    pub id: u64,
    /// The virtual block that is mapped to the data block.
    pub virt: u64,
}

// What leaves have of a part of the region (`thin_rmap`).

/// Which of a leaf's mappings lead to the blocks of a part.
#[derive(Drop)]
pub(crate) enum LeafPart {
    Nothing,
    /// All of them.
    Whole,
    /// These, where the part cuts the leaf.
    Cut(Vec<Hit>),
}

/// What a leaf has of a part. Its mappings are looked at only where the part cuts it. Want of memory is the only error.
fn part_of(alloc: Global, leaf: &LeafHits, part: Region) -> Result<LeafPart, AllocError>
    ensures { IfOk result (λ has. part_hits leaf.now has ≡ filter (is_hit part) leaf.now) }
{
    if leaf.is_outside(part) {
        return Ok(LeafPart::Nothing);
    }
    if leaf.is_inside(part) {
        return Ok(LeafPart::Whole);
    }
    Ok(LeafPart::Cut(leaf.within(alloc, part)?))
}

/// What each leaf has of a part. Want of memory is the only error.
pub(crate) fn parts_of(
    alloc: Global,
    leaves: &[LeafHits],
    part: Region,
) -> Result<Vec<LeafPart>, AllocError>
    ensures { IfOk result (λ parts. AreParts part leaves.now parts.items) }
{
    let mut parts = Vec::with_capacity(alloc, leaves.len())?;
    for leaf in leaves {
        parts.push(part_of(alloc, leaf, part)?)?;
    }
    Ok(parts)
}

/// The mappings of the leaf of a number, in runs; there are none without a leaf.
#[tactic(auto, unfolding(crate::specs::Hits::runs_hits))]
pub(crate) fn runs_of(leaves: &[LeafHits], n: usize) -> &[HitRun]
    ensures { runs_hits result.now ≡ leaf_at leaves.now n }
{
    match leaves.get(n) {
        Some(leaf) => leaf.runs(),
        None => &[],
    }
}

/// Adds the uses that the mappings of the leaf of a number to a part's blocks are where a device has the leaf. Want of
/// memory is the only error.
pub(crate) fn add_part_uses(
    uses: &mut Vec<DataUse>,
    id: u64,
    leaves: &[LeafHits],
    parts: &[LeafPart],
    n: usize,
) -> Result<(), AllocError>
    ensures { OnOk result (uses.new.items ≡ uses.old.items ++ map (use_of id) (hits_at leaves.now parts.now n)) }
{
    let Some(has) = parts.get(n) else {
        return Ok(());
    };
    match has {
        LeafPart::Nothing => Ok(()),
        LeafPart::Whole => add_runs(uses, id, runs_of(leaves, n)),
        LeafPart::Cut(hits) => add_uses(uses, id, hits.as_slice()),
    }
}

/// How many mappings the leaves have of the part.
pub(crate) fn number_of_hits(leaves: &[LeafHits], parts: &[LeafPart]) -> usize {
    let mut number: usize = 0;
    for (n, has) in parts.iter().enumerate() {
        let here = match has {
            LeafPart::Nothing => 0,
            LeafPart::Whole => number_of(leaves, n),
            LeafPart::Cut(hits) => hits.len(),
        };
        number = number.saturating_add(here);
    }
    number
}

/// How many mappings the leaf of a number has.
fn number_of(leaves: &[LeafHits], n: usize) -> usize {
    match leaves.get(n) {
        Some(leaf) => leaf.number(),
        None => 0,
    }
}

// Uses of data blocks, put together.

/// Adds the uses that mappings are where a device has them. Want of memory is the only error.
fn add_uses(uses: &mut Vec<DataUse>, id: u64, hits: &[Hit]) -> Result<(), AllocError>
    ensures { OnOk result (uses.new.items ≡ uses.old.items ++ map (use_of id) hits.now) }
{
    for hit in hits {
        uses.push(hit.use_by(id))?;
    }
    Ok(())
}

/// Adds the uses that runs of mappings are where a device has them. Want of memory is the only error.
fn add_runs(uses: &mut Vec<DataUse>, id: u64, runs: &[HitRun]) -> Result<(), AllocError>
    ensures { OnOk result (uses.new.items ≡ uses.old.items ++ map (use_of id) (runs_hits runs.now)) }
{
    for run in runs {
        add_run_uses(uses, id, *run)?;
    }
    Ok(())
}

/// Adds those that one run is.
fn add_run_uses(uses: &mut Vec<DataUse>, id: u64, run: HitRun) -> Result<(), AllocError>
    ensures { OnOk result (uses.new.items ≡ uses.old.items ++ map (use_of id) (run_hits run)) }
{
    for place in 0..run.number {
        uses.push(run.hit(place).use_by(id))?;
    }
    Ok(())
}
