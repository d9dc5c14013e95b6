//! Details trees by what is measured of them, and which of those with one sum are the best for a mapping tree.
//! Serves `thin_repair`.

ghost use Rattle.std.specs.Prelude.{◌≡◌, ℕ, ◌+◌, IfOk, OnOk, Some, if◌then◌else◌, ◌<◌, IfSome};
ghost use Rattle.std.specs.BTreeMap.{get};
ghost use Rattle.pd_graph.specs.Notes.{size_of};
ghost use Rattle.pd_scan.specs.Partners.{AreBySum, has_sum, partner_of, sum_cmp, sum_of, time_of, with_one};
ghost use Rattle.pd_scan.specs.Pairs.{IsBestOf, better_of, improves as does_improve};
ghost use Rattle.pd_scan.specs.Pairs.{may_fit as may_match, pair_of_trees, found_of, roots_of};

use crate::roots::Roots;
use crate::tops::is_good;
use crate::trees::LostTrees;
use pd_graph::Notes;
use pd_measures::{Measured, Measures};
use std::alloc::{AllocError, Global};
use std::collections::BTreeMap;

/// A sound details tree, by what it is compared by with others of its sum.
#[derive(Clone, Copy)]
pub(crate) struct Partner {
    /// The block of its root.
    root: u64,
    /// The latest time at which a device was made or last shared.
    time: u32,
    /// The latest transaction of a device.
    transaction: u64,
}

impl Partner {
    ghost use Rattle.std.specs.Prelude.{◌≡◌};
    ghost use Rattle.pd_laid.specs.FoundRoots.{is_greater};
    ghost use Rattle.pd_scan.specs.Partners.{by_time, by_transaction, greater_of, partner_of};

    /// The tree with this root, by what is measured of it.
    fn of(root: u64, measure: Measured) -> Partner
        ensures { result ≡ partner_of root measure }
    {
        Partner {
            root,
            time: time(measure),
            transaction: measure.transaction,
        }
    }

    /// Whether its transaction is later than that of another tree. Of the same transaction the higher root is.
    #[tactic(auto, using(std::proofs::lemmas::Bool::Decides::nat_tests))]
    fn is_newer(self, other: Partner) -> bool
        ensures { result ≡ is_greater (by_transaction self) (by_transaction other) }
    {
        if self.transaction != other.transaction {
            return self.transaction > other.transaction;
        }
        self.root > other.root
    }

    /// Whether its time is later than that of another tree. Of the same time the newer one is.
    #[tactic(auto, using(std::proofs::lemmas::Bool::Decides::nat_tests))]
    fn is_later(self, other: Partner) -> bool
        ensures { result ≡ is_greater (by_time self) (by_time other) }
    {
        if self.time != other.time {
            return self.time > other.time;
        }
        self.is_newer(other)
    }

    /// The newer one of two trees.
    fn newer(self, other: Partner) -> Partner
        ensures { result ≡ greater_of by_transaction self other }
    {
        if other.is_newer(self) { other } else { self }
    }

    /// The later one of two trees.
    fn later(self, other: Partner) -> Partner
        ensures { result ≡ greater_of by_time self other }
    {
        if other.is_later(self) { other } else { self }
    }
}

/// The sound details trees that have one sum, as far as it matters which of them a mapping tree is paired with.
#[derive(Clone, Copy)]
pub(crate) struct Partners {
    /// The one with the latest time, of these with the latest transaction, and of these with the highest root.
    latest: Partner,
    /// The one with the latest transaction, and of these with the highest root.
    newest: Partner,
}

impl Partners {
    ghost use Rattle.std.specs.Prelude.{◌≡◌};
    ghost use Rattle.pd_scan.specs.Partners.{best_partner, with_one};

    /// Those found so far, and one more tree.
    fn with(found: Option<Partners>, one: Partner) -> Partners
        ensures { result ≡ with_one found one }
    {
        match found {
            None => Partners {
                latest: one,
                newest: one,
            },
            Some(partners) => Partners {
                latest: partners.latest.later(one),
                newest: partners.newest.newer(one),
            },
        }
    }

    /// The root of the best partner of a mapping tree with this time. The later time of both counts, then the transaction,
    /// and then the root: so it is the latest one where it is later than the mapping tree, and else the newest.
    pub(crate) fn best(self, time: u32) -> u64
        ensures { result ≡ best_partner self time }
    {
        if time < self.latest.time {
            self.latest.root
        } else {
            self.newest.root
        }
    }
}

/// The partners by their sum: how many mappings there are, and the fingerprint.
pub(crate) type BySum = BTreeMap<(u64, u64), Partners>;

/// The sum of what is measured of a tree.
pub(crate) fn sum(measure: Measured) -> (u64, u64)
    ensures { result ≡ sum_of measure }
{
    (measure.total, measure.print)
}

/// The latest time below a tree. A pool's times have 32 bits.
pub(crate) fn time(measure: Measured) -> u32
    ensures { result ≡ time_of measure }
{
    u32::try_from(measure.time).unwrap_or(u32::MAX)
}

/// Puts one more tree with those of its sum. Want of memory is the only error.
fn put(table: &mut BySum, root: u64, measure: Measured) -> Result<(), AllocError>
    ensures { OnOk result ((asked : ℕ × ℕ) → get sum_cmp table.new asked ≡ (if has_sum asked measure
        then Some (with_one (get sum_cmp table.old asked) (partner_of root measure)) else get sum_cmp table.old asked)) }
{
    let sum = sum(measure);
    let found = table.get(&sum).copied();
    table.insert(sum, Partners::with(found, Partner::of(root, measure)))?;
    Ok(())
}

/// Puts the details tree with root b with those of its sum, if it is sound. Want of memory is the only error.
fn put_sound(
    table: &mut BySum,
    details: &Notes,
    measures: &Measures,
    b: u64,
) -> Result<(), AllocError>
    ensures { OnOk result (AreBySum details.now measures.now b table.old → AreBySum details.now measures.now (b + 1) table.new) }
{
    if is_good(details, b) {
        put(table, b, measures.get(b))?;
    }
    Ok(())
}

/// The sound details trees by their sums. It takes memory for each sum; want of it is the only error.
pub(crate) fn partners_by_sum(
    alloc: Global,
    details: &Notes,
    measures: &Measures,
) -> Result<BySum, AllocError>
    ensures { IfOk result (AreBySum details.now measures.now (size_of details.now)) }
{
    let mut table = BTreeMap::new(alloc);
    for b in 0..details.nr() {
        put_sound(&mut table, details, measures, b)?;
    }
    Ok(table)
}

// Pairs of a mapping tree and a details tree, by what is measured of them, and the best of those that may fit each other.
// Serves `thin_repair`.

/// The roots of two trees that fit each other, by what is measured of them.
#[tactic(auto, unfolding(crate::specs::Pairs::pair_of_trees))]
fn pair(trees: &LostTrees, top: u64, details: u64) -> Roots
    ensures { roots_of result ≡ pair_of_trees trees.now top details }
{
    let mappings = trees.top_measures.get(top);
    let devices = trees.details_measures.get(details);
    Roots {
        top,
        details,
        mappings: mappings.total,
        time: time(mappings).max(time(devices)),
        transaction: devices.transaction,
        times: mappings.times,
    }
}

/// Whether roots are better than the best ones so far, if there are any.
fn improves(roots: &Roots, best: Option<Roots>) -> bool
    ensures { result ≡ does_improve (roots_of roots.now) (found_of best) }
{
    match best {
        None => true,
        Some(best) => roots.is_better(&best),
    }
}

/// The better ones of the best so far and others, where there are some.
fn better(best: Option<Roots>, roots: Option<Roots>) -> Option<Roots>
    ensures { found_of result ≡ better_of (found_of best) (found_of roots) }
{
    match roots {
        Some(roots) if improves(&roots, best) => Some(roots),
        _ => best,
    }
}

/// The best roots of those whose mapping tree is this one, by the partners of each sum.
pub(crate) fn best_of_top(trees: &LostTrees, by_sum: &BySum, top: u64) -> Option<Roots>
    requires { AreBySum trees.now.details trees.now.details_measures (size_of trees.now.details) by_sum.now }
    ensures best { IsBestOf (may_match trees.now) (pair_of_trees trees.now) (λ t d. t ≡ top) (found_of result) }
    ensures own { IfSome result (λ roots. roots.top ≡ top) }
{
    if !is_good(&trees.tops, top) {
        return None;
    }
    let measure = trees.top_measures.get(top);
    match by_sum.get(&sum(measure)) {
        Some(partners) => Some(pair(trees, top, partners.best(time(measure)))),
        None => None,
    }
}

/// The best roots of all trees that may fit each other, by the partners of each sum.
pub(crate) fn best_of_tops(trees: &LostTrees, by_sum: &BySum) -> Option<Roots>
    requires { AreBySum trees.now.details trees.now.details_measures (size_of trees.now.details) by_sum.now }
    ensures { IsBestOf (may_match trees.now) (pair_of_trees trees.now) (λ t d. t < size_of trees.now.tops) (found_of result) }
{
    let mut best = None;
    for top in 0..trees.tops.nr() {
        best = better(best, best_of_top(trees, by_sum, top));
    }
    best
}
