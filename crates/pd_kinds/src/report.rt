//! A report: the first thousand faults, and how many there are.

ghost use Rattle.std.specs.Prelude.{◌≡◌, ◌==◌, ◌-◌, ◌^◌, ◌<◌, ◌≤◌, ◌+◌, ◌++◌, ◌∷◌, [], List, length};
ghost use Rattle.std.specs.Prelude.{take, map, filter, slice_get, if◌then◌else◌};
ghost use Rattle.pd_kinds.specs.Rule.{is_leak};
ghost use Rattle.pd_kinds.specs.declared.report.CheckFault.TheVariants.{Memory};

use crate::kind::Passing;
use crate::rule::{Fault, Rule, Space};
use crate::rules::Rules;
use std::alloc::{AllocError, AllocFailed};
use std::marker::Model;

/// How many faults a report keeps.
pub const KEPT_FAULTS: usize = 1000;

/// The first thousand of the faults that were added, the number of all, and how many of all are leaks.
///
/// The places for them are in the report itself, so that it takes no memory.
#[derive(Drop)]
pub struct Report {
    faults: [Fault; 1000],
    kept: usize,
    total: u64,
    leaks: u64,
}

impl Model for Report {
    ghost use Rattle.std.specs.Prelude.{◌≡◌, ◌≤◌, length, take, min};
    ghost use Rattle.pd_kinds.specs.Rule.{Reported};

    ghost Value = { Reported };

    ghost view = { λ r. record { faults = take r.kept r.faults; total = r.total; leaks = r.leaks } };

    ghost invariant = { λ r. (r.kept ≡ min 1000 r.total) × (length r.faults ≡ 1000) × (r.leaks ≤ r.total) };
}

impl Report {
    ghost use Rattle.pd_kinds.specs.Rule.{passes, report_of, with_fault};
    ghost use Rattle.pd_kinds.specs.Rule.{has_rule};
    ghost use Rattle.pd_kinds.specs.Rule.{meta_fault, faults_at};
    ghost use Rattle.pd_kinds.specs.declared.rule.Fault.{Fault};

    /// A report without faults.
    pub fn new() -> Report
        ensures { result ≡ report_of [] }
    {
        let unused = Fault {
            space: Space::Meta,
            block: 0,
            rule: Rule::Checksum,
            stored: 0,
            refs: 0,
        };
        Report {
            faults: [unused; 1000],
            kept: 0,
            total: 0,
            leaks: 0,
        }
    }

    /// Counts the fault, as a leak too where it is one, and keeps it if fewer than a thousand are kept.
    pub fn add(&mut self, fault: Fault)
        requires { self.old.total < 2 ^ 64 - 1 }
        ensures kept { self.new ≡ with_fault self.old fault }
        // So a report has the first thousand of the faults that were added, their number, and that of the leaks.
        ensures first { (before : List Fault) → self.old ≡ report_of before → self.new ≡ report_of (before ++ (fault ∷ [])) }
    {
        if self.kept < KEPT_FAULTS {
            self.faults[self.kept] = fault;
            self.kept += 1;
        }
        self.total += 1;
        self.leaks = leaks_with(self.leaks, &fault);
    }

    #[tactic(auto, unfolding(crate::specs::Rule::faults_at, crate::specs::Rule::all_rules))]
    /// Adds a fault for each rule of the set, in the order of the rules, each of this metadata block.
    pub fn add_rules(&mut self, block: u64, rules: &Rules)
        requires { self.old.total < 2 ^ 64 - 22 }
        ensures faults { (before : List Fault) → self.old ≡ report_of before
            → self.new ≡ report_of (before ++ faults_at block (has_rule rules.now)) }
        ensures total { self.new.total ≤ self.old.total + 22 }
    {
        self.add_broken(block, rules, &Rule::ALL);
    }

    /// Adds a fault for each of these rules that is in the set.
    fn add_broken(&mut self, block: u64, rules: &Rules, all: &[Rule])
        requires { self.old.total + length all.now < 2 ^ 64 }
        ensures faults { (before : List Fault) → self.old ≡ report_of before
            → self.new ≡ report_of (before ++ map (meta_fault block) (filter (has_rule rules.now) all.now)) }
        ensures total { self.new.total ≤ self.old.total + length all.now }
    {
        for rule in all {
            self.add_rule(block, *rule, rules.has(*rule));
        }
    }

    /// Adds a fault of the metadata block, where it breaks the rule.
    fn add_rule(&mut self, block: u64, rule: Rule, fails: bool)
        requires { self.old.total < 2 ^ 64 - 1 }
        ensures faults { (before : List Fault) → self.old ≡ report_of before
            → self.new ≡ report_of (before ++ (if fails then meta_fault block rule ∷ [] else [])) }
        ensures total { self.new.total ≤ self.old.total + 1 }
    {
        if fails {
            self.add(Fault {
                space: Space::Meta,
                block,
                rule,
                stored: 0,
                refs: 0,
            });
        }
    }

    /// How many faults were added.
    pub fn total(&self) -> u64
        ensures { result ≡ self.now.total }
    {
        self.total
    }

    /// How many of the added faults have the rule Leak, kept or not.
    pub fn leaks(&self) -> u64
        ensures leaks { result ≡ self.now.leaks }
        ensures within { result ≤ self.now.total }
    {
        self.leaks
    }

    /// Whether all faults that were added pass.
    pub fn passes(&self, passing: Passing) -> bool
        ensures { result ≡ passes passing self.now }
    {
        match passing {
            Passing::Nothing => self.total == 0,
            Passing::Leaks => self.leaks == self.total,
        }
    }

    /// How many faults are kept: at most a thousand.
    pub fn len(&self) -> usize
        ensures { result ≡ length self.now.faults }
    {
        self.kept
    }

    /// Whether no fault was added.
    pub fn is_empty(&self) -> bool
        ensures { result ≡ (self.now.total == 0) }
    {
        self.total == 0
    }

    /// The kept fault with this number, from 0.
    pub fn get(&self, i: usize) -> Fault
        requires { i < length self.now.faults }
        ensures { slice_get self.now.faults i ≡ Some result }
    {
        let faults = &self.faults;
        faults[i]
    }
}

/// So many leaks, and one more where the fault is one.
fn leaks_with(leaks: u64, fault: &Fault) -> u64
    requires { leaks < 2 ^ 64 - 1 }
    ensures leaks { result ≡ (if is_leak fault.now then leaks + 1 else leaks) }
    ensures few { result ≤ leaks + 1 }
{
    if fault.is_leak() { leaks + 1 } else { leaks }
}

// Why a check has no report.

/// Why a check has no report.
#[derive(Clone, Copy, Debug, PartialEq, Eq)]
pub enum CheckFault {
    /// Memory wasn't found.
    Memory,
    /// The device failed, and has counted it.
    Device,
}

impl From<AllocError> for CheckFault {
    ghost from_gives = { λ _ fault. fault ≡ Memory };

    fn from(_error: AllocError) -> CheckFault {
        CheckFault::Memory
    }
}

impl<T: Drop> From<AllocFailed<T>> for CheckFault {
    ghost from_gives = { λ _ fault. fault ≡ Memory };

    fn from(_failed: AllocFailed<T>) -> CheckFault {
        CheckFault::Memory
    }
}
