//! How many blocks a saved pool needs (`thin_repair`, `thin_shrink`).

ghost use Rattle.std.specs.Prelude.{◌≡◌, ◌≤◌, true, map, IfOk, IfSome};
ghost use Rattle.pd_grammar.specs.Need.{mapped_data, overflows_in, thin_need};
ghost use Rattle.pd_restore.specs.ShapeNeed.{HasCountedThrice};
ghost use Rattle.pd_salvage.specs.declared.saved.SavedDevice.{SavedDevice as Device};
ghost use Rattle.pd_salvage.specs.Saved.{pool_of};

use crate::shape_need::number_of;
use pd_count::Counts;
use pd_devices::need_thin;
use pd_meaning_thin::PackedRuns;
use pd_salvage::{Salvage, SavedDevice};
use std::alloc::{AllocError, Global};
use std::marker::Model;

/// How many blocks the pool needs, where there are so many for metadata. `None` where memory is wanting: a number that
/// doesn't fit its type is that of a pool for whose metadata there is no memory.
pub fn need_of_saved(alloc: Global, saved: &Salvage, room: u64) -> Option<u64>
    ensures { IfSome result (λ need. need ≡ thin_need (pool_of saved.now) room) }
{
    let blocks = saved.head().blocks;
    let over = match over_of(alloc, saved) {
        Ok(over) => over,
        Err(_) => return None,
    };
    let mapped = match mapped_of(alloc, saved.devices()) {
        Ok(mapped) => mapped,
        Err(_) => return None,
    };
    let need = need_thin(&mapped, blocks, over, room);
    if need < u64::MAX { Some(need) } else { None }
}

/// Whether there is room for the pool however its data blocks stand in it: no more of them can stand three times than a third
/// of its mappings. Where that isn't sure, or memory is wanting, it says no. No data block is counted.
pub(crate) fn surely_fits_saved(alloc: Global, saved: &Salvage, room: u64) -> bool
    requires { room ≤ 4161600 }
    ensures { result ≡ true → thin_need (pool_of saved.now) room ≤ room }
{
    let Some(mappings) = number_of(saved.runs()) else {
        return false;
    };
    match mapped_of(alloc, saved.devices()) {
        Ok(mapped) => need_thin(&mapped, saved.head().blocks, mappings / 3, room) <= room,
        Err(_) => false,
    }
}

/// The mapped number of each device.
fn mapped_of(alloc: Global, devices: &[SavedDevice]) -> Result<Vec<u64>, AllocError>
    ensures { IfOk result (λ mapped. mapped.items ≡ map (λ (d : Device). d.details.mapped) devices.now) }
{
    devices
        .iter()
        .map(|device| device.details.mapped)
        .collect(alloc)
}

/// How many data blocks stand three times or more in the mappings of all devices.
fn over_of(alloc: Global, saved: &Salvage) -> Result<u64, AllocError>
    ensures { IfOk result (λ over. over ≡ overflows_in (mapped_data (pool_of saved.now)) saved.now.head.blocks) }
{
    let counted = counted_of_saved(alloc, saved)?;
    Ok(counted.over())
}

/// How often each data block stands in the mappings of all devices, up to three times.
pub fn counted_of_saved(alloc: Global, saved: &Salvage) -> Result<Thrice, AllocError>
    ensures size { IfOk result (λ counted. counted.size ≡ saved.now.head.blocks) }
    ensures counted { IfOk result (λ counted. HasCountedThrice counted (mapped_data (pool_of saved.now))) }
{
    let mut counted = Thrice::new(alloc, saved.head().blocks)?;
    counted.add_runs(saved.runs())?;
    Ok(counted)
}

// How often data blocks stand in what was saved, up to three times (`thin_repair`, `thin_shrink`).

/// How often each of so many blocks was counted, up to three times, and how many were counted three times or more.
#[derive(Drop)]
pub struct Thrice {
    counts: Counts,
    over: u64,
}

impl Model for Thrice {
    ghost use Rattle.std.specs.Prelude.{◌≡◌};
    ghost use Rattle.pd_count.specs.Counted.{Counted};
    ghost use Rattle.pd_devices.specs.Counts.{overflows_of};

    ghost Value = { Counted };

    ghost view = { λ t. t.counts };

    ghost invariant = { λ t. t.over ≡ overflows_of t.counts t.counts.size };
}

impl Thrice {
    ghost use Rattle.std.specs.Prelude.{◌≡◌, ℕ, ◌+◌, ◌<◌, ◌≤◌, List, [], ◌∷◌, ◌++◌, IfOk, OnOk};
    ghost use Rattle.std.specs.List.{AllByRecursion, range_with_len};
    ghost use Rattle.pd_meaning_thin.specs.declared.joined.Run.{Run as SavedRun};
    ghost use Rattle.pd_count.specs.Counted.{count_of};
    ghost use Rattle.pd_devices.specs.Counts.{overflows_of};
    ghost use Rattle.pd_restore.specs.ShapeNeed.{HasCountedThrice, copies, data_of_runs};

    /// None of so many blocks.
    pub fn new(alloc: Global, blocks: u64) -> Result<Thrice, AllocError>
        ensures size { IfOk result (λ counted. counted.size ≡ blocks) }
        ensures none { IfOk result (λ counted. HasCountedThrice counted []) }
    {
        Ok(Thrice {
            counts: Counts::new(alloc, blocks)?,
            over: 0,
        })
    }

    /// How many blocks there are.
    pub fn size(&self) -> u64
        ensures { result ≡ self.now.size }
    {
        self.counts.size()
    }

    /// How many blocks were counted three times or more.
    pub fn over(&self) -> u64
        ensures { result ≡ overflows_of self.now self.now.size }
    {
        self.over
    }

    /// How often the block was counted, up to three times.
    pub fn times(&self, b: u64) -> u32
        requires { b < self.now.size }
        ensures { result ≡ count_of self.now b }
    {
        self.counts.get(b)
    }

    /// Counts so many blocks in a row so many times more.
    pub fn add_run_times(&mut self, first: u64, length: u64, times: u32) -> Result<(), AllocError>
        requires within { first + length ≤ self.old.size }
        ensures size { OnOk result (self.new.size ≡ self.old.size) }
        ensures listed { (before : List ℕ) → HasCountedThrice self.old before
            → OnOk result (HasCountedThrice self.new (before ++ copies times (range_with_len first length))) }
    {
        for _i in 0..times {
            self.add_run(first, length)?;
        }
        Ok(())
    }

    /// Counts so many blocks in a row once more.
    pub fn add_run(&mut self, first: u64, length: u64) -> Result<(), AllocError>
        requires within { first + length ≤ self.old.size }
        ensures size { OnOk result (self.new.size ≡ self.old.size) }
        ensures listed { (before : List ℕ) → HasCountedThrice self.old before
            → OnOk result (HasCountedThrice self.new (before ++ range_with_len first length)) }
    {
        let _blocks = self.size();
        for i in 0..length {
            self.add(first + i)?;
        }
        Ok(())
    }

    /// Counts the data blocks of these runs once more.
    pub fn add_runs(&mut self, runs: &PackedRuns) -> Result<(), AllocError>
        requires within { AllByRecursion (λ (r : SavedRun). r.target + r.length ≤ self.old.size) runs.now }
        ensures size { OnOk result (self.new.size ≡ self.old.size) }
        ensures listed { (before : List ℕ) → HasCountedThrice self.old before
            → OnOk result (HasCountedThrice self.new (before ++ data_of_runs runs.now)) }
    {
        let mut place = runs.first();
        while let Some(run) = runs.next(&mut place) {
            self.add_run(run.target, run.length)?;
        }
        Ok(())
    }

    /// Counts a block once more, unless it was counted three times.
    pub fn add(&mut self, b: u64) -> Result<(), AllocError>
        requires within { b < self.old.size }
        ensures size { OnOk result (self.new.size ≡ self.old.size) }
        ensures listed { (before : List ℕ) → HasCountedThrice self.old before
            → OnOk result (HasCountedThrice self.new (before ++ b ∷ [])) }
    {
        // There are no more such blocks than blocks, whose number is one of its type.
        let _blocks = self.counts.size();
        let before = self.counts.get(b);
        if before > 2 {
            return Ok(());
        }
        self.counts.add(b)?;
        if before == 2 {
            self.over += 1;
        }
        Ok(())
    }
}
