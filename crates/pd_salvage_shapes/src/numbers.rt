//! The numbers of the notes that a device met, held as ranges (`thin_repair`, `thin_shrink`).

ghost use Rattle.std.specs.Prelude.{◌≡◌, ◌++◌, IfOk, OnOk};
ghost use Rattle.pd_salvage_shapes.specs.Note.{numbers_in, range_numbers};

use std::alloc::{AllocError, Global};
use std::marker::Model;

/// Numbers in a row: `count` of them from `first` on, modulo 2^32.
#[derive(Clone, Copy)]
pub(crate) struct NumberRange {
    pub(crate) first: u32,
    pub(crate) count: u32,
}

/// Numbers in the order in which they were met: 8 bytes for each range of numbers in a row. Snapshots mostly meet the leaves
/// of the volume before them, in the same order, so a few ranges hold thousands of numbers.
#[derive(Drop)]
pub(crate) struct Numbers {
    /// The ranges that are done.
    done: Vec<NumberRange>,
    /// The range that goes on.
    last: NumberRange,
}

impl Model for Numbers {
    ghost use Rattle.std.specs.Prelude.{List, ℕ};
    ghost use Rattle.pd_salvage_shapes.specs.Note.{numbers_in};

    ghost Value = { List ℕ };

    ghost view = { λ n. numbers_in n.done.items n.last };
}

impl NumberRange {
    ghost use Rattle.std.specs.Prelude.{◌≡◌, ◌+◌, ◌-◌, ◌%◌, ◌^◌, ◌<◌, true};

    /// Whether the number comes next, and there is room for it in the range.
    fn goes_on_with(self, number: u32) -> bool
        ensures next { result ≡ true → number ≡ (self.first + self.count) % 2 ^ 32 }
        ensures room { result ≡ true → self.count < 2 ^ 32 - 1 }
    {
        self.count < u32::MAX && self.first.wrapping_add(self.count) == number
    }
}

impl Numbers {
    ghost use Rattle.std.specs.Prelude.{◌≡◌, ◌++◌, ◌∷◌, [], IfOk, OnOk};

    /// No numbers. It takes no memory.
    pub(crate) fn none(alloc: Global) -> Numbers
        ensures { result ≡ [] }
    {
        Numbers {
            done: Vec::new(alloc),
            last: NumberRange { first: 0, count: 0 },
        }
    }

    /// These numbers.
    pub(crate) fn of(alloc: Global, numbers: &[u32]) -> Result<Numbers, AllocError>
        ensures { IfOk result (λ packed. packed ≡ numbers.now) }
    {
        let mut packed = Numbers::none(alloc);
        for number in numbers {
            packed.add(*number)?;
        }
        Ok(packed)
    }

    /// Adds a number behind the others.
    fn add(&mut self, number: u32) -> Result<(), AllocError>
        ensures { OnOk result (self.new ≡ self.old ++ number ∷ []) }
    {
        if self.last.goes_on_with(number) {
            self.last.count += 1;
            return Ok(());
        }
        if self.last.count == 0 {
            self.last = NumberRange {
                first: number,
                count: 1,
            };
            return Ok(());
        }
        self.done.push(self.last)?;
        self.last = NumberRange {
            first: number,
            count: 1,
        };
        Ok(())
    }

    /// The same numbers once more, in as many ranges.
    pub(crate) fn copy(&self, alloc: Global) -> Result<Numbers, AllocError>
        ensures { IfOk result (λ copy. copy ≡ self.now) }
    {
        let mut done = Vec::with_capacity(alloc, self.done.len())?;
        done.extend_from_slice(self.done.as_slice())?;
        Ok(Numbers {
            done,
            last: self.last,
        })
    }

    /// How many numbers there are.
    pub(crate) fn count(&self) -> usize {
        count_of(self.done.as_slice(), self.last)
    }

    /// The numbers as a list of their own.
    pub(crate) fn list(&self, alloc: Global) -> Result<Vec<u32>, AllocError>
        ensures { IfOk result (λ numbers. numbers.items ≡ self.now) }
    {
        list_of(alloc, self.done.as_slice(), self.last)
    }
}

/// How many numbers these ranges have.
fn count_of(done: &[NumberRange], last: NumberRange) -> usize {
    let mut count = last.count as usize;
    for range in done {
        count = count.saturating_add(range.count as usize);
    }
    count
}

/// The numbers of these ranges.
fn list_of(alloc: Global, done: &[NumberRange], last: NumberRange) -> Result<Vec<u32>, AllocError>
    ensures { IfOk result (λ numbers. numbers.items ≡ numbers_in done.now last) }
{
    let mut numbers = Vec::with_capacity(alloc, count_of(done, last))?;
    for range in done {
        add_range(&mut numbers, *range)?;
    }
    add_range(&mut numbers, last)?;
    Ok(numbers)
}

/// Adds the numbers of a range behind others.
fn add_range(numbers: &mut Vec<u32>, range: NumberRange) -> Result<(), AllocError>
    ensures { OnOk result (numbers.new.items ≡ numbers.old.items ++ range_numbers range) }
{
    for i in 0..range.count {
        numbers.push(range.first.wrapping_add(i))?;
    }
    Ok(())
}
