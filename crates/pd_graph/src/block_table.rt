//! A table by block number that takes memory only as far as it is used.

ghost use Rattle.std.specs.Prelude.{◌≡◌, ◌≤◌};
ghost use Rattle.std.specs.Vec.{vec_capacity, vec_len};

use std::alloc::{AllocError, Global};

/// A value at each of so many places, at first the same at all of them.
///
/// The memory of all places is reserved in `new`, and used as far as the last place that was set: a table by block of a
/// large device that holds little takes little.
#[derive(Drop)]
pub struct BlockTable<T> {
    places: usize,
    /// The value of the places that `kept` doesn't reach.
    unset: T,
    kept: Vec<T>,
    ghost few: { vec_len kept ≤ places },
    ghost room: { places ≤ vec_capacity kept },
}

impl<T: Copy> BlockTable<T> {
    ghost use Rattle.std.specs.Prelude.{◌≡◌, ◌<◌, length, replicate, slice_index_or, slice_set, IfOk};
    ghost use Rattle.pd_graph.specs.Marks.{values_of};

    /// A table of so many places with this value.
    ///
    /// Fails with `AllocError` where the memory of all places wasn't found.
    pub fn new(alloc: Global, places: usize, unset: T) -> Result<BlockTable<T>, AllocError>
        ensures { IfOk result (λ table. values_of table ≡ replicate places unset) }
    {
        let kept = Vec::with_capacity(alloc, places)?;
        Ok(BlockTable {
            places,
            unset,
            kept,
        })
    }

    /// The number of places.
    pub fn places(&self) -> usize
        ensures { result ≡ length (values_of self.now) }
    {
        self.places
    }

    /// The value at the place.
    pub fn get(&self, place: usize) -> T
        requires { place < length (values_of self.now) }
        ensures { (other : T) → slice_index_or (values_of self.now) place other ≡ result }
    {
        if place < self.kept.len() {
            self.kept[place]
        } else {
            self.unset
        }
    }

    /// Replaces the value at the place. It takes no memory but what is reserved.
    pub fn set(&mut self, place: usize, value: T)
        requires { place < length (values_of self.old) }
        ensures { values_of self.new ≡ slice_set (values_of self.old) place value }
    {
        self.reach(place);
        self.kept[place] = value;
    }

    /// Keeps the values up to this place, within the memory that is reserved.
    fn reach(&mut self, place: usize)
        requires { place < length (values_of self.old) }
        ensures kept { place < vec_len self.new.kept }
        ensures values { values_of self.new ≡ values_of self.old }
    {
        if self.kept.len() <= place {
            self.kept.resize(place + 1, self.unset).unwrap();
        }
    }
}
