//! A group of chunks, each of which is made when a block in it is first counted.

ghost use Rattle.std.specs.Prelude.{◌≡◌, ℕ, ◌+◌, ◌-◌, ◌^◌, ◌<◌, ◌==◌, [], length, slice_index};
ghost use Rattle.std.specs.Prelude.{slice_index_or, IfOk, OnOk, OnErr, MatchOption, min};
ghost use Rattle.std.specs.Int.{bit_at};
ghost use Rattle.std.specs.List.{insert};
ghost use Rattle.pd_count.specs.Counted.{made_before, no_group};

use crate::chunk::Chunk;
use std::alloc::{AllocError, Global};
use std::marker::Model;

/// How many chunks a group has.
pub(crate) const GROUP_CHUNKS: usize = 64;

/// 64 chunks, each of which is made when a number is first put in it.
///
/// A group takes 32 bytes. Each chunk that is made takes 32 bytes more in the list of them, which is as long as they are
/// many, and what it has beside that.
#[derive(Drop)]
pub(crate) struct Group {
    /// Bit `i` tells whether chunk `i` is made.
    made: u64,
    /// The chunks that are made, in their order.
    chunks: Vec<Chunk>,
}

impl Model for Group {
    ghost use Rattle.std.specs.Prelude.{◌≡◌, length};
    ghost use Rattle.pd_count.specs.Counted.{Grouped, made_before};

    ghost Value = { Grouped };

    ghost view = { λ g. record { made = g.made; chunks = g.chunks.items } };

    ghost invariant = { λ g. length g.chunks.items ≡ made_before g.made 64 };
}

impl Group {
    ghost use Rattle.pd_count.specs.Counted.{IsPlace, PutsInGroup, chunk_of, no_group};

    /// A group of which no chunk is made. It takes no memory.
    fn absent(alloc: Global) -> Group
        ensures { result ≡ no_group }
    {
        Group {
            made: 0,
            chunks: Vec::new(alloc),
        }
    }

    /// Where chunk `i` stands among those that are made, or `None` where it isn't made.
    fn place(&self, i: usize) -> Option<usize>
        requires { i < 64 }
        ensures { MatchOption result (bit_at self.now.made i ≡ 0) (IsPlace self.now.made (length self.now.chunks) i) }
    {
        if (self.made >> i) % 2 == 1 {
            Some(set_below(self.made, i))
        } else {
            None
        }
    }

    /// Chunk `i` of the group, or `None` where it isn't made. It takes no memory.
    pub(crate) fn chunk(&self, i: usize) -> Option<&Chunk>
        requires { i < 64 }
        ensures { MatchOption result (chunk_of self.now i ≡ []) (λ chunk. chunk.now ≡ chunk_of self.now i) }
    {
        let place = self.place(i)?;
        Some(&self.chunks[place])
    }

    /// The number at a place of chunk `i`, which is 0 where the chunk isn't made. It takes no memory.
    pub(crate) fn get(&self, i: usize, at: usize) -> u32
        requires { i < 64 }
        ensures { result ≡ slice_index (chunk_of self.now i) at }
    {
        match self.chunk(i) {
            Some(chunk) => chunk.get(at),
            None => 0,
        }
    }

    /// Raises the number at a place of chunk `i` by one, unless it is as great as it can be, makes the chunk where it isn't
    /// made, and answers what the number was. Want of memory leaves all as before.
    pub(crate) fn saturating_add(&mut self, i: usize, at: usize) -> Result<u32, AllocError>
        requires chunk { i < 64 }
        requires place { at < 16320 }
        ensures before { IfOk result (λ before. before ≡ slice_index (chunk_of self.old i) at) }
        ensures added { OnOk result (PutsInGroup i at (min (slice_index (chunk_of self.old i) at + 1) (2 ^ 32 - 1)) self.old self.new) }
        ensures err { OnErr result (self.new ≡ self.old) }
    {
        let Some(place) = self.place(i) else {
            self.begin(i, at, 1)?;
            return Ok(0);
        };
        let before = self.chunks[place].saturating_add(at)?;
        Ok(before)
    }

    /// Notes a place of chunk `i`: raises its number by one, unless it is as great as it can be, now or with others that wait;
    /// and makes the chunk where it isn't made. Want of memory leaves all as before.
    pub(crate) fn note(&mut self, i: usize, at: usize, is_far: bool) -> Result<(), AllocError>
        requires chunk { i < 64 }
        requires place { at < 16320 }
        ensures others { OnOk result (PutsInGroup i at (slice_index (chunk_of self.new i) at) self.old self.new) }
        ensures added { OnOk result (slice_index (chunk_of self.old i) at < 2 ^ 32 - 1
            → slice_index (chunk_of self.new i) at ≡ slice_index (chunk_of self.old i) at + 1) }
        ensures err { OnErr result (self.new ≡ self.old) }
    {
        let Some(place) = self.place(i) else {
            self.begin(i, at, 1)?;
            return Ok(());
        };
        self.chunks[place].note(at, is_far)?;
        Ok(())
    }

    /// Counts the places that wait. All numbers are as before.
    pub(crate) fn settle(&mut self)
        ensures { self.new ≡ self.old }
    {
        for place in 0..self.chunks.len() {
            self.chunks[place].settle();
        }
    }

    /// Puts the number at a place of chunk `i`, and makes the chunk where it isn't made. Want of memory leaves all as
    /// before.
    pub(crate) fn set(&mut self, i: usize, at: usize, number: u32) -> Result<(), AllocError>
        requires chunk { i < 64 }
        requires place { at < 16320 }
        ensures put { OnOk result (PutsInGroup i at number self.old self.new) }
        ensures err { OnErr result (self.new ≡ self.old) }
    {
        let Some(place) = self.place(i) else {
            return self.begin(i, at, number);
        };
        self.chunks[place].set(at, number)?;
        Ok(())
    }

    /// Makes chunk `i`, with the number at a place of it. Want of memory leaves all as before.
    #[inline(never)]
    fn begin(&mut self, i: usize, at: usize, number: u32) -> Result<(), AllocError>
        requires absent { bit_at self.old.made i ≡ 0 }
        requires chunk { i < 64 }
        requires place { at < 16320 }
        ensures put { OnOk result (PutsInGroup i at number self.old self.new) }
        ensures err { OnErr result (self.new ≡ self.old) }
    {
        let mut chunk = Chunk::with_room(*self.chunks.allocator())?;
        chunk.set(at, number)?;
        self.chunks.reserve_exact(1)?;
        self.chunks.insert(set_below(self.made, i), chunk)?;
        self.made |= 1 << i;
        Ok(())
    }
}

/// How many bits below bit `i` are set.
fn set_below(bits: u64, i: usize) -> usize
    requires { i < 64 }
    ensures { result ≡ made_before bits i }
{
    let below = (1 << i) - 1;
    (bits & below).count_ones() as usize
}

/// So many groups that aren't made. It takes the memory of their list.
///
/// Fails with `AllocError` where that memory wasn't found.
pub(crate) fn absent_groups(alloc: Global, places: usize) -> Result<Vec<Group>, AllocError>
    ensures len { IfOk result (λ groups. length groups.items ≡ places) }
    ensures absent { IfOk result (λ groups. (i : ℕ) → slice_index_or groups.items i no_group ≡ no_group) }
{
    let mut groups = Vec::with_capacity(alloc, places)?;
    for _ in 0..places {
        groups.push(Group::absent(alloc))?;
    }
    Ok(groups)
}
