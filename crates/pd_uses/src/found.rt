//! What is known of a pool's metadata blocks, and the leaves in which a region has mappings (`thin_rmap`).

use crate::hits::{DataUse, LeafHits, Region, add_part_uses, number_of_hits, parts_of};
use std::alloc::{AllocError, Global};

/// How many lines come for each sample of their blocks: a prime, so that devices with the same mappings give other blocks.
const SAMPLE_LINES: usize = 16411;

/// What is known of a metadata block as a node of the devices' trees.
#[derive(Clone, Copy, Debug, PartialEq, Eq)]
pub(crate) enum HitNote {
    /// Nothing.
    Unknown,
    /// No mapping below it leads to the region, as far as so many inner edges go.
    Bare(u32),
    /// It is a leaf that has such mappings: its number among them.
    Hits(u32),
}

/// A device has a leaf.
#[derive(Clone, Copy, Debug, PartialEq, Eq)]
pub(crate) struct Visit {
    /// The number of the device.
    pub(crate) id: u64,
    /// The number of the leaf.
    pub(crate) leaf: u32,
}

/// The leaves with mappings to the blocks of a region, each of them once, and which devices have them where.
///
/// It takes 8 bytes a metadata block, 40 a leaf, 24 a run of mappings to neighbouring blocks, and 16 for each time that a
/// device has such a leaf.
#[derive(Drop)]
pub(crate) struct Found {
    notes: Vec<HitNote>,
    leaves: Vec<LeafHits>,
    /// In the order of the devices, and of each device's leaves.
    visits: Vec<Visit>,
}

impl Found {
    ghost use Rattle.std.specs.Prelude.{◌≡◌, ℕ, [], filter, IfOk, OnOk};
    ghost use Rattle.pd_uses.specs.declared.found.HitNote.TheVariants as note;
    ghost use Rattle.pd_uses.specs.FoundUses.{found_uses, note_at, Closes, HasLeaf, HasNote, HasVisit};
    ghost use Rattle.pd_uses.specs.Uses.{is_within};

    /// Nothing is known of so many blocks, and no leaf was found. Want of memory is the only error.
    pub(crate) fn new(alloc: Global, blocks: u64) -> Result<Found, AllocError>
        ensures notes { IfOk result (λ found. (b : ℕ) → note_at found.notes.items b ≡ note.Unknown) }
        ensures visits { IfOk result (λ found. found.visits.items ≡ []) }
    {
        let mut notes = Vec::new(alloc);
        notes.resize(blocks as usize, HitNote::Unknown)?;
        Ok(Found {
            notes,
            leaves: Vec::new(alloc),
            visits: Vec::new(alloc),
        })
    }

    /// What is known of a block.
    pub(crate) fn note(&self, b: u64) -> HitNote
        ensures { result ≡ note_at self.now.notes.items b }
    {
        match self.notes.get(b as usize) {
            Some(note) => *note,
            None => HitNote::Unknown,
        }
    }

    /// This is known of a block from now on, if it is one of those that have notes.
    pub(crate) fn set_note(&mut self, b: u64, note: HitNote)
        ensures { HasNote b note self.old self.new }
    {
        let place = b as usize;
        if place < self.notes.len() {
            self.notes[place] = note;
        }
    }

    /// Below a block, as far as so many inner edges go, nothing was found, which is known from now on, or something.
    pub(crate) fn close(&mut self, b: u64, edges: u32, some: bool)
        ensures { Closes b edges some self.old self.new }
    {
        if !some {
            self.set_note(b, HitNote::Bare(edges));
        }
    }

    /// A device has the leaf of this number. Want of memory is the only error.
    pub(crate) fn visit(&mut self, id: u64, leaf: u32) -> Result<(), AllocError>
        ensures { OnOk result (HasVisit id leaf self.old self.new) }
    {
        self.visits.push(Visit { id, leaf })?;
        Ok(())
    }

    /// A leaf more, which has the next number. Want of memory is the only error.
    pub(crate) fn add_leaf(&mut self, hits: LeafHits) -> Result<u32, AllocError>
        ensures { IfOk result (λ leaf. HasLeaf leaf hits self.old self.new) }
    {
        let number = self.leaves.len();
        if number >= u32::MAX as usize {
            return Err(AllocError);
        }
        self.leaves.push(hits)?;
        Ok(number as u32)
    }

    /// The leaves, by their numbers.
    pub(crate) fn leaves(&self) -> &[LeafHits]
        ensures { result.now ≡ self.now.leaves.items }
    {
        self.leaves.as_slice()
    }

    /// Which devices have which leaves, in the order of the devices, and of each device's leaves.
    pub(crate) fn visits(&self) -> &[Visit]
        ensures { result.now ≡ self.now.visits.items }
    {
        self.visits.as_slice()
    }

    /// The uses by the visits of the mappings in a region, visit after visit. Want of memory is the only error.
    pub(crate) fn uses_in(&self, alloc: Global, region: Region) -> Result<Vec<DataUse>, AllocError>
        ensures { IfOk result (λ uses. uses.items ≡ filter (is_within region.first region.end) (found_uses self.now)) }
    {
        let leaves = self.leaves.as_slice();
        let parts = parts_of(alloc, leaves, region)?;
        let mut uses = Vec::with_capacity(alloc, number_of_hits(leaves, parts.as_slice()))?;
        for visit in &self.visits {
            let leaf = visit.leaf as usize;
            add_part_uses(&mut uses, visit.id, leaves, parts.as_slice(), leaf)?;
        }
        Ok(uses)
    }

    /// Blocks that cut the mappings of all visits into parts of about 2^18 lines. They are in no order that is promised.
    pub(crate) fn cuts(&self, alloc: Global) -> Result<Vec<u64>, AllocError> {
        let mut samples = self.samples(alloc)?;
        samples.sort()?;
        let mut cuts = Vec::new(alloc);
        for (i, block) in samples.iter().enumerate() {
            if i % 16 == 15 {
                cuts.push(*block)?;
            }
        }
        Ok(cuts)
    }

    /// A block for each so many lines.
    fn samples(&self, alloc: Global) -> Result<Vec<u64>, AllocError> {
        let mut samples = Vec::new(alloc);
        let mut lines: usize = 0;
        for visit in &self.visits {
            let Some(leaf) = self.leaves.get(visit.leaf as usize) else {
                continue;
            };
            lines = lines.saturating_add(leaf.number());
            if lines >= SAMPLE_LINES {
                lines = 0;
                if let Some(run) = leaf.runs().first() {
                    samples.push(run.block)?;
                }
            }
        }
        Ok(samples)
    }
}
