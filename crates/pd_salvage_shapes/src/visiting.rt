//! The visits of a device's leaves: what each saves is noted, by its leaf or as a part (`thin_repair`, `thin_shrink`).

ghost use Rattle.std.specs.Prelude.{◌≡◌, false};
ghost use Rattle.pd_salvage_shapes.specs.Visiting.{IsRaised, is_undamaged_inner};

use crate::note::{LeafNote, note_of};
use crate::numbers::Numbers;
use pd_image::Device;
use pd_kinds::{Block, ThinSuper};
use pd_node::is_inner;
use pd_salvage::{Range, SalvageFault, Taken, Way, is_sound, is_wanted};
use pd_value::BlockTime;
use std::alloc::{AllocError, Global};

/// The end of all keys.
const KEYS_END: u128 = 18446744073709551616;

/// The leaves that were noted, and what was met of a device so far.
#[derive(Drop)]
pub(crate) struct Visiting {
    alloc: Global,
    pub(crate) s: ThinSuper,
    way: Way,
    /// By each metadata block one above the number of its leaf's note, or 0.
    pub(crate) places: Vec<u32>,
    pub(crate) notes: Vec<LeafNote>,
    /// The numbers of the notes that were met.
    pub(crate) met: Vec<u32>,
    /// How many mappings these have.
    pub(crate) mapped: u64,
    /// The least key that may come.
    pub(crate) least: u128,
}

/// What was met of a device.
#[derive(Drop)]
pub(crate) struct Seen {
    /// The numbers of the notes that were met.
    pub(crate) met: Numbers,
    /// How many mappings these have.
    pub(crate) mapped: u64,
}

impl Seen {
    ghost use Rattle.std.specs.Prelude.{◌≡◌, IfOk};

    /// The same once more.
    pub(crate) fn copy(&self, alloc: Global) -> Result<Seen, AllocError>
        ensures { IfOk result (λ copy. copy ≡ self.now) }
    {
        Ok(Seen {
            met: self.met.copy(alloc)?,
            mapped: self.mapped,
        })
    }
}

impl Visiting {
    ghost use Rattle.std.specs.Prelude.{◌≡◌, ◌<◌, ◌≤◌, Some, true, false, length, slice_index, IfOk, OnOk};
    ghost use Rattle.std.specs.List.{slice_get};
    ghost use Rattle.std.specs.Vec.{vec_len};
    ghost use Rattle.pd_kinds.specs.Node.{is_inner_node};
    ghost use Rattle.pd_laid.specs.Salvage.{is_damaged};
    ghost use Rattle.pd_tree.specs.Stack.{last_place};
    ghost use Rattle.pd_salvage.specs.Range.{is_wanted};
    ghost use Rattle.pd_image.specs.Device.{IsAttached, OnlyReads};
    ghost use Rattle.pd_salvage.specs.Saved.{CountsSalvage};
    ghost use Rattle.pd_grammar.specs.Lawful.{AreMappings};
    ghost use Rattle.pd_salvage_shapes.specs.declared.note.LeafNote.{LeafNote};
    ghost use Rattle.pd_salvage_shapes.specs.Note.{IsNote, noted};
    ghost use Rattle.pd_salvage_shapes.specs.Visiting.{IsReady, KnowsInner, Meets, NotesTop, ReadsNew};
    ghost use Rattle.pd_salvage_shapes.specs.Visiting.{ReadsPart, TakesNote, TakesOwn, Visits};

    /// One above the number of the note of the block's leaf, or 0.
    fn number(&self, b: u64) -> u32
        requires { b < length self.now.places.items }
        ensures { result ≡ slice_index self.now.places.items b }
    {
        self.places[b as usize]
    }

    /// Meets the note with this number.
    fn take(&mut self, k: u32) -> Result<(), AllocError>
        requires { k < vec_len self.old.notes }
        ensures { OnOk result ((note : LeafNote) → slice_get self.old.notes.items k ≡ Some note → TakesNote k note self.old self.new) }
    {
        let note = &self.notes[k as usize];
        let entries = note.entries;
        let end = note.end;
        if entries == 0 {
            return Ok(());
        }
        if entries > u64::MAX - self.mapped {
            return Err(AllocError);
        }
        self.met.push(k)?;
        self.mapped += entries;
        self.least = end;
        Ok(())
    }

    /// Meets a note of the device's own.
    fn take_own(&mut self, note: LeafNote) -> Result<(), AllocError>
        requires ready { IsReady self.old }
        requires sound { IsNote self.old.s.data_map.blocks note }
        requires part { note.full ≡ false }
        requires from { AreMappings self.old.s.data_map.blocks self.old.least (noted note) }
        ensures { OnOk result (TakesOwn note self.old self.new) }
    {
        let k = match u32::try_from(self.notes.len()) {
            Ok(k) => k,
            Err(_) => return Err(AllocError),
        };
        self.notes.push(note)?;
        self.take(k)?;
        Ok(())
    }

    /// Notes the last node on the way as the block's leaf, and forgets it.
    fn note_top(&mut self, b: u64) -> Result<(), AllocError>
        requires some { 0 < self.old.way.stack.depth }
        requires ready { IsReady self.old }
        requires within { b < length self.old.places.items }
        requires unread { slice_index self.old.places.items b ≡ 0 }
        requires leaf { is_damaged 8 b (last_place self.old.way.stack).block.0 ≡ false
            → is_inner_node (last_place self.old.way.stack).block.0 ≡ false }
        ensures { OnOk result (NotesTop b self.old self.new) }
    {
        let all = Range {
            low: 0,
            high: KEYS_END,
        };
        let note = note_of(self.alloc, self.way.top(), b, &all, self.s.data_map.blocks)?;
        self.way.pop();
        let number = match u32::try_from(self.notes.len() + 1) {
            Ok(number) => number,
            Err(_) => return Err(AllocError),
        };
        self.notes.push(note)?;
        self.places[b as usize] = number;
        Ok(())
    }

    /// Takes a block that wasn't noted: a sound inner node stays on the way, which it answers, and any other is noted. It is
    /// read, unless it is known that it stands in the next place.
    fn read_new<D: Device>(
        &mut self,
        dev: &mut D,
        b: u64,
        range: Range,
    ) -> Result<bool, SalvageFault>
        requires attached { IsAttached (D.state dev.old) }
        requires within { self.old.s.meta_map.blocks ≤ (D.state dev.old).blocks }
        requires ready { IsReady self.old }
        requires room { self.old.way.stack.depth < 64 }
        requires wanted { is_wanted self.old.s.meta_map.blocks b range ≡ true }
        requires unread { slice_index self.old.places.items b ≡ 0 }
        requires knows { KnowsInner (D.state dev.old).held self.old.way }
        ensures reads { IfOk result (λ stays. ReadsNew (D.state dev.old).held stays b range self.old self.new) }
        ensures kept { OnlyReads (D.state dev.old) (D.state dev.new) }
        ensures faults { CountsSalvage result (D.state dev.old).faults (D.state dev.new).faults }
    {
        if self.way.again::<BlockTime>(b, range) {
            return Ok(true);
        }
        self.way.push::<BlockTime, D>(dev, b, range)?;
        if is_sound_inner(self.way.top(), b) {
            self.way.keep(b);
            return Ok(true);
        }
        self.note_top(b)?;
        Ok(false)
    }

    /// Reads what is saved of a leaf in a range that cuts it.
    fn read_part<D: Device>(
        &mut self,
        dev: &mut D,
        b: u64,
        range: Range,
    ) -> Result<LeafNote, SalvageFault>
        requires attached { IsAttached (D.state dev.old) }
        requires within { b < (D.state dev.old).blocks }
        requires room { self.old.way.stack.depth < 64 }
        ensures reads { IfOk result (λ note. ReadsPart (D.state dev.old).held b range note self.old self.new) }
        ensures kept { OnlyReads (D.state dev.old) (D.state dev.new) }
        ensures faults { CountsSalvage result (D.state dev.old).faults (D.state dev.new).faults }
    {
        self.way.push::<BlockTime, D>(dev, b, range)?;
        let made = note_of(
            self.alloc,
            self.way.top(),
            b,
            &range,
            self.s.data_map.blocks,
        );
        self.way.pop();
        Ok(part_of(made?))
    }

    /// Visits a leaf that was noted.
    fn visit<D: Device>(&mut self, dev: &mut D, b: u64, range: Range) -> Result<(), SalvageFault>
        requires attached { IsAttached (D.state dev.old) }
        requires within { self.old.s.meta_map.blocks ≤ (D.state dev.old).blocks }
        requires ready { IsReady self.old }
        requires room { self.old.way.stack.depth < 64 }
        requires inside { b < self.old.s.meta_map.blocks }
        requires named { 1 ≤ slice_index self.old.places.items b }
        ensures visits { OnOk result (Visits (D.state dev.old).held b range self.old self.new) }
        ensures kept { OnlyReads (D.state dev.old) (D.state dev.new) }
        ensures faults { CountsSalvage result (D.state dev.old).faults (D.state dev.new).faults }
    {
        let range = raised(&range, self.least);
        let k = self.number(b) - 1;
        if self.notes[k as usize].lies_in(&range) {
            self.take(k)?;
            return Ok(());
        }
        let note = self.read_part(dev, b, range)?;
        self.take_own(note)?;
        Ok(())
    }

    /// Meets a block in a range of keys: an inner node waits on the way, and a leaf is visited.
    fn meet<D: Device>(&mut self, dev: &mut D, b: u64, range: Range) -> Result<(), SalvageFault>
        requires attached { IsAttached (D.state dev.old) }
        requires within { self.old.s.meta_map.blocks ≤ (D.state dev.old).blocks }
        requires ready { IsReady self.old }
        requires room { self.old.way.stack.depth < 64 }
        requires knows { KnowsInner (D.state dev.old).held self.old.way }
        ensures meets { OnOk result (Meets (D.state dev.old).held b range self.old self.new) }
        ensures kept { OnlyReads (D.state dev.old) (D.state dev.new) }
        ensures faults { CountsSalvage result (D.state dev.old).faults (D.state dev.new).faults }
    {
        if !is_wanted(b, &range, self.s.meta_map.blocks) {
            return Ok(());
        }
        if self.number(b) == 0 {
            if self.read_new(dev, b, range)? {
                return Ok(());
            }
            return self.visit(dev, b, range);
        }
        self.visit(dev, b, range)
    }
}

impl Visiting {
    ghost use Rattle.std.specs.Prelude.{◌≡◌, ◌^◌, ◌<◌, ◌≤◌, IfOk, OnOk};
    ghost use Rattle.pd_image.specs.Device.{IsAttached, OnlyReads};
    ghost use Rattle.pd_salvage.specs.Saved.{CountsSalvage};
    ghost use Rattle.pd_salvage_shapes.specs.Visiting.{GoesOn, HasTable, IsBegun, IsReady, IsStarted, KnowsInner, MeetsTree, SeesDevice};

    /// No leaf was noted, in a pool with this superblock.
    pub(crate) fn start(alloc: Global, s: &ThinSuper) -> Result<Visiting, AllocError>
        requires few { s.now.meta_map.blocks ≤ 4161600 }
        ensures { IfOk result (IsStarted s.now) }
    {
        let way = Way::new(alloc)?;
        let mut places = Vec::new(alloc);
        places.resize(s.meta_map.blocks as usize, 0)?;
        Ok(Visiting {
            alloc,
            s: *s,
            way,
            places,
            notes: Vec::new(alloc),
            met: Vec::new(alloc),
            mapped: 0,
            least: 0,
        })
    }

    /// Goes before the first block of a device. Nothing is known of the places on the way.
    fn begin(&mut self)
        requires { HasTable self.old }
        ensures { IsBegun self.old self.new }
    {
        self.way.clear();
        self.met.clear();
        self.mapped = 0;
        self.least = 0;
    }

    /// Meets all that is left on the way.
    fn go_on<D: Device>(&mut self, dev: &mut D) -> Result<(), SalvageFault>
        requires attached { IsAttached (D.state dev.old) }
        requires within { self.old.s.meta_map.blocks ≤ (D.state dev.old).blocks }
        requires ready { IsReady self.old }
        requires knows { KnowsInner (D.state dev.old).held self.old.way }
        ensures met { OnOk result (GoesOn (D.state dev.old).held self.old self.new) }
        ensures kept { OnlyReads (D.state dev.old) (D.state dev.new) }
        ensures faults { CountsSalvage result (D.state dev.old).faults (D.state dev.new).faults }
    {
        'steps: while !self.way.is_empty() {
            match self.way.step::<BlockTime>() {
                Taken::Passed => {}
                Taken::Child(b, range) => self.meet(dev, b, range)?,
                Taken::Entry(_, _) => {}
            }
        }
        Ok(())
    }

    /// Meets the tree with this root.
    fn meet_tree<D: Device>(&mut self, dev: &mut D, root: u64) -> Result<(), SalvageFault>
        requires attached { IsAttached (D.state dev.old) }
        requires within { self.old.s.meta_map.blocks ≤ (D.state dev.old).blocks }
        requires table { HasTable self.old }
        ensures met { OnOk result (MeetsTree (D.state dev.old).held root self.old self.new) }
        ensures kept { OnlyReads (D.state dev.old) (D.state dev.new) }
        ensures faults { CountsSalvage result (D.state dev.old).faults (D.state dev.new).faults }
    {
        self.begin();
        let all = Range {
            low: 0,
            high: KEYS_END,
        };
        self.meet(dev, root, all)?;
        self.go_on(dev)?;
        Ok(())
    }

    /// How many mappings were met.
    fn mapped_now(&self) -> u64
        ensures is { result ≡ self.now.mapped }
        ensures fits { result < 2 ^ 64 }
    {
        self.mapped
    }

    /// What is met of the device with this root.
    pub(crate) fn see<D: Device>(&mut self, dev: &mut D, root: u64) -> Result<Seen, SalvageFault>
        requires attached { IsAttached (D.state dev.old) }
        requires within { self.old.s.meta_map.blocks ≤ (D.state dev.old).blocks }
        requires table { HasTable self.old }
        ensures sees { IfOk result (λ seen. SeesDevice (D.state dev.old).held root seen self.old self.new) }
        ensures kept { OnlyReads (D.state dev.old) (D.state dev.new) }
        ensures faults { CountsSalvage result (D.state dev.old).faults (D.state dev.new).faults }
    {
        self.meet_tree(dev, root)?;
        let mapped = self.mapped_now();
        let met = Numbers::of(self.alloc, self.met.as_slice())?;
        Ok(Seen { met, mapped })
    }
}

/// Whether the block is a sound inner node in this place.
fn is_sound_inner(block: &Block, place: u64) -> bool
    ensures { result ≡ is_undamaged_inner place block.now.0 }
{
    is_sound::<BlockTime>(block, place) & is_inner(block)
}

/// The note as one of a device's own.
fn part_of(note: LeafNote) -> LeafNote
    ensures { result ≡ record note { full = false } }
{
    let mut note = note;
    note.full = false;
    note
}

/// A range without the keys below this number.
fn raised(range: &Range, least: u128) -> Range
    ensures { IsRaised least range.now result }
{
    if least >= KEYS_END {
        return Range {
            low: u64::MAX,
            high: 0,
        };
    }
    Range {
        low: range.low.max(least as u64),
        high: range.high,
    }
}
