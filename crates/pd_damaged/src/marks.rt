//! Which blocks look like nodes of damaged trees, and which of them stand below others (`thin_repair`).

ghost use Rattle.std.specs.Prelude.{◌≡◌, ℕ, ◌<◌, ◌==◌, ◌&&◌, ◌||◌, ◌++◌, ◌∷◌, [], not, false, if◌then◌else◌, length, slice_index_or, OnOk};
ghost use Rattle.pd_graph.specs.Marks.{values_of};
ghost use Rattle.pd_answers.specs.DamagedStates.{has_child};
ghost use Rattle.pd_damaged.specs.Loose.{size_of_kind};

use crate::loose::{Kind, is_loose};
use pd_graph::{BlockTable, Notes};
use pd_image::{Device, Failed};
use pd_kinds::{Block, CheckFault};
use pd_node::{child, entries, is_inner};
use pd_value::{Details, Root, Value};
use std::alloc::{AllocError, Global};

/// Which blocks look like nodes of a damaged tree of one kind, and which stand below another of them: two bytes for each
/// block up to the last one that was marked.
#[derive(Drop)]
pub(crate) struct LooseNodes {
    /// A block looks like such a node.
    loose: BlockTable<bool>,
    /// Another such node has it among its children.
    below: BlockTable<bool>,
}

/// Marks block `child` as one that stands below block b, unless they are one block, or it lies outside.
fn mark_child(below: &mut BlockTable<bool>, b: u64, child: u64)
    ensures marks { (c : ℕ) → c < length (values_of below.old)
        → slice_index_or (values_of below.new) c false ≡ (slice_index_or (values_of below.old) c false || (not (b == c) && (child == c))) }
    ensures places { length (values_of below.new) ≡ length (values_of below.old) }
{
    if child != b && child < below.places() as u64 {
        below.set(child as usize, true);
    }
}

/// Marks the children of an inner node, block b.
fn mark_children<V: Value>(below: &mut BlockTable<bool>, b: u64, block: &Block)
    ensures marks { (c : ℕ) → c < length (values_of below.old)
        → slice_index_or (values_of below.new) c false
        ≡ (slice_index_or (values_of below.old) c false || (not (b == c) && has_child V.SIZE block.now.0 c)) }
    ensures places { length (values_of below.new) ≡ length (values_of below.old) }
{
    if !is_inner(block) {
        return;
    }
    for i in 0..entries::<V>(block) {
        mark_child(below, b, child::<V>(block, i));
    }
}

/// Marks the children of a node of a tree of this kind, block b.
fn mark_below(below: &mut BlockTable<bool>, kind: Kind, b: u64, block: &Block)
    ensures marks { (c : ℕ) → c < length (values_of below.old)
        → slice_index_or (values_of below.new) c false
        ≡ (slice_index_or (values_of below.old) c false || (not (b == c) && has_child (size_of_kind kind) block.now.0 c)) }
    ensures places { length (values_of below.new) ≡ length (values_of below.old) }
{
    match kind {
        Kind::Top => mark_children::<Root>(below, b, block),
        Kind::Details => mark_children::<Details>(below, b, block),
    }
}

/// Adds a number at the end, where something passes. Want of memory is the only error.
pub(crate) fn push_if(found: &mut Vec<u64>, number: u64, passes: bool) -> Result<(), AllocError>
    ensures { OnOk result (found.new.items ≡ found.old.items ++ (if passes then number ∷ [] else [])) }
{
    if passes {
        found.push(number)?;
    }
    Ok(())
}

impl LooseNodes {
    ghost use Rattle.std.specs.Prelude.{◌≡◌, ℕ, ◌+◌, ◌<◌, ◌≤◌, false, length, filter, IfOk, IfSome, OnOk};
    ghost use Rattle.std.specs.List.{AllByRecursion, range_with_len};
    ghost use Rattle.pd_kinds.specs.CheckFault.{CountsCheckFault};
    ghost use Rattle.pd_kinds.specs.Objects.{CountsFault};
    ghost use Rattle.pd_image.specs.Device.{IsAttached, OnlyReads};
    ghost use Rattle.pd_graph.specs.Marks.{values_of};
    ghost use Rattle.pd_graph.specs.Notes.{size_of};
    ghost use Rattle.pd_damaged.specs.Loose.{AreMarked, HaveNodes, MarksMore, is_below_in, is_listed, is_loose_in, is_root_in};

    /// The tables of so many blocks, of which none is marked. It reserves all memory; want of it is the only error.
    fn unmarked(alloc: Global, nr: u64) -> Result<LooseNodes, AllocError>
        ensures places { IfOk result (HaveNodes nr) }
        ensures loose { IfOk result (λ nodes. (c : ℕ) → is_loose_in nodes c ≡ false) }
        ensures below { IfOk result (λ nodes. (c : ℕ) → is_below_in nodes c ≡ false) }
    {
        let loose = BlockTable::new(alloc, nr as usize, false)?;
        let below = BlockTable::new(alloc, nr as usize, false)?;
        Ok(LooseNodes { loose, below })
    }

    /// Marks block b, where it is loose, and its children.
    fn mark(&mut self, kind: Kind, loose: bool, b: u64, block: &Block)
        requires { b < length (values_of self.old.loose) }
        ensures marks { (nr : ℕ) → HaveNodes nr self.old → MarksMore kind loose b block.now.0 nr self.old self.new }
        ensures places { (nr : ℕ) → HaveNodes nr self.old → HaveNodes nr self.new }
    {
        if loose {
            self.loose.set(b as usize, true);
            mark_below(&mut self.below, kind, b, block);
        }
    }

    /// Reads block b, and marks it and its children where it looks like a node of this kind.
    fn look<D: Device>(
        &mut self,
        kind: Kind,
        notes: &Notes,
        dev: &mut D,
        b: u64,
    ) -> Result<(), Failed>
        requires places { HaveNodes (size_of notes.now) self.old }
        requires block { b < size_of notes.now }
        requires attached { IsAttached (D.state dev.old) }
        requires within { size_of notes.now ≤ (D.state dev.old).blocks }
        ensures marks { OnOk result (IfSome (D.state dev.old).held (λ image.
            AreMarked kind notes.now image b self.old → AreMarked kind notes.now image (b + 1) self.new)) }
        ensures places { HaveNodes (size_of notes.now) self.new }
        ensures kept { OnlyReads (D.state dev.old) (D.state dev.new) }
        ensures faults { CountsFault result (D.state dev.old).faults (D.state dev.new).faults }
    {
        let mut block = Block::zeros();
        dev.read(b, &mut block)?;
        let sound = notes.note(b).height < 65;
        let loose = is_loose(kind, notes.nr(), sound, b, &block);
        self.mark(kind, loose, b, &block);
        Ok(())
    }

    /// Looks at each block from block 1 on.
    fn look_at_all<D: Device>(
        &mut self,
        kind: Kind,
        notes: &Notes,
        dev: &mut D,
    ) -> Result<(), Failed>
        requires places { HaveNodes (size_of notes.now) self.old }
        requires attached { IsAttached (D.state dev.old) }
        requires within { size_of notes.now ≤ (D.state dev.old).blocks }
        ensures marks { OnOk result (IfSome (D.state dev.old).held (λ image.
            AreMarked kind notes.now image 1 self.old → AreMarked kind notes.now image (size_of notes.now) self.new)) }
        ensures places { HaveNodes (size_of notes.now) self.new }
        ensures kept { OnlyReads (D.state dev.old) (D.state dev.new) }
        ensures faults { CountsFault result (D.state dev.old).faults (D.state dev.new).faults }
    {
        for b in 1..notes.nr() {
            self.look(kind, notes, dev, b)?;
        }
        Ok(())
    }

    /// Finds those of this kind, by notes of the sound trees. It reads each block once.
    ///
    /// Fails with `CheckFault::Memory` where memory wasn't found, and with `CheckFault::Device` where a read failed.
    pub(crate) fn find<D: Device>(
        alloc: Global,
        kind: Kind,
        notes: &Notes,
        dev: &mut D,
    ) -> Result<LooseNodes, CheckFault>
        requires attached { IsAttached (D.state dev.old) }
        requires within { size_of notes.now ≤ (D.state dev.old).blocks }
        ensures marks { IfOk result (λ nodes. IfSome (D.state dev.old).held (λ image.
            AreMarked kind notes.now image (size_of notes.now) nodes)) }
        ensures places { IfOk result (HaveNodes (size_of notes.now)) }
        ensures kept { OnlyReads (D.state dev.old) (D.state dev.new) }
        ensures faults { CountsCheckFault result (D.state dev.old).faults (D.state dev.new).faults }
    {
        let mut nodes = LooseNodes::unmarked(alloc, notes.nr())?;
        nodes.look_at_all(kind, notes, dev)?;
        Ok(nodes)
    }

    /// Whether block b is one of them, and stands below no other.
    fn is_root(&self, b: u64) -> bool
        requires loose { b < length (values_of self.now.loose) }
        requires below { b < length (values_of self.now.below) }
        ensures { result ≡ is_root_in self.now b }
    {
        self.loose.get(b as usize) && !self.below.get(b as usize)
    }

    /// Whether it is that, or the root of a sound tree, where those are wanted too.
    fn is_listed(&self, notes: &Notes, sound_too: bool, b: u64) -> bool
        requires places { HaveNodes (size_of notes.now) self.now }
        requires block { b < size_of notes.now }
        ensures { result ≡ is_listed self.now notes.now sound_too b }
    {
        if sound_too && notes.note(b).height < 65 {
            return true;
        }
        self.is_root(b)
    }

    /// The blocks that are listed, ascending. Want of memory is the only error.
    pub(crate) fn listed(
        &self,
        alloc: Global,
        notes: &Notes,
        sound_too: bool,
    ) -> Result<Vec<u64>, AllocError>
        requires places { HaveNodes (size_of notes.now) self.now }
        ensures listed { IfOk result (λ found. found.items
            ≡ filter (is_listed self.now notes.now sound_too) (range_with_len 0 (size_of notes.now))) }
        ensures inside { IfOk result (λ found. AllByRecursion (λ b. b < size_of notes.now) found.items) }
    {
        let mut found = Vec::new(alloc);
        for b in 0..notes.nr() {
            push_if(&mut found, b, self.is_listed(notes, sound_too, b))?;
        }
        Ok(found)
    }
}
