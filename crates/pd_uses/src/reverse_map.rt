//! The reverse map of a pool: which virtual blocks use the data blocks of a region (`thin_rmap`).

ghost use Rattle.std.specs.Prelude.{◌≡◌, ◌≤◌, OnOk, ℕ, ◌+◌, ◌<◌, IfOk};
ghost use Rattle.std.specs.List.{All, flat_map, range_with_len};
ghost use Rattle.pd_kinds.specs.Objects.{Appends, AppendsFront};
ghost use Rattle.pd_answers.specs.QueryLines.{rmap_lines};
ghost use Rattle.pd_image.specs.Device.{IsAttached, OnlyReads};
ghost use Rattle.pd_image.specs.Sink.{KeepsSink};
ghost use Rattle.pd_lines.specs.Printer.{printing};
ghost use Rattle.pd_lines.specs.Printing.{Prints};
ghost use Rattle.pd_query.specs.Query.{QueryEnds, SinkFails};
ghost use Rattle.pd_uses.specs.FoundUses.{found_uses};
ghost use Rattle.pd_uses.specs.Uses.{ordered_uses, PutFails, PutsLines, use_line, uses_text, uses_of_block};
ghost use Rattle.pd_uses.specs.declared.hits.DataUse.{DataUse as OneUse};

use crate::asking::{add_labeled, super_to_ask};
use crate::descent::find_region;
use crate::found::Found;
use crate::hits::{DataUse, Region};
use crate::in_order::{are_in_order, print_visits};
use pd_image::{Device, Sink};
use pd_kinds::ThinSuper;
use pd_lines::{PieceBuffer, Printer, TextLine};
use pd_meaning_thin::rows_are_the_devices;
use pd_query::{Query, QueryFault, finish, print_text_line};
use std::alloc::{AllocError, Global};

/// Puts a line for each mapping to a data block from `first` on and below `end`, of the pool with this superblock:
/// ordered by data block, then by the number of the thin device, then by virtual block. Each leaf of mappings is read once,
/// however many devices share it. It holds 8 bytes a metadata block, 24 for each run of a leaf's mappings to neighbouring
/// blocks of those, 72 for each leaf that has any, and 16 for each time that a device has such a leaf. Where the devices don't
/// have them in this order already, it holds the lines of some 2^18 mappings at once, in 24 bytes each, at most 16 more where
/// these are a part of their leaf's, and the buffer of their sort.
///
/// Fails with `Device` where a read failed, with `Memory` where memory wasn't found, and with `Sink` where `out` failed;
/// then a front of the lines was put. Nothing is put before all leaves were read.
pub fn rmap<D: Device, K: Sink>(
    alloc: Global,
    dev: &mut D,
    s: &ThinSuper,
    first: u64,
    end: u64,
    out: &mut K,
) -> Result<(), QueryFault>
    requires dev { IsAttached (D.state dev.old) }
    requires out { (K.state out.old).access ≡ 1 }
    ensures lines { PutsLines (rmap_lines first end) s.now result
        (D.state dev.old).held (K.state out.old).written (K.state out.new).written }
    ensures kept { OnlyReads (D.state dev.old) (D.state dev.new) }
    ensures sink { KeepsSink (K.state out.old) (K.state out.new) }
    ensures faults { QueryEnds result (D.state dev.old).faults (D.state dev.new).faults (K.state out.old).faults (K.state out.new).faults }
{
    rows_are_the_devices();
    let region = Region { first, end };
    let found = find_region(alloc, dev, s, region)?;
    put_region(alloc, &found, region, out)
}

/// Puts the lines of the uses of a region's blocks, part after part.
fn put_region<K: Sink>(
    alloc: Global,
    found: &Found,
    region: Region,
    out: &mut K,
) -> Result<(), QueryFault>
    requires { (K.state out.old).access ≡ 1 }
    ensures whole { OnOk result (Appends (uses_text (ordered_uses region.first region.end (found_uses found.now)))
        (K.state out.old).written (K.state out.new).written) }
    ensures front { AppendsFront (uses_text (ordered_uses region.first region.end (found_uses found.now)))
        (K.state out.old).written (K.state out.new).written }
    ensures sink { KeepsSink (K.state out.old) (K.state out.new) }
    ensures faults { PutFails result (K.state out.old).faults (K.state out.new).faults }
{
    let mut printer = Printer::to_sink(out);
    add_region(alloc, found, region, &mut printer)?;
    finish(printer)
}

/// Prints the lines of the uses of a region's blocks: leaf by leaf where they are in order so, else part after part.
fn add_region<K: Sink>(
    alloc: Global,
    found: &Found,
    region: Region,
    printer: &mut Printer<'_, K>,
) -> Result<(), QueryFault>
    requires { (K.state printer.old.out.now).access ≡ 1 }
    ensures same_reference { printer.new.out.ghost_name ≡ printer.old.out.ghost_name }
    ensures prints { Prints (uses_text (ordered_uses region.first region.end (found_uses found.now))) result (printing K.state printer.old)
        (printing K.state printer.new) }
    ensures faults { PutFails result (K.state printer.old.out.now).faults (K.state printer.new.out.now).faults }
{
    let visits = found.visits();
    let leaves = found.leaves();
    if are_in_order(visits, leaves, region) {
        return print_visits(visits, leaves, printer);
    }
    let cuts = found.cuts(alloc)?;
    add_parts(alloc, found, region, cuts.as_slice(), printer)
}

/// Prints the lines of the uses of a region's blocks, part after part. Each of these blocks ends one, or an empty one where
/// it isn't in what is left.
fn add_parts<K: Sink>(
    alloc: Global,
    found: &Found,
    region: Region,
    cuts: &[u64],
    printer: &mut Printer<'_, K>,
) -> Result<(), QueryFault>
    requires { (K.state printer.old.out.now).access ≡ 1 }
    ensures same_reference { printer.new.out.ghost_name ≡ printer.old.out.ghost_name }
    ensures prints { Prints (uses_text (ordered_uses region.first region.end (found_uses found.now))) result (printing K.state printer.old)
        (printing K.state printer.new) }
    ensures faults { PutFails result (K.state printer.old.out.now).faults (K.state printer.new.out.now).faults }
{
    let last = region.end.max(region.first);
    let mut first = region.first;
    for cut in cuts {
        let end = part_end(*cut, first, last);
        add_part(alloc, found, Region { first, end }, printer)?;
        first = end;
    }
    let end = last;
    add_part(alloc, found, Region { first, end }, printer)
}

/// Where a part ends that begins at the first block: at the given one, if it is neither before that nor past the last one.
fn part_end(cut: u64, first: u64, last: u64) -> u64
    requires { first ≤ last }
    ensures from { first ≤ result }
    ensures to { result ≤ last }
{
    cut.max(first).min(last)
}

/// Prints the lines of the uses of a region's blocks, which are held at once.
fn add_part<K: Sink>(
    alloc: Global,
    found: &Found,
    region: Region,
    printer: &mut Printer<'_, K>,
) -> Result<(), QueryFault>
    requires { (K.state printer.old.out.now).access ≡ 1 }
    ensures same_reference { printer.new.out.ghost_name ≡ printer.old.out.ghost_name }
    ensures prints { Prints (uses_text (ordered_uses region.first region.end (found_uses found.now))) result (printing K.state printer.old)
        (printing K.state printer.new) }
    ensures faults { PutFails result (K.state printer.old.out.now).faults (K.state printer.new.out.now).faults }
{
    let uses = region_uses(alloc, found, region)?;
    add_uses(uses.as_slice(), printer)
}

/// Prints the lines of uses.
fn add_uses<K: Sink>(uses: &[DataUse], printer: &mut Printer<'_, K>) -> Result<(), QueryFault>
    requires { (K.state printer.old.out.now).access ≡ 1 }
    ensures same_reference { printer.new.out.ghost_name ≡ printer.old.out.ghost_name }
    ensures prints { Prints (uses_text uses.now) result (printing K.state printer.old) (printing K.state printer.new) }
    ensures faults { SinkFails result (K.state printer.old.out.now).faults (K.state printer.new.out.now).faults }
{
    for one in uses {
        print_text_line(one, printer)?;
    }
    Ok(())
}

impl TextLine for DataUse {
    ghost bytes = { use_line };

    fn add_to(&self, text: &mut PieceBuffer) {
        add_labeled(text, b"block ", self.block);
        add_labeled(text, b" device ", self.id);
        add_labeled(text, b" virtual ", self.virt);
        text.add(b"\n");
    }
}

/// The mappings of a pool to the data blocks from the first on and below the end, as they are asked for.
#[derive(Clone, Copy, Debug, PartialEq, Eq)]
pub struct ReverseMap {
    pub first: u64,
    pub end: u64,
}

impl Query for ReverseMap {
    ghost use Rattle.std.specs.Prelude.{◌≡◌};
    ghost use Rattle.pd_kinds.specs.declared.kind.Kind.TheVariants.{Thin};
    ghost use Rattle.pd_kinds.specs.declared.kind.Stage.TheVariants.{Whole};
    ghost use Rattle.pd_kinds.specs.Graph.{block_at};
    ghost use Rattle.pd_kinds.specs.Meaning.{thin_meaning};
    ghost use Rattle.pd_kinds.specs.ThinFormat.{thin_fields};
    ghost use Rattle.pd_answers.specs.QueryLines.{rmap_lines};
    ghost use Rattle.pd_query.specs.Query.{IfSound};

    type Started = ThinSuper;

    ghost kind = { Thin };

    ghost stage = { Whole };

    ghost answer = { λ query image. rmap_lines query.first query.end (thin_meaning image) };

    ghost IsOver = { λ query s held. IfSound Thin held (λ image. s ≡ thin_fields (block_at image 0)) };

    fn start<D: Device>(&self, alloc: Global, dev: &mut D) -> Result<ThinSuper, QueryFault> {
        super_to_ask(dev)
    }

    fn put<D: Device, K: Sink>(
        &self,
        alloc: Global,
        started: ThinSuper,
        dev: &mut D,
        out: &mut K,
    ) -> Result<(), QueryFault> {
        rmap(alloc, dev, &started, self.first, self.end, out)
    }
}

// The uses of the data blocks of a region, in their order (`thin_rmap`).

/// The uses of the blocks of a region, ordered by block. The uses of one block are in the order of the devices, and those by
/// one device in the order of its virtual blocks. Want of memory is the only error.
pub(crate) fn region_uses(
    alloc: Global,
    found: &Found,
    region: Region,
) -> Result<Vec<DataUse>, AllocError>
    ensures { IfOk result (λ uses. uses.items ≡ ordered_uses region.first region.end (found_uses found.now)) }
{
    let mut uses = found.uses_in(alloc, region)?;
    sort_by_block(&mut uses)?;
    Ok(uses)
}

/// Orders uses by their data blocks; those of one block stay in their order.
fn sort_by_block(uses: &mut Vec<DataUse>) -> Result<(), AllocError>
    ensures { OnOk result ((first n : ℕ) → All (λ (one : OneUse). (first ≤ one.block) × (one.block < first + n)) uses.old.items
        → uses.new.items ≡ flat_map (uses_of_block uses.old.items) (range_with_len first n)) }
{
    uses.sort_by_key(|one| one.block)
}
