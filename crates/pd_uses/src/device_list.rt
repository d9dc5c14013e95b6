//! The list of a pool's devices (`thin_ls`).

ghost use Rattle.std.specs.Prelude.{◌≡◌, drop, slice_index};
ghost use Rattle.pd_answers.specs.QueryLines.{device_list_lines};
ghost use Rattle.pd_image.specs.Device.{IsAttached, OnlyReads};
ghost use Rattle.pd_image.specs.Sink.{KeepsSink};
ghost use Rattle.pd_lines.specs.Printer.{printing};
ghost use Rattle.pd_lines.specs.Printing.{Prints};
ghost use Rattle.pd_meaning_thin.specs.Runs.{rows_left};
ghost use Rattle.pd_meaning_thin.specs.Given.{super_rows};
ghost use Rattle.pd_query.specs.Query.{PrintsSome, PutsText, QueryEnds, SinkFails};
ghost use Rattle.pd_uses.specs.Uses.{PutsLines, blocks_part, details_part, device_line, tallied_rows};

use crate::asking::{add_labeled, super_to_ask};
use crate::tallies::exclusive_blocks;
use pd_image::{Device, Sink};
use pd_kinds::ThinSuper;
use pd_lines::{LineBuffer, Printer};
use pd_meaning_thin::{DeviceRow, ThinDevices, rows_are_the_devices};
use pd_query::{Query, QueryFault, finish, print_line};
use std::alloc::Global;

/// Puts a line for each thin device of the pool with this superblock, by ascending number: how many blocks it maps, how
/// many of them are exclusive, since no other mapping of any device has their data block, and how many are shared.
/// It reads each node of the devices' trees twice at the most, however many devices share it, and holds no mappings: who
/// uses each data block stands in a table of `Counts`, how often each metadata block was met in a byte, and of each
/// device 8 bytes, or up to 16 as their list grows.
///
/// Fails with `Device` where a read failed, with `Memory` where memory wasn't found, and with `Sink` where `out` failed;
/// then a front of the lines was put.
pub fn list_devices<D: Device, K: Sink>(
    alloc: Global,
    dev: &mut D,
    s: &ThinSuper,
    out: &mut K,
) -> Result<(), QueryFault>
    requires dev { IsAttached (D.state dev.old) }
    requires out { (K.state out.old).access ≡ 1 }
    ensures lines { PutsLines device_list_lines s.now result (D.state dev.old).held (K.state out.old).written (K.state out.new).written }
    ensures kept { OnlyReads (D.state dev.old) (D.state dev.new) }
    ensures sink { KeepsSink (K.state out.old) (K.state out.new) }
    ensures faults { QueryEnds result (D.state dev.old).faults (D.state dev.new).faults (K.state out.old).faults (K.state out.new).faults }
{
    rows_are_the_devices();
    let exclusive = exclusive_blocks(alloc, dev, s)?;
    put_devices(alloc, s, &exclusive, dev, out)
}

/// Puts the lines of the devices, with how many blocks each of them alone uses.
fn put_devices<D: Device, K: Sink>(
    alloc: Global,
    s: &ThinSuper,
    exclusive: &[u64],
    dev: &mut D,
    out: &mut K,
) -> Result<(), QueryFault>
    requires dev { IsAttached (D.state dev.old) }
    requires out { (K.state out.old).access ≡ 1 }
    ensures text { PutsText (D.state dev.old).held
        (λ image. tallied_rows exclusive.now (super_rows image s.now)) result (K.state out.old).written (K.state out.new).written }
    ensures kept { OnlyReads (D.state dev.old) (D.state dev.new) }
    ensures sink { KeepsSink (K.state out.old) (K.state out.new) }
    ensures faults { QueryEnds result (D.state dev.old).faults (D.state dev.new).faults (K.state out.old).faults (K.state out.new).faults }
{
    let mut printer = Printer::to_sink(out);
    add_devices(alloc, s, exclusive, dev, &mut printer)?;
    finish(printer)
}

/// Prints the lines of the devices, in the memory of two cursors over trees.
fn add_devices<D: Device, K: Sink>(
    alloc: Global,
    s: &ThinSuper,
    exclusive: &[u64],
    dev: &mut D,
    printer: &mut Printer<'_, K>,
) -> Result<(), QueryFault>
    requires dev { IsAttached (D.state dev.old) }
    requires open { (K.state printer.old.out.now).access ≡ 1 }
    ensures same_reference { printer.new.out.ghost_name ≡ printer.old.out.ghost_name }
    ensures prints { PrintsSome (D.state dev.old).held (λ image.
        tallied_rows exclusive.now (super_rows image s.now)) result (printing K.state printer.old) (printing K.state printer.new) }
    ensures kept { OnlyReads (D.state dev.old) (D.state dev.new) }
    ensures faults { QueryEnds result (D.state dev.old).faults
        (D.state dev.new).faults (K.state printer.old.out.now).faults (K.state printer.new.out.now).faults }
{
    let mut devices = ThinDevices::start(alloc, s)?;
    add_rows(&mut devices, exclusive, dev, printer)
}

/// Prints the lines of the devices that are left.
fn add_rows<D: Device, K: Sink>(
    devices: &mut ThinDevices,
    exclusive: &[u64],
    dev: &mut D,
    printer: &mut Printer<'_, K>,
) -> Result<(), QueryFault>
    requires dev { IsAttached (D.state dev.old) }
    requires open { (K.state printer.old.out.now).access ≡ 1 }
    ensures same_reference { printer.new.out.ghost_name ≡ printer.old.out.ghost_name }
    ensures prints { PrintsSome (D.state dev.old).held (λ image.
        tallied_rows exclusive.now (rows_left image devices.old)) result (printing K.state printer.old) (printing K.state printer.new) }
    ensures kept { OnlyReads (D.state dev.old) (D.state dev.new) }
    ensures faults { QueryEnds result (D.state dev.old).faults
        (D.state dev.new).faults (K.state printer.old.out.now).faults (K.state printer.new.out.now).faults }
{
    let mut left = exclusive;
    loop {
        let row = match devices.next(dev) {
            Ok(row) => row,
            Err(_) => return Err(QueryFault::Device),
        };
        match row {
            Some(row) => {
                let (number, others) = first_tally(left);
                add_parts(&row, number, printer)?;
                left = others;
            }
            None => return Ok(()),
        }
    }
}

/// The first tally, and the others. Where there is none it is 0.
fn first_tally(tallies: &[u64]) -> (u64, &[u64])
    ensures first { result.0 ≡ slice_index tallies.now 0 }
    ensures others { result.1.now ≡ drop 1 tallies.now }
{
    match tallies.split_first() {
        Some((first, others)) => (*first, others),
        None => (0, tallies),
    }
}

/// Prints the line of a device in two parts, since it can be longer than a line of a text.
fn add_parts<K: Sink>(
    row: &DeviceRow,
    exclusive: u64,
    printer: &mut Printer<'_, K>,
) -> Result<(), QueryFault>
    requires { (K.state printer.old.out.now).access ≡ 1 }
    ensures same_reference { printer.new.out.ghost_name ≡ printer.old.out.ghost_name }
    ensures prints { Prints (device_line row.now exclusive) result (printing K.state printer.old) (printing K.state printer.new) }
    ensures faults { SinkFails result (K.state printer.old.out.now).faults (K.state printer.new.out.now).faults }
{
    print_line(blocks_text(row, exclusive).as_bytes(), printer)?;
    print_line(details_text(row).as_bytes(), printer)
}

/// The part of a device's line that tells its blocks.
fn blocks_text(row: &DeviceRow, exclusive: u64) -> LineBuffer
    ensures { result ≡ blocks_part row.now exclusive }
{
    let mut line = LineBuffer::new();
    add_labeled(&mut line, b"device ", row.id);
    add_labeled(&mut line, b" mapped ", row.details.mapped);
    add_labeled(&mut line, b" exclusive ", exclusive);
    add_labeled(
        &mut line,
        b" shared ",
        row.details.mapped.saturating_sub(exclusive),
    );
    line
}

/// The part of a device's line that tells its other details.
fn details_text(row: &DeviceRow) -> LineBuffer
    ensures { result ≡ details_part row.now }
{
    let mut line = LineBuffer::new();
    add_labeled(&mut line, b" transaction ", row.details.transaction);
    add_labeled(&mut line, b" created ", u64::from(row.details.created));
    add_labeled(&mut line, b" snapped ", u64::from(row.details.snapped));
    line.add(b"\n");
    line
}

/// The thin devices of a pool, as they are asked for.
#[derive(Clone, Copy, Debug, PartialEq, Eq)]
pub struct DeviceList;

impl Query for DeviceList {
    ghost use Rattle.std.specs.Prelude.{◌≡◌};
    ghost use Rattle.pd_kinds.specs.declared.kind.Kind.TheVariants.{Thin};
    ghost use Rattle.pd_kinds.specs.declared.kind.Stage.TheVariants.{Whole};
    ghost use Rattle.pd_kinds.specs.Graph.{block_at};
    ghost use Rattle.pd_kinds.specs.Meaning.{thin_meaning};
    ghost use Rattle.pd_kinds.specs.ThinFormat.{thin_fields};
    ghost use Rattle.pd_answers.specs.QueryLines.{device_list_lines};
    ghost use Rattle.pd_query.specs.Query.{IfSound};

    type Started = ThinSuper;

    ghost kind = { Thin };

    ghost stage = { Whole };

    ghost answer = { λ query image. device_list_lines (thin_meaning image) };

    ghost IsOver = { λ query s held. IfSound Thin held (λ image. s ≡ thin_fields (block_at image 0)) };

    fn start<D: Device>(&self, alloc: Global, dev: &mut D) -> Result<ThinSuper, QueryFault> {
        super_to_ask(dev)
    }

    fn put<D: Device, K: Sink>(
        &self,
        alloc: Global,
        started: ThinSuper,
        dev: &mut D,
        out: &mut K,
    ) -> Result<(), QueryFault> {
        list_devices(alloc, dev, &started, out)
    }
}
