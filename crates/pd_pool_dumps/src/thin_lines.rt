//! The lines of a pool, printed (`thin_dump`).

ghost use Rattle.std.specs.Prelude.{◌≡◌, ◌++◌, ◌∷◌, [], OnOk, IfSome, length};
ghost use Rattle.std.specs.List.{flat_map};
ghost use Rattle.pd_grammar.specs.ThinText.{thin};
ghost use Rattle.pd_grammar.specs.ThinText as p;
ghost use Rattle.pd_image.specs.Device.{IsAttached, OnlyReads};
ghost use Rattle.pd_lines.specs.Printer.{printing};
ghost use Rattle.pd_texts.specs.ThinLine.{text_of_line, line_of};
ghost use Rattle.pd_meaning_thin.specs.Runs.{rows_left, spelled};
ghost use Rattle.pd_meaning_thin.specs.Given.{row_lines, super_head};
ghost use Rattle.pd_query.specs.Query.{PrintsSome, Fails};
ghost use Rattle.pd_pool_dumps.specs.ThinText.{CountsSome, rest_text, row_text, rows_text};
ghost use Rattle.pd_pool_dumps.specs.LeafText.{kept_texts, AreKept};

use crate::counts::{DumpCounts, add_end_line, add_first_line, add_line};
use crate::device_walk::DeviceWalk;
use pd_image::{Device, Sink};
use pd_kinds::ThinSuper;
use pd_lines::Printer;
use pd_meaning_thin::{DeviceRow, Run, ThinDevices};
use pd_query::QueryFault;
use pd_texts::{Run2, ThinLine};

/// The line of a pool.
pub(crate) fn pool_line(s: &ThinSuper) -> ThinLine
    ensures { line_of result ≡ p.pool_line (super_head s.now) }
{
    ThinLine::Pool {
        uuid: s.uuid,
        time: s.time,
        transaction: s.transaction,
        block_size: s.block_size,
        blocks: s.data_map.blocks,
    }
}

/// The line of a run.
pub(crate) fn map_line(run: &Run) -> ThinLine
    ensures { line_of result ≡ p.map_line (spelled run.now) }
{
    ThinLine::Map(Run2 {
        virt: run.virt,
        target: run.target,
        length: run.length,
        time: run.time,
    })
}

/// Prints the line of a device, and those of its runs.
fn add_device<D: Device, K: Sink>(
    row: &DeviceRow,
    walk: &mut DeviceWalk,
    dev: &mut D,
    printer: &mut Printer<'_, K>,
    counts: &mut DumpCounts,
) -> Result<(), QueryFault>
    requires dev { IsAttached (D.state dev.old) }
    requires kept { IfSome (D.state dev.old).held (λ image. AreKept image (kept_texts walk.old)) }
    requires open { (K.state printer.old.out.now).access ≡ 1 }
    ensures same_reference { printer.new.out.ghost_name ≡ printer.old.out.ghost_name }
    ensures prints { PrintsSome (D.state dev.old).held
        (λ image. row_text image row.now) result (printing K.state printer.old) (printing K.state printer.new) }
    ensures counted { OnOk result (CountsSome (D.state dev.old).held (λ image. row_lines image row.now) counts.old counts.new) }
    ensures texts { OnOk result (IfSome (D.state dev.old).held (λ image. AreKept image (kept_texts walk.new))) }
    ensures kept { OnlyReads (D.state dev.old) (D.state dev.new) }
    ensures faults { Fails result (D.state dev.old).faults
        (D.state dev.new).faults (K.state printer.old.out.now).faults (K.state printer.new.out.now).faults }
{
    let line = ThinLine::Device {
        id: row.id,
        details: row.details,
    };
    add_line(&line, printer, counts)?;
    walk.add_runs_of(row.root, dev, printer, counts)
}

/// Prints the lines of the devices that are left.
fn add_devices<D: Device, K: Sink>(
    devices: &mut ThinDevices,
    walk: &mut DeviceWalk,
    dev: &mut D,
    printer: &mut Printer<'_, K>,
    counts: &mut DumpCounts,
) -> Result<(), QueryFault>
    requires dev { IsAttached (D.state dev.old) }
    requires kept { IfSome (D.state dev.old).held (λ image. AreKept image (kept_texts walk.old)) }
    requires open { (K.state printer.old.out.now).access ≡ 1 }
    ensures same_reference { printer.new.out.ghost_name ≡ printer.old.out.ghost_name }
    ensures prints { PrintsSome (D.state dev.old).held
        (λ image. rows_text image (rows_left image devices.old)) result (printing K.state printer.old) (printing K.state printer.new) }
    ensures counted { OnOk result (CountsSome (D.state dev.old).held
        (λ image. flat_map (row_lines image) (rows_left image devices.old)) counts.old counts.new) }
    ensures texts { OnOk result (IfSome (D.state dev.old).held (λ image. AreKept image (kept_texts walk.new))) }
    ensures kept { OnlyReads (D.state dev.old) (D.state dev.new) }
    ensures faults { Fails result (D.state dev.old).faults
        (D.state dev.new).faults (K.state printer.old.out.now).faults (K.state printer.new.out.now).faults }
{
    loop {
        let row = match devices.next(dev) {
            Ok(row) => row,
            Err(_) => return Err(QueryFault::Device),
        };
        match row {
            Some(row) => add_device(&row, walk, dev, printer, counts)?,
            None => return Ok(()),
        }
    }
}

/// Prints the lines of a pool, from the first one to the last.
pub(crate) fn add_pool<D: Device, K: Sink>(
    s: &ThinSuper,
    devices: &mut ThinDevices,
    walk: &mut DeviceWalk,
    dev: &mut D,
    printer: &mut Printer<'_, K>,
    counts: &mut DumpCounts,
) -> Result<(), QueryFault>
    requires dev { IsAttached (D.state dev.old) }
    requires kept { IfSome (D.state dev.old).held (λ image. AreKept image (kept_texts walk.old)) }
    requires open { (K.state printer.old.out.now).access ≡ 1 }
    ensures same_reference { printer.new.out.ghost_name ≡ printer.old.out.ghost_name }
    ensures prints { PrintsSome (D.state dev.old).held
        (λ image. text_of_line thin p.first_line ++ (text_of_line thin (p.pool_line (super_head s.now))
        ++ rest_text image devices.old)) result (printing K.state printer.old) (printing K.state printer.new) }
    ensures counted { OnOk result (CountsSome (D.state dev.old).held (λ image. p.first_line ∷ (p.pool_line (super_head s.now)
        ∷ (flat_map (row_lines image) (rows_left image devices.old) ++ (p.end_line ∷ [])))) counts.old counts.new) }
    ensures kept { OnlyReads (D.state dev.old) (D.state dev.new) }
    ensures faults { Fails result (D.state dev.old).faults
        (D.state dev.new).faults (K.state printer.old.out.now).faults (K.state printer.new.out.now).faults }
{
    add_first_line(printer, counts)?;
    add_line(&pool_line(s), printer, counts)?;
    add_devices(devices, walk, dev, printer, counts)?;
    add_end_line(printer, counts)
}
