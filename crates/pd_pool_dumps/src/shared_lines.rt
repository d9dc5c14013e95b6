//! The lines of a pool in whose text each leaf that devices share stands once, printed (`thin_dump --shared`).

ghost use Rattle.std.specs.Prelude.{◌≡◌, ◌++◌, ◌∷◌, [], map, IfOk, IfSome, length};
ghost use Rattle.std.specs.List.{flat_map};
ghost use Rattle.pd_kinds.specs.Objects.{CountsFault};
ghost use Rattle.pd_grammar.specs.Texts.{text_of_lines};
ghost use Rattle.pd_grammar.specs.ThinText.{thin};
ghost use Rattle.pd_grammar.specs.ThinText as p;
ghost use Rattle.pd_image.specs.Device.{IsAttached, OnlyReads};
ghost use Rattle.pd_lines.specs.Printer.{printing};
ghost use Rattle.pd_lines.specs.Printing.{Prints};
ghost use Rattle.pd_texts.specs.ThinLine.{text_of_line};
ghost use Rattle.pd_meaning_thin.specs.Runs.{rows_left, runs_below, runs_left};
ghost use Rattle.pd_meaning_thin.specs.Given.{super_head};
ghost use Rattle.pd_meaning_thin.specs.Walk.{shared_blocks};
ghost use Rattle.pd_meaning_thin.specs.Pieces.{pieces_left};
ghost use Rattle.pd_query.specs.Query.{Fails, SinkFails, PrintsSome};
ghost use Rattle.pd_pool_dumps.specs.ThinDump.{body_left};
ghost use Rattle.pd_pool_dumps.specs.SharedLines.{entries_in, leaf_lines, leaves_lines, piece_line, pieces_lines, sharing_lines};
ghost use Rattle.pd_pool_dumps.specs.ThinText.{given_text};

use crate::shared_dump::SharingDevices;
use crate::thin_lines::{map_line, pool_line};
use pd_image::{Device, Failed, Sink};
use pd_kinds::ThinSuper;
use pd_lines::Printer;
use pd_meaning_thin::{DeviceRow, MapRuns, Piece, PieceRuns, SharedLeaves, ThinDevices};
use pd_query::{QueryFault, print_line, print_text_line};
use pd_texts::{ThinLine, bytes_of_end, bytes_of_shared_first};

/// Prints the line of a piece.
fn print_piece<K: Sink>(piece: &Piece, printer: &mut Printer<'_, K>) -> Result<(), QueryFault>
    requires { (K.state printer.old.out.now).access ≡ 1 }
    ensures same_reference { printer.new.out.ghost_name ≡ printer.old.out.ghost_name }
    ensures prints { Prints (text_of_line thin (piece_line piece.now)) result (printing K.state printer.old)
        (printing K.state printer.new) }
    ensures faults { SinkFails result (K.state printer.old.out.now).faults (K.state printer.new.out.now).faults }
{
    match piece {
        Piece::Run(run) => print_text_line(&map_line(run), printer),
        Piece::SharedLeaf(number) => print_text_line(
            &ThinLine::UseLeaf { number: *number },
            printer,
        ),
    }
}

/// How many mappings the runs that are left have, up to the end of the number's type.
fn count_runs<D: Device>(runs: &mut MapRuns, dev: &mut D) -> Result<u64, Failed>
    requires dev { IsAttached (D.state dev.old) }
    ensures entries { IfOk result (λ entries. IfSome (D.state dev.old).held (λ image. entries ≡ entries_in (runs_left image runs.old))) }
    ensures kept { OnlyReads (D.state dev.old) (D.state dev.new) }
    ensures faults { CountsFault result (D.state dev.old).faults (D.state dev.new).faults }
{
    let mut entries = 0u64;
    loop {
        match runs.next(dev)? {
            Some(run) => entries = entries.saturating_add(run.length),
            None => return Ok(entries),
        }
    }
}

/// How many mappings the runs below a root have.
fn count_runs_of<D: Device>(root: u64, runs: &mut MapRuns, dev: &mut D) -> Result<u64, Failed>
    requires dev { IsAttached (D.state dev.old) }
    ensures entries { IfOk result (λ entries. IfSome (D.state dev.old).held (λ image. entries ≡ entries_in (runs_below image root))) }
    ensures kept { OnlyReads (D.state dev.old) (D.state dev.new) }
    ensures faults { CountsFault result (D.state dev.old).faults (D.state dev.new).faults }
{
    runs.restart(root);
    count_runs(runs, dev)
}

/// Prints the map lines of the runs that are left.
fn add_runs<D: Device, K: Sink>(
    runs: &mut MapRuns,
    dev: &mut D,
    printer: &mut Printer<'_, K>,
) -> Result<(), QueryFault>
    requires dev { IsAttached (D.state dev.old) }
    requires out { (K.state printer.old.out.now).access ≡ 1 }
    ensures same_reference { printer.new.out.ghost_name ≡ printer.old.out.ghost_name }
    ensures prints { PrintsSome (D.state dev.old).held
        (λ image. given_text (runs_left image runs.old)) result (printing K.state printer.old) (printing K.state printer.new) }
    ensures kept { OnlyReads (D.state dev.old) (D.state dev.new) }
    ensures faults { Fails result (D.state dev.old).faults
        (D.state dev.new).faults (K.state printer.old.out.now).faults (K.state printer.new.out.now).faults }
{
    loop {
        let run = match runs.next(dev) {
            Ok(run) => run,
            Err(_) => return Err(QueryFault::Device),
        };
        match run {
            Some(run) => print_text_line(&map_line(&run), printer)?,
            None => return Ok(()),
        }
    }
}

/// Prints the map lines of the runs below a root.
fn add_runs_of<D: Device, K: Sink>(
    root: u64,
    runs: &mut MapRuns,
    dev: &mut D,
    printer: &mut Printer<'_, K>,
) -> Result<(), QueryFault>
    requires dev { IsAttached (D.state dev.old) }
    requires out { (K.state printer.old.out.now).access ≡ 1 }
    ensures same_reference { printer.new.out.ghost_name ≡ printer.old.out.ghost_name }
    ensures prints { PrintsSome (D.state dev.old).held
        (λ image. given_text (runs_below image root)) result (printing K.state printer.old) (printing K.state printer.new) }
    ensures kept { OnlyReads (D.state dev.old) (D.state dev.new) }
    ensures faults { Fails result (D.state dev.old).faults
        (D.state dev.new).faults (K.state printer.old.out.now).faults (K.state printer.new.out.now).faults }
{
    runs.restart(root);
    add_runs(runs, dev, printer)
}

/// Prints the lines of a shared leaf: its number and that of its mappings, and then its runs. Its block is read twice.
fn add_leaf<D: Device, K: Sink>(
    number: u64,
    block: u64,
    runs: &mut MapRuns,
    dev: &mut D,
    printer: &mut Printer<'_, K>,
) -> Result<(), QueryFault>
    requires dev { IsAttached (D.state dev.old) }
    requires out { (K.state printer.old.out.now).access ≡ 1 }
    ensures same_reference { printer.new.out.ghost_name ≡ printer.old.out.ghost_name }
    ensures prints { PrintsSome (D.state dev.old).held
        (λ image. text_of_lines thin (leaf_lines image number block)) result (printing K.state printer.old) (printing K.state printer.new) }
    ensures kept { OnlyReads (D.state dev.old) (D.state dev.new) }
    ensures faults { Fails result (D.state dev.old).faults
        (D.state dev.new).faults (K.state printer.old.out.now).faults (K.state printer.new.out.now).faults }
{
    let entries = match count_runs_of(block, runs, dev) {
        Ok(entries) => entries,
        Err(_) => return Err(QueryFault::Device),
    };
    print_text_line(&ThinLine::Leaf { number, entries }, printer)?;
    add_runs_of(block, runs, dev, printer)
}

/// Prints the lines of the shared leaves, by their numbers.
fn add_leaves<D: Device, K: Sink>(
    shared: &SharedLeaves,
    runs: &mut MapRuns,
    dev: &mut D,
    printer: &mut Printer<'_, K>,
) -> Result<(), QueryFault>
    requires dev { IsAttached (D.state dev.old) }
    requires out { (K.state printer.old.out.now).access ≡ 1 }
    ensures same_reference { printer.new.out.ghost_name ≡ printer.old.out.ghost_name }
    ensures prints { PrintsSome (D.state dev.old).held (λ image. text_of_lines thin
        (leaves_lines image 0 (shared_blocks shared.now))) result (printing K.state printer.old) (printing K.state printer.new) }
    ensures kept { OnlyReads (D.state dev.old) (D.state dev.new) }
    ensures faults { Fails result (D.state dev.old).faults
        (D.state dev.new).faults (K.state printer.old.out.now).faults (K.state printer.new.out.now).faults }
{
    for number in 0..shared.len() {
        add_leaf(number, shared.block(number), runs, dev, printer)?;
    }
    Ok(())
}

/// Prints the lines of the pieces that are left.
fn add_pieces<D: Device, K: Sink>(
    pieces: &mut PieceRuns,
    shared: &SharedLeaves,
    dev: &mut D,
    printer: &mut Printer<'_, K>,
) -> Result<(), QueryFault>
    requires dev { IsAttached (D.state dev.old) }
    requires out { (K.state printer.old.out.now).access ≡ 1 }
    ensures same_reference { printer.new.out.ghost_name ≡ printer.old.out.ghost_name }
    ensures prints { PrintsSome (D.state dev.old).held (λ image. text_of_lines thin (map piece_line
        (pieces_left (shared_blocks shared.now) image pieces.old))) result (printing K.state printer.old) (printing K.state printer.new) }
    ensures kept { OnlyReads (D.state dev.old) (D.state dev.new) }
    ensures faults { Fails result (D.state dev.old).faults
        (D.state dev.new).faults (K.state printer.old.out.now).faults (K.state printer.new.out.now).faults }
{
    loop {
        let piece = match pieces.next(shared, dev) {
            Ok(piece) => piece,
            Err(_) => return Err(QueryFault::Device),
        };
        match piece {
            Some(piece) => print_piece(&piece, printer)?,
            None => return Ok(()),
        }
    }
}

/// Prints the lines of the pieces below a root.
fn add_pieces_of<D: Device, K: Sink>(
    root: u64,
    pieces: &mut PieceRuns,
    shared: &SharedLeaves,
    dev: &mut D,
    printer: &mut Printer<'_, K>,
) -> Result<(), QueryFault>
    requires dev { IsAttached (D.state dev.old) }
    requires out { (K.state printer.old.out.now).access ≡ 1 }
    ensures same_reference { printer.new.out.ghost_name ≡ printer.old.out.ghost_name }
    ensures prints { PrintsSome (D.state dev.old).held (λ image. text_of_lines thin
        (pieces_lines (shared_blocks shared.now) image root)) result (printing K.state printer.old) (printing K.state printer.new) }
    ensures kept { OnlyReads (D.state dev.old) (D.state dev.new) }
    ensures faults { Fails result (D.state dev.old).faults
        (D.state dev.new).faults (K.state printer.old.out.now).faults (K.state printer.new.out.now).faults }
{
    pieces.restart(root);
    add_pieces(pieces, shared, dev, printer)
}

/// Prints the line of a device, and those of its pieces.
fn add_sharing_device<D: Device, K: Sink>(
    row: &DeviceRow,
    pieces: &mut PieceRuns,
    shared: &SharedLeaves,
    dev: &mut D,
    printer: &mut Printer<'_, K>,
) -> Result<(), QueryFault>
    requires dev { IsAttached (D.state dev.old) }
    requires out { (K.state printer.old.out.now).access ≡ 1 }
    ensures same_reference { printer.new.out.ghost_name ≡ printer.old.out.ghost_name }
    ensures prints { PrintsSome (D.state dev.old).held (λ image. text_of_lines thin
        (sharing_lines (shared_blocks shared.now) image row.now)) result (printing K.state printer.old) (printing K.state printer.new) }
    ensures kept { OnlyReads (D.state dev.old) (D.state dev.new) }
    ensures faults { Fails result (D.state dev.old).faults
        (D.state dev.new).faults (K.state printer.old.out.now).faults (K.state printer.new.out.now).faults }
{
    let line = ThinLine::Device {
        id: row.id,
        details: row.details,
    };
    print_text_line(&line, printer)?;
    add_pieces_of(row.root, pieces, shared, dev, printer)
}

/// Prints the lines of the devices that are left.
fn add_sharing_devices<D: Device, K: Sink>(
    devices: &mut ThinDevices,
    pieces: &mut PieceRuns,
    shared: &SharedLeaves,
    dev: &mut D,
    printer: &mut Printer<'_, K>,
) -> Result<(), QueryFault>
    requires dev { IsAttached (D.state dev.old) }
    requires out { (K.state printer.old.out.now).access ≡ 1 }
    ensures same_reference { printer.new.out.ghost_name ≡ printer.old.out.ghost_name }
    ensures prints { PrintsSome (D.state dev.old).held
        (λ image. text_of_lines thin (flat_map (sharing_lines (shared_blocks shared.now) image) (rows_left image devices.old))) result
        (printing K.state printer.old) (printing K.state printer.new) }
    ensures kept { OnlyReads (D.state dev.old) (D.state dev.new) }
    ensures faults { Fails result (D.state dev.old).faults
        (D.state dev.new).faults (K.state printer.old.out.now).faults (K.state printer.new.out.now).faults }
{
    loop {
        let row = match devices.next(dev) {
            Ok(row) => row,
            Err(_) => return Err(QueryFault::Device),
        };
        match row {
            Some(row) => add_sharing_device(&row, pieces, shared, dev, printer)?,
            None => return Ok(()),
        }
    }
}

/// Prints the lines of the shared leaves and of the devices that are left.
fn add_body<D: Device, K: Sink>(
    sharing: &mut SharingDevices,
    dev: &mut D,
    printer: &mut Printer<'_, K>,
) -> Result<(), QueryFault>
    requires dev { IsAttached (D.state dev.old) }
    requires out { (K.state printer.old.out.now).access ≡ 1 }
    ensures same_reference { printer.new.out.ghost_name ≡ printer.old.out.ghost_name }
    ensures prints { PrintsSome (D.state dev.old).held
        (λ image. text_of_lines thin (body_left image sharing.old)) result (printing K.state printer.old) (printing K.state printer.new) }
    ensures kept { OnlyReads (D.state dev.old) (D.state dev.new) }
    ensures faults { Fails result (D.state dev.old).faults
        (D.state dev.new).faults (K.state printer.old.out.now).faults (K.state printer.new.out.now).faults }
{
    add_leaves(&sharing.shared, &mut sharing.runs, dev, printer)?;
    add_sharing_devices(
        &mut sharing.devices,
        &mut sharing.pieces,
        &sharing.shared,
        dev,
        printer,
    )
}

/// Prints the first line of a text of version 2.
fn add_shared_first<K: Sink>(printer: &mut Printer<'_, K>) -> Result<(), QueryFault>
    requires { (K.state printer.old.out.now).access ≡ 1 }
    ensures same_reference { printer.new.out.ghost_name ≡ printer.old.out.ghost_name }
    ensures prints { Prints (text_of_line thin p.shared_first_line) result (printing K.state printer.old) (printing K.state printer.new) }
    ensures faults { SinkFails result (K.state printer.old.out.now).faults (K.state printer.new.out.now).faults }
{
    print_line(bytes_of_shared_first(), printer)
}

/// Prints the lines of a pool, from the first one to the last.
pub(crate) fn add_shared_pool<D: Device, K: Sink>(
    s: &ThinSuper,
    sharing: &mut SharingDevices,
    dev: &mut D,
    printer: &mut Printer<'_, K>,
) -> Result<(), QueryFault>
    requires dev { IsAttached (D.state dev.old) }
    requires out { (K.state printer.old.out.now).access ≡ 1 }
    ensures same_reference { printer.new.out.ghost_name ≡ printer.old.out.ghost_name }
    ensures prints { PrintsSome (D.state dev.old).held (λ image. text_of_lines thin (p.shared_first_line ∷ (p.pool_line (super_head s.now)
        ∷ (body_left image sharing.old ++ (p.end_line ∷ []))))) result (printing K.state printer.old) (printing K.state printer.new) }
    ensures kept { OnlyReads (D.state dev.old) (D.state dev.new) }
    ensures faults { Fails result (D.state dev.old).faults
        (D.state dev.new).faults (K.state printer.old.out.now).faults (K.state printer.new.out.now).faults }
{
    add_shared_first(printer)?;
    print_text_line(&pool_line(s), printer)?;
    add_body(sharing, dev, printer)?;
    print_line(bytes_of_end(), printer)
}
