//! The text of what a repair would keep (`thin_repair --dry-run`).

ghost use Rattle.std.specs.Prelude.{◌≡◌, ◌+◌, ◌≤◌, ◌++◌, length, OnOk};
ghost use Rattle.std.specs.List.{flat_map};
ghost use Rattle.pd_kinds.specs.Objects.{CountsFault, Appends, AppendsFront};
ghost use Rattle.pd_answers.specs.KeptLines.{kept_line, lost_line, mapped_word, told_text};
ghost use Rattle.pd_image.specs.Sink.{KeepsSink};
ghost use Rattle.pd_lines.specs.Printer.{printing};
ghost use Rattle.pd_lines.specs.Printing.{Prints};
ghost use Rattle.pd_kept.specs.Kept.{line_of, last_line, told_of};

use crate::kept::{Kept, KeptDevice};
use pd_image::{Failed, Sink};
use pd_lines::{LineBuffer, PieceBuffer, Printer, TextLine};

/// Puts what a repair would keep: a line for each device, and the last one with how many are saved, how many mappings these
/// have, and the two needs.
///
/// Fails with `Failed` where `out` did; then a front of the text was put.
pub fn put_kept<K: Sink>(kept: &Kept, out: &mut K) -> Result<(), Failed>
    requires { (K.state out.old).access ≡ 1 }
    ensures whole { OnOk result (Appends (told_text (told_of kept.now)) (K.state out.old).written (K.state out.new).written) }
    ensures front { AppendsFront (told_text (told_of kept.now)) (K.state out.old).written (K.state out.new).written }
    ensures kept { KeepsSink (K.state out.old) (K.state out.new) }
    ensures faults { CountsFault result (K.state out.old).faults (K.state out.new).faults }
{
    let mut printer = Printer::to_sink(out);
    print_kept(kept, &mut printer)?;
    printer.finish()
}

/// Prints what is kept.
pub(crate) fn print_kept<K: Sink>(kept: &Kept, printer: &mut Printer<'_, K>) -> Result<(), Failed>
    requires { (K.state printer.old.out.now).access ≡ 1 }
    ensures same_reference { printer.new.out.ghost_name ≡ printer.old.out.ghost_name }
    ensures prints { Prints (told_text (told_of kept.now)) result (printing K.state printer.old) (printing K.state printer.new) }
    ensures faults { CountsFault result (K.state printer.old.out.now).faults (K.state printer.new.out.now).faults }
{
    print_devices(kept.devices.as_slice(), printer)?;
    let line = last_line(kept);
    printer.print(line.as_bytes())
}

/// Prints the lines of devices.
fn print_devices<K: Sink>(
    devices: &[KeptDevice],
    printer: &mut Printer<'_, K>,
) -> Result<(), Failed>
    requires { (K.state printer.old.out.now).access ≡ 1 }
    ensures same_reference { printer.new.out.ghost_name ≡ printer.old.out.ghost_name }
    ensures prints { Prints (flat_map line_of devices.now) result (printing K.state printer.old) (printing K.state printer.new) }
    ensures faults { CountsFault result (K.state printer.old.out.now).faults (K.state printer.new.out.now).faults }
{
    for device in devices {
        printer.print_line(device)?;
    }
    Ok(())
}

/// The last line.
fn last_line(kept: &Kept) -> LineBuffer
    ensures { result ≡ last_line kept.now }
{
    let mut line = LineBuffer::new();
    line.add(b"keeps ");
    line.add_number(kept.saved);
    line.add(b" ");
    line.add_number(kept.mappings);
    line.add(b" need ");
    line.add_number(kept.need);
    line.add(b" shared ");
    line.add_number(kept.shared_need);
    line.add(b"\n");
    line
}

impl TextLine for KeptDevice {
    ghost bytes = { λ device. line_of device };

    fn add_to(&self, text: &mut PieceBuffer) {
        match self {
            KeptDevice::Kept {
                id,
                mappings,
                mapped,
            } => add_kept(text, *id, *mappings, *mapped),
            KeptDevice::Lost { id, mapped } => add_lost(text, *id, *mapped),
        }
    }
}

/// Adds the line of a device that is saved.
fn add_kept(text: &mut PieceBuffer, id: u64, mappings: u64, mapped: Option<u64>)
    requires { length text.old + 161 ≤ 16384 }
    ensures { text.new ≡ text.old ++ kept_line id mappings mapped }
{
    text.add(b"device ");
    text.add_number(id);
    text.add(b" kept ");
    text.add_number(mappings);
    text.add(b" of ");
    add_mapped(text, mapped);
    text.add(b"\n");
}

/// Adds a stored number, or the mark that it wasn't found.
fn add_mapped(text: &mut PieceBuffer, mapped: Option<u64>)
    requires { length text.old + 20 ≤ 16384 }
    ensures bytes { text.new ≡ text.old ++ mapped_word mapped }
    ensures len { length text.new ≤ length text.old + 20 }
{
    match mapped {
        Some(mapped) => text.add_number(mapped),
        None => text.add(b"?"),
    }
}

/// Adds the line of a device that is lost.
fn add_lost(text: &mut PieceBuffer, id: u64, mapped: u64)
    requires { length text.old + 161 ≤ 16384 }
    ensures { text.new ≡ text.old ++ lost_line id mapped }
{
    text.add(b"device ");
    text.add_number(id);
    text.add(b" lost ");
    text.add_number(mapped);
    text.add(b"\n");
}
