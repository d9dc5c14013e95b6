//! The lines of a pool's text, printed (`thin_dump`).

ghost use Rattle.std.specs.Prelude.{◌≡◌, ◌+◌, ◌≤◌, ◌++◌, length, OnOk, ◌<◌, ◌^◌, ◌∷◌, decimal};
ghost use Rattle.uuid.specs.Text.{hyphenated_text, lower};
ghost use Rattle.pd_kinds.specs.Objects.{CountsFault, Appends, AppendsFront};
ghost use Rattle.pd_grammar.specs.ThinText.{thin, shared_first_line, pool_line, leaf_line, device_line, use_line, map_line};
ghost use Rattle.pd_image.specs.Sink.{KeepsSink};
ghost use Rattle.pd_texts.specs.ThinLine.{text_of_line, line_of, details_of, run_of, first_text, end_text};

use crate::thin_text::{Run2, ThinLine};
use pd_image::{Failed, Sink};
use pd_kinds::Kind;
use pd_lines::{PieceBuffer, TextLine, put_line};
use pd_value::Details;
use uuid::Uuid;

/// Prints the first line of a text of version 2. It takes no memory.
pub fn print_shared_first<K: Sink>(out: &mut K) -> Result<(), Failed>
    requires { (K.state out.old).access ≡ 1 }
    ensures whole { OnOk result (Appends (text_of_line thin shared_first_line) (K.state out.old).written (K.state out.new).written) }
    ensures front { AppendsFront (text_of_line thin shared_first_line) (K.state out.old).written (K.state out.new).written }
    ensures kept { KeepsSink (K.state out.old) (K.state out.new) }
    ensures faults { CountsFault result (K.state out.old).faults (K.state out.new).faults }
{
    out.put(bytes_of_shared_first())
}

/// The bytes of the first line of a text of version 2.
pub fn bytes_of_shared_first() -> &'static [u8]
    ensures bytes { result.now ≡ text_of_line thin shared_first_line }
    ensures len { length result.now ≤ 8 }
{
    b"thin 2\n"
}

/// Prints a line. It takes no memory.
pub fn print_thin<K: Sink>(line: &ThinLine, out: &mut K) -> Result<(), Failed>
    requires { (K.state out.old).access ≡ 1 }
    ensures whole { OnOk result (Appends (text_of_line thin (line_of line.now)) (K.state out.old).written (K.state out.new).written) }
    ensures front { AppendsFront (text_of_line thin (line_of line.now)) (K.state out.old).written (K.state out.new).written }
    ensures kept { KeepsSink (K.state out.old) (K.state out.new) }
    ensures faults { CountsFault result (K.state out.old).faults (K.state out.new).faults }
{
    put_line(line, out)
}

impl TextLine for ThinLine {
    ghost bytes = { λ line. text_of_line thin (line_of line) };

    fn add_to(&self, text: &mut PieceBuffer) {
        match self {
            ThinLine::Pool {
                uuid,
                time,
                transaction,
                block_size,
                blocks,
            } => {
                add_pool(
                    text,
                    *uuid,
                    *time as u64,
                    *transaction,
                    *block_size as u64,
                    *blocks,
                )
            }
            ThinLine::Leaf { number, entries } => add_leaf(text, *number, *entries),
            ThinLine::Device { id, details } => add_device(text, *id, details),
            ThinLine::UseLeaf { number } => add_use(text, *number),
            ThinLine::Map(run) => add_map(text, run),
        }
    }
}

/// Adds the bytes of a pool line.
fn add_pool(
    line: &mut PieceBuffer,
    uuid: [u8; 16],
    time: u64,
    transaction: u64,
    block_size: u64,
    blocks: u64,
)
    requires { length line.old + 161 ≤ 16384 }
    ensures { line.new ≡ line.old ++ text_of_line thin
        (pool_line (record { uuid = uuid; time = time; transaction = transaction; block_size = block_size; data_blocks = blocks })) }
{
    line.add(b"pool ");
    add_uuid(line, uuid);
    add_word(line, time);
    add_word(line, transaction);
    add_word(line, block_size);
    add_word(line, blocks);
    line.add(b"\n");
}

/// Adds the bytes of a leaf line.
fn add_leaf(line: &mut PieceBuffer, number: u64, entries: u64)
    requires { length line.old + 161 ≤ 16384 }
    ensures { line.new ≡ line.old ++ text_of_line thin (leaf_line (record { number = number; entries = entries })) }
{
    line.add(b"leaf");
    add_word(line, number);
    add_word(line, entries);
    line.add(b"\n");
}

/// Adds the bytes of a device line.
fn add_device(line: &mut PieceBuffer, id: u64, details: &Details)
    requires { length line.old + 161 ≤ 16384 }
    ensures { line.new ≡ line.old ++ text_of_line thin (device_line (details_of id details.now)) }
{
    line.add(b"device");
    add_word(line, id);
    add_word(line, details.mapped);
    add_word(line, details.transaction);
    add_word(line, details.created as u64);
    add_word(line, details.snapped as u64);
    line.add(b"\n");
}

/// Adds the bytes of a use line.
fn add_use(line: &mut PieceBuffer, number: u64)
    requires { length line.old + 161 ≤ 16384 }
    ensures { line.new ≡ line.old ++ text_of_line thin (use_line number) }
{
    line.add(b"use");
    add_word(line, number);
    line.add(b"\n");
}

/// Adds the bytes of a map line.
fn add_map(line: &mut PieceBuffer, run: &Run2)
    requires { length line.old + 161 ≤ 16384 }
    ensures { line.new ≡ line.old ++ text_of_line thin (map_line (run_of run.now)) }
{
    line.add(b"map");
    add_word(line, run.virt);
    add_word(line, run.target);
    add_word(line, run.length);
    add_word(line, run.time as u64);
    line.add(b"\n");
}

// The first and the last line of a text, printed, and the words of lines (`thin_dump`, `cache_dump`, `era_dump`).

/// Prints the first line of a text of this kind. It takes no memory.
pub fn print_first<K: Sink>(kind: Kind, out: &mut K) -> Result<(), Failed>
    requires { (K.state out.old).access ≡ 1 }
    ensures whole { OnOk result (Appends (first_text kind) (K.state out.old).written (K.state out.new).written) }
    ensures front { AppendsFront (first_text kind) (K.state out.old).written (K.state out.new).written }
    ensures kept { KeepsSink (K.state out.old) (K.state out.new) }
    ensures faults { CountsFault result (K.state out.old).faults (K.state out.new).faults }
{
    out.put(bytes_of_first(kind))
}

/// Prints the last line of a text. It takes no memory.
pub fn print_end<K: Sink>(out: &mut K) -> Result<(), Failed>
    requires { (K.state out.old).access ≡ 1 }
    ensures whole { OnOk result (Appends end_text (K.state out.old).written (K.state out.new).written) }
    ensures front { AppendsFront end_text (K.state out.old).written (K.state out.new).written }
    ensures kept { KeepsSink (K.state out.old) (K.state out.new) }
    ensures faults { CountsFault result (K.state out.old).faults (K.state out.new).faults }
{
    out.put(bytes_of_end())
}

/// The bytes of the first line of a text of this kind.
pub fn bytes_of_first(kind: Kind) -> &'static [u8]
    ensures bytes { result.now ≡ first_text kind }
    ensures len { length result.now ≤ 8 }
{
    match kind {
        Kind::Thin => b"thin 1\n",
        Kind::Cache => b"cache 1\n",
        Kind::Era => b"era 1\n",
    }
}

/// The bytes of the last line of a text.
pub fn bytes_of_end() -> &'static [u8]
    ensures bytes { result.now ≡ end_text }
    ensures len { length result.now ≤ 8 }
{
    b"end\n"
}

/// Adds a space and a number.
pub fn add_word(line: &mut PieceBuffer, number: u64)
    requires { length line.old + 21 ≤ 16384 }
    ensures bytes { line.new ≡ line.old ++ (32 ∷ decimal number) }
    ensures len { length line.new ≤ length line.old + 21 }
    ensures small { number < 2 ^ 32 → length line.new ≤ length line.old + 11 }
{
    line.add(b" ");
    line.add_number(number);
}

/// Adds a uuid, in its hyphenated form in lower case.
pub fn add_uuid(line: &mut PieceBuffer, uuid: [u8; 16])
    requires { length line.old + 36 ≤ 16384 }
    ensures bytes { line.new ≡ line.old ++ hyphenated_text lower uuid }
    ensures len { length line.new ≡ length line.old + 36 }
{
    let mut buffer = Uuid::encode_buffer();
    let text = Uuid::from_bytes(uuid)
        .hyphenated()
        .encode_lower(&mut buffer);
    line.add(text.as_bytes());
}
