//! The lines of the generator's text, made one by one (`thin_generate`, `thin_rehearse`).

ghost use Rattle.std.specs.Prelude.{◌≡◌, ◌<◌, ◌^◌, ◌∷◌, [], IfNone, IfSome};
ghost use Rattle.pd_grammar.specs.ThinText as p;
ghost use Rattle.pd_texts.specs.ThinLine.{line_of};
ghost use Rattle.pd_gen.specs.Lines.{GivesGenerated, lines_from, run_of, device_mapping, details_with, generated_head, snapshot_mapping};

use pd_texts::{Run2, ThinLine};
use pd_value::Details;

/// At which virtual blocks the snapshot has a block of its own: at the multiples of this number.
const CHANGED: u64 = 200;

/// The next line.
#[derive(Clone, Copy)]
enum NextLine {
    /// The pool's.
    Pool,
    /// The device's.
    Device,
    /// The device's map line of this virtual block, or after all of these the line of the snapshot.
    Maps(u64),
    /// The snapshot's map line of this virtual block, or none after all of these.
    SnapshotMaps(u64),
}

/// A line, and the place after it.
#[derive(Drop)]
struct Step {
    line: ThinLine,
    next: NextLine,
}

/// The lines of the text of a number that stand between its first and its last one.
#[derive(Drop)]
pub(crate) struct Generated {
    number: u32,
    next: NextLine,
}

impl Generated {
    ghost use Rattle.pd_gen.specs.Lines.{lines_left};

    /// All of them.
    pub(crate) fn new(number: u32) -> Generated
        ensures { lines_left result ≡ lines_from number NextLine.Pool }
    {
        Generated {
            number,
            next: NextLine::Pool,
        }
    }

    /// The next line, or none where all were made.
    pub(crate) fn next(&mut self) -> Option<ThinLine>
        ensures none { IfNone result (lines_left self.old ≡ []) }
        ensures some { IfSome result (λ line. lines_left self.old ≡ line_of line ∷ lines_left self.new) }
    {
        let step = step_at(self.number, self.next)?;
        self.next = step.next;
        Some(step.line)
    }
}

/// The line in a place of the text of the number.
fn step_at(number: u32, place: NextLine) -> Option<Step>
    ensures some { IfSome result (GivesGenerated number place) }
    ensures none { IfNone result (lines_from number place ≡ []) }
{
    match place {
        NextLine::Pool => Some(Step {
            line: pool_line(number),
            next: NextLine::Device,
        }),
        NextLine::Device => Some(Step {
            line: device_line(number, 0),
            next: NextLine::Maps(0),
        }),
        NextLine::Maps(v) => Some(map_step(number, v)),
        NextLine::SnapshotMaps(v) => snapshot_step(number, v),
    }
}

/// The device's map line of a virtual block, or after the last of these the line of the snapshot.
fn map_step(number: u32, v: u64) -> Step
    ensures { GivesGenerated number (NextLine.Maps v) result }
{
    if v < 1000 * number as u64 {
        Step {
            line: device_map_line(v),
            next: NextLine::Maps(v + 1),
        }
    } else {
        Step {
            line: device_line(number, 1),
            next: NextLine::SnapshotMaps(0),
        }
    }
}

/// The snapshot's map line of a virtual block, or none after the last of these.
fn snapshot_step(number: u32, v: u64) -> Option<Step>
    ensures some { IfSome result (GivesGenerated number (NextLine.SnapshotMaps v)) }
    ensures none { IfNone result (lines_from number (NextLine.SnapshotMaps v) ≡ []) }
{
    if v < 1000 * number as u64 {
        Some(Step {
            line: snapshot_map_line(v),
            next: NextLine::SnapshotMaps(v + 1),
        })
    } else {
        None
    }
}

/// The line of the pool.
fn pool_line(number: u32) -> ThinLine
    ensures { line_of result ≡ p.pool_line (generated_head number) }
{
    ThinLine::Pool {
        uuid: [0; 16],
        time: 1,
        transaction: 2,
        block_size: 128,
        blocks: 10000 * number as u64,
    }
}

/// The line of the device, with id 0, or of its snapshot, with id 1.
fn device_line(number: u32, id: u32) -> ThinLine
    ensures { line_of result ≡ p.device_line (details_with number id) }
{
    ThinLine::Device {
        id: id as u64,
        details: Details {
            mapped: 1000 * number as u64,
            transaction: id as u64,
            created: id,
            snapped: 1,
        },
    }
}

/// The line of a mapping of the device.
fn device_map_line(v: u64) -> ThinLine
    requires { v < 2 ^ 62 }
    ensures { line_of result ≡ p.map_line (run_of (device_mapping v)) }
{
    map_line(v, 2 * v, 0)
}

/// The line of a mapping of its snapshot.
fn snapshot_map_line(v: u64) -> ThinLine
    requires { v < 2 ^ 62 }
    ensures { line_of result ≡ p.map_line (run_of (snapshot_mapping v)) }
{
    if v % CHANGED == 0 {
        map_line(v, 2 * v + 1, 1)
    } else {
        map_line(v, 2 * v, 0)
    }
}

/// The line of a mapping to one data block.
fn map_line(virt: u64, target: u64, time: u32) -> ThinLine
    ensures { line_of result ≡ p.map_line (record { virtual_block = virt; data_block = target; length = 1; time = time }) }
{
    ThinLine::Map(Run2 {
        virt,
        target,
        length: 1,
        time,
    })
}
