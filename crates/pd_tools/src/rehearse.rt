//! A rehearsal, from a number and the path of an image to the line (`thin_rehearse`).

ghost use Rattle.std.specs.Prelude.{◌≡◌, ◌≤◌, [], OnOk, unwrap_or};
ghost use Rattle.std.specs.Option.{option_copied};
ghost use Rattle.pd_kinds.specs.Objects.{CountsFault, Appends, AppendsFront};
ghost use Rattle.pd_answers.specs.Rehearsals.{rehearsal_line, generated_text};
ghost use Rattle.pd_answers.specs.Terms.{Objects, IsUsed, reading};
ghost use Rattle.pd_answers.specs.Promises.{generate};
ghost use Rattle.pd_tools.specs.Ending.{rehearsal_ended};
ghost use Rattle.pd_tools.specs.Task.{AnswersTerms};

use crate::ending::{Ending, Outcome, Stop, no_room};
use crate::task::{DevicePath, Places, Task};
use pd_gen::{Rehearsal, RehearseFault, put_generated, rehearse};
use pd_image::{Device, Failed, Sink};
use pd_laid::pool_text_has_one_verdict;
use pd_lines::LineBuffer;
use std::alloc::Global;

/// Rehearses with the generator's text of the number, over the image at the path.
#[derive(Clone, Copy)]
pub struct Rehearsing<'a> {
    pub number: u32,
    pub image: &'a str,
    ghost few: { number ≤ 10000 },
}

impl Task for Rehearsing<'_> {
    ghost use Rattle.pd_answers.specs.Rehearsals.{rehearse};

    ghost terms = { λ task. rehearse task.number task.image.now };

    fn places(&self) -> Places<'_> {
        Places {
            input: DevicePath::Unused,
            output: DevicePath::Writing(self.image),
            third: DevicePath::Unused,
        }
    }

    fn laws(&self) {
        pool_text_has_one_verdict();
    }

    fn work<A: Device, B: Device, C: Device>(
        &self,
        alloc: Global,
        input: &mut A,
        output: &mut B,
        third: &mut C,
    ) -> Result<Outcome, Stop> {
        let rehearsed = rehearse(alloc, self.number, output);
        ended_of(self.number, rehearsed)
    }
}

/// How a rehearsal ended.
fn ended_of(number: u32, rehearsed: Result<Rehearsal, RehearseFault>) -> Result<Outcome, Stop>
    ensures { result ≡ rehearsal_ended number rehearsed }
{
    match rehearsed {
        Ok(rehearsal) => Ok(Outcome::Line(rehearsal_text(number, &rehearsal))),
        Err(fault) => match fault {
            RehearseFault::Memory => Err(Stop::Memory),
            RehearseFault::Device => Err(Stop::Device),
            RehearseFault::NoRoom { need, blocks } => Ok(Outcome::Ended(no_room(need, blocks))),
            RehearseFault::Faulty(report) => Ok(Outcome::Ended(Ending::Faulty(report))),
        },
    }
}

/// The line of a rehearsal.
fn rehearsal_text(number: u32, rehearsal: &Rehearsal) -> LineBuffer
    ensures { result ≡ rehearsal_line number rehearsal.now.used rehearsal.now.counts.mappings rehearsal.now.counts.lines }
{
    let mut line = LineBuffer::new();
    line.add(b"rehearsal ");
    line.add_number(number as u64);
    line.add(b" used ");
    line.add_number(rehearsal.used);
    line.add(b" mappings ");
    line.add_number(rehearsal.counts.mappings);
    line.add(b" lines ");
    line.add_number(rehearsal.counts.lines);
    line.add(b" clean\n");
    line
}

// The generator, from a number to its text (`thin_generate`).

/// Puts the generator's text of a number to the file, or to the standard output.
#[inline(never)]
pub fn run_generate<K: Sink, E: Sink>(
    number: u32,
    file: Option<&str>,
    out: &mut K,
    notes: &mut E,
) -> u8
    requires out { (K.state out.old).access ≡ 0 }
    requires notes { (E.state notes.old).access ≡ 1 }
    ensures { (others : Objects) → AnswersTerms (generate number (option_copied file.entry)) (E.state notes.old)
        (record others { out = K.state out.old })
        (record others { out = K.state out.new; notes = E.state notes.new }) result }
{
    match put_text(number, file, out) {
        Ok(()) => 0,
        Err(_) => Stop::Stream.put(notes),
    }
}

/// Attaches the file or the standard output, and puts the text to it.
fn put_text<K: Sink>(number: u32, file: Option<&str>, out: &mut K) -> Result<(), Failed>
    requires { (K.state out.old).access ≡ 0 }
    ensures whole { OnOk result (Appends (generated_text number) (K.state out.old).written (K.state out.new).written) }
    ensures front { AppendsFront (generated_text number) (K.state out.old).written (K.state out.new).written }
    ensures access { OnOk result ((K.state out.new).access ≡ 1) }
    ensures used { IsUsed (reading (unwrap_or (option_copied file.entry) [])) (K.state out.new).access (K.state out.new).path }
    ensures faults { CountsFault result (K.state out.old).faults (K.state out.new).faults }
{
    out.attach(file)?;
    put_generated(number, out)
}
