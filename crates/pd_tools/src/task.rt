//! The shell of what writes, or looks first: a task attaches its devices, does its work over them, and ends with a line or a text.

ghost use Rattle.std.specs.Prelude.{◌≡◌, IsTrue, OnOk, MatchResult};
ghost use Rattle.pd_kinds.specs.Objects.{SinkState, CountsFault};
ghost use Rattle.pd_answers.specs.Terms.{AreFresh, IsOpen, Objects, Terms, is_possible, Use};
ghost use Rattle.pd_tools.specs.Opened.{AreOpened, Devices, KeepsAs, devices, uses_at, AreUnopened, AsksAs, OpensAs, use_of};
ghost use Rattle.pd_tools.specs.Task.{AreAlone, Ends, IsAtRest, LosesLine, PutsOutcome, Works, AnswersTerms};

use crate::ending::{Ending, Outcome, Stop, put_ending, put_last_line, put_last_text};
use pd_image::{Device, Failed, Sink};
use std::alloc::Global;

/// A request that does its work before it puts anything, as it is asked.
pub(crate) trait Task {
    /// Its terms.
    ghost terms: { Self → Terms };

    /// How it names its devices. It names no text.
    fn places(&self) -> Places<'_>
        ensures { uses_at (terms self.now).uses.out result ≡ (terms self.now).uses };

    /// What holds of its terms: before a device is written, and where its line is lost.
    fn laws(&self)
        ensures rests { (before after : Objects) → AreFresh before → AreAlone before after
            → after.input.reads ≡ before.input.reads → IsAtRest (terms self.now) before after }
        ensures loses { LosesLine (terms self.now) }
        ensures reads { (before after : Objects) → (terms self.now).reads before after }
        ensures can_fail { IsTrue (is_possible (terms self.now) 5) };

    /// Does the work over devices that were attached.
    fn work<A: Device, B: Device, C: Device>(
        &self,
        alloc: Global,
        input: &mut A,
        output: &mut B,
        third: &mut C,
    ) -> Result<Outcome, Stop>
        requires input { IsOpen (terms self.now).uses.input (A.state input.old).access }
        requires output { IsOpen (terms self.now).uses.output (B.state output.old).access }
        requires third { IsOpen (terms self.now).uses.third (C.state third.old).access }
        ensures input { KeepsAs (terms self.now).uses.input (A.state input.old) (A.state input.new) }
        ensures output { KeepsAs (terms self.now).uses.output (B.state output.old) (B.state output.new) }
        ensures third { KeepsAs (terms self.now).uses.third (C.state third.old) (C.state third.new) }
        ensures works { (others : Objects) (notes : SinkState) (first : Devices) →
            let before = record others { input = first.input; output = first.output; third = first.third } in
            let after = record others {
              notes = notes;
              input = A.state input.new;
              output = B.state output.new;
              third = C.state third.new;
            } in
            AreFresh before → AreOpened (terms self.now).uses first (devices (A.state input.old) (B.state output.old) (C.state third.old)) →
            (A.state input.old).reads ≡ first.input.reads → Works (terms self.now) before after result };
}

/// Does what a task asks, and answers the status.
#[inline(never)]
pub(crate) fn run_task<T: Task, K: Sink, E: Sink, A: Device, B: Device, C: Device>(
    alloc: Global,
    task: &T,
    out: &mut K,
    notes: &mut E,
    input: &mut A,
    output: &mut B,
    third: &mut C,
) -> u8
    requires out { (K.state out.old).access ≡ 0 }
    requires notes { (E.state notes.old).access ≡ 1 }
    requires input { (A.state input.old).access ≡ 0 }
    requires output { (B.state output.old).access ≡ 0 }
    requires third { (C.state third.old).access ≡ 0 }
    ensures { (others : Objects) → AnswersTerms (T.terms task.now) (E.state notes.old)
        (record others { out = K.state out.old; input = A.state input.old; output = B.state output.old; third = C.state third.old })
        (record others {
          out = K.state out.new;
          notes = E.state notes.new;
          input = A.state input.new;
          output = B.state output.new;
          third = C.state third.new;
        }) result }
{
    task.laws();
    let ended = attach_and_work(alloc, task, out, input, output, third);
    put_ending(ended, notes)
}

/// Attaches the devices, does the work, and puts its line.
fn attach_and_work<T: Task, K: Sink, A: Device, B: Device, C: Device>(
    alloc: Global,
    task: &T,
    out: &mut K,
    input: &mut A,
    output: &mut B,
    third: &mut C,
) -> Result<Ending, Stop>
    requires out { (K.state out.old).access ≡ 0 }
    requires input { (A.state input.old).access ≡ 0 }
    requires output { (B.state output.old).access ≡ 0 }
    requires third { (C.state third.old).access ≡ 0 }
    ensures { (others : Objects) (notes : SinkState) →
        let before = record others {
          out = K.state
              out.old;
          input = A.state input.old;
          output = B.state output.old;
          third = C.state third.old;
        } in
        let after = record others {
          out = K.state out.new;
          notes = notes;
          input = A.state input.new;
          output = B.state output.new;
          third = C.state third.new;
        } in
        AreFresh before → Ends (T.terms task.now) before after result }
{
    task.laws();
    match open_all(task.places(), input, output, third) {
        Ok(()) => put_outcome(task.work(alloc, input, output, third), out),
        Err(_) => Err(Stop::Device),
    }
}

/// Puts the line or the text of work that was done.
fn put_outcome<K: Sink>(worked: Result<Outcome, Stop>, out: &mut K) -> Result<Ending, Stop>
    requires { (K.state out.old).access ≡ 0 }
    ensures { PutsOutcome worked result (K.state out.old) (K.state out.new) }
{
    match worked? {
        Outcome::Line(line) => match put_last_line(out, line.as_bytes()) {
            Ok(()) => Ok(Ending::Done),
            Err(_) => Err(Stop::Stream),
        },
        Outcome::Told(looked) => match put_last_text(out, &looked) {
            Ok(()) => Ok(Ending::Done),
            Err(_) => Err(Stop::Stream),
        },
        Outcome::Ended(ending) => Ok(ending),
    }
}

// Attaching the devices of a request, one after another.

/// How a request names a device: not at all, or by its path, for reading, or for writing too.
#[derive(Clone, Copy)]
pub(crate) enum DevicePath<'a> {
    Unused,
    Reading(&'a str),
    Writing(&'a str),
}

/// How a request names its devices.
#[derive(Clone, Copy)]
pub(crate) struct Places<'a> {
    pub(crate) input: DevicePath<'a>,
    pub(crate) output: DevicePath<'a>,
    pub(crate) third: DevicePath<'a>,
}

/// Attaches the devices that are named, in their order.
pub(crate) fn open_all<A: Device, B: Device, C: Device>(
    places: Places<'_>,
    input: &mut A,
    output: &mut B,
    third: &mut C,
) -> Result<(), Failed>
    requires input { (A.state input.old).access ≡ 0 }
    requires output { (B.state output.old).access ≡ 0 }
    requires third { (C.state third.old).access ≡ 0 }
    ensures opened { (out : Use) →
        let old = devices (A.state input.old) (B.state output.old) (C.state third.old) in
        let new = devices (A.state input.new) (B.state output.new) (C.state third.new) in
        MatchResult result (λ _. AreOpened (uses_at out places.entry) old new) (λ _. AreUnopened (uses_at out places.entry) old new) }
    ensures unread { (A.state input.new).reads ≡ (A.state input.old).reads }
{
    open(places.input, input)?;
    open(places.output, output)?;
    open(places.third, third)
}

/// Attaches a device where it is named.
fn open<D: Device>(place: DevicePath<'_>, device: &mut D) -> Result<(), Failed>
    requires { (D.state device.old).access ≡ 0 }
    ensures opened { OnOk result (OpensAs (use_of place.entry) (D.state device.old) (D.state device.new)) }
    ensures asked { AsksAs (use_of place.entry) (D.state device.old) (D.state device.new) }
    ensures unread { (D.state device.new).reads ≡ (D.state device.old).reads }
    ensures faults { CountsFault result (D.state device.old).faults (D.state device.new).faults }
{
    match place {
        DevicePath::Unused => Ok(()),
        DevicePath::Reading(path) => device.attach(path, false),
        DevicePath::Writing(path) => device.attach(path, true),
    }
}
