//! The lines of a saved pool, made one by one (`thin_repair`, `thin_shrink`).

ghost use Rattle.std.specs.Prelude.{◌≡◌, ◌∷◌, [], IfNone, IfSome, ◌+◌, ◌<◌};
ghost use Rattle.std.specs.List.{flat_map};
ghost use Rattle.pd_grammar.specs.ThinText.{lines_of_part};
ghost use Rattle.pd_grammar.specs.ThinText as p;
ghost use Rattle.pd_texts.specs.ThinLine.{line_of};
ghost use Rattle.pd_meaning_thin.specs.Runs.{spelled};
ghost use Rattle.pd_salvage.specs.Saved.{parts_of};

use crate::lines::Giving;
use pd_meaning_thin::{PackedRuns, Run, RunPlace};
use pd_salvage::Salvage;
use pd_texts::{Run2, ThinLine};

/// The lines of a saved pool's text that stand between its pool line and its last one. They take no more memory.
///
/// The next one is that of the first of these runs, which are still the last device's; and where there are none, that of this
/// device, or after the last of these none.
#[derive(Drop)]
pub(crate) struct SavedLines {
    saved: Salvage,
    device: usize,
    runs: RunSpan,
}

impl SavedLines {
    ghost use Rattle.pd_restore.specs.SavedLines.{lines_left};

    /// All of them.
    pub(crate) fn new(saved: Salvage) -> SavedLines
        ensures { lines_left result ≡ flat_map lines_of_part (parts_of saved.devices saved.runs) }
    {
        let runs = RunSpan::none_of(saved.runs());
        SavedLines {
            saved,
            device: 0,
            runs,
        }
    }

    /// The line of a device whose runs begin here.
    fn next_device(&mut self) -> Option<ThinLine>
        requires { self.old.runs.left ≡ 0 }
        ensures some { IfSome result (λ line. lines_left self.old ≡ line_of line ∷ lines_left self.new) }
        ensures none { IfNone result (lines_left self.old ≡ []) }
    {
        match self.saved.devices().get(self.device) {
            Some(next) => {
                let line = ThinLine::Device {
                    id: next.id,
                    details: next.details,
                };
                self.runs.left = next.runs;
                self.device += 1;
                Some(line)
            }
            None => None,
        }
    }
}

impl Giving for SavedLines {
    ghost use Rattle.pd_restore.specs.SavedLines.{lines_left};

    ghost coming = { lines_left };

    fn next(&mut self) -> Option<ThinLine> {
        if let Some(run) = self.runs.next(self.saved.runs()) {
            return Some(map_line(&run));
        }
        self.next_device()
    }
}

/// The line of a run.
pub(crate) fn map_line(run: &Run) -> ThinLine
    ensures { line_of result ≡ p.map_line (spelled run.now) }
{
    ThinLine::Map(Run2 {
        virt: run.virt,
        target: run.target,
        length: run.length,
        time: run.time,
    })
}

// A row of elements of a list, taken one by one (`thin_repair`, `thin_shrink`).

/// So many elements from this one on.
#[derive(Clone, Copy)]
pub struct Span {
    pub at: usize,
    pub left: usize,
}

impl Span {
    ghost use Rattle.pd_restore.specs.SavedLines.{in_span, behind};

    /// The next element, or none where there is none more. What stands behind the row stays.
    pub fn next<'a, T>(&mut self, items: &'a [T]) -> Option<&'a T>
        ensures some { IfSome result (λ item. in_span self.old items.now ≡ item.now ∷ in_span self.new items.now) }
        ensures at { IfSome result (λ item. self.new.at ≡ self.old.at + 1) }
        ensures fewer { IfSome result (λ item. self.new.left < self.old.left) }
        ensures none { IfNone result (in_span self.old items.now ≡ []) }
        ensures ended { IfNone result (self.new.left ≡ 0) }
        ensures behind { behind self.new items.now ≡ behind self.old items.now }
    {
        if self.left == 0 {
            return None;
        }
        match items.get(self.at) {
            Some(item) => {
                self.at += 1;
                self.left -= 1;
                Some(item)
            }
            None => {
                self.left = 0;
                None
            }
        }
    }
}

/// So many runs from this place on.
#[derive(Clone, Copy)]
pub struct RunSpan {
    pub at: RunPlace,
    pub left: usize,
}

impl RunSpan {
    ghost use Rattle.pd_restore.specs.SavedLines.{behind_runs, in_runs};

    /// None, before the first run.
    pub fn none_of(runs: &PackedRuns) -> RunSpan
        ensures none { in_runs result runs.now ≡ [] }
        ensures behind { behind_runs result runs.now ≡ runs.now }
    {
        RunSpan {
            at: runs.first(),
            left: 0,
        }
    }

    /// The next run, or none where there is none more. What stands behind the row stays.
    pub fn next(&mut self, runs: &PackedRuns) -> Option<Run>
        ensures some { IfSome result (λ run. in_runs self.old runs.now ≡ run ∷ in_runs self.new runs.now) }
        ensures fewer { IfSome result (λ run. self.new.left < self.old.left) }
        ensures none { IfNone result (in_runs self.old runs.now ≡ []) }
        ensures ended { IfNone result (self.new.left ≡ 0) }
        ensures behind { behind_runs self.new runs.now ≡ behind_runs self.old runs.now }
    {
        if self.left == 0 {
            return None;
        }
        match runs.next(&mut self.at) {
            Some(run) => {
                self.left -= 1;
                Some(run)
            }
            None => {
                self.left = 0;
                None
            }
        }
    }
}
