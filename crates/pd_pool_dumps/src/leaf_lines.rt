//! The lines of a leaf's runs, while its text is made (`thin_dump`).

ghost use Rattle.std.specs.Prelude.{◌≡◌, List, ◌++◌, ◌∷◌, [], false, IfSome, IsTrue, ℕ, Option};
ghost use Rattle.pd_kinds.specs.Meaning.{Mapping};
ghost use Rattle.pd_kinds.specs.Node.{is_inner_node};
ghost use Rattle.pd_grammar.specs.ThinText.{thin};
ghost use Rattle.pd_grammar.specs.ThinText as p;
ghost use Rattle.pd_lines.specs.Printer.{printing};
ghost use Rattle.pd_texts.specs.ThinLine.{text_of_line};
ghost use Rattle.pd_meaning_thin.specs.Runs.{begun_mappings, spelled, IsGiven, given_runs};
ghost use Rattle.pd_meaning_thin.specs.declared.joined.Run.{Run as OneRun};
ghost use Rattle.pd_query.specs.Query.{SinkFails};
ghost use Rattle.pd_pool_dumps.specs.ThinText.{Counted, PrintsRuns};
ghost use Rattle.pd_pool_dumps.specs.LeafText.{AreTaken, leaf_mappings, GoesOnWith, IsTextOf, runs_from};

use crate::counts::{DumpCounts, add_line};
use crate::leaf_text::{LaterRuns, LeafText};
use crate::thin_lines::map_line;
use pd_image::Sink;
use pd_kinds::Block;
use pd_lines::{LINE_ROOM, PIECE_ROOM, PieceBuffer, Printer, TextLine};
use pd_meaning_thin::{Joined, Run};
use pd_node::{entries, key, value};
use pd_query::{QueryFault, print_line};
use pd_value::BlockTime;

/// The runs of a leaf that were taken so far.
#[derive(Drop)]
pub(crate) struct LeafLines {
    /// The first run, once it ended.
    pub(crate) first: Option<Joined>,
    /// The lines of the runs that ended after it.
    pub(crate) text: PieceBuffer,
    /// What these lines count.
    pub(crate) counts: DumpCounts,
    /// The run that may still become longer.
    pub(crate) joined: Joined,
}

impl LeafLines {
    /// No mapping was taken.
    fn new() -> LeafLines
        ensures { AreTaken [] result.first result.joined result.text result.counts }
    {
        LeafLines {
            first: None,
            text: PieceBuffer::new(),
            counts: DumpCounts::none(),
            joined: Joined::new(),
        }
    }

    /// Adds the line of a run, and says whether there was room for it.
    fn add(&mut self, run: &Run) -> bool
        ensures text { IsTrue result → self.new.text ≡ self.old.text ++ text_of_line thin (p.map_line (spelled run.now)) }
        ensures counted { IsTrue result → Counted self.old.counts self.new.counts (p.map_line (spelled run.now) ∷ []) }
        ensures first { self.new.first ≡ self.old.first }
        ensures joined { self.new.joined ≡ self.old.joined }
    {
        if self.text.as_bytes().len() + LINE_ROOM + 1 > PIECE_ROOM {
            return false;
        }
        let line = map_line(run);
        line.add_to(&mut self.text);
        self.counts.count(&line);
        true
    }

    /// Takes the mappings of a run, and says whether there was room for the line of the run that it ends, if it ends one.
    fn take(&mut self, next: Joined) -> bool
        ensures { IsTrue result → (mappings : List Mapping) → AreTaken mappings self.old.first self.old.joined self.old.text self.old.counts
            → AreTaken (mappings ++ begun_mappings next.begun) self.new.first self.new.joined self.new.text self.new.counts }
    {
        let before = self.joined;
        match self.joined.append(next) {
            None => true,
            Some(run) => match self.first {
                None => {
                    self.first = Some(before);
                    true
                }
                Some(_) => self.add(&run),
            },
        }
    }
}

/// The runs of a leaf, or `None` where there was no room for their lines.
#[tactic(auto, unfolding(pd_tree::specs::Below::items_from))]
pub(crate) fn lines_of_leaf(block: &Block) -> Option<LeafLines>
    requires { is_inner_node block.now.0 ≡ false }
    ensures { IfSome result (λ lines. AreTaken (leaf_mappings block.now.0) lines.first lines.joined lines.text lines.counts) }
{
    let mut lines = LeafLines::new();
    for i in 0..entries::<BlockTime>(block) {
        let virt = key::<BlockTime>(block, i);
        let mapping = value::<BlockTime>(block, i);
        if !lines.take(Joined::of(virt, mapping)) {
            return None;
        }
    }
    Some(lines)
}

// The lines of a leaf by its text, printed (`thin_dump`).

/// Prints the line of a run, if there is one.
pub(crate) fn add_run<K: Sink>(
    run: Option<Run>,
    printer: &mut Printer<'_, K>,
    counts: &mut DumpCounts,
) -> Result<(), QueryFault>
    requires { (K.state printer.old.out.now).access ≡ 1 }
    ensures same_reference { printer.new.out.ghost_name ≡ printer.old.out.ghost_name }
    ensures prints { (held : Option (List (List ℕ))) (whole left : List (List ℕ) → List OneRun)
        → IfSome held (λ image. IsGiven run (whole image) (left image))
        → PrintsRuns held whole left result (printing K.state printer.old) (printing K.state printer.new) counts.old counts.new }
    ensures faults { SinkFails result (K.state printer.old.out.now).faults (K.state printer.new.out.now).faults }
{
    match run {
        Some(run) => add_line(&map_line(&run), printer, counts),
        None => Ok(()),
    }
}

/// Prints the line of the begun run, and those between the first and the last run of a leaf, which is then the begun one.
fn add_later<K: Sink>(
    later: &LaterRuns,
    joined: &mut Joined,
    printer: &mut Printer<'_, K>,
    counts: &mut DumpCounts,
) -> Result<(), QueryFault>
    requires { (K.state printer.old.out.now).access ≡ 1 }
    ensures same_reference { printer.new.out.ghost_name ≡ printer.old.out.ghost_name }
    ensures prints { (held : Option (List (List ℕ))) (whole left : List (List ℕ) → List OneRun)
        → IfSome held (λ image. GoesOnWith later.now (given_runs (begun_mappings joined.old.begun)) (whole image) (left image))
        → PrintsRuns held whole left result (printing K.state printer.old) (printing K.state printer.new) counts.old counts.new }
    ensures last { joined.new ≡ later.now.last }
    ensures faults { SinkFails result (K.state printer.old.out.now).faults (K.state printer.new.out.now).faults }
{
    let ended = joined.end();
    *joined = later.last;
    add_run(ended, printer, counts)?;
    print_line(later.lines.as_slice(), printer)?;
    counts.add(&later.counts);
    Ok(())
}

/// Prints the lines of a leaf by its text, behind those of a begun run, which may go on in it. Its last run is then the begun one.
pub(crate) fn add_kept<K: Sink>(
    text: &LeafText,
    joined: &mut Joined,
    printer: &mut Printer<'_, K>,
    counts: &mut DumpCounts,
) -> Result<(), QueryFault>
    requires { (K.state printer.old.out.now).access ≡ 1 }
    ensures same_reference { printer.new.out.ghost_name ≡ printer.old.out.ghost_name }
    ensures prints { (held : Option (List (List ℕ))) (mappings rest : List (List ℕ) → List Mapping)
        → IfSome held (λ image. IsTextOf (mappings image) text.now.first text.now.later)
        → PrintsRuns held (λ image. runs_from joined.old (mappings image ++ rest image)) (λ image. runs_from joined.new (rest image)) result
        (printing K.state printer.old) (printing K.state printer.new) counts.old counts.new }
    ensures faults { SinkFails result (K.state printer.old.out.now).faults (K.state printer.new.out.now).faults }
{
    add_run(joined.append(text.first), printer, counts)?;
    match &text.later {
        Some(later) => add_later(later, joined, printer, counts),
        None => Ok(()),
    }
}
