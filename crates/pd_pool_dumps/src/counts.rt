//! What a dump counts while it puts its lines (`thin_dump`).

ghost use Rattle.std.specs.Prelude.{◌≡◌, [], ◌∷◌, OnOk};
ghost use Rattle.pd_grammar.specs.ThinText.{end_line, first_line, thin};
ghost use Rattle.pd_lines.specs.Printer.{printing};
ghost use Rattle.pd_lines.specs.Printing.{Prints};
ghost use Rattle.pd_texts.specs.ThinLine.{line_of, text_of_line};
ghost use Rattle.pd_query.specs.Query.{SinkFails};
ghost use Rattle.pd_pool_dumps.specs.ThinText.{mappings_of_line, Counted};

use pd_image::Sink;
use pd_kinds::Kind;
use pd_lines::Printer;
use pd_query::{QueryFault, print_line, print_text_line};
use pd_texts::{ThinLine, bytes_of_end, bytes_of_first};

/// How many mappings the lines of a dump have, and how many lines there are; up to the end of their type.
#[derive(Clone, Copy, Debug, PartialEq, Eq)]
pub struct DumpCounts {
    /// The lengths of the runs, added up.
    pub mappings: u64,
    /// The lines, the first and the last one among them.
    pub lines: u64,
}

impl DumpCounts {
    ghost use Rattle.std.specs.Prelude.{◌∷◌, List};
    ghost use Rattle.pd_grammar.specs.ThinText.{Line, end_line, first_line};
    ghost use Rattle.pd_pool_dumps.specs.ThinText.{Counted, IsCountOf};

    /// No line was counted.
    pub(crate) fn none() -> DumpCounts
        ensures { IsCountOf result [] }
    {
        DumpCounts {
            mappings: 0,
            lines: 0,
        }
    }

    /// Counts a line.
    pub(crate) fn count(&mut self, line: &ThinLine)
        ensures { Counted self.old self.new (line_of line.now ∷ []) }
    {
        self.lines = self.lines.saturating_add(1);
        self.mappings = self.mappings.saturating_add(mappings_of(line));
    }

    /// Counts the lines that another count is of.
    pub(crate) fn add(&mut self, other: &DumpCounts)
        ensures { (lines : List Line) → IsCountOf other.now lines → Counted self.old self.new lines }
    {
        self.lines = self.lines.saturating_add(other.lines);
        self.mappings = self.mappings.saturating_add(other.mappings);
    }

    /// Counts the first line of a text.
    pub(crate) fn count_first(&mut self)
        ensures { Counted self.old self.new (first_line ∷ []) }
    {
        self.lines = self.lines.saturating_add(1);
    }

    /// Counts the last line of a text.
    pub(crate) fn count_end(&mut self)
        ensures { Counted self.old self.new (end_line ∷ []) }
    {
        self.lines = self.lines.saturating_add(1);
    }
}

/// How many mappings a line has.
fn mappings_of(line: &ThinLine) -> u64
    ensures { result ≡ mappings_of_line (line_of line.now) }
{
    match line {
        ThinLine::Map(run) => run.length,
        _ => 0,
    }
}

// A line of a pool's text, printed and counted (`thin_dump`).

/// Prints a line of a pool's text, and counts it.
pub(crate) fn add_line<K: Sink>(
    line: &ThinLine,
    printer: &mut Printer<'_, K>,
    counts: &mut DumpCounts,
) -> Result<(), QueryFault>
    requires { (K.state printer.old.out.now).access ≡ 1 }
    ensures same_reference { printer.new.out.ghost_name ≡ printer.old.out.ghost_name }
    ensures prints { Prints (text_of_line thin (line_of line.now)) result (printing K.state printer.old) (printing K.state printer.new) }
    ensures counted { OnOk result (Counted counts.old counts.new (line_of line.now ∷ [])) }
    ensures faults { SinkFails result (K.state printer.old.out.now).faults (K.state printer.new.out.now).faults }
{
    print_text_line(line, printer)?;
    counts.count(line);
    Ok(())
}

/// Prints the first line of a pool's text, and counts it.
pub(crate) fn add_first_line<K: Sink>(
    printer: &mut Printer<'_, K>,
    counts: &mut DumpCounts,
) -> Result<(), QueryFault>
    requires { (K.state printer.old.out.now).access ≡ 1 }
    ensures same_reference { printer.new.out.ghost_name ≡ printer.old.out.ghost_name }
    ensures prints { Prints (text_of_line thin first_line) result (printing K.state printer.old) (printing K.state printer.new) }
    ensures counted { OnOk result (Counted counts.old counts.new (first_line ∷ [])) }
    ensures faults { SinkFails result (K.state printer.old.out.now).faults (K.state printer.new.out.now).faults }
{
    print_line(bytes_of_first(Kind::Thin), printer)?;
    counts.count_first();
    Ok(())
}

/// Prints the last line of a text, and counts it.
pub(crate) fn add_end_line<K: Sink>(
    printer: &mut Printer<'_, K>,
    counts: &mut DumpCounts,
) -> Result<(), QueryFault>
    requires { (K.state printer.old.out.now).access ≡ 1 }
    ensures same_reference { printer.new.out.ghost_name ≡ printer.old.out.ghost_name }
    ensures prints { Prints (text_of_line thin end_line) result (printing K.state printer.old) (printing K.state printer.new) }
    ensures counted { OnOk result (Counted counts.old counts.new (end_line ∷ [])) }
    ensures faults { SinkFails result (K.state printer.old.out.now).faults (K.state printer.new.out.now).faults }
{
    print_line(bytes_of_end(), printer)?;
    counts.count_end();
    Ok(())
}
