//! The printed report of a check.

ghost use Rattle.std.specs.Prelude.{◌≡◌, ◌==◌, false, ℕ, ◌+◌, ◌≤◌, ◌++◌, ◌∷◌, [], List, Option, OnOk, length, codes, decimal};
ghost use Rattle.std.specs.List.{flat_map};
ghost use Rattle.pd_kinds.specs.Objects.{CountsFault, Appends, AppendsFront};
ghost use Rattle.pd_grammar.specs.Lines.{fault_line, space_name, counts_text, lines_of};
ghost use Rattle.pd_lines.specs.Pieces.{Gathers};

use crate::line::LineBuffer;
use crate::printer::Pieces;
use pd_image::{Failed, Sink};
use pd_kinds::{Fault, Report, Rule, Space};

/// Prints the kept faults of a report, a line each, and then their number, or `clean`.
#[tactic(auto, unfolding(pd_grammar::specs::Lines::lines_of))]
pub fn print_report<K: Sink>(report: &Report, out: &mut K) -> Result<(), Failed>
    requires { (K.state out.old).access ≡ 1 }
    ensures whole { OnOk result (Appends (lines_of report.now.faults report.now.total)
        (K.state out.old).written (K.state out.new).written) }
    ensures front { AppendsFront (lines_of report.now.faults report.now.total) (K.state out.old).written (K.state out.new).written }
    ensures access { (K.state out.new).access ≡ (K.state out.old).access }
    ensures path { (K.state out.new).path ≡ (K.state out.old).path }
    ensures faults { CountsFault result (K.state out.old).faults (K.state out.new).faults }
{
    if report.is_empty() {
        out.put(b"clean\n")
    } else {
        print_faults(report, out)
    }
}

/// Prints the kept faults of a report that has any, and then their number.
fn print_faults<K: Sink>(report: &Report, out: &mut K) -> Result<(), Failed>
    requires attached { (K.state out.old).access ≡ 1 }
    requires some { (report.now.total == 0) ≡ false }
    ensures whole { OnOk result (Appends (lines_of report.now.faults report.now.total)
        (K.state out.old).written (K.state out.new).written) }
    ensures front { AppendsFront (lines_of report.now.faults report.now.total) (K.state out.old).written (K.state out.new).written }
    ensures access { (K.state out.new).access ≡ (K.state out.old).access }
    ensures path { (K.state out.new).path ≡ (K.state out.old).path }
    ensures faults { CountsFault result (K.state out.old).faults (K.state out.new).faults }
{
    let mut pieces = Pieces::new();
    add_faults(report, &mut pieces, out)?;
    pieces.add(total_line(report.total()).as_bytes(), out)?;
    pieces.put(out)
}

/// Gathers the lines of the kept faults.
fn add_faults<K: Sink>(report: &Report, pieces: &mut Pieces, out: &mut K) -> Result<(), Failed>
    requires { (K.state out.old).access ≡ 1 }
    ensures gathered { (total : List ℕ) (start : Option (List ℕ)) → Gathers total pieces.old start (K.state out.old).written
        → OnOk result (Gathers (total ++ flat_map fault_line report.now.faults) pieces.new start (K.state out.new).written) }
    ensures front { (total : List ℕ) (start : Option (List ℕ)) → Gathers total pieces.old start (K.state out.old).written
        → AppendsFront (total ++ flat_map fault_line report.now.faults) start (K.state out.new).written }
    ensures access { (K.state out.new).access ≡ (K.state out.old).access }
    ensures path { (K.state out.new).path ≡ (K.state out.old).path }
    ensures faults { CountsFault result (K.state out.old).faults (K.state out.new).faults }
{
    for i in 0..report.len() {
        let line = line_of(&report.get(i));
        pieces.add(line.as_bytes(), out)?;
    }
    Ok(())
}

/// The line with the number of faults.
fn total_line(total: u64) -> LineBuffer
    ensures { result ≡ codes "faults " ++ (decimal total ++ (10 ∷ [])) }
{
    let mut line = LineBuffer::new();
    line.add(b"faults ");
    line.add_number(total);
    line.add(b"\n");
    line
}

/// The word for a space.
fn space_word(space: Space) -> &'static [u8]
    ensures word { result.now ≡ space_name space }
    ensures len { length result.now ≡ 4 }
{
    match space {
        Space::Meta => b"meta",
        Space::DataBlock => b"data",
    }
}

/// Adds the two numbers of a leak or a shortage.
#[tactic(auto, unfolding(pd_grammar::specs::Lines::counts_text))]
fn add_counts(line: &mut LineBuffer, fault: &Fault)
    requires { length line.old + 60 ≤ 161 }
    ensures bytes { line.new ≡ line.old ++ counts_text fault.now.rule fault.now.stored fault.now.refs }
    ensures len { length line.new ≤ length line.old + 60 }
{
    match fault.rule {
        Rule::Leak | Rule::Short => {
            line.add(b" stored ");
            line.add_number(fault.stored);
            line.add(b" references ");
            line.add_number(fault.refs);
        }
        _ => {}
    }
}

/// The line of a fault.
#[tactic(auto, unfolding(pd_grammar::specs::Lines::fault_line))]
fn line_of(fault: &Fault) -> LineBuffer
    ensures { result ≡ fault_line fault.now }
{
    let mut line = LineBuffer::new();
    line.add(b"fault ");
    line.add(space_word(fault.space));
    line.add(b" ");
    line.add_number(fault.block);
    line.add(b" ");
    line.add(fault.rule.name().as_bytes());
    add_counts(&mut line, fault);
    line.add(b"\n");
    line
}
