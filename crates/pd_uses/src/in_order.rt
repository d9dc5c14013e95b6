//! Uses that are in the order of their blocks as the devices have them: their lines are printed leaf by leaf (`thin_rmap`).

ghost use Rattle.std.specs.Prelude.{◌≡◌, ℕ, map, IfSome, IsTrue};
ghost use Rattle.std.specs.List.{flat_map};
ghost use Rattle.pd_lines.specs.Printer.{printing};
ghost use Rattle.pd_lines.specs.Printing.{Prints};
ghost use Rattle.pd_query.specs.Query.{SinkFails};
ghost use Rattle.pd_uses.specs.FoundUses.{visits_uses};
ghost use Rattle.pd_uses.specs.Hits.{run_hits, runs_hits, use_of};
ghost use Rattle.pd_uses.specs.InOrder.{Rises, RisesFrom, run_text, visit_text};

use crate::found::Visit;
use crate::hit_runs::HitRun;
use crate::hits::{DataUse, LeafHits, Region, runs_of};
use crate::use_line::UseLine;
use pd_image::Sink;
use pd_lines::Printer;
use pd_query::{QueryFault, print_line};

/// Whether the blocks of a run begin at this one or behind it, and stand before the end: the last of them.
fn run_end(run: HitRun, at: u64, end: u64) -> Option<u64>
    ensures { IfSome result (λ last. (id : ℕ) → Rises at end last (map (use_of id) (run_hits run))) }
{
    let first = run.first_block();
    let last = run.last_block();
    let rises = (at <= first) & (last < end);
    if !rises {
        return None;
    }
    Some(last)
}

/// Whether the blocks of runs rise in the same way: the last of them.
fn runs_end(runs: &[HitRun], at: u64, end: u64) -> Option<u64>
    ensures { IfSome result (λ last. (id : ℕ) → Rises at end last (map (use_of id) (runs_hits runs.now))) }
{
    let mut last = at;
    for run in runs {
        let Some(next) = run_end(*run, last, end) else {
            return None;
        };
        last = next;
    }
    Some(last)
}

/// Whether the uses by visits are in the order of their blocks as they stand, and all of them in the region.
pub(crate) fn are_in_order(visits: &[Visit], leaves: &[LeafHits], region: Region) -> bool
    ensures { IsTrue result → RisesFrom region.first region.end (visits_uses leaves.now visits.now) }
{
    let mut last = region.first;
    for visit in visits {
        let runs = runs_of(leaves, visit.leaf as usize);
        let Some(next) = runs_end(runs, last, region.end) else {
            return false;
        };
        last = next;
    }
    true
}

/// Prints the lines of the uses that a run is where the device of this number has it. Each is made of the one before.
fn print_run<K: Sink>(
    id: u64,
    run: HitRun,
    line: &mut UseLine,
    printer: &mut Printer<'_, K>,
) -> Result<(), QueryFault>
    requires { (K.state printer.old.out.now).access ≡ 1 }
    ensures same_reference { printer.new.out.ghost_name ≡ printer.old.out.ghost_name }
    ensures prints { Prints (run_text id run) result (printing K.state printer.old) (printing K.state printer.new) }
    ensures faults { SinkFails result (K.state printer.old.out.now).faults (K.state printer.new.out.now).faults }
{
    for place in 0..run.number {
        line.go_to(run.hit(place).use_by(id));
        print_line(line.as_bytes(), printer)?;
    }
    Ok(())
}

/// Prints those that runs are.
fn print_runs<K: Sink>(
    id: u64,
    runs: &[HitRun],
    line: &mut UseLine,
    printer: &mut Printer<'_, K>,
) -> Result<(), QueryFault>
    requires { (K.state printer.old.out.now).access ≡ 1 }
    ensures same_reference { printer.new.out.ghost_name ≡ printer.old.out.ghost_name }
    ensures prints { Prints (flat_map (run_text id) runs.now) result (printing K.state printer.old) (printing K.state printer.new) }
    ensures faults { SinkFails result (K.state printer.old.out.now).faults (K.state printer.new.out.now).faults }
{
    for run in runs {
        print_run(id, *run, line, printer)?;
    }
    Ok(())
}

/// Prints the lines of the uses by visits, one after another.
pub(crate) fn print_visits<K: Sink>(
    visits: &[Visit],
    leaves: &[LeafHits],
    printer: &mut Printer<'_, K>,
) -> Result<(), QueryFault>
    requires { (K.state printer.old.out.now).access ≡ 1 }
    ensures same_reference { printer.new.out.ghost_name ≡ printer.old.out.ghost_name }
    ensures prints { Prints (flat_map (visit_text leaves.now) visits.now) result (printing K.state printer.old)
        (printing K.state printer.new) }
    ensures faults { SinkFails result (K.state printer.old.out.now).faults (K.state printer.new.out.now).faults }
{
    let mut line = UseLine::of(DataUse {
        block: 0,
        id: 0,
        virt: 0,
    });
    for visit in visits {
        let runs = runs_of(leaves, visit.leaf as usize);
        print_runs(visit.id, runs, &mut line, printer)?;
    }
    Ok(())
}
