//! The lines of what a repair of a cache keeps, or would keep (`cache_repair`).

ghost use Rattle.std.specs.Prelude.{◌≡◌, OnOk};
ghost use Rattle.std.specs.List.{flat_map};
ghost use Rattle.pd_kinds.specs.Objects.{CountsFault, Appends, AppendsFront};
ghost use Rattle.pd_answers.specs.KeptCache.{kept_line};
ghost use Rattle.pd_image.specs.Sink.{KeepsSink};
ghost use Rattle.pd_lines.specs.Printer.{printing};
ghost use Rattle.pd_lines.specs.Printing.{Prints};
ghost use Rattle.pd_kept.specs.KeptCache.{cache_text, told_root};

use crate::cache_query::KeptWithRoots;
use pd_image::{Failed, Sink};
use pd_lines::{LineBuffer, Printer};
use pd_repair::KeptCache;
use pd_salvage_cache::FullerRoot;

/// The line of what is kept of a cache.
pub fn kept_cache_line(kept: &KeptCache) -> LineBuffer
    ensures { result ≡ kept_line kept.now.entries kept.now.blocks kept.now.dirty kept.now.unknown }
{
    let mut line = LineBuffer::new();
    line.add(b"keeps ");
    line.add_number(kept.entries);
    line.add(b" of ");
    line.add_number(u64::from(kept.blocks));
    line.add(b" blocks, ");
    line.add_number(kept.dirty);
    line.add(b" dirty, ");
    line.add_number(u64::from(kept.unknown));
    line.add(b" unknown");
    line.add(b"\n");
    line
}

/// Puts the line of what would be kept, and a line for each root to choose from.
///
/// Fails with `Failed` where `out` did; then a front of the text was put.
pub(crate) fn put_kept_cache<K: Sink>(told: &KeptWithRoots, out: &mut K) -> Result<(), Failed>
    requires { (K.state out.old).access ≡ 1 }
    ensures whole { OnOk result (Appends (cache_text told.now) (K.state out.old).written (K.state out.new).written) }
    ensures front { AppendsFront (cache_text told.now) (K.state out.old).written (K.state out.new).written }
    ensures kept { KeepsSink (K.state out.old) (K.state out.new) }
    ensures faults { CountsFault result (K.state out.old).faults (K.state out.new).faults }
{
    let mut printer = Printer::to_sink(out);
    print_kept_cache(told, &mut printer)?;
    printer.finish()
}

/// Prints these lines.
fn print_kept_cache<K: Sink>(
    told: &KeptWithRoots,
    printer: &mut Printer<'_, K>,
) -> Result<(), Failed>
    requires { (K.state printer.old.out.now).access ≡ 1 }
    ensures same_reference { printer.new.out.ghost_name ≡ printer.old.out.ghost_name }
    ensures prints { Prints (cache_text told.now) result (printing K.state printer.old) (printing K.state printer.new) }
    ensures faults { CountsFault result (K.state printer.old.out.now).faults (K.state printer.new.out.now).faults }
{
    let line = kept_cache_line(&told.kept);
    printer.print(line.as_bytes())?;
    print_roots(told.roots.as_slice(), printer)
}

/// Prints the lines of roots.
fn print_roots<K: Sink>(roots: &[FullerRoot], printer: &mut Printer<'_, K>) -> Result<(), Failed>
    requires { (K.state printer.old.out.now).access ≡ 1 }
    ensures same_reference { printer.new.out.ghost_name ≡ printer.old.out.ghost_name }
    ensures prints { Prints (flat_map told_root roots.now) result (printing K.state printer.old) (printing K.state printer.new) }
    ensures faults { CountsFault result (K.state printer.old.out.now).faults (K.state printer.new.out.now).faults }
{
    for root in roots {
        let line = root_line(root);
        printer.print(line.as_bytes())?;
    }
    Ok(())
}

/// The line of a root.
fn root_line(root: &FullerRoot) -> LineBuffer
    ensures { result ≡ told_root root.now }
{
    let mut line = LineBuffer::new();
    line.add(b"root ");
    line.add_number(root.root);
    line.add(b" words ");
    line.add_number(u64::from(root.words));
    line.add(b" entries ");
    line.add_number(root.entries);
    line.add(b"\n");
    line
}
