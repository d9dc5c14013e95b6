//! The texts of era targets: where they are refused, and that they are printed again.

ghost use Rattle.std.specs.Prelude.{◌≡◌, ◌^◌, ◌<◌, ◌≤◌, length};
ghost use Rattle.pd_image.specs.MemObjects.{mem_sink_state, mem_source_state};

use crate::objects::{sink_of, source_of};
use crate::refusals::{Refused, expect_each_refused};
use pd_grammar::TextCause::{
    AfterEnd, Header, MappedDiffers, NoEnd, Number, Order, OutOfRange, Word,
};
use pd_image::{Failed, MemSink, MemSource};
use pd_kinds::Kind;
use pd_texts::{print_end, print_first};
use pd_texts_kinds::{EraRuns, EraState, EraText, print_era};
use std::alloc::Global;
use std::process::Abort;
use std::test::Fail;

/// An era target in five runs.
const RUNS: &str =
    "era 1\nera 01234567-89ab-cdef-0123-456789abcdef 128 3000 6\nrun 0 10 1\nrun 10 5 6\nrun 15 35 1\nrun 50 2949 0\nrun 2999 1 4\nend\n";

/// Texts that are refused.
const REFUSED_TEXTS: &[Refused] = &[
    (1, NoEnd, &["", "era 1"]),
    (1, Header, &["cache 1\n", "era  1\n"]),
    (2, NoEnd, &["era 1\n"]),
    (2, Word, &["era 1\nend\n", "era 1\nrun 0 8 1\n"]),
    (
        2,
        Word,
        &[
            "era 1\nera 736d7100000000000000000000000000 128 8 6\n",
            "era 1\nera 00000000-0000-0000-0000-000000000000 128 8\n",
            "era 1\nera 00000000-0000-0000-0000-000000000000 128 8 6 0\n",
        ],
    ),
    (
        2,
        Number,
        &["era 1\nera 00000000-0000-0000-0000-000000000000 128 +8 6\n"],
    ),
    (
        2,
        OutOfRange,
        &[
            "era 1\nera 00000000-0000-0000-0000-000000000000 4294967296 8 6\n",
            "era 1\nera 00000000-0000-0000-0000-000000000000 128 4294967296 6\n",
            "era 1\nera 00000000-0000-0000-0000-000000000000 128 8 4294967296\n",
        ],
    ),
];

/// What comes before the refused bodies.
const FRONT: &str = "era 1\nera 00000000-0000-0000-0000-000000000000 128 8 6\n";

/// What is refused behind those lines.
const REFUSED_BODIES: &[Refused] = &[
    (3, NoEnd, &[""]),
    (3, MappedDiffers, &["end\n"]),
    (3, Order, &["run 1 7 1\n"]),
    (3, OutOfRange, &["run 0 9 1\n", "run 0 0 1\n"]),
    (3, OutOfRange, &["run 0 8 4294967296\n", "run 3 6 1\n"]),
    (
        3,
        OutOfRange,
        &["run 18446744073709551615 18446744073709551615 1\n"],
    ),
    (3, Number, &["run 0 18446744073709551616 1\n"]),
    (3, Number, &["run 0 08 1\n"]),
    (3, Word, &["run 0 8\n", "map 0 8 1\n"]),
    (4, MappedDiffers, &["run 0 7 1\nend\n"]),
    (4, Order, &["run 0 4 1\nrun 3 5 2\n"]),
    (4, Order, &["run 0 4 1\nrun 5 3 2\n"]),
    (4, OutOfRange, &["run 0 8 1\nrun 8 1 1\n"]),
    (5, AfterEnd, &["run 0 8 1\nend\n\n"]),
];

#[test]
fn era_texts_are_refused_at_their_line_for_their_cause(rt: HostRuntime) -> Result<(), Fail> {
    expect_each_refused::<EraState>(&rt, rt.alloc(), "", REFUSED_TEXTS)
}

#[test]
fn run_lines_are_refused_at_their_line_for_their_cause(rt: HostRuntime) -> Result<(), Fail> {
    expect_each_refused::<EraState>(&rt, rt.alloc(), FRONT, REFUSED_BODIES)
}

/// Prints the lines of a text again, and answers whether it was read to its end.
fn copy(reader: &mut EraText, source: &mut MemSource, sink: &mut MemSink) -> Result<bool, Failed>
    requires source { (mem_source_state source.old).access ≡ 1 }
    requires sink { (mem_sink_state sink.old).access ≡ 1 }
{
    print_first(Kind::Era, sink)?;
    for _ in 0..10000u32 {
        match reader.next(source) {
            Ok(Some(line)) => print_era(&line, sink)?,
            Ok(None) => {
                print_end(sink)?;
                return Ok(true);
            }
            Err(_) => return Ok(false),
        }
    }
    Ok(false)
}

/// Copies a text, of which so many bytes come at a time.
fn expect_copied(rt: &impl Abort, alloc: Global, text: &str, piece: usize) -> Result<(), Fail>
    requires { 1 ≤ piece }
{
    let mut source = source_of(alloc, text.as_bytes(), piece)?;
    let mut sink = sink_of(alloc)?;
    let mut reader = EraText::new(alloc)?;
    let is_read = copy(&mut reader, &mut *source, &mut *sink) == Ok(true);
    assert!(rt; is_read & (sink.bytes() == text.as_bytes()), "{text}");
    Ok(())
}

#[test]
fn the_text_of_an_era_target_is_printed_again_however_it_is_cut(
    rt: HostRuntime,
) -> Result<(), Fail> {
    expect_copied(&rt, rt.alloc(), RUNS, 1)?;
    expect_copied(&rt, rt.alloc(), RUNS, 7)?;
    expect_copied(&rt, rt.alloc(), RUNS, 4096)?;
    Ok(())
}

/// Prints the runs of these eras.
fn print_runs(eras: &[u32], sink: &mut MemSink) -> Result<(), Failed>
    requires few { length eras.now < 2 ^ 32 }
    requires sink { (mem_sink_state sink.old).access ≡ 1 }
{
    for line in EraRuns::new(eras) {
        print_era(&line, sink)?;
    }
    Ok(())
}

#[test]
fn runs_are_as_long_as_can_be(rt: HostRuntime) -> Result<(), Fail> {
    let mut sink = sink_of(rt.alloc())?;
    let is_put = print_runs(&[1, 1, 3, 3, 3, 0, 1], &mut *sink).is_ok();
    let lines = b"run 0 2 1\nrun 2 3 3\nrun 5 1 0\nrun 6 1 1\n".as_slice();
    assert!(rt; is_put & (sink.bytes() == lines));
    Ok(())
}

#[test]
fn no_eras_have_no_run(rt: HostRuntime) {
    assert!(rt; EraRuns::new(&[]).next() == None);
}
