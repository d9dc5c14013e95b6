//! The texts of caches: where they are refused, and that they are printed again.

ghost use Rattle.std.specs.Prelude.{◌≡◌, ◌≤◌};
ghost use Rattle.pd_image.specs.MemObjects.{mem_sink_state, mem_source_state};

use crate::objects::{sink_of, source_of};
use crate::refusals::{Refused, expect_each_refused, expect_good};
use pd_grammar::TextCause::{AfterEnd, Header, NoEnd, Number, Order, OutOfRange, Word};
use pd_image::{Failed, MemSink, MemSource};
use pd_kinds::Kind;
use pd_texts::{print_end, print_first};
use pd_texts_kinds::{CacheState, CacheText, print_cache};
use std::alloc::Global;
use std::process::Abort;
use std::test::Fail;

/// A cache of which three blocks are mapped, the first and the last among them.
const MAPPED: &str =
    "cache 1\ncache 01234567-89ab-cdef-0123-456789abcdef 64 2000 1 736d7100000000000000000000000000 2 0 0 4\nmap 0 0 0 63\n\
     map 20 281474976710655 1 4294967295\nmap 1999 31049 1 0\nend\n";

/// Texts that are refused.
const REFUSED_TEXTS: &[Refused] = &[
    (1, NoEnd, &["", "cache 1"]),
    (1, Header, &["thin 1\n", "cache 2\n"]),
    (2, Word, &["cache 1\nend\n", "cache 1\ncache\n"]),
    (
        2,
        Word,
        &[
            "cache 1\ncache 00000000-0000-0000-0000-000000000000 64 8 1\n",
            "cache 1\ncache 736d7100000000000000000000000000 64 8 1 736d7100000000000000000000000000 2 0 0 4\n",
            "cache 1\ncache 00000000-0000-0000-0000-000000000000 64 8 1 736d710000000000000000000000000 2 0 0 4\n",
            "cache 1\ncache 00000000-0000-0000-0000-000000000000 64 8 1 736D7100000000000000000000000000 2 0 0 4\n",
            "cache 1\ncache 00000000-0000-0000-0000-000000000000 64 8 1 00000000-0000-0000-0000-000000000000 2 0 0 4\n",
            "cache 1\ncache 00000000-0000-0000-0000-000000000000 64 x 1 736d7100000000000000000000000000 2 0 0\n",
            "cache 1\ncache 00000000-0000-0000-0000-000000000000 64 8 1 736d7100000000000000000000000000 2 0 0 4 0\n",
        ],
    ),
    (
        2,
        Number,
        &[
            "cache 1\ncache 00000000-0000-0000-0000-000000000000 064 8 1 736d7100000000000000000000000000 2 0 0 4\n",
            "cache 1\ncache 00000000-0000-0000-0000-000000000000 64 8 1 736d7100000000000000000000000000 2 0 x 4\n",
        ],
    ),
    (
        2,
        OutOfRange,
        &[
            "cache 1\ncache 00000000-0000-0000-0000-000000000000 4294967296 8 1 736d7100000000000000000000000000 2 0 0 4\n",
            "cache 1\ncache 00000000-0000-0000-0000-000000000000 64 4294967296 1 736d7100000000000000000000000000 2 0 0 4\n",
            "cache 1\ncache 00000000-0000-0000-0000-000000000000 64 8 2 736d7100000000000000000000000000 2 0 0 4\n",
            "cache 1\ncache 00000000-0000-0000-0000-000000000000 64 8 1 736d7100000000000000000000000000 2 4294967296 0 4\n",
            "cache 1\ncache 00000000-0000-0000-0000-000000000000 64 8 1 736d7100000000000000000000000000 2 0 0 8\n",
        ],
    ),
];

/// The first lines of a cache with hints.
const FRONT: &str =
    "cache 1\ncache 00000000-0000-0000-0000-000000000000 64 8 1 736d7100000000000000000000000000 2 0 0 4\n";

/// What is refused behind them.
const REFUSED_BODIES: &[Refused] = &[
    (3, NoEnd, &[""]),
    (3, Word, &["run 0 8 1\n", "map 0 0 0\n", "map 0 0 0 0 0\n"]),
    (3, Number, &["map 0 00 0 0\n"]),
    (3, OutOfRange, &["map 8 0 0 0\n"]),
    (3, OutOfRange, &["map 0 281474976710656 0 0\n"]),
    (3, OutOfRange, &["map 0 0 2 0\n", "map 0 0 0 4294967296\n"]),
    (4, AfterEnd, &["end\nx"]),
    (
        4,
        Order,
        &["map 7 281474976710655 1 4294967295\nmap 7 0 0 0\n"],
    ),
    (4, OutOfRange, &["map 1 0 0 0\nmap 0 1 2 0\n"]),
];

/// The first lines of a cache without hints.
const FRONT_WITHOUT_HINTS: &str =
    "cache 1\ncache 00000000-0000-0000-0000-000000000000 64 8 1 736d7100000000000000000000000000 2 0 0 0\n";

/// A hint that is refused behind them.
const HINT: &[Refused] = &[(3, OutOfRange, &["map 0 0 0 1\n"])];

#[test]
fn cache_texts_are_refused_at_their_line_for_their_cause(rt: HostRuntime) -> Result<(), Fail> {
    expect_each_refused::<CacheState>(&rt, rt.alloc(), "", REFUSED_TEXTS)
}

#[test]
fn map_lines_are_refused_at_their_line_for_their_cause(rt: HostRuntime) -> Result<(), Fail> {
    expect_each_refused::<CacheState>(&rt, rt.alloc(), FRONT, REFUSED_BODIES)?;
    expect_each_refused::<CacheState>(&rt, rt.alloc(), FRONT_WITHOUT_HINTS, HINT)
}

#[test]
fn a_repeated_origin_is_read(rt: HostRuntime) -> Result<(), Fail> {
    let text =
        "cache 1\ncache 00000000-0000-0000-0000-000000000000 64 8 1 736d7100000000000000000000000000 2 0 0 0\nmap 0 5 0 0\n\
         map 1 5 1 0\nend\n";
    expect_good::<CacheState>(&rt, rt.alloc(), text.as_bytes(), text)
}

/// Prints the lines of a text again, and answers whether it was read to its end.
fn copy(reader: &mut CacheText, source: &mut MemSource, sink: &mut MemSink) -> Result<bool, Failed>
    requires source { (mem_source_state source.old).access ≡ 1 }
    requires sink { (mem_sink_state sink.old).access ≡ 1 }
{
    print_first(Kind::Cache, sink)?;
    for _ in 0..10000u32 {
        match reader.next(source) {
            Ok(Some(line)) => print_cache(&line, sink)?,
            Ok(None) => {
                print_end(sink)?;
                return Ok(true);
            }
            Err(_) => return Ok(false),
        }
    }
    Ok(false)
}

/// Copies a text, of which so many bytes come at a time.
fn expect_copied(rt: &impl Abort, alloc: Global, text: &str, piece: usize) -> Result<(), Fail>
    requires { 1 ≤ piece }
{
    let mut source = source_of(alloc, text.as_bytes(), piece)?;
    let mut sink = sink_of(alloc)?;
    let mut reader = CacheText::new(alloc)?;
    let is_read = copy(&mut reader, &mut *source, &mut *sink) == Ok(true);
    assert!(rt; is_read & (sink.bytes() == text.as_bytes()), "{text}");
    Ok(())
}

#[test]
fn the_text_of_a_cache_is_printed_again_however_it_is_cut(rt: HostRuntime) -> Result<(), Fail> {
    expect_copied(&rt, rt.alloc(), MAPPED, 1)?;
    expect_copied(&rt, rt.alloc(), MAPPED, 7)?;
    expect_copied(&rt, rt.alloc(), MAPPED, 4096)?;
    Ok(())
}
