//! Lines, and the texts of pools: what they give, where they are refused, and that they are printed again.

ghost use Rattle.std.specs.Prelude.{◌≡◌, ◌≤◌};
ghost use Rattle.pd_image.specs.MemObjects.{mem_sink_state, mem_source_state};

use crate::objects::{sink_of, source_of};
use crate::pool_text_tests::FIRST_FRONT;
use crate::refusals::expect_refused;
use crate::small_copy::copy;
use pd_grammar::TextCause;
use pd_image::{Failed, MemSink, MemSource, Sink, Source};
use pd_kinds::Kind;
use pd_lines::{LineFault, LineReader, put_number};
use pd_texts::{
    ReadFault, Run2, TextFault, TextReader, TextState, ThinLine, ThinState, ThinText, print_end,
    print_first, print_shared_first, print_thin,
};
use pd_value::Details;
use std::alloc::Global;
use std::process::Abort;
use std::test::Fail;

/// The pool with one mapping.
const ONE_MAPPING: &str =
    "thin 1\npool 00000000-0000-0000-0000-000000000000 0 0 128 1\ndevice 1 1 0 0 0\nmap 0 0 1 0\nend\n";

/// A pool with two devices that share a leaf, of version 2.
const SHARED_LEAVES: &str =
    "thin 2\npool 01234567-89ab-cdef-0123-456789abcdef 5 7 128 300\nleaf 0 3\nmap 4 10 2 0\nmap 9 299 1 4\ndevice 0 4 0 0 3\n\
     map 1 7 1 2\nuse 0\ndevice 1 3 6 3 3\nuse 0\nend\n";

/// A pool with devices that share blocks, and with one that has none.
const SHARED: &str =
    "thin 1\npool 01234567-89ab-cdef-0123-456789abcdef 5 7 128 300\ndevice 0 3 0 0 3\nmap 0 10 2 0\nmap 9 299 1 4\n\
     device 1 2 6 3 3\nmap 0 10 2 0\ndevice 16777215 0 7 5 5\nend\n";

/// A third line of so many letters is refused for this cause.
fn expect_long_line_refused(
    rt: &impl Abort,
    alloc: Global,
    length: usize,
    cause: TextCause,
    shown: &str,
) -> Result<(), Fail> {
    let mut text = Vec::from_slice(alloc, FIRST_FRONT.as_bytes())?;
    let line = vec![in alloc; b'x'; length]?;
    text.extend_from_slice(line.as_slice())?;
    text.push(b'\n')?;
    expect_refused::<ThinState>(rt, alloc, text.as_slice(), 3, cause, shown)
}

#[test]
fn lines_of_161_bytes_are_too_long(rt: HostRuntime) -> Result<(), Fail> {
    expect_long_line_refused(&rt, rt.alloc(), 160, TextCause::Word, "160")?;
    expect_long_line_refused(&rt, rt.alloc(), 161, TextCause::TooLong, "161")?;
    expect_long_line_refused(&rt, rt.alloc(), 1000000, TextCause::TooLong, "1000000")?;
    Ok(())
}

/// A third line that is the last one with this byte behind it is refused.
fn expect_byte_refused(rt: &impl Abort, alloc: Global, byte: u8) -> Result<(), Fail> {
    let mut text = Vec::from_slice(alloc, FIRST_FRONT.as_bytes())?;
    text.extend_from_slice(&[b'e', b'n', b'd', byte, b'\n'])?;
    expect_refused::<ThinState>(rt, alloc, text.as_slice(), 3, TextCause::Word, "a byte")
}

#[test]
fn a_byte_above_126_is_no_text(rt: HostRuntime) -> Result<(), Fail> {
    expect_byte_refused(&rt, rt.alloc(), 0)?;
    expect_byte_refused(&rt, rt.alloc(), 31)?;
    expect_byte_refused(&rt, rt.alloc(), 127)?;
    expect_byte_refused(&rt, rt.alloc(), 255)?;
    Ok(())
}

/// The line of the pool with one mapping.
const POOL: ThinLine = ThinLine::Pool {
    uuid: [0; 16],
    time: 0,
    transaction: 0,
    block_size: 128,
    blocks: 1,
};

/// The line of its device.
const DEVICE: ThinLine = ThinLine::Device {
    id: 1,
    details: Details {
        mapped: 1,
        transaction: 0,
        created: 0,
        snapped: 0,
    },
};

/// The line of its mapping.
const MAP: ThinLine = ThinLine::Map(Run2 {
    virt: 0,
    target: 0,
    length: 1,
    time: 0,
});

/// Reads the pool with one mapping, of which so many bytes come at a time.
fn expect_one_mapping(rt: &impl Abort, alloc: Global, piece: usize) -> Result<(), Fail>
    requires { 1 ≤ piece }
{
    let mut source = source_of(alloc, ONE_MAPPING.as_bytes(), piece)?;
    let mut text = ThinText::new(alloc)?;
    let is_pool = text.next(&mut *source) == Ok(Some(POOL));
    let is_device = text.next(&mut *source) == Ok(Some(DEVICE));
    let is_map = text.next(&mut *source) == Ok(Some(MAP));
    let is_end = text.next(&mut *source) == Ok(None);
    assert!(rt; is_pool & is_device & is_map & is_end);
    Ok(())
}

#[test]
fn one_mapping_is_a_pool_a_device_and_a_map(rt: HostRuntime) -> Result<(), Fail> {
    expect_one_mapping(&rt, rt.alloc(), 1)?;
    expect_one_mapping(&rt, rt.alloc(), 7)?;
    expect_one_mapping(&rt, rt.alloc(), 4096)?;
    Ok(())
}

/// Prints the pool with one mapping, line by line.
fn print_one_mapping(sink: &mut MemSink) -> Result<(), Failed>
    requires { (mem_sink_state sink.old).access ≡ 1 }
{
    print_first(Kind::Thin, sink)?;
    print_thin(&POOL, sink)?;
    print_thin(&DEVICE, sink)?;
    print_thin(&MAP, sink)?;
    print_end(sink)
}

#[test]
fn lines_are_printed_one_by_one(rt: HostRuntime) -> Result<(), Fail> {
    let mut sink = sink_of(rt.alloc())?;
    assert!(rt; print_one_mapping(&mut *sink).is_ok());
    assert!(rt; sink.bytes() == ONE_MAPPING.as_bytes());
    Ok(())
}

/// Lines of version 2 alone.
const LEAF: ThinLine = ThinLine::Leaf {
    number: 0,
    entries: 252,
};

const USE: ThinLine = ThinLine::UseLeaf { number: u64::MAX };

/// Prints the first line of version 2, and lines of this version alone.
fn print_shared_lines(sink: &mut MemSink) -> Result<(), Failed>
    requires { (mem_sink_state sink.old).access ≡ 1 }
{
    print_shared_first(sink)?;
    print_thin(&LEAF, sink)?;
    print_thin(&USE, sink)
}

#[test]
fn lines_of_version_2_are_printed(rt: HostRuntime) -> Result<(), Fail> {
    let mut sink = sink_of(rt.alloc())?;
    assert!(rt; print_shared_lines(&mut *sink).is_ok());
    assert!(rt; sink.bytes() == b"thin 2\nleaf 0 252\nuse 18446744073709551615\n".as_slice());
    Ok(())
}

/// Puts numbers with a space behind each.
fn put_numbers(numbers: &[u128], sink: &mut MemSink) -> Result<(), Failed>
    requires { (mem_sink_state sink.old).access ≡ 1 }
{
    for number in numbers {
        put_number(*number, sink)?;
        sink.put(b" ")?;
    }
    Ok(())
}

#[test]
fn numbers_are_put_in_decimal(rt: HostRuntime) -> Result<(), Fail> {
    let mut sink = sink_of(rt.alloc())?;
    let numbers = [0, 7, 10, u64::MAX as u128, u128::MAX];
    assert!(rt; put_numbers(&numbers, &mut *sink).is_ok());
    assert!(rt;
        sink.bytes()
            == b"0 7 10 18446744073709551615 340282366920938463463374607431768211455 ".as_slice()
    );
    Ok(())
}

/// Reads these lines.
fn expect_lines(rt: &impl Abort, lines: &mut LineReader, source: &mut MemSource, texts: &[&str])
    requires { (mem_source_state source.old).access ≡ 1 }
    ensures { (mem_source_state source.new).access ≡ 1 }
{
    let mut number: u64 = 0;
    for text in texts {
        number = number.saturating_add(1);
        match lines.next(source) {
            Ok(Some(line)) => {
                assert!(rt; line.number() == number);
                assert!(rt; line.text() == text.as_bytes());
            }
            _ => assert!(rt; false, "no line {number}"),
        }
    }
}

/// A text, its lines, and its end.
type Lined<'a> = (&'a str, &'a [&'a str], Result<(), LineFault>);

/// Reads the lines of a text, of which so many bytes come at a time, up to its end.
fn expect_all_lines(
    rt: &impl Abort,
    alloc: Global,
    lined: Lined<'_>,
    piece: usize,
) -> Result<(), Fail>
    requires { 1 ≤ piece }
{
    let (text, texts, end) = lined;
    let mut source = source_of(alloc, text.as_bytes(), piece)?;
    let mut lines = LineReader::new(alloc)?;
    expect_lines(rt, &mut lines, &mut *source, texts);
    match lines.next(&mut *source) {
        Ok(Some(_)) => assert!(rt; false, "a further line"),
        Ok(None) => assert!(rt; end == Ok(())),
        Err(fault) => assert!(rt; end == Err(fault)),
    }
    Ok(())
}

#[test]
fn lines_are_those_of_the_bytes(rt: HostRuntime) -> Result<(), Fail> {
    let unended: Lined<'_> = (
        "ab\n\nc d\nx",
        &["ab", "", "c d"],
        Err(LineFault::Unended(4)),
    );
    expect_all_lines(&rt, rt.alloc(), unended, 1)?;
    expect_all_lines(&rt, rt.alloc(), unended, 7)?;
    expect_all_lines(&rt, rt.alloc(), unended, 4096)?;
    let ended: Lined<'_> = ("ab\n", &["ab"], Ok(()));
    expect_all_lines(&rt, rt.alloc(), ended, 1)?;
    expect_all_lines(&rt, rt.alloc(), ended, 7)?;
    expect_all_lines(&rt, rt.alloc(), ended, 4096)?;
    Ok(())
}

/// Copies a text whose source fails at this call.
fn expect_failed_source(rt: &impl Abort, alloc: Global, call: u64) -> Result<(), Fail> {
    let mut source = source_of(alloc, ONE_MAPPING.as_bytes(), 40)?;
    let mut sink = sink_of(alloc)?;
    source.fail_at(call)?;
    let is_refused = copy(alloc, &mut *source, &mut *sink).is_err();
    assert!(rt; is_refused & sink.bytes().is_empty());
    Ok(())
}

#[test]
fn a_failing_source_and_a_failing_sink_end_a_copy(rt: HostRuntime) -> Result<(), Fail> {
    expect_failed_source(&rt, rt.alloc(), 1)?;
    expect_failed_source(&rt, rt.alloc(), 2)?;
    expect_failed_source(&rt, rt.alloc(), 3)?;
    let mut source = source_of(rt.alloc(), ONE_MAPPING.as_bytes(), 40)?;
    let mut sink = sink_of(rt.alloc())?;
    sink.fail_at(1)?;
    assert!(rt; copy(rt.alloc(), &mut *source, &mut *sink).is_err());
    Ok(())
}

/// Copies a text, of which so many bytes come at a time.
fn expect_copied(rt: &impl Abort, alloc: Global, text: &str, piece: usize) -> Result<(), Fail>
    requires { 1 ≤ piece }
{
    let mut source = source_of(alloc, text.as_bytes(), piece)?;
    let mut sink = sink_of(alloc)?;
    let is_read = copy(alloc, &mut *source, &mut *sink).is_ok();
    assert!(rt; is_read & (sink.bytes() == text.as_bytes()), "{text}");
    Ok(())
}

#[test]
fn a_text_is_printed_again_however_it_is_cut(rt: HostRuntime) -> Result<(), Fail> {
    for text in [SHARED, SHARED_LEAVES] {
        expect_copied(&rt, rt.alloc(), text, 1)?;
        expect_copied(&rt, rt.alloc(), text, 7)?;
        expect_copied(&rt, rt.alloc(), text, 4096)?;
    }
    Ok(())
}

/// A source that gives one byte for ever, and tells nothing.
#[derive(Drop)]
struct Endless {
    byte: u8,
    access: u8,
}

impl Source for Endless {
    ghost use Rattle.std.specs.Prelude.{refl, None};

    ghost state = { λ s. record { access = s.access; path = None; left = None; faults = 0 } };

    ghost unnamed = { λ _ _. refl };

    fn attach(&mut self, _path: &str) -> Result<(), Failed> {
        self.access = 1;
        Ok(())
    }

    fn take(&mut self, into: &mut [u8]) -> Result<usize, Failed> {
        for b in into.iter_mut() {
            *b = self.byte;
        }
        Ok(into.len())
    }
}

/// A text of this byte for ever is refused at its first line.
fn expect_endless_refused<P: TextState>(
    rt: &impl Abort,
    alloc: Global,
    byte: u8,
    cause: TextCause,
) -> Result<(), Fail>
where
    P::Line: Drop,
{
    let mut source = Endless { byte, access: 0 };
    source.attach("x")?;
    let mut text = TextReader::<P>::new(alloc)?;
    let wanted = ReadFault::Text(TextFault { line: 1, cause });
    match text.next(&mut source) {
        Ok(_) => assert!(rt; false, "a line"),
        Err(fault) => assert!(rt; fault == wanted),
    }
    Ok(())
}

#[test]
fn bytes_for_ever_are_refused_at_once(rt: HostRuntime) -> Result<(), Fail> {
    expect_endless_refused::<ThinState>(&rt, rt.alloc(), b'x', TextCause::TooLong)?;
    expect_endless_refused::<ThinState>(&rt, rt.alloc(), b'\n', TextCause::Header)?;
    Ok(())
}
