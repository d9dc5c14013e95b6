//! Each call of each object of each request, failing in turn.

use crate::requests::{
    Asked, AskedOfThree, CACHE_TEXT, OF_THREE, READINGS, SHARED_LEAF, TARGET_TEXT, WRITINGS, blocks,
};
use pd_crc::any_valid;
use pd_image::{Device, Failed, MemDevice, MemSink, Pick, Source};
use pd_kinds::Block;
use pd_samples::pool::{DEVICE, ONE, SINK};
use pd_samples::runs::{
    Failing, Held, NOTHING_FAILS, Ran, blocks_after_crash, blocks_of, run_over, texts_of,
};
use pd_tools::run_tool;
use std::alloc::{AllocError, Global};
use std::process::Abort;
use std::test::Fail;

/// What fails of a request.
#[derive(Clone, Copy, Debug, PartialEq, Eq)]
enum Trouble {
    Source,
    Out,
    Notes,
    Input,
    Output,
    Third,
    InputStops,
    OutputStops,
    ThirdStops,
}

impl Trouble {
    /// This at a call, from 0. Call 0 is the one that attaches the object. A device stops in front of this call.
    fn at(self, call: u64) -> Failing {
        let mut failing = NOTHING_FAILS;
        match self {
            Trouble::Source => failing.source = Some(call),
            Trouble::Out => failing.out = Some(call),
            Trouble::Notes => failing.notes = Some(call),
            Trouble::Input => failing.input = Some(call),
            Trouble::Output => failing.output = Some(call),
            Trouble::Third => failing.third = Some(call),
            Trouble::InputStops => failing.input_stops_after = call,
            Trouble::OutputStops => failing.output_stops_after = call,
            Trouble::ThirdStops => failing.third_stops_after = call,
        }
        failing
    }

    /// The status that it comes to.
    fn status(self) -> u8 {
        match self {
            Trouble::Source | Trouble::Out | Trouble::Notes => 6,
            _ => 5,
        }
    }
}

const TROUBLES: &[Trouble] = &[
    Trouble::Source,
    Trouble::Out,
    Trouble::Notes,
    Trouble::Input,
    Trouble::Output,
    Trouble::InputStops,
    Trouble::OutputStops,
];

/// Those of the third device.
const TROUBLES_OF_THIRD: &[Trouble] = &[Trouble::Third, Trouble::ThirdStops];

/// More calls than an object of a request gets.
const MANY: u64 = 150;

/// Whether a request puts nothing to `out` before all that it reads was read: a check that writes nothing, and the dump of a
/// small pool.
fn puts_at_the_end(words: &str) -> bool {
    words == "thin_dump x" || (words.contains("_check") && !words.contains("--clear"))
}

/// Whether a crash of a device now by this pick leaves what it held before, what a call without trouble leaves, or, where these
/// differ, no valid superblock.
fn may_be_left(
    alloc: Global,
    device: &MemDevice,
    pick: Pick,
    old: &[Block],
    new: &[Block],
) -> Result<bool, AllocError> {
    let left = blocks_after_crash(alloc, device, pick)?;
    let left = left.as_slice();
    let is_closed = match left.first() {
        None => false,
        Some(first) => old != new && !any_valid(first),
    };
    Ok(is_closed || left == old || left == new)
}

/// Whether each crash does.
fn is_outcome(
    alloc: Global,
    device: &MemDevice,
    old: &[Block],
    new: &[Block],
) -> Result<bool, AllocError> {
    Ok(
        may_be_left(alloc, device, Pick::Old, old, new)?
            && may_be_left(alloc, device, Pick::New, old, new)?
            && may_be_left(alloc, device, Pick::Other(0), old, new)?,
    )
}

/// Whether two devices hold the same.
fn hold_alike(alloc: Global, one: &MemDevice, other: &MemDevice) -> Result<bool, AllocError> {
    Ok(blocks_of(alloc, one)? == blocks_of(alloc, other)?)
}

/// Whether a run came to just what another one came to.
fn is_alike(alloc: Global, ran: &Ran, whole: &Ran) -> Result<bool, AllocError> {
    let is_said = ran.status == whole.status
        && ran.out.bytes() == whole.out.bytes()
        && ran.notes.bytes() == whole.notes.bytes();
    Ok(
        is_said
            && hold_alike(alloc, &ran.input, &whole.input)?
            && hold_alike(alloc, &ran.output, &whole.output)?
            && hold_alike(alloc, &ran.third, &whole.third)?,
    )
}

/// What a failed run must have put, where `whole` is the run without trouble.
fn expect_fronts(rt: &impl Abort, words: &str, trouble: Trouble, ran: &Ran, whole: &Ran) {
    assert!(rt; ran.status == trouble.status(), "{words}");
    assert!(rt; whole.out.bytes().starts_with(ran.out.bytes()), "{words}");
    if puts_at_the_end(words) && ran.status == 5 {
        assert!(rt; ran.out.bytes().is_empty(), "{words}");
    }
    let notes = ran.notes.bytes();
    match trouble {
        Trouble::Notes => assert!(rt; whole.notes.bytes().starts_with(notes), "{words}"),
        Trouble::Source | Trouble::Out => {
            assert!(rt; notes == SINK.as_bytes(), "{words}");
        }
        _ => assert!(rt; notes == DEVICE.as_bytes(), "{words}"),
    }
}

/// Makes a request of these words over objects that hold this.
fn run_words(
    alloc: Global,
    words: &str,
    held: Held<'_>,
    failing: Failing,
) -> Result<Ran, AllocError> {
    let list: Vec<&str> = words.split_whitespace().collect(alloc)?;
    run_over(alloc, list.as_slice(), held, failing)
}

/// A request whose objects hold this, and the run of it without trouble.
#[derive(Clone, Copy)]
struct Tried<'a> {
    words: &'static str,
    held: Held<'a>,
    whole: &'a Ran,
}

impl Tried<'_> {
    /// Makes the request with this trouble at a call: whether nothing differs, since the call isn't made.
    fn is_alike_at(
        &self,
        rt: &impl Abort,
        alloc: Global,
        trouble: Trouble,
        call: u64,
    ) -> Result<bool, AllocError> {
        let ran = run_words(alloc, self.words, self.held, trouble.at(call))?;
        self.expect_safe(rt, alloc, &ran)?;
        if is_alike(alloc, &ran, self.whole)? {
            return Ok(true);
        }
        expect_fronts(rt, self.words, trouble, &ran, self.whole);
        if trouble == Trouble::Source && call <= 1 {
            let left = blocks_of(alloc, &ran.output)?;
            assert!(rt;
                left.as_slice() == self.held.output,
                "{}: unwritten",
                self.words
            );
        }
        Ok(false)
    }

    /// What a crash now may leave of the two devices of a run.
    fn expect_safe(&self, rt: &impl Abort, alloc: Global, ran: &Ran) -> Result<(), AllocError> {
        let read = blocks_of(alloc, &self.whole.input)?;
        let is_kept = is_outcome(alloc, &ran.input, self.held.input, read.as_slice())?;
        assert!(rt; is_kept, "{}", self.words);
        let written = blocks_of(alloc, &self.whole.output)?;
        let is_safe = is_outcome(alloc, &ran.output, self.held.output, written.as_slice())?;
        assert!(rt; is_safe, "{}", self.words);
        Ok(())
    }

    /// Makes the request with this trouble at each call, up to three in a row that aren't made.
    fn expect_each(
        &self,
        rt: &impl Abort,
        alloc: Global,
        trouble: Trouble,
    ) -> Result<(), AllocError> {
        let mut alike: u8 = 0;
        for call in 0..MANY {
            if self.is_alike_at(rt, alloc, trouble, call)? {
                alike = alike.saturating_add(1);
            } else {
                assert!(rt; alike == 0, "{}", self.words);
            }
            if alike == 3 {
                return Ok(());
            }
        }
        assert!(rt; false, "{} makes many calls", self.words);
        Ok(())
    }
}

/// Makes a request without trouble, which has this status, and then with each of these troubles at each call.
fn expect_troubles(
    rt: &impl Abort,
    alloc: Global,
    words: &'static str,
    held: Held<'_>,
    status: u8,
    troubles: &[Trouble],
) -> Result<(), AllocError> {
    let whole = run_words(alloc, words, held, NOTHING_FAILS)?;
    assert!(rt; whole.status == status, "{words}");
    let tried = Tried {
        words,
        held,
        whole: &whole,
    };
    for trouble in troubles {
        tried.expect_each(rt, alloc, *trouble)?;
    }
    Ok(())
}

/// Makes a request without trouble, and then with each trouble at each call.
fn expect_all(rt: &impl Abort, alloc: Global, asked: &Asked) -> Result<(), AllocError> {
    let (words, text, input, output, status) = *asked;
    let (input, output) = (blocks(rt, alloc, input)?, blocks(rt, alloc, output)?);
    let held = Held {
        text: text.as_bytes(),
        input: input.as_slice(),
        output: output.as_slice(),
        third: &[],
    };
    expect_troubles(rt, alloc, words, held, status, TROUBLES)
}

/// The same of a request over three devices.
fn expect_all_of_three(
    rt: &impl Abort,
    alloc: Global,
    asked: &AskedOfThree,
) -> Result<(), AllocError> {
    let (words, input, output, third, status) = *asked;
    let (input, output) = (blocks(rt, alloc, input)?, blocks(rt, alloc, output)?);
    let third = blocks(rt, alloc, third)?;
    let held = Held {
        text: b"",
        input: input.as_slice(),
        output: output.as_slice(),
        third: third.as_slice(),
    };
    expect_troubles(rt, alloc, words, held, status, TROUBLES)?;
    expect_troubles(rt, alloc, words, held, status, TROUBLES_OF_THIRD)
}

#[test]
fn a_request_that_reads_tells_each_call_that_fails(rt: HostRuntime) -> Result<(), Fail> {
    for asked in READINGS {
        expect_all(&rt, rt.alloc(), asked)?;
    }
    Ok(())
}

#[test]
fn a_request_that_writes_leaves_no_other_image_where_a_call_fails(
    rt: HostRuntime,
) -> Result<(), Fail> {
    for asked in WRITINGS {
        expect_all(&rt, rt.alloc(), asked)?;
    }
    Ok(())
}

#[test]
fn a_request_over_three_devices_tells_each_call_that_fails(rt: HostRuntime) -> Result<(), Fail> {
    for asked in OF_THREE {
        expect_all_of_three(&rt, rt.alloc(), asked)?;
    }
    Ok(())
}

// Restores of texts that never end.

/// A source that gives these bytes and then the letter a for ever, and tells nothing.
#[derive(Drop)]
struct Endless {
    front: &'static [u8],
    given: usize,
    access: u8,
}

impl Source for Endless {
    ghost use Rattle.std.specs.Prelude.{refl, None};

    ghost state = { λ s. record { access = s.access; path = None; left = None; faults = 0 } };

    ghost unnamed = { λ _ _. refl };

    fn attach(&mut self, _path: &str) -> Result<(), Failed> {
        self.access = 1;
        Ok(())
    }

    fn take(&mut self, into: &mut [u8]) -> Result<usize, Failed> {
        let mut given = self.given;
        for byte in into.iter_mut() {
            *byte = *self.front.get(given).unwrap_or(&b'a');
            given = given.saturating_add(1);
        }
        self.given = given;
        Ok(into.len())
    }
}

/// Restores a text that goes on for ever onto sixteen blocks of ones: this line is refused, and there is no valid superblock.
fn expect_refused(
    rt: &impl Abort,
    alloc: Global,
    tool: &str,
    front: &'static str,
    line: &str,
) -> Result<(), AllocError> {
    let words = texts_of(alloc, &[tool, "-i", "t", "-o", "x"])?;
    let mut source = Endless {
        front: front.as_bytes(),
        given: 0,
        access: 0,
    };
    let mut out = Box::new(alloc, MemSink::new(alloc))?;
    let mut notes = Box::new(alloc, MemSink::new(alloc))?;
    let mut input = Box::new(alloc, MemDevice::of(alloc, &[])?)?;
    let mut output = Box::new(alloc, MemDevice::of(alloc, &[Block([1; 4096]); 16])?)?;
    let mut third = Box::new(alloc, MemDevice::of(alloc, &[])?)?;
    let status = run_tool(
        alloc,
        words.as_slice(),
        &mut source,
        &mut *out,
        &mut *notes,
        &mut *input,
        &mut *output,
        &mut *third,
    );
    assert!(rt; status == 3, "{tool}");
    assert!(rt; notes.bytes() == line.as_bytes(), "{tool}");
    let left = blocks_of(alloc, &output)?;
    let first = left.first();
    let is_left = first == Some(&Block([1; 4096])) || first == Some(&Block::zeros());
    assert!(rt; is_left, "{tool}");
    Ok(())
}

#[test]
fn a_text_that_goes_on_for_ever_is_refused(rt: HostRuntime) -> Result<(), Fail> {
    let too_long = "pdata_tools: line 1: too long\n";
    for tool in ["thin_restore", "cache_restore", "era_restore"] {
        expect_refused(&rt, rt.alloc(), tool, "", too_long)?;
    }
    let pool = "pdata_tools: line 6: after end\n";
    expect_refused(&rt, rt.alloc(), "thin_restore", ONE, pool)?;
    let shared = "pdata_tools: line 12: after end\n";
    expect_refused(&rt, rt.alloc(), "thin_restore", SHARED_LEAF, shared)?;
    let cache = "pdata_tools: line 6: after end\n";
    expect_refused(&rt, rt.alloc(), "cache_restore", CACHE_TEXT, cache)?;
    let target = "pdata_tools: line 9: after end\n";
    expect_refused(&rt, rt.alloc(), "era_restore", TARGET_TEXT, target)?;
    Ok(())
}
