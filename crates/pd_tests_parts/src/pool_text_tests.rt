//! The texts of pools of either version: where they are refused, and what their version is.

ghost use Rattle.std.specs.Prelude.{◌≡◌};
ghost use Rattle.pd_image.specs.MemObjects.{mem_sink_state};

use crate::objects::{sink_of, source_of};
use crate::refusals::{Refused, expect_each_refused, expect_good};
use pd_grammar::TextCause::{
    AfterEnd, Header, MappedDiffers, NoEnd, Number, Order, OutOfRange, Unused, Word,
};
use pd_image::{Failed, MemSink, Sink};
use pd_texts::{Run2, ThinLine, ThinState, ThinText, print_end, print_shared_first, print_thin};
use pd_value::Details;
use std::alloc::Global;
use std::process::Abort;
use std::test::Fail;

/// The first lines of texts of the two versions, and those with a leaf of the virtual blocks 5 and 6.
pub(crate) const FIRST_FRONT: &str =
    "thin 1\npool 00000000-0000-0000-0000-000000000000 0 0 128 8\n";

const FRONT: &str = "thin 2\npool 00000000-0000-0000-0000-000000000000 0 0 128 8\n";

const LEAF_FRONT: &str =
    "thin 2\npool 00000000-0000-0000-0000-000000000000 0 0 128 8\nleaf 0 2\nmap 5 0 2 0\n";

/// Whole texts of either version that are refused.
const REFUSED_TEXTS: &[Refused] = &[
    (1, NoEnd, &["", "thin 1", "thin 2"]),
    (1, Header, &["thin 3\n", "thin 1 \n", "thin  1\n"]),
    (1, Header, &["cache 1\n", "\n", "thin\x001\n", "thin 2 \n"]),
    (1, Header, &["thin 02\n"]),
    (2, NoEnd, &["thin 2\n", "thin 1\n"]),
    (2, Word, &["thin 1\nend\n", "thin 1\npool\n"]),
    (2, Word, &["thin 2\nleaf 0 1\n", "thin 2\nthin 1\n"]),
    (
        2,
        Word,
        &[
            "thin 1\npool 00000000000000000000000000000000 0 0 128 1\n",
            "thin 1\npool 0000000A-0000-0000-0000-000000000000 0 0 128 1\n",
            "thin 1\npool 00000000-0000-0000-0000-000000000000 0 0 128\n",
        ],
    ),
    (
        2,
        Number,
        &["thin 1\npool 00000000-0000-0000-0000-000000000000 0 0 x 1\n"],
    ),
    (
        2,
        OutOfRange,
        &[
            "thin 1\npool 00000000-0000-0000-0000-000000000000 4294967296 0 128 1\n",
            "thin 1\npool 00000000-0000-0000-0000-000000000000 0 0 4294967296 1\n",
            "thin 1\npool 00000000-0000-0000-0000-000000000000 0 0 128 1099511627777\n",
        ],
    ),
    (
        3,
        NoEnd,
        &["thin 1\npool 00000000-0000-0000-0000-000000000000 0 0 128 0\n"],
    ),
    (
        4,
        AfterEnd,
        &["thin 1\npool 00000000-0000-0000-0000-000000000000 0 0 128 0\nend\nx"],
    ),
];

/// What is refused behind the first lines of version 1.
const REFUSED_BODIES: &[Refused] = &[
    (3, NoEnd, &["", "end"]),
    (3, Word, &["end \n", "\n", "ende\n", "thin 1\n"]),
    (3, Word, &["leaf 0 1\n", "map 0 0 1 0\n"]),
    (3, Word, &["device 1 1 0 0\n", "device 1 1 0 0 0 0\n"]),
    (3, Word, &["device 1 1 0 0 0 \n", "device 1 1 0 0 0\x7F\n"]),
    (
        3,
        Word,
        &["pool 00000000-0000-0000-0000-000000000000 0 0 128 1\n"],
    ),
    (3, Number, &["device 1  0 0 0\n", "device 1 1 0 0 \n"]),
    (3, Number, &["device +1 1 0 0 0\n", "device -1 1 0 0 0\n"]),
    (3, Number, &["device 01 1 0 0 0\n", "device 00 1 0 0 0\n"]),
    (3, Number, &["device 18446744073709551616 1 0 0 0\n"]),
    (3, Number, &["device 99999999999999999999999 1 0 0 0\n"]),
    (3, OutOfRange, &["device 1 1 0 4294967296 0\n"]),
    (3, OutOfRange, &["device 1 1 0 0 4294967296\n"]),
    (4, AfterEnd, &["end\nx", "end\n\n", "end\nend\n"]),
    (4, AfterEnd, &["end\n\x00\n"]),
    (4, MappedDiffers, &["device 1 1 0 0 0\nmap 0 0 2 0\n"]),
    (
        4,
        MappedDiffers,
        &["device 18446744073709551615 1 0 0 0\nend\n"],
    ),
    (4, Order, &["device 1 0 0 0 0\ndevice 1 0 0 0 0\n"]),
    (4, OutOfRange, &["device 1 1 0 0 0\nmap 0 0 0 0\n"]),
    (4, OutOfRange, &["device 1 9 0 0 0\nmap 0 0 9 0\n"]),
    (4, OutOfRange, &["device 1 1 0 0 0\nmap 0 0 1 16777216\n"]),
    (
        4,
        OutOfRange,
        &[
            "device 1 0 0 0 0\ndevice 0 0 0 0 4294967296\n",
            "device 1 2 0 0 0\nmap 18446744073709551615 0 2 0\n",
            "device 1 2 0 0 0\nmap 0 18446744073709551615 2 0\n",
        ],
    ),
    (4, Word, &["device 1 1 0 0 0\nuse 0\n"]),
    (4, Word, &["device 0 0 0 0 0\nuse 0\n"]),
    (4, Number, &["device 1 1 0 0 0\nmap 0 0 01 0\n"]),
    (5, Order, &["device 1 3 0 0 0\nmap 0 0 2 0\nmap 1 0 1 0\n"]),
    (
        5,
        Order,
        &["device 1 2 0 0 0\nmap 0 0 1 0\ndevice 1 0 0 0 0\n"],
    ),
    (5, MappedDiffers, &["device 1 2 0 0 0\nmap 0 0 1 0\nend\n"]),
    (
        5,
        MappedDiffers,
        &["device 1 2 0 0 0\nmap 0 0 1 0\ndevice 2 0 0 0 0\n"],
    ),
];

/// The same of leaves, behind those of version 2.
const REFUSED_LEAVES: &[Refused] = &[
    (3, Word, &["leaf 0\n", "leaf 0 1 1\n", "map 0 0 1 0\n"]),
    (3, Word, &["thin 2\n"]),
    (3, Number, &["leaf x 1\n", "leaf 0 01\n"]),
    (3, OutOfRange, &["leaf 0 0\n", "leaf 0 253\n"]),
    (3, Order, &["leaf 1 1\n"]),
    (4, MappedDiffers, &["leaf 0 1\nleaf 1 1\n"]),
    (4, MappedDiffers, &["leaf 0 1\ndevice 0 0 0 0 0\n"]),
    (4, MappedDiffers, &["leaf 0 1\nend\n"]),
    (4, MappedDiffers, &["leaf 0 1\nmap 0 0 2 0\n"]),
    (4, OutOfRange, &["leaf 0 1\nleaf 1 0\n"]),
    (4, OutOfRange, &["leaf 0 1\nmap 0 0 0 0\n"]),
    (4, OutOfRange, &["leaf 0 1\nmap 0 8 1 0\n"]),
    (4, Order, &["leaf 0 1\nleaf 5 1\n"]),
    (4, Word, &["device 0 0 0 0 0\nleaf 0 1\n"]),
    (5, Order, &["leaf 0 1\nmap 0 0 1 0\nleaf 0 1\n"]),
    (5, Order, &["leaf 0 1\nmap 0 0 1 0\nleaf 2 1\n"]),
    (5, Order, &["leaf 0 3\nmap 4 0 2 0\nmap 5 2 1 0\n"]),
    (5, Order, &["leaf 0 3\nmap 4 0 2 0\nmap 5 2 2 0\n"]),
    (5, Unused, &["leaf 0 1\nmap 0 0 1 0\nend\n"]),
    (
        9,
        Unused,
        &["leaf 0 1\nmap 0 0 1 0\nleaf 1 1\nmap 0 0 1 0\ndevice 0 1 0 0 0\nuse 0\nend\n"],
    ),
];

/// The same of uses, where the leaf with the virtual blocks 5 and 6 was told.
const REFUSED_USES: &[Refused] = &[
    (5, Word, &["use 0\n"]),
    (5, Unused, &["end\n"]),
    (6, Word, &["device 0 2 0 0 0\nuse\n"]),
    (6, Word, &["device 0 2 0 0 0\nuse 0 0\n"]),
    (6, Number, &["device 0 2 0 0 0\nuse 00\n"]),
    (6, OutOfRange, &["device 0 2 0 0 0\nuse 1\n"]),
    (
        6,
        OutOfRange,
        &["device 0 2 0 0 0\nuse 18446744073709551615\n"],
    ),
    (6, MappedDiffers, &["device 0 1 0 0 0\nuse 0\n"]),
    (6, MappedDiffers, &["device 0 1 0 0 0\nend\n"]),
    (6, Unused, &["device 0 0 0 0 0\nend\n"]),
    (7, Order, &["device 0 3 0 0 0\nmap 5 2 1 0\nuse 0\n"]),
    (7, Order, &["device 0 4 0 0 0\nuse 0\nmap 6 2 1 0\n"]),
    (7, Order, &["device 0 4 0 0 0\nuse 0\nuse 0\n"]),
    (7, Order, &["device 0 2 0 0 0\nuse 0\nuse 0\n"]),
    (7, MappedDiffers, &["device 0 3 0 0 0\nuse 0\nend\n"]),
    (
        7,
        MappedDiffers,
        &[
            "device 0 3 0 0 0\nuse 0\nmap 7 2 2 0\n",
            "device 0 3 0 0 0\nuse 0\ndevice 1 2 0 0 0\n",
        ],
    ),
    (7, OutOfRange, &["device 0 4 0 0 0\nuse 0\nuse 1\n"]),
];

#[test]
fn texts_of_version_1_are_refused_at_their_line_for_their_cause(
    rt: HostRuntime,
) -> Result<(), Fail> {
    expect_each_refused::<ThinState>(&rt, rt.alloc(), "", REFUSED_TEXTS)?;
    expect_each_refused::<ThinState>(&rt, rt.alloc(), FIRST_FRONT, REFUSED_BODIES)
}

#[test]
fn texts_of_version_2_are_refused_at_their_line_for_their_cause(
    rt: HostRuntime,
) -> Result<(), Fail> {
    expect_each_refused::<ThinState>(&rt, rt.alloc(), FRONT, REFUSED_LEAVES)?;
    expect_each_refused::<ThinState>(&rt, rt.alloc(), LEAF_FRONT, REFUSED_USES)
}

/// Texts of which no line is refused.
const GOOD_TEXTS: &[&str] = &[
    "thin 1\npool 00000000-0000-0000-0000-000000000000 0 0 128 8\nend\n",
    "thin 2\npool 00000000-0000-0000-0000-000000000000 0 0 128 8\nend\n",
    "thin 2\npool 00000000-0000-0000-0000-000000000000 0 0 128 300\nleaf 0 252\nmap 9 1 252 0\ndevice 0 254 0 0 0\nmap 8 0 1 0\n\
     use 0\nmap 261 0 1 0\ndevice 7 252 0 0 0\nuse 0\nend\n",
    "thin 2\npool 00000000-0000-0000-0000-000000000000 0 0 128 8\nleaf 0 2\nmap 0 0 1 0\nmap 18446744073709551615 1 1 0\n\
     device 0 2 0 0 0\nuse 0\nend\n",
    "thin 2\npool 00000000-0000-0000-0000-000000000000 0 0 128 8\nleaf 0 1\nmap 3 0 1 0\nleaf 1 1\nmap 1 1 1 0\n\
     device 0 2 0 0 0\nuse 1\nuse 0\nend\n",
];

#[test]
fn good_texts_of_either_version_are_read_to_their_end(rt: HostRuntime) -> Result<(), Fail> {
    for text in GOOD_TEXTS {
        expect_good::<ThinState>(&rt, rt.alloc(), text.as_bytes(), text)?;
    }
    Ok(())
}

/// The version of a text before its first answer and after it.
fn expect_version(rt: &impl Abort, alloc: Global, text: &str, version: u32) -> Result<(), Fail> {
    let mut source = source_of(alloc, text.as_bytes(), 7)?;
    let mut lines = ThinText::new(alloc)?;
    let at_first = lines.version();
    let is_read = lines.next(&mut *source).is_ok();
    let then = lines.version();
    let is_read_on = lines.next(&mut *source).is_ok();
    let versions = [at_first, then, lines.version()];
    assert!(rt;
        is_read & is_read_on & (versions == [0, version, version]),
        "{text}"
    );
    Ok(())
}

#[test]
fn a_text_says_its_version(rt: HostRuntime) -> Result<(), Fail> {
    expect_version(&rt, rt.alloc(), GOOD_TEXTS[0], 1)?;
    expect_version(&rt, rt.alloc(), GOOD_TEXTS[2], 2)?;
    Ok(())
}

/// A pool of a thousand data blocks.
const POOL: ThinLine = ThinLine::Pool {
    uuid: [0; 16],
    time: 0,
    transaction: 0,
    block_size: 128,
    blocks: 1000,
};

/// A device with so many mapped blocks.
fn device(id: u64, mapped: u64) -> ThinLine {
    ThinLine::Device {
        id,
        details: Details {
            mapped,
            transaction: 0,
            created: 0,
            snapped: 0,
        },
    }
}

/// Prints a leaf of one mapping.
fn put_leaf(number: u64, sink: &mut MemSink) -> Result<(), Failed>
    requires { (mem_sink_state sink.old).access ≡ 1 }
    ensures { (mem_sink_state sink.new).access ≡ 1 }
{
    let run = Run2 {
        virt: number,
        target: number,
        length: 1,
        time: 0,
    };
    print_thin(&ThinLine::Leaf { number, entries: 1 }, sink)?;
    print_thin(&ThinLine::Map(run), sink)
}

/// Prints a leaf, and a thousand devices that use it.
fn put_one_leaf(sink: &mut MemSink) -> Result<(), Failed>
    requires { (mem_sink_state sink.old).access ≡ 1 }
{
    print_shared_first(sink)?;
    print_thin(&POOL, sink)?;
    put_leaf(0, sink)?;
    for id in 0..1000u64 {
        print_thin(&device(id, 1), sink)?;
        print_thin(&ThinLine::UseLeaf { number: 0 }, sink)?;
    }
    print_end(sink)
}

/// Prints a thousand leaves.
fn put_leaves(sink: &mut MemSink) -> Result<(), Failed>
    requires { (mem_sink_state sink.old).access ≡ 1 }
    ensures { (mem_sink_state sink.new).access ≡ 1 }
{
    for number in 0..1000u64 {
        put_leaf(number, sink)?;
    }
    Ok(())
}

/// Prints the uses of a thousand leaves.
fn put_uses(sink: &mut MemSink) -> Result<(), Failed>
    requires { (mem_sink_state sink.old).access ≡ 1 }
    ensures { (mem_sink_state sink.new).access ≡ 1 }
{
    for number in 0..1000u64 {
        print_thin(&ThinLine::UseLeaf { number }, sink)?;
    }
    Ok(())
}

/// Prints a thousand leaves, and a device that uses them all.
fn put_many_leaves(sink: &mut MemSink) -> Result<(), Failed>
    requires { (mem_sink_state sink.old).access ≡ 1 }
{
    print_shared_first(sink)?;
    print_thin(&POOL, sink)?;
    put_leaves(sink)?;
    print_thin(&device(0, 1000), sink)?;
    put_uses(sink)?;
    print_end(sink)
}

#[test]
fn a_leaf_is_used_a_thousand_times(rt: HostRuntime) -> Result<(), Fail> {
    let mut sink = sink_of(rt.alloc())?;
    assert!(rt; put_one_leaf(&mut *sink).is_ok());
    expect_good::<ThinState>(&rt, rt.alloc(), sink.bytes(), "one leaf")
}

#[test]
fn a_thousand_leaves_are_used(rt: HostRuntime) -> Result<(), Fail> {
    let mut sink = sink_of(rt.alloc())?;
    assert!(rt; put_many_leaves(&mut *sink).is_ok());
    expect_good::<ThinState>(&rt, rt.alloc(), sink.bytes(), "leaves")
}
