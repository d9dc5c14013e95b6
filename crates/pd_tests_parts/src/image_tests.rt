//! Devices, sources and sinks: in memory, where they fail as they are set to, and over real files.

ghost use Rattle.std.specs.Prelude.{◌≡◌, ◌≤◌};
ghost use Rattle.pd_image.specs.Device.{IsAttached, OnlyReads};

use crate::objects::{NEVER, device_of, leaves};
use pd_files::{FileDevice, OpenFiles, StdSink, StdSource};
use pd_image::{Device, MemDevice, MemSink, MemSource, Pick, Sink, Source};
use pd_kinds::{BLOCK_SIZE, Block};
use std::alloc::{AllocError, Global};
use std::fs;
use std::process::Abort;
use std::test::Fail;

const ONES: Block = Block([1; BLOCK_SIZE]);

const TWOS: Block = Block([2; BLOCK_SIZE]);

const THREES: Block = Block([3; BLOCK_SIZE]);

/// Makes a file of these bytes.
fn write_file(rt: &HostRuntime, path: &str, bytes: &[u8]) -> Result<(), Fail> {
    fs::write(rt, path, bytes)?;
    Ok(())
}

/// Removes a file.
fn remove_file(rt: &HostRuntime, path: &str) -> Result<(), Fail> {
    fs::remove_file(rt, path)?;
    Ok(())
}

#[test]
fn memory_device_keeps_what_is_written(rt: HostRuntime) -> Result<(), Fail> {
    let mut device = device_of(rt.alloc(), &[ONES, TWOS], true, NEVER, NEVER)?;
    let mut block = ONES;
    assert!(rt; device.read(1, &mut block).is_ok());
    assert!(rt; device.write(0, &block).is_ok());
    assert!(rt; device.sync().is_ok());
    assert!(rt; device.path() == Some("thin.img".as_bytes()));
    assert!(rt; device.block(0) == TWOS);
    Ok(())
}

#[test]
fn memory_device_is_made_of_zeros(rt: HostRuntime) -> Result<(), Fail> {
    let mut device = Box::new(rt.alloc(), MemDevice::new(rt.alloc(), 3)?)?;
    device.attach("thin.img", false)?;
    assert!(rt; device.blocks() == 3);
    assert!(rt; device.block(2) == Block([0; BLOCK_SIZE]));
    Ok(())
}

#[test]
fn memory_device_fails_where_it_is_set_to(rt: HostRuntime) -> Result<(), Fail> {
    let mut device = device_of(rt.alloc(), &[THREES], true, 2, NEVER)?;
    assert!(rt; device.write(0, &ONES).is_ok());
    assert!(rt; device.write(0, &TWOS).is_err());
    assert!(rt; device.block(0) == ONES);
    assert!(rt; device.write(0, &TWOS).is_ok());
    Ok(())
}

/// The byte that each block is full of after a crash by each pick. The blocks were ones, and two of them were changed to twos:
/// the first before a sync, the second behind it.
const LEFT: &[(Pick, [u8; 3])] = &[
    (Pick::Old, [2, 1, 1]),
    (Pick::New, [2, 2, 1]),
    (Pick::Other(3), [2, 3, 1]),
];

#[test]
fn memory_device_leaves_what_is_picked_at_a_crash(rt: HostRuntime) -> Result<(), Fail> {
    let alloc = rt.alloc();
    let mut device = device_of(alloc, &[ONES; 3], true, NEVER, NEVER)?;
    assert!(rt; leaves(alloc, &device, Pick::Old, [1; 3])?);
    assert!(rt; device.write(0, &TWOS).is_ok());
    assert!(rt; device.sync().is_ok());
    assert!(rt; device.write(1, &TWOS).is_ok());
    for row in LEFT {
        assert!(rt; leaves(alloc, &device, row.0, row.1)?);
    }
    Ok(())
}

#[test]
fn memory_device_fails_from_its_stop_on(rt: HostRuntime) -> Result<(), Fail> {
    let mut device = device_of(rt.alloc(), &[THREES], true, NEVER, 2)?;
    assert!(rt; device.write(0, &ONES).is_ok());
    assert!(rt; device.write(0, &TWOS).is_err());
    assert!(rt; device.sync().is_err());
    assert!(rt; device.block(0) == ONES);
    Ok(())
}

#[test]
fn memory_source_fails_where_it_is_set_to(rt: HostRuntime) -> Result<(), Fail> {
    let mut source = Box::new(rt.alloc(), MemSource::of(rt.alloc(), b"abc", 2)?)?;
    source.fail_at(2)?;
    source.attach("text")?;
    let mut room = [0; 3];
    assert!(rt; source.take(&mut room) == Ok(2));
    assert!(rt; source.take(&mut room).is_err());
    assert!(rt; source.take(&mut room) == Ok(1));
    assert!(rt; room == *b"cb\0");
    assert!(rt; source.path() == Some("text".as_bytes()));
    Ok(())
}

/// What is put, and whether it is taken.
type Put = (&'static [u8], bool);

/// Attaches a sink and puts these, one after another.
fn expect_puts<S: Sink>(
    rt: &impl Abort,
    sink: &mut S,
    path: Option<&str>,
    puts: &[Put],
) -> Result<(), Fail>
    requires { (S.state sink.old).access ≡ 0 }
{
    sink.attach(path)?;
    for row in puts {
        assert!(rt; sink.put(row.0).is_ok() == row.1);
    }
    Ok(())
}

const SECOND_FAILS: &[Put] = &[(b"ab", true), (b"cd", false), (b"ef", true)];

#[test]
fn memory_sink_fails_where_it_is_set_to(rt: HostRuntime) -> Result<(), Fail> {
    let mut sink = Box::new(rt.alloc(), MemSink::new(rt.alloc()))?;
    sink.fail_at(2)?;
    expect_puts(&rt, &mut *sink, None, SECOND_FAILS)?;
    assert!(rt; sink.bytes() == b"abef".as_slice());
    assert!(rt; sink.path() == Some("".as_bytes()));
    Ok(())
}

/// Writes block 1 of a file of two blocks, and answers block 0, or none where a call failed or there aren't two.
fn change_file(rt: &HostRuntime, path: &str) -> Result<Option<Block>, Fail> {
    let files = OpenFiles::new(rt)?;
    change_device(&mut FileDevice::new(&files), path)
}

/// The same, over a device that isn't attached yet. What a file's device means is known here as that of any device.
fn change_device<D: Device>(device: &mut D, path: &str) -> Result<Option<Block>, Fail>
    requires { (D.state device.old).access ≡ 0 }
{
    device.attach(path, true)?;
    if device.blocks() != 2 {
        return Ok(None);
    }
    let mut block = TWOS;
    let is_written = device.write(1, &TWOS).is_ok();
    let is_read = device.read(0, &mut block).is_ok();
    let is_synced = device.sync().is_ok();
    let is_done = is_written & is_read & is_synced;
    Ok(is_done.then_some(block))
}

#[test]
fn file_device_reads_and_writes_whole_blocks(rt: HostRuntime) -> Result<(), Fail> {
    let mut image = [1; 2 * BLOCK_SIZE + 100];
    write_file(&rt, "whole_blocks.img", &image)?;
    assert!(rt; change_file(&rt, "whole_blocks.img")? == Some(ONES));
    image[BLOCK_SIZE..2 * BLOCK_SIZE].fill(2);
    assert!(rt; fs::read(&rt, "whole_blocks.img")?.as_slice() == image.as_slice());
    remove_file(&rt, "whole_blocks.img")
}

/// Whether a device over the file can be attached.
fn can_attach(rt: &HostRuntime, path: &str, write: bool) -> Result<bool, Fail> {
    let files = OpenFiles::new(rt)?;
    Ok(FileDevice::new(&files).attach(path, write).is_ok())
}

#[test]
fn file_device_needs_a_file_that_is_there(rt: HostRuntime) -> Result<(), Fail> {
    for path in ["missing.img", "."] {
        assert!(rt; !can_attach(&rt, path, false)?);
        assert!(rt; !can_attach(&rt, path, true)?);
    }
    assert!(rt; fs::read(&rt, "missing.img").is_err());
    Ok(())
}

/// A running program can't be opened for writing, not even by root.
#[test]
fn file_device_needs_a_file_that_it_may_write(rt: HostRuntime) -> Result<(), Fail> {
    assert!(rt; can_attach(&rt, "/proc/self/exe", false)?);
    assert!(rt; !can_attach(&rt, "/proc/self/exe", true)?);
    Ok(())
}

/// Whether a source can be attached to the file.
fn can_attach_source(files: &OpenFiles<'_, HostRuntime>, path: &str) -> bool {
    StdSource::new(files).attach(path).is_ok()
}

/// Whether a sink can be attached to the file.
fn can_attach_sink(files: &OpenFiles<'_, HostRuntime>, path: &str) -> bool {
    StdSink::out(files).attach(Some(path)).is_ok()
}

/// Whether a device, a source and a sink can be attached to the file.
fn can_attach_each(files: &OpenFiles<'_, HostRuntime>, path: &str) -> [bool; 3] {
    let device = FileDevice::new(files).attach(path, true).is_ok();
    [
        device,
        can_attach_source(files, path),
        can_attach_sink(files, path),
    ]
}

/// A file is one object's alone, by whatever name, and a text that is refused cuts none.
#[test]
fn objects_take_no_file_of_another(rt: HostRuntime) -> Result<(), Fail> {
    write_file(&rt, "shared.img", &[1; 4096])?;
    fs::hard_link(&rt, "shared.img", "linked.img")?;
    let files = OpenFiles::new(&rt)?;
    let mut device = Box::new(rt.alloc(), FileDevice::new(&files))?;
    device.attach("shared.img", false)?;
    for path in ["shared.img", "./shared.img", "linked.img"] {
        assert!(rt; can_attach_each(&files, path) == [false; 3]);
    }
    assert!(rt; fs::read(&rt, "shared.img")?.as_slice() == [1; 4096].as_slice());
    remove_file(&rt, "linked.img")?;
    remove_file(&rt, "shared.img")
}

/// Block 0 is full of ones, and block 1 fails.
fn expect_first_alone<D: Device>(rt: &impl Abort, device: &mut D)
    requires attached { IsAttached (D.state device.old) }
    requires blocks { 2 ≤ (D.state device.old).blocks }
{
    let mut block = TWOS;
    assert!(rt; device.read(0, &mut block).is_ok());
    assert!(rt; block == ONES);
    assert!(rt; device.read(1, &mut block).is_err());
}

/// What is looked at over a real file.
#[derive(Clone, Copy)]
enum Look {
    /// A file that is cut once the device is attached.
    CutShort,
    /// All blocks, in any order.
    AnyOrder,
    /// A block that is changed within a run.
    WrittenRun,
    /// A file that is cut once a run of it was read.
    CutRun,
}

/// Looks at a file with a device of its own.
fn expect_look(stop: &impl Abort, rt: &HostRuntime, look: Look) -> Result<(), Fail> {
    let files = OpenFiles::new(rt)?;
    expect_in(stop, rt, &mut FileDevice::new(&files), look)
}

/// The same, with a device that isn't attached yet. What a file's device means is known here as that of any device.
fn expect_in<D: Device>(
    stop: &impl Abort,
    rt: &HostRuntime,
    device: &mut D,
    look: Look,
) -> Result<(), Fail>
    requires { (D.state device.old).access ≡ 0 }
{
    match look {
        Look::CutShort => expect_cut_short(stop, rt, device),
        Look::AnyOrder => expect_any_order(stop, device),
        Look::WrittenRun => expect_written(stop, device),
        Look::CutRun => expect_cut_run(stop, rt, device),
    }
}

#[test]
fn file_device_fails_past_the_end_of_a_file_cut_short(rt: HostRuntime) -> Result<(), Fail> {
    write_file(&rt, "cut_short.img", &[1; 2 * BLOCK_SIZE])?;
    expect_look(&rt, &rt, Look::CutShort)?;
    remove_file(&rt, "cut_short.img")
}

/// The file is cut once the device is attached.
fn expect_cut_short<D: Device>(
    stop: &impl Abort,
    rt: &HostRuntime,
    device: &mut D,
) -> Result<(), Fail>
    requires { (D.state device.old).access ≡ 0 }
{
    device.attach("cut_short.img", false)?;
    assert!(stop; device.blocks() == 2);
    write_file(rt, "cut_short.img", &[1; BLOCK_SIZE + 1])?;
    expect_first_alone(stop, device);
    Ok(())
}

/// The numbers of the blocks of a file that has three runs, the last one short.
const NUMBERS: &[u8] = &[
    0, 1, 2, 3, 4, 5, 6, 7, 8, 9, 10, 11, 12, 13, 14, 15, 16, 17, 18, 19, 20, 21, 22, 23, 24, 25,
    26, 27, 28, 29, 30, 31, 32, 33, 34,
];

/// The same, from the last one on.
const BACKWARDS: &[u8] = &[
    34, 33, 32, 31, 30, 29, 28, 27, 26, 25, 24, 23, 22, 21, 20, 19, 18, 17, 16, 15, 14, 13, 12, 11,
    10, 9, 8, 7, 6, 5, 4, 3, 2, 1, 0,
];

/// The bytes of so many blocks, each full of its own number, and a hundred bytes more.
fn numbered(alloc: Global, blocks: u8) -> Result<Vec<u8>, AllocError> {
    let mut image = Vec::new(alloc);
    for number in 0..blocks {
        image.resize(image.len() + BLOCK_SIZE, number)?;
    }
    image.resize(image.len() + 100, 0)?;
    Ok(image)
}

/// Makes a file of so many such blocks.
fn write_numbered(rt: &HostRuntime, path: &str, blocks: u8) -> Result<(), Fail> {
    let image = numbered(rt.alloc(), blocks)?;
    write_file(rt, path, image.as_slice())
}

/// Whether these blocks are there and each is full of its own number, as they are read in this order.
fn has_numbers<D: Device>(device: &mut D, numbers: &[u8]) -> bool
    requires { IsAttached (D.state device.old) }
    ensures { OnlyReads (D.state device.old) (D.state device.new) }
{
    let mut block = ONES;
    for number in numbers {
        let b = u64::from(*number);
        if b >= device.blocks() {
            return false;
        }
        if device.read(b, &mut block).is_err() {
            return false;
        }
        if block != Block([*number; BLOCK_SIZE]) {
            return false;
        }
    }
    true
}

/// Numbers of blocks, read in this order, and whether each is there and full of its own number.
type Row = (&'static [u8], bool);

/// Reads these rows, one after another.
fn expect_rows<D: Device>(rt: &impl Abort, device: &mut D, rows: &[Row])
    requires { IsAttached (D.state device.old) }
    ensures { OnlyReads (D.state device.old) (D.state device.new) }
{
    for row in rows {
        assert!(rt; has_numbers(device, row.0) == row.1);
    }
}

const ANY_ORDER: &[Row] = &[
    (NUMBERS, true),
    (BACKWARDS, true),
    (
        &[3, 4, 5, 20, 6, 7, 15, 16, 17, 18, 2, 34, 0, 1, 1, 33, 34],
        true,
    ),
];

#[test]
fn file_device_reads_in_any_order(rt: HostRuntime) -> Result<(), Fail> {
    write_numbered(&rt, "any_order.img", 35)?;
    expect_look(&rt, &rt, Look::AnyOrder)?;
    remove_file(&rt, "any_order.img")
}

/// All rows are read.
fn expect_any_order<D: Device>(rt: &impl Abort, device: &mut D) -> Result<(), Fail>
    requires { (D.state device.old).access ≡ 0 }
{
    device.attach("any_order.img", false)?;
    assert!(rt; device.blocks() == 35);
    expect_rows(rt, device, ANY_ORDER);
    Ok(())
}

/// Block 6 is changed within a run that is read, and then changed back.
fn expect_written<D: Device>(rt: &impl Abort, device: &mut D) -> Result<(), Fail>
    requires { (D.state device.old).access ≡ 0 }
{
    device.attach("written_run.img", true)?;
    assert!(rt; device.blocks() == 35);
    expect_rows(rt, device, &[(&[2, 3, 4], true)]);
    assert!(rt; device.write(6, &Block([9; BLOCK_SIZE])).is_ok());
    expect_rows(rt, device, &[(&[5], true), (&[6], false), (&[7, 8], true)]);
    assert!(rt; device.write(6, &Block([6; BLOCK_SIZE])).is_ok());
    assert!(rt; device.sync().is_ok());
    expect_rows(rt, device, &[(&[5, 6, 7, 8], true)]);
    Ok(())
}

#[test]
fn file_device_reads_what_was_written_in_a_run(rt: HostRuntime) -> Result<(), Fail> {
    write_numbered(&rt, "written_run.img", 35)?;
    expect_look(&rt, &rt, Look::WrittenRun)?;
    remove_file(&rt, "written_run.img")
}

const CUT_SHORT: &[Row] = &[
    (&[2, 15, 16, 17], true),
    (&[18], false),
    (&[34], false),
    (&[17, 16], true),
];

/// Another handle cuts the file: what is kept of it is still served, and from its new end on each block fails.
#[test]
fn file_device_fails_block_by_block_past_the_end_of_a_run_cut_short(
    rt: HostRuntime,
) -> Result<(), Fail> {
    write_numbered(&rt, "cut_run.img", 35)?;
    expect_look(&rt, &rt, Look::CutRun)?;
    remove_file(&rt, "cut_run.img")
}

/// The file is cut once a run of it was read.
fn expect_cut_run<D: Device>(
    stop: &impl Abort,
    rt: &HostRuntime,
    device: &mut D,
) -> Result<(), Fail>
    requires { (D.state device.old).access ≡ 0 }
{
    device.attach("cut_run.img", false)?;
    assert!(stop; has_numbers(device, &[0, 1]));
    write_numbered(rt, "cut_run.img", 18)?;
    expect_rows(stop, device, CUT_SHORT);
    Ok(())
}

#[test]
fn std_source_gives_a_file(rt: HostRuntime) -> Result<(), Fail> {
    write_file(&rt, "source.txt", b"abc")?;
    expect_file_of_abc(&rt, &rt)?;
    remove_file(&rt, "source.txt")
}

/// The text of the file is `abc`.
fn expect_file_of_abc(stop: &impl Abort, rt: &HostRuntime) -> Result<(), Fail> {
    let files = OpenFiles::new(rt)?;
    expect_abc(stop, &mut StdSource::new(&files))
}

/// The text is `abc`.
fn expect_abc<S: Source>(rt: &impl Abort, source: &mut S) -> Result<(), Fail>
    requires { (S.state source.old).access ≡ 0 }
{
    source.attach("source.txt")?;
    let mut room = [0; 2];
    assert!(rt; source.take(&mut room) == Ok(2));
    assert!(rt; source.take(&mut room) == Ok(1));
    assert!(rt; source.take(&mut room) == Ok(0));
    assert!(rt; room == *b"cb");
    Ok(())
}

#[test]
fn std_source_needs_a_file_that_is_there(rt: HostRuntime) -> Result<(), Fail> {
    let files = OpenFiles::new(&rt)?;
    assert!(rt; !can_attach_source(&files, "missing"));
    Ok(())
}

/// Puts these to a file, or to the standard output.
fn expect_put_out(
    stop: &impl Abort,
    rt: &HostRuntime,
    path: Option<&str>,
    puts: &[Put],
) -> Result<(), Fail> {
    let files = OpenFiles::new(rt)?;
    expect_puts(stop, &mut StdSink::out(&files), path, puts)
}

/// Puts these to the standard error.
fn expect_put_err(stop: &impl Abort, rt: &HostRuntime, puts: &[Put]) -> Result<(), Fail> {
    let files = OpenFiles::new(rt)?;
    expect_puts(stop, &mut StdSink::err(&files), None, puts)
}

#[test]
fn std_sink_makes_and_cuts_its_file(rt: HostRuntime) -> Result<(), Fail> {
    write_file(&rt, "sink.txt", b"what was there")?;
    expect_put_out(
        &rt,
        &rt,
        Some("sink.txt"),
        &[(b"ab", true), (b"\xff", true)],
    )?;
    assert!(rt; fs::read(&rt, "sink.txt")?.as_slice() == b"ab\xff".as_slice());
    let files = OpenFiles::new(&rt)?;
    assert!(rt; !can_attach_sink(&files, "missing/sink.txt"));
    remove_file(&rt, "sink.txt")
}

#[test]
fn std_sink_writes_any_bytes_to_the_standard_output(rt: HostRuntime) -> Result<(), Fail> {
    expect_put_out(&rt, &rt, None, &[(b"\xff\n", true)])
}

#[test]
fn std_sink_writes_text_to_the_standard_error(rt: HostRuntime) -> Result<(), Fail> {
    let puts = &[
        (b"a note\n".as_slice(), true),
        (b"\xff\n".as_slice(), false),
    ];
    expect_put_err(&rt, &rt, puts)
}
