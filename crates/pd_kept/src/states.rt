//! What a repair without a superblock would keep: the states to choose from, and what is kept of the best one.
//! Serves `thin_repair --dry-run`.

ghost use Rattle.std.specs.Prelude.{◌≡◌, ◌^◌, ◌≤◌, ◌++◌, IfOk, IfSome, OnOk, length, min, take};
ghost use Rattle.std.specs.List.{flat_map};
ghost use Rattle.std.specs.Option.{option_map};
ghost use Rattle.pd_kinds.specs.Objects.{CountsFault, Appends, AppendsFront};
ghost use Rattle.pd_kinds.specs.declared.limits.TheConstants.{MAX_META_BLOCKS};
ghost use Rattle.pd_laid.specs.FoundRoots.{lost_graph};
ghost use Rattle.pd_answers.specs.DamagedStates.{damaged_states};
ghost use Rattle.pd_answers.specs.FoundStates.{states};
ghost use Rattle.pd_answers.specs.KeptLines.{told_text};
ghost use Rattle.pd_answers.specs.NamedRepairs.{more_line, text_of_states};
ghost use Rattle.pd_damaged.specs.Listed.{HasKeptDevices};
ghost use Rattle.pd_image.specs.Device.{IsAttached, OnlyReads};
ghost use Rattle.pd_image.specs.Sink.{KeepsSink};
ghost use Rattle.pd_lines.specs.Printer.{printing};
ghost use Rattle.pd_lines.specs.Printing.{Prints};
ghost use Rattle.pd_salvage.specs.Saved.{CountsSalvage};
ghost use Rattle.pd_kept.specs.Kept.{told_of};
ghost use Rattle.pd_kept.specs.States.{AreListed, counts_words, found_line, found_list, latest_words, looked_text};
ghost use Rattle.pd_kept.specs.States.{roots_of_best, roots_of_first, roots_words};
ghost use Rattle.pd_scan.specs.Pairs.{HasDevices};

use crate::kept::{Kept, kept_by_repair};
use crate::lines::print_kept;
use pd_damaged::find_damaged;
use pd_image::{Device, Failed, Sink};
use pd_kinds::{CheckFault, MAX_META_BLOCKS};
use pd_lines::{Printer, TextBuffer};
use pd_salvage::SalvageFault;
use pd_scan::{FoundStates, MAX_STATES, Roots, State, find_states, lost_super};
use std::alloc::Global;

/// What a repair without a superblock would keep.
#[derive(Drop)]
pub struct Looked {
    /// The states whose trees are sound; none where the roots are named.
    pub sound: FoundStates,
    /// The damaged ones; none where the roots are named.
    pub damaged: FoundStates,
    /// What is kept of the best state, or from the roots that are named.
    pub kept: Kept,
}

impl Looked {
    /// What is kept from roots that are named.
    pub fn from_named(alloc: Global, kept: Kept) -> Looked
        ensures { looked_text result ≡ told_text (told_of kept) }
    {
        Looked {
            sound: FoundStates::none(alloc),
            damaged: FoundStates::none(alloc),
            kept,
        }
    }
}

/// Looks for the states of a pool with so many data blocks, whatever its block 0 holds, and at what a repair from the best of
/// them would keep, with this transaction and this size of a data block in sectors: of the first sound one, or where there is
/// none of the first damaged one. `None` where there is no state.
///
/// It takes the memory of a search for roots, then for each list of devices 16 bytes a device, then that of a search for damaged
/// states, and then that of `kept_by_repair`.
///
/// Fails with `Device` where a read failed, and with `Memory` where memory wasn't found.
pub fn look_for_states<D: Device>(
    alloc: Global,
    dev: &mut D,
    transaction: u64,
    block_size: u32,
    data_blocks: u64,
) -> Result<Option<Looked>, SalvageFault>
    requires attached { IsAttached (D.state dev.old) }
    requires data { data_blocks ≤ 2 ^ 40 }
    ensures told { IfOk result (λ looked. IfSome (D.state dev.old).held (λ image. option_map looked_text looked
        ≡ text_of_states image (record { transaction = transaction; block_size = block_size; blocks = data_blocks })
        (states (lost_graph image data_blocks) image) (damaged_states (lost_graph image data_blocks) image))) }
    ensures kept { OnlyReads (D.state dev.old) (D.state dev.new) }
    ensures faults { CountsSalvage result (D.state dev.old).faults (D.state dev.new).faults }
{
    let sound = sound_states(alloc, dev, data_blocks)?;
    let damaged = damaged_states(alloc, dev, data_blocks)?;
    let Some(roots) = best_roots(&sound, &damaged) else {
        return Ok(None);
    };
    let nr = usable_blocks(dev);
    let s = lost_super(&roots, transaction, block_size, nr, data_blocks);
    let kept = kept_by_repair(alloc, dev, &s)?;
    Ok(Some(Looked {
        sound,
        damaged,
        kept,
    }))
}

/// The roots of the first sound state, or where there is none of the first damaged one.
fn best_roots(sound: &FoundStates, damaged: &FoundStates) -> Option<Roots>
    ensures { result ≡ roots_of_best sound.now.best.items damaged.now.best.items }
{
    match sound.best.first() {
        Some(state) => Some(state.roots),
        None => first_roots(&damaged.best),
    }
}

/// The roots of the first state, if there is one.
fn first_roots(states: &[State]) -> Option<Roots>
    ensures { result ≡ roots_of_first states.now }
{
    match states.first() {
        Some(state) => Some(state.roots),
        None => None,
    }
}

/// How many blocks of a device can be metadata: all, but no more than `MAX_META_BLOCKS`.
pub fn usable_blocks<D: Device>(dev: &D) -> u64
    requires { IsAttached (D.state dev.now) }
    ensures { result ≡ min (D.state dev.now).blocks MAX_META_BLOCKS }
{
    dev.blocks().min(MAX_META_BLOCKS)
}

/// The states of a pool with so many data blocks whose trees are sound.
fn sound_states<D: Device>(
    alloc: Global,
    dev: &mut D,
    data_blocks: u64,
) -> Result<FoundStates, SalvageFault>
    requires attached { IsAttached (D.state dev.old) }
    ensures found { IfOk result (λ found. IfSome (D.state dev.old).held (λ image.
        AreListed (HasDevices (lost_graph image data_blocks) image) (states (lost_graph image data_blocks) image) found)) }
    ensures kept { OnlyReads (D.state dev.old) (D.state dev.new) }
    ensures faults { CountsSalvage result (D.state dev.old).faults (D.state dev.new).faults }
{
    match find_states(alloc, dev, data_blocks) {
        Ok(found) => Ok(found),
        Err(CheckFault::Memory) => Err(SalvageFault::Memory),
        Err(CheckFault::Device) => Err(SalvageFault::Device),
    }
}

/// The damaged ones.
fn damaged_states<D: Device>(
    alloc: Global,
    dev: &mut D,
    data_blocks: u64,
) -> Result<FoundStates, SalvageFault>
    requires attached { IsAttached (D.state dev.old) }
    ensures found { IfOk result (λ found. IfSome (D.state dev.old).held (λ image.
        AreListed (HasKeptDevices (lost_graph image data_blocks) image) (damaged_states (lost_graph image data_blocks) image) found)) }
    ensures kept { OnlyReads (D.state dev.old) (D.state dev.new) }
    ensures faults { CountsSalvage result (D.state dev.old).faults (D.state dev.new).faults }
{
    match find_damaged(alloc, dev, data_blocks) {
        Ok(states) => Ok(best_of(states)),
        Err(CheckFault::Memory) => Err(SalvageFault::Memory),
        Err(CheckFault::Device) => Err(SalvageFault::Device),
    }
}

/// The first of these states, which are in order, and how many there are.
fn best_of(mut states: Vec<State>) -> FoundStates
    ensures best { result.best.items ≡ take 100 states.items }
    ensures number { result.number ≡ length states.items }
{
    let number = states.len() as u64;
    states.truncate(MAX_STATES);
    FoundStates {
        best: states,
        number,
    }
}

/// Puts what a repair without a superblock would keep: the lines of the sound states and those of the damaged ones, each with
/// how many are left out, and what is kept.
///
/// Fails with `Failed` where `out` did; then a front of the text was put.
pub fn put_looked<K: Sink>(looked: &Looked, out: &mut K) -> Result<(), Failed>
    requires { (K.state out.old).access ≡ 1 }
    ensures whole { OnOk result (Appends (looked_text looked.now) (K.state out.old).written (K.state out.new).written) }
    ensures front { AppendsFront (looked_text looked.now) (K.state out.old).written (K.state out.new).written }
    ensures kept { KeepsSink (K.state out.old) (K.state out.new) }
    ensures faults { CountsFault result (K.state out.old).faults (K.state out.new).faults }
{
    let mut printer = Printer::to_sink(out);
    print_looked(looked, &mut printer)?;
    printer.finish()
}

/// Prints the same.
fn print_looked<K: Sink>(looked: &Looked, printer: &mut Printer<'_, K>) -> Result<(), Failed>
    requires { (K.state printer.old.out.now).access ≡ 1 }
    ensures same_reference { printer.new.out.ghost_name ≡ printer.old.out.ghost_name }
    ensures prints { Prints (looked_text looked.now) result (printing K.state printer.old) (printing K.state printer.new) }
    ensures faults { CountsFault result (K.state printer.old.out.now).faults (K.state printer.new.out.now).faults }
{
    print_list(b"roots ", &looked.sound, printer)?;
    print_list(b"damaged ", &looked.damaged, printer)?;
    print_kept(&looked.kept, printer)
}

/// Prints the lines of states, which begin with this word, and how many are left out.
fn print_list<K: Sink>(
    word: &[u8],
    found: &FoundStates,
    printer: &mut Printer<'_, K>,
) -> Result<(), Failed>
    requires short { length word.now ≤ 8 }
    requires open { (K.state printer.old.out.now).access ≡ 1 }
    ensures same_reference { printer.new.out.ghost_name ≡ printer.old.out.ghost_name }
    ensures prints { Prints (found_list word.now found.now) result (printing K.state printer.old) (printing K.state printer.new) }
    ensures faults { CountsFault result (K.state printer.old.out.now).faults (K.state printer.new.out.now).faults }
{
    print_states(word, found.best.as_slice(), printer)?;
    print_more(found.number, printer)
}

/// Prints how many of so many states are left out, if there are more than `MAX_STATES`.
fn print_more<K: Sink>(number: u64, printer: &mut Printer<'_, K>) -> Result<(), Failed>
    requires { (K.state printer.old.out.now).access ≡ 1 }
    ensures same_reference { printer.new.out.ghost_name ≡ printer.old.out.ghost_name }
    ensures prints { Prints (more_line number) result (printing K.state printer.old) (printing K.state printer.new) }
    ensures faults { CountsFault result (K.state printer.old.out.now).faults (K.state printer.new.out.now).faults }
{
    printer.print(more_text(number).as_bytes())
}

/// The line of how many are left out, or nothing.
fn more_text(number: u64) -> TextBuffer<26>
    ensures { result ≡ more_line number }
{
    let mut line = TextBuffer::new();
    if number > MAX_STATES as u64 {
        line.add(b"more ");
        line.add_number(number - MAX_STATES as u64);
        line.add(b"\n");
    }
    line
}

/// Prints the lines of states, which begin with this word.
fn print_states<K: Sink>(
    word: &[u8],
    states: &[State],
    printer: &mut Printer<'_, K>,
) -> Result<(), Failed>
    requires short { length word.now ≤ 8 }
    requires open { (K.state printer.old.out.now).access ≡ 1 }
    ensures same_reference { printer.new.out.ghost_name ≡ printer.old.out.ghost_name }
    ensures prints { Prints (flat_map (found_line word.now) states.now) result
        (printing K.state printer.old) (printing K.state printer.new) }
    ensures faults { CountsFault result (K.state printer.old.out.now).faults (K.state printer.new.out.now).faults }
{
    for state in states {
        printer.print(line_of(word, state).as_bytes())?;
    }
    Ok(())
}

/// The line of a state, which begins with this word.
fn line_of(word: &[u8], state: &State) -> TextBuffer<168>
    requires { length word.now ≤ 8 }
    ensures { result ≡ found_line word.now state.now }
{
    let mut line = TextBuffer::new();
    add_roots(&mut line, word, &state.roots);
    add_counts(&mut line, state);
    add_latest(&mut line, &state.roots);
    line
}

/// Adds the word and the blocks of the roots.
fn add_roots(line: &mut TextBuffer<168>, word: &[u8], roots: &Roots)
    requires empty { length line.old ≡ 0 }
    requires short { length word.now ≤ 8 }
    ensures bytes { line.new ≡ line.old ++ roots_words word.now roots.now }
    ensures len { length line.new ≤ 49 }
{
    line.add(word);
    line.add_number(roots.top);
    line.add(b" ");
    line.add_number(roots.details);
}

/// Adds how many devices and mappings stand below them.
fn add_counts(line: &mut TextBuffer<168>, state: &State)
    requires { length line.old ≤ 49 }
    ensures bytes { line.new ≡ line.old ++ counts_words state.now }
    ensures len { length line.new ≤ 108 }
{
    line.add(b" devices ");
    line.add_number(state.devices);
    line.add(b" mappings ");
    line.add_number(state.roots.mappings);
}

/// Adds the latest transaction and the latest time below them, and the line feed.
fn add_latest(line: &mut TextBuffer<168>, roots: &Roots)
    requires { length line.old ≤ 108 }
    ensures { line.new ≡ line.old ++ latest_words roots.now }
{
    line.add(b" transaction ");
    line.add_number(roots.transaction);
    line.add(b" time ");
    line.add_number(roots.time as u64);
    line.add(b"\n");
}
