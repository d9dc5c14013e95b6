//! The way from the root of a writeset to its array blocks, each of which gets a row, and each block is read once.
//! Serves `era_dump`, `era_invalidate`.

ghost use Rattle.std.specs.Prelude.{◌≡◌, ℕ, ◌*◌, ◌<◌, List, false, true, IfErr, IfOk, IfSome};
ghost use Rattle.pd_kinds.specs.declared.report.CheckFault.TheVariants.{Memory};
ghost use Rattle.pd_kinds.specs.CheckFault.{CountsCheckFault};
ghost use Rattle.pd_kinds.specs.Graph.{block_at};
ghost use Rattle.pd_kinds.specs.Node.{is_inner_node};
ghost use Rattle.pd_image.specs.Device.{IsAttached, OnlyReads};
ghost use Rattle.pd_tree.specs.Below.{kids_from};
ghost use Rattle.pd_meaning_era.specs.declared.notes.Walk.{Walk as TheWalk};
ghost use Rattle.pd_meaning_era.specs.Notes.{Knows, Goes, IsLower, IsOpened, arrays_of, words_at, words_at_each};

use crate::notes::{Row, Walk};
use pd_array::{Word, array_len};
use pd_image::Device;
use pd_kinds::{Block, CheckFault};
use pd_node::{child, entries, is_inner, value};
use pd_value::Root;
use std::alloc::Global;

/// What comes of a block.
#[derive(Drop)]
pub(crate) enum Opened {
    /// All that is below it has rows, and the next word has this number.
    Done(u32),
    /// It is a node above these blocks, which are on this level.
    Below(u32, Vec<u64>),
}

/// The blocks that an inner node names. Want of memory is the only error.
#[tactic(auto, unfolding(pd_tree::specs::Below::kids_from))]
fn children(alloc: Global, block: &Block) -> Result<Vec<u64>, CheckFault>
    requires { is_inner_node block.now.0 ≡ true }
    ensures children { IfOk result (λ children. children.items ≡ kids_from 8 block.now.0 0) }
    ensures memory { IfErr result (λ fault. fault ≡ Memory) }
{
    let mut children = Vec::new(alloc);
    for i in 0..entries::<Root>(block) {
        children.push(child::<Root>(block, i))?;
    }
    Ok(children)
}

/// The array blocks that a leaf names. Want of memory is the only error.
fn arrays(alloc: Global, block: &Block) -> Result<Vec<u64>, CheckFault>
    requires { is_inner_node block.now.0 ≡ false }
    ensures arrays { IfOk result (λ arrays. arrays.items ≡ arrays_of block.now.0) }
    ensures memory { IfErr result (λ fault. fault ≡ Memory) }
{
    let mut arrays = Vec::new(alloc);
    for i in 0..entries::<Root>(block) {
        let root = value::<Root>(block, i);
        arrays.push(root.0)?;
    }
    Ok(arrays)
}

/// What is below a node: array blocks, or nodes where an edge may lead on. Want of memory is the only error.
fn below(alloc: Global, level: u32, block: &Block) -> Result<Opened, CheckFault>
    requires node { 0 < level }
    ensures opened { IfOk result (λ opened. (image : List (List ℕ)) (b at end : ℕ) (walk : TheWalk)
        → block_at image b ≡ block.now.0 → IsOpened image level b at end opened walk walk) }
    ensures lower { IfOk result (IsLower level) }
    ensures memory { IfErr result (λ fault. fault ≡ Memory) }
{
    if !is_inner(block) {
        return Ok(Opened::Below(0, arrays(alloc, block)?));
    }
    if level == 1 {
        return Ok(Opened::Below(0, Vec::new(alloc)));
    }
    Ok(Opened::Below(level - 1, children(alloc, block)?))
}

/// Adds the row of array block b, whose first word has this number, and notes it: the number of the next word. Want of
/// memory is the only error.
fn add_array(walk: &mut Walk, b: u64, block: &Block, at: u32, end: u32) -> Result<u32, CheckFault>
    requires at { 64 * at < end }
    ensures goes { IfOk result (λ next. (image : List (List ℕ)) → block_at image b ≡ block.now.0
        → Knows image walk.old → Goes image end at (words_at image 0 b) next walk.old walk.new) }
    ensures memory { IfErr result (λ fault. fault ≡ Memory) }
{
    let row = Row {
        block: b,
        first: at,
        end,
        era: walk.era,
    };
    walk.rows.push(row)?;
    let next = at + array_len(block, Word::Eight) as u32;
    walk.note(b, 0, at, next, end);
    Ok(next)
}

/// Takes what a block has that was read. Want of memory is the only error.
fn take_block(
    alloc: Global,
    walk: &mut Walk,
    level: u32,
    b: u64,
    block: &Block,
    at: u32,
    end: u32,
) -> Result<Opened, CheckFault>
    requires at { 64 * at < end }
    ensures opened { IfOk result (λ opened. (image : List (List ℕ)) → block_at image b ≡ block.now.0
        → Knows image walk.old → IsOpened image level b at end opened walk.old walk.new) }
    ensures lower { IfOk result (IsLower level) }
    ensures memory { IfErr result (λ fault. fault ≡ Memory) }
{
    if level == 0 {
        let next = add_array(walk, b, block, at, end)?;
        return Ok(Opened::Done(next));
    }
    below(alloc, level, block)
}

/// Reads a block of which too little is known, if it is on the device, and takes what it has.
fn read_block<D: Device>(
    alloc: Global,
    walk: &mut Walk,
    level: u32,
    b: u64,
    dev: &mut D,
    at: u32,
    end: u32,
) -> Result<Opened, CheckFault>
    requires attached { IsAttached (D.state dev.old) }
    requires at { 64 * at < end }
    ensures opened { IfOk result (λ opened. IfSome (D.state dev.old).held
        (λ image. Knows image walk.old → IsOpened image level b at end opened walk.old walk.new)) }
    ensures lower { IfOk result (IsLower level) }
    ensures kept { OnlyReads (D.state dev.old) (D.state dev.new) }
    ensures faults { CountsCheckFault result (D.state dev.old).faults (D.state dev.new).faults }
{
    if b >= dev.blocks() {
        return Ok(Opened::Done(at));
    }
    let mut block = Block::zeros();
    dev.read(b, &mut block)?;
    take_block(alloc, walk, level, b, &block, at, end)
}

/// Takes what is known of a block, or reads it. Where no further block of the target counts, it is passed.
fn open<D: Device>(
    alloc: Global,
    walk: &mut Walk,
    level: u32,
    b: u64,
    dev: &mut D,
    at: u32,
    end: u32,
) -> Result<Opened, CheckFault>
    requires attached { IsAttached (D.state dev.old) }
    ensures opened { IfOk result (λ opened. IfSome (D.state dev.old).held
        (λ image. Knows image walk.old → IsOpened image level b at end opened walk.old walk.new)) }
    ensures lower { IfOk result (IsLower level) }
    ensures kept { OnlyReads (D.state dev.old) (D.state dev.new) }
    ensures faults { CountsCheckFault result (D.state dev.old).faults (D.state dev.new).faults }
{
    if u64::from(end) <= 64 * u64::from(at) {
        return Ok(Opened::Done(at));
    }
    if let Some(next) = walk.next_after(b, level, at, end) {
        return Ok(Opened::Done(next));
    }
    read_block(alloc, walk, level, b, dev, at, end)
}

/// Adds the rows that stand below each of these blocks of a level, in the order of their words, for the blocks of the
/// target before the end: the number of the next word.
pub(crate) fn add_each<D: Device>(
    alloc: Global,
    walk: &mut Walk,
    level: u32,
    blocks: &[u64],
    dev: &mut D,
    at: u32,
    end: u32,
) -> Result<u32, CheckFault>
    requires attached { IsAttached (D.state dev.old) }
    ensures goes { IfOk result (λ next. IfSome (D.state dev.old).held (λ image. Knows image walk.old
        → Goes image end at (words_at_each image level blocks.now) next walk.old walk.new)) }
    ensures kept { OnlyReads (D.state dev.old) (D.state dev.new) }
    ensures faults { CountsCheckFault result (D.state dev.old).faults (D.state dev.new).faults }
{
    let mut next = at;
    for b in blocks {
        next = match open(alloc, walk, level, *b, dev, next, end)? {
            Opened::Done(after) => after,
            Opened::Below(lower, below) => {
                let after = add_each(alloc, walk, lower, below.as_slice(), dev, next, end)?;
                walk.note(*b, level, next, after, end);
                after
            }
        };
    }
    Ok(next)
}
