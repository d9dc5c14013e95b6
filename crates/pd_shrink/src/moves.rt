//! Which data blocks are moved where (`thin_shrink`).

ghost use Rattle.std.specs.Prelude.{◌≡◌, ◌≤◌, length, IfOk, ◌^◌, ◌<◌, ℕ, ◌+◌, ◌*◌, Bool, true, List, Some, map, IfSome, OnOk, is_some};
ghost use Rattle.pd_kinds.specs.Crash.{LeavesNow, LeavesOnly};
ghost use Rattle.pd_kinds.specs.Objects.{CountsFault};
ghost use Rattle.pd_answers.specs.Shrinks.{moves_to, moved_to, copy_of_move, data_after};
ghost use Rattle.pd_answers.specs.Writebacks.{stands_for};
ghost use Rattle.pd_image.specs.Device.{IsWritable, KeepsPlace};
ghost use Rattle.pd_writeback.specs.Copied.{IsCopied, IsLeftAsBut};
ghost use Rattle.pd_shrink.specs.Moves.{moves_in, AreMovesFrom, AreApart, IsLeftKept, move_in};

use pd_image::{Device, Failed};
use pd_kinds::Block;
use std::alloc::{AllocError, Global};

/// A data block that is moved to another.
#[derive(Clone, Copy, Debug, PartialEq, Eq)]
pub struct MovedBlock {
    /// The data block, past the pool's new end.
    pub source: u64,
    /// The free data block that it is moved to.
    pub target: u64,
}

/// The first source to the first free block, the second to the second, and so on.
pub fn pair_up(alloc: Global, sources: &[u64], free: &[u64]) -> Result<Vec<MovedBlock>, AllocError>
    requires { length sources.now ≤ length free.now }
    ensures { IfOk result (λ moves. moves_in moves.items ≡ moves_to sources.now free.now) }
{
    let mut moves = Vec::new(alloc);
    for i in 0..sources.len() {
        moves.push(MovedBlock {
            source: sources[i],
            target: free[i],
        })?;
    }
    Ok(moves)
}

// Where a data block is after the moves (`thin_shrink`).

/// Where a data block is after the moves. `next` tells where to look first, and then where the next block may be.
pub(crate) fn place_of(moves: &[MovedBlock], next: &mut usize, block: u64) -> u64
    requires ordered { AreMovesFrom (2 ^ 40) 0 (moves_in moves.now) }
    requires small { block < 2 ^ 40 }
    ensures place { result ≡ moved_to (moves_in moves.now) block }
    ensures small { result < 2 ^ 40 }
{
    if *next < moves.len() {
        let one = moves[*next];
        if one.source == block {
            *next += 1;
            return one.target;
        }
    }
    match moves.binary_search_by_key(&block, |one| one.source) {
        Ok(at) => {
            *next = at + 1;
            moves[at].target
        }
        Err(_) => block,
    }
}

// The copying of data blocks to their new places (`thin_shrink`).

/// Copies moved data blocks, of so many blocks of 4096 bytes each, to their new places, in this order. Nothing is synced.
///
/// It takes no memory, and seeks only where the next block isn't the next one.
pub fn copy_moved<C: Device>(moves: &[MovedBlock], each: u64, pool: &mut C) -> Result<(), Failed>
    requires writable { IsWritable (C.state pool.old) }
    // No target is a source, none comes twice, and all are on the device.
    requires apart { AreApart each (C.state pool.old).blocks moves.now }
    ensures copied { OnOk result (IfSome (C.state pool.old).held
        (λ held. (C.state pool.new).held ≡ Some (data_after each (moves_in moves.now) held))) }

    // Whatever else a crash leaves, only the targets differ.
    ensures crash { (base : List (List ℕ)) → LeavesNow (IsLeftKept each (map copy_of_move (moves_in moves.now)) base) (C.state pool.old)
        → LeavesOnly (IsLeftKept each (map copy_of_move (moves_in moves.now)) base) (C.state pool.old) (C.state pool.new) }
    ensures told { is_some (C.state pool.new).held ≡ is_some (C.state pool.old).held }
    ensures place { KeepsPlace (C.state pool.old) (C.state pool.new) }
    ensures faults { CountsFault result (C.state pool.old).faults (C.state pool.new).faults }
{
    let mut block = Block::zeros();
    for one in moves {
        copy_one(one, each, pool, &mut block)?;
    }
    Ok(())
}

/// Copies a moved data block to its new place, by way of this block.
fn copy_one<C: Device>(
    one: &MovedBlock,
    each: u64,
    pool: &mut C,
    block: &mut Block,
) -> Result<(), Failed>
    requires writable { IsWritable (C.state pool.old) }
    requires apart { (one.now.target + 1) * each ≤ one.now.source * each }
    requires inside { (one.now.source + 1) * each ≤ (C.state pool.old).blocks }
    ensures copied { OnOk result (IfSome (C.state pool.old).held (λ held. IfSome (C.state pool.new).held
        (IsCopied (one.now.source * each) (one.now.target * each) each held held))) }
    ensures crash { (may_differ : ℕ → Bool) (base : List (List ℕ))
        → ((b : ℕ) → stands_for each (copy_of_move (move_in one.now)) b ≡ true → may_differ b ≡ true)
        → LeavesNow (IsLeftAsBut may_differ base) (C.state pool.old)
        → LeavesOnly (IsLeftAsBut may_differ base) (C.state pool.old) (C.state pool.new) }
    ensures told { is_some (C.state pool.new).held ≡ is_some (C.state pool.old).held }
    ensures place { KeepsPlace (C.state pool.old) (C.state pool.new) }
    ensures faults { CountsFault result (C.state pool.old).faults (C.state pool.new).faults }
{
    // A device has at most 2^64 - 1 blocks, so each number of a block fits.
    let _blocks = pool.blocks();
    let from = one.source * each;
    let to = one.target * each;
    for i in 0..each {
        copy_block(from + i, to + i, pool, block)?;
    }
    Ok(())
}

/// Copies one block of 4096 bytes, by way of this one.
fn copy_block<C: Device>(from: u64, to: u64, pool: &mut C, block: &mut Block) -> Result<(), Failed>
    requires writable { IsWritable (C.state pool.old) }
    requires from { from < (C.state pool.old).blocks }
    requires to { to < (C.state pool.old).blocks }
    ensures copied { OnOk result (IfSome (C.state pool.old).held (λ held. IfSome (C.state pool.new).held (IsCopied from to 1 held held))) }
    ensures crash { (may_differ : ℕ → Bool) (base : List (List ℕ)) → may_differ to ≡ true
        → LeavesNow (IsLeftAsBut may_differ base) (C.state pool.old)
        → LeavesOnly (IsLeftAsBut may_differ base) (C.state pool.old) (C.state pool.new) }
    ensures told { is_some (C.state pool.new).held ≡ is_some (C.state pool.old).held }
    ensures place { KeepsPlace (C.state pool.old) (C.state pool.new) }
    ensures faults { CountsFault result (C.state pool.old).faults (C.state pool.new).faults }
{
    pool.read(from, block)?;
    pool.write(to, block)
}
