//! The stack, taken before the tools begin.
//!
//! It grows as it is used. Where the address space is limited and the heap has taken the rest, it can't, and a signal ends
//! the program. What was used once stays.

use std::alloc::AllocError;

/// How many bytes the tools take of the stack at most, and some more.
const STACK_BYTES: usize = 13 << 17;

/// Takes the stack, where there is room for it. It is filled with a number that no compiler knows, that of the words, so
/// none leaves the filling out.
pub(crate) fn take_stack(rt: &HostRuntime, words: usize) -> Result<(), AllocError> {
    // It is given back at once, and so it is there for the stack.
    let room: Vec<u8> = Vec::with_capacity(rt.alloc(), STACK_BYTES)?;
    drop(room);
    let filler = (words % 256) as u8;
    if fill_stack(filler) == filler {
        Ok(())
    } else {
        Err(AllocError)
    }
}

/// Fills so much of the stack, and reads a byte of it.
#[inline(never)]
fn fill_stack(filler: u8) -> u8 {
    let room = [filler; STACK_BYTES];
    room[filler as usize]
}
