//! Numbers as bytes: seven bits in each, the least first, and the eighth bit set where more follow.
//! Serves `thin_repair`, `thin_shrink`.
//! One run as bytes: four numbers that tell it from the run before, of which a single block right behind that one needs two at
//! most (`thin_repair`, `thin_shrink`).

ghost use Rattle.std.specs.Prelude.{◌≡◌, ◌++◌, ◌<◌, ◌^◌, drop, true, OnOk, MatchOption, Some, None};
ghost use Rattle.pd_meaning_thin.specs.Packed.{folded as folded_number, unfolded as unfolded_number, Continues, distance};
ghost use Rattle.pd_meaning_thin.specs.Packed.{is_single as single_test, packed_other, packed_single, other_at, single_at};
ghost use Rattle.pd_meaning_thin.specs.Packed.{number_at, packed_number, packed_run, placed, run_at};

use crate::joined::Run;
use std::alloc::AllocError;

/// The least difference that stands for a step down.
const HALF: u64 = 1 << 63;

/// Puts a number behind the bytes, in one byte to ten. After an error some of its bytes may stand there.
pub(crate) fn pack_number(bytes: &mut Vec<u8>, number: u64) -> Result<(), AllocError>
    ensures packed { OnOk result (bytes.new.items ≡ bytes.old.items ++ packed_number number) }
    ensures kept { Continues bytes.old.items bytes.new.items }
{
    let mut rest = number;
    while rest >= 128 {
        bytes.push((rest % 128 + 128) as u8)?;
        rest /= 128;
    }
    bytes.push(rest as u8)?;
    Ok(())
}

/// The number at a place of the bytes, modulo 2^64, and the place behind it; or `None` where the bytes end within it.
pub(crate) fn unpack_number(bytes: &[u8], at: usize) -> Option<(u64, usize)>
    ensures { MatchOption result (number_at (drop at bytes.now) ≡ None)
        (λ got. number_at (drop at bytes.now) ≡ Some (got.0, drop got.1 bytes.now)) }
{
    let mut value = 0u64;
    let mut scale = 1u64;
    for i in at..bytes.len() {
        let byte = bytes[i];
        value = value.wrapping_add(u64::from(byte % 128).wrapping_mul(scale));
        if byte < 128 {
            return Some((value, i + 1));
        }
        scale = scale.wrapping_mul(128);
    }
    None
}

/// A difference that may be a step down, as a number that is small where the step is: 0, -1, 1, -2 are 0, 1, 2, 3.
#[tactic(auto, unfolding(crate::specs::Packed::folded))]
pub(crate) fn folded(difference: u64) -> u64
    ensures { result ≡ folded_number difference }
{
    if difference < HALF {
        difference * 2
    } else {
        (u64::MAX - difference) * 2 + 1
    }
}

/// The difference that was folded to the number.
#[tactic(auto, unfolding(crate::specs::Packed::unfolded))]
pub(crate) fn unfolded(number: u64) -> u64
    ensures { result ≡ unfolded_number number }
{
    if number % 2 == 0 {
        number / 2
    } else {
        u64::MAX - number / 2
    }
}

/// The change from one time to another, folded.
#[tactic(auto, unfolding(crate::specs::Packed::folded))]
fn change_of(before: u32, time: u32) -> u64
    ensures is { result ≡ folded_number (distance before time) }
    ensures small { result < 2 ^ 63 }
{
    if time >= before {
        u64::from(time - before) * 2
    } else {
        u64::from(before - time) * 2 - 1
    }
}

/// Whether a run is a single block right behind the one before, whose step leaves two bits of a word free.
#[tactic(auto, unfolding(crate::specs::Packed::is_single))]
fn is_single(gap: u64, step: u64, length: u64) -> bool
    ensures is { result ≡ single_test gap step length }
    ensures small { result ≡ true → step < 2 ^ 62 }
{
    let follows = gap == 0;
    let is_one = length == 1;
    let is_small = step < 1 << 62;
    follows & (is_one & is_small)
}

/// Puts a run behind the bytes, in one byte to 35. After an error some of its bytes may stand there.
pub(crate) fn pack_run(bytes: &mut Vec<u8>, before: Run, run: Run) -> Result<(), AllocError>
    ensures packed { OnOk result (bytes.new.items ≡ bytes.old.items ++ packed_run before run) }
    ensures kept { Continues bytes.old.items bytes.new.items }
{
    let virt_end = before.virt.wrapping_add(before.length);
    let target_end = before.target.wrapping_add(before.length);
    let gap = run.virt.wrapping_sub(virt_end);
    let step = folded(run.target.wrapping_sub(target_end));
    let change = change_of(before.time, run.time);
    if is_single(gap, step, run.length) {
        return pack_single(bytes, step, change);
    }
    pack_other(bytes, gap, step, run.length, change)
}

/// Puts a single block right behind the run before.
fn pack_single(bytes: &mut Vec<u8>, step: u64, change: u64) -> Result<(), AllocError>
    requires { step < 2 ^ 62 }
    ensures packed { OnOk result (bytes.new.items ≡ bytes.old.items ++ packed_single step change) }
    ensures kept { Continues bytes.old.items bytes.new.items }
{
    if change == 0 {
        return pack_number(bytes, step * 4 + 1);
    }
    pack_number(bytes, step * 4 + 3)?;
    pack_number(bytes, change)
}

/// Puts any other run.
fn pack_other(
    bytes: &mut Vec<u8>,
    gap: u64,
    step: u64,
    length: u64,
    change: u64,
) -> Result<(), AllocError>
    requires { change < 2 ^ 63 }
    ensures packed { OnOk result (bytes.new.items ≡ bytes.old.items ++ packed_other gap step length change) }
    ensures kept { Continues bytes.old.items bytes.new.items }
{
    pack_number(bytes, change * 2)?;
    pack_number(bytes, gap)?;
    pack_number(bytes, step)?;
    pack_number(bytes, length)
}

/// The run at a place of the bytes, and the place behind it; or `None` where the bytes end within it.
pub(crate) fn unpack_run(bytes: &[u8], at: usize, before: Run) -> Option<(Run, usize)>
    ensures { MatchOption result (run_at before (drop at bytes.now) ≡ None)
        (λ got. run_at before (drop at bytes.now) ≡ Some (got.0, drop got.1 bytes.now)) }
{
    let (first, behind) = unpack_number(bytes, at)?;
    if first % 2 == 1 {
        return unpack_single(bytes, behind, before, first);
    }
    unpack_other(bytes, behind, before, first / 2)
}

/// The single block with this first number, the rest of which stands at the place.
fn unpack_single(bytes: &[u8], at: usize, before: Run, first: u64) -> Option<(Run, usize)>
    ensures { MatchOption result (single_at before first (drop at bytes.now) ≡ None)
        (λ got. single_at before first (drop at bytes.now) ≡ Some (got.0, drop got.1 bytes.now)) }
{
    let step = first / 4;
    if first % 4 == 1 {
        return Some((run_behind(before, 0, step, 1, 0), at));
    }
    let (change, behind) = unpack_number(bytes, at)?;
    Some((run_behind(before, 0, step, 1, change), behind))
}

/// Any other run with this change of the time, the rest of which stands at the place.
fn unpack_other(bytes: &[u8], at: usize, before: Run, change: u64) -> Option<(Run, usize)>
    ensures { MatchOption result (other_at before change (drop at bytes.now) ≡ None)
        (λ got. other_at before change (drop at bytes.now) ≡ Some (got.0, drop got.1 bytes.now)) }
{
    let (gap, after_gap) = unpack_number(bytes, at)?;
    let (step, after_step) = unpack_number(bytes, after_gap)?;
    let (length, behind) = unpack_number(bytes, after_step)?;
    Some((run_behind(before, gap, step, length, change), behind))
}

/// The run that these numbers tell.
#[tactic(auto, unfolding(crate::specs::Packed::placed))]
fn run_behind(before: Run, gap: u64, step: u64, length: u64, change: u64) -> Run
    ensures { result ≡ placed before gap step length change }
{
    let virt_end = before.virt.wrapping_add(before.length);
    let target_end = before.target.wrapping_add(before.length);
    let time = u64::from(before.time).wrapping_add(unfolded(change)) % (1 << 32);
    Run {
        virt: virt_end.wrapping_add(gap),
        target: target_end.wrapping_add(unfolded(step)),
        length,
        time: time as u32,
    }
}
