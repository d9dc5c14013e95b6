//! The rows of the writesets, the latest era first (`era_dump`, `era_invalidate`).

ghost use Rattle.std.specs.Prelude.{◌≡◌, ◌^◌, ◌<◌, ◌++◌, ◌∷◌, [], filter, IfErr, IfOk, IfSome, OnOk};
ghost use Rattle.pd_kinds.specs.declared.report.CheckFault.TheVariants.{Memory};
ghost use Rattle.pd_kinds.specs.CheckFault.{CountsCheckFault};
ghost use Rattle.pd_image.specs.Device.{IsAttached, OnlyReads};
ghost use Rattle.pd_meaning_era.specs.Notes.{Knows, AddsSet, HasRows, HasSets, is_set_from, sets_of};
ghost use Rattle.pd_meaning_era.specs.Eras.{era_of_key as era_of_key_of, sets_below};

use crate::descent::add_each;
use crate::notes::{Row, Walk, make_ready};
use pd_image::Device;
use pd_kinds::{CheckFault, EraSuper};
use pd_tree::Cursor;
use pd_value::Writeset;
use std::alloc::Global;

/// The level of a root: at most 63 inner edges lead on from it.
const ROOT_LEVEL: u32 = 64;

/// Adds the rows of a writeset of this era, for the target's blocks.
fn add_rows<D: Device>(
    alloc: Global,
    walk: &mut Walk,
    dev: &mut D,
    set: Writeset,
    era: u32,
    blocks: u32,
) -> Result<(), CheckFault>
    requires attached { IsAttached (D.state dev.old) }
    ensures adds { OnOk result (IfSome (D.state dev.old).held
        (λ image. Knows image walk.old → AddsSet image blocks set era walk.old walk.new)) }
    ensures kept { OnlyReads (D.state dev.old) (D.state dev.new) }
    ensures faults { CountsCheckFault result (D.state dev.old).faults (D.state dev.new).faults }
{
    make_ready(alloc, walk, dev.blocks(), era)?;
    let roots = [set.root];
    let end = set.bits.min(blocks);
    let _next = add_each(alloc, walk, ROOT_LEVEL, &roots, dev, 0, end)?;
    Ok(())
}

/// Adds the rows of these writesets, the last one first.
fn add_from_last<D: Device>(
    alloc: Global,
    walk: &mut Walk,
    dev: &mut D,
    sets: &mut Vec<(u64, Writeset)>,
    blocks: u32,
) -> Result<(), CheckFault>
    requires attached { IsAttached (D.state dev.old) }
    ensures sets { OnOk result (IfSome (D.state dev.old).held (λ image. Knows image walk.old
        → HasSets image blocks sets.old.items walk.old.rows.items walk.new.rows.items)) }
    ensures kept { OnlyReads (D.state dev.old) (D.state dev.new) }
    ensures faults { CountsCheckFault result (D.state dev.old).faults (D.state dev.new).faults }
{
    while let Some((key, set)) = sets.pop() {
        add_rows(alloc, walk, dev, set, era_of_key(key), blocks)?;
    }
    Ok(())
}

/// The current writeset beside its era, behind the others, where there is one of this era or a later one. Want of memory is
/// the only error.
fn add_current(sets: &mut Vec<(u64, Writeset)>, s: &EraSuper, least: u32) -> Result<(), CheckFault>
    ensures added { OnOk result (sets.new.items ≡ sets_of least sets.old.items s.now) }
    ensures era { s.now.era < 2 ^ 32 }
    ensures memory { IfErr result (λ fault. fault ≡ Memory) }
{
    let key = u64::from(s.era);
    if s.current_root == 0 {
        return Ok(());
    }
    if s.era < least {
        return Ok(());
    }
    let set = Writeset {
        bits: s.current_bits,
        root: s.current_root,
    };
    Ok(sets.push((key, set))?)
}

/// The rows of the writesets of the target with this superblock that are of this era or a later one, archived ones and the
/// current one. The trees of others aren't read.
pub(crate) fn rows_of<D: Device>(
    alloc: Global,
    dev: &mut D,
    s: &EraSuper,
    least: u32,
) -> Result<Vec<Row>, CheckFault>
    requires attached { IsAttached (D.state dev.old) }
    ensures rows { IfOk result (λ rows. IfSome (D.state dev.old).held (λ image. HasRows image s.now least rows.items)) }
    ensures kept { OnlyReads (D.state dev.old) (D.state dev.new) }
    ensures faults { CountsCheckFault result (D.state dev.old).faults (D.state dev.new).faults }
{
    let mut sets = sets_since(alloc, dev, s.writesets_root, least)?;
    add_current(&mut sets, s, least)?;
    let mut walk = Walk::start(alloc, dev.blocks())?;
    add_from_last(alloc, &mut walk, dev, &mut sets, s.blocks)?;
    Ok(walk.rows)
}

// The archived writesets, each beside its key (`era_dump`, `era_invalidate`).

/// The era that a key is; one past the end of its type is the last one.
pub(crate) fn era_of_key(key: u64) -> u32
    ensures { result ≡ era_of_key_of key }
{
    key.min(u64::from(u32::MAX)) as u32
}

/// Adds an archived writeset, if it is of this era or a later one. Want of memory is the only error.
fn add_set(
    sets: &mut Vec<(u64, Writeset)>,
    set: (u64, Writeset),
    least: u32,
) -> Result<(), CheckFault>
    ensures added { OnOk result (sets.new.items ≡ sets.old.items ++ filter (is_set_from least) (set ∷ [])) }
    ensures memory { IfErr result (λ fault. fault ≡ Memory) }
{
    let era = era_of_key(set.0);
    if era >= least {
        sets.push(set)?;
    }
    Ok(())
}

/// The archived writesets of this era or a later one of the tree with this root, each beside its key.
pub(crate) fn sets_since<D: Device>(
    alloc: Global,
    dev: &mut D,
    root: u64,
    least: u32,
) -> Result<Vec<(u64, Writeset)>, CheckFault>
    requires attached { IsAttached (D.state dev.old) }
    ensures sets { IfOk result (λ sets. IfSome (D.state dev.old).held
        (λ image. sets.items ≡ filter (is_set_from least) (sets_below image root))) }
    ensures kept { OnlyReads (D.state dev.old) (D.state dev.new) }
    ensures faults { CountsCheckFault result (D.state dev.old).faults (D.state dev.new).faults }
{
    let mut left = Cursor::<Writeset>::start(alloc, root)?;
    let mut sets = Vec::new(alloc);
    while let Some(set) = left.next(dev)? {
        add_set(&mut sets, set, least)?;
    }
    Ok(sets)
}
