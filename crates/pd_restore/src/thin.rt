//! A pool that is restored from its text (`thin_restore`).

ghost use Rattle.std.specs.Prelude.{◌≡◌, ℕ, List, IfOk, IfErr, ◌≤◌, ◌^◌, [], IfNone, IfSome, MatchResult};
ghost use Rattle.pd_grammar.specs.ThinText.{pool_format, pool_line};
ghost use Rattle.pd_laid.specs.LaidThin.{laid_shape};
ghost use Rattle.pd_laid.specs.PoolText.{IsLawfulShape, IsPoolTextVerdict, is_pool_text_early, pool_need_so_far};
ghost use Rattle.pd_image.specs.Device.{IsWritable, KeepsPlace};
ghost use Rattle.pd_image.specs.Source.{KeepsSource};
ghost use Rattle.pd_draft.specs.Closed.{IsClosed, StaysClosed};
ghost use Rattle.pd_draft.specs.DraftState.{draft_state};
ghost use Rattle.pd_texts.specs.Reader.{LeavesOf, ReadsOn};
ghost use Rattle.pd_texts.specs.ThinLine.{thin_meant};
ghost use Rattle.pd_texts.specs.ThinState.{ThinStands};
ghost use Rattle.pd_restoring.specs.Reading.{IsOfLater, SaysOf, BeginsOf, CountsBegin};
ghost use Rattle.pd_restoring.specs.Restored.{CountsRestore, IsRestored, Writes};
ghost use Rattle.pd_restore.specs.Pools.{pools, IsOfPool};
ghost use Rattle.pd_restore.specs.Whole.{HasBegun, begun_lines, head_of_pool};

use crate::gathering::Gathering;
use crate::lines::write_saved;
use crate::pool::write_pool;
use crate::saved_lines::SavedLines;
use crate::shape_lines::ShapeLines;
use crate::shared::SharedLines;
use pd_devices::{Devices, need_thin};
use pd_draft::Draft;
use pd_grammar::TextCause;
use pd_image::{Device, Source};
use pd_kinds::Block;
use pd_restoring::{RestoreFault, Restoring, restore};
use pd_salvage::SavedHead;
use pd_texts::{TextFault, ThinLine, ThinText};
use std::alloc::Global;

/// Restores a pool from its text, of either version, onto a device: the leaves that a text of version 2 tells once are laid
/// once, and shared as it says.
///
/// The device isn't written before the first two lines were accepted and have room. A line's own refusal comes before
/// the want of room after it. Of the blocks of the device 4161600 at most are used.
pub fn restore_thin<S: Source, D: Device>(
    alloc: Global,
    source: &mut S,
    dev: &mut D,
) -> Result<(), RestoreFault>
    requires attached { (S.state source.old).access ≡ 1 }
    requires writable { IsWritable (D.state dev.old) }
    ensures restored { IsRestored IsLawfulShape IsPoolTextVerdict is_pool_text_early laid_shape result
        (S.state source.old) (S.state source.new) (D.state dev.old) (D.state dev.new) }
    ensures place { KeepsPlace (D.state dev.old) (D.state dev.new) }
    ensures source { KeepsSource (S.state source.old) (S.state source.new) }
    ensures causes { CountsRestore result (S.state source.old).faults
        (S.state source.new).faults (D.state dev.old).faults (D.state dev.new).faults }
{
    restore(&Pools, alloc, source, dev)
}

/// Pools.
#[derive(Clone, Copy, Debug, PartialEq, Eq)]
pub(crate) struct Pools;

impl Restoring for Pools {
    ghost use Rattle.pd_laid.specs.Shape.{ThinShape};
    ghost use Rattle.pd_grammar.specs.ThinText.{Line};
    ghost use Rattle.pd_restore.specs.Pools.{pools, lines_of_begun, PoolStands, PoolLeaves, pool_verdicts, pool_goes_on};

    type Begun = Begun;

    ghost Line = { Line };

    ghost Meaning = { ThinShape };

    ghost subject = { λ kind. pools };

    ghost lines = { lines_of_begun };

    ghost Stands = { PoolStands };

    ghost Leaves = { PoolLeaves };

    ghost verdicts = { λ kind. pool_verdicts };

    ghost goes_on = { λ kind. pool_goes_on };

    fn begin<S: Source>(&self, alloc: Global, source: &mut S) -> Result<Begun, RestoreFault> {
        let mut text = ThinText::new(alloc)?;
        let pool = read_pool(&mut text, source)?;
        Ok(Begun {
            pool,
            rest: Rest::Text(text),
        })
    }

    fn need(&self, begun: &Begun, room: u64) -> u64 {
        need_thin(&[], begun.pool.blocks, 0, room)
    }

    fn write<S: Source, D: Device>(
        &self,
        alloc: Global,
        begun: Begun,
        source: &mut S,
        draft: &mut Draft<'_, D>,
        room: u64,
    ) -> Result<Block, RestoreFault> {
        let Begun { pool, rest } = begun;
        match rest {
            Rest::Text(mut text) => {
                if text.version() == 2 {
                    write_text::<S, D, SharedLines>(alloc, &mut text, source, draft, &pool, room)
                } else {
                    write_text::<S, D, Devices>(alloc, &mut text, source, draft, &pool, room)
                }
            }
            Rest::Saved(mut lines) => {
                write_saved::<D, SavedLines, Devices>(alloc, &mut lines, draft, &pool, room)
            }
            Rest::Shape(mut lines) => {
                write_saved::<D, ShapeLines, SharedLines>(alloc, &mut lines, draft, &pool, room)
            }
        }
    }
}

/// Restores the lines of a text after the pool line, by what gathers those of its version.
fn write_text<S: Source, D: Device, G: Gathering>(
    alloc: Global,
    text: &mut ThinText,
    source: &mut S,
    draft: &mut Draft<'_, D>,
    pool: &SavedHead,
    room: u64,
) -> Result<Block, RestoreFault>
    requires attached { (S.state source.old).access ≡ 1 }
    requires begun { HasBegun G.shared text.old pool.now room (draft_state draft.old) }
    requires writable { IsWritable (draft_state draft.old).device }
    requires closed { IsClosed (draft_state draft.old).device }
    ensures same_reference { draft.new.dev.ghost_name ≡ draft.old.dev.ghost_name }
    ensures writes { IfOk result (Writes pools room (λ t. LeavesOf pool_format t (begun_lines text.old pool.now) text.old
        (S.state source.old).left) (S.state source.new).left (draft_state draft.old) (draft_state draft.new)) }
    ensures says { (t : List ℕ) → LeavesOf pool_format t (begun_lines text.old pool.now) text.old (S.state source.old).left
        → IfErr result (SaysOf pool_format pool_need_so_far room t) }
    ensures later { IfErr result IsOfLater }
    ensures source { KeepsSource (S.state source.old) (S.state source.new) }
    ensures closed { StaysClosed (draft_state draft.old).device (draft_state draft.new).device }
    ensures faults { CountsRestore result (S.state source.old).faults (S.state source.new).faults
        (draft_state draft.old).device.faults (draft_state draft.new).device.faults }
{
    let mut gathered = G::start(alloc, pool.blocks, room)?;
    write_pool(alloc, text, source, draft, &mut gathered, pool, room)
}

// The first two lines of a pool's text (`thin_restore`).

/// A pool whose own line is known, and what gives the lines after it.
#[derive(Drop)]
pub(crate) struct Begun {
    pub(crate) pool: SavedHead,
    pub(crate) rest: Rest,
}

/// What gives the lines after a pool's own.
#[derive(Drop)]
pub(crate) enum Rest {
    /// A text whose first two lines were read.
    Text(ThinText),
    /// A pool that is held in memory.
    Saved(SavedLines),
    /// The shape of a pool that is held in memory.
    Shape(ShapeLines),
}

/// Reads the first line and the pool line.
pub(crate) fn read_pool<S: Source>(
    text: &mut ThinText,
    source: &mut S,
) -> Result<SavedHead, RestoreFault>
    requires attached { (S.state source.old).access ≡ 1 }
    requires start { ReadsOn pool_format ThinStands [] text.old }
    ensures reads { IfOk result (λ pool. ReadsOn pool_format ThinStands (begun_lines text.new pool) text.new) }
    ensures small { IfOk result (λ pool. pool.blocks ≤ 2 ^ 40) }
    ensures told { (t : List ℕ) → LeavesOf pool_format t [] text.old (S.state source.old).left
        → MatchResult result (λ pool. LeavesOf pool_format t (begun_lines text.new pool) text.new (S.state source.new).left)
        (λ fault. (room : ℕ) → BeginsOf pool_format pool_need_so_far room t fault) }
    ensures source { KeepsSource (S.state source.old) (S.state source.new) }
    ensures faults { CountsBegin result (S.state source.old).faults (S.state source.new).faults }
{
    let line = text.next(source)?;
    match pool_of(line) {
        Some(pool) => Ok(pool),
        None => Err(RestoreFault::Text(TextFault {
            line: 2,
            cause: TextCause::Word,
        })),
    }
}

/// The pool that a line says; none where it is no pool's.
fn pool_of(line: Option<ThinLine>) -> Option<SavedHead>
    ensures pool { IfSome result (λ pool. thin_meant line ≡ pool_line (head_of_pool pool)) }
    ensures other { IfNone result (IsOfPool line → ⊥) }
{
    match line {
        Some(
            ThinLine::Pool {
                uuid,
                time,
                transaction,
                block_size,
                blocks,
            },
        ) => Some(SavedHead {
            uuid,
            time,
            transaction,
            block_size,
            blocks,
        }),
        _ => None,
    }
}
