//! The first two lines of an era target's text (`era_restore`).
//! An era target as a kind of metadata that is restored (`era_restore`).
//! The restore of an era target (`era_restore`).

ghost use Rattle.std.specs.Prelude.{◌≡◌, ℕ, List, [], IfNone, IfOk, IfSome, MatchResult};
ghost use Rattle.pd_grammar.specs.EraText.{era_line, era, era_need_so_far, IsEraVerdict};
ghost use Rattle.pd_grammar.specs.Early.{is_era_early};
ghost use Rattle.pd_grammar.specs.Lawful.{IsLawfulEra};
ghost use Rattle.pd_laid.specs.LaidEra.{laid_era};
ghost use Rattle.pd_image.specs.Source.{KeepsSource};
ghost use Rattle.pd_image.specs.Device.{IsWritable, KeepsPlace};
ghost use Rattle.pd_texts.specs.Reader.{LeavesOf, ReadsOn};
ghost use Rattle.pd_texts_kinds.specs.EraLine.{era_meant, EraStands};
ghost use Rattle.pd_restoring.specs.Reading.{BeginsOf, CountsBegin};
ghost use Rattle.pd_restoring.specs.Restored.{CountsRestore, IsRestored};
ghost use Rattle.pd_restore_kinds.specs.EraRoots.{IsOfTarget, begun_lines, head_of_target};

use crate::target::{need_era, write_target};
use pd_draft::Draft;
use pd_grammar::TextCause;
use pd_image::{Device, Source};
use pd_kinds::Block;
use pd_restoring::{RestoreFault, Restoring, restore};
use pd_texts::TextFault;
use pd_texts_kinds::{EraLine, EraText};
use std::alloc::Global;

/// The era line of a text.
#[derive(Clone, Copy, Debug, PartialEq, Eq)]
pub(crate) struct Target {
    pub(crate) uuid: [u8; 16],
    pub(crate) block_size: u32,
    pub(crate) blocks: u32,
    pub(crate) era: u32,
}

/// Reads the first line and the era line.
pub(crate) fn read_target<S: Source>(
    text: &mut EraText,
    source: &mut S,
) -> Result<Target, RestoreFault>
    requires attached { (S.state source.old).access ≡ 1 }
    requires start { ReadsOn era EraStands [] text.old }
    ensures reads { IfOk result (λ target. ReadsOn era EraStands (begun_lines target) text.new) }
    ensures told { (t : List ℕ) → LeavesOf era t [] text.old (S.state source.old).left
        → MatchResult result (λ target. LeavesOf era t (begun_lines target) text.new (S.state source.new).left)
        (λ fault. (room : ℕ) → BeginsOf era era_need_so_far room t fault) }
    ensures source { KeepsSource (S.state source.old) (S.state source.new) }
    ensures faults { CountsBegin result (S.state source.old).faults (S.state source.new).faults }
{
    let line = text.next(source)?;
    match target_of(line) {
        Some(target) => Ok(target),
        None => Err(RestoreFault::Text(TextFault {
            line: 2,
            cause: TextCause::Word,
        })),
    }
}

/// The target that a line says; none where it is no target's.
fn target_of(line: Option<EraLine>) -> Option<Target>
    ensures target { IfSome result (λ target. era_meant line ≡ era_line (head_of_target target)) }
    ensures other { IfNone result (IsOfTarget line → ⊥) }
{
    match line {
        Some(
            EraLine::Era {
                uuid,
                block_size,
                blocks,
                era,
            },
        ) => Some(Target {
            uuid,
            block_size,
            blocks,
            era,
        }),
        Some(EraLine::Run { .. }) | None => None,
    }
}

/// Era targets.
#[derive(Clone, Copy, Debug, PartialEq, Eq)]
pub struct EraTarget;

/// The text of an era target whose first two lines were read.
#[derive(Drop)]
pub struct EraBegun {
    text: EraText,
    target: Target,
}

impl Restoring for EraTarget {
    ghost use Rattle.pd_kinds.specs.Meaning.{EraMeaning};
    ghost use Rattle.pd_grammar.proofs.SpellingLemmas.{some_verdict};
    ghost use Rattle.pd_grammar.specs.EraText.{era_need_so_far};
    ghost use Rattle.pd_grammar.specs.EraText.{Line, MeansEra, era, era_line, first_line};
    ghost use Rattle.pd_grammar.proofs.EraLaws.{era_language};
    ghost use Rattle.pd_grammar.proofs.EraRead.{FitsLine, Placed};
    ghost use Rattle.pd_texts.specs.Reader.{LeavesOf, ReadsOn};
    ghost use Rattle.pd_texts_kinds.specs.EraLine.{EraStands};
    ghost use Rattle.pd_restoring.proofs.BeginLemmas.{begins_with};
    ghost use Rattle.pd_restore_kinds.specs.EraRoots.{begun_lines, head_of_target};
    ghost use Rattle.pd_restore_kinds.specs.EraRoots.{era_targets};

    type Begun = EraBegun;

    ghost Line = { Line };

    ghost Meaning = { EraMeaning };

    ghost subject = { λ kind. era_targets };

    ghost lines = { λ begun. begun_lines begun.target };

    ghost Stands = { λ begun. ReadsOn era EraStands (begun_lines begun.target) begun.text };

    ghost Leaves = { λ text begun left. LeavesOf era text (begun_lines begun.target) begun.text left };

    ghost verdicts = { λ kind text room. some_verdict era MeansEra FitsLine Placed era_language (era_need_so_far room) text room };

    ghost goes_on = { λ kind text begun left leaves. begins_with era first_line
        (era_line (head_of_target begun.target)) text begun.text left leaves };

    fn begin<S: Source>(&self, alloc: Global, source: &mut S) -> Result<EraBegun, RestoreFault> {
        let mut text = EraText::new(alloc)?;
        let target = read_target(&mut text, source)?;
        Ok(EraBegun { text, target })
    }

    fn need(&self, begun: &EraBegun, room: u64) -> u64 {
        need_era(begun.target.blocks, room)
    }

    fn write<S: Source, D: Device>(
        &self,
        alloc: Global,
        begun: EraBegun,
        source: &mut S,
        draft: &mut Draft<'_, D>,
        room: u64,
    ) -> Result<Block, RestoreFault> {
        let EraBegun { mut text, target } = begun;
        write_target(alloc, &mut text, source, draft, &target, room)
    }
}

/// Restores an era target from its text onto a device.
///
/// The device isn't written before the first two lines were accepted and have room: the later lines need no more. Of
/// the blocks of the device 4161600 at most are used.
pub fn restore_era<S: Source, D: Device>(
    alloc: Global,
    source: &mut S,
    dev: &mut D,
) -> Result<(), RestoreFault>
    requires attached { (S.state source.old).access ≡ 1 }
    requires writable { IsWritable (D.state dev.old) }
    ensures restored { IsRestored IsLawfulEra IsEraVerdict is_era_early laid_era result
        (S.state source.old) (S.state source.new) (D.state dev.old) (D.state dev.new) }
    ensures place { KeepsPlace (D.state dev.old) (D.state dev.new) }
    ensures source { KeepsSource (S.state source.old) (S.state source.new) }
    ensures causes { CountsRestore result (S.state source.old).faults
        (S.state source.new).faults (D.state dev.old).faults (D.state dev.new).faults }
{
    restore(&EraTarget, alloc, source, dev)
}
