//! What the lines so far of an era target's text say of the next one (`era_restore`).

ghost use Rattle.std.specs.Prelude.{◌≡◌, ◌≤◌, List, ◌∷◌, length, IfOk};
ghost use Rattle.pd_grammar.specs.Texts.{tested};
ghost use Rattle.pd_grammar.specs.EraText.{Line, era_kind, run_kind, end_kind, era_tests};
ghost use Rattle.pd_texts.specs.Words.{seen_by, made_of};
ghost use Rattle.pd_texts_kinds.specs.EraLine.{era_meant};

use crate::era_lines::EraLine;
use pd_grammar::{Field, TextCause};
use pd_texts::{Names, Numbers, Stage, TextLines, TextReader, TextState};
use std::alloc::{AllocError, Global};

/// The text of an era target, read line by line.
pub type EraText = TextReader<EraState>;

/// The kinds of lines after the first one.
#[derive(Clone, Copy)]
pub enum EraKind {
    Era,
    Run,
    End,
}

/// What the lines so far of an era target's text say of the next one.
#[derive(Drop)]
pub struct EraState {
    stage: Stage,
    /// The number of blocks.
    blocks: u32,
    /// The end of the last run.
    run_end: u64,
}

impl TextLines for EraState {
    type Line = EraLine;
}

impl TextState for EraState {
    ghost use Rattle.std.specs.Prelude.{refl};
    ghost use Rattle.pd_grammar.specs.EraText.{Line, first_line, era_table, era};
    ghost use Rattle.pd_texts_kinds.specs.EraLine.{kind_meant};
    ghost use Rattle.pd_texts_kinds.specs.EraLine.{era_meant};
    ghost use Rattle.pd_texts_kinds.specs.EraLine.{EraStands};
    ghost use Rattle.pd_texts_kinds.specs.EraLine.{era_header, era_ends};

    type Kind = EraKind;

    ghost Meant = { Line };

    ghost format = { era };

    ghost table = { era_table };

    ghost by_table = { refl };

    ghost kind_meant = { kind_meant };

    ghost first_line = { λ _. first_line };

    ghost meant = { era_meant };

    ghost Stands = { EraStands };

    fn start(_alloc: Global) -> EraState {
        EraState {
            stage: Stage::First,
            blocks: 0,
            run_end: 0,
        }
    }

    fn is_first(&self) -> bool {
        match self.stage {
            Stage::First => true,
            Stage::Second | Stage::Body => false,
        }
    }

    ghost CanWantMemory = { λ _. ⊥ };

    ghost HasRoom = { λ _. Unit {0} };

    fn read_first(&mut self, text: &[u8]) -> bool {
        self.stage = Stage::Second;
        text == b"era 1".as_slice()
    }

    fn take_memory(&mut self) -> Result<(), AllocError> {
        Ok(())
    }

    #[tactic(auto, unfolding(pd_grammar::specs::Tables::kind_named))]
    fn named(word: &[u8]) -> Option<EraKind> {
        if word == b"run".as_slice() {
            Some(EraKind::Run)
        } else if word == b"era".as_slice() {
            Some(EraKind::Era)
        } else if word == b"end".as_slice() {
            Some(EraKind::End)
        } else {
            None
        }
    }

    fn fields(kind: EraKind) -> &'static [Field] {
        match kind {
            EraKind::Era => &[Field::Uuid, Field::Number, Field::Number, Field::Number],
            EraKind::Run => &[Field::Number; 3],
            EraKind::End => &[],
        }
    }

    #[tactic(auto, using(pd_texts::proofs::StateLemmas::second_stage, pd_texts::proofs::StateLemmas::body_stage))]
    fn may_stand(&self, kind: EraKind) -> bool {
        match kind {
            EraKind::Era => self.stage.is_second(),
            EraKind::Run | EraKind::End => self.stage.is_body(),
        }
    }

    fn take(
        &mut self,
        kind: EraKind,
        names: &Names,
        numbers: &Numbers,
    ) -> Result<Option<EraLine>, TextCause> {
        match kind {
            EraKind::Run => self.take_run(names, numbers),
            EraKind::Era => self.take_era(names, numbers),
            EraKind::End => self.take_end(names, numbers),
        }
    }

    ghost header = { era_header };

    ghost begins = { λ _. refl };

    ghost ends = { era_ends };
}

impl EraState {
    ghost use Rattle.pd_texts_kinds.specs.EraLine.{EraStands};

    /// Takes a run line of these values.
    #[tactic(auto, unfolding(pd_grammar::specs::Texts::tested))]
    fn take_run(&mut self, names: &Names, numbers: &Numbers) -> Result<Option<EraLine>, TextCause>
        ensures line { (before : List Line) → EraStands self.old before → 1 ≤ length before
            → seen_by era_meant result ≡ tested era_tests before (made_of run_kind names.now numbers.now) }
        ensures after { (before : List Line) → EraStands self.old before → 1 ≤ length before
            → IfOk result (λ taken. EraStands self.new (era_meant taken ∷ before)) }
    {
        let first = numbers[0];
        let length = numbers[1];
        let era = numbers[2];
        let end = first as u128 + length as u128;
        let fits = (first < 4294967296)
            & ((length < 4294967296)
                & ((era < 4294967296) & ((0 < length) & (end <= self.blocks as u128))));
        if !fits {
            return Err(TextCause::OutOfRange);
        }
        if first != self.run_end {
            return Err(TextCause::Order);
        }
        self.stage = Stage::Body;
        self.run_end = first + length;
        Ok(Some(EraLine::Run {
            first: first as u32,
            length: length as u32,
            era: era as u32,
        }))
    }

    /// Takes an era line of these values.
    #[tactic(auto, unfolding(pd_grammar::specs::Texts::tested))]
    fn take_era(&mut self, names: &Names, numbers: &Numbers) -> Result<Option<EraLine>, TextCause>
        ensures line { (before : List Line) → EraStands self.old before → 1 ≤ length before
            → seen_by era_meant result ≡ tested era_tests before (made_of era_kind names.now numbers.now) }
        ensures after { (before : List Line) → EraStands self.old before → 1 ≤ length before
            → IfOk result (λ taken. EraStands self.new (era_meant taken ∷ before)) }
    {
        let block_size = numbers[1];
        let blocks = numbers[2];
        let era = numbers[3];
        let fits = (block_size < 4294967296) & ((blocks < 4294967296) & (era < 4294967296));
        if !fits {
            return Err(TextCause::OutOfRange);
        }
        *self = EraState {
            stage: Stage::Body,
            blocks: blocks as u32,
            run_end: 0,
        };
        Ok(Some(EraLine::Era {
            uuid: names[0],
            block_size: block_size as u32,
            blocks: blocks as u32,
            era: era as u32,
        }))
    }

    /// Takes the last line, before which all blocks are covered.
    #[tactic(auto, unfolding(pd_grammar::specs::Texts::tested))]
    fn take_end(&mut self, names: &Names, numbers: &Numbers) -> Result<Option<EraLine>, TextCause>
        ensures line { (before : List Line) → EraStands self.old before → 1 ≤ length before
            → seen_by era_meant result ≡ tested era_tests before (made_of end_kind names.now numbers.now) }
        ensures after { (before : List Line) → EraStands self.old before → 1 ≤ length before
            → IfOk result (λ taken. EraStands self.new (era_meant taken ∷ before)) }
    {
        if self.run_end < self.blocks as u64 {
            return Err(TextCause::MappedDiffers);
        }
        self.stage = Stage::Body;
        Ok(None)
    }
}
