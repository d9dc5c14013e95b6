//! What the lines so far of a pool's text say of the next one (`thin_restore`).

ghost use Rattle.std.specs.Prelude.{◌≡◌, ◌≤◌, ◌<◌, List, ◌∷◌, length, IfOk};
ghost use Rattle.pd_grammar.specs.Texts.{tested};
ghost use Rattle.pd_grammar.specs.ThinText.{Line, pool_kind, leaf_kind, device_kind, use_kind, map_kind, end_kind, thin_tests};
ghost use Rattle.pd_texts.specs.Words.{seen_by, made_of};
ghost use Rattle.pd_texts.specs.ThinLine.{thin_meant};

use crate::leaves::Leaves;
use crate::state::{Stage, TextLines, TextState};
use crate::thin_text::{Run2, ThinLine};
use crate::words::{Names, Numbers};
use pd_grammar::{Field, TextCause};
use pd_value::Details;
use std::alloc::{AllocError, Global};

/// The kinds of lines after the first one.
#[derive(Clone, Copy)]
pub enum ThinKind {
    Pool,
    Leaf,
    Device,
    Use,
    Map,
    End,
}

/// What the lines so far of a pool's text say of the next one.
#[derive(Drop)]
pub struct ThinState {
    stage: Stage,
    /// Whether the text is of version 2.
    is_shared: bool,
    /// The pool's data blocks.
    blocks: u64,
    /// One above the id of the last device.
    least_id: u128,
    /// Whether there was a device.
    has_device: bool,
    /// The end of the last piece of the last leaf or device.
    piece_end: u128,
    /// How many mappings of the last leaf or device no line has given yet.
    unmapped: u64,
    leaves: Leaves,
}

impl TextLines for ThinState {
    type Line = ThinLine;
}

impl TextState for ThinState {
    ghost use Rattle.std.specs.Prelude.{refl};
    ghost use Rattle.pd_grammar.specs.ThinText.{Line, pool_table, pool_format};
    ghost use Rattle.pd_texts.specs.ThinLine.{kind_meant};
    ghost use Rattle.pd_texts.specs.ThinLine.{thin_meant};
    ghost use Rattle.pd_texts.specs.ThinState.{ThinStands, first_of, HasRoomNext, CanWant, pool_begins};
    ghost use Rattle.pd_texts.specs.ThinLaws.{pool_header, pool_ends};

    type Kind = ThinKind;

    ghost Meant = { Line };

    ghost format = { pool_format };

    ghost table = { pool_table };

    ghost by_table = { refl };

    ghost kind_meant = { kind_meant };

    ghost first_line = { first_of };

    ghost meant = { thin_meant };

    ghost Stands = { ThinStands };

    fn start(alloc: Global) -> ThinState {
        ThinState {
            stage: Stage::First,
            is_shared: false,
            blocks: 0,
            least_id: 0,
            has_device: false,
            piece_end: 0,
            unmapped: 0,
            leaves: Leaves::new(alloc),
        }
    }

    fn is_first(&self) -> bool {
        match self.stage {
            Stage::First => true,
            Stage::Second | Stage::Body => false,
        }
    }

    ghost CanWantMemory = { CanWant };

    ghost HasRoom = { HasRoomNext };

    fn read_first(&mut self, text: &[u8]) -> bool {
        self.stage = Stage::Second;
        if text == b"thin 1".as_slice() {
            self.is_shared = false;
            true
        } else if text == b"thin 2".as_slice() {
            self.is_shared = true;
            true
        } else {
            false
        }
    }

    fn take_memory(&mut self) -> Result<(), AllocError> {
        if self.is_shared & !self.has_device {
            self.leaves.take_memory()
        } else {
            Ok(())
        }
    }

    #[tactic(auto, unfolding(pd_grammar::specs::Tables::kind_named))]
    fn named(word: &[u8]) -> Option<ThinKind> {
        if word == b"map".as_slice() {
            Some(ThinKind::Map)
        } else if word == b"use".as_slice() {
            Some(ThinKind::Use)
        } else if word == b"leaf".as_slice() {
            Some(ThinKind::Leaf)
        } else if word == b"device".as_slice() {
            Some(ThinKind::Device)
        } else if word == b"pool".as_slice() {
            Some(ThinKind::Pool)
        } else if word == b"end".as_slice() {
            Some(ThinKind::End)
        } else {
            None
        }
    }

    fn fields(kind: ThinKind) -> &'static [Field] {
        match kind {
            ThinKind::Pool => &[
                Field::Uuid,
                Field::Number,
                Field::Number,
                Field::Number,
                Field::Number,
            ],
            ThinKind::Leaf => &[Field::Number; 2],
            ThinKind::Device => &[Field::Number; 5],
            ThinKind::Use => &[Field::Number],
            ThinKind::Map => &[Field::Number; 4],
            ThinKind::End => &[],
        }
    }

    #[tactic(auto, using(crate::proofs::StateLemmas::second_stage, crate::proofs::StateLemmas::body_stage))]
    fn may_stand(&self, kind: ThinKind) -> bool {
        match kind {
            ThinKind::Map => {
                self.stage.is_body() & (self.has_device | (0 < self.leaves.number()))
            }
            ThinKind::Use => self.stage.is_body() & (self.is_shared & self.has_device),
            ThinKind::Leaf => self.stage.is_body() & (self.is_shared & !self.has_device),
            ThinKind::Device | ThinKind::End => self.stage.is_body(),
            ThinKind::Pool => self.stage.is_second(),
        }
    }

    #[inline(always)]
    fn take(
        &mut self,
        kind: ThinKind,
        names: &Names,
        numbers: &Numbers,
    ) -> Result<Option<ThinLine>, TextCause> {
        match kind {
            ThinKind::Map => self.take_map(names, numbers),
            ThinKind::Use => self.take_use(names, numbers),
            ThinKind::Leaf => self.take_leaf(names, numbers),
            ThinKind::Device => self.take_device(names, numbers),
            ThinKind::Pool => self.take_pool(names, numbers),
            ThinKind::End => self.take_end(names, numbers),
        }
    }

    ghost header = { pool_header };

    ghost begins = { pool_begins };

    ghost ends = { pool_ends };
}

impl ThinState {
    ghost use Rattle.pd_texts.specs.ThinState.{HasRoom};
    ghost use Rattle.pd_texts.specs.ThinState.{ThinStands, version_after};

    /// The text's version, 1 or 2, once two lines were read, and 0 before.
    #[tactic(auto, using(crate::proofs::StateLemmas::body_stage))]
    pub(crate) fn version(&self) -> u32
        ensures { (before : List Line) → ThinStands self.now before → result ≡ version_after before }
    {
        if !self.stage.is_body() {
            0
        } else if self.is_shared {
            2
        } else {
            1
        }
    }

    /// Takes a map line of these values: the run is above the last piece, and within what was said to be mapped.
    #[tactic(auto, unfolding(pd_grammar::specs::Texts::tested))]
    fn take_map(&mut self, names: &Names, numbers: &Numbers) -> Result<Option<ThinLine>, TextCause>
        ensures line { (before : List Line) → ThinStands self.old before → 1 ≤ length before
            → seen_by thin_meant result ≡ tested thin_tests before (made_of map_kind names.now numbers.now) }
        ensures after { (before : List Line) → ThinStands self.old before → 1 ≤ length before
            → IfOk result (λ taken. ThinStands self.new (thin_meant taken ∷ before)) }
        ensures version { self.new.is_shared ≡ self.old.is_shared }
    {
        let virt = numbers[0];
        let target = numbers[1];
        let length = numbers[2];
        let time = numbers[3];
        let end = virt as u128 + length as u128;
        let target_end = target as u128 + length as u128;
        let fits = (0 < length)
            & ((end <= 18446744073709551616)
                & ((target_end <= self.blocks as u128) & (time < 16777216)));
        if !fits {
            return Err(TextCause::OutOfRange);
        }
        if (virt as u128) < self.piece_end {
            return Err(TextCause::Order);
        }
        if self.unmapped < length {
            return Err(TextCause::MappedDiffers);
        }
        let run = Run2 {
            virt,
            target,
            length,
            time: time as u32,
        };
        self.stage = Stage::Body;
        self.piece_end = end;
        self.unmapped -= length;
        self.leaves.pass_run(&run, self.has_device);
        Ok(Some(ThinLine::Map(run)))
    }

    /// Takes a use line of these values: the leaf is above the last piece, and within what was said to be mapped.
    #[tactic(auto, unfolding(pd_grammar::specs::Texts::tested))]
    fn take_use(&mut self, names: &Names, numbers: &Numbers) -> Result<Option<ThinLine>, TextCause>
        ensures line { (before : List Line) → ThinStands self.old before → 1 ≤ length before
            → seen_by thin_meant result ≡ tested thin_tests before (made_of use_kind names.now numbers.now) }
        ensures after { (before : List Line) → ThinStands self.old before → 1 ≤ length before
            → IfOk result (λ taken. ThinStands self.new (thin_meant taken ∷ before)) }
        ensures version { self.new.is_shared ≡ self.old.is_shared }
    {
        let number = numbers[0];
        if number >= self.leaves.number() {
            return Err(TextCause::OutOfRange);
        }
        if (self.leaves.leaf(number).least() as u128) < self.piece_end {
            return Err(TextCause::Order);
        }
        if self.unmapped < self.leaves.leaf(number).entries() {
            return Err(TextCause::MappedDiffers);
        }
        let leaf = self.leaves.leaf(number);
        self.stage = Stage::Body;
        self.piece_end = leaf.end();
        self.unmapped = self.unmapped.saturating_sub(leaf.entries());
        self.leaves.mark(number);
        Ok(Some(ThinLine::UseLeaf { number }))
    }

    /// Takes a leaf line of these values, in the memory that was taken for it.
    #[tactic(auto, unfolding(pd_grammar::specs::Texts::tested))]
    fn take_leaf(&mut self, names: &Names, numbers: &Numbers) -> Result<Option<ThinLine>, TextCause>
        ensures line { (before : List Line) → ThinStands self.old before → 1 ≤ length before
            → seen_by thin_meant result ≡ tested thin_tests before (made_of leaf_kind names.now numbers.now) }
        ensures after { (before : List Line) → ThinStands self.old before → 1 ≤ length before
            → HasRoom self.old.leaves → IfOk result (λ taken. ThinStands self.new (thin_meant taken ∷ before)) }
        ensures version { self.new.is_shared ≡ self.old.is_shared }
    {
        let number = numbers[0];
        let entries = numbers[1];
        let fits = (1 <= entries) & (entries <= 252);
        if !fits {
            return Err(TextCause::OutOfRange);
        }
        if number != self.leaves.number() {
            return Err(TextCause::Order);
        }
        if 0 < self.unmapped {
            return Err(TextCause::MappedDiffers);
        }
        self.stage = Stage::Body;
        self.piece_end = 0;
        self.unmapped = entries;
        self.leaves.begin();
        Ok(Some(ThinLine::Leaf { number, entries }))
    }

    /// Takes a device line of these values.
    #[tactic(auto, unfolding(pd_grammar::specs::Texts::tested))]
    fn take_device(
        &mut self,
        names: &Names,
        numbers: &Numbers,
    ) -> Result<Option<ThinLine>, TextCause>
        ensures line { (before : List Line) → ThinStands self.old before → 1 ≤ length before
            → seen_by thin_meant result ≡ tested thin_tests before (made_of device_kind names.now numbers.now) }
        ensures after { (before : List Line) → ThinStands self.old before → 1 ≤ length before
            → IfOk result (λ taken. ThinStands self.new (thin_meant taken ∷ before)) }
        ensures version { self.new.is_shared ≡ self.old.is_shared }
    {
        let id = numbers[0];
        let mapped = numbers[1];
        let created = numbers[3];
        let snapped = numbers[4];
        let fits = (created < 4294967296) & (snapped < 4294967296);
        if !fits {
            return Err(TextCause::OutOfRange);
        }
        if (id as u128) < self.least_id {
            return Err(TextCause::Order);
        }
        if 0 < self.unmapped {
            return Err(TextCause::MappedDiffers);
        }
        self.stage = Stage::Body;
        self.least_id = id as u128 + 1;
        self.has_device = true;
        self.piece_end = 0;
        self.unmapped = mapped;
        let details = Details {
            mapped,
            transaction: numbers[2],
            created: created as u32,
            snapped: snapped as u32,
        };
        Ok(Some(ThinLine::Device { id, details }))
    }

    /// Takes a pool line of these values.
    #[tactic(auto, unfolding(pd_grammar::specs::Texts::tested))]
    fn take_pool(&mut self, names: &Names, numbers: &Numbers) -> Result<Option<ThinLine>, TextCause>
        ensures line { (before : List Line) → ThinStands self.old before → 1 ≤ length before
            → seen_by thin_meant result ≡ tested thin_tests before (made_of pool_kind names.now numbers.now) }
        ensures after { (before : List Line) → ThinStands self.old before → 1 ≤ length before
            → IfOk result (λ taken. ThinStands self.new (thin_meant taken ∷ before)) }
        ensures version { self.new.is_shared ≡ self.old.is_shared }
    {
        let time = numbers[1];
        let block_size = numbers[3];
        let blocks = numbers[4];
        let fits = (time < 4294967296) & ((block_size < 4294967296) & (blocks <= 1099511627776));
        if !fits {
            return Err(TextCause::OutOfRange);
        }
        self.stage = Stage::Body;
        self.blocks = blocks;
        self.piece_end = 0;
        self.unmapped = 0;
        Ok(Some(ThinLine::Pool {
            uuid: names[0],
            time: time as u32,
            transaction: numbers[2],
            block_size: block_size as u32,
            blocks,
        }))
    }

    /// Takes the last line, before which each mapping was given and each leaf is used.
    #[tactic(auto, unfolding(pd_grammar::specs::Texts::tested))]
    fn take_end(&mut self, names: &Names, numbers: &Numbers) -> Result<Option<ThinLine>, TextCause>
        ensures line { (before : List Line) → ThinStands self.old before → 1 ≤ length before
            → seen_by thin_meant result ≡ tested thin_tests before (made_of end_kind names.now numbers.now) }
        ensures after { (before : List Line) → ThinStands self.old before → 1 ≤ length before
            → IfOk result (λ taken. ThinStands self.new (thin_meant taken ∷ before)) }
        ensures version { self.new.is_shared ≡ self.old.is_shared }
    {
        if 0 < self.unmapped {
            return Err(TextCause::MappedDiffers);
        }
        if self.leaves.has_unused() {
            return Err(TextCause::Unused);
        }
        self.stage = Stage::Body;
        self.piece_end = 0;
        self.unmapped = 0;
        Ok(None)
    }
}
