//! What the lines so far of a cache's text say of the next one (`cache_restore`).

ghost use Rattle.std.specs.Prelude.{◌≡◌, ◌≤◌, List, ◌∷◌, length, IfOk};
ghost use Rattle.pd_grammar.specs.Texts.{tested};
ghost use Rattle.pd_grammar.specs.CacheText.{Line, cache_kind, map_kind, end_kind, single_tests, flag_number};
ghost use Rattle.pd_texts.specs.Words.{seen_by, made_of};
ghost use Rattle.pd_texts_kinds.specs.CacheLine.{cache_meant};

use crate::cache_lines::CacheLine;
use pd_grammar::{Field, TextCause};
use pd_texts::{Names, Numbers, Stage, TextLines, TextReader, TextState};
use std::alloc::{AllocError, Global};

/// The text of a cache, read line by line. It doesn't look for an origin that an earlier line has.
pub type CacheText = TextReader<CacheState>;

/// The kinds of lines after the first one.
#[derive(Clone, Copy)]
pub enum CacheKind {
    Cache,
    Map,
    End,
}

/// What the lines so far of a cache's text say of the next one.
#[derive(Drop)]
pub struct CacheState {
    stage: Stage,
    /// The number of cache blocks.
    blocks: u32,
    /// The size of a hint in bytes.
    hint_size: u32,
    /// One above the last cache block.
    least_block: u64,
}

impl TextLines for CacheState {
    type Line = CacheLine;
}

impl TextState for CacheState {
    ghost use Rattle.std.specs.Prelude.{refl};
    ghost use Rattle.pd_grammar.specs.CacheText.{Line, first_line, cache_table, cache_single};
    ghost use Rattle.pd_texts_kinds.specs.CacheLine.{kind_meant};
    ghost use Rattle.pd_texts_kinds.specs.CacheLine.{cache_meant};
    ghost use Rattle.pd_texts_kinds.specs.CacheLine.{CacheStands};
    ghost use Rattle.pd_texts_kinds.specs.CacheLine.{cache_header, cache_ends};

    type Kind = CacheKind;

    ghost Meant = { Line };

    ghost format = { cache_single };

    ghost table = { cache_table };

    ghost by_table = { refl };

    ghost kind_meant = { kind_meant };

    ghost first_line = { λ _. first_line };

    ghost meant = { cache_meant };

    ghost Stands = { CacheStands };

    fn start(_alloc: Global) -> CacheState {
        CacheState {
            stage: Stage::First,
            blocks: 0,
            hint_size: 0,
            least_block: 0,
        }
    }

    fn is_first(&self) -> bool {
        match self.stage {
            Stage::First => true,
            Stage::Second | Stage::Body => false,
        }
    }

    ghost CanWantMemory = { λ _. ⊥ };

    ghost HasRoom = { λ _. Unit {0} };

    fn read_first(&mut self, text: &[u8]) -> bool {
        self.stage = Stage::Second;
        text == b"cache 1".as_slice()
    }

    fn take_memory(&mut self) -> Result<(), AllocError> {
        Ok(())
    }

    #[tactic(auto, unfolding(pd_grammar::specs::Tables::kind_named))]
    fn named(word: &[u8]) -> Option<CacheKind> {
        if word == b"map".as_slice() {
            Some(CacheKind::Map)
        } else if word == b"cache".as_slice() {
            Some(CacheKind::Cache)
        } else if word == b"end".as_slice() {
            Some(CacheKind::End)
        } else {
            None
        }
    }

    fn fields(kind: CacheKind) -> &'static [Field] {
        match kind {
            CacheKind::Cache => &[
                Field::Uuid,
                Field::Number,
                Field::Number,
                Field::Number,
                Field::Policy,
                Field::Number,
                Field::Number,
                Field::Number,
                Field::Number,
            ],
            CacheKind::Map => &[Field::Number; 4],
            CacheKind::End => &[],
        }
    }

    #[tactic(auto, using(pd_texts::proofs::StateLemmas::second_stage, pd_texts::proofs::StateLemmas::body_stage))]
    fn may_stand(&self, kind: CacheKind) -> bool {
        match kind {
            CacheKind::Cache => self.stage.is_second(),
            CacheKind::Map | CacheKind::End => self.stage.is_body(),
        }
    }

    fn take(
        &mut self,
        kind: CacheKind,
        names: &Names,
        numbers: &Numbers,
    ) -> Result<Option<CacheLine>, TextCause> {
        match kind {
            CacheKind::Map => self.take_map(names, numbers),
            CacheKind::Cache => self.take_cache(names, numbers),
            CacheKind::End => self.take_end(names, numbers),
        }
    }

    ghost header = { cache_header };

    ghost begins = { λ _. refl };

    ghost ends = { cache_ends };
}

impl CacheState {
    ghost use Rattle.pd_texts_kinds.specs.CacheLine.{CacheStands};

    /// Takes a map line of these values.
    #[tactic(auto, unfolding(pd_grammar::specs::Texts::tested))]
    fn take_map(&mut self, names: &Names, numbers: &Numbers) -> Result<Option<CacheLine>, TextCause>
        ensures line { (before : List Line) → CacheStands self.old before → 1 ≤ length before
            → seen_by cache_meant result ≡ tested single_tests before (made_of map_kind names.now numbers.now) }
        ensures after { (before : List Line) → CacheStands self.old before → 1 ≤ length before
            → IfOk result (λ taken. CacheStands self.new (cache_meant taken ∷ before)) }
    {
        let block = numbers[0];
        let origin = numbers[1];
        let dirty = numbers[2];
        let hint = numbers[3];
        let fits = (block < self.blocks as u64)
            & ((origin < 281474976710656)
                & ((hint < 4294967296) & (!(1 < dirty) & (!(self.hint_size == 0) | (hint == 0)))));
        if !fits {
            return Err(TextCause::OutOfRange);
        }
        if block < self.least_block {
            return Err(TextCause::Order);
        }
        self.stage = Stage::Body;
        self.least_block = block + 1;
        Ok(Some(CacheLine::Map {
            block: block as u32,
            origin,
            dirty: is_set(dirty),
            hint: hint as u32,
        }))
    }

    /// Takes a cache line of these values.
    #[tactic(auto, unfolding(pd_grammar::specs::Texts::tested))]
    fn take_cache(
        &mut self,
        names: &Names,
        numbers: &Numbers,
    ) -> Result<Option<CacheLine>, TextCause>
        ensures line { (before : List Line) → CacheStands self.old before → 1 ≤ length before
            → seen_by cache_meant result ≡ tested single_tests before (made_of cache_kind names.now numbers.now) }
        ensures after { (before : List Line) → CacheStands self.old before → 1 ≤ length before
            → IfOk result (λ taken. CacheStands self.new (cache_meant taken ∷ before)) }
    {
        let block_size = numbers[1];
        let blocks = numbers[2];
        let clean = numbers[3];
        let major = numbers[5];
        let minor = numbers[6];
        let patch = numbers[7];
        let hint_size = numbers[8];
        let fits = (block_size < 4294967296)
            & ((blocks < 4294967296)
                & ((major < 4294967296)
                    & ((minor < 4294967296)
                        & ((patch < 4294967296)
                            & (!(1 < clean) & ((hint_size == 0) | (hint_size == 4)))))));
        if !fits {
            return Err(TextCause::OutOfRange);
        }
        *self = CacheState {
            stage: Stage::Body,
            blocks: blocks as u32,
            hint_size: hint_size as u32,
            least_block: 0,
        };
        Ok(Some(CacheLine::Cache {
            uuid: names[0],
            block_size: block_size as u32,
            blocks: blocks as u32,
            clean: is_set(clean),
            policy: names[4],
            versions: [major as u32, minor as u32, patch as u32],
            hint_size: hint_size as u32,
        }))
    }

    /// Takes the last line.
    #[tactic(auto, unfolding(pd_grammar::specs::Texts::tested))]
    fn take_end(&mut self, names: &Names, numbers: &Numbers) -> Result<Option<CacheLine>, TextCause>
        ensures line { (before : List Line) → CacheStands self.old before → 1 ≤ length before
            → seen_by cache_meant result ≡ tested single_tests before (made_of end_kind names.now numbers.now) }
        ensures after { (before : List Line) → CacheStands self.old before → 1 ≤ length before
            → IfOk result (λ taken. CacheStands self.new (cache_meant taken ∷ before)) }
    {
        self.stage = Stage::Body;
        Ok(None)
    }
}

/// The flag of a number.
fn is_set(number: u64) -> bool
    requires { number ≤ 1 }
    ensures { flag_number result ≡ number }
{
    number == 1
}
