//! What can be asked of the tools: the requests, and the numbers and roots that they give.

ghost use Rattle.std.specs.Prelude.{◌≡◌};

use pd_kinds::{CacheSuper, Flagged, Kind, Passing, Stage};

/// What is given of a superblock that is lost, or isn't to be used.
#[derive(Clone, Copy, Debug, PartialEq, Eq)]
pub struct GivenSuper {
    /// The transaction of the pool.
    pub transaction: u64,
    /// The size of a data block in sectors of 512 bytes.
    pub block_size: u32,
    /// The number of data blocks.
    pub blocks: u64,
}

/// The roots of a mapping tree and of a details tree, as block numbers of the metadata device.
#[derive(Clone, Copy, Debug, PartialEq, Eq)]
pub struct NamedRoots {
    /// The root of the mapping tree.
    pub top: u64,
    /// The root of the details tree.
    pub details: u64,
}

/// The roots of a damaged cache's arrays that are named, as block numbers of the metadata device. What isn't named is as the
/// superblock has it.
#[derive(Clone, Copy, Debug, PartialEq, Eq)]
pub struct CacheRoots {
    /// The root of the mapping array.
    pub mappings: Option<u64>,
    /// The root of the hint array.
    pub hints: Option<u64>,
    /// The root of the dirty bits, which version 2 of the metadata has.
    pub dirty: Option<u64>,
}

impl CacheRoots {
    ghost use Rattle.pd_answers.specs.KeptCache.{with_roots};

    /// The superblock with these roots in place of its own.
    pub fn over(self, s: &CacheSuper) -> CacheSuper
        ensures { result ≡ with_roots self s.now }
    {
        CacheSuper {
            mapping_root: self.mappings.unwrap_or(s.mapping_root),
            hint_root: self.hints.unwrap_or(s.hint_root),
            dirty_root: self.dirty.unwrap_or(s.dirty_root),
            ..*s
        }
    }
}

/// What is asked of an image.
#[derive(Clone, Copy)]
pub enum Asked {
    /// Its text: a dump is the query for it.
    Text(Kind),
    /// The text of a thin pool in which the leaves that its devices share are told once.
    SharedText,
    /// The mappings of a pool to the data blocks from `first` on and below `end`.
    ReverseMap { first: u64, end: u64 },
    /// The thin devices of a pool.
    DeviceList,
    /// The blocks of an era target that were written in this era or later.
    Since { era: u32 },
    /// What a repair of a pool would keep.
    Kept,
    /// What a repair of a cache would keep, with these roots.
    KeptCache(CacheRoots),
    /// The data blocks of a pool to which no mapping leads.
    Unused,
}

impl Asked {
    ghost use Rattle.pd_answers.specs.QueryLines.{asked_kind, asked_stage};

    /// The kind of metadata that is asked about.
    pub fn kind(self) -> Kind
        ensures { result ≡ asked_kind self }
    {
        match self {
            Asked::Text(kind) => kind,
            Asked::SharedText
            | Asked::ReverseMap { .. }
            | Asked::DeviceList
            | Asked::Kept
            | Asked::Unused => Kind::Thin,
            Asked::KeptCache(_) => Kind::Cache,
            Asked::Since { .. } => Kind::Era,
        }
    }

    /// The stage up to which the metadata must be without faults.
    pub fn stage(self) -> Stage
        ensures { result ≡ asked_stage self }
    {
        match self {
            Asked::Kept | Asked::KeptCache(_) => Stage::Super,
            Asked::Unused => Stage::Counts,
            Asked::Text(_)
            | Asked::SharedText
            | Asked::ReverseMap { .. }
            | Asked::DeviceList
            | Asked::Since { .. } => Stage::Whole,
        }
    }
}

/// A request, with the words that name its objects: images, texts, and the file for what is printed, without which it is the standard
/// output. Code has these words as `&str`, and definitions as lists of bytes.
#[derive(Clone, Copy)]
pub enum Request<W> {
    /// The check of an image up to a stage.
    Check {
        kind: Kind,
        until: Stage,
        image: W,
    },
    /// The whole check of an image, in which leaks pass.
    PassingCheck {
        kind: Kind,
        image: W,
    },
    /// The whole check of a pool or a cache; where all that it found passes, the flag "needs check" of the superblock is
    /// cleared.
    CheckAndClear {
        flagged: Flagged,
        passing: Passing,
        image: W,
    },
    /// What is asked of an image, to a file.
    Query {
        asked: Asked,
        file: Option<W>,
        image: W,
    },
    /// An image from the text of a file, with this version of the metadata, 1 but for a cache.
    Restore {
        kind: Kind,
        version: u32,
        text: W,
        image: W,
    },
    /// An image of what can be saved of another one, with the leaves that its devices share or without.
    Repair {
        shared: bool,
        input: W,
        output: W,
    },
    /// The same without a superblock, whose numbers are given.
    Search {
        shared: bool,
        input: W,
        output: W,
        given: GivenSuper,
    },
    /// The same, from roots that are named.
    RepairNamed {
        shared: bool,
        input: W,
        output: W,
        given: GivenSuper,
        named: NamedRoots,
    },
    /// What a repair without a superblock would keep of an image: from roots that are named, or else from those that a
    /// search finds; nothing is written.
    DrySearch {
        input: W,
        given: GivenSuper,
        named: Option<NamedRoots>,
    },
    /// An image of what can be saved of a cache, from its own roots and those that are named in their place, with this version
    /// of the metadata, or else its own.
    RepairCache {
        version: Option<u32>,
        named: CacheRoots,
        input: W,
        output: W,
    },
    /// The text of the generator for a number from 1 to 10000, to a file.
    Generate {
        number: u32,
        file: Option<W>,
    },
    /// The restore, check and dump of that text, over an image.
    Rehearse {
        number: u32,
        image: W,
    },
    /// What is dirty in a cache, from its fast device to its origin, by its metadata, which is marked clean.
    Writeback {
        metadata: W,
        fast: W,
        origin: W,
    },
    /// The pool of the metadata `input`, on the data device `pool`, with this many data blocks or fewer; its new metadata
    /// are written to `output`, with the leaves that its devices share or without.
    Shrink {
        shared: bool,
        input: W,
        output: W,
        pool: W,
        blocks: u64,
    },
}
