//! The tools, and how words can be given to each.

use pd_kinds::Kind;

/// The tools, in each of their forms.
#[derive(Clone, Copy)]
pub enum Tool {
    /// thin_check, cache_check, era_check
    Check(Kind),
    /// thin_dump, cache_dump, era_dump
    Dump(Kind),
    /// thin_restore, cache_restore, era_restore
    Restore(Kind),
    /// thin_repair
    Repair,
    /// thin_repair without a superblock
    Search,
    /// thin_repair from named roots
    NamedRepair,
    /// thin_repair --dry-run
    DryRepair,
    /// thin_repair --dry-run without a superblock
    DrySearch,
    /// thin_repair --dry-run from named roots
    DryNamed,
    /// cache_repair
    RepairCache,
    /// cache_repair --dry-run
    DryRepairCache,
    /// thin_rmap
    ReverseMap,
    /// thin_ls
    DeviceList,
    /// thin_trim --list
    Unused,
    /// era_invalidate
    Since,
    /// thin_generate
    Generate,
    /// thin_rehearse
    Rehearse,
    /// cache_writeback
    Writeback,
    /// thin_shrink
    Shrink,
}

/// What the value of a word is.
#[derive(Clone, Copy)]
pub enum Value {
    /// The name of a file.
    File,
    /// The name of a device, or of a file in its place.
    Device,
    /// The last stage of a check.
    Stage,
    /// A version of a cache's metadata.
    Version,
    /// Two numbers of data blocks.
    Region,
    /// A number up to this one.
    UpTo(u64),
    /// A number of the generator, from 1 to 10000.
    Generated,
}

/// How a word can be given.
#[derive(Clone, Copy)]
pub enum Need {
    /// Once or not at all, without a value.
    Flag,
    /// Once, without a value.
    Mark,
    /// Once, with a value.
    Wanted(Value),
    /// Once or not at all, with a value.
    Optional(Value),
}

/// A word that can be given, by its name: code has the name as a `&str`, and definitions as a list of bytes.
#[derive(Clone, Copy)]
pub struct Word<N> {
    pub name: N,
    pub need: Need,
}

/// A form of a tool: the tool's name, and what can be given to it. `L` is a list of words.
#[derive(Clone, Copy)]
pub struct ToolWords<N, L> {
    pub name: N,
    pub tool: Tool,
    pub words: L,
}
