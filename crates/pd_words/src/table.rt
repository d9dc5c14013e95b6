//! The table of the tools, and of the words that can be given to each.

ghost use Rattle.std.specs.Prelude.{◌≡◌, map};
ghost use Rattle.std.specs.List.{list_any};
ghost use Rattle.pd_answers.specs.Words.{is_flag, is_named, is_named_flag, is_flag_need};
ghost use Rattle.pd_words.specs.Table.{has_flag, row_as, word_as};

use pd_answers::{Need, Tool, ToolWords, Value, Word};
use pd_kinds::Kind;

/// A word that can be given, by its name.
pub type NamedWord = Word<&'static str>;

/// A form of a tool.
pub type ToolForm = ToolWords<&'static str, &'static [NamedWord]>;

/// The operand, which has no option's word before it.
pub const IMAGE: NamedWord = Word {
    name: "IMAGE",
    need: Need::Wanted(Value::Device),
};

/// The last stage of a check.
pub(crate) const UNTIL: NamedWord = Word {
    name: "--until",
    need: Need::Optional(Value::Stage),
};

/// Whether leaks pass.
pub(crate) const PASSING: NamedWord = Word {
    name: "--ignore-non-fatal-errors",
    need: Need::Flag,
};

/// Whether the flag "needs check" is cleared.
pub(crate) const CLEAR: NamedWord = Word {
    name: "--clear-needs-check-flag",
    need: Need::Flag,
};

/// The file for what is printed.
pub(crate) const FILE: NamedWord = Word {
    name: "-o",
    need: Need::Optional(Value::File),
};

/// Whether shared leaves are told once, or kept in what is written.
pub(crate) const SHARED: NamedWord = Word {
    name: "--shared",
    need: Need::Flag,
};

/// The data blocks of a reverse map.
pub(crate) const REGION: NamedWord = Word {
    name: "--region",
    need: Need::Wanted(Value::Region),
};

/// The first era that counts.
pub(crate) const SINCE: NamedWord = Word {
    name: "--written-since",
    need: Need::Wanted(Value::UpTo(u32::MAX as u64)),
};

/// The text that is read.
pub(crate) const TEXT: NamedWord = Word {
    name: "-i",
    need: Need::Wanted(Value::File),
};

/// The device that is read.
pub(crate) const INPUT: NamedWord = Word {
    name: "-i",
    need: Need::Wanted(Value::Device),
};

/// The device that is written.
pub(crate) const OUTPUT: NamedWord = Word {
    name: "-o",
    need: Need::Wanted(Value::Device),
};

/// That nothing is written, but told what would be.
pub(crate) const DRY_RUN: NamedWord = Word {
    name: "--dry-run",
    need: Need::Mark,
};

/// The version of a cache's metadata.
pub(crate) const VERSION: NamedWord = Word {
    name: "--metadata-version",
    need: Need::Optional(Value::Version),
};

/// The number of the generator.
pub(crate) const NUMBER: NamedWord = Word {
    name: "--number",
    need: Need::Wanted(Value::Generated),
};

/// The transaction of a superblock that is wanting.
pub(crate) const TRANSACTION: NamedWord = Word {
    name: "--transaction-id",
    need: Need::Wanted(Value::UpTo(u64::MAX)),
};

/// Its block size in sectors.
pub(crate) const BLOCK_SIZE: NamedWord = Word {
    name: "--data-block-size",
    need: Need::Wanted(Value::UpTo(u32::MAX as u64)),
};

/// Its number of data blocks.
pub(crate) const DATA_BLOCKS: NamedWord = Word {
    name: "--nr-data-blocks",
    need: Need::Wanted(Value::UpTo(1 << 40)),
};

/// The root of its mapping tree.
pub(crate) const MAPPING_ROOT: NamedWord = Word {
    name: "--mapping-root",
    need: Need::Wanted(Value::UpTo(u64::MAX)),
};

/// The root of its details tree.
pub(crate) const DETAILS_ROOT: NamedWord = Word {
    name: "--details-root",
    need: Need::Wanted(Value::UpTo(u64::MAX)),
};

/// The root of a cache's mapping array.
pub(crate) const MAP_ROOT: NamedWord = Word {
    name: "--mapping-root",
    need: Need::Optional(Value::UpTo(u64::MAX)),
};

/// The root of its hint array.
pub(crate) const HINT_ROOT: NamedWord = Word {
    name: "--hint-root",
    need: Need::Optional(Value::UpTo(u64::MAX)),
};

/// The root of its dirty bits.
pub(crate) const DIRTY_ROOT: NamedWord = Word {
    name: "--dirty-root",
    need: Need::Optional(Value::UpTo(u64::MAX)),
};

/// That the blocks to which no mapping leads are listed.
pub(crate) const LIST: NamedWord = Word {
    name: "--list",
    need: Need::Mark,
};

/// The metadata of a cache.
pub(crate) const METADATA: NamedWord = Word {
    name: "--metadata-device",
    need: Need::Wanted(Value::Device),
};

/// Its fast device.
pub(crate) const FAST: NamedWord = Word {
    name: "--fast-device",
    need: Need::Wanted(Value::Device),
};

/// Its origin.
pub(crate) const ORIGIN: NamedWord = Word {
    name: "--origin-device",
    need: Need::Wanted(Value::Device),
};

/// The data device of a pool.
pub(crate) const DATA: NamedWord = Word {
    name: "--data",
    need: Need::Wanted(Value::Device),
};

/// How many data blocks a pool is to have.
pub(crate) const BLOCKS: NamedWord = Word {
    name: "--nr-blocks",
    need: Need::Wanted(Value::UpTo(u64::MAX)),
};

/// The forms of the tools, and what can be given to each. A tool whose name stands more than once has as many forms, and takes
/// the first that has all words that are given.
pub static TOOLS: [ToolForm; 25] = [
    ToolWords {
        name: "thin_check",
        tool: Tool::Check(Kind::Thin),
        words: &[UNTIL, PASSING, CLEAR, IMAGE],
    },
    ToolWords {
        name: "cache_check",
        tool: Tool::Check(Kind::Cache),
        words: &[UNTIL, PASSING, CLEAR, IMAGE],
    },
    ToolWords {
        name: "era_check",
        tool: Tool::Check(Kind::Era),
        words: &[UNTIL, PASSING, IMAGE],
    },
    ToolWords {
        name: "thin_dump",
        tool: Tool::Dump(Kind::Thin),
        words: &[SHARED, FILE, IMAGE],
    },
    ToolWords {
        name: "cache_dump",
        tool: Tool::Dump(Kind::Cache),
        words: &[FILE, IMAGE],
    },
    ToolWords {
        name: "era_dump",
        tool: Tool::Dump(Kind::Era),
        words: &[FILE, IMAGE],
    },
    ToolWords {
        name: "thin_restore",
        tool: Tool::Restore(Kind::Thin),
        words: &[TEXT, OUTPUT],
    },
    ToolWords {
        name: "cache_restore",
        tool: Tool::Restore(Kind::Cache),
        words: &[VERSION, TEXT, OUTPUT],
    },
    ToolWords {
        name: "era_restore",
        tool: Tool::Restore(Kind::Era),
        words: &[TEXT, OUTPUT],
    },
    ToolWords {
        name: "thin_repair",
        tool: Tool::Repair,
        words: &[SHARED, INPUT, OUTPUT],
    },
    ToolWords {
        name: "thin_repair",
        tool: Tool::Search,
        words: &[SHARED, INPUT, OUTPUT, TRANSACTION, BLOCK_SIZE, DATA_BLOCKS],
    },
    ToolWords {
        name: "thin_repair",
        tool: Tool::NamedRepair,
        words: &[
            SHARED,
            INPUT,
            OUTPUT,
            MAPPING_ROOT,
            DETAILS_ROOT,
            TRANSACTION,
            BLOCK_SIZE,
            DATA_BLOCKS,
        ],
    },
    ToolWords {
        name: "thin_repair",
        tool: Tool::DryRepair,
        words: &[DRY_RUN, SHARED, INPUT],
    },
    ToolWords {
        name: "thin_repair",
        tool: Tool::DrySearch,
        words: &[DRY_RUN, SHARED, INPUT, TRANSACTION, BLOCK_SIZE, DATA_BLOCKS],
    },
    ToolWords {
        name: "thin_repair",
        tool: Tool::DryNamed,
        words: &[
            DRY_RUN,
            SHARED,
            INPUT,
            MAPPING_ROOT,
            DETAILS_ROOT,
            TRANSACTION,
            BLOCK_SIZE,
            DATA_BLOCKS,
        ],
    },
    ToolWords {
        name: "cache_repair",
        tool: Tool::RepairCache,
        words: &[OUTPUT, VERSION, MAP_ROOT, HINT_ROOT, DIRTY_ROOT, INPUT],
    },
    ToolWords {
        name: "cache_repair",
        tool: Tool::DryRepairCache,
        words: &[DRY_RUN, VERSION, MAP_ROOT, HINT_ROOT, DIRTY_ROOT, INPUT],
    },
    ToolWords {
        name: "thin_rmap",
        tool: Tool::ReverseMap,
        words: &[REGION, FILE, IMAGE],
    },
    ToolWords {
        name: "thin_ls",
        tool: Tool::DeviceList,
        words: &[FILE, IMAGE],
    },
    ToolWords {
        name: "thin_trim",
        tool: Tool::Unused,
        words: &[LIST, FILE, IMAGE],
    },
    ToolWords {
        name: "era_invalidate",
        tool: Tool::Since,
        words: &[SINCE, FILE, IMAGE],
    },
    ToolWords {
        name: "thin_generate",
        tool: Tool::Generate,
        words: &[NUMBER, FILE],
    },
    ToolWords {
        name: "thin_rehearse",
        tool: Tool::Rehearse,
        words: &[NUMBER, OUTPUT],
    },
    ToolWords {
        name: "cache_writeback",
        tool: Tool::Writeback,
        words: &[METADATA, FAST, ORIGIN],
    },
    ToolWords {
        name: "thin_shrink",
        tool: Tool::Shrink,
        words: &[SHARED, INPUT, OUTPUT, DATA, BLOCKS],
    },
];

/// Whether one of the words has this name.
pub(crate) fn has_word(words: &[NamedWord], name: &str) -> bool
    ensures { result ≡ list_any (is_named name.now) (map word_as words.now) }
{
    for word in words {
        if name == word.name {
            return true;
        }
    }
    false
}

/// Whether a word has no value.
fn is_flag_need(need: Need) -> bool
    ensures { result ≡ is_flag_need need }
{
    match need {
        Need::Flag => true,
        Need::Mark => true,
        Need::Wanted(_) => false,
        Need::Optional(_) => false,
    }
}

/// Whether one of the words is a flag of this name.
fn has_flag(words: &[NamedWord], name: &str) -> bool
    ensures { result ≡ list_any (is_named_flag name.now) (map word_as words.now) }
{
    for word in words {
        if is_flag_need(word.need) & (name == word.name) {
            return true;
        }
    }
    false
}

/// Whether a tool of the rows has a flag of this name.
fn is_flag_in(rows: &[ToolForm], name: &str) -> bool
    ensures { result ≡ list_any (has_flag name.now) (map row_as rows.now) }
{
    for row in rows {
        if has_flag(row.words, name) {
            return true;
        }
    }
    false
}

/// Whether a word is a flag's of a tool.
#[tactic(auto, unfolding(pd_answers::specs::Words::is_flag))]
pub(crate) fn is_flag(name: &str) -> bool
    ensures { result ≡ is_flag name.now }
{
    is_flag_in(&TOOLS, name)
}
