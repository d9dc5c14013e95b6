//! The request that words spell.

ghost use Rattle.std.specs.Prelude.{◌≡◌, Some, true, map, string_bytes, IfSome};
ghost use Rattle.std.specs.Option.{option_copied};
ghost use Rattle.pd_kinds.specs.declared.kind.Stage.TheVariants.{Counts};
ghost use Rattle.pd_answers.specs.Words.{asked, check_with, dump_with, generated_number, meant_if_any};
ghost use Rattle.pd_answers.specs.Words.{stage_of, stage_or_last, version_of, version_or_first};
ghost use Rattle.pd_answers.specs.declared.tool.Tool.TheVariants as tool_spec;
ghost use Rattle.pd_answers.specs.declared.tool.Value.TheVariants as value_spec;
ghost use Rattle.pd_answers.specs.Words as words_spec;
ghost use Rattle.pd_words.specs.Items.{items_in, AreItems};
ghost use Rattle.pd_words.specs.Words.{read_as, AreNumbers, IsGenerated, IsVersion};

use crate::cache_repairs::{read_dry_repair_cache, read_repair_cache};
use crate::items::{are_items_of, tool_named};
use crate::repairs::{
    read_dry_named, read_dry_repair, read_dry_search, read_named_repair, read_repair, read_search,
};
use crate::table::{
    BLOCKS, CLEAR, DATA, FAST, FILE, IMAGE, INPUT, LIST, METADATA, NUMBER, ORIGIN, OUTPUT, PASSING,
    REGION, SHARED, SINCE, TEXT, UNTIL, VERSION,
};
use crate::values::{flag, number_up_to, optional, read_region, required, required_number};
use pd_answers::{Asked, Request, Tool};
use pd_kinds::{Flagged, Kind, Passing, Stage};

/// The request that the words spell, without the program's own name.
///
/// The first word is the name of a tool. After it come, in any order, an option's word followed by its value, a flag's
/// word, or the one operand. Each comes at most once. A value or an operand isn't empty and doesn't begin with `-`.
///
/// There is none where the words spell no request. It takes no memory.
pub fn read_words(words: &[String]) -> Option<Request<&str>>
    ensures asked { read_as result ≡ asked (map string_bytes words.now) }
    ensures numbers { IfSome result AreNumbers }
{
    if words.is_empty() {
        return None;
    }
    match tool_named(words, words[0].as_str()) {
        None => None,
        Some(row) => {
            if are_items_of(row.words, words, 1) {
                read_request(row.tool, words)
            } else {
                None
            }
        }
    }
}

/// What the words ask of a tool.
fn read_request(tool: Tool, words: &[String]) -> Option<Request<&str>>
    requires { AreItems (map string_bytes words.now) }
    ensures asked { read_as result ≡ words_spec.request_of tool (items_in (map string_bytes words.now)) }
    ensures numbers { IfSome result AreNumbers }
{
    match tool {
        Tool::Check(kind) => read_check(kind, words),
        Tool::Dump(kind) => read_dump(kind, words),
        Tool::Restore(kind) => read_restore(kind, words),
        Tool::Repair => read_repair(words),
        Tool::Search => read_search(words),
        Tool::NamedRepair => read_named_repair(words),
        Tool::DryRepair => read_dry_repair(words),
        Tool::DrySearch => read_dry_search(words),
        Tool::DryNamed => read_dry_named(words),
        Tool::RepairCache => read_repair_cache(words),
        Tool::DryRepairCache => read_dry_repair_cache(words),
        Tool::ReverseMap => read_rmap(words),
        Tool::DeviceList => read_device_list(words),
        Tool::Unused => read_unused(words),
        Tool::Since => read_since(words),
        Tool::Generate => read_generate(words),
        Tool::Rehearse => read_rehearse(words),
        Tool::Writeback => read_writeback(words),
        Tool::Shrink => read_shrink(words),
    }
}

/// What the words ask of a check.
#[tactic(auto, unfolding(pd_answers::specs::Words::request_of))]
fn read_check(kind: Kind, words: &[String]) -> Option<Request<&str>>
    requires { AreItems (map string_bytes words.now) }
    ensures asked { read_as result ≡ words_spec.request_of (tool_spec.Check kind) (items_in (map string_bytes words.now)) }
    ensures numbers { IfSome result AreNumbers }
{
    let until = stage_if_any(optional(words, UNTIL)?)?;
    let leaks = flag(words, PASSING)?;
    let clear = flag(words, CLEAR)?;
    let image = required(words, IMAGE)?;
    check_with(kind, stage_or_last(until), leaks, clear, image)
}

/// What the words ask of a dump.
#[tactic(auto, unfolding(pd_answers::specs::Words::request_of))]
fn read_dump(kind: Kind, words: &[String]) -> Option<Request<&str>>
    requires { AreItems (map string_bytes words.now) }
    ensures asked { read_as result ≡ words_spec.request_of (tool_spec.Dump kind) (items_in (map string_bytes words.now)) }
    ensures numbers { IfSome result AreNumbers }
{
    let shared = flag(words, SHARED)?;
    let file = optional(words, FILE)?;
    let image = required(words, IMAGE)?;
    dump_with(kind, shared, file, image)
}

/// A dump; only of a pool the leaves that are shared are told once.
fn dump_with<'a>(
    kind: Kind,
    shared: bool,
    file: Option<&'a str>,
    image: &'a str,
) -> Option<Request<&'a str>>
    ensures asked { read_as result ≡ dump_with kind shared (option_copied file.entry) image.now }
    ensures numbers { IfSome result AreNumbers }
{
    let asked = if !shared {
        Asked::Text(kind)
    } else {
        match kind {
            Kind::Thin => Asked::SharedText,
            Kind::Cache => return None,
            Kind::Era => return None,
        }
    };
    Some(Request::Query { asked, file, image })
}

/// A check; the flags stand only where it goes to its end.
fn check_with(
    kind: Kind,
    until: Stage,
    leaks: bool,
    clear: bool,
    image: &str,
) -> Option<Request<&str>>
    ensures asked { read_as result ≡ check_with kind until leaks clear image.now }
    ensures numbers { IfSome result AreNumbers }
{
    if !leaks && !clear {
        return Some(Request::Check { kind, until, image });
    }
    match until {
        Stage::Counts => {
            if clear {
                clearing_check(kind, leaks, image)
            } else {
                Some(Request::PassingCheck { kind, image })
            }
        }
        _ => None,
    }
}

/// A check that clears the flag "needs check"; only a pool and a cache have one.
fn clearing_check(kind: Kind, leaks: bool, image: &str) -> Option<Request<&str>>
    ensures asked { read_as result ≡ check_with kind Counts leaks true image.now }
    ensures numbers { IfSome result AreNumbers }
{
    let passing = if leaks {
        Passing::Leaks
    } else {
        Passing::Nothing
    };
    let flagged = match kind {
        Kind::Thin => Flagged::Pool,
        Kind::Cache => Flagged::Cache,
        Kind::Era => return None,
    };
    Some(Request::CheckAndClear {
        flagged,
        passing,
        image,
    })
}

/// What the words ask of a restore.
#[tactic(auto, unfolding(pd_answers::specs::Words::request_of))]
fn read_restore(kind: Kind, words: &[String]) -> Option<Request<&str>>
    requires { AreItems (map string_bytes words.now) }
    ensures asked { read_as result ≡ words_spec.request_of (tool_spec.Restore kind) (items_in (map string_bytes words.now)) }
    ensures numbers { IfSome result AreNumbers }
{
    let version = version_if_any(optional(words, VERSION)?)?;
    let text = required(words, TEXT)?;
    let image = required(words, OUTPUT)?;
    Some(Request::Restore {
        kind,
        version: version_or_first(version),
        text,
        image,
    })
}

/// What the words ask of the reverse map.
#[tactic(auto, unfolding(pd_answers::specs::Words::request_of))]
fn read_rmap(words: &[String]) -> Option<Request<&str>>
    requires { AreItems (map string_bytes words.now) }
    ensures asked { read_as result ≡ words_spec.request_of tool_spec.ReverseMap (items_in (map string_bytes words.now)) }
    ensures numbers { IfSome result AreNumbers }
{
    let region = read_region(required(words, REGION)?)?;
    let file = optional(words, FILE)?;
    let image = required(words, IMAGE)?;
    Some(Request::Query {
        asked: Asked::ReverseMap {
            first: region.first,
            end: region.end,
        },
        file,
        image,
    })
}

/// What the words ask of the list of devices.
#[tactic(auto, unfolding(pd_answers::specs::Words::request_of))]
fn read_device_list(words: &[String]) -> Option<Request<&str>>
    requires { AreItems (map string_bytes words.now) }
    ensures asked { read_as result ≡ words_spec.request_of tool_spec.DeviceList (items_in (map string_bytes words.now)) }
    ensures numbers { IfSome result AreNumbers }
{
    let file = optional(words, FILE)?;
    let image = required(words, IMAGE)?;
    Some(Request::Query {
        asked: Asked::DeviceList,
        file,
        image,
    })
}

/// What the words ask of the list of unused data blocks.
#[tactic(auto, unfolding(pd_answers::specs::Words::request_of))]
fn read_unused(words: &[String]) -> Option<Request<&str>>
    requires { AreItems (map string_bytes words.now) }
    ensures asked { read_as result ≡ words_spec.request_of tool_spec.Unused (items_in (map string_bytes words.now)) }
    ensures numbers { IfSome result AreNumbers }
{
    let _list = required(words, LIST)?;
    let file = optional(words, FILE)?;
    let image = required(words, IMAGE)?;
    Some(Request::Query {
        asked: Asked::Unused,
        file,
        image,
    })
}

/// What the words ask of the blocks that were written since an era.
#[tactic(auto, unfolding(pd_answers::specs::Words::request_of))]
fn read_since(words: &[String]) -> Option<Request<&str>>
    requires { AreItems (map string_bytes words.now) }
    ensures asked { read_as result ≡ words_spec.request_of tool_spec.Since (items_in (map string_bytes words.now)) }
    ensures numbers { IfSome result AreNumbers }
{
    let era = required_number(words, u32::MAX as u64, SINCE)?;
    let file = optional(words, FILE)?;
    let image = required(words, IMAGE)?;
    Some(Request::Query {
        asked: Asked::Since { era: era as u32 },
        file,
        image,
    })
}

/// What the words ask of the generator.
#[tactic(auto, unfolding(pd_answers::specs::Words::request_of))]
fn read_generate(words: &[String]) -> Option<Request<&str>>
    requires { AreItems (map string_bytes words.now) }
    ensures asked { read_as result ≡ words_spec.request_of tool_spec.Generate (items_in (map string_bytes words.now)) }
    ensures numbers { IfSome result AreNumbers }
{
    let number = generated_number(required(words, NUMBER)?)?;
    let file = optional(words, FILE)?;
    Some(Request::Generate { number, file })
}

/// What the words ask of a rehearsal.
#[tactic(auto, unfolding(pd_answers::specs::Words::request_of))]
fn read_rehearse(words: &[String]) -> Option<Request<&str>>
    requires { AreItems (map string_bytes words.now) }
    ensures asked { read_as result ≡ words_spec.request_of tool_spec.Rehearse (items_in (map string_bytes words.now)) }
    ensures numbers { IfSome result AreNumbers }
{
    let number = generated_number(required(words, NUMBER)?)?;
    let image = required(words, OUTPUT)?;
    Some(Request::Rehearse { number, image })
}

/// What the words ask of a writeback.
#[tactic(auto, unfolding(pd_answers::specs::Words::request_of))]
fn read_writeback(words: &[String]) -> Option<Request<&str>>
    requires { AreItems (map string_bytes words.now) }
    ensures asked { read_as result ≡ words_spec.request_of tool_spec.Writeback (items_in (map string_bytes words.now)) }
    ensures numbers { IfSome result AreNumbers }
{
    let metadata = required(words, METADATA)?;
    let fast = required(words, FAST)?;
    let origin = required(words, ORIGIN)?;
    Some(Request::Writeback {
        metadata,
        fast,
        origin,
    })
}

/// What the words ask of a shrink.
#[tactic(auto, unfolding(pd_answers::specs::Words::request_of))]
fn read_shrink(words: &[String]) -> Option<Request<&str>>
    requires { AreItems (map string_bytes words.now) }
    ensures asked { read_as result ≡ words_spec.request_of tool_spec.Shrink (items_in (map string_bytes words.now)) }
    ensures numbers { IfSome result AreNumbers }
{
    let shared = flag(words, SHARED)?;
    let input = required(words, INPUT)?;
    let output = required(words, OUTPUT)?;
    let pool = required(words, DATA)?;
    let blocks = required_number(words, u64::MAX, BLOCKS)?;
    Some(Request::Shrink {
        shared,
        input,
        output,
        pool,
        blocks,
    })
}

/// The number from 1 to 10000 that a word is.
#[tactic(auto, unfolding(pd_answers::specs::Words::generated_number))]
fn generated_number(word: &str) -> Option<u32>
    ensures number { result ≡ generated_number word.now }
    ensures within { IfSome result IsGenerated }
{
    match number_up_to(10000, word) {
        None => None,
        Some(number) => {
            if number == 0 {
                None
            } else {
                Some(number as u32)
            }
        }
    }
}

/// The stage that was given, and else the last one.
fn stage_or_last(until: Option<Stage>) -> Stage
    ensures { result ≡ stage_or_last until }
{
    match until {
        None => Stage::Counts,
        Some(until) => until,
    }
}

/// The stage that a word names, if there is one.
fn stage_if_any(word: Option<&str>) -> Option<Option<Stage>>
    ensures { result ≡ meant_if_any value_spec.Stage (option_copied word.entry) }
{
    match word {
        None => Some(None),
        Some(word) => match stage_named(word) {
            None => None,
            Some(stage) => Some(Some(stage)),
        },
    }
}

/// The stage that a word names.
#[tactic(auto, unfolding(pd_answers::specs::Words::stage_of))]
fn stage_named(word: &str) -> Option<Stage>
    ensures { result ≡ stage_of word.now }
{
    match word {
        "super" => Some(Stage::Super),
        "walk" => Some(Stage::Walk),
        "order" => Some(Stage::Order),
        "whole" => Some(Stage::Whole),
        "counts" => Some(Stage::Counts),
        _ => None,
    }
}

/// The version of the metadata that a word names, if there is one.
pub(crate) fn version_if_any(word: Option<&str>) -> Option<Option<u32>>
    ensures version { result ≡ meant_if_any value_spec.Version (option_copied word.entry) }
    ensures within { IfSome result (λ read. IfSome read IsVersion) }
{
    match word {
        None => Some(None),
        Some(word) => match version_number(word) {
            None => None,
            Some(version) => Some(Some(version)),
        },
    }
}

/// The version that was given, and else the first one.
fn version_or_first(version: Option<u32>) -> u32
    requires { IfSome version IsVersion }
    ensures version { result ≡ version_or_first version }
    ensures within { IsVersion result }
{
    match version {
        None => 1,
        Some(version) => version,
    }
}

/// The version that a word is.
#[tactic(auto, unfolding(pd_answers::specs::Words::version_of))]
fn version_number(word: &str) -> Option<u32>
    ensures version { result ≡ version_of (Some word.now) }
    ensures within { IfSome result IsVersion }
{
    match word {
        "1" => Some(1),
        "2" => Some(2),
        _ => None,
    }
}
