//! The request that the words after cache_repair spell, in both of its forms.

ghost use Rattle.std.specs.Prelude.{◌≡◌, map, string_bytes, IfSome};
ghost use Rattle.pd_answers.specs.declared.tool.Tool.TheVariants as tool_spec;
ghost use Rattle.pd_answers.specs.Words as words_spec;
ghost use Rattle.pd_words.specs.Items.{items_in, AreItems};
ghost use Rattle.pd_words.specs.Words.{read_as, AreNumbers};

use crate::table::{DIRTY_ROOT, DRY_RUN, HINT_ROOT, INPUT, MAP_ROOT, OUTPUT, VERSION};
use crate::values::{optional, optional_number, required};
use crate::words::version_if_any;
use pd_answers::{Asked, CacheRoots, Request};

/// The roots of a cache's arrays that the words name.
#[tactic(auto, unfolding(pd_answers::specs::Words::cache_roots))]
fn cache_roots(words: &[String]) -> Option<CacheRoots>
    requires { AreItems (map string_bytes words.now) }
    ensures { result ≡ words_spec.cache_roots (items_in (map string_bytes words.now)) }
{
    let mappings = optional_number(words, u64::MAX, MAP_ROOT)?;
    let hints = optional_number(words, u64::MAX, HINT_ROOT)?;
    let dirty = optional_number(words, u64::MAX, DIRTY_ROOT)?;
    Some(CacheRoots {
        mappings,
        hints,
        dirty,
    })
}

/// What the words ask of a cache's repair.
#[tactic(auto, unfolding(pd_answers::specs::Words::request_of))]
pub(crate) fn read_repair_cache(words: &[String]) -> Option<Request<&str>>
    requires { AreItems (map string_bytes words.now) }
    ensures asked { read_as result ≡ words_spec.request_of tool_spec.RepairCache (items_in (map string_bytes words.now)) }
    ensures numbers { IfSome result AreNumbers }
{
    let version = version_if_any(optional(words, VERSION)?)?;
    let named = cache_roots(words)?;
    let input = required(words, INPUT)?;
    let output = required(words, OUTPUT)?;
    Some(Request::RepairCache {
        version,
        named,
        input,
        output,
    })
}

/// What the words ask of a cache's repair that writes nothing. The version that it would write changes nothing of what is told.
#[tactic(auto, unfolding(pd_answers::specs::Words::request_of))]
pub(crate) fn read_dry_repair_cache(words: &[String]) -> Option<Request<&str>>
    requires { AreItems (map string_bytes words.now) }
    ensures asked { read_as result ≡ words_spec.request_of tool_spec.DryRepairCache (items_in (map string_bytes words.now)) }
    ensures numbers { IfSome result AreNumbers }
{
    let _dry_run = required(words, DRY_RUN)?;
    let _version = version_if_any(optional(words, VERSION)?)?;
    let named = cache_roots(words)?;
    let input = required(words, INPUT)?;
    Some(Request::Query {
        asked: Asked::KeptCache(named),
        file: None,
        image: input,
    })
}
