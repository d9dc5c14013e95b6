//! The request that the words after thin_repair spell, in each of its forms.

ghost use Rattle.std.specs.Prelude.{◌≡◌, map, string_bytes, IfSome};
ghost use Rattle.pd_answers.specs.declared.tool.Tool.TheVariants as tool_spec;
ghost use Rattle.pd_answers.specs.Words as words_spec;
ghost use Rattle.pd_words.specs.Items.{items_in, AreItems};
ghost use Rattle.pd_words.specs.Words.{read_as, AreNumbers, IsPoolSize};

use crate::table::{
    BLOCK_SIZE, DATA_BLOCKS, DETAILS_ROOT, DRY_RUN, INPUT, MAPPING_ROOT, OUTPUT, SHARED,
    TRANSACTION,
};
use crate::values::{flag, required, required_number};
use pd_answers::{Asked, GivenSuper, NamedRoots, Request};

/// What the words say of a superblock that is lost, or isn't to be used.
#[tactic(auto, unfolding(pd_answers::specs::Words::given_super))]
fn given_super(words: &[String]) -> Option<GivenSuper>
    requires { AreItems (map string_bytes words.now) }
    ensures given { result ≡ words_spec.given_super (items_in (map string_bytes words.now)) }
    ensures within { IfSome result (λ given. IsPoolSize given.blocks) }
{
    let transaction = required_number(words, u64::MAX, TRANSACTION)?;
    let block_size = required_number(words, u32::MAX as u64, BLOCK_SIZE)?;
    let blocks = required_number(words, 1 << 40, DATA_BLOCKS)?;
    Some(GivenSuper {
        transaction,
        block_size: block_size as u32,
        blocks,
    })
}

/// The roots that the words name.
#[tactic(auto, unfolding(pd_answers::specs::Words::named_roots))]
fn named_roots(words: &[String]) -> Option<NamedRoots>
    requires { AreItems (map string_bytes words.now) }
    ensures { result ≡ words_spec.named_roots (items_in (map string_bytes words.now)) }
{
    let top = required_number(words, u64::MAX, MAPPING_ROOT)?;
    let details = required_number(words, u64::MAX, DETAILS_ROOT)?;
    Some(NamedRoots { top, details })
}

/// What the words ask of a repair.
#[tactic(auto, unfolding(pd_answers::specs::Words::request_of))]
pub(crate) fn read_repair(words: &[String]) -> Option<Request<&str>>
    requires { AreItems (map string_bytes words.now) }
    ensures asked { read_as result ≡ words_spec.request_of tool_spec.Repair (items_in (map string_bytes words.now)) }
    ensures numbers { IfSome result AreNumbers }
{
    let shared = flag(words, SHARED)?;
    let input = required(words, INPUT)?;
    let output = required(words, OUTPUT)?;
    Some(Request::Repair {
        shared,
        input,
        output,
    })
}

/// What the words ask of a repair without a superblock.
#[tactic(auto, unfolding(pd_answers::specs::Words::request_of))]
pub(crate) fn read_search(words: &[String]) -> Option<Request<&str>>
    requires { AreItems (map string_bytes words.now) }
    ensures asked { read_as result ≡ words_spec.request_of tool_spec.Search (items_in (map string_bytes words.now)) }
    ensures numbers { IfSome result AreNumbers }
{
    let shared = flag(words, SHARED)?;
    let input = required(words, INPUT)?;
    let output = required(words, OUTPUT)?;
    let given = given_super(words)?;
    Some(Request::Search {
        shared,
        input,
        output,
        given,
    })
}

/// What the words ask of a repair from named roots.
#[tactic(auto, unfolding(pd_answers::specs::Words::request_of))]
pub(crate) fn read_named_repair(words: &[String]) -> Option<Request<&str>>
    requires { AreItems (map string_bytes words.now) }
    ensures asked { read_as result ≡ words_spec.request_of tool_spec.NamedRepair (items_in (map string_bytes words.now)) }
    ensures numbers { IfSome result AreNumbers }
{
    let shared = flag(words, SHARED)?;
    let input = required(words, INPUT)?;
    let output = required(words, OUTPUT)?;
    let given = given_super(words)?;
    let named = named_roots(words)?;
    Some(Request::RepairNamed {
        shared,
        input,
        output,
        given,
        named,
    })
}

/// What the words ask of a repair that writes nothing. Whether leaves are shared changes nothing of what is told.
#[tactic(auto, unfolding(pd_answers::specs::Words::request_of))]
pub(crate) fn read_dry_repair(words: &[String]) -> Option<Request<&str>>
    requires { AreItems (map string_bytes words.now) }
    ensures asked { read_as result ≡ words_spec.request_of tool_spec.DryRepair (items_in (map string_bytes words.now)) }
    ensures numbers { IfSome result AreNumbers }
{
    let _dry_run = required(words, DRY_RUN)?;
    let _shared = flag(words, SHARED)?;
    let input = required(words, INPUT)?;
    Some(Request::Query {
        asked: Asked::Kept,
        file: None,
        image: input,
    })
}

/// What the words ask of a repair without a superblock that writes nothing.
#[tactic(auto, unfolding(pd_answers::specs::Words::request_of))]
pub(crate) fn read_dry_search(words: &[String]) -> Option<Request<&str>>
    requires { AreItems (map string_bytes words.now) }
    ensures asked { read_as result ≡ words_spec.request_of tool_spec.DrySearch (items_in (map string_bytes words.now)) }
    ensures numbers { IfSome result AreNumbers }
{
    let _dry_run = required(words, DRY_RUN)?;
    let _shared = flag(words, SHARED)?;
    let input = required(words, INPUT)?;
    let given = given_super(words)?;
    Some(Request::DrySearch {
        input,
        given,
        named: None,
    })
}

/// What the words ask of a repair from named roots that writes nothing.
#[tactic(auto, unfolding(pd_answers::specs::Words::request_of))]
pub(crate) fn read_dry_named(words: &[String]) -> Option<Request<&str>>
    requires { AreItems (map string_bytes words.now) }
    ensures asked { read_as result ≡ words_spec.request_of tool_spec.DryNamed (items_in (map string_bytes words.now)) }
    ensures numbers { IfSome result AreNumbers }
{
    let _dry_run = required(words, DRY_RUN)?;
    let _shared = flag(words, SHARED)?;
    let input = required(words, INPUT)?;
    let given = given_super(words)?;
    let named = named_roots(words)?;
    Some(Request::DrySearch {
        input,
        given,
        named: Some(named),
    })
}
