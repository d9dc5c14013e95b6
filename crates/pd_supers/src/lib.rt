//! The superblocks: their fields read and written, and the rules that they break.
#![tactic(auto)]

mod cache;
mod era;
mod shared;
mod thin;

ghost use Rattle.std.specs.Prelude.{◌≡◌};
ghost use Rattle.pd_kinds.specs.Rule.{same_rule};
ghost use Rattle.pd_kinds.specs.Rule.{has_rule};
ghost use Rattle.pd_kinds.specs.declared.rule.Rule.{Rule as BrokenRule};
ghost use Rattle.pd_kinds.specs.declared.rule.Rule.TheVariants.{Size};

pub use cache::{cache_super_edges, cache_super_rules, read_cache_super, write_cache_super};
pub use era::{
    era_snap_edges, era_snap_rules, era_super_edges, era_super_rules, read_era_super,
    write_era_super,
};
use pd_kinds::{Rule, Rules};
pub use pd_kinds::{CacheSuper, EraSuper, SmRoot, ThinSuper};
pub use thin::{
    read_thin_super, thin_held_edges, thin_held_rules, thin_super_edges, thin_super_rules,
    write_thin_super,
};

/// The rules of a device that has no block 0: Size alone.
pub fn missing_super() -> Rules
    ensures { (rule : BrokenRule) → has_rule result rule ≡ same_rule Size rule }
{
    Rules::none().with(Rule::Size)
}
