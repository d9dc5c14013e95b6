//! Texts of lines of words: what a text spells, where it is refused and why, and the verdict on a text where so many blocks
//! are there.
//!
//! What holds of every kind stands over a record, `TextFormat` of `specs/`. Each kind's text is one: that of a table (`Table`),
//! which says each kind of line once. Then come the texts of thin pools, caches and era targets, and how many blocks they need.
#![tactic(auto)]

mod cause;
mod laws;
mod value;

pub use cause::TextCause;
pub use laws::{
    cache_text_has_one_meaning, cache_text_has_one_verdict,
    cache_text_is_accepted_where_there_is_room, cache_text_spells,
    cache_text_stops_at_a_repeated_origin, cache_text_unless_refused, era_text_has_one_meaning,
    era_text_has_one_verdict, era_text_is_accepted_where_there_is_room, era_text_spells,
    era_text_unless_refused, era_text_with_runs_apart, ten_levels_are_enough,
    thin_text_has_one_meaning, thin_text_has_one_verdict,
    thin_text_is_accepted_where_there_is_room, thin_text_spells, thin_text_unless_refused,
    thin_text_with_runs_apart,
};
pub use value::{Field, Value};
