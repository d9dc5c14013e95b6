//! The texts of a cache and of an era target, read from a source line by line and printed.
//!
//! Each is the reader of any text (`TextReader`) at what the lines so far say of the next one. The origins of a cache aren't
//! kept: a line that repeats the origin of an earlier one is read as any other, and whoever needs to know that none repeats
//! looks for it (`cache_text_stops_where_an_origin_repeats`). The runs of an era target are as long as can be.
#![tactic(auto)]

mod cache_lines;
mod cache_state;
mod era_lines;
mod era_state;

pub use cache_lines::{
    CacheLine, cache_lines_are_printed_in_order, cache_text_is_its_lines,
    cache_text_stops_where_an_origin_repeats, print_cache, read_cache_lines_are_in_range,
    read_cache_lines_mean_a_cache, whole_cache_text_spells,
};
pub use cache_state::{CacheState, CacheText};
pub use era_lines::{
    EraLine, EraRuns, era_lines_are_printed_in_order, era_text_is_its_lines, print_era,
    read_era_lines_are_in_range, read_era_lines_mean_a_target, runs_of_eras_are_apart,
    whole_era_text_spells,
};
pub use era_state::{EraState, EraText};
