//! Which mapping tree and which details tree of a pool without a superblock belong together, and which such pair is the
//! best: what is measured of each sound tree, and the choice among the measured ones (`thin_repair`).
#![tactic(auto)]

mod comparing;
mod gauges;
mod laws;
mod listing;
mod measures;

pub use comparing::{ListCursors, do_trees_fit};
pub use gauges::{DetailsGauge, Gauge, MappingsGauge, TopGauge};
pub use laws::{fitting_trees_have_one_list, found_trees_are_sound, measures_are_those_of_lists};
pub use listing::{DeviceCounts, list_of_details, list_of_top};
pub use measures::{Measured, Measures, measure_trees};
