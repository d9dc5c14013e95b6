//! The generator: the text of a pool with a device and its snapshot, for a number, as a source. And the rehearsal: that pool is
//! restored onto a device, checked, dumped and counted.
#![tactic(auto)]

mod lines;
mod rehearsal;
mod source;

pub use rehearsal::{Rehearsal, RehearseFault, rehearse};
pub use source::{GenSource, generated_text_spells_a_pool, put_generated};
