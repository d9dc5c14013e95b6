//! The texts of pools, read from a source line by line and printed (`thin_dump`, `thin_restore`).
//!
//! What all kinds of text share stands over a trait (`TextState`), of which each kind is one type: the reader of a
//! text, its words and its numbers, and the causes of a refusal.
#![tactic(auto)]

mod leaves;
mod reader;
mod state;
mod thin_laws;
mod thin_print;
mod thin_state;
mod thin_text;
mod words;

pub use reader::{ReadFault, TextFault, TextReader};
pub use state::{Stage, TextLines, TextState};
pub use thin_laws::{
    pool_text_is_its_lines, read_pool_lines_are_in_range, read_thin_lines_are_in_range,
    read_thin_lines_mean_a_pool, thin_lines_are_printed_in_order, whole_thin_text_spells,
};
pub use thin_print::{
    add_uuid, add_word, bytes_of_end, bytes_of_first, bytes_of_shared_first, print_end,
    print_first, print_shared_first, print_thin,
};
pub use thin_state::ThinState;
pub use thin_text::{Run2, ThinLine, ThinText};
pub use words::{Names, Numbers, number_word, read_uuid};
