//! What is asked of an image that was found sound, and put as text: a query of any kind, and what its lines are put with.
//!
//! What is put is said over the bytes of any image that the device tells. The laws of the crates below say what
//! that comes to in an image without faults.
#![tactic(auto)]

mod query;

pub use query::{Query, QueryFault, finish, print_line, print_text_line, read_super};
