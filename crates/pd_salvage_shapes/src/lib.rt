//! What can be saved of a damaged thin pool, with the leaves that its devices share (`thin_repair`, `thin_shrink`).
//!
//! Of each leaf that is met a note is kept with the runs that are saved of it, and of each device the notes that it met. A
//! leaf that is met whole twice or more is shared; what is saved of the others is a device's own.
#![tactic(auto)]

mod note;
mod numbers;
mod once;
mod pieces;
mod shape;
mod tops;
mod uses;
mod visiting;

pub use shape::salvage_shape;
