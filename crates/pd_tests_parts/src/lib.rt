//! Tests of the parts below the tools: what no clause says of each crate, what one crate writes and another reads, trees, arrays
//! and space maps as they are written part by part; and lines and texts: refused texts in pieces, hostile ones, texts that are
//! printed again, and a small copy of a text that is proved from the contracts alone.
#![tactic(auto)]

#[cfg(test)]
mod build_tests;
#[cfg(test)]
mod cache_text_tests;
#[cfg(test)]
mod codec_tests;
#[cfg(test)]
mod count_tests;
#[cfg(test)]
mod draft_tests;
#[cfg(test)]
mod era_text_tests;
#[cfg(test)]
mod image_tests;
#[cfg(test)]
mod map_tests;
#[cfg(test)]
mod objects;
#[cfg(test)]
mod packed_tests;
#[cfg(test)]
mod pool_text_tests;
#[cfg(test)]
mod refusals;
pub mod small_copy;
#[cfg(test)]
mod small_restore;
#[cfg(test)]
mod text_tests;
#[cfg(test)]
mod tree_tests;
