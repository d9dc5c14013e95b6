//! The checksums of blocks: CRC-32C without its final inversion, salted by the kind of block.
//!
//! Each block of "drivers/md/persistent-data" begins with the checksum of its other bytes.
#![tactic(auto)]

mod sealing;
mod tables;

pub use sealing::{any_valid, crc32c_raw, is_sealed, salted, seal};
