//! Blocks of an array: their rules, and their words read and written, as
//! "drivers/md/persistent-data/dm-array.c" stores them.
#![tactic(auto)]

mod array;

pub use array::{
    Word, array_len, array_rules, array_word, seal_array, set_array_word, write_array,
};
