//! Tests of whole runs, over objects in memory, that write a pool: restores, repairs and what they would keep, searches for the
//! roots of pools whose superblock is lost and repairs from named ones, shrinks, and checks that clear the flag "needs check".
#![tactic(auto)]

#[cfg(test)]
mod damaged_tests;
#[cfg(test)]
mod flag_tests;
#[cfg(test)]
mod kept_tests;
#[cfg(test)]
mod lost;
#[cfg(test)]
mod made_up_tests;
#[cfg(test)]
mod named_tests;
#[cfg(test)]
mod repair_tests;
#[cfg(test)]
mod restore_tests;
#[cfg(test)]
mod search_tests;
#[cfg(test)]
mod shared_pool;
#[cfg(test)]
mod shared_repair_tests;
#[cfg(test)]
mod shared_restore_tests;
#[cfg(test)]
mod shrink_tests;
#[cfg(test)]
mod told_tests;
