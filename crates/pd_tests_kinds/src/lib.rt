//! Tests of whole runs of the tools of caches and of era targets, over objects in memory: checks, dumps, queries, restores,
//! repairs and writebacks, and checks that clear the flag "needs check".
#![tactic(auto)]

#[cfg(test)]
mod cache_repair_tests;
#[cfg(test)]
mod cache_restore_tests;
#[cfg(test)]
mod cache_roots_tests;
#[cfg(test)]
mod cache_tests;
#[cfg(test)]
mod era_restore_tests;
#[cfg(test)]
mod era_tests;
#[cfg(test)]
mod writeback_tests;
