//! Tests of whole runs of the tools, over objects in memory: checks, dumps, queries, the generator and rehearsals of pools; and of
//! all tools where something fails: each call of each object of each request in turn, a device that stops in front of each
//! call, devices that tell nothing, and texts that never end.
#![tactic(auto)]

#[cfg(test)]
mod asked;
#[cfg(test)]
mod device_list_tests;
#[cfg(test)]
mod dump_tests;
#[cfg(test)]
mod failing_tests;
pub mod hidden;
#[cfg(test)]
mod hidden_tests;
#[cfg(test)]
mod order_tests;
#[cfg(test)]
mod rehearse_tests;
#[cfg(test)]
mod requests;
#[cfg(test)]
mod reverse_map_tests;
#[cfg(test)]
mod shared_dump_tests;
#[cfg(test)]
mod shared_restore_tests;
#[cfg(test)]
mod stored_tests;
#[cfg(test)]
mod super_tests;
#[cfg(test)]
mod unused_tests;
#[cfg(test)]
mod walk_tests;
#[cfg(test)]
mod whole_tests;
