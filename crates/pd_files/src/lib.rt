//! The objects outside over real files and the standard streams: the trusted edge.
//!
//! They tell nothing of what is read and written: that a file keeps what is written isn't proved. What is proved is
//! which calls of a file a device makes, in which order, and that it answers what the file gave.
#![tactic(auto)]

mod block_file;
mod file_device;
mod open_files;
mod recorded_file;
mod run;
mod streams;

pub use file_device::FileDevice;
pub use open_files::OpenFiles;
pub use streams::{StdSink, StdSource};
