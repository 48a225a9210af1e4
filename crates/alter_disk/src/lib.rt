//! The outside as the program sees it: a disk with a database and its journal, a source of bytes and a sink.
#![tactic(auto)]

mod buffers;
mod call;
mod copy;
mod disk;
mod fail_source;
mod fault;
mod file_disk;
mod fuse_disk;
mod list_sink;
mod list_source;
mod memory;
mod sink;
mod source;
mod std_sink;
mod std_source;
mod steps;
#[cfg(test)]
mod tests;
mod way;
mod which;

pub use disk::Disk;
pub use fail_source::FailSource;
pub use fault::{Failed, OpenFault};
pub use file_disk::FileDisk;
pub use fuse_disk::FuseDisk;
pub use list_sink::ListSink;
pub use list_source::ListSource;
pub use memory::MemoryDisk;
pub use sink::Sink;
pub use source::Source;
pub use std_sink::StdSink;
pub use std_source::StdSource;
pub use steps::{cut_and_sync, shorten, write_and_sync};
pub use way::Way;
pub use which::Which;
