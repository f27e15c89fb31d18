//! A disk as the store sees it: what a read gives, what a crash may leave, and when a call may fail.
#![tactic(auto)]

mod disk;
mod durable;
mod entry;
mod file;
mod image;
mod memory;

pub use disk::{Disk, DiskFailed, SIZE_LIMIT};
pub use durable::write_synced;
pub use file::FileDisk;
pub use memory::MemoryDisk;
