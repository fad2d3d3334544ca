//! A disk of two files: what it reads as, what a crash may leave of it, and disks in memory that tear, fail and stop.
#![tactic(auto)]

mod disk;
mod failing;
mod fused;
mod laws;
mod memory;
mod tear;

pub use disk::{CrashDisk, Disk, DiskRefusal, Failed};
pub use failing::Failing;
pub use fused::Fused;
pub use laws::{
    a_sync_goes_on, a_synced_file_has_one_image, a_write_goes_on, a_write_tears_in_its_range,
    calls_are_counted, calls_are_whole, calls_join, calls_stop, reads_as_an_image,
    restarts_as_an_image, unwritten_bytes_stay,
};
pub use memory::Memory;

#[cfg(test)]
mod tests;
