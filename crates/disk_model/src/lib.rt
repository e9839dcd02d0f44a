//! A disk whose power may be cut inside any call, disks in memory and over a file, and the shelf
//! that gives them. A layer above is proved over all disks, by what each call does to the images.
#![tactic(auto)]

mod bytes;
mod contents;
mod disk;
mod entry;
mod fail_reads;
mod file_disk;
mod file_shelf;
mod laws;
mod memory_disk;
mod memory_shelf;
mod power;
mod record_disk;
mod shelf;
mod spans;
mod tally;
mod untold;

pub use disk::{CutAt, Disk, DiskFault, Tear};
pub use fail_reads::{FailReads, ReadFaults};
pub use file_disk::FileDisk;
pub use file_shelf::{FileShelf, ShelfDisk};
pub use laws::{
    a_cut_comes_inside_the_call_that_it_names, a_given_disk_stays_given,
    a_restart_leaves_one_image, a_service_is_cut_inside_a_call, a_shelf_gives_such_disks,
    an_arm_begins_both_numbers_at_0, calls_without_a_cut_come_before_it,
    counts_follow_from_answers, images_since_a_moment_compose, no_cut_comes_unarmed,
};
pub use memory_disk::MemoryDisk;
pub use memory_shelf::{MemoryShelf, ShelfEntry};
pub use record_disk::RecordDisk;
pub use shelf::{Shelf, ShelfFault};
pub use untold::Untold;

#[cfg(test)]
mod tests;
