//! The owner's desk as a disk: a file that is inspected after it is opened and before it is read or written.
#![tactic(auto)]

pub use desk_disk::DeskDisk;
pub use laws::opening_laws;
pub use unsafe_desk::Unsafe;

mod desk_disk;
mod handle;
mod laws;
mod state;
mod unsafe_desk;
