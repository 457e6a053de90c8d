//! How commands open the owner's desk, over the keys on the disk.
#![tactic(auto)]

pub use opening::open_desk;

mod opening;
