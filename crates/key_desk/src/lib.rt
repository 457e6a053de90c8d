//! An owner's desk. It never lets a one-time key sign twice.
//!
//! ```rust
//! // Any `Disk` can be used, for example one over a file. This disk is in memory.
//! let mut disk = MemDisk::new(alloc, 4160, 65_536, Vec::new(alloc), None)?;
//! let mut desk = Desk::create(alloc, &mut disk, 5, &[0; 48])?;
//! let mut signature = [0; 1292];
//! let slot = desk.sign(&mut disk, b"version 1", &mut signature)?;
//! verify(&desk.public(), b"version 1", &signature)?;
//! // The text is still signed after a crash, and its one-time key signs no other text.
//! let mut disk = disk.crash(Pick::Old);
//! let mut desk = Desk::reopen(alloc, &mut disk)?;
//! let is_signed = desk.signed(&mut disk, b"version 1")?;
//! ```
#![tactic(auto)]

mod create;
mod desk;
mod find;
mod laws;
mod left;
mod links;
mod spend;
mod start;
mod succeed;
mod texts;

pub use desk::{Desk, DeskError, Spent, Texted, Ticket};
pub use desk_areas::{Count, StartError, signed_lists_pairs};
pub use laws::{
    closed_slots_are_new, no_slot_signs_twice, signing_adds, tickets_back_keep_fits,
    tickets_keep_fits,
};
pub use links::{AreaError, LinksError};
pub use succeed::SucceedError;
