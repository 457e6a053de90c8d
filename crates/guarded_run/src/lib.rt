//! The program with the look at the owner's desk: one call performs the opening, the look, the run and the writing to
//! the sink, in this order.
#![tactic(auto)]

pub use guarding::{End, Guarded, Unsynced, guarded_run};
pub use laws::guarded_calls_are_steps;
pub use losing::room_for_lost;
pub use on_files::run_on_files;
pub use owner_key::KeyFile;
pub use shipping::{Objects, shipped};
pub use sights::{left_after, sight_on};
pub use telling::{News, Reason, folder_fault, news_of, reason_of};
pub use uses::{keys_used, uses_desk, writes_desk};

mod guarding;
mod laws;
mod losing;
mod on_files;
mod owner_key;
mod shipping;
mod sights;
mod telling;
mod uses;
