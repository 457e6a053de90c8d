//! The areas of an owner's disk, each a key with its slots. The functions make an area, write one slot, and read
//! areas.
#![tactic(auto)]

pub use area::{Area, Count, build_key, place_in, slots_of};
pub use errors::StartError;
pub use finding::{base_of, find_earlier, find_text, read_text};
pub use laws::signed_lists_pairs;
pub use making::{clear_first, clear_next, look_for_key, open_first, put_block};
pub use reading::{Found, has_name, read_gate, read_next};
pub use writing::{open_gate, put_text};

mod area;
mod errors;
mod finding;
mod laws;
mod making;
mod reading;
mod writing;
