//! The base of all commands: faults, verdicts and statuses, the files that commands load, their output, and the
//! definitions with which a command's guarantees are stated.
#![tactic(auto)]

pub use ended::{Conclusion, Ended};
pub use fault::Fault;
pub use files::{
    load_chain, load_file, load_hex, load_hex_text, load_map, load_parts, load_publication,
};
pub use told::{Told, write_text, write_told};

mod ended;
mod fault;
mod files;
mod told;
