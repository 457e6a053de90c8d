//! The owner, who signs and publishes a map and its hints.
#![tactic(auto)]

pub use errors::PublishError;
pub use publishing::{make_signable, publish};

mod errors;
mod publishing;
mod widths;
