//! The auditor's commands. `audit` writes what a reply for a route is evidence of, and `audit_reach` does the same
//! for the nodes within a radius. `nearest_headline` states the guarantee for the nearest nodes that a client picks
//! from these. All kinds of replies share this code. `reduce` reduces a forgery and writes the result.
#![tactic(auto)]

pub use auditing::audit;
pub use near_auditing::audit_reach;
pub use picking::nearest_headline;
pub use reducing::reduce;
pub use telling::{RouteTelling, Telling};

mod auditing;
mod lines;
mod near_auditing;
mod picking;
mod reducing;
mod slots;
mod telling;
