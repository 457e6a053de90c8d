//! Reduces a forgery to the hash. A forgery is a verified signature of a text that the owner's key never signed.
//! With the key's own `I` and `SEED`, it yields a collision of SHA-256, or a value of a chain that no signature of
//! the key has released.
//!
//! The comparisons are generic in the hash.
#![tactic(auto)]

pub use laws::released_laws;
pub use reduced::{ReduceError, Reduced};
pub use reducing::reduce;
pub use ways::{TwoNodes, TwoSteps, highest_meeting, meeting};

mod comparing;
mod laws;
mod reduced;
mod reducing;
mod texts;
mod ways;
