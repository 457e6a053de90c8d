//! The owner's commands: they make a key, make the next key after it, report the number of remaining one-time keys,
//! sign publications, and write the links between keys.
#![tactic(auto)]

pub use counting::desk;
pub use linking::links;
pub use making::key;
pub use publishing::publish;
pub use succeeding::succeed;

mod counting;
mod linking;
mod making;
mod publishing;
mod succeeding;
mod verifying;
