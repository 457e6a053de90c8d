//! The server's commands: the reply to a query for a route or a range over a publication, and the service over
//! frames.
#![tactic(auto)]

pub use proving::prove;
pub use reaching::reach;
pub use serving::{serve, serve_signed};

mod proving;
mod reaching;
mod serving;
