//! A sink that accepts a publication only if the expected key has signed it.
#![tactic(auto)]

pub use signed_front::is_signed_under;
pub use waiting::SignedSink;

mod signed_front;
mod waiting;
