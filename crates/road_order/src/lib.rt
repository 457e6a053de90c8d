//! The six orders of a map's ids. The leaves follow one of them.
#![tactic(auto)]

pub use by_kind::order;
pub use error::OrderError;
pub use laws::order_laws;

mod breadth;
mod by_id;
mod by_kind;
mod curve;
mod depth;
mod error;
mod hilbert;
mod kd;
mod keyed;
mod label;
mod laws;
mod neighbour;
mod shuffled;
