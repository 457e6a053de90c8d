//! Writes a publication piece by piece to a sink and to mirrors, without a list of all its octets.
#![tactic(auto)]

pub use pieces::{Pieces, pieces_of};
pub use sending::send;

mod fields;
mod filling;
mod pieces;
mod rest;
mod sending;
