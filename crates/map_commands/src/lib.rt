//! The commands over maps: a shortest route, the root over a map's plain leaves, and the road file of a graph and
//! its coordinates.
#![tactic(auto)]

pub use dimacs_files::dimacs;
pub use routing::route;
pub use tree_root::root;

mod dimacs_files;
mod routing;
mod tree_root;
