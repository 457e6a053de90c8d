//! How commands build books from the parts and settings of a publication. The result is a book, or the first reason
//! why there is none.
#![tactic(auto)]

pub use installing::{install, not_built};

mod installing;
