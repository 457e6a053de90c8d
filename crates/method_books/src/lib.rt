//! The books of the four methods, and a book of any of them. To add a method, add a variant, a line in each call,
//! and a line in each definition of `specs/AnyBooks`.
#![tactic(auto)]

pub use any::AnyBook;
pub use dij::DijBook;
pub use full::FullBook;
pub use hyp_method::HypBook;
pub use ldm_method::LdmBook;

mod any;
mod by_codes;
mod by_table;
mod dij;
mod extras;
mod full;
mod gathering;
mod grid;
mod heading;
mod hyp;
mod hyp_method;
mod inland;
mod ldm;
mod ldm_method;
mod near;
mod pair_places;
mod parameters;
mod rising;
mod within;
