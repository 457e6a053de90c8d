//! Tests of standard input, standard output, a mirror in a file, and the gates of a real file. They show the
//! guarantees of the functions below `serve` and `publish`, and of the desk's lower functions, for the objects that
//! the program uses. Below them each call of the system (crate `outside`) is made, over real files and streams, and over
//! doubles, which keep each call with what it is given, and answer or refuse it as a table says.
//!
//! The program's own functions are generic. Their clauses are stated here for these objects, so a body that reads
//! or writes nothing is refused here too.
#![tactic(auto)]

pub use gates::{gate, open};
pub use streams::{frame, mirror, print};

#[cfg(test)]
mod asserts;
#[cfg(test)]
mod double_files;
#[cfg(test)]
mod double_streams;
#[cfg(test)]
mod doubled_disk;
#[cfg(test)]
mod doubled_files;
#[cfg(test)]
mod doubled_streams;
#[cfg(test)]
mod doubled_tail;
mod gates;
#[cfg(test)]
mod script;
mod streams;
#[cfg(test)]
mod system;
