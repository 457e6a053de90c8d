//! Road files: reading and printing the text that lists a map's nodes and roads.
//!
//! A file is a list of lines, and a line is a list of words separated by spaces and tabs. Lines without words and
//! lines whose first word begins with `#` are skipped. The first other line is `roads 1`, and each later one is
//! `node ID X Y` or `road A B LENGTH`.
#![tactic(auto)]

mod draw;
mod entry;
mod error;
mod grid;
mod laws;
mod lines;
mod numbers;
mod printer;
mod reader;
mod words;

pub use draw::Draw;
pub use error::{GridError, RoadError};
pub use grid::grid_roads;
pub use laws::grid_laws;
pub use lines::{Line, Lines, split_line, without_return};
pub use numbers::{coordinate, natural, wide_natural};
pub use printer::print_roads;
pub use reader::{MOST_NODES, MOST_ROADS, printed_roads_are_read, read_roads};
pub use words::{FourWords, four_words, skip_blanks, split_word};
