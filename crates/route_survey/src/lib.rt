//! A survey: random queries over a grid, each of which a server answers and a client checks. This crate also has
//! the command that makes a survey without any file.
#![tactic(auto)]

pub use commanding::survey;
pub use errors::SurveyError;
pub use surveying::survey_method;

mod asked;
mod asking;
mod commanding;
mod errors;
mod line;
mod publishing;
mod surveying;
mod tally;
