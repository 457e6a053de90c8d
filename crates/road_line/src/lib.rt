//! The program's output lines: routes, nodes within a radius, verdicts, findings and desks.
#![tactic(auto)]

pub use desk_line::line_of_desk;
pub use evidence_line::{line_of_collision, line_of_forged, line_of_right};
pub use read_back::{read_refused, read_refused_near};
pub use refused_line::line_of_refused_near;
pub use route_line::line_of_route;
pub use verdict_line::{line_of_accepted, line_of_refused};
pub use within_line::line_of_within;

mod desk_line;
mod evidence_line;
mod read_back;
mod refused_line;
mod route_line;
mod verdict_line;
mod within_line;
