//! Shortest paths by a label-setting search (Dijkstra's algorithm), over any ground and over a whole road map.
//!
//! ```rust
//! let map = Map::build(alloc, parts)?;
//! // `None` exactly if no walk joins the two ends.
//! let path = shortest(alloc, &map, 1, 3)?;
//! assert!(rt; knows(&map, 1));
//! // The distances from 1 to all nodes that are at most as far as node 3.
//! let distances = distances_to(alloc, &map, 1, 3)?;
//! let to_4 = distances.get(4);
//! ```
#![tactic(auto)]

pub use ball::{Ball, ball_to};
pub use bounded::{Bound, headed};
pub use gated::{Gate, NoGate, lengths_through};
pub use ground::Ground;
pub use label_setting::{search, search_in};
pub use labels::Labels;
pub use listed::Listed;
pub use marks::{Mark, Marks};
pub use numbered::Numbered;
pub use over_map::{WholeMap, distances_to};
pub use path::{Path, knows, shortest};
pub use places::{placed_ids, rising_ids};
pub use survey::Survey;

mod ball;
mod bounded;
mod front;
mod gated;
mod ground;
mod label;
mod label_setting;
mod labels;
mod listed;
mod marks;
mod naming;
mod nearby;
mod net;
mod numbered;
mod over_map;
mod paged;
mod path;
mod places;
mod positions;
mod slots;
mod survey;
