//! Maps and settings that tests share. The most used one is the map of five nodes. It has two routes from 1 to 3:
//! one of length 9 over 2, and one of length 10 over 4. Node 5 has no road.
#![tactic(auto)]

pub use leaves::{are_known, leaf_with, leaves_of};
pub use maps::{FIVE_NODES, NODES, ROADS, apart, map_of, parts_of};

mod leaves;
mod maps;

use book_model::Settings;

/// DIJ in order of ids, with fan-out 2 and version 3.
pub const DIJ: Settings = Settings {
    method: 1,
    version: 3,
    order: 0,
    seed: 0,
    fan: 2,
    p1: 0,
    p2: 0,
    p3: 0,
};
