//! A client's judgement of a reply's items: the trait of judges, the tests that all methods share, and the results
//! of each method's tests. It does not depend on how an owner or a server makes a book.
#![tactic(auto)]

pub use apart::{begin_apart, search_all, walk_tests};
pub use judge::Judge;
pub use laws::judge_laws;
pub use lengths::{are_narrow, are_short};
pub use nodes_by_id::NodesById;
pub use pairs::{find_pair, joined_fault};
pub use pairs_by_id::PairsById;
pub use refusal::Refusal;
pub use route::{arcs_of, begin};

mod apart;
mod judge;
mod laws;
mod lengths;
mod nodes_by_id;
mod pairs;
mod pairs_by_id;
mod places;
mod refusal;
mod route;
