//! The judgement of a reply's items under each method. DIJ and FULL use a search over the items. LDM uses lower
//! bounds by landmarks, with which the client repeats a goal-directed search. HYP uses cells and border nodes.
#![tactic(auto)]

pub use bounds::{Lookup, apart, bound};
pub use dij::Dij;
pub use full::Full;
pub use hyp::Hyp;
pub use ldm::Ldm;
pub use ldm_items::ItemLeaves;
pub use live::live_labels;
pub use open::Open;
pub use plain_items::Anywhere;

mod borders;
mod bounds;
mod dij;
mod full;
mod hyp;
mod hyp_items;
mod ldm;
mod ldm_items;
mod live;
mod open;
mod plain_items;
mod scan;
