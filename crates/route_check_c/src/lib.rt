//! The check of a reply for programs in other languages. Octets and numbers go in, and numbers come out. No state
//! is kept between calls, and no buffer of the caller is written past its length.
#![tactic(auto)]

pub use nearby::gog_proved_nearest;
pub use nodes::{ReachedNode, RouteNode};
pub use reach::gog_proved_reach;
pub use route::gog_proved_route;
pub use verdict::Verdict;

mod chains;
mod filling;
mod nearby;
mod nodes;
mod reach;
mod reasons;
mod repeats;
mod route;
mod verdict;
