//! Laws between the parties: what an honest server replies over a signed publication, what a client accepts, and
//! what an audit finds to be right.
//!
//! They include authenticated queries for nodes within a radius. A server tells which nodes lie within a radius of
//! a node, a client checks the answer with only the owner's public key, and an audit turns an accepted false answer
//! into evidence. The crate of each party has its functions for radii and those for routes. This crate uses these
//! functions together and states the laws between them.
#![tactic(auto)]

pub use acceptance::near_acceptance_laws;
pub use answer_laws::{desk_laws, honest_laws};
pub use honesty::right_laws;
pub use laws::near_laws;
pub use proof_octets::{Mark, Marks, NearQuery, NearReply};
pub use route_acceptance::acceptance_laws;
pub use route_audit::{AuditError, Finding, audit_near};
pub use route_client::{NearError, Within, check_near, near_verdict_laws};
pub use route_server::{NearRefusal, answer_near};
pub use served::served_laws;

mod acceptance;
mod answer_laws;
mod honesty;
mod laws;
mod route_acceptance;
mod served;
