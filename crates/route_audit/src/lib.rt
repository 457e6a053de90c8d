//! The audit: what an accepted reply is evidence of. All kinds of replies share its steps and its findings. Replies
//! for routes are one kind, and replies for the nodes within a radius are another.
#![tactic(auto)]

pub use auditing::{audit, audit_reply};
pub use errors::AuditError;
pub use finding::Finding;
pub use near_auditing::audit_near;
pub use radii::Radii;
pub use replies::Replies;
pub use routes::Routes;

mod auditing;
mod comparing;
mod errors;
mod finding;
mod near_auditing;
mod near_comparing;
mod radii;
mod replies;
mod routes;
mod steps;
