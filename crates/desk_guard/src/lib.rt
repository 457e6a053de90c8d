//! Checks of an owner's folder, mirrors and secret, of standard streams, and the message on a signing.
#![tactic(auto)]

pub use beginning::{Answer, Unbegun};
pub use doubt::{Doubt, doubt_of};
pub use folder::unsafe_folder;
pub use mirrors::mirrors_for;
pub use owner_mirror::{OwnerMirror, WhyLost, mirror_of};
pub use secret_file::{SecretDoubt, secret_doubts};
pub use signing::Signing;
pub use streams::{Clash, desk_clash, output_clash};

mod beginning;
mod doubt;
mod folder;
mod mirrors;
mod owner_mirror;
mod secret_file;
mod signing;
mod streams;
mod user;
