//! Whether a desk is fit for a command: a look at it before the command uses its keys, and the key with which it
//! signs maps.
#![tactic(auto)]

pub use fit::{Looked, Told, fit_desk};
pub use laws::an_image_has_one_sight;

mod fit;
mod laws;
mod signer;
