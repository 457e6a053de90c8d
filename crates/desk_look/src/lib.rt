//! Whether an owner's desk signed the texts on which an accepted reply rests: the links of its chain and its
//! header. The result is that it signed all of them, or the first one that it never signed.
#![tactic(auto)]

pub use errors::LookError;
pub use forgery::Forgery;
pub use keys::own_key;
pub use looking::look;

mod errors;
mod forgery;
mod keys;
mod looking;
