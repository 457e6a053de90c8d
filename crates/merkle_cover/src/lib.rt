//! Merkle trees over texts, with any fan-out and any hash: roots, covers (multiproofs) of chosen leaves, roots
//! recomputed from texts and a cover, and clashes (two texts with the same digest). Texts may also come one at a
//! time. A root and one cover are then made from them, and only the digests that wait for their group to be
//! complete are kept.
//!
//! ```rust
//! let tree = Tree::<Sha>::build(alloc, &leaves, 2)?;
//! let positions = [1, 3];
//! assert!(rt; are_rising(tree.leaves(), &positions));
//! let cover = tree.cover(alloc, &positions)?;
//! // The root and the cover convince a client that these two of the five texts are leaves. The two texts stand in
//! // one buffer.
//! let octets = b"bcdef";
//! let cuts = [Cut { start: 0, end: 2 }, Cut { start: 2, end: 5 }];
//! assert!(rt; are_in(octets, &cuts));
//! let texts = CutTexts::new(octets, &cuts);
//! assert!(rt; texts.count() as usize == positions.len());
//! let root = fold::<Sha>(5, 2, &positions, &texts, &cover)?;
//! ```
#![tactic(auto)]

pub use clashes::{TwoTexts, clash};
pub use cuts::{Cut, CutTexts, are_in};
pub use folds::{FoldError, are_rising, fold};
pub use laws::cover_laws;
pub use rising::{Risen, Rising, RisingError};
pub use texts::Texts;
pub use trees::{Tree, TreeError};

mod clashes;
mod covering;
mod covers;
mod cuts;
mod folds;
mod laws;
mod rising;
mod spots;
mod texts;
mod trees;
