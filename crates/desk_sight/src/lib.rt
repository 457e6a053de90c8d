//! Inspects an owner's desk before a command uses its keys.
//!
//! A desk always takes the lowest free slot, so its contents have a form that each run and each crash preserves. A
//! file without that form was changed by something else, such as a disk that flipped a bit. If a gate were closed
//! in that way, a one-time key would sign twice. `sight_of` tells such files from desks, and `look` continues from
//! there.
#![tactic(auto)]

pub use image::{Unseen, image_of};
pub use laws::{
    desks_stay_in_order, free_headers_stand_lowest, fresh_images_are_tidy,
    fresh_links_are_not_refused, new_keys_are_fresh, publish_signs_over_no_header,
    raising_keeps_tidy, signing_keeps_fresh, signing_keeps_tidy, spending_keeps_fresh,
    spending_keeps_tidy, succeed_signs_over_no_link, tidy_images_are_not_strange,
};
pub use looking::{Seen, Spending, Unfit, Use, look};
pub use sight::{Sight, sight_of};
pub use slots::Signed;
pub use strange::Strange;

mod first_key;
mod image;
mod laws;
mod looking;
mod octets;
mod sight;
mod slots;
mod strange;
