//! The messages on standard error. They are written for readers who have not read the code.
//!
//! Each message is a value with a `Display` implementation, and takes no memory. It states no more than the value
//! does. `message_on` gives the message about a whole run, from the parts of its files and of its output that were
//! kept. It reads nothing again.
#![tactic(auto)]

pub use asked::{Asked, asked_of};
pub use challenge::faulty_file;
pub use content::Content;
pub use hex_text::WrongHex;
pub use kept::{most_kept, subject_of};
pub use looks::{Look, look_of};
pub use messages::{Facts, Message, key_of, message_on};
pub use names::ShortName;
pub use numbers::{BadNumber, bad_number};
pub use plans::{plan_rule, setting_name};
pub use refusals::Unusable;
pub use roads::{MapPlace, place_of, zero_roads};
pub use usage::{Commands, KIT, VERSION};
pub use words::{WrongWords, wrong_words};

mod asked;
mod challenge;
mod content;
mod hex_text;
mod kept;
mod looks;
mod messages;
mod names;
mod numbers;
mod plans;
mod quoted;
mod refusals;
mod roads;
mod usage;
mod words;
