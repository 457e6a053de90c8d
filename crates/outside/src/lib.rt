//! The calls of the system, each with its note: streams, files that are loaded, a disk, a file that is appended to,
//! and looks at files.
//!
//! No proof shows that the system was called as a function's name says, or that its note says what the system answered
//! where the standard library promises nothing. These bodies are trusted, and each is short. Every other crate reaches
//! the system through them alone, except the program's `main`. Nobody outside this crate can add a note to the
//! history of such an object.
#![tactic(auto)]

pub use disk::{NotedDisk, Opened};
pub use files::NotedFiles;
pub use folder::sync_folder;
pub use input::{NotedInput, standard_input};
pub use look::{BLOCK, FIFO, LINK, Look, REGULAR, SOCKET};
pub use names::NotedNames;
pub use output::NotedOutput;
pub use record::Record;
pub use tail::{NotedTail, open_to_append};

mod disk;
mod files;
mod folder;
mod input;
mod look;
mod names;
mod output;
mod record;
mod tail;
