//! Copies of the output in further places: mirrors, which promise how much they will take, and a spreader, which
//! hands each piece to all mirrors and drops those that fail.
#![tactic(auto)]

pub use file_mirror::FileMirror;
pub use mem_mirror::MemMirror;
pub use mirror::Mirror;
pub use spreader::Spreader;

mod file_mirror;
mod mem_mirror;
mod mirror;
mod spreader;
