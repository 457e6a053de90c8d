//! The counts of a survey.

use octet_text::Sha;

/// The counts of a survey: the number of accepted replies, the sum of their lengths, and the hash of the
/// publication and of all replies so far.
#[derive(Drop)]
pub struct Tally {
    pub accepted: u32,
    pub total: u64,
    pub hasher: Sha,
}
