//! Which publications a service accepts.
ghost use Rattle.std.specs.Prelude.{◌≡◌};
ghost use Rattle.std.specs.Option.{option_map};
ghost use Rattle.route_service.specs.Guards.{answers_near, cause_of, unsigned};

use lms_tree::{Link, SealError, verify_along};
use octet_text::List;
use proof_octets::Publication;

/// Which publications a service installs, and which bodies it knows.
#[derive(Debug, Drop)]
pub enum Guard {
    /// Every publication that can be installed. Range queries are unknown.
    Open,
    /// Publications whose headers are signed under this key, or under a key to which the links lead from it. Range
    /// queries are answered.
    Signed { key: [u8; 56], links: List<Link> },
}

// Returns the reason why a signature is refused, as a number.
fn cause_of(why: SealError) -> u8
    ensures { result ≡ cause_of why }
{
    match why {
        SealError::BadKey => 1,
        SealError::BadForm => 2,
        SealError::NoMatch => 3,
    }
}

impl Guard {
    // Tests whether the service knows range queries.
    pub(crate) fn answers_near(&self) -> bool
        ensures { result ≡ answers_near self.now }
    {
        match self {
            Guard::Open => false,
            Guard::Signed { .. } => true,
        }
    }

    // Returns the reason why the signature of a publication is refused: 1 if the key is not a public key, 2 if the
    // octets are not a signature under this type of key, 3 if the signature does not verify. Builds no book.
    pub(crate) fn unsigned(&self, publication: &Publication) -> Option<u8>
        ensures { result ≡ unsigned self.now publication.now }
    {
        let Guard::Signed { key, links } = self else {
            return None;
        };
        let header = publication.header.write();
        let signature = publication.signature.as_slice();
        match verify_along(key, links.as_slice(), &header, signature) {
            Ok(()) => None,
            Err(why) => Some(cause_of(why)),
        }
    }
}
