//! What an accepted reply is evidence of.

ghost use Rattle.std.specs.Prelude.{◌≡◌};
ghost use Rattle.route_audit.specs.declared.finding.Finding.TheVariants.{Collision, Forged};

use desk_look::Forgery;
use merkle_cover::TwoTexts;
use octet_text::Octets;

/// What an accepted reply is evidence of.
#[derive(Debug, Drop)]
pub enum Finding {
    /// Its items and covers come from the publication's own trees, and the result that the client takes from it is
    /// true of the publication's map: its route is a shortest one, or no walk joins the two ends.
    Right,
    /// Two different texts have the same digest. The left one belongs to the publication's trees, and the right one
    /// to the reply.
    Collision {
        left: Octets,
        right: Octets,
    },
    /// The owner never signed a text, which is a link text of the chain or a header, but a signature of it verifies
    /// under one of the owner's keys.
    Forged {
        key: [u8; 56],
        text: Octets,
        signature: Octets,
    },
}

impl Finding {
    /// Makes the finding of two texts with the same digest.
    pub fn collision(two: TwoTexts) -> Finding
        ensures { result ≡ Collision two.left two.right }
    {
        Finding::Collision {
            left: two.left,
            right: two.right,
        }
    }

    /// Makes the finding of a text that the owner never signed.
    pub fn forged(forgery: Forgery) -> Finding
        ensures { result ≡ Forged forgery.key forgery.text forgery.signature }
    {
        let key = forgery.key;
        Finding::Forged {
            key,
            text: forgery.text,
            signature: forgery.signature,
        }
    }
}
