//! Laws of all octets that a client accepts.
ghost use Rattle.near_proof.specs.Acceptance.{HeadersAreNoLinks, LowerVersionsAccept, OnlyKeysAccept, RoutesAnswerOneQuery, TrueAnswersAgree};

use proof_octets::length_laws;

/// Laws of all octets that a client accepts, honest or not. The client also accepts them under each lower minimum
/// version. The key has the form of a public key. Octets with a route are accepted for no other query. If two
/// answers to one query are true of one map, they agree. A header that the owner signed is not a link to a later
/// key.
pub fn acceptance_laws()
    ensures lower { LowerVersionsAccept }
    ensures keys { OnlyKeysAccept }
    ensures one_query { RoutesAnswerOneQuery }
    ensures agree { TrueAnswersAgree }
    ensures no_links { HeadersAreNoLinks }
{
    length_laws();
}
