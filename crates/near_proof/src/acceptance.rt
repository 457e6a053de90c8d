//! Laws of all octets that a client accepts for a range query.
ghost use Rattle.near_proof.specs.NearAcceptance.{LowerVersionsAccept, NoOctetsAnswerBoth, OnlyKeysAccept, TrueAnswersAgree};

/// Laws of all octets that a client accepts for a range query, honest or not. The client also accepts them under
/// each lower minimum version. The key has the form of a public key. The octets are accepted neither as a route nor
/// as a proof that no route exists. If two answers to one query are true of one map, they are equal.
pub fn near_acceptance_laws()
    ensures lower { LowerVersionsAccept }
    ensures keys { OnlyKeysAccept }
    ensures one_form { NoOctetsAnswerBoth }
    ensures agree { TrueAnswersAgree }
{}
