//! Laws of verdicts.

ghost use Rattle.book_model.specs.Books.{Kind};
ghost use Rattle.proof_judge.specs.Judgement.{HasOneVerdict};
ghost use Rattle.proof_judge.specs.Apart.{HasOneApartVerdict};

/// Under each method, items have at most one verdict on a route, and at most one on the claim that no route exists.
pub fn judge_laws()
    ensures route { (k : Kind) → HasOneVerdict k }
    ensures apart { (k : Kind) → HasOneApartVerdict k }
{}
