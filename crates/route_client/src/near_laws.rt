//! Laws of verdicts on replies for a radius.
ghost use Rattle.std.specs.Prelude.{◌≡◌, ◌↔◌, ℕ, List, Result, Ok};
ghost use Rattle.proof_octets.specs.declared.query.NearQuery.{NearQuery};
ghost use Rattle.lms_tree.specs.declared.links.Link.{Link};
ghost use Rattle.route_client.specs.declared.within.Within.{Within};
ghost use Rattle.route_client.specs.declared.near_errors.NearError.{NearError};
ghost use Rattle.route_client.specs.NearVerdicts.{IsNearVerdict, NearAccepts};

/// Octets have at most one verdict, and accepted octets pass every test.
pub fn near_verdict_laws()
    ensures one { (hash : List ℕ → List ℕ) (key : List ℕ) (links : List Link) (octets : List ℕ)
        (q : NearQuery) (least : ℕ) (v w : Result Within NearError)
        → IsNearVerdict hash key links octets q least v →
        IsNearVerdict hash key links octets q least w → v ≡ w }
    ensures accepts { (hash : List ℕ → List ℕ) (key : List ℕ) (links : List Link)
        (octets : List ℕ) (q : NearQuery) (least : ℕ) (x : Within)
        → NearAccepts hash key links octets q least x ↔
        IsNearVerdict hash key links octets q least (Ok x) }
{}
