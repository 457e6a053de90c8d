//! Laws of covers and recomputed roots.
ghost use Rattle.std.specs.Prelude.{◌≡◌, ℕ, ◌*◌, ◌<◌, ◌≤◌, List, length, Ok, All};
ghost use Rattle.merkle_cover.specs.Covers.{IsRising, cover_of, chosen_texts, fold_of};
ghost use Rattle.merkle_cover.specs.Trees.{root};

/// The texts of chosen leaves and the cover of all other leaves recompute the root, under any hash. A cover has
/// fewer digests than the number of leaves times the fan-out. If each digest of the hash has 32 octets, so does the
/// root and each digest of a cover.
pub fn cover_laws()
    ensures folds { (hash : List ℕ → List ℕ) (texts : List (List ℕ)) (fan : ℕ) (places : List ℕ) →
        1 ≤ length places → IsRising (length texts) places
        → fold_of hash (length texts) fan places (chosen_texts texts places)
        (cover_of hash texts fan places) ≡ Ok (root hash texts fan) }
    ensures few { (hash : List ℕ → List ℕ) (texts : List (List ℕ)) (fan : ℕ) (places : List ℕ) →
        2 ≤ fan → 1 ≤ length texts → length (cover_of hash texts fan places) < length texts * fan }
    ensures sizes { (hash : List ℕ → List ℕ) (texts : List (List ℕ)) (fan : ℕ) (places : List ℕ) →
        ((text : List ℕ) → length (hash text) ≡ 32) →
        All (λ digest. length digest ≡ 32) (cover_of hash texts fan places) }
    ensures root { (hash : List ℕ → List ℕ) (texts : List (List ℕ)) (fan : ℕ) →
        ((text : List ℕ) → length (hash text) ≡ 32) → length (root hash texts fan) ≡ 32 }
{}
