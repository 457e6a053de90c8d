//! Laws of the values that a slot has released.
ghost use Rattle.std.specs.Prelude.{◌≡◌, ℕ, ◌+◌, ◌-◌, ◌*◌, ◌<◌, ◌≤◌, List, take, drop, slice_index};
ghost use Rattle.lms_ots.specs.Chains.{chain_of};
ghost use Rattle.lms_tree.specs.Signatures.{KeyOf, sealed};
ghost use Rattle.lms_reduce.specs.Released.{own_value, signed_digits};

/// A signature by a slot releases one value of each chain: the value after as many steps as the text's digit. All
/// later values of the chain can be computed from it.
pub fn released_laws()
    ensures shows { (key : KeyOf) (slot at : ℕ) (text : List ℕ) → at < 34
        → take 32 (drop (40 + 32 * at) (sealed key slot text))
        ≡ own_value key slot at (slice_index (signed_digits key slot text) at) }
    ensures later { (key : KeyOf) (slot at step more : ℕ) → step ≤ more
        → chain_of key.i slot at step (more - step) (own_value key slot at step)
        ≡ own_value key slot at more }
{}
