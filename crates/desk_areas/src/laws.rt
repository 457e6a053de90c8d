//! Laws of the definitions.
ghost use Rattle.std.specs.Prelude.{ℕ, List, ◌↔◌};
ghost use Rattle.desk_areas.specs.Layout.{SlotId, IsSigned};
ghost use Rattle.desk_areas.specs.Signed.{IsListed, signed};

/// The list of signed pairs has exactly the signed pairs.
pub fn signed_lists_pairs()
    ensures { (image : List ℕ) (slot : SlotId) (text : List ℕ) →
        (IsListed (signed image) slot text) ↔ (IsSigned image slot text) }
{}
