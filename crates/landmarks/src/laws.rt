//! Laws of landmarks.

ghost use Rattle.std.specs.Prelude.{◌≡◌, ◌↔◌, ℕ, ◌≤◌, ◌==◌, Option, None, Some, List, IsTrue, Contains, length};
ghost use Rattle.std.specs.List.{list_any};
ghost use Rattle.std.specs.List.Sorted.{IsStrictlySortedBy};
ghost use Rattle.std.specs.Ordering.{nat_cmp};
ghost use Rattle.road_map.specs.declared.parts.Parts.{Parts};
ghost use Rattle.road_map.specs.Maps.{IsMap};
ghost use Rattle.book_model.specs.Landmarks.{farthest, IsFarthest};
ghost use Rattle.book_model.specs.Books.{landmarks};

/// A map has as many landmarks as requested, up to the number of its nodes.
///
/// The farthest of ascending ids is the one for which three facts hold: it may be chosen, no other id that may be
/// chosen is farther, and it has the least id of those equally far. Such an id exists unless all ids are chosen.
pub fn landmark_laws()
    ensures count { (parts : Parts) (count : ℕ) → IsMap parts → count ≤ length parts.nodes →
        length (landmarks parts count) ≡ count }
    ensures farthest { (near : ℕ → Option ℕ) (chosen among : List ℕ) (v : ℕ) →
        IsStrictlySortedBy nat_cmp among → (farthest near chosen among ≡ Some v) ↔
        IsFarthest near chosen among v }
    ensures none { (near : ℕ → Option ℕ) (chosen among : List ℕ) →
        (farthest near chosen among ≡ None) ↔
        ((u : ℕ) → Contains among u → IsTrue (list_any (λ c. c == u) chosen)) }
{}
