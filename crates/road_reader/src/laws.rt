//! Laws of all grids.
ghost use Rattle.std.specs.Prelude.{ℕ, ◌≤◌, ◌*◌};
ghost use Rattle.road_map.specs.Maps.{IsMap};
ghost use Rattle.road_map.specs.Walks.{Knows};
ghost use Rattle.road_reader.specs.Grid.{grid_of, IsConnected};

/// Each grid with a width from 2 to 256 is a map, its ids are the numbers from 1 to the square of the width, and a
/// walk joins any two of its nodes.
pub fn grid_laws()
    ensures map { (width seed : ℕ) → 2 ≤ width → width ≤ 256 → IsMap (grid_of width seed) }
    ensures knows { (width seed : ℕ) → 2 ≤ width → width ≤ 256 → (id : ℕ) → 1 ≤ id →
        id ≤ width * width → Knows (grid_of width seed) id }
    ensures connected { (width seed : ℕ) → 2 ≤ width → width ≤ 256 →
        IsConnected (grid_of width seed) }
{}
