//! Rows of arcs by number.

ghost use Rattle.std.specs.Prelude.{◌≡◌, List, slice_get};
ghost use Rattle.std.specs.Option.{option_copied};
ghost use Rattle.road_map.specs.declared.arc.Arc.{Arc};

use road_map::{Arc, Net};

/// Rows of arcs. Each row and each end of an arc is given by its number.
pub trait Rows {
    // The bounds as contracts see them.
    ghost rows: { Self → List (List Arc) };

    /// Returns the arcs at a number, if the row exists.
    fn at(&self, number: u32) -> Option<&[Arc]>
        ensures { option_copied result ≡ slice_get (rows self.now) number };
}

impl Rows for Net {
    ghost rows = { λ n. n };

    fn at(&self, number: u32) -> Option<&[Arc]> {
        self.get(number)
    }
}
