//! Directed arcs.

ghost use Rattle.std.specs.Prelude.{◌≡◌};

use std::marker::Model;

/// A connection from one node to another, in this direction only.
#[derive(Clone, Copy, Debug, PartialEq, Eq)]
pub struct Arc {
    pub from: u32,
    pub to: u32,
    pub length: u32,
}

/// A list of arcs.
#[derive(Drop)]
pub struct Arcs {
    items: Vec<Arc>,
}

impl Model for Arcs {
    ghost use Rattle.std.specs.Prelude.{List};
    ghost use Rattle.dimacs_reader.specs.declared.arc.Arc.{Arc};

    ghost Value = { List Arc };

    ghost view = { λ a. a.items.items };
}

impl Arcs {
    /// Makes the list of these arcs.
    pub fn from_vec(items: Vec<Arc>) -> Arcs
        ensures { result ≡ items.items }
    {
        Arcs { items }
    }

    /// Borrows the arcs.
    pub fn as_slice(&self) -> &[Arc]
        ensures { result.now ≡ self.now }
    {
        self.items.as_slice()
    }
}
