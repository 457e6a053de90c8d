//! The stores of a search's labels.

ghost use Rattle.std.specs.Prelude.{◌≡◌, ℕ, Option, None, Some, OnOk, nat_eq, if◌then◌else◌};
ghost use Rattle.road_search.specs.declared.marks.Mark.{Mark};

use crate::label::Label;
use octet_text::NoMemory;

/// The label of an id, and whether it is final.
#[derive(Clone, Copy, Debug)]
pub struct Mark {
    pub label: Label,
    pub settled: bool,
}

/// Marks by id.
pub trait Marks {
    // The bounds as contracts see them.
    ghost mark: { Self → ℕ → Option Mark };

    /// The error of setting a mark.
    type Refused: From<NoMemory>;

    /// Returns the mark of an id, if it has one.
    fn get(&self, id: u32) -> Option<Mark>
        ensures { result ≡ mark self.now id };

    /// Sets the mark of an id.
    fn set(&mut self, id: u32, new: Mark) -> Result<(), Self::Refused>
        ensures { OnOk result ((v : ℕ) →
            mark self.new v ≡ (if nat_eq id v then Some new else mark self.old v)) };
}
