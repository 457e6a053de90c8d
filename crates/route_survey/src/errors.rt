//! Why a survey was not made.

use book_model::PlanError;
use octet_text::NoMemory;
use thiserror::Error;

/// Why a survey was not made. Out of memory is always `Memory` and never part of another error.
#[derive(Clone, Copy, Debug, PartialEq, Eq, Error)]
pub enum SurveyError {
    /// The grid has no book under the method, for this reason.
    #[error("The method makes no book of the grid. {0}")]
    Plan(PlanError),
    /// Out of memory.
    #[error("Out of memory.")]
    Memory(NoMemory),
}

impl From<NoMemory> for SurveyError {
    ghost use Rattle.std.specs.Prelude.{◌≡◌};
    ghost use Rattle.route_survey.specs.declared.errors.SurveyError.TheVariants.{Memory};

    ghost from_gives = { λ none e. e ≡ Memory none };

    fn from(none: NoMemory) -> SurveyError {
        SurveyError::Memory(none)
    }
}
