//! The tests of settings that all methods share.
ghost use Rattle.std.specs.Prelude.{◌≡◌, OnOk, IfErr, Some};
ghost use Rattle.road_map.specs.declared.parts.Parts.{Parts};
ghost use Rattle.proof_method.specs.Planning.{book_fault};
ghost use Rattle.route_server.specs.CommonSettings.{IsCommon};

use book_model::{PlanError, Settings};
use method_books::AnyBook;
use proof_method::MethodBook;

/// Runs the tests that all methods share. In the error, setting 0 is the method, 1 the order, 2 the fan-out.
pub fn check_settings(settings: &Settings) -> Result<(), PlanError>
    ensures common { OnOk result (IsCommon settings.now) }
    ensures fault { IfErr result (λ e. (parts : Parts) → book_fault parts settings.now ≡ Some e) }
{
    if !AnyBook::offers(settings.method) {
        return Err(PlanError::Settings(0));
    }
    if settings.order > 5 {
        return Err(PlanError::Settings(1));
    }
    if settings.fan < 2 || settings.fan > 32 {
        return Err(PlanError::Settings(2));
    }
    Ok(())
}
