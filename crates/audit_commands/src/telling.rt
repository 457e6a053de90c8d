//! Reporting the result of an audit.

ghost use Rattle.std.specs.Prelude.{◌≡◌, ℕ, List, Err, IfOk, IfErr};
ghost use Rattle.command_files.specs.Endings.{TellsNone, MayEnd, WhyNot};
ghost use Rattle.key_desk.specs.declared.desk.DeskError.{DeskError};
ghost use Rattle.audit_commands.specs.Auditing.{TellsFinding, Tells, LookFailed};

use command_books::not_built;
use command_files::{Conclusion, Fault, Told};
use octet_text::NoMemory;
use road_line::{line_of_collision, line_of_forged, line_of_refused, line_of_right};
use route_audit::{AuditError, Finding, Replies, Routes};
use route_client::CheckError;
use route_server::InstallError;
use std::alloc::Global;

/// How a command reports the findings of an audit of one kind of replies: the kind, and the line of its refusals.
pub trait Telling {
    /// The kind.
    type Kind: Replies;

    // The line of a refused reply.
    ghost refused: { Self.Kind.Refusal → List ℕ };

    /// Returns the line of a refused reply.
    fn line_of_refused(
        alloc: Global,
        why: <Self::Kind as Replies>::Refusal,
    ) -> Result<Vec<u8>, NoMemory>
        ensures { IfOk result (λ line. line.items ≡ refused why) };
}

/// How `audit` reports on routes.
pub struct RouteTelling;

impl Telling for RouteTelling {
    ghost use Rattle.road_line.specs.VerdictLine.{refused_line};

    type Kind = Routes;

    ghost refused = { refused_line };

    fn line_of_refused(alloc: Global, why: CheckError) -> Result<Vec<u8>, NoMemory> {
        line_of_refused(alloc, why)
    }
}

/// Returns the report about an audit's result.
pub(crate) fn tell<T: Telling>(
    alloc: Global,
    answer: Result<Finding, AuditError<<T::Kind as Replies>::Refusal>>,
) -> Result<Told, Fault>
    ensures told { IfOk result (λ told. Tells T.refused answer told.end told.text.items) }
    ensures verdict { IfOk result (λ told. MayEnd TellsNone told.end) }
    ensures refused { IfErr result (WhyNot (LookFailed answer) (Tells T.refused answer)) }
    ensures desk { (e : DeskError) → answer ≡ Err (AuditError.Desk e) → result ≡ Err Fault.Disk }
{
    match answer {
        Ok(finding) => match line_of(alloc, &finding) {
            Ok(told) => Ok(told),
            Err(none) => Err(Fault::Memory(none)),
        },
        Err(AuditError::Refused(why)) => match refusal::<T>(alloc, why) {
            Ok(told) => Ok(told),
            Err(none) => Err(Fault::Memory(none)),
        },
        Err(AuditError::OtherKey) => Err(Fault::OtherKey),
        Err(AuditError::Install(InstallError::Build(fault))) => Err(not_built(fault)),
        Err(AuditError::Install(InstallError::HeaderWrong)) => Err(Fault::HeaderWrong),
        Err(AuditError::OtherPublication) => Err(Fault::OtherPublication),
        Err(AuditError::Desk(_)) => Err(Fault::Disk),
        Err(AuditError::Memory(none) | AuditError::Install(InstallError::Memory(none))) => Err(
            Fault::Memory(none),
        ),
    }
}

// Returns the line of a finding.
fn line_of(alloc: Global, finding: &Finding) -> Result<Told, NoMemory>
    ensures told { IfOk result (λ told. TellsFinding finding.now told.end told.text.items) }
    ensures verdict { IfOk result (λ told. MayEnd TellsNone told.end) }
{
    match finding {
        Finding::Right => Ok(Told {
            text: line_of_right(alloc)?,
            end: Ok(Conclusion::Done),
        }),
        Finding::Collision { left, right } => Ok(Told {
            text: line_of_collision(alloc, left.as_slice(), right.as_slice())?,
            end: Ok(Conclusion::Evidence),
        }),
        Finding::Forged {
            text,
            signature,
            ..
        } => Ok(Told {
            text: line_of_forged(alloc, text.as_slice(), signature.as_slice())?,
            end: Ok(Conclusion::Evidence),
        }),
    }
}

// Returns the line of a refused reply.
fn refusal<T: Telling>(alloc: Global, why: <T::Kind as Replies>::Refusal) -> Result<Told, NoMemory>
    ensures told { IfOk result (λ told.
        Tells T.refused (Err (AuditError.Refused why)) told.end told.text.items) }
    ensures verdict { IfOk result (λ told. MayEnd TellsNone told.end) }
{
    Ok(Told {
        text: T::line_of_refused(alloc, why)?,
        end: Ok(Conclusion::Refused),
    })
}
