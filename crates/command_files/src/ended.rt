//! How a run ends.

ghost use Rattle.std.specs.Prelude.{◌≡◌};
ghost use Rattle.command_files.specs.Outcomes.{status_of};

use crate::fault::Fault;

/// How a run ends without a fault.
#[derive(Clone, Copy, Debug, PartialEq, Eq)]
pub enum Conclusion {
    /// The work was done.
    Done,
    /// A reply was refused. The output line gives the reason.
    Refused,
    /// A reply is evidence. The output line holds the evidence.
    Evidence,
}

/// The status of a run, and its fault if it had one.
#[derive(Clone, Copy, Debug, PartialEq, Eq)]
pub struct Ended {
    /// The status for the shell.
    pub status: u8,
    /// The reason why the work was not done, if it was not.
    pub fault: Option<Fault>,
}

impl Ended {
    ghost use Rattle.command_files.specs.Outcomes.{status_of, outcome_of};

    /// Returns the end of a run with this outcome.
    pub fn of(outcome: Result<Conclusion, Fault>) -> Ended
        ensures outcome { outcome_of result ≡ outcome }
        ensures status { result.status ≡ status_of outcome }
    {
        match outcome {
            Ok(verdict) => Ended {
                status: status_of_verdict(verdict),
                fault: None,
            },
            Err(fault) => Ended {
                status: status_of_fault(fault),
                fault: Some(fault),
            },
        }
    }
}

fn status_of_verdict(verdict: Conclusion) -> u8
    ensures { result ≡ status_of (Ok verdict) }
{
    match verdict {
        Conclusion::Done => 0,
        Conclusion::Refused => 1,
        Conclusion::Evidence => 10,
    }
}

fn status_of_fault(fault: Fault) -> u8
    ensures { result ≡ status_of (Err fault) }
{
    match fault {
        Fault::Words => 2,
        Fault::Missing
        | Fault::TooLong
        | Fault::Road(_)
        | Fault::Dimacs(_)
        | Fault::Map(_)
        | Fault::Plan(_)
        | Fault::Malformed(_)
        | Fault::HeaderWrong
        | Fault::BadHex
        | Fault::OtherKey
        | Fault::TruncatedFrame
        | Fault::FrameTooLong => 3,
        Fault::Library => 4,
        Fault::Source => 5,
        Fault::Sink => 6,
        Fault::Disk => 7,
        Fault::KeysUsedUp => 8,
        Fault::Memory(_) => 9,
        Fault::UnknownNode(_) | Fault::NoRoute => 11,
        Fault::Held
        | Fault::NoKey
        | Fault::BadBlock
        | Fault::TooManyKeys
        | Fault::NoSuccession
        | Fault::SameSecret => 12,
        Fault::TooManyFrames => 13,
        Fault::OtherPublication => 14,
        Fault::MirrorLost => 15,
    }
}
