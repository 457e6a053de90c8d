//! The output of a command.

ghost use Rattle.command_files.specs.Endings.{Writes};
ghost use Rattle.command_files.specs.Spared.{SparesBut};

use crate::ended::Conclusion;
use crate::fault::Fault;
use road_io::{Sink, write_all};

/// The output of a command, and how the command ends after writing it.
#[derive(Drop)]
pub struct Told {
    /// The octets that the command writes.
    pub text: Vec<u8>,
    /// How the command ends after that.
    pub end: Result<Conclusion, Fault>,
}

/// Writes a text. The work is then done. Fails if the sink fails.
pub fn write_text<K: Sink>(sink: &mut K, text: &[u8]) -> Result<Conclusion, Fault>
    ensures writes { Writes (Ok Conclusion.Done) text.now (K.taken sink.old) (K.taken sink.new)
        (K.faults sink.old) (K.faults sink.new) result }
    ensures spared { SparesBut Fault.Sink result (K.faults sink.old) (K.faults sink.new) }
{
    match write_all(sink, text) {
        Ok(()) => Ok(Conclusion::Done),
        Err(_) => Err(Fault::Sink),
    }
}

/// Writes the output of a command. Returns the end that comes with the output, or the failure of the sink.
pub fn write_told<K: Sink>(sink: &mut K, told: &Told) -> Result<Conclusion, Fault>
    ensures writes { Writes told.now.end told.now.text.items (K.taken sink.old) (K.taken sink.new)
        (K.faults sink.old) (K.faults sink.new) result }
    ensures spared { SparesBut Fault.Sink result (K.faults sink.old) (K.faults sink.new) }
{
    match write_all(sink, &told.text) {
        Ok(()) => told.end,
        Err(_) => Err(Fault::Sink),
    }
}
