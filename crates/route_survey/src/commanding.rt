//! The command `survey`.

ghost use Rattle.command_files.specs.Endings.{PromisesWithoutFiles, NoDisk};
ghost use Rattle.command_files.specs.Spared.{SparesBut};
ghost use Rattle.route_survey.specs.Surveying.{EndsSurvey};

use crate::{SurveyError, survey_method};
use command_files::{Conclusion, Fault, write_text};
use road_command::Survey;
use road_io::Sink;
use std::alloc::Global;

/// Surveys a method over a grid and writes the line. Loads no file and does not use the owner's disk.
pub fn survey<K: Sink>(alloc: Global, sink: &mut K, asked: Survey) -> Result<Conclusion, Fault>
    ensures promised { PromisesWithoutFiles
        (EndsSurvey asked.width asked.seed asked.method asked.queries) NoDisk
        (K.taken sink.old) (K.taken sink.new) (K.faults sink.old) (K.faults sink.new) result }
    ensures sink { SparesBut Fault.Sink result (K.faults sink.old) (K.faults sink.new) }
{
    match survey_method(alloc, asked.width, asked.seed, asked.method, asked.queries) {
        Ok(line) => write_text(sink, &line),
        Err(SurveyError::Plan(fault)) => Err(Fault::Plan(fault)),
        Err(SurveyError::Memory(none)) => Err(Fault::Memory(none)),
    }
}
