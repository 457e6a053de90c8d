//! Standard output and standard input over doubles: each function makes one call, and answers what the call answers.

use crate::asserts::{assert_octets, assert_row, told};
use crate::double_streams::{DoubleInput, DoubleOutput};
use crate::script::{Answer, Script};
use outside::{NotedOutput, standard_input};
use std::io::ErrorKind;

/// What is printed, the system's answer, the only call, and the function's answer: a short write and a refused one are
/// told as they are, and nothing is tried again.
const PRINTED: [(&str, Answer, &str, Result<usize, ErrorKind>); 7] = [
    ("octets", Answer::Takes(6), "write octets\n", Ok(6)),
    ("octets", Answer::Takes(1), "write octets\n", Ok(1)),
    ("octets", Answer::Takes(0), "write octets\n", Ok(0)),
    ("", Answer::Takes(0), "write \n", Ok(0)),
    (
        "octets",
        Answer::Fails(ErrorKind::StorageFull),
        "write octets\n",
        Err(ErrorKind::StorageFull),
    ),
    (
        "octets",
        Answer::Fails(ErrorKind::BrokenPipe),
        "write octets\n",
        Err(ErrorKind::BrokenPipe),
    ),
    (
        "octets",
        Answer::Fails(ErrorKind::Interrupted),
        "write octets\n",
        Err(ErrorKind::Interrupted),
    ),
];

#[test]
fn output_is_one_call_a_piece(rt: HostRuntime) {
    for (octets, answer, calls, wanted) in PRINTED {
        let answers = [answer];
        let script = Script::new(rt.alloc(), &answers);
        let mut output = NotedOutput::new(DoubleOutput { script: &script });
        assert_row(&rt, calls, &told(output.write(octets.as_bytes())), &wanted);
        script.assert_calls(&rt, calls, calls);
    }
}

/// The system's answers one behind the other, and what is read into four octets: a piece that fills the room, a short one,
/// a refusal, a piece behind it, the end, and a piece behind the end.
const READ: [(Answer, Result<usize, ErrorKind>, &str); 6] = [
    (Answer::Gives("more"), Ok(4), "more"),
    (Answer::Gives("c"), Ok(1), "core"),
    (
        Answer::Fails(ErrorKind::Interrupted),
        Err(ErrorKind::Interrupted),
        "core",
    ),
    (Answer::Gives("mi"), Ok(2), "mire"),
    (Answer::Gives(""), Ok(0), "mire"),
    (Answer::Gives("late"), Ok(4), "late"),
];

#[test]
fn input_is_one_call_a_piece(rt: HostRuntime) {
    let answers = READ.map(|row| row.0);
    let script = Script::new(rt.alloc(), &answers);
    let mut input = standard_input(&DoubleInput { script: &script });
    let mut piece = *b"none";
    for (_, wanted, octets) in READ {
        assert_row(&rt, octets, &told(input.read(&mut piece)), &wanted);
        assert_octets(&rt, &piece, octets.as_bytes());
    }
    let calls = "reader\nread 4\nread 4\nread 4\nread 4\nread 4\nread 4\n";
    script.assert_calls(&rt, "input", calls);
}
