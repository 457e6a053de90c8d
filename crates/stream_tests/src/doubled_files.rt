//! Files that are loaded and names that are looked at, over doubles.

use crate::asserts::{assert_octets, assert_row, assert_same, told};
use crate::double_files::files_played;
use crate::script::{Answer, Script};
use outside::{LINK, Look, NotedFiles, NotedNames, REGULAR};
use std::io::ErrorKind;

/// The reasons for which the system refuses an opening. Each is told as it is, and nothing is tried again.
const REFUSED: [ErrorKind; 5] = [
    ErrorKind::NotFound,
    ErrorKind::PermissionDenied,
    ErrorKind::IsADirectory,
    ErrorKind::FilesystemLoop,
    ErrorKind::Interrupted,
];

#[test]
fn a_refused_file_is_not_read(rt: HostRuntime) {
    for kind in REFUSED {
        let answers = [Answer::Fails(kind)];
        let script = Script::new(rt.alloc(), &answers);
        let mut files = NotedFiles::new(files_played(&script));
        let (opened, read) = (files.open("map.roads"), files.read(&mut [0; 4]));
        assert_row(&rt, "an opening", &told(opened), &Err(kind));
        assert_row(&rt, "a read", &told(read), &Err(ErrorKind::NotFound));
        script.assert_calls(&rt, "refused", "open map.roads read\n");
    }
}

/// The system's answers to reads, one behind the other, and what is read into four octets: a piece that fills the room, a
/// short one, a refusal, a piece behind it, and the end, twice.
const READ: [(Answer, Result<usize, ErrorKind>, &str); 6] = [
    (Answer::Gives("more"), Ok(4), "more"),
    (Answer::Gives("c"), Ok(1), "core"),
    (
        Answer::Fails(ErrorKind::Interrupted),
        Err(ErrorKind::Interrupted),
        "core",
    ),
    (Answer::Gives("mi"), Ok(2), "mire"),
    (Answer::Gives(""), Ok(0), "mire"),
    (Answer::Gives(""), Ok(0), "mire"),
];

#[test]
fn a_file_is_opened_read_and_closed(rt: HostRuntime) {
    let [first, second, third, fourth, fifth, sixth] = READ.map(|row| row.0);
    let answers = [Answer::Opens, first, second, third, fourth, fifth, sixth];
    let script = Script::new(rt.alloc(), &answers);
    let mut files = NotedFiles::new(files_played(&script));
    assert_same(&rt, &told(files.open("map.roads")), &Ok(()));
    let mut piece = *b"none";
    for (_, wanted, octets) in READ {
        assert_row(&rt, octets, &told(files.read(&mut piece)), &wanted);
        assert_octets(&rt, &piece, octets.as_bytes());
    }
    files.close(0);
    let closed = files.read(&mut piece);
    assert_same(&rt, &told(closed), &Err(ErrorKind::NotFound));
    let calls = "open map.roads read\nread 4\nread 4\nread 4\nread 4\nread 4\nread 4\nclose\n";
    script.assert_calls(&rt, "a file", calls);
}

#[test]
fn one_file_is_open_at_a_time(rt: HostRuntime) {
    let answers = [Answer::Opens, Answer::Opens, Answer::Gives("next")];
    let script = Script::new(rt.alloc(), &answers);
    {
        let mut files = NotedFiles::new(files_played(&script));
        assert_same(&rt, &told(files.open("first")), &Ok(()));
        assert_same(&rt, &told(files.open("second")), &Ok(()));
        assert_same(&rt, &told(files.read(&mut [0; 4])), &Ok(4));
    }
    let calls = "open first read\nopen second read\nclose\nread 4\nclose\n";
    script.assert_calls(&rt, "two files", calls);
}

// Returns the kind, the owner, the number of names and the mode of a look.
fn facts(look: Look) -> (u64, u64, u64, u64) {
    (look.kind, look.owner, look.names, look.mode)
}

/// The system's answer to a look, and what the look shows: kind and mode. A file of a double has no owner and no name.
const LOOKED: [(Answer, Result<(u64, u64, u64, u64), ErrorKind>); 6] = [
    (Answer::Regular(6), Ok((REGULAR, 0, 0, 0o100644))),
    (Answer::Folder, Ok((0o4, 0, 0, 0o040755))),
    (Answer::Link(6), Ok((LINK, 0, 0, 0o120777))),
    (Answer::Fails(ErrorKind::NotFound), Err(ErrorKind::NotFound)),
    (
        Answer::Fails(ErrorKind::PermissionDenied),
        Err(ErrorKind::PermissionDenied),
    ),
    (
        Answer::Fails(ErrorKind::FilesystemLoop),
        Err(ErrorKind::FilesystemLoop),
    ),
];

#[test]
fn a_look_is_one_call(rt: HostRuntime) {
    for (answer, wanted) in LOOKED {
        let answers = [answer, answer];
        let script = Script::new(rt.alloc(), &answers);
        let mut names = NotedNames::new(files_played(&script));
        let named = names.look_at_link("owner.desk").map(facts);
        assert_row(&rt, "look_at_link", &told(named), &wanted);
        let led = names.look("mirror-1").map(facts);
        assert_row(&rt, "look", &told(led), &wanted);
        script.assert_calls(&rt, "looks", "look_at_link owner.desk\nlook mirror-1\n");
    }
}

/// The system's answer to a look at this process, and its user.
const USERS: [(Answer, Option<u64>); 3] = [
    (Answer::Folder, Some(0)),
    (Answer::Fails(ErrorKind::NotFound), None),
    (Answer::Fails(ErrorKind::PermissionDenied), None),
];

#[test]
fn the_user_is_the_owner_of_the_process(rt: HostRuntime) {
    for (answer, wanted) in USERS {
        let answers = [answer];
        let script = Script::new(rt.alloc(), &answers);
        assert_row(
            &rt,
            "user",
            &NotedNames::new(files_played(&script)).user(),
            &wanted,
        );
        script.assert_calls(&rt, "user", "look /proc/self\n");
    }
}
