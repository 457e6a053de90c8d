//! A file that is appended to, and the working folder, over a double that hands out real files.

use crate::asserts::{assert_octets, assert_row, assert_same, told};
use crate::double_files::real;
use crate::script::{Answer, Script};
use outside::{NotedNames, NotedTail, open_to_append, sync_folder};
use std::fs;
use std::io::ErrorKind;
use std::os::unix::fs::MetadataExt;
use std::test::Fail;

/// The reasons for which the system refuses to open a file that is appended to.
const REFUSED: [ErrorKind; 3] = [
    ErrorKind::NotFound,
    ErrorKind::PermissionDenied,
    ErrorKind::IsADirectory,
];

#[test]
fn a_refused_tail_is_told(rt: HostRuntime) {
    for kind in REFUSED {
        let answers = [Answer::Fails(kind)];
        let script = Script::new(rt.alloc(), &answers);
        let opened = open_to_append(&real(rt, &script), "mirror-1").map(|_| ());
        assert_row(&rt, "refused", &told(opened), &Err(kind));
        script.assert_calls(&rt, "refused", "open mirror-1 append\n");
    }
}

// What another writer adds meanwhile stays, and the next piece stands behind it.
#[test]
fn a_piece_is_put_behind_all_octets(rt: HostRuntime) -> Result<(), Fail> {
    fs::write(&rt, "tail.mirror", "old")?;
    let answers = [Answer::Real, Answer::Real];
    let script = Script::new(rt.alloc(), &answers);
    let double = real(rt, &script);
    let (file, look) = open_to_append(&double, "tail.mirror")?;
    let (other, _) = open_to_append(&double, "tail.mirror")?;
    let (mut tail, mut beside) = (NotedTail::new(Some(file)), NotedTail::new(Some(other)));
    for piece in ["", " first", " next"] {
        tail.append(piece.as_bytes())?;
        beside.append(b" other")?;
    }
    tail.sync(&mut NotedNames::new(rt))?;
    let shown = fs::metadata(&rt, "tail.mirror")?;
    let octets = fs::read_to_string(&rt, "tail.mirror")?;
    fs::remove_file(&rt, "tail.mirror")?;
    assert_same(
        &rt,
        &(look.mode, look.names, look.owner),
        &(
            u64::from(shown.mode()),
            shown.nlink(),
            u64::from(shown.uid()),
        ),
    );
    assert_same(&rt, &(look.device, look.inode), &(shown.dev(), shown.ino()));
    assert_octets(&rt, octets.as_bytes(), b"old other first other next other");
    let calls = "open tail.mirror append\nopen tail.mirror append\n";
    script.assert_calls(&rt, "tail", calls);
    Ok(())
}

// The device has no room for any octet, and the system refuses to sync it.
#[test]
fn a_full_tail_is_told(rt: HostRuntime) -> Result<(), Fail> {
    let answers = [Answer::RealOf("/dev/full")];
    let script = Script::new(rt.alloc(), &answers);
    let (file, look) = open_to_append(&real(rt, &script), "mirror-1")?;
    let mut tail = NotedTail::new(Some(file));
    assert_same(&rt, &look.kind, &0o2);
    let piece = tail.append(b"octets");
    assert_same(&rt, &told(piece), &Err(ErrorKind::StorageFull));
    assert_same(&rt, &told(tail.append(b"")), &Ok(()));
    assert_same(
        &rt,
        &told(tail.sync(&mut NotedNames::new(rt))),
        &Err(ErrorKind::InvalidInput),
    );
    script.assert_calls(&rt, "full", "open mirror-1 append\n");
    let mut none = NotedTail::new(None);
    let piece = none.append(b"octets");
    assert_same(&rt, &told(piece), &Err(ErrorKind::NotFound));
    assert_same(&rt, &told(none.sync(&mut NotedNames::new(rt))), &Ok(()));
    Ok(())
}

/// The answer to the opening of the folder, and how its sync ends. A device stores nothing, so its sync is refused.
const FOLDERS: [(Answer, Result<(), ErrorKind>); 3] = [
    (Answer::Real, Ok(())),
    (
        Answer::Fails(ErrorKind::PermissionDenied),
        Err(ErrorKind::PermissionDenied),
    ),
    (Answer::RealOf("/dev/null"), Err(ErrorKind::InvalidInput)),
];

#[test]
fn a_folder_is_opened_and_synced(rt: HostRuntime) {
    for (answer, wanted) in FOLDERS {
        let answers = [answer];
        let script = Script::new(rt.alloc(), &answers);
        let synced = sync_folder(&real(rt, &script));
        assert_row(&rt, "folder", &told(synced), &wanted);
        script.assert_calls(&rt, "folder", "open . read\n");
    }
}
