//! A disk over a double that hands out real files.

use crate::asserts::{assert_octets, assert_row, assert_same, told};
use crate::double_files::real;
use crate::script::{Answer, Script};
use outside::{Look, NotedDisk};
use std::fs::{self, File, Permissions};
use std::io::{self, ErrorKind};
use std::os::unix::fs::{MetadataExt, PermissionsExt, symlink};
use std::rt::Files;
use std::test::Fail;

/// How the file of a disk is opened.
#[derive(Clone, Copy, Debug)]
enum Way {
    AsItIs,
    Anew,
    ToRead,
}

// Opens the file of a disk, and locks it.
fn begin<R: Files<File = File> + Drop>(
    disk: &mut NotedDisk<R>,
    way: Way,
    name: &str,
) -> io::Result<()> {
    let opened = match way {
        Way::AsItIs => disk.open(name)?,
        Way::Anew => disk.create(name)?,
        Way::ToRead => return disk.open_to_read(name),
    };
    disk.hold(opened)
}

/// How a disk is opened, why the system refuses that, the only call, the reason for which the disk refuses from then on,
/// and its length. An opening for reading that fails leaves the disk as it was.
const REFUSED: [(Way, ErrorKind, &str, ErrorKind, Result<u64, ErrorKind>); 6] = [
    (
        Way::AsItIs,
        ErrorKind::NotFound,
        "open owner.desk read write\n",
        ErrorKind::NotFound,
        Ok(0),
    ),
    (
        Way::AsItIs,
        ErrorKind::PermissionDenied,
        "open owner.desk read write\n",
        ErrorKind::PermissionDenied,
        Err(ErrorKind::PermissionDenied),
    ),
    (
        Way::Anew,
        ErrorKind::AlreadyExists,
        "open owner.desk read write create_new of mode 600\n",
        ErrorKind::AlreadyExists,
        Err(ErrorKind::AlreadyExists),
    ),
    (
        Way::Anew,
        ErrorKind::StorageFull,
        "open owner.desk read write create_new of mode 600\n",
        ErrorKind::StorageFull,
        Err(ErrorKind::StorageFull),
    ),
    (
        Way::ToRead,
        ErrorKind::NotFound,
        "open owner.desk read\n",
        ErrorKind::NotConnected,
        Err(ErrorKind::NotConnected),
    ),
    (
        Way::ToRead,
        ErrorKind::PermissionDenied,
        "open owner.desk read\n",
        ErrorKind::NotConnected,
        Err(ErrorKind::NotConnected),
    ),
];

#[test]
fn a_refused_disk_refuses_its_calls(rt: HostRuntime) {
    for (way, kind, calls, reason, length) in REFUSED {
        let answers = [Answer::Fails(kind)];
        let script = Script::new(rt.alloc(), &answers);
        let mut disk = NotedDisk::new(real(rt, &script));
        let opened = begin(&mut disk, way, "owner.desk");
        assert_row(&rt, calls, &told(opened), &Err(kind));
        assert_row(&rt, calls, &told(disk.len()), &length);
        assert_row(&rt, calls, &told(disk.sync()), &length.and(Ok(())));
        assert_row(&rt, calls, &told(disk.read_at(0, &mut [])), &Ok(()));
        let read = disk.read_at(0, &mut [0; 4]);
        assert_row(&rt, calls, &told(read), &Err(ErrorKind::UnexpectedEof));
        let written = disk.write_at(0, b"octets");
        assert_row(&rt, calls, &told(written), &Err(reason));
        let looked = disk.look_at_file().map(|_| ());
        assert_row(&rt, calls, &told(looked), &Err(reason));
        assert_row(&rt, calls, &told(disk.shut()), &Err(reason));
        script.assert_calls(&rt, calls, calls);
    }
}

/// The answers to the openings of a disk and of its folder, and how the disk is held. A device stores nothing, so its
/// sync is refused: the folder is synced, and not only opened.
const HELD: [([Answer; 2], Result<(), ErrorKind>, Result<u64, ErrorKind>); 3] = [
    ([Answer::Real, Answer::Real], Ok(()), Ok(6)),
    (
        [Answer::Real, Answer::Fails(ErrorKind::PermissionDenied)],
        Err(ErrorKind::PermissionDenied),
        Err(ErrorKind::NotConnected),
    ),
    (
        [Answer::Real, Answer::RealOf("/dev/null")],
        Err(ErrorKind::InvalidInput),
        Err(ErrorKind::NotConnected),
    ),
];

#[test]
fn a_disk_is_held_once_its_folder_is_synced(rt: HostRuntime) -> Result<(), Fail> {
    for (answers, wanted, length) in HELD {
        fs::write(&rt, "held.desk", "octets")?;
        let script = Script::new(rt.alloc(), &answers);
        let mut disk = NotedDisk::new(real(rt, &script));
        let held = begin(&mut disk, Way::AsItIs, "held.desk");
        assert_row(&rt, "held", &told(held), &wanted);
        assert_row(&rt, "its length", &told(disk.len()), &length);
        let beside = fs::open(&rt, "held.desk")?.try_lock_shared();
        assert_row(&rt, "a lock beside it", &beside.is_err(), &wanted.is_ok());
        let calls = "open held.desk read write\nopen . read\n";
        script.assert_calls(&rt, "held", calls);
        drop(disk);
        let octets = fs::read_to_string(&rt, "held.desk")?;
        assert_octets(&rt, octets.as_bytes(), b"octets");
    }
    fs::remove_file(&rt, "held.desk")?;
    Ok(())
}

#[test]
fn a_locked_disk_is_left_before_its_folder_is_opened(rt: HostRuntime) -> Result<(), Fail> {
    fs::write(&rt, "locked.desk", "octets")?;
    let other = fs::open(&rt, "locked.desk")?;
    other.try_lock_shared()?;
    let answers = [Answer::Real, Answer::Real];
    let script = Script::new(rt.alloc(), &answers);
    let mut disk = NotedDisk::new(real(rt, &script));
    let held = begin(&mut disk, Way::AsItIs, "locked.desk");
    assert_same(&rt, &told(held), &Err(ErrorKind::WouldBlock));
    assert_same(&rt, &told(disk.len()), &Err(ErrorKind::NotConnected));
    let read = begin(&mut disk, Way::ToRead, "locked.desk");
    assert_same(&rt, &told(read), &Ok(()));
    assert_same(&rt, &told(disk.len()), &Ok(6));
    let calls = "open locked.desk read write\nopen locked.desk read\n";
    script.assert_calls(&rt, "locked", calls);
    drop(other);
    let beside = fs::open(&rt, "locked.desk")?.try_lock();
    assert!(rt; beside.is_err());
    disk.close();
    fs::open(&rt, "locked.desk")?.try_lock()?;
    fs::remove_file(&rt, "locked.desk")?;
    Ok(())
}

#[test]
fn a_disk_is_created_closed_to_others(rt: HostRuntime) -> Result<(), Fail> {
    let answers = [Answer::Real, Answer::Real, Answer::Real];
    let script = Script::new(rt.alloc(), &answers);
    let mut disk = NotedDisk::new(real(rt, &script));
    let made = begin(&mut disk, Way::Anew, "created.desk");
    let mode = fs::metadata(&rt, "created.desk")?.mode();
    let again = begin(&mut disk, Way::Anew, "created.desk");
    let length = disk.len();
    fs::remove_file(&rt, "created.desk")?;
    assert_same(&rt, &told(made), &Ok(()));
    assert_same(&rt, &mode, &0o100600);
    assert_same(&rt, &told(again), &Err(ErrorKind::AlreadyExists));
    assert_same(&rt, &told(length), &Err(ErrorKind::AlreadyExists));
    let new = "open created.desk read write create_new of mode 600\nopen . read\n\
               open created.desk read write create_new of mode 600\n";
    script.assert_calls(&rt, "created", new);
    Ok(())
}

/// The offset and the number of octets to be read from six, and what is read. An end within them is told.
const READ: [(u64, usize, Result<(), ErrorKind>, &str); 6] = [
    (0, 4, Ok(()), "octe"),
    (2, 4, Ok(()), "tets"),
    (6, 0, Ok(()), ""),
    (3, 4, Err(ErrorKind::UnexpectedEof), ""),
    (6, 1, Err(ErrorKind::UnexpectedEof), ""),
    (99, 1, Err(ErrorKind::UnexpectedEof), ""),
];

#[test]
fn a_disk_is_read_at_an_offset(rt: HostRuntime) -> Result<(), Fail> {
    fs::write(&rt, "read.desk", "octets")?;
    let answers = [Answer::Real];
    let script = Script::new(rt.alloc(), &answers);
    let mut disk = NotedDisk::new(real(rt, &script));
    disk.open_to_read("read.desk")?;
    for (at, count, wanted, octets) in READ {
        let mut piece = vec![in rt.alloc(); 0; count]?;
        let read = told(disk.read_at(at, &mut piece));
        assert_row(&rt, octets, &read, &wanted);
        if read.is_ok() {
            assert_octets(&rt, &piece, octets.as_bytes());
        }
    }
    assert!(rt; disk.write_at(0, b"others").is_err());
    let octets = fs::read_to_string(&rt, "read.desk")?;
    fs::remove_file(&rt, "read.desk")?;
    assert_octets(&rt, octets.as_bytes(), b"octets");
    script.assert_calls(&rt, "read", "open read.desk read\n");
    Ok(())
}

/// The offset and the octets of a write behind the earlier ones, how it ends, and all octets of the file. Nothing is
/// written where a gap would be left.
const WRITTEN: [(u64, &str, Result<(), ErrorKind>, &str); 6] = [
    (0, "OC", Ok(()), "OCtets"),
    (4, "TS.", Ok(()), "OCteTS."),
    (8, "gap", Err(ErrorKind::InvalidInput), "OCteTS."),
    (7, "..", Ok(()), "OCteTS..."),
    (9, "", Ok(()), "OCteTS..."),
    (99, "", Err(ErrorKind::InvalidInput), "OCteTS..."),
];

#[test]
fn a_disk_is_written_at_an_offset(rt: HostRuntime) -> Result<(), Fail> {
    fs::write(&rt, "written.desk", "octets")?;
    let answers = [Answer::Real, Answer::Real];
    let script = Script::new(rt.alloc(), &answers);
    let mut disk = NotedDisk::new(real(rt, &script));
    begin(&mut disk, Way::AsItIs, "written.desk")?;
    for (at, octets, wanted, whole) in WRITTEN {
        let written = disk.write_at(at, octets.as_bytes());
        assert_row(&rt, whole, &told(written), &wanted);
        disk.refuse(at, b"refused");
        let found = fs::read_to_string(&rt, "written.desk")?;
        assert_octets(&rt, found.as_bytes(), whole.as_bytes());
        assert_row(&rt, whole, &told(disk.len()), &Ok(whole.len() as u64));
        disk.sync()?;
    }
    fs::remove_file(&rt, "written.desk")?;
    let calls = "open written.desk read write\nopen . read\n";
    script.assert_calls(&rt, "written", calls);
    Ok(())
}

// The device has no room for any octet, and the system refuses to sync it.
#[test]
fn a_full_disk_is_told(rt: HostRuntime) -> Result<(), Fail> {
    let answers = [Answer::RealOf("/dev/full")];
    let script = Script::new(rt.alloc(), &answers);
    let mut disk = NotedDisk::new(real(rt, &script));
    disk.open_to_read("owner.desk")?;
    let written = disk.write_at(0, b"octets");
    assert_same(&rt, &told(written), &Err(ErrorKind::StorageFull));
    assert_same(&rt, &told(disk.write_at(0, b"")), &Ok(()));
    assert_same(&rt, &told(disk.sync()), &Err(ErrorKind::InvalidInput));
    assert_same(&rt, &told(disk.len()), &Ok(0));
    script.assert_calls(&rt, "full", "open owner.desk read\n");
    Ok(())
}

// Returns all that a look tells.
fn facts(look: Look) -> [u64; 6] {
    [
        look.kind,
        look.owner,
        look.names,
        look.mode,
        look.device,
        look.inode,
    ]
}

// Returns what a look at a file must tell, by the standard library.
fn facts_of(files: &impl Files, name: &str) -> io::Result<[u64; 6]> {
    let file = files.symlink_metadata(name)?;
    Ok([
        u64::from(file.mode()) / 0o10000,
        u64::from(file.uid()),
        file.nlink(),
        u64::from(file.mode()),
        file.dev(),
        file.ino(),
    ])
}

// Another file gets the name behind the opening. The file of the handle is closed to others and looked at, and not the
// file of the name.
#[test]
fn a_handle_keeps_its_file(rt: HostRuntime) -> Result<(), Fail> {
    fs::write(&rt, "handle.desk", "octets")?;
    fs::set_permissions(&rt, "handle.desk", Permissions::from_mode(0o644))?;
    let answers = [Answer::Real, Answer::Real];
    let script = Script::new(rt.alloc(), &answers);
    let mut disk = NotedDisk::new(real(rt, &script));
    begin(&mut disk, Way::AsItIs, "handle.desk")?;
    fs::rename(&rt, "handle.desk", "handle.moved")?;
    fs::hard_link(&rt, "handle.moved", "handle.second")?;
    fs::write(&rt, "handle.desk", "others")?;
    fs::set_permissions(&rt, "handle.desk", Permissions::from_mode(0o640))?;
    assert_same(
        &rt,
        &facts(disk.look_at_file()?),
        &facts_of(&rt, "handle.moved")?,
    );
    disk.shut()?;
    disk.write_at(0, b"OCTETS")?;
    let (moved, named) = (
        facts_of(&rt, "handle.moved")?,
        facts_of(&rt, "handle.desk")?,
    );
    let octets = fs::read_to_string(&rt, "handle.desk")?;
    for name in ["handle.desk", "handle.moved", "handle.second"] {
        fs::remove_file(&rt, name)?;
    }
    assert_same(&rt, &(moved[2], moved[3]), &(2, 0o100600));
    assert_same(&rt, &(named[2], named[3]), &(1, 0o100640));
    assert_octets(&rt, octets.as_bytes(), b"others");
    script.assert_calls(&rt, "handle", "open handle.desk read write\nopen . read\n");
    Ok(())
}

// A disk looks at names as the system shows them, also while no file is open.
#[test]
fn a_disk_looks_at_names(rt: HostRuntime) -> Result<(), Fail> {
    fs::write(&rt, "named.desk", "octets")?;
    symlink(&rt, "named.desk", "named.link")?;
    let answers = [
        Answer::Real,
        Answer::Real,
        Answer::Fails(ErrorKind::PermissionDenied),
        Answer::Real,
        Answer::Fails(ErrorKind::NotFound),
    ];
    let script = Script::new(rt.alloc(), &answers);
    let mut disk = NotedDisk::new(real(rt, &script));
    let file = disk.look_at_link("named.desk").map(facts);
    let link = disk.look_at_link("named.link").map(facts);
    let refused = disk.look_at_link("named.desk").map(facts);
    let wanted = (facts_of(&rt, "named.desk"), facts_of(&rt, "named.link"));
    fs::remove_file(&rt, "named.link")?;
    fs::remove_file(&rt, "named.desk")?;
    assert_same(&rt, &told(file), &told(wanted.0));
    assert_same(&rt, &told(link), &told(wanted.1));
    assert_same(&rt, &told(refused), &Err(ErrorKind::PermissionDenied));
    let owner = u64::from(fs::metadata(&rt, "/proc/self")?.uid());
    assert_same(&rt, &(disk.user(), disk.user()), &(Some(owner), None));
    let calls = "look_at_link named.desk\nlook_at_link named.link\nlook_at_link named.desk\n\
                 look /proc/self\nlook /proc/self\n";
    script.assert_calls(&rt, "names", calls);
    Ok(())
}
