//! Facts that no clause can state: each call of the system is made at the real system, and gives what is noted.

use crate::asserts::{assert_octets, assert_same};
use outside::{
    LINK, Look, NotedDisk, NotedFiles, NotedNames, NotedOutput, NotedTail, REGULAR, open_to_append,
    standard_input, sync_folder,
};
use std::fs::{self, File, Permissions};
use std::io::{self, ErrorKind};
use std::os::unix::fs::{PermissionsExt, symlink};
use std::process::Abort;
use std::rt::Files;
use std::test::Fail;

// Returns the kind of the error.
fn why<T>(answer: &io::Result<T>) -> Option<ErrorKind> {
    match answer {
        Ok(_) => None,
        Err(e) => Some(e.kind()),
    }
}

#[test]
fn output_is_printed(rt: HostRuntime) {
    let mut output = NotedOutput::new(rt);
    assert_same(&rt, &output.write(b"output\n").ok(), &Some(7));
}

#[test]
fn input_ends(rt: HostRuntime) {
    let mut input = standard_input(&rt);
    assert_same(&rt, &input.read(&mut [0; 4]).ok(), &Some(0));
}

#[test]
fn a_file_is_read_to_its_end(rt: HostRuntime) -> Result<(), Fail> {
    let name = "a_file_is_read_to_its_end.txt";
    let mut files = NotedFiles::new(rt);
    let mut piece = [7; 4];
    let missing = files.open(name);
    let none = files.read(&mut piece);
    fs::write(&rt, name, "octets")?;
    files.open(name)?;
    let first = files.read(&mut piece)?;
    let front = piece;
    let second = files.read(&mut piece)?;
    let third = files.read(&mut piece)?;
    files.close(0);
    let closed = files.read(&mut piece);
    fs::remove_file(&rt, name)?;
    assert!(rt; matches!(why(&missing), Some(ErrorKind::NotFound)));
    assert!(rt; none.is_err() && closed.is_err());
    assert_same(&rt, &(first, second, third), &(4, 2, 0));
    assert_octets(&rt, &front, b"octe");
    assert_octets(&rt, &piece, b"tste");
    Ok(())
}

// Asserts that a look shows a regular file of one name with this mode.
fn assert_regular(rt: &impl Abort, look: Look, mode: u64) {
    assert_same(rt, &look.kind, &REGULAR);
    assert_same(rt, &look.names, &1);
    assert_same(rt, &(look.mode % 0o1000), &mode);
}

#[test]
fn names_are_looked_at(rt: HostRuntime) -> Result<(), Fail> {
    let (name, link) = ("names_are_looked_at.txt", "names_are_looked_at.link");
    fs::write(&rt, name, "octets")?;
    fs::set_permissions(&rt, name, Permissions::from_mode(0o640))?;
    symlink(&rt, name, link)?;
    let mut names = NotedNames::new(rt);
    let file = names.look(name)?;
    let target = names.look(link)?;
    let named = names.look_at_link(link)?;
    let user = names.user();
    fs::remove_file(&rt, link)?;
    fs::remove_file(&rt, name)?;
    assert_regular(&rt, file, 0o640);
    assert_regular(&rt, target, 0o640);
    assert_same(&rt, &named.kind, &LINK);
    assert_same(&rt, &user, &Some(file.owner));
    assert!(rt; file.device == target.device && file.inode == target.inode);
    assert!(rt; file.device == named.device && file.inode != named.inode);
    assert_same(&rt, &names.look(".")?.kind, &0o4);
    assert_same(&rt, &names.look("/dev/null")?.kind, &0o2);
    assert!(rt; matches!(why(&names.look(link)), Some(ErrorKind::NotFound)));
    assert!(rt; matches!(why(&names.look_at_link(link)), Some(ErrorKind::NotFound)));
    Ok(())
}

#[test]
fn a_tail_is_appended_to(rt: HostRuntime) -> Result<(), Fail> {
    let name = "a_tail_is_appended_to.txt";
    let missing = open_to_append(&rt, name);
    fs::write(&rt, name, "old ")?;
    let (file, look) = open_to_append(&rt, name)?;
    let mut tail = NotedTail::new(Some(file));
    tail.append(b"new")?;
    tail.append(b"er")?;
    let mut names = NotedNames::new(rt);
    tail.sync(&mut names)?;
    let same = names.look(name)?;
    let text = fs::read_to_string(&rt, name)?;
    fs::remove_file(&rt, name)?;
    assert!(rt; matches!(why(&missing), Some(ErrorKind::NotFound)));
    assert!(rt; look.device == same.device && look.inode == same.inode);
    assert_octets(&rt, text.as_bytes(), b"old newer");
    let mut none = NotedTail::new(None);
    assert!(rt; none.append(b"new").is_err() && none.sync(&mut names).is_ok());
    Ok(())
}

// The system refuses to sync a device that stores nothing, so this sync must fail.
#[test]
fn a_tail_is_synced(rt: HostRuntime) -> Result<(), Fail> {
    let (file, _) = open_to_append(&rt, "/dev/null")?;
    let answer = NotedTail::new(Some(file)).sync(&mut NotedNames::new(rt));
    assert!(rt; matches!(why(&answer), Some(ErrorKind::InvalidInput)));
    sync_folder(&rt)?;
    Ok(())
}

// Opens the existing file with a name for reading and writing, and locks it.
fn held<R: Files<File = File> + Drop>(disk: &mut NotedDisk<R>, name: &str) -> io::Result<()> {
    let opened = disk.open(name)?;
    disk.hold(opened)
}

// Creates a file with a name, and locks it.
fn made<R: Files<File = File> + Drop>(disk: &mut NotedDisk<R>, name: &str) -> io::Result<()> {
    let created = disk.create(name)?;
    disk.hold(created)
}

#[test]
fn a_disk_is_made_and_opened_as_it_is(rt: HostRuntime) -> Result<(), Fail> {
    let name = "a_disk_is_made_and_opened_as_it_is.desk";
    let mut disk = NotedDisk::new(rt);
    let unseen = disk.len();
    let missing = disk.open(name);
    let absent = disk.len()?;
    let unwritten = disk.write_at(0, b"octets");
    disk.sync()?;
    made(&mut disk, name)?;
    disk.write_at(0, b"octets")?;
    let beyond = disk.write_at(7, b"octets");
    disk.write_at(6, b" more")?;
    disk.refuse(0, b"others");
    disk.sync()?;
    let look = disk.look_at_file()?;
    let again = NotedDisk::new(rt).create(name);
    disk.close();
    let closed = disk.len();
    held(&mut disk, name)?;
    let mut part = [0; 4];
    disk.read_at(7, &mut part)?;
    let past = disk.read_at(8, &mut [0; 4]);
    let length = disk.len()?;
    drop(disk);
    fs::remove_file(&rt, name)?;
    assert!(rt; matches!(why(&unseen), Some(ErrorKind::NotConnected)));
    assert!(rt; matches!(why(&missing), Some(ErrorKind::NotFound)));
    assert!(rt; matches!(why(&unwritten), Some(ErrorKind::NotFound)));
    assert!(rt; matches!(why(&beyond), Some(ErrorKind::InvalidInput)));
    assert!(rt; matches!(why(&again), Some(ErrorKind::AlreadyExists)));
    assert!(rt; matches!(why(&past), Some(ErrorKind::UnexpectedEof)));
    assert!(rt; closed.is_err());
    assert_same(&rt, &(absent, length), &(0, 11));
    assert_regular(&rt, look, 0o600);
    assert_octets(&rt, &part, b"more");
    Ok(())
}

#[test]
fn a_disk_is_locked(rt: HostRuntime) -> Result<(), Fail> {
    let name = "a_disk_is_locked.desk";
    let (mut first, mut second) = (NotedDisk::new(rt), NotedDisk::new(rt));
    made(&mut first, name)?;
    let beside_writer = (held(&mut second, name), second.open_to_read(name));
    first.close();
    first.open_to_read(name)?;
    let beside_reader = (held(&mut second, name), second.open_to_read(name));
    let unwritten = first.write_at(0, b"octets");
    drop(first);
    drop(second);
    fs::remove_file(&rt, name)?;
    assert!(rt; matches!(why(&beside_writer.0), Some(ErrorKind::WouldBlock)));
    assert!(rt; matches!(why(&beside_writer.1), Some(ErrorKind::WouldBlock)));
    assert!(rt; matches!(why(&beside_reader.0), Some(ErrorKind::WouldBlock)));
    assert!(rt; beside_reader.1.is_ok() && unwritten.is_err());
    Ok(())
}

// As for a tail. All readers can lock the device at the same time.
#[test]
fn a_disk_is_synced(rt: HostRuntime) -> Result<(), Fail> {
    let mut disk = NotedDisk::new(rt);
    disk.open_to_read("/dev/null")?;
    assert!(rt; matches!(why(&disk.sync()), Some(ErrorKind::InvalidInput)));
    Ok(())
}

#[test]
fn a_disk_is_shut_and_looked_at(rt: HostRuntime) -> Result<(), Fail> {
    let name = "a_disk_is_shut_and_looked_at.desk";
    fs::write(&rt, name, "octets")?;
    fs::set_permissions(&rt, name, Permissions::from_mode(0o644))?;
    let mut disk = NotedDisk::new(rt);
    let unopened = (disk.look_at_file(), disk.shut());
    held(&mut disk, name)?;
    let before = disk.look_at_file()?;
    disk.shut()?;
    let behind = disk.look_at_file()?;
    let named = disk.look_at_link(name)?;
    let user = disk.user();
    fs::remove_file(&rt, name)?;
    assert!(rt; unopened.0.is_err() && unopened.1.is_err());
    assert_regular(&rt, before, 0o644);
    assert_regular(&rt, behind, 0o600);
    assert!(rt; named.device == before.device && named.inode == before.inode);
    assert_same(&rt, &user, &Some(named.owner));
    Ok(())
}
