//! Messages to an owner about the files that her command uses, before the command begins and after it.

use desk_disk::DeskDisk;
use desk_guard::{Signing, secret_doubts, unsafe_folder};
use desk_sight::{Sight, Spending};
use guarded_run::{KeyFile, uses_desk};
use road_command::Words;
use road_tell::zero_roads;
use std::io;

/// Reports why the desk's folder is not safe.
pub fn tell_places(rt: HostRuntime, words: &Words) {
    if uses_desk(words) && unsafe_folder(&rt) {
        let _ = eprintln!(rt;
            "road_proof: owner.desk: Others can write to its folder, and put another desk there. `chmod go-w .` prevents that."
        );
    }
}

/// Reports after a run what is at fault with the mode of the desk's file that a command has read, or that others could
/// read the file until it was opened.
pub fn tell_opening(rt: HostRuntime, disk: &DeskDisk<HostRuntime>) {
    if let Some(why) = disk.fault_left() {
        let _ = eprintln!(rt; "road_proof: owner.desk: {why}");
    }
    if disk.was_readable() {
        let _ = eprintln!(rt;
            "road_proof: owner.desk: Others could read it until now, and cannot from now on. Whoever has read it can sign in your name."
        );
    }
}

/// Reports that the file `owner.key` exists and holds no key.
pub fn tell_key_file(rt: HostRuntime, known: KeyFile) {
    if known.is_broken() {
        let _ = eprintln!(rt;
            "road_proof: owner.key: It is not a public key, so the desk is not compared with it. Put a copy of your public key there, or remove the file."
        );
    }
}

/// Reports what the look spent.
pub fn tell_spending(rt: HostRuntime, spending: Spending) {
    let _ = match spending {
        Spending::Nothing => return,
        Spending::Header { slot, version } => eprintln!(rt;
            "road_proof: owner.desk: One-time key {slot} counted as free, but has the header of version {version}. A crash left it so, or something else changed the file. It counts as used from now on. If you ever gave out that map, stop: something changes the file."
        ),
        Spending::Link { key } => eprintln!(rt;
            "road_proof: owner.desk: The link from key {key} to the next key counted as unsigned, but is whole. A crash left it so, or something else changed the file. It counts as signed from now on."
        ),
    };
}

/// Reports how to restore the public key of an existing key, if the file `owner.key` was lost.
pub fn tell_key_again(rt: HostRuntime, sight: Option<Sight>) {
    let _ = match sight {
        Some(sight) if sight.key == 1 => eprintln!(rt;
            "road_proof: owner.key: If this command has emptied it, `road_proof desk | cut -d' ' -f1 > owner.key` writes it again."
        ),
        _ => eprintln!(rt;
            "road_proof: owner.key: If this command has emptied it, take a copy of it: `road_proof desk` writes only the current key."
        ),
    };
}

/// Reports which versions the desk has signed.
pub fn tell_versions(rt: HostRuntime, sight: Option<Sight>) {
    let Some(sight) = sight else {
        return;
    };
    if let (Some(last), Some(greatest)) = (sight.last, sight.greatest) {
        let last = last.version;
        let _ = eprintln!(rt;
            "road_proof: owner.desk: The last version that it has signed is {last}, and the greatest is {greatest}."
        );
    }
}

/// Reports why the desk's folder cannot be listed or synced.
pub fn tell_folder(rt: HostRuntime, fault: Option<io::Error>) {
    if let Some(e) = fault {
        let _ = eprintln!(rt;
            "road_proof: owner.desk: Its folder cannot be listed or synced: {e}."
        );
    }
}

/// Reports why the text of a secret's file is not secret. A key was made from this file, and `text` has its first
/// octets.
pub fn tell_secret(rt: HostRuntime, secret: &str, text: &[u8]) {
    for doubt in secret_doubts(&rt, secret, text) {
        if let Some(doubt) = doubt {
            let _ = eprintln!(rt; "road_proof: {secret}: {doubt}");
        }
    }
}

/// Reports which one-time key a `publish` used and what this key signed, from the desk as it was before and from the
/// publication. Also reports how many roads of the road file with this name have length 0.
pub fn tell_signing(rt: HostRuntime, name: &str, sight: Sight, publication: &[u8], roads: &[u8]) {
    if let Some(signing) = Signing::of(sight, publication) {
        let _ = eprintln!(rt; "road_proof: owner.desk: {signing}");
    }
    match zero_roads(roads) {
        0 => {}
        count => {
            let _ = eprintln!(rt;
                "road_proof: {name}: Roads of length 0: {count}. A server may send a client round them."
            );
        }
    }
}
