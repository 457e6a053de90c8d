//! Messages about an owner's mirrors.

use desk_guard::{OwnerMirror, mirrors_for};
use guarded_run::Unsynced;
use mirror_out::{FileMirror, Mirror};
use octet_text::{NoMemory, push};
use road_command::Words;
use std::alloc::Global;

/// Returns the mirrors of a run with these arguments. Reports why a mirror cannot be opened; such a mirror is lost
/// at the first piece.
pub fn told_mirrors(
    rt: HostRuntime,
    alloc: Global,
    words: &Words,
) -> Result<Vec<FileMirror>, NoMemory> {
    let mut mirrors: Vec<FileMirror> = Vec::new(alloc);
    for found in mirrors_for(&rt, alloc, words)? {
        let OwnerMirror { mirror, why_lost } = found;
        if let Some(why) = why_lost {
            let label = mirror.label();
            let _ = eprintln!(rt; "road_proof: mirror-{label}: {why}");
        }
        push(&mut mirrors, mirror)?;
    }
    Ok(mirrors)
}

/// Returns the labels of mirrors.
pub fn labels_of(alloc: Global, mirrors: &Vec<FileMirror>) -> Result<Vec<u32>, NoMemory> {
    let mut labels = Vec::new(alloc);
    for mirror in mirrors {
        push(&mut labels, mirror.label())?;
    }
    Ok(labels)
}

/// Reports the mirrors that were lost.
pub fn tell_lost(rt: HostRuntime, labels: &[u32], mirrors: &Vec<FileMirror>) {
    for label in labels.iter().filter(|label| is_lost(mirrors, **label)) {
        let _ = eprintln!(rt; "lost mirror {label}");
    }
}

/// Tests whether no mirror has this label.
fn is_lost(mirrors: &Vec<FileMirror>, label: u32) -> bool {
    !mirrors.iter().any(|mirror| mirror.label() == label)
}

/// Reports the mirrors that could not be synced. These are also lost.
pub fn tell_unsynced(rt: HostRuntime, unsynced: &Unsynced) {
    for lost in unsynced {
        if let Some((label, e)) = lost {
            let _ = eprintln!(rt;
                "road_proof: mirror-{label}: It cannot be synced: {e}.\nlost mirror {label}"
            );
        }
    }
}
