//! Reading files of hex digits, and printing faults.

use crate::same::{assert_printed, assert_row};
use command_files::{Fault, load_hex};
use mem_io::MemLibrary;
use road_map::MapError;
use std::alloc::{AllocError, Global};

// Stores a text in a library, loads it, and returns the two octets that it encodes.
fn spelled(
    alloc: Global,
    library: &mut MemLibrary,
    text: &str,
) -> Result<Result<[u8; 2], Fault>, AllocError> {
    library.put("hex", text.as_bytes())?;
    Ok(load_hex(alloc, library, "hex"))
}

static TEXTS: [(&str, Result<[u8; 2], Fault>); 10] = [
    ("00fF", Ok([0, 255])),
    ("00fF\n", Ok([0, 255])),
    ("00fF\r\n", Ok([0, 255])),
    ("00fF\r", Err(Fault::BadHex)),
    ("00fF\n\n", Err(Fault::BadHex)),
    ("00fF ", Err(Fault::BadHex)),
    ("00fF0", Err(Fault::BadHex)),
    ("00fg", Err(Fault::BadHex)),
    ("00f", Err(Fault::BadHex)),
    ("", Err(Fault::BadHex)),
];

#[test]
fn hex_files_are_exactly_their_digits(rt: HostRuntime) -> Result<(), AllocError> {
    let mut library = MemLibrary::new(rt.alloc(), Vec::new(rt.alloc()));
    for (text, octets) in &TEXTS {
        let found = spelled(rt.alloc(), &mut library, *text)?;
        assert_row(&rt, *text, found, *octets);
    }
    Ok(())
}

static FAULTS: [(Fault, &str); 3] = [
    (Fault::UnknownNode(9), "The map has no node 9."),
    (
        Fault::Map(MapError::SelfRoad(4)),
        "The road at index 4 joins a node to itself.",
    ),
    (Fault::Missing, "There is no file of that name."),
];

#[test]
fn faults_read_as_sentences(rt: HostRuntime) -> Result<(), AllocError> {
    for (fault, text) in &FAULTS {
        assert_printed(&rt, rt.alloc(), *fault, *text)?;
    }
    Ok(())
}
