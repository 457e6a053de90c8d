//! Reading chain files.

use crate::same::assert_row;
use command_files::{Fault, load_chain};
use mem_io::MemLibrary;
use std::alloc::Global;
use std::test::Fail;

// Makes a library with two chain files: one of one link, and one that is cut short.
fn library_of(alloc: Global) -> Result<MemLibrary, Fail> {
    let mut octets = Vec::from_slice(alloc, b"RPL1")?;
    octets.extend_from_slice(&[0; 56])?;
    octets.extend_from_slice(&[0, 3, 7, 8, 9])?;
    let cut = octets.get(..64).unwrap_or(&[]);
    let mut library = MemLibrary::new(alloc, Vec::new(alloc));
    library.put("chain", &octets)?;
    library.put("cut", cut)?;
    Ok(library)
}

// Returns the number of links in the chain file with a name.
fn links_of(alloc: Global, library: &mut MemLibrary, name: Option<&str>) -> Result<usize, Fault> {
    let links = load_chain(alloc, library, name)?;
    Ok(links.as_slice().len())
}

static CHAINS: [(Option<&str>, Result<usize, Fault>); 3] = [
    (None, Ok(0)),
    (Some("chain"), Ok(1)),
    (Some("cut"), Err(Fault::Malformed(62))),
];

#[test]
fn a_chain_file_is_its_links(rt: HostRuntime) -> Result<(), Fail> {
    let mut library = library_of(rt.alloc())?;
    for (name, count) in &CHAINS {
        let found = links_of(rt.alloc(), &mut library, *name);
        assert_row(&rt, *name, found, *count);
    }
    Ok(())
}
