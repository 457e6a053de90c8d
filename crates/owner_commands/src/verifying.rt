//! Verification before any octet is written: each signature is the owner's, and signs its text.
//!
//! The contracts of the code that makes the signatures already guarantee this. But if memory or a processor flips a
//! bit in the meantime, it may be false, and such a signature, once released, can help to forge another.

ghost use Rattle.std.specs.Prelude.{◌≡◌, ◌++◌, codes, Ok, Err, IfOk, IfErr, ◌≤◌, ◌<◌, length};
ghost use Rattle.octet_text.specs.Want.{no_memory};
ghost use Rattle.hex.specs.Hex.{encode_lower};
ghost use Rattle.lms_tree.specs.ChainFiles.{chain_file};
ghost use Rattle.lms_tree.specs.Chains.{chained};
ghost use Rattle.lms_tree.specs.Signatures.{public_key, verified};
ghost use Rattle.proof_octets.specs.Headers.{header_text};

use crate::making::line_of_key;
use command_files::Fault;
use key_desk::Desk;
use lms_tree::{Link, follow, verify, write_links};
use proof_octets::Publication;
use std::alloc::Global;

/// Returns a publication whose signature verifies under the desk's key. Fails with `BadBlock` if the signature does
/// not verify.
pub(crate) fn verified_publication(
    desk: &Desk,
    publication: Publication,
) -> Result<Publication, Fault>
    requires { verified (public_key desk.now.key) (header_text publication.header)
        publication.signature ≡ Ok tt }
    ensures { result ≡ Ok publication }
{
    let text = publication.header.write();
    match verify(&desk.public(), &text, publication.signature.as_slice()) {
        Ok(()) => Ok(publication),
        Err(_) => Err(Fault::BadBlock),
    }
}

/// Returns the chain file of links, each of which verifies under the previous key. Fails with `BadBlock` if a link
/// does not verify.
pub(crate) fn verified_chain(
    alloc: Global,
    first: &[u8; 56],
    links: &[Link],
) -> Result<Vec<u8>, Fault>
    requires fits { chain_file.Fits links.now }
    requires chained { chained first.now links.now ≡ Ok tt }
    ensures spelled { IfOk result (λ chain. chain.items ≡ chain_file.spell links.now) }
    ensures memory { IfErr result (λ e. e ≡ Fault.Memory no_memory) }
{
    if follow(first, links).is_err() {
        return Err(Fault::BadBlock);
    }
    match write_links(alloc, links) {
        Ok(chain) => Ok(chain),
        Err(none) => Err(Fault::Memory(none)),
    }
}

/// Returns the line of the public key of a desk. A link that verifies must lead to the desk's key from the previous
/// key. Fails with `BadBlock` if the link does not verify.
pub(crate) fn line_of_next(desk: &Desk) -> Result<[u8; 113], Fault>
    requires { 0 < length desk.now.earlier }
    ensures { result ≡ Ok (encode_lower (public_key desk.now.key) ++ codes "\n") }
{
    if !desk.is_linked() {
        return Err(Fault::BadBlock);
    }
    Ok(line_of_key(&desk.public()))
}
