//! The links of a chain, read from the octets of a chain file.
ghost use Rattle.std.specs.Prelude.{◌≡◌, ◌<◌, ◌≤◌, ◌^◌, length, IfOk, Ok, Err};
ghost use Rattle.octet_text.specs.Format.{whole};
ghost use Rattle.lms_tree.specs.ChainFiles.{chain_file};
ghost use Rattle.std.specs.Result.{IfErr};
ghost use Rattle.route_check_c.specs.Codes.{told as told_of};
ghost use Rattle.route_check_c.specs.Telling.{AreTooLong, IsUnread};

use crate::reasons::{Reason, short_of_memory, told};
use lms_tree::{Link, read_links};
use octet_text::{List, Malformed, ReadError};
use std::alloc::Global;

/// Reads the links of a chain. Fails if the chain or the reply is too long to be read; this does not depend on the
/// available memory.
pub(crate) fn links_of(alloc: Global, chain: &[u8], reply: &[u8]) -> Result<List<Link>, Reason>
    ensures links { IfOk result (λ links. whole chain_file chain.now ≡ Ok links) }
    ensures few { IfOk result (λ links. length links ≤ 7) }
    ensures short { IfOk result (λ links. length reply.now < 2 ^ 32) }
    ensures unread { IfErr result (IsUnread chain.now reply.now) }
    ensures too_long { AreTooLong chain.now reply.now → result ≡ Err (told_of 17 0 0) }
{
    if chain.len() >= 4_294_967_296 || reply.len() >= 4_294_967_296 {
        return Err(told(17, 0, 0));
    }
    match read_links(alloc, chain) {
        Ok(links) => Ok(links),
        Err(ReadError::Malformed(Malformed { at })) => Err(told(18, u64::from(at), 0)),
        Err(ReadError::Memory(none)) => Err(short_of_memory(none)),
    }
}
