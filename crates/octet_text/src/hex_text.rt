//! Octets in hex digits.
ghost use Rattle.std.specs.Prelude.{◌≡◌, string_bytes, Ok, Err, IfOk, IfErr};
ghost use Rattle.hex.specs.Hex.{decode_of, encode_lower};

use crate::NoMemory;
use hex::FromHexError;
use std::alloc::Global;

/// Encodes octets as hex digits, in lower case.
pub fn hex_of(alloc: Global, octets: &[u8]) -> Result<String, NoMemory>
    ensures { IfOk result (λ text. string_bytes text ≡ encode_lower octets.now) }
{
    match hex::encode(alloc, octets) {
        Ok(text) => Ok(text),
        Err(_) => Err(NoMemory::refused()),
    }
}

/// Decodes hex digits. Fails with the reason why they do not encode octets.
pub fn octets_of_hex(
    alloc: Global,
    digits: &[u8],
) -> Result<Result<Vec<u8>, FromHexError>, NoMemory>
    ensures octets { IfOk result (λ found.
        IfOk found (λ octets. decode_of digits.now ≡ Ok octets.items)) }
    ensures none { IfOk result (λ found. IfErr found (λ why. decode_of digits.now ≡ Err why)) }
{
    match hex::decode(alloc, digits) {
        Ok(octets) => Ok(Ok(octets)),
        Err(FromHexError::OutOfMemory) => Err(NoMemory::refused()),
        Err(why) => Ok(Err(why)),
    }
}
