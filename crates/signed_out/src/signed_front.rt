//! Whether octets begin with a header that a key has signed.
ghost use Rattle.std.specs.Prelude.{◌≡◌, ◌<◌, ◌≤◌, length};
ghost use Rattle.signed_out.specs.Fronts.{is_signed, is_verified, seal_length};

use lms_tree::verify;
use octet_text::array_at;

/// Returns the length of the signature, in octets.
#[tactic(auto, unfolding(crate::specs::Fronts::seal_length))]
fn length_of(octets: &[u8]) -> usize
    requires { 110 ≤ length octets.now }
    ensures value { result ≡ seal_length octets.now }
    ensures fits { result < 65536 }
{
    usize::from(u16::from_be_bytes(array_at(octets, 108)))
}

/// Tests whether a signature by this key is valid for a header.
#[tactic(auto, unfolding(crate::specs::Fronts::is_verified))]
fn is_good(public: &[u8; 56], header: &[u8], signature: &[u8]) -> bool
    ensures { result ≡ is_verified public.now header.now signature.now }
{
    verify(public, header, signature).is_ok()
}

/// Tests whether a publication that begins with these octets is signed under a public key. Its header is
/// at offset 4. Its signature follows the signature's length, which is at offset 108.
#[tactic(auto, unfolding(crate::specs::Fronts::is_signed))]
pub fn is_signed_under(public: &[u8; 56], octets: &[u8]) -> bool
    ensures { result ≡ is_signed public.now octets.now }
{
    if octets.len() < 110 {
        return false;
    }
    let length = length_of(octets);
    if octets.len() < 110 + length {
        return false;
    }
    is_good(public, &octets[4..108], &octets[110..110 + length])
}
