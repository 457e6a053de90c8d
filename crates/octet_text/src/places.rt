//! Arrays at offsets in a text. `from_be_bytes` and `to_be_bytes` convert them to numbers and back.
ghost use Rattle.std.specs.Prelude.{◌≡◌, ◌+◌, ◌≤◌, ◌++◌, length, take, drop};

/// Returns the octets from offset `at` on, as many as the array has.
pub fn array_at<const N: usize>(octets: &[u8], at: usize) -> [u8; N]
    requires { at + N ≤ length octets.now }
    ensures { result ≡ take N (drop at octets.now) }
{
    let mut array = [0; N];
    array.copy_from_slice(&octets[at..at + N]);
    array
}

/// Overwrites the octets from offset `at` on with an array.
pub fn write_array<const N: usize>(out: &mut [u8], at: usize, array: &[u8; N])
    requires { at + N ≤ length out.old }
    ensures written { take (at + N) out.new ≡ take at out.old ++ array.now }
    ensures after { drop (at + N) out.new ≡ drop (at + N) out.old }
{
    out[at..at + N].copy_from_slice(array);
}
