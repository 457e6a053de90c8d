//! Copying as many octets of a publication as fit.
ghost use Rattle.std.specs.Prelude.{◌≡◌, ◌<◌, ◌≤◌, ◌^◌, ◌+◌, ◌++◌, [], length, take, drop, min};
ghost use Rattle.std.specs.Bool.{OnTrue, OnFalse};
ghost use Rattle.publication_out.specs.Left.{left_in, HasFewItems};

use crate::fields::next_field;
use crate::rest::Rest;

// Overwrites octets from an index on.
fn copy_at(into: &mut [u8], at: usize, octets: &[u8])
    requires { at + length octets.now ≤ length into.old }
    ensures { into.new ≡ take at into.old ++ octets.now ++ drop (at + length octets.now) into.old }
{
    into[at..at + octets.len()].copy_from_slice(octets);
}

// If the buffer is used up, writes the next field into it, if there is one.
fn refill(rest: &mut Rest<'_>) -> bool
    requires used { rest.old.at ≡ rest.old.end }
    requires few { HasFewItems rest.old.publication.now }
    ensures left { left_in rest.new ≡ left_in rest.old }
    ensures some { OnTrue result (rest.new.at < rest.new.end) }
    ensures none { OnFalse result (left_in rest.old ≡ []) }
    ensures same { rest.new.publication.now ≡ rest.old.publication.now }
{
    let step = next_field(rest.publication, rest.part, rest.index, &mut rest.buffer);
    rest.at = 0;
    rest.end = step.len;
    rest.part = step.part;
    rest.index = step.index;
    step.len > 0
}

// Ensures that the buffer holds an octet, if any is left.
fn is_ready(rest: &mut Rest<'_>) -> bool
    requires { HasFewItems rest.old.publication.now }
    ensures left { left_in rest.new ≡ left_in rest.old }
    ensures some { OnTrue result (rest.new.at < rest.new.end) }
    ensures none { OnFalse result (left_in rest.old ≡ []) }
    ensures same { rest.new.publication.now ≡ rest.old.publication.now }
{
    if rest.at < rest.end {
        return true;
    }
    refill(rest)
}

/// Fills the buffer from its start with the next octets, and returns their number.
pub fn fill(rest: &mut Rest<'_>, into: &mut [u8]) -> usize
    requires { HasFewItems rest.old.publication.now }
    ensures count { result ≡ min (length into.old) (length (left_in rest.old)) }
    ensures given { into.new ≡ take result (left_in rest.old) ++ drop result into.old }
    ensures left { left_in rest.new ≡ drop result (left_in rest.old) }
    ensures same { rest.new.publication.now ≡ rest.old.publication.now }
{
    let mut done = 0;
    while done < into.len() {
        if !is_ready(rest) {
            return done;
        }
        let count = (into.len() - done).min(rest.end - rest.at);
        copy_at(into, done, &rest.buffer[rest.at..rest.at + count]);
        rest.at += count;
        done += count;
    }
    done
}
