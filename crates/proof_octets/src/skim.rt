//! Reading values without keeping them.
ghost use Rattle.std.specs.Prelude.{◌≡◌, length};
ghost use Rattle.octet_text.specs.Format.{Gives, rows};
ghost use Rattle.proof_octets.specs.Outlines.{many};

use octet_text::{Cursor, ReadError, Row};
use std::alloc::Global;

// Reads this many values without keeping them, and returns their number.
pub(crate) fn skim_rows<R: Row>(
    alloc: Global,
    reader: &R,
    count: u32,
    cursor: &mut Cursor<'_>,
) -> Result<u32, ReadError>
    ensures { Gives (λ n. n) result cursor.new
        ((many length (rows (R.format reader.now) R.follows 0 count)).read cursor.old) }
{
    let mut least = 0;
    for _ in 0..count {
        let item = reader.read(alloc, cursor, least)?;
        least = R::after(&item);
    }
    Ok(count)
}
