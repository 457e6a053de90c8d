//! The parameters of a method.

ghost use Rattle.std.specs.Prelude.{◌≡◌, List, Bool};
ghost use Rattle.book_model.specs.Books.{first_failed, is_from_to};

/// Tests whether a parameter is in a range.
pub fn is_from_to(low: u64, high: u64, parameter: u64) -> bool
    ensures { result ≡ is_from_to low high parameter }
{
    low <= parameter && parameter <= high
}

/// Returns the number of the first parameter whose test fails, given the results of all three tests. The first
/// parameter has number 3.
pub fn first_failed(tests: [bool; 3]) -> Option<u8>
    ensures { result ≡ first_failed 3 tests }
{
    match tests {
        [false, _, _] => Some(3),
        [_, false, _] => Some(4),
        [_, _, false] => Some(5),
        _ => None,
    }
}
