//! The arguments of a survey.

ghost use Rattle.std.specs.Prelude.{◌≤◌};

/// The width and the seed of a grid, the code of a method, and the number of queries.
#[derive(Clone, Copy, Debug, PartialEq, Eq)]
pub struct Survey {
    /// The width, from 2 to 256.
    pub width: u32,
    pub seed: u64,
    /// The method: 1 DIJ, 2 FULL, 3 LDM, 4 HYP.
    pub method: u8,
    /// The number of queries, from 1 to 1,000.
    pub queries: u32,
    ghost wide: { 2 ≤ width },
    ghost narrow: { width ≤ 256 },
    ghost few: { queries ≤ 1000 },
}
