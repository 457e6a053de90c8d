//! Walks that stop at walls.

ghost use Rattle.std.specs.Prelude.{◌≡◌, false, slice_get};
ghost use Rattle.std.specs.Option.{unwrap_or};

use crate::rows::Rows;
use road_map::Arc;
use road_search::Ground;

/// Tests whether there is a wall at a number.
pub fn is_wall(walls: &[bool], number: u32) -> bool
    ensures { result ≡ unwrap_or (slice_get walls.now number) false }
{
    match walls.get(number as usize) {
        None => false,
        Some(wall) => *wall,
    }
}

/// Rows of arcs, with walls at some numbers. No walk continues from a wall, unless it starts there.
#[derive(Drop)]
pub struct Walled<'a, R: Rows> {
    pub rows: &'a R,
    pub walls: &'a [bool],
    pub start: u32,
}

impl<R: Rows> Ground for Walled<'_, R> {
    ghost use Rattle.pair_dist.specs.Chains.{walled_ways};

    ghost ways = { λ w. walled_ways (R.rows w.rows.now) w.walls.now w.start };

    fn arcs(&self, id: u32) -> Option<&[Arc]> {
        let rows = self.rows;
        rows.at(id)
    }

    fn lets(&self, id: u32, _length: u64) -> bool {
        id == self.start || !is_wall(self.walls, id)
    }

    ghost lets_shorter = { λ w id short long le h. h };
}
