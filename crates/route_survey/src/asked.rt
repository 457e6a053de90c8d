//! The queries of a survey, and the settings of its publication.
ghost use Rattle.std.specs.Prelude.{◌≡◌, ◌<◌, ◌≤◌, IfOk};
ghost use Rattle.road_reader.specs.Grid.{after_draws};
ghost use Rattle.route_survey.specs.Asked.{id_drawn, query_drawn, survey_queries, survey_settings, parameters_of};

use book_model::{Query, Settings};
use octet_text::{NoMemory, push};
use road_reader::Draw;
use std::alloc::Global;

/// Returns the settings of a survey of a method.
pub fn survey_settings(method: u8, seed: u64) -> Settings
    ensures { result ≡ survey_settings method seed }
{
    let (p1, p2, p3) = parameters(method);
    Settings {
        method,
        version: 1,
        order: 3,
        seed,
        fan: 4,
        p1,
        p2,
        p3,
    }
}

/// Returns a method's three parameters.
fn parameters(method: u8) -> (u64, u64, u64)
    ensures { result ≡ parameters_of method }
{
    match method {
        3 => (4, 12, 2),
        4 => (2, 2, 0),
        _ => (0, 0, 0),
    }
}

/// Draws `count` queries between the nodes of a grid, from the random numbers that follow those of the grid.
#[tactic(auto, unfolding(crate::specs::Asked::survey_queries))]
pub fn survey_queries(
    alloc: Global,
    width: u32,
    seed: u64,
    wanted: u32,
) -> Result<Vec<Query>, NoMemory>
    requires some { 0 < width }
    requires few { width ≤ 256 }
    ensures { IfOk result (λ queries. queries.items ≡ survey_queries width seed wanted) }
{
    let mut queries = Vec::new(alloc);
    let mut draw = Draw::new(seed.wrapping_add(1));
    let mut left = wanted;
    while left > 0 {
        push(&mut queries, next_query(&mut draw, width * width))?;
        left -= 1;
    }
    Ok(queries)
}

/// Draws the next query among ids from 1 to `count`.
fn next_query(draw: &mut Draw, count: u32) -> Query
    requires some { 0 < count }
    requires few { count ≤ 65536 }
    ensures query { result ≡ query_drawn draw.old count }
    ensures draw { draw.new ≡ after_draws draw.old 4 }
{
    let from = next_id(draw, count);
    let to = next_id(draw, count);
    Query { from, to }
}

/// Draws the next id from 1 to `count`.
fn next_id(draw: &mut Draw, count: u32) -> u32
    requires some { 0 < count }
    requires few { count ≤ 65536 }
    ensures id { result ≡ id_drawn draw.old count }
    ensures draw { draw.new ≡ after_draws draw.old 2 }
{
    let high = draw.next();
    let low = draw.next();
    1 + (high * 32768 + low) % count
}
