//! Replies to range queries. An independent program, the reference (`checks/sources.py`), computed the expected
//! octets.

use crate::holding::{CELLS, CODES, FULL, installed};
use crate::octets::assert_digest;
use crate::same::{assert_row, assert_same};
use book_model::Settings;
use octet_text::Sha;
use proof_octets::{NearQuery, NearReply};
use route_server::{Held, NearRefusal, answer_near};
use std::alloc::Global;
use std::process::Abort;
use std::test::Fail;
use test_maps::DIJ;

// The reply to a range query.
type Replied = Result<Vec<u8>, NearRefusal>;

fn reply(alloc: Global, held: &Held<Sha>, from: u32, radius: u64) -> Result<Replied, Fail> {
    if held.signature().len() > 1452 {
        return Err(Fail::from("a long signature"));
    }
    Ok(answer_near(alloc, held, NearQuery { from, radius }))
}

// Returns the reply of the book of the five nodes to a range query.
fn first_reply(
    alloc: Global,
    settings: &Settings,
    from: u32,
    radius: u64,
) -> Result<Replied, Fail> {
    let held = installed(alloc, settings)?;
    reply(alloc, &held, from, radius)
}

// The six orders with their seeds: by id, breadth first, depth first, along Hilbert's curve, kd, and shuffled.
static ORDERS: [(u8, u64); 6] = [(0, 0), (1, 0), (2, 0), (3, 0), (4, 0), (5, 7)];

// The digests of the replies of each method under each order, with a signature of zeros.
static DIGESTS: [(Settings, [&str; 6]); 4] = [
    (
        DIJ,
        [
            "5fe608c961e9982f280d6bbd806d54ba9dd435ea70c511f5bcdf2fd03e2e4fad",
            "0d08f6a6153357d566fe254b920a5ae02e82668c49b413f126486feffb3f0a56",
            "540b9a7ff3b650ad7ff095671b6b47d2fc73a8d4a548c5a60d0785fd7db25328",
            "cb185eed6613ca94b6b4fb3fd6c33fe4c7a05a2a15a93d7f359f586d1712f87f",
            "eb48554cf880e66efb53de28a13a41a41747d49d1d4965d69f6c887e47de4dda",
            "c8771885d87ad5f95aad961b2f213205bcdc6567d5a85b0cf977ac1ce1b0a2cc",
        ],
    ),
    (
        FULL,
        [
            "130faf406f0c50ca1c6c62fa75055d535c30713fbef13dff2e437bff1f0b2cc3",
            "e7511159da44813a2103293840248d53788864d27eb9a1611316d0a8a5e5e308",
            "ed94968821f7d036f019cfa333db4698b791148a66d676579ac0737495f9e4bc",
            "4e8b76b8f10d0df9e3e25babcc938efc539413e4b7404a666b05ffa1feb0e8d2",
            "a3dd52aff37f99eda3b45ff165a882fe30fbf2cea43487f776649ebc084e8f51",
            "4b8f69a1a22b99adbc48a7eeaa47e554e1ea5b0dc1a797ea37f1da4ed51a9c14",
        ],
    ),
    (
        CODES,
        [
            "8fcf9a46f3f2db592cf988c7eb187cd6fed3c9c6fdedcddb011dd6e08bebf359",
            "a22ede317280162513e58586a144d67770125296909fc1363f8098f95f73421d",
            "19bc2697beef899bfbd57ef69e749adb5e3d558a14e9d64e6f4eb401a4f99587",
            "ceef71196bccf16516a78ac0bec1e7ed6cb1e410695b518652e2bd6f0e7be1a0",
            "ccdc2e555d5af30f83783c0759f887fb9f6c1bdd365a8a19f7b8eae5404d9bf3",
            "61ed78376cc86c764e13b519a0c65a4ddc91411ebede3e9e25a90933bd5ebdfa",
        ],
    ),
    (
        CELLS,
        [
            "41933af5e22d2c72b649b1d8884f7e981a18f59d2762520fff81c681d84aca82",
            "de02e04e89288ae1e8df68b450b7dbe808b37c4ae989982c3a0bce0645586361",
            "2954ac05b6c933ac7b0e35ca779dcbb358ea37833c188a1e42421260a5d6f1f6",
            "8d33d48ba3108308cc033afdee967d6e55d743196a4fa2f80de0c490c4fc0525",
            "f0e0d33b3ae832c5e841b4f888e6b73cb1cd19641870dca353b1c0b6dcfa12ae",
            "735229b09705da9b255cf0bca68ddd355666cdcb8767d56dc34f6015124e50a4",
        ],
    ),
];

fn assert_orders(
    rt: &impl Abort,
    alloc: Global,
    settings: &Settings,
    digests: &[&str; 6],
) -> Result<(), Fail> {
    for ((order, seed), wanted) in ORDERS.iter().zip(digests) {
        let ordered = Settings {
            order: *order,
            seed: *seed,
            ..*settings
        };
        let octets = first_reply(alloc, &ordered, 1, 4)??;
        assert_digest(rt, alloc, &octets, *wanted)?;
    }
    Ok(())
}

#[test]
fn replies_under_each_method_and_order(rt: HostRuntime) -> Result<(), Fail> {
    for (settings, digests) in &DIGESTS {
        assert_orders(&rt, rt.alloc(), settings, digests)?;
    }
    Ok(())
}

// Returns the number of items in the reply for node 1.
fn count(alloc: Global, radius: u64) -> Result<usize, Fail> {
    let octets = first_reply(alloc, &DIJ, 1, radius)??;
    if octets.len() > 10_000 {
        return Ok(0);
    }
    let near = NearReply::read(alloc, &octets)?;
    Ok(near.nodes.len())
}

static COUNTS: [(u64, usize); 6] = [(0, 1), (3, 2), (4, 3), (8, 3), (9, 4), (u64::MAX, 4)];

#[test]
fn as_many_items_as_lie_within(rt: HostRuntime) -> Result<(), Fail> {
    for (radius, wanted) in &COUNTS {
        assert_row(&rt, *radius, count(rt.alloc(), *radius)?, *wanted);
    }
    Ok(())
}

#[test]
fn an_unknown_node_has_no_reply(rt: HostRuntime) -> Result<(), Fail> {
    let unknown = first_reply(rt.alloc(), &DIJ, 9, 4)?;
    assert_same(&rt, unknown.err(), Some(NearRefusal::UnknownNode(9)));
    Ok(())
}
