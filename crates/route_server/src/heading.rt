//! The header of a book, made without keeping the leaves.
ghost use Rattle.std.specs.Prelude.{◌≡◌, ◌≤◌, ◌<◌, ◌^◌, IfOk, IfErr, Err};
ghost use Rattle.sha2.specs.Sha256.{sha256};
ghost use Rattle.road_map.specs.Maps.{IsMap};
ghost use Rattle.book_model.specs.Books.{kind_of};
ghost use Rattle.proof_method.specs.Gathering.{IsOrderOf};
ghost use Rattle.proof_method.specs.Planning.{book_fault, own_fault};
ghost use Rattle.proof_octets.specs.Good.{IsGoodHeader};
ghost use Rattle.route_server.specs.Fitting.{FitsFormats};
ghost use Rattle.route_server.specs.Headers.{HasHeader, Makes, book_header};

use crate::errors::BuildError;
use crate::headers::header_laws;
use crate::held::header_with;
use crate::order::leaf_order;
use crate::risen::{node_root, pair_root};
use crate::settings_check::check_settings;
use book_model::Settings;
use method_books::AnyBook;
use octet_text::{Hasher, NoMemory};
use proof_method::MethodBook;
use proof_octets::Header;
use road_map::{Map, Parts};
use std::alloc::Global;

/// The header of a book, and the parts from which it was made.
pub struct Headed {
    pub header: Header,
    pub parts: Parts,
}

// Returns the header of a book whose node leaves are in this order, and the parts of the book.
fn header_over_book<H: Hasher, B: MethodBook>(
    alloc: Global,
    book: B,
    settings: &Settings,
    order: &[u32],
) -> Result<Headed, NoMemory>
    requires map { IsMap (B.shown book).parts }
    requires order { IsOrderOf (B.shown book).parts order.now }
    requires fits { FitsFormats (B.kind book) (B.shown book) }
    requires fan { 2 ≤ settings.now.fan }
    requires fan_max { settings.now.fan ≤ 32 }
    ensures header { IfOk result (λ it.
        it.header ≡ book_header H.hash settings.now order.now (B.shown book)) }
    ensures parts { IfOk result (λ it. it.parts ≡ (B.charted book).parts) }
{
    let nodes = node_root::<H, B>(alloc, &book, order, settings.fan)?;
    let leaves = book.pairs();
    let pairs = pair_root::<H>(alloc, leaves, settings.fan)?;
    let header = header_with(
        settings,
        order.len() as u32,
        nodes,
        leaves.len() as u32,
        pairs,
        book.numbers(),
    );
    Ok(Headed {
        header,
        parts: book.into_map().into_parts(),
    })
}

// Returns the header of the book of a map. The settings pass the tests that all methods share.
fn header_over<H: Hasher>(
    alloc: Global,
    map: Map,
    settings: &Settings,
) -> Result<Headed, BuildError>
    requires order { settings.now.order ≤ 5 }
    requires fan { 2 ≤ settings.now.fan }
    requires fan_max { settings.now.fan ≤ 32 }
    requires own { book_fault map.parts settings.now ≡ own_fault
        (kind_of settings.now.method) map.parts settings.now }
    ensures has { IfOk result (λ it. HasHeader H.hash sha256 map.parts settings.now it.header) }
    ensures good { IfOk result (λ it. settings.now.version < 2 ^ 64 → IsGoodHeader it.header) }
    ensures parts { IfOk result (λ it. it.parts ≡ map.parts) }
    ensures refused { IfErr result (λ e. Makes H.hash sha256 map.parts settings.now (Err e)) }
{
    header_laws::<H>();
    let _parts = map.parts();
    let order = leaf_order(alloc, &map, settings)?;
    let ids = order.as_slice();
    let book = AnyBook::plan(alloc, map, settings, ids)?;
    Ok(header_over_book::<H, AnyBook>(alloc, book, settings, ids)?)
}

/// Returns the header of the book of parts and settings, and gives the parts back.
///
/// The result is that of `Held::build`, but the texts of the leaves and the digests of their trees are not kept.
/// Takes memory for the map and the book only.
pub fn header_of<H: Hasher>(
    alloc: Global,
    parts: Parts,
    settings: &Settings,
) -> Result<Headed, BuildError>
    ensures has { IfOk result (λ it. HasHeader H.hash sha256 parts settings.now it.header) }
    ensures good { IfOk result (λ it. settings.now.version < 2 ^ 64 → IsGoodHeader it.header) }
    ensures parts { IfOk result (λ it. it.parts ≡ parts) }
    ensures refused { IfErr result (λ e. Makes H.hash sha256 parts settings.now (Err e)) }
{
    let map = Map::build(alloc, parts)?;
    check_settings(settings)?;
    header_over::<H>(alloc, map, settings)
}
