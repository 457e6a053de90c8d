//! Answers and replies written from the texts of their node leaves. The octets are worked out by hand.
ghost use Rattle.std.specs.Prelude.{◌≡◌, ◌<◌, [], ◌∷◌, ◌++◌, length, map, IfOk, OnOk, All};
ghost use Rattle.road_leaf.specs.Leaves.{node_leaf_text};
ghost use Rattle.road_leaf.specs.Seen.{seen};
ghost use Rattle.proof_octets.specs.NearReplies.{near_reply};
ghost use Rattle.proof_octets.specs.Placed.{text_at};
ghost use Rattle.proof_octets.specs.Replies.{reply, reply_of};

use crate::asserts::assert_octets;
use crate::formats::{REPLY, changed, without_route};
use book_model::{Items, Places};
use merkle_cover::Texts;
use proof_octets::{Answer, NearReply, PlacedAnswer, PlacedNear, Reply, range_laws};
use road_leaf::{NodeLeaves, NodeView};
use std::alloc::Global;
use std::process::Abort;
use std::test::Fail;

fn text_of(alloc: Global, leaf: &NodeView<'_>) -> Result<Vec<u8>, Fail>
    ensures { IfOk result (λ text. text.items ≡ node_leaf_text (seen leaf.now)) }
{
    if leaf.arcs.len() > 255 {
        return Err(Fail::from("many arcs"));
    }
    let mut text = Vec::new(alloc);
    leaf.write(&mut text)?;
    Ok(text)
}

fn push(texts: &mut Texts, text: &[u8]) -> Result<(), Fail>
    ensures { OnOk result (texts.new ≡ texts.old ++ text.now ∷ []) }
{
    if !texts.fits(text) {
        return Err(Fail::from("no room"));
    }
    texts.push(text)?;
    Ok(())
}

// Returns the texts of two leaves, with an empty one between them.
fn texts_around(alloc: Global, first: &NodeView<'_>, last: &NodeView<'_>) -> Result<Texts, Fail>
    ensures { IfOk result (λ texts. texts ≡
        node_leaf_text (seen first.now) ∷ [] ∷ node_leaf_text (seen last.now) ∷ []) }
{
    let first = text_of(alloc, first)?;
    let last = text_of(alloc, last)?;
    let mut texts = Texts::new(alloc);
    push(&mut texts, &first)?;
    push(&mut texts, &[])?;
    push(&mut texts, &last)?;
    Ok(texts)
}

// Returns texts for two leaves at the indices 0 and 2.
fn texts_for(alloc: Global, places: &Places, leaves: &NodeLeaves) -> Result<Texts, Fail>
    ensures within { IfOk result (λ texts. All (λ p. p < length texts) places.now) }
    ensures spelled { IfOk result (λ texts. map (text_at texts) places.now ≡
        map node_leaf_text leaves.now) }
{
    let places = places.as_slice();
    if places.len() != 2 || places[0] != 0 || places[1] != 2 || leaves.len() != 2 {
        return Err(Fail::from("other leaves"));
    }
    texts_around(alloc, &leaves.at(0), &leaves.at(1))
}

// Writes an answer with two leaves, at the indices 0 and 2, from their texts.
fn written(alloc: Global, answer: Answer) -> Result<Vec<u8>, Fail>
    requires { reply.Fits (reply_of answer) }
{
    let texts = texts_for(alloc, &answer.node_places, &answer.items.nodes)?;
    let Answer {
        header,
        signature,
        items,
        node_places,
        pair_places,
        node_cover,
        pair_cover,
    } = answer;
    let Items {
        route,
        nodes: _,
        pairs,
    } = items;
    let placed = PlacedAnswer {
        header,
        signature,
        route,
        node_places,
        pair_places,
        pairs,
        node_cover,
        pair_cover,
    };
    let octets = placed.write(alloc, &texts)?;
    Ok(octets)
}

// Writes a reply with two leaves, at the indices 0 and 2, from their texts.
fn written_near(alloc: Global, near: NearReply) -> Result<Vec<u8>, Fail>
    requires { near_reply.Fits near }
{
    let texts = texts_for(alloc, &near.places, &near.nodes)?;
    let NearReply {
        header,
        signature,
        places,
        nodes: _,
        cover,
    } = near;
    let placed = PlacedNear {
        header,
        signature,
        places,
        cover,
    };
    let octets = placed.write(alloc, &texts)?;
    Ok(octets)
}

// Compares the octets of an answer with a route with the octets written from the texts of its leaves.
fn assert_routed(rt: &impl Abort, alloc: Global, octets: &[u8]) -> Result<(), Fail> {
    range_laws();
    if octets.len() > 10_000 {
        return Err(Fail::from("many octets"));
    }
    let Reply::Answer(answer) = Reply::read(alloc, octets)? else {
        return Err(Fail::from("another kind"));
    };
    assert_octets(rt, &written(alloc, answer)?, octets);
    Ok(())
}

// Does the same for an answer without a route.
fn assert_apart(rt: &impl Abort, alloc: Global, octets: &[u8]) -> Result<(), Fail> {
    range_laws();
    if octets.len() > 10_000 {
        return Err(Fail::from("many octets"));
    }
    let Reply::Apart(answer) = Reply::read(alloc, octets)? else {
        return Err(Fail::from("another kind"));
    };
    assert_octets(rt, &written(alloc, answer)?, octets);
    Ok(())
}

#[test]
fn an_answer_is_written_from_texts(rt: HostRuntime) -> Result<(), Fail> {
    // The second leaf is at index 2.
    let octets = changed(rt.alloc(), &REPLY, 163, 2)?;
    assert_routed(&rt, rt.alloc(), &octets)
}

#[test]
fn an_answer_without_a_route_is_written_from_texts(rt: HostRuntime) -> Result<(), Fail> {
    let octets = without_route(rt.alloc())?;
    let octets = changed(rt.alloc(), &octets, 151, 2)?;
    assert_apart(&rt, rt.alloc(), &octets)
}

// Compares the octets of a reply for a radius with the octets written from the texts of its leaves.
fn assert_near(rt: &impl Abort, alloc: Global, octets: &[u8]) -> Result<(), Fail> {
    if octets.len() > 10_000 {
        return Err(Fail::from("many octets"));
    }
    let near = NearReply::read(alloc, octets)?;
    assert_octets(rt, &written_near(alloc, near)?, octets);
    Ok(())
}

#[test]
fn a_reply_within_a_radius_is_written_from_texts(rt: HostRuntime) -> Result<(), Fail> {
    // The header, the signature, the node items and the node cover of the answer follow the name.
    let mut octets = b"RPN1".to_vec(rt.alloc())?;
    octets.extend_from_slice(&REPLY[1..110])?;
    octets.extend_from_slice(&REPLY[122..186])?;
    octets.extend_from_slice(&REPLY[211..247])?;
    let octets = changed(rt.alloc(), &octets, 154, 2)?;
    assert_near(&rt, rt.alloc(), &octets)
}
