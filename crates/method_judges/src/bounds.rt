//! Lower bounds of distances, from the codes at hand.

ghost use Rattle.std.specs.Prelude.{◌≡◌, ℕ, ◌^◌, ◌<◌, Option, IfOk, length};
ghost use Rattle.std.specs.Option.{option_map, option_copied};
ghost use Rattle.road_leaf.specs.Seen.{extra_seen};
ghost use Rattle.road_leaf.specs.declared.leaf.NodeLeaf.{NodeLeaf};
ghost use Rattle.road_map.specs.Places.{AreRising};
ghost use Rattle.book_model.specs.Bounds.{gap, greatest_bound, own_vector, vector_at, bound_of, bound};
ghost use Rattle.proof_judge.specs.Apart.{is_split, are_split, are_apart};
ghost use Rattle.method_judges.specs.Lent.{shown};
ghost use Rattle.method_judges.specs.Widest.{widest};

use octet_text::NoMemory;
use road_leaf::ExtraView;
use road_map::{Arc, RisingIds};
use std::alloc::Global;
use std::rc::Rc;

/// The code which states that no walk joins a node and a landmark.
const NO_CODE: u16 = 65535;

/// Leaves at hand, by id.
pub trait Lookup {
    // The leaf of an id, if it is at hand. This is how contracts see the look-up.
    ghost leaves: { Self → ℕ → Option NodeLeaf };

    /// Returns the arcs in the leaf of an id, if the leaf is at hand.
    fn arcs(&self, id: u32) -> Option<&[Arc]>
        ensures { option_copied result ≡ option_map (λ n. n.arcs) (leaves self.now id) };

    /// Returns the extra contents of an id's leaf, if the leaf is at hand.
    fn extra(&self, id: u32) -> Option<ExtraView<'_>>
        ensures { option_map extra_seen result ≡ option_map (λ n. n.extra) (leaves self.now id) };

    /// Returns the ids for which a search reserves room. Ideally these are all ids whose leaves are at hand.
    fn ids(&self, alloc: Global) -> Result<Rc<RisingIds>, NoMemory>
        ensures { IfOk result (λ ids. AreRising ids.value) };
}

/// Codes, one for each landmark, and the greatest error of each.
#[derive(Clone, Copy)]
struct Vector<'a> {
    codes: &'a [u16],
    error: u16,
}

/// Returns the codes that a leaf itself holds, with this error.
fn own(extra: ExtraView<'_>, error: u16) -> Option<Vector<'_>>
    ensures { option_map shown result ≡ own_vector error (extra_seen extra.entry) }
{
    match extra {
        ExtraView::Own(codes) => Some(Vector { codes, error }),
        _ => None,
    }
}

/// Returns the codes that are at hand for an id: its own, or those of the node to which its leaf refers.
fn vector_at<L: Lookup>(at: &L, id: u32) -> Option<Vector<'_>>
    ensures { option_map shown result ≡ vector_at (L.leaves at.now) (L.leaves at.now id) }
{
    match at.extra(id) {
        None => None,
        Some(ExtraView::Near { reference, error }) => match at.extra(reference) {
            None => None,
            Some(other) => own(other, error),
        },
        Some(extra) => own(extra, 0),
    }
}

/// Returns the least possible difference of two codes whose errors add up to at most `error`, from the difference of
/// the two.
fn gap_of(error: u32, difference: u16) -> u32
    ensures value { result ≡ gap error difference 0 }
    ensures small { result < 2 ^ 16 }
{
    u32::from(difference)
        .saturating_sub(error)
        .saturating_sub(1)
}

/// Returns the greatest difference of two codes over the landmarks for which both vectors have a code, or 0 if there
/// are none.
fn widest_of(v: &[u16], t: &[u16]) -> u16
    requires { length v.now ≡ length t.now }
    ensures { result ≡ widest v.now t.now }
{
    let mut widest = 0;
    for i in 0..v.len() {
        let a = v[i];
        let b = t[i];
        if a != NO_CODE && b != NO_CODE {
            widest = a.abs_diff(b).max(widest);
        }
    }
    widest
}

/// Returns the greatest bound over the landmarks for which both vectors have a code.
///
/// The step and the errors are the same at every landmark, so the greatest difference gives the greatest bound.
#[tactic(auto, using(crate::proofs::WidestLaws::bound_by_widest))]
fn greatest_of(step: u64, error: u32, v: &[u16], t: &[u16]) -> u128
    requires { length v.now ≡ length t.now }
    ensures value { result ≡ greatest_bound step error v.now t.now }
    ensures small { result < 2 ^ 80 }
{
    u128::from(step) * u128::from(gap_of(error, widest_of(v, t)))
}

/// Returns the bound that two vectors give, or 0 if one is not at hand or they have different numbers of landmarks.
fn bound_between(step: u64, v: Option<Vector<'_>>, t: Option<Vector<'_>>) -> u128
    ensures value { result ≡ bound_of step (option_map shown v.entry) (option_map shown t.entry) }
    ensures small { result < 2 ^ 80 }
{
    match (v, t) {
        (Some(v), Some(t)) => {
            if v.codes.len() == t.codes.len() {
                let error = u32::from(v.error) + u32::from(t.error);
                greatest_of(step, error, v.codes, t.codes)
            } else {
                0
            }
        }
        _ => 0,
    }
}

/// Returns a lower bound of the length of every walk between two nodes, from the leaves at hand. The bound is 0 if
/// the leaves give none.
pub fn bound<L: Lookup>(step: u64, at: &L, v: u32, t: u32) -> u128
    ensures value { result ≡ bound step (L.leaves at.now) (L.leaves at.now v) (L.leaves at.now t) }
    ensures small { result < 2 ^ 80 }
{
    bound_between(step, vector_at(at, v), vector_at(at, t))
}

/// Tests whether exactly one of two codes states that no walk joins its node and the landmark.
fn is_split(a: u16, b: u16) -> bool
    ensures { result ≡ is_split a b }
{
    (a == NO_CODE) != (b == NO_CODE)
}

/// Tests whether at some landmark exactly one of two vectors lacks a walk.
fn are_split(v: &[u16], t: &[u16]) -> bool
    requires { length v.now ≡ length t.now }
    ensures { result ≡ are_split v.now t.now }
{
    for i in 0..v.len() {
        if is_split(v[i], t[i]) {
            return true;
        }
    }
    false
}

/// Tests whether the leaves at hand show that no walk joins two nodes: at some landmark, exactly one of the two has
/// the code for no walk. Returns false if the codes are not at hand.
pub fn apart<L: Lookup>(at: &L, v: u32, t: u32) -> bool
    ensures { result ≡ are_apart (L.leaves at.now) (L.leaves at.now v) (L.leaves at.now t) }
{
    match (vector_at(at, v), vector_at(at, t)) {
        (Some(v), Some(t)) => v.codes.len() == t.codes.len() && are_split(v.codes, t.codes),
        _ => false,
    }
}
