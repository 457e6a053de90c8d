//! The pairs of a border node near the start and one near the end, by ascending ids.

ghost use Rattle.std.specs.Prelude.{nat_lt, ◌≡◌, ◌+◌, ◌<◌, ℕ, None, IfOk, if◌then◌else◌};
ghost use Rattle.road_search.specs.Labelling.{length_at};
ghost use Rattle.method_judges.specs.Scans.{PairFault, scan_row, scan, IsScan};

use crate::borders::listed;
use octet_text::NoMemory;
use proof_judge::{NodesById, PairsById, Refusal, joined_fault};
use road_leaf::NodeLeaves;
use road_search::Labels;
use std::alloc::Global;

/// Which pairs of border nodes are at fault, among those whose inner lengths sum to less than a limit.
pub trait Faults {
    // The limit.
    ghost limit: { Self → ℕ };

    // The fault of two border nodes, given the sum of their inner lengths.
    ghost fault_of: { Self → PairFault };

    /// Returns the limit.
    fn most(&self) -> u64
        ensures { result ≡ limit self.now };

    /// Returns the fault of two border nodes, if they have one. The sum of their inner lengths is below the limit.
    fn fault(&self, b: u32, c: u32, sum: u64) -> Option<Refusal>
        requires { sum < limit self.now }
        ensures { result ≡ fault_of self.now b c sum };
}

/// The fault is a walk over two border nodes that the pair items show to be shorter than the route.
#[derive(Clone, Copy)]
pub struct Detours<'a, 'b> {
    pub pairs: &'a PairsById<'b>,
    pub most: u64,
}

impl Faults for Detours<'_, '_> {
    ghost use Rattle.proof_judge.specs.Judgement.{pair_fault};

    ghost limit = { λ d. d.most };

    ghost fault_of = { λ d. pair_fault d.pairs.now d.most };

    fn most(&self) -> u64 {
        self.most
    }

    fn fault(&self, b: u32, c: u32, sum: u64) -> Option<Refusal> {
        if b == c {
            return Some(Refusal::Shorter(sum));
        }
        let Some(pair) = self.pairs.find(b, c) else {
            return Some(Refusal::MissingPair(b.min(c), b.max(c)));
        };
        if pair.distance != u64::MAX && pair.distance < self.most - sum {
            Some(Refusal::Shorter(sum + pair.distance))
        } else {
            None
        }
    }
}

/// The fault is a walk over two border nodes between the ends, or a missing pair item.
#[derive(Clone, Copy)]
pub struct Joined<'a, 'b> {
    pub pairs: &'a PairsById<'b>,
}

impl Faults for Joined<'_, '_> {
    ghost use Rattle.proof_judge.specs.Apart.{joined_fault};

    ghost limit = { λ _. 18446744073709551615 };

    ghost fault_of = { λ j. joined_fault j.pairs.now };

    fn most(&self) -> u64 {
        u64::MAX
    }

    fn fault(&self, b: u32, c: u32, sum: u64) -> Option<Refusal> {
        joined_fault(self.pairs.find(b, c), b, c, sum)
    }
}

/// Returns the fault of two border nodes, if they have one and their inner lengths sum to less than the limit.
fn fault_below<F: Faults>(faults: &F, near: (u32, u64), far: (u32, u64)) -> Option<Refusal>
    ensures { result ≡ (if nat_lt (near.1 + far.1) (F.limit faults.now) then F.fault_of faults.now
        near.0 far.0 (near.1 + far.1) else None) }
{
    let most = faults.most();
    if near.1 < most && far.1 < most - near.1 {
        faults.fault(near.0, far.0, near.1 + far.1)
    } else {
        None
    }
}

/// Returns the first fault of one border node near the start with a border node near the end.
fn row<F: Faults>(faults: &F, border: (u32, u64), far: &[(u32, u64)]) -> Option<Refusal>
    ensures { result ≡ scan_row (F.fault_of faults.now) (F.limit faults.now) border.0 border.1
        far.now }
{
    for other in far {
        if let Some(refusal) = fault_below(faults, border, *other) {
            return Some(refusal);
        }
    }
    None
}

/// Returns the first fault of any border node near the start with one near the end.
fn first_fault<F: Faults>(faults: &F, near: &[(u32, u64)], far: &[(u32, u64)]) -> Option<Refusal>
    ensures { result ≡ scan (F.fault_of faults.now) (F.limit faults.now) near.now far.now }
{
    for border in near {
        if let Some(refusal) = row(faults, *border, far) {
            return Some(refusal);
        }
    }
    None
}

/// Returns the first fault, by ascending ids, of a border node that one search reaches with a border node that the
/// other search reaches.
pub fn scanned<F: Faults>(
    alloc: Global,
    faults: &F,
    nodes: &NodeLeaves,
    by_id: &NodesById<'_>,
    near: &Labels,
    far: &Labels,
) -> Result<Option<Refusal>, NoMemory>
    requires { by_id.now ≡ nodes.now }
    ensures { IfOk result (IsScan (F.fault_of faults.now) (F.limit faults.now) nodes.now
        (length_at near.now) (length_at far.now)) }
{
    let near = listed(alloc, nodes, by_id, near)?;
    let far = listed(alloc, nodes, by_id, far)?;
    let found = first_fault(faults, near.as_slice(), far.as_slice());
    Ok(found)
}
