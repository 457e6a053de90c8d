//! Handing each piece to each mirror.
ghost use Rattle.std.specs.Prelude.{◌≡◌, ◌+◌, ◌<◌, ◌≤◌, ◌++◌, ◌∷◌, List, ℕ, [], length, vec_len, vec_capacity, IfSome, IfNone, IfOk, IsTrue, ◌↔◌};
ghost use Rattle.mirror_out.specs.Gone.{Adds, Falls, HasRoom, Holds, Parts};
ghost use Rattle.mirror_out.specs.Mirrors.{Spreads, Took, PromisedLess};

use crate::Mirror;
use octet_text::{NoMemory, filled};
use std::alloc::Global;

/// Hands each piece to each mirror of a list, drops those that fail, and keeps their labels.
#[derive(Drop)]
pub struct Spreader {
    lost: Vec<u32>,
    most: usize,
    ghost reserved: { most ≤ vec_capacity lost },
}

// Hands a piece to a mirror, and returns its label if it fails.
fn failed<M: Mirror>(mirror: &mut M, piece: &[u8]) -> Option<u32>
    ensures kept { IfNone result (Took M.octets M.named M.handed M.puts M.room 1 piece.now
        mirror.old mirror.new) }
    ensures label { IfSome result (λ label. label ≡ M.named mirror.old) }
    ensures promised { IfSome result
        (λ _. PromisedLess 1 piece.now (M.puts mirror.old) (M.room mirror.old)) }
    ensures holds { IfNone result (Holds M.octets M.named M.handed M.puts M.room M.faults 1
        piece.now mirror.old mirror.new) }
    ensures falls { IfSome result (λ _. Falls M.octets M.named M.handed M.faults
        (length piece.now) piece.now 1 mirror.old mirror.new) }
{
    match mirror.put(piece) {
        Ok(()) => None,
        Err(_) => Some(mirror.label()),
    }
}

// Appends a mirror, if there is room for it. Takes no memory.
fn keep<M: Mirror>(gone: &mut Vec<M>, mirror: M)
    ensures kept { vec_len gone.old < vec_capacity gone.old →
        gone.new.items ≡ gone.old.items ++ mirror ∷ [] }
    ensures len { vec_len gone.old < vec_capacity gone.old → vec_len gone.new ≡ vec_len gone.old + 1 }
    ensures capacity { vec_capacity gone.old ≤ vec_capacity gone.new }
{
    if gone.len() < gone.capacity() {
        gone.push(mirror).unwrap();
    }
}

impl Spreader {
    ghost use Rattle.mirror_out.specs.Spreader.{lost_of, most_of};

    /// Makes a spreader over these mirrors, with memory for all their labels.
    pub fn new<M: Mirror>(alloc: Global, mirrors: &Vec<M>) -> Result<Spreader, NoMemory>
        ensures lost { IfOk result (λ spreader. lost_of spreader ≡ []) }
        ensures most { IfOk result (λ spreader. most_of spreader ≡ vec_len mirrors.now) }
    {
        let most = mirrors.len();
        let mut lost = filled(alloc, 0, most)?;
        lost.truncate(0);
        Ok(Spreader { lost, most })
    }

    /// Returns the labels of the dropped mirrors, in the order in which they were dropped.
    pub fn lost(&self) -> &[u32]
        ensures { result.now ≡ lost_of self.now }
    {
        &self.lost
    }

    /// Tests whether these mirrors and the lost ones are at most as many as the spreader was made for.
    pub fn is_for<M: Mirror>(&self, mirrors: &Vec<M>) -> bool
        ensures { IsTrue result ↔ (length
            (lost_of self.now) + vec_len mirrors.now ≤ most_of self.now) }
    {
        self.lost.len() <= self.most && mirrors.len() <= self.most - self.lost.len()
    }

    /// Hands the piece to each mirror in turn. A mirror that fails leaves the list, and its label is appended to those
    /// of the lost ones. It is appended to those that are gone, if there is room for it. Takes no memory.
    pub fn put<M: Mirror>(&mut self, mirrors: &mut Vec<M>, gone: &mut Vec<M>, piece: &[u8])
        requires { length (lost_of self.old) + vec_len mirrors.old ≤ most_of self.old }
        ensures spread { (gone : List ℕ) × (lost_of self.new ≡ lost_of self.old ++ gone)
            × Spreads M.octets M.named M.handed M.puts M.room 1 piece.now mirrors.old.items
            mirrors.new.items gone }
        ensures count { length (lost_of self.new) + vec_len mirrors.new ≡ length
            (lost_of self.old) + vec_len mirrors.old }
        ensures most { most_of self.new ≡ most_of self.old }
        ensures parted { HasRoom gone.old mirrors.old →
            Adds gone.old.items gone.new.items (λ fallen. Parts
            (Holds M.octets M.named M.handed M.puts M.room M.faults 1 piece.now)
            (Falls M.octets M.named M.handed M.faults (length piece.now) piece.now 1)
            mirrors.old.items mirrors.new.items fallen) }
        ensures roomy { HasRoom gone.old mirrors.old → HasRoom gone.new mirrors.new }
    {
        let mut at = 0;
        while at < mirrors.len() {
            match failed(&mut mirrors[at], piece) {
                None => at += 1,
                Some(label) => {
                    keep(gone, mirrors.remove(at));
                    self.lost.push(label).unwrap();
                }
            }
        }
    }
}
