//! A sink that accepts a publication only if the expected key has signed it.
ghost use Rattle.std.specs.Prelude.{◌≡◌, ◌↔◌, ◌+◌, ◌<◌, ◌≤◌, [], ◌++◌, true, false, length, take, IfOk, OnOk, IsSome};
ghost use Rattle.std.specs.declared.option.Option.TheVariants.{Some};
ghost use Rattle.std.specs.Io.KnownBytes.{WriteAppends};
ghost use Rattle.road_io.specs.Causes.{HasCause};
ghost use Rattle.road_io.specs.Noted.{noted};
ghost use Rattle.signed_out.specs.Fronts.{GoesOut, is_signed_by};

use crate::signed_front::is_signed_under;
use road_io::{Failed, Record, Sink};

/// The number of octets examined. A header and the longest signature lie within the first 1,562 octets.
const MOST: usize = 2048;

/// A sink over another one. It either expects a publication under a public key, or expects nothing.
///
/// If it expects a publication, it refuses every piece until one begins, after the accepted part of an earlier
/// piece, with a header and a signature of this header by that key. If the underlying sink takes such a piece in
/// parts, the rest must match the part already taken. No refused octet reaches the underlying sink: it has taken just
/// the accepted octets.
#[derive(Drop)]
pub struct SignedSink<K: Sink + Drop> {
    inner: K,
    awaited: Option<[u8; 56]>,
    /// Octets that begin with a header and its signature. `shown` is their number.
    front: [u8; MOST],
    shown: usize,
    /// The number of these octets that the underlying sink has taken.
    taken: usize,
    /// Whether any octets may follow.
    is_open: bool,
    refusals: u64,
    history: Record,
    pub ghost inside: { K.taken inner ≡ Some (noted history.events) },
    pub ghost room: { shown ≤ 2048 },
    pub ghost behind: { taken ≤ shown },
    pub ghost waits: { is_open ≡ false → taken < 2048 },
    pub ghost part: { is_open ≡ false → noted history.events ≡ take taken front },
    pub ghost long: { is_open ≡ true → IsSome awaited → shown ≤ length (noted history.events) },
    pub ghost whole: { is_open ≡ true → IsSome awaited →
        take shown (noted history.events) ≡ take shown front },
    pub ghost signed: { 0 < shown → is_signed_by awaited (take shown front) ≡ true },
    pub ghost opened: { is_open ≡ true → is_signed_by awaited (take shown front) ≡ true },
}

impl<K: Sink + Drop> SignedSink<K> {
    /// Makes a sink over this one, which has taken nothing. It expects a publication under this key, or expects
    /// nothing.
    pub fn new(inner: K, awaited: Option<[u8; 56]>) -> SignedSink<K>
        requires { K.taken inner ≡ Some [] }
        ensures awaited { result.awaited ≡ awaited }
        ensures inner { result.inner ≡ inner }
        ensures nothing { noted result.history.events ≡ [] }
        ensures refusals { result.refusals ≡ 0 }
        ensures faults { K.faults result.inner + result.refusals ≡ K.faults inner }
    {
        SignedSink {
            inner,
            awaited,
            front: [0; MOST],
            shown: 0,
            taken: 0,
            is_open: awaited.is_none(),
            refusals: 0,
            history: Record::new(),
        }
    }

    /// Returns the underlying sink.
    pub fn inner(&self) -> &K {
        &self.inner
    }

    /// Tests whether this is the key under which a publication is expected.
    pub fn awaits(&self, key: &Option<[u8; 56]>) -> bool
        ensures { (result ≡ true) ↔ (self.now.awaited ≡ key.now) }
    {
        match (&self.awaited, key) {
            (None, None) => true,
            (Some(awaited), Some(key)) => awaited.as_slice() == key.as_slice(),
            _ => false,
        }
    }

    /// Tests whether a piece was refused. Everything that the underlying sink has taken is signed as expected.
    pub fn has_refused(&self) -> bool
        ensures refused { (result ≡ true) ↔ (0 < self.now.refusals) }
        ensures out { GoesOut self.now.awaited (noted self.now.history.events) }
        ensures inside { K.taken self.now.inner ≡ Some (noted self.now.history.events) }
    {
        self.refusals > 0
    }

    /// Returns the accepted octets, followed by these.
    fn with(&self, octets: &[u8]) -> [u8; MOST]
        requires { self.now.taken + length octets.now ≤ 2048 }
        ensures { take (self.now.taken + length octets.now) result ≡
            take self.now.taken self.now.front ++ octets.now }
    {
        let mut front = self.front;
        (&mut front[self.taken..self.taken + octets.len()]).copy_from_slice(octets);
        front
    }

    /// Tests whether octets belong to the expected publication.
    fn is_awaited(&self, octets: &[u8]) -> bool
        ensures { result ≡ is_signed_by self.now.awaited octets.now }
    {
        match &self.awaited {
            None => true,
            Some(public) => is_signed_under(public, octets),
        }
    }

    /// Passes octets to the underlying sink if any octets may follow, and stores how many it took.
    #[tactic(auto, using(crate::proofs::FrontLemmas::more_after, crate::proofs::FrontLemmas::longer_after))]
    fn pass(&mut self, octets: &[u8]) -> Result<usize, Failed>
        requires { self.old.is_open ≡ true }
        ensures most { IfOk result (λ n. n ≤ length octets.now) }
        ensures least { IfOk result (λ n. 0 < length octets.now → 0 < n) }
        ensures noted { WriteAppends (Some (noted self.old.history.events))
            (Some (noted self.new.history.events)) result octets.now }
        ensures inside { WriteAppends (K.taken self.old.inner) (K.taken self.new.inner) result octets.now }
        ensures same { self.new.refusals ≡ self.old.refusals }
        ensures kept { OnOk result (K.faults self.new.inner ≡ K.faults self.old.inner) }
        ensures cause { HasCause (K.faults self.old.inner) (K.faults self.new.inner) result }
    {
        let count = self.inner.write(octets)?;
        self.history.note(&[], &octets[..count]);
        Ok(count)
    }

    /// Passes a piece to the underlying sink, and stores how many of its octets that sink took. `front` has the
    /// accepted octets, followed by the piece.
    fn advance(&mut self, front: [u8; MOST], piece: &[u8]) -> Result<usize, Failed>
        requires closed { self.old.is_open ≡ false }
        requires room { self.old.taken + length piece.now ≤ 2048 }
        requires old_front { self.old.taken ≤ length self.old.front }
        requires front { take (self.old.taken + length piece.now) front ≡
            take self.old.taken self.old.front ++ piece.now }
        requires signed { is_signed_by self.old.awaited
            (take (self.old.taken + length piece.now) front) ≡ true }
        ensures most { IfOk result (λ n. n ≤ length piece.now) }
        ensures least { IfOk result (λ n. 0 < length piece.now → 0 < n) }
        ensures noted { WriteAppends (Some (noted self.old.history.events))
            (Some (noted self.new.history.events)) result piece.now }
        ensures inside { WriteAppends (K.taken self.old.inner) (K.taken self.new.inner) result piece.now }
        ensures same { self.new.refusals ≡ self.old.refusals }
        ensures kept { OnOk result (K.faults self.new.inner ≡ K.faults self.old.inner) }
        ensures cause { HasCause (K.faults self.old.inner) (K.faults self.new.inner) result }
    {
        let count = self.inner.write(piece)?;
        self.history.note(&[], &piece[..count]);
        self.front = front;
        self.shown = self.taken + piece.len();
        self.taken += count;
        self.is_open = self.taken == self.shown;
        Ok(count)
    }

    /// Passes a piece to the underlying sink if the accepted octets and this piece begin with a signed header.
    /// Otherwise refuses the piece.
    fn begin(&mut self, octets: &[u8]) -> Result<usize, Failed>
        requires { self.old.is_open ≡ false }
        ensures most { IfOk result (λ n. n ≤ length octets.now) }
        ensures least { IfOk result (λ n. 0 < length octets.now → 0 < n) }
        ensures noted { WriteAppends (Some (noted self.old.history.events))
            (Some (noted self.new.history.events)) result octets.now }
        ensures inside { WriteAppends (K.taken self.old.inner) (K.taken self.new.inner) result octets.now }
        ensures kept { OnOk result
            (K.faults self.new.inner + self.new.refusals ≡ K.faults self.old.inner + self.old.refusals) }
        ensures cause { HasCause (K.faults self.old.inner + self.old.refusals)
            (K.faults self.new.inner + self.new.refusals) result }
    {
        let more = octets.len().min(MOST - self.taken);
        let piece = &octets[..more];
        let front = self.with(piece);
        let shown = self.taken + more;
        if !self.is_awaited(&front[..shown]) {
            self.refusals = self.refusals.saturating_add(1);
            return Err(Failed);
        }
        self.advance(front, piece)
    }
}

impl<K: Sink + Drop> Sink for SignedSink<K> {
    ghost taken = { λ s. Some (noted s.history.events) };

    ghost faults = { λ s. K.faults s.inner + s.refusals };

    fn write(&mut self, octets: &[u8]) -> Result<usize, Failed>
        ensures most { IfOk result (λ n. n ≤ length octets.now) }
        ensures least { IfOk result (λ n. 0 < length octets.now → 0 < n) }
        ensures taken { WriteAppends (Some (noted self.old.history.events))
            (Some (noted self.new.history.events)) result octets.now }
        ensures kept { OnOk result
            (K.faults self.new.inner + self.new.refusals ≡ K.faults self.old.inner + self.old.refusals) }
        ensures cause { HasCause (K.faults self.old.inner + self.old.refusals)
            (K.faults self.new.inner + self.new.refusals) result }
        ensures inside { WriteAppends (K.taken self.old.inner) (K.taken self.new.inner) result octets.now }
    {
        if self.is_open {
            self.pass(octets)
        } else {
            self.begin(octets)
        }
    }
}
