// Laws that combine the clauses of several calls.
ghost use Rattle.std.specs.Prelude.{◌≡◌, ◌≢◌, ◌+◌, ◌<◌, slice_set, ℕ, List, [], ◌∷◌, ◌++◌};
ghost use Rattle.std.specs.List.{All};
ghost use Rattle.road_io.specs.Moments.{Image, EachImage};
ghost use Rattle.desk_areas.specs.Layout.{SlotId, slots_of, gate_of, IsSigned};
ghost use Rattle.key_desk.specs.Runs.{IsRun, HasDistinctSlots, StandThroughout};
ghost use Rattle.key_desk.specs.Stands.{Stands, KeepsStanding};
ghost use Rattle.key_desk.specs.Desk.{count_at, Fits, KeepsAllKnown};
ghost use Rattle.key_desk.specs.declared.desk.Desk.{Desk};
ghost use Rattle.desk_areas.specs.declared.area.Count.TheVariants;

use road_io::Disk;

/// The pair that a call signs is added to all pairs signed before.
pub fn signing_adds<D: Disk>()
    ensures { (old new : D) (pairs : List (SlotId × List ℕ)) (slot : SlotId) (text : List ℕ) →
        KeepsStanding D.Disk old new → Stands D.Disk old pairs →
        EachImage D.Disk new (λ i. IsSigned i slot text) →
        Stands D.Disk new (pairs ++ (slot, text) ∷ []) }
{}

/// If a slot's gate is closed in some image, no list of signed pairs that still holds has this slot.
pub fn closed_slots_are_new<D: Disk>()
    ensures { (disk : D) (pairs : List (SlotId × List ℕ)) (slot : SlotId) (i : List ℕ) →
        Image D.Disk disk i → gate_of i slot ≡ 0 → Stands D.Disk disk pairs →
        All (λ pair. pair.0 ≢ slot) pairs }
{}

/// Taking a ticket keeps the desk fit for its disk. All known facts about each state remain.
pub fn tickets_keep_fits<D: Disk>()
    ensures { (old : Desk) (disk : D) (slot : ℕ) → Fits D.Disk old disk →
        count_at old slot ≡ TheVariants.Free → slot + 1 < slots_of old.key.kind
        → Fits D.Disk (record old { counts = slice_set old.counts slot TheVariants.Out }) disk ×
        KeepsAllKnown D.Disk old disk
        (record old { counts = slice_set old.counts slot TheVariants.Out }) disk }
{}

/// Giving back a ticket keeps the desk fit for its disk. All known facts about each state remain.
pub fn tickets_back_keep_fits<D: Disk>()
    ensures { (old : Desk) (disk : D) (slot : ℕ) → Fits D.Disk old disk →
        count_at old slot ≡ TheVariants.Out
        → Fits D.Disk (record old { counts = slice_set old.counts slot TheVariants.Free }) disk ×
        KeepsAllKnown D.Disk old disk
        (record old { counts = slice_set old.counts slot TheVariants.Free }) disk }
{}

/// In every run of calls, of crashes within or between them, and of reopenings, the signed pairs are in every
/// image, and no one-time key has signed twice.
pub fn no_slot_signs_twice<D: Disk>()
    ensures { (disk : D) (pairs : List (SlotId × List ℕ))
        (states : List (D × List (SlotId × List ℕ))) → IsRun D.Disk disk pairs states →
        Stands D.Disk disk pairs → HasDistinctSlots pairs → StandThroughout D.Disk states }
{}
