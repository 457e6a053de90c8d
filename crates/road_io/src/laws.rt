// Laws of all failure counts.
ghost use Rattle.std.specs.Prelude.{ℕ, ◌+◌, ◌-◌, ◌^◌, ◌<◌, ◌≤◌};
ghost use Rattle.road_io.specs.Causes.{Rose};

/// A count that has not changed has not risen, unless it is saturated. A count that is one higher has risen. A
/// count that rose during a part of a run rose during the run.
pub fn fault_laws()
    ensures stands { (count : ℕ) → count < 2 ^ 64 - 1 → ¬ Rose count count }
    ensures rises { (count : ℕ) → Rose count (count + 1) }
    ensures end { Rose (2 ^ 64 - 1) (2 ^ 64 - 1) }
    ensures longer { (before first second now : ℕ) → before ≤ first → second ≤ now →
        Rose first second → Rose before now }
{}
