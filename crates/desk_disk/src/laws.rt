// Laws for every file system that gave the answers by which a handle was found to be safe.
ghost use Rattle.std.specs.Prelude.{◌≡◌, List, ℕ, true};
ghost use Rattle.road_io.specs.Shelves.{Note};
ghost use Rattle.desk_disk.specs.Looks.{is_seen, is_seen_own};
ghost use Rattle.desk_disk.specs.Systems.{WasOwn, WasSafe};

/// At the look after the opening, the handle was a regular file and not a link, had one name and belonged to the
/// user, whatever others did between two answers; before a command that writes, it was also closed to others.
#[tactic(auto, using(crate::proofs::SystemLaws::was_own, crate::proofs::SystemLaws::was_safe))]
pub fn opening_laws()
    ensures own { (name : List ℕ) (answers : List Note) → is_seen_own name answers ≡ true →
        WasOwn name answers }
    ensures safe { (name : List ℕ) (answers : List Note) → is_seen name answers ≡ true →
        WasSafe name answers }
{}
