//! Doubtful versions.
ghost use Rattle.std.specs.Prelude.{◌≡◌, ◌+◌, ◌^◌, ◌<◌, ◌≤◌, Some, IfSome, IsSome};
ghost use Rattle.std.specs.Option.{ForSome};
ghost use Rattle.desk_guard.specs.Doubts.{IsDoubt};

/// The greatest increase of a version over the last one that causes no warning.
const FAR: u64 = 1 << 32;

/// Why the version of a signed map is doubtful.
#[derive(Clone, Copy, Debug, PartialEq, Eq)]
pub enum Doubt {
    /// The map's version is not higher than this one, which is the greatest that the desk signed before.
    NotRisen(u64),
    /// The map's version exceeds this one, which is the last, by more than 2^32. Once clients accept it, no lower
    /// version can follow.
    RisenFar(u64),
}

/// Returns why a version is doubtful, given the greatest version that the desk signed before, and the last one.
pub fn doubt_of(version: u64, greatest: Option<u64>, last: Option<u64>) -> Option<Doubt>
    ensures said { IfSome result (IsDoubt version greatest last) }
    ensures not_risen { ForSome greatest (λ before. version ≤ before →
        result ≡ Some (Doubt.NotRisen before)) }
    ensures risen_far { ForSome last (λ before. before + 2 ^ 32 < version → IsSome result) }
{
    if let Some(greatest) = greatest {
        if version <= greatest {
            return Some(Doubt::NotRisen(greatest));
        }
    }
    match last {
        Some(last) if version > last && version - last > FAR => Some(Doubt::RisenFar(last)),
        _ => None,
    }
}
