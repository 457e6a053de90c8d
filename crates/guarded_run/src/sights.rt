//! The contents of the desk, for a command that only reports them.
ghost use Rattle.std.specs.Prelude.{IfSome};
ghost use Rattle.std.specs.Option.{ForSome};
ghost use Rattle.road_io.specs.Disk.{Stays};
ghost use Rattle.road_io.specs.Moments.{AtEachMoment};
ghost use Rattle.desk_sight.specs.Images.{seen_of};
ghost use Rattle.desk_sight.specs.Sights.{IsSight};

use crate::uses::keys_used;
use desk_sight::{Sight, Use, image_of, sight_of};
use road_command::Words;
use road_io::Disk;
use std::alloc::Global;

/// Returns the contents of the desk, if it has a key that can be recognised. Changes no image.
pub fn sight_on<D: Disk>(alloc: Global, disk: &mut D) -> Option<Sight>
    ensures sight { IfSome result (λ sight. ForSome (D.content disk.new) (λ c. IsSight (seen_of c) sight)) }
    ensures stays { AtEachMoment D.Disk disk.old disk.new Stays }
{
    let Ok(image) = image_of(alloc, disk) else {
        return None;
    };
    match sight_of(&image) {
        Ok(found) => found,
        Err(_) => None,
    }
}

/// Returns how many maps the current key can still sign after a successful `publish`.
pub fn left_after(words: &Words, sight: Option<Sight>) -> Option<u32> {
    match (keys_used(words), sight) {
        (Some(Use::Publish), Some(sight)) => Some(sight.left().saturating_sub(1)),
        _ => None,
    }
}
