//! The effect of runs, looks and crashes on an image.
ghost use Rattle.std.specs.Prelude.{◌≡◌, ◌<◌, ◌≤◌, List, Option, ℕ, length, suc};
ghost use Rattle.road_io.specs.Moments.{EachImage};
ghost use Rattle.lms_tree.specs.Signatures.{KeyOf};
ghost use Rattle.desk_areas.specs.Blank.{IsFresh};
ghost use Rattle.desk_areas.specs.Layout.{SlotId, base_of, place_of, gate_at, gate_of, IsCurrent, PutsText};
ghost use Rattle.key_desk.specs.Spending.{IsLowestFree};
ghost use Rattle.key_desk.specs.Succession.{IsUnspent, RaisesNext};
ghost use Rattle.desk_sight.specs.Areas.{early_at, IsFollowed, IsStrange, IsWaitingLink, IsWhole};
ghost use Rattle.desk_sight.specs.CallLives.{EachFresh, IsLifeOf, StaysInOrder};
ghost use Rattle.desk_sight.specs.Looks.{IsFitFor, IsMade, IsUnlinked, MaySpend};
ghost use Rattle.desk_sight.specs.Texts.{HasHeader};
ghost use Rattle.desk_sight.specs.Tidy.{IsTidy, HasFreshLink};
ghost use Rattle.desk_sight.specs.declared.looking.Use.{Use};
ghost use Rattle.desk_sight.specs.declared.looking.Use.TheVariants.{Publish, Succeed};
ghost use Rattle.desk_sight.specs.declared.sight.Sight.{Sight};
ghost use Rattle.desk_sight.specs.declared.slots.Signed.{Signed};
ghost use Rattle.desk_sight.specs.declared.strange.Strange.{Strange};

use road_io::Disk;

/// If an image has a key and its open areas are as runs and crashes leave them, nothing in it is strange.
pub fn tidy_images_are_not_strange()
    ensures { (image : List ℕ) → IsTidy image → 0 < gate_at image 0 →
        (strange : Strange) → IsStrange image strange → ⊥ }
{}

/// If no link text waits while the next area is in use, `succeed` is not refused because of the link.
pub fn fresh_links_are_not_refused()
    ensures { (image : List ℕ) → HasFreshLink image →
        (strange : Strange) → IsUnlinked image strange → ⊥ }
{}

/// Every image that a crash may leave while a first key is made is tidy.
pub fn fresh_images_are_tidy()
    ensures { (key : KeyOf) (image : List ℕ) → IsFresh key image → IsTidy image }
{}

/// Writing a text of at most 104 octets to the lowest free slot keeps an image tidy, and so does opening its gate.
pub fn signing_keeps_tidy()
    ensures { (slot : SlotId) (text d i : List ℕ) → length text ≤ 104 → IsLowestFree d slot →
        PutsText slot text d i → IsTidy d → IsTidy i }
{}

/// Writing a next key's area keeps an image tidy, and so does writing the link to it.
pub fn raising_keeps_tidy()
    ensures { (key : KeyOf) (d i : List ℕ) → RaisesNext key d i → IsTidy d → IsTidy i }
{}

/// Anything that a look spends keeps an image tidy, if no link text waits while the next area is in use.
pub fn spending_keeps_tidy()
    ensures { (what : Use) (d i : List ℕ) → MaySpend what d i → HasFreshLink d → IsTidy d →
        IsTidy i }
{}

/// After a new key, the first or a later one, no link text waits while the next area is in use. This holds for
/// everything that a crash leaves while the first key is made.
pub fn new_keys_are_fresh()
    ensures first { (key : KeyOf) (image : List ℕ) → IsFresh key image → HasFreshLink image }
    ensures next { (key : KeyOf) (image : List ℕ) (area : ℕ) → IsCurrent image area →
        IsUnspent key (base_of image area) image → HasFreshLink image }
{}

/// The same holds after a text of at most 104 octets is written to the lowest free slot, and after its gate is
/// opened.
pub fn signing_keeps_fresh()
    ensures { (slot : SlotId) (text d i : List ℕ) → length text ≤ 104 → IsLowestFree d slot →
        PutsText slot text d i → HasFreshLink d → HasFreshLink i }
{}

/// The same holds after a look has spent something.
pub fn spending_keeps_fresh()
    ensures { (what : Use) (d i : List ℕ) → MaySpend what d i → HasFreshLink d → HasFreshLink i }
{}

/// If a look before `publish` spent nothing, the lowest free slot holds no whole header. `publish` signs with this
/// slot.
pub fn publish_signs_over_no_header()
    ensures { (public : Option (List ℕ)) (image : List ℕ) (sight : Sight) →
        IsFitFor Publish public image sight → (slot : SlotId) → IsLowestFree image slot →
        (signed : Signed) → HasHeader image (place_of image slot) signed → ⊥ }
{}

/// If a look before `succeed` spent nothing, the free last slot of the current area holds no link text to the next
/// key. If the first slot of the next area is spent, it holds no link text at all.
pub fn succeed_signs_over_no_link()
    ensures { (public : Option (List ℕ)) (image : List ℕ) (sight : Sight) →
        IsFitFor Succeed public image sight → (area : ℕ) → IsCurrent image area →
        (key : List ℕ) → IsWaitingLink image area key →
        (IsMade image (suc area) key → ⊥) × (IsFollowed image area → ⊥) }
{}

/// In a tidy image, if a free slot that signs maps in the current area holds a whole header, it is the lowest free
/// slot. The look before `publish` spends this slot.
pub fn free_headers_stand_lowest()
    ensures { (image : List ℕ) (slot : SlotId) (signed : Signed) → IsTidy image →
        IsCurrent image slot.area → IsWhole image slot.area →
        slot.number < early_at image slot.area → gate_of image slot ≡ 0 →
        HasHeader image (place_of image slot) signed → IsLowestFree image slot }
{}

/// In every life of a desk, no image with a key holds anything strange, at any moment. A life is a list of calls
/// that make a key, sign, add a key or look, with crashes within or between them. It begins with a disk whose open
/// areas are as runs and crashes leave them, such as a disk without a key. Excluded are lives in which a crash or a
/// fault of `succeed` tears a write so that a link text waits while the next area is in use.
pub fn desks_stay_in_order<D: Disk>()
    ensures { (disk : D) (disks : List D) → EachFresh D.Disk disk disks →
        EachImage D.Disk disk IsTidy → (life : IsLifeOf D.Disk disk disks) →
        StaysInOrder D.Disk disk disks life }
{}
