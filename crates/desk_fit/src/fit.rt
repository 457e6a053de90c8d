//! The look at the owner's desk before a command uses its keys.
ghost use Rattle.std.specs.Prelude.{◌≡◌, ◌≢◌, ◌⊎◌, ◌≤◌, true, Err, Some, None, IfErr, IfOk, IfSome, IsSomeAnd, MatchOption, OnOk};
ghost use Rattle.std.specs.Option.{ForSome};
ghost use Rattle.road_io.specs.Causes.{HasCause, Rose};
ghost use Rattle.road_io.specs.Disk.{Narrows, Stays};
ghost use Rattle.road_io.specs.Moments.{AtEachMoment, still_told};
ghost use Rattle.desk_sight.specs.Images.{seen_of};
ghost use Rattle.desk_sight.specs.Looks.{IsFitFor};
ghost use Rattle.desk_fit.specs.Fits.{BeginsQuiet, BeginsStable, BeginsUnrefused, IsFit, IsSpentSo, IsStable, IsWhy, LeavesAsItWas, Looks};

use crate::signer::signer_of;
use desk_sight::{Seen, Sight, Spending, Strange, Unfit, Use, image_of, look, sight_of};
use road_io::Disk;
use std::alloc::Global;

/// The report about a desk with which a command begins.
#[derive(Clone, Copy)]
pub struct Told {
    /// The contents of the desk, if it has a key that can be recognised.
    pub sight: Option<Sight>,
    /// The key with which a map must be signed.
    pub signer: Option<[u8; 56]>,
}

/// A desk before a command: what the look spent, and the report about the desk, or the reason why the command does
/// not begin.
pub struct Looked {
    /// What the look spent.
    pub spending: Spending,
    /// The report about the desk.
    pub told: Result<Told, Unfit>,
}

// Makes the writes of a disk durable, so that a crash leaves the octets that a read gives, and nothing else.
fn settle<D: Disk>(disk: &mut D) -> Result<(), Unfit>
    ensures stable { OnOk result (IsStable D.Disk disk.new) }
    ensures content { OnOk result (D.content disk.new ≡ D.content disk.old) }
    ensures moments { AtEachMoment D.Disk disk.old disk.new Stays }
    ensures fault { IfErr result (λ why. why ≡ Unfit.Disk) }
    ensures cause { HasCause (D.faults disk.old) (D.faults disk.new) result }
{
    disk.sync()?;
    Ok(())
}

// Makes the writes of a disk durable and reads its octets.
fn stable_image<D: Disk>(alloc: Global, disk: &mut D) -> Result<Vec<u8>, Unfit>
    ensures image { IfOk result (λ image. ForSome (D.content disk.new) (λ c. image.items ≡ seen_of c)) }
    ensures stable { OnOk result (IsStable D.Disk disk.new) }
    ensures content { OnOk result (Narrows (D.content disk.old) (D.content disk.new)) }
    ensures stays { AtEachMoment D.Disk disk.old disk.new Stays }
    ensures not_strange { (e : Strange) → result ≢ Err (Unfit.Strange e) }
    ensures not_other { result ≢ Err Unfit.OtherKey }
    ensures faults { D.faults disk.old ≤ D.faults disk.new }
    ensures fault { result ≡ Err Unfit.Disk → Rose (D.faults disk.old) (D.faults disk.new) }
{
    settle(disk)?;
    let image = image_of(alloc, disk)?;
    Ok(image)
}

// Returns the report about a desk after the look. If anything is strange only now, or waits only now, something has
// changed the desk.
fn told_of<D: Disk>(
    alloc: Global,
    what: Use,
    first: Option<[u8; 56]>,
    seen: Option<Seen>,
    disk: &mut D,
) -> Result<Told, Unfit>
    requires key { what ≢ Use.Key }
    requires unspent { (it : Seen) → seen ≡ Some it → it.spending ≡ Spending.Nothing →
        ForSome (D.content disk.old) (λ c. IsFitFor what first (seen_of c) it.sight) }
    ensures fits { IfOk result (λ told. ForSome (D.content disk.new)
        (λ c. IsFit (Some what) first (seen_of c) told.sight told.signer)) }
    ensures stable { OnOk result (IsStable D.Disk disk.new) }
    ensures content { OnOk result (Narrows (D.content disk.old) (D.content disk.new)) }
    ensures stays { AtEachMoment D.Disk disk.old disk.new Stays }
    ensures not_strange { (e : Strange) → result ≢ Err (Unfit.Strange e) }
    ensures not_other { result ≢ Err Unfit.OtherKey }
    ensures faults { D.faults disk.old ≤ D.faults disk.new }
    ensures fault { result ≡ Err Unfit.Disk → Rose (D.faults disk.old) (D.faults disk.new) }
{
    let image = stable_image(alloc, disk)?;
    let Ok(sight) = sight_of(&image) else {
        return Err(Unfit::BadBlock);
    };
    if !is_rested(what, seen, sight) {
        return Err(Unfit::BadBlock);
    }
    if what != Use::Publish {
        return Ok(Told {
            sight,
            signer: None,
        });
    }
    let signer = signer_of(&image, sight, first);
    Ok(Told { sight, signer })
}

// Tests whether nothing waits that a command requires to be spent, after a look that saw a desk, and given what the
// desk now holds.
fn is_rested(what: Use, seen: Option<Seen>, sight: Option<Sight>) -> bool
    ensures map { result ≡ true → what ≡ Use.Publish → IfSome sight (λ sight. sight.waiting ≡ None) }
    ensures next { result ≡ true → what ≡ Use.Succeed → IfSome sight (λ sight.
        (sight.link ≡ None) ⊎ IsSomeAnd seen (λ seen. seen.spending ≡ Spending.Nothing)) }
{
    match (what, sight) {
        (Use::Publish, Some(sight)) => sight.waiting.is_none(),
        (Use::Succeed, Some(sight)) => sight.link.is_none() || has_spent_nothing(seen),
        _ => true,
    }
}

// Tests whether a look saw a key and spent nothing.
fn has_spent_nothing(seen: Option<Seen>) -> bool
    ensures { result ≡ true → IsSomeAnd seen (λ seen. seen.spending ≡ Spending.Nothing) }
{
    match seen {
        Some(seen) => matches!(seen.spending, Spending::Nothing),
        None => false,
    }
}

// Returns what a look spent, if it saw a key.
fn spent_by(seen: Option<Seen>) -> Spending
    ensures { MatchOption seen (result ≡ Spending.Nothing) (λ seen. result ≡ seen.spending) }
{
    match seen {
        Some(seen) => seen.spending,
        None => Spending::Nothing,
    }
}

/// Looks at a desk before a command that may use its keys. The desk's first key may be known.
pub fn fit_desk<D: Disk>(
    alloc: Global,
    what: Option<Use>,
    first: Option<[u8; 56]>,
    disk: &mut D,
) -> Looked
    ensures uses { IfErr result.told (λ why. what ≢ None) }
    ensures looked { Looks D.Disk what disk.old disk.new }
    ensures left { IfErr result.told
        (λ why. LeavesAsItWas why (AtEachMoment D.Disk disk.old disk.new Stays)) }
    ensures why { IfErr result.told (λ why. ForSome (D.content disk.new)
        (λ c. IsWhy what first why (seen_of c))) }
    ensures unrefused { IfOk result.told (λ told. ForSome (still_told D.Disk disk.old disk.new)
        (λ c. BeginsUnrefused what first (seen_of c))) }
    ensures spent { IsSpentSo D.Disk result.spending disk.old disk.new }
    ensures quiet { IfOk result.told (λ told. ForSome (D.content disk.new)
        (λ c. BeginsQuiet what first result.spending (seen_of c))) }
    ensures fits { IfOk result.told (λ told. ForSome (D.content disk.new)
        (λ c. IsFit what first (seen_of c) told.sight told.signer)) }
    ensures stable { IfOk result.told (λ told. BeginsStable D.Disk what disk.new) }
    ensures faults { D.faults disk.old ≤ D.faults disk.new }
    ensures fault { IfErr result.told (λ why. why ≡ Unfit.Disk →
        Rose (D.faults disk.old) (D.faults disk.new)) }
{
    let nothing = Told {
        sight: None,
        signer: None,
    };
    let Some(what) = what else {
        return Looked {
            spending: Spending::Nothing,
            told: Ok(nothing),
        };
    };
    match look(alloc, what, first, disk) {
        Err(why) => Looked {
            spending: Spending::Nothing,
            told: Err(why),
        },
        Ok(seen) => Looked {
            spending: spent_by(seen),
            told: if what == Use::Key {
                Ok(nothing)
            } else {
                told_of(alloc, what, first, seen, disk)
            },
        },
    }
}
