//! The look at an owner's desk before a command uses its keys.
ghost use Rattle.std.specs.Prelude.{◌≡◌, ◌≢◌, ◌-◌, ◌*◌, ◌≤◌, ◌↔◌, true, List, ℕ, Err, Ok, Some, None, IfOk, IsErr, OnOk, MatchOption};
ghost use Rattle.std.specs.Option.{ForSome};
ghost use Rattle.road_io.specs.Causes.{HasCause, Rose};
ghost use Rattle.road_io.specs.Disk.{Stays};
ghost use Rattle.road_io.specs.Moments.{EachImage, AtEachMoment, still_told};
ghost use Rattle.desk_areas.specs.Layout.{base_of, gate_at};
ghost use Rattle.desk_sight.specs.Images.{seen_of};
ghost use Rattle.desk_sight.specs.Areas.{IsShut, IsStrange};
ghost use Rattle.desk_sight.specs.Sights.{IsSight, IsUntold};
ghost use Rattle.key_desk.specs.Spending.{HasSpent, SpendsTexted};
ghost use Rattle.desk_sight.specs.Looks.{AnswersRefusal, HasClosedLink, HasOpened, IsFitFor, IsMade, IsOther, IsRefused, IsUnlinked, IsUntoldTo, NothingWaits, Spends, SpendsLink};

use crate::first_key::{has_name, is_key_at};
use crate::image::{Unseen, image_of};
use crate::sight::{Sight, block_slots, is_shut, is_some, sight_of, whole_slots};
use crate::strange::Strange;
use desk_areas::open_gate;
use key_desk::{Desk, StartError};
use octet_text::NoMemory;
use road_io::{Disk, Failed};
use std::alloc::Global;

/// How a command uses the keys of a desk.
#[derive(Clone, Copy, Debug, PartialEq, Eq)]
pub enum Use {
    /// It makes the first key.
    Key,
    /// It signs a map.
    Publish,
    /// It signs the next key.
    Succeed,
    /// It signs again the links from each key to the next.
    Links,
}

/// Why a command that uses the keys of a desk does not begin.
#[derive(Clone, Copy, Debug, PartialEq, Eq)]
pub enum Unfit {
    /// The disk failed.
    Disk,
    /// Out of memory.
    Memory(NoMemory),
    /// An open area of the desk cannot be used.
    BadBlock,
    /// The desk holds something that no run and no crash leaves.
    Strange(Strange),
    /// The desk's first key differs from the named key.
    OtherKey,
}

/// The slots that the look itself spent.
#[derive(Clone, Copy, Debug, PartialEq, Eq)]
pub enum Spending {
    /// Nothing.
    Nothing,
    /// The first free one-time key, which held the whole header of a version.
    Header { slot: u32, version: u64 },
    /// The last one-time key of a key, which held the link to the next key.
    Link { key: u32 },
}

/// The findings of a look at a desk, and what the look spent.
#[derive(Clone, Copy, Debug, PartialEq, Eq)]
pub struct Seen {
    /// The contents of the desk. A one-time key that the look spent on a header counts as used.
    pub sight: Sight,
    /// What the look spent.
    pub spending: Spending,
}

impl From<Failed> for Unfit {
    ghost use Rattle.std.specs.Prelude.{◌≡◌};
    ghost use Rattle.desk_sight.specs.declared.looking.Unfit.TheVariants.{Disk};

    ghost from_gives = { λ _ e. e ≡ Disk };

    fn from(_: Failed) -> Self {
        Unfit::Disk
    }
}

impl From<Unseen> for Unfit {
    ghost use Rattle.std.specs.Prelude.{◌≡◌};
    ghost use Rattle.desk_sight.specs.Looks.{unseen};

    ghost from_gives = { λ why e. e ≡ unseen why };

    fn from(why: Unseen) -> Self {
        match why {
            Unseen::Failed => Unfit::Disk,
            Unseen::Memory(none) => Unfit::Memory(none),
        }
    }
}

impl From<NoMemory> for Unfit {
    ghost use Rattle.std.specs.Prelude.{◌≡◌};
    ghost use Rattle.desk_sight.specs.declared.looking.Unfit.TheVariants.{Memory};

    ghost from_gives = { λ none e. e ≡ Memory none };

    fn from(none: NoMemory) -> Self {
        Unfit::Memory(none)
    }
}

// Tests whether the first block belongs to a key other than the named one. Returns false if its kind is unknown or
// no key is named. Before `Publish`, only the kind and the identifier are compared, which is much faster than
// making the key. The signature is verified under the named key before it is written out.
fn is_other(
    alloc: Global,
    what: Use,
    public: &Option<[u8; 56]>,
    image: &[u8],
) -> Result<bool, NoMemory>
    ensures { IfOk result (λ is. (is ≡ true) ↔ IsOther what public.now image.now) }
{
    let Some(public) = public else {
        return Ok(false);
    };
    if image.len() < 64 || block_slots(image, 0) == 0 {
        return Ok(false);
    }
    if what == Use::Publish {
        return Ok(!has_name(image, public));
    }
    Ok(!is_key_at(alloc, image, 0, public)?)
}

// Returns the offset at which the area with a number begins.
fn base_of(image: &[u8], area: u32) -> usize
    requires { area ≤ 8 }
    ensures base { result ≡ base_of image.now area }
    ensures low { result ≤ 131136 * area }
{
    let mut base = 0usize;
    for _before in 0..area {
        base = base + 64 + 128 * block_slots(image, base) as usize;
    }
    base
}

// Tests whether the link that waits in a key's last slot leads to the next key.
fn is_made(alloc: Global, image: &[u8], key: u32, link: &[u8; 56]) -> Result<bool, NoMemory>
    requires { key ≤ 8 }
    ensures { IfOk result (λ is. (is ≡ true) ↔ IsMade image.now key link.now) }
{
    if key == 8 {
        return Ok(false);
    }
    let base = base_of(image, key);
    if whole_slots(image, base) == 0 {
        return Ok(false);
    }
    is_key_at(alloc, image, base, link)
}

// Opens the gate of the last slot of the area that ends here.
fn open_link<D: Disk>(disk: &mut D, end: u64) -> Result<(), Failed>
    requires closed { ForSome (D.content disk.old) (HasClosedLink end) }
    requires long { 128 ≤ end }
    ensures spends { SpendsLink D.Disk disk.old disk.new }
    ensures opened { OnOk result (EachImage D.Disk disk.new (λ i. gate_at i (end - 128) ≡ 1)) }
    ensures cause { HasCause (D.faults disk.old) (D.faults disk.new) result }
    ensures kept { OnOk result (D.faults disk.new ≡ D.faults disk.old) }
{
    disk.sync()?;
    open_gate(disk, end - 128)
}

// Before `Succeed`, opens the gate of the last slot if it holds the link to the next key.
fn spend_link<D: Disk>(
    alloc: Global,
    disk: &mut D,
    image: &[u8],
    sight: Sight,
) -> Result<Spending, Unfit>
    requires image { ForSome (D.content disk.old) (λ c. image.now ≡ seen_of c) }
    requires sight { IsSight image.now sight }
    ensures spends { SpendsLink D.Disk disk.old disk.new }
    ensures untouched { IsErr result → result ≢ Err Unfit.Disk →
        AtEachMoment D.Disk disk.old disk.new Stays }
    ensures strange { (e : Strange) → result ≡ Err (Unfit.Strange e) →
        (disk.new ≡ disk.old) × IsUnlinked image.now e }
    ensures unlinked { (e : Strange) → IsUnlinked image.now e →
        AnswersRefusal (Unfit.Strange e) result }
    ensures not_other { result ≢ Err Unfit.OtherKey }
    ensures nothing { result ≡ Ok Spending.Nothing → (disk.new ≡ disk.old) ×
        NothingWaits Use.Succeed image.now sight }
    ensures opened { (key : ℕ) → result ≡ Ok (Spending.Link key) →
        EachImage D.Disk disk.new (λ i. gate_at i (base_of image.now key - 128) ≡ 1) }
    ensures no_header { (slot version : ℕ) → result ≢ Ok (Spending.Header slot version) }
    ensures content { (e : Strange) → result ≡ Err (Unfit.Strange e) →
        D.content disk.new ≡ D.content disk.old }
    ensures faults { D.faults disk.old ≤ D.faults disk.new }
    ensures fault { result ≡ Err Unfit.Disk → Rose (D.faults disk.old) (D.faults disk.new) }
{
    let Some(link) = sight.link else {
        return Ok(Spending::Nothing);
    };
    if is_made(alloc, image, sight.key, &link)? {
        open_link(disk, base_of(image, sight.key) as u64)?;
        return Ok(Spending::Link { key: sight.key });
    }
    if sight.is_followed {
        return Err(Unfit::Strange(Strange::Link { key: sight.key }));
    }
    Ok(Spending::Nothing)
}

// Returns why no slot could be spent.
fn why_unfit(e: StartError) -> Unfit
    ensures disk { (result ≡ Unfit.Disk) ↔ (e ≡ StartError.DiskFault) }
    ensures not_strange { (strange : Strange) → result ≢ Unfit.Strange strange }
    ensures not_other { result ≢ Unfit.OtherKey }
{
    match e {
        StartError::DiskFault => Unfit::Disk,
        StartError::Memory(none) => Unfit::Memory(none),
        StartError::NoKey | StartError::BadBlock | StartError::Held => Unfit::BadBlock,
    }
}

// Before `Publish`, spends the first free slot if it holds a whole header.
fn spend_header<D: Disk>(alloc: Global, disk: &mut D, sight: Sight) -> Result<Spending, Unfit>
    ensures spends { SpendsTexted D.Disk disk.old disk.new }
    ensures untouched { IsErr result → result ≢ Err Unfit.Disk →
        AtEachMoment D.Disk disk.old disk.new Stays }
    ensures not_strange { (e : Strange) → result ≢ Err (Unfit.Strange e) }
    ensures not_other { result ≢ Err Unfit.OtherKey }
    ensures nothing { result ≡ Ok Spending.Nothing → (disk.new ≡ disk.old) × (sight.waiting ≡ None) }
    ensures no_link { (key : ℕ) → result ≢ Ok (Spending.Link key) }
    ensures spent { (slot version : ℕ) → result ≡ Ok (Spending.Header slot version) →
        EachImage D.Disk disk.new
        (λ i. (c : List ℕ) × (D.content disk.old ≡ Some c) × HasSpent slot c i) }
    ensures faults { D.faults disk.old ≤ D.faults disk.new }
    ensures fault { result ≡ Err Unfit.Disk → Rose (D.faults disk.old) (D.faults disk.new) }
{
    let Some(waiting) = sight.waiting else {
        return Ok(Spending::Nothing);
    };
    match Desk::spend_texted(alloc, disk) {
        Ok(Some(slot)) => Ok(Spending::Header {
            slot,
            version: waiting.version,
        }),
        Ok(None) => Err(Unfit::BadBlock),
        Err(e) => Err(why_unfit(e)),
    }
}

// Spends the slots that wait, as a command requires.
fn spend<D: Disk>(
    alloc: Global,
    what: Use,
    disk: &mut D,
    image: &[u8],
    sight: Sight,
) -> Result<Spending, Unfit>
    requires image { ForSome (D.content disk.old) (λ c. image.now ≡ seen_of c) }
    requires sight { IsSight image.now sight }
    ensures spends { Spends D.Disk what disk.old disk.new }
    ensures untouched { IsErr result → result ≢ Err Unfit.Disk →
        AtEachMoment D.Disk disk.old disk.new Stays }
    ensures strange { (e : Strange) → result ≡ Err (Unfit.Strange e) →
        (disk.new ≡ disk.old) × (what ≡ Use.Succeed) × IsUnlinked image.now e }
    ensures unlinked { (e : Strange) → what ≡ Use.Succeed → IsUnlinked image.now e →
        AnswersRefusal (Unfit.Strange e) result }
    ensures not_other { result ≢ Err Unfit.OtherKey }
    ensures nothing { result ≡ Ok Spending.Nothing → (disk.new ≡ disk.old) ×
        NothingWaits what image.now sight }
    ensures opened { (key : ℕ) → result ≡ Ok (Spending.Link key) →
        EachImage D.Disk disk.new (λ i. gate_at i (base_of image.now key - 128) ≡ 1) }
    ensures spent { (slot version : ℕ) → result ≡ Ok (Spending.Header slot version) →
        EachImage D.Disk disk.new
        (λ i. (c : List ℕ) × (D.content disk.old ≡ Some c) × HasSpent slot c i) }
    ensures faults { D.faults disk.old ≤ D.faults disk.new }
    ensures fault { result ≡ Err Unfit.Disk → Rose (D.faults disk.old) (D.faults disk.new) }
{
    match what {
        Use::Publish => spend_header(alloc, disk, sight),
        Use::Succeed => spend_link(alloc, disk, image, sight),
        Use::Key | Use::Links => Ok(Spending::Nothing),
    }
}

// Returns the sight after the spending.
fn seen_after(sight: Sight, spending: Spending) -> Seen
    ensures nothing { spending ≡ Spending.Nothing → result ≡ record { sight = sight; spending = spending } }
    ensures spending { result.spending ≡ spending }
{
    let sight = match spending {
        Spending::Header { .. } => sight.with_one_more(),
        Spending::Link { .. } | Spending::Nothing => sight,
    };
    Seen { sight, spending }
}

// Returns `None` before `Key`; otherwise fails because the desk's first gate is closed.
fn new_desk(image: &[u8]) -> Result<Option<Seen>, Unfit>
    ensures shut { (e : Unfit) → result ≡ Err e → (e ≡ Unfit.Strange Strange.Shut) × IsShut image.now }
    ensures none { IfOk result (λ found. (found ≡ None) × (IsShut image.now → ⊥)) }
{
    if !is_some(image, 0) {
        if is_shut(image) {
            return Err(Unfit::Strange(Strange::Shut));
        }
    }
    Ok(None)
}

// Returns the sight with which a command may begin, if the desk has a key that can be recognised.
fn sight_for(
    alloc: Global,
    what: Use,
    public: &Option<[u8; 56]>,
    image: &[u8],
) -> Result<Option<Sight>, Unfit>
    ensures found { IfOk result (λ found. MatchOption found (IsUntold image.now) (IsSight image.now)) }
    ensures not_other { OnOk result (IsOther what public.now image.now → ⊥) }
    ensures strange { (e : Strange) → result ≡ Err (Unfit.Strange e) →
        (IsOther what public.now image.now → ⊥) × IsStrange image.now e }
    ensures strange_else { (e : Strange) → (IsOther what public.now image.now → ⊥) →
        IsStrange image.now e → AnswersRefusal (Unfit.Strange e) result }
    ensures other { result ≡ Err Unfit.OtherKey → IsOther what public.now image.now }
    ensures other_else { IsOther what public.now image.now →
        AnswersRefusal Unfit.OtherKey result }
    ensures no_disk { result ≢ Err Unfit.Disk }
    ensures no_block { result ≢ Err Unfit.BadBlock }
{
    if is_other(alloc, what, public, image)? {
        return Err(Unfit::OtherKey);
    }
    match sight_of(image) {
        Ok(found) => Ok(found),
        Err(strange) => Err(Unfit::Strange(strange)),
    }
}

// Returns the sight with which a command begins, from the octets of its disk.
fn look_over<D: Disk>(
    alloc: Global,
    what: Use,
    public: &Option<[u8; 56]>,
    disk: &mut D,
    image: &[u8],
) -> Result<Option<Seen>, Unfit>
    requires { ForSome (D.content disk.old) (λ c. image.now ≡ seen_of c) }
    ensures spends { Spends D.Disk what disk.old disk.new }
    ensures untouched { IsErr result → result ≢ Err Unfit.Disk →
        AtEachMoment D.Disk disk.old disk.new Stays }
    ensures strange { (e : Strange) → result ≡ Err (Unfit.Strange e) → (disk.new ≡ disk.old) ×
        IsRefused what public.now image.now e }
    ensures strange_else { (e : Strange) → IsRefused what public.now image.now e →
        AnswersRefusal (Unfit.Strange e) result }
    ensures other { result ≡ Err Unfit.OtherKey → (disk.new ≡ disk.old) ×
        IsOther what public.now image.now }
    ensures other_else { what ≢ Use.Key → IsOther what public.now image.now →
        AnswersRefusal Unfit.OtherKey result }
    ensures untold { result ≡ Ok None → (disk.new ≡ disk.old) ×
        IsUntoldTo what public.now image.now }
    ensures unspent { (seen : Seen) → result ≡ Ok (Some seen) → seen.spending ≡ Spending.Nothing →
        (disk.new ≡ disk.old) × IsFitFor what public.now image.now seen.sight }
    ensures opened { (seen : Seen) (key : ℕ) → result ≡ Ok (Some seen) →
        seen.spending ≡ Spending.Link key →
        EachImage D.Disk disk.new (λ i. gate_at i (base_of image.now key - 128) ≡ 1) }
    ensures spent { (seen : Seen) (slot version : ℕ) → result ≡ Ok (Some seen) →
        seen.spending ≡ Spending.Header slot version → EachImage D.Disk disk.new
        (λ i. (c : List ℕ) × (D.content disk.old ≡ Some c) × HasSpent slot c i) }
    ensures faults { D.faults disk.old ≤ D.faults disk.new }
    ensures fault { result ≡ Err Unfit.Disk → Rose (D.faults disk.old) (D.faults disk.new) }
{
    if what == Use::Key {
        return new_desk(image);
    }
    match sight_for(alloc, what, public, image) {
        Err(unfit) => Err(unfit),
        Ok(None) => Ok(None),
        Ok(Some(sight)) => match spend(alloc, what, disk, image, sight) {
            Err(unspent) => Err(unspent),
            Ok(spending) => Ok(Some(seen_after(sight, spending))),
        },
    }
}

/// Returns the contents of a desk before a command uses its keys, or `None` if it has no key that can be
/// recognised. Fails if the desk holds anything that no run and no crash leaves, or if its first key differs from
/// the named key.
///
/// Before `Publish`, spends the first free slot if a whole header waits in it. Before `Succeed`, spends the last
/// slot if a link to the next key waits in it. The one-time keys of these slots sign nothing else. Writes nothing
/// else, and nothing at all if it fails. Before `Key`, it only looks for a desk whose first gate was closed by
/// something else.
pub fn look<D: Disk>(
    alloc: Global,
    what: Use,
    public: Option<[u8; 56]>,
    disk: &mut D,
) -> Result<Option<Seen>, Unfit>
    ensures spends { Spends D.Disk what disk.old disk.new }
    ensures untouched { IsErr result → result ≢ Err Unfit.Disk →
        AtEachMoment D.Disk disk.old disk.new Stays }
    ensures strange { (e : Strange) → result ≡ Err (Unfit.Strange e) →
        ForSome (D.content disk.new) (λ c. IsRefused what public (seen_of c) e) }
    ensures strange_else { (e : Strange) → ForSome (still_told D.Disk disk.old disk.new)
        (λ c. IsRefused what public (seen_of c) e → AnswersRefusal (Unfit.Strange e) result) }
    ensures other { result ≡ Err Unfit.OtherKey →
        ForSome (D.content disk.new) (λ c. IsOther what public (seen_of c)) }
    ensures other_else { what ≢ Use.Key → ForSome (still_told D.Disk disk.old disk.new)
        (λ c. IsOther what public (seen_of c) → AnswersRefusal Unfit.OtherKey result) }
    ensures untold { result ≡ Ok None →
        ForSome (D.content disk.new) (λ c. IsUntoldTo what public (seen_of c)) }
    ensures unspent { (seen : Seen) → result ≡ Ok (Some seen) → seen.spending ≡ Spending.Nothing →
        ForSome (D.content disk.new) (λ c. IsFitFor what public (seen_of c) seen.sight) }
    ensures opened { (seen : Seen) (key : ℕ) → result ≡ Ok (Some seen) →
        seen.spending ≡ Spending.Link key → EachImage D.Disk disk.new
        (λ i. (c : List ℕ) × (D.content disk.old ≡ Some c) × HasOpened key c i) }
    ensures spent { (seen : Seen) (slot version : ℕ) → result ≡ Ok (Some seen) →
        seen.spending ≡ Spending.Header slot version → EachImage D.Disk disk.new
        (λ i. (c : List ℕ) × (D.content disk.old ≡ Some c) × HasSpent slot c i) }
    ensures faults { D.faults disk.old ≤ D.faults disk.new }
    ensures fault { result ≡ Err Unfit.Disk → Rose (D.faults disk.old) (D.faults disk.new) }
{
    let image = image_of(alloc, disk)?;
    look_over(alloc, what, &public, disk, &image)
}
