//! The next key: a new area after all others. The last slot of the current area signs the new key.
ghost use Rattle.std.specs.Prelude.{◌≡◌, ◌≢◌, ◌⊎◌, ◌+◌, ◌*◌, ◌^◌, ◌↔◌, ◌<◌, ◌≤◌, ◌-◌, List, ℕ, suc, Err, length, take, replicate, IfOk, OnOk, OnErr, IfErr, IsErrOf, IsErr, true, false};
ghost use Rattle.octet_text.specs.Want.{no_memory};
ghost use Rattle.std.specs.Option.{ForSome};
ghost use Rattle.road_io.specs.Causes.{HasCause, Rose, RoseBy};
ghost use Rattle.road_io.specs.Disk.{Narrows, Stays};
ghost use Rattle.road_io.specs.Moments.{Image, EachImage, AtEachMoment, still_told};
ghost use Rattle.lms_tree.specs.Signatures.{public_key};
ghost use Rattle.lms_tree.specs.Links.{link_text};
ghost use Rattle.desk_areas.specs.Calls.{CalledUpTo};
ghost use Rattle.desk_areas.specs.Layout.{slots_of, place_in, last_slot, IsSigned, IsCurrent, SignsAtMost};
ghost use Rattle.desk_areas.specs.Keys.{key_from};
ghost use Rattle.key_desk.specs.Calls.{most_succession_calls, succession_calls};
ghost use Rattle.key_desk.specs.Stands.{KeepsStanding, SameKeys};
ghost use Rattle.desk_areas.specs.Settled.{IsSettled};
ghost use Rattle.key_desk.specs.Desk.{slot_here, Fits};
ghost use Rattle.key_desk.specs.View.{View};
ghost use Rattle.key_desk.specs.Succession.{last_number, next_desk, CanSucceed, HasKeys, IsUnspent, RaisesAt, RaisesNext, SignsLink, DeskRefuses, CanFollow, IsDeskCalledFor, AnswersDeskRefusal, IsCalledFor, AnswersRefusal, started};

use crate::desk::Desk;
use desk_areas::{
    Area, Count, StartError, build_key, clear_next, has_name, open_gate, place_in, put_block,
    put_text, slots_of,
};
use lms_tree::{Key, link_text};
use octet_text::{NoMemory, array_at, filled, push};
use road_io::{Disk, Failed};
use std::alloc::Global;
use thiserror::Error;

// Adds a blank area. Then the last slot of the current area signs the key of that area.
fn raise<D: Disk>(
    disk: &mut D,
    base: u64,
    slots: u32,
    zeros: &[u8],
    kind: u32,
    secret: &[u8; 48],
    link: &[u8; 60],
) -> Result<(), Failed>
    requires within { EachImage D.Disk disk.old (λ i. place_in base slots ≤ length i) }
    requires low { base ≤ 917952 }
    requires some { 0 < slots }
    requires few { slots ≤ 1024 }
    requires zeros { zeros.now ≡ replicate (place_in 0 (slots_of kind)) 0 }
    requires link { link.now ≡ link_text (public_key (key_from kind secret.now)) }
    ensures moments { (desk : View) → Fits D.Disk desk disk.old →
        CanSucceed desk (key_from kind secret.now) → desk.base ≡ base →
        slots_of desk.key.kind ≡ slots
        → AtEachMoment D.Disk disk.old disk.new
        (SignsAtMost (slot_here desk (last_number desk))
        (link_text (public_key (key_from kind secret.now)))) }
    ensures keys { (desk : View) → Fits D.Disk desk disk.old →
        CanSucceed desk (key_from kind secret.now) → desk.base ≡ base →
        slots_of desk.key.kind ≡ slots
        → AtEachMoment D.Disk disk.old disk.new (λ d i. HasKeys desk i) }
    ensures fits { (desk : View) → Fits D.Disk desk disk.old →
        CanSucceed desk (key_from kind secret.now) → desk.base ≡ base →
        slots_of desk.key.kind ≡ slots
        → OnOk result (Fits D.Disk (next_desk desk (key_from kind secret.now)) disk.new) }
    ensures signed { (desk : View) → Fits D.Disk desk disk.old →
        CanSucceed desk (key_from kind secret.now) → desk.base ≡ base →
        slots_of desk.key.kind ≡ slots
        → OnOk result (EachImage D.Disk disk.new
        (λ i. IsSigned i (slot_here desk (last_number desk))
        (link_text (public_key (key_from kind secret.now))))) }
    ensures unspent { OnOk result (EachImage D.Disk disk.new
        (IsUnspent (key_from kind secret.now) (place_in base slots))) }
    ensures raises { AtEachMoment D.Disk disk.old disk.new
        (RaisesAt (key_from kind secret.now) (place_in base slots) (place_in base (slots - 1))) }
    ensures cause { HasCause (D.faults disk.old) (D.faults disk.new) result }
    ensures kept { OnOk result (D.faults disk.new ≡ D.faults disk.old) }
    ensures counted { OnOk result (RoseBy 8 (D.calls disk.old) (D.calls disk.new)) }
    ensures few { CalledUpTo 8 (D.calls disk.old) (D.calls disk.new) }
{
    let end = place_in(base, slots);
    clear_next(disk, end, zeros)?;
    put_block(disk, end, kind, secret)?;
    let place = place_in(base, slots - 1);
    put_text(disk, place, link)?;
    open_gate(disk, place)
}

/// Why a desk did not get a next key.
#[derive(Clone, Copy, Debug, PartialEq, Eq, Error)]
pub enum SucceedError {
    /// The disk holds no key.
    #[error("The disk holds no key.")]
    NoKey,
    /// An open area of the disk cannot be used.
    #[error("The disk holds a key that cannot be used.")]
    BadBlock,
    /// Eight areas are open.
    #[error("The disk holds eight keys already.")]
    TooManyKeys,
    /// The last slot of the current area is spent, but does not hold a link.
    #[error("The last one-time key was used, so that it cannot sign the next key.")]
    NoSuccession,
    /// The name at the beginning of the secret is already that of an open area's key.
    #[error("The disk holds a key of this secret already.")]
    SameSecret,
    /// The disk failed.
    #[error("The disk failed.")]
    DiskFault,
    /// Out of memory.
    #[error("Out of memory.")]
    Memory(NoMemory),
}

impl From<Failed> for SucceedError {
    ghost use Rattle.std.specs.Prelude.{◌≡◌};
    ghost use Rattle.key_desk.specs.declared.succeed.SucceedError.TheVariants.{DiskFault};

    ghost from_gives = { λ _ e. e ≡ DiskFault };

    fn from(_: Failed) -> Self {
        SucceedError::DiskFault
    }
}

impl From<NoMemory> for SucceedError {
    ghost use Rattle.std.specs.Prelude.{◌≡◌};
    ghost use Rattle.key_desk.specs.declared.succeed.SucceedError.TheVariants.{Memory};

    ghost from_gives = { λ none e. e ≡ Memory none };

    fn from(none: NoMemory) -> Self {
        SucceedError::Memory(none)
    }
}

impl Desk {
    ghost use Rattle.key_desk.specs.Desk.{count_at, key_of, slot_here, Fits};

    // Tests whether the last slot of the current area is spent.
    fn is_last_spent(&self) -> bool
        requires { 0 < slots_of self.now.key.kind }
        ensures { (result ≡ true) ↔ (count_at self.now (last_number self.now) ≡ Count.Spent) }
    {
        let counts = self.counts();
        counts[counts.len() - 1] == Count::Spent
    }

    // Tests whether an area has a key with this name.
    fn holds_name(&self, name: &[u8; 16]) -> bool
        ensures yes { result ≡ true → (a : ℕ) × (a ≤ length self.now.earlier) ×
            ((key_of self.now a).i ≡ name.now) }
        ensures no { result ≡ false → (a : ℕ) → a ≤ length self.now.earlier →
            (key_of self.now a).i ≢ name.now }
    {
        self.key().i() == *name || has_name(self.earlier(), name)
    }

    // Returns the first reason why a key with this name cannot follow.
    fn may_follow(&self, name: &[u8; 16]) -> Result<(), SucceedError>
        requires { 0 < slots_of self.now.key.kind }
        ensures refused { IfErr result (DeskRefuses self.now name.now) }
        ensures follows { OnOk result (CanFollow self.now name.now) }
    {
        if self.earlier().len() == 7 {
            return Err(SucceedError::TooManyKeys);
        }
        if self.is_last_spent() {
            return Err(SucceedError::NoSuccession);
        }
        if self.holds_name(name) {
            return Err(SucceedError::SameSecret);
        }
        Ok(())
    }

    // Makes the desk whose current area has this key and follows the areas of this desk.
    fn into_next(self, key: Key, counts: Vec<Count>) -> Result<Desk, SucceedError>
        requires some { 0 < slots_of self.key.kind }
        requires few { length self.earlier < 7 }
        requires counts { counts.items ≡ replicate (slots_of key.kind) Count.Free }
        ensures next { IfOk result (λ next. next ≡ next_desk self key) }
        ensures memory { IsErr result → result ≡ Err (SucceedError.Memory no_memory) }
    {
        let Desk {
            mut earlier,
            base,
            key: old_key,
            counts: mut old_counts,
            is_open: _is_open,
        } = self;
        let slots = old_counts.len();
        old_counts[slots - 1] = Count::Spent;
        push(&mut earlier, Area::from_parts(old_key, old_counts))?;
        Ok(Desk::from_parts(earlier, base + 64 + 128 * slots as u64, key, counts))
    }
}

impl Desk {
    ghost use Rattle.key_desk.specs.Desk.{count_at, key_of, slot_here, Fits};

    /// Makes the next key in a new area of the disk, lets the last slot of the current area sign it, and opens the
    /// desk over it. A desk that was opened before no longer fits the disk.
    pub fn succeed<D: Disk>(
        alloc: Global,
        disk: &mut D,
        kind: u32,
        secret: &[u8; 48],
    ) -> Result<Desk, SucceedError>
        requires { (kind ≡ 5) ⊎ (kind ≡ 6) }
        ensures fits { IfOk result (λ desk. Fits D.Disk desk disk.new) }
        ensures opened { IfOk result (λ desk. desk.is_open ≡ true) }
        ensures key { IfOk result (λ desk. desk.key ≡ key_from kind secret.now) }
        ensures follows { IfOk result (λ desk. 0 < length desk.earlier) }
        ensures signed { OnOk result
            (EachImage D.Disk disk.new
            (λ i. (a : ℕ) × IsCurrent i (suc a) ×
            IsSigned i (last_slot i a) (link_text (public_key (key_from kind secret.now))))) }
        ensures unspent { IfOk result
            (λ desk. EachImage D.Disk disk.new (IsUnspent desk.key desk.base)) }
        ensures refused { IfErr result (IsCalledFor (D.content disk.new) (take 16 secret.now)) }
        ensures refused_else { ForSome (still_told D.Disk disk.old disk.new)
            (λ c. AnswersRefusal c (take 16 secret.now) result) }
        ensures narrows { IsErr result → result ≢ Err SucceedError.DiskFault →
            Narrows (D.content disk.old) (D.content disk.new) }
        ensures moments { AtEachMoment D.Disk disk.old disk.new
            (λ d i. (i ≡ d) ⊎ SignsLink (link_text (public_key (key_from kind secret.now))) d i) }
        ensures raises { AtEachMoment D.Disk disk.old disk.new
            (λ d i. (i ≡ d) ⊎ RaisesNext (key_from kind secret.now) d i) }
        ensures keys { AtEachMoment D.Disk disk.old disk.new SameKeys }
        ensures stands { KeepsStanding D.Disk disk.old disk.new }
        ensures untouched { IsErr result → result ≢ Err SucceedError.DiskFault →
            AtEachMoment D.Disk disk.old disk.new Stays }
        ensures faults { D.faults disk.old ≤ D.faults disk.new }
        ensures fault { IsErrOf result SucceedError.DiskFault →
            Rose (D.faults disk.old) (D.faults disk.new) }
        ensures kept { result ≢ Err SucceedError.DiskFault → D.faults disk.new ≡ D.faults disk.old }
        ensures counted { IfOk result (λ desk.
            RoseBy (succession_calls desk.earlier) (D.calls disk.old) (D.calls disk.new)) }
        ensures few { CalledUpTo most_succession_calls (D.calls disk.old) (D.calls disk.new) }
    {
        match Desk::reopen(alloc, disk) {
            Err(e) => Err(started(e)),
            Ok(desk) => desk.pass_on(alloc, disk, kind, secret),
        }
    }

    // Adds the area of the next key. Fails if there is a reason against it.
    fn pass_on<D: Disk>(
        self,
        alloc: Global,
        disk: &mut D,
        kind: u32,
        secret: &[u8; 48],
    ) -> Result<Desk, SucceedError>
        requires kind { (kind ≡ 5) ⊎ (kind ≡ 6) }
        requires fits { Fits D.Disk self disk.old }
        requires opened { self.is_open ≡ true }
        ensures next { IfOk result (λ next. next ≡ next_desk self (key_from kind secret.now)) }
        ensures fits { IfOk result (λ next. Fits D.Disk next disk.new) }
        ensures signed { OnOk result
            (EachImage D.Disk disk.new
            (λ i. IsSigned i (slot_here self (last_number self))
            (link_text (public_key (key_from kind secret.now))))) }
        ensures moments { AtEachMoment D.Disk disk.old disk.new
            (SignsAtMost (slot_here self (last_number self))
            (link_text (public_key (key_from kind secret.now)))) }
        ensures keys { AtEachMoment D.Disk disk.old disk.new (λ d i. HasKeys self i) }
        ensures raises { AtEachMoment D.Disk disk.old disk.new
            (λ d i. (i ≡ d) ⊎ RaisesNext (key_from kind secret.now) d i) }
        ensures unspent { IfOk result
            (λ next. EachImage D.Disk disk.new (IsUnspent next.key next.base)) }
        ensures refused { IfErr result (IsDeskCalledFor self (take 16 secret.now)) }
        ensures refused_else { AnswersDeskRefusal self (take 16 secret.now) result }
        ensures untouched { IsErr result → result ≢ Err SucceedError.DiskFault →
            disk.new ≡ disk.old }
        ensures faults { D.faults disk.old ≤ D.faults disk.new }
        ensures fault { IsErrOf result SucceedError.DiskFault →
            Rose (D.faults disk.old) (D.faults disk.new) }
        ensures kept { result ≢ Err SucceedError.DiskFault → D.faults disk.new ≡ D.faults disk.old }
        ensures counted { OnOk result (RoseBy 8 (D.calls disk.old) (D.calls disk.new)) }
        ensures few { CalledUpTo 8 (D.calls disk.old) (D.calls disk.new) }
        ensures free { OnOk result (count_at self (last_number self) ≢ Count.Spent) }
    {
        let name: [u8; 16] = array_at(secret, 0);
        match self.may_follow(&name) {
            Err(e) => Err(e),
            Ok(()) => self.add_area(alloc, disk, kind, secret),
        }
    }

    // Adds the area of the next key, and signs the link to it. Takes all memory before the first write.
    fn add_area<D: Disk>(
        self,
        alloc: Global,
        disk: &mut D,
        kind: u32,
        secret: &[u8; 48],
    ) -> Result<Desk, SucceedError>
        requires kind { (kind ≡ 5) ⊎ (kind ≡ 6) }
        requires fits { Fits D.Disk self disk.old }
        requires can { CanSucceed self (key_from kind secret.now) }
        ensures next { IfOk result (λ next. next ≡ next_desk self (key_from kind secret.now)) }
        ensures fits { IfOk result (λ next. Fits D.Disk next disk.new) }
        ensures signed { OnOk result
            (EachImage D.Disk disk.new
            (λ i. IsSigned i (slot_here self (last_number self))
            (link_text (public_key (key_from kind secret.now))))) }
        ensures moments { AtEachMoment D.Disk disk.old disk.new
            (SignsAtMost (slot_here self (last_number self))
            (link_text (public_key (key_from kind secret.now)))) }
        ensures keys { AtEachMoment D.Disk disk.old disk.new (λ d i. HasKeys self i) }
        ensures raises { AtEachMoment D.Disk disk.old disk.new
            (λ d i. (i ≡ d) ⊎ RaisesNext (key_from kind secret.now) d i) }
        ensures unspent { IfOk result
            (λ next. EachImage D.Disk disk.new (IsUnspent next.key next.base)) }
        ensures only { IfErr result
            (λ e. (e ≡ SucceedError.DiskFault) ⊎ (e ≡ SucceedError.Memory no_memory)) }
        ensures untouched { IsErr result → result ≢ Err SucceedError.DiskFault →
            disk.new ≡ disk.old }
        ensures faults { D.faults disk.old ≤ D.faults disk.new }
        ensures fault { IsErrOf result SucceedError.DiskFault →
            Rose (D.faults disk.old) (D.faults disk.new) }
        ensures kept { result ≢ Err SucceedError.DiskFault → D.faults disk.new ≡ D.faults disk.old }
        ensures counted { OnOk result (RoseBy 8 (D.calls disk.old) (D.calls disk.new)) }
        ensures few { CalledUpTo 8 (D.calls disk.old) (D.calls disk.new) }
    {
        let slots = slots_of(kind);
        let key = match build_key(alloc, kind, secret) {
            Ok(key) => key,
            Err(StartError::Memory(none)) => return Err(SucceedError::Memory(none)),
            Err(_) => unreachable!(),
        };
        let link = link_text(&key.public());
        let zeros = filled(alloc, 0u8, 64 + 128 * slots as usize)?;
        let counts = filled(alloc, Count::Free, slots as usize)?;
        let base = self.base();
        let own_slots = self.counts().len() as u32;
        let next = self.into_next(key, counts)?;
        raise(disk, base, own_slots, &zeros, kind, secret, &link)?;
        Ok(next)
    }
}

// Converts the error of opening a desk into that of a succession. `Held` cannot occur here.
fn started(e: StartError) -> SucceedError
    requires { e ≢ StartError.Held }
    ensures { result ≡ started e }
{
    match e {
        StartError::NoKey => SucceedError::NoKey,
        StartError::BadBlock => SucceedError::BadBlock,
        StartError::DiskFault => SucceedError::DiskFault,
        StartError::Memory(none) => SucceedError::Memory(none),
        StartError::Held => unreachable!(),
    }
}
