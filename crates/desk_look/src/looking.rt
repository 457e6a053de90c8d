//! Whether a desk signed the texts on which an accepted reply rests: the links of its chain, and its header.
ghost use Rattle.std.specs.Prelude.{◌≡◌, ◌≢◌, ◌<◌, false, length, IfOk, OnOk, Ok, Err};
ghost use Rattle.lms_tree.specs.Chains.{chained, verified_along};
ghost use Rattle.key_desk.specs.Desk.{Fits};
ghost use Rattle.desk_look.specs.Forgeries.{Looked, forgery as forgery_with, forgery_of};
ghost use Rattle.desk_look.specs.Left.{IsLeft};
ghost use Rattle.desk_look.specs.Looking.{FindsForgery};
ghost use Rattle.desk_look.specs.Looks.{IsKeyFrom, Says, look_at};

use crate::keys::{first_stray, sealing_key};
use crate::{Forgery, LookError};
use key_desk::{Desk, DeskError};
use lms_tree::{Link, link_text};
use octet_text::{NoMemory, Octets, put_octets};
use road_io::Disk;
use std::alloc::Global;

// Copies octets.
fn copy(alloc: Global, octets: &[u8]) -> Result<Octets, NoMemory>
    ensures { IfOk result (λ copied. copied ≡ octets.now) }
{
    let mut copied = Vec::new(alloc);
    put_octets(&mut copied, octets)?;
    Ok(Octets::from_vec(copied))
}

// Makes a forgery from a key, a text, and a signature of the text under the key.
fn forgery(alloc: Global, key: [u8; 56], text: &[u8], signature: &[u8]) -> Result<Forgery, NoMemory>
    ensures { IfOk result (λ f. f ≡ forgery_with key text.now signature.now) }
{
    Ok(Forgery {
        key,
        text: copy(alloc, text)?,
        signature: copy(alloc, signature)?,
    })
}

// Makes the forgery of the link with a number: the key before the link, the link's text and its signature.
fn forgery_of_link(
    alloc: Global,
    public: &[u8; 56],
    chain: &[Link],
    number: usize,
) -> Result<Forgery, NoMemory>
    requires { number < length chain.now }
    ensures { IfOk result (λ f. f ≡ forgery_of public.now chain.now number) }
{
    let link = &chain[number];
    let key = if number == 0 {
        *public
    } else {
        chain[number - 1].key
    };
    forgery(alloc, key, &link_text(&link.key), link.signature.as_slice())
}

// Returns the first unsigned text. It is the text of the first link that does not lead to a later key of the desk,
// or else the header, if the header is not signed.
fn find_forgery(
    alloc: Global,
    desk: &Desk,
    public: &[u8; 56],
    chain: &[Link],
    header: &[u8],
    signature: &[u8],
    is_signed: bool,
) -> Result<Option<Forgery>, NoMemory>
    requires { verified_along public.now chain.now header.now signature.now ≡ Ok tt }
    ensures { IfOk result
        (FindsForgery desk.now public.now chain.now header.now signature.now is_signed) }
{
    if let Some(number) = first_stray(desk, chain) {
        return Ok(Some(forgery_of_link(alloc, public, chain, number)?));
    }
    if is_signed {
        return Ok(None);
    }
    let key = sealing_key(public, chain, header, signature);
    Ok(Some(forgery(alloc, key, header, signature)?))
}

// Tests whether a text is signed.
fn is_signed<D: Disk>(desk: &mut Desk, disk: &mut D, text: &[u8]) -> Result<bool, DeskError>
    requires { Fits D.Disk desk.old disk.old }
    ensures says { Says (look_at D.Disk desk.old disk.old disk.new) text.now result }
    ensures stays { OnOk result (desk.new ≡ desk.old) }
    ensures left { IsLeft D.Disk desk.old disk.old desk.new disk.new }
    ensures kept { result ≢ Err DeskError.DiskFault → D.faults disk.new ≡ D.faults disk.old }
    ensures closes { result ≡ Err DeskError.DiskFault → desk.new.is_open ≡ false }
    ensures closed { desk.old.is_open ≡ false → result ≡ Err DeskError.Closed }
{
    desk.signed(disk, text)
}

/// Returns the first text that its owner never signed, among those on which an accepted reply rests. The owner's
/// desk tells whether a text is signed. The links come before the header. A link text is signed exactly if it names
/// a later key of the desk.
pub fn look<D: Disk>(
    alloc: Global,
    desk: &mut Desk,
    disk: &mut D,
    public: &[u8; 56],
    chain: &[Link],
    header: &[u8],
    signature: &[u8],
) -> Result<Option<Forgery>, LookError>
    requires fits { Fits D.Disk desk.old disk.old }
    requires own { IsKeyFrom desk.old 0 public.now }
    requires chain { chained public.now chain.now ≡ Ok tt }
    requires signed { verified_along public.now chain.now header.now signature.now ≡ Ok tt }
    ensures looked { Looked (look_at D.Disk desk.old disk.old disk.new)
        public.now chain.now header.now signature.now result }
    ensures left { IsLeft D.Disk desk.old disk.old desk.new disk.new }
    ensures kept { result ≢ Err (LookError.Desk DeskError.DiskFault) →
        D.faults disk.new ≡ D.faults disk.old }
    ensures closes { result ≡ Err (LookError.Desk DeskError.DiskFault) →
        desk.new.is_open ≡ false }
    ensures closed { desk.old.is_open ≡ false → result ≡ Err (LookError.Desk DeskError.Closed) }
{
    match is_signed(desk, disk, header) {
        Err(failure) => Err(LookError::Desk(failure)),
        Ok(signed) => {
            match find_forgery(alloc, desk, public, chain, header, signature, signed) {
                Ok(found) => Ok(found),
                Err(none) => Err(LookError::Memory(none)),
            }
        }
    }
}
