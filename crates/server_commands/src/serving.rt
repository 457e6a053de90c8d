//! The command `serve`.

ghost use Rattle.std.specs.Prelude.{◌≡◌, ◌≤◌, ℕ, [], length, Some, Ok, Err, IfOk, IfErr, IfSome, OnOk, ◌∷◌, ◌++◌};
ghost use Rattle.octet_text.specs.Want.{no_memory};
ghost use Rattle.std.specs.Option.{option_map};
ghost use Rattle.road_io.specs.Given.{Gave};
ghost use Rattle.road_io.specs.Disk.{Narrows};
ghost use Rattle.route_client.specs.Verdicts.{header_tested};
ghost use Rattle.route_service.specs.Machine.{first_state};
ghost use Rattle.route_service.specs.Sessions.{state_of};
ghost use Rattle.command_files.specs.Reading.{Loads};
ghost use Rattle.command_files.specs.Endings.{Promises, NoDisk, NoEnd, WhyNot};
ghost use Rattle.command_files.specs.Asking.{AsksFront, if_named};
ghost use Rattle.command_files.specs.Spared.{SparesLibrary, SparesBut};
ghost use Rattle.command_files.specs.declared.fault.Fault.TheVariants.{Memory};
ghost use Rattle.command_books.specs.Installing.{EndsInstalling, IsInstallable};
ghost use Rattle.server_commands.specs.Guarding.{guarded, unguarded, IsAsNamed, guard_at, tested, refusal_line, IsFollowed, OverFiles};
ghost use Rattle.server_commands.specs.Serving.{ServesFrames, TellsFrames, ends_serve};
ghost use Rattle.server_commands.specs.ServingEnds.{ended_serving};

use command_books::install;
use command_files::{Conclusion, Fault, Told, load_chain, load_hex, load_publication, write_told};
use lms_tree::Link;
use octet_text::Sha;
use proof_octets::{Publication, range_laws};
use road_io::{Library, Sink, Source};
use road_line::line_of_refused;
use route_client::{CheckError, test_header};
use route_service::{Guard, ServeError, Service};
use std::alloc::Global;

/// The greatest number of octets in a frame's body.
const MOST_OCTETS: u32 = 4_194_304;

/// The greatest number of frames.
const MOST_FRAMES: u32 = 1_000_000;

/// Answers the frames of a source over a publication and over those installed later.
pub fn serve<L: Library, S: Source, K: Sink>(
    alloc: Global,
    library: &mut L,
    source: &mut S,
    sink: &mut K,
    publication: &str,
) -> Result<Conclusion, Fault>
    ensures promised { Promises (ends_serve (unguarded publication.now)) TellsFrames NoDisk
        (L.files library.new) (L.faults library.old) (L.faults library.new)
        (K.taken sink.old) (K.taken sink.new) (K.faults sink.old) (K.faults sink.new) result }
    ensures library { SparesLibrary result (L.faults library.old) (L.faults library.new) }
    ensures asked { L.asked library.new ≡ L.asked library.old ++ publication.now ∷ [] }
    ensures source { SparesBut Fault.Source result (S.faults source.old) (S.faults source.new) }
    ensures sink { SparesBut Fault.Sink result (K.faults sink.old) (K.faults sink.new) }
    ensures serves { ServesFrames (unguarded publication.now) (L.files library.new)
        (S.left source.old) (S.left source.new) (S.faults source.old) (S.faults source.new)
        (K.taken sink.old) (K.taken sink.new) result }
    ensures gave { Gave (S.given source.old) (S.given source.new) (λ octets. ServesFrames
        (unguarded publication.now) (L.files library.new) (Some octets) (Some [])
        (S.faults source.old) (S.faults source.new) (K.taken sink.old) (K.taken sink.new) result) }
    ensures ended { OnOk result (S.ended source.new) }
    ensures cut { result ≡ Err Fault.TruncatedFrame → S.ended source.new }
{
    range_laws();
    let publication = load_publication(alloc, library, publication)?;
    serve_tested(alloc, source, sink, Guard::Open, publication)
}

/// Answers the frames of a source over a publication that is signed under a public key or, if a chain is given,
/// under a key to which the chain leads. Also answers over those installed later, which must be signed in the same
/// way. If the chain or the first publication is not signed, writes the line that `check` would write, and takes no
/// frame.
pub fn serve_signed<L: Library, S: Source, K: Sink>(
    alloc: Global,
    library: &mut L,
    source: &mut S,
    sink: &mut K,
    publication: &str,
    key: &str,
    chain: Option<&str>,
) -> Result<Conclusion, Fault>
    ensures promised { Promises (ends_serve (guarded publication.now key.now
        (option_map (λ word. word.now) chain.entry))) TellsFrames NoDisk
        (L.files library.new) (L.faults library.old) (L.faults library.new)
        (K.taken sink.old) (K.taken sink.new) (K.faults sink.old) (K.faults sink.new) result }
    ensures library { SparesLibrary result (L.faults library.old) (L.faults library.new) }
    ensures asked { AsksFront (publication.now ∷ key.now ∷
        if_named (option_map (λ word. word.now) chain.entry)) (L.asked library.old) (L.asked library.new) }
    ensures source { SparesBut Fault.Source result (S.faults source.old) (S.faults source.new) }
    ensures sink { SparesBut Fault.Sink result (K.faults sink.old) (K.faults sink.new) }
    ensures serves { ServesFrames (guarded publication.now key.now
        (option_map (λ word. word.now) chain.entry)) (L.files library.new)
        (S.left source.old) (S.left source.new) (S.faults source.old) (S.faults source.new)
        (K.taken sink.old) (K.taken sink.new) result }
    ensures gave { Gave (S.given source.old) (S.given source.new) (λ octets. ServesFrames
        (guarded publication.now key.now (option_map (λ word. word.now) chain.entry))
        (L.files library.new) (Some octets) (Some [])
        (S.faults source.old) (S.faults source.new) (K.taken sink.old) (K.taken sink.new) result) }
    ensures ended { result ≡ Ok Conclusion.Done → S.ended source.new }
    ensures cut { result ≡ Err Fault.TruncatedFrame → S.ended source.new }
{
    range_laws();
    let publication = load_publication(alloc, library, publication)?;
    let guard = load_guard(alloc, library, key, chain)?;
    serve_tested(alloc, source, sink, guard, publication)
}

/// Answers the frames of a source over a publication, if it passes the guard's tests. If it fails one, writes the
/// line of the first test that fails, and takes no frame.
fn serve_tested<S: Source, K: Sink>(
    alloc: Global,
    source: &mut S,
    sink: &mut K,
    guard: Guard,
    publication: Publication,
) -> Result<Conclusion, Fault>
    requires short { length publication.signature ≤ 1452 }
    requires few { IsFollowed guard }
    ensures promised { OverFiles guard publication (λ files named. (before now : ℕ) →
        Promises (ends_serve named) TellsFrames NoDisk files before now
        (K.taken sink.old) (K.taken sink.new) (K.faults sink.old) (K.faults sink.new) result) }
    ensures source { SparesBut Fault.Source result (S.faults source.old) (S.faults source.new) }
    ensures sink { SparesBut Fault.Sink result (K.faults sink.old) (K.faults sink.new) }
    ensures serves { OverFiles guard publication (λ files named. ServesFrames named files
        (S.left source.old) (S.left source.new) (S.faults source.old) (S.faults source.new)
        (K.taken sink.old) (K.taken sink.new) result) }
    ensures gave { OverFiles guard publication (λ files named. Gave (S.given source.old)
        (S.given source.new) (λ octets. ServesFrames named files (Some octets) (Some [])
        (S.faults source.old) (S.faults source.new) (K.taken sink.old) (K.taken sink.new) result)) }
    ensures ended { result ≡ Ok Conclusion.Done → S.ended source.new }
    ensures cut { result ≡ Err Fault.TruncatedFrame → S.ended source.new }
    ensures done { tested guard publication ≡ Ok tt → IfOk result (λ verdict.
        verdict ≡ Conclusion.Done) }
{
    let refused = refusal(alloc, &guard, &publication)?;
    match refused {
        Some(told) => write_told(sink, &told),
        None => serve_over(alloc, source, sink, guard, publication),
    }
}

/// Answers the frames of a source over a publication that passes the guard's tests.
fn serve_over<S: Source, K: Sink>(
    alloc: Global,
    source: &mut S,
    sink: &mut K,
    guard: Guard,
    publication: Publication,
) -> Result<Conclusion, Fault>
    requires short { length publication.signature ≤ 1452 }
    requires passed { tested guard publication ≡ Ok tt }
    ensures promised { OverFiles guard publication (λ files named. (before now : ℕ) →
        Promises (ends_serve named) TellsFrames NoDisk files before now
        (K.taken sink.old) (K.taken sink.new) (K.faults sink.old) (K.faults sink.new) result) }
    ensures source { SparesBut Fault.Source result (S.faults source.old) (S.faults source.new) }
    ensures sink { SparesBut Fault.Sink result (K.faults sink.old) (K.faults sink.new) }
    ensures serves { OverFiles guard publication (λ files named. ServesFrames named files
        (S.left source.old) (S.left source.new) (S.faults source.old) (S.faults source.new)
        (K.taken sink.old) (K.taken sink.new) result) }
    ensures gave { OverFiles guard publication (λ files named. Gave (S.given source.old)
        (S.given source.new) (λ octets. ServesFrames named files (Some octets) (Some [])
        (S.faults source.old) (S.faults source.new) (K.taken sink.old) (K.taken sink.new) result)) }
    ensures done { IfOk result (λ verdict. verdict ≡ Conclusion.Done) }
    ensures ended { OnOk result (S.ended source.new) }
    ensures cut { result ≡ Err Fault.TruncatedFrame → S.ended source.new }
{
    let mut service = service_over(alloc, guard, publication)?;
    let served = route_service::serve(alloc, &mut service, source, sink, MOST_OCTETS, MOST_FRAMES);
    ended_serving(served)
}

/// Loads the guard: the public key in a file and, if given, the chain in a file.
fn load_guard<L: Library>(
    alloc: Global,
    library: &mut L,
    key: &str,
    chain: Option<&str>,
) -> Result<Guard, Fault>
    ensures loads { Loads (λ guard. guard)
        (λ folder. guard_at folder (Some (key.now, option_map (λ word. word.now) chain.entry)))
        (L.files library.new) (L.faults library.old) (L.faults library.new) result }
    ensures narrows { Narrows (L.files library.old) (L.files library.new) }
    ensures asked { AsksFront (key.now ∷ if_named (option_map (λ word. word.now) chain.entry))
        (L.asked library.old) (L.asked library.new) }
    ensures few { IfOk result IsFollowed }
    ensures named { IfOk result (IsAsNamed (Some (
      key.now,
      option_map (λ word. word.now) chain.entry,
    ))) }
{
    let key: [u8; 56] = load_hex(alloc, library, key)?;
    let links = load_chain(alloc, library, chain)?;
    Ok(Guard::Signed { key, links })
}

/// If the publication fails a guard's tests, returns the line that `check` would write. Otherwise returns `None`.
fn refusal(alloc: Global, guard: &Guard, publication: &Publication) -> Result<Option<Told>, Fault>
    requires { IsFollowed guard.now }
    ensures line { IfOk result (λ told. option_map (λ t. t.text.items) told
        ≡ refusal_line (tested guard.now publication.now)) }
    ensures end { IfOk result (λ told. IfSome told (λ t. t.end ≡ Ok Conclusion.Refused)) }
    ensures memory { IfErr result (λ fault. fault ≡ Memory no_memory) }
{
    match guard {
        Guard::Open => Ok(None),
        Guard::Signed { key, links } => refusal_along(alloc, key, links.as_slice(), publication),
    }
}

/// Does the same for a public key and a chain from it.
fn refusal_along(
    alloc: Global,
    key: &[u8],
    chain: &[Link],
    publication: &Publication,
) -> Result<Option<Told>, Fault>
    requires { length chain.now ≤ 7 }
    ensures line { IfOk result (λ told. option_map (λ t. t.text.items) told ≡ refusal_line
        (header_tested key.now chain.now 0 publication.now.header publication.now.signature)) }
    ensures end { IfOk result (λ told. IfSome told (λ t. t.end ≡ Ok Conclusion.Refused)) }
    ensures memory { IfErr result (λ fault. fault ≡ Memory no_memory) }
{
    match test_header(
        key,
        chain,
        &publication.header,
        publication.signature.as_slice(),
        0,
    ) {
        Ok(()) => Ok(None),
        Err(CheckError::Memory(none)) => Err(Fault::Memory(none)),
        Err(why) => match line_of_refused(alloc, why) {
            Ok(text) => Ok(Some(Told {
                text,
                end: Ok(Conclusion::Refused),
            })),
            Err(none) => Err(Fault::Memory(none)),
        },
    }
}

/// Makes the service over a publication with a guard and without open sessions.
fn service_over(
    alloc: Global,
    guard: Guard,
    publication: Publication,
) -> Result<Service<Sha>, Fault>
    requires { length publication.signature ≤ 1452 }
    ensures starts { IfOk result (λ service. state_of service ≡ first_state guard publication) }
    ensures installable { OnOk result (IsInstallable publication) }
    ensures refused { IfErr result (WhyNot NoDisk (EndsInstalling publication NoEnd)) }
{
    let held = install(alloc, publication)?;
    match Service::new(alloc, guard, held) {
        Ok(service) => Ok(service),
        Err(none) => Err(Fault::Memory(none)),
    }
}

/// Returns how a run ends after it served frames.
fn ended_serving(served: Result<(), ServeError>) -> Result<Conclusion, Fault>
    ensures { result ≡ ended_serving served }
{
    match served {
        Ok(()) => Ok(Conclusion::Done),
        Err(ServeError::FrameTooLong) => Err(Fault::FrameTooLong),
        Err(ServeError::TruncatedFrame) => Err(Fault::TruncatedFrame),
        Err(ServeError::TooManyFrames) => Err(Fault::TooManyFrames),
        Err(ServeError::Source) => Err(Fault::Source),
        Err(ServeError::Sink) => Err(Fault::Sink),
        Err(ServeError::Memory(none)) => Err(Fault::Memory(none)),
    }
}
