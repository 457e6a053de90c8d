//! The lines of a client's verdict.

ghost use Rattle.std.specs.Prelude.{◌≡◌, ◌++◌, codes, IfOk, OnOk, string_bytes};
ghost use Rattle.std.specs.Fmt.{decimal};
ghost use Rattle.road_line.specs.VerdictLine.{accepted_line, accepted_words, refused_line, refused_words, judged_words, seal_name, cover_name};

use crate::route_line::print_route;
use lms_tree::SealError;
use octet_text::{NoMemory, print, push_str, text_of};
use proof_judge::Refusal;
use route_client::{CheckError, Checked, CoverFault};
use std::alloc::Global;

/// Returns the line of an accepted result: a route and its length, or that no route exists.
pub fn line_of_accepted(alloc: Global, checked: &Checked) -> Result<Vec<u8>, NoMemory>
    ensures { IfOk result (λ text. text.items ≡ accepted_line checked.now) }
{
    let text = accepted(alloc, checked)?;
    Ok(text.into_bytes())
}

fn accepted(alloc: Global, checked: &Checked) -> Result<String, NoMemory>
    ensures { IfOk result (λ text. string_bytes text ≡ accepted_line checked.now) }
{
    let mut text = text_of(alloc, "accepted ")?;
    print_accepted(&mut text, checked)?;
    Ok(text)
}

fn print_accepted(text: &mut String, checked: &Checked) -> Result<(), NoMemory>
    ensures { OnOk result (string_bytes text.new ≡ string_bytes text.old ++ accepted_words
        checked.now) }
{
    match checked {
        Checked::Route(accepted) => print_route(text, accepted.length, accepted.route.as_slice()),
        Checked::Apart { .. } => push_str(text, "none\n"),
    }
}

/// Returns the line of a refused reply: the name of the test that it failed, and the test's fields.
pub fn line_of_refused(alloc: Global, why: CheckError) -> Result<Vec<u8>, NoMemory>
    ensures { IfOk result (λ text. text.items ≡ refused_line why) }
{
    let text = refused(alloc, why)?;
    Ok(text.into_bytes())
}

fn refused(alloc: Global, why: CheckError) -> Result<String, NoMemory>
    ensures { IfOk result (λ text. string_bytes text ≡ refused_line why) }
{
    let mut text = text_of(alloc, "refused ")?;
    print_refusal(&mut text, why)?;
    push_str(&mut text, "\n")?;
    Ok(text)
}

fn print_refusal(text: &mut String, why: CheckError) -> Result<(), NoMemory>
    ensures { OnOk result (string_bytes text.new ≡ string_bytes text.old ++ refused_words why) }
{
    match why {
        CheckError::NotAnswer(kind) => print(text, format_args!("NotAnswer {kind}")),
        CheckError::Malformed(at) => print(text, format_args!("Malformed {at}")),
        CheckError::Stale(version) => print(text, format_args!("Stale {version}")),
        CheckError::BadChain(link, why) => {
            let name = name_of_seal(why);
            print(text, format_args!("BadChain {link} {name}"))
        }
        CheckError::BadSignature(why) => {
            let name = name_of_seal(why);
            print_bad_signature(text, name)
        }
        CheckError::BadCover(tree, why) => {
            let name = name_of_cover(why);
            print(text, format_args!("BadCover {tree} {name}"))
        }
        CheckError::Judged(why) => print_judged(text, why),
        CheckError::Memory(_) => push_str(text, "Memory"),
    }
}

fn print_judged(text: &mut String, why: Refusal) -> Result<(), NoMemory>
    ensures { OnOk result (string_bytes text.new ≡ string_bytes text.old ++ judged_words why) }
{
    match why {
        Refusal::RepeatedNode(id) => print(text, format_args!("RepeatedNode {id}")),
        Refusal::BadRoute(hop) => print(text, format_args!("BadRoute {hop}")),
        Refusal::MissingTuple(id) => print(text, format_args!("MissingTuple {id}")),
        Refusal::MissingPair(a, b) => print_missing_pair(text, a, b),
        Refusal::Shorter(length) => print(text, format_args!("Shorter {length}")),
        Refusal::Disagrees(distance) => print(text, format_args!("Disagrees {distance}")),
        Refusal::Memory(_) => push_str(text, "Memory"),
    }
}

fn print_missing_pair(text: &mut String, a: u32, b: u32) -> Result<(), NoMemory>
    ensures { OnOk result (string_bytes text.new ≡ string_bytes text.old ++
        (codes "MissingPair " ++ decimal a ++ codes " " ++ decimal b)) }
{
    print(text, format_args!("MissingPair {a} {b}"))
}

fn print_bad_signature(text: &mut String, name: &str) -> Result<(), NoMemory>
    ensures { OnOk result (string_bytes text.new ≡ string_bytes text.old ++
        (codes "BadSignature " ++ name.now)) }
{
    print(text, format_args!("BadSignature {name}"))
}

/// Returns the name of the reason why a signature does not verify.
pub fn name_of_seal(why: SealError) -> &'static str
    ensures { result.now ≡ seal_name why }
{
    match why {
        SealError::BadKey => "BadKey",
        SealError::BadForm => "BadForm",
        SealError::NoMatch => "NoMatch",
    }
}

/// Returns the name of the reason why items and a cover do not give a root.
pub fn name_of_cover(why: CoverFault) -> &'static str
    ensures { result.now ≡ cover_name why }
{
    match why {
        CoverFault::Place => "Place",
        CoverFault::Short => "Short",
        CoverFault::Long => "Long",
        CoverFault::Differs => "Differs",
    }
}
