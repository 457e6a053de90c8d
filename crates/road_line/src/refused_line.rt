//! The line of a refused reply.

ghost use Rattle.std.specs.Prelude.{◌≡◌, ◌++◌, codes, IfOk, OnOk, string_bytes};
ghost use Rattle.road_line.specs.WithinLine.{refused_near_line, refused_near_words};

use crate::verdict_line::{name_of_cover, name_of_seal};
use octet_text::{NoMemory, print, push_str, text_of};
use route_client::NearError;
use std::alloc::Global;

/// Returns the line of a refused reply to a range query: the name of the test that it failed, and the test's
/// fields.
pub fn line_of_refused_near(alloc: Global, why: NearError) -> Result<Vec<u8>, NoMemory>
    ensures { IfOk result (λ text. text.items ≡ refused_near_line why) }
{
    let text = refused(alloc, why)?;
    Ok(text.into_bytes())
}

fn refused(alloc: Global, why: NearError) -> Result<String, NoMemory>
    ensures { IfOk result (λ text. string_bytes text ≡ refused_near_line why) }
{
    let mut text = text_of(alloc, "refused ")?;
    print_refusal(&mut text, why)?;
    push_str(&mut text, "\n")?;
    Ok(text)
}

fn print_refusal(text: &mut String, why: NearError) -> Result<(), NoMemory>
    ensures { OnOk result (string_bytes text.new ≡ string_bytes text.old ++ refused_near_words
        why) }
{
    match why {
        NearError::Malformed(at) => print(text, format_args!("Malformed {at}")),
        NearError::Stale(version) => print(text, format_args!("Stale {version}")),
        NearError::BadChain(link, why) => {
            let name = name_of_seal(why);
            print(text, format_args!("BadChain {link} {name}"))
        }
        NearError::BadSignature(why) => {
            let name = name_of_seal(why);
            print_named(text, "BadSignature ", name)
        }
        NearError::BadCover(why) => {
            let name = name_of_cover(why);
            print_named(text, "BadCover ", name)
        }
        NearError::RepeatedNode(id) => print(text, format_args!("RepeatedNode {id}")),
        NearError::MissingTuple(id) => print(text, format_args!("MissingTuple {id}")),
        NearError::Memory(_) => push_str(text, "Memory"),
    }
}

fn print_named(text: &mut String, test: &str, name: &str) -> Result<(), NoMemory>
    ensures { OnOk result (string_bytes text.new ≡ string_bytes text.old ++
        (test.now ++ name.now)) }
{
    print(text, format_args!("{test}{name}"))
}
