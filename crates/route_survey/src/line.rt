//! The line of a survey.
ghost use Rattle.std.specs.Prelude.{◌≡◌, IfOk, string_bytes};
ghost use Rattle.route_survey.specs.Surveys.{survey_line};

use octet_text::{Digest32, NoMemory, hex_of, print};
use std::alloc::Global;

/// Returns the line of a survey: the number of its queries, the number of those accepted, the sum of their lengths,
/// and a digest in lower-case hex.
pub fn line_of_survey(
    alloc: Global,
    queries: u32,
    accepted: u32,
    total: u64,
    digest: &Digest32,
) -> Result<Vec<u8>, NoMemory>
    ensures { IfOk result (λ line. line.items ≡ survey_line queries accepted total digest.now) }
{
    let text = printed(alloc, queries, accepted, total, digest)?;
    Ok(text.into_bytes())
}

fn printed(
    alloc: Global,
    queries: u32,
    accepted: u32,
    total: u64,
    digest: &Digest32,
) -> Result<String, NoMemory>
    ensures { IfOk result (λ text.
        string_bytes text ≡ survey_line queries accepted total digest.now) }
{
    let digits = hex_of(alloc, digest)?;
    let mut text = String::new(alloc);
    print(
        &mut text,
        format_args!("queries {queries} accepted {accepted} total {total} digest {digits}\n"),
    )?;
    Ok(text)
}
