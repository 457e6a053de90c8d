//! The command `audit-reach`.

ghost use Rattle.std.specs.Prelude.{◌≡◌, IfOk};
ghost use Rattle.std.specs.Option.{option_map};
ghost use Rattle.road_line.specs.WithinLine.{refused_near_line};
ghost use Rattle.route_audit.specs.Radii.{radii};
ghost use Rattle.audit_commands.specs.Headline.{AuditsFiles};

use crate::auditing::audit_files;
use crate::telling::Telling;
use command_files::{Conclusion, Fault};
use octet_text::NoMemory;
use proof_octets::NearQuery;
use road_io::{Disk, Library, Sink};
use road_line::line_of_refused_near;
use route_audit::Radii;
use route_client::NearError;
use std::alloc::Global;

// How `audit-reach` reports on range queries.
struct RadiusTelling;

impl Telling for RadiusTelling {
    ghost use Rattle.road_line.specs.WithinLine.{refused_near_line};

    type Kind = Radii;

    ghost refused = { refused_near_line };

    fn line_of_refused(alloc: Global, why: NearError) -> Result<Vec<u8>, NoMemory> {
        line_of_refused_near(alloc, why)
    }
}

/// Writes what a reply to a range query is evidence of, using the owner's disk and a publication, under a public
/// key and, if given, the chain of links in a file.
pub fn audit_reach<L: Library, K: Sink, D: Disk>(
    alloc: Global,
    library: &mut L,
    sink: &mut K,
    disk: &mut D,
    key: &str,
    publication: &str,
    reply: &str,
    query: NearQuery,
    chain: Option<&str>,
) -> Result<Conclusion, Fault>
    ensures { AuditsFiles radii refused_near_line D.Disk disk.old disk.new
        key.now publication.now reply.now query (option_map (λ name. name.now) chain.entry)
        (L.files library.new) (L.asked library.old) (L.asked library.new)
        (L.faults library.old) (L.faults library.new)
        (K.taken sink.old) (K.taken sink.new) (K.faults sink.old) (K.faults sink.new) result }
{
    audit_files::<RadiusTelling, L, K, D>(
        alloc,
        library,
        sink,
        disk,
        key,
        publication,
        reply,
        query,
        chain,
    )
}
