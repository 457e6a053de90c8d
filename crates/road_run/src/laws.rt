//! The laws of one-time keys and of the desk, over whole lives of the program.
ghost use Rattle.std.specs.Prelude.{List, [], Option, Result, ℕ};
ghost use Rattle.audit_commands.specs.Nearest.{AuditsNearest};
ghost use Rattle.command_files.specs.declared.ended.Conclusion.{Conclusion};
ghost use Rattle.command_files.specs.declared.fault.Fault.{Fault};
ghost use Rattle.proof_octets.specs.declared.query.NearQuery.{NearQuery};
ghost use Rattle.road_command.specs.Requests.{AuditReach};
ghost use Rattle.road_io.specs.Contents.{Folder};
ghost use Rattle.owner_commands.specs.Releases.{Release};
ghost use Rattle.road_io.specs.Moments.{EachImage, still_told};
ghost use Rattle.desk_sight.specs.Tidy.{HasFreshLink, IsTidy};
ghost use Rattle.road_run.specs.BehindLooks.{SignsOverNone};
ghost use Rattle.road_run.specs.Commands.{OnDisk};
ghost use Rattle.road_run.specs.Lives.{EachTells, IsLife, NoneSignsTwice, Run};
ghost use Rattle.road_run.specs.LivesInOrder.{EachCounts, StaysInOrder};

use audit_commands::nearest_headline;
use mirror_out::Mirror;
use road_io::Disk;

/// Take any list of runs, with slots that `look` spends between them and crashes within or between them. Each text
/// whose signature was released is in its slot, in every image at every later moment, in an area of the key that
/// made the signature. No two signatures were made by keys with the same identifier and one-time keys with the same
/// number, unless they consist of equal octets, of the same link text.
///
/// The runs may have any arguments, files, sink and mirrors. Each disk of such a life states its contents.
pub fn no_key_signs_twice<D: Disk, M: Mirror>()
    ensures { (disk : D) (states : List (D × List Release)) →
        EachTells D.Disk disk states →
        (life : IsLife M.octets M.named M.handed M.puts M.room D.Disk disk [] states) →
        NoneSignsTwice M.octets M.named M.handed M.puts M.room D.Disk disk [] states life }
{}

/// Over the same lives, the desk remains in order. In each image with a key, at each moment, the look finds no gap,
/// no text after the first free slot, and zeros in all octets that are always zero. After each step it finds no
/// link to a key other than the next one if the next key has signed.
///
/// The lives may begin with any disk whose open areas are as runs and crashes leave them, such as a disk without a
/// key. Excluded are lives in which a crash or a fault of `succeed` tears a write so that a link text waits while
/// the next area is in use: a torn link text may be any text.
pub fn runs_leave_desks_in_order<D: Disk, M: Mirror>()
    ensures { (disk : D) (before : List Release) (states : List (D × List Release)) →
        EachImage D.Disk disk IsTidy → EachImage D.Disk disk HasFreshLink →
        (life : IsLife M.octets M.named M.handed M.puts M.room D.Disk disk before states) →
        EachCounts M.octets M.named M.handed M.puts M.room D.Disk disk before states life →
        StaysInOrder M.octets M.named M.handed M.puts M.room D.Disk disk before states life }
{}

/// After a look that found the desk fit for its command and spent nothing, a run signs with no one-time key whose
/// slot holds a whole header. It does not sign with a key's last one-time key if the slot of this holds the link to
/// the next key. This holds whatever the arguments, files, sink and mirrors are. If the look spends a slot first,
/// the slot is spent with its own text.
pub fn runs_sign_over_none<D: Disk, M: Mirror>()
    ensures { (old new : D) (run : Run M.octets M.named M.handed M.puts M.room D.Disk old new)
        (public : Option (List ℕ)) → SignsOverNone D.Disk old new run.asked public }
{}

/// The nodes that `nearest` picks from an accepted range reply are the nearest ones of a signed map, or the run
/// that audits the reply writes evidence, as `nearest_headline` states.
pub fn runs_find_nearest<D: Disk>()
    ensures { (old new : D) (key publication reply : List ℕ) (q : NearQuery)
        (chain : Option (List ℕ)) (files : Option Folder) (before now : Option (List ℕ))
        (outcome : Result Conclusion Fault) →
        OnDisk D.Disk old new (AuditReach key publication reply q chain) files before now outcome →
        AuditsNearest D.Disk (still_told D.Disk old new) new key publication reply q chain files
        before now outcome }
{
    nearest_headline::<D>();
}
