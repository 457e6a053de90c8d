//! Guarded calls among the steps of a life.
ghost use Rattle.std.specs.Prelude.{List, Option, ℕ};
ghost use Rattle.desk_sight.specs.declared.looking.Spending.{Spending};
ghost use Rattle.desk_sight.specs.declared.sight.Sight.{Sight};
ghost use Rattle.owner_commands.specs.Releases.{Release};
ghost use Rattle.road_command.specs.Requests.{Request};
ghost use Rattle.guarded_run.specs.CallSteps.{IsPartOfLife};
ghost use Rattle.guarded_run.specs.Guarding.{Guards};
ghost use Rattle.guarded_run.specs.declared.guarding.End.{End};

use mirror_out::Mirror;
use road_io::{Disk, Library, Sink, Source};

/// Each guarded call is part of a life: a step that spends what waits in the desk, and then, unless the call is
/// refused, a step that runs. So what holds of every life holds of every list of guarded calls: no one-time key signs
/// twice, and the desk stays in order.
pub fn guarded_calls_are_steps<L: Library, S: Source, I: Sink, K: Sink, D: Disk, M: Mirror>()
    ensures { (awaited : K → Option (List ℕ)) (asked : Option Request) (first : Option (List ℕ))
        (sight : Option Sight) (signer : Option (List ℕ)) (spending : Spending) (end : End)
        (l after_l : L) (s after_s : S) (i : I) (after_k : K) (old new : D)
        (ms after_ms gone after_gone : List M) →
        Guards L.Library S.Source I.Sink K.Sink awaited D.Disk M.Mirror asked first sight signer
        spending end l after_l s after_s i after_k old new ms after_ms gone after_gone →
        (before : List Release) →
        IsPartOfLife M.octets M.named M.handed M.puts M.room D.Disk old new before }
{}
