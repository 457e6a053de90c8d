//! Room for the mirrors that a run loses.
ghost use Rattle.std.specs.Prelude.{◌≡◌, [], IfOk};
ghost use Rattle.mirror_out.specs.Gone.{HasRoom};

use mirror_out::FileMirror;
use octet_text::{NoMemory, room_for};
use std::alloc::Global;

/// Makes a list with room for all these mirrors. A run keeps those that it loses there.
pub fn room_for_lost(alloc: Global, mirrors: &Vec<FileMirror>) -> Result<Vec<FileMirror>, NoMemory>
    ensures none { IfOk result (λ gone. gone.items ≡ []) }
    ensures room { IfOk result (λ gone. HasRoom gone mirrors.now) }
{
    room_for(alloc, mirrors)
}
