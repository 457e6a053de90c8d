//! Counting a desk's remaining one-time keys.
ghost use Rattle.std.specs.Prelude.{◌≡◌, ◌≤◌, ◌-◌, length};
ghost use Rattle.std.specs.List.{count_by};
ghost use Rattle.desk_areas.specs.Layout.{slots_of};
ghost use Rattle.key_desk.specs.Desk.{is_free, free_slots};

use crate::desk::Desk;
use desk_areas::Count;

impl Desk {
    /// Returns the number of texts that the current area's key can still sign. Its last one-time key does not
    /// count, since it signs the next key.
    pub fn left(&self) -> u32
        ensures { result ≡ free_slots self.now }
    {
        let counts = self.counts();
        count_free(&counts[..counts.len().saturating_sub(1)])
    }

    /// Returns the number of texts that the current area's key can sign in all: 31 or 1,023.
    pub fn size(&self) -> u32
        ensures { result ≡ slots_of self.now.key.kind - 1 }
    {
        self.counts().len().saturating_sub(1) as u32
    }
}

// Returns the number of free slots.
fn count_free(counts: &[Count]) -> u32
    requires { length counts.now ≤ 1024 }
    ensures { result ≡ count_by is_free counts.now }
{
    let mut free = 0;
    for count in counts {
        if *count == Count::Free {
            free += 1;
        }
    }
    free
}
