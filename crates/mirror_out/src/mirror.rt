//! A further place that takes the output.
ghost use Rattle.std.specs.Prelude.{◌≡◌, ◌+◌, ◌≤◌, List, ℕ, length, OnOk, OnErr};
ghost use Rattle.std.specs.declared.option.Option.{Option};
ghost use Rattle.std.specs.Io.KnownBytes.{Appends};
ghost use Rattle.road_io.specs.Causes.{HasCause};
ghost use Rattle.mirror_out.specs.Mirrors.{PromisedLess};

use road_io::Failed;

/// A further place that takes the output, and appends it to what it held.
pub trait Mirror: Drop {
    /// The octets that it holds, if it tells them.
    ghost octets: { Self → Option (List ℕ) };

    /// Its label.
    ghost named: { Self → ℕ };

    /// The number of its failures, which stops at 2^64 - 1. A put that succeeds leaves it unchanged.
    ghost faults: { Self → ℕ };

    /// The number of pieces that it was handed, including those refused.
    ghost handed: { Self → ℕ };

    /// The number of puts that it promises to take.
    ghost puts: { Self → ℕ };

    /// The number of octets that it promises to take in them.
    ghost room: { Self → ℕ };

    /// Returns the label, which no put changes.
    fn label(&self) -> u32
        ensures { result ≡ named self.now };

    /// Takes a piece, after what it holds. Fails only if it promised no put, or fewer octets than the piece has. A put
    /// that fails leaves the octets that the mirror states.
    fn put(&mut self, piece: &[u8]) -> Result<(), Failed>
        ensures ok { OnOk result (Appends (octets self.old) (octets self.new) piece.now) }
        ensures label { named self.new ≡ named self.old }
        ensures err { OnErr result (PromisedLess 1 piece.now (puts self.old) (room self.old)) }
        ensures left { OnErr result (octets self.new ≡ octets self.old) }
        ensures puts { OnOk result (puts self.old ≤ puts self.new + 1) }
        ensures room { OnOk result (room self.old ≤ room self.new + length piece.now) }
        ensures kept { OnOk result (faults self.new ≡ faults self.old) }
        ensures cause { HasCause (faults self.old) (faults self.new) result }
        ensures counted { handed self.new ≡ handed self.old + 1 };
}
