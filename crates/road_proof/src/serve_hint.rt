//! The hint that `serve` keeps its book.

use std::io::IsTerminal;
use std::time::{Duration, Instant};

/// Tests whether more than a second has passed since then. Returns false if the clock cannot be read.
fn is_slow(rt: HostRuntime, begun: Option<Instant>) -> bool {
    let Some(begun) = begun else {
        return false;
    };
    match begun.elapsed(&rt) {
        Ok(taken) => taken > Duration::from_secs(1),
        Err(_) => false,
    }
}

/// After a slow `prove` that has answered, reports that `serve` keeps its book, if standard error is a terminal.
pub fn tell_of_serve(rt: HostRuntime, publication: &str, begun: Option<Instant>) {
    if is_slow(rt, begun) && rt.stderr().is_terminal() {
        let _ = eprintln!(rt;
            "road_proof: {publication}: `prove` prepares its book for each query. `road_proof serve` prepares it once, and answers many."
        );
    }
}
