//! The whole program as a function: `run` does what its arguments ask for, over any library, source, sink, disk and
//! mirrors.
//!
//! Its contract joins the guarantees of the commands of all parties. The laws draw their consequences for whole lives
//! of an owner's disk.
#![tactic(auto)]

pub use laws::{
    no_key_signs_twice, runs_find_nearest, runs_leave_desks_in_order, runs_sign_over_none,
};
pub use program::{run, run_keeping};

mod laws;
mod program;
