//! Tests of `run`, and of the messages about its ends, over objects in memory: facts that no clause states.
#![tactic(auto)]

#[cfg(test)]
mod asserts;
#[cfg(test)]
mod parties;
#[cfg(test)]
mod status;
#[cfg(test)]
mod tell;
