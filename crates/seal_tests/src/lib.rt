//! Tests of signatures and of the desk: worked examples, outside vectors, and facts that no clause states.
#![tactic(auto)]

#[cfg(test)]
mod asserts;
#[cfg(test)]
mod desk;
#[cfg(test)]
mod reducing;
#[cfg(test)]
mod signatures;
#[cfg(test)]
mod standard;
#[cfg(test)]
mod turned;
