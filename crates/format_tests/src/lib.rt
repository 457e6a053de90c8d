//! Tests of trees, of formats, of publications in pieces, and of their inputs and outputs: worked examples, outside
//! vectors, and facts that no clause states.
#![tactic(auto)]

#[cfg(test)]
mod asserts;
#[cfg(test)]
mod covers;
#[cfg(test)]
mod formats;
#[cfg(test)]
mod in_memory;
#[cfg(test)]
mod mirrors;
#[cfg(test)]
mod pieces;
#[cfg(test)]
mod placed;
#[cfg(test)]
mod publications;
#[cfg(test)]
mod real_files;
#[cfg(test)]
mod rising;
#[cfg(test)]
mod sending;
#[cfg(test)]
mod streams;
