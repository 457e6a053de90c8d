//! Tests of the owner, of the commands and of the service. Each test shows facts that no clause states.
#![tactic(auto)]

#[cfg(test)]
mod asserts;
#[cfg(test)]
mod desk;
#[cfg(test)]
mod map;
#[cfg(test)]
mod owner;
#[cfg(test)]
mod reduce;
#[cfg(test)]
mod serving;
#[cfg(test)]
mod survey;
