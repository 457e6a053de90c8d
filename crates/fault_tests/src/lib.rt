//! Tests of runs in which one outside call fails, a reply is cut, or the disk stops. The objects are in memory. The
//! failure is tried at each call, up to a run in which no call fails. No clause states how many calls there are,
//! nor that the next run succeeds.
#![tactic(auto)]

#[cfg(test)]
mod disks;
#[cfg(test)]
mod frames;
#[cfg(test)]
mod lines;
#[cfg(test)]
mod loads;
#[cfg(test)]
mod mirrors;
#[cfg(test)]
mod owner;
#[cfg(test)]
mod parties;
#[cfg(test)]
mod replies;
#[cfg(test)]
mod stops;
