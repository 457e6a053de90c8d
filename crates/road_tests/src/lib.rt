//! Tests of the server: tables of distances, landmarks and their codes, books, and replies for routes and for radii
//! over one map. Each test shows facts that no clause states.
#![tactic(auto)]

#[cfg(test)]
mod codes;
#[cfg(test)]
mod distances;
#[cfg(test)]
mod holding;
#[cfg(test)]
mod octets;
#[cfg(test)]
mod over_line;
#[cfg(test)]
mod reach;
#[cfg(test)]
mod same;
#[cfg(test)]
mod server;
