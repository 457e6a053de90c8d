//! Tests of lines, of messages for a reader, of files of hex digits, and of replies for a radius: facts that no
//! clause states.
#![tactic(auto)]

#[cfg(test)]
mod chain_files;
#[cfg(test)]
mod desks;
#[cfg(test)]
mod hex_files;
#[cfg(test)]
mod near_lines;
#[cfg(test)]
mod near_replies;
#[cfg(test)]
mod route_lines;
#[cfg(test)]
mod same;
#[cfg(test)]
mod signed_near;
#[cfg(test)]
mod told;
