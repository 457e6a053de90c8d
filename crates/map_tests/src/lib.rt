//! Tests of maps, their files and searches: worked examples, and facts that no clause states.
#![tactic(auto)]

#[cfg(test)]
mod arc_files;
#[cfg(test)]
mod frames;
#[cfg(test)]
mod leaves;
#[cfg(test)]
mod maps;
#[cfg(test)]
mod octets;
#[cfg(test)]
mod orders;
#[cfg(test)]
mod road_files;
#[cfg(test)]
mod same;
#[cfg(test)]
mod searches;
#[cfg(test)]
mod words;
