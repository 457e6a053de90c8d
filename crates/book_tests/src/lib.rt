//! Tests of judges and books: worked examples, and facts that no clause states.
#![tactic(auto)]

#[cfg(test)]
mod books;
#[cfg(test)]
mod border_items;
#[cfg(test)]
mod items;
#[cfg(test)]
mod judging;
#[cfg(test)]
mod ldm_verdicts;
#[cfg(test)]
mod plain;
#[cfg(test)]
mod plain_apart;
#[cfg(test)]
mod plain_items;
#[cfg(test)]
mod reaching;
#[cfg(test)]
mod same;
#[cfg(test)]
mod signed_apart;
#[cfg(test)]
mod with_borders;
#[cfg(test)]
mod with_landmarks;
