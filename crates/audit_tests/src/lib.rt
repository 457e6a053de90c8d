//! Tests of the client and of the audits: worked examples over one map, and signed answers of another program. Each
//! test shows facts that no clause states.
#![tactic(auto)]

#[cfg(test)]
mod asserts;
#[cfg(test)]
mod audit;
#[cfg(test)]
mod audit_keys;
#[cfg(test)]
mod audit_reach;
#[cfg(test)]
mod chains;
#[cfg(test)]
mod client;
#[cfg(test)]
mod octets;
#[cfg(test)]
mod owners;
#[cfg(test)]
mod signed_answers;
