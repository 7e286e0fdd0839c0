//! Tests of the engine that proposes logs and tables, as tables against public calls: conflicts that are counted, sequents
//! that are made, and a search in few steps. The crate holds nothing else.
#![tactic(auto)]

#[cfg(test)]
mod conflicts;
#[cfg(test)]
mod generated;
#[cfg(test)]
mod pairs;
#[cfg(test)]
mod proposals;
