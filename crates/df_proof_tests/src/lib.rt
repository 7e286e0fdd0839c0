//! Tests of sequents, whole numbers, the kernel, classes of equal nodes, logs, and tables as counterexamples, as tables
//! against their public calls. The crate holds nothing else.
#![tactic(auto)]

#[cfg(test)]
mod congruences;
#[cfg(test)]
mod expecting;
#[cfg(test)]
mod integers;
#[cfg(test)]
mod kernel;
#[cfg(test)]
mod lines;
#[cfg(test)]
mod logs;
#[cfg(test)]
mod sequents;
#[cfg(test)]
mod tables;
