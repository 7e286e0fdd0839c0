//! Tests of the back end, against the calls that other crates make: a program that is compiled, codes by hand on the
//! machine, their texts, and reports; and tests of further texts that the program writes and reads: logs of proofs, and
//! generated sources.
#![tactic(auto)]

#[cfg(test)]
mod compiling;
#[cfg(test)]
mod ending;
#[cfg(test)]
mod expecting;
#[cfg(test)]
mod listing;
#[cfg(test)]
mod logs;
#[cfg(test)]
mod machine;
#[cfg(test)]
mod programs;
#[cfg(test)]
mod reports;
#[cfg(test)]
mod sources;
