//! Tests of the front, from bytes to files, and of what it tells, by its public calls.
#![tactic(auto)]

#[cfg(test)]
mod building;
#[cfg(test)]
mod expecting;
#[cfg(test)]
mod expressions;
#[cfg(test)]
mod files;
#[cfg(test)]
mod intervals;
#[cfg(test)]
mod lines;
#[cfg(test)]
mod outside;
#[cfg(test)]
mod tokens;
