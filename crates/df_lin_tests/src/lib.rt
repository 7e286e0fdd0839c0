//! Tests of linear arithmetic: rows of literals, levels of rows, eliminations and verdicts, as tables against public calls.
//! The crate holds nothing else.
#![tactic(auto)]

#[cfg(test)]
mod eliminations;
#[cfg(test)]
mod expecting;
#[cfg(test)]
mod levels;
#[cfg(test)]
mod rows;
#[cfg(test)]
mod verdicts;
