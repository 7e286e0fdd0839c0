//! The search for a proof: a log that derives a sequent, or evidence for why it stopped. An engine goes with the
//! searches of one method, and what it learnt from hypotheses alone stays for the next sequent. Tables are looked
//! for by a new search alone, so that no table depends on the sequents before.
#![tactic(auto)]

mod confirming;
mod conflicts;
mod decisions;
mod ends;
mod engine;
mod exhausting;
mod found;
mod lessening;
mod needing;
mod proposed;
mod searching;

pub use engine::Engine;
pub use found::{Budget, Found, What};
pub use proposed::{look, search, search_with};
