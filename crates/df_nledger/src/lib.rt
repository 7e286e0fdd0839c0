//! What is known and what is owed on the way over a method, in order, over a table of nodes.
#![tactic(auto)]

mod call;
mod clauses;
mod ledger;
mod measure;
mod said;
mod setting;

pub use ledger::Ledger;
pub use said::Said;
pub use setting::Setting;
