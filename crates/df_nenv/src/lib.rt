//! Environments: what the file declares, which locals are in scope, and what is known of their types and so of
//! the type of an expression.
#![tactic(auto)]

mod environment;
mod outlook;

pub use environment::{Environment, Inferred, Local, Role, called};
pub use outlook::{
    Outlook, foresee, is_arithmetic, last_type, results_of, type_of_call, value_type,
};
