//! Names and typing: one row for each construct, and folds that read it.
//!
//! A line of a `calc`, and hints, that belong to no step are typed, and no run, ghost rule or rule of assignment sees them.
//! An argument for a ghost parameter is ghost code, so a guard does not mention a ghost by it.
#![tactic(auto)]

ghost use Rattle.df_typing.specs.Cases.{Cases};
ghost use Rattle.df_typing.specs.Laws.{ToldIsLeast, SilentIsFaultless};

mod form;
mod rule;
mod scope;
mod table;
mod tree;

pub use form::{
    Declares, Demand, Form, Head, Means, Naming, Own, Owner, Places, Role, Row, Test, Uses, Within,
    form_of,
};
pub use rule::{Fault, Operation, Operator, Rule};
pub use scope::{Around, Known, Use};
pub use table::Kind;
pub use tree::{Named, Signed};

/// What is told is the least that is broken.
pub fn told_is_least()
    ensures { ToldIsLeast }
{}

/// Where nothing is told, nothing is broken.
pub fn silent_is_faultless()
    ensures { SilentIsFaultless }
{}

/// What sources are told to break.
pub fn cases()
    ensures { Cases }
{}
